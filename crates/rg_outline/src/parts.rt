//! The parts, each member of a family by itself.

use crate::expansion::{
    Assertion, DEEPEST, Expansion, NOWHERE, Origin, OutlinePart, PartWord, add, add_all, place_of,
};
use rg_outline_syntax::{
    Clause, Fault, HeadKind, List, MeaningFault, PartWritten, Span, Standing, Texts, push_number,
};
use rg_outline_terms::{ListedWord, bit_of};
use rg_words::limits::MOST_PARTS;
use std::alloc::AllocError;

impl Expansion<'_> {
    /// Works out all parts.
    pub(crate) fn take_parts(&mut self) {
        for part in &self.scope.written.parts {
            if self.scope.is_stopped() {
                break;
            }
            self.take_part(*part);
        }
        let count = self.parts.len();
        if count > MOST_PARTS {
            let last = self.scope.written.parts.last();
            let span = last.map_or(NOWHERE, |part| part.name);
            self.scope.refuse(MeaningFault::TooManyParts(count), span);
        }
    }

    /// Works out a part, or all members of a family of parts.
    fn take_part(&mut self, written: PartWritten) {
        let Some((index, range)) = written.index else {
            self.take_member(written, None);
            return;
        };
        self.scope.refuse_taken(index);
        let place = self.scope.written.ranges.get(range);
        let span = place.map_or(NOWHERE, |range| range.span);
        let numbers = self.scope.numbers_of(range);
        if numbers.is_empty() {
            self.scope.refuse(MeaningFault::EmptyRange, span);
        }
        let mark = self.scope.names.len();
        for place in numbers.start..numbers.end {
            let number = self.scope.number_at(place);
            if number < 0 {
                self.scope.refuse(MeaningFault::IndexBelowZero, span);
            }
            if self.scope.is_stopped() {
                break;
            }
            self.scope.know_number(index, written.span, number);
            self.take_member(written, Some(number));
            self.scope.forget(mark);
        }
    }

    /// Works out one part.
    fn take_member(&mut self, written: PartWritten, number: Option<i128>) {
        let count = self.parts.len();
        if count > MOST_PARTS.saturating_mul(4) {
            self.scope
                .refuse(MeaningFault::TooManyParts(count), written.name);
        }
        self.name_part(written.name, number);
        let mark = self.scope.names.len();
        self.take_heads(written);
        self.take_body(written);
        self.scope.forget(mark);
    }

    /// Names a part, with its number after `_` where it is of a family.
    fn name_part(&mut self, name: Span, number: Option<i128>) {
        let text = name.of(self.scope.source);
        let stored = push_name(&mut self.part_names, text, number);
        self.scope.want_stored(stored.is_ok());
        let place = self.part_names.len().saturating_sub(1);
        if let Some(part) = self.part_names.find(self.part_names.at(place))
            && part < place
        {
            self.scope.refuse(MeaningFault::PartTwice { part }, name);
        }
    }

    /// Adds a part with what its heads say.
    fn take_heads(&mut self, written: PartWritten) {
        let mut relied = Vec::new(self.scope.alloc);
        let mut promised = Vec::new(self.scope.alloc);
        let mut part = OutlinePart {
            span: written.name,
            ..OutlinePart::NOTHING
        };
        for head in self.scope.written.heads(written.heads) {
            match head.kind {
                HeadKind::Let(_) | HeadKind::Procedure(_) => {
                    self.scope.name_head(*head, written.span.end);
                }
                HeadKind::Owns(words) => self.take_owned(&mut part, &mut relied, words),
                HeadKind::Interrupts(name, listed) => self.take_interrupted(*head, name, listed),
                HeadKind::Clause(Clause::Rely, formula) => {
                    let tree = self.scope.step_formula(formula);
                    add(&mut self.scope, &mut relied, tree);
                }
                HeadKind::Clause(Clause::Guar, formula) => {
                    let tree = self.scope.step_formula(formula);
                    add(&mut self.scope, &mut promised, tree);
                }
                HeadKind::Clause(Clause::Post, formula) => {
                    self.take_end(&mut part.last, formula, head.span);
                }
                HeadKind::Clause(_, formula) => {
                    self.take_end(&mut part.first, formula, head.span);
                }
            }
        }
        part.relied = add_all(&mut self.scope, &mut self.clauses, &relied);
        part.promised = add_all(&mut self.scope, &mut self.clauses, &promised);
        add(&mut self.scope, &mut self.parts, part);
    }

    /// Makes words a part's own.
    fn take_owned(&mut self, part: &mut OutlinePart, relied: &mut Vec<usize>, words: List) {
        let mut listed = Vec::new(self.scope.alloc);
        self.scope.words_of(&mut listed, words);
        for owned in &listed {
            let ListedWord { word, span } = *owned;
            if self.scope.word(word).standing == Standing::Fixed {
                self.scope.refuse(MeaningFault::FixedOwned { word }, span);
            }
            let bit = bit_of(word);
            if part.owned_bits & bit == 0 {
                part.owned_bits |= bit;
                let part = self.parts.len();
                let owned = PartWord { part, word, span };
                add(&mut self.scope, &mut self.owned, owned);
                let equation = self.scope.same(word, span);
                add(&mut self.scope, relied, equation);
            }
        }
    }

    /// Takes a part's `pre` or `post`, of which it has one each at most.
    fn take_end(&mut self, end: &mut Option<Assertion>, formula: usize, span: Span) {
        if end.is_some() {
            self.scope.refuse(MeaningFault::ClauseTwice, span);
        } else {
            *end = Some(self.state_assertion(formula));
        }
    }

    /// Works out the body of the last part. After a fault the blocks are no whole tree, and nothing is asked of them.
    fn take_body(&mut self, written: PartWritten) {
        let body = self.block_of(written.body, written.span, DEEPEST);
        if self.scope.is_stopped() {
            return;
        }
        let place = self.parts.len().saturating_sub(1);
        let Some(mut part) = self.parts.get(place).copied() else {
            return;
        };
        part.body = body;
        part.pre = match part.first.or(self.leading(body)) {
            Some(assertion) => assertion,
            None => {
                let truth = self.conjoined(&[], written.name);
                self.asserted(truth, written.name, Origin::Nothing)
            }
        };
        self.settle_body(part);
        part.post = part.last.unwrap_or(self.block(body).last);
        self.aim(body, part.pre, part.pre.full, part.post);
        self.set_part(place, part);
    }

    /// Replaces the part of an index.
    pub(crate) fn set_part(&mut self, index: usize, part: OutlinePart) {
        if let Some(slot) = self.parts.get_mut(index) {
            *slot = part;
        }
    }

    /// Refuses a word that two parts own, or that a part assigns and another owns.
    pub(crate) fn refuse_sharing(&mut self) {
        for part in 0..self.parts.len() {
            self.refuse_sharing_of(part);
        }
    }

    /// Refuses a word of a part that another owns too or assigns.
    fn refuse_sharing_of(&mut self, part: usize) {
        for other in 0..self.parts.len() {
            if part != other
                && let Some(fault) = self.sharing_of(part, other)
            {
                self.scope.stop(fault);
            }
        }
    }

    /// The fault of a word of a part that the other owns too or assigns.
    fn sharing_of(&self, part: usize, other: usize) -> Option<Fault> {
        for owned in &self.owned {
            let word = owned.word;
            if owned.part != part {
                continue;
            }
            if let Some(span) = place_of(&self.owned, other, word) {
                let kind = MeaningFault::OwnedAlready { word, part };
                return Some(Fault::meaning(kind, span));
            }
            if let Some(span) = place_of(&self.assigned, other, word) {
                let kind = MeaningFault::AssignsOwned {
                    part: other,
                    word,
                    owner: part,
                };
                return Some(Fault::meaning(kind, span));
            }
        }
        None
    }
}

/// Adds a name, with its number after `_` where it has one.
fn push_name(names: &mut Texts, text: &[u8], number: Option<i128>) -> Result<(), AllocError> {
    names.unended().extend_from_slice(text)?;
    if let Some(number) = number {
        names.unended().push(b'_')?;
        push_number(names.unended(), number)?;
    }
    names.end()
}
