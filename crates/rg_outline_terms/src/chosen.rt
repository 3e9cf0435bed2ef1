//! Members of a family of which a value over words chooses one.

use crate::families::size_of;
use crate::forest::Root;
use crate::scope::Scope;
use crate::widths::fits;
use rg_outline_syntax::{Comparison, MeaningFault, Span};

/// Members of a family of which an index chooses one: where it is none of their numbers, the last one is read, and none is written.
#[derive(Clone, Copy)]
pub struct Chosen {
    /// The tree of the index, and where it stands.
    pub index: usize,
    pub span: Span,
    /// What holds where the index is read, by the tests of the choices, and the left sides of `and` and `or`, within which it stands.
    pub under: usize,
    /// The first member, and how many words on the next one stands.
    first: usize,
    step: usize,
    /// The number of the first member, and the last number of the family's range.
    pub lowest: i128,
    pub highest: i128,
    /// How many members there are: those whose numbers fit into the width of the index.
    pub count: usize,
    /// The width of the index.
    pub width: u32,
}

/// What an assignment writes.
#[derive(Clone, Copy)]
pub enum Target {
    Word(usize),
    Chosen(Chosen),
}

impl Chosen {
    /// The members with the numbers of a range, each so many words after the one before. Which word is the first isn't known yet.
    pub(crate) fn among(index: usize, span: Span, range: (i128, i128), step: usize) -> Chosen {
        Chosen {
            index,
            span,
            under: 0,
            first: 0,
            step,
            lowest: range.0,
            highest: range.1,
            count: size_of(range),
            width: 0,
        }
    }

    /// The member at a place, from 0.
    pub fn member(self, place: usize) -> usize {
        let offset = place.saturating_mul(self.step);
        self.first.saturating_add(offset)
    }

    /// The number that chooses the member at a place.
    fn number(self, place: usize) -> i128 {
        self.lowest.saturating_add(place as i128)
    }
}

impl Scope<'_> {
    /// What is chosen, with its first word: without the members whose numbers don't fit into the width of the index. It is noted, so that it can be
    /// asked whether the index is one of the numbers.
    pub(crate) fn noted(&mut self, chosen: Option<Chosen>, first: usize) -> Option<Chosen> {
        let chosen = chosen?;
        let (word, width) = self.width_of_index(chosen.index, chosen.span);
        let mut count: usize = 0;
        for place in 0..chosen.count {
            if fits(chosen.number(place), width) {
                count = place.saturating_add(1);
            }
        }
        if count == 0 {
            let fault = MeaningFault::DoesNotFit(chosen.lowest, (word, width));
            self.refuse(fault, chosen.span);
        }
        let made = self.forest.conjoined(&self.guards, chosen.span);
        let noted = Chosen {
            under: self.made(made),
            first,
            count,
            width,
            ..chosen
        };
        let stored = self.chosen.push(noted);
        self.want_stored(stored.is_ok());
        Some(noted)
    }

    /// That the index is the number of the member at a place.
    fn index_is(&mut self, chosen: Chosen, place: usize, span: Span) -> usize {
        let number = self.leaf(Root::Number(chosen.number(place)), span);
        let root = Root::Compare(Comparison::Equal);
        let made = self.forest.binary(root, chosen.index, number, span);
        self.made(made)
    }

    /// The member that is chosen, as nested choices over all: the last member has no test.
    pub(crate) fn chosen_value(&mut self, chosen: Chosen, span: Span) -> usize {
        let last = chosen.count.saturating_sub(1);
        let mut value = self.plain_word(chosen.member(last), span);
        for place in (0..last).rev() {
            let member = self.plain_word(chosen.member(place), span);
            let test = self.index_is(chosen, place, span);
            let made = self.forest.chosen(test, member, value, span);
            value = self.made(made);
        }
        value
    }

    /// What the member at a place becomes where the chosen one becomes this value: the value, or what the member was.
    pub fn chosen_update(
        &mut self,
        chosen: Chosen,
        place: usize,
        value: usize,
        span: Span,
    ) -> usize {
        let test = self.index_is(chosen, place, span);
        let member = self.plain_word(chosen.member(place), span);
        let made = self.forest.chosen(test, value, member, span);
        self.made(made)
    }
}
