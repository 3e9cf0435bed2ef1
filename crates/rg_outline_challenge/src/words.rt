//! Which words an outline's formulas and statements name, as bits: a family is one word, by its place among the declarations.

use crate::blocks::is_wait;
use rg_outline_syntax::{
    Clause, Expression, ExpressionKind, HeadKind, Item, ItemKind, List, Span, Written,
};
use std::alloc::{AllocError, Global};

/// The words of a name for a tree.
#[derive(Clone, Copy)]
struct NamedTree {
    name: Span,
    bits: u64,
}

/// What the names of an outline stand for, and which words matter.
#[derive(Drop)]
pub(crate) struct Words<'a> {
    pub(crate) alloc: Global,
    pub(crate) source: &'a [u8],
    pub(crate) written: &'a Written,
    trees: Vec<NamedTree>,
    /// Those of the program's rely, guar and post.
    pub(crate) specified: u64,
    /// Those on which these, and the tests that aren't of waits, depend.
    pub(crate) firm: u64,
    /// Those on which these, and all tests, depend.
    pub(crate) read: u64,
    /// Those on which these, and all assertions and specifications, depend.
    pub(crate) spoken: u64,
}

/// The word as a bit.
fn bit_of(word: usize) -> u64 {
    let count = (word as u64).min(63) as u32;
    1u64 << count
}

/// Whether a place lies within another.
pub(crate) fn is_within(place: Span, whole: Span) -> bool {
    whole.start <= place.start && place.end <= whole.end
}

/// The test of a statement, as an expression.
fn test_of(item: Item) -> Option<usize> {
    match item.kind {
        ItemKind::If { test, .. } | ItemKind::While { test, .. } | ItemKind::Await(test, _) => {
            Some(test)
        }
        _ => None,
    }
}

impl<'a> Words<'a> {
    /// The words of an outline. `source` is what it was read from.
    pub(crate) fn of(
        alloc: Global,
        source: &'a [u8],
        written: &'a Written,
    ) -> Result<Words<'a>, AllocError> {
        let mut words = Words {
            alloc,
            source,
            written,
            trees: Vec::new(alloc),
            specified: 0,
            firm: 0,
            read: 0,
            spoken: 0,
        };
        words.name_trees()?;
        let promises = [Clause::Rely, Clause::Guar, Clause::Post];
        words.specified = words.claimed(written.following_words, &promises);
        words.firm = words.depended(words.specified | words.tests(false));
        words.read = words.depended(words.firm | words.tests(true));
        words.spoken = words.depended(words.read | words.asserted());
        Ok(words)
    }

    /// Keeps the words of each name for a tree; a name is used after its `let` alone.
    fn name_trees(&mut self) -> Result<(), AllocError> {
        let written = self.written;
        for head in &written.heads {
            if let HeadKind::Let(named) = head.kind {
                let name = named.name;
                let bits = self.bits_of(named.body);
                self.trees.push(NamedTree { name, bits })?;
            }
        }
        Ok(())
    }

    /// The place of an expression; an empty one where there is none.
    pub(crate) fn place(&self, expression: usize) -> Span {
        let found = self.written.expression(expression);
        found.map_or(Span { start: 0, end: 0 }, |found| found.span)
    }

    /// The word of a name, if it is one's.
    pub(crate) fn declared(&self, name: Span) -> u64 {
        for (index, declaration) in self.written.declarations.iter().enumerate() {
            if declaration.name.of(self.source) == name.of(self.source) {
                return bit_of(index);
            }
        }
        0
    }

    /// Whether a name is a parameter of statements, which may be any word.
    fn is_parameter(&self, name: Span) -> bool {
        self.written.heads.iter().any(|head| match head.kind {
            HeadKind::Procedure(named) => {
                is_within(name, named.span) && self.has_name(named.parameters, name)
            }
            _ => false,
        })
    }

    /// Whether one of the names has the text of this one.
    fn has_name(&self, names: List, name: Span) -> bool {
        let text = name.of(self.source);
        self.written
            .named(names)
            .iter()
            .any(|other| other.of(self.source) == text)
    }

    /// The words that an expression names itself: the word of a name, and those of the tree for which the name stands.
    fn named_by(&self, expression: Expression) -> u64 {
        let name = match expression.kind {
            ExpressionKind::Name { name, .. } => name,
            ExpressionKind::UnchangedBut(_) => return u64::MAX,
            _ => return 0,
        };
        if self.is_parameter(name) {
            return u64::MAX;
        }
        let mut bits = self.declared(name);
        for tree in &self.trees {
            if tree.name.of(self.source) == name.of(self.source) {
                bits |= tree.bits;
            }
        }
        bits
    }

    /// The words that an expression names, with all in it.
    pub(crate) fn bits_of(&self, expression: usize) -> u64 {
        let place = self.place(expression);
        let mut bits = 0;
        for expression in &self.written.expressions {
            if is_within(expression.span, place) {
                bits |= self.named_by(*expression);
            }
        }
        bits
    }

    /// The words of the clauses of these kinds among heads.
    fn claimed(&self, heads: List, kinds: &[Clause]) -> u64 {
        let mut bits = 0;
        for head in self.written.heads(heads) {
            if let HeadKind::Clause(clause, formula) = head.kind
                && kinds.contains(&clause)
            {
                bits |= self.bits_of(formula);
            }
        }
        bits
    }

    /// The words of the tests, those of waits or the others.
    fn tests(&self, are_waits: bool) -> u64 {
        let mut bits = 0;
        for item in &self.written.items {
            if let Some(test) = test_of(*item)
                && is_wait(self.written, *item) == are_waits
            {
                bits |= self.bits_of(test);
            }
        }
        bits
    }

    /// The words of the assertions between statements, of the invariants of loops, and of all clauses but the program's pre, which names nearly every
    /// word.
    fn asserted(&self) -> u64 {
        let steps = [Clause::Rely, Clause::Guar, Clause::Post, Clause::Invariant];
        let mut bits = self.claimed(self.written.following_words, &steps);
        for part in &self.written.parts {
            let parts = [Clause::Pre, Clause::Rely, Clause::Guar, Clause::Post];
            bits |= self.claimed(part.heads, &parts);
        }
        for item in &self.written.items {
            match item.kind {
                ItemKind::Assertion(formula)
                | ItemKind::While {
                    invariant: Some(formula),
                    ..
                } => bits |= self.bits_of(formula),
                _ => {}
            }
        }
        bits
    }

    /// The names of the words of which nothing is said: no test, assertion or specification depends on them.
    pub(crate) fn unspoken(&self) -> Result<Vec<Span>, AllocError> {
        let mut names = Vec::new(self.alloc);
        for (index, declaration) in self.written.declarations.iter().enumerate() {
            if self.spoken & bit_of(index) == 0 {
                names.push(declaration.name)?;
            }
        }
        Ok(names)
    }

    /// These words, and those on which they depend by assignments.
    fn depended(&self, words: u64) -> u64 {
        let mut bits = words;
        for _ in &self.written.declarations {
            bits = self.depended_once(bits);
        }
        bits
    }

    /// These words, and those of the values that they get.
    fn depended_once(&self, words: u64) -> u64 {
        let mut bits = words;
        for assignment in &self.written.assignments {
            if bits & self.bits_of(assignment.target) != 0 {
                bits |= self.bits_of(assignment.value);
            }
        }
        bits
    }

    /// The words that statements within a place assign and test.
    pub(crate) fn touched(&self, place: Span) -> u64 {
        let mut bits = 0;
        for assignment in &self.written.assignments {
            if is_within(assignment.span, place) {
                bits |= self.bits_of(assignment.target);
            }
        }
        for item in &self.written.items {
            if let Some(test) = test_of(*item)
                && is_within(item.span, place)
            {
                bits |= self.bits_of(test);
            }
        }
        bits
    }
}
