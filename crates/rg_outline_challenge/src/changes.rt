//! The changes of an outline.

use crate::blocks::{Placed, extent, is_wait, statements_of};
use crate::change::{Change, ChangeGroup, Edit, Replacement};
use crate::words::Words;
use rg_outline_syntax::{ItemKind, List, Span, Tokens, Written};
use std::alloc::{AllocError, Global};

/// The changes of an outline's program.
#[derive(Drop)]
pub struct Changes {
    /// In the order of the statements.
    pub changes: Vec<Change>,
    /// The names of the words of which nothing is said: no test, assertion or specification depends on them.
    pub unspoken: Vec<Span>,
}

/// The changes, as they are made.
#[derive(Drop)]
pub(crate) struct Changing<'a> {
    pub(crate) words: &'a Words<'a>,
    tokens: &'a Tokens,
    changes: Vec<Change>,
    /// The whole of the statement that is changed.
    statement: Span,
    /// Whether that waits.
    is_wait: bool,
    /// The formula of the assertion after it.
    after: Option<Span>,
}

impl Changing<'_> {
    /// Whether these words are there for the proof alone: assertions speak of them, and no test and no word of rely, guar and post depends on
    /// them.
    fn are_of_proof(&self, words: u64) -> bool {
        words != 0 && words & self.words.spoken == words && words & self.words.read == 0
    }

    /// The group of a change with two sides, of which each touches these words.
    pub(crate) fn group(&self, first: u64, second: u64) -> ChangeGroup {
        let all = first | second;
        if self.are_of_proof(first) || self.are_of_proof(second) {
            ChangeGroup::Proof
        } else if all & self.words.specified != 0 {
            ChangeGroup::Specification
        } else if all & self.words.firm == 0 && all & self.words.read != 0 {
            ChangeGroup::Waits
        } else {
            ChangeGroup::Others
        }
    }

    /// The group of a change of the whole statement, or of its test.
    pub(crate) fn group_of_statement(&self) -> ChangeGroup {
        if self.is_wait {
            ChangeGroup::Waits
        } else {
            self.group(self.words.touched(self.statement), 0)
        }
    }

    /// The group of the change that leaves out the whole statement: with a wait that has a step, the step is left out.
    fn group_left_out(&self, kind: ItemKind) -> ChangeGroup {
        match kind {
            ItemKind::Await(_, Some(_)) => self.group(self.words.touched(self.statement), 0),
            _ => self.group_of_statement(),
        }
    }

    /// Adds a change.
    pub(crate) fn add(
        &mut self,
        place: Span,
        edit: Edit,
        group: ChangeGroup,
    ) -> Result<(), AllocError> {
        self.changes.push(Change {
            statement: self.statement,
            place,
            edit,
            after: self.after,
            group,
        })?;
        Ok(())
    }

    /// Adds that a piece is replaced.
    pub(crate) fn replace(
        &mut self,
        place: Span,
        replacement: Replacement,
        group: ChangeGroup,
    ) -> Result<(), AllocError> {
        self.add(place, Edit::Replaced(place, replacement), group)
    }

    /// Adds that the statement and the next one are exchanged.
    fn exchange(&mut self, placed: Placed) -> Result<(), AllocError> {
        let Some(next) = placed.next else {
            return Ok(());
        };
        if matches!(next.kind, ItemKind::Skip) {
            return Ok(());
        }
        let first = self.statement;
        let second = extent(self.words.written, self.tokens, next);
        let group = self.group(self.words.touched(first), self.words.touched(second));
        self.after = placed.following_next;
        self.add(first, Edit::StatementsExchanged(first, second), group)?;
        self.after = placed.after;
        Ok(())
    }

    /// Adds the changes within a statement, but for those of the statements in it.
    fn change_within(&mut self, kind: ItemKind) -> Result<(), AllocError> {
        match kind {
            ItemKind::Assign(start) => {
                let end = start.saturating_add(1);
                self.change_step(None, List { start, end })
            }
            ItemKind::Atomic(assignments) => self.change_step(None, assignments),
            ItemKind::Await(guard, assignments) => {
                self.change_test(guard, Some("true"))?;
                self.change_step(Some(guard), assignments.unwrap_or(List::EMPTY))
            }
            ItemKind::If { test, .. } => self.change_test(test, None),
            ItemKind::While { test, .. } => self.change_test(test, Some("false")),
            ItemKind::Assertion(_) | ItemKind::Skip | ItemKind::Use(_) | ItemKind::For { .. } => Ok(
                (),
            ),
        }
    }

    /// Adds the changes of a statement, but for those of the statements in it.
    fn change_statement(&mut self, placed: Placed) -> Result<(), AllocError> {
        if matches!(placed.item.kind, ItemKind::Skip) {
            return Ok(());
        }
        self.statement = extent(self.words.written, self.tokens, placed.item);
        self.is_wait = is_wait(self.words.written, placed.item);
        self.after = placed.after;
        let group = self.group_left_out(placed.item.kind);
        self.replace(self.statement, Replacement::Text("skip"), group)?;
        self.exchange(placed)?;
        self.change_within(placed.item.kind)
    }
}

/// The small changes of an outline's program, one after the other as the outline has them: of each statement that it is left out, and that it is
/// exchanged with the next one; of each test, of each number in a test or a value, and of each step what is small there.
///
/// An error comes only where memory was refused.
pub fn changes_of(
    alloc: Global,
    source: &[u8],
    tokens: &Tokens,
    written: &Written,
) -> Result<Changes, AllocError> {
    let words = Words::of(alloc, source, written)?;
    let unspoken = words.unspoken()?;
    let statements = statements_of(alloc, words.written)?;
    let mut changing = Changing {
        words: &words,
        tokens,
        changes: Vec::new(alloc),
        statement: Span { start: 0, end: 0 },
        is_wait: false,
        after: None,
    };
    for placed in &statements {
        changing.change_statement(*placed)?;
    }
    Ok(Changes {
        changes: changing.changes,
        unspoken,
    })
}
