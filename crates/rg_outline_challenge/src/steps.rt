//! The changes of steps.

use crate::change::{ChangeGroup, Edit, Replacement, gap};
use crate::changes::Changing;
use rg_outline_syntax::{Assignment, List};
use std::alloc::AllocError;

impl Changing<'_> {
    /// The words that these assignments assign.
    fn targets(&self, assignments: &[Assignment]) -> u64 {
        let mut bits = 0;
        for assignment in assignments {
            bits |= self.words.bits_of(assignment.target);
        }
        bits
    }

    /// Adds the changes of a step: of its values, and where it has several assignments, that one is left out, that two are exchanged, and that the
    /// step is cut in two.
    pub(crate) fn change_step(
        &mut self,
        guard: Option<usize>,
        assignments: List,
    ) -> Result<(), AllocError> {
        let all = self.words.written.assigned(assignments);
        let tested = guard.map_or(0, |test| self.words.bits_of(test));
        let mut last = None;
        for (index, assignment) in all.iter().enumerate() {
            if let Some(last) = last {
                self.exchange_assignments(last, *assignment, all)?;
                let first = self.targets(all.get(..index).unwrap_or(&[])) | tested;
                let second = self.targets(all.get(index..).unwrap_or(&[]));
                let group = self.group(first, second);
                let edit = Edit::Cut(gap(last.span, assignment.span));
                self.add(assignment.span, edit, group)?;
            }
            let next = all.get(index.saturating_add(1)).copied();
            let group = self.group(self.words.bits_of(assignment.target), 0);
            self.leave_assignment(last, *assignment, next, group)?;
            self.change_values(self.words.place(assignment.value), group)?;
            last = Some(*assignment);
        }
        Ok(())
    }

    /// Adds that an assignment is left out of a step of several.
    fn leave_assignment(
        &mut self,
        last: Option<Assignment>,
        assignment: Assignment,
        next: Option<Assignment>,
        group: ChangeGroup,
    ) -> Result<(), AllocError> {
        let piece = match (last, next) {
            (Some(last), _) => gap(last.span, assignment.span).to(assignment.span),
            (None, Some(next)) => assignment.span.to(gap(assignment.span, next.span)),
            (None, None) => return Ok(()),
        };
        let edit = Edit::Replaced(piece, Replacement::Text(""));
        self.add(assignment.span, edit, group)
    }

    /// Adds that two assignments of a step are exchanged, where one reads or writes a word that the other one writes.
    fn exchange_assignments(
        &mut self,
        first: Assignment,
        second: Assignment,
        all: &[Assignment],
    ) -> Result<(), AllocError> {
        let words = self.words;
        let (target, other) = (words.bits_of(first.target), words.bits_of(second.target));
        let (value, read) = (words.bits_of(first.value), words.bits_of(second.value));
        if target & (other | read) == 0 && other & value == 0 {
            return Ok(());
        }
        let group = self.group(self.targets(all), 0);
        let edit = Edit::Exchanged(first.span, second.span);
        self.add(first.span, edit, group)
    }
}
