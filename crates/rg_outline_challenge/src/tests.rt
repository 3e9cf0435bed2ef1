//! The changes of tests, and of numbers.

use crate::change::{ChangeGroup, Edit, Replacement, gap};
use crate::changes::Changing;
use crate::words::is_within;
use rg_outline_syntax::{Expression, ExpressionKind, Junction, Span, Written};
use std::alloc::AllocError;

/// Whether an expression is a conjunction, in parentheses or not.
fn is_conjunction(written: &Written, expression: usize) -> bool {
    let mut inner = expression;
    for _ in &written.expressions {
        match written.expression(inner).map(|found| found.kind) {
            Some(ExpressionKind::Group(next)) => inner = next,
            Some(ExpressionKind::Join(Junction::And, ..)) => return true,
            _ => return false,
        }
    }
    false
}

impl Changing<'_> {
    /// Adds the changes of a statement's test, which may be replaced by this, too.
    pub(crate) fn change_test(
        &mut self,
        test: usize,
        replacement: Option<&'static str>,
    ) -> Result<(), AllocError> {
        let group = self.group_of_statement();
        let place = self.words.place(test);
        if let Some(text) = replacement {
            self.replace(place, Replacement::Text(text), group)?;
        }
        self.spoil_test(test, group)?;
        self.change_values(place, group)
    }

    /// Adds that a test is negated, and that each of its operands is dropped.
    fn spoil_test(&mut self, test: usize, group: ChangeGroup) -> Result<(), AllocError> {
        self.replace(self.words.place(test), Replacement::Negated, group)?;
        let written = self.words.written;
        let mut open = Vec::new(self.words.alloc);
        open.push(test)?;
        for _ in &written.expressions {
            let Some(next) = open.pop() else {
                break;
            };
            match written.expression(next).map(|found| found.kind) {
                Some(ExpressionKind::Group(inner)) => open.push(inner)?,
                Some(ExpressionKind::Join(Junction::And, first, second)) => {
                    let (before, after) = (self.words.place(first), self.words.place(second));
                    let gap = gap(before, after);
                    self.drop_operand(first, before.to(gap), group)?;
                    self.drop_operand(second, gap.to(after), group)?;
                    open.push(second)?;
                    open.push(first)?;
                }
                _ => {}
            }
        }
        Ok(())
    }

    /// Adds that an operand is dropped, which is all of this piece; nothing where it is a conjunction, whose own operands are dropped.
    fn drop_operand(
        &mut self,
        operand: usize,
        piece: Span,
        group: ChangeGroup,
    ) -> Result<(), AllocError> {
        if is_conjunction(self.words.written, operand) {
            return Ok(());
        }
        let edit = Edit::Replaced(piece, Replacement::Text(""));
        self.add(self.words.place(operand), edit, group)
    }

    /// Adds the changes of the numbers, and of the tests of choices, within a place.
    pub(crate) fn change_values(
        &mut self,
        place: Span,
        group: ChangeGroup,
    ) -> Result<(), AllocError> {
        let written = self.words.written;
        for expression in &written.expressions {
            if is_within(expression.span, place) {
                self.change_value(*expression, group)?;
            }
        }
        Ok(())
    }

    /// Adds the changes of an expression, but for those in it: that a number is one more, and one less where it isn't 0.
    fn change_value(
        &mut self,
        expression: Expression,
        group: ChangeGroup,
    ) -> Result<(), AllocError> {
        let place = expression.span;
        match expression.kind {
            ExpressionKind::Number(number) => {
                if let Some(more) = number.checked_add(1) {
                    self.replace(place, Replacement::Number(more), group)?;
                }
                if let Some(less) = number.checked_sub(1) {
                    self.replace(place, Replacement::Number(less), group)?;
                }
                Ok(())
            }
            ExpressionKind::Name {
                name,
                listed,
                has_arguments: false,
                is_primed: false,
            } if listed.is_empty() && self.words.declared(name) == 0 => {
                self.replace(place, Replacement::More, group)?;
                self.replace(place, Replacement::Less, group)
            }
            ExpressionKind::Choice { test, .. } => self.spoil_test(test, group),
            _ => Ok(()),
        }
    }
}
