//! What a search is asked for warnings.

use crate::always::promises_of;
use crate::faults::fits;
use crate::outlined::Outlined;
use rg_outline::{Expansion, push_question};
use std::alloc::AllocError;

/// What a question asks.
#[derive(Clone, Copy, PartialEq, Eq)]
pub enum Asks {
    /// Whether no state meets the program's pre.
    PreUnmet,
    /// Whether a promise is true in all states: the one at this place of those that are written.
    PromiseTrue(usize),
    /// Whether an index over words is in its range: the one at this place of those that are asked of.
    IndexInside(usize),
}

/// An index over words that isn't in its range, by its place among those that are asked of, and the values of all words in a state where it isn't.
#[derive(Drop)]
pub struct Outside {
    pub place: usize,
    pub state: Vec<u64>,
}

/// A question: the answer is yes where a formula is true in all states.
#[derive(Drop)]
pub struct Question {
    pub asks: Asks,
    /// The formula as a text to show.
    pub text: Vec<u8>,
}

/// Adds a question, but for one that is too large for a text.
fn push_asked(
    expansion: &Expansion<'_>,
    questions: &mut Vec<Question>,
    asks: Asks,
    formula: usize,
) -> Result<(), AllocError> {
    let mut text = Vec::new(expansion.scope.alloc);
    let is_unmet = asks == Asks::PreUnmet;
    if fits(push_question(expansion, &mut text, formula, is_unmet))? {
        questions.push(Question { asks, text })?;
    }
    Ok(())
}

impl Outlined<'_> {
    /// What a search is asked for the warnings: whether no state meets the program's pre; whether the promises are true in all states, each one that
    /// isn't a truth; and whether indices over words are in their ranges. Nothing where no warnings are wanted.
    /// An error comes only where memory is refused.
    pub fn questions(&self) -> Result<Vec<Question>, AllocError> {
        let expansion = &self.expansion;
        let forest = &expansion.scope.forest;
        let mut questions = Vec::new(expansion.scope.alloc);
        if !self.outline.has_warnings {
            return Ok(questions);
        }
        let pre = expansion.specification.pre;
        push_asked(expansion, &mut questions, Asks::PreUnmet, pre)?;
        let promises = promises_of(expansion)?;
        for (place, promise) in promises.iter().enumerate() {
            let asks = Asks::PromiseTrue(place);
            if !forest.is_truth(promise.tree, true) && !forest.is_truth(promise.tree, false) {
                push_asked(expansion, &mut questions, asks, promise.tree)?;
            }
        }
        for (place, asked) in expansion.asked.iter().enumerate() {
            let asks = Asks::IndexInside(place);
            push_asked(expansion, &mut questions, asks, asked.formula)?;
        }
        Ok(questions)
    }
}
