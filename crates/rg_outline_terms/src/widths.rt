//! Groups: the words and numbers of two values, which have one width.

use crate::Root;
use crate::forest::Forest;
use crate::scope::Scope;
use rg_outline_syntax::{Fault, MeaningFault, Span, Standing};

/// The most words and numbers of a group.
const MOST_LEAVES: usize = 100_000;

/// A word of the text.
#[derive(Clone, Copy)]
pub struct Word {
    pub width: u32,
    pub standing: Standing,
}

/// Adds the words and numbers of the trees that are open, the last one first, in the order in which they stand; those in the test of a choice
/// belong to groups of their own.
fn push_leaves(
    forest: &Forest,
    leaves: &mut Vec<usize>,
    open: &mut Vec<usize>,
    span: Span,
) -> Result<(), Fault> {
    for _ in 0..usize::MAX {
        let Some(tree) = open.pop() else {
            break;
        };
        let root = forest.root(tree);
        if matches!(root, Root::Number(_) | Root::Word { .. }) {
            leaves.push(tree)?;
        }
        let first = if root == Root::Choice { 1 } else { 0 };
        let operands = forest.operands(tree).get(first..).unwrap_or(&[]);
        for operand in operands.iter().rev() {
            open.push(*operand)?;
        }
        if leaves.len() > MOST_LEAVES {
            return Err(Fault::meaning(MeaningFault::TooLarge, span));
        }
    }
    Ok(())
}

/// Whether a number fits into so many bits.
pub(crate) fn fits(number: i128, width: u32) -> bool {
    number.checked_shr(width).is_none_or(|rest| rest == 0)
}

impl Scope<'_> {
    /// Refuses an assignment whose value isn't of the word's width: `MeaningFault::WidthsDiffer`, `DoesNotFit` and `Negative` at the word or the number.
    pub fn refuse_assignment(&mut self, word: usize, value: usize, span: Span) {
        let target = self.plain_word(word, span);
        self.refuse_widths(target, value, span);
    }

    /// Refuses two values that aren't of one width: `MeaningFault::NoWidth` and `TooLarge` at the span, and the faults of `refuse_assignment`.
    pub(crate) fn refuse_widths(&mut self, first: usize, second: usize, span: Span) {
        let mut leaves = Vec::new(self.alloc);
        let mut open = Vec::new(self.alloc);
        let stored = open.extend_from_slice(&[second, first]);
        self.want_stored(stored.is_ok());
        if let Err(fault) = push_leaves(&self.forest, &mut leaves, &mut open, span) {
            self.stop(fault);
        }
        self.refuse_leaves(&leaves, span);
    }

    /// The first word of an index, with its width. Refuses an index without words, and one whose words and numbers aren't of one width.
    pub(crate) fn width_of_index(&mut self, index: usize, span: Span) -> (usize, u32) {
        let mut leaves = Vec::new(self.alloc);
        let mut open = Vec::new(self.alloc);
        let stored = open.push(index);
        self.want_stored(stored.is_ok());
        if let Err(fault) = push_leaves(&self.forest, &mut leaves, &mut open, span) {
            self.stop(fault);
        }
        self.refuse_leaves(&leaves, span);
        self.first_word(&leaves).unwrap_or((0, 0))
    }

    /// Refuses words and numbers that aren't of the width of the first word among them.
    fn refuse_leaves(&mut self, leaves: &[usize], span: Span) {
        let Some(first) = self.first_word(leaves) else {
            self.refuse(MeaningFault::NoWidth, span);
            return;
        };
        for leaf in leaves {
            self.refuse_leaf(*leaf, first);
        }
    }

    /// The first word among the leaves, with its width.
    fn first_word(&self, leaves: &[usize]) -> Option<(usize, u32)> {
        for leaf in leaves {
            if let Root::Word { word, .. } = self.forest.root(*leaf) {
                return Some((word, self.word(word).width));
            }
        }
        None
    }

    /// Refuses a word of another width than the first one's, or a number that doesn't fit.
    fn refuse_leaf(&mut self, leaf: usize, first: (usize, u32)) {
        let kind = match self.forest.root(leaf) {
            Root::Word { word, .. } if self.word(word).width != first.1 => {
                MeaningFault::WidthsDiffer((word, self.word(word).width), first)
            }
            Root::Number(number) if number < 0 => MeaningFault::Negative(number),
            Root::Number(number) if !fits(number, first.1) => {
                MeaningFault::DoesNotFit(number, first)
            }
            _ => return,
        };
        let span = self.forest.span(leaf);
        self.refuse(kind, span);
    }
}
