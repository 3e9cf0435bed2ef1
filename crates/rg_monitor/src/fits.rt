//! Whether a record speaks of a program's words and parts.

ghost use Rattle.std.specs.Prelude.{◌↔◌, ◌≤◌, All, IsTrue};
ghost use Rattle.rg_words.specs.States.{IsState};
ghost use Rattle.rg_tree.specs.ProgramTrees.{program as program_tree};
ghost use Rattle.rg_monitor.specs.Lines.{Fits};

use crate::record::Record;
use rg_tree::program::Program;
use rg_words::{Layout, State};

/// Whether the record's states are states of the program's words, and its parts are parts of the program.
pub fn fits(program: &Program, step: &Record) -> bool
    ensures { IsTrue result ↔ Fits (program_tree program.now) step.now }
{
    let parts = program.parts.len();
    step.who() <= parts
        && all_within(step.cover(), parts)
        && is_state(&program.layout, step.before())
        && is_state(&program.layout, step.after())
}

/// Whether no number is above this one.
fn all_within(numbers: &[usize], most: usize) -> bool
    ensures { IsTrue result ↔ All (λ k. k ≤ most) numbers.now }
{
    numbers.iter().all(|k| *k <= most)
}

/// Whether these are values of the words: one for each, within its width.
fn is_state(layout: &Layout, state: &State) -> bool
    ensures { IsTrue result ↔ IsState layout.now state.now.values }
{
    if state.len() != layout.len() {
        return false;
    }
    for word in 0..layout.len() {
        if u128::from(state.get(word)) >= 1u128 << layout.width(word) {
            return false;
        }
    }
    true
}
