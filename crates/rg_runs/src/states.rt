//! Whether a list of states is a trace of a program's words.

ghost use Rattle.std.specs.Prelude.{◌≡◌, ◌↔◌, IsTrue, IfOk};
ghost use Rattle.rg_words.specs.Layout.{widths_of};
ghost use Rattle.rg_words.specs.States.{IsState, AgreeOnFixed, IsPair};
ghost use Rattle.rg_tree.specs.Traces.{IsTraceOf};
ghost use Rattle.rg_runs.specs.View.{steps};

use crate::trace::Trace;
use rg_words::{Layout, State};
use std::alloc::{AllocError, Global};

/// Whether these are values of the words: one for each, within its width.
fn is_state(layout: &Layout, state: &State) -> bool
    ensures { IsTrue result ↔ IsState layout.now state.now.values }
{
    if state.len() != layout.len() {
        return false;
    }
    for word in 0..layout.len() {
        if u128::from(state.get(word)) >= 1u128 << layout.width(word) {
            return false;
        }
    }
    true
}

/// Whether the fixed words have the same values in both.
fn agree(layout: &Layout, first: &State, second: &State) -> bool
    requires first { IsState layout.now first.now.values }
    requires second { IsState layout.now second.now.values }
    ensures { IsTrue result ↔ AgreeOnFixed layout.now first.now.values second.now.values }
{
    first.facts();
    for word in 0..layout.len() {
        if layout.is_fixed(word) && first.get(word) != second.get(word) {
            return false;
        }
    }
    true
}

/// Whether a step may lead from this state to these values.
fn is_pair(layout: &Layout, first: &State, second: &State) -> bool
    requires { IsState layout.now first.now.values }
    ensures { IsTrue result ↔ IsPair layout.now first.now.values second.now.values }
{
    is_state(layout, second) && agree(layout, first, second)
}

/// Whether it is a trace of these words and of so many parts: all states are states of the words, no step changes a fixed word,
/// and each step is by the environment or by one of the parts.
pub(crate) fn is_trace(layout: &Layout, parts: usize, trace: &Trace) -> bool
    ensures { IsTrue result ↔ IsTraceOf layout.now parts trace.now.first.values (steps trace.now.steps.items) }
{
    if !is_state(layout, &trace.first) {
        return false;
    }
    let mut state = &trace.first;
    for step in &trace.steps {
        if step.who > parts || !is_pair(layout, state, &step.after) {
            return false;
        }
        state = &step.after;
    }
    true
}

/// A state of the layout's own widths with the same values.
pub(crate) fn copy_state(alloc: Global, layout: &Layout, state: &State) -> Result<State, AllocError>
    requires { IsState layout.now state.now.values }
    ensures widths { IfOk result (λ copy. copy.widths ≡ widths_of layout.now) }
    ensures values { IfOk result (λ copy. copy.values ≡ state.now.values) }
{
    let mut copy = State::zero(alloc, layout)?;
    for word in 0..layout.len() {
        copy.set(word, state.get(word));
    }
    Ok(copy)
}
