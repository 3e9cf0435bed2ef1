//! Whether a trace is a run of a program.

ghost use Rattle.std.specs.Prelude.{◌≡◌, ℕ, [], ◌∷◌, IfOk};
ghost use Rattle.rg_tree.specs.ProgramView.{statement};
ghost use Rattle.rg_tree.specs.ProgramTrees.{program as program_tree};
ghost use Rattle.rg_tree.specs.Traces.{IsTraceOf, view};
ghost use Rattle.rg_tree.specs.TypedPrograms.{IsTypedStatement};
ghost use Rattle.rg_tree.specs.Following.{followed};
ghost use Rattle.rg_runs.specs.View.{steps};
ghost use Rattle.rg_runs.specs.Decides.{Decides};

use crate::states::is_trace;
use crate::step::step_first;
use crate::trace::Trace;
use rg_tree::laws::following_decides;
use rg_tree::program::Program;
use rg_tree::statement::Stmt;
use rg_words::Layout;
use std::alloc::{AllocError, Global};
use std::collections::VecDeque;

/// Follows a trace as the part of this number sees it: whether the body has ended, or none where it can't make its steps.
fn follow(
    alloc: Global,
    layout: &Layout,
    body: &Stmt,
    number: usize,
    trace: &Trace,
) -> Result<Option<bool>, AllocError>
    requires body { IsTypedStatement layout.now (statement body.now) }
    requires trace { (n : ℕ) × IsTraceOf layout.now n trace.now.first.values (steps trace.now.steps.items) }
    ensures { IfOk result (λ found. found ≡ followed (statement body.now ∷ []) trace.now.first.values (view number (steps trace.now.steps.items))) }
{
    let mut todo = VecDeque::new(alloc);
    todo.push_front(body)?;
    let mut state = &trace.first;
    for step in &trace.steps {
        if step.who == number && !step_first(alloc, layout, &mut todo, state, &step.after)? {
            return Ok(None);
        }
        state = &step.after;
    }
    Ok(Some(todo.is_empty()))
}

/// Whether the trace is a run of the program: none where it is no run, else whether the run has ended. A trace is no run, too,
/// where a state isn't one of the program's words, where a fixed word changes, or where a step is by no part of the program.
///
/// An error comes only where memory was refused.
pub fn follows(alloc: Global, program: &Program, trace: &Trace) -> Result<Option<bool>, AllocError>
    ensures { IfOk result (Decides (program_tree program.now) trace.now.first.values (steps trace.now.steps.items)) }
{
    following_decides();
    if !is_trace(&program.layout, program.parts.len(), trace) {
        return Ok(None);
    }
    let mut ended = true;
    let mut number = 0;
    for part in &program.parts {
        number += 1;
        match follow(alloc, &program.layout, &part.body, number, trace)? {
            None => return Ok(None),
            Some(over) => ended = ended && over,
        }
    }
    Ok(Some(ended))
}
