//! A run of an accepted program: its lines, what is reported of it, and its picture.

ghost use Rattle.std.specs.Prelude.{◌≡◌, ◌⊎◌, map, string_bytes, IfOk, IfErr};
ghost use Rattle.std.specs.Io.KnownBytes.{Appends};
ghost use Rattle.rg_words.specs.Layout.{widths_of};
ghost use Rattle.rg_words.specs.Refusals.{no_memory, refused};
ghost use Rattle.rg_words.specs.Written.{CanCount};
ghost use Rattle.rg_tree.specs.Moves.{move as move_tree, AreMoves};
ghost use Rattle.rg_monitor.specs.Lines.{lines_of};
ghost use Rattle.rg_tree.specs.ProgramTrees.{program as program_tree};
ghost use Rattle.rg_code.specs.CodeTrees.{code_blocks};
ghost use Rattle.rgc_answers.specs.Failures.{NoFailure};
ghost use Rattle.rgc_answers.specs.Output.{output};
ghost use Rattle.rgc_answers.specs.Running.{StartsAt, AreTheMoves, IsRunLeft, why_text, passed_line, passed_text};
ghost use Rattle.rgc_answers.specs.Refused.{IsUnreadStart, AreUnreadMoves, opening_refusal, IsUnbegun, IsRunStopped};

use crate::{MOST_DRAWN, Shown, draw};
use rg_code::checked::Checked;
use rg_floor::closed::{Closed, Passed};
use rg_floor::turn::Why;
use rg_runner::player::play;
use rg_runner::seeded::Seeded;
use rg_runner::stage::Stage;
use rg_tree::moves::Move;
use rg_words::{Layout, Out, Place, Refusal, RefusalNumber, SourceFile, State, WriteFault};
use std::alloc::{AllocError, Global};
use std::sync::Wait;
use std::thread::Threads;

/// How code is run: the bytes of a start and of moves, how many steps parts may make, and the word by which one part after another is let go,
/// where there is one.
#[derive(Clone, Copy)]
pub struct Run<'a> {
    pub start: Option<&'a [u8]>,
    pub moves: Option<&'a [u8]>,
    pub limit: u64,
    pub seed: Option<&'a str>,
}

/// Takes all bytes and keeps none: for the lines of a run that is reported in other words after its end.
#[derive(Drop)]
pub struct Unread;

impl Out for Unread {
    ghost use Rattle.std.specs.Prelude.{None};

    ghost contents = { λ s. None };

    ghost failures = { λ s. 0 };

    fn put(&mut self, bytes: &[u8]) -> Result<usize, WriteFault> {
        Ok(bytes.len())
    }
}

/// The state at the start: the one that a start spells; without one each word is 0.
fn first_state(alloc: Global, layout: &Layout, start: Option<&[u8]>) -> Result<State, Refusal>
    ensures widths { IfOk result (λ s. s.widths ≡ widths_of layout.now) }
    ensures starts { IfOk result (λ s. StartsAt layout.now start.entry s.values) }
    ensures refused { IfErr result (λ e. IsUnreadStart layout.now start.entry e ⊎ (e ≡ no_memory)) }
{
    match start {
        Some(bytes) => rg_parse::start(alloc, layout, bytes),
        None => Ok(State::zero(alloc, layout)?),
    }
}

/// The moves that a file spells; without one there are none.
fn all_moves(alloc: Global, layout: &Layout, moves: Option<&[u8]>) -> Result<Vec<Move>, Refusal>
    ensures changes { IfOk result (λ ms. AreMoves layout.now (map move_tree ms.items)) }
    ensures moved { IfOk result (λ ms. AreTheMoves layout.now moves.entry (map move_tree ms.items)) }
    ensures refused { IfErr result (AreUnreadMoves layout.now moves.entry) }
{
    match moves {
        Some(bytes) => rg_parse::moves(alloc, layout, bytes),
        None => Ok(Vec::new(alloc)),
    }
}

/// The line that says why a run is over.
pub fn why_line(why: Why) -> &'static str
    ensures { result.now ≡ why_text why }
{
    match why {
        Why::Ended => "ended\n",
        Why::Limit => "limit\n",
        Why::Stuck => "stuck\n",
        Why::Stopped => "stopped\n",
    }
}

/// The refusal of a run, with the place of a start that isn't in the pre.
fn placed(refusal: Refusal) -> Refusal
    ensures { refusal ≡ refused refusal.number → result ≡ opening_refusal refusal.number }
{
    match refusal.number {
        RefusalNumber::StartOutsidePre => {
            Refusal::at(refusal.number, SourceFile::Start, Place::Line(1))
        }
        _ => refusal,
    }
}

/// The line that reports a move that was passed over.
fn passed_line(alloc: Global, passed: &Passed) -> Result<String, AllocError>
    ensures { IfOk result (λ line. string_bytes line ≡ passed_line passed.now) }
{
    let refusal = Refusal::at(
        passed.refusal,
        SourceFile::Moves,
        Place::Move(passed.number),
    );
    format!(in alloc; "{refusal}\n")
}

/// The lines that report the moves that were passed over.
pub fn passed_lines(alloc: Global, passed: &[Passed]) -> Result<String, AllocError>
    ensures { IfOk result (λ lines. string_bytes lines ≡ passed_text passed.now) }
{
    let mut lines = String::new(alloc);
    for each in passed {
        let line = passed_line(alloc, each)?;
        lines.push_str(&line)?;
    }
    Ok(lines)
}

/// Draws a run after what the picture holds, of a long one the last steps.
pub fn draw_run(
    alloc: Global,
    closed: &Closed<'_>,
    picture: &mut Vec<u8>,
) -> Result<(), AllocError> {
    let left_out = closed.len().saturating_sub(MOST_DRAWN);
    let records = closed.records_from(alloc, left_out.saturating_add(1))?;
    let shown = Shown {
        program: closed.program(),
        words: &[],
        lines: &[],
    };
    draw(picture, shown, left_out as u64, &records)
}

/// Runs code from its start with its moves, and prints a line for each step as it is made.
///
/// # Errors
///
/// The first fault of the start, and that of the moves; then `Limit` for too many steps, and `StartOutsidePre`; nothing is printed then. `Write`
/// where the writer failed, `Memory` where memory is refused, in any thread. `Mismatch` or `Stranger` where what is left of the run isn't as it
/// was printed; no run has been seen to be so.
pub fn play_run<'e, R: Threads + Wait + Sync, E: Checked, W: Out>(
    rt: &R,
    alloc: Global,
    emitted: &'e E,
    run: Run<'_>,
    out: &mut W,
) -> Result<Closed<'e>, Refusal>
    requires { CanCount (W.failures out.old) }
    ensures run { IfOk result (λ c. IsRunLeft (program_tree (E.program_of emitted.now)) (code_blocks (E.code_of emitted.now)) run.entry c) }
    ensures printed { IfOk result (λ c. Appends (W.contents out.old) (W.contents out.new) (lines_of (program_tree (E.program_of emitted.now)) c.history)) }
    ensures failures { NoFailure result (W.failures out.old) (W.failures out.new) }
    ensures stopped { IfErr result (IsRunStopped (IsUnbegun (program_tree (E.program_of emitted.now)) run.entry)
        (output W.contents W.failures out.old out.new)) }
{
    let layout = &emitted.program().layout;
    let first = first_state(alloc, layout, run.start)?;
    let moves = all_moves(alloc, layout, run.moves)?;
    let gate = Seeded::new(run.seed, emitted.code().parts.len(), !moves.is_empty());
    let stage = Stage {
        rt,
        alloc,
        gate: &gate,
        moves: &moves,
    };
    match play(&stage, emitted, first, run.limit, out) {
        Ok(closed) => Ok(closed),
        Err(refusal) => Err(placed(refusal)),
    }
}
