//! A run of a checked program, from its opening to its end.

ghost use Rattle.std.specs.Prelude.{◌≡◌, ◌+◌, ◌<◌, map, length, IfOk, IfSome};
ghost use Rattle.rg_words.specs.Layout.{widths_of};
ghost use Rattle.rg_words.specs.Written.{CanCount};
ghost use Rattle.rg_tree.specs.Moves.{move as move_tree, AreMoves};
ghost use Rattle.rg_tree.specs.ProgramTrees.{program as program_tree};
ghost use Rattle.rg_code.specs.CodeTrees.{code_blocks};
ghost use Rattle.rg_floor.specs.Turns.{open_fault};
ghost use Rattle.rg_runner.specs.Faults.{failures_in};
ghost use Rattle.rg_runner.specs.Running.{IsRunOf, IsPlayed};

use crate::gate::Gate;
use crate::runner::run;
use crate::stage::Stage;
use rg_code::checked::Checked;
use rg_floor::closed::Closed;
use rg_floor::floor::Floor;
use rg_floor::round::Round;
use rg_words::{Out, Refusal, State};
use std::marker::Brand;
use std::sync::Wait;
use std::sync::ledger::{Blank, Ledger};
use std::thread::Threads;

/// Opens the floor of a run that has this name, and plays it.
fn play_at<
    'e,
    L: Round + Send + Sync,
    E: Checked,
    G: Gate + Sync,
    W: Out,
    R: Threads + Wait + Sync,
>(
    stage: &Stage<'_, G, R>,
    checked: &'e E,
    start: State,
    limit: u64,
    blank: Blank,
    writer: &mut W,
) -> Result<Closed<'e>, Refusal>
    requires program { program_tree (E.program_of checked.now) ≡ L.program }
    requires code { code_blocks (E.code_of checked.now) ≡ L.code }
    requires widths { start.widths ≡ widths_of L.program.words }
    requires start { start.values ≡ L.start }
    requires limit { limit ≡ L.limit }
    requires blank { (blank.name ≡ L.name) × (blank.parts ≡ L.parts) × (L.parts ≡ length L.code) }
    requires some { 0 < L.parts }
    requires moves { AreMoves L.program.words (map move_tree stage.now.moves.now) }
    requires writer { CanCount (W.failures writer.old) }
    ensures run { IfOk result (λ c. IsRunOf L.program L.code L.start L.limit (map move_tree stage.now.moves.now) (W.contents writer.old)
        (W.contents writer.new) c) }
    ensures failures { W.failures writer.new ≡ W.failures writer.old + failures_in result }
    ensures faults { IsPlayed (open_fault L.program L.start L.limit) result }
    ensures unopened { IfSome (open_fault L.program L.start L.limit) (λ _.
        (W.contents writer.new ≡ W.contents writer.old) × (W.failures writer.new ≡ W.failures writer.old)) }
{
    let (floor, seats) = Floor::<L>::open(stage.alloc, checked, start, limit, blank)?;
    run(stage, checked.program(), floor, seats, writer)
}

/// Plays a checked program from a start, with so many steps by parts at most, as `run` does.
///
/// Refused, beside what `run` refuses: `Limit` where the limit is above 1,000,000, else `StartOutsidePre` where the start isn't in the
/// program's pre; nothing is printed then.
pub fn play<'e, E: Checked, G: Gate + Sync, W: Out, R: Threads + Wait + Sync>(
    stage: &Stage<'_, G, R>,
    checked: &'e E,
    start: State,
    limit: u64,
    writer: &mut W,
) -> Result<Closed<'e>, Refusal>
    requires start { start.widths ≡ widths_of (program_tree (E.program_of checked.now)).words }
    requires moves { AreMoves (program_tree (E.program_of checked.now)).words (map move_tree stage.now.moves.now) }
    requires writer { CanCount (W.failures writer.old) }
    ensures run { IfOk result (λ c.
        IsRunOf (program_tree (E.program_of checked.now)) (code_blocks (E.code_of checked.now)) start.values limit
        (map move_tree stage.now.moves.now) (W.contents writer.old) (W.contents writer.new) c) }
    ensures failures { W.failures writer.new ≡ W.failures writer.old + failures_in result }
    ensures faults { IsPlayed (open_fault (program_tree (E.program_of checked.now)) start.values limit) result }
    ensures unopened { IfSome (open_fault (program_tree (E.program_of checked.now)) start.values limit) (λ _.
        (W.contents writer.new ≡ W.contents writer.old) × (W.failures writer.new ≡ W.failures writer.old)) }
{
    let blank = Blank::new(checked.code().parts.len() as u64);
    play_at::<Brand, E, G, W, R>(stage, checked, start, limit, blank, writer)
}
