//! Whether the program that a text spells is proved.

ghost use Rattle.std.specs.Prelude.{◌≡◌, ◌⊎◌, map, IsTrue, IfOk, IfErr};
ghost use Rattle.rg_words.specs.Refusals.{no_memory};
ghost use Rattle.rg_words.specs.declared.refusal.SourceFile.TheVariants.{Derivation};
ghost use Rattle.rg_tree.specs.Conditions.{condition_tree};
ghost use Rattle.rg_find.specs.Judged.{IsJudgeRefusal};
ghost use Rattle.rg_accept.specs.Accepted.{conditions_of};
ghost use Rattle.rg_accept.specs.Stages.{derived_program, derived_lines};
ghost use Rattle.rgc_outlines.specs.Changed.{IsProvedText};
ghost use Rattle.rgc_outlines.specs.ChallengeUnproved.{IsUnjudged, IsUnprovedRefusal};
ghost use Rattle.rgc_outlines.specs.Inner.Proved.{HasProofs};

use crate::derive_outline;
use crate::known::Known;
use itoa::Buffer;
use rg_find::{Judged, judge};
use rg_outline_reports::OutlineFiles;
use rg_tree::condition::Condition;
use rg_watch::Watcher;
use rg_words::limits::MOST_PROOF_BYTES;
use rg_words::{Refusal, RefusalNumber, SourceFile};
use rgc::{Derived, InThreads};
use rgc_answers::Context;
use std::alloc::{AllocError, Global};
use std::sync::Wait;
use std::thread::Threads;

/// Adds the section of a condition of this number, where it has lines: to the last piece, or where it doesn't fit into that, as a new one.
fn push_section(
    alloc: Global,
    pieces: &mut Vec<Vec<u8>>,
    number: u64,
    lines: &[u8],
) -> Result<(), AllocError> {
    if lines.is_empty() {
        return Ok(());
    }
    let mut digits = Buffer::new();
    let number = digits.format(number);
    let head = format!(in alloc; "section {number}\n")?;
    let size = head.len().saturating_add(lines.len());
    if let Some(last) = pieces.last_mut() {
        if size <= MOST_PROOF_BYTES.saturating_sub(last.len()) {
            last.extend_from_slice(head.as_bytes())?;
            last.extend_from_slice(lines)?;
            return Ok(());
        }
    }
    let mut piece = Vec::new(alloc);
    piece.extend_from_slice(head.as_bytes())?;
    piece.extend_from_slice(lines)?;
    pieces.push(piece)?;
    Ok(())
}

/// Whether a search finds lines for a condition of this number; where it does, its section is added.
fn search<R, P: Watcher + Copy>(
    context: &Context<'_, R, P>,
    condition: &Condition,
    number: u64,
    steps: u64,
    proofs: &mut Vec<Vec<u8>>,
) -> Result<bool, Refusal>
    ensures { IfErr result (IsJudgeRefusal (condition_tree condition.now) Derivation number steps) }
{
    let alloc = context.alloc;
    let mut own = *context.watcher;
    let file = SourceFile::Derivation;
    match judge(alloc, condition, file, number, steps, &mut own) {
        Ok(Judged::Holds(lines)) => {
            let text = lines.text(alloc)?;
            push_section(alloc, proofs, number, text.as_bytes())?;
            Ok(true)
        }
        Ok(_) => Ok(false),
        Err(refusal) => Err(refusal),
    }
}

/// Whether lines are known for a condition of this number, or else a search finds some; where there are any, its section is added.
fn judge_one<R, P: Watcher + Copy>(
    context: &Context<'_, R, P>,
    condition: &Condition,
    number: u64,
    known: &Known<'_>,
    steps: u64,
    proofs: &mut Vec<Vec<u8>>,
) -> Result<bool, Refusal>
    ensures { IfErr result (IsJudgeRefusal (condition_tree condition.now) Derivation number steps) }
{
    match known.lines_of(condition) {
        Some(lines) => {
            push_section(context.alloc, proofs, number, lines)?;
            Ok(true)
        }
        None => search(context, condition, number, steps, proofs),
    }
}

/// Whether there are lines for all conditions, known or found, up to the first for which there are none; the sections of those before it are added.
fn judge_all<R, P: Watcher + Copy>(
    context: &Context<'_, R, P>,
    conditions: &[Condition],
    known: &Known<'_>,
    steps: u64,
    proofs: &mut Vec<Vec<u8>>,
) -> Result<bool, Refusal>
    ensures { IfErr result (IsUnjudged (map condition_tree conditions.now) steps) }
{
    for place in 0..conditions.len() {
        let condition = &conditions[place];
        let number = place as u64 + 1;
        match judge_one(context, condition, number, known, steps, proofs) {
            Ok(true) => {}
            Ok(false) => return Ok(false),
            Err(refusal) => return Err(refusal),
        }
    }
    Ok(true)
}

/// Whether there are lines for all conditions of a program's derivation, as `judge_all` has it.
fn judge_derived<R, P: Watcher + Copy>(
    context: &Context<'_, R, P>,
    derived: &Derived,
    known: &Known<'_>,
    steps: u64,
    proofs: &mut Vec<Vec<u8>>,
) -> Result<bool, Refusal>
    ensures { IfErr result (λ e. (e ≡ no_memory) ⊎ IsUnjudged (conditions_of (derived_program derived.now) (derived_lines derived.now)) steps e) }
{
    let conditions = derived.conditions(context.alloc)?;
    match judge_all(context, &conditions, known, steps, proofs) {
        Ok(has_lines) => Ok(has_lines),
        Err(refusal) => Err(refusal),
    }
}

/// The bytes of pieces, in their order.
fn slices_of(alloc: Global, pieces: &[Vec<u8>]) -> Result<Vec<&[u8]>, AllocError> {
    let mut slices = Vec::new(alloc);
    for piece in pieces {
        slices.push(piece.as_slice())?;
    }
    Ok(slices)
}

/// Whether these pieces of proofs prove all conditions of a program.
fn has_proofs<R: Threads + Wait + Sync, P>(
    context: &Context<'_, R, P>,
    derived: Derived,
    proofs: &[Vec<u8>],
) -> Result<bool, Refusal>
    ensures proved { IfOk result (λ b. IsTrue b → HasProofs (derived_program derived) (derived_lines derived)) }
    ensures refused { IfErr result (λ e. e ≡ no_memory) }
{
    let slices = slices_of(context.alloc, proofs)?;
    // Changed programs are asked side by side: each is checked in the thread that asks.
    let checker = InThreads {
        rt: context.rt,
        threads: 1,
    };
    match derived.prove_pieces(&checker, context.alloc, &slices) {
        Ok(_) => Ok(true),
        Err(refusal) if refusal.number == RefusalNumber::Memory => Err(Refusal::from(AllocError)),
        Err(_) => Ok(false),
    }
}

/// Whether all conditions of the program of an outline's text with its derivation, which may be longer than a file may be, are proved: by lines that
/// are known, or that a search finds, which makes so many decisions at most; all lines are checked. The conditions are looked at in their order up to the
/// first for which there are no lines.
///
/// # Errors
///
/// As `crate::derive_outline`; then as `rg_find::judge` of the conditions that are looked at.
pub fn is_proved<R: Threads + Wait + Sync, P: Watcher + Copy>(
    context: &Context<'_, R, P>,
    files: &OutlineFiles,
    known: &Known<'_>,
    steps: u64,
) -> Result<bool, Refusal>
    // It is said only where the text, the pieces of a derivation and some proofs are accepted.
    ensures proved { IfOk result (λ b. IsTrue b → IsProvedText files.now.text.items) }
    ensures refused { IfErr result (IsUnprovedRefusal files.now.text.items files.now.derivation.items steps) }
{
    let alloc = context.alloc;
    let derived = match derive_outline(alloc, files) {
        Ok(derived) => derived,
        Err(refusal) => return Err(refusal),
    };
    let mut proofs = Vec::new(alloc);
    let has_lines = match judge_derived(context, &derived, known, steps, &mut proofs) {
        Ok(has_lines) => has_lines,
        Err(refusal) => return Err(refusal),
    };
    if has_lines && has_proofs(context, derived, &proofs)? {
        return Ok(true);
    }
    Ok(false)
}
