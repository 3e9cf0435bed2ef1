//! Whether proofs in pieces prove conditions. Each piece is a proofs file, so that together they may be longer than a file may be.

ghost use Rattle.std.specs.Prelude.{◌≡◌, ◌⊎◌, ℕ, ◌+◌, ◌≤◌, List, ◌++◌, length, map, All, IfOk, OnOk, IfErr};
ghost use Rattle.rg_words.specs.Refusals.{no_memory};
ghost use Rattle.rg_tree.specs.Conditions.{condition_tree};
ghost use Rattle.rg_tree.specs.RuleConditions.{AllConditionsHold};
ghost use Rattle.rg_hints.specs.Sections.{SectionText};
ghost use Rattle.rg_hints.specs.Placed.{text_of, AreFrom, HasSections};
ghost use Rattle.rg_pool.specs.ProofPieces.{last_named, GoesOn, AreSectionsOf, ArePartProvedBy, IsTurnedBack, IsPieceRefusal, IsFirstPieceRefusal, ArePartRefused};
ghost use Rattle.rg_pool.specs.Inner.PieceSections.{AreUpTo, AreOfPiece};

use crate::proving::{InThreads, prove_each_all};
use rg_hints::{SectionBytes, proof_sections};
use rg_tree::condition::Condition;
use rg_words::{Place, Refusal, RefusalNumber, SourceFile};
use std::alloc::Global;
use std::sync::Wait;
use std::thread::Threads;

/// The condition of the last of these sections; where there is none, the one that was named last before them.
fn last_named(before: u64, sections: &[SectionBytes<'_>]) -> u64
    ensures { result ≡ last_named before (map text_of sections.now) }
{
    let mut last = before;
    for section in sections {
        last = section.condition;
    }
    last
}

/// Refuses sections at their first head where it doesn't go on after the condition that was named last before them.
fn check_goes_on(before: u64, sections: &[SectionBytes<'_>]) -> Result<(), Refusal>
    ensures on { OnOk result (GoesOn before (map text_of sections.now)) }
    ensures refused { IfErr result (IsTurnedBack before (map text_of sections.now)) }
    ensures accepts { GoesOn before (map text_of sections.now) → OnOk result (Unit {0}) }
{
    let [first, ..] = sections else {
        return Ok(());
    };
    if before > 0 && first.condition <= before {
        return Err(Refusal::at(
            RefusalNumber::IdOrder,
            SourceFile::Proofs,
            Place::Line(first.first_line.saturating_sub(1)),
        ));
    }
    Ok(())
}

/// Adds the sections of a piece, and answers with the condition that is named last then.
fn add_sections<'a>(
    alloc: Global,
    count: usize,
    piece: &'a [u8],
    before: u64,
    all: &mut Vec<SectionBytes<'a>>,
) -> Result<u64, Refusal>
    requires { AreUpTo before all.old.items }
    ensures added { IfOk result (λ last. AreOfPiece count before piece.now last (map text_of all.old.items) (map text_of all.new.items)) }
    ensures rising { IfOk result (λ last. AreUpTo last all.new.items) }
    ensures refused { IfErr result (λ e. (e ≡ no_memory) ⊎ IsPieceRefusal count before piece.now e) }
    ensures accepts { (first : List SectionText) → HasSections count piece.now first → GoesOn before first → IfErr result (λ e. e ≡ no_memory) }
{
    let mut sections = match proof_sections(alloc, piece, count) {
        Ok(sections) => sections,
        Err(refusal) => return Err(refusal),
    };
    match check_goes_on(before, &sections) {
        Ok(()) => {}
        Err(refusal) => return Err(refusal),
    }
    let last = last_named(before, &sections);
    all.append(&mut sections)?;
    Ok(last)
}

/// The sections of all pieces, one piece after another.
fn sections_of<'a>(
    alloc: Global,
    count: usize,
    pieces: &[&'a [u8]],
) -> Result<Vec<SectionBytes<'a>>, Refusal>
    ensures sections { IfOk result (λ found. AreSectionsOf count 0 (map (λ piece. piece.now) pieces.now) (map text_of found.items)) }
    ensures from { IfOk result (λ found. AreFrom 1 found.items) }
    ensures refused { IfErr result (λ e. (e ≡ no_memory) ⊎ IsFirstPieceRefusal count 0 (map (λ piece. piece.now) pieces.now) e) }
    ensures accepts { (s : List SectionText) → AreSectionsOf count 0 (map (λ piece. piece.now) pieces.now) s → IfErr result (λ e. e ≡ no_memory) }
{
    let mut all = Vec::new(alloc);
    let mut last = 0;
    for piece in pieces {
        last = match add_sections(alloc, count, piece, last, &mut all) {
            Ok(last) => last,
            Err(refusal) => return Err(refusal),
        };
    }
    Ok(all)
}

/// Whether the pieces of proofs for `count` conditions together prove these, which stand after so many others. Each piece is a proofs file; the
/// numbers of their heads rise over all pieces. The conditions are looked at as `prove_all` does.
///
/// # Errors
///
/// First the first fault of the first piece that has one, at a line of its own, as `rg_hints::proof_sections` reports it, or `IdOrder` at its first
/// head where that doesn't go on after the pieces before; then the first fault of these conditions, in their order, as `rg_hints::prove_condition`
/// reports it, at a line of the piece in which the section is. `Memory` where memory is refused in any thread, or a piece of a section has no
/// thread.
pub fn prove_pieces<R: Threads + Wait + Sync>(
    checker: &InThreads<'_, R>,
    alloc: Global,
    count: usize,
    before: usize,
    conditions: &[Condition],
    pieces: &[&[u8]],
) -> Result<(), Refusal>
    requires { before + length conditions.now ≤ count }
    ensures proved { OnOk result (ArePartProvedBy count before (map condition_tree conditions.now) (map (λ piece. piece.now) pieces.now)) }
    ensures holds { OnOk result (AllConditionsHold (map condition_tree conditions.now)) }
    ensures refused { IfErr result (ArePartRefused count before (map condition_tree conditions.now) (map (λ piece. piece.now) pieces.now)) }
    ensures accepts { ArePartProvedBy count before (map condition_tree conditions.now) (map (λ piece. piece.now) pieces.now) →
        IfErr result (λ e. e ≡ no_memory) }
{
    let sections = match sections_of(alloc, count, pieces) {
        Ok(sections) => sections,
        Err(refusal) => return Err(refusal),
    };
    prove_each_all(checker, alloc, count, before, conditions, &sections)
}
