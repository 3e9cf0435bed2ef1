//! A derivation and proofs that are longer than a file may be, in pieces that are each read as a file is.

ghost use Rattle.std.specs.Prelude.{◌≡◌, ℕ, List, ◌++◌, map, IfOk, IfErr, OnOk};
ghost use Rattle.rg_words.specs.Refusals.{no_memory};
ghost use Rattle.rg_tree.specs.ProgramTrees.{program as program_tree};
ghost use Rattle.rg_tree.specs.Lines.{LineTree, line_tree, AreTypedLines};
ghost use Rattle.rg_tree.specs.Programs.{IsSatisfied};
ghost use Rattle.rg_parse.specs.Derivations.{SpellsDerivation, IsDerivationTextRefusal};
ghost use Rattle.rg_accept.specs.Pieces.{AreSpelledInPieces, FitsInPieces, IsPieceRefusal, IsPiecesRefusal};
ghost use Rattle.rg_pool.specs.ProofPieces.{AreProvedBy, AreProofsRefused};
ghost use Rattle.rg_accept.specs.Accepted.{conditions_of};
ghost use Rattle.rg_accept.specs.Stages.{parsed_program, derived_program, derived_lines, accepted_program, accepted_lines};

use super::{Accepted, Derived, Parsed};
use rg_parse::{derivation, one_derivation};
use rg_pool::{InThreads, prove_pieces};
use rg_rules::{Derivation, derivations_have_no_fault};
use rg_tree::line::DerivationLine;
use rg_tree::program::Program;
use rg_words::{Layout, Refusal};
use std::alloc::Global;
use std::sync::Wait;
use std::thread::Threads;

impl Parsed {
    /// The program with the lines that the pieces of a derivation spell, which derive its parts.
    ///
    /// # Errors
    ///
    /// As `Derived::of_pieces`.
    pub fn derive_in_pieces(self, alloc: Global, pieces: &[&[u8]]) -> Result<Derived, Refusal>
        ensures program { IfOk result (λ d. derived_program d ≡ parsed_program self) }
        ensures fits { IfOk result (λ d. FitsInPieces (parsed_program self) (map (λ piece. piece.now) pieces.now) (derived_lines d)) }
        ensures refused { IfErr result (IsPiecesRefusal (parsed_program self) (map (λ piece. piece.now) pieces.now)) }
        ensures accepts { (ls : List LineTree) →
            FitsInPieces (parsed_program self) (map (λ piece. piece.now) pieces.now) ls →
            IfErr result (λ e. e ≡ no_memory) }
    {
        let Parsed { program } = self;
        match Derived::of_pieces(alloc, program, pieces) {
            Ok(derived) => Ok(derived),
            Err(refusal) => Err(refusal),
        }
    }
}

impl Derived {
    /// The program with the lines that the pieces of a derivation spell, one after another, which derive its parts. Each piece is read as a
    /// derivation of its own, of at most `MOST_TEXT_BYTES` bytes; the lines of all pieces are numbered from 1 on.
    ///
    /// # Errors
    ///
    /// The first fault of the first piece that has one, as `rg_parse::derivation` reports it of the piece alone; then of all lines, as
    /// `rg_rules::Derivation::of_lines` reports it, at the line of its own piece where a line begins. `Memory` where memory is refused.
    pub fn of_pieces(alloc: Global, program: Program, pieces: &[&[u8]]) -> Result<Derived, Refusal>
        ensures program { IfOk result (λ d. derived_program d ≡ program_tree program) }
        // What is taken are the lines of all pieces, in the order of the pieces, and they derive the program's parts.
        ensures fits { IfOk result (λ d. FitsInPieces (program_tree program) (map (λ piece. piece.now) pieces.now) (derived_lines d)) }
        ensures refused { IfErr result (IsPiecesRefusal (program_tree program) (map (λ piece. piece.now) pieces.now)) }
        // Pieces of lines that derive the parts are taken, unless memory runs out.
        ensures accepts { (ls : List LineTree) →
            FitsInPieces (program_tree program) (map (λ piece. piece.now) pieces.now) ls →
            IfErr result (λ e. e ≡ no_memory) }
    {
        // A piece spells one list of lines, and lines that derive the parts have no fault.
        one_derivation();
        derivations_have_no_fault();
        let (lines, last) = match lines_of(alloc, &program.layout, pieces) {
            Ok(read) => read,
            Err(refusal) => return Err(refusal),
        };
        match Derivation::of_lines(alloc, &program, lines, last) {
            Ok(derivation) => Ok(Derived {
                program,
                derivation,
            }),
            Err(refusal) => Err(refusal),
        }
    }

    /// The program, where the pieces of proofs together prove all its conditions. It then satisfies its specification.
    ///
    /// # Errors
    ///
    /// The first fault of the pieces, as `rg_pool::prove_pieces` reports it.
    pub fn prove_pieces<R: Threads + Wait + Sync>(
        self,
        checker: &InThreads<'_, R>,
        alloc: Global,
        proofs: &[&[u8]],
    ) -> Result<Accepted, Refusal>
        ensures program { IfOk result (λ a. accepted_program a ≡ derived_program self) }
        ensures lines { IfOk result (λ a. accepted_lines a ≡ derived_lines self) }
        ensures proved { OnOk result (AreProvedBy (conditions_of (derived_program self) (derived_lines self)) (map (λ piece. piece.now) proofs.now)) }
        ensures satisfied { IfOk result (λ a. IsSatisfied (accepted_program a)) }
        ensures refused { IfErr result (AreProofsRefused (conditions_of (derived_program self) (derived_lines self)) (map (λ piece. piece.now) proofs.now)) }
        ensures accepts { AreProvedBy (conditions_of (derived_program self) (derived_lines self)) (map (λ piece. piece.now) proofs.now) →
            IfErr result (λ e. e ≡ no_memory) }
    {
        let conditions = self.conditions(alloc)?;
        let all = conditions.as_slice();
        match prove_pieces(checker, alloc, all.len(), 0, all, proofs) {
            Ok(()) => {}
            Err(refusal) => return Err(refusal),
        }
        let Derived {
            program,
            derivation,
            ..
        } = self;
        Ok(Accepted {
            program,
            derivation,
        })
    }
}

/// The lines of all pieces, and the line of the last piece's last token; 1 where there is no piece.
fn lines_of(
    alloc: Global,
    layout: &Layout,
    pieces: &[&[u8]],
) -> Result<(Vec<DerivationLine>, u32), Refusal>
    ensures spelled { IfOk result (λ r. AreSpelledInPieces layout.now 1 (map (λ piece. piece.now) pieces.now) (map line_tree r.0.items) r.1) }
    ensures typed { IfOk result (λ r. AreTypedLines layout.now (map line_tree r.0.items)) }
    ensures refused { IfErr result (IsPieceRefusal layout.now (map (λ piece. piece.now) pieces.now)) }
    ensures accepts { (ls : List LineTree) (last : ℕ) →
        AreSpelledInPieces layout.now 1 (map (λ piece. piece.now) pieces.now) ls last →
        IfErr result (λ e. e ≡ no_memory) }
{
    let mut all = Vec::new(alloc);
    let mut last = 1;
    for piece in pieces {
        last = match add_lines(alloc, layout, piece, &mut all) {
            Ok(last) => last,
            Err(refusal) => return Err(refusal),
        };
    }
    Ok((all, last))
}

/// Adds the lines of a piece, and answers with the line of its last token.
fn add_lines(
    alloc: Global,
    layout: &Layout,
    piece: &[u8],
    all: &mut Vec<DerivationLine>,
) -> Result<u32, Refusal>
    ensures spelled { IfOk result (λ last. (ls : List LineTree) × SpellsDerivation layout.now piece.now ls last
        × (map line_tree all.new.items ≡ map line_tree all.old.items ++ ls)) }
    ensures typed { AreTypedLines layout.now (map line_tree all.old.items) → IfOk result (λ _. AreTypedLines layout.now (map line_tree all.new.items)) }
    ensures refused { IfErr result (IsDerivationTextRefusal layout.now piece.now) }
    ensures accepts { (ls : List LineTree) (last : ℕ) → SpellsDerivation layout.now piece.now ls last → IfErr result (λ e. e ≡ no_memory) }
{
    let (mut lines, last) = match derivation(alloc, layout, piece) {
        Ok(read) => read,
        Err(refusal) => return Err(refusal),
    };
    all.append(&mut lines)?;
    Ok(last)
}
