//! A derivation and clause proofs for a text's program, each in pieces that are files: what is derived, accepted and built by them, and what is promised of
//! a single piece.

ghost use Rattle.std.specs.Prelude.{◌≡◌, List, IfOk, IfErr};
ghost use Rattle.rg_words.specs.Refusals.{no_memory};
ghost use Rattle.rg_tree.specs.Lines.{LineTree};
ghost use Rattle.rg_tree.specs.Statements.{ProgramTree};
ghost use Rattle.rg_tree.specs.Programs.{IsSatisfied};
ghost use Rattle.rgc.specs.Pieces.{bytes_of, AreDerived, IsDeriveRefusal, AreAcceptedInPieces, IsAcceptInPiecesRefusal, IsBuiltInPieces, OnePieceFits, OnePieceIsAccepted, OnePieceIsBuilt};
ghost use Rattle.rg_accept.specs.Stages.{derived_program, derived_lines, accepted_program, emitted_program, emitted_blocks};

use rg_accept::{Accepted, Derived, Emitted, Parsed};
use rg_parse::{one_derivation, one_program};
use rg_pool::InThreads;
use rg_words::Refusal;
use std::alloc::Global;
use std::sync::Wait;
use std::thread::Threads;

/// The program that a text spells, with the lines that the pieces of a derivation spell, which derive its parts. So a derivation may be longer than
/// a file may be.
///
/// # Errors
///
/// The first fault: of the text, then of the pieces, as `Derived::of_pieces` reports it. `Memory` where memory is refused.
pub fn derive_program(alloc: Global, text: &[u8], derivation: &[&[u8]]) -> Result<Derived, Refusal>
    ensures derived { IfOk result (λ d. AreDerived text.now (bytes_of derivation.now) (derived_program d) (derived_lines d)) }
    ensures refused { IfErr result (IsDeriveRefusal text.now (bytes_of derivation.now)) }
    ensures accepts { (p : ProgramTree) (ls : List LineTree) → AreDerived text.now (bytes_of derivation.now) p ls → IfErr result (λ e. e ≡ no_memory) }
{
    // The bytes spell one program.
    one_program();
    let parsed = match Parsed::read(alloc, text) {
        Ok(parsed) => parsed,
        Err(refusal) => return Err(refusal),
    };
    match parsed.derive_in_pieces(alloc, derivation) {
        Ok(derived) => Ok(derived),
        Err(refusal) => Err(refusal),
    }
}

/// The program that a text spells, where the pieces of a derivation and of proofs prove that it satisfies its specification. So both may be longer than a
/// file may be. Conditions are looked at as `accept_all` does.
///
/// # Errors
///
/// The first fault: of the text, then of the derivation, as `derive_program` reports it; then of the proofs, as `rg_pool::prove_pieces` reports it.
/// `Memory` where memory is refused.
pub fn accept_in_pieces<R: Threads + Wait + Sync>(
    checker: &InThreads<'_, R>,
    alloc: Global,
    text: &[u8],
    derivation: &[&[u8]],
    proofs: &[&[u8]],
) -> Result<Accepted, Refusal>
    ensures accepted { IfOk result (λ a. AreAcceptedInPieces text.now (bytes_of derivation.now) (bytes_of proofs.now) (accepted_program a)) }
    ensures accepts { (p : ProgramTree) → AreAcceptedInPieces text.now (bytes_of derivation.now) (bytes_of proofs.now) p → IfErr result (λ e. e ≡ no_memory) }
    ensures refused { IfErr result (IsAcceptInPiecesRefusal text.now (bytes_of derivation.now) (bytes_of proofs.now)) }
    // What is accepted satisfies its specification.
    ensures satisfied { IfOk result (λ a. IsSatisfied (accepted_program a)) }
{
    // The bytes spell one program, and each piece one list of lines.
    one_program();
    one_derivation();
    let derived = match derive_program(alloc, text, derivation) {
        Ok(derived) => derived,
        Err(refusal) => return Err(refusal),
    };
    match derived.prove_pieces(checker, alloc, proofs) {
        Ok(accepted) => Ok(accepted),
        Err(refusal) => Err(refusal),
    }
}

/// Where a text and the pieces of its derivation and of its clause proofs are accepted, the emitted code has exactly the text's runs, and every run from the
/// pre whose environment steps lie inside the rely makes only steps inside the guarantee and, where it has ended, stands in the post.
///
/// # Errors
///
/// As `accept_in_pieces`.
pub fn build_in_pieces<R: Threads + Wait + Sync>(
    checker: &InThreads<'_, R>,
    alloc: Global,
    text: &[u8],
    derivation: &[&[u8]],
    proofs: &[&[u8]],
) -> Result<Emitted, Refusal>
    ensures built { IfOk result (λ e. IsBuiltInPieces text.now (bytes_of derivation.now) (bytes_of proofs.now) (emitted_program e) (emitted_blocks e)) }
    ensures accepts { (p : ProgramTree) → AreAcceptedInPieces text.now (bytes_of derivation.now) (bytes_of proofs.now) p → IfErr result (λ e. e ≡ no_memory) }
    ensures refused { IfErr result (IsAcceptInPiecesRefusal text.now (bytes_of derivation.now) (bytes_of proofs.now)) }
{
    let accepted = match accept_in_pieces(checker, alloc, text, derivation, proofs) {
        Ok(accepted) => accepted,
        Err(refusal) => return Err(refusal),
    };
    match accepted.emit(alloc) {
        Ok(emitted) => Ok(emitted),
        Err(refusal) => Err(refusal),
    }
}

/// One piece is a derivation as any file is: it is taken for the same lines.
pub fn one_piece_fits()
    ensures { OnePieceFits }
{}

/// With one piece of each, a text, a derivation and clause proofs are accepted exactly where `accept` accepts the three files.
pub fn one_piece_is_accepted()
    ensures { OnePieceIsAccepted }
{}

/// What is built by one piece of each is what `build` builds by the three files.
pub fn one_piece_is_built()
    ensures { OnePieceIsBuilt }
{}
