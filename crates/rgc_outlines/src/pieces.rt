//! What the pieces of an outline's derivation derive, and what is promised where there is one.

ghost use Rattle.std.specs.Prelude.{IfOk, IfErr};
ghost use Rattle.rg_accept.specs.Stages.{derived_program, derived_lines};
ghost use Rattle.rgc_outlines.specs.Cut.{IsOfPieces, IsOfPiecesRefusal, ShortDerivationsAreAccepted, ShortDerivationsAreBuilt};

use rg_outline_reports::{OutlineFiles, pieces_of};
use rg_words::Refusal;
use rgc::{Derived, derive_program};
use std::alloc::Global;

/// The program of an outline's text with the lines of its derivation, which may be longer than a file may be: it is then read in pieces of whole
/// lines, each as a file is.
///
/// # Errors
///
/// As `rgc::derive_program`: an outline's text and its derivation are refused only where they are too deep. `Memory` where memory is refused.
pub fn derive_outline(alloc: Global, files: &OutlineFiles) -> Result<Derived, Refusal>
    // What is derived comes from the whole derivation, and from one piece where that is no longer than a file may be.
    ensures derived { IfOk result (λ d. IsOfPieces files.now.text.items files.now.derivation.items (derived_program d) (derived_lines d)) }
    ensures refused { IfErr result (IsOfPiecesRefusal files.now.text.items files.now.derivation.items) }
{
    let pieces = pieces_of(alloc, files)?;
    match derive_program(alloc, &files.text, &pieces) {
        Ok(derived) => Ok(derived),
        Err(refusal) => Err(refusal),
    }
}

/// Where a derivation is no longer than a file may be, what is accepted with its pieces is accepted with it, as `rgc::accept` accepts files.
pub fn short_derivations_are_accepted()
    ensures { ShortDerivationsAreAccepted }
{}

/// Where a derivation is no longer than a file may be, what is built with its pieces is built with it, as `rgc::build` builds files.
pub fn short_derivations_are_built()
    ensures { ShortDerivationsAreBuilt }
{}
