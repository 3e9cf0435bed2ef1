//! An outline all of whose conditions are proved. Its text is read as any file is, and so is each piece of its derivation; proofs are looked for, and
//! checked.

ghost use Rattle.std.specs.Prelude.{◌≡◌, length, IfOk, IfErr};
ghost use Rattle.rg_outline_reports.specs.declared.files.OutlineFiles.{OutlineFiles};
ghost use Rattle.rg_words.specs.Refusals.{no_memory};
ghost use Rattle.rg_pool.specs.ProofPieces.{AreProvedBy, AreProofsRefused};
ghost use Rattle.rg_accept.specs.Stages.{emitted_program, emitted_blocks};
ghost use Rattle.rgc_outlines.specs.Built.{IsBuiltOutline};
ghost use Rattle.rgc_outlines.specs.Proved.{IsProvedOf, conditions_in, proofs_in, AreProvedOutlinesAccepted, AreShortOutlinesAccepted};
ghost use Rattle.rgc_outlines.specs.Refused.{IsVerifyRefusal};
ghost use Rattle.rgc_outlines.specs.Unproved.{AreUnprovedOf};

use crate::derive_outline;
use rg_outline_reports::Outlined;
use rg_watch::Watcher;
use rg_words::Refusal;
use rgc::{Derived, Emitted, InThreads, ProofsFound, Unproved, bytes_of_pieces, find_proofs};
use rgc_answers::Context;
use std::alloc::{AllocError, Global};
use std::sync::Wait;
use std::thread::Threads;

/// What an outline's files derive, with proofs of all its conditions.
#[derive(Drop)]
pub struct Proved {
    pub derived: Derived,
    /// Pieces that are each read as a proofs file is.
    pub proofs: Vec<String>,
}

/// How much is proved of an outline.
#[derive(Clone, Copy)]
pub struct Counts {
    /// How many conditions there are.
    pub conditions: usize,
    /// For how many of them a search found lines: the others need none.
    pub found: usize,
}

/// How many sections pieces of proofs have: each begins with a line of its own.
fn sections_in(pieces: &[String]) -> usize {
    let mut count = 0_usize;
    for piece in pieces {
        let heads = piece
            .as_bytes()
            .split(|byte| *byte == b'\n')
            .filter(|line| line.starts_with(b"section "))
            .count();
        count = count.saturating_add(heads);
    }
    count
}

impl Proved {
    /// How many conditions are proved.
    ///
    /// # Errors
    ///
    /// Only where memory is refused.
    pub fn counts(&self, alloc: Global) -> Result<Counts, AllocError>
        // Of how many of them have sections nothing is promised.
        ensures { IfOk result (λ counts. counts.conditions ≡ length (conditions_in self.now)) }
    {
        let conditions = self.derived.conditions(alloc)?;
        Ok(Counts {
            conditions: conditions.len(),
            found: sections_in(&self.proofs),
        })
    }

    /// The code of the program. The proofs are checked once more.
    ///
    /// # Errors
    ///
    /// As `rgc::Derived::prove_pieces`: of what `prove_outline` gives, only where memory is refused.
    pub fn code<R: Threads + Wait + Sync, P>(
        self,
        context: &Context<'_, R, P>,
    ) -> Result<Emitted, Refusal>
        // Where these are the proofs of an outline's files, it is the code of what these spell.
        ensures built { (files : OutlineFiles) → IsProvedOf files self → IfOk result (λ e. IsBuiltOutline files (emitted_program e) (emitted_blocks e)) }
        ensures refused { IfErr result (AreProofsRefused (conditions_in self) (proofs_in self)) }
        // Proofs of all conditions aren't refused.
        ensures accepts { AreProvedBy (conditions_in self) (proofs_in self) → IfErr result (λ e. e ≡ no_memory) }
    {
        let Proved { derived, proofs } = self;
        let pieces = bytes_of_pieces(context.alloc, &proofs)?;
        let checker = InThreads {
            rt: context.rt,
            threads: context.threads,
        };
        let accepted = match derived.prove_pieces(&checker, context.alloc, &pieces) {
            Ok(accepted) => accepted,
            Err(refusal) => return Err(refusal),
        };
        match accepted.emit(context.alloc) {
            Ok(emitted) => Ok(emitted),
            Err(refusal) => Err(refusal),
        }
    }
}

/// What an outline's files derive, with proofs of all its conditions; else the conditions for which there is no proof. Proofs are looked for and checked in
/// threads, each search with a copy of the watcher and with at most so many decisions.
///
/// # Errors
///
/// As `crate::derive_outline`; then as `rgc::find_proofs`.
pub fn prove_outline<R: Threads + Wait + Sync, P: Watcher + Copy + Sync>(
    context: &Context<'_, R, P>,
    outlined: &Outlined<'_>,
    steps: u64,
) -> Result<Result<Proved, Vec<Unproved>>, Refusal>
    ensures proved { IfOk result (λ answer. IfOk answer (IsProvedOf outlined.now.files)) }
    // What is given of conditions without a proof is true of them, and all others hold.
    ensures unproved { IfOk result (λ answer. IfErr answer (λ unproved. AreUnprovedOf outlined.now.files unproved.items)) }
    ensures refused { IfErr result (IsVerifyRefusal outlined.now.files steps) }
{
    let (rt, alloc, threads) = (context.rt, context.alloc, context.threads);
    let derived = match derive_outline(alloc, &outlined.files) {
        Ok(derived) => derived,
        Err(refusal) => return Err(refusal),
    };
    match find_proofs(rt, alloc, threads, &derived, steps, context.watcher) {
        Ok(ProofsFound::Proofs(proofs)) => Ok(Ok(Proved { derived, proofs })),
        Ok(ProofsFound::Failures(unproved)) => Ok(Err(unproved)),
        Err(refusal) => Err(refusal),
    }
}

/// The files of an outline that is proved are accepted with its proofs, in pieces; and as `rgc::accept` accepts files, where the derivation is no longer than
/// a file may be and the proofs are one file.
pub fn proved_outlines_are_accepted()
    ensures pieces { AreProvedOutlinesAccepted }
    ensures short { AreShortOutlinesAccepted }
{}
