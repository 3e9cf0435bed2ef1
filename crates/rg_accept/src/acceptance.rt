//! From a program's text or tree, its derivation and its clause proofs to code.

ghost use Rattle.std.specs.Prelude.{◌≡◌, IfOk, IfErr, OnOk};
ghost use Rattle.rg_words.specs.Refusals.{no_memory};
ghost use Rattle.rg_tree.specs.ProgramTrees.{program as program_tree};
ghost use Rattle.rg_tree.specs.Programs.{IsSatisfied};
ghost use Rattle.rg_accept.specs.Accepted.{IsAccepted, IsAcceptRefusal, IsBuilt, AreAccepted, IsAcceptedText, IsAcceptTextRefusal, IsBuiltText};
ghost use Rattle.rg_accept.specs.Stages.{accepted_program, emitted_program, emitted_blocks};

use crate::stages::{Accepted, Derived, Emitted, Parsed};
use rg_hints::{OneThread, Prover};
use rg_parse::{one_derivation, one_program};
use rg_pool::InThreads;
use rg_tree::program::Program;
use rg_words::Refusal;
use std::alloc::Global;
use std::sync::Wait;
use std::thread::Threads;

/// The program, where the derivation and the proofs prove that it satisfies its specification.
///
/// # Errors
///
/// The first fault over both files: of the derivation, as `rg_rules::Derivation::read` reports it; then of the proofs, as
/// `rg_hints::prove` reports it. `Memory` where memory is refused.
pub fn accept_program(
    alloc: Global,
    program: Program,
    derivation: &[u8],
    proofs: &[u8],
) -> Result<Accepted, Refusal>
    ensures program { IfOk result (λ a. accepted_program a ≡ program_tree program) }
    // Ok exactly where the written rules accept both files for the program, unless memory runs out.
    ensures accepted { OnOk result (IsAccepted (program_tree program) derivation.now proofs.now) }
    ensures accepts { IsAccepted (program_tree program) derivation.now proofs.now → IfErr result (λ e. e ≡ no_memory) }
    ensures refused { IfErr result (IsAcceptRefusal (program_tree program) derivation.now proofs.now) }
    // What is accepted satisfies its specification.
    ensures satisfied { OnOk result (IsSatisfied (program_tree program)) }
{
    // The bytes spell one derivation.
    one_derivation();
    let derived = match Derived::read(alloc, program, derivation) {
        Ok(derived) => derived,
        Err(refusal) => return Err(refusal),
    };
    match derived.prove(alloc, proofs) {
        Ok(accepted) => Ok(accepted),
        Err(refusal) => Err(refusal),
    }
}

/// Where a program's derivation and its clause proofs are accepted, which is exactly where the written rules accept them, the emitted code has
/// exactly the program's runs, and every run from the pre whose environment steps lie inside the rely makes only steps inside the guarantee
/// and, where it has ended, stands in the post.
///
/// # Errors
///
/// As `accept_program`.
pub fn build_program(
    alloc: Global,
    program: Program,
    derivation: &[u8],
    proofs: &[u8],
) -> Result<Emitted, Refusal>
    ensures program { IfOk result (λ e. emitted_program e ≡ program_tree program) }
    ensures built { IfOk result (λ e. IsBuilt (program_tree program) derivation.now proofs.now (emitted_blocks e)) }
    ensures accepts { IsAccepted (program_tree program) derivation.now proofs.now → IfErr result (λ e. e ≡ no_memory) }
    ensures refused { IfErr result (IsAcceptRefusal (program_tree program) derivation.now proofs.now) }
{
    let accepted = match accept_program(alloc, program, derivation, proofs) {
        Ok(accepted) => accepted,
        Err(refusal) => return Err(refusal),
    };
    match accepted.emit(alloc) {
        Ok(emitted) => Ok(emitted),
        Err(refusal) => Err(refusal),
    }
}

/// The program that a text spells, where the derivation and the proofs, of which this prover decides, prove that it satisfies
/// its specification.
///
/// # Errors
///
/// As `accept`.
fn accept_by<P: Prover>(
    prover: &P,
    alloc: Global,
    text: &[u8],
    derivation: &[u8],
    proofs: &[u8],
) -> Result<Accepted, Refusal>
    requires { P.can_prove prover.now }
    // Ok exactly where the written rules accept all three files, unless memory runs out.
    ensures accepted { IfOk result (λ a. AreAccepted text.now derivation.now proofs.now (accepted_program a)) }
    ensures accepts { IsAcceptedText text.now derivation.now proofs.now → IfErr result (λ e. e ≡ no_memory) }
    ensures refused { IfErr result (IsAcceptTextRefusal text.now derivation.now proofs.now) }
    // What is accepted satisfies its specification.
    ensures satisfied { IfOk result (λ a. IsSatisfied (accepted_program a)) }
{
    // The bytes spell one program and one derivation.
    one_program();
    one_derivation();
    let parsed = match Parsed::read(alloc, text) {
        Ok(parsed) => parsed,
        Err(refusal) => return Err(refusal),
    };
    let derived = match parsed.derive(alloc, derivation) {
        Ok(derived) => derived,
        Err(refusal) => return Err(refusal),
    };
    match derived.prove_by(prover, alloc, proofs) {
        Ok(proved) => Ok(proved),
        Err(refusal) => Err(refusal),
    }
}

/// The program that a text spells, where the derivation and the proofs prove that it satisfies its specification.
///
/// # Errors
///
/// The first fault over all three files: of the text, as `rg_parse::program` reports it; then of the derivation, as
/// `rg_rules::Derivation::read` reports it; then of the proofs, as `rg_hints::prove` reports it. `Memory` where memory is refused.
pub fn accept(
    alloc: Global,
    text: &[u8],
    derivation: &[u8],
    proofs: &[u8],
) -> Result<Accepted, Refusal>
    // Ok exactly where the written rules accept all three files, unless memory runs out.
    ensures accepted { IfOk result (λ a. AreAccepted text.now derivation.now proofs.now (accepted_program a)) }
    ensures accepts { IsAcceptedText text.now derivation.now proofs.now → IfErr result (λ e. e ≡ no_memory) }
    ensures refused { IfErr result (IsAcceptTextRefusal text.now derivation.now proofs.now) }
    // What is accepted satisfies its specification.
    ensures satisfied { IfOk result (λ a. IsSatisfied (accepted_program a)) }
{
    accept_by(&OneThread, alloc, text, derivation, proofs)
}

/// As `accept`, in at most so many threads: conditions are looked at side by side, and each section is checked as
/// `rg_pool::check_all` does; with fewer than two threads, all is done in the thread that asks.
///
/// # Errors
///
/// As `accept`.
pub fn accept_all<R: Threads + Wait + Sync>(
    rt: &R,
    alloc: Global,
    threads: usize,
    text: &[u8],
    derivation: &[u8],
    proofs: &[u8],
) -> Result<Accepted, Refusal>
    // Ok exactly where the written rules accept all three files, unless memory runs out.
    ensures accepted { IfOk result (λ a. AreAccepted text.now derivation.now proofs.now (accepted_program a)) }
    ensures accepts { IsAcceptedText text.now derivation.now proofs.now → IfErr result (λ e. e ≡ no_memory) }
    ensures refused { IfErr result (IsAcceptTextRefusal text.now derivation.now proofs.now) }
    // What is accepted satisfies its specification.
    ensures satisfied { IfOk result (λ a. IsSatisfied (accepted_program a)) }
{
    accept_by(&InThreads { rt, threads }, alloc, text, derivation, proofs)
}

/// As `build`, where this prover decides of the proofs: `OneThread`, or `InThreads`.
///
/// # Errors
///
/// As `accept`.
pub fn build_by<P: Prover>(
    prover: &P,
    alloc: Global,
    text: &[u8],
    derivation: &[u8],
    proofs: &[u8],
) -> Result<Emitted, Refusal>
    requires { P.can_prove prover.now }
    ensures built { IfOk result (λ e. IsBuiltText text.now derivation.now proofs.now (emitted_program e) (emitted_blocks e)) }
    ensures accepts { IsAcceptedText text.now derivation.now proofs.now → IfErr result (λ e. e ≡ no_memory) }
    ensures refused { IfErr result (IsAcceptTextRefusal text.now derivation.now proofs.now) }
{
    let accepted = match accept_by(prover, alloc, text, derivation, proofs) {
        Ok(accepted) => accepted,
        Err(refusal) => return Err(refusal),
    };
    match accepted.emit(alloc) {
        Ok(coded) => Ok(coded),
        Err(refusal) => Err(refusal),
    }
}

/// Where a text, its derivation and its clause proofs are accepted, which is exactly where the written rules accept them, the emitted code has
/// exactly the text's runs, and every run from the pre whose environment steps lie inside the rely makes only steps inside the guarantee
/// and, where it has ended, stands in the post. Each step of a part is also inside that part's own guarantee.
///
/// # Errors
///
/// As `accept`.
pub fn build(
    alloc: Global,
    text: &[u8],
    derivation: &[u8],
    proofs: &[u8],
) -> Result<Emitted, Refusal>
    ensures built { IfOk result (λ e. IsBuiltText text.now derivation.now proofs.now (emitted_program e) (emitted_blocks e)) }
    ensures accepts { IsAcceptedText text.now derivation.now proofs.now → IfErr result (λ e. e ≡ no_memory) }
    ensures refused { IfErr result (IsAcceptTextRefusal text.now derivation.now proofs.now) }
{
    build_by(&OneThread, alloc, text, derivation, proofs)
}
