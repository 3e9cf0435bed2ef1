//! Programs without some of their words.

ghost use Rattle.std.specs.Prelude.{◌≡◌, None, Some, length, IfOk, IfErr, OnOk};
ghost use Rattle.rg_words.specs.Refusals.{no_memory};
ghost use Rattle.rg_tree.specs.ProgramTrees.{program as program_tree};
ghost use Rattle.rg_tree.specs.TypedPrograms.{IsTypedProgram};
ghost use Rattle.rg_tree.specs.Programs.{IsSatisfied};
ghost use Rattle.rg_erase.specs.Erased.{staying, erased_program};
ghost use Rattle.rg_erase.specs.Faults.{nothing_left, fault_of};
ghost use Rattle.rg_erase.specs.Shadows.{AreShadows};
ghost use Rattle.rg_code.specs.Code.{program_code};
ghost use Rattle.rg_erase.specs.Products.{program_left, blocks_left};

use crate::definitions::{undefined_in_pre, undefined_in_rely};
use crate::fault::Fault;
use crate::kept::{kept_specification, parts_without};
use crate::product::Erased;
use crate::reads::read_in_parts;
use crate::words::{first_free, words_without};
use rg_code::checked::Checked;
use rg_code::compile::compile;
use rg_tree::program::Program;
use rg_words::{Layout, Refusal};
use std::alloc::{AllocError, Global};

/// Why these words can't be erased from a program, if they can't.
fn fault_of(
    alloc: Global,
    program: &Program,
    words: &Layout,
    erased: &[bool],
) -> Result<Option<Fault>, AllocError>
    requires { words.now ≡ staying erased.now program.now.layout }
    ensures { IfOk result (λ fault. fault ≡ fault_of erased.now (program_tree program.now)) }
{
    if first_free(words) >= words.len() {
        return Ok(Some(Fault::NothingLeft));
    }
    if let Some(word) = undefined_in_pre(alloc, erased, &program.spec.pre)? {
        return Ok(Some(Fault::Pre(word)));
    }
    if let Some(word) = undefined_in_rely(alloc, erased, &program.layout, &program.spec.rely)? {
        return Ok(Some(Fault::Rely(word)));
    }
    Ok(read_in_parts(erased, &program.parts))
}

/// A program over the words that stay, without the erased ones.
fn program_without(
    alloc: Global,
    program: &Program,
    words: Layout,
    erased: &[bool],
) -> Result<Program, AllocError>
    requires words { words ≡ staying erased.now program.now.layout }
    requires erasable { fault_of erased.now (program_tree program.now) ≡ None }
    ensures { IfOk result (λ p. program_tree p ≡ erased_program erased.now (program_tree program.now)) }
{
    let own = first_free(&words);
    let spec = kept_specification(alloc, erased, &program.spec)?;
    let parts = parts_without(alloc, erased, own, &program.parts)?;
    Ok(Program {
        layout: words,
        spec,
        parts,
    })
}

/// The program without these words, where no test and no word that stays needs them: for each word a flag says whether it is erased, and a word without a
/// flag stays. Assignments to erased words are left out, and of the formulas the conjuncts that speak of them; each statement keeps its line. What comes
/// out satisfies its specification.
///
/// # Errors
///
/// `Memory` where memory is refused. In an `Ok`, the first fault of the program: why the words can't be erased.
pub fn erase<C: Checked>(
    alloc: Global,
    checked: &C,
    erased: &[bool],
) -> Result<Result<Erased, Fault>, Refusal>
    // Exactly the program that the definition gives.
    ensures program { IfOk result (λ r. IfOk r (λ e. program_left e ≡ erased_program erased.now (program_tree (C.program_of checked.now)))) }
    // Erased exactly where there is no fault; else the first one is given.
    ensures erasable { IfOk result (λ r. OnOk r (fault_of erased.now (program_tree (C.program_of checked.now)) ≡ None)) }
    ensures fault { IfOk result (λ r. IfErr r (λ f. fault_of erased.now (program_tree (C.program_of checked.now)) ≡ Some f)) }
    // Exactly the blocks of its code.
    ensures blocks { IfOk result (λ r. IfOk r (λ e. blocks_left e ≡ program_code (program_left e).parts)) }
    // What stays of the runs of the program is exactly the runs of what comes out, with the flag, and no start of that is lost.
    ensures shadows { IfOk result (λ r. IfOk r (λ e. AreShadows erased.now (program_tree (C.program_of checked.now)) (program_left e))) }
    ensures refused { IfErr result (λ e. e ≡ no_memory) }
{
    let program = checked.program();
    let words = match words_without(alloc, &program.layout, erased) {
        Ok(words) => words,
        Err(refusal) => return Err(refusal),
    };
    if let Some(fault) = fault_of(alloc, program, &words, erased)? {
        return Ok(Err(fault));
    }
    let program = program_without(alloc, program, words, erased)?;
    let code = compile(alloc, &program)?;
    Ok(Ok(Erased { program, code }))
}
