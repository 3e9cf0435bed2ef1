//! Programs as flat code.

ghost use Rattle.std.specs.Prelude.{◌≡◌, ◌<◌, ◌^◌, map, length, string_bytes, IfOk};
ghost use Rattle.rg_tree.specs.Numbering.{statements_of_parts};
ghost use Rattle.rg_tree.specs.ProgramView.{statement, part as part_tree};
ghost use Rattle.rg_tree.specs.ProgramTrees.{program as program_tree};
ghost use Rattle.rg_code.specs.Code.{count_of, part_code as code_of_part, program_code, HasRunsOf};
ghost use Rattle.rg_code.specs.BlockView.{blocks as blocks_of};
ghost use Rattle.rg_code.specs.CodeTrees.{code_blocks, names_of_code, names_of_program};

use crate::code::{Code, PartCode};
use crate::emit::body_blocks;
use rg_tree::part::Part;
use rg_tree::program::Program;
use std::alloc::{AllocError, Global};

/// The code of one part, under its name.
fn part_code(alloc: Global, part: &Part) -> Result<PartCode, AllocError>
    requires { count_of (statement part.now.body) < 2 ^ 64 }
    ensures name { IfOk result (λ code. string_bytes code.name ≡ string_bytes part.now.name) }
    ensures blocks { IfOk result (λ code. blocks_of code ≡ code_of_part (statement part.now.body)) }
{
    let blocks = body_blocks(alloc, &part.body)?;
    let name = String::from_str(alloc, part.name.as_str())?;
    Ok(PartCode { name, blocks })
}

/// The code of parts, in order.
fn part_codes(alloc: Global, parts: &[Part]) -> Result<Vec<PartCode>, AllocError>
    requires { length (statements_of_parts (map part_tree parts.now)) < 2 ^ 64 }
    ensures names { IfOk result (λ codes. map (λ p. string_bytes p.name) codes.items ≡ map (λ p. string_bytes p.name) parts.now) }
    ensures blocks { IfOk result (λ codes. map blocks_of codes.items ≡ program_code (map part_tree parts.now)) }
{
    let mut codes = Vec::new(alloc);
    for part in parts {
        codes.push(part_code(alloc, part)?)?;
    }
    Ok(codes)
}

/// The code of a program: for each part one block for each of its statements that isn't a sequence, in the order of their
/// numbers, and an `End`. Each block is one step, and all operands of its formulas and values are worked out.
///
/// Refused only where memory was refused.
pub fn compile(alloc: Global, program: &Program) -> Result<Code, AllocError>
    // The words of the program, and its parts under their names.
    ensures words { IfOk result (λ code. code.layout ≡ program.now.layout) }
    ensures names { IfOk result (λ code. names_of_code code ≡ names_of_program program.now) }
    // Exactly these blocks.
    ensures blocks { IfOk result (λ code. code_blocks code ≡ program_code (program_tree program.now).parts) }
    // A trace with its flag is a run of the code if and only if it is a run of the program, with any steps of the environment.
    ensures runs { IfOk result (λ code. HasRunsOf (program_tree program.now) (code_blocks code)) }
{
    let parts = part_codes(alloc, &program.parts)?;
    program.layout.facts();
    let layout = program.layout.copy()?;
    Ok(Code { layout, parts })
}
