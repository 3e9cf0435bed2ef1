//! Programs from their bytes.

ghost use Rattle.std.specs.Prelude.{◌≡◌, IfOk, IfErr};
ghost use Rattle.rg_words.specs.Refusals.{no_memory};
ghost use Rattle.rg_tree.specs.ProgramTrees.{program as program_tree};
ghost use Rattle.rg_tree.specs.Statements.{ProgramTree};
ghost use Rattle.rg_syntax.specs.declared.text_kind.TextKind.TheVariants as texts;
ghost use Rattle.rg_syntax.specs.Written.{program_text};
ghost use Rattle.rg_resolve.specs.Programs.{program_faults};
ghost use Rattle.rg_resolve.specs.ProgramTyping.{ProgramStandsFor};
ghost use Rattle.rg_parse.specs.Programs.{SpellsProgram, IsProgramRefusal, OneSpelledProgram};

use crate::parse_programs::parse_program;
use crate::reader::{Reader, read};
use rg_resolve::resolve::resolve_program;
use rg_syntax::written::ProgramText;
use rg_text::token::Token;
use rg_tree::program::Program;
use rg_words::{Refusal, SourceFile};
use std::alloc::Global;

/// The program that a text spells: `words .. pre .. rely .. guar .. post ..`, and then its parts, each `part NAME pre .. rely ..
/// guar .. post .. begin .. end`.
///
/// # Errors
///
/// The first fault, in file `text`, at the line of its token: first `Limit` at line 1 (the text is too large) and `BadByte`; then of its
/// shape, as `parse_program` reports it; then of its meaning, the least token first, as `rg_parse::resolve::resolve_program` reports it.
/// `Memory` where memory is refused.
pub fn program(alloc: Global, source: &[u8]) -> Result<Program, Refusal>
    // What is read is what is written.
    ensures spells { IfOk result (λ p. SpellsProgram source.now (program_tree p)) }
    ensures refused { IfErr result (IsProgramRefusal source.now) }
    // What is written is read, unless memory runs out.
    ensures accepts { (t : ProgramTree) → SpellsProgram source.now t → IfErr result (λ e. e ≡ no_memory) }
{
    read(&ProgramReader, alloc, SourceFile::Text, source)
}

/// Reads programs.
#[derive(Drop)]
struct ProgramReader;

impl Reader for ProgramReader {
    type Written = ProgramText;

    type Answer = Program;

    ghost kind = { texts.Program };

    ghost says = { λ source written. program_text source written };

    ghost view = { λ program. program_tree program };

    ghost stands = { λ _ said tree. ProgramStandsFor said tree };

    ghost faults = { λ _ said. program_faults said };

    ghost holds = { λ _ _. Unit {0} };

    fn parse(
        &self,
        alloc: Global,
        file: SourceFile,
        tokens: &[Token],
    ) -> Result<ProgramText, Refusal> {
        parse_program(alloc, file, tokens)
    }

    fn resolve(
        &self,
        alloc: Global,
        file: SourceFile,
        source: &[u8],
        written: &ProgramText,
    ) -> Result<Program, Refusal> {
        resolve_program(alloc, file, source, written)
    }
}

/// The same bytes spell one program.
pub fn one_program()
    ensures { OneSpelledProgram }
{}
