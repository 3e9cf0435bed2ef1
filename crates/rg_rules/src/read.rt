//! A derivation from its bytes.

ghost use Rattle.std.specs.Prelude.{◌≡◌, List, map, IfOk, IfErr};
ghost use Rattle.rg_words.specs.Refusals.{no_memory};
ghost use Rattle.rg_tree.specs.Lines.{LineTree, line_tree, AreTypedLines};
ghost use Rattle.rg_tree.specs.ProgramTrees.{program as program_tree};
ghost use Rattle.rg_rules.specs.Reading.{FitsProgram, IsDerivationRefusal};

use crate::derivation::Derivation;
use rg_parse::derivation;
use rg_tree::program::Program;
use rg_words::Refusal;
use std::alloc::Global;

impl Derivation {
    /// The derivation of a program's parts that a source spells: `line 1 basic 1 pre true rely true guar true post true`, and
    /// so on, each line with its number, its rule, its statement's number, the lines that it follows from, and its formulas.
    ///
    /// # Errors
    ///
    /// The first fault, in the file `derivation`. First `Limit` at line 1 (the file is too large) and `BadByte` at the byte's
    /// line. Then of its shape, at the line of the token, `UnexpectedInDerivation`, `Depth` and `Limit`, and `Unfinished` at
    /// the last line. Then of its meaning, the least token first: `NumberTooLarge` for a number of a line above
    /// 4,294,967,295, and the faults of its formulas as `rg_resolve::resolve::resolve_formula` reports them. Then of its lines, as
    /// `of_lines` reports them. `Memory` where memory was refused.
    pub fn read(alloc: Global, program: &Program, source: &[u8]) -> Result<Derivation, Refusal>
        // What is read is what is written, and it derives the program's parts.
        ensures fits { IfOk result (λ d. FitsProgram (program_tree program.now) source.now (map line_tree d.lines.items)) }
        ensures typed { IfOk result (λ d. AreTypedLines program.now.layout (map line_tree d.lines.items)) }
        ensures refused { IfErr result (IsDerivationRefusal (program_tree program.now) source.now) }
        // What is written and derives the parts is read, unless memory runs out.
        ensures accepts { (ls : List LineTree) → FitsProgram (program_tree program.now) source.now ls → IfErr result (λ e. e ≡ no_memory) }
    {
        let (lines, last) = match derivation(alloc, &program.layout, source) {
            Ok(read) => read,
            Err(refusal) => return Err(refusal),
        };
        match Derivation::of_lines(alloc, program, lines, last) {
            Ok(derivation) => Ok(derivation),
            Err(refusal) => Err(refusal),
        }
    }
}
