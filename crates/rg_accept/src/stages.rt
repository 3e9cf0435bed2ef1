//! The stages from a text to code: what each holds. Each is made from the one before alone, by a call that takes it by value: what is refused
//! is dropped. A typed program that was read from no text comes in at `Derived`.

ghost use Rattle.std.specs.Prelude.{map};
ghost use Rattle.rg_tree.specs.declared.program.Program.{Program};
ghost use Rattle.rg_tree.specs.ProgramView.{part};
ghost use Rattle.rg_tree.specs.ProgramTrees.{program as program_tree};
ghost use Rattle.rg_tree.specs.Programs.{IsSatisfied};
ghost use Rattle.rg_tree.specs.Lines.{line_tree, AreTypedLines};
ghost use Rattle.rg_rules.specs.Inner.OneProof.{AreTypedLines-prop};
ghost use Rattle.rg_rules.specs.Faults.{Derives};
ghost use Rattle.rg_code.specs.declared.code.Code.{Code};
ghost use Rattle.rg_code.specs.Lawful.{IsLawful};
ghost use Rattle.rg_accept.specs.Accepted.{IsProvedBy};

mod pieces;
mod steps;

use rg_code::checked::Checked;
use rg_code::code::Code;
use rg_rules::Derivation;
use rg_tree::program::Program;

/// The program that a text spells.
#[derive(Drop)]
pub struct Parsed {
    program: Program,
}

/// A program with lines that derive its parts.
#[derive(Drop)]
pub struct Derived {
    program: Program,
    derivation: Derivation,
    ghost typed: { AreTypedLines program.layout (map line_tree derivation.lines.items) } by { AreTypedLines-prop _ _ },
    ghost derives: { ∥ Derives (map part program.parts.items) (map line_tree derivation.lines.items) ∥₁ },
}

/// A program that satisfies its specification, with the lines that derive its parts.
#[derive(Drop)]
pub struct Accepted {
    program: Program,
    derivation: Derivation,
    ghost proved: { ∥ IsProvedBy (program_tree program) (map line_tree derivation.lines.items) ∥₁ },
    ghost satisfied: { ∥ IsSatisfied (program_tree program) ∥₁ },
}

/// A program that satisfies its specification, with the lines that derive its parts and code that has exactly its runs.
#[derive(Drop)]
pub struct Emitted {
    program: Program,
    derivation: Derivation,
    ghost proved: { ∥ IsProvedBy (program_tree program) (map line_tree derivation.lines.items) ∥₁ },
    code: Code,
    ghost law: { ∥ IsLawful program code ∥₁ },
}

impl Checked for Emitted {
    ghost program_of = { λ e. e.program };

    ghost code_of = { λ e. e.code };

    ghost lawful = { λ e. e.law };

    fn program(&self) -> &Program {
        &self.program
    }

    fn code(&self) -> &Code {
        &self.code
    }
}
