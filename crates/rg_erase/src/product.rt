//! What is left of a program.

ghost use Rattle.rg_code.specs.Lawful.{IsLawful};

use rg_code::checked::Checked;
use rg_code::code::Code;
use rg_tree::program::Program;

/// A program without some of its words, which satisfies what stays of the specification, with code that has exactly its runs.
#[derive(Drop)]
pub struct Erased {
    pub(crate) program: Program,
    pub(crate) code: Code,
    ghost law: { ∥ IsLawful program code ∥₁ },
}

impl Checked for Erased {
    ghost program_of = { λ e. e.program };

    ghost code_of = { λ e. e.code };

    fn program(&self) -> &Program {
        &self.program
    }

    fn code(&self) -> &Code {
        &self.code
    }

    ghost lawful = { λ e. e.law };
}
