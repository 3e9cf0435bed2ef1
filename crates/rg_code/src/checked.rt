//! Programs that are known to satisfy their specification, with their code.

ghost use Rattle.std.specs.Prelude.{◌≡◌};
ghost use Rattle.rg_tree.specs.declared.program.Program.{Program};
ghost use Rattle.rg_code.specs.declared.code.Code.{Code};
ghost use Rattle.rg_code.specs.Lawful.{IsLawful};

use crate::code::Code;
use rg_tree::program::Program;

/// A program that satisfies its specification, with code that has exactly its runs.
///
/// A type that implements it keeps the law as a ghost field, since the law is asked of each of its values.
pub trait Checked {
    ghost program_of: { Self → Program };

    ghost code_of: { Self → Code };

    /// The program.
    fn program(&self) -> &Program
        ensures { result.now ≡ program_of self.now };

    /// Its code.
    fn code(&self) -> &Code
        ensures { result.now ≡ code_of self.now };

    ghost lawful: { (checked : Self) → ∥ IsLawful (program_of checked) (code_of checked) ∥₁ };
}
