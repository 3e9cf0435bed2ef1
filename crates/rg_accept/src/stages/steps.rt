//! The calls that lead from one stage to the next.

ghost use Rattle.std.specs.Prelude.{◌≡◌, List, map, string_bytes, IfOk, IfErr, OnOk};
ghost use Rattle.rg_words.specs.Refusals.{no_memory};
ghost use Rattle.rg_tree.specs.ProgramTrees.{program as program_tree};
ghost use Rattle.rg_tree.specs.Conditions.{condition_tree};
ghost use Rattle.rg_tree.specs.RuleConditions.{AllConditionsHold};
ghost use Rattle.rg_tree.specs.Programs.{IsSatisfied};
ghost use Rattle.rg_tree.specs.Statements.{ProgramTree};
ghost use Rattle.rg_tree.specs.Lines.{LineTree, line_tree, AreTypedLines};
ghost use Rattle.rg_hints.specs.Proved.{AreProved, IsProofsRefusal};
ghost use Rattle.rg_code.specs.Code.{HasRunsOf, program_code};
ghost use Rattle.rg_rules.specs.Reading.{FitsProgram, IsDerivationRefusal};
ghost use Rattle.rg_accept.specs.Accepted.{conditions_of, IsProvedBy};
ghost use Rattle.rg_accept.specs.Names.{names_of_conditions};
ghost use Rattle.rg_parse.specs.Programs.{SpellsProgram, IsProgramRefusal};
ghost use Rattle.rg_accept.specs.Stages.{parsed_program, derived_program, derived_lines, accepted_program, accepted_lines, emitted_program, emitted_lines, emitted_blocks};

use super::{Accepted, Derived, Emitted, Parsed};
use rg_code::compile::compile;
use rg_hints::{OneThread, Prover};
use rg_par::conditions::add_conditions;
use rg_par::names::add_names;
use rg_parse::program;
use rg_rules::Derivation;
use rg_tree::condition::Condition;
use rg_tree::line::DerivationLine;
use rg_tree::program::Program;
use rg_words::Refusal;
use std::alloc::{AllocError, Global};

impl Parsed {
    /// The program that a text spells.
    ///
    /// # Errors
    ///
    /// The first fault of the text, as `rg_parse::program` reports it.
    pub fn read(alloc: Global, text: &[u8]) -> Result<Parsed, Refusal>
        // Ok exactly where the text spells a program, unless memory runs out; that program is kept.
        ensures spells { IfOk result (λ p. SpellsProgram text.now (parsed_program p)) }
        ensures refused { IfErr result (IsProgramRefusal text.now) }
        ensures accepts { (t : ProgramTree) → SpellsProgram text.now t → IfErr result (λ e. e ≡ no_memory) }
    {
        match program(alloc, text) {
            Ok(program) => Ok(Parsed { program }),
            Err(refusal) => Err(refusal),
        }
    }

    /// The program.
    pub fn program(&self) -> &Program
        ensures { program_tree result.now ≡ parsed_program self.now }
    {
        &self.program
    }

    /// The program with the lines that a derivation spells, which derive its parts.
    ///
    /// # Errors
    ///
    /// As `Derived::read`.
    pub fn derive(self, alloc: Global, derivation: &[u8]) -> Result<Derived, Refusal>
        ensures program { IfOk result (λ d. derived_program d ≡ parsed_program self) }
        ensures fits { IfOk result (λ d. FitsProgram (parsed_program self) derivation.now (derived_lines d)) }
        ensures refused { IfErr result (IsDerivationRefusal (parsed_program self) derivation.now) }
        ensures accepts { (ls : List LineTree) → FitsProgram (parsed_program self) derivation.now ls → IfErr result (λ e. e ≡ no_memory) }
    {
        let Parsed { program } = self;
        match Derived::read(alloc, program, derivation) {
            Ok(derived) => Ok(derived),
            Err(refusal) => Err(refusal),
        }
    }
}

impl Derived {
    /// The program with the lines that a derivation spells, which derive its parts.
    ///
    /// # Errors
    ///
    /// The first fault of the derivation, as `rg_rules::Derivation::read` reports it.
    pub fn read(alloc: Global, program: Program, derivation: &[u8]) -> Result<Derived, Refusal>
        ensures program { IfOk result (λ d. derived_program d ≡ program_tree program) }
        ensures fits { IfOk result (λ d. FitsProgram (program_tree program) derivation.now (derived_lines d)) }
        ensures refused { IfErr result (IsDerivationRefusal (program_tree program) derivation.now) }
        ensures accepts { (ls : List LineTree) → FitsProgram (program_tree program) derivation.now ls → IfErr result (λ e. e ≡ no_memory) }
    {
        match Derivation::read(alloc, &program, derivation) {
            Ok(derivation) => Ok(Derived {
                program,
                derivation,
            }),
            Err(refusal) => Err(refusal),
        }
    }

    /// The program.
    pub fn program(&self) -> &Program
        ensures { program_tree result.now ≡ derived_program self.now }
    {
        &self.program
    }

    /// The conditions of the rules: those of the lines in their order, then those of the parallel parts. They are numbered from 1.
    ///
    /// # Errors
    ///
    /// Only where memory is refused.
    pub fn conditions(&self, alloc: Global) -> Result<Vec<Condition>, AllocError>
        // Exactly the rules' list.
        ensures list { IfOk result (λ all. map condition_tree all.items ≡ conditions_of (derived_program self.now) (derived_lines self.now)) }
        // Where all of them are true, the program satisfies its specification.
        ensures sound { IfOk result (λ all. AllConditionsHold (map condition_tree all.items) → IsSatisfied (derived_program self.now)) }
    {
        let mut all = self.derivation.conditions(alloc, &self.program)?;
        add_conditions(alloc, &mut all, &self.program)?;
        Ok(all)
    }

    /// The name of each condition, in the order of `conditions`.
    ///
    /// # Errors
    ///
    /// Only where memory is refused.
    pub fn names(&self, alloc: Global) -> Result<Vec<String>, AllocError>
        ensures { IfOk result (λ all. map string_bytes all.items ≡ names_of_conditions (derived_program self.now) (derived_lines self.now)) }
    {
        let mut all = self.derivation.names(alloc)?;
        add_names(alloc, &mut all, &self.program)?;
        Ok(all)
    }

    /// The program, where this prover finds that the proofs prove all its conditions. It then satisfies its specification.
    ///
    /// # Errors
    ///
    /// The first fault of the proofs, as `rg_hints::prove` reports it.
    pub fn prove_by<P: Prover>(
        self,
        prover: &P,
        alloc: Global,
        proofs: &[u8],
    ) -> Result<Accepted, Refusal>
        requires { P.can_prove prover.now }
        ensures program { IfOk result (λ a. accepted_program a ≡ derived_program self) }
        ensures lines { IfOk result (λ a. accepted_lines a ≡ derived_lines self) }
        ensures proved { OnOk result (AreProved (conditions_of (derived_program self) (derived_lines self)) proofs.now) }
        ensures satisfied { IfOk result (λ a. IsSatisfied (accepted_program a)) }
        ensures refused { IfErr result (IsProofsRefusal (conditions_of (derived_program self) (derived_lines self)) proofs.now) }
        ensures accepts { AreProved (conditions_of (derived_program self) (derived_lines self)) proofs.now → IfErr result (λ e. e ≡ no_memory) }
    {
        let conditions = self.conditions(alloc)?;
        match prover.prove(alloc, conditions.as_slice(), proofs) {
            Ok(()) => {}
            Err(refusal) => return Err(refusal),
        }
        let Derived {
            program,
            derivation,
            ..
        } = self;
        Ok(Accepted {
            program,
            derivation,
        })
    }

    /// The program, where the proofs prove all its conditions. It then satisfies its specification.
    ///
    /// # Errors
    ///
    /// The first fault of the proofs, as `rg_hints::prove` reports it.
    pub fn prove(self, alloc: Global, proofs: &[u8]) -> Result<Accepted, Refusal>
        ensures program { IfOk result (λ a. accepted_program a ≡ derived_program self) }
        ensures lines { IfOk result (λ a. accepted_lines a ≡ derived_lines self) }
        ensures proved { OnOk result (AreProved (conditions_of (derived_program self) (derived_lines self)) proofs.now) }
        ensures satisfied { IfOk result (λ a. IsSatisfied (accepted_program a)) }
        ensures refused { IfErr result (IsProofsRefusal (conditions_of (derived_program self) (derived_lines self)) proofs.now) }
        ensures accepts { AreProved (conditions_of (derived_program self) (derived_lines self)) proofs.now → IfErr result (λ e. e ≡ no_memory) }
    {
        self.prove_by(&OneThread, alloc, proofs)
    }
}

impl Accepted {
    /// The program.
    pub fn program(&self) -> &Program
        ensures { program_tree result.now ≡ accepted_program self.now }
    {
        &self.program
    }

    /// The program with its code.
    ///
    /// # Errors
    ///
    /// Only where memory is refused.
    pub fn emit(self, alloc: Global) -> Result<Emitted, Refusal>
        ensures program { IfOk result (λ e. emitted_program e ≡ accepted_program self) }
        ensures lines { IfOk result (λ e. emitted_lines e ≡ accepted_lines self) }
        // Exactly these blocks.
        ensures blocks { IfOk result (λ e. emitted_blocks e ≡ program_code (accepted_program self).parts) }
        // A trace with its flag is a run of the code if and only if it is a run of the program, with any steps of the environment.
        ensures runs { IfOk result (λ e. HasRunsOf (accepted_program self) (emitted_blocks e)) }
        ensures refused { IfErr result (λ e. e ≡ no_memory) }
    {
        let Accepted {
            program,
            derivation,
            ..
        } = self;
        let code = compile(alloc, &program)?;
        Ok(Emitted {
            program,
            derivation,
            code,
        })
    }
}

impl Emitted {
    /// The lines that derive the program's parts, and whose conditions are proved.
    pub fn lines(&self) -> &[DerivationLine]
        ensures lines { map line_tree result.now ≡ emitted_lines self.now }
        ensures typed { AreTypedLines (emitted_program self.now).words (emitted_lines self.now) }
        ensures proved { ∥ IsProvedBy (emitted_program self.now) (emitted_lines self.now) ∥₁ }
    {
        self.derivation.lines.as_slice()
    }
}
