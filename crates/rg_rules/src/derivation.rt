//! The lines of a derivation, and what makes them one.

ghost use Rattle.std.specs.Prelude.{◌≡◌, ◌⊎◌, map, IfOk, IfErr};
ghost use Rattle.rg_words.specs.Refusals.{no_memory};

use crate::fits::{are_parts_derived, first_bad_line};
use crate::table::{sizes_of, statements_by_number};
use rg_tree::line::DerivationLine;
use rg_tree::program::Program;
use rg_words::{Place, Refusal, RefusalNumber, SourceFile};
use std::alloc::Global;

/// Lines that derive the parts of a program: each line is numbered by its place and fits its rule, and each part has a line
/// of its whole body with the part's four formulas.
#[derive(Drop)]
pub struct Derivation {
    pub lines: Vec<DerivationLine>,
}

impl Derivation {
    ghost use Rattle.rg_tree.specs.ProgramView.{part};
    ghost use Rattle.rg_tree.specs.Lines.{line_tree};
    ghost use Rattle.rg_rules.specs.Faults.{Derives, IsFirstFault};

    /// These lines as a derivation of a program's parts, where they are one. `last_line` is the last line of their source,
    /// from 1.
    ///
    /// Refused, in the file `derivation`, at the first line that is at fault: `LineNumber` where its number isn't its place;
    /// else `WrongStatement` where there is no such statement; else `RuleDoesNotFit` where the rule is for another kind of
    /// statement or asks another count of premises; else `NotEarlier` where a premise isn't an earlier line; else
    /// `WrongStatement` where a premise is of another statement than the rule asks; else `FormulaDiffers` where a formula
    /// isn't as the rule asks. Where no line is at fault, `PartNotDerived` at `last_line`, where a part has no line.
    /// `Memory` where memory was refused.
    pub fn of_lines(
        alloc: Global,
        program: &Program,
        lines: Vec<DerivationLine>,
        last_line: u32,
    ) -> Result<Derivation, Refusal>
        // What is answered is these lines, and they derive the parts.
        ensures lines { IfOk result (λ d. d.lines ≡ lines) }
        ensures derives { IfOk result (λ d. Derives (map part program.now.parts.items) (map line_tree d.lines.items)) }
        // What is refused has this fault, and none before it: so, by the law `derivations_have_no_fault`, the lines don't
        // derive the parts.
        ensures fault { IfErr result (λ e. (e ≡ no_memory) ⊎ IsFirstFault (map part program.now.parts.items) (map line_tree lines.items) last_line e) }
    {
        let parts = program.parts.as_slice();
        let list = statements_by_number(alloc, parts)?;
        let sizes = sizes_of(alloc, list.as_slice())?;
        if let Some(refusal) = first_bad_line(list.as_slice(), sizes.as_slice(), lines.as_slice()) {
            return Err(refusal);
        }
        if !are_parts_derived(lines.as_slice(), parts) {
            let place = Place::Line(u64::from(last_line));
            return Err(Refusal::at(RefusalNumber::PartNotDerived, SourceFile::Derivation, place));
        }
        Ok(Derivation { lines })
    }
}
