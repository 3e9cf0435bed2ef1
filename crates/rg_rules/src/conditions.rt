//! The conditions of the lines of a derivation.

ghost use Rattle.std.specs.Prelude.{◌≡◌, ◌++◌, ℕ, length, map, OnOk, IfOk, Some};
ghost use Rattle.rg_tree.specs.Statements.{Statement};
ghost use Rattle.rg_tree.specs.Programs.{nth, PartsSatisfy};
ghost use Rattle.rg_tree.specs.Conditions.{condition_tree};
ghost use Rattle.rg_tree.specs.TypedPrograms.{IsTypedStatement};
ghost use Rattle.rg_tree.specs.RuleConditions.{as_condition, AllConditionsHold};
ghost use Rattle.rg_tree.specs.Numbering.{statements_of_parts};
ghost use Rattle.rg_tree.specs.ProgramView.{part};
ghost use Rattle.rg_tree.specs.ProgramTrees.{program as program_tree};
ghost use Rattle.rg_rules.specs.Derivations.{conditions_asked, LinesHold};
ghost use Rattle.rg_rules.specs.Inner.View.{referred};
ghost use Rattle.rg_tree.specs.Lines.{line_tree, AreTypedLines};
ghost use Rattle.rg_rules.specs.Faults.{Derives};
ghost use Rattle.rg_rules.specs.Names.{line_names};

use crate::derivation::Derivation;
use crate::table::{statement_at, statements_by_number};
use rg_conditions::conditions::add_line;
use rg_tree::condition::Condition;
use rg_tree::line::DerivationLine;
use rg_tree::program::Program;
use rg_tree::statement::Stmt;
use rg_words::Layout;
use std::alloc::{AllocError, Global};

/// Adds the conditions of all lines, of which the statements are in this list.
fn add_lines(
    alloc: Global,
    all: &mut Vec<Condition>,
    layout: &Layout,
    list: &[&Stmt],
    lines: &[DerivationLine],
) -> Result<(), AllocError>
    requires lines { AreTypedLines layout.now (map line_tree lines.now) }
    requires statements { (n : ℕ) (s : Statement) → nth (map referred list.now) n ≡ Some s → IsTypedStatement layout.now s }
    ensures { OnOk result (map condition_tree all.new.items
        ≡ map condition_tree all.old.items
        ++ map (as_condition layout.now)
        (conditions_asked (map referred list.now) (map line_tree lines.now) (map line_tree lines.now))) }
{
    for line in lines {
        if let Some(s) = statement_at(list, line.number) {
            add_line(alloc, all, layout, lines, line, s)?;
        }
    }
    Ok(())
}

impl Derivation {
    /// The conditions of the lines, in their order. Each line has, by its rule: `basic` and `atomic`, that the statement's
    /// assignments lead from the pre into the post and make a step inside the guarantee, and that the rely keeps the pre and
    /// the post; `if`, that the rely keeps the pre; `loop`, that the rely keeps the pre, that the pre without the test gives
    /// the post, and that the rely keeps the post; `conseq`, that the four formulas give those of the premise, and back;
    /// `seq` has none.
    ///
    /// Refused only where memory was refused.
    pub fn conditions(&self, alloc: Global, program: &Program) -> Result<Vec<Condition>, AllocError>
        requires typed { AreTypedLines program.now.layout (map line_tree self.now.lines.items) }
        // The lines were read for this program: that there is a proof of it, as a type can keep.
        requires derives { ∥ Derives (map part program.now.parts.items) (map line_tree self.now.lines.items) ∥₁ }
        // Exactly the rules' list.
        ensures list { IfOk result (λ all. map condition_tree all.items
            ≡ map (as_condition program.now.layout) (conditions_asked (statements_of_parts (map part program.now.parts.items))
            (map line_tree self.now.lines.items) (map line_tree self.now.lines.items))) }
        // One for each name.
        ensures count { IfOk result (λ all. length all.items ≡ length (line_names 1 (map line_tree self.now.lines.items))) }
        // Where they are true, each line's statement satisfies the line's four formulas.
        ensures sound { IfOk result (λ all. AllConditionsHold (map condition_tree all.items) →
            LinesHold program.now.layout (map part program.now.parts.items) (map line_tree self.now.lines.items)) }
        // And so each part's body satisfies the part's own specification.
        ensures parts { IfOk result (λ all. AllConditionsHold (map condition_tree all.items) → PartsSatisfy (program_tree program.now)) }
    {
        let list = statements_by_number(alloc, program.parts.as_slice())?;
        let mut all = Vec::new(alloc);
        add_lines(
            alloc,
            &mut all,
            &program.layout,
            list.as_slice(),
            self.lines.as_slice(),
        )?;
        Ok(all)
    }
}
