//! The conditions of a line, by its rule.

ghost use Rattle.std.specs.Prelude.{◌≡◌, ◌++◌, [], ◌∷◌, map, OnOk, IfOk};
ghost use Rattle.rg_words.specs.Layout.{widths_of};
ghost use Rattle.rg_tree.specs.Trees.{negation};
ghost use Rattle.rg_tree.specs.View.{formula};
ghost use Rattle.rg_tree.specs.Typing.{IsTyped};
ghost use Rattle.rg_tree.specs.ConditionTrees.{assignment, AssignmentsTyped};
ghost use Rattle.rg_tree.specs.Conditions.{condition_tree};
ghost use Rattle.rg_tree.specs.TypedPrograms.{IsTypedSpecification, IsTypedStatement};
ghost use Rattle.rg_tree.specs.RuleConditions.{as_condition, keeps};
ghost use Rattle.rg_tree.specs.ProgramView.{specification, statement};
ghost use Rattle.rg_tree.specs.declared.line.Rule.TheVariants.{Basic};
ghost use Rattle.rg_tree.specs.Lines.{line_tree, AreTypedLines};
ghost use Rattle.rg_conditions.specs.Asked.{step_conditions, loop_conditions, conseq_conditions, conditions_of_rule};

use crate::add::{add_allowed, add_implied, add_kept, add_made, add_reached};
use crate::premise::first_premise;
use rg_tree::condition::{Assign, Condition};
use rg_tree::copy::copy_formula;
use rg_tree::line::{DerivationLine, Rule};
use rg_tree::part::Spec;
use rg_tree::statement::Stmt;
use rg_tree::tree::Formula;
use rg_words::Layout;
use std::alloc::{AllocError, Global};
use std::slice;

/// The formula alone.
fn one_formula(alloc: Global, f: &Formula) -> Result<Vec<Formula>, AllocError>
    ensures { IfOk result (λ fs. map formula fs.items ≡ formula f.now ∷ []) }
{
    let mut formulas = Vec::new(alloc);
    formulas.push(copy_formula(alloc, f)?)?;
    Ok(formulas)
}

/// Both formulas.
fn two_formulas(alloc: Global, f: &Formula, g: &Formula) -> Result<Vec<Formula>, AllocError>
    ensures { IfOk result (λ fs. map formula fs.items ≡ formula f.now ∷ formula g.now ∷ []) }
{
    let mut formulas = one_formula(alloc, f)?;
    formulas.push(copy_formula(alloc, g)?)?;
    Ok(formulas)
}

/// The first formula, and that the second doesn't hold.
fn without(alloc: Global, f: &Formula, g: &Formula) -> Result<Vec<Formula>, AllocError>
    ensures { IfOk result (λ fs. map formula fs.items ≡ formula f.now ∷ negation (formula g.now) ∷ []) }
{
    let negated = Formula::Not(Box::new(alloc, copy_formula(alloc, g)?)?);
    two_formulas(alloc, f, &negated)
}

/// Adds that the pre and the post stay true under the rely.
fn add_stable(
    alloc: Global,
    all: &mut Vec<Condition>,
    layout: &Layout,
    spec: &Spec,
) -> Result<(), AllocError>
    requires { IsTypedSpecification layout.now (specification spec.now) }
    ensures { OnOk result (map condition_tree all.new.items
        ≡ map condition_tree all.old.items
        ++ map (as_condition layout.now) (keeps (formula spec.now.pre) (formula spec.now.rely) ∷ keeps (formula spec.now.post)
        (formula spec.now.rely) ∷ [])) }
{
    let rely = &spec.rely;
    add_kept(alloc, all, layout, &spec.pre, rely)?;
    add_kept(alloc, all, layout, &spec.post, rely)
}

/// Adds the conditions of a loop with this test.
fn add_loop(
    alloc: Global,
    all: &mut Vec<Condition>,
    layout: &Layout,
    spec: &Spec,
    test: &Formula,
) -> Result<(), AllocError>
    requires spec { IsTypedSpecification layout.now (specification spec.now) }
    requires test { IsTyped (widths_of layout.now) (formula test.now) }
    ensures { OnOk result (map condition_tree all.new.items
        ≡ map condition_tree all.old.items
        ++ map (as_condition layout.now) (loop_conditions (specification spec.now) (formula test.now))) }
{
    add_kept(alloc, all, layout, &spec.pre, &spec.rely)?;
    let given = without(alloc, &spec.pre, test)?;
    add_reached(alloc, all, layout, given, &[], &spec.post)?;
    add_kept(alloc, all, layout, &spec.post, &spec.rely)
}

/// Adds the conditions of a line that follows from another of the same statement.
fn add_conseq(
    alloc: Global,
    all: &mut Vec<Condition>,
    layout: &Layout,
    spec: &Spec,
    from: &Spec,
) -> Result<(), AllocError>
    requires spec { IsTypedSpecification layout.now (specification spec.now) }
    requires from { IsTypedSpecification layout.now (specification from.now) }
    ensures { OnOk result (map condition_tree all.new.items
        ≡ map condition_tree all.old.items
        ++ map (as_condition layout.now) (conseq_conditions (specification spec.now) (specification from.now))) }
{
    add_implied(alloc, all, layout, &spec.pre, &from.pre)?;
    add_allowed(alloc, all, layout, &spec.rely, &from.rely)?;
    add_allowed(alloc, all, layout, &from.guar, &spec.guar)?;
    add_implied(alloc, all, layout, &from.post, &spec.post)
}

/// Adds the conditions of a line whose statement makes these assignments from each state.
fn add_act(
    alloc: Global,
    all: &mut Vec<Condition>,
    layout: &Layout,
    spec: &Spec,
    act: &[Assign],
) -> Result<(), AllocError>
    requires spec { IsTypedSpecification layout.now (specification spec.now) }
    requires act { AssignmentsTyped (widths_of layout.now) (map assignment act.now) }
    ensures { OnOk result (map condition_tree all.new.items
        ≡ map condition_tree all.old.items
        ++ map (as_condition layout.now)
        (step_conditions (specification spec.now) (formula spec.now.pre ∷ []) (map assignment act.now))) }
{
    let given = one_formula(alloc, &spec.pre)?;
    add_reached(alloc, all, layout, given, act, &spec.post)?;
    let given = one_formula(alloc, &spec.pre)?;
    add_made(alloc, all, layout, given, act, &spec.guar)?;
    add_stable(alloc, all, layout, spec)
}

/// Adds the conditions of a line whose statement makes these assignments where the test holds.
fn add_await(
    alloc: Global,
    all: &mut Vec<Condition>,
    layout: &Layout,
    spec: &Spec,
    test: &Formula,
    act: &[Assign],
) -> Result<(), AllocError>
    requires spec { IsTypedSpecification layout.now (specification spec.now) }
    requires test { IsTyped (widths_of layout.now) (formula test.now) }
    requires act { AssignmentsTyped (widths_of layout.now) (map assignment act.now) }
    ensures { OnOk result (map condition_tree all.new.items
        ≡ map condition_tree all.old.items
        ++ map (as_condition layout.now) (step_conditions (specification spec.now) (formula spec.now.pre ∷ formula test.now ∷ [])
        (map assignment act.now))) }
{
    let given = two_formulas(alloc, &spec.pre, test)?;
    add_reached(alloc, all, layout, given, act, &spec.post)?;
    let given = two_formulas(alloc, &spec.pre, test)?;
    add_made(alloc, all, layout, given, act, &spec.guar)?;
    add_stable(alloc, all, layout, spec)
}

/// Adds the conditions of a line of `skip` or of an assignment.
fn add_basic(
    alloc: Global,
    all: &mut Vec<Condition>,
    layout: &Layout,
    spec: &Spec,
    s: &Stmt,
) -> Result<(), AllocError>
    requires spec { IsTypedSpecification layout.now (specification spec.now) }
    requires statement { IsTypedStatement layout.now (statement s.now) }
    ensures { OnOk result (map condition_tree all.new.items
        ≡ map condition_tree all.old.items
        ++ map (as_condition layout.now) (conditions_of_rule [] (specification spec.now) [] Basic (statement s.now))) }
{
    match s {
        Stmt::Assign(_, a) => add_act(alloc, all, layout, spec, slice::from_ref(a)),
        _ => add_act(alloc, all, layout, spec, &[]),
    }
}

/// Adds the conditions of a line of this statement, one of these lines, by its rule. Refused only where memory was refused.
pub fn add_line(
    alloc: Global,
    all: &mut Vec<Condition>,
    layout: &Layout,
    lines: &[DerivationLine],
    line: &DerivationLine,
    s: &Stmt,
) -> Result<(), AllocError>
    requires lines { AreTypedLines layout.now (map line_tree lines.now) }
    requires line { IsTypedSpecification layout.now (specification line.now.spec) }
    requires statement { IsTypedStatement layout.now (statement s.now) }
    ensures { OnOk result (map condition_tree all.new.items
        ≡ map condition_tree all.old.items
        ++ map (as_condition layout.now) (conditions_of_rule (map line_tree lines.now) (specification line.now.spec) line.now.premises.items
        line.now.rule (statement s.now))) }
{
    let spec = &line.spec;
    match (line.rule, s) {
        (Rule::Basic, _) => add_basic(alloc, all, layout, spec, s),
        (Rule::Atomic, Stmt::Await(_, test, act)) => {
            add_await(alloc, all, layout, spec, test, act.as_slice())
        }
        (Rule::If, _) => add_kept(alloc, all, layout, &spec.pre, &spec.rely),
        (Rule::Loop, Stmt::While(_, test, _)) => add_loop(alloc, all, layout, spec, test),
        (Rule::Conseq, _) => match first_premise(lines, line.premises.as_slice()) {
            None => Ok(()),
            Some(from) => add_conseq(alloc, all, layout, spec, from),
        },
        _ => Ok(()),
    }
}
