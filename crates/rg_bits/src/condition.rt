//! Gates for conditions.

ghost use Rattle.std.specs.Prelude.{◌≡◌, ◌<◌, IfOk, length, map, cond, List, Bool, ℕ, ◌++◌};
ghost use Rattle.rg_gates.specs.declared.Lit.TheVariants.{True};
ghost use Rattle.rg_gates.specs.Circuit.{lit_value};
ghost use Rattle.rg_gates.specs.Extends.{IsIn, GatesHold};
ghost use Rattle.std.specs.List.{zip};
ghost use Rattle.rg_tree.specs.Fits.{FormulaFits, ExpressionFits};
ghost use Rattle.rg_tree.specs.View.{expression, formula};
ghost use Rattle.rg_tree.specs.Conditions.{assignment, second_state, condition_tree, AllFit, AssignmentsFit, SecondFits, ConditionFits, ConditionTyped, condition_holds};
ghost use Rattle.rg_rows.specs.Within.{AreRowsIn, rows_of, IsRowIn};
ghost use Rattle.rg_rows.specs.Build.{Builds, fold_of};
ghost use Rattle.rg_bits.specs.Formulas.{row_of};
ghost use Rattle.rg_rows.specs.Inputs.{first_rows, before_rows, inputs_of, first_of, second_of, input_bits};
ghost use Rattle.rg_bits.specs.Conditions.{hypothesis_of, assign_of, same_word_of, reached_rows, goal_of, conclusion_of, implication_of, condition_of};
ghost use Rattle.rg_words.specs.States.{IsState, AgreeOnFixed};

use crate::expression::{build_literal, build_row};
use crate::operations::compare;
use rg_gates::{GateError, Gates, Lit, Table};
use rg_rows::input_rows::{first_state, free_state};
use rg_rows::literals::{and, implies, or};
use rg_tree::condition::{Assign, Condition, Second};
use rg_tree::tree::{Expr, Formula};
use rg_words::Layout;
use rg_words::operators::Comparison;
use std::alloc::{AllocError, Global};

/// One hypothesis more.
#[tactic(auto, using(crate::proofs::ConditionSteps::condition_steps), unfolding(crate::specs::Conditions::hypothesis_of))]
fn add_hypothesis<T: Table>(
    alloc: Global,
    gates: &mut Gates<T>,
    f: &Formula,
    first: &[Vec<Lit>],
    second: &[Vec<Lit>],
    held: Lit,
) -> Result<Lit, GateError>
    requires words { FormulaFits (formula f.now) (length first.now) }
    requires same { length second.now ≡ length first.now }
    requires first { AreRowsIn gates.old (rows_of first.now) }
    requires second { AreRowsIn gates.old (rows_of second.now) }
    requires held { IsIn gates.old held }
    ensures { Builds (hypothesis_of (rows_of first.now) (rows_of second.now) (formula f.now) held) (λ l. l) IsIn gates.old gates.new result }
{
    let literal = build_literal(alloc, gates, f, first, second)?;
    and(gates, held, literal)
}

/// Whether all hypotheses hold.
#[tactic(auto, using(crate::proofs::ConditionSteps::condition_steps))]
fn hypotheses<T: Table>(
    alloc: Global,
    gates: &mut Gates<T>,
    fs: &[Formula],
    first: &[Vec<Lit>],
    second: &[Vec<Lit>],
) -> Result<Lit, GateError>
    requires words { AllFit (map formula fs.now) (length first.now) }
    requires same { length second.now ≡ length first.now }
    requires first { AreRowsIn gates.old (rows_of first.now) }
    requires second { AreRowsIn gates.old (rows_of second.now) }
    ensures { Builds (fold_of (hypothesis_of (rows_of first.now) (rows_of second.now)) (map formula fs.now) True) (λ l. l) IsIn gates.old gates.new result }
{
    let mut held = Lit::True;
    for f in fs {
        held = add_hypothesis(alloc, gates, f, first, second, held)?;
    }
    Ok(held)
}

/// Whether one word more is after as before.
#[tactic(auto, using(crate::proofs::ConditionSteps::condition_steps), unfolding(crate::specs::Conditions::same_word_of))]
fn add_same_word<T: Table>(
    gates: &mut Gates<T>,
    after: &[Lit],
    before: &[Lit],
    so_far: Lit,
) -> Result<Lit, GateError>
    requires first { IsRowIn gates.old after.now }
    requires second { IsRowIn gates.old before.now }
    requires so_far { IsIn gates.old so_far }
    ensures { Builds (same_word_of (after.now, before.now) so_far) (λ l. l) IsIn gates.old gates.new result }
{
    let equal = compare(gates, Comparison::Equal, after, before)?;
    and(gates, so_far, equal)
}

/// Whether each word is after as before.
#[tactic(auto, using(crate::proofs::ConditionSteps::condition_steps))]
fn unchanged<T: Table>(
    gates: &mut Gates<T>,
    after: &[Vec<Lit>],
    before: &[Vec<Lit>],
) -> Result<Lit, GateError>
    requires first { AreRowsIn gates.old (rows_of after.now) }
    requires second { AreRowsIn gates.old (rows_of before.now) }
    ensures { Builds (fold_of same_word_of (zip (rows_of after.now) (rows_of before.now)) True) (λ l. l) IsIn gates.old gates.new result }
{
    let size = after.len().min(before.len());
    let mut same = Lit::True;
    for i in 0..size {
        same = add_same_word(gates, &after[i], &before[i], same)?;
    }
    Ok(same)
}

/// The row that an assignment gives its word.
#[tactic(auto, using(crate::proofs::ConditionSteps::condition_steps))]
fn assigned_row<T: Table>(
    alloc: Global,
    gates: &mut Gates<T>,
    value: &Expr,
    rows: &[Vec<Lit>],
) -> Result<Vec<Lit>, GateError>
    requires words { ExpressionFits (expression value.now) (length rows.now) }
    requires rows { AreRowsIn gates.old (rows_of rows.now) }
    ensures { Builds (row_of (expression value.now) (rows_of rows.now) (rows_of rows.now)) (λ r. r.items) IsRowIn gates.old gates.new result }
{
    let row = build_row(alloc, gates, value, rows, rows)?;
    Ok(row.into_owned(alloc)?)
}

/// The rows after an assignment.
#[tactic(auto, using(crate::proofs::ConditionSteps::condition_steps), unfolding(crate::specs::Conditions::assign_of))]
fn add_assignment<T: Table>(
    alloc: Global,
    gates: &mut Gates<T>,
    assign: &Assign,
    mut rows: Vec<Vec<Lit>>,
) -> Result<Vec<Vec<Lit>>, GateError>
    requires target { assign.now.word < length rows.items }
    requires words { ExpressionFits (expression assign.now.value) (length rows.items) }
    requires rows { AreRowsIn gates.old (rows_of rows.items) }
    ensures builds { Builds (assign_of (assignment assign.now) (rows_of rows.items)) (λ out. rows_of out.items) AreRowsIn gates.old gates.new result }
    ensures size { IfOk result (λ out. length out.items ≡ length rows.items) }
{
    let row = assigned_row(alloc, gates, &assign.value, &rows)?;
    rows[assign.word] = row;
    Ok(rows)
}

/// The rows after assignments, in order.
#[tactic(auto, using(crate::proofs::ConditionSteps::condition_steps))]
fn assigned<T: Table>(
    alloc: Global,
    gates: &mut Gates<T>,
    assigns: &[Assign],
    first: Vec<Vec<Lit>>,
) -> Result<Vec<Vec<Lit>>, GateError>
    requires words { AssignmentsFit (map assignment assigns.now) (length first.items) }
    requires rows { AreRowsIn gates.old (rows_of first.items) }
    ensures builds { Builds (fold_of assign_of (map assignment assigns.now) (rows_of first.items)) (λ out. rows_of out.items) AreRowsIn
        gates.old gates.new result }
    ensures size { IfOk result (λ out. length out.items ≡ length first.items) }
{
    let mut rows = first;
    for assign in assigns {
        rows = add_assignment(alloc, gates, assign, rows)?;
    }
    Ok(rows)
}

/// The rows that the goal reads.
#[tactic(auto, using(crate::proofs::ConditionSteps::condition_steps), unfolding(crate::specs::Conditions::reached_rows))]
fn reached<T: Table>(
    alloc: Global,
    gates: &mut Gates<T>,
    second: &Second,
    rows: Vec<Vec<Lit>>,
) -> Result<Vec<Vec<Lit>>, GateError>
    requires words { SecondFits (second_state second.now) (length rows.items) }
    requires rows { AreRowsIn gates.old (rows_of rows.items) }
    ensures builds { Builds (reached_rows (second_state second.now) (rows_of rows.items)) (λ out. rows_of out.items) AreRowsIn gates.old gates.new result }
    ensures size { IfOk result (λ out. length out.items ≡ length rows.items) }
{
    match second {
        Second::Same | Second::Free => Ok(rows),
        Second::After(assigns) => assigned(alloc, gates, assigns, rows),
    }
}

/// The goal, or that nothing changed.
#[tactic(auto, using(crate::proofs::ConditionSteps::condition_steps), unfolding(crate::specs::Conditions::goal_of))]
fn goal_or_same<T: Table>(
    gates: &mut Gates<T>,
    or_no_change: bool,
    goal: Lit,
    after: &[Vec<Lit>],
    before: &[Vec<Lit>],
) -> Result<Lit, GateError>
    requires goal { IsIn gates.old goal }
    requires first { AreRowsIn gates.old (rows_of after.now) }
    requires second { AreRowsIn gates.old (rows_of before.now) }
    ensures { Builds (goal_of or_no_change goal (rows_of after.now) (rows_of before.now)) (λ l. l) IsIn gates.old gates.new result }
{
    if or_no_change {
        let same = unchanged(gates, after, before)?;
        return or(gates, goal, same);
    }
    Ok(goal)
}

/// The rows by which a goal's plain words are read.
#[tactic(auto, using(crate::proofs::ConditionSteps::condition_steps))]
fn read_rows<'a>(alone: bool, after: &'a [Vec<Lit>], before: &'a [Vec<Lit>]) -> &'a [Vec<Lit>]
    ensures rows { rows_of result.now ≡ cond alone (rows_of after.now) (rows_of before.now) }
    ensures size { length after.now ≡ length before.now → length result.now ≡ length before.now }
{
    if alone { after } else { before }
}

/// The goal wherever the hypotheses hold, over rows for the states before and after.
#[tactic(auto, using(crate::proofs::ConditionSteps::condition_steps), unfolding(crate::specs::Conditions::conclusion_of))]
fn build_conclusion<T: Table>(
    alloc: Global,
    gates: &mut Gates<T>,
    c: &Condition,
    held: Lit,
    first: &[Vec<Lit>],
    after: &[Vec<Lit>],
) -> Result<Lit, GateError>
    requires fits { ConditionFits (condition_tree c.now) }
    requires size { length first.now ≡ length c.now.layout }
    requires same { length after.now ≡ length c.now.layout }
    requires held { IsIn gates.old held }
    requires first { AreRowsIn gates.old (rows_of first.now) }
    requires second { AreRowsIn gates.old (rows_of after.now) }
    ensures { Builds (conclusion_of (condition_tree c.now) (rows_of first.now) (rows_of after.now) held) (λ l. l) IsIn gates.old gates.new result }
{
    let read = read_rows(c.alone, after, first);
    let goal = build_literal(alloc, gates, &c.goal, read, after)?;
    let goal = goal_or_same(gates, c.or_no_change, goal, after, first)?;
    implies(gates, held, goal)
}

/// The literal of a condition over rows for its two states.
#[tactic(auto, using(crate::proofs::ConditionSteps::condition_steps), unfolding(crate::specs::Conditions::implication_of))]
fn build_implication<T: Table>(
    alloc: Global,
    gates: &mut Gates<T>,
    c: &Condition,
    first: &[Vec<Lit>],
    second: Vec<Vec<Lit>>,
) -> Result<Lit, GateError>
    requires fits { ConditionFits (condition_tree c.now) }
    requires size { length first.now ≡ length c.now.layout }
    requires same { length second.items ≡ length c.now.layout }
    requires first { AreRowsIn gates.old (rows_of first.now) }
    requires second { AreRowsIn gates.old (rows_of second.items) }
    ensures { Builds (implication_of (condition_tree c.now) (rows_of first.now) (rows_of second.items)) (λ l. l) IsIn gates.old gates.new result }
{
    let held = hypotheses(alloc, gates, &c.hypotheses, first, &second)?;
    let after = reached(alloc, gates, &c.second, second)?;
    build_conclusion(alloc, gates, c, held, first, &after)
}

/// Rows for the second state that hypotheses read.
#[tactic(auto, using(crate::proofs::FormulaLaw::row_counts))]
fn second_rows(
    alloc: Global,
    condition: &Condition,
    first: &[Vec<Lit>],
) -> Result<Vec<Vec<Lit>>, AllocError>
    requires first { rows_of first.now ≡ first_rows 0 condition.now.layout }
    ensures rows { IfOk result (λ r. rows_of r.items ≡ before_rows (second_state condition.now.second) condition.now.layout) }
{
    match condition.second {
        Second::Free => free_state(alloc, &condition.layout, first),
        Second::Same | Second::After(_) => first_state(alloc, &condition.layout),
    }
}

/// The literal of a condition: true under the bits of two states exactly where the condition holds of them.
///
/// Each hypothesis is built and joined to those before it, in their order; then the assignments, the goal, and, where a
/// step that changes nothing meets the goal too, whether each word is as before. Nothing is left out though it is constant.
///
/// # Errors
///
/// `TooManyVariables` where inputs and gates would be more than `MOST_VARIABLES`. After an error the gates that were made
/// stay after the older ones.
pub fn formula<T: Table>(
    alloc: Global,
    gates: &mut Gates<T>,
    condition: &Condition,
) -> Result<Lit, GateError>
    requires inputs { gates.old.inputs ≡ inputs_of (condition_tree condition.now) }

    // The circuit is the one that the numbering fixes.
    ensures builds { Builds (condition_of (condition_tree condition.now)) (λ l. l) IsIn gates.old gates.new result }

    // Under all values of the circuit the literal says whether the condition holds of the states with these bits.
    ensures meaning { IfOk result (λ l. (values : List Bool) → GatesHold gates.new values
        → lit_value values l ≡ condition_holds (condition_tree condition.now) (first_of (condition_tree condition.now) values) (second_of (condition_tree condition.now) values)) }

    // For every pair of states that agree on the fixed words: under their bits it is true exactly where the condition holds.
    ensures pairs { IfOk result (λ l. (s t : List ℕ) → IsState condition.now.layout s → IsState condition.now.layout t
        → AgreeOnFixed condition.now.layout s t → (values rest : List Bool) → GatesHold gates.new values
        → values ≡ input_bits (condition_tree condition.now) s t ++ rest → lit_value values l ≡ condition_holds (condition_tree condition.now) s t) }
{
    let first = first_state(alloc, &condition.layout)?;
    let second = second_rows(alloc, condition, &first)?;
    build_implication(alloc, gates, condition, &first, second)
}
