//! Trees that are made of trees: truths are worked out at once, and nothing else is simplified.

ghost use Rattle.std.specs.Prelude.{◌≡◌, true, false, Some, IfOk};
ghost use Rattle.std.specs.Prelude.{◌≢◌, List, [], ◌∷◌, ◌++◌, map, All, Contains, IsTrue};
ghost use Rattle.rg_tree.specs.Trees.{Proposition, connected as connected_tree};
ghost use Rattle.rg_tree.specs.View.{expression, formula as view};
ghost use Rattle.rg_outline_meaning.specs.Meanings.{whole, value as value_meaning, claim, is_true, is_false, negated as negation_of, joined as junction_of, implied as implication_of, keeping as kept_as, IsConjunctionAfter, IsConjunction, operation as operation_of, shifted_of, operated as operation_on, comparison_of as relation_of, comparing, choosing, equals, same_word as same, is_primed, next_value as value_next, next_claim, IsUsed, value_of};
ghost use Rattle.rg_outline_meaning.specs.View.{meaning as shown};

use crate::meaning::{Meaning, Unknown};
use crate::numbers::{compares, computed, count_of};
use rg_outline_syntax::{Comparison, Conditional, Junction, Operator};
use rg_tree::copy::copy_formula;
use rg_tree::equal::same_formula;
use rg_tree::tree::{Expr, Formula};
use rg_words::operators;
use rg_words::operators::{Connective, Shift};
use std::alloc::{AllocError, Global};

/// Whether the formula is `true`.
pub(crate) fn is_true(formula: &Formula) -> bool
    ensures { result ≡ is_true (view formula.now) }
{
    match formula {
        Formula::Truth(truth) => *truth,
        _ => false,
    }
}

/// Whether the formula is `false`.
pub(crate) fn is_false(formula: &Formula) -> bool
    ensures { result ≡ is_false (view formula.now) }
{
    match formula {
        Formula::Truth(truth) => !*truth,
        _ => false,
    }
}

fn connected(
    alloc: Global,
    connective: Connective,
    first: Formula,
    second: Formula,
) -> Result<Formula, AllocError>
    ensures { IfOk result (λ f. view f ≡ connected_tree connective (view first) (view second)) }
{
    Ok(Formula::Connect(
        connective,
        Box::new(alloc, first)?,
        Box::new(alloc, second)?,
    ))
}

/// `not` before a formula.
pub(crate) fn negated(alloc: Global, formula: Formula) -> Result<Formula, AllocError>
    ensures { IfOk result (λ f. view f ≡ negation_of (view formula)) }
{
    if is_true(&formula) {
        return Ok(Formula::Truth(false));
    }
    if is_false(&formula) {
        return Ok(Formula::Truth(true));
    }
    Ok(Formula::Not(Box::new(alloc, formula)?))
}

/// Two formulas with `and` or `or` between them.
pub(crate) fn joined(
    alloc: Global,
    junction: Junction,
    first: Formula,
    second: Formula,
) -> Result<Formula, AllocError>
    ensures { IfOk result (λ f. view f ≡ junction_of junction (view first) (view second)) }
{
    match junction {
        Junction::And => {
            if is_true(&first) {
                return Ok(second);
            }
            if is_true(&second) {
                return Ok(first);
            }
            if is_false(&first) || is_false(&second) {
                return Ok(Formula::Truth(false));
            }
            connected(alloc, Connective::And, first, second)
        }
        Junction::Or => {
            if is_false(&first) {
                return Ok(second);
            }
            if is_false(&second) {
                return Ok(first);
            }
            if is_true(&first) || is_true(&second) {
                return Ok(Formula::Truth(true));
            }
            connected(alloc, Connective::Or, first, second)
        }
    }
}

/// Two formulas with `implies` or `iff` between them.
pub(crate) fn implied(
    alloc: Global,
    conditional: Conditional,
    first: Formula,
    second: Formula,
) -> Result<Formula, AllocError>
    ensures { IfOk result (λ f. view f ≡ implication_of conditional (view first) (view second)) }
{
    if is_true(&first) {
        return Ok(second);
    }
    match conditional {
        Conditional::Implies => {
            if is_true(&second) || is_false(&first) {
                return Ok(Formula::Truth(true));
            }
            connected(alloc, Connective::Implies, first, second)
        }
        Conditional::Iff => {
            if is_true(&second) {
                return Ok(first);
            }
            connected(alloc, Connective::Iff, first, second)
        }
    }
}

/// `keeps` before a formula: it implies itself in the next state.
pub(crate) fn keeping(alloc: Global, formula: Formula) -> Result<Formula, Unknown>
    ensures kept { IfOk result (λ f. view f ≡ kept_as (view formula)) }
    ensures plain { IfOk result (λ _. is_primed (claim (view formula)) ≡ false) }
{
    if is_true(&formula) || is_false(&formula) {
        return Ok(Formula::Truth(true));
    }
    let next = next_formula(alloc, &formula)?;
    Ok(connected(alloc, Connective::Implies, formula, next)?)
}

/// Whether one of the formulas equals this one.
fn has_equal(formulas: &[Formula], formula: &Formula) -> bool
    ensures yes { IsTrue result → Contains (map view formulas.now) (view formula.now) }
    ensures no { result ≡ false → All (λ p. p ≢ view formula.now) (map view formulas.now) }
{
    for other in formulas {
        if same_formula(other, formula) {
            return true;
        }
    }
    false
}

/// What the formulas so far make, and one more; the earlier ones are these.
fn conjoined(
    alloc: Global,
    made: Formula,
    earlier: &[Formula],
    formula: &Formula,
) -> Result<Formula, AllocError>
    ensures { IfOk result (λ next. (rest : List Proposition) → (r : Proposition)
        → IsConjunctionAfter (map view earlier.now ++ view formula.now ∷ []) (view next) rest r
        → IsConjunctionAfter (map view earlier.now) (view made) (view formula.now ∷ rest) r) }
{
    if is_true(formula) || has_equal(earlier, formula) {
        return Ok(made);
    }
    let next = copy_formula(alloc, formula)?;
    if is_true(&made) {
        return Ok(next);
    }
    connected(alloc, Connective::And, made, next)
}

/// The conjunction of formulas, nested to the left: without those that are `true` or equal to an earlier one.
pub(crate) fn conjunction(alloc: Global, formulas: &[Formula]) -> Result<Formula, AllocError>
    ensures { IfOk result (λ f. IsConjunction (map view formulas.now) (view f)) }
{
    let mut made = Formula::Truth(true);
    for place in 0..formulas.len() {
        made = conjoined(alloc, made, &formulas[..place], &formulas[place])?;
    }
    Ok(made)
}

/// The operation on words that an operator is.
fn operation(operator: Operator) -> Option<operators::Operator>
    ensures { result ≡ operation_of operator }
{
    match operator {
        Operator::Add => Some(operators::Operator::Add),
        Operator::Subtract => Some(operators::Operator::Subtract),
        Operator::BitAnd => Some(operators::Operator::BitAnd),
        Operator::BitOr => Some(operators::Operator::BitOr),
        Operator::BitXor => Some(operators::Operator::BitXor),
        Operator::ShiftLeft | Operator::ShiftRight | Operator::Modulus => None,
    }
}

/// A value moved by a number of bits.
fn shifted(alloc: Global, shift: Shift, first: Meaning, second: Meaning) -> Result<Meaning, Unknown>
    ensures { IfOk result (λ m. shifted_of shift (value_of (shown first)) (shown second) ≡ Some (shown m)) }
{
    let Some(count) = count_of(second.into_whole()?) else {
        return Err(Unknown::NoRule);
    };
    let value = first.into_value()?;
    let moved = Box::new(alloc, value)?;
    Ok(Meaning::Value(Expr::Shifted(shift, 0, moved, count)))
}

/// An operation on two values.
pub(crate) fn operated(
    alloc: Global,
    operator: Operator,
    first: Meaning,
    second: Meaning,
) -> Result<Meaning, Unknown>
    ensures { IfOk result (λ m. operation_on operator (shown first) (shown second) ≡ Some (shown m)) }
{
    if let Meaning::Whole(left) = &first
        && let Meaning::Whole(right) = &second
    {
        return match computed(operator, *left, *right) {
            Some(number) => Ok(Meaning::Whole(number)),
            None => Err(Unknown::NoRule),
        };
    }
    match operator {
        Operator::ShiftLeft => shifted(alloc, Shift::Left, first, second),
        Operator::ShiftRight => shifted(alloc, Shift::Right, first, second),
        _ => {
            let Some(operation) = operation(operator) else {
                return Err(Unknown::NoRule);
            };
            let left = Box::new(alloc, first.into_value()?)?;
            let right = Box::new(alloc, second.into_value()?)?;
            Ok(Meaning::Value(Expr::Binary(operation, 0, left, right)))
        }
    }
}

/// The comparison of words that a comparison is.
fn comparison_of(comparison: Comparison) -> operators::Comparison
    ensures { result ≡ relation_of comparison }
{
    match comparison {
        Comparison::Equal => operators::Comparison::Equal,
        Comparison::NotEqual => operators::Comparison::NotEqual,
        Comparison::Less => operators::Comparison::Less,
        Comparison::LessOrEqual => operators::Comparison::LessOrEqual,
        Comparison::Greater => operators::Comparison::Greater,
        Comparison::GreaterOrEqual => operators::Comparison::GreaterOrEqual,
    }
}

/// A comparison of two values.
pub(crate) fn compared(
    comparison: Comparison,
    first: Meaning,
    second: Meaning,
) -> Result<Formula, Unknown>
    ensures { IfOk result (λ f. comparing comparison (shown first) (shown second) ≡ Some (view f)) }
{
    if let Meaning::Whole(left) = &first
        && let Meaning::Whole(right) = &second
    {
        return Ok(Formula::Truth(compares(comparison, *left, *right)));
    }
    let left = first.into_value()?;
    let right = second.into_value()?;
    Ok(Formula::Compare(comparison_of(comparison), left, right))
}

/// A choice between two values.
pub(crate) fn chosen(
    alloc: Global,
    test: Formula,
    yes: Meaning,
    no: Meaning,
) -> Result<Meaning, Unknown>
    ensures { IfOk result (λ m. choosing (view test) (shown yes) (shown no) ≡ Some (shown m)) }
{
    if is_true(&test) {
        return Ok(yes);
    }
    if is_false(&test) {
        return Ok(no);
    }
    let test = Box::new(alloc, test)?;
    let yes = Box::new(alloc, yes.into_value()?)?;
    let no = Box::new(alloc, no.into_value()?)?;
    Ok(Meaning::Value(Expr::If(test, yes, no)))
}

/// That a value is a number.
pub(crate) fn is_number(value: Expr, number: u64) -> Formula
    ensures { view result ≡ equals (expression value) number }
{
    Formula::Compare(operators::Comparison::Equal, value, Expr::Number(0, number))
}

/// That a word stays the same.
pub(crate) fn same_word(word: usize) -> Formula
    ensures { view result ≡ same word }
{
    Formula::Compare(
        operators::Comparison::Equal,
        Expr::NextWord(word),
        Expr::Word(word),
    )
}

/// The value in the next state: each word primed, of which none is primed already.
#[cycle(next)]
pub(crate) fn next_value(alloc: Global, value: &Expr) -> Result<Expr, Unknown>
    ensures next { IfOk result (λ e. expression e ≡ value_next (expression value.now)) }
    ensures plain { IfOk result (λ _. is_primed (value_meaning (expression value.now)) ≡ false) }
{
    Ok(match value {
        Expr::Number(width, number) => Expr::Number(*width, *number),
        Expr::Word(word) => Expr::NextWord(*word),
        Expr::NextWord(_) => return Err(Unknown::NoRule),
        Expr::Inverse(width, a) => {
            let a = next_value(alloc, a)?;
            Expr::Inverse(*width, Box::new(alloc, a)?)
        }
        Expr::Binary(operator, width, a, b) => {
            let a = next_value(alloc, a)?;
            let b = next_value(alloc, b)?;
            Expr::Binary(*operator, *width, Box::new(alloc, a)?, Box::new(alloc, b)?)
        }
        Expr::Shifted(shift, width, a, count) => {
            let a = next_value(alloc, a)?;
            Expr::Shifted(*shift, *width, Box::new(alloc, a)?, *count)
        }
        Expr::If(f, a, b) => {
            let f = next_formula(alloc, f)?;
            let a = next_value(alloc, a)?;
            let b = next_value(alloc, b)?;
            Expr::If(
                Box::new(alloc, f)?,
                Box::new(alloc, a)?,
                Box::new(alloc, b)?,
            )
        }
    })
}

/// The formula in the next state: each word primed, of which none is primed already.
#[cycle(next)]
pub(crate) fn next_formula(alloc: Global, formula: &Formula) -> Result<Formula, Unknown>
    ensures next { IfOk result (λ f. view f ≡ next_claim (view formula.now)) }
    ensures plain { IfOk result (λ _. is_primed (claim (view formula.now)) ≡ false) }
{
    Ok(match formula {
        Formula::Truth(truth) => Formula::Truth(*truth),
        Formula::Not(f) => {
            let f = next_formula(alloc, f)?;
            Formula::Not(Box::new(alloc, f)?)
        }
        Formula::Connect(connective, f, g) => {
            let f = next_formula(alloc, f)?;
            let g = next_formula(alloc, g)?;
            connected(alloc, *connective, f, g)?
        }
        Formula::Compare(comparison, a, b) => {
            let a = next_value(alloc, a)?;
            let b = next_value(alloc, b)?;
            Formula::Compare(*comparison, a, b)
        }
    })
}

/// What it stands for in the next state.
#[tactic(auto, using(crate::proofs::States::in_next_state))]
pub(crate) fn next_meaning(alloc: Global, meaning: &Meaning) -> Result<Meaning, Unknown>
    ensures { IfOk result (λ m. IsUsed true (shown meaning.now) (shown m)) }
{
    Ok(match meaning {
        Meaning::Whole(number) => Meaning::Whole(*number),
        Meaning::Value(value) => Meaning::Value(next_value(alloc, value)?),
        Meaning::Formula(formula) => Meaning::Formula(next_formula(alloc, formula)?),
    })
}
