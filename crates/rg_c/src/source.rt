//! Formulas, expressions and assignments in the program's own words.

ghost use Rattle.std.specs.Prelude.{◌≡◌, ◌++◌, [], length, map, string_bytes, OnOk};
ghost use Rattle.rg_tree.specs.Fits.{ExpressionFits, FormulaFits};
ghost use Rattle.rg_tree.specs.Printed.{operator_text, shift_text, comparison_text, connective_text, truth_text, between, expression_text, formula_text};
ghost use Rattle.rg_tree.specs.View.{expression, formula};
ghost use Rattle.rg_tree.specs.ConditionTrees.{assignment};
ghost use Rattle.rg_c.specs.Fitting.{AssignmentsFit};
ghost use Rattle.rg_c.specs.Source.{name_here, assignment_source, more_source, assignments_source};

use crate::print::push_digits;
use rg_tree::condition::Assign;
use rg_tree::tree::{Expr, Formula};
use rg_words::Layout;
use rg_words::operators::{Comparison, Connective, Operator, Shift};
use std::alloc::AllocError;

/// Adds the text of a formula.
#[cycle(source)]
pub(crate) fn push_formula(
    text: &mut String,
    layout: &Layout,
    f: &Formula,
) -> Result<(), AllocError>
    requires { FormulaFits (formula f.now) (length layout.now) }
    ensures { OnOk result (string_bytes text.new ≡ string_bytes text.old ++ formula_text layout.now (formula f.now) []) }
{
    match f {
        Formula::Truth(b) => {
            text.push_str(if *b { "true" } else { "false" })?;
        }
        Formula::Not(f) => {
            text.push_str("not ")?;
            push_formula(text, layout, f)?;
        }
        Formula::Connect(connective, f, g) => {
            text.push_str("(")?;
            push_formula(text, layout, f)?;
            push_between(text, connective_text(*connective))?;
            push_formula(text, layout, g)?;
            text.push_str(")")?;
        }
        Formula::Compare(comparison, a, b) => {
            text.push_str("(")?;
            push_expression(text, layout, a)?;
            push_between(text, comparison_text(*comparison))?;
            push_expression(text, layout, b)?;
            text.push_str(")")?;
        }
    }
    Ok(())
}

/// Adds the text of an expression.
#[cycle(source)]
fn push_expression(text: &mut String, layout: &Layout, e: &Expr) -> Result<(), AllocError>
    requires { ExpressionFits (expression e.now) (length layout.now) }
    ensures { OnOk result (string_bytes text.new ≡ string_bytes text.old ++ expression_text layout.now (expression e.now) []) }
{
    match e {
        Expr::Number(_, n) => {
            push_digits(text, *n)?;
        }
        Expr::Word(k) => {
            text.push_str(layout.name(*k))?;
        }
        Expr::NextWord(k) => {
            text.push_str(layout.name(*k))?;
            text.push_str("'")?;
        }
        Expr::Inverse(_, a) => {
            text.push_str("inv ")?;
            push_expression(text, layout, a)?;
        }
        Expr::Binary(operator, _, a, b) => {
            text.push_str("(")?;
            push_expression(text, layout, a)?;
            push_between(text, operator_text(*operator))?;
            push_expression(text, layout, b)?;
            text.push_str(")")?;
        }
        Expr::Shifted(shift, _, a, count) => {
            text.push_str("(")?;
            push_expression(text, layout, a)?;
            push_between(text, shift_text(*shift))?;
            push_digits(text, u64::from(*count))?;
            text.push_str(")")?;
        }
        Expr::If(f, a, b) => {
            text.push_str("(if ")?;
            push_formula(text, layout, f)?;
            push_between(text, "then")?;
            push_expression(text, layout, a)?;
            push_between(text, "else")?;
            push_expression(text, layout, b)?;
            text.push_str(")")?;
        }
    }
    Ok(())
}

/// Adds a word or symbol with a space on each side.
fn push_between(text: &mut String, word: &str) -> Result<(), AllocError>
    ensures { OnOk result (string_bytes text.new ≡ string_bytes text.old ++ between word.now []) }
{
    text.push_str(" ")?;
    text.push_str(word)?;
    text.push_str(" ")?;
    Ok(())
}

fn operator_text(operator: Operator) -> &'static str
    ensures { result.now ≡ operator_text operator }
{
    match operator {
        Operator::Add => "+",
        Operator::Subtract => "-",
        Operator::BitAnd => "band",
        Operator::BitOr => "bor",
        Operator::BitXor => "bxor",
    }
}

fn shift_text(shift: Shift) -> &'static str
    ensures { result.now ≡ shift_text shift }
{
    match shift {
        Shift::Left => "shl",
        Shift::Right => "shr",
    }
}

fn comparison_text(comparison: Comparison) -> &'static str
    ensures { result.now ≡ comparison_text comparison }
{
    match comparison {
        Comparison::Equal => "=",
        Comparison::NotEqual => "!=",
        Comparison::Less => "<",
        Comparison::LessOrEqual => "<=",
        Comparison::Greater => ">",
        Comparison::GreaterOrEqual => ">=",
    }
}

fn connective_text(connective: Connective) -> &'static str
    ensures { result.now ≡ connective_text connective }
{
    match connective {
        Connective::And => "and",
        Connective::Or => "or",
        Connective::Implies => "implies",
        Connective::Iff => "iff",
    }
}

/// Adds the name of a word.
fn push_name(text: &mut String, layout: &Layout, word: usize) -> Result<(), AllocError>
    ensures { OnOk result (string_bytes text.new ≡ string_bytes text.old ++ name_here layout.now word) }
{
    if word < layout.len() {
        text.push_str(layout.name(word))?;
    }
    Ok(())
}

/// Adds an assignment.
pub(crate) fn push_assignment(
    text: &mut String,
    layout: &Layout,
    a: &Assign,
) -> Result<(), AllocError>
    requires { ExpressionFits (expression a.now.value) (length layout.now) }
    ensures { OnOk result (string_bytes text.new ≡ string_bytes text.old ++ assignment_source layout.now (assignment a.now)) }
{
    push_name(text, layout, a.word)?;
    text.push_str(" := ")?;
    push_expression(text, layout, &a.value)
}

/// Adds assignments, each after a semicolon.
fn push_more(text: &mut String, layout: &Layout, act: &[Assign]) -> Result<(), AllocError>
    requires { AssignmentsFit (length layout.now) (map assignment act.now) }
    ensures { OnOk result (string_bytes text.new ≡ string_bytes text.old ++ more_source layout.now (map assignment act.now)) }
{
    for a in act {
        text.push_str("; ")?;
        push_assignment(text, layout, a)?;
    }
    Ok(())
}

/// Adds assignments, with a semicolon between them.
pub(crate) fn push_assignments(
    text: &mut String,
    layout: &Layout,
    act: &[Assign],
) -> Result<(), AllocError>
    requires { AssignmentsFit (length layout.now) (map assignment act.now) }
    ensures { OnOk result (string_bytes text.new ≡ string_bytes text.old ++ assignments_source layout.now (map assignment act.now)) }
{
    match act.split_first() {
        None => Ok(()),
        Some((first, rest)) => {
            push_assignment(text, layout, first)?;
            push_more(text, layout, rest)
        }
    }
}
