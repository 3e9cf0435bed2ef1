//! Formulas as text.

ghost use Rattle.std.specs.Prelude.{◌≡◌, ◌++◌, [], length, decimal, string_bytes, OnOk, IfOk};
ghost use Rattle.rg_tree.specs.Fits.{ExpressionFits, FormulaFits};
ghost use Rattle.rg_tree.specs.Printed.{operator_text, shift_text, comparison_text, connective_text, truth_text, between, expression_text, formula_text};
ghost use Rattle.rg_tree.specs.View.{expression, formula};

use crate::tree::{Expr, Formula};
use itoa::Buffer;
use rg_words::Layout;
use rg_words::operators::{Comparison, Connective, Operator, Shift};
use std::alloc::{AllocError, Global};

/// The text of a formula: one space round each binary word or symbol, after `not` and `inv`, and between the words of
/// `(if F then a else b)`; parentheses round each binary tree; numbers without leading zeros.
///
/// An error comes only where memory was refused.
pub fn print(alloc: Global, layout: &Layout, f: &Formula) -> Result<String, AllocError>
    requires { FormulaFits (formula f.now) (length layout.now) }
    ensures { IfOk result (λ text. string_bytes text ≡ formula_text layout.now (formula f.now) []) }
{
    let mut text = String::new(alloc);
    push_formula(&mut text, layout, f)?;
    Ok(text)
}

/// Adds the text of a formula.
#[cycle(print)]
fn push_formula(text: &mut String, layout: &Layout, f: &Formula) -> Result<(), AllocError>
    requires { FormulaFits (formula f.now) (length layout.now) }
    ensures { OnOk result (string_bytes text.new ≡ string_bytes text.old ++ formula_text layout.now (formula f.now) []) }
{
    match f {
        Formula::Truth(b) => {
            text.push_str(if *b { "true" } else { "false" })?;
        }
        Formula::Not(f) => {
            text.push_str("not ")?;
            push_formula(text, layout, f)?;
        }
        Formula::Connect(connective, f, g) => {
            text.push_str("(")?;
            push_formula(text, layout, f)?;
            push_between(text, connective_text(*connective))?;
            push_formula(text, layout, g)?;
            text.push_str(")")?;
        }
        Formula::Compare(comparison, a, b) => {
            text.push_str("(")?;
            push_expression(text, layout, a)?;
            push_between(text, comparison_text(*comparison))?;
            push_expression(text, layout, b)?;
            text.push_str(")")?;
        }
    }
    Ok(())
}

/// Adds the text of an expression.
#[cycle(print)]
fn push_expression(text: &mut String, layout: &Layout, e: &Expr) -> Result<(), AllocError>
    requires { ExpressionFits (expression e.now) (length layout.now) }
    ensures { OnOk result (string_bytes text.new ≡ string_bytes text.old ++ expression_text layout.now (expression e.now) []) }
{
    match e {
        Expr::Number(_, n) => {
            push_number(text, *n)?;
        }
        Expr::Word(k) => {
            text.push_str(layout.name(*k))?;
        }
        Expr::NextWord(k) => {
            text.push_str(layout.name(*k))?;
            text.push_str("'")?;
        }
        Expr::Inverse(_, a) => {
            text.push_str("inv ")?;
            push_expression(text, layout, a)?;
        }
        Expr::Binary(operator, _, a, b) => {
            text.push_str("(")?;
            push_expression(text, layout, a)?;
            push_between(text, operator_text(*operator))?;
            push_expression(text, layout, b)?;
            text.push_str(")")?;
        }
        Expr::Shifted(shift, _, a, count) => {
            text.push_str("(")?;
            push_expression(text, layout, a)?;
            push_between(text, shift_text(*shift))?;
            push_number(text, u64::from(*count))?;
            text.push_str(")")?;
        }
        Expr::If(f, a, b) => {
            text.push_str("(if ")?;
            push_formula(text, layout, f)?;
            push_between(text, "then")?;
            push_expression(text, layout, a)?;
            push_between(text, "else")?;
            push_expression(text, layout, b)?;
            text.push_str(")")?;
        }
    }
    Ok(())
}

/// Adds a word or symbol with a space on each side.
fn push_between(text: &mut String, word: &str) -> Result<(), AllocError>
    ensures { OnOk result (string_bytes text.new ≡ string_bytes text.old ++ between word.now []) }
{
    text.push_str(" ")?;
    text.push_str(word)?;
    text.push_str(" ")?;
    Ok(())
}

/// Adds a number in decimal.
fn push_number(text: &mut String, n: u64) -> Result<(), AllocError>
    ensures { OnOk result (string_bytes text.new ≡ string_bytes text.old ++ decimal n) }
{
    let mut digits = Buffer::new();
    text.push_str(digits.format(n))?;
    Ok(())
}

fn operator_text(operator: Operator) -> &'static str
    ensures { result.now ≡ operator_text operator }
{
    match operator {
        Operator::Add => "+",
        Operator::Subtract => "-",
        Operator::BitAnd => "band",
        Operator::BitOr => "bor",
        Operator::BitXor => "bxor",
    }
}

fn shift_text(shift: Shift) -> &'static str
    ensures { result.now ≡ shift_text shift }
{
    match shift {
        Shift::Left => "shl",
        Shift::Right => "shr",
    }
}

fn comparison_text(comparison: Comparison) -> &'static str
    ensures { result.now ≡ comparison_text comparison }
{
    match comparison {
        Comparison::Equal => "=",
        Comparison::NotEqual => "!=",
        Comparison::Less => "<",
        Comparison::LessOrEqual => "<=",
        Comparison::Greater => ">",
        Comparison::GreaterOrEqual => ">=",
    }
}

fn connective_text(connective: Connective) -> &'static str
    ensures { result.now ≡ connective_text connective }
{
    match connective {
        Connective::And => "and",
        Connective::Or => "or",
        Connective::Implies => "implies",
        Connective::Iff => "iff",
    }
}
