//! Values and formulas.

ghost use Rattle.std.specs.Prelude.{◌≡◌, ◌++◌, string_bytes, OnOk};
ghost use Rattle.rg_tree.specs.View.{expression, formula};
ghost use Rattle.rg_smt.specs.Formulas.{operator_text, shift_text, comparison_text, connective_text, number_text, value_text, formula_text};
ghost use Rattle.rg_smt.specs.Inner.View.{reading};

use crate::symbols::{Moment, push_digits, push_symbol};
use rg_tree::tree::{Expr, Formula};
use rg_words::Layout;
use rg_words::operators::{Comparison, Connective, Operator, Shift};
use std::alloc::AllocError;

/// Two states: the one in which plain words are read, and the one in which primed words are.
#[derive(Clone, Copy)]
pub(crate) struct Pair<'a> {
    pub plain: Moment<'a>,
    pub primed: Moment<'a>,
}

/// Adds a number of this width.
fn push_number(text: &mut String, width: u32, n: u64) -> Result<(), AllocError>
    ensures { OnOk result (string_bytes text.new ≡ string_bytes text.old ++ number_text width n) }
{
    text.push_str("(_ bv")?;
    push_digits(text, n)?;
    text.push_str(" ")?;
    push_digits(text, u64::from(width))?;
    text.push_str(")")?;
    Ok(())
}

/// Adds a value.
#[cycle(print)]
pub(crate) fn push_value(
    text: &mut String,
    layout: &Layout,
    pair: Pair<'_>,
    e: &Expr,
) -> Result<(), AllocError>
    ensures { OnOk result (string_bytes text.new
        ≡ string_bytes text.old
        ++ value_text layout.now (reading pair.entry.plain) (reading pair.entry.primed) (expression e.now)) }
{
    match e {
        Expr::Number(width, n) => push_number(text, *width, *n),
        Expr::Word(k) => push_symbol(text, layout, pair.plain, *k),
        Expr::NextWord(k) => push_symbol(text, layout, pair.primed, *k),
        Expr::Inverse(_, a) => {
            text.push_str("(bvnot ")?;
            push_value(text, layout, pair, a)?;
            text.push_str(")")?;
            Ok(())
        }
        Expr::Binary(operator, _, a, b) => {
            text.push_str(operator_text(*operator))?;
            push_value(text, layout, pair, a)?;
            text.push_str(" ")?;
            push_value(text, layout, pair, b)?;
            text.push_str(")")?;
            Ok(())
        }
        Expr::Shifted(shift, width, a, count) => {
            if *width <= *count {
                return push_number(text, *width, 0);
            }
            text.push_str(shift_text(*shift))?;
            push_value(text, layout, pair, a)?;
            text.push_str(" ")?;
            push_number(text, *width, u64::from(*count))?;
            text.push_str(")")?;
            Ok(())
        }
        Expr::If(f, a, b) => {
            text.push_str("(ite ")?;
            push_formula(text, layout, pair, f)?;
            text.push_str(" ")?;
            push_value(text, layout, pair, a)?;
            text.push_str(" ")?;
            push_value(text, layout, pair, b)?;
            text.push_str(")")?;
            Ok(())
        }
    }
}

/// Adds a formula.
#[cycle(print)]
pub(crate) fn push_formula(
    text: &mut String,
    layout: &Layout,
    pair: Pair<'_>,
    f: &Formula,
) -> Result<(), AllocError>
    ensures { OnOk result (string_bytes text.new
        ≡ string_bytes text.old
        ++ formula_text layout.now (reading pair.entry.plain) (reading pair.entry.primed) (formula f.now)) }
{
    match f {
        Formula::Truth(b) => {
            text.push_str(if *b { "true" } else { "false" })?;
            Ok(())
        }
        Formula::Not(f) => {
            text.push_str("(not ")?;
            push_formula(text, layout, pair, f)?;
            text.push_str(")")?;
            Ok(())
        }
        Formula::Connect(connective, f, g) => {
            text.push_str(connective_text(*connective))?;
            push_formula(text, layout, pair, f)?;
            text.push_str(" ")?;
            push_formula(text, layout, pair, g)?;
            text.push_str(")")?;
            Ok(())
        }
        Formula::Compare(comparison, a, b) => {
            text.push_str(comparison_text(*comparison))?;
            push_value(text, layout, pair, a)?;
            text.push_str(" ")?;
            push_value(text, layout, pair, b)?;
            text.push_str(")")?;
            Ok(())
        }
    }
}

fn operator_text(operator: Operator) -> &'static str
    ensures { result.now ≡ operator_text operator }
{
    match operator {
        Operator::Add => "(bvadd ",
        Operator::Subtract => "(bvsub ",
        Operator::BitAnd => "(bvand ",
        Operator::BitOr => "(bvor ",
        Operator::BitXor => "(bvxor ",
    }
}

fn shift_text(shift: Shift) -> &'static str
    ensures { result.now ≡ shift_text shift }
{
    match shift {
        Shift::Left => "(bvshl ",
        Shift::Right => "(bvlshr ",
    }
}

fn comparison_text(comparison: Comparison) -> &'static str
    ensures { result.now ≡ comparison_text comparison }
{
    match comparison {
        Comparison::Equal => "(= ",
        Comparison::NotEqual => "(distinct ",
        Comparison::Less => "(bvult ",
        Comparison::LessOrEqual => "(bvule ",
        Comparison::Greater => "(bvugt ",
        Comparison::GreaterOrEqual => "(bvuge ",
    }
}

fn connective_text(connective: Connective) -> &'static str
    ensures { result.now ≡ connective_text connective }
{
    match connective {
        Connective::And => "(and ",
        Connective::Or => "(or ",
        Connective::Implies => "(=> ",
        Connective::Iff => "(= ",
    }
}
