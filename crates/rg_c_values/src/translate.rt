//! Values and tests of the language as expressions of C.

ghost use Rattle.std.specs.Prelude.{◌≡◌, true, length, IfOk};
ghost use Rattle.rg_words.specs.Layout.{widths_of};
ghost use Rattle.rg_tree.specs.Fits.{ExpressionFits, FormulaFits};
ghost use Rattle.rg_tree.specs.View.{expression, formula};
ghost use Rattle.rg_c_values.specs.View.{value, test};
ghost use Rattle.rg_c_values.specs.Translation.{translated, tested, stored, value_in_c, test_in_c, stored_in_c};

use crate::pieces::{
    alone, beside, cast, computed, connected, container, inverse, operation, read_word, shift,
    turns,
};
use crate::simplify::{simplified, simplified_test};
use crate::tree::{Test, Value};
use rg_tree::tree::{Expr, Formula};
use rg_words::Layout;
use std::alloc::{AllocError, Global};

/// An expression as a value of C, of the type in which it is computed: of 32 bits, or of 64 where it is wider. Primed words are
/// read as words.
///
/// An error comes only where memory was refused.
pub fn value_in_c(alloc: Global, layout: &Layout, e: &Expr) -> Result<Value, AllocError>
    requires { ExpressionFits (expression e.now) (length layout.now) }
    ensures { IfOk result (λ v. value v ≡ value_in_c (widths_of layout.now) (expression e.now)) }
{
    let simple = simplified(alloc, layout, e)?;
    translated(alloc, layout, true, &simple)
}

/// A formula as a test of C. Primed words are read as words.
///
/// An error comes only where memory was refused.
pub fn test_in_c(alloc: Global, layout: &Layout, f: &Formula) -> Result<Test, AllocError>
    requires { FormulaFits (formula f.now) (length layout.now) }
    ensures { IfOk result (λ t. test t ≡ test_in_c (widths_of layout.now) (formula f.now)) }
{
    let simple = simplified_test(alloc, layout, f)?;
    tested(alloc, layout, &simple)
}

/// An expression as what is stored into a word of this width, in bits.
///
/// An error comes only where memory was refused.
pub fn stored_in_c(
    alloc: Global,
    layout: &Layout,
    width: u32,
    e: &Expr,
) -> Result<Value, AllocError>
    requires { ExpressionFits (expression e.now) (length layout.now) }
    ensures { IfOk result (λ v. value v ≡ stored_in_c (widths_of layout.now) width (expression e.now)) }
{
    let simple = simplified(alloc, layout, e)?;
    stored(alloc, layout, width, &simple)
}

/// What is stored into a word of this width.
fn stored(alloc: Global, layout: &Layout, width: u32, e: &Expr) -> Result<Value, AllocError>
    requires { ExpressionFits (expression e.now) (length layout.now) }
    ensures { IfOk result (λ v. value v ≡ stored (widths_of layout.now) width (expression e.now)) }
{
    let bits = container(width);
    if bits == computed(width) {
        return Ok(alone(layout, e, translated(alloc, layout, true, e)?));
    }
    let low = translated(alloc, layout, width != bits, e)?;
    Ok(alone(layout, e, cast(alloc, bits, low)?))
}

/// An expression as a value of C: whole, or right in its low bits alone.
#[cycle(translate)]
fn translated(alloc: Global, layout: &Layout, whole: bool, e: &Expr) -> Result<Value, AllocError>
    requires { ExpressionFits (expression e.now) (length layout.now) }
    ensures { IfOk result (λ v. value v ≡ translated (widths_of layout.now) whole (expression e.now)) }
{
    match e {
        Expr::Number(width, n) => cast(alloc, computed(*width), Value::Literal(*n)),
        Expr::Word(k) | Expr::NextWord(k) => read_word(alloc, layout.width(*k), *k),
        Expr::Inverse(width, a) => {
            let a = translated(alloc, layout, true, a)?;
            inverse(alloc, whole, *width, a)
        }
        Expr::Binary(operator, width, a, b) => {
            if turns(*operator, *width, b) {
                let a = translated(alloc, layout, true, a)?;
                return inverse(alloc, whole, *width, a);
            }
            if turns(*operator, *width, a) {
                let b = translated(alloc, layout, true, b)?;
                return inverse(alloc, whole, *width, b);
            }
            let first = translated(alloc, layout, true, a)?;
            let second = beside(b, translated(alloc, layout, true, b)?);
            operation(alloc, whole, *operator, *width, first, second)
        }
        Expr::Shifted(direction, width, a, count) => {
            let a = translated(alloc, layout, true, a)?;
            shift(alloc, whole, *direction, *width, a, *count)
        }
        Expr::If(f, a, b) => {
            let t = tested(alloc, layout, f)?;
            let a = translated(alloc, layout, whole, a)?;
            let b = beside(b, translated(alloc, layout, whole, b)?);
            Ok(Value::Choice(
                Box::new(alloc, t)?,
                Box::new(alloc, a)?,
                Box::new(alloc, b)?,
            ))
        }
    }
}

/// A formula as a test of C.
#[cycle(translate)]
fn tested(alloc: Global, layout: &Layout, f: &Formula) -> Result<Test, AllocError>
    requires { FormulaFits (formula f.now) (length layout.now) }
    ensures { IfOk result (λ t. test t ≡ tested (widths_of layout.now) (formula f.now)) }
{
    match f {
        Formula::Truth(b) => Ok(Test::Truth(*b)),
        Formula::Not(f) => {
            let t = tested(alloc, layout, f)?;
            Ok(Test::Not(Box::new(alloc, t)?))
        }
        Formula::Connect(connective, f, g) => {
            let t = tested(alloc, layout, f)?;
            let u = tested(alloc, layout, g)?;
            connected(alloc, *connective, t, u)
        }
        Formula::Compare(comparison, a, b) => {
            let first = alone(layout, a, translated(alloc, layout, true, a)?);
            let second = alone(layout, b, translated(alloc, layout, true, b)?);
            Ok(Test::Compared(*comparison, first, second))
        }
    }
}
