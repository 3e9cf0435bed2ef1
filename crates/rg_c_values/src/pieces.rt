//! The pieces that expressions of C are made of.

ghost use Rattle.std.specs.Prelude.{◌≡◌, ◌≤◌, ◌&&◌, length, IfOk};
ghost use Rattle.rg_words.specs.declared.limits.TheConstants.{MOST_WIDTH};
ghost use Rattle.rg_words.specs.Layout.{widths_of};
ghost use Rattle.rg_tree.specs.Fits.{ExpressionFits};
ghost use Rattle.rg_tree.specs.View.{expression};
ghost use Rattle.rg_c_values.specs.View.{value, test};
ghost use Rattle.rg_c_values.specs.CTrees.{c_literal, c_cast, c_inverse, c_binary, c_rest, c_shifted};
ghost use Rattle.rg_c_values.specs.Translation.{container, computed, masked, masked_if, kept_word, read_word, beside, alone, is_top, is_xor, operation_in_c, inverse_in_c, shift_in_c, connected_in_c};

use crate::simplify::is_top_number;
use crate::tree::{Joint, Test, Value};
use rg_tree::tree::Expr;
use rg_words::Layout;
use rg_words::operators::{Connective, Operator, Shift};
use std::alloc::{AllocError, Global};

/// The bits of the least unsigned type that holds so many bits.
pub fn container(width: u32) -> u32
    ensures { result ≡ container width }
{
    if width <= 8 {
        8
    } else if width <= 16 {
        16
    } else if width <= 32 {
        32
    } else {
        64
    }
}

/// The bits of the type in which values of this width are computed.
pub fn computed(width: u32) -> u32
    ensures { result ≡ computed width }
{
    if width <= 32 { 32 } else { 64 }
}

/// Whether an expression is the greatest number of this width.
fn is_top(width: u32, e: &Expr) -> bool
    ensures { result ≡ is_top width (expression e.now) }
{
    match e {
        Expr::Number(_, n) => is_top_number(width, *n),
        _ => false,
    }
}

/// Whether the operator, with this expression as one operand, turns all bits of the other one.
pub(crate) fn turns(operator: Operator, width: u32, e: &Expr) -> bool
    ensures { result ≡ (is_xor operator && is_top width (expression e.now)) }
{
    match operator {
        Operator::BitXor => is_top(width, e),
        Operator::Add | Operator::Subtract | Operator::BitAnd | Operator::BitOr => false,
    }
}

/// A value cast to the type of so many bits.
pub(crate) fn cast(alloc: Global, bits: u32, v: Value) -> Result<Value, AllocError>
    ensures { IfOk result (λ c. value c ≡ c_cast bits (value v)) }
{
    Ok(Value::Cast(bits, Box::new(alloc, v)?))
}

/// An operation on values of the type of so many bits.
fn operate(
    alloc: Global,
    operator: Operator,
    bits: u32,
    a: Value,
    b: Value,
) -> Result<Value, AllocError>
    ensures { IfOk result (λ c. value c ≡ c_binary operator bits (value a) (value b)) }
{
    Ok(Value::Binary(operator, bits, Box::new(alloc, a)?, Box::new(alloc, b)?))
}

/// The low bits of a value, as many as the width has; or the value as it stands, where only those of its bits count.
fn masked_if(alloc: Global, whole: bool, width: u32, v: Value) -> Result<Value, AllocError>
    requires { width ≤ MOST_WIDTH }
    ensures { IfOk result (λ c. value c ≡ masked_if whole width (value v)) }
{
    if whole && width != computed(width) {
        Ok(Value::Rest(computed(width), Box::new(alloc, v)?, 1 << width))
    } else {
        Ok(v)
    }
}

/// A word of this width, of the type in which it is computed.
pub(crate) fn read_word(alloc: Global, width: u32, word: usize) -> Result<Value, AllocError>
    ensures { IfOk result (λ c. value c ≡ read_word width word) }
{
    let kept = Value::Word(container(width), word);
    if container(width) == computed(width) {
        Ok(kept)
    } else {
        cast(alloc, computed(width), kept)
    }
}

/// The value of this expression beside another one: a number needs no cast.
pub(crate) fn beside(e: &Expr, v: Value) -> Value
    ensures { value result ≡ beside (expression e.now) (value v) }
{
    match e {
        Expr::Number(_, n) => Value::Literal(*n),
        _ => v,
    }
}

/// The value of this expression where nothing is computed with it: a number and a word need no cast.
pub(crate) fn alone(layout: &Layout, e: &Expr, v: Value) -> Value
    requires { ExpressionFits (expression e.now) (length layout.now) }
    ensures { value result ≡ alone (widths_of layout.now) (expression e.now) (value v) }
{
    match e {
        Expr::Number(_, n) => Value::Literal(*n),
        Expr::Word(k) | Expr::NextWord(k) => Value::Word(container(layout.width(*k)), *k),
        _ => v,
    }
}

/// All bits of the width turned.
pub(crate) fn inverse(alloc: Global, whole: bool, width: u32, v: Value) -> Result<Value, AllocError>
    requires { width ≤ MOST_WIDTH }
    ensures { IfOk result (λ c. value c ≡ inverse_in_c whole width (value v)) }
{
    let all = Value::Inverse(computed(width), Box::new(alloc, v)?);
    masked_if(alloc, whole, width, all)
}

/// An operation of this width.
pub(crate) fn operation(
    alloc: Global,
    whole: bool,
    operator: Operator,
    width: u32,
    a: Value,
    b: Value,
) -> Result<Value, AllocError>
    requires { width ≤ MOST_WIDTH }
    ensures { IfOk result (λ c. value c ≡ operation_in_c whole operator width (value a) (value b)) }
{
    let all = operate(alloc, operator, computed(width), a, b)?;
    match operator {
        Operator::Add | Operator::Subtract => masked_if(alloc, whole, width, all),
        Operator::BitAnd | Operator::BitOr | Operator::BitXor => Ok(all),
    }
}

/// A shift of this width. Nothing is left where the count reaches the width.
pub(crate) fn shift(
    alloc: Global,
    whole: bool,
    shift: Shift,
    width: u32,
    v: Value,
    count: u32,
) -> Result<Value, AllocError>
    requires { width ≤ MOST_WIDTH }
    ensures { IfOk result (λ c. value c ≡ shift_in_c whole shift width (value v) count) }
{
    if width <= count {
        return cast(alloc, computed(width), Value::Literal(0));
    }
    let all = Value::Shifted(shift, computed(width), Box::new(alloc, v)?, count);
    match shift {
        Shift::Left => masked_if(alloc, whole, width, all),
        Shift::Right => Ok(all),
    }
}

/// Two tests joined by a connective.
pub(crate) fn connected(
    alloc: Global,
    connective: Connective,
    t: Test,
    u: Test,
) -> Result<Test, AllocError>
    ensures { IfOk result (λ c. test c ≡ connected_in_c connective (test t) (test u)) }
{
    let (joint, t) = match connective {
        Connective::And => (Joint::And, t),
        Connective::Or => (Joint::Or, t),
        Connective::Implies => (Joint::Or, Test::Not(Box::new(alloc, t)?)),
        Connective::Iff => (Joint::Same, t),
    };
    Ok(Test::Joined(joint, Box::new(alloc, t)?, Box::new(alloc, u)?))
}
