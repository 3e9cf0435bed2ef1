//! Expressions of C as text.

ghost use Rattle.std.specs.Prelude.{◌≡◌, ◌++◌, decimal, string_bytes, ◌<◌, length, OnOk};
ghost use Rattle.rg_c_values.specs.CNames.{c_name};
ghost use Rattle.rg_c_values.specs.Arrays.{name_at, member_of};
ghost use Rattle.rg_c_values.specs.Items.{read_of};
ghost use Rattle.rg_c_values.specs.Printed.{operator_text, shift_text, comparison_text, joint_text, truth_text, number_text, cast_text, read_text, word_text, casts_text, read_before, read_after, item_before, item_after, opening, closing, enclosed, is_tight, is_bare, is_bare_test, is_loose, is_chain, is_bare_first, value_text, index_text, test_text};
ghost use Rattle.rg_c_values.specs.View.{value, test};

use crate::arrays::{push_array_name, push_member_of, push_name};
use crate::items::{item_in, read_of};
use crate::tree::{Joint, Test, Value};
use itoa::Buffer;
use rg_words::Layout;
use rg_words::operators::{Comparison, Operator, Shift};
use std::alloc::AllocError;

/// How a word is read.
#[derive(Clone, Copy, Debug, PartialEq, Eq)]
pub enum Read {
    /// From the struct of the words: `w->name`.
    Plain,
    /// By an atomic load: `RGC_LOAD(&w->name)`.
    Load,
    /// From a local variable that has its value: `name_`.
    Local,
}

/// Adds the text of a value, each word read as `reads` tells at its place; a word beyond it is read from the struct.
///
/// An error comes only where memory was refused.
#[cycle(print)]
pub fn print_value(
    text: &mut String,
    layout: &Layout,
    reads: &[Read],
    v: &Value,
) -> Result<(), AllocError>
    ensures { OnOk result (string_bytes text.new ≡ string_bytes text.old ++ value_text layout.now reads.now (value v.now)) }
{
    match v {
        Value::Literal(n) => push_number(text, *n),
        Value::Word(_, k) => push_word(text, layout, reads, *k),
        Value::Cast(bits, v) => {
            push_cast(text, *bits)?;
            push_enclosed(text, layout, reads, is_tight(v), v)
        }
        Value::Inverse(_, v) => {
            text.push_str("~")?;
            push_enclosed(text, layout, reads, is_tight(v), v)
        }
        Value::Binary(operator, _, a, b) => {
            push_enclosed(text, layout, reads, is_bare(a), a)?;
            text.push_str(operator_text(*operator))?;
            push_enclosed(text, layout, reads, is_bare(b), b)
        }
        Value::Rest(_, v, n) => {
            push_enclosed(text, layout, reads, is_tight(v), v)?;
            text.push_str(" % ")?;
            push_number(text, *n)
        }
        Value::Shifted(shift, _, v, count) => {
            push_enclosed(text, layout, reads, is_bare(v), v)?;
            text.push_str(shift_text(*shift))?;
            push_number(text, u64::from(*count))
        }
        Value::Choice(t, a, b) => {
            if let Some(first) = item_in(layout, reads, v) {
                push_item_before(text, layout, reads, first, a)?;
                print_index(text, layout, reads, t)?;
                return push_item_after(text, reads, first);
            }
            push_enclosed_test(text, layout, reads, is_bare_test(t), t)?;
            text.push_str(" ? ")?;
            push_enclosed(text, layout, reads, is_bare(a), a)?;
            text.push_str(" : ")?;
            push_enclosed(text, layout, reads, is_bare(b), b)
        }
    }
}

/// Adds the text of a value, in parentheses unless it stands bare.
#[cycle(print)]
fn push_enclosed(
    text: &mut String,
    layout: &Layout,
    reads: &[Read],
    bare: bool,
    v: &Value,
) -> Result<(), AllocError>
    ensures { OnOk result (string_bytes text.new ≡ string_bytes text.old ++ enclosed bare (value_text layout.now reads.now (value v.now))) }
{
    push_opening(text, bare)?;
    print_value(text, layout, reads, v)?;
    push_closing(text, bare)
}

/// Adds the index of an item: what a test compares.
#[cycle(print)]
fn print_index(
    text: &mut String,
    layout: &Layout,
    reads: &[Read],
    t: &Test,
) -> Result<(), AllocError>
    ensures { OnOk result (string_bytes text.new ≡ string_bytes text.old ++ index_text layout.now reads.now (test t.now)) }
{
    match t {
        Test::Compared(_, index, _) => print_value(text, layout, reads, index),
        _ => Ok(()),
    }
}

/// Adds the text of a test, in parentheses unless it stands bare.
#[cycle(print)]
fn push_enclosed_test(
    text: &mut String,
    layout: &Layout,
    reads: &[Read],
    bare: bool,
    t: &Test,
) -> Result<(), AllocError>
    ensures { OnOk result (string_bytes text.new ≡ string_bytes text.old ++ enclosed bare (test_text layout.now reads.now (test t.now))) }
{
    push_opening(text, bare)?;
    print_test(text, layout, reads, t)?;
    push_closing(text, bare)
}

/// Adds the text of a test, with the words read as by `print_value`.
///
/// An error comes only where memory was refused.
#[cycle(print)]
pub fn print_test(
    text: &mut String,
    layout: &Layout,
    reads: &[Read],
    t: &Test,
) -> Result<(), AllocError>
    ensures { OnOk result (string_bytes text.new ≡ string_bytes text.old ++ test_text layout.now reads.now (test t.now)) }
{
    match t {
        Test::Truth(b) => {
            text.push_str(if *b { "true" } else { "false" })?;
            Ok(())
        }
        Test::Not(t) => {
            text.push_str("!")?;
            push_enclosed_test(text, layout, reads, is_bare_test(t), t)
        }
        Test::Joined(joint, t, u) => {
            push_enclosed_test(text, layout, reads, is_bare_first(*joint, t), t)?;
            text.push_str(joint_text(*joint))?;
            push_enclosed_test(text, layout, reads, is_bare_test(u), u)
        }
        Test::Compared(comparison, a, b) => {
            push_enclosed(text, layout, reads, is_bare(a), a)?;
            text.push_str(comparison_text(*comparison))?;
            push_enclosed(text, layout, reads, is_bare(b), b)
        }
    }
}

/// Adds a parenthesis that opens, unless the text after it stands bare.
fn push_opening(text: &mut String, bare: bool) -> Result<(), AllocError>
    ensures { OnOk result (string_bytes text.new ≡ string_bytes text.old ++ opening bare) }
{
    text.push_str(if bare { "" } else { "(" })?;
    Ok(())
}

/// Adds a parenthesis that closes, unless the text before it stands bare.
fn push_closing(text: &mut String, bare: bool) -> Result<(), AllocError>
    ensures { OnOk result (string_bytes text.new ≡ string_bytes text.old ++ closing bare) }
{
    text.push_str(if bare { "" } else { ")" })?;
    Ok(())
}

/// Adds the digits of a number.
fn push_digits(text: &mut String, n: u64) -> Result<(), AllocError>
    ensures { OnOk result (string_bytes text.new ≡ string_bytes text.old ++ decimal n) }
{
    let mut digits = Buffer::new();
    text.push_str(digits.format(n))?;
    Ok(())
}

/// Adds an unsigned number.
fn push_number(text: &mut String, n: u64) -> Result<(), AllocError>
    ensures { OnOk result (string_bytes text.new ≡ string_bytes text.old ++ number_text n) }
{
    push_digits(text, n)?;
    text.push_str("u")?;
    Ok(())
}

/// Adds a cast to the unsigned type of so many bits.
fn push_cast(text: &mut String, bits: u32) -> Result<(), AllocError>
    ensures { OnOk result (string_bytes text.new ≡ string_bytes text.old ++ cast_text bits) }
{
    text.push_str("(uint")?;
    push_digits(text, u64::from(bits))?;
    text.push_str("_t)")?;
    Ok(())
}

/// Adds a word, read as is told for it.
fn push_word(
    text: &mut String,
    layout: &Layout,
    reads: &[Read],
    word: usize,
) -> Result<(), AllocError>
    ensures { OnOk result (string_bytes text.new ≡ string_bytes text.old ++ word_text layout.now reads.now word) }
{
    push_read(text, layout, read_of(reads, word), word)
}

/// Adds a word, read in this way.
fn push_read(text: &mut String, layout: &Layout, read: Read, word: usize) -> Result<(), AllocError>
    ensures { OnOk result (string_bytes text.new ≡ string_bytes text.old ++ read_text read (c_name (name_at layout.now word)) (member_of layout.now word)) }
{
    match read {
        Read::Plain => {
            text.push_str("w->")?;
            push_member_of(text, layout, word)
        }
        Read::Load => {
            text.push_str("RGC_LOAD(&w->")?;
            push_member_of(text, layout, word)?;
            text.push_str(")")?;
            Ok(())
        }
        Read::Local => {
            push_name(text, layout, word)?;
            text.push_str("_")?;
            Ok(())
        }
    }
}

/// Adds the casts of a word.
#[cycle(casts)]
fn push_casts(text: &mut String, v: &Value) -> Result<(), AllocError>
    ensures { OnOk result (string_bytes text.new ≡ string_bytes text.old ++ casts_text (value v.now)) }
{
    match v {
        Value::Cast(bits, v) => {
            push_cast(text, *bits)?;
            push_casts(text, v)
        }
        _ => Ok(()),
    }
}

/// What stands before a member of the struct that is read so.
fn read_before(read: Read) -> &'static str
    ensures { result.now ≡ read_before read }
{
    match read {
        Read::Plain => "w->",
        Read::Load => "RGC_LOAD(&w->",
        Read::Local => "",
    }
}

/// What stands after it.
fn read_after(read: Read) -> &'static str
    ensures { result.now ≡ read_after read }
{
    match read {
        Read::Plain | Read::Local => "",
        Read::Load => ")",
    }
}

/// Adds what stands before the index of an item of the array that begins at a word.
fn push_item_before(
    text: &mut String,
    layout: &Layout,
    reads: &[Read],
    first: usize,
    of_first: &Value,
) -> Result<(), AllocError>
    requires { first < length layout.now }
    ensures { OnOk result (string_bytes text.new ≡ string_bytes text.old ++ item_before layout.now reads.now first (value of_first.now)) }
{
    push_casts(text, of_first)?;
    text.push_str(read_before(read_of(reads, first)))?;
    push_array_name(text, layout, first)?;
    text.push_str("[")?;
    Ok(())
}

/// Adds what stands after it.
fn push_item_after(text: &mut String, reads: &[Read], first: usize) -> Result<(), AllocError>
    ensures { OnOk result (string_bytes text.new ≡ string_bytes text.old ++ item_after reads.now first) }
{
    text.push_str("]")?;
    text.push_str(read_after(read_of(reads, first)))?;
    Ok(())
}

/// Whether a value stands without parentheses after `~` and a cast, and before `%`.
fn is_tight(v: &Value) -> bool
    ensures { result ≡ is_tight (value v.now) }
{
    match v {
        Value::Literal(_) | Value::Word(_, _) | Value::Cast(_, _) | Value::Inverse(_, _) => true,
        _ => false,
    }
}

/// Whether a value stands without parentheses beside another operator.
fn is_bare(v: &Value) -> bool
    ensures { result ≡ is_bare (value v.now) }
{
    match v {
        Value::Rest(_, _, _) => true,
        _ => is_tight(v),
    }
}

/// Whether a test stands without parentheses.
fn is_bare_test(t: &Test) -> bool
    ensures { result ≡ is_bare_test (test t.now) }
{
    match t {
        Test::Truth(_) | Test::Not(_) => true,
        _ => false,
    }
}

/// Whether a test stands without parentheses as the first of two that are joined.
fn is_bare_first(joint: Joint, t: &Test) -> bool
    ensures { result ≡ is_bare_first joint (test t.now) }
{
    match t {
        Test::Truth(_) => true,
        Test::Not(_) => is_loose(joint),
        Test::Joined(inner, _, _) => is_chain(joint, *inner),
        _ => false,
    }
}

/// Whether `!` needs no parentheses before such a joint.
fn is_loose(joint: Joint) -> bool
    ensures { result ≡ is_loose joint }
{
    match joint {
        Joint::And | Joint::Or => true,
        Joint::Same => false,
    }
}

/// Whether tests joined in both ways are one chain.
fn is_chain(first: Joint, second: Joint) -> bool
    ensures { result ≡ is_chain first second }
{
    match (first, second) {
        (Joint::And, Joint::And) | (Joint::Or, Joint::Or) => true,
        _ => false,
    }
}

fn operator_text(operator: Operator) -> &'static str
    ensures { result.now ≡ operator_text operator }
{
    match operator {
        Operator::Add => " + ",
        Operator::Subtract => " - ",
        Operator::BitAnd => " & ",
        Operator::BitOr => " | ",
        Operator::BitXor => " ^ ",
    }
}

fn shift_text(shift: Shift) -> &'static str
    ensures { result.now ≡ shift_text shift }
{
    match shift {
        Shift::Left => " << ",
        Shift::Right => " >> ",
    }
}

fn comparison_text(comparison: Comparison) -> &'static str
    ensures { result.now ≡ comparison_text comparison }
{
    match comparison {
        Comparison::Equal => " == ",
        Comparison::NotEqual => " != ",
        Comparison::Less => " < ",
        Comparison::LessOrEqual => " <= ",
        Comparison::Greater => " > ",
        Comparison::GreaterOrEqual => " >= ",
    }
}

fn joint_text(joint: Joint) -> &'static str
    ensures { result.now ≡ joint_text joint }
{
    match joint {
        Joint::And => " && ",
        Joint::Or => " || ",
        Joint::Same => " == ",
    }
}
