//! A start of a program.

ghost use Rattle.std.specs.Prelude.{◌≡◌, ◌++◌, ◌<◌, length, option_map, string_bytes, IfOk, OnOk};
ghost use Rattle.rg_words.specs.Layout.{widths_of};
ghost use Rattle.rg_words.specs.declared.operators.Comparison.TheVariants.{Equal};
ghost use Rattle.rg_tree.specs.Trees.{compared};
ghost use Rattle.rg_tree.specs.View.{expression, formula};
ghost use Rattle.rg_tree.specs.ProgramTrees.{program as program_tree};
ghost use Rattle.rg_c.specs.Starts.{given, given_value, given_values, start_of, constant_text, member_text, more_members, members_text, start_text};

use crate::heads::push_start_lines;
use crate::print::push_digits;
use rg_c_values::arrays::push_member_of;
use rg_tree::meaning::holds;
use rg_tree::program::Program;
use rg_tree::tree::{Expr, Formula};
use rg_tree::typing::typed_trees_fit;
use rg_words::operators::{Comparison, Connective};
use rg_words::{Layout, State};
use std::alloc::{AllocError, Global};

/// The number that an equation of these two gives a word.
fn equated(word: usize, a: &Expr, b: &Expr) -> Option<u64>
    ensures { result ≡ given word (compared Equal (expression a.now) (expression b.now)) }
{
    match (a, b) {
        (Expr::Word(k), Expr::Number(_, n)) | (Expr::Number(_, n), Expr::Word(k)) => {
            if word == *k { Some(*n) } else { None }
        }
        _ => None,
    }
}

/// The number that the first plain equation among its conjuncts gives a word.
#[cycle(given)]
fn given(word: usize, f: &Formula) -> Option<u64>
    ensures { result ≡ given word (formula f.now) }
{
    match f {
        Formula::Connect(Connective::And, f, g) => match given(word, f) {
            Some(n) => Some(n),
            None => given(word, g),
        },
        Formula::Compare(Comparison::Equal, a, b) => equated(word, a, b),
        _ => None,
    }
}

/// That number, or 0 where there is none.
fn given_value(f: &Formula, word: usize) -> u64
    ensures { result ≡ given_value (formula f.now) word }
{
    given(word, f).unwrap_or(0)
}

/// The state that the pre gives.
fn given_values(alloc: Global, program: &Program) -> Result<State, AllocError>
    ensures widths { IfOk result (λ s. s.widths ≡ widths_of program.now.layout) }
    ensures values { IfOk result (λ s. s.values ≡ given_values program.now.layout (program_tree program.now).spec.pre) }
{
    let mut state = State::zero(alloc, &program.layout)?;
    for word in 0..program.layout.len() {
        state.set(word, given_value(&program.spec.pre, word));
    }
    Ok(state)
}

/// The state that the pre gives, where it is inside the pre.
fn start_of(alloc: Global, program: &Program) -> Result<Option<State>, AllocError>
    ensures { IfOk result (λ o. option_map (λ s. s.values) o ≡ start_of (program_tree program.now)) }
{
    typed_trees_fit();
    program.layout.facts();
    let state = given_values(alloc, program)?;
    if !holds(&program.spec.pre, &state, &state) {
        return Ok(None);
    }
    Ok(Some(state))
}

/// Adds a number as a constant of C.
#[tactic(auto, unfolding(crate::specs::Starts::constant_text))]
fn push_constant(text: &mut String, n: u64) -> Result<(), AllocError>
    ensures { OnOk result (string_bytes text.new ≡ string_bytes text.old ++ constant_text n) }
{
    if n < 1 << 32 {
        push_digits(text, n)?;
        text.push_str("u")?;
        return Ok(());
    }
    text.push_str("UINT64_C(")?;
    push_digits(text, n)?;
    text.push_str(")")?;
    Ok(())
}

/// Adds a member and its value.
fn push_member(text: &mut String, layout: &Layout, word: usize, n: u64) -> Result<(), AllocError>
    ensures { OnOk result (string_bytes text.new ≡ string_bytes text.old ++ member_text layout.now word n) }
{
    text.push_str(".")?;
    push_member_of(text, layout, word)?;
    text.push_str(" = ")?;
    push_constant(text, n)
}

/// Adds all members, with commas between them.
fn push_members(text: &mut String, layout: &Layout, state: &State) -> Result<(), AllocError>
    ensures { OnOk result (string_bytes text.new ≡ string_bytes text.old ++ members_text layout.now state.now.values) }
{
    if state.len() == 0 {
        return Ok(());
    }
    push_member(text, layout, 0, state.get(0))?;
    for word in 1..state.len() {
        text.push_str(", ")?;
        push_member(text, layout, word, state.get(word))?;
    }
    Ok(())
}

/// Adds a start as a macro, if one is known.
#[tactic(auto, unfolding(crate::specs::Starts::start_text))]
pub(crate) fn push_start(
    alloc: Global,
    text: &mut String,
    name: &str,
    program: &Program,
) -> Result<(), AllocError>
    ensures { OnOk result (string_bytes text.new ≡ string_bytes text.old ++ start_text name.now (program_tree program.now)) }
{
    match start_of(alloc, program)? {
        None => Ok(()),
        Some(state) => {
            let mut members = String::new(alloc);
            push_members(&mut members, &program.layout, &state)?;
            push_start_lines(text, name, &members)
        }
    }
}
