//! A condition as a script.

ghost use Rattle.std.specs.Prelude.{◌≡◌, ◌+◌, ◌++◌, [], decimal, length, map, string_bytes, IfOk, OnOk};
ghost use Rattle.rg_tree.specs.ConditionTrees.{assignment, second_state};
ghost use Rattle.rg_tree.specs.Conditions.{condition_tree};
ghost use Rattle.rg_tree.specs.View.{formula};
ghost use Rattle.rg_smt.specs.Formulas.{formula_text};
ghost use Rattle.rg_smt.specs.Scripts.{before, reached, sort_text, declaration, second_declaration, declarations, assertion, assertions, definition, definitions, step_definitions, kept, unchanged, goal_text, script_text};
ghost use Rattle.rg_smt.specs.Symbols.{done};
ghost use Rattle.rg_smt.specs.Inner.View.{reading};

use crate::formulas::{Pair, push_formula, push_value};
use crate::symbols::{Moment, is_fixed, name_of, push_digits, push_symbol, width_of};
use rg_tree::condition::{Assign, Condition, Second};
use rg_tree::tree::Formula;
use rg_words::Layout;
use std::alloc::{AllocError, Global};

/// The first state, in which nothing is done yet.
fn first() -> Moment<'static>
    ensures { reading result ≡ done [] }
{
    Moment::Done(&[])
}

/// The second state that hypotheses read: there is one only where it is free.
fn before(second: &Second) -> Moment<'_>
    ensures { reading result ≡ before (second_state second.now) }
{
    match second {
        Second::Free => Moment::Second,
        Second::Same | Second::After(_) => first(),
    }
}

/// The second state that the goal reads.
fn reached(second: &Second) -> Moment<'_>
    ensures { reading result ≡ reached (second_state second.now) }
{
    match second {
        Second::Same => first(),
        Second::Free => Moment::Second,
        Second::After(act) => Moment::Done(act.as_slice()),
    }
}

/// Adds the sort of a word's values.
fn push_sort(text: &mut String, layout: &Layout, word: usize) -> Result<(), AllocError>
    ensures { OnOk result (string_bytes text.new ≡ string_bytes text.old ++ sort_text layout.now word) }
{
    text.push_str("(_ BitVec ")?;
    push_digits(text, u64::from(width_of(layout, word)))?;
    text.push_str(")")?;
    Ok(())
}

/// Adds the declaration of a word in a state.
fn push_declaration(
    text: &mut String,
    layout: &Layout,
    moment: Moment<'_>,
    word: usize,
) -> Result<(), AllocError>
    ensures { OnOk result (string_bytes text.new ≡ string_bytes text.old ++ declaration layout.now (reading moment.entry) word) }
{
    text.push_str("(declare-fun ")?;
    push_symbol(text, layout, moment, word)?;
    text.push_str(" () ")?;
    push_sort(text, layout, word)?;
    text.push_str(")\n")?;
    Ok(())
}

/// Adds the declaration of a word in a second state, where it has one of its own.
fn push_second_declaration(
    text: &mut String,
    layout: &Layout,
    moment: Moment<'_>,
    word: usize,
) -> Result<(), AllocError>
    ensures { OnOk result (string_bytes text.new ≡ string_bytes text.old ++ second_declaration layout.now (reading moment.entry) word) }
{
    match moment {
        Moment::Second if !is_fixed(layout, word) => {
            push_declaration(text, layout, moment, word)
        }
        _ => Ok(()),
    }
}

/// Adds the declarations of all words.
fn push_declarations(
    text: &mut String,
    layout: &Layout,
    moment: Moment<'_>,
) -> Result<(), AllocError>
    ensures { OnOk result (string_bytes text.new ≡ string_bytes text.old ++ declarations layout.now (reading moment.entry) 0 (length layout.now)) }
{
    for word in 0..layout.len() {
        push_declaration(text, layout, first(), word)?;
        push_second_declaration(text, layout, moment, word)?;
    }
    Ok(())
}

/// Adds that a formula holds.
fn push_assertion(
    text: &mut String,
    layout: &Layout,
    pair: Pair<'_>,
    f: &Formula,
) -> Result<(), AllocError>
    ensures { OnOk result (string_bytes text.new
        ≡ string_bytes text.old
        ++ assertion (formula_text layout.now (reading pair.entry.plain) (reading pair.entry.primed) (formula f.now))) }
{
    text.push_str("(assert ")?;
    push_formula(text, layout, pair, f)?;
    text.push_str(")\n")?;
    Ok(())
}

/// Adds that hypotheses hold.
fn push_assertions(
    text: &mut String,
    layout: &Layout,
    moment: Moment<'_>,
    hypotheses: &[Formula],
) -> Result<(), AllocError>
    ensures { OnOk result (string_bytes text.new ≡ string_bytes text.old ++ assertions layout.now (reading moment.entry) (map formula hypotheses.now)) }
{
    let pair = Pair {
        plain: first(),
        primed: moment,
    };
    for f in hypotheses {
        push_assertion(text, layout, pair, f)?;
    }
    Ok(())
}

/// Adds the number of the assignment that comes after these.
fn push_next_number(text: &mut String, act: &[Assign]) -> Result<(), AllocError>
    ensures { OnOk result (string_bytes text.new ≡ string_bytes text.old ++ decimal (length (map assignment act.now) + 1)) }
{
    push_digits(text, act.len() as u64 + 1)
}

/// Adds an assignment as the definition of its word, once those before it are done.
fn push_definition(
    text: &mut String,
    layout: &Layout,
    act: &[Assign],
    a: &Assign,
) -> Result<(), AllocError>
    ensures { OnOk result (string_bytes text.new ≡ string_bytes text.old ++ definition layout.now (map assignment act.now) (assignment a.now)) }
{
    let done = Moment::Done(act);
    let pair = Pair {
        plain: done,
        primed: done,
    };
    text.push_str("(define-fun |")?;
    text.push_str(name_of(layout, a.word))?;
    text.push_str("@")?;
    push_next_number(text, act)?;
    text.push_str("| () ")?;
    push_sort(text, layout, a.word)?;
    text.push_str(" ")?;
    push_value(text, layout, pair, &a.value)?;
    text.push_str(")\n")?;
    Ok(())
}

/// Adds assignments, in order.
fn push_definitions(text: &mut String, layout: &Layout, act: &[Assign]) -> Result<(), AllocError>
    ensures { OnOk result (string_bytes text.new ≡ string_bytes text.old ++ definitions layout.now [] (map assignment act.now)) }
{
    for place in 0..act.len() {
        push_definition(text, layout, &act[..place], &act[place])?;
    }
    Ok(())
}

/// Adds the assignments that make a second state, if there are any.
fn push_step(text: &mut String, layout: &Layout, second: &Second) -> Result<(), AllocError>
    ensures { OnOk result (string_bytes text.new ≡ string_bytes text.old ++ step_definitions layout.now (second_state second.now)) }
{
    match second {
        Second::After(act) => push_definitions(text, layout, act.as_slice()),
        Second::Same | Second::Free => Ok(()),
    }
}

/// Adds that a word keeps its value.
fn push_kept(
    text: &mut String,
    layout: &Layout,
    moment: Moment<'_>,
    word: usize,
) -> Result<(), AllocError>
    ensures { OnOk result (string_bytes text.new ≡ string_bytes text.old ++ kept layout.now (reading moment.entry) word) }
{
    text.push_str(" (= ")?;
    push_symbol(text, layout, first(), word)?;
    text.push_str(" ")?;
    push_symbol(text, layout, moment, word)?;
    text.push_str(")")?;
    Ok(())
}

/// Adds that all words keep their values.
fn push_unchanged(text: &mut String, layout: &Layout, moment: Moment<'_>) -> Result<(), AllocError>
    ensures { OnOk result (string_bytes text.new ≡ string_bytes text.old ++ unchanged layout.now (reading moment.entry) 0 (length layout.now)) }
{
    for word in 0..layout.len() {
        push_kept(text, layout, moment, word)?;
    }
    Ok(())
}

/// Adds the goal of a condition, or that no word changes.
fn push_goal(text: &mut String, c: &Condition) -> Result<(), AllocError>
    ensures { OnOk result (string_bytes text.new ≡ string_bytes text.old ++ goal_text (condition_tree c.now)) }
{
    let primed = reached(&c.second);
    let plain = if c.alone { primed } else { first() };
    let pair = Pair { plain, primed };
    if !c.or_no_change {
        return push_formula(text, &c.layout, pair, &c.goal);
    }
    text.push_str("(or ")?;
    push_formula(text, &c.layout, pair, &c.goal)?;
    text.push_str(" (and true")?;
    push_unchanged(text, &c.layout, primed)?;
    text.push_str("))")?;
    Ok(())
}

/// A condition as a script in SMT-LIB 2, over bit vectors (the logic QF_BV): solvers answer `unsat` where the condition is true, and else
/// `sat`, with values at which it fails. The script is made of the trees, and not of their clauses.
///
/// An error comes only where memory was refused.
pub fn script(alloc: Global, c: &Condition) -> Result<String, AllocError>
    ensures { IfOk result (λ text. string_bytes text ≡ script_text (condition_tree c.now)) }
{
    let mut text = String::new(alloc);
    text.push_str("(set-logic QF_BV)\n")?;
    push_declarations(&mut text, &c.layout, before(&c.second))?;
    push_assertions(
        &mut text,
        &c.layout,
        before(&c.second),
        c.hypotheses.as_slice(),
    )?;
    push_step(&mut text, &c.layout, &c.second)?;
    text.push_str("(assert (not ")?;
    push_goal(&mut text, c)?;
    text.push_str("))\n(check-sat)\n")?;
    Ok(text)
}
