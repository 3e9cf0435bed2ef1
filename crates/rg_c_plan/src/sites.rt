//! Where a step accesses a word, as a formula of the state in which it is made.

ghost use Rattle.std.specs.Prelude.{◌≡◌, map, option_map, IfOk};
ghost use Rattle.rg_tree.specs.Trees.{negation};
ghost use Rattle.rg_tree.specs.View.{expression, formula};
ghost use Rattle.rg_tree.specs.ConditionTrees.{assignment};
ghost use Rattle.rg_c_plan.specs.View.{guard_tree};
ghost use Rattle.rg_c_plan.specs.Changes.{moving};
ghost use Rattle.rg_c_plan.specs.Where.{either, under, at_word, read_where, tested_where, after_test, change_where, freed, changes_where, step_where};

use crate::change::{change_of, moves};
use crate::mention::stands_in_formula;
use rg_tree::condition::Assign;
use rg_tree::copy::copy_formula;
use rg_tree::tree::{Expr, Formula};
use rg_words::operators::Connective;
use std::alloc::{AllocError, Global};

/// Where one of two accesses is made; nowhere where there is no formula.
fn either(
    alloc: Global,
    first: Option<Formula>,
    second: Option<Formula>,
) -> Result<Option<Formula>, AllocError>
    ensures { IfOk result (λ o. option_map formula o ≡ either (option_map formula first) (option_map formula second)) }
{
    let Some(f) = first else {
        return Ok(second);
    };
    let Some(g) = second else {
        return Ok(Some(f));
    };
    let f = Box::new(alloc, f)?;
    let g = Box::new(alloc, g)?;
    Ok(Some(Formula::Connect(Connective::Or, f, g)))
}

/// Where an access is made that is made only where this formula holds.
fn under(
    alloc: Global,
    test: &Formula,
    site: Option<Formula>,
) -> Result<Option<Formula>, AllocError>
    ensures { IfOk result (λ o. option_map formula o ≡ under (formula test.now) (option_map formula site)) }
{
    let Some(g) = site else {
        return Ok(None);
    };
    let f = Box::new(alloc, copy_formula(alloc, test)?)?;
    let g = Box::new(alloc, g)?;
    Ok(Some(Formula::Connect(Connective::And, f, g)))
}

/// Where an access is made that is made only where this formula doesn't hold.
fn unless(
    alloc: Global,
    test: &Formula,
    site: Option<Formula>,
) -> Result<Option<Formula>, AllocError>
    ensures { IfOk result (λ o. option_map formula o ≡ under (negation (formula test.now)) (option_map formula site)) }
{
    let f = Box::new(alloc, copy_formula(alloc, test)?)?;
    under(alloc, &Formula::Not(f), site)
}

/// Everywhere, where it is the same word.
fn at_word(word: usize, other: usize) -> Option<Formula>
    ensures { option_map formula result ≡ at_word word other }
{
    if word == other {
        Some(Formula::Truth(true))
    } else {
        None
    }
}

/// Where the evaluation of an expression reads a word.
#[cycle(sites)]
fn read_where(alloc: Global, word: usize, e: &Expr) -> Result<Option<Formula>, AllocError>
    ensures { IfOk result (λ o. option_map formula o ≡ read_where word (expression e.now)) }
{
    match e {
        Expr::Number(_, _) => Ok(None),
        Expr::Word(k) | Expr::NextWord(k) => Ok(at_word(word, *k)),
        Expr::Inverse(_, a) | Expr::Shifted(_, _, a, _) => read_where(alloc, word, a),
        Expr::Binary(_, _, a, b) => {
            let first = read_where(alloc, word, a)?;
            let second = read_where(alloc, word, b)?;
            either(alloc, first, second)
        }
        Expr::If(f, a, b) => {
            let tested = tested_where(alloc, word, f)?;
            let yes = read_where(alloc, word, a)?;
            let no = read_where(alloc, word, b)?;
            let sides = sides_where(alloc, f, yes, no)?;
            either(alloc, tested, sides)
        }
    }
}

/// Where the evaluation of a formula reads it.
#[cycle(sites)]
fn tested_where(alloc: Global, word: usize, f: &Formula) -> Result<Option<Formula>, AllocError>
    ensures { IfOk result (λ o. option_map formula o ≡ tested_where word (formula f.now)) }
{
    match f {
        Formula::Truth(_) => Ok(None),
        Formula::Not(f) => tested_where(alloc, word, f),
        Formula::Connect(_, f, g) => {
            let first = tested_where(alloc, word, f)?;
            let second = tested_where(alloc, word, g)?;
            either(alloc, first, second)
        }
        Formula::Compare(_, a, b) => {
            let first = read_where(alloc, word, a)?;
            let second = read_where(alloc, word, b)?;
            either(alloc, first, second)
        }
    }
}

/// Where one side of a choice reads it, of which the one is evaluated where the test holds, and the other where it doesn't.
fn sides_where(
    alloc: Global,
    test: &Formula,
    yes: Option<Formula>,
    no: Option<Formula>,
) -> Result<Option<Formula>, AllocError>
    ensures { IfOk result (λ o. option_map formula o
        ≡ either (under (formula test.now) (option_map formula yes))
        (under (negation (formula test.now)) (option_map formula no))) }
{
    let yes = under(alloc, test, yes)?;
    let no = unless(alloc, test, no)?;
    either(alloc, yes, no)
}

/// Where a test reads it, or what comes after accesses it where the test holds.
fn after_test(
    alloc: Global,
    word: usize,
    test: Option<&Formula>,
    after: Option<Formula>,
) -> Result<Option<Formula>, AllocError>
    ensures { IfOk result (λ o. option_map formula o ≡ after_test word (guard_tree test.entry) (option_map formula after)) }
{
    let Some(f) = test else {
        return Ok(after);
    };
    let tested = tested_where(alloc, word, f)?;
    let after = under(alloc, f, after)?;
    either(alloc, tested, after)
}

/// Where an assignment accesses it.
fn change_where(alloc: Global, word: usize, a: &Assign) -> Result<Option<Formula>, AllocError>
    ensures { IfOk result (λ o. option_map formula o ≡ change_where word (assignment a.now)) }
{
    let c = change_of(a);
    let read = read_where(alloc, word, c.value)?;
    let change = either(alloc, read, at_word(word, a.word))?;
    after_test(alloc, word, c.test, change)
}

/// What is said of the state after an assignment to a word, as a formula of the state before: where it speaks of that word, nothing is known.
fn freed(word: usize, site: Option<Formula>) -> Option<Formula>
    ensures { option_map formula result ≡ freed word (option_map formula site) }
{
    match site {
        Some(f) => {
            if stands_in_formula(word, &f) {
                Some(Formula::Truth(true))
            } else {
                Some(f)
            }
        }
        None => None,
    }
}

/// Where assignments access a word, one after another.
fn changes_where(alloc: Global, word: usize, act: &[Assign]) -> Result<Option<Formula>, AllocError>
    ensures { IfOk result (λ o. option_map formula o ≡ changes_where word (moving (map assignment act.now))) }
{
    let mut site = None;
    for i in 0..act.len() {
        let a = &act[act.len() - 1 - i];
        if moves(a) {
            let first = change_where(alloc, word, a)?;
            site = either(alloc, first, freed(a.word, site))?;
        }
    }
    Ok(site)
}

/// Where a step accesses a word: a formula of the state in which it is made; none where it never does.
///
/// An error comes only where memory was refused.
pub fn step_where(
    alloc: Global,
    word: usize,
    guard: Option<&Formula>,
    act: &[Assign],
) -> Result<Option<Formula>, AllocError>
    ensures { IfOk result (λ o. option_map formula o ≡ step_where word (guard_tree guard.entry) (moving (map assignment act.now))) }
{
    let changes = changes_where(alloc, word, act)?;
    after_test(alloc, word, guard, changes)
}
