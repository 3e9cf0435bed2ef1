//! What stays of the parts of a program.

ghost use Rattle.std.specs.Prelude.{◌≡◌, map, string_bytes, IfOk};
ghost use Rattle.rg_tree.specs.View.{formula};
ghost use Rattle.rg_tree.specs.ConditionTrees.{assignment};
ghost use Rattle.rg_tree.specs.ProgramView.{statement, items, specification, part as part_tree};
ghost use Rattle.rg_erase.specs.Erased.{kept_assignments, kept_specification, is_always, awaiting, without, items_without, part_without};

use crate::conjuncts::kept;
use crate::mention::is_set;
use crate::rename::{renamed_assignment, renamed_formula};
use rg_tree::condition::Assign;
use rg_tree::part::{Part, Spec};
use rg_tree::statement::{Items, Stmt};
use rg_tree::tree::{Expr, Formula};
use std::alloc::{AllocError, Global};

/// The assignments to words that stay.
fn kept_assignments(
    alloc: Global,
    erased: &[bool],
    act: &[Assign],
) -> Result<Vec<Assign>, AllocError>
    ensures { IfOk result (λ list. map assignment list.items ≡ kept_assignments erased.now (map assignment act.now)) }
{
    let mut list = Vec::new(alloc);
    for a in act {
        if !is_set(erased, a.word) {
            list.push(renamed_assignment(alloc, erased, a)?)?;
        }
    }
    Ok(list)
}

/// Whether a formula is the constant true.
fn is_always(f: &Formula) -> bool
    ensures { result ≡ is_always (formula f.now) }
{
    match f {
        Formula::Truth(b) => *b,
        _ => false,
    }
}

/// An await with these assignments; where there are none, one that gives the word `own` its own value, or a skip where it needn't wait.
fn awaiting(
    alloc: Global,
    own: usize,
    line: u32,
    guard: Formula,
    act: Vec<Assign>,
) -> Result<Stmt, AllocError>
    ensures { IfOk result (λ s. statement s ≡ awaiting own line (formula guard) (map assignment act.items)) }
{
    if !act.is_empty() {
        return Ok(Stmt::Await(line, guard, act));
    }
    if is_always(&guard) {
        return Ok(Stmt::Skip(line));
    }
    let mut act = Vec::new(alloc);
    act.push(Assign {
        word: own,
        value: Expr::Word(own),
    })?;
    Ok(Stmt::Await(line, guard, act))
}

/// A statement without the assignments to erased words.
#[cycle(without)]
fn without(alloc: Global, erased: &[bool], own: usize, s: &Stmt) -> Result<Stmt, AllocError>
    ensures { IfOk result (λ t. statement t ≡ without erased.now own (statement s.now)) }
{
    match s {
        Stmt::Skip(line) => Ok(Stmt::Skip(*line)),
        Stmt::Assign(line, a) => {
            if is_set(erased, a.word) {
                return Ok(Stmt::Skip(*line));
            }
            Ok(Stmt::Assign(*line, renamed_assignment(alloc, erased, a)?))
        }
        Stmt::Await(line, guard, act) => {
            let guard = renamed_formula(alloc, erased, guard)?;
            let act = kept_assignments(alloc, erased, act)?;
            awaiting(alloc, own, *line, guard, act)
        }
        Stmt::Seq(line, first, rest) => {
            let first = without(alloc, erased, own, first)?;
            let first = Box::new(alloc, first)?;
            let rest = items_without(alloc, erased, own, rest)?;
            Ok(Stmt::Seq(*line, first, Box::new(alloc, rest)?))
        }
        Stmt::If(line, guard, first, second) => {
            let guard = renamed_formula(alloc, erased, guard)?;
            let first = without(alloc, erased, own, first)?;
            let first = Box::new(alloc, first)?;
            let second = without(alloc, erased, own, second)?;
            Ok(Stmt::If(*line, guard, first, Box::new(alloc, second)?))
        }
        Stmt::While(line, guard, body) => {
            let guard = renamed_formula(alloc, erased, guard)?;
            let body = without(alloc, erased, own, body)?;
            Ok(Stmt::While(*line, guard, Box::new(alloc, body)?))
        }
    }
}

/// The items of a sequence without the assignments to erased words.
#[cycle(without)]
fn items_without(
    alloc: Global,
    erased: &[bool],
    own: usize,
    list: &Items,
) -> Result<Items, AllocError>
    ensures { IfOk result (λ r. items r ≡ items_without erased.now own (items list.now)) }
{
    match list {
        Items::One(s) => {
            let s = without(alloc, erased, own, s)?;
            Ok(Items::One(Box::new(alloc, s)?))
        }
        Items::More(s, more) => {
            let s = without(alloc, erased, own, s)?;
            let s = Box::new(alloc, s)?;
            let more = items_without(alloc, erased, own, more)?;
            Ok(Items::More(s, Box::new(alloc, more)?))
        }
    }
}

/// Of each formula the conjuncts that speak of no erased word.
pub(crate) fn kept_specification(
    alloc: Global,
    erased: &[bool],
    spec: &Spec,
) -> Result<Spec, AllocError>
    ensures { IfOk result (λ s. specification s ≡ kept_specification erased.now (specification spec.now)) }
{
    let pre = kept(alloc, erased, &spec.pre)?;
    let rely = kept(alloc, erased, &spec.rely)?;
    let guar = kept(alloc, erased, &spec.guar)?;
    let post = kept(alloc, erased, &spec.post)?;
    Ok(Spec {
        pre,
        rely,
        guar,
        post,
    })
}

/// A part without the erased words.
fn part_without(alloc: Global, erased: &[bool], own: usize, part: &Part) -> Result<Part, AllocError>
    ensures { IfOk result (λ p. part_tree p ≡ part_without erased.now own (part_tree part.now)) }
{
    let name = String::from_str(alloc, part.name.as_str())?;
    let spec = kept_specification(alloc, erased, &part.spec)?;
    let body = without(alloc, erased, own, &part.body)?;
    Ok(Part { name, spec, body })
}

/// The parts without the erased words.
pub(crate) fn parts_without(
    alloc: Global,
    erased: &[bool],
    own: usize,
    parts: &[Part],
) -> Result<Vec<Part>, AllocError>
    ensures { IfOk result (λ list. map part_tree list.items ≡ map (part_without erased.now own) (map part_tree parts.now)) }
{
    let mut list = Vec::new(alloc);
    for part in parts {
        list.push(part_without(alloc, erased, own, part)?)?;
    }
    Ok(list)
}
