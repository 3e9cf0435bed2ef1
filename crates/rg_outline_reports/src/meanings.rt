//! What the names stand for that a formula uses.

use crate::reports::{Detail, DetailKind};
use crate::show::push_shown;
use crate::template::Gap::{Formula, Text};
use crate::template::filled;
use rg_outline::Expansion;
use rg_outline_syntax::Span;
use rg_outline_terms::FormKind;
use std::alloc::AllocError;

/// The most names of a formula for which it is said what they stand for.
const MOST_NAMES: usize = 3;

/// The most trees of a formula that are looked at.
const MOST_TREES: usize = 10_000;

/// The most bytes of what a name stands for, where it is said.
const MOST_BYTES: usize = 80;

/// Adds the trees that a formula shows by their names, from left to right; equal ones once. Whether the formula itself is shown by its name is said.
fn push_named(
    expansion: &Expansion<'_>,
    named: &mut Vec<usize>,
    formula: usize,
    by_name: bool,
) -> Result<(), AllocError> {
    let forest = &expansion.scope.forest;
    let mut open = Vec::new(expansion.scope.alloc);
    open.push(formula)?;
    for _ in 0..MOST_TREES {
        let Some(tree) = open.pop() else {
            break;
        };
        if named.len() > MOST_NAMES {
            break;
        }
        let reads = forest.reads(tree);
        let is_named = forest.tree(tree).name.is_some() && (reads.plain | reads.primed) != 0;
        if is_named && (by_name || tree != formula) {
            if !named.iter().any(|known| forest.is_equal(*known, tree)) {
                named.push(tree)?;
            }
            continue;
        }
        // A quantifier or a sum shows its body once, and no instance.
        let count = match forest.form(tree).map(|form| form.kind) {
            Some(FormKind::Keeps) => 1,
            Some(_) => 0,
            None => forest.root(tree).arity(),
        };
        for place in (0..count).rev() {
            open.push(forest.operand(tree, place))?;
        }
    }
    Ok(())
}

/// Adds what the names stand for that a conjunct and its premises use: a detail for each where that is short; none where there are many.
pub(crate) fn push_meanings(
    expansion: &Expansion<'_>,
    details: &mut Vec<Detail>,
    conjunct: usize,
    premises: &[usize],
) -> Result<(), AllocError> {
    let mut named = Vec::new(expansion.scope.alloc);
    push_named(expansion, &mut named, conjunct, false)?;
    for premise in premises {
        push_named(expansion, &mut named, *premise, true)?;
    }
    if named.len() > MOST_NAMES {
        return Ok(());
    }
    for tree in &named {
        let mut meaning = Vec::new(expansion.scope.alloc);
        push_shown(expansion, &mut meaning, *tree, 0, false)?;
        if meaning.len() <= MOST_BYTES {
            let gaps = [Formula(*tree), Text(&meaning)];
            details.push(Detail {
                kind: DetailKind::Meaning,
                text: filled(expansion, "$0 stands for $1", &gaps)?,
                place: Span::NOWHERE,
            })?;
        }
    }
    Ok(())
}
