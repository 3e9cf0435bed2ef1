//! Warnings of parts that rely on too much.

use crate::reports::{Reports, Warning};
use crate::warnings::warn;
use rg_outline::Expansion;
use rg_outline_syntax::{Comparison, Junction, Standing};
use rg_outline_terms::{Forest, Root, bit_of};
use std::alloc::AllocError;

/// The word of which a formula says that it keeps its value, as a bit; all bits where the formula is `false`, and none else.
fn kept_by(forest: &Forest, formula: usize) -> u64 {
    if forest.is_truth(formula, false) {
        return u64::MAX;
    }
    if forest.root(formula) != Root::Compare(Comparison::Equal) {
        return 0;
    }
    let first = forest.root(forest.operand(formula, 0));
    let second = forest.root(forest.operand(formula, 1));
    match (first, second) {
        (Root::Word { word, .. }, Root::Word { word: other, .. })
            if word == other && first != second => { bit_of(word) }
        _ => 0,
    }
}

/// The words of which a conjunction says that they keep their values, as bits.
fn kept_bits(expansion: &Expansion<'_>, formula: usize) -> Result<u64, AllocError> {
    let forest = &expansion.scope.forest;
    let mut bits = 0;
    let mut open = Vec::new(expansion.scope.alloc);
    open.push(formula)?;
    for _ in 0..usize::MAX {
        let Some(tree) = open.pop() else {
            break;
        };
        if forest.root(tree) == Root::Join(Junction::And) {
            open.push(forest.operand(tree, 0))?;
            open.push(forest.operand(tree, 1))?;
        } else {
            bits |= kept_by(forest, tree);
        }
    }
    Ok(bits)
}

/// Reports each part whose rely allows no change of a word, although other parts assign words.
pub(crate) fn report_relies(reports: &mut Reports<'_>) -> Result<(), AllocError> {
    let expansion = reports.expansion;
    for (index, part) in expansion.parts.iter().enumerate() {
        let kept = kept_bits(expansion, part.rely)?;
        let mut words = expansion.scope.words.iter().enumerate();
        let mut assigned = expansion.assigned.iter();
        if assigned.any(|assigned| assigned.part != index)
            && words.all(|(word, known)| {
                known.standing == Standing::Fixed || kept & bit_of(word) != 0
            })
        {
            let template =
                "the rely of this part allows no change at all, although other parts assign words";
            let (place, of) = (part.span, Some(index));
            warn(reports, Warning::NoChange, place, of, template, &[])?;
        }
    }
    Ok(())
}
