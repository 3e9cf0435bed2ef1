//! Warnings of the program's specification.

use crate::reports::{Reports, Warning};
use crate::template::Gap::{Part, WordsIn};
use crate::warnings::{clause_span, warn};
use rg_outline::Expansion;
use rg_outline_syntax::{Clause, Standing};
use rg_outline_terms::bit_of;
use std::alloc::AllocError;

/// Reports that the program's post promises nothing of what a run does: it is `false`, or it is never asked, since a part never ends.
pub(crate) fn report_post(reports: &mut Reports<'_>) -> Result<(), AllocError> {
    let expansion = reports.expansion;
    let Some(place) = clause_span(expansion, Clause::Post) else {
        return Ok(());
    };
    let forest = &expansion.scope.forest;
    let post = expansion.specification.post;
    let mut parts = expansion.parts.iter();
    let endless = parts.position(|part| forest.is_truth(part.post.full, false));
    let template = if forest.is_truth(post, false) {
        "the post is false: it says that no run of the program ends, and nothing of what a run does"
    } else if endless.is_some() && !forest.is_truth(post, true) {
        "part $0 never ends, so no run of the program does: the post, which is asked where all parts have ended, promises nothing"
    } else {
        return Ok(());
    };
    let part = Part(endless.unwrap_or(0));
    warn(reports, Warning::PostFalse, place, None, template, &[part])
}

/// The auxiliary words, as bits.
pub(crate) fn auxiliary_bits(expansion: &Expansion<'_>) -> u64 {
    let mut bits = 0;
    for (word, known) in expansion.scope.words.iter().enumerate() {
        if known.standing == Standing::Auxiliary {
            bits |= bit_of(word);
        }
    }
    bits
}

/// The words that a tree reads, of the first state or primed, as bits.
fn bits_of(expansion: &Expansion<'_>, tree: usize) -> u64 {
    let reads = expansion.scope.forest.reads(tree);
    reads.plain | reads.primed
}

/// Reports that the program's guar and post speak of auxiliary words alone.
pub(crate) fn report_auxiliary_alone(reports: &mut Reports<'_>) -> Result<(), AllocError> {
    let expansion = reports.expansion;
    let promised = bits_of(expansion, expansion.specification.guar)
        | bits_of(expansion, expansion.specification.post);
    if promised == 0 || promised & !auxiliary_bits(expansion) != 0 {
        return Ok(());
    }
    let place = clause_span(expansion, Clause::Guar).or(clause_span(expansion, Clause::Post));
    let Some(place) = place else {
        return Ok(());
    };
    let template =
        "what the program promises speaks of auxiliary words alone ($0): of the real words it promises nothing";
    let words = WordsIn(promised);
    warn(
        reports,
        Warning::AuxiliaryAlone,
        place,
        None,
        template,
        &[words],
    )
}
