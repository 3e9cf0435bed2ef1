//! Conjuncts that are added to the relies of the parts of an outline.

use crate::brackets::{body_of, brackets_of};
use crate::filled::{Filled, indent_of};
use rg_outline_syntax::{Span, Texts, Tokens, Written};
use std::alloc::{AllocError, Global};

/// Adds an item for each conjunct before a byte.
fn push_relies(
    made: &mut Filled,
    source: &[u8],
    place: usize,
    conjuncts: &Texts,
) -> Result<(), AllocError> {
    let indent = indent_of(source, place);
    for index in 0..conjuncts.len() {
        let before: &[u8] = if indent.is_some() {
            b"  rely "
        } else {
            b"rely "
        };
        let after: &[u8] = if indent.is_some() { b"\n" } else { b" " };
        made.source.extend_from_slice(before)?;
        made.push_formula(conjuncts.at(index))?;
        made.source.extend_from_slice(after)?;
        made.source.extend_from_slice(indent.unwrap_or(&[]))?;
    }
    Ok(())
}

/// The outline with conjuncts added to the rely of each part, as it is written: an item for each, at the end of the part's head.
///
/// # Errors
///
/// Only where memory is refused.
pub fn with_relies(
    alloc: Global,
    source: &[u8],
    tokens: &Tokens,
    written: &Written,
    conjuncts: &[Texts],
) -> Result<Filled, AllocError> {
    let brackets = brackets_of(alloc, tokens)?;
    let mut made = Filled::new(alloc);
    let mut done = 0usize;
    for (part, texts) in written.parts.iter().zip(conjuncts) {
        let body = body_of(&brackets, part.span);
        let place = body.map_or(Span::NOWHERE, |body| body.opener).start;
        if done <= place && place < source.len() {
            made.source
                .extend_from_slice(source.get(done..place).unwrap_or(&[]))?;
            done = place;
            push_relies(&mut made, source, place, texts)?;
        }
    }
    made.source
        .extend_from_slice(source.get(done..).unwrap_or(&[]))?;
    Ok(made)
}
