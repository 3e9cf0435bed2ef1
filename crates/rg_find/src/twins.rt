//! The inputs of a condition's clauses that are one word, before and after.

use rg_search::Twin;
use rg_tree::condition::{Condition, Second};
use rg_words::Layout;
use std::alloc::{AllocError, Global};

/// How many inputs the first state has.
fn first_inputs(layout: &Layout) -> u32 {
    let mut inputs = 0u32;
    for word in 0..layout.len() {
        inputs = inputs.saturating_add(layout.width(word));
    }
    inputs
}

/// The words of two states, but the fixed ones.
fn free_twins(alloc: Global, layout: &Layout) -> Result<Vec<Twin>, AllocError> {
    let mut twins = Vec::new(alloc);
    let mut first = 1u32;
    let mut second = first_inputs(layout).saturating_add(1);
    for word in 0..layout.len() {
        let width = layout.width(word);
        if !layout.is_fixed(word) {
            let twin = Twin {
                first,
                second,
                width,
            };
            twins.push(twin)?;
            second = second.saturating_add(width);
        }
        first = first.saturating_add(width);
    }
    Ok(twins)
}

/// The words that have a value in each of two states; none where there is one state.
pub fn twins_of(alloc: Global, condition: &Condition) -> Result<Vec<Twin>, AllocError> {
    match condition.second {
        Second::Free => free_twins(alloc, &condition.layout),
        Second::Same | Second::After(_) => Ok(Vec::new(alloc)),
    }
}
