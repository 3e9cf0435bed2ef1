//! The input bits of a condition.

ghost use Rattle.std.specs.Prelude.{◌≡◌, ◌<◌, ◌≤◌, ◌+◌, ◌*◌, ℕ, IfOk, cond, length, slice_index, slice_index_or, false};
ghost use Rattle.rg_rows.specs.Within.{rows_of};
ghost use Rattle.rg_rows.specs.Inputs.{variables, first_rows, free_rows, total_width, free_width, inputs_of};
ghost use Rattle.rg_words.specs.declared.limits.TheConstants.{MOST_WORDS, MOST_WIDTH, MOST_VARIABLES};
ghost use Rattle.rg_words.specs.Layout.{widths_of, fixed_of};
ghost use Rattle.rg_tree.specs.Conditions.{condition_tree};

use rg_gates::Lit;
use rg_tree::condition::{Condition, Second};
use rg_words::Layout;
use std::alloc::{AllocError, Global};

/// So many variables, after the given one.
fn variable_row(alloc: Global, after: u32, width: u32) -> Result<Vec<Lit>, AllocError>
    requires { after + width ≤ MOST_VARIABLES }
    ensures items { IfOk result (λ r. r.items ≡ variables after width) }
{
    let mut row = Vec::new(alloc);
    for i in 0..width {
        row.push(Lit::Variable {
            number: after + i + 1,
            negative: false,
        })?;
    }
    Ok(row)
}

/// A row for each word of the first state.
#[tactic(auto, using(crate::proofs::InputRows::input_steps))]
pub fn first_state(alloc: Global, words: &Layout) -> Result<Vec<Vec<Lit>>, AllocError>
    ensures rows { IfOk result (λ r. rows_of r.items ≡ first_rows 0 words.now) }
{
    let mut rows = Vec::new(alloc);
    let mut after = 0;
    for k in 0..words.len() {
        let width = words.width(k);
        let row = variable_row(alloc, after, width)?;
        rows.push(row)?;
        after += width;
    }
    Ok(rows)
}

/// A row for a word of the second state: a fixed word has the first state's row.
fn free_row(
    alloc: Global,
    fixed: bool,
    width: u32,
    after: u32,
    first: &[Lit],
) -> Result<Vec<Lit>, AllocError>
    requires { after + cond fixed 0 width ≤ MOST_VARIABLES }
    ensures items { IfOk result (λ r. r.items ≡ cond fixed first.now (variables after width)) }
{
    if fixed {
        return Vec::from_slice(alloc, first);
    }
    variable_row(alloc, after, width)
}

/// A row for each word of the second state.
#[tactic(auto, using(crate::proofs::InputRows::input_steps))]
pub fn free_state(
    alloc: Global,
    words: &Layout,
    first: &[Vec<Lit>],
) -> Result<Vec<Vec<Lit>>, AllocError>
    requires { length first.now ≡ length words.now }
    ensures rows { IfOk result (λ r. rows_of r.items ≡ free_rows (total_width words.now) words.now (rows_of first.now)) }
{
    let mut rows = Vec::new(alloc);
    let mut after = all_bits(words);
    for k in 0..words.len() {
        let row = free_row(alloc, words.is_fixed(k), words.width(k), after, &first[k])?;
        rows.push(row)?;
        after += free_bits(words, k);
    }
    Ok(rows)
}

/// How many bits of its own a word has in the second state.
fn free_bits(words: &Layout, k: usize) -> u32
    requires { k < length words.now }
    ensures { result ≡ cond (slice_index_or (fixed_of words.now) k false) 0 (slice_index (widths_of words.now) k) }
{
    if words.is_fixed(k) { 0 } else { words.width(k) }
}

/// The bits of all words.
#[tactic(auto, using(crate::proofs::InputRows::input_steps))]
pub fn all_bits(words: &Layout) -> u32
    ensures count { result ≡ total_width words.now }
    ensures limit { result ≤ MOST_WORDS * MOST_WIDTH }
{
    let mut bits = 0;
    for k in 0..words.len() {
        bits += words.width(k);
    }
    bits
}

/// The bits of the words that aren't fixed.
#[tactic(auto, using(crate::proofs::InputRows::input_steps))]
fn all_free_bits(words: &Layout) -> u32
    ensures count { result ≡ free_width words.now }
    ensures limit { result ≤ MOST_WORDS * MOST_WIDTH }
{
    let mut bits = 0;
    for k in 0..words.len() {
        bits += free_bits(words, k);
    }
    bits
}

/// The count of input bits: the bits of the first state's words in declaration order, each from its
/// low bit on, and then, where the second state is any state, those of its words that aren't fixed.
pub fn inputs(condition: &Condition) -> u32
    ensures count { result ≡ inputs_of (condition_tree condition.now) }
    ensures limit { result ≤ MOST_VARIABLES }
{
    let first = all_bits(&condition.layout);
    match condition.second {
        Second::Free => first + all_free_bits(&condition.layout),
        Second::Same | Second::After(_) => first,
    }
}
