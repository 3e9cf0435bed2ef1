//! The states that input bits stand for.

ghost use Rattle.std.specs.Prelude.{◌≡◌, ◌≤◌, IfOk, cond, length, map, take};
ghost use Rattle.rg_words.specs.declared.limits.TheConstants.{MOST_WIDTH};
ghost use Rattle.rg_gates.specs.Circuit.{lit_value};
ghost use Rattle.rg_words.specs.Layout.{widths_of};
ghost use Rattle.rg_words.specs.States.{IsPair};
ghost use Rattle.rg_tree.specs.Conditions.{condition_tree, second_state};
ghost use Rattle.rg_rows.specs.Rows.{row_value};
ghost use Rattle.rg_rows.specs.Within.{rows_of};
ghost use Rattle.rg_rows.specs.Inputs.{inputs_of, first_rows, first_of, second_of, input_bits, state_of, own_second};

use rg_gates::Lit;
use rg_rows::input_rows::{first_state, free_state};
use rg_tree::condition::{Condition, Second};
use rg_words::{Layout, State};
use std::alloc::{AllocError, Global};

/// The value of a literal, where the variables from 1 on have these values, and those after them are false.
fn value_of(values: &[bool], literal: Lit) -> bool
    ensures { result ≡ lit_value values.now literal }
{
    match literal {
        Lit::True => true,
        Lit::False => false,
        Lit::Variable { number, negative } => {
            let place = (number as usize).saturating_sub(1);
            let value = values.get(place).copied().unwrap_or(false);
            value != negative
        }
    }
}

/// 1 where a literal is true, else 0.
fn bit_of(values: &[bool], literal: Lit) -> u64
    ensures { result ≡ cond (lit_value values.now literal) 1 0 }
{
    if value_of(values, literal) { 1 } else { 0 }
}

/// The number that a row stands for.
fn row_number(values: &[bool], row: &[Lit]) -> u64
    requires { length row.now ≤ MOST_WIDTH }
    ensures { result ≡ row_value values.now row.now }
{
    let mut number = 0;
    for i in 0..row.len() {
        number = 2 * number + bit_of(values, row[row.len() - 1 - i]);
    }
    number
}

/// The state of the numbers that a row for each word stands for.
fn read_state(
    alloc: Global,
    words: &Layout,
    rows: &[Vec<Lit>],
    values: &[bool],
) -> Result<State, AllocError>
    requires { map length (rows_of rows.now) ≡ widths_of words.now }
    ensures { IfOk result (λ s. s ≡ state_of words.now (map (row_value values.now) (rows_of rows.now))) }
{
    let mut state = State::zero(alloc, words)?;
    for k in 0..words.len() {
        let number = row_number(values, &rows[k]);
        state.set(k, number);
    }
    Ok(state)
}

/// The second state, where the condition speaks of any two states.
fn read_second(
    alloc: Global,
    condition: &Condition,
    first: &[Vec<Lit>],
    values: &[bool],
) -> Result<Option<State>, AllocError>
    requires { rows_of first.now ≡ first_rows 0 condition.now.layout }
    ensures { IfOk result (λ r. r ≡ own_second (second_state condition.now.second) condition.now.layout (second_of (condition_tree condition.now) values.now)) }
{
    match condition.second {
        Second::Free => {
            let rows = free_state(alloc, &condition.layout, first)?;
            let state = read_state(alloc, &condition.layout, &rows, values)?;
            Ok(Some(state))
        }
        Second::Same | Second::After(_) => Ok(None),
    }
}

/// The states whose input bits are the first of these values, in the order in which `inputs` counts them. Further values
/// are not looked at. The second state is there only where the condition speaks of any two states.
pub fn states(
    alloc: Global,
    condition: &Condition,
    values: &[bool],
) -> Result<(State, Option<State>), AllocError>
    requires { inputs_of (condition_tree condition.now) ≤ length values.now }

    // Each word's value is the number of its bits; a fixed word's bits are the first state's.
    ensures first { IfOk result (λ r. r.0 ≡ state_of condition.now.layout (first_of (condition_tree condition.now) values.now)) }
    ensures second { IfOk result (λ r. r.1
        ≡ own_second (second_state condition.now.second) condition.now.layout
        (second_of (condition_tree condition.now) values.now)) }

    // They are states of the words, with the same values for fixed words, and the values are their bits.
    ensures pair { IfOk result (λ _. IsPair condition.now.layout (first_of (condition_tree condition.now) values.now)
        (second_of (condition_tree condition.now) values.now)) }
    ensures bits { IfOk result (λ _. input_bits (condition_tree condition.now) (first_of (condition_tree condition.now) values.now) (second_of (condition_tree condition.now) values.now)
        ≡ take (inputs_of (condition_tree condition.now)) values.now) }
{
    let rows = first_state(alloc, &condition.layout)?;
    let first = read_state(alloc, &condition.layout, &rows, values)?;
    let second = read_second(alloc, condition, &rows, values)?;
    Ok((first, second))
}
