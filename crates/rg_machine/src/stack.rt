//! Operations done over a stack, whose room is there before they start.

ghost use Rattle.std.specs.Prelude.{◌≡◌, ◌+◌, ◌<◌, ◌≤◌, [], ◌∷◌, None, Some, reverse, length, vec_len, vec_capacity, MatchOption, OnSome};
ghost use Rattle.rg_code.specs.Operations.{after_operation, left_by};
ghost use Rattle.rg_code.specs.Legal.{OperationFits, OperationsFit};

use rg_code::operation::Operation;
use rg_tree::meaning::{compare, invert, join, move_bits, operate};
use rg_words::State;

/// Takes the number on top, if there is one.
fn take(stack: &mut Vec<u64>) -> Option<u64>
    ensures top { MatchOption result (reverse stack.old.items ≡ []) (λ x. reverse stack.old.items ≡ x ∷ reverse stack.new.items) }
    ensures len { OnSome result (vec_len stack.new + 1 ≡ vec_len stack.old) }
    ensures capacity { vec_capacity stack.new ≡ vec_capacity stack.old }
{
    stack.pop()
}

/// Puts a number on top.
fn put(stack: &mut Vec<u64>, x: u64)
    requires room { vec_len stack.old < vec_capacity stack.old }
    ensures top { reverse stack.new.items ≡ x ∷ reverse stack.old.items }
    ensures len { vec_len stack.new ≡ vec_len stack.old + 1 }
    ensures capacity { vec_capacity stack.old ≤ vec_capacity stack.new }
{
    let _ = stack.push(x);
}

/// Does one operation, if its operands are there.
fn apply(stack: &mut Vec<u64>, operation: Operation, state: &State) -> Option<()>
    requires fits { OperationFits (length state.now.values) operation }
    requires room { vec_len stack.old < vec_capacity stack.old }
    ensures exact { MatchOption result (after_operation state.now.values operation (reverse stack.old.items) ≡ None)
        (λ _. after_operation state.now.values operation (reverse stack.old.items) ≡ Some (reverse stack.new.items)) }
    ensures len { OnSome result (vec_len stack.new ≤ vec_len stack.old + 1) }
    ensures capacity { vec_capacity stack.old ≤ vec_capacity stack.new }
{
    match operation {
        Operation::Number(n) => put(stack, n),
        Operation::Word(k) => put(stack, state.get(k)),
        Operation::Inverse(width) => {
            let a = take(stack)?;
            put(stack, invert(width, a));
        }
        Operation::Binary(operator, width) => {
            let b = take(stack)?;
            let a = take(stack)?;
            put(stack, operate(operator, width, a, b));
        }
        Operation::Shifted(shift, width, count) => {
            let a = take(stack)?;
            put(stack, move_bits(shift, width, a, count));
        }
        Operation::Pick => {
            let b = take(stack)?;
            let a = take(stack)?;
            let test = take(stack)?;
            put(stack, if test == 0 { b } else { a });
        }
        Operation::Compare(comparison) => {
            let b = take(stack)?;
            let a = take(stack)?;
            put(stack, u64::from(compare(comparison, a, b)));
        }
        Operation::Truth(b) => put(stack, u64::from(b)),
        Operation::Not => {
            let a = take(stack)?;
            put(stack, u64::from(a == 0));
        }
        Operation::Connect(connective) => {
            let b = take(stack)?;
            let a = take(stack)?;
            put(stack, u64::from(join(connective, a != 0, b != 0)));
        }
    }
    Some(())
}

/// The number that operations leave, if each of them finds its operands and one number is left. The stack is scratch: what it held
/// is lost.
pub(crate) fn work_out(stack: &mut Vec<u64>, operations: &[Operation], state: &State) -> Option<u64>
    requires fits { OperationsFit (length state.now.values) operations.now }
    requires room { length operations.now ≤ vec_capacity stack.old }
    ensures number { result ≡ left_by operations.now state.now.values }
    ensures capacity { vec_capacity stack.old ≤ vec_capacity stack.new }
{
    stack.clear();
    for operation in operations {
        apply(stack, *operation, state)?;
    }
    let x = take(stack)?;
    if stack.is_empty() { Some(x) } else { None }
}
