//! Searches over given clauses and over random circuits, and decisions that are counted by calls.

ghost use Rattle.std.specs.Prelude.{◌≡◌, IfOk, IsTrue};
ghost use Rattle.rg_gates.specs.Circuit.{IsLitOf};

use crate::gates::variable;
use rg_clauses::Clauses;
use rg_find::{Found, find};
use rg_gates::{GateError, Gates, Lit, Table};
use rg_words::Refusal;
use std::alloc::{AllocError, Global};
use std::test::Fail;

/// What a search answered, in short.
#[derive(Clone, Copy, PartialEq, Eq)]
enum Kind {
    Lines,
    Values,
    GaveUp,
    Other,
}

fn found_kind(alloc: Global, clauses: &Clauses, steps: u64) -> Kind {
    match find(alloc, clauses, steps) {
        Ok(Found::Lines(_)) => Kind::Lines,
        Ok(Found::Values(_)) => Kind::Values,
        Ok(Found::GaveUp) => Kind::GaveUp,
        _ => Kind::Other,
    }
}

/// Five clauses of two literals each, which share no variable.
fn five_clauses(alloc: Global) -> Result<Clauses, AllocError> {
    let mut clauses = Clauses::new(alloc, 20);
    clauses.push(&[1, 2])?;
    clauses.push(&[3, -4])?;
    clauses.push(&[-5, 6])?;
    clauses.push(&[-7, -8])?;
    clauses.push(&[20, 9])?;
    Ok(clauses)
}

#[test]
fn counts_each_decision(rt: HostRuntime) -> Result<(), Fail> {
    let clauses = five_clauses(rt.alloc())?;
    for steps in 0..5 {
        assert!(rt; found_kind(rt.alloc(), &clauses, steps) == Kind::GaveUp);
    }
    assert!(rt; found_kind(rt.alloc(), &clauses, 10) == Kind::Values);
    Ok(())
}

/// Two clauses over two variables, of which the second is a unit.
fn two_clauses(alloc: Global) -> Result<Clauses, AllocError>
    ensures { IfOk result (λ c. c.variables ≡ 2) }
{
    let mut clauses = Clauses::new(alloc, 2);
    clauses.push(&[1, -2])?;
    clauses.push(&[2])?;
    Ok(clauses)
}

/// Whether the search gives these values without a decision.
fn gives_values(alloc: Global, clauses: &Clauses, expected: &[bool]) -> bool {
    match find(alloc, clauses, 0) {
        Ok(Found::Values(values)) => values.as_slice() == expected,
        _ => false,
    }
}

/// Whether the search gives lines of this text without a decision.
fn gives_lines(alloc: Global, clauses: &Clauses, expected: &str) -> Result<bool, Refusal> {
    match find(alloc, clauses, 0)? {
        Found::Lines(lines) => Ok(lines.text(alloc)?.as_str() == expected),
        _ => Ok(false),
    }
}

#[test]
fn hands_out_values_and_lines(rt: HostRuntime) -> Result<(), Fail> {
    let mut clauses = two_clauses(rt.alloc())?;
    assert!(rt; gives_values(rt.alloc(), &clauses, &[true, true]));
    clauses.push(&[-1])?;
    assert!(rt; gives_lines(rt.alloc(), &clauses, "4 0 3 2 1 0\n")?);
    Ok(())
}

#[test]
fn hands_out_no_lines_where_a_clause_is_empty(rt: HostRuntime) -> Result<(), Fail> {
    let mut clauses = two_clauses(rt.alloc())?;
    clauses.push(&[])?;
    assert!(rt; gives_lines(rt.alloc(), &clauses, "")?);
    Ok(())
}

/// Clauses with repeated literals, which values satisfy.
fn repeated_literals(alloc: Global) -> Result<Clauses, AllocError>
    ensures { IfOk result (λ c. c.variables ≡ 3) }
{
    let mut clauses = Clauses::new(alloc, 3);
    clauses.push(&[1, 1])?;
    clauses.push(&[-1, 2, 2])?;
    clauses.push(&[3, -3])?;
    clauses.push(&[-2, -2, 3])?;
    Ok(clauses)
}

#[test]
fn takes_clauses_with_repeated_literals(rt: HostRuntime) -> Result<(), Fail> {
    let mut clauses = repeated_literals(rt.alloc())?;
    assert!(rt; found_kind(rt.alloc(), &clauses, 100) == Kind::Values);
    clauses.push(&[-3, -1, -3])?;
    assert!(rt; found_kind(rt.alloc(), &clauses, 100) == Kind::Lines);
    Ok(())
}

/// Whether a literal is of the variables 1 to `count`.
fn is_within(literal: Lit, count: u32) -> bool
    ensures { IsTrue result → IsLitOf count literal }
{
    match literal {
        Lit::True | Lit::False => true,
        Lit::Variable { number, .. } => 0 < number && number <= count,
    }
}

/// The conjunction of two literals; refused where one is of no variable of the gates.
fn and<T: Table>(gates: &mut Gates<T>, a: Lit, b: Lit) -> Result<Lit, GateError> {
    let count = gates.variables();
    if is_within(a, count) && is_within(b, count) {
        return gates.and(a, b);
    }
    Err(GateError::TooManyVariables)
}

/// A number that follows from the last one by no simple rule.
fn next_number(last: u32) -> u32 {
    last.wrapping_mul(1_664_525).wrapping_add(1_013_904_223)
}

/// A variable before the next one, or its negation.
fn earlier_literal(number: u32, count: u32) -> Lit {
    let bits = number >> 8;
    variable((bits >> 1) % count.max(1) + 1, bits & 1 == 1)
}

/// The clauses of 24 random gates over four inputs, where the last of them holds.
fn random_circuit(alloc: Global, seed: u32) -> Result<Clauses, GateError> {
    let mut gates = Gates::input(alloc, 4);
    let mut number = next_number(seed);
    let mut last = Lit::True;
    for _ in 0..24 {
        number = next_number(number);
        let first = earlier_literal(number, gates.variables());
        number = next_number(number);
        let second = earlier_literal(number, gates.variables());
        last = and(&mut gates, first, second)?;
    }
    if is_within(last, gates.variables()) {
        return Ok(Clauses::of_gates(alloc, &gates, last)?);
    }
    Err(GateError::TooManyVariables)
}

#[test]
fn never_gives_up_over_four_inputs(rt: HostRuntime) -> Result<(), Fail> {
    for seed in 0..40 {
        let clauses = random_circuit(rt.alloc(), seed)?;
        assert!(rt;
            matches!(
                found_kind(rt.alloc(), &clauses, 100),
                Kind::Lines | Kind::Values
            )
        );
    }
    Ok(())
}
