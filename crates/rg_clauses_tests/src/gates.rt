//! Worked gates, both tables, and the limit.

ghost use Rattle.std.specs.Prelude.{◌≡◌, ◌≤◌};
ghost use Rattle.rg_gates.specs.declared.Lit.TheVariants.{Variable};
ghost use Rattle.rg_gates.specs.Circuit.{variable_count};

use crate::scan::scanning;
use rg_gates::{Gate, GateError, Gates, Lit, Table, values_are_one};
use rg_words::limits::MOST_VARIABLES;
use std::alloc::Global;
use std::test::Fail;

/// A variable, or its negation.
pub(crate) fn variable(number: u32, negative: bool) -> Lit
    ensures { result ≡ Variable number negative }
{
    Lit::Variable { number, negative }
}

/// The second gate of `((x = 1) and (y = 1)) implies (x = 1)`, where x is the variable 1 and y the variable 2.
fn second_gate() -> Gate {
    Gate {
        first: variable(1, true),
        second: variable(3, false),
    }
}

/// Whether the implication has its two gates, after which its literal is the negation of the second one, and whether their values are the
/// worked ones where both words are 1.
fn builds_worked_gates<T: Table>(alloc: Global, gates: &mut Gates<T>) -> Result<bool, Fail>
    requires inputs { gates.old.inputs ≡ 2 }
    requires count { 2 ≤ variable_count gates.old }
{
    let both = gates.and(variable(1, false), variable(2, false))?;
    let fails = gates.and(both, variable(1, true))?;
    let first_gate = Gate {
        first: variable(1, false),
        second: variable(2, false),
    };
    let expected = [first_gate, second_gate()];
    let values = gates.eval(alloc, &[true, true])?;
    Ok(
        Gates::not(fails) == variable(4, true)
            && gates.gates() == expected.as_slice()
            && values.as_slice() == [true, true, true, false].as_slice(),
    )
}

#[test]
fn worked_gates_and_values(rt: HostRuntime) -> Result<(), Fail> {
    let mut gates = Gates::input(rt.alloc(), 2);
    let worked = builds_worked_gates(rt.alloc(), &mut gates)?;
    let place = gates.table().get_index_of(&second_gate());
    assert!(rt; worked && place == Some(1));
    values_are_one();
    Ok(())
}

/// What `and` answers for each pair of the literals of six variables, as far as there are so many.
fn all_pairs<T: Table>(alloc: Global, gates: &mut Gates<T>) -> Result<Vec<Lit>, Fail> {
    let mut answers = Vec::new(alloc);
    for pair in 0..144 {
        let first = 1 + pair % 6;
        let second = 1 + pair / 6 % 6;
        let count = gates.variables();
        if first <= count && second <= count {
            let first = variable(first, pair / 36 % 2 == 1);
            let second = variable(second, pair / 72 == 1);
            answers.push(gates.and(first, second)?)?;
        }
    }
    Ok(answers)
}

/// Whether both tables answer the same for each pair.
fn answers_agree<S: Table, T: Table>(
    alloc: Global,
    mapped: &mut Gates<S>,
    scanned: &mut Gates<T>,
) -> Result<bool, Fail> {
    let answers = all_pairs(alloc, mapped)?;
    let others = all_pairs(alloc, scanned)?;
    Ok(answers == others)
}

#[test]
fn both_tables_agree(rt: HostRuntime) -> Result<(), Fail> {
    let mut mapped = Gates::input(rt.alloc(), 3);
    let mut scanned = scanning(rt.alloc(), 3);
    let answers = answers_agree(rt.alloc(), &mut mapped, &mut scanned)?;
    let gates = mapped.gates() == scanned.gates();
    assert!(rt; answers && gates && mapped.table().as_slice() == scanned.gates());
    Ok(())
}

/// Whether `and` at one variable below the limit answers a gate, the same gate again, and that there is one too many.
fn stops_after_one_more<T: Table>(gates: &mut Gates<T>) -> bool
    requires { 3 ≤ variable_count gates.old }
{
    let one = variable(1, false);
    let two = variable(2, false);
    let made = gates.and(one, two);
    let found = gates.and(two, one);
    let refused = gates.and(one, variable(3, false));
    let last = Ok(variable(MOST_VARIABLES, false));
    made == last && found == last && refused == Err(GateError::TooManyVariables)
}

#[test]
fn stops_at_the_limit(rt: HostRuntime) {
    let mut mapped = Gates::input(rt.alloc(), MOST_VARIABLES - 1);
    let mut scanned = scanning(rt.alloc(), MOST_VARIABLES - 1);
    let stopped = stops_after_one_more(&mut mapped) && stops_after_one_more(&mut scanned);
    let full = mapped.variables() == MOST_VARIABLES && scanned.gates() == mapped.gates();
    assert!(rt; stopped && full);
}
