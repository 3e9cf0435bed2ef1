//! Whether the local of a step that loads a word is read.

ghost use Rattle.std.specs.Prelude.{◌≡◌, map};
ghost use Rattle.std.specs.List.{list_any};
ghost use Rattle.rg_c_values.specs.View.{test, value};
ghost use Rattle.rg_c.specs.Used.{value_reads, test_reads, given_reads, is_used};
ghost use Rattle.rg_c.specs.View.{given};

use crate::tree::Given;
use rg_c_values::tree::{Test, Value};

/// Whether a word stands in a value.
#[cycle(used)]
pub(crate) fn value_reads(word: usize, v: &Value) -> bool
    ensures { result ≡ value_reads word (value v.now) }
{
    match v {
        Value::Literal(_) => false,
        Value::Word(_, k) => word == *k,
        Value::Cast(_, v) => value_reads(word, v),
        Value::Inverse(_, v) => value_reads(word, v),
        Value::Binary(_, _, a, b) => value_reads(word, a) || value_reads(word, b),
        Value::Rest(_, v, _) => value_reads(word, v),
        Value::Shifted(_, _, v, _) => value_reads(word, v),
        Value::Choice(t, a, b) => {
            test_reads(word, t) || value_reads(word, a) || value_reads(word, b)
        }
    }
}

/// Whether it stands in a test.
#[cycle(used)]
pub(crate) fn test_reads(word: usize, t: &Test) -> bool
    ensures { result ≡ test_reads word (test t.now) }
{
    match t {
        Test::Truth(_) => false,
        Test::Not(t) => test_reads(word, t),
        Test::Joined(_, t, u) => test_reads(word, t) || test_reads(word, u),
        Test::Compared(_, a, b) => value_reads(word, a) || value_reads(word, b),
    }
}

/// Whether it stands in an assignment.
fn given_reads(word: usize, g: &Given) -> bool
    ensures { result ≡ given_reads word (given g.now) }
{
    match &g.test {
        Some(t) if test_reads(word, t) => true,
        _ => value_reads(word, &g.value),
    }
}

/// Whether it stands in a step with this test and these assignments.
pub(crate) fn is_used(word: usize, t: &Test, gs: &[Given]) -> bool
    ensures { result ≡ is_used word (test t.now) (map given gs.now) }
{
    if test_reads(word, t) {
        return true;
    }
    for g in gs {
        if given_reads(word, g) {
            return true;
        }
    }
    false
}
