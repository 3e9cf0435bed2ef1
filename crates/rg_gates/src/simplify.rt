//! The conjunctions that need no gate.

ghost use Rattle.std.specs.Prelude.{◌≡◌};
ghost use Rattle.rg_gates.specs.And.{rank};
ghost use Rattle.rg_gates.specs.Inner.Simplified.{IsSimplified};

use crate::{Gate, Lit};

/// A conjunction, as far as it is known without a gate.
#[derive(Clone, Copy)]
pub(crate) enum Simplified {
    Literal(Lit),
    Operands(Gate),
}

/// Twice the variable, and one more where the sign is negative.
fn rank_of(number: u32, negative: bool) -> u64
    ensures { result ≡ rank number negative }
{
    2 * u64::from(number) + if negative { 1 } else { 0 }
}

/// The conjunction of two literals, where it needs no gate, or else the operands of its gate.
pub(crate) fn simplify(a: Lit, b: Lit) -> Simplified
    ensures { IsSimplified a b result }
{
    match (a, b) {
        (Lit::False, _) | (_, Lit::False) => Simplified::Literal(Lit::False),
        (Lit::True, other) | (other, Lit::True) => Simplified::Literal(other),
        (
            Lit::Variable {
                number: m,
                negative: s,
            },
            Lit::Variable {
                number: n,
                negative: t,
            },
        ) => {
            if m == n {
                return Simplified::Literal(if s == t { a } else { Lit::False });
            }
            if rank_of(m, s) < rank_of(n, t) {
                Simplified::Operands(Gate {
                    first: a,
                    second: b,
                })
            } else {
                Simplified::Operands(Gate {
                    first: b,
                    second: a,
                })
            }
        }
    }
}
