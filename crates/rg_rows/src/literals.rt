//! The connectives on literals.

ghost use Rattle.rg_gates.specs.And.{and_of};
ghost use Rattle.rg_gates.specs.Extends.{IsIn};
ghost use Rattle.rg_rows.specs.Build.{Builds};
ghost use Rattle.rg_rows.specs.Literals.{or_of, xor_of, pick_of, implies_of, iff_of};

use rg_gates::{GateError, Gates, Lit, Table};

/// Both of two literals.
pub fn and<T: Table>(gates: &mut Gates<T>, a: Lit, b: Lit) -> Result<Lit, GateError>
    requires first { IsIn gates.old a }
    requires second { IsIn gates.old b }
    ensures { Builds (and_of a b) (λ l. l) IsIn gates.old gates.new result }
{
    gates.and(a, b)
}

/// At least one of two literals.
#[tactic(auto, using(crate::proofs::Steps::steps), unfolding(crate::specs::Literals::or_of))]
pub fn or<T: Table>(gates: &mut Gates<T>, a: Lit, b: Lit) -> Result<Lit, GateError>
    requires first { IsIn gates.old a }
    requires second { IsIn gates.old b }
    ensures { Builds (or_of a b) (λ l. l) IsIn gates.old gates.new result }
{
    Ok(and(gates, a.negated(), b.negated())?.negated())
}

/// Exactly one of two literals.
#[tactic(auto, using(crate::proofs::Steps::steps), unfolding(crate::specs::Literals::xor_of))]
pub fn xor<T: Table>(gates: &mut Gates<T>, a: Lit, b: Lit) -> Result<Lit, GateError>
    requires first { IsIn gates.old a }
    requires second { IsIn gates.old b }
    ensures { Builds (xor_of a b) (λ l. l) IsIn gates.old gates.new result }
{
    let left = and(gates, a, b.negated())?;
    let right = and(gates, a.negated(), b)?;
    or(gates, left, right)
}

/// The first literal where the condition holds, else the second.
#[tactic(auto, using(crate::proofs::Steps::steps), unfolding(crate::specs::Literals::pick_of))]
pub fn pick<T: Table>(gates: &mut Gates<T>, c: Lit, a: Lit, b: Lit) -> Result<Lit, GateError>
    requires condition { IsIn gates.old c }
    requires first { IsIn gates.old a }
    requires second { IsIn gates.old b }
    ensures { Builds (pick_of c a b) (λ l. l) IsIn gates.old gates.new result }
{
    let left = and(gates, c, a)?;
    let right = and(gates, c.negated(), b)?;
    or(gates, left, right)
}

/// The second literal wherever the first holds.
#[tactic(auto, using(crate::proofs::Steps::steps), unfolding(crate::specs::Literals::implies_of))]
pub fn implies<T: Table>(gates: &mut Gates<T>, a: Lit, b: Lit) -> Result<Lit, GateError>
    requires first { IsIn gates.old a }
    requires second { IsIn gates.old b }
    ensures { Builds (implies_of a b) (λ l. l) IsIn gates.old gates.new result }
{
    Ok(and(gates, a, b.negated())?.negated())
}

/// Both literals or neither.
#[tactic(auto, using(crate::proofs::Steps::steps), unfolding(crate::specs::Literals::iff_of))]
pub fn iff<T: Table>(gates: &mut Gates<T>, a: Lit, b: Lit) -> Result<Lit, GateError>
    requires first { IsIn gates.old a }
    requires second { IsIn gates.old b }
    ensures { Builds (iff_of a b) (λ l. l) IsIn gates.old gates.new result }
{
    Ok(xor(gates, a, b)?.negated())
}
