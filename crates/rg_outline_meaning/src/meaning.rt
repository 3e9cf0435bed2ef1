//! What an expression stands for.

ghost use Rattle.std.specs.Prelude.{◌≡◌, Some, IfOk};
ghost use Rattle.rg_tree.specs.View.{expression, formula};
ghost use Rattle.rg_outline_meaning.specs.Meanings.{whole, claim, value_of};
ghost use Rattle.rg_outline_meaning.specs.View.{meaning};

use rg_tree::copy::{copy_expr, copy_formula};
use rg_tree::tree::{Expr, Formula};
use std::alloc::{AllocError, AllocFailed, Global};

/// Why it isn't known what something stands for.
#[derive(Clone, Copy)]
pub(crate) enum Unknown {
    /// Memory was refused.
    Memory(AllocError),
    /// No rule says it.
    NoRule,
}

/// What an expression stands for. The widths in its trees are 0: they aren't known there.
#[derive(Drop)]
pub(crate) enum Meaning {
    Whole(i128),
    Value(Expr),
    Formula(Formula),
}

impl From<AllocError> for Unknown {
    fn from(refused: AllocError) -> Unknown {
        Unknown::Memory(refused)
    }
}

impl<T: Drop> From<AllocFailed<T>> for Unknown {
    fn from(failed: AllocFailed<T>) -> Unknown {
        Unknown::Memory(AllocError::from(failed))
    }
}

/// The number beside words.
pub(crate) fn numeral(number: i128) -> Result<Expr, Unknown>
    ensures { IfOk result (λ e. value_of (whole number) ≡ Some (expression e)) }
{
    match u64::try_from(number) {
        Ok(number) => Ok(Expr::Number(0, number)),
        Err(_) => Err(Unknown::NoRule),
    }
}

/// How many nodes a value has; of more than so many, so many.
#[cycle(size)]
fn size_of_value(value: &Expr, most: usize) -> usize {
    if most == 0 {
        return 0;
    }
    let most = most - 1;
    let inner = match value {
        Expr::Number(..) | Expr::Word(_) | Expr::NextWord(_) => 0,
        Expr::Inverse(_, a) | Expr::Shifted(_, _, a, _) => size_of_value(a, most),
        Expr::Binary(_, _, a, b) => {
            let first = size_of_value(a, most);
            first.saturating_add(size_of_value(b, most.saturating_sub(first)))
        }
        Expr::If(f, a, b) => {
            let test = size_of_formula(f, most);
            let first = size_of_value(a, most.saturating_sub(test));
            let before = test.saturating_add(first);
            before.saturating_add(size_of_value(b, most.saturating_sub(before)))
        }
    };
    inner.saturating_add(1)
}

/// How many nodes a formula has; of more than so many, so many.
#[cycle(size)]
fn size_of_formula(formula: &Formula, most: usize) -> usize {
    if most == 0 {
        return 0;
    }
    let most = most - 1;
    let inner = match formula {
        Formula::Truth(_) => 0,
        Formula::Not(f) => size_of_formula(f, most),
        Formula::Connect(_, f, g) => {
            let first = size_of_formula(f, most);
            first.saturating_add(size_of_formula(g, most.saturating_sub(first)))
        }
        Formula::Compare(_, a, b) => {
            let first = size_of_value(a, most);
            first.saturating_add(size_of_value(b, most.saturating_sub(first)))
        }
    };
    inner.saturating_add(1)
}

impl Meaning {
    /// How many nodes its tree has; of more than so many, so many.
    pub(crate) fn size(&self, most: usize) -> usize {
        match self {
            Meaning::Whole(_) => 1,
            Meaning::Value(value) => size_of_value(value, most),
            Meaning::Formula(formula) => size_of_formula(formula, most),
        }
    }

    /// An equal one.
    pub(crate) fn copy(&self, alloc: Global) -> Result<Meaning, AllocError>
        ensures { IfOk result (λ m. meaning m ≡ meaning self.now) }
    {
        Ok(match self {
            Meaning::Whole(number) => Meaning::Whole(*number),
            Meaning::Value(value) => Meaning::Value(copy_expr(alloc, value)?),
            Meaning::Formula(formula) => Meaning::Formula(copy_formula(alloc, formula)?),
        })
    }

    /// The value that it is; a number as it stands beside words.
    pub(crate) fn into_value(self) -> Result<Expr, Unknown>
        ensures { IfOk result (λ e. value_of (meaning self) ≡ Some (expression e)) }
    {
        match self {
            Meaning::Whole(number) => numeral(number),
            Meaning::Value(value) => Ok(value),
            Meaning::Formula(_) => Err(Unknown::NoRule),
        }
    }

    /// The formula that it is.
    pub(crate) fn into_formula(self) -> Result<Formula, Unknown>
        ensures { IfOk result (λ p. meaning self ≡ claim (formula p)) }
    {
        match self {
            Meaning::Formula(formula) => Ok(formula),
            _ => Err(Unknown::NoRule),
        }
    }

    /// The number that it is.
    pub(crate) fn into_whole(self) -> Result<i128, Unknown>
        ensures { IfOk result (λ z. meaning self ≡ whole z) }
    {
        match self {
            Meaning::Whole(number) => Ok(number),
            _ => Err(Unknown::NoRule),
        }
    }
}
