//! Clauses that can be satisfied exactly where a condition fails.

ghost use Rattle.std.specs.Prelude.{◌≡◌, ◌↔◌, ◌⊎◌, ◌<◌, ◌≤◌, Bool, false, List, [], length, IfOk, IfErr, Err};
ghost use Rattle.rg_gates.specs.declared.GateError.TheVariants.{TooManyVariables, Memory};
ghost use Rattle.rg_words.specs.declared.limits.TheConstants.{MOST_VARIABLES};
ghost use Rattle.rg_words.specs.declared.refusal.Place.TheVariants.{Condition as the_condition};
ghost use Rattle.rg_words.specs.declared.refusal.RefusalNumber.TheVariants.{Limit};
ghost use Rattle.rg_words.specs.Refusals.{no_memory, refused_in};
ghost use Rattle.rg_tree.specs.Conditions.{condition_tree, condition_holds, ConditionHolds};
ghost use Rattle.rg_bits.specs.Inputs.{inputs_of, first_of, second_of};
ghost use Rattle.rg_clauses.specs.ClauseLists.{Satisfies, IsUnsatisfiable, value_at};
ghost use Rattle.rg_clauses.specs.Encoding.{IsSatisfiable};
ghost use Rattle.rg_clauses.specs.Conditions.{clauses_of_condition, CanFail};

use crate::Clauses;
use rg_bits::{formula, inputs};
use rg_gates::{GateError, Gates, Table};
use rg_tree::condition::Condition;
use rg_words::{Place, Refusal, RefusalNumber, SourceFile};
use std::alloc::Global;

/// Why a condition has no clauses.
fn refusal_of(error: GateError, file: SourceFile, number: u64) -> Refusal
    ensures limit { error ≡ TooManyVariables → result ≡ refused_in Limit file (the_condition number) }
    ensures memory { error ≡ Memory → result ≡ no_memory }
{
    match error {
        GateError::TooManyVariables => {
            Refusal::at(RefusalNumber::Limit, file, Place::Condition(number))
        }
        GateError::Memory => Refusal::new(RefusalNumber::Memory),
    }
}

/// The clauses of a condition, by way of gates in a table that is empty yet.
pub(crate) fn clauses_over<T: Table>(
    alloc: Global,
    gates: &mut Gates<T>,
    condition: &Condition,
) -> Result<Clauses, GateError>
    requires { gates.old ≡ record { inputs = inputs_of (condition_tree condition.now); gates = [] } }
    ensures exact { IfOk result (λ clauses. clauses ≡ clauses_of_condition (condition_tree condition.now)) }
    ensures satisfiable { IfOk result (λ clauses. IsSatisfiable clauses.clauses ↔ CanFail (condition_tree condition.now)) }
    ensures unsatisfiable { IfOk result (λ clauses. IsUnsatisfiable clauses.clauses ↔ ConditionHolds (condition_tree condition.now)) }
    ensures fails { IfOk result (λ clauses. (values : List Bool) → length values ≡ clauses.variables → Satisfies (value_at values) clauses.clauses
        → condition_holds (condition_tree condition.now) (first_of (condition_tree condition.now) values) (second_of (condition_tree condition.now) values) ≡ false) }
    ensures inputs { IfOk result (λ clauses. clauses.inputs ≡ inputs_of (condition_tree condition.now)) }
    ensures within { IfOk result (λ clauses. clauses.variables ≤ MOST_VARIABLES) }
    ensures full { result ≡ Err TooManyVariables → MOST_VARIABLES < (clauses_of_condition (condition_tree condition.now)).variables }
{
    let literal = formula(alloc, gates, condition)?;
    Ok(Clauses::of_gates(alloc, gates, literal.negated())?)
}

impl Clauses {
    /// The clauses that are satisfied where a condition fails: three for each gate of its circuit, and the assertion
    /// that its literal is false. The file and the condition's number, from 1, are for a refusal alone.
    ///
    /// # Errors
    ///
    /// `Limit`, at this condition of this file, where inputs and gates are more than `MOST_VARIABLES`.
    pub fn of(
        alloc: Global,
        condition: &Condition,
        file: SourceFile,
        number: u64,
    ) -> Result<Clauses, Refusal>
        ensures exact { IfOk result (λ clauses. clauses ≡ clauses_of_condition (condition_tree condition.now)) }

        // They can be satisfied exactly where the condition fails for some two states that agree on the fixed words.
        ensures satisfiable { IfOk result (λ clauses. IsSatisfiable clauses.clauses ↔ CanFail (condition_tree condition.now)) }
        ensures unsatisfiable { IfOk result (λ clauses. IsUnsatisfiable clauses.clauses ↔ ConditionHolds (condition_tree condition.now)) }

        // Values that satisfy them begin with the bits of two states at which it fails.
        ensures fails { IfOk result (λ clauses. (values : List Bool) → length values ≡ clauses.variables → Satisfies (value_at values) clauses.clauses
            → condition_holds (condition_tree condition.now) (first_of (condition_tree condition.now) values) (second_of (condition_tree condition.now) values) ≡ false) }
        ensures inputs { IfOk result (λ clauses. clauses.inputs ≡ inputs_of (condition_tree condition.now)) }

        // Too many variables are refused as such, and nothing else is.
        ensures within { IfOk result (λ clauses. clauses.variables ≤ MOST_VARIABLES) }
        ensures refusal { IfErr result (λ e. (e ≡ no_memory) ⊎ (e ≡ refused_in Limit file (the_condition number))) }
        ensures limit { result ≡ Err (refused_in Limit file (the_condition number)) →
            MOST_VARIABLES < (clauses_of_condition (condition_tree condition.now)).variables }
    {
        let mut gates = Gates::input(alloc, inputs(condition));
        match clauses_over(alloc, &mut gates, condition) {
            Ok(clauses) => Ok(clauses),
            Err(error) => Err(refusal_of(error, file, number)),
        }
    }
}
