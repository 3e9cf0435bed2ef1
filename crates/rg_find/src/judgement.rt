//! Whether a condition is true, by a search: lines that prove it, or states at which it fails.

ghost use Rattle.std.specs.Prelude.{◌≡◌, ◌≤◌, IfOk, IfErr, OnOk};
ghost use Rattle.rg_words.specs.declared.limits.TheConstants.{MOST_VARIABLES, MOST_DECISIONS};
ghost use Rattle.rg_words.specs.declared.refusal.Place.TheVariants.{Condition as the_condition};
ghost use Rattle.rg_tree.specs.Conditions.{condition_tree};
ghost use Rattle.rg_clauses.specs.Conditions.{clauses_of_condition};
ghost use Rattle.rg_words.specs.Refusals.{IsRefusedFor};
ghost use Rattle.rg_find.specs.Found.{IsFound, FoundFits, FoundInOrder, fault_of};
ghost use Rattle.rg_find.specs.Judged.{IsJudged, JudgedFits, JudgedInOrder, IsJudgeRefusal};

use crate::answer::{Found, find_with};
use crate::twins::twins_of;
use rg_bits::states;
use rg_clauses::Clauses;
use rg_hints::Lines;
use rg_tree::condition::Condition;
use rg_watch::Watcher;
use rg_words::limits::MOST_DECISIONS;
use rg_words::{Refusal, RefusalNumber, SourceFile, State};
use std::alloc::Global;

/// What was found of a condition.
#[derive(Drop)]
pub enum Judged {
    /// It is true: lines that close its clauses.
    Holds(Lines),
    /// It fails at this state, and at the second one where it speaks of any two.
    Fails(State, Option<State>),
    /// The steps were used up, or there are more variables than the search takes.
    GaveUp,
    /// Lines that close its clauses were found, and their text is longer than a proofs file may be; or the search ended as what it had
    /// learned was too much for one.
    TooLarge,
}

/// Looks for lines or values over a condition's clauses; of the values some in which words keep their values where they may.
fn find_near<W: Watcher>(
    alloc: Global,
    condition: &Condition,
    clauses: &Clauses,
    steps: u64,
    watcher: &mut W,
) -> Result<Found, Refusal>
    ensures found { IfOk result (IsFound clauses.now) }
    ensures fits { IfOk result FoundFits }
    ensures order { IfOk result FoundInOrder }
    ensures refusal { IsRefusedFor (fault_of steps) result }
{
    if steps > MOST_DECISIONS {
        return Err(Refusal::new(RefusalNumber::Limit));
    }
    let twins = twins_of(alloc, condition)?;
    find_with(alloc, clauses, &twins, steps, watcher)
}

/// Looks for lines that prove a condition or for states at which it fails, as `find` does on its clauses. The file and the
/// condition's number, from 1, are for a refusal alone. The watcher hears of a long search.
///
/// # Errors
///
/// `Limit` at this condition of this file where it has too many variables; then `Limit`, without a file and a place, where more than
/// `MOST_DECISIONS` are asked for.
pub fn judge<W: Watcher>(
    alloc: Global,
    condition: &Condition,
    file: SourceFile,
    number: u64,
    steps: u64,
    watcher: &mut W,
) -> Result<Judged, Refusal>
    // Lines are closed for its clauses, and it is true; or it fails at the states.
    ensures judged { IfOk result (IsJudged (condition_tree condition.now)) }

    // Lines fit into a proofs file.
    ensures fits { IfOk result JudgedFits }

    // Their numbers follow those of the clauses and have no gaps.
    ensures order { IfOk result JudgedInOrder }
    ensures within { IfOk result (λ _. (clauses_of_condition (condition_tree condition.now)).variables ≤ MOST_VARIABLES) }
    ensures steps { OnOk result (steps ≤ MOST_DECISIONS) }
    ensures refusal { IfErr result (IsJudgeRefusal (condition_tree condition.now) file number steps) }
{
    let clauses = match Clauses::of(alloc, condition, file, number) {
        Ok(clauses) => clauses,
        Err(refusal) => return Err(refusal),
    };
    let _inputs = clauses.inputs();
    let found = match find_near(alloc, condition, &clauses, steps, watcher) {
        Ok(found) => found,
        Err(refusal) => return Err(refusal),
    };
    match found {
        Found::Lines(lines) => Ok(Judged::Holds(lines)),
        Found::Values(values) => {
            let (first, second) = states(alloc, condition, &values)?;
            Ok(Judged::Fails(first, second))
        }
        Found::GaveUp => Ok(Judged::GaveUp),
        Found::TooLarge => Ok(Judged::TooLarge),
    }
}
