//! The answer: lines that are checked, or values that are evaluated.

ghost use Rattle.std.specs.Prelude.{◌≡◌, ◌≤◌, All, IfOk, IfErr, IsTrue, false, length, slice_index_or};
ghost use Rattle.rg_find.specs.Inner.Searched.{IsOver};
ghost use Rattle.rg_words.specs.Refusals.{no_memory, IsRefusedFor};
ghost use Rattle.rg_words.specs.declared.limits.TheConstants.{MOST_VARIABLES, MOST_PROOF_BYTES};
ghost use Rattle.rg_clauses.specs.ClauseLists.{IsLiteral, Satisfies, SatisfiesClause, literal_value, value_at};
ghost use Rattle.rg_hints.specs.Normal.{section_text};
ghost use Rattle.rg_find.specs.Found.{IsFound, FoundFits, FoundInOrder, fault_of};

use crate::logged_lines::lines_of;
use rg_clauses::Clauses;
use rg_hints::{Lines, check};
use rg_search::{Answer, Given, Refutation, Twin, solve};
use rg_watch::{Unwatched, Watcher};
use rg_words::limits::{MOST_DECISIONS, MOST_PROOF_BYTES};
use rg_words::{Refusal, RefusalNumber};
use std::alloc::Global;

/// What a search found.
#[derive(Drop)]
pub enum Found {
    /// Closed lines, with numbers that follow those of the clauses and have no gaps.
    Lines(Lines),
    /// A value for each variable; the first is of the variable 1.
    Values(Vec<bool>),
    /// The steps were used up, or there are more variables than the search takes.
    GaveUp,
    /// Lines were found, and their text is longer than a proofs file may be; or the search ended as what it had learned was too much
    /// for one.
    TooLarge,
}

/// Whether the text of lines fits into a proofs file.
fn fits(alloc: Global, lines: &Lines) -> Result<bool, Refusal>
    ensures fits { IfOk result (λ b. IsTrue b → length (section_text lines.now) ≤ MOST_PROOF_BYTES) }
    ensures refusal { IfErr result (λ r. r ≡ no_memory) }
{
    let text = lines.text(alloc)?;
    Ok(text.len() <= MOST_PROOF_BYTES)
}

/// The lines of a refutation, where they fit into a proofs file.
fn lines_found(alloc: Global, clauses: &Clauses, refutation: &Refutation) -> Result<Found, Refusal>
    ensures over { IfOk result (IsOver clauses.now) }
    ensures fits { IfOk result FoundFits }
    ensures order { IfOk result FoundInOrder }
    ensures refusal { IfErr result (λ r. r ≡ no_memory) }
{
    let Some(lines) = lines_of(alloc, clauses.len(), refutation)? else {
        return Ok(Found::GaveUp);
    };
    if fits(alloc, &lines)? {
        Ok(Found::Lines(lines))
    } else {
        Ok(Found::TooLarge)
    }
}

/// What the search finds, of which nothing is promised.
fn searched<W: Watcher>(
    alloc: Global,
    clauses: &Clauses,
    twins: &[Twin],
    steps: u64,
    watcher: &mut W,
) -> Result<Found, Refusal>
    ensures over { IfOk result (IsOver clauses.now) }
    ensures fits { IfOk result FoundFits }
    ensures order { IfOk result FoundInOrder }
    ensures refusal { IfErr result (λ r. r ≡ no_memory) }
{
    let (literals, starts) = clauses.flat();
    let given = Given {
        variables: clauses.variables(),
        inputs: clauses.inputs(),
        literals,
        starts,
    };
    match solve(alloc, given, twins, steps, watcher)? {
        Answer::Refuted(refutation) => lines_found(alloc, clauses, &refutation),
        Answer::Satisfied(values) => Ok(Found::Values(values)),
        Answer::GaveUp => Ok(Found::GaveUp),
        Answer::TooLong => Ok(Found::TooLarge),
    }
}

/// The value at a place, and false past the end.
fn at(values: &[bool], place: usize) -> bool
    ensures { result ≡ slice_index_or values.now place false }
{
    values.get(place).copied().unwrap_or(false)
}

/// Whether the values make a literal true.
fn holds(values: &[bool], literal: i32) -> bool
    requires { IsLiteral MOST_VARIABLES literal }
    ensures { result ≡ literal_value (value_at values.now) literal }
{
    let place = literal.unsigned_abs() as usize - 1;
    let value = at(values, place);
    if literal < 0 { !value } else { value }
}

fn satisfies_clause(literals: &[i32], values: &[bool]) -> bool
    requires { All (IsLiteral MOST_VARIABLES) literals.now }
    ensures { IsTrue result → SatisfiesClause (value_at values.now) literals.now }
{
    for literal in literals {
        if holds(values, *literal) {
            return true;
        }
    }
    false
}

/// Whether the values satisfy all clauses.
fn satisfies(clauses: &Clauses, values: &[bool]) -> bool
    ensures { IsTrue result → Satisfies (value_at values.now) clauses.now.clauses }
{
    for index in 0..clauses.len() {
        if !satisfies_clause(clauses.literals(index), values) {
            return false;
        }
    }
    true
}

/// What was found, where it stands the test.
fn confirmed(alloc: Global, clauses: &Clauses, found: Found) -> Result<Found, Refusal>
    requires over { IsOver clauses.now found }
    requires fits { FoundFits found }
    requires order { FoundInOrder found }
    ensures found { IfOk result (IsFound clauses.now) }
    ensures fits { IfOk result FoundFits }
    ensures order { IfOk result FoundInOrder }
    ensures refusal { IfErr result (λ r. r ≡ no_memory) }
{
    match found {
        Found::Lines(lines) => match check(alloc, 1, clauses, &lines) {
            Ok(()) => Ok(Found::Lines(lines)),
            Err(refusal) if refusal.number == RefusalNumber::Memory => {
                Err(Refusal::new(RefusalNumber::Memory))
            }
            Err(_) => Ok(Found::GaveUp),
        },
        Found::Values(values) => {
            let is_whole = values.len() == clauses.variables() as usize;
            if is_whole && satisfies(clauses, &values) {
                Ok(Found::Values(values))
            } else {
                Ok(Found::GaveUp)
            }
        }
        Found::GaveUp => Ok(Found::GaveUp),
        Found::TooLarge => Ok(Found::TooLarge),
    }
}

/// Looks for lines that close the clauses or for values that satisfy them, with at most so many decisions on inputs.
///
/// The steps bound all other work too, by constants: the conflicts, and the values that are followed to show what is equal. With
/// none only unit clauses are followed. `GaveUp` comes where all of that is used up, or where there are more variables than the
/// search takes; `TooLarge` where lines were found that don't fit into a proofs file, or where what was learned is too much for one.
///
/// # Errors
///
/// `Limit`, without a file and a place, where more than `MOST_DECISIONS` are asked for.
pub fn find(alloc: Global, clauses: &Clauses, steps: u64) -> Result<Found, Refusal>
    // Lines are closed, so that no values satisfy the clauses; values satisfy them.
    ensures found { IfOk result (IsFound clauses.now) }

    // Lines fit into a proofs file.
    ensures fits { IfOk result FoundFits }

    // Their numbers follow those of the clauses and have no gaps.
    ensures order { IfOk result FoundInOrder }

    // Too many decisions are refused, and nothing else is but for want of memory.
    ensures refusal { IsRefusedFor (fault_of steps) result }
{
    find_watched(alloc, clauses, steps, &mut Unwatched)
}

/// As `find`, with a watcher that hears of a long search.
///
/// # Errors
///
/// As `find`.
pub fn find_watched<W: Watcher>(
    alloc: Global,
    clauses: &Clauses,
    steps: u64,
    watcher: &mut W,
) -> Result<Found, Refusal>
    // Lines are closed, so that no values satisfy the clauses; values satisfy them.
    ensures found { IfOk result (IsFound clauses.now) }

    // Lines fit into a proofs file.
    ensures fits { IfOk result FoundFits }

    // Their numbers follow those of the clauses and have no gaps.
    ensures order { IfOk result FoundInOrder }

    // Too many decisions are refused, and nothing else is but for want of memory.
    ensures refusal { IsRefusedFor (fault_of steps) result }
{
    find_with(alloc, clauses, &[], steps, watcher)
}

/// As `find_watched`, where of the values that satisfy some are sought in which these words have the same value in both states. Nothing is
/// promised of that.
pub fn find_with<W: Watcher>(
    alloc: Global,
    clauses: &Clauses,
    twins: &[Twin],
    steps: u64,
    watcher: &mut W,
) -> Result<Found, Refusal>
    ensures found { IfOk result (IsFound clauses.now) }
    ensures fits { IfOk result FoundFits }
    ensures order { IfOk result FoundInOrder }
    ensures refusal { IsRefusedFor (fault_of steps) result }
{
    if steps > MOST_DECISIONS {
        return Err(Refusal::new(RefusalNumber::Limit));
    }
    let found = searched(alloc, clauses, twins, steps, watcher)?;
    confirmed(alloc, clauses, found)
}
