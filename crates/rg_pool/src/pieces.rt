//! A section that is checked in four pieces, each in a thread of its own.

ghost use Rattle.std.specs.Prelude.{◌≡◌, ◌↔◌, ◌+◌, ◌<◌, ◌≤◌, length, IsTrue, MatchResult, IfOk, OnOk, IfErr};
ghost use Rattle.rg_clauses.specs.ClauseLists.{IsFormula, IsUnsatisfiable};
ghost use Rattle.rg_words.specs.Refusals.{no_memory};
ghost use Rattle.rg_hints.specs.Verdict.{HasEmpty, IsClosed, IsSectionRefusal};
ghost use Rattle.rg_pool.specs.Inner.Empties.{IsEmptyAt, IsMarkOf};
ghost use Rattle.rg_pool.specs.Inner.PieceAnswers.{IsPieceAnswer};

use rayon::prelude::*;
use rg_clauses::Clauses;
use rg_hints::{Lines, check, check_piece};
use rg_words::{Place, Refusal, RefusalNumber, SourceFile};
use std::alloc::{AllocError, Global};
use std::sync::Wait;
use std::thread;
use std::thread::{Promise, PromisedHandle, Scope, Threads};

/// The least count of lines of a section that is cut into pieces.
pub const LEAST_LINES: usize = 512;

/// Called before each piece of a section is checked, in the thread that checks it.
pub trait Pieces {
    /// The piece with this number, from 1 to 4, is checked next in this thread.
    fn before(&self, piece: usize);
}

/// Nobody hears of it.
#[derive(Clone, Copy)]
pub struct Unreported;

impl Pieces for Unreported {
    fn before(&self, _piece: usize) {}
}

/// Whether memory was refused.
pub(crate) fn ran_out(answer: &Result<(), Refusal>) -> bool {
    matches!(answer, Err(refusal) if refusal.number == RefusalNumber::Memory)
}

/// The answer for two pieces side by side, from the answers for each: that of the first that is refused. Refused memory
/// goes before all else.
fn joined(
    clauses: &Clauses,
    lines: &Lines,
    from: usize,
    middle: usize,
    to: usize,
    answers: (Result<(), Refusal>, Result<(), Refusal>),
) -> Result<(), Refusal>
    requires front { from ≤ middle }
    requires back { middle ≤ to }
    requires first { IsPieceAnswer clauses.now.clauses lines.now from middle answers.0 }
    requires second { IsPieceAnswer clauses.now.clauses lines.now middle to answers.1 }
    ensures { IsPieceAnswer clauses.now.clauses lines.now from to result }
{
    let (first, second) = answers;
    if ran_out(&second) {
        return Err(Refusal::from(AllocError));
    }
    if let Err(refusal) = first {
        return Err(refusal);
    }
    second
}

/// The lines of a section from one place on and before another, which one thread checks.
#[derive(Clone, Copy)]
struct PieceOf<'a> {
    clauses: &'a Clauses,
    lines: &'a Lines,
    from: usize,
    to: usize,
}

impl<'a> PieceOf<'a> {
    fn new(clauses: &'a Clauses, lines: &'a Lines, from: usize, to: usize) -> Self
        ensures clauses { result.clauses.now ≡ clauses.now }
        ensures lines { result.lines.now ≡ lines.now }
        ensures from { result.from ≡ from }
        ensures to { result.to ≡ to }
    {
        PieceOf {
            clauses,
            lines,
            from,
            to,
        }
    }
}

impl<'a> Promise<Result<(), Refusal>> for PieceOf<'a> {
    // What the thread leaves is the answer for these lines.
    ghost kept_by = { λ p r. IsPieceAnswer p.clauses.now.clauses p.lines.now p.from p.to r };
}

/// Begins to check a piece in a thread of its own, which first passes on the piece's number.
fn begin<'s, E, P: Pieces + Sync>(
    alloc: Global,
    scope: &Scope<'s, E>,
    pieces: &'s P,
    number: usize,
    piece: PieceOf<'s>,
) -> Result<PromisedHandle<Result<(), Refusal>, PieceOf<'s>>, AllocError>
    requires given { piece.lines.now.given ≡ length piece.clauses.now.clauses }
    requires order { piece.from ≤ piece.to }
    requires bound { piece.to ≤ length piece.lines.now.lines }
    ensures { IfOk result (λ h. h.promise ≡ piece.entry) }
{
    let PieceOf {
        clauses,
        lines,
        from,
        to,
    } = piece;
    let begun = scope.spawn_with(
        piece,
        move || -> Result<(), Refusal>
            requires { (lines.now.given ≡ length clauses.now.clauses) × (from ≤ to) × (to ≤ length lines.now.lines) }
            ensures { IsPieceAnswer clauses.entry.now.clauses lines.entry.now from to result }
        {
            pieces.before(number);
            check_piece(alloc, clauses, lines, from, to)
        },
    );
    match begun {
        Ok(thread) => Ok(thread),
        Err(_) => Err(AllocError),
    }
}

/// Whether all lines follow, in four pieces of a quarter of the lines, each in a thread of this scope; the last takes the rest.
fn check_in<'s, E, R: Threads, P: Pieces + Sync>(
    rt: &R,
    alloc: Global,
    scope: &Scope<'s, E>,
    clauses: &'s Clauses,
    lines: &'s Lines,
    pieces: &'s P,
) -> Result<(), Refusal>
    requires { lines.now.given ≡ length clauses.now.clauses }
    ensures { IsPieceAnswer clauses.now.clauses lines.now 0 (length lines.now.lines) result }
{
    let all = lines.len();
    let quarter = all / 4;
    let piece = PieceOf::new(clauses, lines, 0, quarter);
    let first = begin(alloc, scope, pieces, 1, piece)?;
    let piece = PieceOf::new(clauses, lines, quarter, 2 * quarter);
    let second = begin(alloc, scope, pieces, 2, piece)?;
    let piece = PieceOf::new(clauses, lines, 2 * quarter, 3 * quarter);
    let third = begin(alloc, scope, pieces, 3, piece)?;
    let piece = PieceOf::new(clauses, lines, 3 * quarter, all);
    let fourth = begin(alloc, scope, pieces, 4, piece)?;
    let (first, second) = (first.join(rt), second.join(rt));
    let (third, fourth) = (third.join(rt), fourth.join(rt));
    let front = joined(clauses, lines, 0, quarter, 2 * quarter, (first, second));
    let back = joined(
        clauses,
        lines,
        2 * quarter,
        3 * quarter,
        all,
        (third, fourth),
    );
    joined(clauses, lines, 0, 2 * quarter, all, (front, back))
}

/// Checks the four pieces in a scope of its own: all threads are joined when it returns.
fn check_four<R: Threads + Wait + Sync, P: Pieces + Sync>(
    rt: &R,
    alloc: Global,
    clauses: &Clauses,
    lines: &Lines,
    pieces: &P,
) -> Result<(), Refusal>
    requires { lines.now.given ≡ length clauses.now.clauses }
    ensures { IsPieceAnswer clauses.now.clauses lines.now 0 (length lines.now.lines) result }
{
    thread::scope(
        thread::scope_env(),
        rt,
        |scope| -> Result<(), Refusal>
            requires { lines.now.given ≡ length clauses.now.clauses }
            ensures { IsPieceAnswer clauses.entry.now.clauses lines.entry.now 0 (length lines.entry.now.lines) result }
        { check_in(rt, alloc, scope, clauses, lines, pieces) },
    )
}

/// The count of the given clauses and the lines together.
fn count_all(clauses: &Clauses, lines: &Lines) -> usize
    requires given { lines.now.given ≡ length clauses.now.clauses }
    requires some { 0 < length lines.now.lines }
    ensures count { result ≡ length clauses.now.clauses + length lines.now.lines }
    ensures formula { IsFormula clauses.now }
{
    let count = lines.len();
    // The number of the last line, of 32 bits, is no less.
    let _greatest = lines.id(count - 1);
    clauses.len() + count
}

/// Whether the clause at this place is empty: a given one, or, after all of those, that of a line.
fn is_empty_at(clauses: &Clauses, lines: &Lines, place: usize) -> bool
    requires { place < length clauses.now.clauses + length lines.now.lines }
    ensures { IsTrue result ↔ IsEmptyAt clauses.now.clauses lines.now place }
{
    let given = clauses.len();
    if place < given {
        return clauses.literals(place).is_empty();
    }
    lines.literals(place - given).is_empty()
}

/// Whether a given clause or a line is empty: how many are is added up in threads, 1 for each of them and 0 for the others.
fn has_empty<R: Threads + Sync>(rt: &R, clauses: &Clauses, lines: &Lines) -> bool
    requires given { lines.now.given ≡ length clauses.now.clauses }
    requires some { 0 < length lines.now.lines }
    ensures answer { IsTrue result ↔ HasEmpty clauses.now.clauses lines.now }
    ensures formula { IsFormula clauses.now }
{
    let count = count_all(clauses, lines);
    let empty: usize = (0..count)
        .into_par_iter()
        .map(
            |place: usize| -> usize
                requires { place < length clauses.now.clauses + length lines.now.lines }
                ensures { IsMarkOf clauses.entry.now.clauses lines.entry.now place result }
            {
                if is_empty_at(clauses, lines, place) {
                    1
                } else {
                    0
                }
            },
        )
        .sum(rt);
    empty > 0
}

/// Whether the section of this condition, which counts from 1, is closed: the answer of `rg_hints::check`. A section of
/// `LEAST_LINES` lines or more is checked in four pieces, each in a thread of its own, in which `pieces` is called first; the first three
/// have a quarter of the lines each, rounded down. A shorter one is checked in the thread that asks.
///
/// # Errors
///
/// As `rg_hints::check`: the number of the least line that doesn't follow, or `NoEmptyClause` at the condition where all
/// lines follow and nothing is empty. `Memory` where memory is refused in any thread, or a piece has no thread, since none can be had; all
/// threads are joined then too.
pub fn check_all<R: Threads + Wait + Sync, P: Pieces + Sync>(
    rt: &R,
    alloc: Global,
    condition: u64,
    clauses: &Clauses,
    lines: &Lines,
    pieces: &P,
) -> Result<(), Refusal>
    requires { lines.now.given ≡ length clauses.now.clauses }

    // Ok where the section is closed, and else the fault of its least bad line, or that nothing is empty.
    ensures section { MatchResult result
        (λ _. IsClosed clauses.now.clauses lines.now)
        (IsSectionRefusal clauses.now.clauses lines.now condition) }

    // No values satisfy the clauses of a closed section.
    ensures unsatisfiable { OnOk result (IsUnsatisfiable clauses.now.clauses) }

    // A closed section is refused for want of memory alone.
    ensures only { IsClosed clauses.now.clauses lines.now → IfErr result (λ r. r ≡ no_memory) }
{
    if lines.len() < LEAST_LINES {
        return check(alloc, condition, clauses, lines);
    }
    lines.facts();
    if let Err(refusal) = check_four(rt, alloc, clauses, lines, pieces) {
        return Err(refusal);
    }
    if has_empty(rt, clauses, lines) {
        return Ok(());
    }
    Err(Refusal::at(
        RefusalNumber::NoEmptyClause,
        SourceFile::Proofs,
        Place::Condition(condition),
    ))
}
