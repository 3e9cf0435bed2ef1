//! What is left of a run.

ghost use Rattle.std.specs.Prelude.{◌≡◌, ◌↔◌, ◌+◌, ◌-◌, ◌≤◌, All, IsTrue, IfOk, length, drop, map};
ghost use Rattle.rg_words.specs.Layout.{widths_of};
ghost use Rattle.rg_tree.specs.Moves.{given, IsValueOf};
ghost use Rattle.rg_tree.specs.Programs.{nth};
ghost use Rattle.rg_tree.specs.ProgramTrees.{program as program_tree};
ghost use Rattle.rg_floor.specs.Changes.{rebuilt, state_after, AreChangesOf};
ghost use Rattle.rg_floor.specs.History.{change_in, steps_by};
ghost use Rattle.rg_floor.specs.Turns.{CloseGives};
ghost use Rattle.rg_floor.specs.Inner.Counts.{made_by};

use crate::change::Change;
use crate::turn::Why;
use rg_monitor::record::Record;
use rg_tree::moves::give;
use rg_tree::program::Program;
use rg_words::{Refusal, RefusalNumber, State};
use std::alloc::{AllocError, Global};
use std::marker::Model;

/// A move that was passed over.
#[derive(Clone, Copy, PartialEq, Eq, Debug)]
pub struct Passed {
    /// The number of the move, from 1.
    pub number: u64,
    /// Why it was refused: `OutsideRely` or `FixedMoved`.
    pub refusal: RefusalNumber,
    /// The count of records before it.
    pub records: u64,
}

/// Why a run is over, its history, and the moves that were passed over. The program is lent.
#[derive(Drop)]
pub struct Closed<'e> {
    program: &'e Program,
    start: State,
    changes: Vec<Change>,
    why: Why,
    refused: Vec<Passed>,
}

impl<'e> Model for Closed<'e> {
    ghost use Rattle.std.specs.Prelude.{◌≡◌, map};
    ghost use Rattle.rg_words.specs.Layout.{widths_of};
    ghost use Rattle.rg_tree.specs.ProgramTrees.{program as program_tree};
    ghost use Rattle.rg_floor.specs.Changes.{rebuilt, AreChangesOf};
    ghost use Rattle.rg_floor.specs.History.{change_in};
    ghost use Rattle.rg_floor.specs.Turns.{ClosedView};

    ghost Value = { ClosedView };

    ghost view = { λ c. record { why = c.why; changes = c.changes.items; history = rebuilt (program_tree c.program.now) 0 c.start.values c.changes.items; refused = c.refused.items } };

    ghost invariant = { λ c. (c.start.widths ≡ widths_of c.program.now.layout) × AreChangesOf (widths_of c.program.now.layout) c.changes.items × (c.changes.items ≡ map change_in (rebuilt (program_tree c.program.now) 0 c.start.values c.changes.items)) };
}

impl<'e> Closed<'e> {
    fn new(
        program: &'e Program,
        start: State,
        changes: Vec<Change>,
        why: Why,
        refused: Vec<Passed>,
    ) -> Closed<'e>
        requires start { start.widths ≡ widths_of program.now.layout }
        requires changes { AreChangesOf (widths_of program.now.layout) changes.items }
        requires exact { changes.items ≡ map change_in (rebuilt (program_tree program.now) 0 start.values changes.items) }
        ensures { result
            ≡ record
            { why = why; changes = changes.items; history = rebuilt (program_tree program.now) 0 start.values changes.items; refused = refused.items } }
    {
        Closed {
            program,
            start,
            changes,
            why,
            refused,
        }
    }

    /// This closed floor, with these as the moves that were passed over.
    pub fn with_refused(mut self, refused: Vec<Passed>) -> Closed<'e>
        ensures { result ≡ record { why = self.entry.why; changes = self.entry.changes; history = self.entry.history; refused = refused.items } }
    {
        self.refused = refused;
        self
    }

    /// The program that was run.
    pub fn program(&self) -> &'e Program {
        self.program
    }

    /// Why the run is over.
    pub fn why(&self) -> Why
        ensures { result ≡ self.now.why }
    {
        self.why
    }

    /// The count of records.
    pub fn len(&self) -> usize
        ensures { result ≡ length self.now.history }
    {
        self.changes.len()
    }

    /// How many steps a part made; for 0, how many the environment made.
    pub fn steps_of(&self, part: usize) -> usize
        ensures { result ≡ steps_by part self.now.history }
    {
        count_by(part, &self.changes)
    }

    /// The record of this number, from 1, if there is one. It is made again from the changes up to it.
    ///
    /// An error comes only where memory was refused.
    pub fn record(&self, alloc: Global, number: usize) -> Result<Option<Record>, AllocError>
        ensures { IfOk result (λ r. r ≡ nth self.now.history number) }
    {
        record_at(alloc, self.program, &self.start, &self.changes, number)
    }

    /// The records from this number on, in order; all of them for 0 and 1. They are made again from the changes, in one pass.
    ///
    /// An error comes only where memory was refused.
    pub fn records_from(&self, alloc: Global, number: usize) -> Result<Vec<Record>, AllocError>
        ensures { IfOk result (λ r. r.items ≡ drop (number - 1) self.now.history) }
    {
        let count = number.saturating_sub(1);
        records_after(alloc, self.program, &self.start, &self.changes, count)
    }

    /// What each step changed, in order: for each record exactly the words that differ after it, in their order, with their new values.
    pub fn changes(&self) -> &[Change]
        ensures changes { result.now ≡ self.now.changes }
        ensures exact { result.now ≡ map change_in self.now.history }
    {
        self.changes.as_slice()
    }

    /// The moves that were passed over, in order.
    pub fn refused(&self) -> &[Passed]
        ensures { result.now ≡ self.now.refused }
    {
        self.refused.as_slice()
    }
}

/// How many of these changes one made.
fn count_by(who: usize, changes: &[Change]) -> usize
    ensures { result ≡ made_by who changes.now }
{
    let mut count = 0;
    for change in changes {
        if change.who() == who {
            count += 1;
        }
    }
    count
}

/// The record of this number, from 1, made from changes.
fn record_at(
    alloc: Global,
    program: &Program,
    start: &State,
    changes: &[Change],
    number: usize,
) -> Result<Option<Record>, AllocError>
    requires start { start.now.widths ≡ widths_of program.now.layout }
    requires changes { AreChangesOf (widths_of program.now.layout) changes.now }
    ensures { IfOk result (λ r. r ≡ nth (rebuilt (program_tree program.now) 0 start.now.values changes.now) number) }
{
    if number == 0 {
        return Ok(None);
    }
    if number > changes.len() {
        return Ok(None);
    }
    let change = &changes[number - 1];
    let before = state_after(start, &changes[..number - 1])?;
    let after = after_change(&before, change)?;
    let record = Record::of(
        alloc,
        program,
        number as u64,
        change.who(),
        change.line(),
        &before,
        &after,
    )?;
    Ok(Some(record))
}

/// The records after so many, made from changes.
fn records_after(
    alloc: Global,
    program: &Program,
    start: &State,
    changes: &[Change],
    count: usize,
) -> Result<Vec<Record>, AllocError>
    requires start { start.now.widths ≡ widths_of program.now.layout }
    requires changes { AreChangesOf (widths_of program.now.layout) changes.now }
    ensures { IfOk result (λ r. r.items ≡ drop count (rebuilt (program_tree program.now) 0 start.now.values changes.now)) }
{
    if count >= changes.len() {
        return Ok(Vec::new(alloc));
    }
    let before = state_after(start, &changes[..count])?;
    records_on(alloc, program, &before, changes, count)
}

/// The records of the changes after so many, from the state there.
fn records_on(
    alloc: Global,
    program: &Program,
    from: &State,
    changes: &[Change],
    count: usize,
) -> Result<Vec<Record>, AllocError>
    requires from { from.now.widths ≡ widths_of program.now.layout }
    requires changes { AreChangesOf (widths_of program.now.layout) changes.now }
    ensures { IfOk result (λ r. r.items ≡ rebuilt (program_tree program.now) count from.now.values (drop count changes.now)) }
{
    let mut before = from.copy()?;
    let mut after = from.copy()?;
    let mut records = Vec::new(alloc);
    for i in count..changes.len() {
        let change = &changes[i];
        give(change.values(), &mut after);
        let record = Record::of(
            alloc,
            program,
            i as u64 + 1,
            change.who(),
            change.line(),
            &before,
            &after,
        )?;
        records.push(record)?;
        give(change.values(), &mut before);
    }
    Ok(records)
}

/// The state after a change.
fn after_change(before: &State, change: &Change) -> Result<State, AllocError>
    requires { All (IsValueOf before.now.widths) change.now.values }
    ensures values { IfOk result (λ s. s.values ≡ given change.now.values before.now.values) }
    ensures widths { IfOk result (λ s. s.widths ≡ before.now.widths) }
{
    let mut after = before.copy()?;
    give(change.values(), &mut after);
    Ok(after)
}

/// The state after changes.
fn state_after(start: &State, changes: &[Change]) -> Result<State, AllocError>
    requires { AreChangesOf start.now.widths changes.now }
    ensures values { IfOk result (λ s. s.values ≡ state_after start.now.values changes.now) }
    ensures widths { IfOk result (λ s. s.widths ≡ start.now.widths) }
{
    let mut state = start.copy()?;
    for change in changes {
        give(change.values(), &mut state);
    }
    Ok(state)
}

/// Whether the printed records are those of the changes.
fn is_history(
    alloc: Global,
    program: &Program,
    start: &State,
    changes: &[Change],
    printed: &[Record],
) -> Result<bool, AllocError>
    requires start { start.now.widths ≡ widths_of program.now.layout }
    requires changes { AreChangesOf (widths_of program.now.layout) changes.now }
    ensures { IfOk result (λ b. IsTrue b ↔ (printed.now ≡ rebuilt (program_tree program.now) 0 start.now.values changes.now)) }
{
    if printed.len() != changes.len() {
        return Ok(false);
    }
    let mut before = start.copy()?;
    let mut after = start.copy()?;
    for i in 0..changes.len() {
        let change = &changes[i];
        give(change.values(), &mut after);
        let wanted = Record::of(
            alloc,
            program,
            i as u64 + 1,
            change.who(),
            change.line(),
            &before,
            &after,
        )?;
        if !printed[i].same(&wanted) {
            return Ok(false);
        }
        give(change.values(), &mut before);
    }
    Ok(true)
}

/// What is left of a run, where the printed records are its history.
pub(crate) fn finish<'e>(
    alloc: Global,
    program: &'e Program,
    start: State,
    changes: Vec<Change>,
    why: Why,
    printed: &[Record],
) -> Result<Closed<'e>, Refusal>
    requires start { start.widths ≡ widths_of program.now.layout }
    requires changes { AreChangesOf (widths_of program.now.layout) changes.items }
    requires exact { changes.items ≡ map change_in (rebuilt (program_tree program.now) 0 start.values changes.items) }
    ensures { CloseGives why changes.items (rebuilt (program_tree program.now) 0 start.values changes.items) printed.now result }
{
    if !is_history(alloc, program, &start, &changes, printed)? {
        return Err(Refusal::new(RefusalNumber::Mismatch));
    }
    Ok(Closed::new(program, start, changes, why, Vec::new(alloc)))
}
