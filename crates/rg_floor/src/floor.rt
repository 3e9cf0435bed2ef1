//! The floor: the machine and the history of its steps, which are legal at each moment.

ghost use Rattle.std.specs.Prelude.{◌≡◌, ◌<◌, ◌≤◌, ◌+◌, [], false, true, All, IfOk, OnOk, OnErr, length, vec_len, map, sum_by};
ghost use Rattle.rg_words.specs.Layout.{widths_of};
ghost use Rattle.rg_words.specs.Refusals.{IsRefusedFor};
ghost use Rattle.rg_words.specs.declared.limits.TheConstants.{MOST_RUN_STEPS};
ghost use Rattle.rg_tree.specs.Traces.{holds_at};
ghost use Rattle.rg_tree.specs.Moves.{given, IsValueOf};
ghost use Rattle.rg_tree.specs.ProgramTrees.{program as program_tree};
ghost use Rattle.rg_code.specs.Code.{zeros};
ghost use Rattle.rg_code.specs.CodeTrees.{code_blocks};
ghost use Rattle.rg_code.specs.Lawful.{IsLawful};
ghost use Rattle.rg_floor.specs.History.{IsLegal, own_steps, change_in, GoTogether};
ghost use Rattle.rg_floor.specs.Turns.{case_of, Goes, TurnGives, MoveGives, CloseGives, numbers_to, opened, open_fault, is_idle, why_of};

use crate::change::Change;
use crate::closed::{Closed, finish};
use crate::ready::{all_at_end, any_can_go, can_go, can_go_on, has_ended, stands_at_end};
use crate::round::Round;
use crate::seat::{Seat, gathered, seats};
use crate::stepping::{is_in_pre, make_step, try_move};
use crate::turn::{Case, Turn, Why};
use rg_code::checked::Checked;
use rg_code::code::Code;
use rg_machine::config::Config;
use rg_machine::replace::replace;
use rg_monitor::record::Record;
use rg_tree::moves::{WordValue, give};
use rg_tree::program::Program;
use rg_words::limits::MOST_RUN_STEPS;
use rg_words::{Refusal, RefusalNumber, State};
use std::alloc::{AllocError, Global};
use std::marker::Model;
use std::sync::ledger::{Blank, Book, Ledger};

/// The machine of one run with the history of its steps, which is legal at each moment: see `legal`.
///
/// The code is lent. The program is lent to each call that reads it, since a type that holds one can't cross a thread in other crates. The
/// history is kept as the state at the start and what each step changed.
#[derive(Drop)]
pub struct Floor<'e, L: Round> {
    code: &'e Code,
    config: Config<'e>,
    // Equal to the first between calls: it makes a step before that is known to be kept.
    ahead: Config<'e>,
    // Room for a move that names the words it changes.
    scratch: State,
    start: State,
    changes: Vec<Change>,
    limit: u64,
    own: u64,
    stopped: bool,
    more: bool,
    book: Book<L>,
}

impl<'e, L: Round> Model for Floor<'e, L> {
    ghost use Rattle.rg_code.specs.CodeTrees.{code_blocks};
    ghost use Rattle.rg_floor.specs.History.{FloorView};
    ghost use Rattle.rg_floor.specs.Inner.Kept.{IsKept, view_of};

    ghost Value = { FloorView };

    ghost view = { λ f. view_of L.program L.start f.config f.changes.items f.stopped f.more };

    ghost invariant = { λ f. IsKept L.program L.code L.start L.limit (code_blocks f.code.now) f.config f.ahead f.start f.scratch f.changes.items f.limit f.own f.book.total };
}

impl<'e, L: Round> Floor<'e, L> {
    /// A floor before its first step, and a seat for each part, in order.
    ///
    /// Refused: `Limit` where the limit is above 1,000,000, else `StartOutsidePre` where the start isn't in the pre; `Memory`
    /// where memory was refused.
    pub fn open<E: Checked>(
        alloc: Global,
        checked: &'e E,
        start: State,
        limit: u64,
        blank: Blank,
    ) -> Result<(Floor<'e, L>, Vec<Seat<L>>), Refusal>
        requires program { program_tree (E.program_of checked.now) ≡ L.program }
        requires code { code_blocks (E.code_of checked.now) ≡ L.code }
        requires widths { start.widths ≡ widths_of L.program.words }
        requires start { start.values ≡ L.start }
        requires limit { limit ≡ L.limit }
        requires blank { (blank.name ≡ L.name) × (blank.parts ≡ L.parts) × (L.parts ≡ length L.code) }
        ensures floor { IfOk result (λ r. r.0 ≡ opened L.code L.start) }
        ensures parts { IfOk result (λ r. map (λ s. s.part) r.1.items ≡ numbers_to (length L.code)) }
        ensures counts { IfOk result (λ r. sum_by (λ s. s.steps) r.1.items ≡ 0) }
        ensures all { IfOk result (λ r. vec_len r.1 ≡ L.parts) }
        ensures refusal { IsRefusedFor (open_fault L.program L.start L.limit) result }
    {
        if limit > MOST_RUN_STEPS {
            return Err(Refusal::new(RefusalNumber::Limit));
        }
        let program = checked.program();
        if !is_in_pre(program, &start) {
            return Err(Refusal::new(RefusalNumber::StartOutsidePre));
        }
        Ok(Floor::begin(alloc, program, checked.code(), start, limit, blank)?)
    }

    /// A floor that may be opened, with its seats.
    fn begin(
        alloc: Global,
        program: &Program,
        code: &'e Code,
        start: State,
        limit: u64,
        blank: Blank,
    ) -> Result<(Floor<'e, L>, Vec<Seat<L>>), AllocError>
        requires program { program_tree program.now ≡ L.program }
        requires code { code_blocks code.now ≡ L.code }
        requires law { ∥ IsLawful program.now code.now ∥₁ }
        requires widths { start.widths ≡ widths_of program.now.layout }
        requires start { start.values ≡ L.start }
        requires limit { (limit ≡ L.limit) × (limit ≤ MOST_RUN_STEPS) }
        requires pre { holds_at L.program.spec.pre L.start ≡ true }
        requires blank { (blank.name ≡ L.name) × (blank.parts ≡ L.parts) × (L.parts ≡ length L.code) }
        ensures floor { IfOk result (λ r. r.0 ≡ opened L.code L.start) }
        ensures parts { IfOk result (λ r. map (λ s. s.part) r.1.items ≡ numbers_to (length L.code)) }
        ensures counts { IfOk result (λ r. sum_by (λ s. s.steps) r.1.items ≡ 0) }
        ensures all { IfOk result (λ r. vec_len r.1 ≡ L.parts) }
    {
        let (config, ahead, scratch) = standing(alloc, program, code, &start)?;
        let (book, share) = blank.open::<L>();
        let seats = seats(alloc, code.parts.len(), share)?;
        let floor = Floor::fresh(alloc, code, (config, ahead), (scratch, start), limit, book);
        Ok((floor, seats))
    }

    fn fresh(
        alloc: Global,
        code: &'e Code,
        configs: (Config<'e>, Config<'e>),
        states: (State, State),
        limit: u64,
        book: Book<L>,
    ) -> Floor<'e, L>
        requires code { code_blocks code.now ≡ L.code }
        requires config { configs.0 ≡ record { words = L.program.words; codes = L.code; state = L.start; places = zeros L.code } }
        requires ahead { configs.1 ≡ configs.0 }
        requires scratch { states.0.widths ≡ widths_of L.program.words }
        requires widths { states.1.widths ≡ widths_of L.program.words }
        requires start { states.1.values ≡ L.start }
        requires limit { (limit ≡ L.limit) × (limit ≤ MOST_RUN_STEPS) }
        requires law { ∥ GoTogether L.program L.code ∥₁ }
        requires pre { holds_at L.program.spec.pre L.start ≡ true }
        requires book { book.total ≡ 0 }
        ensures { result ≡ opened L.code L.start }
    {
        let (config, ahead) = configs;
        let (scratch, start) = states;
        start.facts();
        Floor {
            code,
            config,
            ahead,
            scratch,
            start,
            changes: Vec::new(alloc),
            limit,
            own: 0,
            stopped: false,
            more: true,
            book,
        }
    }

    /// The state of the words.
    pub fn words(&self) -> &State
        ensures values { result.now.values ≡ self.now.words }
        ensures widths { result.now.widths ≡ widths_of L.program.words }
    {
        self.config.words()
    }

    /// The number of the last record; 0 where there is none.
    pub fn last(&self) -> u64
        ensures { result ≡ length self.now.history }
    {
        self.changes.len() as u64
    }

    /// From now on each turn answers that the run was stopped.
    pub fn stop(&mut self)
        ensures { self.new ≡ record self.old { stopped = true } }
    {
        self.stopped = true;
    }

    /// No more moves come.
    pub fn no_more_moves(&mut self)
        ensures { self.new ≡ record self.old { more = false } }
    {
        self.more = false;
    }

    /// Which case a turn of this part is. The floor stays as it is.
    fn case(&mut self, part: usize) -> Case
        requires { (0 < part) × (part ≤ length L.code) }
        ensures case { result ≡ case_of L.code L.limit self.old part }
        ensures same { self.new ≡ self.old }
    {
        if self.stopped {
            return Case::IsOver(Why::Stopped);
        }
        if has_ended(&self.config, part) {
            return Case::IsOver(Why::Ended);
        }
        if self.own == self.limit {
            return Case::IsOver(Why::Limit);
        }
        if stands_at_end(&self.config, part) {
            return Case::AtEnd;
        }
        if can_go(&mut self.config, part) {
            return Case::Steps;
        }
        if can_go_on(&mut self.config, self.more) {
            Case::Waits
        } else {
            Case::IsOver(Why::Stuck)
        }
    }

    /// The turn of a part: the first of these that fits is answered. `Over(Stopped)` where the run was stopped; `Over(Ended)` where
    /// every part is at its end; `Over(Limit)` where the parts made as many steps as they may; `Ended` where the part is at its end;
    /// `Over(Stuck)` where no part can step and no more moves come; `Blocked` where the part can't step; and else `Did`, with the
    /// record of the part's step. All but `Did` change nothing.
    ///
    /// An error comes only where a step is to be made and memory was refused, and changes nothing.
    pub fn turn(&mut self, program: &Program, seat: &mut Seat<L>) -> Result<Turn, AllocError>
        requires { program_tree program.now ≡ L.program }
        ensures turn { TurnGives L.program L.code L.limit self.old seat.old.part result self.new seat.old.steps seat.new.steps }
        ensures part { seat.new.part ≡ seat.old.part }
    {
        match self.case(seat.part()) {
            Case::IsOver(why) => Ok(Turn::Over(why)),
            Case::AtEnd => Ok(Turn::Ended),
            Case::Waits => Ok(Turn::Blocked),
            Case::Steps => {
                let record = self.advance(program, seat)?;
                Ok(Turn::Did(record))
            }
        }
    }

    /// Makes the step of the seat's part.
    fn advance(&mut self, program: &Program, seat: &mut Seat<L>) -> Result<Record, AllocError>
        requires program { program_tree program.now ≡ L.program }
        requires case { case_of L.code L.limit self.old seat.old.part ≡ Case.Steps }
        ensures goes { IfOk result (λ r. Goes L.program L.code self.old seat.old.part (Turn.Did r) self.new seat.old.steps seat.new.steps) }
        ensures err { OnErr result ((self.new ≡ self.old) × (seat.new.steps ≡ seat.old.steps)) }
        ensures part { seat.new.part ≡ seat.old.part }
    {
        let part = seat.part();
        let record = make_step(
            program,
            &mut self.config,
            &mut self.ahead,
            &mut self.changes,
            part,
        )?;
        self.own += 1;
        seat.count(&mut self.book);
        Ok(record)
    }

    /// A move of the environment to this state.
    ///
    /// Refused, and then nothing changes: `MovesEnded` after `no_more_moves`, else `FixedMoved` where a fixed word changes, else
    /// `OutsideRely` where the move isn't inside the rely; `Memory` where memory was refused.
    pub fn environment(&mut self, program: &Program, state: State) -> Result<Record, Refusal>
        requires program { program_tree program.now ≡ L.program }
        requires state { state.widths ≡ widths_of L.program.words }
        ensures { MoveGives L.program L.code self.old state.values result self.new }
    {
        try_move(
            program,
            self.more,
            &mut self.config,
            &mut self.ahead,
            &mut self.changes,
            &state,
        )
    }

    /// A move that gives these words these values, and keeps the others. Refused as `environment` is.
    pub fn make(&mut self, program: &Program, values: &[WordValue]) -> Result<Record, Refusal>
        requires program { program_tree program.now ≡ L.program }
        requires values { All (IsValueOf (widths_of L.program.words)) values.now }
        ensures { MoveGives L.program L.code self.old (given values.now self.old.words) result self.new }
    {
        replace(&mut self.scratch, self.config.words());
        give(values, &mut self.scratch);
        try_move(
            program,
            self.more,
            &mut self.config,
            &mut self.ahead,
            &mut self.changes,
            &self.scratch,
        )
    }

    /// Whether `stop` was called.
    pub fn is_stopped(&self) -> bool
        ensures { result ≡ self.now.stopped }
    {
        self.stopped
    }

    /// Whether no step of a part comes before a move: the run was stopped, the limit is reached, or no part can step (all are at
    /// their ends, or blocked). The floor stays as it is.
    pub fn is_idle(&mut self) -> bool
        ensures idle { result ≡ is_idle L.code L.limit self.old }
        ensures same { self.new ≡ self.old }
    {
        self.stopped || self.own == self.limit || !any_can_go(&mut self.config)
    }

    /// The code that the run is of.
    pub fn code(&self) -> &'e Code
        ensures { code_blocks result.now ≡ L.code }
    {
        self.code
    }

    /// The state at the start.
    pub fn start(&self) -> &State
        ensures values { result.now.values ≡ L.start }
        ensures widths { result.now.widths ≡ widths_of L.program.words }
    {
        &self.start
    }

    /// How many steps parts may make.
    pub fn limit(&self) -> u64
        ensures { result ≡ L.limit }
    {
        self.limit
    }

    /// What is known of every floor, for proofs: it is legal, and its limit is within the tool's. There is nothing to do.
    pub fn legal(&self)
        ensures legal { IsLegal L.program L.code L.start L.limit self.now }
        ensures limit { L.limit ≤ MOST_RUN_STEPS }
    {
        let _ = &self.own;
    }

    /// Why the run is over. The floor stays as it is.
    fn why(&mut self) -> Why
        ensures why { result ≡ why_of L.code L.limit self.old }
        ensures same { self.new ≡ self.old }
    {
        if self.stopped {
            return Why::Stopped;
        }
        if all_at_end(&self.config) {
            return Why::Ended;
        }
        if self.own == self.limit {
            return Why::Limit;
        }
        if self.more || any_can_go(&mut self.config) {
            Why::Stopped
        } else {
            Why::Stuck
        }
    }

    /// Ends a run, from all of its seats. The printed records have to be its history: `Mismatch` where they aren't; `Memory` where
    /// memory was refused.
    pub fn close(
        mut self,
        alloc: Global,
        program: &'e Program,
        seats: Vec<Seat<L>>,
        printed: &[Record],
    ) -> Result<Closed<'e>, Refusal>
        requires program { program_tree program.now ≡ L.program }
        requires seats { (vec_len seats ≡ L.parts) × (0 < L.parts) }
        ensures closed { CloseGives (why_of L.code L.limit self.entry) self.entry.changes self.entry.history printed.now result }
        ensures exact { IfOk result (λ c. c.changes ≡ map change_in c.history) }
        ensures legal { IsLegal L.program L.code L.start L.limit self.entry }
        ensures counted { sum_by (λ s. s.steps) seats.items ≡ own_steps self.entry.history }
    {
        self.legal();
        let why = self.why();
        if let Some(mut all) = gathered(seats) {
            self.book.audit(&mut all);
        }
        let Floor {
            code: _,
            config: _,
            ahead: _,
            scratch: _,
            start,
            changes,
            limit: _,
            own: _,
            stopped: _,
            more: _,
            book: _,
        } = self;
        finish(alloc, program, start, changes, why, printed)
    }
}

/// Two equal configurations, with each part at its first block, and a copy of the state.
fn standing<'e>(
    alloc: Global,
    program: &Program,
    code: &'e Code,
    start: &State,
) -> Result<(Config<'e>, Config<'e>, State), AllocError>
    requires law { ∥ IsLawful program.now code.now ∥₁ }
    requires widths { start.now.widths ≡ widths_of program.now.layout }
    ensures config { IfOk result (λ r. r.0
        ≡ record
        { words = program.now.layout; codes = code_blocks code.now; state = start.now.values; places = zeros (code_blocks code.now) }) }
    ensures ahead { IfOk result (λ r. r.1 ≡ r.0) }
    ensures scratch { IfOk result (λ r. r.2.widths ≡ start.now.widths) }
{
    let state = start.copy()?;
    let config = Config::new(alloc, code, state)?;
    let ahead = config.copy()?;
    let scratch = start.copy()?;
    Ok((config, ahead, scratch))
}
