//! The whole search: what comes before the first counted decision, and the decisions.

use crate::congruence::Classes;
use crate::plain::{Twin, plain_values};
use crate::relations::Relations;
use crate::shortening::{Refutation, refutation_of};
use crate::sweep::Sweep;
use rg_solver::code::code_for;
use rg_solver::given::Given;
use rg_solver::log::Log;
use rg_solver::search::{Goal, Outcome};
use rg_solver::solver::{Solver, TRUE};
use rg_solver::table::add;
use rg_watch::Watcher;
use std::alloc::{AllocError, Global};

/// The most variables of a search: it takes about 500 bytes for each.
const MOST_SEARCHED: u32 = 500_000;

/// The most values that are followed to close the classes, for each decision that is allowed and in all.
const CLOSING: (u64, u64) = (100, 100_000_000);

/// As much for the classes under cases.
const CASES: (u64, u64) = (20, 20_000_000);

/// As much for the first sweep, which finds what is all but plain.
const FIRST_SWEEP: (u64, u64) = (50, 50_000);

/// As much for the second sweep.
const SWEEP: (u64, u64) = (50, 50_000_000);

/// The most conflicts of the first search.
const FIRST_CONFLICTS: u64 = 1_000;

/// The most conflicts in each direction of a pair in the first sweep, and in the second.
const FEW_CONFLICTS: u64 = 3;

const MANY_CONFLICTS: u64 = 3_000;

/// What a search answers. None of it is promised to be so.
#[derive(Drop)]
pub enum Answer {
    /// No values satisfy the clauses, since these clauses follow, each by its hints, and the last one is empty. There are
    /// none where a given clause is empty.
    Refuted(Refutation),
    /// A value for each variable; the first is of the variable 1.
    Satisfied(Vec<bool>),
    /// The steps were used up, or there are more variables than the search takes.
    GaveUp,
    /// The log became too long for a proofs file.
    TooLong,
}

/// The solver, what is known to be equal, and how many decisions are allowed, by which other work is bounded too.
#[derive(Drop)]
pub struct Search {
    pub solver: Solver,
    pub classes: Classes,
    pub steps: u64,
}

impl Search {
    /// So much work above what the solver did.
    fn limit(&self, most: (u64, u64)) -> u64 {
        let allowed = self.steps.saturating_mul(most.0).min(most.1);
        self.solver.effort.saturating_add(allowed)
    }

    /// Finds out what is equal by the gates' operands.
    fn close_all(&mut self) {
        self.solver.backtrack(0);
        let most = self.limit(CLOSING);
        if !self.solver.is_over() && self.steps > 0 {
            self.close(most);
        }
    }

    /// Proves gates equal to others, and then what is equal by them.
    fn sweep<W: Watcher>(&mut self, conflicts: u64, work: (u64, u64), watcher: &mut W) {
        self.solver.backtrack(0);
        let most = self.limit(SWEEP);
        let work = self.limit(work);
        let conflicts = self.steps.min(conflicts);
        if conflicts > 0 && !self.solver.is_over() {
            let mut sweep = Sweep::new(self, conflicts, work, most);
            sweep.run(self, watcher);
        }
        self.close_all();
    }

    /// Relates sums.
    fn relate<W: Watcher>(&mut self, watcher: &mut W) {
        self.solver.backtrack(0);
        if self.steps > 0 && !self.solver.is_over() {
            let most = self.limit(SWEEP);
            let mut relations = Relations::new(self, most);
            relations.run(self, watcher);
            self.close_all();
        }
    }

    /// The congruence closure, also under cases, a first sweep, and a first search.
    fn begin<W: Watcher>(&mut self, goal: &mut Goal<'_>, watcher: &mut W) -> Outcome {
        self.close_all();
        if self.steps > 0 && !self.solver.is_over() {
            let most = self.limit(CASES);
            self.close_cases(most);
            self.close_all();
        }
        self.relate(watcher);
        self.sweep(FEW_CONFLICTS, FIRST_SWEEP, watcher);
        goal.conflicts = self.steps.min(FIRST_CONFLICTS);
        self.solver.search(goal, watcher)
    }

    /// The leaves of the assertion, each as a case and by few conflicts, a second sweep, and then a search until the end.
    fn go_on<W: Watcher>(&mut self, goal: &mut Goal<'_>, watcher: &mut W) -> Outcome {
        self.steps = goal.decisions;
        self.solver.backtrack(0);
        let leaves = self.leaf_literals();
        let most = self.limit(CASES);
        self.close_each(&leaves, most);
        self.close_all();
        let most = self.limit(CASES);
        self.refute_each(&leaves, most, watcher);
        self.sweep(MANY_CONFLICTS, SWEEP, watcher);
        goal.conflicts = self.steps;
        self.solver.search(goal, watcher)
    }

    /// All phases.
    fn run<W: Watcher>(&mut self, given: Given<'_>, watcher: &mut W) -> Outcome {
        self.solver.load(given);
        let variables = self.solver.circuit.variables();
        self.classes
            .make_room(variables, &mut self.solver.lacks_memory);
        let mut goal = Goal::new(&[], 0, self.steps);
        let outcome = self.begin(&mut goal, watcher);
        if outcome != Outcome::GaveUp || goal.decisions == 0 || self.solver.is_over() {
            return outcome;
        }
        self.go_on(&mut goal, watcher)
    }
}

/// A value for each variable: plain values of the inputs, and those of the gates that follow from them.
fn values_of(solver: &mut Solver, twins: &[Twin]) -> Vec<bool> {
    let mut simulation = plain_values(solver, twins);
    simulation.run(&solver.circuit);
    let mut values = Vec::new(solver.alloc);
    for variable in 1..solver.circuit.active.len() {
        let is_true = if variable <= solver.circuit.variables() {
            simulation.is_true(variable)
        } else {
            solver.value(code_for(variable)) == TRUE
        };
        add(&mut values, is_true, &mut solver.lacks_memory);
    }
    values
}

/// What a search found.
fn answer_of(solver: &mut Solver, given: Given<'_>, twins: &[Twin], outcome: Outcome) -> Answer {
    let alloc = solver.alloc;
    match outcome {
        Outcome::Excluded => {
            let lacks_memory = &mut solver.lacks_memory;
            Answer::Refuted(refutation_of(alloc, given, &solver.log, lacks_memory))
        }
        Outcome::Assigned => Answer::Satisfied(values_of(solver, twins)),
        Outcome::GaveUp if solver.log.is_full() => Answer::TooLong,
        Outcome::GaveUp => Answer::GaveUp,
    }
}

/// Looks for clauses that close the given ones or for values that satisfy them, with at most so many decisions, each on an
/// input.
///
/// The other work is bounded by that number too, by constants: values that are followed to show what is equal, and conflicts. With no
/// decision only unit clauses are followed. Of the values that satisfy, some are sought in which the words that are
/// given for it have the same value in both states. A long search is reported to the watcher.
pub fn solve<W: Watcher>(
    alloc: Global,
    given: Given<'_>,
    twins: &[Twin],
    steps: u64,
    watcher: &mut W,
) -> Result<Answer, AllocError> {
    let number = u32::try_from(given.len()).unwrap_or(u32::MAX);
    if given.has_empty() {
        return Ok(Answer::Refuted(Log::new(alloc, number)));
    }
    if given.variables > MOST_SEARCHED {
        return Ok(Answer::GaveUp);
    }
    let mut search = Search {
        solver: Solver::new(alloc, number),
        classes: Classes::new(alloc),
        steps,
    };
    let outcome = search.run(given, watcher);
    let answer = answer_of(&mut search.solver, given, twins, outcome);
    if search.solver.lacks_memory {
        return Err(AllocError);
    }
    Ok(answer)
}
