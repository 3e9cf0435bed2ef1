//! The sweep over the gates: gates that showed the same values are proved equal, or opposite, each pair by two lemmas. Values are those
//! under what is known: what is equal already has one value.
//!
//! After A. Kuehlmann and F. Krohm ("Equivalence checking using cuts and heaps", 1997) and A. Mishchenko, S. Chatterjee,
//! R. Jiang and R. Brayton ("FRAIGs: a unifying representation for logic synthesis and verification", 2005).

use crate::answer::Search;
use crate::leaders::Leaders;
use crate::simulation::Simulation;
use crate::sums::Sums;
use rg_solver::circuit::Operands;
use rg_solver::code::{Code, code_for, negated, variable_of};
use rg_solver::search::Outcome;
use rg_solver::solver::{OPEN, Solver};
use rg_solver::table::{add, at, fill, put};
use rg_watch::Watcher;

/// How often 64 random inputs are looked at.
const ROUNDS: usize = 32;

/// How many earlier gates a gate is compared with.
const TRIES: usize = 16;

/// The most conflicts in each direction of a pair where there may be sums, while few pairs were given up, and how many are few.
const SOME_CONFLICTS: u64 = 100;

const FEW_MISSES: u64 = 10;

/// The most conflicts of each clause of a sum, and in each direction of a pair that has one.
const SUM_CONFLICTS: u64 = 300;

const SUMMED_CONFLICTS: u64 = 1_500;

/// How much more work is allowed where there may be sums, and then for that of each pair that is proved.
const SUMS_WORK: u64 = 1_000_000;

const REWARD: u64 = 4;

/// Where a sweep stands, and how much it may do.
#[derive(Drop)]
pub struct Sweep {
    /// The most conflicts in each direction of a pair.
    conflicts: u64,
    /// The work of the solver after which the sweep ends: values that were followed, and gates that were looked at. What it proves may
    /// allow more, up to `most`.
    work: u64,
    most: u64,
    simulation: Simulation,
    leaders: Leaders,
    sums: Sums,
    /// By variable: whether it leads none, since it is equal to an earlier one, or may be.
    follows: Vec<bool>,
    /// How many pairs were given up.
    misses: u64,
}

impl Sweep {
    /// A sweep that has looked at random inputs, with at most so many conflicts, and so much work or, with more allowed, at most so much.
    pub fn new(search: &mut Search, conflicts: u64, work: u64, most: u64) -> Self {
        let sums = Sums::new(search);
        let alloc = search.solver.alloc;
        let circuit = &search.solver.circuit;
        let lacks_memory = &mut search.solver.lacks_memory;
        let size = circuit.variables().saturating_add(1);
        let mut sweep = Sweep {
            conflicts,
            work,
            most,
            simulation: Simulation::new(alloc, circuit, lacks_memory),
            leaders: Leaders::new(alloc),
            sums,
            follows: Vec::new(alloc),
            misses: 0,
        };
        sweep.leaders.make_room(size, lacks_memory);
        fill(&mut sweep.follows, false, size, lacks_memory);
        sweep.tie(search);
        sweep.look(&mut search.solver);
        sweep
    }

    /// Ties variables to what is equal to them, or to their values.
    fn tie(&mut self, search: &mut Search) {
        for variable in 1..search.solver.circuit.variables().saturating_add(1) {
            let code = code_for(variable);
            let root = search.reduced(code);
            if root != code {
                let tie = if root < 2 { negated(root) } else { root };
                put(&mut self.simulation.ties, variable, tie);
            }
        }
    }

    /// Looks at random inputs.
    fn look(&mut self, solver: &mut Solver) {
        for round in 0..ROUNDS {
            self.simulation.look(&solver.circuit, round);
            if round > 0 {
                self.sums
                    .sample(&self.simulation.words, &mut solver.lacks_memory);
            }
        }
        self.lead(solver.circuit.inputs.saturating_add(1));
    }

    /// Enters the leaders before this variable anew, by their hashes.
    fn lead(&mut self, end: usize) {
        self.leaders.clear();
        for variable in 0..end {
            if !at(&self.follows, variable, false) {
                let hash = at(&self.simulation.hashes, variable, 0);
                let _earlier = self.leaders.leader_or(hash, variable);
            }
        }
    }

    /// Proves gates equal to earlier ones, in order, until the solver is refuted or much work is done.
    pub fn run<W: Watcher>(&mut self, search: &mut Search, watcher: &mut W) {
        if self.sums.are_likely {
            self.allow(SUMS_WORK);
        }
        let first = search.solver.circuit.inputs.saturating_add(1);
        for variable in first..search.solver.circuit.variables().saturating_add(1) {
            if search.solver.is_over() || search.solver.effort > self.work {
                break;
            }
            if search.solver.circuit.is_active(variable) {
                let follows = self.follows(search, variable, watcher);
                put(&mut self.follows, variable, follows);
                search.solver.backtrack(0);
            }
        }
    }

    /// Whether a gate follows an earlier one, or may do so. A gate that doesn't leads from now on.
    fn follows<W: Watcher>(
        &mut self,
        search: &mut Search,
        variable: usize,
        watcher: &mut W,
    ) -> bool {
        let first = self.simulation.literal(variable);
        if search.solver.value(first) != OPEN || search.classes.root(first) != first {
            return true;
        }
        for _ in 0..TRIES {
            let hash = at(&self.simulation.hashes, variable, 0);
            let Some(leader) = self.leaders.leader_or(hash, variable) else {
                return false;
            };
            let second = self.simulation.literal(leader);
            if second >= 2 && !search.solver.circuit.is_active(leader) {
                return true;
            }
            let outcome = self.decide(search, Operands { first, second }, watcher);
            if outcome == Outcome::Excluded && second >= 2 {
                search.classes.join(first, second);
            }
            if outcome != Outcome::Assigned {
                return true;
            }
            self.look_at_values(&mut search.solver, variable);
        }
        true
    }

    /// Tries to prove a pair equal, after what may be known of the sum of their carries.
    fn decide<W: Watcher>(
        &mut self,
        search: &mut Search,
        pair: Operands,
        watcher: &mut W,
    ) -> Outcome {
        let begun = search.solver.effort;
        let limit = search.steps.min(SUM_CONFLICTS);
        let most = if self.sums.prove(search, pair, limit, watcher) {
            SUMMED_CONFLICTS
        } else if self.sums.are_likely && self.misses < FEW_MISSES {
            SOME_CONFLICTS
        } else {
            0
        };
        let limit = self.conflicts.max(most).min(search.steps);
        let outcome = prove_equal(&mut search.solver, pair, limit, watcher);
        match outcome {
            Outcome::Excluded if self.sums.are_likely => {
                let work = search.solver.effort.saturating_sub(begun);
                self.allow(work.saturating_mul(REWARD));
            }
            Outcome::GaveUp => self.misses = self.misses.saturating_add(1),
            _ => {}
        }
        outcome
    }

    /// Allows so much more work.
    fn allow(&mut self, work: u64) {
        self.work = self.work.saturating_add(work).min(self.most);
    }

    /// Looks at the inputs under which the solver saw two gates differ, so that other pairs are distinguished.
    fn look_at_values(&mut self, solver: &mut Solver, variable: usize) {
        let mut values = Vec::new(solver.alloc);
        for _ in 0..solver.circuit.inputs.saturating_add(1) {
            let value = self.simulation.draw() & 1 == 1;
            add(&mut values, value, &mut solver.lacks_memory);
        }
        for literal in &solver.trail {
            put(&mut values, variable_of(*literal), *literal & 1 == 0);
        }
        solver.backtrack(0);
        self.simulation.look_near(&solver.circuit, &values);
        self.lead(variable);
        let work = solver.circuit.variables() as u64;
        solver.effort = solver.effort.saturating_add(work);
    }
}

/// Proves that two literals are equal, with at most so many conflicts in each direction. The code 0 is false, and 1 true.
fn prove_equal<W: Watcher>(
    solver: &mut Solver,
    pair: Operands,
    limit: u64,
    watcher: &mut W,
) -> Outcome {
    let Operands { first, second } = pair;
    if second < 2 {
        return solver.exclude(&[first ^ second], limit, watcher);
    }
    match solver.exclude(&[first, negated(second)], limit, watcher) {
        Outcome::Excluded => solver.exclude(&[negated(first), second], limit, watcher),
        other => other,
    }
}
