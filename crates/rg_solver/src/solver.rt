//! The state of the search: values, reasons, the trail, and watched clauses.

use crate::circuit::Circuit;
use crate::code::{Code, code_of, negated, variable_of};
use crate::given::Given;
use crate::log::Log;
use crate::order::Order;
use crate::table::{add, at, extend, fill, put};
use std::alloc::Global;

pub const NO_CLAUSE: u32 = u32::MAX;

pub const OPEN: u8 = 0;

pub const TRUE: u8 = 1;

pub const FALSE: u8 = 2;

/// A clause that watches a literal, with another of its literals: where that is true, the clause need not be looked at.
#[derive(Clone, Copy)]
pub struct Watch {
    /// The clause, with the bit `SHORT` where it has two literals, of which the blocker is the other one.
    pub clause: u32,
    pub blocker: Code,
}

pub const NO_WATCH: Watch = Watch {
    clause: NO_CLAUSE,
    blocker: 0,
};

pub const SHORT: u32 = 1 << 31;

/// How many words stand before a clause's literals: their count, the clause's number, and its note.
pub const HEAD: usize = 3;

/// Where a clause's literals stand.
#[derive(Clone, Copy)]
pub struct Span {
    pub start: usize,
    pub end: usize,
}

#[derive(Drop)]
pub struct Solver {
    pub alloc: Global,
    pub circuit: Circuit,
    /// Whether memory was refused. What is found from then on is worth nothing.
    pub lacks_memory: bool,
    /// Whether the watcher ended the search.
    pub is_ended: bool,
    /// By literal.
    pub values: Vec<u8>,
    /// By variable: the level of its value, the clause that gave it, and the number of its unit clause where it is fixed.
    pub levels: Vec<u32>,
    pub reasons: Vec<u32>,
    pub units: Vec<u32>,
    pub trail: Vec<Code>,
    pub level_starts: Vec<usize>,
    pub head: usize,
    pub watches: Vec<Vec<Watch>>,
    /// All clauses, each after its head. A clause is named by the place where its head stands.
    pub arena: Vec<u32>,
    /// The learned clauses of two literals and more.
    pub kept: Vec<u32>,
    pub log: Log,
    /// The variables that may be open.
    pub order: Order,
    /// The variables of a lemma's cone that may be open.
    pub near: Order,
    /// The variables on which a lemma rests, and by variable the last cone that had it.
    pub cone: Vec<usize>,
    pub cone_marks: Vec<u32>,
    pub cone_stamp: u32,
    /// The work that was done: values that were followed, and gates that were looked at.
    pub effort: u64,
    pub phases: Vec<bool>,
    pub seen: Vec<bool>,
    pub in_learned: Vec<bool>,
    pub touched: Vec<u32>,
    /// The clause that is learned or loaded.
    pub learned: Vec<Code>,
    pub stack: Vec<Code>,
    pub hints: Vec<u32>,
    /// The numbers of the clauses on which the learned one rests.
    pub used: Vec<u32>,
    pub open: usize,
    pub level_marks: Vec<u64>,
    pub stamp: u64,
    /// The conflicts of which something was learned, and those since the last restart.
    pub conflicts: u64,
    pub since_restart: u64,
    /// The means of the glue of few and of many conflicts, times 2 to the power 20.
    pub fast_glue: u64,
    pub slow_glue: u64,
    /// The conflicts at which clauses are dropped, how often that was done, and the root of that.
    pub next_reduction: u64,
    pub reductions: u64,
    pub root: u64,
}

impl Solver {
    /// A solver with no clauses yet, of which so many will be given.
    pub fn new(alloc: Global, given: u32) -> Self {
        Solver {
            alloc,
            circuit: Circuit::new(alloc),
            lacks_memory: false,
            is_ended: false,
            values: Vec::new(alloc),
            levels: Vec::new(alloc),
            reasons: Vec::new(alloc),
            units: Vec::new(alloc),
            trail: Vec::new(alloc),
            level_starts: Vec::new(alloc),
            head: 0,
            watches: Vec::new(alloc),
            arena: Vec::new(alloc),
            kept: Vec::new(alloc),
            log: Log::new(alloc, given),
            order: Order::new(alloc),
            near: Order::new(alloc),
            cone: Vec::new(alloc),
            cone_marks: Vec::new(alloc),
            cone_stamp: 1,
            effort: 0,
            phases: Vec::new(alloc),
            seen: Vec::new(alloc),
            in_learned: Vec::new(alloc),
            touched: Vec::new(alloc),
            learned: Vec::new(alloc),
            stack: Vec::new(alloc),
            hints: Vec::new(alloc),
            used: Vec::new(alloc),
            open: 0,
            level_marks: Vec::new(alloc),
            stamp: 0,
            conflicts: 0,
            since_restart: 0,
            fast_glue: 0,
            slow_glue: 0,
            next_reduction: 2000,
            reductions: 0,
            root: 1,
        }
    }

    /// Room for so many variables.
    fn make_room(&mut self, variables: usize) {
        let size = variables.saturating_add(1);
        let literals = size.saturating_mul(2);
        let lack = &mut self.lacks_memory;
        for _ in 0..literals {
            if self.watches.push(Vec::new(self.alloc)).is_err() {
                *lack = true;
            }
        }
        fill(&mut self.values, OPEN, literals, lack);
        fill(&mut self.levels, 0, size, lack);
        fill(&mut self.reasons, NO_CLAUSE, size, lack);
        fill(&mut self.units, 0, size, lack);
        self.order.make_room(size, lack);
        self.near.make_room(size, lack);
        fill(&mut self.cone_marks, 0, size, lack);
        fill(&mut self.phases, false, size, lack);
        fill(&mut self.seen, false, size, lack);
        fill(&mut self.in_learned, false, size, lack);
        fill(&mut self.level_marks, 0, size, lack);
    }

    /// Loads the given clauses that are needed, of which none is empty, enters the variables that are needed into the order, and follows
    /// units.
    pub fn load(&mut self, given: Given<'_>) {
        self.circuit.read(given, &mut self.lacks_memory);
        self.make_room(given.variables as usize);
        for index in 0..given.len() {
            if !self.is_over() && self.circuit.needs(index) {
                self.load_clause(given.clause(index), index);
            }
        }
        for variable in 1..self.circuit.active.len() {
            if self.circuit.is_active(variable) {
                self.order.insert(u32::try_from(variable).unwrap_or(0));
            }
        }
        self.settle();
    }

    /// Loads a given clause. Where it has one literal, that is fixed.
    fn load_clause(&mut self, literals: &[i32], index: usize) {
        self.learned.clear();
        for literal in literals {
            add(&mut self.learned, code_of(*literal), &mut self.lacks_memory);
        }
        let number = u32::try_from(index).unwrap_or(0).saturating_add(1);
        let clause = self.add_clause(number, 0);
        if literals.len() == 1 {
            let literal = at(&self.learned, 0, 0);
            match self.value(literal) {
                OPEN => self.enqueue(literal, clause),
                TRUE => {}
                _ => self.log_empty(clause),
            }
        }
    }

    /// Follows units at level 0; a conflict there refutes all.
    pub fn settle(&mut self) {
        if self.is_over() {
            return;
        }
        if let Some(conflict) = self.propagate() {
            self.log_empty(conflict);
        }
    }

    /// Whether nothing more is to be done.
    #[inline]
    pub fn is_over(&self) -> bool {
        self.log.is_refuted || self.lacks_memory || self.is_ended || self.log.is_full()
    }

    /// The value of a literal.
    #[inline]
    pub fn value(&self, literal: Code) -> u8 {
        at(&self.values, literal as usize, OPEN)
    }

    /// The level of a literal's value.
    #[inline]
    pub fn level_of(&self, literal: Code) -> usize {
        at(&self.levels, variable_of(literal), 0) as usize
    }

    /// The level that was begun last, from 1 on; 0 before the first.
    #[inline]
    pub fn level(&self) -> usize {
        self.level_starts.len()
    }

    /// Where a clause's literals stand.
    #[inline]
    pub fn span(&self, clause: u32) -> Span {
        let count = at(&self.arena, clause as usize, 0);
        let start = (clause as usize).saturating_add(HEAD);
        let end = start.saturating_add(count as usize);
        Span { start, end }
    }

    /// A clause's number.
    #[inline]
    pub fn number(&self, clause: u32) -> u32 {
        at(&self.arena, (clause as usize).saturating_add(1), 0)
    }

    /// A clause's note: its glue, which is 0 for a clause that stays, and in the upper half how lately it was used.
    #[inline]
    pub fn note(&self, clause: u32) -> u32 {
        at(&self.arena, (clause as usize).saturating_add(2), 0)
    }

    /// Gives a clause another note.
    #[inline]
    pub fn set_note(&mut self, clause: u32, note: u32) {
        put(&mut self.arena, (clause as usize).saturating_add(2), note);
    }

    /// Adds the clause at hand under its number, of which the first two literals are watched.
    pub fn add_clause(&mut self, number: u32, note: u32) -> u32 {
        let clause = u32::try_from(self.arena.len()).unwrap_or(NO_CLAUSE);
        let count = u32::try_from(self.learned.len()).unwrap_or(0);
        extend(
            &mut self.arena,
            &[count, number, note],
            &mut self.lacks_memory,
        );
        extend(&mut self.arena, &self.learned, &mut self.lacks_memory);
        if count >= 2 {
            let tag = if count == 2 { clause | SHORT } else { clause };
            let first = at(&self.learned, 0, 0);
            let second = at(&self.learned, 1, 0);
            self.watch(first, tag, second);
            self.watch(second, tag, first);
            if note > 0 {
                add(&mut self.kept, clause, &mut self.lacks_memory);
            }
        }
        clause
    }

    /// Has a clause watch a literal.
    pub fn watch(&mut self, literal: Code, clause: u32, blocker: Code) {
        if let Some(list) = self.watches.get_mut(literal as usize) {
            add(list, Watch { clause, blocker }, &mut self.lacks_memory);
        }
    }

    /// Makes a literal true. At level 0 its unit clause is logged.
    pub fn enqueue(&mut self, literal: Code, reason: u32) {
        let variable = variable_of(literal);
        let level = u32::try_from(self.level_starts.len()).unwrap_or(u32::MAX);
        put(&mut self.values, literal as usize, TRUE);
        put(&mut self.values, negated(literal) as usize, FALSE);
        put(&mut self.levels, variable, level);
        put(&mut self.reasons, variable, reason);
        add(&mut self.trail, literal, &mut self.lacks_memory);
        if level == 0 {
            self.log_unit(literal, reason);
        }
    }

    /// Makes an open literal true without a reason.
    pub fn assume(&mut self, literal: Code) {
        if self.value(literal) == OPEN {
            self.enqueue(literal, NO_CLAUSE);
        }
    }

    /// Begins a level, and makes a literal that is open true without a reason.
    pub fn decide(&mut self, literal: Code) {
        let start = self.trail.len();
        add(&mut self.level_starts, start, &mut self.lacks_memory);
        self.assume(literal);
    }

    /// Logs the unit clause of a fixed literal, by the unit clauses of its reason's other literals, unless that is one itself.
    fn log_unit(&mut self, literal: Code, reason: u32) {
        let mut number = self.number(reason);
        let Span { start, end } = self.span(reason);
        self.hints.clear();
        for place in start..end {
            let other = at(&self.arena, place, 0);
            if other != literal {
                let unit = at(&self.units, variable_of(other), 0);
                add(&mut self.hints, unit, &mut self.lacks_memory);
            }
        }
        if !self.hints.is_empty() {
            add(&mut self.hints, number, &mut self.lacks_memory);
            let lacks_memory = &mut self.lacks_memory;
            number = self.log.add(&[literal], &self.hints, lacks_memory);
        }
        put(&mut self.units, variable_of(literal), number);
    }

    /// Logs the empty clause, from a clause whose literals are all fixed false.
    fn log_empty(&mut self, conflict: u32) {
        self.learned.clear();
        let _number = self.log_learned(conflict);
    }

    /// Takes back all values above a level.
    pub fn backtrack(&mut self, level: usize) {
        let Some(start) = self.level_starts.get(level).copied() else {
            return;
        };
        for place in start..self.trail.len() {
            let literal = at(&self.trail, place, 0);
            let variable = variable_of(literal);
            put(&mut self.values, literal as usize, OPEN);
            put(&mut self.values, negated(literal) as usize, OPEN);
            put(&mut self.phases, variable, literal & 1 == 0);
            self.order.insert(literal >> 1);
            if at(&self.cone_marks, variable, 0) == self.cone_stamp {
                self.near.insert(literal >> 1);
            }
        }
        self.trail.truncate(start);
        self.level_starts.truncate(level);
        self.head = start;
    }
}
