//! What is proved of adders: that equally many of their carries are true, and that a sum has a bit.
//!
//! A carry in is given by three literals: it is what most of them are. So a sum whose carries no gate has has them too: where two bits
//! differ, the carry out is the carry in, and that is the negation of the sum's bit.

use crate::adders::{Adder, FALSITY, TRUTH};
use rg_solver::circuit::Operands;
use rg_solver::code::{Code, negated};
use rg_solver::search::Outcome;
use rg_solver::solver::Solver;
use rg_solver::table::{add, at, put};
use rg_watch::Watcher;
use std::alloc::Global;

/// The most conflicts of each clause.
const CONFLICTS: u64 = 100;

/// What most of three literals are.
#[derive(Clone, Copy, PartialEq, Eq)]
pub struct Carry {
    pub first: Code,
    pub second: Code,
    pub third: Code,
}

/// The carry in of the lowest bits.
pub const NO_CARRY: Carry = Carry {
    first: FALSITY,
    second: FALSITY,
    third: FALSITY,
};

/// A literal as a carry.
pub fn carry_of(literal: Code) -> Carry {
    Carry {
        first: literal,
        second: literal,
        third: literal,
    }
}

/// A carry that is the same: where two of the three are the same or opposite, one literal three times.
pub fn simplified(carry: Carry) -> Carry {
    let Carry {
        first,
        second,
        third,
    } = carry;
    if first == second || first == third || second == negated(third) {
        carry_of(first)
    } else if second == third || first == negated(third) {
        carry_of(second)
    } else if first == negated(second) {
        carry_of(third)
    } else {
        carry
    }
}

/// The carry with the other sign.
pub fn opposite(carry: Carry) -> Carry {
    Carry {
        first: negated(carry.first),
        second: negated(carry.second),
        third: negated(carry.third),
    }
}

/// The pair of this number, from 0 to 2, whose two literals make a simplified carry true; none where another pair is enough.
fn pair_of(carry: Carry, number: usize) -> Option<Operands> {
    let Carry {
        first: a,
        second: b,
        third: c,
    } = carry;
    let (first, second, rest) = match number {
        0 => (a, b, c),
        1 => (a, c, b),
        _ => (b, c, a),
    };
    let is_needless = if a == b { number > 0 } else { rest == TRUTH };
    if first == FALSITY || second == FALSITY || is_needless {
        None
    } else {
        Some(Operands { first, second })
    }
}

/// Three carries.
type Three = [Carry; 3];

/// Proves clauses over some variables.
#[derive(Drop)]
pub struct Prover {
    /// The most conflicts of each clause.
    limit: u64,
    /// The literals that are assumed to be true together.
    assumed: Vec<Code>,
    /// The literals that are decided on.
    pub window: Vec<Code>,
}

impl Prover {
    /// Nothing is assumed yet. Each clause may take so many conflicts, but not too many.
    pub fn new(alloc: Global, steps: u64) -> Self {
        Prover {
            limit: steps.min(CONFLICTS),
            assumed: Vec::new(alloc),
            window: Vec::new(alloc),
        }
    }

    /// Assumes a literal too. Whether it may be true with the others.
    fn assume(&mut self, literal: Code, lacks_memory: &mut bool) -> bool {
        for place in 0..self.assumed.len() {
            let other = at(&self.assumed, place, 0);
            if other == literal {
                return true;
            }
            if other == negated(literal) {
                return false;
            }
        }
        if literal != TRUTH {
            add(&mut self.assumed, literal, lacks_memory);
        }
        literal != FALSITY
    }

    /// Assumes a pair of a carry too. Whether it may be true with the others.
    fn assume_pair(&mut self, pair: Operands, lacks_memory: &mut bool) -> bool {
        self.assume(pair.first, lacks_memory) && self.assume(pair.second, lacks_memory)
    }

    /// Proves that what is assumed isn't so.
    fn refute<W: Watcher>(&self, solver: &mut Solver, watcher: &mut W) -> bool {
        let outcome = solver.exclude_within(&self.assumed, &self.window, self.limit, watcher);
        solver.backtrack(0);
        outcome == Outcome::Excluded
    }

    /// Assumes the pair of this number of each of three carries, of 27. Whether there is one of each, and they may be true together.
    fn assume_pairs(&mut self, carries: Three, number: usize, lacks_memory: &mut bool) -> bool {
        self.assumed.clear();
        let numbers = [number % 3, number / 3 % 3, number / 9];
        for place in 0..3usize {
            let carry = at(&carries, place, NO_CARRY);
            let is_assumed = match pair_of(carry, at(&numbers, place, 0)) {
                Some(pair) => self.assume_pair(pair, lacks_memory),
                None => false,
            };
            if !is_assumed {
                return false;
            }
        }
        true
    }

    /// Proves that three carries aren't true together.
    fn refute_three<W: Watcher>(
        &mut self,
        solver: &mut Solver,
        carries: Three,
        watcher: &mut W,
    ) -> bool {
        for number in 0..27usize {
            if self.assume_pairs(carries, number, &mut solver.lacks_memory)
                && !self.refute(solver, watcher)
            {
                return false;
            }
        }
        true
    }

    /// Proves that of four carries two are true: not three, and not the negations of three.
    pub fn prove_two<W: Watcher>(
        &mut self,
        solver: &mut Solver,
        carries: [Carry; 4],
        watcher: &mut W,
    ) -> bool {
        for left in 0..4usize {
            let mut three = [NO_CARRY; 3];
            let mut negations = [NO_CARRY; 3];
            for place in 0..3usize {
                let own = if place < left {
                    place
                } else {
                    place.saturating_add(1)
                };
                let carry = at(&carries, own, NO_CARRY);
                put(&mut three, place, carry);
                put(&mut negations, place, opposite(carry));
            }
            if !self.refute_three(solver, three, watcher)
                || !self.refute_three(solver, negations, watcher)
            {
                return false;
            }
        }
        true
    }

    /// Proves that the exclusive or of a total, of two bits and of a carry is false.
    pub fn prove_even<W: Watcher>(
        &mut self,
        solver: &mut Solver,
        adder: Adder,
        watcher: &mut W,
    ) -> bool {
        let others = opposite(adder.carry);
        for signs in 0u32..4 {
            let first = adder.first ^ (signs & 1);
            let second = adder.second ^ (signs >> 1);
            // (with it an even number of the three is true)
            let total = negated(adder.total) ^ (signs & 1) ^ (signs >> 1);
            let odd = negated(total);
            if !self.refute_bits(solver, [first, second, total], adder.carry, watcher)
                || !self.refute_bits(solver, [first, second, odd], others, watcher)
            {
                return false;
            }
        }
        true
    }

    /// Assumes three bits, and the pair of this number of a carry. Whether there is one, and they may be true together.
    fn assume_bits(
        &mut self,
        bits: [Code; 3],
        carry: Carry,
        number: usize,
        lacks_memory: &mut bool,
    ) -> bool {
        self.assumed.clear();
        for literal in &bits {
            if !self.assume(*literal, lacks_memory) {
                return false;
            }
        }
        match pair_of(carry, number) {
            Some(pair) => self.assume_pair(pair, lacks_memory),
            None => false,
        }
    }

    /// Proves that three bits aren't true together with a carry.
    fn refute_bits<W: Watcher>(
        &mut self,
        solver: &mut Solver,
        bits: [Code; 3],
        carry: Carry,
        watcher: &mut W,
    ) -> bool {
        for number in 0..3usize {
            if self.assume_bits(bits, carry, number, &mut solver.lacks_memory)
                && !self.refute(solver, watcher)
            {
                return false;
            }
        }
        true
    }

    /// Proves that two literals are equal.
    pub fn prove_equal<W: Watcher>(
        &mut self,
        solver: &mut Solver,
        pair: Operands,
        watcher: &mut W,
    ) -> bool {
        for sign in &[0, 1] {
            self.assumed.clear();
            let first = pair.first ^ *sign;
            let second = negated(pair.second) ^ *sign;
            let lacks_memory = &mut solver.lacks_memory;
            let may_be = self.assume(first, lacks_memory) && self.assume(second, lacks_memory);
            if may_be && !self.refute(solver, watcher) {
                return false;
            }
        }
        true
    }
}
