//! Sums of which one is another one and a word more: `(c + v) + b` is `c + (v + b)`, also where no gates have the second form. Then that it
//! is the sum of these two words is proved bit by bit, from the lowest on, and so it is used for the sums above.

use crate::adders::{Adder, Adders, FALSITY, NO_ADDER, NO_OUT};
use crate::answer::Search;
use crate::lemmas::{Carry, NO_CARRY, Prover, opposite, simplified};
use crate::links::{Links, NOBODY};
use rg_solver::circuit::Operands;
use rg_solver::code::{Code, negated, variable_of};
use rg_solver::table::{add, at, put};
use rg_watch::Watcher;
use std::mem;

/// How often all adders are looked at.
const ROUNDS: usize = 3;

/// The most adders, found and derived.
const MOST_ADDERS: usize = 100_000;

/// The most bits of a word.
const MOST_BITS: usize = 256;

/// The most adders of a list that are looked at.
const MOST_LISTED: usize = 64;

/// Three adders at one place: the total of the second is added by the first, and the third adds the rest.
#[derive(Clone, Copy)]
struct Step {
    outer: usize,
    inner: usize,
    other: usize,
    /// The adder that is derived: the same total of other bits.
    derived: Adder,
    /// An adder with two of its bits, if any, and the third bits of both.
    known: usize,
    pair: Operands,
}

const NO_PAIR: Operands = Operands {
    first: FALSITY,
    second: FALSITY,
};

const NO_STEP: Step = Step {
    outer: NOBODY,
    inner: NOBODY,
    other: NOBODY,
    derived: NO_ADDER,
    known: NOBODY,
    pair: NO_PAIR,
};

/// By which of their bits adders are looked up.
#[derive(Clone, Copy)]
enum By {
    First,
    Total,
}

#[derive(Drop)]
pub struct Relations {
    adders: Vec<Adder>,
    /// How many of them gates have.
    found: usize,
    /// By derived adder, the next one above.
    aboves: Vec<usize>,
    /// The adders of lowest bits by what they add, and all by the carry in.
    totals: Links,
    firsts: Links,
    carries: Links,
    steps: Vec<Step>,
    /// The steps with what is known.
    known: Vec<Step>,
    prover: Prover,
    most: u64,
}

impl Relations {
    /// The adders of a circuit. Until the solver has done so much work they are looked at.
    pub fn new(search: &mut Search, most: u64) -> Self {
        let alloc = search.solver.alloc;
        let adders = Adders::new(search);
        let found = adders.list.len();
        Relations {
            adders: adders.list,
            found,
            aboves: Vec::new(alloc),
            totals: Links::new(alloc),
            firsts: Links::new(alloc),
            carries: Links::new(alloc),
            steps: Vec::new(alloc),
            known: Vec::new(alloc),
            prover: Prover::new(alloc, search.steps),
            most,
        }
    }

    /// Derives what it can.
    pub fn run<W: Watcher>(&mut self, search: &mut Search, watcher: &mut W) {
        for _ in 0..ROUNDS {
            self.enter_all(search);
            let mut has_found = false;
            for index in 0..MOST_ADDERS {
                if index >= self.adders.len() || self.is_over(search) {
                    break;
                }
                if self.look_at(search, index, watcher) {
                    has_found = true;
                }
            }
            if !has_found {
                return;
            }
        }
    }

    fn is_over(&self, search: &Search) -> bool {
        search.solver.is_over() || search.solver.effort > self.most
    }

    /// Enters all adders under what is known to be equal.
    fn enter_all(&mut self, search: &mut Search) {
        let size = search.solver.circuit.variables().saturating_add(1);
        let literals = size.saturating_mul(2);
        let lacks_memory = &mut search.solver.lacks_memory;
        self.totals.clear(literals, lacks_memory);
        self.firsts.clear(literals, lacks_memory);
        self.carries.clear(literals, lacks_memory);
        let work = self.adders.len() as u64;
        search.solver.effort = search.solver.effort.saturating_add(work);
        for index in 0..self.adders.len() {
            let adder = at(&self.adders, index, NO_ADDER);
            let reduced = reduced(search, adder);
            put(&mut self.adders, index, reduced);
            self.enter(search, index, reduced);
        }
    }

    /// Enters an adder by what it adds; one of lowest bits by its total, and one of gates with a carry in by that.
    fn enter(&mut self, search: &mut Search, index: usize, adder: Adder) {
        let lacks_memory = &mut search.solver.lacks_memory;
        self.firsts.enter(adder.first, index, lacks_memory);
        if is_lowest(adder) {
            self.totals.enter(adder.total, index, lacks_memory);
        } else if index < self.found {
            self.carries.enter(adder.carry.first, index, lacks_memory);
        }
    }

    fn adder(&self, index: usize) -> Adder {
        at(&self.adders, index, NO_ADDER)
    }

    /// The first adder above another one, or `NOBODY`.
    fn above(&self, index: usize) -> usize {
        match index.checked_sub(self.found) {
            Some(derived) => at(&self.aboves, derived, NOBODY),
            None => {
                let out = self.adder(index).out;
                if out < 2 {
                    NOBODY
                } else {
                    self.carries.last(out)
                }
            }
        }
    }

    /// The next adder above the same one.
    fn next_above(&self, index: usize) -> usize {
        if index < self.found {
            self.carries.before(index)
        } else {
            NOBODY
        }
    }

    /// Looks for what follows of an adder and one of lowest bits, of which its first or its second bit is the total. Whether anything did.
    fn look_at<W: Watcher>(&mut self, search: &mut Search, index: usize, watcher: &mut W) -> bool {
        let adder = self.adder(index);
        let first = self.look_into(search, index, adder.first, adder.second, watcher);
        let second = self.look_into(search, index, adder.second, adder.first, watcher);
        first || second
    }

    /// Looks at the adders of lowest bits of which the first bit is the total.
    fn look_into<W: Watcher>(
        &mut self,
        search: &mut Search,
        outer: usize,
        first: Code,
        second: Code,
        watcher: &mut W,
    ) -> bool {
        let mut has_found = false;
        let mut inner = self.totals.last(first);
        for _ in 0..MOST_LISTED {
            if inner == NOBODY {
                break;
            }
            let inside = self.adder(inner);
            for bit in &[inside.first, inside.second] {
                let other = self.beside(outer, *bit, second);
                if other != NOBODY && self.climb(search, outer, inner, other) {
                    has_found = self.prove(search, watcher) || has_found;
                }
            }
            inner = self.totals.before(inner);
        }
        has_found
    }

    /// An adder of these two bits with the same carry in as another one, or `NOBODY`.
    fn beside(&self, outer: usize, first: Code, second: Code) -> usize {
        let carry = self.adder(outer).carry;
        match self.adder_of(first, second, carry) {
            NOBODY => self.adder_of(second, first, carry),
            index => index,
        }
    }

    fn adder_of(&self, first: Code, second: Code, carry: Carry) -> usize {
        let mut index = self.firsts.last(first);
        for _ in 0..MOST_LISTED {
            if index == NOBODY {
                break;
            }
            let adder = self.adder(index);
            if adder.second == second && adder.carry == carry {
                break;
            }
            index = self.firsts.before(index);
        }
        index
    }

    /// What follows above of a step, where it does.
    fn step_above(&self, below: Step) -> Option<Step> {
        let mut outer = self.above(below.outer);
        for _ in 0..MOST_LISTED {
            if outer == NOBODY {
                break;
            }
            let step = self.step_of(outer, below);
            if step.is_some() {
                return step;
            }
            outer = self.next_above(outer);
        }
        None
    }

    fn step_of(&self, outer: usize, below: Step) -> Option<Step> {
        let mut inner = self.above(below.inner);
        for _ in 0..MOST_LISTED {
            if inner == NOBODY {
                break;
            }
            let step = self.step_with(outer, inner, below);
            if step.is_some() {
                return step;
            }
            inner = self.next_above(inner);
        }
        None
    }

    fn step_with(&self, outer: usize, inner: usize, below: Step) -> Option<Step> {
        let mut other = self.above(below.other);
        for _ in 0..MOST_LISTED {
            if other == NOBODY {
                break;
            }
            let step = self.step(outer, inner, other);
            if step.is_some() {
                return step;
            }
            other = self.next_above(other);
        }
        None
    }

    /// What follows of three adders, where they fit.
    fn step(&self, outer: usize, inner: usize, other: usize) -> Option<Step> {
        let Adder {
            total,
            first,
            second,
            carry: _,
            out,
        } = self.adder(outer);
        let inside = self.adder(inner);
        let (taken, rest) = if variable_of(inside.total) == variable_of(first) {
            (first, second)
        } else {
            (second, first)
        };
        let inside = totalling(inside, taken)?;
        let aside = self.adder(other);
        let (kept, aside) = match adding(aside, inside.second, rest) {
            Some(aside) => (inside.first, aside),
            None => (inside.second, adding(aside, inside.first, rest)?),
        };
        let derived = Adder {
            total,
            first: kept,
            second: aside.total,
            carry: NO_CARRY,
            out,
        };
        Some(Step {
            outer,
            inner,
            other,
            derived,
            known: NOBODY,
            pair: NO_PAIR,
        })
    }

    /// Collects the steps from the lowest bits up. Whether they say anything new.
    fn climb(&mut self, search: &mut Search, outer: usize, inner: usize, other: usize) -> bool {
        self.steps.clear();
        let mut next = self.step(outer, inner, other);
        for _ in 0..MOST_BITS {
            let Some(step) = next else {
                break;
            };
            add(&mut self.steps, step, &mut search.solver.lacks_memory);
            next = self.step_above(step);
        }
        let lowest = at(&self.steps, 0, NO_STEP).derived;
        let Adder {
            total,
            first,
            second,
            ..
        } = lowest;
        self.steps.len() > 1
            && first != FALSITY
            && second != FALSITY
            && first.max(second) > 1
            && self.are_new(search, By::First, first)
            && self.are_new(search, By::First, second)
            && self.are_new(search, By::Total, total)
    }

    /// Whether these adders of lowest bits and those above don't say what the steps do. Where they say the same but for one bit, it is
    /// noted.
    fn are_new(&mut self, search: &mut Search, links: By, literal: Code) -> bool {
        let mut index = self.links(links).last(literal);
        for _ in 0..MOST_LISTED {
            if index == NOBODY {
                break;
            }
            if self.adder(index).carry == NO_CARRY && self.follow(search, index) {
                return false;
            }
            index = self.links(links).before(index);
        }
        true
    }

    fn links(&self, by: By) -> &Links {
        match by {
            By::First => &self.firsts,
            By::Total => &self.totals,
        }
    }

    /// Follows the adders from this one on. Whether they say what the steps do; where they say the same but for one bit, it is noted.
    fn follow(&mut self, search: &mut Search, lowest: usize) -> bool {
        self.known.clear();
        let mut index = lowest;
        let mut is_same = true;
        for place in 0..self.steps.len() {
            let step = at(&self.steps, place, NO_STEP);
            let Some((known, pair)) = self.known_from(index, step.derived) else {
                return false;
            };
            is_same = is_same && pair.first == pair.second;
            let noted = Step {
                known,
                pair,
                ..step
            };
            add(&mut self.known, noted, &mut search.solver.lacks_memory);
            index = self.above(known);
        }
        mem::swap(&mut self.known, &mut self.steps);
        is_same
    }

    /// The first of the adders from this one on that has two bits of a derived one, and the third bits of both.
    fn known_from(&self, from: usize, derived: Adder) -> Option<(usize, Operands)> {
        let mut index = from;
        for _ in 0..MOST_LISTED {
            if index == NOBODY {
                break;
            }
            if let Some(pair) = thirds(self.adder(index), derived) {
                return Some((index, pair));
            }
            index = self.next_above(index);
        }
        None
    }

    /// Proves the steps, from the lowest one on. Whether the first one is proved.
    fn prove<W: Watcher>(&mut self, search: &mut Search, watcher: &mut W) -> bool {
        let mut below = NO_STEP;
        let mut last = NOBODY;
        for place in 0..self.steps.len() {
            let step = at(&self.steps, place, NO_STEP);
            self.look_near(search, step, below);
            let carry = self.carry_of(step, below);
            let is_proved = (place == 0 || self.prove_carries(search, step, carry, watcher))
                && self.prove_step(search, step, carry, watcher);
            if !is_proved || self.is_over(search) {
                return place > 0;
            }
            last = self.derive(search, step, carry, last);
            below = step;
        }
        true
    }

    /// The carry in of what is derived.
    fn carry_of(&self, step: Step, below: Step) -> Carry {
        if step.known != NOBODY {
            return self.adder(step.known).carry;
        }
        if below.outer == NOBODY {
            return NO_CARRY;
        }
        let Adder {
            total,
            first,
            second,
            ..
        } = below.derived;
        let third = negated(total);
        simplified(Carry {
            first,
            second,
            third,
        })
    }

    /// Proves that as many carries of the one sum are true as of the other.
    fn prove_carries<W: Watcher>(
        &mut self,
        search: &mut Search,
        step: Step,
        carry: Carry,
        watcher: &mut W,
    ) -> bool {
        let outer = self.adder(step.outer).carry;
        let inner = self.adder(step.inner).carry;
        let other = opposite(self.adder(step.other).carry);
        let carries = [outer, inner, other, opposite(carry)];
        self.prover.prove_two(&mut search.solver, carries, watcher)
    }

    /// Proves what is derived, or that the two bits are equal in which it differs from what is known.
    fn prove_step<W: Watcher>(
        &mut self,
        search: &mut Search,
        step: Step,
        carry: Carry,
        watcher: &mut W,
    ) -> bool {
        let solver = &mut search.solver;
        if step.known == NOBODY {
            let derived = Adder {
                carry,
                ..step.derived
            };
            return self.prover.prove_even(solver, derived, watcher);
        }
        let Operands { first, second } = step.pair;
        if first == second {
            return true;
        }
        let is_proved = self.prover.prove_equal(solver, step.pair, watcher);
        if is_proved && first >= 2 && second >= 2 {
            search.classes.join(first, second);
        }
        is_proved
    }

    /// Enters what is derived, above what was derived last.
    fn derive(&mut self, search: &mut Search, step: Step, carry: Carry, last: usize) -> usize {
        if step.known != NOBODY {
            return NOBODY;
        }
        let index = self.adders.len();
        let derived = Adder {
            carry,
            ..step.derived
        };
        let lacks_memory = &mut search.solver.lacks_memory;
        add(&mut self.adders, derived, lacks_memory);
        add(&mut self.aboves, NOBODY, lacks_memory);
        if last == NOBODY {
            self.enter(search, index, derived);
        } else {
            put(&mut self.aboves, last.saturating_sub(self.found), index);
        }
        index
    }

    /// Collects the literals on which a step rests.
    fn look_near(&mut self, search: &mut Search, step: Step, below: Step) {
        self.prover.window.clear();
        let lacks_memory = &mut search.solver.lacks_memory;
        for near in &[step, below] {
            for index in &[near.outer, near.inner, near.other, near.known] {
                if *index == NOBODY {
                    continue;
                }
                let adder = at(&self.adders, *index, NO_ADDER);
                let Carry {
                    first,
                    second,
                    third,
                } = adder.carry;
                for literal in &[adder.total, adder.first, adder.second, first, second, third] {
                    add(&mut self.prover.window, *literal, lacks_memory);
                }
            }
        }
    }
}

/// An adder with this total, where it has it. At the last place of a word, where no carry counts, the signs of the total and of a bit may
/// be turned.
fn totalling(adder: Adder, total: Code) -> Option<Adder> {
    let turned = adder.total ^ total;
    if turned > 1 || turned == 1 && adder.out != NO_OUT {
        return None;
    }
    Some(Adder {
        total,
        first: adder.first ^ turned,
        ..adder
    })
}

/// An adder that adds these two bits, where it does, as `totalling`.
fn adding(adder: Adder, first: Code, second: Code) -> Option<Adder> {
    let is_straight = (adder.first ^ first) < 2 && (adder.second ^ second) < 2;
    let (a, b) = if is_straight {
        (adder.first ^ first, adder.second ^ second)
    } else {
        (adder.first ^ second, adder.second ^ first)
    };
    if a > 1 || b > 1 || (a | b) == 1 && adder.out != NO_OUT {
        return None;
    }
    Some(Adder {
        total: adder.total ^ a ^ b,
        first,
        second,
        ..adder
    })
}

/// The third bits of two adders of which two bits are the same.
fn thirds(adder: Adder, derived: Adder) -> Option<Operands> {
    if let Some(same) = adding(adder, derived.first, derived.second) {
        return Some(Operands {
            first: derived.total,
            second: same.total,
        });
    }
    let same = totalling(adder, derived.total)?;
    for (own, other) in [(same.first, same.second), (same.second, same.first)] {
        for (bit, third) in [
            (derived.first, derived.second),
            (derived.second, derived.first),
        ] {
            let turned = own ^ bit;
            if turned == 0 || turned == 1 && adder.out == NO_OUT {
                return Some(Operands {
                    first: third,
                    second: other ^ turned,
                });
            }
        }
    }
    None
}

/// Whether an adder is of lowest bits, of which none is 0.
fn is_lowest(adder: Adder) -> bool {
    adder.carry == NO_CARRY && adder.first != FALSITY && adder.second != FALSITY
}

/// The adder with the lowest literals that are equal.
fn reduced(search: &mut Search, adder: Adder) -> Adder {
    let carry = Carry {
        first: search.reduced(adder.carry.first),
        second: search.reduced(adder.carry.second),
        third: search.reduced(adder.carry.third),
    };
    let out = if adder.out == NO_OUT {
        NO_OUT
    } else {
        search.reduced(adder.out)
    };
    Adder {
        total: search.reduced(adder.total),
        first: search.reduced(adder.first),
        second: search.reduced(adder.second),
        carry: simplified(carry),
        out,
    }
}
