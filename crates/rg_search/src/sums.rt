//! Sums of carries: where the same numbers are added in two orders, equally many of the carries into a bit are true.
//!
//! Where two exclusive ors showed the same values, what only one of them rests on is looked at. Where in all samples equally many of
//! these literals were true, some of them negated, each clause that says so is proved; then few conflicts show that the two are equal.

use crate::answer::Search;
use rg_solver::circuit::{Circuit, Operands};
use rg_solver::code::{Code, code_for, variable_of};
use rg_solver::search::Outcome;
use rg_solver::solver::Solver;
use rg_solver::table::{add, at, extend, fill, put};
use rg_watch::Watcher;

/// The most exclusive ors and operands that are looked at.
const MOST_OPENED: usize = 64;

/// The most literals of a sum.
const MOST_SUMMED: usize = 6;

/// How many words of samples are kept of each variable.
const WORDS: usize = 4;

#[derive(Drop)]
pub struct Sums {
    /// What only one of two exclusive ors rests on.
    leaves: Vec<Code>,
    stack: Vec<usize>,
    /// By variable: an exclusive or that is equal to it, or opposite, or 0.
    twins: Vec<usize>,
    /// Samples of the values of all variables: a word of each, and the next word of each.
    samples: Vec<u64>,
    /// Whether an exclusive or has one as an operand, as the sum of two numbers does.
    pub are_likely: bool,
}

impl Sums {
    /// The exclusive ors of a circuit.
    pub fn new(search: &mut Search) -> Self {
        let alloc = search.solver.alloc;
        let mut sums = Sums {
            leaves: Vec::new(alloc),
            stack: Vec::new(alloc),
            twins: Vec::new(alloc),
            samples: Vec::new(alloc),
            are_likely: false,
        };
        let size = search.solver.circuit.variables().saturating_add(1);
        fill(&mut sums.twins, 0, size, &mut search.solver.lacks_memory);
        for variable in 0..size {
            if search.solver.circuit.is_active(variable) {
                sums.look_at(search, variable);
            }
        }
        sums
    }

    /// Looks whether a variable is an exclusive or.
    fn look_at(&mut self, search: &mut Search, variable: usize) {
        let circuit = &search.solver.circuit;
        if let Some(operands) = circuit.exclusive(variable) {
            let first = circuit.exclusive(variable_of(operands.first));
            let second = circuit.exclusive(variable_of(operands.second));
            self.are_likely = self.are_likely || first.is_some() || second.is_some();
            let root = search.classes.root(code_for(variable));
            put(&mut self.twins, variable_of(root), variable);
        }
    }

    /// The operands of an exclusive or that is this variable, or equal to it.
    fn operands(&self, circuit: &Circuit, variable: usize) -> Option<Operands> {
        let own = circuit.exclusive(variable);
        if own.is_some() {
            return own;
        }
        circuit.exclusive(at(&self.twins, variable, 0))
    }

    /// Takes the values of all variables as samples, unless there are enough.
    pub fn sample(&mut self, words: &[u64], lacks_memory: &mut bool) {
        if self.samples.len() < self.twins.len().saturating_mul(WORDS) {
            extend(&mut self.samples, words, lacks_memory);
        }
    }

    /// Enters a leaf, or takes it out where it is entered.
    fn turn(&mut self, leaf: Code, lacks_memory: &mut bool) {
        for place in 0..self.leaves.len() {
            if at(&self.leaves, place, 0) == leaf {
                let last = self.leaves.pop().unwrap_or(0);
                put(&mut self.leaves, place, last);
                return;
            }
        }
        add(&mut self.leaves, leaf, lacks_memory);
    }

    /// Has both operands opened, unless they are constant.
    fn push(&mut self, search: &mut Search, operands: Operands) {
        for literal in &[operands.first, operands.second] {
            let root = search.reduced(*literal);
            if root >= 2 {
                let lacks_memory = &mut search.solver.lacks_memory;
                add(&mut self.stack, variable_of(root), lacks_memory);
            }
        }
    }

    /// Opens exclusive ors down to the leaves, and in place of two words that are picked from two others, or the other way round, these.
    /// Whether none is left.
    fn open(&mut self, search: &mut Search) -> bool {
        for _ in 0..MOST_OPENED {
            if !self.open_all(search) {
                return false;
            }
            if !self.open_picked(search) {
                return true;
            }
        }
        false
    }

    /// Takes out two leaves of which one picks what the other doesn't, and has what they pick from opened. Whether there are any.
    fn open_picked(&mut self, search: &mut Search) -> bool {
        for place in 0..self.leaves.len() {
            let leaf = at(&self.leaves, place, 0);
            let Some(operands) = search.solver.circuit.picked(variable_of(leaf)) else {
                continue;
            };
            for other in place.saturating_add(1)..self.leaves.len() {
                let second = at(&self.leaves, other, 0);
                if search
                    .solver
                    .circuit
                    .picks_others(variable_of(leaf), variable_of(second))
                {
                    self.turn(leaf, &mut search.solver.lacks_memory);
                    self.turn(second, &mut search.solver.lacks_memory);
                    self.push(search, operands);
                    return true;
                }
            }
        }
        false
    }

    /// Opens exclusive ors down to the leaves. Whether none is left.
    fn open_all(&mut self, search: &mut Search) -> bool {
        for _ in 0..MOST_OPENED {
            let Some(variable) = self.stack.pop() else {
                return true;
            };
            match self.operands(&search.solver.circuit, variable) {
                Some(operands) => self.push(search, operands),
                None => self.turn(code_for(variable), &mut search.solver.lacks_memory),
            }
        }
        false
    }

    /// Finds the leaves that two exclusive ors don't share. Whether they may have a sum.
    fn compare(&mut self, search: &mut Search, pair: Operands) -> bool {
        let circuit = &search.solver.circuit;
        let first = self.operands(circuit, variable_of(pair.first));
        let second = self.operands(circuit, variable_of(pair.second));
        if first.is_none() && second.is_none() {
            return false;
        }
        self.leaves.clear();
        self.stack.clear();
        self.push(search, pair);
        self.open(search) && 3 <= self.leaves.len() && self.leaves.len() <= MOST_SUMMED
    }

    /// The values of the leaves in one sample, each in its bit.
    fn pattern(&self, word: usize, bit: u32) -> u32 {
        let start = word.saturating_mul(self.twins.len());
        let mut pattern = 0u32;
        let mut place = 0u32;
        for leaf in &self.leaves {
            let sample = at(&self.samples, start.saturating_add(variable_of(*leaf)), 0);
            if sample.wrapping_shr(bit) & 1 == 1 {
                pattern |= 1u32.wrapping_shl(place);
            }
            place = place.saturating_add(1);
        }
        pattern
    }

    /// The patterns of all samples, each as a bit.
    fn patterns(&self) -> u64 {
        let mut seen = 0u64;
        for word in 0..WORDS {
            for bit in 0u32..64 {
                seen |= 1u64.wrapping_shl(self.pattern(word, bit));
            }
        }
        seen
    }

    /// How many of the leaves are true in each sample, where those are negated that have to be: equally many, but neither none nor all.
    fn find_sum(&mut self) -> Option<u32> {
        let seen = self.patterns();
        for signs in 0u32..32 {
            if let Some(sum) = equal_sum(seen, signs) {
                let mut left = signs;
                for leaf in self.leaves.iter_mut() {
                    *leaf ^= left & 1;
                    left >>= 1;
                }
                let is_open = 0 < sum && (sum as usize) < self.leaves.len();
                return if is_open { Some(sum) } else { None };
            }
        }
        None
    }

    /// Proves what the samples say of the sum of the leaves that two exclusive ors don't share, with at most so many conflicts for each
    /// clause. Whether it is proved.
    pub fn prove<W: Watcher>(
        &mut self,
        search: &mut Search,
        pair: Operands,
        limit: u64,
        watcher: &mut W,
    ) -> bool {
        if !self.compare(search, pair) {
            return false;
        }
        match self.find_sum() {
            Some(sum) => prove_sum(&mut search.solver, &self.leaves, sum, limit, watcher),
            None => false,
        }
    }
}

/// How many bits are set in each pattern that was seen, with these bits turned, where that is always the same.
fn equal_sum(seen: u64, signs: u32) -> Option<u32> {
    let mut sum = None;
    for pattern in 0u32..64 {
        if seen.wrapping_shr(pattern) & 1 == 0 {
            continue;
        }
        let own = (pattern ^ signs).count_ones();
        if sum.unwrap_or(own) != own {
            return None;
        }
        sum = Some(own);
    }
    sum
}

/// Whether the literals of a sum that these bits name, turned by this sign, exclude each other: one more than may be true, or, negated,
/// one more than may be false.
fn excludes<W: Watcher>(
    solver: &mut Solver,
    literals: &[Code],
    mask: u32,
    sign: Code,
    limit: u64,
    watcher: &mut W,
) -> bool {
    let mut named = [0; MOST_SUMMED];
    let mut count = 0usize;
    let mut left = mask;
    for literal in literals {
        if left & 1 == 1 {
            put(&mut named, count, *literal ^ sign);
            count = count.saturating_add(1);
        }
        left >>= 1;
    }
    let assumed = named.get(..count).unwrap_or(&[]);
    let outcome = solver.exclude(assumed, limit, watcher);
    solver.backtrack(0);
    outcome == Outcome::Excluded
}

/// Proves each clause of the sum of some literals. Whether all are proved.
fn prove_sum<W: Watcher>(
    solver: &mut Solver,
    literals: &[Code],
    sum: u32,
    limit: u64,
    watcher: &mut W,
) -> bool {
    let count = u32::try_from(literals.len()).unwrap_or(0);
    let too_many = sum.saturating_add(1);
    let too_few = count.saturating_sub(sum).saturating_add(1);
    for mask in 1..1u32.wrapping_shl(count) {
        let ones = mask.count_ones();
        let is_shown = (ones != too_many || excludes(solver, literals, mask, 0, limit, watcher))
            && (ones != too_few || excludes(solver, literals, mask, 1, limit, watcher));
        if !is_shown || solver.is_over() {
            return false;
        }
    }
    true
}
