//! The learned clauses on which a refutation rests, and shorter hints for them: in place of a line that is used once stand its own hints,
//! where they lead on without it.

use rg_solver::code::{Code, code_of, negated};
use rg_solver::given::Given;
use rg_solver::log::{Lists, Log};
use rg_solver::table::{add, at, fill, increment, put};
use std::alloc::Global;

/// Clauses of signed literals, each with its hints, of which the last one is empty.
pub type Refutation = Log;

/// What a clause says under the literals that are true.
#[derive(Clone, Copy)]
enum Said {
    /// All of its literals are false.
    Conflict,
    /// This is the one that isn't.
    Unit(Code),
    Nothing,
}

/// Goes over the lines of a log, and finds shorter hints.
#[derive(Drop)]
struct Shortening<'a> {
    given: Given<'a>,
    log: &'a Log,
    /// By line, how often it is used.
    uses: Vec<u32>,
    /// The hints of the lines so far.
    hints: Lists<u32>,
    /// The hints of this line so far.
    kept: Vec<u32>,
    /// By literal, whether it is true; and those that are.
    truths: Vec<bool>,
    trail: Vec<Code>,
    lacks_memory: bool,
}

/// The clauses of a log on which its last one rests, with shorter hints, numbered anew.
pub fn refutation_of(
    alloc: Global,
    given: Given<'_>,
    log: &Log,
    lacks_memory: &mut bool,
) -> Refutation {
    let mut shortening = Shortening {
        given,
        log,
        uses: Vec::new(alloc),
        hints: Lists::new(alloc),
        kept: Vec::new(alloc),
        truths: Vec::new(alloc),
        trail: Vec::new(alloc),
        lacks_memory: false,
    };
    shortening.shorten_all();
    let mut refutation = Log::new(alloc, log.given);
    let mut numbers = Vec::new(alloc);
    fill(&mut numbers, 0, log.len(), lacks_memory);
    shortening.take_used(&mut refutation, &mut numbers);
    *lacks_memory = *lacks_memory || shortening.lacks_memory;
    refutation
}

/// Counts by line how often it is used by those on which the last one rests, where they have these hints. The last one is used once.
fn count_uses(log: &Log, hints: &Lists<u32>, uses: &mut [u32]) {
    for number in uses.iter_mut() {
        *number = 0;
    }
    put(uses, log.len().saturating_sub(1), 1);
    for index in (0..log.len()).rev() {
        if at(uses, index, 0) > 0 {
            count_hints(log, hints.list(index), uses);
        }
    }
}

fn count_hints(log: &Log, hints: &[u32], uses: &mut [u32]) {
    for hint in hints {
        if let Some(earlier) = log.index_of(*hint) {
            increment(uses, earlier);
        }
    }
}

impl<'a> Shortening<'a> {
    /// Finds shorter hints for the lines on which the last one rests, and counts the uses that these make.
    fn shorten_all(&mut self) {
        let size = (self.given.variables as usize).saturating_mul(2);
        let lack = &mut self.lacks_memory;
        fill(&mut self.truths, false, size.saturating_add(2), lack);
        fill(&mut self.uses, 0, self.log.len(), lack);
        count_uses(self.log, &self.log.hints, &mut self.uses);
        for index in 0..self.log.len() {
            self.kept.clear();
            if at(&self.uses, index, 0) > 0 {
                self.shorten(index);
            }
            self.hints.end_with(&self.kept, &mut self.lacks_memory);
        }
        count_uses(self.log, &self.hints, &mut self.uses);
    }

    /// Takes the clauses that are used, and numbers them anew.
    fn take_used(&mut self, refutation: &mut Refutation, numbers: &mut [u32]) {
        for index in 0..self.log.len() {
            if at(&self.uses, index, 0) > 0 {
                self.renumber(index, numbers);
                let literals = self.log.literals(index);
                let number = refutation.end_with(literals, &self.kept, &mut self.lacks_memory);
                put(numbers, index, number);
            }
        }
    }

    /// Gives the hints of a line, where its clauses have these new numbers.
    fn renumber(&mut self, index: usize, numbers: &[u32]) {
        self.kept.clear();
        for hint in self.hints.list(index) {
            let number = match self.log.index_of(*hint) {
                Some(earlier) => at(numbers, earlier, 0),
                None => *hint,
            };
            add(&mut self.kept, number, &mut self.lacks_memory);
        }
    }

    /// Finds the hints of a line.
    fn shorten(&mut self, index: usize) {
        for literal in self.log.literals(index) {
            self.hold(negated(code_of(*literal)));
        }
        for hint in self.log.hints(index) {
            if self.take(*hint) {
                break;
            }
        }
        self.forget(0);
    }

    fn hold(&mut self, literal: Code) {
        put(&mut self.truths, literal as usize, true);
        add(&mut self.trail, literal, &mut self.lacks_memory);
    }

    fn forget(&mut self, from: usize) {
        for place in from..self.trail.len() {
            let literal = at(&self.trail, place, 0);
            put(&mut self.truths, literal as usize, false);
        }
        self.trail.truncate(from);
    }

    /// Follows a hint, or in its place its own hints, where no other line has it. Whether that is a conflict.
    fn take(&mut self, hint: u32) -> bool {
        let index = match self.log.index_of(hint) {
            Some(index) if at(&self.uses, index, 0) == 1 => index,
            _ => return self.follow(hint),
        };
        let start = self.trail.len();
        let kept = self.kept.len();
        for place in 0..self.hints.list(index).len() {
            let own = at(self.hints.list(index), place, 0);
            if self.follow(own) {
                return true;
            }
        }
        match self.said(hint) {
            Said::Unit(literal) if at(&self.truths, literal as usize, false) => return false,
            _ => {}
        }
        self.forget(start);
        self.kept.truncate(kept);
        self.follow(hint)
    }

    /// Follows a clause. Whether all of its literals are false.
    fn follow(&mut self, hint: u32) -> bool {
        match self.said(hint) {
            Said::Conflict => {
                add(&mut self.kept, hint, &mut self.lacks_memory);
                true
            }
            Said::Unit(literal) if !at(&self.truths, literal as usize, true) => {
                add(&mut self.kept, hint, &mut self.lacks_memory);
                self.hold(literal);
                false
            }
            _ => false,
        }
    }

    /// What the clause of a hint says.
    fn said(&self, hint: u32) -> Said {
        let literals = match self.log.index_of(hint) {
            Some(index) => self.log.literals(index),
            None => self.given.clause((hint as usize).saturating_sub(1)),
        };
        let mut said = Said::Conflict;
        for literal in literals {
            let literal = code_of(*literal);
            if at(&self.truths, negated(literal) as usize, false) {
                continue;
            }
            match said {
                Said::Conflict => said = Said::Unit(literal),
                Said::Unit(same) if same == literal => {}
                _ => return Said::Nothing,
            }
        }
        said
    }
}
