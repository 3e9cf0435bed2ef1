//! The formulas of the program and of its parts.

use crate::expansion::{Expansion, NOWHERE, OutlinePart, Specification, add, add_all};
use rg_outline_syntax::{Clause, Comparison, Head, HeadKind, List, MeaningFault};
use rg_outline_terms::Root;

/// A clause of the program, with its tree.
#[derive(Clone, Copy)]
struct ProgramClause {
    clause: Clause,
    tree: usize,
}

impl Expansion<'_> {
    /// Works out the formulas of the program.
    pub(crate) fn specify(&mut self) {
        let mut clauses = Vec::new(self.scope.alloc);
        for head in self.scope.written.heads(self.scope.written.following_words) {
            self.take_program_head(&mut clauses, *head);
        }
        let invariant = self.conjoined_of(&clauses, Clause::Invariant);
        self.specification = Specification {
            invariant,
            invariant_next: self.scope.in_next_state(invariant),
            pre: self.conjoined_of(&clauses, Clause::Pre),
            guar: self.conjoined_of(&clauses, Clause::Guar),
            post: self.conjoined_of(&clauses, Clause::Post),
            promised: self.each_of(&clauses, Clause::Guar),
            rely: if has_clause(&clauses, Clause::Rely) {
                self.conjoined_of(&clauses, Clause::Rely)
            } else {
                self.scope.all_words_same(NOWHERE)
            },
        };
        self.add_repeated(&clauses);
    }

    /// Adds the clause that a head of the program is, or makes the name known that it gives.
    fn take_program_head(&mut self, clauses: &mut Vec<ProgramClause>, head: Head) {
        let HeadKind::Clause(clause, formula) = head.kind else {
            self.scope.name_head(head, usize::MAX);
            return;
        };
        if matches!(clause, Clause::Pre | Clause::Post) && has_clause(clauses, clause) {
            self.scope.refuse(MeaningFault::ClauseTwice, head.span);
        }
        let tree = match clause {
            Clause::Rely | Clause::Guar => self.scope.step_formula(formula),
            _ => self.scope.state_formula(formula),
        };
        add(&mut self.scope, clauses, ProgramClause { clause, tree });
    }

    /// The trees of the clauses of a kind.
    fn trees_of(&mut self, clauses: &[ProgramClause], kind: Clause) -> Vec<usize> {
        let mut trees = Vec::new(self.scope.alloc);
        for given in clauses {
            if given.clause == kind {
                add(&mut self.scope, &mut trees, given.tree);
            }
        }
        trees
    }

    /// The clauses of a kind, together.
    fn conjoined_of(&mut self, clauses: &[ProgramClause], kind: Clause) -> usize {
        let trees = self.trees_of(clauses, kind);
        self.conjoined(&trees, NOWHERE)
    }

    /// The clauses of a kind, each by itself.
    fn each_of(&mut self, clauses: &[ProgramClause], kind: Clause) -> List {
        let trees = self.trees_of(clauses, kind);
        add_all(&mut self.scope, &mut self.clauses, &trees)
    }

    /// Adds the invariants and the relies, each by itself: all parts repeat them, so one of them may be what makes a text too large.
    fn add_repeated(&mut self, clauses: &[ProgramClause]) {
        let _ = self.each_of(clauses, Clause::Invariant);
        let _ = self.each_of(clauses, Clause::Rely);
    }

    /// Works out what each part relies on and promises.
    pub(crate) fn specify_parts(&mut self) {
        for place in 0..self.parts.len() {
            if let Some(mut part) = self.parts.get(place).copied() {
                part.rely = self.rely_of(part);
                part.guar = self.guar_of(place, part);
                self.set_part(place, part);
            }
        }
    }

    /// What the part relies on: that words stay the same; and, where the invariant is true, its other relies and that the invariant stays true.
    fn rely_of(&mut self, part: OutlinePart) -> usize {
        let mut formulas = Vec::new(self.scope.alloc);
        let invariant = self.specification.invariant;
        if self.scope.forest.is_truth(invariant, true) {
            self.push_clauses(&mut formulas, part.relied);
        } else {
            let mut others = Vec::new(self.scope.alloc);
            self.push_relies(&mut formulas, &mut others, part.relied);
            add(
                &mut self.scope,
                &mut others,
                self.specification.invariant_next,
            );
            let relied = self.conjoined(&others, part.span);
            let made = self.scope.forest.keeping(invariant, relied, part.span);
            let under_invariant = self.scope.made(made);
            add(&mut self.scope, &mut formulas, under_invariant);
        }
        self.conjoined(&formulas, part.span)
    }

    /// Adds the clauses of a list: the equations between a word's next value and its value, and the others.
    fn push_relies(&mut self, equations: &mut Vec<usize>, others: &mut Vec<usize>, list: List) {
        for place in list.start..list.end {
            if let Some(clause) = self.clauses.get(place).copied() {
                let to = if self.is_same_word(clause) {
                    &mut *equations
                } else {
                    &mut *others
                };
                add(&mut self.scope, to, clause);
            }
        }
    }

    /// Whether a formula says that a word stays the same.
    fn is_same_word(&self, tree: usize) -> bool {
        let forest = &self.scope.forest;
        let Root::Word { word, is_primed } = forest.root(forest.operand(tree, 0)) else {
            return false;
        };
        let same = Root::Word {
            word,
            is_primed: false,
        };
        is_primed
            && forest.root(tree) == Root::Compare(Comparison::Equal)
            && forest.root(forest.operand(tree, 1)) == same
    }

    /// What the others rely on, what the program promises, what the part promises besides, and the invariant in the next state.
    fn guar_of(&mut self, place: usize, part: OutlinePart) -> usize {
        let mut formulas = Vec::new(self.scope.alloc);
        for other in 0..self.parts.len() {
            let relied = self
                .parts
                .get(other)
                .map_or(List::EMPTY, |part| part.relied);
            if other != place {
                self.push_clauses(&mut formulas, relied);
            }
        }
        add(&mut self.scope, &mut formulas, self.specification.guar);
        self.push_clauses(&mut formulas, part.promised);
        add(
            &mut self.scope,
            &mut formulas,
            self.specification.invariant_next,
        );
        self.conjoined(&formulas, part.span)
    }

    /// The clauses of a list.
    fn clauses_in(&self, list: List) -> &[usize] {
        self.clauses.get(list.start..list.end).unwrap_or(&[])
    }

    /// Adds the clauses of a list.
    fn push_clauses(&mut self, formulas: &mut Vec<usize>, list: List) {
        let stored = formulas.extend_from_slice(self.clauses_in(list));
        self.scope.want_stored(stored.is_ok());
    }
}

/// Whether there is a clause of a kind.
fn has_clause(clauses: &[ProgramClause], kind: Clause) -> bool {
    clauses.iter().any(|given| given.clause == kind)
}
