//! The lines of the derivation.

use crate::expansion::{
    Action, Assertion, Block, BlockRow, DEEPEST, Expansion, Line, add, add_all,
};
use rg_outline_syntax::{List, MeaningFault};
use rg_tree::line::Rule;
use rg_words::limits::MOST_DERIVATION_LINES;

impl Expansion<'_> {
    /// Numbers the statements, and makes the lines of all parts.
    pub(crate) fn derive(&mut self) {
        for part in 0..self.parts.len() {
            let body = self.parts.get(part).map_or(0, |part| part.body);
            self.derive_block(body, part, DEEPEST);
        }
    }

    /// The number of a block that comes next in the text: one of its own, or that of its one statement.
    fn number_of(&mut self, block: Block) -> usize {
        let number = self.count.saturating_add(1);
        if self.statements_in(block.rows) != 1 {
            self.count = number;
        }
        number
    }

    /// Adds a line with the rule and the premises, which says what the claim says; its number, from 1.
    fn add_line(&mut self, rule: Rule, premises: &[usize], claim: Line) -> usize {
        if self.lines.len() >= MOST_DERIVATION_LINES {
            let span = self.statement(claim.statement).span;
            self.scope.refuse(MeaningFault::TooLarge, span);
            return 0;
        }
        let premises = add_all(&mut self.scope, &mut self.premises, premises);
        let line = Line {
            rule,
            premises,
            ..claim
        };
        add(&mut self.scope, &mut self.lines, line);
        self.lines.len()
    }

    /// A line of the rule of consequence, where it says something else than the line before it.
    fn weaken(&mut self, line: usize, from: Line, claim: Line) -> usize {
        let forest = &self.scope.forest;
        if forest.is_equal(from.pre, claim.pre) && forest.is_equal(from.post, claim.post) {
            return line;
        }
        self.add_line(Rule::Conseq, &[line], claim)
    }

    /// What the rule of a statement says, as a line that has no premises yet.
    fn claim_of(&self, index: usize, part: usize) -> Line {
        let statement = self.statement(index);
        Line {
            rule: Rule::Basic,
            number: statement.number,
            premises: List::EMPTY,
            part,
            pre: statement.before.full,
            post: statement.after.full,
            statement: index,
            before: statement.before,
            after: statement.after,
        }
    }

    /// Numbers the statements of a block, as the text does, and makes the lines; the number of the last one.
    #[cycle(deriving)]
    fn derive_block(&mut self, index: usize, part: usize, depth: u32) -> usize {
        let block = self.block(index);
        if depth == 0 {
            self.scope.refuse(MeaningFault::TooDeep, block.span);
            return 0;
        }
        let number = self.number_of(block);
        let nothing = self.claim_of(usize::MAX, part);
        let (mut first, mut last) = (nothing, nothing);
        let mut end = block.rows.start;
        let mut lines = Vec::new(self.scope.alloc);
        for place in block.rows.start..block.rows.end {
            if let BlockRow::Statement(statement) = self.row(place) {
                let line = self.derive_statement(statement, part, depth - 1);
                last = self.claim_of(statement, part);
                if lines.is_empty() {
                    first = last;
                }
                end = place;
                let line = self.weaken_before(line, place, block, last);
                add(&mut self.scope, &mut lines, line);
            }
        }
        let own = Line {
            number,
            pre: block.first.full,
            statement: first.statement,
            before: block.first,
            ..last
        };
        let line = match lines.as_slice() {
            [only] => *only,
            several => self.add_line(Rule::Seq, several, own),
        };
        self.weaken_around(line, end, block, own, last.statement)
    }

    /// Lines for the assertions before a statement, from the last one to the first.
    fn weaken_before(&mut self, line: usize, place: usize, block: Block, claim: Line) -> usize {
        let mut line = line;
        let mut from = claim;
        for earlier in (block.rows.start..place).rev() {
            let BlockRow::Assertion(assertion) = self.row(earlier) else {
                break;
            };
            let to = Line {
                pre: assertion.full,
                before: assertion,
                ..claim
            };
            line = self.weaken(line, from, to);
            from = to;
        }
        line
    }

    /// Lines for what the rule around a block asks for before it; for the assertions after its last statement, which stands at `end`; and for the
    /// assertion that is wanted at the block's end.
    fn weaken_around(
        &mut self,
        line: usize,
        end: usize,
        block: Block,
        claim: Line,
        last: usize,
    ) -> usize {
        let needed = Line {
            pre: block.needed,
            before: block.around,
            ..claim
        };
        let mut line = self.weaken(line, claim, needed);
        let mut from = Line {
            statement: last,
            ..needed
        };
        for place in end.saturating_add(1)..block.rows.end {
            if let BlockRow::Assertion(assertion) = self.row(place) {
                let to = ends_with(from, assertion);
                line = self.weaken(line, from, to);
                from = to;
            }
        }
        self.weaken(line, from, ends_with(from, block.goal))
    }

    /// Numbers a statement, and makes its lines; the number of the last one.
    #[cycle(deriving)]
    fn derive_statement(&mut self, index: usize, part: usize, depth: u32) -> usize {
        self.count = self.count.saturating_add(1);
        let number = self.count;
        if let Some(statement) = self.statements.get_mut(index) {
            statement.number = number;
        }
        self.ask_indices(index, part);
        let statement = self.statement(index);
        let claim = self.claim_of(index, part);
        match statement.action {
            Action::Skip | Action::Assign => self.add_line(Rule::Basic, &[], claim),
            Action::Await => self.add_line(Rule::Atomic, &[], claim),
            Action::If => {
                let yes = self.derive_block(statement.blocks.0, part, depth);
                let no = self.derive_block(statement.blocks.1, part, depth);
                self.add_line(Rule::If, &[yes, no], claim)
            }
            Action::While => {
                let body = self.derive_block(statement.blocks.0, part, depth);
                let own = Line {
                    pre: statement.at_test.full,
                    before: statement.at_test,
                    ..claim
                };
                let line = self.add_line(Rule::Loop, &[body], own);
                self.weaken(line, own, claim)
            }
        }
    }
}

/// The claim with this assertion after it.
fn ends_with(claim: Line, assertion: Assertion) -> Line {
    Line {
        post: assertion.full,
        after: assertion,
        ..claim
    }
}
