//! The statements of a part, with `for` written out.

use crate::expansion::{
    Action, Block, BlockRow, Expansion, Origin, PartWord, Statement, Update, add, add_all, place_of,
};
use rg_outline_syntax::{Assignment, Item, ItemKind, List, MeaningFault, Span, Standing};
use rg_outline_terms::{Chosen, Target, bit_of};
use rg_words::limits::{MOST_ASSIGNMENTS, MOST_STATEMENTS};

impl Expansion<'_> {
    /// Works out a block, in which others may stand so deep; its index. Faults are the first `MeaningFault` in the order of reading, and
    /// `FaultKind::Memory`.
    #[cycle(blocks)]
    pub(crate) fn block_of(&mut self, items: List, span: Span, depth: u32) -> usize {
        if depth == 0 {
            self.scope.refuse(MeaningFault::TooDeep, span);
            return 0;
        }
        let mut rows = Vec::new(self.scope.alloc);
        self.take_items(items, &mut rows, depth - 1);
        let index = self.add_block(&rows, span);
        if self.statements_in(self.block(index).rows) == 0 {
            let place = self.item(items.start).map_or(span, |item| item.span);
            self.scope.refuse(MeaningFault::NoStatement, place);
        }
        index
    }

    /// Adds the rows of these statements and assertions; after a fault none.
    #[cycle(blocks)]
    fn take_items(&mut self, items: List, rows: &mut Vec<BlockRow>, depth: u32) {
        for place in items.start..items.end {
            let item = match self.item(place) {
                Some(item) if !self.scope.is_stopped() => item,
                _ => break,
            };
            self.at = Some(item.span);
            match item.kind {
                ItemKind::Assertion(formula) => {
                    let tree = self.scope.state_formula(formula);
                    let assertion = self.asserted(tree, item.span, Origin::Written);
                    add(&mut self.scope, rows, BlockRow::Assertion(assertion));
                }
                ItemKind::For { .. } => self.repeat(item, rows, depth),
                ItemKind::Use(used) => self.use_statements(used, item.span, rows, depth),
                _ => {
                    let statement = self.statement_of(item, depth);
                    add(&mut self.scope, rows, BlockRow::Statement(statement));
                }
            }
        }
    }

    /// The item at a place of the listed ones.
    fn item(&self, place: usize) -> Option<Item> {
        let index = self.scope.written.listed.get(place)?;
        self.scope.written.items.get(*index).copied()
    }

    /// Adds the rows of the body of a `for`, once for each number.
    #[cycle(blocks)]
    fn repeat(&mut self, item: Item, rows: &mut Vec<BlockRow>, depth: u32) {
        let ItemKind::For { index, range, body } = item.kind else {
            return;
        };
        if depth == 0 {
            self.scope.refuse(MeaningFault::TooDeep, item.span);
            return;
        }
        self.scope.refuse_taken(index);
        let numbers = self.scope.numbers_of(range);
        let mark = self.scope.names.len();
        let outer = self.round;
        for place in numbers.start..numbers.end {
            let number = self.scope.number_at(place);
            self.scope.know_number(index, item.span, number);
            self.begin_round();
            self.take_items(body, rows, depth - 1);
            self.scope.forget(mark);
        }
        self.round = outer;
    }

    /// Adds the rows of the statements that a use names.
    #[cycle(blocks)]
    fn use_statements(&mut self, used: usize, span: Span, rows: &mut Vec<BlockRow>, depth: u32) {
        if depth == 0 {
            self.scope.refuse(MeaningFault::TooDeep, span);
            return;
        }
        let outer = self.used;
        self.used = outer.or(Some(span));
        let mark = self.scope.names.len();
        let round = self.round;
        self.begin_round();
        let body = self.scope.enter(used);
        self.take_items(body, rows, depth - 1);
        self.scope.leave(used, mark);
        self.round = round;
        self.used = outer;
    }

    fn add_block(&mut self, rows: &[BlockRow], span: Span) -> usize {
        let rows = add_all(&mut self.scope, &mut self.rows, rows);
        let block = Block {
            rows,
            span,
            ..Block::EMPTY
        };
        add(&mut self.scope, &mut self.blocks, block)
    }

    fn add_statement(&mut self, statement: Statement) -> usize {
        if self.statements.len() >= MOST_STATEMENTS {
            self.scope.refuse(MeaningFault::TooLarge, statement.span);
            return self.statements.len();
        }
        add(&mut self.scope, &mut self.statements, statement)
    }

    /// A statement that does nothing, at a place.
    fn plain(&mut self, span: Span) -> Statement {
        let test = self.conjoined(&[], span);
        Statement {
            span,
            used: self.used,
            test,
            ..Statement::SKIP
        }
    }

    /// Works out a statement; its index.
    #[cycle(blocks)]
    fn statement_of(&mut self, item: Item, depth: u32) -> usize {
        if depth == 0 {
            self.scope.refuse(MeaningFault::TooDeep, item.span);
            return 0;
        }
        let mut statement = self.plain(item.span);
        let first = self.indices.len();
        match item.kind {
            ItemKind::If { test, yes, no } => {
                statement.action = Action::If;
                statement.test = self.test_of(test);
                statement.indices = self.indices_since(first);
                statement.blocks.0 = self.block_of(yes, item.span, depth - 1);
                statement.blocks.1 = match no {
                    Some(no) => self.block_of(no, item.span, depth - 1),
                    None => self.skip_block(item.span),
                };
            }
            ItemKind::While {
                test,
                invariant,
                body,
            } => {
                statement.action = Action::While;
                statement.test = self.test_of(test);
                statement.indices = self.indices_since(first);
                if let Some(formula) = invariant {
                    statement.invariant = Some(self.state_assertion(formula));
                }
                statement.blocks.0 = self.block_of(body, item.span, depth - 1);
            }
            _ => {
                self.take_step(&mut statement, item.kind);
                statement.indices = self.indices_since(first);
            }
        }
        self.add_statement(statement)
    }

    /// The block `skip`, which stands for a missing `else`.
    fn skip_block(&mut self, span: Span) -> usize {
        let skip = self.plain(span);
        let index = self.add_statement(skip);
        self.add_block(&[BlockRow::Statement(index)], span)
    }

    /// Works out a statement that holds no other.
    fn take_step(&mut self, statement: &mut Statement, kind: ItemKind) {
        match kind {
            ItemKind::Assign(start) => {
                let end = start.saturating_add(1);
                statement.updates = self.updates_in(List { start, end });
                statement.is_choice = statement.updates.len() > 1;
                statement.action = if statement.is_choice {
                    Action::Await
                } else {
                    Action::Assign
                };
            }
            ItemKind::Atomic(assignments) => {
                statement.action = Action::Await;
                statement.updates = self.updates_in(assignments);
            }
            ItemKind::Await(guard, assignments) => {
                statement.action = Action::Await;
                statement.test = self.test_of(guard);
                statement.updates = match assignments {
                    Some(assignments) => self.updates_in(assignments),
                    None => self.unchanged_update(statement.span),
                };
            }
            _ => {}
        }
    }

    /// A test or a guard, which reads no auxiliary word.
    fn test_of(&mut self, formula: usize) -> usize {
        let known = self.scope.chosen.len();
        let tree = self.scope.state_formula(formula);
        self.note_indices(known, None);
        self.refuse_auxiliary(tree);
        tree
    }

    /// Refuses a tree that reads an auxiliary word.
    fn refuse_auxiliary(&mut self, tree: usize) {
        let read = self.scope.forest.reads(tree).plain;
        let span = self.scope.forest.span(tree);
        for word in 0..self.scope.words.len() {
            let is_auxiliary = self.scope.word(word).standing == Standing::Auxiliary;
            if is_auxiliary && read & bit_of(word) != 0 {
                self.scope
                    .refuse(MeaningFault::ReadsAuxiliary { word }, span);
            }
        }
    }

    /// The updates of assignments.
    fn updates_in(&mut self, assignments: List) -> List {
        let start = self.updates.len();
        for assignment in self.scope.written.assigned(assignments) {
            if self.updates.len().saturating_sub(start) >= MOST_ASSIGNMENTS {
                self.scope
                    .refuse(MeaningFault::TooManyAssignments, assignment.span);
                break;
            }
            let known = self.scope.chosen.len();
            let end = self.updates.len();
            self.take_assignment(*assignment, start);
            self.note_indices(known, Some(List { start, end }));
        }
        let end = self.updates.len();
        List { start, end }
    }

    /// Adds the updates of an assignment to those of its step, which begin at `start`.
    fn take_assignment(&mut self, assignment: Assignment, start: usize) {
        let target = self.scope.written.expression(assignment.target);
        let span = target.map_or(assignment.span, |expression| expression.span);
        match self.scope.target_of(assignment.target) {
            Target::Word(word) => {
                let value = self.value_for(word, assignment.value, span);
                self.add_update(word, value, span);
            }
            Target::Chosen(chosen) => {
                let value = self.value_for(chosen.member(0), assignment.value, span);
                self.refuse_index(chosen, span);
                self.add_choice(chosen, value, span, start);
            }
        }
    }

    /// Refuses the index of a target that reads a word which the assignment may change, or an auxiliary word where the members are real ones.
    fn refuse_index(&mut self, chosen: Chosen, span: Span) {
        let read = self.scope.forest.reads(chosen.index).plain;
        for place in 0..chosen.count {
            let word = chosen.member(place);
            if read & bit_of(word) != 0 {
                let fault = MeaningFault::IndexReadsAssigned { word };
                self.scope.refuse(fault, chosen.span);
            }
        }
        if self.scope.word(chosen.member(0)).standing == Standing::Plain {
            self.refuse_auxiliary(chosen.index);
        }
    }

    /// Adds an update of each member from which an index chooses, to those of its step, which begin at `start`.
    fn add_choice(&mut self, chosen: Chosen, value: usize, span: Span, start: usize) {
        let before = self.updates.len().saturating_sub(start);
        let count = before.saturating_add(chosen.count);
        if count > MOST_ASSIGNMENTS {
            self.scope.refuse(MeaningFault::TooManyChosen(count), span);
            return;
        }
        for place in 0..chosen.count {
            let update = self.scope.chosen_update(chosen, place, value, span);
            self.add_update(chosen.member(place), update, span);
        }
    }

    /// Adds an update.
    fn add_update(&mut self, word: usize, value: usize, span: Span) {
        let part = self.parts.len().saturating_sub(1);
        if place_of(&self.assigned, part, word).is_none() {
            let assigned = PartWord { part, word, span };
            add(&mut self.scope, &mut self.assigned, assigned);
        }
        let update = Update { word, value };
        add(&mut self.scope, &mut self.updates, update);
    }

    /// The value that a word gets, which stands at a place.
    fn value_for(&mut self, word: usize, written: usize, span: Span) -> usize {
        let standing = self.scope.word(word).standing;
        if standing == Standing::Fixed {
            self.scope
                .refuse(MeaningFault::FixedAssigned { word }, span);
        }
        let value = self.scope.state_value(written);
        self.scope.refuse_assignment(word, value, span);
        if standing == Standing::Plain {
            self.refuse_auxiliary(value);
        }
        value
    }

    /// The update of an await without assignments: it keeps the first word that the part owns, else the first that isn't fixed.
    fn unchanged_update(&mut self, span: Span) -> List {
        let part = self.parts.len().saturating_sub(1);
        let owned = self.owned.iter().find(|owned| owned.part == part);
        let mut words = self.scope.words.iter();
        let changing = words.position(|word| word.standing != Standing::Fixed);
        let Some(word) = owned.map(|owned| owned.word).or(changing) else {
            self.scope.refuse(MeaningFault::NothingToAssign, span);
            return List::EMPTY;
        };
        let value = self.scope.plain_word(word, span);
        add_all(
            &mut self.scope,
            &mut self.updates,
            &[Update { word, value }],
        )
    }
}
