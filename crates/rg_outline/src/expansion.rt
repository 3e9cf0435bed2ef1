//! What an outline stands for: a program with the assertions between its statements. The first fault is kept in the scope, and no call returns it.

use crate::indices::{IndexAsked, Indexed};
use crate::order::Interrupt;
use rg_outline_syntax::{Binding, Fault, List, Names, Span, Texts, Written};
use rg_outline_terms::Scope;
use rg_tree::line::Rule;
use std::alloc::Global;

/// How deep blocks may stand within one another.
pub(crate) const DEEPEST: u32 = 1_000;

/// No place of the outline.
pub(crate) const NOWHERE: Span = Span { start: 0, end: 0 };

/// Where an assertion comes from.
#[derive(Clone, Copy, PartialEq, Eq)]
pub enum Origin {
    /// It is written where it holds.
    Written,
    /// None is written there: the one before holds on, or what a test says.
    Carried,
    /// Nothing is known but the invariant.
    Nothing,
}

/// An assertion, as trees of the forest.
#[derive(Clone, Copy)]
pub struct Assertion {
    /// What the outline says.
    pub own: usize,
    /// What the outline says, with the invariant.
    pub full: usize,
    pub span: Span,
    pub origin: Origin,
    /// The round of a `for`, or the use of named statements, in which it stands: the greater the later, and 0 outside of these.
    pub round: usize,
}

/// A word of a step with the tree of the value that it gets.
#[derive(Clone, Copy)]
pub struct Update {
    pub word: usize,
    pub value: usize,
}

/// What a statement does.
#[derive(Clone, Copy, PartialEq, Eq)]
pub enum Action {
    Skip,
    Assign,
    Await,
    If,
    While,
}

/// A statement, with what holds before and after it.
#[derive(Clone, Copy)]
pub struct Statement {
    pub action: Action,
    pub span: Span,
    /// The outermost use of named statements of which it is one.
    pub used: Option<Span>,
    /// The guard or the test.
    pub test: usize,
    /// What a step assigns: a list of `updates`.
    pub updates: List,
    /// Whether it is an assignment outside `atomic` to a member of a family that an index chooses.
    pub is_choice: bool,
    /// The indices over words in its test and in what it assigns: a list of `indices`.
    pub(crate) indices: List,
    /// The blocks of an `if`, or the body of a `while` as the first.
    pub blocks: (usize, usize),
    /// The invariant of a `while`, where it is written.
    pub(crate) invariant: Option<Assertion>,
    pub before: Assertion,
    pub after: Assertion,
    /// What holds at each test: `before`, but for a `while` with an invariant.
    pub(crate) at_test: Assertion,
    /// Its number in the text.
    pub number: usize,
}

/// A row of a block: an assertion, or the index of a statement.
#[derive(Clone, Copy)]
pub enum BlockRow {
    Assertion(Assertion),
    Statement(usize),
}

/// Statements with assertions between them: a list of `rows`.
#[derive(Clone, Copy)]
pub struct Block {
    pub rows: List,
    pub(crate) span: Span,
    /// Its first assertion, or what holds where it begins.
    pub(crate) first: Assertion,
    /// What holds after its last statement.
    pub(crate) last: Assertion,
    /// The assertion before it by the rule around it, the tree that this rule asks for, and the assertion after it.
    pub(crate) around: Assertion,
    pub(crate) needed: usize,
    pub(crate) goal: Assertion,
}

/// A part of the program.
#[derive(Clone, Copy)]
pub struct OutlinePart {
    pub span: Span,
    /// The words that it owns, as bits.
    pub owned_bits: u64,
    /// What it relies on and promises beyond what follows from the others: lists of `clauses`.
    pub relied: List,
    pub promised: List,
    /// Its `pre` and `post`, where they are written.
    pub(crate) first: Option<Assertion>,
    pub(crate) last: Option<Assertion>,
    pub body: usize,
    pub pre: Assertion,
    pub post: Assertion,
    pub rely: usize,
    pub guar: usize,
}

/// A word of a part, and where the part first names it so.
#[derive(Clone, Copy)]
pub struct PartWord {
    pub part: usize,
    pub word: usize,
    pub span: Span,
}

/// The formulas of the program, as trees.
#[derive(Clone, Copy)]
pub struct Specification {
    pub invariant: usize,
    /// The invariant in the next state.
    pub invariant_next: usize,
    pub pre: usize,
    pub rely: usize,
    pub guar: usize,
    pub post: usize,
    /// The `guar` items, each by itself: a list of `clauses`.
    pub promised: List,
}

/// A line of the derivation, and the statement at which it is reported.
#[derive(Clone, Copy)]
pub struct Line {
    pub rule: Rule,
    /// The number of its statement in the text.
    pub number: usize,
    /// The lines that it follows from: a list of `premises`, each from 1.
    pub premises: List,
    pub part: usize,
    pub pre: usize,
    pub post: usize,
    pub statement: usize,
    pub before: Assertion,
    pub after: Assertion,
}

/// What an outline stands for.
#[derive(Drop)]
pub struct Expansion<'a> {
    pub scope: Scope<'a>,
    pub specification: Specification,
    pub statements: Vec<Statement>,
    pub(crate) blocks: Vec<Block>,
    pub(crate) rows: Vec<BlockRow>,
    pub(crate) updates: Vec<Update>,
    pub(crate) indices: Vec<Indexed>,
    /// What is asked of indices.
    pub asked: Vec<IndexAsked>,
    pub parts: Vec<OutlinePart>,
    pub part_names: Texts,
    /// Which parts interrupt others, and the names of these, each at the same place.
    pub(crate) interrupts: Vec<Interrupt>,
    pub(crate) interrupted: Texts,
    pub clauses: Vec<usize>,
    /// The words that the parts own, and those that they assign, each in the order of the outline.
    pub(crate) owned: Vec<PartWord>,
    pub assigned: Vec<PartWord>,
    pub lines: Vec<Line>,
    pub premises: Vec<usize>,
    /// How many openers the spelling of each term has open at once.
    pub(crate) openers: Vec<usize>,
    /// How many statements the text has so far.
    pub count: usize,
    /// The outermost use of named statements that is being worked out.
    pub(crate) used: Option<Span>,
    /// The round of a `for`, or the use, that is being worked out, and how many there were so far.
    pub(crate) round: usize,
    pub(crate) rounds: usize,
    /// The statement or the assertion of a part at which the first fault was met.
    pub at: Option<Span>,
}

impl Assertion {
    /// Nothing is known.
    const NOTHING: Assertion = Assertion {
        own: 0,
        full: 0,
        span: NOWHERE,
        origin: Origin::Nothing,
        round: 0,
    };
}

impl Statement {
    /// A statement that does nothing, at no place.
    pub(crate) const SKIP: Statement = Statement {
        action: Action::Skip,
        span: NOWHERE,
        used: None,
        test: 0,
        updates: List::EMPTY,
        is_choice: false,
        indices: List::EMPTY,
        blocks: (0, 0),
        invariant: None,
        before: Assertion::NOTHING,
        after: Assertion::NOTHING,
        at_test: Assertion::NOTHING,
        number: 0,
    };
}

impl Block {
    /// A block without rows, at no place.
    pub(crate) const EMPTY: Block = Block {
        rows: List::EMPTY,
        span: NOWHERE,
        first: Assertion::NOTHING,
        last: Assertion::NOTHING,
        around: Assertion::NOTHING,
        needed: 0,
        goal: Assertion::NOTHING,
    };
}

impl OutlinePart {
    /// A part of which nothing is known.
    pub(crate) const NOTHING: OutlinePart = OutlinePart {
        span: NOWHERE,
        owned_bits: 0,
        relied: List::EMPTY,
        promised: List::EMPTY,
        first: None,
        last: None,
        body: 0,
        pre: Assertion::NOTHING,
        post: Assertion::NOTHING,
        rely: 0,
        guar: 0,
    };
}

/// Where a part first names a word of these.
pub(crate) fn place_of(words: &[PartWord], part: usize, word: usize) -> Option<Span> {
    words
        .iter()
        .find(|named| named.part == part && named.word == word)
        .map(|named| named.span)
}

/// Adds an item to a list; its index. Where memory is refused, that is kept as the fault.
pub(crate) fn add<T: Copy + Drop>(scope: &mut Scope<'_>, items: &mut Vec<T>, item: T) -> usize {
    let index = items.len();
    scope.want_stored(items.push(item).is_ok());
    index
}

/// Adds items to a list; their places in it. Where memory is refused, that is kept as the fault.
pub(crate) fn add_all<T: Copy + Drop>(
    scope: &mut Scope<'_>,
    items: &mut Vec<T>,
    added: &[T],
) -> List {
    let start = items.len();
    scope.want_stored(items.extend_from_slice(added).is_ok());
    let end = items.len();
    List { start, end }
}

impl<'a> Expansion<'a> {
    /// Nothing yet.
    pub fn new(alloc: Global, source: &'a [u8], written: &'a Written) -> Expansion<'a> {
        Expansion {
            scope: Scope::new(alloc, source, written),
            specification: Specification {
                invariant: 0,
                invariant_next: 0,
                pre: 0,
                rely: 0,
                guar: 0,
                post: 0,
                promised: List::EMPTY,
            },
            statements: Vec::new(alloc),
            blocks: Vec::new(alloc),
            rows: Vec::new(alloc),
            updates: Vec::new(alloc),
            indices: Vec::new(alloc),
            asked: Vec::new(alloc),
            parts: Vec::new(alloc),
            part_names: Texts::new(alloc),
            interrupts: Vec::new(alloc),
            interrupted: Texts::new(alloc),
            clauses: Vec::new(alloc),
            owned: Vec::new(alloc),
            assigned: Vec::new(alloc),
            lines: Vec::new(alloc),
            premises: Vec::new(alloc),
            openers: Vec::new(alloc),
            count: 0,
            used: None,
            round: 0,
            rounds: 0,
            at: None,
        }
    }

    /// Begins a round of a `for`, or a use of named statements.
    pub(crate) fn begin_round(&mut self) {
        self.rounds = self.rounds.saturating_add(1);
        self.round = self.rounds;
    }

    /// Adds the numbers that indices stand for at a fault.
    ///
    /// # Errors
    ///
    /// `FaultKind::Memory`.
    pub fn bindings(&self, bindings: &mut Vec<Binding>, fault: Fault) -> Result<(), Fault> {
        self.scope.bindings(bindings, fault.span)
    }

    /// What a fault's sentence may name.
    pub fn names<'s>(&'s self, bindings: &'s [Binding]) -> Names<'s> {
        Names {
            source: self.scope.source,
            words: &self.scope.shown,
            members: &self.scope.members,
            parts: &self.part_names,
            bindings,
            uses: &self.scope.uses,
        }
    }

    /// The statement of an index; past the last one, `skip`.
    pub fn statement(&self, index: usize) -> Statement {
        let statement = self.statements.get(index).copied();
        statement.unwrap_or(Statement::SKIP)
    }

    /// The block of an index; past the last one, an empty one.
    pub fn block(&self, index: usize) -> Block {
        self.blocks.get(index).copied().unwrap_or(Block::EMPTY)
    }

    /// The rows of a list.
    pub fn rows_of(&self, list: List) -> &[BlockRow] {
        self.rows.get(list.start..list.end).unwrap_or(&[])
    }

    /// The row of an index; past the last one, an assertion of nothing.
    pub(crate) fn row(&self, index: usize) -> BlockRow {
        let nothing = BlockRow::Assertion(Assertion::NOTHING);
        self.rows.get(index).copied().unwrap_or(nothing)
    }

    /// The updates of a list.
    pub fn updates_of(&self, list: List) -> &[Update] {
        self.updates.get(list.start..list.end).unwrap_or(&[])
    }

    /// How many statements these rows have.
    pub(crate) fn statements_in(&self, list: List) -> usize {
        self.rows_of(list)
            .iter()
            .filter(|row| matches!(**row, BlockRow::Statement(_)))
            .count()
    }

    /// The assertion with the invariant, or `false` where it is `false`. Faults are `MeaningFault::TooLarge` at the span, and `FaultKind::Memory`.
    pub(crate) fn asserted(&mut self, own: usize, span: Span, origin: Origin) -> Assertion {
        let mut full = own;
        if !self.scope.forest.is_truth(own, false) {
            let invariant = self.specification.invariant;
            full = self.conjoined(&[invariant, own], span);
        }
        Assertion {
            own,
            full,
            span,
            origin,
            round: self.round,
        }
    }

    /// The tree of these together.
    pub(crate) fn conjoined(&mut self, formulas: &[usize], span: Span) -> usize {
        let made = self.scope.forest.conjoined(formulas, span);
        self.scope.made(made)
    }

    /// The assertion that a formula of one state is. Faults are the first `MeaningFault` in the order of reading, and `FaultKind::Memory`.
    pub(crate) fn state_assertion(&mut self, formula: usize) -> Assertion {
        let written = self.scope.written.expression(formula);
        let tree = self.scope.state_formula(formula);
        let span = written.map_or(NOWHERE, |expression| expression.span);
        self.asserted(tree, span, Origin::Written)
    }
}
