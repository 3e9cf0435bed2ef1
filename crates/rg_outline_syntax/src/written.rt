//! The trees of an outline as they are written.

use crate::Span;
use std::alloc::Global;

/// How two values are compared.
#[derive(Clone, Copy, PartialEq, Eq, Hash)]
pub enum Comparison {
    Equal,
    NotEqual,
    Less,
    LessOrEqual,
    Greater,
    GreaterOrEqual,
}

/// An operation on two values.
#[derive(Clone, Copy, PartialEq, Eq, Hash)]
pub enum Operator {
    Add,
    Subtract,
    BitAnd,
    BitOr,
    BitXor,
    ShiftLeft,
    ShiftRight,
    /// The rest of a division of numbers.
    Modulus,
}

/// A connective that may stand between several formulas.
#[derive(Clone, Copy, PartialEq, Eq, Hash)]
pub enum Junction {
    And,
    Or,
}

/// A connective that stands between two formulas.
#[derive(Clone, Copy, PartialEq, Eq, Hash)]
pub enum Conditional {
    Implies,
    Iff,
}

/// What is made of the instances of a tree, one for each number of a range.
#[derive(Clone, Copy, PartialEq, Eq)]
pub enum Binder {
    /// All hold.
    All,
    /// One of them holds.
    Some,
    /// Their sum.
    Sum,
}

/// Places in one of the lists of a `Written`, from the first to after the last.
#[derive(Clone, Copy, PartialEq, Eq)]
pub struct List {
    pub start: usize,
    pub end: usize,
}

/// A formula or a value. Its operands are indices of earlier expressions.
#[derive(Clone, Copy)]
pub struct Expression {
    pub kind: ExpressionKind,
    pub span: Span,
}

/// What a formula or a value is made of.
#[derive(Clone, Copy)]
pub enum ExpressionKind {
    Number(u64),
    Truth(bool),
    /// A name with arguments or with indices, which are `listed` expressions.
    Name {
        name: Span,
        listed: List,
        has_arguments: bool,
        is_primed: bool,
    },
    /// An expression in parentheses.
    Group(usize),
    Not(usize),
    Keeps(usize),
    Inverse(usize),
    /// `unchanged` with words, which are `listed` expressions.
    Unchanged(List),
    /// `unchanged all but` these words.
    UnchangedBut(List),
    /// A quantifier or a sum: the name of the index, the place of the range, and the body.
    Bound {
        binder: Binder,
        index: Span,
        range: usize,
        body: usize,
    },
    Choice {
        test: usize,
        yes: usize,
        no: usize,
    },
    Compare(Comparison, usize, usize),
    Operate(Operator, usize, usize),
    Join(Junction, usize, usize),
    Imply(Conditional, usize, usize),
}

/// Numbers from one to another, without some: the bounds are expressions, those left out are `listed` expressions.
#[derive(Clone, Copy)]
pub struct Range {
    pub first: usize,
    pub last: usize,
    pub without: List,
    pub span: Span,
}

/// A word and the value that it gets, as expressions.
#[derive(Clone, Copy)]
pub struct Assignment {
    pub target: usize,
    pub value: usize,
    pub span: Span,
}

/// A statement or an assertion.
#[derive(Clone, Copy)]
pub struct Item {
    pub kind: ItemKind,
    /// Where it stands; of an `if` or a `while`, its test.
    pub span: Span,
}

/// What a block is made of. A block is a list of `listed` items.
#[derive(Clone, Copy)]
pub enum ItemKind {
    Assertion(usize),
    Skip,
    /// A use of named statements: an expression.
    Use(usize),
    Assign(usize),
    Atomic(List),
    /// A guard and, where it has them, assignments.
    Await(usize, Option<List>),
    If {
        test: usize,
        yes: List,
        no: Option<List>,
    },
    While {
        test: usize,
        invariant: Option<usize>,
        body: List,
    },
    For {
        index: Span,
        range: usize,
        body: List,
    },
}

/// A name for a tree, with parameters, which are a list of `names`.
#[derive(Clone, Copy)]
pub struct Let {
    pub name: Span,
    pub parameters: List,
    pub body: usize,
    /// From the name to the end of the body.
    pub span: Span,
}

/// A name for statements, with parameters, which are a list of `names`.
#[derive(Clone, Copy)]
pub struct Procedure {
    pub name: Span,
    pub parameters: List,
    /// A list of `listed` items.
    pub body: List,
    /// From the name to the end of the body.
    pub span: Span,
}

/// Which formula of a specification a clause gives.
#[derive(Clone, Copy, PartialEq, Eq)]
pub enum Clause {
    Invariant,
    Pre,
    Rely,
    Guar,
    Post,
}

/// What stands before a body.
#[derive(Clone, Copy)]
pub struct Head {
    pub kind: HeadKind,
    pub span: Span,
}

/// A name for a tree or for statements, what is owned, which part is interrupted, or a clause of the specification.
#[derive(Clone, Copy)]
pub enum HeadKind {
    Let(Let),
    Procedure(Procedure),
    /// Words, which are `listed` expressions.
    Owns(List),
    /// The name of a part, and its indices, which are `listed` expressions.
    Interrupts(Span, List),
    /// A clause with its formula.
    Clause(Clause, usize),
}

/// What the steps may do with a word.
#[derive(Clone, Copy, PartialEq, Eq)]
pub enum Standing {
    /// Any step may read and write it.
    Plain,
    /// No step writes it.
    Fixed,
    /// It is there for the proof: no step depends on it.
    Auxiliary,
}

/// A word, or a family of words with these `listed` ranges.
#[derive(Clone, Copy)]
pub struct Declaration {
    pub name: Span,
    pub standing: Standing,
    pub ranges: List,
    pub width: usize,
}

/// A part, or a family of parts with an index in a range.
#[derive(Clone, Copy)]
pub struct PartWritten {
    pub name: Span,
    pub index: Option<(Span, usize)>,
    /// A list of `heads`.
    pub heads: List,
    /// A list of `listed` items.
    pub body: List,
    /// From its name to its end.
    pub span: Span,
}

/// An outline as it is written.
#[derive(Drop)]
pub struct Written {
    pub expressions: Vec<Expression>,
    pub ranges: Vec<Range>,
    pub assignments: Vec<Assignment>,
    pub items: Vec<Item>,
    /// Indices of expressions, ranges or items, in lists.
    pub listed: Vec<usize>,
    pub names: Vec<Span>,
    pub heads: Vec<Head>,
    pub declarations: Vec<Declaration>,
    pub parts: Vec<PartWritten>,
    /// The names of numbers before the words, and what stands between the words and the parts: lists of `heads`.
    pub before_words: List,
    pub following_words: List,
}

impl List {
    /// No places.
    pub const EMPTY: List = List { start: 0, end: 0 };

    /// The places from the first to after the last.
    pub fn new(start: usize, end: usize) -> List {
        List { start, end }
    }

    /// How many places it has.
    pub fn len(self) -> usize {
        self.end.saturating_sub(self.start)
    }

    /// Whether it has none.
    pub fn is_empty(self) -> bool {
        self.start >= self.end
    }
}

impl Written {
    /// Nothing yet.
    pub fn new(alloc: Global) -> Written {
        Written {
            expressions: Vec::new(alloc),
            ranges: Vec::new(alloc),
            assignments: Vec::new(alloc),
            items: Vec::new(alloc),
            listed: Vec::new(alloc),
            names: Vec::new(alloc),
            heads: Vec::new(alloc),
            declarations: Vec::new(alloc),
            parts: Vec::new(alloc),
            before_words: List::EMPTY,
            following_words: List::EMPTY,
        }
    }

    /// The indices of a list.
    pub fn listed(&self, list: List) -> &[usize] {
        self.listed.get(list.start..list.end).unwrap_or(&[])
    }

    /// The names of a list.
    pub fn named(&self, list: List) -> &[Span] {
        self.names.get(list.start..list.end).unwrap_or(&[])
    }

    /// The heads of a list.
    pub fn heads(&self, list: List) -> &[Head] {
        self.heads.get(list.start..list.end).unwrap_or(&[])
    }

    /// The assignments of a list.
    pub fn assigned(&self, list: List) -> &[Assignment] {
        self.assignments.get(list.start..list.end).unwrap_or(&[])
    }

    /// The expression of an index.
    pub fn expression(&self, index: usize) -> Option<Expression> {
        self.expressions.get(index).copied()
    }

    /// The first of an expression and those in it: they stand before it, without a gap.
    pub fn first_within(&self, index: usize) -> usize {
        let place = self
            .expression(index)
            .map_or(Span::NOWHERE, |expression| expression.span);
        let end = index.saturating_add(1);
        let known = self.expressions.get(..end).unwrap_or(&[]);
        let count = known
            .iter()
            .rev()
            .take_while(|inner| place.start <= inner.span.start)
            .count();
        known.len().saturating_sub(count)
    }
}
