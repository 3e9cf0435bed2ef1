//! The infix operators, by how tightly they bind.

use crate::written::{Comparison, Conditional, ExpressionKind, Junction, Operator};
use crate::{Keyword, Kind, ShapeFault, Span, Symbol};

/// The levels of what stands outside parentheses, from loose to tight.
pub(crate) const IMPLICATION: u8 = 1;

pub(crate) const JUNCTION: u8 = 2;

pub(crate) const UNIT: u8 = 3;

pub(crate) const COMPARISON: u8 = 4;

pub(crate) const VALUE: u8 = 5;

pub(crate) const LEAF: u8 = 6;

/// An infix operator.
#[derive(Clone, Copy, PartialEq, Eq)]
pub enum Infix {
    Imply(Conditional),
    Join(Junction),
    Compare(Comparison),
    Operate(Operator),
}

/// The infix operator that a token is; `mod` is a name to the tokens.
pub(crate) fn infix_of(kind: Kind, is_modulus: bool) -> Option<Infix> {
    match kind {
        Kind::Name if is_modulus => Some(Infix::Operate(Operator::Modulus)),
        Kind::Keyword(Keyword::Infix(infix)) | Kind::Symbol(Symbol::Infix(infix)) => Some(infix),
        _ => None,
    }
}

impl Infix {
    /// How tightly it binds.
    pub(crate) fn level(self) -> u8 {
        match self {
            Infix::Imply(_) => IMPLICATION,
            Infix::Join(_) => JUNCTION,
            Infix::Compare(_) => COMPARISON,
            Infix::Operate(_) => VALUE,
        }
    }

    /// Whether it may stand after what this operator of the same level made.
    pub(crate) fn may_follow(self, before: Option<Infix>) -> bool {
        match (before, self) {
            (Some(Infix::Join(first)), Infix::Join(second)) => first == second,
            (Some(Infix::Operate(first)), Infix::Operate(Operator::Add | Operator::Subtract)) => {
                matches!(first, Operator::Add | Operator::Subtract)
            }
            (Some(Infix::Operate(first)), Infix::Operate(second)) => {
                first == second
                    && matches!(
                        second,
                        Operator::BitAnd | Operator::BitOr | Operator::BitXor
                    )
            }
            _ => false,
        }
    }

    /// The fault where it can't go on a chain that has an operator at this first place.
    pub(crate) fn misplaced(self, first: Span) -> ShapeFault {
        match self {
            Infix::Imply(_) => ShapeFault::ImplicationsChained { first },
            Infix::Join(_) => ShapeFault::JunctionsMixed,
            Infix::Compare(_) => ShapeFault::ComparisonsChained,
            Infix::Operate(_) => ShapeFault::OperatorsMixed,
        }
    }

    /// The expression that it makes of two.
    pub(crate) fn joined(self, left: usize, right: usize) -> ExpressionKind {
        match self {
            Infix::Imply(conditional) => ExpressionKind::Imply(conditional, left, right),
            Infix::Join(junction) => ExpressionKind::Join(junction, left, right),
            Infix::Compare(comparison) => ExpressionKind::Compare(comparison, left, right),
            Infix::Operate(operator) => ExpressionKind::Operate(operator, left, right),
        }
    }
}
