//! A change of an outline's program.

use rg_outline_syntax::Span;

/// What stands in the place of a piece of an outline.
#[derive(Clone, Copy)]
pub enum Replacement {
    Text(&'static str),
    Number(u64),
    /// The piece between `not (` and `)`.
    Negated,
    /// The piece and 1 added, in parentheses.
    More,
    /// The piece without 1, in parentheses.
    Less,
}

/// How the bytes of an outline are changed.
#[derive(Clone, Copy)]
pub enum Edit {
    /// This piece is replaced.
    Replaced(Span, Replacement),
    /// This piece and a later one are exchanged; what stands between them stays.
    Exchanged(Span, Span),
    /// A statement and the next one of its block are exchanged; what stands between them may be another assertion.
    StatementsExchanged(Span, Span),
    /// A step of several assignments is cut in two steps where this stands between two of them.
    Cut(Span),
}

/// Which assertion stands at a place that only the change makes: between two statements that are exchanged, or two steps of one.
#[derive(Clone, Copy, PartialEq, Eq)]
pub enum Between {
    /// What stands there.
    Written,
    /// None: the one before holds on.
    Nothing,
    /// The one that stands after both.
    Following,
    /// `true`, which is the invariant alone.
    Invariant,
}

/// Which words a change touches.
#[derive(Clone, Copy, PartialEq, Eq)]
pub enum ChangeGroup {
    /// Words of the program's rely, guar or post.
    Specification,
    /// Other words.
    Others,
    /// The test of a wait, or words that are read by such tests alone.
    Waits,
    /// Words on which no test and no word of the program's rely, guar and post depends.
    Proof,
}

/// A change of an outline's program. Its specification stays as it is.
#[derive(Clone, Copy)]
pub struct Change {
    /// The statement that is changed, from its first byte to its end.
    pub statement: Span,
    /// What is changed of it.
    pub place: Span,
    pub edit: Edit,
    /// The formula of the assertion that stands after what is changed, where one is written.
    pub after: Option<Span>,
    pub group: ChangeGroup,
}

impl Between {
    /// All, in the order in which they are tried.
    pub const ALL: [Between; 4] = [
        Between::Written,
        Between::Nothing,
        Between::Following,
        Between::Invariant,
    ];
}

impl Change {
    /// Whether a changed outline has this assertion at the place that the change makes.
    pub fn may_have(&self, between: Between) -> bool {
        match self.edit {
            Edit::Replaced(..) | Edit::Exchanged(..) => between == Between::Written,
            Edit::StatementsExchanged(..) => {
                between != Between::Following || self.after.is_some()
            }
            Edit::Cut(_) => match between {
                Between::Written => false,
                Between::Following => self.after.is_some(),
                Between::Nothing | Between::Invariant => true,
            },
        }
    }
}

/// What stands between two pieces.
pub(crate) fn gap(first: Span, second: Span) -> Span {
    Span {
        start: first.end,
        end: second.start,
    }
}
