//! Outlines as they are written: their tokens, the trees that the tokens spell, and the report of the first fault with the place at which it stands.
#![tactic(auto)]

mod expressions;
mod fault;
mod files;
mod infix;
mod kind;
mod outlines;
mod parser;
mod report;
mod scan;
mod sentences;
mod span;
mod statements;
mod texts;
mod tokens;
mod written;

pub use fault::{Fault, FaultKind, MeaningFault, ShapeFault, TokenFault, UseFault};
pub use files::{MOST_FILES, SEPARATOR, file_of, own_start, push_file, uses_of, without_quotes};
pub use infix::Infix;
pub use kind::{Keyword, Kind, Symbol};
pub use outlines::parse;
pub use report::{
    Binding, Names, push_carets, push_count, push_line_of, push_number, push_phrase, push_place,
    push_position, push_sentence, tell,
};
pub use span::{Position, Span};
pub use texts::Texts;
pub use tokens::{Token, Tokens};
pub use written::{
    Assignment, Binder, Clause, Comparison, Conditional, Declaration, Expression, ExpressionKind,
    Head, HeadKind, Item, ItemKind, Junction, Let, List, Operator, PartWritten, Procedure, Range,
    Standing, Written,
};
