//! Statements of C that stand in the functions of a header, and where they are written.

use rg_c_plan::kind::Kind;
use rg_c_values::print::Read;
use rg_c_values::tree::{Test, Value};
use rg_words::Layout;
use std::alloc::Global;

/// What an assignment is to: a word, or its local.
#[derive(Clone, Copy, Debug, PartialEq, Eq)]
pub enum Target {
    Word,
    Local,
}

/// A local variable that has a truth.
#[derive(Clone, Copy, Debug, PartialEq, Eq)]
pub enum Flag {
    /// Whether the step is made.
    Done,
    /// Whether the test at this place in the listing was true.
    Go(usize),
}

/// What an `if` asks.
#[derive(Clone, Copy)]
pub(crate) enum Asked<'a> {
    Asks(&'a Test),
    Flagged(Flag),
}

/// What an assignment does: where the test holds, if there is one, the word gets the value.
#[derive(Drop)]
pub(crate) struct Given {
    pub(crate) test: Option<Test>,
    pub(crate) word: usize,
    pub(crate) value: Value,
}

/// What is given to an item of the array that begins at a word.
#[derive(Clone, Copy)]
pub(crate) struct Item<'a> {
    pub(crate) index: &'a Value,
    pub(crate) first: usize,
    pub(crate) value: &'a Value,
}

/// A statement without others in it.
#[derive(Clone, Copy)]
pub(crate) enum Line<'a> {
    Remark(&'a str),
    /// A macro that changes none of the words.
    Hook(&'a str),
    /// A local gets its word's value, by a load.
    Loads(usize),
    /// A load whose value isn't read.
    Discards(usize),
    /// A word that is to be exchanged is loaded, into `rgc_old` and its local.
    Begins(usize),
    /// A compare-and-exchange of a word for its local.
    Exchanges(usize),
    Declares(Flag),
    Decides(Flag, &'a Test),
    Breaks,
}

/// Statements, which are printed with the words and kinds of a sheet.
#[derive(Clone, Copy)]
pub(crate) enum Code<'a> {
    Nothing,
    Then(&'a Code<'a>, &'a Code<'a>),
    /// The first of two, where this is so, and else the second.
    Which(bool, &'a Code<'a>, &'a Code<'a>),
    Single(Line<'a>),
    /// Locals get their words' values.
    Copies(&'a [usize]),
    /// Where the step is made, words get their locals' values.
    Returned(&'a [usize]),
    /// Assignments to locals, and to words, where those that together are one store are written as that.
    ToLocals(&'a [Given]),
    ToWords(&'a [Given]),
    Block(&'a Code<'a>),
    Forever(&'a Code<'a>),
    /// What is done where the step is made, and where a question is answered by yes, or by no.
    IfDone(&'a Code<'a>),
    When(Asked<'a>, &'a Code<'a>),
    Unless(Asked<'a>, &'a Code<'a>),
    Either(Asked<'a>, &'a Code<'a>, &'a Code<'a>),
}

pub(crate) const BREAKS: Code<'static> = Code::Single(Line::Breaks);

pub(crate) const WAITING: Code<'static> = Code::Single(Line::Hook("RGC_WAIT(w)"));

/// Where statements are written: the words and their kinds as the part sees them, how they are read, the indent, the part's place,
/// from 0, whether steps are marked, and the lines that are printed for those of the program.
#[derive(Clone, Copy)]
pub(crate) struct Sheet<'a> {
    pub(crate) alloc: Global,
    pub(crate) layout: &'a Layout,
    pub(crate) kinds: &'a [Kind],
    pub(crate) reads: &'a [Read],
    pub(crate) indent: &'a str,
    pub(crate) part: usize,
    pub(crate) is_traced: bool,
    pub(crate) lines: &'a [u64],
}
