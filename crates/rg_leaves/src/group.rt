//! The groups of leaves that have one width.

ghost use Rattle.std.specs.Prelude.{◌≡◌, ◌≤◌};
ghost use Rattle.std.specs.Option.{option_map};
ghost use Rattle.rg_syntax.specs.Written.{term};
ghost use Rattle.rg_leaves.specs.Leaves.{first_name, group_of, after_first, is_other, width_of};

use crate::leaf::{find, text, unprimed};
use rg_syntax::written::ExpressionText;
use rg_words::Layout;
use rg_words::limits::MOST_WIDTH;

/// What is asked of the leaves of a comparison.
#[derive(Clone, Copy)]
pub enum Group {
    /// Each word has this width, in bits, and each number is below 2 to its power.
    Width(u32),
    /// No width is known, and none is asked: the fault is at another leaf.
    Unasked,
    /// No leaf is a word: the next number is at fault.
    Wordless,
}

impl Group {
    /// What is asked after the first operand: that no leaf is a word is reported once.
    pub fn after_first(self) -> Group
        ensures exact { result ≡ after_first self }
        ensures width { width_of result ≡ width_of self }
    {
        match self {
            Group::Width(width) => Group::Width(width),
            Group::Unasked | Group::Wordless => Group::Unasked,
        }
    }

    /// The width, or 0.
    pub fn width(self) -> u32
        ensures { result ≡ width_of self }
    {
        match self {
            Group::Width(width) => width,
            Group::Unasked | Group::Wordless => 0,
        }
    }

    /// Whether a word of this width is at fault.
    pub fn asks_other(self, width: u32) -> bool
        ensures { result ≡ is_other self width }
    {
        match self {
            Group::Width(asked) => width != asked,
            Group::Unasked | Group::Wordless => false,
        }
    }
}

/// The name of the first word, plain or primed, outside the formulas of `(if ..)`.
fn first_name<'a>(source: &'a [u8], e: &ExpressionText) -> Option<&'a [u8]>
    ensures { option_map (λ name. name.now) result ≡ first_name (term source.now e.now) }
{
    match e {
        ExpressionText::Number(_) => None,
        ExpressionText::Word(token) => Some(text(source, token)),
        ExpressionText::NextWord(token) => Some(unprimed(text(source, token))),
        ExpressionText::Inverse(a) | ExpressionText::Shifted(_, a, _) => first_name(source, a),
        ExpressionText::Binary(_, a, b) | ExpressionText::If(_, a, b) => match first_name(
            source, a,
        ) {
            Some(name) => Some(name),
            None => first_name(source, b),
        },
    }
}

/// The group of a comparison of these two.
#[tactic(auto, unfolding(crate::specs::Leaves::group_of))]
pub fn group_of(layout: &Layout, source: &[u8], a: &ExpressionText, b: &ExpressionText) -> Group
    ensures exact { result ≡ group_of layout.now (term source.now a.now) (term source.now b.now) }
    ensures range { width_of result ≤ MOST_WIDTH }
{
    let first = match first_name(source, a) {
        Some(name) => Some(name),
        None => first_name(source, b),
    };
    match first {
        None => Group::Wordless,
        Some(name) => match find(layout, name) {
            None => Group::Unasked,
            Some(word) => Group::Width(layout.width(word)),
        },
    }
}
