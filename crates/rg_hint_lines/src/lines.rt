//! The hint lines of a section, kept flat.

ghost use Rattle.std.specs.Prelude.{◌≡◌, ◌+◌, ◌<◌, ◌≤◌, ℕ, List, [], ◌∷◌, ◌++◌, length, All, OnOk, OnErr, slice_index_or, MatchOption, AllPairs, ◌≢◌};
ghost use Rattle.std.specs.List.{HoldsAt};
ghost use Rattle.rg_hint_lines.specs.Lines.{IsHintLiteral};

use rg_clauses::Rows;
use std::alloc::{AllocError, Global};
use std::marker::Model;

/// Few lines of a text are shorter.
const BYTES_OF_A_LINE: usize = 24;

/// Lines of a text have seldom more literals than one in so many bytes, or more hints.
const BYTES_OF_AN_ITEM: usize = 12;

/// A hint line's number, and its line in the text, which counts from 1.
#[derive(Clone, Copy)]
pub struct Head {
    pub id: u32,
    pub text_line: u64,
}

/// The hint lines of a section, over given clauses with the numbers from 1 on. The lines' own numbers rise
/// and are greater than those of the given clauses.
#[derive(Drop)]
pub struct Lines {
    given: usize,
    heads: Vec<Head>,
    literals: Rows<i32>,
    hints: Rows<u32>,
}

impl Model for Lines {
    ghost use Rattle.std.specs.Prelude.{◌≡◌, length};
    ghost use Rattle.rg_hint_lines.specs.Lines.{HintLine, Section};

    ghost Value = { Section };

    ghost use Rattle.rg_hint_lines.specs.Zipped.{zipped, IsZipped};

    ghost view = { λ a. record { given = a.given; lines = zipped a.heads.items a.literals a.hints } };

    ghost invariant = { λ a. IsZipped a.given a.heads.items a.literals a.hints };
}

/// The place of the head with this number, by binary search.
fn search_head(heads: &[Head], id: u32) -> Option<usize>
    requires { AllPairs (λ a b. a.id < b.id) heads.now }
    ensures { MatchOption result (All (λ a. a.id ≢ id) heads.now)
        (λ k. (k < length heads.now) × HoldsAt (λ a. a.id ≡ id) heads.now k) }
{
    let mut low = 0;
    let mut high = heads.len();
    while low < high {
        let middle = low + (high - low) / 2;
        let found = heads[middle].id;
        if found == id {
            return Some(middle);
        }
        if found < id {
            low = middle + 1;
        } else {
            high = middle;
        }
    }
    None
}

/// The place of the head with this number. Heads with the numbers from `given + 1` on are found at one
/// look.
fn find_head(heads: &[Head], given: usize, id: u32) -> Option<usize>
    requires { AllPairs (λ a b. a.id < b.id) heads.now }
    ensures { MatchOption result (All (λ a. a.id ≢ id) heads.now)
        (λ k. (k < length heads.now) × HoldsAt (λ a. a.id ≡ id) heads.now k) }
{
    let number = id as usize;
    if number > given {
        let place = number - given - 1;
        if place < heads.len() && heads[place].id == id {
            return Some(place);
        }
    }
    search_head(heads, id)
}

impl Lines {
    ghost use Rattle.std.specs.Prelude.{◌≡◌, ◌≢◌, ◌+◌, ◌<◌, ◌≤◌, ℕ, [], ◌∷◌, ◌++◌, length, All, OnOk, OnErr, IfOk, MatchOption};
    ghost use Rattle.rg_hint_lines.specs.Lines.{IsHintLiteral, HintLine, Section, hint_line_at, IsSection};

    /// No lines, over so many given clauses.
    pub fn new(alloc: Global, given: usize) -> Self
        ensures { result ≡ record { given = given; lines = [] } }
    {
        Lines {
            given,
            heads: Vec::new(alloc),
            literals: Rows::new(alloc),
            hints: Rows::new(alloc),
        }
    }

    /// No lines, over so many given clauses, with room for about those that so many bytes of a text spell.
    pub(crate) fn with_room(alloc: Global, clauses: usize, bytes: usize) -> Result<Self, AllocError>
        ensures { IfOk result (λ lines. lines ≡ record { given = clauses; lines = [] }) }
    {
        let rows = bytes / BYTES_OF_A_LINE;
        let items = bytes / BYTES_OF_AN_ITEM;
        Ok(Lines {
            given: clauses,
            heads: Vec::with_capacity(alloc, rows)?,
            literals: Rows::with_capacity(alloc, rows, items)?,
            hints: Rows::with_capacity(alloc, rows, items)?,
        })
    }

    /// The count of lines.
    pub fn len(&self) -> usize
        ensures value { result ≡ length self.now.lines }
        ensures section { IsSection self.now }
    {
        self.heads.len()
    }

    /// What is known of every section, for proofs: there is nothing to do.
    pub fn facts(&self)
        ensures section { IsSection self.now }
    {
        let _ = self.len();
    }

    /// A line's number.
    pub fn id(&self, index: usize) -> u32
        requires { index < length self.now.lines }
        ensures { result ≡ (hint_line_at self.now index).id }
    {
        self.heads[index].id
    }

    /// A line's line in the text.
    pub fn text_line(&self, index: usize) -> u64
        requires { index < length self.now.lines }
        ensures { result ≡ (hint_line_at self.now index).text_line }
    {
        self.heads[index].text_line
    }

    /// The literals of a line's clause.
    pub fn literals(&self, index: usize) -> &[i32]
        requires { index < length self.now.lines }
        ensures value { result.now ≡ (hint_line_at self.now index).literals }
        ensures literals { All IsHintLiteral result.now }
        ensures section { IsSection self.now }
    {
        self.literals.row(index)
    }

    /// A line's hints.
    pub fn hints(&self, index: usize) -> &[u32]
        requires { index < length self.now.lines }
        ensures { result.now ≡ (hint_line_at self.now index).hints }
    {
        self.hints.row(index)
    }

    /// The place of the line with this number, from 0 on. Where the numbers have no gaps it is found at
    /// one look, and else by binary search.
    pub fn find(&self, id: u32) -> Option<usize>
        ensures found { MatchOption result (All (λ line. line.id ≢ id) self.now.lines)
            (λ k. (k < length self.now.lines) × ((hint_line_at self.now k).id ≡ id)) }
        ensures section { IsSection self.now }
    {
        find_head(&self.heads, self.given, id)
    }

    /// The lines with one more. After an error they are gone.
    pub fn with_line(self, head: Head, literals: &[i32], hints: &[u32]) -> Result<Self, AllocError>
        requires past { self.given < head.id }
        requires rises { All (λ line. line.id < head.id) self.lines }
        requires literals { All IsHintLiteral literals.now }
        ensures { IfOk result (λ lines. lines ≡ record self {
          lines = self.lines
              ++ record { id = head.id; text_line = head.text_line; literals = literals.now; hints = hints.now }
              ∷ [];
        }) }
    {
        let Lines {
            given: count,
            mut heads,
            literals: mut all_literals,
            hints: mut all_hints,
        } = self;
        heads.push(head)?;
        all_literals.push(literals)?;
        all_hints.push(hints)?;
        Ok(Lines {
            given: count,
            heads,
            literals: all_literals,
            hints: all_hints,
        })
    }
}
