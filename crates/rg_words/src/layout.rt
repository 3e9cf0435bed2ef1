//! The declared words: their names and widths, in the order of declaration.

ghost use Rattle.std.specs.Prelude.{◌≡◌, ◌↔◌, ◌<◌, ◌≤◌, ℕ, List, [], ◌∷◌, ◌++◌, Bool, true, false, length, None, IsTrue, OnOk, OnErr, IfOk, IfSome, slice_get, slice_index, slice_index_or};
ghost use Rattle.rg_words.specs.Names.{IsName};
ghost use Rattle.rg_words.specs.Layout.{Word, index_of, names_of, widths_of, fixed_of, IsWidth, IsLayout, declaration_fault};
ghost use Rattle.rg_words.specs.Refusals.{IsRefusedFor};

use crate::limits::{MOST_WIDTH, MOST_WORDS};
use crate::refusal::{Refusal, RefusalNumber};
use indexmap::IndexMap;
use std::alloc::{AllocError, Global};
use std::marker::Model;

/// What is declared of a word beside its name.
#[derive(Clone, Copy, Debug, PartialEq, Eq)]
pub struct Declared {
    width: u32,
    fixed: bool,
}

/// Words by name, in the order of their declaration; a word's number is its place, from 0.
#[derive(Drop)]
pub struct Layout {
    alloc: Global,
    words: IndexMap<String, Declared>,
}

impl Model for Layout {
    ghost use Rattle.std.specs.Prelude.{List};
    ghost use Rattle.rg_words.specs.Layout.{Word};

    ghost Value = { List Word };

    ghost use Rattle.rg_words.specs.Layout.{words_of_entries, IsLayout};

    ghost view = { λ l. words_of_entries l.words.entries };

    ghost invariant = { λ l. IsLayout (words_of_entries l.words.entries) };
}

impl Layout {
    /// No words.
    pub fn new(alloc: Global) -> Layout
        ensures { result ≡ [] }
    {
        Layout {
            alloc,
            words: IndexMap::new(alloc),
        }
    }

    /// The count of words.
    pub fn len(&self) -> usize
        ensures count { result ≡ length self.now }
        ensures layout { IsLayout self.now }
    {
        self.words.len()
    }

    /// What is known of every layout, for proofs: there is nothing to do.
    pub fn facts(&self)
        ensures layout { IsLayout self.now }
    {
        let _ = self.len();
    }

    /// The word of this name.
    pub fn find(&self, name: &str) -> Option<usize>
        ensures exact { result ≡ index_of self.now name.now }
        ensures within { IfSome result (λ word. word < length self.now) }
        ensures named { IfSome result (λ word. slice_index_or (names_of self.now) word [] ≡ name.now) }
    {
        self.words.get_index_of(name)
    }

    /// A word's name, and what is declared of it.
    fn word(&self, word: usize) -> (&str, Declared)
        requires { word < length self.now }
        ensures exact { slice_get self.now word ≡ Some (record { name = result.0.now; width = result.1.width; fixed = result.1.fixed }) }
        ensures layout { IsLayout self.now }
    {
        let (name, declared) = self.words.get_index(word).unwrap();
        (name, *declared)
    }

    /// The name of a word.
    pub fn name(&self, word: usize) -> &str
        requires { word < length self.now }
        ensures exact { result.now ≡ slice_index_or (names_of self.now) word [] }
        ensures name { IsName result.now }
    {
        self.word(word).0
    }

    /// The width of a word, in bits.
    pub fn width(&self, word: usize) -> u32
        requires { word < length self.now }
        ensures exact { result ≡ slice_index (widths_of self.now) word }
        ensures range { IsWidth result }
    {
        self.word(word).1.width
    }

    /// Whether no step changes the word.
    pub fn is_fixed(&self, word: usize) -> bool
        requires { word < length self.now }
        ensures { result ≡ slice_index_or (fixed_of self.now) word false }
    {
        self.word(word).1.fixed
    }

    /// Puts a word after the others.
    fn push(&mut self, name: &str, width: u32, fixed: bool) -> Result<(), AllocError>
        requires name { IsName name.now }
        requires absent { index_of self.old name.now ≡ None }
        requires width { IsWidth width }
        requires room { length self.old < MOST_WORDS }
        ensures ok { OnOk result (self.new ≡ self.old ++ record { name = name.now; width = width; fixed = fixed } ∷ []) }
        ensures err { OnErr result (self.new ≡ self.old) }
    {
        let name = String::from_str(self.alloc, name)?;
        self.words.insert(name, Declared { width, fixed })?;
        Ok(())
    }

    /// Declares a word, or says why it can't be declared.
    fn declare(&mut self, name: &str, width: u32, fixed: bool) -> Result<(), Refusal>
        requires { IsName name.now }
        ensures ok { OnOk result (self.new ≡ self.old ++ record { name = name.now; width = width; fixed = fixed } ∷ []) }
        ensures err { OnErr result (self.new ≡ self.old) }
        ensures refusal { IsRefusedFor (declaration_fault self.old name.now width) result }
    {
        if self.find(name).is_some() {
            return Err(Refusal::new(RefusalNumber::NameTwice));
        }
        if width < 1 || width > MOST_WIDTH {
            return Err(Refusal::new(RefusalNumber::Width));
        }
        if self.len() >= MOST_WORDS {
            return Err(Refusal::new(RefusalNumber::Limit));
        }
        self.push(name, width, fixed)?;
        Ok(())
    }

    /// Declares a word that steps may change, after the others.
    ///
    /// Refused, and then unchanged: `NameTwice` where the name is declared already, else `Width` where the width isn't
    /// from 1 to 64, else `Limit` where there are 64 words already; `Memory` where memory was refused.
    pub fn add(&mut self, name: &str, width: u32) -> Result<(), Refusal>
        requires { IsName name.now }
        ensures ok { OnOk result (self.new ≡ self.old ++ record { name = name.now; width = width; fixed = false } ∷ []) }
        ensures err { OnErr result (self.new ≡ self.old) }
        ensures refusal { IsRefusedFor (declaration_fault self.old name.now width) result }
    {
        self.declare(name, width, false)
    }

    /// Declares a word that no step changes, after the others. Refused as `add` is.
    pub fn add_fixed(&mut self, name: &str, width: u32) -> Result<(), Refusal>
        requires { IsName name.now }
        ensures ok { OnOk result (self.new ≡ self.old ++ record { name = name.now; width = width; fixed = true } ∷ []) }
        ensures err { OnErr result (self.new ≡ self.old) }
        ensures refusal { IsRefusedFor (declaration_fault self.old name.now width) result }
    {
        self.declare(name, width, true)
    }

    /// A layout of equal words.
    pub fn copy(&self) -> Result<Layout, AllocError>
        ensures { IfOk result (λ copy. copy ≡ self.now) }
    {
        let mut copy = Layout::new(self.alloc);
        for word in 0..self.len() {
            let (name, declared) = self.word(word);
            copy.push(name, declared.width, declared.fixed)?;
        }
        Ok(copy)
    }

    /// Whether both declare the same words in the same order.
    pub fn same(&self, other: &Layout) -> bool
        ensures { IsTrue result ↔ (self.now ≡ other.now) }
    {
        if self.len() != other.len() {
            return false;
        }
        for word in 0..self.len() {
            if self.word(word) != other.word(word) {
                return false;
            }
        }
        true
    }
}
