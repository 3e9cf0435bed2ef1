//! States: the values of the words.

ghost use Rattle.std.specs.Prelude.{◌≡◌, ◌<◌, ◌^◌, ◌↔◌, IfOk, IsTrue, length, replicate, slice_index, slice_set};
ghost use Rattle.rg_words.specs.Layout.{widths_of};
ghost use Rattle.rg_words.specs.States.{AreValues, IsState};

use crate::layout::Layout;
use std::alloc::{AllocError, Global};
use std::marker::Model;

/// A value for each word of a layout, each below 2 to the power of the word's width.
#[derive(Drop)]
pub struct State {
    widths: Vec<u32>,
    values: Vec<u64>,
}

impl Model for State {
    ghost use Rattle.rg_words.specs.States.{Valuation, AreValues};

    ghost Value = { Valuation };

    ghost view = { λ s. record { widths = s.widths.items; values = s.values.items } };

    ghost invariant = { λ s. AreValues s.widths.items s.values.items };
}

impl State {
    /// The state of a layout's words in which each of them is 0.
    pub fn zero(alloc: Global, layout: &Layout) -> Result<State, AllocError>
        ensures widths { IfOk result (λ s. s.widths ≡ widths_of layout.now) }
        ensures values { IfOk result (λ s. s.values ≡ replicate (length layout.now) 0) }
        ensures state { IfOk result (λ s. IsState layout.now s.values) }
    {
        let values = vec![in alloc; 0u64; layout.len()]?;
        let mut widths = Vec::with_capacity(alloc, layout.len())?;
        for word in 0..layout.len() {
            widths.push(layout.width(word))?;
        }
        Ok(State { widths, values })
    }

    /// The count of words.
    pub fn len(&self) -> usize
        ensures count { result ≡ length self.now.values }
        ensures widths { length self.now.widths ≡ length self.now.values }
        ensures state { AreValues self.now.widths self.now.values }
    {
        self.values.len()
    }

    /// What is known of every state, for proofs: there is nothing to do.
    pub fn facts(&self)
        ensures widths { length self.now.widths ≡ length self.now.values }
        ensures state { AreValues self.now.widths self.now.values }
    {
        let _ = self.len();
    }

    /// The value of a word.
    pub fn get(&self, word: usize) -> u64
        requires { word < length self.now.values }
        ensures exact { result ≡ slice_index self.now.values word }
        ensures bound { result < 2 ^ slice_index self.now.widths word }
    {
        self.values[word]
    }

    /// Gives a word a value, which fits its width. No other word changes.
    pub fn set(&mut self, word: usize, value: u64)
        requires word { word < length self.old.values }
        requires value { value < 2 ^ slice_index self.old.widths word }
        ensures values { self.new.values ≡ slice_set self.old.values word value }
        ensures widths { self.new.widths ≡ self.old.widths }
    {
        self.values[word] = value;
    }

    /// Whether each word has the same value in both.
    pub fn same(&self, other: &State) -> bool
        ensures { IsTrue result ↔ (self.now.values ≡ other.now.values) }
    {
        self.values == other.values
    }

    /// A state of equal words and values.
    pub fn copy(&self) -> Result<State, AllocError>
        ensures { IfOk result (λ copy. copy ≡ self.now) }
    {
        Ok(State {
            widths: self.widths.clone()?,
            values: self.values.clone()?,
        })
    }
}
