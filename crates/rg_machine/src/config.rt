//! Configurations of flat code, and their steps.

ghost use Rattle.std.specs.Prelude.{◌≡◌, ◌↔◌, ◌≤◌, ◌<◌, IsTrue, IsFalse, IfOk, length};
ghost use Rattle.rg_words.specs.Layout.{widths_of};
ghost use Rattle.rg_words.specs.States.{IsPair};
ghost use Rattle.rg_code.specs.Code.{zeros};
ghost use Rattle.rg_code.specs.CodeTrees.{code_blocks};
ghost use Rattle.rg_machine.specs.Replay.{IsMoveTo};
ghost use Rattle.rg_machine.specs.Machine.{block_of, CanStep, IsAtEnd, StepFits, line_of};

use crate::lead::{block_at, can_lead, lead};
use crate::replace::{agree_on_fixed, replace};
use crate::room::code_room;
use rg_code::block::Block;
use rg_code::code::Code;
use rg_words::State;
use std::alloc::{AllocError, Global};
use std::marker::Model;

/// What a step did.
#[derive(Clone, Copy, PartialEq, Eq)]
pub enum Stepped {
    /// The part's block.
    Did,
    /// Nothing: the part's guard doesn't hold.
    Blocked,
    /// Nothing: the part is at its end.
    Ended,
}

/// Code that is lent, with the state of its words, the place of each part, and room for the operands of each step.
///
/// A part is named by its number, from 1.
#[derive(Drop)]
pub struct Config<'e> {
    alloc: Global,
    code: &'e Code,
    state: State,
    places: Vec<usize>,
    stack: Vec<u64>,
}

impl<'e> Model for Config<'e> {
    ghost use Rattle.std.specs.Prelude.{vec_capacity};
    ghost use Rattle.rg_code.specs.CodeTrees.{code_blocks};
    ghost use Rattle.rg_machine.specs.Kept.{IsKept};
    ghost use Rattle.rg_machine.specs.Machine.{Configuration};

    ghost Value = { Configuration };

    ghost view = { λ c. record { words = c.code.now.layout; codes = code_blocks c.code.now; state = c.state.values; places = c.places.items } };

    ghost invariant = { λ c. IsKept c.code.now.layout (code_blocks c.code.now) c.state.widths c.places.items (vec_capacity c.stack) };
}

impl<'e> Config<'e> {
    /// Each part at its first block, from this state of the code's words.
    pub fn new(alloc: Global, code: &'e Code, state: State) -> Result<Config<'e>, AllocError>
        requires { state.widths ≡ widths_of code.now.layout }
        ensures { IfOk result (λ c. c
            ≡ record
            { words = code.now.layout; codes = code_blocks code.now; state = state.values; places = zeros (code_blocks code.now) }) }
    {
        let places = vec![in alloc; 0usize; code.parts.len()]?;
        let stack = Vec::with_capacity(alloc, code_room(code))?;
        Ok(Config {
            alloc,
            code,
            state,
            places,
            stack,
        })
    }

    /// An equal configuration.
    pub fn copy(&self) -> Result<Config<'e>, AllocError>
        ensures { IfOk result (λ c. c ≡ self.now) }
    {
        let state = self.state.copy()?;
        let places = Vec::from_slice(self.alloc, self.places.as_slice())?;
        let stack = Vec::with_capacity(self.alloc, code_room(self.code))?;
        Ok(Config {
            alloc: self.alloc,
            code: self.code,
            state,
            places,
            stack,
        })
    }

    /// The count of parts.
    pub fn parts(&self) -> usize
        ensures { result ≡ length self.now.codes }
    {
        self.code.parts.len()
    }

    /// The state of the words.
    pub fn words(&self) -> &State
        ensures values { result.now.values ≡ self.now.state }
        ensures widths { result.now.widths ≡ widths_of self.now.words }
    {
        &self.state
    }

    /// Whether a part stands at its end.
    pub fn at_end(&self, part: usize) -> bool
        requires { (0 < part) × (part ≤ length self.now.codes) }
        ensures { IsTrue result ↔ IsAtEnd self.now part }
    {
        matches!(block_at(self.code, &self.places, part), Block::End)
    }

    /// The line of the statement at which a part stands, from 1; 0 at its end.
    pub fn line(&self, part: usize) -> u32
        requires { (0 < part) × (part ≤ length self.now.codes) }
        ensures { result ≡ line_of (block_of self.now part) }
    {
        match block_at(self.code, &self.places, part) {
            Block::Do(line, _, _) | Block::Await(line, _, _, _) | Block::Test(line, _, _, _) =>
                *line,
            Block::End => 0,
        }
    }

    /// Whether a step of this part would do its block. The configuration stays as it is.
    pub fn can_step(&mut self, part: usize) -> bool
        requires { (0 < part) × (part ≤ length self.old.codes) }
        ensures can { IsTrue result ↔ CanStep self.old part }
        ensures same { self.new ≡ self.old }
    {
        let block = block_at(self.code, &self.places, part);
        can_lead(&mut self.stack, block, &self.code.layout, &self.state)
    }

    /// Does the block at which a part stands, if it can be done. It takes no memory.
    pub fn step(&mut self, part: usize) -> Stepped
        requires { (0 < part) × (part ≤ length self.old.codes) }
        ensures { StepFits self.old part result self.new }
    {
        let block = block_at(self.code, &self.places, part);
        if matches!(block, Block::End) {
            return Stepped::Ended;
        }
        self.state.facts();
        match lead(&mut self.stack, block, &self.code.layout, &mut self.state) {
            Some(to) => {
                self.places[part - 1] = to;
                Stepped::Did
            }
            None => Stepped::Blocked,
        }
    }
    /// The environment makes this the state of the words, if it agrees on the fixed words. It takes no memory.
    pub fn change(&mut self, state: &State) -> bool
        requires { state.now.widths ≡ widths_of self.old.words }
        ensures done { IsTrue result → IsMoveTo self.old state.now.values self.new }
        ensures refused { IsFalse result → IsPair self.old.words self.old.state state.now.values → ⊥ }
        ensures same { IsFalse result → self.new ≡ self.old }
    {
        state.facts();
        self.state.facts();
        if !agree_on_fixed(&self.code.layout, &self.state, state) {
            return false;
        }
        replace(&mut self.state, state);
        true
    }

    /// Makes this the other configuration, of the same code. It takes no memory.
    pub fn follow(&mut self, other: &Config<'e>)
        requires words { other.now.words ≡ self.old.words }
        requires codes { other.now.codes ≡ self.old.codes }
        ensures { self.new ≡ other.now }
    {
        replace(&mut self.state, &other.state);
        self.places.copy_from_slice(&other.places);
    }
}
