//! What is known of an outline while it is worked out; and the first fault, which no call gives back.

use crate::chosen::Chosen;
use crate::forest::NewTree;
use crate::ranges::Filling;
use crate::{Forest, Named, Root, Word};
use rg_outline_syntax::{Fault, MeaningFault, Span, Standing, Texts, Written};
use std::alloc::Global;

/// The most steps of working out an outline.
const MOST_STEPS: u64 = 20_000_000;

/// What is known of an outline while it is worked out.
#[derive(Drop)]
pub struct Scope<'a> {
    pub alloc: Global,
    pub source: &'a [u8],
    pub written: &'a Written,
    pub forest: Forest,
    pub names: Vec<Named>,
    /// The first and the last number of each range of a family.
    pub(crate) ranges: Vec<(i128, i128)>,
    pub words: Vec<Word>,
    /// The words, as the outline writes them.
    pub shown: Texts,
    /// The words, as the text writes them.
    pub members: Texts,
    /// The numbers of ranges that were gone over.
    pub(crate) numbers: Vec<i128>,
    /// Whether the ranges of quantifiers and sums had numbers, each at its index.
    pub(crate) fillings: Vec<Filling>,
    /// The uses of names of trees that are being worked out.
    pub uses: Vec<Span>,
    /// What each expression stood for when it was worked out last, at its index.
    pub(crate) latest: Vec<usize>,
    /// The arguments of names that are being worked out.
    pub(crate) passed: Vec<usize>,
    /// What holds where something is worked out, by the tests of the choices, and the left sides of `and` and `or`, within which it stands.
    pub(crate) guards: Vec<usize>,
    /// The indices over words, in the order in which they were worked out.
    pub chosen: Vec<Chosen>,
    steps_left: u64,
    /// The first fault. From then on nothing more is worked out, and what was known there stays known.
    fault: Option<Fault>,
}

impl<'a> Scope<'a> {
    /// Nothing is known yet.
    pub fn new(alloc: Global, source: &'a [u8], written: &'a Written) -> Scope<'a> {
        Scope {
            alloc,
            source,
            written,
            forest: Forest::new(alloc),
            names: Vec::new(alloc),
            ranges: Vec::new(alloc),
            words: Vec::new(alloc),
            shown: Texts::new(alloc),
            members: Texts::new(alloc),
            numbers: Vec::new(alloc),
            fillings: Vec::new(alloc),
            uses: Vec::new(alloc),
            latest: Vec::new(alloc),
            passed: Vec::new(alloc),
            guards: Vec::new(alloc),
            chosen: Vec::new(alloc),
            steps_left: MOST_STEPS,
            fault: None,
        }
    }

    /// The first fault, where there is one.
    pub fn fault(&self) -> Option<Fault> {
        self.fault
    }

    /// Whether there is a fault, so that nothing more is worked out.
    pub fn is_stopped(&self) -> bool {
        self.fault.is_some()
    }

    /// Keeps a fault, where it is the first.
    pub fn stop(&mut self, fault: Fault) {
        if self.fault.is_none() {
            self.fault = Some(fault);
        }
    }

    /// Keeps as the fault what means nothing, where it is the first.
    pub fn refuse(&mut self, fault: MeaningFault, span: Span) {
        self.stop(Fault::meaning(fault, span));
    }

    /// What was made. Where that failed, its fault is kept, and any tree stands for it.
    pub fn made(&mut self, made: NewTree) -> usize {
        match made {
            Ok(tree) => tree,
            Err(fault) => {
                self.stop(fault);
                0
            }
        }
    }

    /// Keeps as the fault that memory was refused, where something couldn't be stored.
    pub fn want_stored(&mut self, is_stored: bool) {
        if !is_stored {
            self.stop(Fault::memory());
        }
    }

    /// Takes one step of working out; whether there is no fault.
    pub(crate) fn spends(&mut self, span: Span) -> bool {
        match self.steps_left.checked_sub(1) {
            Some(left) => self.steps_left = left,
            None => self.refuse(MeaningFault::TooLarge, span),
        }
        !self.is_stopped()
    }

    /// The bytes of a place.
    pub(crate) fn text(&self, span: Span) -> &'a [u8] {
        span.of(self.source)
    }

    /// The word of a number; past the last one, a word without bits.
    pub fn word(&self, word: usize) -> Word {
        self.words.get(word).copied().unwrap_or(Word {
            width: 0,
            standing: Standing::Fixed,
        })
    }

    /// Adds a tree without operands.
    pub(crate) fn leaf(&mut self, root: Root, span: Span) -> usize {
        let made = self.forest.leaf(root, span);
        self.made(made)
    }

    /// The tree in the next state.
    pub fn in_next_state(&mut self, tree: usize) -> usize {
        let made = self.forest.in_next_state(self.alloc, tree);
        self.made(made)
    }
}
