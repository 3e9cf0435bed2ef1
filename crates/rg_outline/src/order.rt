//! Which part interrupts which, on one core.

use crate::expansion::{Expansion, add};
use rg_outline_syntax::{Fault, Head, List, MeaningFault, Span, push_number};
use std::alloc::AllocError;

/// That a part interrupts another one, and where it names that.
#[derive(Clone, Copy)]
pub(crate) struct Interrupt {
    part: usize,
    span: Span,
}

impl Expansion<'_> {
    /// Notes which part is directly below the next one, of which it names one at most.
    pub(crate) fn take_interrupted(&mut self, head: Head, name: Span, listed: List) {
        let part = self.parts.len();
        if self.interrupts.iter().any(|known| known.part == part) {
            self.scope.refuse(MeaningFault::ClauseTwice, head.span);
        }
        let stored = self.push_interrupted(name, listed);
        self.scope.want_stored(stored.is_ok());
        let span = name.to(head.span);
        add(
            &mut self.scope,
            &mut self.interrupts,
            Interrupt { part, span },
        );
    }

    /// Adds the name of an interrupted part, with its index after `_` where it has one.
    fn push_interrupted(&mut self, name: Span, listed: List) -> Result<(), AllocError> {
        let text = name.of(self.scope.source);
        self.interrupted.unended().extend_from_slice(text)?;
        for index in self.scope.written.listed(listed) {
            let number = self.scope.index_number(*index);
            self.interrupted.unended().push(b'_')?;
            push_number(self.interrupted.unended(), number)?;
        }
        self.interrupted.end()
    }

    /// The part directly below a part, if it interrupts one.
    fn below(&self, part: usize) -> Option<usize> {
        let place = self.interrupts.iter().position(|one| one.part == part)?;
        self.part_names.find(self.interrupted.at(place))
    }

    /// The first part that interrupts a part directly.
    fn above(&self, part: usize) -> Option<usize> {
        (0..self.parts.len()).find(|other| self.below(*other) == Some(part))
    }

    /// Whether a part is one of those that it interrupts, directly or through others.
    fn is_below_itself(&self, part: usize) -> bool {
        let mut next = self.below(part);
        for _ in 0..self.parts.len() {
            match next {
                None => break,
                Some(below) if below == part => return true,
                Some(below) => next = self.below(below),
            }
        }
        false
    }

    /// Refuses what a part can't interrupt: what is no part, what another one interrupts directly, and itself.
    pub(crate) fn refuse_interrupts(&mut self) {
        for place in 0..self.interrupts.len() {
            if self.scope.is_stopped() {
                break;
            }
            self.refuse_interrupt(place);
        }
    }

    /// Refuses the interrupt at a place, where it is none.
    fn refuse_interrupt(&mut self, place: usize) {
        let Some(Interrupt { part, span }) = self.interrupts.get(place).copied() else {
            return;
        };
        let fault = match self.below(part) {
            None => {
                let stored = self.part_names.push(self.interrupted.at(place));
                self.scope.want_stored(stored.is_ok());
                let part = self.part_names.len().saturating_sub(1);
                Some(MeaningFault::NoPartNamed { part })
            }
            Some(_) if self.is_below_itself(part) => Some(MeaningFault::InterruptsItself),
            Some(below) => self
                .above(below)
                .filter(|first| *first != part)
                .map(|part| MeaningFault::InterruptedAlready { part }),
        };
        if let Some(kind) = fault {
            self.scope.stop(Fault::meaning(kind, span));
        }
    }

    /// Adds a part and those that it interrupts, each above the next one.
    fn push_chain(&self, top: usize, text: &mut Vec<u8>) -> Result<(), AllocError> {
        let mut next = Some(top);
        let mut before: &[u8] = b"";
        for _ in 0..self.parts.len() {
            let Some(part) = next else {
                break;
            };
            text.extend_from_slice(before)?;
            text.extend_from_slice(self.part_names.at(part))?;
            before = b" > ";
            next = self.below(part);
        }
        Ok(())
    }
}

/// Adds which parts interrupt which, as `--priority` says it: `isr > main, dma > net`. Nothing where none does.
pub fn push_priority(expansion: &Expansion<'_>, text: &mut Vec<u8>) -> Result<(), AllocError> {
    for part in 0..expansion.parts.len() {
        if expansion.above(part).is_none() && expansion.below(part).is_some() {
            if !text.is_empty() {
                text.extend_from_slice(b", ")?;
            }
            expansion.push_chain(part, text)?;
        }
    }
    Ok(())
}
