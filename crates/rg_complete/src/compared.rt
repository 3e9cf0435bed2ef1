//! Comparisons of a part's words: with numbers, with its index, and with one another.

use crate::atoms::Atom;
use crate::equations::replaced;
use crate::gathered::{COMPARISONS, Gathering, fits};
use rg_outline_syntax::{Span, push_count};
use std::alloc::AllocError;

/// The greatest widths of words that are compared with each number, of the part's own and of others.
const OWN_WIDTH: i64 = 8;

const OTHERS_WIDTH: i64 = 3;

/// The most words that are compared with one another; and the most whose equations are premises.
const MOST_WORDS: usize = 24;

const FEW_WORDS: usize = 10;

/// What the index of a `for` gives: whether it is taken twice, and what is taken away.
const COUNTED: [(bool, &[u8]); 5] = [
    (false, b""),
    (false, b" - 1"),
    (true, b""),
    (true, b" - 1"),
    (true, b" - 2"),
];

impl Gathering<'_> {
    /// Adds comparisons of words with numbers.
    pub(crate) fn add_numbered(&mut self) -> Result<(), AllocError> {
        for word in &self.words {
            let most = if word.is_own { OWN_WIDTH } else { OTHERS_WIDTH };
            if word.width > most {
                continue;
            }
            let signs = match (word.is_own, word.width) {
                (_, 1) => COMPARISONS.get(..1),
                (true, 2..=4) => COMPARISONS.get(..4),
                _ => COMPARISONS.get(..2),
            };
            for number in &self.numbers {
                let fits = word.width >= 63
                    || *number < (1u64 << (word.width.max(0).min(62) as u32));
                if !fits {
                    continue;
                }
                let mut digits = Vec::new(self.alloc);
                push_count(&mut digits, *number)?;
                for sign in signs.unwrap_or(&[]) {
                    self.atoms
                        .add_joined(&word.text, sign, &digits, word.is_own)?;
                }
            }
        }
        Ok(())
    }

    /// Adds comparisons of words with the part's index: of its own words, of those that are wider than a bit.
    pub(crate) fn add_indexed(&mut self) -> Result<(), AllocError> {
        let Some(family) = &self.family else {
            return Ok(());
        };
        let index = family.index.of(self.environments.source);
        let greatest = family.bounds.map_or(0, |bounds| bounds.1);
        for word in self.words.iter().filter(|word| fits(greatest, word.width)) {
            if word.is_own && word.width == 1 {
                continue;
            }
            for sign in COMPARISONS.get(..2).unwrap_or(&[]) {
                self.atoms.add_joined(&word.text, sign, index, true)?;
            }
        }
        Ok(())
    }

    /// Adds that words of all other parts are 0, where there are three parts or more.
    pub(crate) fn add_others(&mut self) -> Result<(), AllocError> {
        let source = self.environments.source;
        let Some(family) = self.family.as_ref().filter(|family| family.other.is_none()) else {
            return Ok(());
        };
        let index = family.index.of(source);
        let name: &[u8] = if index == b"j".as_slice() { b"k" } else { b"j" };
        let range = self.written.ranges.get(family.range);
        let range = range.map_or(Span::NOWHERE, |range| range.span);
        for word in self.words.iter().filter(|word| word.is_own) {
            let mut text = Vec::from_slice(self.alloc, b"all ")?;
            text.extend_from_slice(name)?;
            text.extend_from_slice(b" in ")?;
            text.extend_from_slice(range.of(source))?;
            text.extend_from_slice(b" but ")?;
            text.extend_from_slice(index)?;
            text.extend_from_slice(b": ")?;
            text.extend_from_slice(&replaced(self.alloc, &word.text, index, name)?)?;
            text.extend_from_slice(b" = 0")?;
            let atom = Atom {
                is_loose: true,
                ..Atom::tight(false)
            };
            self.atoms.add(&text, atom)?;
        }
        Ok(())
    }

    /// Adds that a word of the part's own is what steps, the same ones in each round of a `for`, may have made it.
    pub(crate) fn add_counted(&mut self) -> Result<(), AllocError> {
        for round in &self.rounds {
            let index = round.index.of(self.environments.source);
            let most = round.greatest.saturating_mul(2);
            for word in self
                .words
                .iter()
                .filter(|word| word.is_own && fits(most, word.width))
            {
                for (twice, less) in COUNTED {
                    let mut value = Vec::from_slice(self.alloc, index)?;
                    value.extend_from_slice(if twice { b" + " } else { b"" })?;
                    value.extend_from_slice(if twice { index } else { b"" })?;
                    value.extend_from_slice(less)?;
                    self.atoms.add_joined(&word.text, b" = ", &value, false)?;
                }
            }
        }
        Ok(())
    }

    /// Adds comparisons of words of one width.
    pub(crate) fn add_pairs(&mut self) -> Result<(), AllocError> {
        let are_few = self.words.len() <= FEW_WORDS;
        for (place, first) in self.words.iter().take(MOST_WORDS).enumerate() {
            let others = self
                .words
                .iter()
                .take(MOST_WORDS)
                .skip(place.saturating_add(1));
            for second in others.filter(|second| second.width == first.width) {
                let count = if first.width == 1 { 1 } else { 4 };
                for (index, sign) in COMPARISONS.iter().take(count).enumerate() {
                    let is_premise = are_few
                        && index == 0
                        && (first.is_own || second.is_own)
                        && first.width > 1;
                    self.atoms
                        .add_joined(&first.text, sign, &second.text, is_premise)?;
                }
            }
        }
        Ok(())
    }
}
