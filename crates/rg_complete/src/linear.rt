//! Equations that hold in all states that a short walk meets: sums of a few words of one width, and their exclusive ors.

use rg_outline_syntax::{Texts, push_count};
use rg_words::Layout;
use std::alloc::{AllocError, Global};

/// The most words of an equation, the most words that are looked at together, and the most equations.
const MOST_TERMS: usize = 4;

const MOST_WORDS: usize = 24;

const MOST: usize = 12;

/// The prime modulo which sums are looked for. What is true of its multiples alone is refuted as any other formula.
const PRIME: u64 = 2_147_483_647;

/// How words are put together.
#[derive(Clone, Copy, PartialEq, Eq)]
enum Form {
    Sum,
    ExclusiveOr,
}

/// A word of an equation, by its place among those that are looked at together, and whether it is taken away.
type Term = (usize, bool);

/// Rows of coefficients, reduced: each begins with 1, where all others have 0.
#[derive(Drop)]
struct Rows {
    form: Form,
    rows: Vec<Vec<u64>>,
    pivots: Vec<usize>,
}

/// Words of one width, and the states that were met.
#[derive(Clone, Copy)]
struct Group<'a> {
    alloc: Global,
    names: &'a [Vec<u8>],
    states: &'a [Vec<u64>],
    words: &'a [usize],
    width: u32,
}

/// What a word is in a state.
fn value_of(state: &[u64], word: usize) -> u64 {
    state.get(word).copied().unwrap_or(0)
}

/// All bits of a width.
fn mask(width: u32) -> u64 {
    if width >= 64 {
        return u64::MAX;
    }
    (1u64 << width).wrapping_sub(1)
}

/// The inverse of a number modulo the prime.
fn inverse(number: u64) -> u64 {
    let mut power = number % PRIME;
    let mut made = 1u64;
    let mut exponent = PRIME - 2;
    for _ in 0..31 {
        if exponent & 1 == 1 {
            made = made.wrapping_mul(power) % PRIME;
        }
        power = power.wrapping_mul(power) % PRIME;
        exponent >>= 1;
    }
    made
}

impl Form {
    /// A coefficient, reduced.
    fn reduced(self, number: u64) -> u64 {
        match self {
            Form::Sum => number % PRIME,
            Form::ExclusiveOr => number & 1,
        }
    }

    /// Takes from a row another, so often that nothing is left of it at a place where the other one has 1.
    fn clear(self, row: &mut [u64], other: &[u64], place: usize) {
        let factor = value_of(row, place);
        if factor == 0 {
            return;
        }
        for (own, value) in row.iter_mut().zip(other) {
            *own = match self {
                Form::Sum => {
                    let less = value.wrapping_mul(factor) % PRIME;
                    own.wrapping_add(PRIME).wrapping_sub(less) % PRIME
                }
                Form::ExclusiveOr => *own ^ *value,
            };
        }
    }

    /// Divides a row by what it has at a place.
    fn divide(self, row: &mut [u64], place: usize) {
        if self == Form::ExclusiveOr {
            return;
        }
        let factor = inverse(value_of(row, place));
        for own in row.iter_mut() {
            *own = own.wrapping_mul(factor) % PRIME;
        }
    }
}

impl Rows {
    /// Adds a row, if it says more than the others.
    fn add(&mut self, mut row: Vec<u64>) -> Result<(), AllocError> {
        for (known, pivot) in self.rows.iter().zip(&self.pivots) {
            self.form.clear(&mut row, known, *pivot);
        }
        let Some(pivot) = row.iter().position(|value| *value != 0) else {
            return Ok(());
        };
        self.form.divide(&mut row, pivot);
        for known in self.rows.iter_mut() {
            self.form.clear(known, &row, pivot);
        }
        self.rows.push(row)?;
        self.pivots.push(pivot)?;
        Ok(())
    }

    /// The terms of the equation that a word has with those of which it isn't free; none where there are too many, or one counts more than once.
    fn terms(&self, alloc: Global, word: usize) -> Result<Vec<Term>, AllocError> {
        let mut terms = Vec::new(alloc);
        terms.push((word, false))?;
        for (row, pivot) in self.rows.iter().zip(&self.pivots) {
            let coefficient = value_of(row, word);
            if coefficient == 0 {
                continue;
            }
            if coefficient != 1 && coefficient != PRIME - 1 || terms.len() >= MOST_TERMS {
                return Ok(Vec::new(alloc));
            }
            let is_less = self.form == Form::Sum && coefficient == 1;
            terms.push((*pivot, is_less))?;
        }
        terms.sort_unstable();
        Ok(terms)
    }
}

/// Adds words with a sign between them; a number after them, if there is one.
fn push_sum(
    text: &mut Vec<u8>,
    sign: &[u8],
    words: &[&[u8]],
    number: u64,
) -> Result<(), AllocError> {
    let mut before: &[u8] = b"";
    for word in words {
        text.extend_from_slice(before)?;
        text.extend_from_slice(word)?;
        before = sign;
    }
    if number != 0 || words.is_empty() {
        text.extend_from_slice(before)?;
        push_count(text, number)?;
    }
    Ok(())
}

impl<'a> Group<'a> {
    /// The name of a word.
    fn name(&self, term: Term) -> &'a [u8] {
        let word = self.words.get(term.0).copied().unwrap_or(usize::MAX);
        self.names.get(word).map_or(&[], |name| name.as_slice())
    }

    /// What a word is in the first state.
    fn first_value(&self, term: Term) -> u64 {
        let word = self.words.get(term.0).copied().unwrap_or(usize::MAX);
        self.states.first().map_or(0, |state| value_of(state, word))
    }

    /// Adds the rows of a state: how its words differ from the first one's, as numbers or bit by bit.
    fn add_rows(&self, rows: &mut Rows, state: &[u64], first: &[u64]) -> Result<(), AllocError> {
        let count = if rows.form == Form::Sum {
            1
        } else {
            self.width
        };
        for bit in 0..count {
            let mut row = Vec::new(self.alloc);
            for word in self.words {
                let (now, then) = (value_of(state, *word), value_of(first, *word));
                row.push(match rows.form {
                    Form::Sum => (now % PRIME).wrapping_add(PRIME).wrapping_sub(then % PRIME)
                        % PRIME,
                    Form::ExclusiveOr => ((now ^ then) >> bit.min(63)) & 1,
                })?;
            }
            rows.add(row)?;
        }
        Ok(())
    }

    /// The rows of all states.
    fn rows(&self, form: Form) -> Result<Rows, AllocError> {
        let mut rows = Rows {
            form,
            rows: Vec::new(self.alloc),
            pivots: Vec::new(self.alloc),
        };
        if let Some(first) = self.states.first() {
            for state in self.states {
                self.add_rows(&mut rows, state, first)?;
            }
        }
        Ok(rows)
    }

    /// An exclusive or as an equation; nothing where it says that two words are equal.
    fn exclusive_or(&self, terms: &[Term]) -> Result<Vec<u8>, AllocError> {
        let mut text = Vec::new(self.alloc);
        let Some((first, others)) = terms.split_first() else {
            return Ok(text);
        };
        let mut names = Vec::new(self.alloc);
        let mut number = self.first_value(*first);
        for term in others {
            names.push(self.name(*term))?;
            number ^= self.first_value(*term);
        }
        if others.len() == 1 && number == 0 {
            return Ok(text);
        }
        let is_unequal = others.len() == 1 && self.width == 1;
        text.extend_from_slice(self.name(*first))?;
        text.extend_from_slice(if is_unequal { b" != " } else { b" = " })?;
        push_sum(
            &mut text,
            b" bxor ",
            &names,
            if is_unequal { 0 } else { number },
        )?;
        Ok(text)
    }

    /// A sum as an equation; nothing where it says that two words are equal.
    fn sum(&self, terms: &[Term]) -> Result<Vec<u8>, AllocError> {
        let (mut left, mut right) = (Vec::new(self.alloc), Vec::new(self.alloc));
        let mut number = 0u64;
        // (the first word isn't taken away)
        let is_turned = terms.first().is_some_and(|term| term.1);
        for term in terms {
            let value = self.first_value(*term);
            if term.1 != is_turned {
                right.push(self.name(*term))?;
                number = number.wrapping_sub(value) & mask(self.width);
            } else {
                left.push(self.name(*term))?;
                number = number.wrapping_add(value) & mask(self.width);
            }
        }
        let mut text = Vec::new(self.alloc);
        if terms.len() == 2 && right.len() == 1 && number == 0 {
            return Ok(text);
        }
        let is_great = !right.is_empty() && number > mask(self.width) >> 1;
        let (more, less) = if is_great {
            (0u64.wrapping_sub(number) & mask(self.width), 0)
        } else {
            (0, number)
        };
        push_sum(&mut text, b" + ", &left, more)?;
        text.extend_from_slice(b" = ")?;
        push_sum(&mut text, b" + ", &right, less)?;
        Ok(text)
    }

    /// Adds the equations of a form.
    fn add(&self, found: &mut Texts, form: Form) -> Result<(), AllocError> {
        let rows = self.rows(form)?;
        for word in 0..self.words.len() {
            if rows.pivots.contains(&word) || found.len() >= MOST {
                continue;
            }
            let terms = rows.terms(self.alloc, word)?;
            if terms.len() < 2 {
                continue;
            }
            let text = if form == Form::Sum {
                self.sum(&terms)?
            } else {
                self.exclusive_or(&terms)?
            };
            if !text.is_empty() {
                found.push(&text)?;
            }
        }
        Ok(())
    }
}

/// The words of a width that aren't the same in all states, the first of them where they are many.
fn words_of(
    alloc: Global,
    layout: &Layout,
    states: &[Vec<u64>],
    width: u32,
) -> Result<Vec<usize>, AllocError> {
    let mut words = Vec::new(alloc);
    let Some(first) = states.first() else {
        return Ok(words);
    };
    for word in 0..layout.len() {
        let value = value_of(first, word);
        let is_moved = states.iter().any(|state| value_of(state, word) != value);
        if layout.width(word) == width && is_moved && words.len() < MOST_WORDS {
            words.push(word)?;
        }
    }
    Ok(words)
}

/// Equations between words of one width that hold in all of these states, with the names that the words have here.
pub fn equations_of(
    alloc: Global,
    layout: &Layout,
    names: &[Vec<u8>],
    states: &[Vec<u64>],
) -> Result<Texts, AllocError> {
    let mut found = Texts::new(alloc);
    for width in 1..65u32 {
        let words = words_of(alloc, layout, states, width)?;
        let group = Group {
            alloc,
            names,
            states,
            words: &words,
            width,
        };
        if words.len() > 1 {
            group.add(&mut found, Form::ExclusiveOr)?;
        }
        if words.len() > 1 && width > 1 {
            group.add(&mut found, Form::Sum)?;
        }
    }
    Ok(found)
}
