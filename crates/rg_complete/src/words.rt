//! The words of a part, as the part names them.

use crate::numbers::{bounds_of, number_of, size_of};
use rg_outline_syntax::{
    Declaration, ExpressionKind, HeadKind, PartWritten, Span, Written, push_number,
};
use std::alloc::{AllocError, Global};

/// The most members of a family that are each named by themselves.
const MOST_MEMBERS: i64 = 4;

/// A word of a part.
#[derive(Drop)]
pub(crate) struct PartWord {
    pub(crate) text: Vec<u8>,
    pub(crate) width: i64,
    /// Whether the part owns it.
    pub(crate) is_own: bool,
}

/// The index of a family of parts.
#[derive(Drop)]
pub(crate) struct Family {
    pub(crate) index: Span,
    pub(crate) range: usize,
    pub(crate) bounds: Option<(i64, i64)>,
    /// The index of the other part, where there are two.
    pub(crate) other: Option<Vec<u8>>,
}

/// The index of a family of parts, if a part has one.
pub(crate) fn family_of(
    alloc: Global,
    source: &[u8],
    written: &Written,
    part: PartWritten,
) -> Result<Option<Family>, AllocError> {
    let Some((index, range)) = part.index else {
        return Ok(None);
    };
    let bounds = bounds_of(written, source, range);
    let mut other = None;
    if let Some(bounds) = bounds
        && size_of(bounds) == 2
    {
        let sum = bounds.0.saturating_add(bounds.1);
        let mut text = Vec::new(alloc);
        push_number(&mut text, i128::from(sum))?;
        text.extend_from_slice(b" - ")?;
        text.extend_from_slice(index.of(source))?;
        other = Some(text);
    }
    Ok(Some(Family {
        index,
        range,
        bounds,
        other,
    }))
}

/// The words of a part, as they are found.
#[derive(Drop)]
pub(crate) struct PartWords<'a> {
    alloc: Global,
    source: &'a [u8],
    written: &'a Written,
    pub(crate) words: Vec<PartWord>,
}

impl PartWords<'_> {
    /// Adds a word.
    fn add(&mut self, text: Vec<u8>, width: i64, is_own: bool) -> Result<(), AllocError> {
        if !self.words.iter().any(|word| word.text == text) {
            self.words.push(PartWord {
                text,
                width,
                is_own,
            })?;
        }
        Ok(())
    }

    /// Adds a member of a family.
    fn add_member(
        &mut self,
        name: Span,
        index: &[u8],
        width: i64,
        is_own: bool,
    ) -> Result<(), AllocError> {
        let mut text = Vec::new(self.alloc);
        text.extend_from_slice(name.of(self.source))?;
        text.push(b'[')?;
        text.extend_from_slice(index)?;
        text.push(b']')?;
        self.add(text, width, is_own)
    }

    /// The declaration of a name.
    fn declaration(&self, name: Span) -> Option<Declaration> {
        let word = name.of(self.source);
        self.written
            .declarations
            .iter()
            .find(|declaration| declaration.name.of(self.source) == word)
            .copied()
    }

    /// The width of the words of a declaration.
    fn width(&self, declaration: Declaration) -> i64 {
        number_of(self.written, self.source, declaration.width).unwrap_or(64)
    }

    /// Adds the members of a family, where they are few.
    fn add_members(&mut self, declaration: Declaration, is_own: bool) -> Result<(), AllocError> {
        let width = self.width(declaration);
        let range = self.written.listed(declaration.ranges).first().copied();
        let bounds = range.and_then(|range| bounds_of(self.written, self.source, range));
        let Some(bounds) = bounds else {
            return Ok(());
        };
        if size_of(bounds) > MOST_MEMBERS {
            return Ok(());
        }
        for number in bounds.0..bounds.1.saturating_add(1) {
            let mut index = Vec::new(self.alloc);
            push_number(&mut index, i128::from(number))?;
            self.add_member(declaration.name, &index, width, is_own)?;
        }
        Ok(())
    }

    /// Adds the words of an `owns`.
    fn add_owned(&mut self, expression: usize) -> Result<(), AllocError> {
        let Some(expression) = self.written.expression(expression) else {
            return Ok(());
        };
        let ExpressionKind::Name { name, listed, .. } = expression.kind else {
            return Ok(());
        };
        let Some(declaration) = self.declaration(name) else {
            return Ok(());
        };
        if declaration.ranges.len() == listed.len() {
            let text = Vec::from_slice(self.alloc, expression.span.of(self.source))?;
            return self.add(text, self.width(declaration), true);
        }
        if declaration.ranges.len() == 1 {
            return self.add_members(declaration, true);
        }
        Ok(())
    }

    /// Adds a declared word, or the members of a family that a part names.
    fn add_declared(
        &mut self,
        declaration: Declaration,
        family: Option<&Family>,
    ) -> Result<(), AllocError> {
        let width = self.width(declaration);
        let name = declaration.name;
        match (declaration.ranges.len(), family) {
            (0, _) => {
                let text = Vec::from_slice(self.alloc, name.of(self.source))?;
                self.add(text, width, false)
            }
            (1, Some(family)) => {
                let index = family.index.of(self.source);
                self.add_member(name, index, width, false)?;
                match &family.other {
                    Some(other) => self.add_member(name, other, width, false),
                    None => Ok(()),
                }
            }
            (1, None) => self.add_members(declaration, false),
            _ => Ok(()),
        }
    }
}

/// The words of a part: those that it owns, then the others.
pub(crate) fn words_of<'a>(
    alloc: Global,
    source: &'a [u8],
    written: &'a Written,
    part: PartWritten,
    family: Option<&Family>,
) -> Result<Vec<PartWord>, AllocError> {
    let mut words = PartWords {
        alloc,
        source,
        written,
        words: Vec::new(alloc),
    };
    for head in written.heads(part.heads) {
        if let HeadKind::Owns(list) = head.kind {
            for owned in written.listed(list) {
                words.add_owned(*owned)?;
            }
        }
    }
    for declaration in &written.declarations {
        words.add_declared(*declaration, family)?;
    }
    let PartWords { words, .. } = words;
    Ok(words)
}

/// The width of the first word that stands in an expression; nothing where none does.
pub(crate) fn width_in(source: &[u8], written: &Written, expression: usize) -> Option<i64> {
    for place in written.first_within(expression)..expression.saturating_add(1) {
        if let ExpressionKind::Name { name, .. } = written.expression(place)?.kind {
            let word = name.of(source);
            for declaration in &written.declarations {
                if declaration.name.of(source) == word {
                    return number_of(written, source, declaration.width);
                }
            }
        }
    }
    None
}

/// A word of an outline, as it is named anywhere; nothing where none is found.
///
/// # Errors
///
/// Only where memory is refused.
pub fn some_word(
    alloc: Global,
    source: &[u8],
    written: &Written,
) -> Result<Option<Vec<u8>>, AllocError> {
    let Some(declaration) = written.declarations.first() else {
        return Ok(None);
    };
    let mut text = Vec::from_slice(alloc, declaration.name.of(source))?;
    for range in written.listed(declaration.ranges) {
        let Some((first, _)) = bounds_of(written, source, *range) else {
            return Ok(None);
        };
        text.push(b'[')?;
        push_number(&mut text, i128::from(first))?;
        text.push(b']')?;
    }
    Ok(Some(text))
}
