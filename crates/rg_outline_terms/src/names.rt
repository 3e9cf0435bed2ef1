//! Names, each with the piece of the outline in which it is known.

use crate::families::Family;
use crate::scope::Scope;
use rg_outline_syntax::{Binding, Fault, Let, MeaningFault, Procedure, Span};

/// What a name stands for.
#[derive(Clone, Copy)]
pub enum Meaning {
    /// A word or a family of words.
    Family(Family),
    /// A formula or a value under a name, perhaps with parameters.
    Let(Let),
    /// Statements under a name, perhaps with parameters.
    Procedure(Procedure),
    /// A tree: an argument, or the number of an index.
    Tree(usize),
}

/// A name, where it is known, and what it stands for.
#[derive(Clone, Copy)]
pub struct Named {
    pub name: Span,
    pub known: Span,
    pub meaning: Meaning,
}

impl Named {
    /// Whether the name is known at a place.
    fn is_known(self, place: Span) -> bool {
        self.known.start <= place.start && place.start < self.known.end
    }
}

/// How many bytes at the front of two names agree.
fn agreeing(known: &[u8], text: &[u8]) -> usize {
    let mut count: usize = 0;
    for (place, (byte, other)) in known.iter().zip(text).enumerate() {
        if *byte != *other {
            break;
        }
        count = place.saturating_add(1);
    }
    count
}

/// The bytes after the first so many.
fn rest_of(bytes: &[u8], count: usize) -> &[u8] {
    bytes.get(count..).unwrap_or(&[])
}

/// Whether two names begin with two bytes, exchanged, and agree after them.
fn are_exchanged(known: &[u8], text: &[u8]) -> bool {
    match (known, text) {
        ([first, second, ..], [third, fourth, ..]) => {
            *first == *fourth && *second == *third && rest_of(known, 2) == rest_of(text, 2)
        }
        _ => false,
    }
}

/// Whether two names differ by one letter that is left out, added or another one, or by two neighbours that are exchanged.
fn is_one_edit(known: &[u8], text: &[u8]) -> bool {
    let count = agreeing(known, text);
    let (known, text) = (rest_of(known, count), rest_of(text, count));
    let (shorter, other) = (rest_of(known, 1), rest_of(text, 1));
    shorter == other || shorter == text || known == other || are_exchanged(known, text)
}

/// Whether one of two names begins with the other, they differ in case alone, or in one place.
fn is_near(known: &[u8], text: &[u8]) -> bool {
    known.eq_ignore_ascii_case(text)
        || (known.len() > 2
            && (known.starts_with(text)
                || text.starts_with(known)
                || (text.len() > 1 && is_one_edit(known, text))))
}

impl Scope<'_> {
    /// What has the name that stands here: of several the last one.
    pub(crate) fn find(&self, name: Span) -> Option<Named> {
        let text = self.text(name);
        for named in self.names.iter().rev() {
            if named.is_known(name) && self.text(named.name) == text {
                return Some(*named);
            }
        }
        None
    }

    /// A name that is known here and nearly the one that stands here.
    pub(crate) fn near(&self, name: Span) -> Option<Span> {
        for named in &self.names {
            if self.is_near_name(*named, name) {
                return Some(named.name);
            }
        }
        None
    }

    /// A name of statements that is known here and nearly the one that stands here.
    pub(crate) fn near_statements(&self, name: Span) -> Option<Span> {
        for named in &self.names {
            if matches!(named.meaning, Meaning::Procedure(_)) && self.is_near_name(*named, name) {
                return Some(named.name);
            }
        }
        None
    }

    /// Whether a name is known at a place, and nearly the one that stands there.
    fn is_near_name(&self, named: Named, name: Span) -> bool {
        let (known, text) = (self.text(named.name), self.text(name));
        named.is_known(name) && known != text && is_near(known, text)
    }

    /// Whether an index, or a parameter, is known at a place.
    pub(crate) fn has_index(&self, place: Span) -> bool {
        for named in &self.names {
            if let Meaning::Tree(_) = named.meaning
                && named.is_known(place)
            {
                return true;
            }
        }
        false
    }

    /// Refuses a new name where something has it already.
    pub fn refuse_taken(&mut self, name: Span) {
        if let Some(named) = self.find(name) {
            let fault = match named.meaning {
                Meaning::Family(_) => MeaningFault::DeclaredAlready(named.name),
                _ => MeaningFault::NamedAlready,
            };
            self.refuse(fault, name);
        }
    }

    /// Adds a name, which is known within a piece of the outline; after a fault none.
    pub(crate) fn know(&mut self, name: Span, known: Span, meaning: Meaning) {
        if !self.is_stopped() {
            let stored = self.names.push(Named {
                name,
                known,
                meaning,
            });
            self.want_stored(stored.is_ok());
        }
    }

    /// Adds an index that is a number within a piece of the outline.
    pub fn know_number(&mut self, name: Span, known: Span, number: i128) {
        let tree = self.forest.numeral(Some(number), name);
        let tree = self.made(tree);
        self.know(name, known, Meaning::Tree(tree));
    }

    /// Forgets the names that were added after the first so many; after a fault none.
    pub fn forget(&mut self, count: usize) {
        if !self.is_stopped() {
            self.names.truncate(count);
        }
    }

    /// Adds the numbers that indices stand for at a place.
    ///
    /// # Errors
    ///
    /// `FaultKind::Memory`.
    pub fn bindings(&self, bindings: &mut Vec<Binding>, place: Span) -> Result<(), Fault> {
        for named in &self.names {
            if let Meaning::Tree(tree) = named.meaning
                && let Some(number) = self.forest.number(tree)
                && named.is_known(place)
            {
                let name = named.name;
                bindings.push(Binding { name, number })?;
            }
        }
        Ok(())
    }
}
