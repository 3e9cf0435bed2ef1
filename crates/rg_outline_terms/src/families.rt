//! Words and families of words: how they are declared, and which words are their members.

use crate::Word;
use crate::elaborate::DEEPEST;
use crate::names::Meaning;
use crate::scope::Scope;
use rg_outline_syntax::{
    Declaration, Head, HeadKind, Let, List, MeaningFault, Span, Texts, push_number,
};
use rg_words::limits::{MOST_WIDTH, MOST_WORDS};
use std::alloc::AllocError;

/// A word or a family of words.
#[derive(Clone, Copy)]
pub struct Family {
    pub name: Span,
    /// Its ranges, as places in the scope's list of ranges.
    pub ranges: List,
    /// Its words: the number of the first one, and how many there are.
    pub words: (usize, usize),
}

/// How many numbers there are from one to another.
pub(crate) fn size_of(range: (i128, i128)) -> usize {
    let size = range.1.saturating_sub(range.0).saturating_add(1);
    usize::try_from(size).unwrap_or(0)
}

/// Adds the names of a family's member at a place, as the outline writes it and as the text does. The family has this name, and its ranges are
/// among these.
fn push_member(
    shown: &mut Texts,
    members: &mut Texts,
    name: &[u8],
    ranges: &[(i128, i128)],
    family: Family,
    place: usize,
) -> Result<(), AllocError> {
    shown.unended().extend_from_slice(name)?;
    members.unended().extend_from_slice(name)?;
    let (mut rest, mut each) = (place, family.words.1);
    let own = ranges.get(family.ranges.start..family.ranges.end);
    for range in own.unwrap_or(&[]) {
        each = each.checked_div(size_of(*range)).unwrap_or(0);
        let before = rest.checked_div(each).unwrap_or(0);
        rest = rest.checked_rem(each).unwrap_or(0);
        let index = range.0.saturating_add(before as i128);
        shown.unended().push(b'[')?;
        push_number(shown.unended(), index)?;
        shown.unended().push(b']')?;
        members.unended().push(b'_')?;
        push_number(members.unended(), index)?;
    }
    shown.end()?;
    members.end()
}

impl Scope<'_> {
    /// The range of a family at a place of its indices: the first and the last number.
    pub(crate) fn range_at(&self, family: Family, place: usize) -> (i128, i128) {
        let place = family.ranges.start.saturating_add(place);
        self.ranges.get(place).copied().unwrap_or((0, 0))
    }

    /// Of these members of a family, the first one and their count, those with the number as the index at a place.
    pub(crate) fn narrowed(
        &mut self,
        family: Family,
        place: usize,
        members: (usize, usize),
        index: i128,
        span: Span,
    ) -> (usize, usize) {
        let range = self.range_at(family, place);
        if index < range.0 || index > range.1 {
            self.refuse(MeaningFault::OutsideFamily(family.name, index, range), span);
        }
        let each = members.1.checked_div(size_of(range)).unwrap_or(0);
        let before = usize::try_from(index.saturating_sub(range.0)).unwrap_or(0);
        let start = members.0.saturating_add(before.saturating_mul(each));
        (start, each)
    }

    /// Declares the words of the outline, and the numbers before them. Faults are the first `MeaningFault`, and `FaultKind::Memory`.
    pub fn declare(&mut self) {
        for head in self.written.heads(self.written.before_words) {
            self.name_head(*head, usize::MAX);
        }
        for declaration in &self.written.declarations {
            if self.is_stopped() {
                break;
            }
            self.declare_one(*declaration);
        }
    }

    /// Makes a name for a tree or for statements known, up to a place of the outline. Faults are the first `MeaningFault`, and `FaultKind::Memory`.
    pub fn name_head(&mut self, head: Head, until: usize) {
        match head.kind {
            HeadKind::Let(named) => {
                self.refuse_new(named.name, named.parameters);
                if named.parameters.is_empty() {
                    // (so that its faults are reported where it is named)
                    self.elaborate(named.body, DEEPEST);
                }
                self.know_after(named.name, named.span, until, Meaning::Let(named));
            }
            HeadKind::Procedure(named) => {
                self.refuse_new(named.name, named.parameters);
                self.know_after(named.name, named.span, until, Meaning::Procedure(named));
            }
            _ => {}
        }
    }

    /// Adds a name that is known after the place where it is given, up to another place.
    fn know_after(&mut self, name: Span, given: Span, until: usize, meaning: Meaning) {
        let known = Span {
            start: given.end,
            end: until,
        };
        self.know(name, known, meaning);
    }

    /// Refuses a new name that something has already, and a parameter whose name something has: an earlier parameter, or what is named here.
    fn refuse_new(&mut self, name: Span, parameters: List) {
        self.refuse_taken(name);
        let parameters = self.written.named(parameters);
        for (place, parameter) in parameters.iter().enumerate() {
            self.refuse_taken(*parameter);
            let earlier = parameters.get(..place).unwrap_or(&[]);
            if self.has_name(earlier, *parameter) || self.has_name(&[name], *parameter) {
                self.refuse(MeaningFault::ParameterTwice, *parameter);
            }
        }
    }

    /// Whether one of the names has the text of this one.
    fn has_name(&self, names: &[Span], name: Span) -> bool {
        let text = self.text(name);
        names.iter().any(|other| self.text(*other) == text)
    }

    fn declare_one(&mut self, declaration: Declaration) {
        let name = declaration.name;
        self.refuse_taken(name);
        let start = self.ranges.len();
        let mut count: usize = 1;
        for range in self.written.listed(declaration.ranges) {
            count = count.saturating_mul(self.add_range(*range));
        }
        let word = Word {
            width: self.width_of(declaration.width),
            standing: declaration.standing,
        };
        let family = Family {
            name,
            ranges: List::new(start, self.ranges.len()),
            words: (self.words.len(), count),
        };
        self.add_members(family, word);
        let known = Span {
            start: name.end,
            end: usize::MAX,
        };
        self.know(name, known, Meaning::Family(family));
    }

    /// Adds a range of a family's indices; how many numbers it has.
    fn add_range(&mut self, index: usize) -> usize {
        let span = self
            .written
            .ranges
            .get(index)
            .map_or(Span::NOWHERE, |range| range.span);
        let numbers = self.numbers_of(index);
        let first = self.number_at(numbers.start);
        let last = self.number_at(numbers.end.saturating_sub(1));
        if numbers.is_empty() {
            self.refuse(MeaningFault::EmptyRange, span);
        } else if first < 0 {
            self.refuse(MeaningFault::IndexBelowZero, span);
        }
        let stored = self.ranges.push((first, last));
        self.want_stored(stored.is_ok());
        size_of((first, last))
    }

    /// A width of 1 to 64 bits.
    fn width_of(&mut self, index: usize) -> u32 {
        let width = self.number_of(index, "the width", DEEPEST);
        match u32::try_from(width) {
            Ok(width) if 1 <= width && width <= MOST_WIDTH => width,
            _ => {
                self.refuse(MeaningFault::Width, self.expression(index).span);
                1
            }
        }
    }

    /// Adds the words of a family.
    fn add_members(&mut self, family: Family, word: Word) {
        let text = self.text(family.name);
        let all = family.words.0.saturating_add(family.words.1);
        if all > MOST_WORDS {
            self.refuse(MeaningFault::TooManyWords(all), family.name);
        }
        for place in 0..family.words.1 {
            if self.is_stopped() {
                break;
            }
            let stored = push_member(
                &mut self.shown,
                &mut self.members,
                text,
                self.ranges.as_slice(),
                family,
                place,
            );
            self.want_stored(stored.is_ok());
            self.refuse_second_member(family.name);
            let stored = self.words.push(word);
            self.want_stored(stored.is_ok());
        }
    }

    /// Refuses the member that was named last, where it is a word already.
    fn refuse_second_member(&mut self, name: Span) {
        let added = self.words.len();
        if let Some(word) = self.members.find(self.members.at(added))
            && word < added
        {
            self.refuse(MeaningFault::MemberTwice(word), name);
        }
    }
}
