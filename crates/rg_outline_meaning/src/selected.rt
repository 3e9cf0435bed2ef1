//! Members of families of words.

ghost use Rattle.std.specs.Prelude.{◌≡◌, ◌≤◌, ℕ, pos, [], ◌∷◌, ◌++◌, map, filter, Some, is_some, option_map, slice_get, slice_set, IfOk, IfSome};
ghost use Rattle.rg_words.specs.Layout.{widths_of};
ghost use Rattle.rg_tree.specs.View.{expression};
ghost use Rattle.rg_outline_meaning.specs.Names.{text_of, listed as listed_of, family, Knows};
ghost use Rattle.rg_outline_meaning.specs.Members.{AreWithin, members as members_of, longer as longer_by, IsMember, AreMembers, first_word as first_word_of, fits, chosen_of};
ghost use Rattle.rg_outline_meaning.specs.Expressions.{Selects, AllStandFor, WordsStandFor};
ghost use Rattle.rg_outline_meaning.specs.Inner.{AreIndices, AreWordsOf, AreCandidatesAt};
ghost use Rattle.rg_outline_meaning.specs.View.{meaning as shown, outline, words as words_of, names as names_at, candidate as candidate_of, selected as selection};

use crate::folded::is_number;
use crate::meaning::{Meaning, Unknown};
use crate::names::{Names, Reader, Sense, Steps};
use crate::ranges::numbers;
use rg_outline_syntax::{ExpressionKind, List, Span};
use rg_tree::copy::copy_expr;
use rg_tree::tree::Expr;
use rg_words::limits::MOST_WORDS;
use std::alloc::{AllocError, Global};

/// A member of a family: its number at the index that chooses, and its word.
#[derive(Clone, Copy)]
pub(crate) struct Member {
    pub(crate) number: u64,
    pub(crate) word: usize,
}

/// What a name with indices selects.
#[derive(Drop)]
pub(crate) enum Selected {
    Word(usize),
    /// The member whose number an index over words has: the index, and the members whose numbers fit into its width, one at least.
    Among(Expr, Member, Vec<Member>),
}

/// The first word of a value, outside of the tests of its choices.
#[cycle(first_word)]
fn first_word(value: &Expr) -> Option<usize>
    ensures { result ≡ first_word_of (expression value.now) }
{
    match value {
        Expr::Number(..) => None,
        Expr::Word(word) | Expr::NextWord(word) => Some(*word),
        Expr::Inverse(_, a) | Expr::Shifted(_, _, a, _) => first_word(a),
        Expr::Binary(_, _, a, b) | Expr::If(_, a, b) => match first_word(a) {
            Some(word) => Some(word),
            None => first_word(b),
        },
    }
}

/// The number, where it fits into so many bits.
fn fitting(number: i128, width: u32) -> Result<Option<u64>, Unknown>
    requires { width ≤ 64 }
    ensures some { IfOk result (λ found. IfSome found (λ n. number ≡ pos n)) }
    ensures fits { IfOk result (λ found. is_some found ≡ fits width number) }
{
    if number < 0 {
        return Ok(None);
    }
    match u64::try_from(number) {
        Ok(number) if u128::from(number) < 1u128 << width => Ok(Some(number)),
        Ok(_) => Ok(None),
        Err(_) => Err(Unknown::NoRule),
    }
}

/// The indices, with one more after them.
fn one_longer(alloc: Global, indices: &[i128], last: i128) -> Result<Vec<i128>, AllocError>
    ensures { IfOk result (λ zs. zs.items ≡ indices.now ++ last ∷ []) }
{
    let mut copy = Vec::from_slice(alloc, indices)?;
    copy.push(last)?;
    Ok(copy)
}

/// The indices, with another one at a place.
fn with_index(
    alloc: Global,
    indices: &[i128],
    place: usize,
    index: i128,
) -> Result<Vec<i128>, Unknown>
    ensures { IfOk result (λ zs. zs.items ≡ slice_set indices.now place index) }
{
    let mut copy = Vec::from_slice(alloc, indices)?;
    let Some(slot) = copy.get_mut(place) else {
        return Err(Unknown::NoRule);
    };
    *slot = index;
    Ok(copy)
}

/// Indices, longer by each of these numbers.
fn each_longer(alloc: Global, indices: &[i128], numbers: &[i128]) -> Result<Vec<Vec<i128>>, Unknown>
    ensures { IfOk result (λ iss. map (λ is. is.items) iss.items ≡ map (λ z. indices.now ++ z ∷ []) numbers.now) }
{
    let mut longer = Vec::new(alloc);
    for number in numbers {
        longer.push(one_longer(alloc, indices, *number)?)?;
    }
    Ok(longer)
}

/// Indices, each longer by each number of a range.
fn longer(alloc: Global, all: &[Vec<i128>], range: (i128, i128)) -> Result<Vec<Vec<i128>>, Unknown>
    ensures { IfOk result (λ iss. map (λ is. is.items) iss.items ≡ longer_by range (map (λ is. is.items) all.now)) }
{
    let numbers = numbers(alloc, range.0, range.1)?;
    let mut longer = Vec::new(alloc);
    for indices in all {
        if longer.len() > MOST_WORDS {
            return Err(Unknown::NoRule);
        }
        let mut own = each_longer(alloc, indices, &numbers)?;
        longer.append(&mut own)?;
    }
    Ok(longer)
}

/// The indices of all members of a family with these first ones, in their order.
pub(crate) fn members(
    alloc: Global,
    ranges: &[(i128, i128)],
    given: &[i128],
) -> Result<Vec<Vec<i128>>, Unknown>
    ensures { IfOk result (λ iss. map (λ is. is.items) iss.items ≡ members_of ranges.now (given.now ∷ [])) }
{
    let mut all = Vec::new(alloc);
    all.push(Vec::from_slice(alloc, given)?)?;
    for range in ranges {
        all = longer(alloc, &all, *range)?;
    }
    Ok(all)
}

/// Wants that indices are numbers of their ranges; the last ones may be left out.
fn want_within(ranges: &[(i128, i128)], indices: &[i128]) -> Result<(), Unknown>
    ensures { IfOk result (λ _. AreWithin ranges.now indices.now) }
{
    let Some((index, others)) = indices.split_first() else {
        return Ok(());
    };
    match ranges.split_first() {
        Some((range, rest)) if range.0 <= *index && *index <= range.1 => want_within(rest, others),
        _ => Err(Unknown::NoRule),
    }
}

/// The numbers among the meanings of indices, and the one value over words with its place, in which the first number of its range stands.
fn indices_of(
    alloc: Global,
    ranges: &[(i128, i128)],
    meanings: &[Meaning],
) -> Result<(Vec<i128>, Option<(usize, Expr)>), Unknown>
    ensures { IfOk result (λ r. AreIndices (map shown meanings.now) r.0.items (option_map (λ p. (p.0, expression p.1)) r.1)) }
{
    let mut indices = Vec::new(alloc);
    let mut choosing = None;
    for (place, meaning) in meanings.iter().enumerate() {
        match meaning {
            Meaning::Whole(number) => indices.push(*number)?,
            Meaning::Value(value) if choosing.is_none() => {
                let Some(range) = ranges.get(place) else {
                    return Err(Unknown::NoRule);
                };
                choosing = Some((place, copy_expr(alloc, value)?));
                indices.push(range.0)?;
            }
            _ => return Err(Unknown::NoRule),
        }
    }
    Ok((indices, choosing))
}

impl Reader<'_> {
    /// The ranges of a family's name.
    fn family(&self, names: &Names, name: Span) -> Result<&[(i128, i128)], Unknown>
        ensures { IfOk result (λ r. Knows (outline self.now) (names_at self.now names.now) name (family r.now)) }
    {
        match self.known(names, name) {
            Some(Sense::Family(ranges)) => Ok(ranges.as_slice()),
            _ => Err(Unknown::NoRule),
        }
    }

    /// The word of a family with these indices.
    pub(crate) fn member(&self, name: Span, indices: &[i128]) -> Result<usize, Unknown>
        ensures { IfOk result (λ k. IsMember (words_of self.now) (text_of (outline self.now) name) indices.now k) }
    {
        let text = self.member_text(name, indices)?;
        let Ok(text) = std::str::from_utf8(&text) else {
            return Err(Unknown::NoRule);
        };
        match self.layout.find(text) {
            Some(word) => Ok(word),
            None => Err(Unknown::NoRule),
        }
    }

    /// The words of a family at these indices.
    fn words_at(&self, name: Span, all: &[Vec<i128>]) -> Result<Vec<usize>, Unknown>
        ensures { IfOk result (λ ks. AreMembers (words_of self.now) (text_of (outline self.now) name) (map (λ is. is.items) all.now) ks.items) }
    {
        let mut words = Vec::new(self.alloc);
        for indices in all {
            words.push(self.member(name, indices)?)?;
        }
        Ok(words)
    }

    /// What a family's name with indices selects.
    #[cycle(reading)]
    #[tactic(auto, using(crate::proofs::Rules::rules))]
    pub(crate) fn selected(
        &self,
        names: &Names,
        name: Span,
        listed: List,
        depth: u32,
        steps: &mut Steps,
    ) -> Result<Selected, Unknown>
        ensures { IfOk result (λ s. Selects (outline self.now) (words_of self.now) (names_at self.now names.now) name listed (selection s)) }
    {
        let meanings = self.meanings(names, self.listed(listed), depth, steps)?;
        self.select(names, name, listed, &meanings)
    }

    /// What it selects, where its indices stand for these.
    fn select(
        &self,
        names: &Names,
        name: Span,
        listed: List,
        meanings: &[Meaning],
    ) -> Result<Selected, Unknown>
        ensures { IfOk result (λ s. AllStandFor (outline self.now) (words_of self.now) (names_at self.now names.now) (listed_of (outline self.now) listed) (map shown meanings.now) → Selects (outline self.now) (words_of self.now) (names_at self.now names.now) name listed (selection s)) }
    {
        let ranges = self.family(names, name)?;
        if meanings.len() != ranges.len() {
            return Err(Unknown::NoRule);
        }
        let (indices, choosing) = indices_of(self.alloc, ranges, meanings)?;
        want_within(ranges, &indices)?;
        match choosing {
            None => Ok(Selected::Word(self.member(name, &indices)?)),
            Some((place, value)) => {
                let Some(range) = ranges.get(place) else {
                    return Err(Unknown::NoRule);
                };
                let all = numbers(self.alloc, range.0, range.1)?;
                let width = self.width_of(&value)?;
                let members = self.choices(name, &indices, place, &all, width)?;
                let Some((first, rest)) = members.split_first() else {
                    return Err(Unknown::NoRule);
                };
                let rest = Vec::from_slice(self.alloc, rest)?;
                Ok(Selected::Among(value, *first, rest))
            }
        }
    }

    /// The width of the first word of a value.
    fn width_of(&self, value: &Expr) -> Result<u32, Unknown>
        ensures few { IfOk result (λ width. width ≤ 64) }
        ensures first { IfOk result (λ width. (v : ℕ) × (first_word_of (expression value.now) ≡ Some v) × (slice_get (widths_of (words_of self.now)) v ≡ Some width)) }
    {
        match first_word(value) {
            Some(word) if word < self.layout.len() => Ok(self.layout.width(word)),
            _ => Err(Unknown::NoRule),
        }
    }

    /// The members with these indices, but for the one at a place, whose numbers there are of these and fit into so many bits.
    fn choices(
        &self,
        name: Span,
        indices: &[i128],
        place: usize,
        numbers: &[i128],
        width: u32,
    ) -> Result<Vec<Member>, Unknown>
        requires { width ≤ 64 }
        ensures { IfOk result (λ ms. AreCandidatesAt (words_of self.now) (text_of (outline self.now) name) indices.now place (filter (fits width) numbers.now) (map candidate_of ms.items)) }
    {
        let mut members = Vec::new(self.alloc);
        for number in numbers {
            if let Some(fitting) = fitting(*number, width)? {
                let own = with_index(self.alloc, indices, place, *number)?;
                let word = self.member(name, &own)?;
                members.push(Member {
                    number: fitting,
                    word,
                })?;
            }
        }
        Ok(members)
    }

    /// The value of the member that an index over words chooses, from one on: where it is the number of none, that of the last one.
    #[cycle(chosen)]
    pub(crate) fn chosen_value(
        &self,
        index: &Expr,
        first: &Member,
        rest: &[Member],
    ) -> Result<Expr, Unknown>
        ensures { IfOk result (λ e. expression e ≡ chosen_of (expression index.now) (candidate_of first.now) (map candidate_of rest.now)) }
    {
        let Some((next, others)) = rest.split_first() else {
            return Ok(Expr::Word(first.word));
        };
        let test = is_number(copy_expr(self.alloc, index)?, first.number);
        let other = self.chosen_value(index, next, others)?;
        Ok(Expr::If(
            Box::new(self.alloc, test)?,
            Box::new(self.alloc, Expr::Word(first.word))?,
            Box::new(self.alloc, other)?,
        ))
    }

    /// The words of a list, in their order; a family without its last indices stands for all members with the first ones.
    #[cycle(reading)]
    #[tactic(auto, using(crate::proofs::Rules::rules))]
    pub(crate) fn listed_words(
        &self,
        names: &Names,
        listed: List,
        depth: u32,
        steps: &mut Steps,
    ) -> Result<Vec<usize>, Unknown>
        ensures { IfOk result (λ ks. WordsStandFor (outline self.now) (words_of self.now) (names_at self.now names.now) (listed_of (outline self.now) listed) ks.items) }
    {
        let mut words = Vec::new(self.alloc);
        for index in self.listed(listed) {
            let mut own = self.words_named(names, *index, depth, steps)?;
            words.append(&mut own)?;
        }
        Ok(words)
    }

    /// The words that one name of a list stands for.
    #[cycle(reading)]
    #[tactic(auto, using(crate::proofs::Rules::rules))]
    fn words_named(
        &self,
        names: &Names,
        index: usize,
        depth: u32,
        steps: &mut Steps,
    ) -> Result<Vec<usize>, Unknown>
        ensures { IfOk result (λ ks. WordsStandFor (outline self.now) (words_of self.now) (names_at self.now names.now) (index ∷ []) ks.items) }
    {
        let ExpressionKind::Name {
            name,
            listed,
            has_arguments: false,
            is_primed: false,
        } = self.kind(index)?
        else {
            return Err(Unknown::NoRule);
        };
        let given = self.wholes(names, self.listed(listed), depth, steps)?;
        self.words_of(names, name, &given)
    }

    /// The words of a family with these first indices.
    fn words_of(&self, names: &Names, name: Span, given: &[i128]) -> Result<Vec<usize>, Unknown>
        ensures { IfOk result (λ ks. AreWordsOf (outline self.now) (words_of self.now) (names_at self.now names.now) name given.now ks.items) }
    {
        let ranges = self.family(names, name)?;
        want_within(ranges, given)?;
        if given.len() > ranges.len() {
            return Err(Unknown::NoRule);
        }
        let all = members(self.alloc, &ranges[given.len()..], given)?;
        self.words_at(name, &all)
    }
}
