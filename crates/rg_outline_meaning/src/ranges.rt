//! Ranges of numbers, and quantifiers and sums over them.

ghost use Rattle.std.specs.Prelude.{◌≡◌, ◌++◌, map, Some, option_map, IfOk};
ghost use Rattle.rg_outline_meaning.specs.Meanings.{whole};
ghost use Rattle.rg_outline_meaning.specs.Names.{text_of, with_number};
ghost use Rattle.rg_outline_meaning.specs.Members.{is_among as is_among_them, without, numbers_from, numbers as numbers_between};
ghost use Rattle.rg_outline_meaning.specs.Expressions.{StandsFor, AllStandFor, RangeIs, IsInstance, combined as combination, of_nothing as nothing};
ghost use Rattle.rg_outline_meaning.specs.Inner.{IsCollectedWith, of_all, StandForInstances};
ghost use Rattle.rg_outline_meaning.specs.View.{meaning as shown, outline, words, names as names_at};

use crate::folded::{joined, operated};
use crate::meaning::{Meaning, Unknown};
use crate::names::{Bound, Names, Reader, Steps};
use rg_outline_syntax::{Binder, Junction, Operator, Span};
use rg_tree::tree::Formula;
use std::alloc::Global;

/// The most numbers of a range.
pub(crate) const MOST_NUMBERS: u32 = 1_000;

/// What is made of the instances of a tree: its binder, the name of its index, its range and the tree.
#[derive(Clone, Copy)]
pub(crate) struct Instances {
    pub(crate) binder: Binder,
    pub(crate) index: Span,
    pub(crate) range: usize,
    pub(crate) body: usize,
}

/// Whether a number is among these.
fn is_among(numbers: &[i128], number: i128) -> bool
    ensures { result ≡ is_among_them numbers.now number }
{
    match numbers.split_first() {
        Some((first, rest)) => *first == number || is_among(rest, number),
        None => false,
    }
}

/// Adds so many numbers from one on.
fn push_numbers(numbers: &mut Vec<i128>, first: i128, count: u32) -> Result<(), Unknown>
    ensures { IfOk result (λ _. numbers.new.items ≡ numbers.old.items ++ numbers_from first count) }
{
    if count == 0 {
        return Ok(());
    }
    numbers.push(first)?;
    if count == 1 {
        return Ok(());
    }
    match first.checked_add(1) {
        Some(next) => push_numbers(numbers, next, count - 1),
        None => Err(Unknown::NoRule),
    }
}

/// The numbers from one to another.
pub(crate) fn numbers(alloc: Global, first: i128, last: i128) -> Result<Vec<i128>, Unknown>
    ensures { IfOk result (λ zs. zs.items ≡ numbers_between first last) }
{
    let mut numbers = Vec::new(alloc);
    if last < first {
        return Ok(numbers);
    }
    let Some(span) = last.checked_sub(first) else {
        return Err(Unknown::NoRule);
    };
    match u32::try_from(span) {
        Ok(span) if span < MOST_NUMBERS => {
            push_numbers(&mut numbers, first, span + 1)?;
            Ok(numbers)
        }
        _ => Err(Unknown::NoRule),
    }
}

/// Numbers without some.
fn numbers_without(alloc: Global, numbers: &[i128], left_out: &[i128]) -> Result<Vec<i128>, Unknown>
    ensures { IfOk result (λ zs. zs.items ≡ without left_out.now numbers.now) }
{
    let mut others = Vec::new(alloc);
    for number in numbers {
        if !is_among(left_out, *number) {
            others.push(*number)?;
        }
    }
    Ok(others)
}

/// The numbers that these are.
fn wholes_of(alloc: Global, meanings: &[Meaning]) -> Result<Vec<i128>, Unknown>
    ensures { IfOk result (λ zs. map shown meanings.now ≡ map (λ z. whole z) zs.items) }
{
    let mut numbers = Vec::new(alloc);
    for meaning in meanings {
        match meaning {
            Meaning::Whole(number) => numbers.push(*number)?,
            _ => return Err(Unknown::NoRule),
        }
    }
    Ok(numbers)
}

impl Reader<'_> {
    /// What expressions stand for, one by one.
    #[cycle(reading)]
    #[tactic(auto, using(crate::proofs::Rules::rules))]
    pub(crate) fn meanings(
        &self,
        names: &Names,
        indices: &[usize],
        depth: u32,
        steps: &mut Steps,
    ) -> Result<Vec<Meaning>, Unknown>
        ensures { IfOk result (λ ms. AllStandFor (outline self.now) (words self.now) (names_at self.now names.now) indices.now (map shown ms.items)) }
    {
        let mut meanings = Vec::new(self.alloc);
        for index in indices {
            let meaning = self.meaning(names, *index, depth, steps)?;
            meanings.push(meaning)?;
        }
        Ok(meanings)
    }

    /// The numbers that expressions stand for, one by one.
    #[cycle(reading)]
    #[tactic(auto, using(crate::proofs::Rules::rules))]
    pub(crate) fn wholes(
        &self,
        names: &Names,
        indices: &[usize],
        depth: u32,
        steps: &mut Steps,
    ) -> Result<Vec<i128>, Unknown>
        ensures { IfOk result (λ zs. AllStandFor (outline self.now) (words self.now) (names_at self.now names.now) indices.now (map (λ z. whole z) zs.items)) }
    {
        let meanings = self.meanings(names, indices, depth, steps)?;
        wholes_of(self.alloc, &meanings)
    }

    /// The numbers of a range, in their order.
    #[cycle(reading)]
    #[tactic(auto, using(crate::proofs::Rules::rules))]
    pub(crate) fn range(
        &self,
        names: &Names,
        range: usize,
        depth: u32,
        steps: &mut Steps,
    ) -> Result<Vec<i128>, Unknown>
        ensures { IfOk result (λ zs. RangeIs (outline self.now) (words self.now) (names_at self.now names.now) range zs.items) }
    {
        let Some(range) = self.written.ranges.get(range) else {
            return Err(Unknown::NoRule);
        };
        let first = self.whole(names, range.first, depth, steps)?;
        let last = self.whole(names, range.last, depth, steps)?;
        let left_out = self.wholes(names, self.listed(range.without), depth, steps)?;
        let all = numbers(self.alloc, first, last)?;
        numbers_without(self.alloc, &all, &left_out)
    }

    /// What a quantifier or a sum stands for.
    #[cycle(reading)]
    #[tactic(auto, using(crate::proofs::Rules::rules))]
    pub(crate) fn collected(
        &self,
        names: &Names,
        instances: Instances,
        depth: u32,
        steps: &mut Steps,
    ) -> Result<Meaning, Unknown>
        ensures { IfOk result (λ m. StandForInstances (outline self.now) (words self.now) (names_at self.now names.now) instances.binder (text_of (outline self.now) instances.index) instances.range instances.body (shown m)) }
    {
        self.want_unbound(names, instances.index)?;
        let numbers = self.range(names, instances.range, depth, steps)?;
        let mut inner = self.copied(names, steps)?;
        let mut made: Option<Meaning> = None;
        for number in &numbers {
            let next = self.instance(&mut inner, instances, *number, depth, steps)?;
            made = Some(with_next(self.alloc, instances.binder, made, next)?);
        }
        Ok(all_of(instances.binder, made))
    }

    /// What the instance with a number stands for: a value in a sum, else a formula.
    #[cycle(reading)]
    #[tactic(auto, using(crate::proofs::Rules::rules))]
    fn instance(
        &self,
        names: &mut Names,
        instances: Instances,
        number: i128,
        depth: u32,
        steps: &mut Steps,
    ) -> Result<Meaning, Unknown>
        ensures stands { IfOk result (λ m. StandsFor (outline self.now) (words self.now) (with_number (names_at self.now names.old) (text_of (outline self.now) instances.index) number) instances.body (shown m)) }
        ensures kind { IfOk result (λ m. IsInstance instances.binder (shown m)) }
        ensures kept { IfOk result (λ _. names_at self.now names.new ≡ names_at self.now names.old) }
    {
        names.bound.push(Bound {
            name: instances.index,
            meaning: Meaning::Whole(number),
        })?;
        let meaning = match instances.binder {
            Binder::Sum => self.number_or_value(names, instances.body, depth, steps)?,
            Binder::All | Binder::Some => {
                Meaning::Formula(self.formula(names, instances.body, depth, steps)?)
            }
        };
        names.bound.pop();
        Ok(meaning)
    }
}

/// What is made of the instances so far, if there are any, and of the next one.
fn with_next(
    alloc: Global,
    binder: Binder,
    made: Option<Meaning>,
    next: Meaning,
) -> Result<Meaning, Unknown>
    ensures { IfOk result (λ m. IsCollectedWith binder (option_map shown made) (shown next) (shown m)) }
{
    match made {
        None => Ok(next),
        Some(before) => combined(alloc, binder, before, next),
    }
}

/// What is made of all instances.
fn all_of(binder: Binder, made: Option<Meaning>) -> Meaning
    ensures { shown result ≡ of_all binder (option_map shown made) }
{
    match made {
        Some(meaning) => meaning,
        None => of_nothing(binder),
    }
}

/// The instances so far, and the next one.
fn combined(
    alloc: Global,
    binder: Binder,
    before: Meaning,
    next: Meaning,
) -> Result<Meaning, Unknown>
    ensures { IfOk result (λ m. combination binder (shown before) (shown next) ≡ Some (shown m)) }
{
    match binder {
        Binder::All => {
            let first = before.into_formula()?;
            let made = joined(alloc, Junction::And, first, next.into_formula()?)?;
            Ok(Meaning::Formula(made))
        }
        Binder::Some => {
            let first = before.into_formula()?;
            let made = joined(alloc, Junction::Or, first, next.into_formula()?)?;
            Ok(Meaning::Formula(made))
        }
        Binder::Sum => operated(alloc, Operator::Add, before, next),
    }
}

/// What stands for no instance.
fn of_nothing(binder: Binder) -> Meaning
    ensures { shown result ≡ nothing binder }
{
    match binder {
        Binder::All => Meaning::Formula(Formula::Truth(true)),
        Binder::Some => Meaning::Formula(Formula::Truth(false)),
        Binder::Sum => Meaning::Whole(0),
    }
}
