//! Numbers, ranges, and the instances of a tree.

use crate::Root;
use crate::elaborate::{DEEPEST, Sort};
use crate::scope::Scope;
use rg_outline_syntax::{Binder, ExpressionKind, Junction, List, MeaningFault, Operator, Span};

/// The most numbers of a range.
const MOST_NUMBERS: u32 = 1_000;

/// What is known of the range of a quantifier or a sum.
#[derive(Clone, Copy, PartialEq, Eq)]
pub(crate) enum Filling {
    /// It wasn't gone over.
    Unused,
    /// Each time that it was gone over there was no number in it.
    Empty,
    /// It had numbers.
    Filled,
}

impl Scope<'_> {
    /// Whether a quantifier or a sum over the range of this index was worked out, and never had an instance.
    pub fn is_always_empty(&self, range: usize) -> bool {
        matches!(self.fillings.get(range), Some(Filling::Empty))
    }

    /// Notes that a quantifier or a sum over the range of this index was worked out, with numbers or without.
    fn note_filling(&mut self, range: usize, numbers: List) {
        for _ in self.fillings.len()..range.saturating_add(1) {
            let stored = self.fillings.push(Filling::Unused);
            self.want_stored(stored.is_ok());
        }
        if let Some(slot) = self.fillings.get_mut(range) {
            if !numbers.is_empty() {
                *slot = Filling::Filled;
            } else if *slot == Filling::Unused {
                *slot = Filling::Empty;
            }
        }
    }

    /// The numbers of a range, as places in `numbers`.
    pub fn numbers_of(&mut self, range: usize) -> List {
        self.range_of(range, DEEPEST)
    }

    /// The number at a place of `numbers`.
    pub fn number_at(&self, place: usize) -> i128 {
        self.numbers.get(place).copied().unwrap_or(0)
    }

    /// The number that an index stands for, which has to be one.
    pub fn index_number(&mut self, index: usize) -> i128 {
        self.number_of(index, "an index", DEEPEST)
    }

    /// The number that an expression stands for, which has to be one.
    #[cycle(elaborate)]
    pub(crate) fn number_of(&mut self, index: usize, what: &'static str, depth: u32) -> i128 {
        let tree = self.elaborate(index, depth);
        match self.forest.number(tree) {
            Some(number) => number,
            None => {
                let span = self.expression(index).span;
                self.refuse(MeaningFault::NumberWanted(what), span);
                0
            }
        }
    }

    /// The numbers of a range, as places in `numbers`.
    #[cycle(elaborate)]
    fn range_of(&mut self, index: usize, depth: u32) -> List {
        let Some(range) = self.written.ranges.get(index).copied() else {
            return List::EMPTY;
        };
        let first = self.number_of(range.first, "a bound of a range", depth);
        let last = self.number_of(range.last, "a bound of a range", depth);
        let left_out = self.numbers.len();
        for place in range.without.start..range.without.end {
            let number = self.written.listed.get(place).copied().unwrap_or(0);
            let number = self.number_of(number, "what is left out", depth);
            let stored = self.numbers.push(number);
            self.want_stored(stored.is_ok());
        }
        self.add_numbers((first, last), left_out, range.span)
    }

    /// Adds the numbers from the one to the other, without those from a place of `numbers` on; after a fault none.
    fn add_numbers(&mut self, (first, last): (i128, i128), left_out: usize, span: Span) -> List {
        if last.saturating_sub(first) >= i128::from(MOST_NUMBERS) {
            self.refuse(MeaningFault::RangeTooLong, span);
        }
        if self.is_stopped() {
            return List::EMPTY;
        }
        let start = self.numbers.len();
        for offset in 0..MOST_NUMBERS {
            let number = first.saturating_add(i128::from(offset));
            if number > last {
                break;
            }
            let others = self.numbers.get(left_out..start).unwrap_or(&[]);
            if !others.iter().any(|other| *other == number) {
                let stored = self.numbers.push(number);
                self.want_stored(stored.is_ok());
            }
        }
        List::new(start, self.numbers.len())
    }

    /// The instances of a quantifier's or a sum's body, joined.
    #[cycle(elaborate)]
    pub(crate) fn quantified(&mut self, bound: ExpressionKind, span: Span, depth: u32) -> usize {
        let ExpressionKind::Bound {
            binder,
            index,
            range,
            body,
        } = bound
        else {
            return 0;
        };
        self.refuse_taken(index);
        let numbers = self.range_of(range, depth);
        self.note_filling(range, numbers);
        let mark = self.names.len();
        let sort = match binder {
            Binder::Sum => Sort::Value,
            _ => Sort::Formula,
        };
        let mut made = None;
        for place in numbers.start..numbers.end {
            if self.is_stopped() {
                break;
            }
            self.forget(mark);
            let number = self.number_at(place);
            self.know_number(index, span, number);
            let instance = self.sorted(body, sort, depth);
            made = Some(self.collected(binder, made, instance, span));
        }
        self.forget(mark);
        match made {
            Some(tree) => tree,
            None => self.leaf(of_nothing(binder), span),
        }
    }

    /// The next instance after the ones before it, if there are any.
    fn collected(&mut self, binder: Binder, last: Option<usize>, next: usize, span: Span) -> usize {
        let Some(last) = last else {
            return next;
        };
        let made = match binder {
            Binder::All => self.forest.joined(Junction::And, [last, next], span),
            Binder::Some => self.forest.joined(Junction::Or, [last, next], span),
            Binder::Sum => self.forest.operated(Operator::Add, [last, next], span),
        };
        self.made(made)
    }
}

/// What an empty range makes.
fn of_nothing(binder: Binder) -> Root {
    match binder {
        Binder::All => Root::Truth(true),
        Binder::Some => Root::Truth(false),
        Binder::Sum => Root::Number(0),
    }
}
