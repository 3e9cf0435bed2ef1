//! Names, and what they stand for.

ghost use Rattle.std.specs.Prelude.{◌≡◌, ◌≢◌, ℕ, [], map, All, IfOk, OnOk, IfSome, IfNone};
ghost use Rattle.rg_outline_meaning.specs.Names.{text_of, piece_of, listed as listed_of, parameters_of, IsUnbound, IsNew, IsAmong, Knows, Binds, HasArguments, with_number};
ghost use Rattle.rg_outline_meaning.specs.View.{meaning as shown, sense as sense_of, known, bound, outline, knowns, names as names_at};

use crate::meaning::{Meaning, Unknown};
use rg_outline_syntax::{Let, List, Procedure, Span, Written};
use rg_words::Layout;
use std::alloc::Global;

/// The most steps of reading a part, or all formulas at the head: each expression that is read takes one, and each copy of a meaning as many as its tree has
/// nodes.
const MOST_STEPS: usize = 60_000_000;

/// What a name of an outline or of a part stands for.
#[derive(Drop)]
pub(crate) enum Sense {
    /// A word, or a family of words with these first and last numbers of its indices.
    Family(Vec<(i128, i128)>),
    Let(Let),
    Procedure(Procedure),
    /// The number of a part in its family.
    Number(i128),
}

/// A name of an outline or of a part.
#[derive(Drop)]
pub(crate) struct Known {
    pub(crate) name: Span,
    /// The place of the outline after which it is known.
    pub(crate) since: usize,
    pub(crate) sense: Sense,
}

/// A parameter or an index.
#[derive(Drop)]
pub(crate) struct Bound {
    pub(crate) name: Span,
    pub(crate) meaning: Meaning,
}

/// The names that are known at a place, besides those of the outline and the part.
#[derive(Drop)]
pub(crate) struct Names {
    pub(crate) bound: Vec<Bound>,
}

/// How many steps of reading are left.
#[derive(Drop)]
pub(crate) struct Steps {
    left: usize,
}

/// What is read, with the words that it has to declare.
#[derive(Drop)]
pub(crate) struct Reader<'a> {
    pub(crate) alloc: Global,
    pub(crate) source: &'a [u8],
    pub(crate) written: &'a Written,
    pub(crate) layout: &'a Layout,
    pub(crate) known: Vec<Known>,
}

impl Steps {
    /// All steps.
    pub(crate) fn new() -> Steps {
        Steps { left: MOST_STEPS }
    }

    /// Takes so many.
    pub(crate) fn spend(&mut self, count: usize) -> Result<(), Unknown> {
        match self.left.checked_sub(count) {
            Some(left) => {
                self.left = left;
                Ok(())
            }
            None => Err(Unknown::NoRule),
        }
    }

    /// An equal meaning, which takes as many steps as its tree has nodes.
    pub(crate) fn copy(&mut self, alloc: Global, meaning: &Meaning) -> Result<Meaning, Unknown>
        ensures { IfOk result (λ m. shown m ≡ shown meaning.now) }
    {
        self.spend(meaning.size(self.left))?;
        Ok(meaning.copy(alloc)?)
    }
}

/// The piece of items that a list is.
pub(crate) fn piece<T>(items: &[T], list: List) -> &[T]
    ensures { result.now ≡ piece_of items.now list }
{
    let rest = &items[list.start.min(items.len())..];
    let len = list.end.saturating_sub(list.start);
    &rest[..len.min(rest.len())]
}

impl<'a> Reader<'a> {
    /// The bytes of a name.
    pub(crate) fn text(&self, name: Span) -> &'a [u8]
        ensures { result.now ≡ text_of (outline self.now) name }
    {
        let rest = &self.source[name.start.min(self.source.len())..];
        let len = name.end.saturating_sub(name.start);
        &rest[..len.min(rest.len())]
    }

    /// The indices of a list.
    pub(crate) fn listed(&self, list: List) -> &'a [usize]
        ensures { result.now ≡ listed_of (outline self.now) list }
    {
        piece(self.written.listed.as_slice(), list)
    }

    /// What a parameter or an index of this name stands for.
    pub(crate) fn bound<'n>(&self, names: &'n Names, name: Span) -> Option<&'n Meaning>
        ensures some { IfSome result (λ m. (k : ℕ) × Binds (names_at self.now names.now) k (text_of (outline self.now) name) (shown m.now)) }
        ensures none { IfNone result (All (λ b. b.name ≢ text_of (outline self.now) name) (map (bound (outline self.now)) names.now.bound.items)) }
    {
        let text = self.text(name);
        for bound in &names.bound {
            if self.text(bound.name) == text {
                return Some(&bound.meaning);
            }
        }
        None
    }

    /// What a name of the outline or the part stands for where it is used, after its declaration. A parameter or an index that is called so goes before it.
    #[tactic(auto, using(crate::proofs::Known::rules))]
    pub(crate) fn known<'s>(&'s self, names: &Names, name: Span) -> Option<&'s Sense>
        ensures { IfSome result (λ s. Knows (outline self.now) (names_at self.now names.now) name (sense_of (outline self.now) s.now)) }
    {
        if self.bound(names, name).is_some() {
            return None;
        }
        let (since, sense) = self.find(name)?;
        if since > name.start {
            return None;
        }
        Some(sense)
    }

    /// From where on a name of the outline or the part is known, and what it stands for.
    fn find<'s>(&'s self, name: Span) -> Option<(usize, &'s Sense)>
        ensures some { IfSome result (λ r. IsAmong (knowns self.now) (text_of (outline self.now) name) r.0 (sense_of (outline self.now) r.1.now)) }
        ensures none { IfNone result (All (λ k. k.name ≢ text_of (outline self.now) name) (knowns self.now)) }
    {
        let text = self.text(name);
        let all = self.known.as_slice();
        for (place, known) in all.iter().enumerate() {
            if self.text(known.name) == text {
                return Some((known.since, &known.sense));
            }
        }
        None
    }

    /// Wants that what stands after a name in `[..]`, and so are no arguments, is nothing.
    pub(crate) fn want_arguments(&self, has_arguments: bool, listed: List) -> Result<(), Unknown>
        ensures { OnOk result (HasArguments (outline self.now) has_arguments listed) }
    {
        if has_arguments {
            return Ok(());
        }
        self.want_none(listed)
    }

    /// Wants that a list is empty.
    #[tactic(auto, using(crate::proofs::Known::nothing_left))]
    pub(crate) fn want_none(&self, listed: List) -> Result<(), Unknown>
        ensures { OnOk result (listed_of (outline self.now) listed ≡ []) }
    {
        if self.listed(listed).is_empty() {
            return Ok(());
        }
        Err(Unknown::NoRule)
    }

    /// Wants that no parameter or index is called so.
    pub(crate) fn want_unbound(&self, names: &Names, name: Span) -> Result<(), Unknown>
        ensures { OnOk result (IsUnbound (names_at self.now names.now) (text_of (outline self.now) name)) }
    {
        if self.bound(names, name).is_some() {
            return Err(Unknown::NoRule);
        }
        Ok(())
    }

    /// Wants that nothing is called so.
    pub(crate) fn want_new(&self, names: &Names, name: Span) -> Result<(), Unknown>
        ensures { IfOk result (λ _. IsNew (names_at self.now names.now) (text_of (outline self.now) name)) }
    {
        if self.bound(names, name).is_some() || self.find(name).is_some() {
            return Err(Unknown::NoRule);
        }
        Ok(())
    }

    /// The same names.
    pub(crate) fn copied(&self, names: &Names, steps: &mut Steps) -> Result<Names, Unknown>
        ensures { IfOk result (λ copy. names_at self.now copy ≡ names_at self.now names.now) }
    {
        let mut bound = Vec::new(self.alloc);
        for one in &names.bound {
            let meaning = steps.copy(self.alloc, &one.meaning)?;
            bound.push(Bound {
                name: one.name,
                meaning,
            })?;
        }
        Ok(Names { bound })
    }
}
