//! What names stand for where they are used.

ghost use Rattle.std.specs.Prelude.{◌≡◌, map, IfOk};
ghost use Rattle.rg_tree.specs.View.{expression};
ghost use Rattle.rg_outline_meaning.specs.Meanings.{IsUsed};
ghost use Rattle.rg_outline_meaning.specs.Names.{text_of, listed as listed_of};
ghost use Rattle.rg_outline_meaning.specs.Expressions.{StandsFor, selected_value};
ghost use Rattle.rg_outline_meaning.specs.Inner.{AreArguments, MayBePrimed};
ghost use Rattle.rg_outline_meaning.specs.View.{meaning as shown, bound, outline, words, names as names_at, selected as selection};

use crate::folded::next_meaning;
use crate::meaning::{Meaning, Unknown};
use crate::names::{Bound, Names, Reader, Sense, Steps, piece};
use crate::selected::Selected;
use rg_outline_syntax::{ExpressionKind, List, Span};
use rg_tree::tree::Expr;
use std::alloc::Global;

/// What a name stands for as it is used: primed, in the next state.
#[tactic(auto, using(crate::proofs::States::in_this_state))]
fn used(alloc: Global, is_primed: bool, meaning: Meaning) -> Result<Meaning, Unknown>
    ensures { IfOk result (λ m. IsUsed is_primed (shown meaning) (shown m)) }
{
    if is_primed {
        return next_meaning(alloc, &meaning);
    }
    Ok(meaning)
}

/// The same of a parameter or an index: a number has no prime.
#[tactic(auto, using(crate::proofs::States::in_this_state, crate::proofs::States::never_whole))]
fn used_bound(alloc: Global, is_primed: bool, meaning: Meaning) -> Result<Meaning, Unknown>
    ensures used { IfOk result (λ m. IsUsed is_primed (shown meaning) (shown m)) }
    ensures no_number { IfOk result (λ _. MayBePrimed is_primed (shown meaning)) }
{
    if !is_primed {
        return Ok(meaning);
    }
    match &meaning {
        Meaning::Whole(_) => Err(Unknown::NoRule),
        Meaning::Value(_) | Meaning::Formula(_) => next_meaning(alloc, &meaning),
    }
}

impl Reader<'_> {
    /// What a name stands for, with its arguments or its indices.
    #[cycle(reading)]
    #[tactic(auto, using(crate::proofs::Rules::rules))]
    pub(crate) fn named(
        &self,
        names: &Names,
        index: usize,
        depth: u32,
        steps: &mut Steps,
    ) -> Result<Meaning, Unknown>
        ensures { IfOk result (λ m. StandsFor (outline self.now) (words self.now) (names_at self.now names.now) index (shown m)) }
    {
        let ExpressionKind::Name {
            name,
            listed,
            has_arguments,
            is_primed,
        } = self.kind(index)?
        else {
            return Err(Unknown::NoRule);
        };
        if let Some(meaning) = self.bound(names, name) {
            if has_arguments || !self.listed(listed).is_empty() {
                return Err(Unknown::NoRule);
            }
            let copy = steps.copy(self.alloc, meaning)?;
            return used_bound(self.alloc, is_primed, copy);
        }
        let Some(sense) = self.known(names, name) else {
            return Err(Unknown::NoRule);
        };
        match sense {
            Sense::Let(named) => {
                self.want_arguments(has_arguments, listed)?;
                let parameters = piece(self.written.names.as_slice(), named.parameters);
                let bound = self.arguments(names, parameters, listed, depth, steps)?;
                let inner = Names { bound };
                let meaning = self.meaning(&inner, named.body, depth, steps)?;
                used(self.alloc, is_primed, meaning)
            }
            Sense::Family(_) if !has_arguments => {
                let selected = self.selected(names, name, listed, depth, steps)?;
                let value = Meaning::Value(self.value_of(selected)?);
                used(self.alloc, is_primed, value)
            }
            Sense::Number(number)
                if !has_arguments && !is_primed && self.listed(listed).is_empty() => {
                Ok(Meaning::Whole(*number))
            }
            _ => Err(Unknown::NoRule),
        }
    }

    /// The value of what is selected.
    fn value_of(&self, selected: Selected) -> Result<Expr, Unknown>
        ensures { IfOk result (λ e. expression e ≡ selected_value (selection selected)) }
    {
        match selected {
            Selected::Word(word) => Ok(Expr::Word(word)),
            Selected::Among(index, first, rest) => self.chosen_value(&index, &first, &rest),
        }
    }

    /// Arguments under the names of their parameters.
    #[cycle(reading)]
    #[tactic(auto, using(crate::proofs::Rules::rules))]
    pub(crate) fn arguments(
        &self,
        names: &Names,
        parameters: &[Span],
        listed: List,
        depth: u32,
        steps: &mut Steps,
    ) -> Result<Vec<Bound>, Unknown>
        ensures { IfOk result (λ bs. AreArguments (outline self.now) (words self.now) (names_at self.now names.now) (listed_of (outline self.now) listed) (map (text_of (outline self.now)) parameters.now) (map (bound (outline self.now)) bs.items)) }
    {
        let indices = self.listed(listed);
        if indices.len() != parameters.len() {
            return Err(Unknown::NoRule);
        }
        let mut bound = Vec::new(self.alloc);
        for (place, index) in indices.iter().enumerate() {
            let meaning = self.meaning(names, *index, depth, steps)?;
            bound.push(Bound {
                name: parameters[place],
                meaning,
            })?;
        }
        Ok(bound)
    }
}
