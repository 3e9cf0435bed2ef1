//! What expressions stand for.

ghost use Rattle.std.specs.Prelude.{ℕ, map, IfOk};
ghost use Rattle.rg_tree.specs.View.{formula as view};
ghost use Rattle.rg_outline_syntax.specs.declared.written.ExpressionKind.TheVariants.{Join};
ghost use Rattle.rg_outline_meaning.specs.Meanings.{whole, claim, same_word as same, IsConjunction};
ghost use Rattle.rg_outline_meaning.specs.Names.{HasKind};
ghost use Rattle.rg_outline_meaning.specs.Expressions.{StandsFor, IsValue, IsUnchanged};
ghost use Rattle.rg_outline_meaning.specs.Inner.{Descends};
ghost use Rattle.rg_outline_meaning.specs.View.{meaning as shown, outline, words, names as names_at};

use crate::folded::{
    chosen, compared, conjunction, implied, joined, keeping, negated, operated, same_word,
};
use crate::meaning::{Meaning, Unknown};
use crate::names::{Names, Reader, Steps};
use crate::ranges::Instances;
use rg_outline_syntax::{ExpressionKind, Junction, List};
use rg_tree::tree::{Expr, Formula};

/// How deep what is read may stand within one another.
pub(crate) const DEEPEST: u32 = 1_000;

/// A connective of a chain, and the operand after it.
#[derive(Clone, Copy)]
struct Link {
    junction: Junction,
    operand: usize,
}

impl Reader<'_> {
    /// What an expression is made of.
    pub(crate) fn kind(&self, index: usize) -> Result<ExpressionKind, Unknown>
        ensures { IfOk result (λ kind. HasKind (outline self.now) index kind) }
    {
        match self.written.expressions.get(index) {
            Some(expression) => Ok(expression.kind),
            None => Err(Unknown::NoRule),
        }
    }

    /// The formula that an expression stands for.
    #[cycle(reading)]
    #[tactic(auto, using(crate::proofs::Rules::rules))]
    pub(crate) fn formula(
        &self,
        names: &Names,
        index: usize,
        depth: u32,
        steps: &mut Steps,
    ) -> Result<Formula, Unknown>
        ensures { IfOk result (λ p. StandsFor (outline self.now) (words self.now) (names_at self.now names.now) index (claim (view p))) }
    {
        self.meaning(names, index, depth, steps)?.into_formula()
    }

    /// The number that an expression stands for.
    #[cycle(reading)]
    #[tactic(auto, using(crate::proofs::Rules::rules))]
    pub(crate) fn whole(
        &self,
        names: &Names,
        index: usize,
        depth: u32,
        steps: &mut Steps,
    ) -> Result<i128, Unknown>
        ensures { IfOk result (λ z. StandsFor (outline self.now) (words self.now) (names_at self.now names.now) index (whole z)) }
    {
        self.meaning(names, index, depth, steps)?.into_whole()
    }

    /// The number or the value that an expression stands for.
    #[cycle(reading)]
    #[tactic(auto, using(crate::proofs::Rules::rules))]
    pub(crate) fn number_or_value(
        &self,
        names: &Names,
        index: usize,
        depth: u32,
        steps: &mut Steps,
    ) -> Result<Meaning, Unknown>
        ensures stands { IfOk result (λ m. StandsFor (outline self.now) (words self.now) (names_at self.now names.now) index (shown m)) }
        ensures is_value { IfOk result (λ m. IsValue (shown m)) }
    {
        match self.meaning(names, index, depth, steps)? {
            Meaning::Formula(_) => Err(Unknown::NoRule),
            Meaning::Whole(number) => Ok(Meaning::Whole(number)),
            Meaning::Value(value) => Ok(Meaning::Value(value)),
        }
    }

    /// What an expression stands for.
    #[cycle(reading)]
    #[tactic(auto, using(crate::proofs::Rules::rules))]
    pub(crate) fn meaning(
        &self,
        names: &Names,
        index: usize,
        depth: u32,
        steps: &mut Steps,
    ) -> Result<Meaning, Unknown>
        ensures { IfOk result (λ m. StandsFor (outline self.now) (words self.now) (names_at self.now names.now) index (shown m)) }
    {
        steps.spend(1)?;
        let Some(depth) = depth.checked_sub(1) else {
            return Err(Unknown::NoRule);
        };
        match self.kind(index)? {
            ExpressionKind::Number(number) => Ok(Meaning::Whole(i128::from(number))),
            ExpressionKind::Truth(truth) => Ok(Meaning::Formula(Formula::Truth(truth))),
            ExpressionKind::Group(inner) => self.meaning(names, inner, depth, steps),
            ExpressionKind::Name { .. } => self.named(names, index, depth, steps),
            ExpressionKind::Inverse(inner) => {
                let value = self.meaning(names, inner, depth, steps)?.into_value()?;
                let inverse = Expr::Inverse(0, Box::new(self.alloc, value)?);
                Ok(Meaning::Value(inverse))
            }
            ExpressionKind::Operate(operator, left, right) => {
                let first = self.meaning(names, left, depth, steps)?;
                let second = self.meaning(names, right, depth, steps)?;
                operated(self.alloc, operator, first, second)
            }
            ExpressionKind::Choice { test, yes, no } => {
                let test = self.formula(names, test, depth, steps)?;
                let first = self.number_or_value(names, yes, depth, steps)?;
                let second = self.number_or_value(names, no, depth, steps)?;
                chosen(self.alloc, test, first, second)
            }
            ExpressionKind::Bound {
                binder,
                index,
                range,
                body,
            } => {
                let instances = Instances {
                    binder,
                    index,
                    range,
                    body,
                };
                self.collected(names, instances, depth, steps)
            }
            _ => Ok(Meaning::Formula(self.claim(names, index, depth, steps)?)),
        }
    }

    /// The formula that an expression of one of the other kinds stands for.
    #[cycle(reading)]
    #[tactic(auto, using(crate::proofs::Rules::rules))]
    fn claim(
        &self,
        names: &Names,
        index: usize,
        depth: u32,
        steps: &mut Steps,
    ) -> Result<Formula, Unknown>
        ensures { IfOk result (λ p. StandsFor (outline self.now) (words self.now) (names_at self.now names.now) index (claim (view p))) }
    {
        match self.kind(index)? {
            ExpressionKind::Not(inner) => {
                let formula = self.formula(names, inner, depth, steps)?;
                Ok(negated(self.alloc, formula)?)
            }
            ExpressionKind::Keeps(inner) => {
                let formula = self.formula(names, inner, depth, steps)?;
                keeping(self.alloc, formula)
            }
            ExpressionKind::Join(junction, left, right) => {
                let last = Link {
                    junction,
                    operand: right,
                };
                self.chain(names, left, last, depth, steps)
            }
            ExpressionKind::Imply(conditional, left, right) => {
                let first = self.formula(names, left, depth, steps)?;
                let second = self.formula(names, right, depth, steps)?;
                Ok(implied(self.alloc, conditional, first, second)?)
            }
            ExpressionKind::Compare(comparison, left, right) => {
                let first = self.meaning(names, left, depth, steps)?;
                let second = self.meaning(names, right, depth, steps)?;
                compared(comparison, first, second)
            }
            ExpressionKind::Unchanged(listed) => {
                let words = self.listed_words(names, listed, depth, steps)?;
                self.same_words(&words)
            }
            ExpressionKind::UnchangedBut(listed) => {
                let words = self.listed_words(names, listed, depth, steps)?;
                self.all_same_but(&words)
            }
            _ => Err(Unknown::NoRule),
        }
    }

    /// The first operand of a chain of `and` and `or`, and its links, of which the last one stands innermost.
    #[tactic(auto, using(crate::proofs::Chains::chains))]
    fn links(&self, before: usize, last: Link) -> Result<(usize, Vec<Link>), Unknown>
        ensures { IfOk result (λ r. (index : ℕ) → HasKind (outline self.now) index (Join last.junction before last.operand) → Descends (outline self.now) index (map (λ l. (l.junction, l.operand)) r.1.items) r.0) }
    {
        let mut links = Vec::new(self.alloc);
        links.push(last)?;
        let mut first = before;
        for _place in 0..self.written.expressions.len() {
            let ExpressionKind::Join(junction, left, operand) = self.kind(first)? else {
                return Ok((first, links));
            };
            links.push(Link { junction, operand })?;
            first = left;
        }
        Ok((first, links))
    }

    /// The formula of a chain of `and` and `or`, whose first operand stands innermost: what stands before the last link, and this.
    #[cycle(reading)]
    #[tactic(auto, using(crate::proofs::Rules::rules))]
    fn chain(
        &self,
        names: &Names,
        before: usize,
        last: Link,
        depth: u32,
        steps: &mut Steps,
    ) -> Result<Formula, Unknown>
        ensures { IfOk result (λ p. (index : ℕ) → HasKind (outline self.now) index (Join last.junction before last.operand) → StandsFor (outline self.now) (words self.now) (names_at self.now names.now) index (claim (view p))) }
    {
        let (first, links) = self.links(before, last)?;
        let mut formula = self.formula(names, first, depth, steps)?;
        for place in 0..links.len() {
            let link = links[links.len() - 1 - place];
            let next = self.formula(names, link.operand, depth, steps)?;
            formula = joined(self.alloc, link.junction, formula, next)?;
        }
        Ok(formula)
    }

    /// That these words stay the same.
    fn same_words(&self, words: &[usize]) -> Result<Formula, Unknown>
        ensures { IfOk result (λ p. IsConjunction (map same words.now) (view p)) }
    {
        let mut equations = Vec::new(self.alloc);
        for word in words {
            equations.push(same_word(*word))?;
        }
        Ok(conjunction(self.alloc, &equations)?)
    }

    /// That all words but these and the fixed ones stay the same.
    pub(crate) fn all_same_but(&self, but: &[usize]) -> Result<Formula, Unknown>
        ensures { IfOk result (λ p. IsUnchanged (words self.now) but.now (view p)) }
    {
        let mut others = Vec::new(self.alloc);
        for word in 0..self.layout.len() {
            if !self.layout.is_fixed(word) && !but.contains(&word) {
                others.push(word)?;
            }
        }
        self.same_words(&others)
    }
}
