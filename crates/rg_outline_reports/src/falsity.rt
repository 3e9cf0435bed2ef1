//! What is false of a formula: its first conjunct that is, the premises that hold, and the names within which it stands; and a report of it.

use crate::faults::fits;
use crate::meanings::push_meanings;
use crate::reports::{Cause, Claim, Detail, DetailKind, Key, Moved, Reports};
use crate::show::{push_name, push_shown};
use crate::template::Gap;
use crate::values::{Moment, Values};
use crate::words::Words;
use rg_outline::{Expansion, Line, push_flat};
use rg_outline_syntax::{Conditional, Junction, Span};
use rg_outline_terms::Root;
use std::alloc::AllocError;

/// What is false of a formula.
#[derive(Drop)]
pub(crate) struct Falsity<'s> {
    /// The first conjunct that is false.
    pub(crate) conjunct: usize,
    /// The states in which it is.
    moment: Moment<'s>,
    /// The named formulas within which it stands, the outermost first.
    pub(crate) names: Vec<usize>,
    /// The premises of those implications whose right side it stands in.
    premises: Vec<usize>,
    /// The words of the conjunct and of its premises; all words where these have none, as `false` has. Who reports it may add some.
    pub(crate) words: Words,
}

/// A condition that is false.
#[derive(Clone, Copy)]
pub(crate) struct Finding<'s> {
    pub(crate) cause: Cause,
    /// What makes it another cause than others are, besides `what`.
    pub(crate) at: Span,
    /// Where stands what is false.
    pub(crate) what: Span,
    pub(crate) place: Span,
    /// The line of which it is a condition; none where it is one of all parts.
    pub(crate) line: Option<&'s Line>,
    pub(crate) moved: Moved,
    /// The values that are given.
    pub(crate) moment: Moment<'s>,
}

/// Where to go on below a formula that is false, and whether its first operand is then a premise.
fn below(expansion: &Expansion<'_>, values: &Values, tree: usize) -> Option<(usize, bool)> {
    let forest = &expansion.scope.forest;
    let first = forest.operand(tree, 0);
    let second = forest.operand(tree, 1);
    match forest.root(tree) {
        Root::Join(Junction::And) if !values.holds(forest, first) => Some((first, false)),
        Root::Join(Junction::And) if !values.holds(forest, second) => Some((second, false)),
        Root::Imply(Conditional::Implies)
            if forest.root(second) == Root::Join(Junction::And)
                || (forest.tree(second).name.is_some() && forest.form(tree).is_none()) => {
            Some((second, true))
        }
        _ => None,
    }
}

/// A formula as it is shown, as a detail.
fn detail(
    expansion: &Expansion<'_>,
    kind: DetailKind,
    tree: usize,
    level: u8,
) -> Result<Detail, AllocError> {
    let mut text = Vec::new(expansion.scope.alloc);
    let mut place = Span::NOWHERE;
    if kind == DetailKind::Name {
        push_name(expansion, &mut text, tree)?;
        place = expansion.scope.forest.span(tree);
    } else {
        push_shown(
            expansion,
            &mut text,
            tree,
            level,
            kind == DetailKind::Premise,
        )?;
    }
    Ok(Detail { kind, text, place })
}

impl<'s> Falsity<'s> {
    /// What is false of a formula in two states.
    pub(crate) fn of(
        expansion: &Expansion<'_>,
        formula: usize,
        moment: Moment<'s>,
    ) -> Result<Falsity<'s>, AllocError> {
        let values = Values::of(expansion, formula, moment)?;
        let mut falsity = Falsity {
            conjunct: formula,
            moment,
            names: Vec::new(expansion.scope.alloc),
            premises: Vec::new(expansion.scope.alloc),
            words: Words::new(expansion),
        };
        falsity.descend(expansion, &values)?;
        falsity.add_words(expansion)?;
        Ok(falsity)
    }

    /// Goes down to the first conjunct that is false.
    fn descend(&mut self, expansion: &Expansion<'_>, values: &Values) -> Result<(), AllocError> {
        let forest = &expansion.scope.forest;
        for _ in 0..forest.trees.len() {
            let tree = self.conjunct;
            if forest.tree(tree).name.is_some() {
                self.names.push(tree)?;
            }
            let Some((next, is_premised)) = below(expansion, values, tree) else {
                break;
            };
            if is_premised {
                self.premises.push(forest.operand(tree, 0))?;
            }
            self.conjunct = next;
        }
        Ok(())
    }

    /// The outermost place of the conjunct within a place: of a name within which it stands, else of itself, else that place.
    pub(crate) fn place(&self, expansion: &Expansion<'_>, around: Span) -> Span {
        let forest = &expansion.scope.forest;
        let is_inside = |place: Span| around.start <= place.start && place.end <= around.end;
        for tree in &self.names {
            if let Some(name) = forest.tree(*tree).name
                && is_inside(name)
            {
                return name;
            }
        }
        let span = forest.span(self.conjunct);
        if span.start < span.end && is_inside(span) {
            return span;
        }
        around
    }

    /// The place of the outermost name within which the conjunct stands, or else of the conjunct.
    pub(crate) fn outermost(&self, expansion: &Expansion<'_>) -> Span {
        let forest = &expansion.scope.forest;
        match self.names.first() {
            Some(tree) => forest.tree(*tree).name.unwrap_or(forest.span(*tree)),
            None => forest.span(self.conjunct),
        }
    }

    /// Where the conjunct is written.
    pub(crate) fn span(&self, expansion: &Expansion<'_>) -> Span {
        expansion.scope.forest.span(self.conjunct)
    }

    /// Adds the words of the conjunct and of its premises, or all.
    fn add_words(&mut self, expansion: &Expansion<'_>) -> Result<(), AllocError> {
        self.words.add_tree(expansion, self.conjunct)?;
        for premise in &self.premises {
            self.words.add_tree(expansion, *premise)?;
        }
        if self.words.is_empty() {
            for word in 0..expansion.scope.words.len() {
                self.words.add(word)?;
            }
        }
        Ok(())
    }

    /// The conjunct, the premises that hold, what the names in it stand for, and the names within which it stands, the innermost first.
    pub(crate) fn details(&self, expansion: &Expansion<'_>) -> Result<Vec<Detail>, AllocError> {
        let mut details = Vec::new(expansion.scope.alloc);
        details.push(detail(expansion, DetailKind::Conjunct, self.conjunct, 0)?)?;
        for premise in &self.premises {
            details.push(detail(expansion, DetailKind::Premise, *premise, 3)?)?;
        }
        push_meanings(expansion, &mut details, self.conjunct, &self.premises)?;
        for name in self.names.iter().rev() {
            details.push(detail(expansion, DetailKind::Name, *name, 0)?)?;
        }
        Ok(details)
    }

    /// What is said to be false, as it can be looked up. Of a formula that is too large for a text it has some.
    fn claim(&self, expansion: &Expansion<'_>) -> Result<Claim, AllocError> {
        let alloc = expansion.scope.alloc;
        let mut formula = Vec::new(alloc);
        fits(push_flat(expansion, &mut formula, self.conjunct))?;
        Ok(Claim {
            formula,
            before: Vec::from_slice(alloc, self.moment.before)?,
            after: Vec::from_slice(alloc, self.moment.after)?,
        })
    }

    /// Reports it with this sentence, where its cause isn't reported yet. Whether it wasn't.
    pub(crate) fn report(
        &self,
        reports: &mut Reports<'_>,
        finding: Finding<'_>,
        template: &str,
        gaps: &[Gap<'_>],
    ) -> Result<bool, AllocError> {
        let expansion = reports.expansion;
        let key = Key {
            cause: finding.cause,
            at: finding.at,
            what: finding.what,
        };
        let part = finding.line.map(|line| line.part);
        if !reports.put(key, finding.place, part, template, gaps)? {
            return Ok(false);
        }
        let mut details = self.details(expansion)?;
        let statement = finding.line.map(|line| expansion.statement(line.statement));
        if let Some(place) = statement.and_then(|statement| statement.used) {
            details.push(Detail {
                kind: DetailKind::Name,
                text: Vec::from_slice(expansion.scope.alloc, place.of(expansion.scope.source))?,
                place,
            })?;
        }
        let values = self.words.values(expansion, finding.moment)?;
        reports.explain(details, finding.moved, values);
        reports.claims.push(self.claim(expansion)?)?;
        Ok(true)
    }
}
