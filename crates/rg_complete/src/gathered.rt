//! The formulas that may stand in the assertions of a part: what the outline says elsewhere, and what its words and numbers give.

use crate::atoms::{Atom, Atoms};
use crate::brackets::{Bracket, body_of, brackets_of};
use crate::equations::{Step, add_equations, add_preconditions, has_word};
use crate::numbers::{bounds_of, size_of};
use crate::slots::Scope;
use crate::substituted::Environments;
use crate::trial::rounds_of;
use crate::words::{Family, PartWord, family_of, width_in, words_of};
use rg_outline_syntax::{
    Binder, Comparison, Conditional, ExpressionKind, Head, HeadKind, ItemKind, Junction, Kind, Let,
    List, PartWritten, Span, Texts, Tokens, Written, push_number,
};
use std::alloc::{AllocError, Global};

/// The most formulas that are looked at.
const MOST_JOBS: usize = 4_000;

/// The most numbers of a part's outline that are compared with words, and the most numbers of a range that are tried one by one.
const MOST_NUMBERS: usize = 10;

const MOST_OF_RANGE: i64 = 4;

/// The most words at which a name is tried.
const MOST_ARGUMENTS: usize = 8;

/// The comparisons.
pub(crate) const COMPARISONS: [&[u8]; 6] = [b" = ", b" != ", b" <= ", b" >= ", b" < ", b" > "];

/// A formula that is looked at.
#[derive(Clone, Copy)]
struct Job {
    expression: usize,
    environment: Option<usize>,
    /// Whether it is a test or a premise.
    is_premise: bool,
}

/// The index of a `for`, and the greatest number that it stands for, if that is known.
#[derive(Clone, Copy)]
pub(crate) struct Round {
    pub(crate) index: Span,
    pub(crate) greatest: i64,
}

/// The formulas, as they are found.
#[derive(Drop)]
pub(crate) struct Gathering<'a> {
    pub(crate) alloc: Global,
    pub(crate) written: &'a Written,
    pub(crate) environments: Environments<'a>,
    pub(crate) family: Option<Family>,
    /// The indices of the `for` in which the assertions stand.
    pub(crate) rounds: Vec<Round>,
    pub(crate) words: Vec<PartWord>,
    pub(crate) numbers: Vec<u64>,
    jobs: Vec<Job>,
    /// How many of them were looked at.
    looked: usize,
    pub(crate) atoms: Atoms,
}

/// Whether a number fits a width.
pub(crate) fn fits(number: i64, width: i64) -> bool {
    width >= 62 || number < (1i64 << (width.max(0).min(61) as u32))
}

/// Whether a formula has to stand in parentheses beside others.
fn is_loose(kind: ExpressionKind) -> bool {
    matches!(
        kind,
        ExpressionKind::Join(..)
            | ExpressionKind::Imply(..)
            | ExpressionKind::Bound { .. }
            | ExpressionKind::Choice { .. }
    )
}

/// Whether a place lies within another.
fn is_within(inner: Span, whole: Span) -> bool {
    whole.start <= inner.start && inner.end <= whole.end
}

impl<'a> Gathering<'a> {
    /// Puts a formula to those that are looked at.
    fn open(&mut self, expression: usize, job: Job) -> Result<(), AllocError> {
        if self.jobs.len() < MOST_JOBS {
            self.jobs.push(Job { expression, ..job })?;
        }
        Ok(())
    }

    /// Adds the whole formula of a job.
    fn add_whole(&mut self, job: Job, span: Span, kind: ExpressionKind) -> Result<(), AllocError> {
        if self.environments.speaks_of_steps(span) {
            return Ok(());
        }
        let text = self.environments.text_of(span, job.environment)?;
        let atom = Atom {
            is_loose: is_loose(kind),
            is_premise: job.is_premise,
            is_out: false,
        };
        self.atoms.add(&text, atom)?;
        if job.is_premise {
            return self.add_denied(&text);
        }
        Ok(())
    }

    /// Adds that a formula is false.
    fn add_denied(&mut self, text: &[u8]) -> Result<(), AllocError> {
        self.atoms.add_joined(b"not (", text, b")", true)
    }

    /// Adds a comparison, and what it is with other signs.
    fn add_compared(
        &mut self,
        job: Job,
        sides: (usize, usize),
        comparison: Comparison,
    ) -> Result<(), AllocError> {
        let first = self
            .written
            .expression(sides.0)
            .map_or(Span::NOWHERE, |side| side.span);
        let second = self
            .written
            .expression(sides.1)
            .map_or(Span::NOWHERE, |side| side.span);
        let first = self.environments.text_of(first, job.environment)?;
        let second = self.environments.text_of(second, job.environment)?;
        if first == second {
            return Ok(());
        }
        let own = match comparison {
            Comparison::Equal => 0..3,
            Comparison::NotEqual => 0..2,
            _ if job.is_premise => 0..6,
            Comparison::LessOrEqual => 2..3,
            Comparison::GreaterOrEqual => 3..4,
            Comparison::Less => 4..5,
            Comparison::Greater => 5..6,
        };
        for sign in COMPARISONS.get(own).unwrap_or(&[]) {
            self.atoms
                .add_joined(&first, sign, &second, job.is_premise)?;
        }
        Ok(())
    }

    /// The `let` of a name.
    fn named(&self, name: Span) -> Option<Let> {
        let word = name.of(self.environments.source);
        for head in &self.written.heads {
            if let HeadKind::Let(named) = head.kind
                && named.name.of(self.environments.source) == word
            {
                return Some(named);
            }
        }
        None
    }

    /// Opens the formula for which a name stands, with its arguments.
    fn open_named(&mut self, job: Job, name: Span, arguments: List) -> Result<(), AllocError> {
        let Some(named) = self.named(name) else {
            return Ok(());
        };
        let mut environment = None;
        let parameters = self.written.named(named.parameters);
        for (parameter, argument) in parameters.iter().zip(self.written.listed(arguments)) {
            if let Some(argument) = self.written.expression(*argument) {
                let text = self.environments.text_of(argument.span, job.environment)?;
                environment = self.environments.with(environment, *parameter, &text)?;
            }
        }
        self.open(named.body, Job { environment, ..job })
    }

    /// Opens the body of a quantifier where its index stands for this text.
    fn open_at(
        &mut self,
        job: Job,
        index: Span,
        body: usize,
        text: &[u8],
    ) -> Result<(), AllocError> {
        let environment = self.environments.with(job.environment, index, text)?;
        self.open(body, Job { environment, ..job })
    }

    /// Opens the instances of a quantifier: at the indices of `for`, and at the part's own index and the other one, or at each number.
    fn open_instances(
        &mut self,
        job: Job,
        index: Span,
        range: usize,
        body: usize,
    ) -> Result<(), AllocError> {
        for place in 0..self.rounds.len() {
            let round = self
                .rounds
                .get(place)
                .map_or(Span::NOWHERE, |round| round.index);
            let text = Vec::from_slice(self.alloc, round.of(self.environments.source))?;
            self.open_at(job, index, body, &text)?;
        }
        if let Some(family) = &self.family {
            let own = Vec::from_slice(self.alloc, family.index.of(self.environments.source))?;
            let other = match &family.other {
                Some(other) => Vec::from_slice(self.alloc, other)?,
                None => Vec::new(self.alloc),
            };
            self.open_at(job, index, body, &own)?;
            if !other.is_empty() {
                self.open_at(job, index, body, &other)?;
            }
            return Ok(());
        }
        let bounds = bounds_of(self.written, self.environments.source, range);
        let Some(bounds) = bounds.filter(|bounds| size_of(*bounds) <= MOST_OF_RANGE) else {
            return Ok(());
        };
        for number in bounds.0..bounds.1.saturating_add(1) {
            let mut text = Vec::new(self.alloc);
            push_number(&mut text, i128::from(number))?;
            self.open_at(job, index, body, &text)?;
        }
        Ok(())
    }

    /// Opens what a chain or an implication is made of.
    fn open_sides(&mut self, job: Job, kind: ExpressionKind) -> Result<(), AllocError> {
        let (first, second, is_premise) = match kind {
            ExpressionKind::Join(_, first, second) => {
                self.open(first, job)?;
                return self.open(second, job);
            }
            ExpressionKind::Imply(conditional, first, second) => {
                (first, second, conditional == Conditional::Iff)
            }
            _ => return Ok(()),
        };
        let given = Job {
            is_premise: true,
            ..job
        };
        self.open(first, given)?;
        self.open(second, Job { is_premise, ..job })
    }

    /// Looks at a formula.
    fn look(&mut self, job: Job) -> Result<(), AllocError> {
        let Some(expression) = self.written.expression(job.expression) else {
            return Ok(());
        };
        let (kind, span) = (expression.kind, expression.span);
        match kind {
            ExpressionKind::Group(inner) | ExpressionKind::Keeps(inner) => self.open(inner, job),
            ExpressionKind::Join(Junction::And, ..) => self.open_sides(job, kind),
            ExpressionKind::Join(Junction::Or, ..) | ExpressionKind::Imply(..) => {
                self.add_whole(job, span, kind)?;
                self.open_sides(job, kind)
            }
            ExpressionKind::Not(inner) => {
                self.add_whole(job, span, kind)?;
                self.open(inner, job)
            }
            ExpressionKind::Bound {
                binder: Binder::All,
                index,
                range,
                body,
            } => {
                self.add_whole(job, span, kind)?;
                self.open_instances(job, index, range, body)
            }
            ExpressionKind::Bound { .. } => self.add_whole(job, span, kind),
            ExpressionKind::Compare(comparison, first, second) => {
                self.add_compared(job, (first, second), comparison)
            }
            ExpressionKind::Name { name, listed, .. } => {
                self.add_whole(job, span, kind)?;
                self.open_named(job, name, listed)
            }
            _ => Ok(()),
        }
    }

    /// Opens the clauses of heads.
    fn open_clauses(&mut self, heads: &[Head]) -> Result<(), AllocError> {
        for head in heads {
            if let HeadKind::Clause(_, formula) = head.kind {
                self.open_written(formula, false)?;
            }
        }
        Ok(())
    }

    /// Opens the tests, the guards, the invariants and the assertions of a body, and the tests of values in it.
    fn open_body(&mut self, body: Bracket) -> Result<(), AllocError> {
        let whole = body.opener.to(body.end);
        let written = self.written;
        for item in &written.items {
            let test = match item.kind {
                ItemKind::If { test, .. }
                | ItemKind::While { test, .. }
                | ItemKind::Await(test, _) => Some(test),
                _ => None,
            };
            if let Some(test) = test.filter(|_| is_within(item.span, whole)) {
                self.open_written(test, true)?;
            }
            let said = match item.kind {
                ItemKind::Assertion(formula) => Some(formula),
                ItemKind::While { invariant, .. } => invariant,
                _ => None,
            };
            if let Some(said) = said.filter(|_| is_within(item.span, whole)) {
                self.open_written(said, false)?;
            }
        }
        for expression in &written.expressions {
            if let ExpressionKind::Choice { test, .. } = expression.kind
                && is_within(expression.span, whole)
            {
                self.open_written(test, true)?;
            }
        }
        Ok(())
    }

    /// Opens a formula as it is written.
    fn open_written(&mut self, expression: usize, is_premise: bool) -> Result<(), AllocError> {
        let job = Job {
            expression,
            environment: None,
            is_premise,
        };
        self.open(expression, job)
    }

    /// Adds the names of formulas, at the part's own index and the other one where they take one; and opens what they stand for.
    fn add_names(&mut self, heads: &[Head]) -> Result<(), AllocError> {
        let source = self.environments.source;
        for head in heads {
            let HeadKind::Let(named) = head.kind else {
                continue;
            };
            let count = self.written.named(named.parameters).len();
            if count == 0 {
                let name = named.name.of(source);
                self.add_name(name, named.body, None)?;
            } else if count == 1 {
                self.add_name_everywhere(named)?;
            }
        }
        Ok(())
    }

    /// Adds a name of a formula at the indices of `for` and the numbers before them, and at the part's own index and the other one; where the part has no
    /// index, at its own words.
    fn add_name_everywhere(&mut self, named: Let) -> Result<(), AllocError> {
        let mut arguments = Texts::new(self.alloc);
        for round in &self.rounds {
            let index = round.index.of(self.environments.source);
            arguments.push(index)?;
            arguments.unended().extend_from_slice(index)?;
            arguments.unended().extend_from_slice(b" - 1")?;
            arguments.end()?;
        }
        if let Some(family) = &self.family {
            arguments.push(family.index.of(self.environments.source))?;
            if let Some(other) = &family.other {
                arguments.push(other)?;
            }
        } else {
            for word in self
                .words
                .iter()
                .filter(|word| word.is_own)
                .take(MOST_ARGUMENTS)
            {
                arguments.push(&word.text)?;
            }
        }
        for index in 0..arguments.len() {
            self.add_name_at(named, arguments.at(index))?;
        }
        Ok(())
    }

    /// Whether an expression is a formula, as far as its root says.
    fn is_formula(&self, expression: usize) -> bool {
        let mut now = expression;
        for _ in 0..self.written.expressions.len() {
            match self
                .written
                .expression(now)
                .map(|expression| expression.kind)
            {
                Some(ExpressionKind::Group(inner)) => now = inner,
                Some(ExpressionKind::Name { name, .. }) => match self.named(name) {
                    Some(named) if named.body < now => now = named.body,
                    _ => return false,
                },
                Some(ExpressionKind::Bound { binder, .. }) => return binder != Binder::Sum,
                Some(
                    ExpressionKind::Compare(..)
                    | ExpressionKind::Not(_)
                    | ExpressionKind::Join(..)
                    | ExpressionKind::Imply(..),
                ) => return true,
                _ => return false,
            }
        }
        false
    }

    /// Adds a name of a formula, and opens what it stands for.
    fn add_name(
        &mut self,
        name: &[u8],
        body: usize,
        environment: Option<usize>,
    ) -> Result<(), AllocError> {
        if self.is_formula(body) {
            let atom = Atom::tight(true);
            self.atoms.add(name, atom)?;
            return self.open(
                body,
                Job {
                    expression: body,
                    environment,
                    is_premise: false,
                },
            );
        }
        self.add_equal_words(name, body)
    }

    /// Adds that a word of the part's own has the value of a name.
    fn add_equal_words(&mut self, name: &[u8], body: usize) -> Result<(), AllocError> {
        let width = width_in(self.environments.source, self.written, body);
        for word in self
            .words
            .iter()
            .filter(|word| word.is_own && word.width > 1)
        {
            if width.is_none_or(|width| width == word.width) && !has_word(name, &word.text) {
                self.atoms.add_joined(&word.text, b" = ", name, false)?;
            }
        }
        Ok(())
    }

    /// Adds a name of a formula with an argument.
    fn add_name_at(&mut self, named: Let, argument: &[u8]) -> Result<(), AllocError> {
        let mut name = Vec::new(self.alloc);
        name.extend_from_slice(named.name.of(self.environments.source))?;
        name.push(b'(')?;
        name.extend_from_slice(argument)?;
        name.push(b')')?;
        let mut environment = None;
        if let Some(parameter) = self.written.named(named.parameters).first() {
            environment = self.environments.with(None, *parameter, argument)?;
        }
        self.add_name(&name, named.body, environment)
    }

    /// The value of an assignment; of a choice in parentheses, the first one.
    fn main_value(&self, value: usize) -> usize {
        let inner = match self.written.expression(value).map(|value| value.kind) {
            Some(ExpressionKind::Group(inner)) => inner,
            _ => value,
        };
        match self.written.expression(inner).map(|value| value.kind) {
            Some(ExpressionKind::Choice { yes, .. }) => yes,
            _ => value,
        }
    }

    /// Adds the equations of the assignments of a body.
    fn add_steps(&mut self, body: Bracket) -> Result<(), AllocError> {
        let whole = body.opener.to(body.end);
        let mut steps = Vec::new(self.alloc);
        for assignment in &self.written.assignments {
            let target = self.written.expression(assignment.target);
            let value = self.written.expression(self.main_value(assignment.value));
            if let (true, Some(target), Some(value)) = (
                is_within(assignment.span, whole),
                target,
                value,
            ) {
                steps.push(Step {
                    word: self.environments.text_of(target.span, None)?,
                    value: self.environments.text_of(value.span, None)?,
                })?;
            }
        }
        add_equations(self.alloc, &mut self.atoms, &steps)?;
        add_preconditions(self.alloc, &mut self.atoms, &steps)?;
        for step in &steps {
            self.add_raised(step)?;
        }
        Ok(())
    }

    /// Adds, where a step adds to a word, that it was so much more than another, or the other than it.
    fn add_raised(&mut self, step: &Step) -> Result<(), AllocError> {
        let Some(raise) = step.value.strip_prefix(step.word.as_slice()) else {
            return Ok(());
        };
        let width = self
            .words
            .iter()
            .find(|word| word.text == step.word)
            .map_or(0, |word| word.width);
        for other in self
            .words
            .iter()
            .filter(|word| word.width == width && word.text != step.word)
        {
            let mut left = Vec::from_slice(self.alloc, &step.word)?;
            left.extend_from_slice(raise)?;
            self.atoms.add_joined(&left, b" = ", &other.text, false)?;
            let mut right = Vec::from_slice(self.alloc, &other.text)?;
            right.extend_from_slice(raise)?;
            self.atoms.add_joined(&right, b" = ", &step.word, false)?;
        }
        Ok(())
    }

    /// Looks at all that was put there.
    fn look_at_all(&mut self) -> Result<(), AllocError> {
        for place in self.looked..MOST_JOBS {
            let Some(job) = self.jobs.get(place).copied() else {
                break;
            };
            self.looked = place.saturating_add(1);
            self.look(job)?;
        }
        Ok(())
    }

    /// Gathers the formulas of a part.
    fn gather(&mut self, part: PartWritten, body: Bracket) -> Result<(), AllocError> {
        let written = self.written;
        self.open_clauses(written.heads(written.following_words))?;
        self.open_clauses(written.heads(part.heads))?;
        self.open_body(body)?;
        self.look_at_all()?;
        self.add_names(written.heads(written.following_words))?;
        self.add_names(written.heads(part.heads))?;
        self.look_at_all()?;
        self.add_numbered()?;
        self.add_indexed()?;
        self.add_others()?;
        self.add_counted()?;
        self.add_steps(body)?;
        self.add_pairs()
    }
}

/// The numbers of an outline, each once, from the least; the first of them where they are many.
fn numbers_of(alloc: Global, tokens: &Tokens) -> Result<Vec<u64>, AllocError> {
    let mut numbers = Vec::new(alloc);
    numbers.push(0)?;
    numbers.push(1)?;
    for index in 0..tokens.len() {
        if let Kind::Number(number) = tokens.at(index).kind
            && !numbers.contains(&number)
        {
            numbers.push(number)?;
        }
    }
    numbers.sort_unstable();
    numbers.truncate(MOST_NUMBERS);
    Ok(numbers)
}

/// Takes out what names the index of a `for` in which it can't stand: of a `for` elsewhere, or of the same where a quantifier has it, too.
fn take_out_strange(
    alloc: Global,
    source: &[u8],
    written: &Written,
    rounds: &[Round],
    atoms: &mut Atoms,
) -> Result<(), AllocError> {
    for item in &written.items {
        let ItemKind::For { index, .. } = item.kind else {
            continue;
        };
        let mut name = Vec::from_slice(alloc, index.of(source))?;
        if rounds
            .iter()
            .any(|round| round.index.of(source) == index.of(source))
        {
            name.extend_from_slice(b" in")?;
        }
        for (place, atom) in atoms.atoms.iter_mut().enumerate() {
            atom.is_out |= has_word(atoms.texts.at(place), &name);
        }
    }
    Ok(())
}

/// The indices of the `for` around a scope.
fn rounds_in(
    alloc: Global,
    source: &[u8],
    written: &Written,
    items: &[usize],
) -> Result<Vec<Round>, AllocError> {
    let mut rounds = Vec::new(alloc);
    for item in items {
        let kind = written.items.get(*item).map(|item| item.kind);
        if let Some(ItemKind::For { index, range, .. }) = kind {
            let greatest = bounds_of(written, source, range).map_or(0, |bounds| bounds.1);
            rounds.push(Round { index, greatest })?;
        }
    }
    Ok(rounds)
}

/// The formulas that may stand in the assertions of a scope.
///
/// # Errors
///
/// Only where memory is refused.
pub fn atoms_of(
    alloc: Global,
    source: &[u8],
    tokens: &Tokens,
    written: &Written,
    scopes: &[Scope],
    scope: Scope,
) -> Result<Atoms, AllocError> {
    let Some(part) = written.parts.get(scope.part).copied() else {
        return Ok(Atoms::new(alloc));
    };
    let brackets = brackets_of(alloc, tokens)?;
    let family = family_of(alloc, source, written, part)?;
    let words = words_of(alloc, source, written, part, family.as_ref())?;
    let rounds = rounds_in(alloc, source, written, &rounds_of(alloc, scopes, scope)?)?;
    let mut gathering = Gathering {
        alloc,
        written,
        environments: Environments::new(alloc, source, tokens),
        family,
        rounds,
        words,
        numbers: numbers_of(alloc, tokens)?,
        jobs: Vec::new(alloc),
        looked: 0,
        atoms: Atoms::new(alloc),
    };
    if let Some(body) = body_of(&brackets, part.span) {
        gathering.gather(part, body)?;
    }
    let Gathering {
        rounds,
        mut atoms,
        ..
    } = gathering;
    take_out_strange(alloc, source, written, &rounds, &mut atoms)?;
    Ok(atoms)
}
