//! What statements stand for.

ghost use Rattle.std.specs.Prelude.{◌≡◌, [], ◌∷◌, map, IfOk, OnOk};
ghost use Rattle.rg_tree.specs.View.{expression, formula as formula_view};
ghost use Rattle.rg_tree.specs.ConditionTrees.{assignment as assignment_view};
ghost use Rattle.rg_tree.specs.ProgramView.{statement as statement_view};
ghost use Rattle.rg_outline_meaning.specs.Names.{piece_of, listed as listed_of};
ghost use Rattle.rg_outline_meaning.specs.Members.{mentions as mentions_word, mentions_in as mentions_word_in};
ghost use Rattle.rg_outline_syntax.specs.declared.written.ItemKind.TheVariants.{Use};
ghost use Rattle.rg_outline_meaning.specs.Statements.{MentionsNone, IsSteady, StepStandsFor, Writes, ItemStandsFor, ItemsStandFor, BlockStandsFor, updated as updated_by, assigned as assigned_by, one_step as step_of, IsInSequence};
ghost use Rattle.rg_outline_meaning.specs.View.{outline, words, names as names_at, candidate, selected as selection};

use crate::expressions::DEEPEST;
use crate::folded::is_number;
use crate::meaning::{Meaning, Unknown};
use crate::names::{Bound, Names, Reader, Sense, Steps, piece};
use crate::selected::{Member, Selected};
use rg_outline_syntax::{Assignment, ExpressionKind, ItemKind, List, Span};
use rg_tree::condition::Assign;
use rg_tree::copy::copy_expr;
use rg_tree::statement::{Items, Stmt};
use rg_tree::tree::{Expr, Formula};
use std::alloc::Global;

/// The sequence of statements, of which there is one at least.
#[tactic(auto, using(crate::proofs::StatementRules::sequences))]
fn sequence(alloc: Global, statements: Vec<Stmt>) -> Result<Stmt, Unknown>
    ensures { IfOk result (λ s. IsInSequence (map statement_view statements.items) (statement_view s)) }
{
    let mut statements = statements;
    let Some(last) = statements.pop() else {
        return Err(Unknown::NoRule);
    };
    let Some(mut before) = statements.pop() else {
        return Ok(last);
    };
    let mut items = Items::One(Box::new(alloc, last)?);
    while let Some(earlier) = statements.pop() {
        let first = Box::new(alloc, before)?;
        items = Items::More(first, Box::new(alloc, items)?);
        before = earlier;
    }
    let first = Box::new(alloc, before)?;
    Ok(Stmt::Seq(0, first, Box::new(alloc, items)?))
}

/// The assignment to a member that an index may choose: the value where it does, else what the member was.
fn updated(alloc: Global, index: &Expr, value: &Expr, member: &Member) -> Result<Assign, Unknown>
    ensures { IfOk result (λ a. assignment_view a ≡ updated_by (expression index.now) (expression value.now) (candidate member.now)) }
{
    let test = is_number(copy_expr(alloc, index)?, member.number);
    let copy = copy_expr(alloc, value)?;
    let value = Expr::If(
        Box::new(alloc, test)?,
        Box::new(alloc, copy)?,
        Box::new(alloc, Expr::Word(member.word))?,
    );
    Ok(Assign {
        word: member.word,
        value,
    })
}

/// Whether a word stands in a value.
#[cycle(mentions)]
fn mentions(word: usize, value: &Expr) -> bool
    ensures { result ≡ mentions_word word (expression value.now) }
{
    match value {
        Expr::Number(..) => false,
        Expr::Word(other) | Expr::NextWord(other) => *other == word,
        Expr::Inverse(_, a) | Expr::Shifted(_, _, a, _) => mentions(word, a),
        Expr::Binary(_, _, a, b) => mentions(word, a) || mentions(word, b),
        Expr::If(f, a, b) => mentions_in(word, f) || mentions(word, a) || mentions(word, b),
    }
}

/// Whether a word stands in a formula.
#[cycle(mentions)]
fn mentions_in(word: usize, formula: &Formula) -> bool
    ensures { result ≡ mentions_word_in word (formula_view formula.now) }
{
    match formula {
        Formula::Truth(_) => false,
        Formula::Not(f) => mentions_in(word, f),
        Formula::Connect(_, f, g) => mentions_in(word, f) || mentions_in(word, g),
        Formula::Compare(_, a, b) => mentions(word, a) || mentions(word, b),
    }
}

/// Wants that the index that chooses what is written mentions none of the words from which it chooses.
fn want_steady(target: &Selected) -> Result<(), Unknown>
    ensures { OnOk result (IsSteady (selection target.now)) }
{
    let Selected::Among(index, first, rest) = target else {
        return Ok(());
    };
    if mentions(first.word, index) {
        return Err(Unknown::NoRule);
    }
    want_unmentioned(index, rest)?;
    Ok(())
}

/// Wants that a value mentions none of the words of members.
fn want_unmentioned(value: &Expr, members: &[Member]) -> Result<(), Unknown>
    ensures { OnOk result (MentionsNone (expression value.now) (map candidate members.now)) }
{
    for member in members {
        if mentions(member.word, value) {
            return Err(Unknown::NoRule);
        }
    }
    Ok(())
}

/// Assignments as one step: one of them needs no `atomic`.
#[tactic(auto, using(crate::proofs::StatementRules::several_assignments))]
fn one_step(step: Vec<Assign>) -> Result<Stmt, Unknown>
    ensures { IfOk result (λ s. statement_view s ≡ step_of (map assignment_view step.items)) }
{
    let mut step = step;
    if step.len() != 1 {
        return Ok(Stmt::Await(0, Formula::Truth(true), step));
    }
    match step.pop() {
        Some(assign) => Ok(Stmt::Assign(0, assign)),
        None => Err(Unknown::NoRule),
    }
}

/// The assignments to the members from which an index over words chooses, one to each.
fn members_updated(
    alloc: Global,
    index: &Expr,
    value: &Expr,
    first: &Member,
    rest: &[Member],
) -> Result<Vec<Assign>, Unknown>
    ensures { IfOk result (λ step. map assignment_view step.items ≡ map (updated_by (expression index.now) (expression value.now)) (candidate first.now ∷ map candidate rest.now)) }
{
    let mut step = Vec::new(alloc);
    step.push(updated(alloc, index, value, first)?)?;
    for member in rest {
        step.push(updated(alloc, index, value, member)?)?;
    }
    Ok(step)
}

/// The assignments of a value to what is selected.
fn written_to(alloc: Global, target: Selected, value: Expr) -> Result<Vec<Assign>, Unknown>
    ensures { IfOk result (λ step. map assignment_view step.items ≡ assigned_by (selection target) (expression value)) }
{
    match target {
        Selected::Word(word) => {
            let mut step = Vec::new(alloc);
            step.push(Assign { word, value })?;
            Ok(step)
        }
        Selected::Among(index, first, rest) => members_updated(
            alloc, &index, &value, &first, &rest,
        ),
    }
}

impl Reader<'_> {
    /// The statement that a block stands for. `waiting_word` is the word that a wait without assignments keeps.
    #[cycle(statements)]
    #[tactic(auto, using(crate::proofs::StatementRules::rules))]
    pub(crate) fn block(
        &self,
        names: &Names,
        block: List,
        waiting_word: Option<usize>,
        depth: u32,
        steps: &mut Steps,
    ) -> Result<Stmt, Unknown>
        ensures { IfOk result (λ s. BlockStandsFor (outline self.now) (words self.now) waiting_word (names_at self.now names.now) block (statement_view s)) }
    {
        let statements = self.items(names, block, waiting_word, depth, steps)?;
        sequence(self.alloc, statements)
    }

    /// The statements that the items of a block stand for.
    #[cycle(statements)]
    #[tactic(auto, using(crate::proofs::StatementRules::rules))]
    fn items(
        &self,
        names: &Names,
        block: List,
        waiting_word: Option<usize>,
        depth: u32,
        steps: &mut Steps,
    ) -> Result<Vec<Stmt>, Unknown>
        ensures { IfOk result (λ ss. ItemsStandFor (outline self.now) (words self.now) waiting_word (names_at self.now names.now) (listed_of (outline self.now) block) (map statement_view ss.items)) }
    {
        let Some(depth) = depth.checked_sub(1) else {
            return Err(Unknown::NoRule);
        };
        let mut statements = Vec::new(self.alloc);
        for index in self.listed(block) {
            steps.spend(1)?;
            let Some(item) = self.written.items.get(*index) else {
                return Err(Unknown::NoRule);
            };
            let mut own = self.item(names, item.kind, waiting_word, depth, steps)?;
            statements.append(&mut own)?;
        }
        Ok(statements)
    }

    /// The statements that an item of a block stands for: of an assertion none.
    #[cycle(statements)]
    #[tactic(auto, using(crate::proofs::StatementRules::rules))]
    fn item(
        &self,
        names: &Names,
        kind: ItemKind,
        waiting_word: Option<usize>,
        depth: u32,
        steps: &mut Steps,
    ) -> Result<Vec<Stmt>, Unknown>
        ensures { IfOk result (λ ss. ItemStandsFor (outline self.now) (words self.now) waiting_word (names_at self.now names.now) kind (map statement_view ss.items)) }
    {
        match kind {
            ItemKind::Assertion(_) => Ok(Vec::new(self.alloc)),
            ItemKind::Use(used) => self.use_of(names, used, waiting_word, depth, steps),
            ItemKind::For { .. } => self.rounds(names, kind, waiting_word, depth, steps),
            ItemKind::If { .. } | ItemKind::While { .. } => {
                let statement = self.statement(names, kind, waiting_word, depth, steps)?;
                self.alone(statement)
            }
            ItemKind::Skip | ItemKind::Assign(_) | ItemKind::Atomic(_) | ItemKind::Await(..) => {
                let statement = self.step(names, kind, waiting_word, steps)?;
                self.alone(statement)
            }
        }
    }

    /// One statement.
    fn alone(&self, statement: Stmt) -> Result<Vec<Stmt>, Unknown>
        ensures { IfOk result (λ ss. map statement_view ss.items ≡ statement_view statement ∷ []) }
    {
        let mut statements = Vec::new(self.alloc);
        statements.push(statement)?;
        Ok(statements)
    }

    /// The statements of a `for`.
    #[cycle(statements)]
    #[tactic(auto, using(crate::proofs::StatementRules::rules))]
    fn rounds(
        &self,
        names: &Names,
        kind: ItemKind,
        waiting_word: Option<usize>,
        depth: u32,
        steps: &mut Steps,
    ) -> Result<Vec<Stmt>, Unknown>
        ensures { IfOk result (λ ss. ItemStandsFor (outline self.now) (words self.now) waiting_word (names_at self.now names.now) kind (map statement_view ss.items)) }
    {
        let ItemKind::For { index, range, body } = kind else {
            return Err(Unknown::NoRule);
        };
        self.want_unbound(names, index)?;
        let numbers = self.range(names, range, DEEPEST, steps)?;
        let mut inner = self.copied(names, steps)?;
        let mut statements = Vec::new(self.alloc);
        for number in &numbers {
            inner.bound.push(Bound {
                name: index,
                meaning: Meaning::Whole(*number),
            })?;
            let mut own = self.items(&inner, body, waiting_word, depth, steps)?;
            inner.bound.pop();
            statements.append(&mut own)?;
        }
        Ok(statements)
    }

    /// The statements for which a use of named statements stands: of parameters and indices they know their own.
    #[cycle(statements)]
    #[tactic(auto, using(crate::proofs::StatementRules::rules))]
    fn use_of(
        &self,
        names: &Names,
        used: usize,
        waiting_word: Option<usize>,
        depth: u32,
        steps: &mut Steps,
    ) -> Result<Vec<Stmt>, Unknown>
        ensures { IfOk result (λ ss. ItemStandsFor (outline self.now) (words self.now) waiting_word (names_at self.now names.now) (Use used) (map statement_view ss.items)) }
    {
        let ExpressionKind::Name {
            name,
            listed,
            has_arguments,
            is_primed: false,
        } = self.kind(used)?
        else {
            return Err(Unknown::NoRule);
        };
        let Some(Sense::Procedure(named)) = self.known(names, name) else {
            return Err(Unknown::NoRule);
        };
        self.want_arguments(has_arguments, listed)?;
        let parameters = piece(self.written.names.as_slice(), named.parameters);
        let bound = self.arguments(names, parameters, listed, DEEPEST, steps)?;
        let inner = Names { bound };
        self.items(&inner, named.body, waiting_word, depth, steps)
    }

    /// An `if` or a `while`.
    #[cycle(statements)]
    #[tactic(auto, using(crate::proofs::StatementRules::rules))]
    fn statement(
        &self,
        names: &Names,
        kind: ItemKind,
        waiting_word: Option<usize>,
        depth: u32,
        steps: &mut Steps,
    ) -> Result<Stmt, Unknown>
        ensures { IfOk result (λ s. ItemStandsFor (outline self.now) (words self.now) waiting_word (names_at self.now names.now) kind (statement_view s ∷ [])) }
    {
        match kind {
            ItemKind::If { test, yes, no } => {
                let test = self.formula(names, test, DEEPEST, steps)?;
                let first = self.block(names, yes, waiting_word, depth, steps)?;
                let second = match no {
                    Some(no) => self.block(names, no, waiting_word, depth, steps)?,
                    None => Stmt::Skip(0),
                };
                let first = Box::new(self.alloc, first)?;
                Ok(Stmt::If(0, test, first, Box::new(self.alloc, second)?))
            }
            ItemKind::While { test, body, .. } => {
                let test = self.formula(names, test, DEEPEST, steps)?;
                let body = self.block(names, body, waiting_word, depth, steps)?;
                Ok(Stmt::While(0, test, Box::new(self.alloc, body)?))
            }
            _ => Err(Unknown::NoRule),
        }
    }

    /// A statement that is one step.
    #[tactic(auto, using(crate::proofs::StatementRules::rules))]
    fn step(
        &self,
        names: &Names,
        kind: ItemKind,
        waiting_word: Option<usize>,
        steps: &mut Steps,
    ) -> Result<Stmt, Unknown>
        ensures { IfOk result (λ s. ItemStandsFor (outline self.now) (words self.now) waiting_word (names_at self.now names.now) kind (statement_view s ∷ [])) }
    {
        match kind {
            ItemKind::Skip => Ok(Stmt::Skip(0)),
            ItemKind::Assign(start) => {
                let Some(end) = start.checked_add(1) else {
                    return Err(Unknown::NoRule);
                };
                one_step(self.assignments(names, List { start, end }, steps)?)
            }
            ItemKind::Atomic(assignments) => {
                let step = self.assignments(names, assignments, steps)?;
                Ok(Stmt::Await(0, Formula::Truth(true), step))
            }
            ItemKind::Await(guard, Some(assignments)) => {
                let guard = self.formula(names, guard, DEEPEST, steps)?;
                let step = self.assignments(names, assignments, steps)?;
                Ok(Stmt::Await(0, guard, step))
            }
            ItemKind::Await(guard, None) => {
                let guard = self.formula(names, guard, DEEPEST, steps)?;
                let Some(word) = waiting_word else {
                    return Err(Unknown::NoRule);
                };
                let mut step = Vec::new(self.alloc);
                step.push(Assign {
                    word,
                    value: Expr::Word(word),
                })?;
                Ok(Stmt::Await(0, guard, step))
            }
            _ => Err(Unknown::NoRule),
        }
    }

    /// The assignments of a step.
    #[tactic(auto, using(crate::proofs::StatementRules::rules))]
    fn assignments(
        &self,
        names: &Names,
        list: List,
        steps: &mut Steps,
    ) -> Result<Vec<Assign>, Unknown>
        ensures { IfOk result (λ step. StepStandsFor (outline self.now) (words self.now) (names_at self.now names.now) (piece_of (outline self.now).written.assignments.items list) (map assignment_view step.items)) }
    {
        let mut step = Vec::new(self.alloc);
        for assignment in piece(self.written.assignments.as_slice(), list) {
            let mut own = self.assigned(names, assignment, steps)?;
            step.append(&mut own)?;
        }
        Ok(step)
    }

    /// The assignments for which one stands: to each member from which an index over words chooses, one.
    #[tactic(auto, using(crate::proofs::StatementRules::rules))]
    fn assigned(
        &self,
        names: &Names,
        assignment: &Assignment,
        steps: &mut Steps,
    ) -> Result<Vec<Assign>, Unknown>
        ensures { IfOk result (λ step. StepStandsFor (outline self.now) (words self.now) (names_at self.now names.now) (assignment.now ∷ []) (map assignment_view step.items)) }
    {
        let ExpressionKind::Name {
            name,
            listed,
            has_arguments: false,
            is_primed: false,
        } = self.kind(assignment.target)?
        else {
            return Err(Unknown::NoRule);
        };
        let target = self.target(names, name, listed, steps)?;
        let value = self.meaning(names, assignment.value, DEEPEST, steps)?;
        written_to(self.alloc, target, value.into_value()?)
    }

    /// What an assignment writes: a member of a family, or the word that a parameter stands for.
    #[tactic(auto, using(crate::proofs::StatementRules::rules))]
    fn target(
        &self,
        names: &Names,
        name: Span,
        listed: List,
        steps: &mut Steps,
    ) -> Result<Selected, Unknown>
        ensures { IfOk result (λ s. Writes (outline self.now) (words self.now) (names_at self.now names.now) name listed (selection s)) }
    {
        if let Some(meaning) = self.bound(names, name) {
            return match meaning {
                Meaning::Value(Expr::Word(word)) if self.listed(listed).is_empty() => {
                    Ok(Selected::Word(*word))
                }
                _ => Err(Unknown::NoRule),
            };
        }
        let selected = self.selected(names, name, listed, DEEPEST, steps)?;
        want_steady(&selected)?;
        Ok(selected)
    }
}
