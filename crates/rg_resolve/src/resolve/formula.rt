//! The typed tree of a formula, or its first fault.

ghost use Rattle.std.specs.Prelude.{◌≡◌, ◌≤◌, IfOk, IfErr};
ghost use Rattle.rg_text.specs.Text.{text_of, leaf_of};
ghost use Rattle.rg_resolve.specs.Typing.{connective_of, conditional_of};
ghost use Rattle.rg_tree.specs.View.{expression, formula};
ghost use Rattle.rg_syntax.specs.Written.{number as number_leaf, term, claim, joined};
ghost use Rattle.rg_resolve.specs.Faults.{number_of, number_faults, term_faults, claim_faults, IsRefusal};
ghost use Rattle.rg_resolve.specs.Inner.FormulaTrees.{width_of, IsTermTree, IsClaimTree};

use rg_leaves::group::{Group, group_of};
use rg_leaves::leaf::{number_below, text, unprimed};
use rg_leaves::scope::Scope;
use rg_syntax::written::{ExpressionText, FormulaText};
use rg_text::kind::{Conditional, Junction};
use rg_text::token::Token;
use rg_tree::tree::{Expr, Formula};
use rg_words::limits::MOST_WIDTH;
use rg_words::operators::Connective;
use rg_words::{Refusal, RefusalNumber};

fn connective(junction: Junction) -> Connective
    ensures { result ≡ connective_of junction }
{
    match junction {
        Junction::And => Connective::And,
        Junction::Or => Connective::Or,
    }
}

fn conditional(conditional: Conditional) -> Connective
    ensures { result ≡ conditional_of conditional }
{
    match conditional {
        Conditional::Implies => Connective::Implies,
        Conditional::Iff => Connective::Iff,
    }
}

/// The tree of a number of this group.
#[tactic(auto, using(rg_leaves::proofs::Refusals::refusals, crate::proofs::Parts::parts))]
fn number_tree(scope: &Scope, group: Group, token: &Token) -> Result<Expr, Refusal>
    requires { width_of group ≤ MOST_WIDTH }
    ensures tree { IfOk result (λ e.
        IsTermTree scope.now.layout.now scope.now.one_state group (number_leaf (leaf_of scope.now.source.now token.now))
        (expression e)) }
    ensures fault { IfErr result (λ e. IsRefusal scope.now.file (number_faults group token.now.line (number_of (text_of scope.now.source.now token.now))) e) }
{
    match group {
        Group::Width(width) => match number_below(text(scope.source, token), width) {
            Some(value) => Ok(Expr::Number(width, value)),
            None => Err(scope.fault(RefusalNumber::NumberTooLarge, token)),
        },
        Group::Unasked => Ok(Expr::Number(0, 0)),
        Group::Wordless => Err(scope.fault(RefusalNumber::WidthUnknown, token)),
    }
}

/// The tree of an expression of this group.
#[cycle(resolving)]
#[tactic(auto, using(rg_leaves::proofs::Refusals::refusals, crate::proofs::Parts::parts))]
pub fn expression_tree(scope: &Scope, group: Group, e: &ExpressionText) -> Result<Expr, Refusal>
    requires { width_of group ≤ MOST_WIDTH }
    ensures tree { IfOk result (λ tree. IsTermTree scope.now.layout.now scope.now.one_state group (term scope.now.source.now e.now) (expression tree)) }
    ensures fault { IfErr result (λ refusal. IsRefusal scope.now.file
        (term_faults scope.now.layout.now scope.now.one_state group (term scope.now.source.now e.now)) refusal) }
{
    match e {
        ExpressionText::Number(token) => number_tree(scope, group, token),
        ExpressionText::Word(token) => {
            let word = scope.word(group, token, text(scope.source, token), false)?;
            Ok(Expr::Word(word))
        }
        ExpressionText::NextWord(token) => {
            let name = unprimed(text(scope.source, token));
            let word = scope.word(group, token, name, scope.one_state)?;
            Ok(Expr::NextWord(word))
        }
        ExpressionText::Inverse(a) => {
            let a = expression_tree(scope, group, a)?;
            Ok(Expr::Inverse(group.width(), Box::new(scope.alloc, a)?))
        }
        ExpressionText::Binary(operator, a, b) => {
            let a = expression_tree(scope, group, a)?;
            let b = expression_tree(scope, group.after_first(), b)?;
            let a = Box::new(scope.alloc, a)?;
            Ok(Expr::Binary(*operator, group.width(), a, Box::new(scope.alloc, b)?))
        }
        ExpressionText::Shifted(shift, a, count) => {
            let a = expression_tree(scope, group, a)?;
            let count = scope.shift_count(count)?;
            Ok(Expr::Shifted(*shift, group.width(), Box::new(scope.alloc, a)?, count))
        }
        ExpressionText::If(f, a, b) => {
            let f = formula_tree(scope, f)?;
            let a = expression_tree(scope, group, a)?;
            let b = expression_tree(scope, group.after_first(), b)?;
            let f = Box::new(scope.alloc, f)?;
            let a = Box::new(scope.alloc, a)?;
            Ok(Expr::If(f, a, Box::new(scope.alloc, b)?))
        }
    }
}

/// The tree of a formula.
#[cycle(resolving)]
#[tactic(auto, using(rg_leaves::proofs::Refusals::refusals, crate::proofs::Parts::parts))]
pub fn formula_tree(scope: &Scope, f: &FormulaText) -> Result<Formula, Refusal>
    ensures tree { IfOk result (λ tree. IsClaimTree scope.now.layout.now scope.now.one_state (claim scope.now.source.now f.now) (formula tree)) }
    ensures fault { IfErr result (λ refusal. IsRefusal scope.now.file
        (claim_faults scope.now.layout.now scope.now.one_state (claim scope.now.source.now f.now)) refusal) }
{
    match f {
        FormulaText::Truth(b) => Ok(Formula::Truth(*b)),
        FormulaText::Not(f) => {
            let f = formula_tree(scope, f)?;
            Ok(Formula::Not(Box::new(scope.alloc, f)?))
        }
        FormulaText::Joined(junction, f, g) => chain_tree(scope, *junction, f, g),
        FormulaText::Implied(kind, f, g) => {
            let f = formula_tree(scope, f)?;
            let g = formula_tree(scope, g)?;
            let f = Box::new(scope.alloc, f)?;
            Ok(Formula::Connect(conditional(*kind), f, Box::new(scope.alloc, g)?))
        }
        FormulaText::Compared(comparison, a, b) => {
            let group = group_of(scope.layout, scope.source, a, b);
            let a = expression_tree(scope, group, a)?;
            let b = expression_tree(scope, group.after_first(), b)?;
            Ok(Formula::Compare(*comparison, a, b))
        }
    }
}

/// A connective of a chain, and the operand after it.
#[derive(Clone, Copy)]
struct Link<'a> {
    junction: Junction,
    operand: &'a FormulaText,
}

/// The tree of a chain of operands, which leans to the left.
#[cycle(resolving)]
#[tactic(auto, using(rg_leaves::proofs::Refusals::refusals, crate::proofs::Parts::parts))]
fn chain_tree(
    scope: &Scope,
    junction: Junction,
    f: &FormulaText,
    g: &FormulaText,
) -> Result<Formula, Refusal>
    ensures tree { IfOk result (λ tree. IsClaimTree scope.now.layout.now scope.now.one_state
        (joined junction (claim scope.now.source.now f.now) (claim scope.now.source.now g.now)) (formula tree)) }
    ensures fault { IfErr result (λ refusal. IsRefusal scope.now.file
        (claim_faults scope.now.layout.now scope.now.one_state (joined junction (claim scope.now.source.now f.now) (claim scope.now.source.now g.now)))
        refusal) }
{
    let mut links = Vec::new(scope.alloc);
    links.push(Link {
        junction,
        operand: g,
    })?;
    let mut first = f;
    while let FormulaText::Joined(junction, left, right) = first {
        links.push(Link {
            junction: *junction,
            operand: right,
        })?;
        first = left;
    }
    let mut tree = formula_tree(scope, first)?;
    while let Some(link) = links.pop() {
        let left = Box::new(scope.alloc, tree)?;
        let right = Box::new(scope.alloc, formula_tree(scope, link.operand)?)?;
        tree = Formula::Connect(connective(link.junction), left, right);
    }
    Ok(tree)
}
