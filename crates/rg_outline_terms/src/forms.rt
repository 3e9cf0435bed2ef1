//! How trees are written whose roots don't show it, so that reports can.

use crate::forest::{Forest, NewTree, Root, Tree};
use crate::names::Meaning;
use crate::scope::Scope;
use rg_outline_syntax::{Binder, Expression, ExpressionKind, Junction, List, Operator, Span};

/// What is written.
#[derive(Clone, Copy, PartialEq, Eq)]
pub enum FormKind {
    /// `keeps` before a formula.
    Keeps,
    /// `all` or `some`, with its range and its body.
    Quantified,
    /// A sum, with the parentheses that belong to it.
    Sum,
    /// An operation on numbers that have names or stand there.
    Constant,
}

/// How a tree is written, and where.
#[derive(Clone, Copy)]
pub struct Form {
    pub kind: FormKind,
    pub place: Span,
    /// What stands for the parameters and the indices that the form uses and doesn't bind: a list of `filled`.
    pub(crate) filled: List,
}

/// A parameter, an index, or an operation on some, where it is written, and the tree that it stands for there.
#[derive(Clone, Copy)]
pub struct Filled {
    pub place: Span,
    pub tree: usize,
}

/// Whether two places are the same.
fn is_same_place(first: Span, second: Span) -> bool {
    first.start == second.start && first.end == second.end
}

impl Forest {
    /// How a tree is written, where its root doesn't show it.
    pub fn form(&self, tree: usize) -> Option<Form> {
        match self.tree(tree).form {
            Some(form) => self.forms.get(form).copied(),
            None => None,
        }
    }

    /// What stands for parameters and indices in a form, the last place first.
    pub fn filled(&self, form: Form) -> &[Filled] {
        let List { start, end } = form.filled;
        self.filled.get(start..end).unwrap_or(&[])
    }

    /// The tree with the note how it is written.
    fn formed(&mut self, tree: usize, form: Form) -> NewTree {
        let tree = self.tree(tree);
        let index = self.forms.len();
        self.forms.push(form)?;
        self.push(Tree {
            form: Some(index),
            ..tree
        })
    }
}

impl Scope<'_> {
    /// What an expression stands for, with the note how it is written where the root doesn't show it.
    pub(crate) fn formed(&mut self, index: usize, tree: usize) -> usize {
        let mut formed = tree;
        if let Some(form) = self.form_of(index, tree) {
            let made = self.forest.formed(tree, form);
            formed = self.made(made);
        }
        self.note_latest(index, formed);
        formed
    }

    /// How an expression is written that stands for a tree. One of a single instance is written as that.
    fn form_of(&mut self, index: usize, tree: usize) -> Option<Form> {
        if self.is_stopped() {
            return None;
        }
        let Expression { kind, span } = self.expression(index);
        let kind = match (kind, self.forest.root(tree)) {
            (ExpressionKind::Keeps(_), Root::Imply(_)) => FormKind::Keeps,
            (ExpressionKind::Bound { binder, .. }, Root::Join(junction)) => {
                match (binder, junction) {
                    (Binder::All, Junction::And) | (Binder::Some, Junction::Or) => {
                        FormKind::Quantified
                    }
                    _ => return None,
                }
            }
            (
                ExpressionKind::Bound {
                    binder: Binder::Sum,
                    ..
                },
                Root::Operate(Operator::Add),
            ) => FormKind::Sum,
            (ExpressionKind::Operate(_, left, right), Root::Number(_))
                if self.is_constant(left) && self.is_constant(right) => { FormKind::Constant }
            _ => return None,
        };
        Some(Form {
            kind,
            place: span,
            filled: self.fill(kind, index),
        })
    }

    /// What an expression stood for when it was worked out last.
    pub(crate) fn latest_of(&self, index: usize) -> usize {
        self.latest.get(index).copied().unwrap_or(0)
    }

    /// Notes what an expression stands for.
    fn note_latest(&mut self, index: usize, tree: usize) {
        for _ in self.latest.len()..index.saturating_add(1) {
            let stored = self.latest.push(0);
            self.want_stored(stored.is_ok());
        }
        if let Some(slot) = self.latest.get_mut(index) {
            *slot = tree;
        }
    }

    /// Whether a number is shown as the expression that stands for it: it has a name, or digits, or is an operation on such numbers.
    fn is_constant(&self, index: usize) -> bool {
        let tree = self.latest_of(index);
        let Tree { span, name, .. } = self.forest.tree(tree);
        if let Some(form) = self.forest.form(tree) {
            return is_same_place(form.place, span);
        }
        match name {
            Some(name) => is_same_place(name, span) && self.forest.arguments(tree).is_empty(),
            None => {
                let digit = self.text(span).first().copied().unwrap_or(0);
                digit.is_ascii_digit()
            }
        }
    }

    /// What stands in an expression for the parameters and the indices that it doesn't bind, the last place first; of what stands within one another
    /// the outermost.
    fn fill(&mut self, kind: FormKind, index: usize) -> List {
        let start = self.forest.filled.len();
        let mut first = index;
        if kind == FormKind::Quantified || kind == FormKind::Sum {
            first = self.written.first_within(index);
        }
        let mut end = usize::MAX;
        for inner in (first..index).rev() {
            let place = self.expression(inner).span;
            if place.end <= end && self.is_filled(inner) {
                let tree = self.latest_of(inner);
                let stored = self.forest.filled.push(Filled { place, tree });
                self.want_stored(stored.is_ok());
                end = place.start;
            }
        }
        List::new(start, self.forest.filled.len())
    }

    /// Whether an expression is a parameter or an index, or is made of some and of names of trees, and of nothing else that has a name.
    fn is_filled(&self, index: usize) -> bool {
        let is_made_so = matches!(
            self.expression(index).kind,
            ExpressionKind::Name { .. } | ExpressionKind::Operate(..)
        );
        if !is_made_so {
            return false;
        }
        let mut has_some = false;
        for inner in self.written.first_within(index)..index.saturating_add(1) {
            if let ExpressionKind::Name { name, .. } = self.expression(inner).kind {
                match self.find(name).map(|named| named.meaning) {
                    Some(Meaning::Tree(_)) => has_some = true,
                    Some(Meaning::Let(_)) => {}
                    _ => return false,
                }
            }
        }
        has_some
    }
}
