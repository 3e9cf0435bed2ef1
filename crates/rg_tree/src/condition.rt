//! Conditions: hypotheses that give a goal, at every two states that a step may lead between.

ghost use Rattle.std.specs.Prelude.{◌≡◌, length, map};
ghost use Rattle.rg_words.specs.Layout.{widths_of};
ghost use Rattle.rg_tree.specs.View.{formula};
ghost use Rattle.rg_tree.specs.ConditionTrees.{ConditionFits, ConditionTyped, condition_tree_of, second_state};
ghost use Rattle.rg_tree.specs.Inner.OneProof.{ConditionFits-prop, ConditionTyped-prop};
ghost use Rattle.rg_tree.specs.Truth.{TestsSayTruth};

use crate::primes::speaks_of_two;
use crate::tree::{Expr, Formula};
use rg_words::Layout;
use std::alloc::Global;

/// An assignment to a word.
#[derive(Drop)]
pub struct Assign {
    /// The word's number: its place in the layout, from 0.
    pub word: usize,
    /// Its new value, of the word's width.
    pub value: Expr,
}

/// The second state of a condition.
#[derive(Drop)]
pub enum Second {
    /// The first state itself.
    Same,
    /// Any state that agrees on the fixed words.
    Free,
    /// The first state after these assignments, in order: each reads what the earlier ones wrote.
    After(Vec<Assign>),
}

/// Hypotheses that give a goal. Its trees speak of words that the layout has, and compare and assign values of one width.
///
/// It is true where, for every two states that agree on the fixed words, the goal holds where all hypotheses do.
#[derive(Drop)]
pub struct Condition {
    /// The words that the trees speak of.
    pub layout: Layout,
    /// Read on the first state and, where `second` is `Free`, the second one.
    pub hypotheses: Vec<Formula>,
    pub second: Second,
    /// Read on the first and the second state.
    pub goal: Formula,
    /// The goal is read on the second state alone.
    pub alone: bool,
    /// A step that changes nothing meets the goal too.
    pub or_no_change: bool,
    pub ghost fits: { ConditionFits (condition_tree_of layout (map formula hypotheses.items) (second_state second) (formula goal) alone or_no_change) } by { ConditionFits-prop _ },
    pub ghost typed: { ConditionTyped (condition_tree_of layout (map formula hypotheses.items) (second_state second) (formula goal) alone or_no_change) } by { ConditionTyped-prop _ },
}

impl Condition {
    ghost use Rattle.rg_tree.specs.Fits.{FormulaFits};
    ghost use Rattle.rg_tree.specs.Typing.{IsTyped};
    ghost use Rattle.rg_tree.specs.Conditions.{condition_tree, shown};

    /// What every condition keeps: its words are there, and its trees are of one width each.
    pub fn facts(&self)
        ensures fits { ConditionFits (condition_tree self.now) }
        ensures typed { ConditionTyped (condition_tree self.now) }
    {}

    /// A formula as a condition of its own, with no hypotheses. It speaks of two states where a primed word stands in it.
    pub fn show(alloc: Global, layout: Layout, goal: Formula) -> Condition
        requires fits { FormulaFits (formula goal) (length layout) }
        requires typed { IsTyped (widths_of layout) (formula goal) }
        ensures { condition_tree result ≡ shown layout (formula goal) }
    {
        let second = if speaks_of_two(&goal) {
            Second::Free
        } else {
            Second::Same
        };
        Condition {
            layout,
            hypotheses: Vec::new(alloc),
            second,
            goal,
            alone: false,
            or_no_change: false,
        }
    }
}

/// What the test of a condition at two states says: where all hypotheses hold, the goal does, or the step may change
/// nothing and does. A law: a function that does nothing, and whose contract is the law.
#[tactic(auto, using(crate::proofs::Truths::tests_say_truth))]
pub fn tests_say_truth()
    ensures { TestsSayTruth }
{}
