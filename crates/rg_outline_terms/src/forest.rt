//! Formulas and values over plain words, with their places in the outline.

use crate::forms::{Filled, Form};
use indexmap::IndexSet;
use rg_outline_syntax::{
    Comparison, Conditional, Fault, Junction, List, MeaningFault, Operator, Span,
};
use std::alloc::Global;

/// The most trees of an outline.
const MOST_TREES: usize = 2_000_000;

/// What stands at the root of a tree.
#[derive(Clone, Copy, PartialEq, Eq, Hash)]
pub enum Root {
    Number(i128),
    Word { word: usize, is_primed: bool },
    Truth(bool),
    Operate(Operator),
    /// A shift by so many bits.
    Shift(Operator, u8),
    Inverse,
    Choice,
    Compare(Comparison),
    Not,
    Join(Junction),
    Imply(Conditional),
}

/// A tree without its places: equal trees have one term. Its operands are terms; those that the root doesn't have are 0.
#[derive(Clone, Copy, PartialEq, Eq, Hash)]
pub struct Term {
    pub root: Root,
    pub operands: [usize; 3],
}

/// A tree: its term, the trees of its operands, and the place in the outline that it was made of.
#[derive(Clone, Copy)]
pub struct Tree {
    pub term: usize,
    pub operands: [usize; 3],
    pub span: Span,
    /// The use of a name for which the tree stands, if it stands for one.
    pub name: Option<Span>,
    /// The trees with which that name is used: a list of `arguments`.
    pub arguments: List,
    /// How it is written, where its root doesn't show it: a place of `forms`.
    pub(crate) form: Option<usize>,
}

/// A tree that was made: its index, or why there is none.
pub type NewTree = Result<usize, Fault>;

/// The words that a term reads, as bits by their numbers: those of the first state, and the primed ones.
#[derive(Clone, Copy)]
pub struct Reads {
    pub plain: u64,
    pub primed: u64,
}

/// All trees of an outline.
///
/// # Errors
///
/// Each method that adds a tree gives `MeaningFault::TooLarge`, at the tree's place, where there are too many, and `FaultKind::Memory`.
#[derive(Drop)]
pub struct Forest {
    pub trees: Vec<Tree>,
    pub(crate) arguments: Vec<usize>,
    pub(crate) forms: Vec<Form>,
    /// What stands for parameters and indices in forms.
    pub(crate) filled: Vec<Filled>,
    terms: IndexSet<Term>,
    reads: Vec<Reads>,
    /// For each tree the one above it in which all words are primed, plus one; 0 where none was made.
    pub(crate) primed: Vec<usize>,
}

impl Reads {
    const NONE: Reads = Reads {
        plain: 0,
        primed: 0,
    };
}

impl Root {
    /// How many operands it has.
    pub fn arity(self) -> usize {
        match self {
            Root::Number(_) | Root::Word { .. } | Root::Truth(_) => 0,
            Root::Shift(..) | Root::Inverse | Root::Not => 1,
            Root::Choice => 3,
            _ => 2,
        }
    }

    /// Whether it makes a formula, and not a value.
    pub fn is_formula(self) -> bool {
        matches!(
            self,
            Root::Truth(_) | Root::Compare(_) | Root::Not | Root::Join(_) | Root::Imply(_)
        )
    }
}

impl Forest {
    /// No trees.
    pub fn new(alloc: Global) -> Forest {
        Forest {
            trees: Vec::new(alloc),
            arguments: Vec::new(alloc),
            forms: Vec::new(alloc),
            filled: Vec::new(alloc),
            terms: IndexSet::new(alloc),
            reads: Vec::new(alloc),
            primed: Vec::new(alloc),
        }
    }

    /// The tree of an index; past the last one, `false`.
    pub fn tree(&self, index: usize) -> Tree {
        self.trees.get(index).copied().unwrap_or(Tree {
            term: usize::MAX,
            operands: [0, 0, 0],
            span: Span::NOWHERE,
            name: None,
            arguments: List::EMPTY,
            form: None,
        })
    }

    /// The term of an index; past the last one, `false`.
    pub fn term(&self, index: usize) -> Term {
        self.terms.get_index(index).copied().unwrap_or(Term {
            root: Root::Truth(false),
            operands: [0, 0, 0],
        })
    }

    /// How many terms there are.
    pub fn term_count(&self) -> usize {
        self.terms.len()
    }

    /// The root of a tree.
    pub fn root(&self, tree: usize) -> Root {
        self.term(self.tree(tree).term).root
    }

    /// An operand of a tree.
    pub fn operand(&self, tree: usize, place: usize) -> usize {
        self.tree(tree).operands.get(place).copied().unwrap_or(0)
    }

    /// The operands of a tree, as many as its root has.
    pub(crate) fn operands(&self, tree: usize) -> &[usize] {
        let arity = self.root(tree).arity();
        match self.trees.get(tree) {
            Some(kept) => kept.operands.get(..arity).unwrap_or(&[]),
            None => &[],
        }
    }

    /// The trees with which the name is used for which a tree stands.
    pub fn arguments(&self, tree: usize) -> &[usize] {
        let list = self.tree(tree).arguments;
        self.arguments.get(list.start..list.end).unwrap_or(&[])
    }

    /// Where a tree stands.
    pub fn span(&self, tree: usize) -> Span {
        self.tree(tree).span
    }

    /// Whether two trees are equal, whatever their places.
    pub fn is_equal(&self, first: usize, second: usize) -> bool {
        self.tree(first).term == self.tree(second).term
    }

    /// Whether the tree is this truth.
    pub fn is_truth(&self, tree: usize, truth: bool) -> bool {
        self.root(tree) == Root::Truth(truth)
    }

    /// The number that the tree is.
    pub fn number(&self, tree: usize) -> Option<i128> {
        match self.root(tree) {
            Root::Number(number) => Some(number),
            _ => None,
        }
    }

    /// The words that a tree reads.
    pub fn reads(&self, tree: usize) -> Reads {
        let term = self.tree(tree).term;
        self.reads.get(term).copied().unwrap_or(Reads::NONE)
    }

    /// The words that a term reads.
    fn reads_of(&self, term: Term) -> Reads {
        let mut reads = Reads::NONE;
        if let Root::Word { word, is_primed } = term.root {
            let bit = bit_of(word);
            if is_primed {
                reads.primed = bit;
            } else {
                reads.plain = bit;
            }
        }
        for operand in term.operands.iter().take(term.root.arity()) {
            if let Some(inner) = self.reads.get(*operand) {
                reads.plain |= inner.plain;
                reads.primed |= inner.primed;
            }
        }
        reads
    }

    /// Adds a tree whose term is kept.
    pub(crate) fn push(&mut self, tree: Tree) -> NewTree {
        let index = self.trees.len();
        if index >= MOST_TREES {
            return Err(Fault::meaning(MeaningFault::TooLarge, tree.span));
        }
        self.primed.push(0)?;
        self.trees.push(tree)?;
        Ok(index)
    }

    /// Adds a tree with these operands, of which the root has as many as it needs.
    pub(crate) fn add(&mut self, root: Root, operands: [usize; 3], span: Span) -> NewTree {
        let mut terms = [0; 3];
        for (slot, operand) in terms.iter_mut().zip(&operands).take(root.arity()) {
            *slot = self.tree(*operand).term;
        }
        let term = Term {
            root,
            operands: terms,
        };
        let reads = self.reads_of(term);
        let (term, is_new) = self.terms.insert_full(term)?;
        if is_new {
            self.reads.push(reads)?;
        }
        self.push(Tree {
            term,
            operands,
            span,
            name: None,
            arguments: List::EMPTY,
            form: None,
        })
    }

    /// Adds a tree without operands.
    pub fn leaf(&mut self, root: Root, span: Span) -> NewTree {
        self.add(root, [0, 0, 0], span)
    }

    /// Adds a tree with one operand.
    pub fn unary(&mut self, root: Root, operand: usize, span: Span) -> NewTree {
        self.add(root, [operand, 0, 0], span)
    }

    /// Adds a tree with two operands.
    pub fn binary(&mut self, root: Root, first: usize, second: usize, span: Span) -> NewTree {
        self.add(root, [first, second, 0], span)
    }

    /// The tree at another place, with the name for which it stands.
    pub(crate) fn at_span(&mut self, tree: usize, span: Span) -> NewTree {
        let tree = self.tree(tree);
        self.push(Tree { span, ..tree })
    }

    /// The tree with a name for which it stands, as it is used with these arguments.
    pub(crate) fn named(&mut self, tree: usize, name: Option<Span>, arguments: List) -> NewTree {
        let tree = self.tree(tree);
        self.push(Tree {
            name,
            arguments,
            ..tree
        })
    }
}

/// The word as a bit.
pub fn bit_of(word: usize) -> u64 {
    let count = (word as u64).min(63) as u32;
    1u64 << count
}
