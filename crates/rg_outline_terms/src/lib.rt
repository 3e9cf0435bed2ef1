//! What the formulas and values of an outline stand for: terms over plain words, of which equal ones are kept once, and the scope in which the
//! outline's names, families of words, quantifiers and primes are worked out into them.
#![tactic(auto)]

mod chosen;
mod elaborate;
mod families;
mod fold;
mod forest;
mod forms;
mod names;
mod prime;
mod ranges;
mod scope;
mod uses;
mod widths;
mod words;

pub use chosen::{Chosen, Target};
pub use forest::{Forest, NewTree, Reads, Root, Term, Tree, bit_of};
pub use forms::{Filled, Form, FormKind};
pub use names::{Meaning, Named};
pub use scope::Scope;
pub use widths::Word;
pub use words::ListedWord;
