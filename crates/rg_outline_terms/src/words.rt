//! Words and lists of words, and that they keep their values.

use crate::chosen::{Chosen, Target};
use crate::elaborate::{DEEPEST, Sort};
use crate::families::Family;
use crate::scope::Scope;
use crate::{Meaning, Root};
use rg_outline_syntax::{
    Comparison, Expression, ExpressionKind, List, MeaningFault, Span, Standing,
};

/// A word in a list of words, and where it stands there.
#[derive(Clone, Copy)]
pub struct ListedWord {
    pub word: usize,
    pub span: Span,
}

/// Whether a word is in the list.
fn is_listed(words: &[ListedWord], word: usize) -> bool {
    words.iter().any(|listed| listed.word == word)
}

impl Scope<'_> {
    /// The words of a list, each once; a family without its last indices stands for all members that fit.
    pub fn words_of(&mut self, words: &mut Vec<ListedWord>, list: List) {
        self.listed_words(words, list, DEEPEST);
    }

    /// What an assignment writes: a word, or of several members of a family the one that a value chooses.
    pub fn target_of(&mut self, index: usize) -> Target {
        let Expression { kind, span } = self.expression(index);
        let ExpressionKind::Name { name, listed, .. } = kind else {
            return Target::Word(self.no_word(span, span));
        };
        match self.find(name).map(|named| named.meaning) {
            Some(Meaning::Family(family)) => self.target_in(family, listed, span),
            Some(Meaning::Tree(tree)) => Target::Word(self.word_passed(name, listed, tree, span)),
            _ => Target::Word(self.no_word(name, span)),
        }
    }

    /// The word for which an assigned parameter stands, which has no index and isn't primed.
    fn word_passed(&mut self, name: Span, listed: List, tree: usize, span: Span) -> usize {
        if !listed.is_empty() {
            self.refuse(MeaningFault::IsValue(name), span);
        }
        let Root::Word { word, is_primed } = self.forest.root(tree) else {
            return self.no_word(name, span);
        };
        if is_primed {
            self.refuse(MeaningFault::PrimeHere, span);
        }
        word
    }

    /// What an assignment to a member of a family writes. The index speaks of one state.
    fn target_in(&mut self, family: Family, listed: List, span: Span) -> Target {
        let (word, chosen) = self.selected(family, listed, span, DEEPEST);
        let Some(chosen) = chosen else {
            return Target::Word(word);
        };
        if let Some(primed) = self.forest.first_primed(chosen.index) {
            self.refuse(MeaningFault::PrimeHere, primed);
        }
        Target::Chosen(chosen)
    }

    /// Refuses a name that is no word's; any word stands for it.
    fn no_word(&mut self, name: Span, span: Span) -> usize {
        let near = self.near(name);
        self.refuse(MeaningFault::NoWordNamed(name, near), span);
        0
    }

    /// The family of words that has a name.
    fn family_named(&self, name: Span) -> Option<Family> {
        match self.find(name)?.meaning {
            Meaning::Family(family) => Some(family),
            _ => None,
        }
    }

    /// Refuses so many indices where a family has others.
    fn refuse_count(&mut self, family: Family, given: usize, span: Span) {
        let name = family.name;
        let wanted = family.ranges.len();
        if wanted == 0 && given > 0 {
            self.refuse(MeaningFault::NoIndex(name), span);
        } else if wanted != given {
            let kind = MeaningFault::CountDiffers(name, "indices", wanted, given);
            self.refuse(kind, span);
        }
    }

    /// The member of a family at these indices; or, where a value over words is one of them, the members from which it chooses.
    #[cycle(elaborate)]
    pub(crate) fn selected(
        &mut self,
        family: Family,
        listed: List,
        span: Span,
        depth: u32,
    ) -> (usize, Option<Chosen>) {
        self.refuse_count(family, listed.len(), span);
        let mut members = family.words;
        let mut chosen = None;
        for (place, item) in (listed.start..listed.end).enumerate() {
            let index = self.written.listed.get(item).copied().unwrap_or(0);
            let tree = self.sorted(index, Sort::Value, depth);
            let span = self.expression(index).span;
            if let Some(number) = self.forest.number(tree) {
                members = self.narrowed(family, place, members, number, span);
            } else {
                if chosen.is_some() {
                    self.refuse(MeaningFault::SecondIndex, span);
                }
                let range = self.range_at(family, place);
                members = self.narrowed(family, place, members, range.0, span);
                chosen = Some(Chosen::among(tree, span, range, members.1));
            }
        }
        (members.0, self.noted(chosen, members.0))
    }

    /// The first member of a family at these first indices, and how many there are.
    #[cycle(elaborate)]
    fn members(&mut self, family: Family, listed: List, depth: u32) -> (usize, usize) {
        let mut members = family.words;
        for (place, item) in (listed.start..listed.end).enumerate() {
            let index = self.written.listed.get(item).copied().unwrap_or(0);
            let number = self.number_of(index, "an index", depth);
            let span = self.expression(index).span;
            members = self.narrowed(family, place, members, number, span);
        }
        members
    }

    /// The words of a list, each once.
    #[cycle(elaborate)]
    fn listed_words(&mut self, words: &mut Vec<ListedWord>, list: List, depth: u32) {
        for place in list.start..list.end {
            let index = self.written.listed.get(place).copied().unwrap_or(0);
            let Expression { kind, span } = self.expression(index);
            let ExpressionKind::Name { name, listed, .. } = kind else {
                self.no_word(span, span);
                break;
            };
            let Some(family) = self.family_named(name) else {
                self.no_word(name, span);
                break;
            };
            if listed.len() > family.ranges.len() {
                self.refuse_count(family, listed.len(), span);
            }
            let members = self.members(family, listed, depth);
            self.push_words(words, members, span);
        }
    }

    /// Adds so many words from one on, where they aren't in the list.
    fn push_words(&mut self, words: &mut Vec<ListedWord>, members: (usize, usize), span: Span) {
        let (first, count) = members;
        for word in first..first.saturating_add(count) {
            if !is_listed(words, word) {
                let stored = words.push(ListedWord { word, span });
                self.want_stored(stored.is_ok());
            }
        }
    }

    /// That the words of a list are unchanged, or all words but these and the fixed ones.
    #[cycle(elaborate)]
    pub(crate) fn unchanged(&mut self, list: List, is_but: bool, span: Span, depth: u32) -> usize {
        let mut listed = Vec::new(self.alloc);
        self.listed_words(&mut listed, list, depth);
        if is_but {
            self.all_same_but(&listed, span)
        } else {
            self.all_same(&listed, span)
        }
    }

    /// All words but these and the fixed ones, each with its equation.
    fn all_same_but(&mut self, but: &[ListedWord], span: Span) -> usize {
        let mut listed = Vec::new(self.alloc);
        for word in 0..self.words.len() {
            if self.word(word).standing != Standing::Fixed && !is_listed(but, word) {
                let stored = listed.push(ListedWord { word, span });
                self.want_stored(stored.is_ok());
            }
        }
        self.all_same(&listed, span)
    }

    /// All words but the fixed ones, each with its equation.
    pub fn all_words_same(&mut self, span: Span) -> usize {
        self.all_same_but(&[], span)
    }

    /// The equations of words, conjoined.
    fn all_same(&mut self, words: &[ListedWord], span: Span) -> usize {
        let mut equations = Vec::new(self.alloc);
        for listed in words {
            let equation = self.same(listed.word, span);
            let stored = equations.push(equation);
            self.want_stored(stored.is_ok());
        }
        let made = self.forest.conjoined(&equations, span);
        self.made(made)
    }

    /// The tree of a word, primed or not.
    pub(crate) fn word_tree(&mut self, word: usize, is_primed: bool, span: Span) -> usize {
        self.leaf(Root::Word { word, is_primed }, span)
    }

    /// A word in the first state.
    pub fn plain_word(&mut self, word: usize, span: Span) -> usize {
        self.word_tree(word, false, span)
    }

    /// That a word keeps its value.
    pub fn same(&mut self, word: usize, span: Span) -> usize {
        let first = self.word_tree(word, true, span);
        let second = self.word_tree(word, false, span);
        let root = Root::Compare(Comparison::Equal);
        let made = self.forest.binary(root, first, second, span);
        self.made(made)
    }
}
