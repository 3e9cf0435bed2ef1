//! Names as they are used: the trees for which they stand.

use crate::Meaning;
use crate::chosen::Chosen;
use crate::elaborate::DEEPEST;
use crate::scope::Scope;
use rg_outline_syntax::{Expression, ExpressionKind, Let, List, MeaningFault, Span};

/// A name as it is used.
#[derive(Clone, Copy)]
pub(crate) struct Use {
    pub(crate) name: Span,
    pub(crate) listed: List,
    pub(crate) has_arguments: bool,
    pub(crate) is_primed: bool,
    pub(crate) span: Span,
}

impl Scope<'_> {
    /// What a name stands for.
    #[cycle(elaborate)]
    pub(crate) fn named(&mut self, used: Use, depth: u32) -> usize {
        let Some(named) = self.find(used.name) else {
            let near = self.near(used.name);
            self.refuse(MeaningFault::NothingNamed(near), used.span);
            return 0;
        };
        match named.meaning {
            Meaning::Tree(tree) => self.argument(used, tree),
            Meaning::Let(called) => self.called(used, called, depth),
            Meaning::Procedure(called) => {
                self.refuse(MeaningFault::IsStatements(called.name), used.span);
                0
            }
            Meaning::Family(family) => {
                if used.has_arguments {
                    self.refuse(MeaningFault::IsWord(used.name), used.span);
                    return 0;
                }
                let (word, chosen) = self.selected(family, used.listed, used.span, depth);
                match chosen {
                    None => self.word_tree(word, used.is_primed, used.span),
                    Some(chosen) => self.chosen_tree(used, chosen),
                }
            }
        }
    }

    /// The tree of the member that is chosen; primed, the index and the members are those of the next state.
    fn chosen_tree(&mut self, used: Use, chosen: Chosen) -> usize {
        let tree = self.chosen_value(chosen, used.span);
        if used.is_primed {
            return self.in_next_state(tree);
        }
        tree
    }

    /// The tree of a parameter or an index.
    fn argument(&mut self, used: Use, tree: usize) -> usize {
        if used.has_arguments || !used.listed.is_empty() {
            self.refuse(MeaningFault::IsValue(used.name), used.span);
        }
        if used.is_primed {
            if self.forest.number(tree).is_some() {
                self.refuse(MeaningFault::NumberPrimed(used.name), used.span);
            }
            return self.in_next_state(tree);
        }
        if self.forest.root(tree).arity() == 0 {
            return self.at_span(tree, used.span);
        }
        tree
    }

    /// The tree at another place.
    fn at_span(&mut self, tree: usize, span: Span) -> usize {
        let made = self.forest.at_span(tree, span);
        self.made(made)
    }

    /// Refuses a use that has other arguments than the name has parameters.
    fn refuse_arguments(&mut self, used: Use, name: Span, parameters: List) {
        if !used.has_arguments && !used.listed.is_empty() {
            self.refuse(MeaningFault::IsNoWord(used.name), used.span);
        }
        let (wanted, given) = (parameters.len(), used.listed.len());
        if wanted != given {
            let kind = MeaningFault::CountDiffers(name, "parameters", wanted, given);
            self.refuse(kind, used.span);
        }
    }

    /// The number for which a name without parameters stood before: it stands for the same one again, unless an index is known where it is named.
    fn known_number(&self, called: Let) -> Option<usize> {
        let tree = self.latest_of(called.body);
        let place = self.forest.span(tree).start;
        let is_known = called.span.start <= place && place < called.span.end;
        if is_known && called.parameters.is_empty() && !self.has_index(called.name) {
            self.forest.number(tree)?;
            return Some(tree);
        }
        None
    }

    /// The tree of a name with its arguments. After a fault its parameters and the use stay known: they say where the fault is.
    #[cycle(elaborate)]
    fn called(&mut self, used: Use, called: Let, depth: u32) -> usize {
        self.refuse_arguments(used, called.name, called.parameters);
        let first = self.passed.len();
        self.work_out(used.listed, depth);
        let arguments = self.keep_arguments(first);
        let mark = self.names.len();
        let known = self.expression(called.body).span;
        self.pass(used, called.parameters, known, first);
        let tree = match self.known_number(called) {
            Some(number) => number,
            None => self.elaborate(called.body, depth),
        };
        let tree = if used.is_primed {
            self.in_next_state(tree)
        } else {
            tree
        };
        if !called.parameters.is_empty() && !self.is_stopped() {
            self.uses.pop();
        }
        self.forget(mark);
        self.named_use(used, tree, arguments)
    }

    /// Works out arguments, and adds them to those that are passed.
    #[cycle(elaborate)]
    fn work_out(&mut self, listed: List, depth: u32) {
        for place in listed.start..listed.end {
            let argument = self.written.listed.get(place).copied().unwrap_or(0);
            let tree = self.elaborate(argument, depth);
            let stored = self.passed.push(tree);
            self.want_stored(stored.is_ok());
        }
    }

    /// The statements for which a use stands: its arguments are known as their parameters until they are left. After a fault there are none.
    pub fn enter(&mut self, index: usize) -> List {
        let Expression { kind, span } = self.expression(index);
        let ExpressionKind::Name {
            name,
            listed,
            has_arguments,
            is_primed,
        } = kind
        else {
            return List::EMPTY;
        };
        let used = Use {
            name,
            listed,
            has_arguments,
            is_primed,
            span,
        };
        let Some(Meaning::Procedure(called)) = self.find(name).map(|named| named.meaning) else {
            let near = self.near_statements(name);
            self.refuse(MeaningFault::NoStatementsNamed(name, near), span);
            return List::EMPTY;
        };
        self.refuse_arguments(used, called.name, called.parameters);
        let (first, chosen) = (self.passed.len(), self.chosen.len());
        self.work_out(listed, DEEPEST);
        if is_primed {
            self.refuse(MeaningFault::PrimeHere, span);
        }
        if chosen < self.chosen.len() {
            self.refuse(MeaningFault::IndexPassed, span);
        }
        self.pass(used, called.parameters, called.span, first);
        called.body
    }

    /// Leaves the statements for which a use stands: forgets the names that were added after the first so many. After a fault they stay known.
    pub fn leave(&mut self, index: usize, names: usize) {
        let has_parameters = matches!(
            self.expression(index).kind,
            ExpressionKind::Name { listed, .. } if !listed.is_empty()
        );
        if has_parameters && !self.is_stopped() {
            self.uses.pop();
        }
        self.forget(names);
    }

    /// Keeps the arguments that were passed from a place on, for the tree of their use.
    fn keep_arguments(&mut self, first: usize) -> List {
        let start = self.forest.arguments.len();
        for place in first..self.passed.len() {
            let tree = self.passed.get(place).copied().unwrap_or(0);
            let stored = self.forest.arguments.push(tree);
            self.want_stored(stored.is_ok());
        }
        let end = self.forest.arguments.len();
        List { start, end }
    }

    /// Makes parameters known within a piece of the outline as the arguments that were passed from a place on, and notes the use where there are any.
    fn pass(&mut self, used: Use, parameters: List, known: Span, first: usize) {
        for (place, parameter) in self.written.named(parameters).iter().enumerate() {
            let place = first.saturating_add(place);
            let tree = self.passed.get(place).copied().unwrap_or(0);
            self.know(*parameter, known, Meaning::Tree(tree));
        }
        self.passed.truncate(first);
        if !parameters.is_empty() && !self.is_stopped() {
            let stored = self.uses.push(used.span);
            self.want_stored(stored.is_ok());
        }
    }

    /// The tree of a use, with the use's name. A value that is no operation has the use's place, all else its own.
    fn named_use(&mut self, used: Use, tree: usize, arguments: List) -> usize {
        let root = self.forest.root(tree);
        let mut moved = tree;
        if root.arity() == 0 && !root.is_formula() {
            moved = self.at_span(tree, used.span);
        }
        let made = self.forest.named(moved, Some(used.span), arguments);
        self.made(made)
    }
}
