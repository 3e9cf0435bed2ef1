//! The leaves of a formula, each against the declared words and the group in which it stands.

ghost use Rattle.std.specs.Prelude.{false, ◌≡◌, [], IfOk, IfErr, nat_le};
ghost use Rattle.rg_words.specs.Layout.{index_of};
ghost use Rattle.rg_words.specs.declared.refusal.RefusalNumber.TheVariants.{NumberTooLarge};
ghost use Rattle.rg_words.specs.Refusals.{refused_at};
ghost use Rattle.rg_text.specs.Text.{text_of, leaf_of};
ghost use Rattle.rg_leaves.specs.Leaves.{number_of, unless, word_faults, plain_faults, place_of, IsRefusal};

use crate::group::Group;
use crate::leaf::{find, number, text};
use rg_text::token::Token;
use rg_words::limits::{MOST_PLAIN_NUMBER, MOST_SHIFT};
use rg_words::{Layout, Place, Refusal, RefusalNumber, SourceFile};
use std::alloc::Global;

/// What the names and numbers of a text are read against.
#[derive(Clone, Copy)]
pub struct Scope<'a> {
    pub alloc: Global,
    /// The declared words.
    pub layout: &'a Layout,
    /// The file that the text is.
    pub file: SourceFile,
    pub source: &'a [u8],
    /// No primed word may stand in the text.
    pub one_state: bool,
}

impl Scope<'_> {
    /// This scope, for formulas that speak of two states.
    pub fn of_two_states(&self) -> Self
        ensures { result ≡ record self.now { one_state = false } }
    {
        Scope {
            one_state: false,
            ..*self
        }
    }

    /// A fault at a token.
    pub fn fault(&self, number: RefusalNumber, token: &Token) -> Refusal
        ensures { result ≡ refused_at number self.now.file token.now.line }
    {
        Refusal::at(number, self.file, Place::Line(u64::from(token.line)))
    }

    /// The place of a word of this group, plain or primed: its name may differ from its token's text.
    #[tactic(auto, using(crate::proofs::Refusals::refusals))]
    pub fn word(
        &self,
        group: Group,
        token: &Token,
        name: &[u8],
        barred: bool,
    ) -> Result<usize, Refusal>
        ensures faultless { IfOk result (λ _. word_faults self.now.layout.now group barred token.now.line (index_of self.now.layout.now name.now) ≡ []) }
        ensures place { IfOk result (λ k. k ≡ place_of self.now.layout.now name.now) }
        ensures fault { IfErr result (λ e. IsRefusal self.now.file
            (word_faults self.now.layout.now group barred token.now.line (index_of self.now.layout.now name.now)) e) }
    {
        let Some(word) = find(self.layout, name) else {
            return Err(self.fault(RefusalNumber::UnknownName, token));
        };
        if group.asks_other(self.layout.width(word)) {
            return Err(self.fault(RefusalNumber::WidthsDiffer, token));
        }
        if barred {
            return Err(self.fault(RefusalNumber::Prime, token));
        }
        Ok(word)
    }

    /// The count of a shift, which is of no group.
    #[tactic(auto, using(crate::proofs::Refusals::refusals))]
    pub fn shift_count(&self, token: &Token) -> Result<u32, Refusal>
        ensures faultless { IfOk result (λ _.
            unless (nat_le (number_of (text_of self.now.source.now token.now)) MOST_SHIFT) NumberTooLarge token.now.line ≡ []) }
        ensures value { IfOk result (λ k. k ≡ number_of (text_of self.now.source.now token.now)) }
        ensures fault { IfErr result (λ e. IsRefusal self.now.file
            (unless (nat_le (number_of (text_of self.now.source.now token.now)) MOST_SHIFT) NumberTooLarge token.now.line) e) }
    {
        match number(text(self.source, token)) {
            Some(count) if count <= MOST_SHIFT => Ok(count as u32),
            _ => Err(self.fault(RefusalNumber::NumberTooLarge, token)),
        }
    }

    /// A number that is of no group and no word, as the number of a move.
    #[tactic(auto, using(crate::proofs::Refusals::refusals))]
    pub fn plain_number(&self, token: &Token) -> Result<u64, Refusal>
        ensures faultless { IfOk result (λ _. plain_faults (leaf_of self.now.source.now token.now) ≡ []) }
        ensures value { IfOk result (λ n. n ≡ number_of (text_of self.now.source.now token.now)) }
        ensures fault { IfErr result (λ e. IsRefusal self.now.file (plain_faults (leaf_of self.now.source.now token.now)) e) }
    {
        match number(text(self.source, token)) {
            Some(value) if value <= MOST_PLAIN_NUMBER => Ok(value),
            _ => Err(self.fault(RefusalNumber::NumberTooLarge, token)),
        }
    }
}
