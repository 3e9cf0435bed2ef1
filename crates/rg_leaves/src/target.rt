//! Targets of assignments.

ghost use Rattle.std.specs.Prelude.{◌≡◌, Some, [], IfOk, IfErr};
ghost use Rattle.rg_words.specs.Layout.{index_of};
ghost use Rattle.rg_text.specs.Text.{text_of, leaf_of};
ghost use Rattle.rg_leaves.specs.Leaves.{target_faults, IsRefusal};

use crate::leaf::{find, text};
use crate::scope::Scope;
use rg_text::token::Token;
use rg_words::{Refusal, RefusalNumber};

/// The word that an assignment gives a value.
#[tactic(auto, using(crate::proofs::Refusals::refusals))]
pub fn target(scope: &Scope, token: &Token) -> Result<usize, Refusal>
    ensures word { IfOk result (λ word. index_of scope.now.layout.now (text_of scope.now.source.now token.now) ≡ Some word) }
    ensures faultless { IfOk result (λ _. target_faults scope.now.layout.now (leaf_of scope.now.source.now token.now)
        (index_of scope.now.layout.now (text_of scope.now.source.now token.now))
        ≡ []) }
    ensures fault { IfErr result (λ refusal. IsRefusal scope.now.file
        (target_faults scope.now.layout.now (leaf_of scope.now.source.now token.now) (index_of scope.now.layout.now (text_of scope.now.source.now token.now)))
        refusal) }
{
    let Some(word) = find(scope.layout, text(scope.source, token)) else {
        return Err(scope.fault(RefusalNumber::UnknownName, token));
    };
    if scope.layout.is_fixed(word) {
        return Err(scope.fault(RefusalNumber::FixedAssigned, token));
    }
    Ok(word)
}
