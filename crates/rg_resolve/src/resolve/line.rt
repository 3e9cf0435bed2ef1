//! The lines of a derivation.

ghost use Rattle.std.specs.Prelude.{◌≡◌, [], map, IsTrue, IfOk, IfErr};
ghost use Rattle.rg_resolve.specs.Inner.LineTrees.{resolved_line};
ghost use Rattle.std.specs.List.{flat_map};
ghost use Rattle.rg_text.specs.Text.{leaf_of};
ghost use Rattle.rg_tree.specs.Lines.{line_tree};
ghost use Rattle.rg_syntax.specs.Written.{line_text};
ghost use Rattle.rg_resolve.specs.Faults.{plain_faults, IsRefusal};
ghost use Rattle.rg_resolve.specs.Derivations.{line_faults, derivation_faults, leaf_number};

use super::part::spec_of;
use rg_leaves::scope::Scope;
use rg_syntax::written::LineText;
use rg_text::token::Token;
use rg_tree::line::DerivationLine;
use rg_words::Refusal;

/// The numbers that stand after `from`, in order.
fn premises_of(scope: &Scope, written: &[Token]) -> Result<Vec<u64>, Refusal>
    ensures numbers { IfOk result (λ ns. ns.items ≡ map leaf_number (map (leaf_of scope.now.source.now) written.now)) }
    ensures faultless { IfOk result (λ _. flat_map plain_faults (map (leaf_of scope.now.source.now) written.now) ≡ []) }
    ensures fault { IfErr result (λ refusal. IsRefusal scope.now.file (flat_map plain_faults (map (leaf_of scope.now.source.now) written.now)) refusal) }
{
    let mut numbers = Vec::new(scope.alloc);
    for token in written {
        numbers.push(scope.plain_number(token)?)?;
    }
    Ok(numbers)
}

/// The line that a line as written gives.
#[tactic(auto, using(rg_leaves::proofs::Refusals::refusals), unfolding(crate::specs::Derivations::line_faults))]
fn line_of(scope: &Scope, written: &LineText) -> Result<DerivationLine, Refusal>
    requires { IsTrue scope.now.one_state }
    ensures tree { IfOk result (λ l. line_tree l ≡ resolved_line scope.now.layout.now (line_text scope.now.source.now written.now)) }
    ensures faultless { IfOk result (λ _. line_faults scope.now.layout.now (line_text scope.now.source.now written.now) ≡ []) }
    ensures fault { IfErr result (λ refusal. IsRefusal scope.now.file (line_faults scope.now.layout.now (line_text scope.now.source.now written.now)) refusal) }
{
    let own_number = scope.plain_number(&written.number)?;
    let number = scope.plain_number(&written.statement)?;
    let premises = premises_of(scope, &written.premises)?;
    let spec = spec_of(scope, &written.spec)?;
    Ok(DerivationLine {
        own_number,
        source_line: written.begin.line,
        rule: written.rule,
        number,
        premises,
        spec,
    })
}

/// The lines, in order.
pub fn lines_of(scope: &Scope, written: &[LineText]) -> Result<Vec<DerivationLine>, Refusal>
    requires { IsTrue scope.now.one_state }
    ensures trees { IfOk result (λ lines. map line_tree lines.items
        ≡ map (resolved_line scope.now.layout.now) (map (line_text scope.now.source.now) written.now)) }
    ensures faultless { IfOk result (λ _. derivation_faults scope.now.layout.now (map (line_text scope.now.source.now) written.now) ≡ []) }
    ensures fault { IfErr result (λ refusal. IsRefusal scope.now.file
        (derivation_faults scope.now.layout.now (map (line_text scope.now.source.now) written.now)) refusal) }
{
    let mut lines = Vec::new(scope.alloc);
    for one in written {
        lines.push(line_of(scope, one)?)?;
    }
    Ok(lines)
}
