//! Specifications and parts.

ghost use Rattle.std.specs.Prelude.{◌≡◌, [], map, All, IsTrue, IfOk, IfErr};
ghost use Rattle.rg_words.specs.Names.{IsName};
ghost use Rattle.rg_text.specs.Text.{text_of};
ghost use Rattle.rg_tree.specs.ProgramView.{specification, part};
ghost use Rattle.rg_syntax.specs.Written.{spec_text, part_text};
ghost use Rattle.rg_resolve.specs.Faults.{IsRefusal};
ghost use Rattle.rg_resolve.specs.Programs.{spec_faults, has_part, part_faults, parts_faults};
ghost use Rattle.rg_resolve.specs.Inner.ProgramTrees.{spec_tree, part_tree};

use super::block::block_of;
use super::formula::formula_tree;
use rg_leaves::leaf::text;
use rg_leaves::scope::Scope;
use rg_syntax::written::{PartText, SpecText};
use rg_tree::part::{Part, Spec};
use rg_words::names::as_name;
use rg_words::{Refusal, RefusalNumber};

/// The trees of a specification.
pub fn spec_of(scope: &Scope, written: &SpecText) -> Result<Spec, Refusal>
    requires { IsTrue scope.now.one_state }
    ensures tree { IfOk result (λ s. specification s ≡ spec_tree scope.now.layout.now (spec_text scope.now.source.now written.now)) }
    ensures faultless { IfOk result (λ _. spec_faults scope.now.layout.now (spec_text scope.now.source.now written.now) ≡ []) }
    ensures fault { IfErr result (λ refusal. IsRefusal scope.now.file (spec_faults scope.now.layout.now (spec_text scope.now.source.now written.now)) refusal) }
{
    let relations = scope.of_two_states();
    let pre = formula_tree(scope, &written.pre)?;
    let rely = formula_tree(&relations, &written.rely)?;
    let guar = formula_tree(&relations, &written.guar)?;
    let post = formula_tree(scope, &written.post)?;
    Ok(Spec {
        pre,
        rely,
        guar,
        post,
    })
}

/// Whether one of these parts has this name.
fn has_part(source: &[u8], parts: &[PartText], name: &[u8]) -> bool
    ensures { result ≡ has_part (map (part_text source.now) parts.now) name.now }
{
    parts.iter().any(|part| name == text(source, &part.name))
}

/// The tree of a part after others.
fn part_of(scope: &Scope, before: &[PartText], written: &PartText) -> Result<Part, Refusal>
    requires one_state { IsTrue scope.now.one_state }
    requires name { IsName (text_of scope.now.source.now written.now.name) }
    ensures tree { IfOk result (λ p. part p ≡ part_tree scope.now.layout.now (part_text scope.now.source.now written.now)) }
    ensures faultless { IfOk result (λ _. part_faults scope.now.layout.now (map (part_text scope.now.source.now) before.now)
        (part_text scope.now.source.now written.now)
        ≡ []) }
    ensures fault { IfErr result (λ refusal. IsRefusal scope.now.file
        (part_faults scope.now.layout.now (map (part_text scope.now.source.now) before.now) (part_text scope.now.source.now written.now))
        refusal) }
{
    let name = text(scope.source, &written.name);
    if has_part(scope.source, before, name) {
        return Err(scope.fault(RefusalNumber::NameTwice, &written.name));
    }
    let spec = spec_of(scope, &written.spec)?;
    let body = block_of(scope, &written.body)?;
    let Some(name) = as_name(name) else {
        unreachable!()
    };
    let name = String::from_str(scope.alloc, name)?;
    Ok(Part { name, spec, body })
}

/// The trees of parts, in order.
pub fn parts_of(scope: &Scope, written: &[PartText]) -> Result<Vec<Part>, Refusal>
    requires one_state { IsTrue scope.now.one_state }
    requires names { All (λ p. IsName (text_of scope.now.source.now p.name)) written.now }
    ensures trees { IfOk result (λ ps. map part ps.items ≡ map (part_tree scope.now.layout.now) (map (part_text scope.now.source.now) written.now)) }
    ensures faultless { IfOk result (λ _. parts_faults scope.now.layout.now (map (part_text scope.now.source.now) written.now) ≡ []) }
    ensures fault { IfErr result (λ refusal.
        IsRefusal scope.now.file (parts_faults scope.now.layout.now (map (part_text scope.now.source.now) written.now))
        refusal) }
{
    let mut parts = Vec::new(scope.alloc);
    for (i, one) in written.iter().enumerate() {
        parts.push(part_of(scope, &written[..i], one)?)?;
    }
    Ok(parts)
}
