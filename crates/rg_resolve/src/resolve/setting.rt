//! Settings of words, as a start and a move have them.

ghost use Rattle.std.specs.Prelude.{◌≡◌, [], map, IfOk, IfErr};
ghost use Rattle.rg_resolve.specs.Inner.SettingTrees.{word_value, word_values, move_tree, move_trees};
ghost use Rattle.rg_syntax.specs.Written.{setting as leaves, move_text};
ghost use Rattle.rg_tree.specs.Moves.{move};
ghost use Rattle.rg_resolve.specs.Faults.{IsRefusal};
ghost use Rattle.rg_resolve.specs.Settings.{is_named, setting_faults, settings_faults, move_faults, moves_faults};

use rg_leaves::leaf::{find, number_below, text};
use rg_leaves::scope::Scope;
use rg_syntax::written::{MoveText, Setting};
use rg_tree::moves::{Move, WordValue};
use rg_words::{Refusal, RefusalNumber};

/// Whether one of these settings names this word.
fn is_named(source: &[u8], settings: &[Setting], name: &[u8]) -> bool
    ensures { result ≡ is_named (map (leaves source.now) settings.now) name.now }
{
    settings
        .iter()
        .any(|setting| name == text(source, &setting.word))
}

/// The value that a setting after others gives its word.
#[tactic(auto, using(rg_leaves::proofs::Refusals::refusals), unfolding(crate::specs::Settings::setting_faults))]
fn word_value(scope: &Scope, before: &[Setting], setting: &Setting) -> Result<WordValue, Refusal>
    ensures value { IfOk result (λ v. v ≡ word_value scope.now.layout.now (leaves scope.now.source.now setting.now)) }
    ensures faultless { IfOk result (λ _. setting_faults scope.now.layout.now (map (leaves scope.now.source.now) before.now)
        (leaves scope.now.source.now setting.now)
        ≡ []) }
    ensures fault { IfErr result (λ refusal. IsRefusal scope.now.file
        (setting_faults scope.now.layout.now (map (leaves scope.now.source.now) before.now) (leaves scope.now.source.now setting.now))
        refusal) }
{
    let name = text(scope.source, &setting.word);
    let Some(word) = find(scope.layout, name) else {
        return Err(scope.fault(RefusalNumber::UnknownName, &setting.word));
    };
    if is_named(scope.source, before, name) {
        return Err(scope.fault(RefusalNumber::NameTwice, &setting.word));
    }
    let width = scope.layout.width(word);
    match number_below(text(scope.source, &setting.value), width) {
        Some(value) => Ok(WordValue { word, value }),
        None => Err(scope.fault(RefusalNumber::NumberTooLarge, &setting.value)),
    }
}

/// The values that settings give their words, in order.
pub fn word_values(scope: &Scope, settings: &[Setting]) -> Result<Vec<WordValue>, Refusal>
    ensures values { IfOk result (λ values. values.items ≡ word_values scope.now.layout.now (map (leaves scope.now.source.now) settings.now)) }
    ensures faultless { IfOk result (λ _. settings_faults scope.now.layout.now (map (leaves scope.now.source.now) settings.now) ≡ []) }
    ensures fault { IfErr result (λ refusal.
        IsRefusal scope.now.file (settings_faults scope.now.layout.now (map (leaves scope.now.source.now) settings.now))
        refusal) }
{
    let mut values = Vec::new(scope.alloc);
    for (i, setting) in settings.iter().enumerate() {
        values.push(word_value(scope, &settings[..i], setting)?)?;
    }
    Ok(values)
}

/// The move that a move as written gives.
#[tactic(auto, using(rg_leaves::proofs::Refusals::refusals), unfolding(crate::specs::Settings::move_faults))]
fn move_of(scope: &Scope, written: &MoveText) -> Result<Move, Refusal>
    ensures tree { IfOk result (λ m. move m ≡ move_tree scope.now.layout.now (move_text scope.now.source.now written.now)) }
    ensures faultless { IfOk result (λ _. move_faults scope.now.layout.now (move_text scope.now.source.now written.now) ≡ []) }
    ensures fault { IfErr result (λ refusal. IsRefusal scope.now.file (move_faults scope.now.layout.now (move_text scope.now.source.now written.now)) refusal) }
{
    let at = scope.plain_number(&written.number)?;
    let values = word_values(scope, &written.settings)?;
    Ok(Move { at, values })
}

/// The moves, in order.
pub fn moves_of(scope: &Scope, written: &[MoveText]) -> Result<Vec<Move>, Refusal>
    ensures trees { IfOk result (λ moves. map move moves.items ≡ move_trees scope.now.layout.now (map (move_text scope.now.source.now) written.now)) }
    ensures faultless { IfOk result (λ _. moves_faults scope.now.layout.now (map (move_text scope.now.source.now) written.now) ≡ []) }
    ensures fault { IfErr result (λ refusal.
        IsRefusal scope.now.file (moves_faults scope.now.layout.now (map (move_text scope.now.source.now) written.now))
        refusal) }
{
    let mut moves = Vec::new(scope.alloc);
    for one in written {
        moves.push(move_of(scope, one)?)?;
    }
    Ok(moves)
}
