//! The answer of `clauses`: clauses, or the formula or condition itself for a script in SMT-LIB.

ghost use Rattle.std.specs.Prelude.{◌≡◌, ℕ, List, true, IfOk, IfErr};
ghost use Rattle.std.specs.Borrow.{Bor};
ghost use Rattle.rg_parse.specs.Shown.{IsShowRefusal};
ghost use Rattle.rg_tree.specs.Conditions.{condition_tree};
ghost use Rattle.rg_words.specs.declared.refusal.SourceFile.TheVariants.{Text};
ghost use Rattle.rgc.specs.Valid.{IsShown};
ghost use Rattle.rgc_line.specs.declared.command.Command.TheVariants.{Clauses};
ghost use Rattle.rgc_line.specs.declared.command.Settings.{Settings as LineSettings};
ghost use Rattle.rgc_commands.specs.Answers.{IsAnswer};
ghost use Rattle.rgc_commands.specs.Stops.{IsStop};

use crate::answers::Answer;
use crate::files::{Files, derivation_of, text_of};
use crate::stops::Stop;
use crate::texts::clauses_of;
use rg_parse::show;
use rg_tree::condition::Condition;
use rg_words::Refusal;
use rgc::chosen_condition;
use rgc_line::Chosen;
use std::alloc::Global;

/// The formula that a text spells, as a condition.
fn shown_condition(alloc: Global, text: &[u8]) -> Result<Condition, Refusal>
    ensures shown { IfOk result (λ c. IsShown text.now (condition_tree c)) }
    ensures refused { IfErr result (IsShowRefusal Text text.now) }
{
    match show(alloc, text) {
        Ok((layout, formula)) => Ok(Condition::show(alloc, layout, formula)),
        Err(refusal) => Err(refusal),
    }
}

/// The formula, or the chosen condition, to be printed as a script.
fn script_of<'a>(
    alloc: Global,
    chosen: Option<Chosen<'a>>,
    files: &Files<'a>,
) -> Result<Answer<'a>, Stop>
    ensures answer { (s : LineSettings) → (t : Bor (List ℕ)) → s.is_smt ≡ true → IfOk result (IsAnswer s (Clauses t chosen.entry) files.now) }
    ensures stopped { (s : LineSettings) → (t : Bor (List ℕ)) → IfErr result (IsStop s (Clauses t chosen.entry) files.now) }
{
    let text = text_of(files)?;
    match chosen {
        None => Ok(Answer::Script(shown_condition(alloc, text)?)),
        Some(chosen) => {
            let derivation = derivation_of(files)?;
            let condition = chosen_condition(alloc, text, derivation, chosen.condition)?;
            Ok(Answer::Script(condition))
        }
    }
}

/// The clauses of the formula, or of the chosen condition; or itself, where it is to be printed as a script.
pub(crate) fn clauses_or_script<'a>(
    alloc: Global,
    is_smt: bool,
    chosen: Option<Chosen<'a>>,
    files: &Files<'a>,
) -> Result<Answer<'a>, Stop>
    ensures answer { (s : LineSettings) → (t : Bor (List ℕ)) → s.is_smt ≡ is_smt → IfOk result (IsAnswer s (Clauses t chosen.entry) files.now) }
    ensures stopped { (s : LineSettings) → (t : Bor (List ℕ)) → IfErr result (IsStop s (Clauses t chosen.entry) files.now) }
{
    if is_smt {
        script_of(alloc, chosen, files)
    } else {
        clauses_of(alloc, chosen, files)
    }
}
