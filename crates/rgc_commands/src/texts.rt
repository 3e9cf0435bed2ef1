//! The answers of the commands over a text, a derivation and proofs.

ghost use Rattle.std.specs.Prelude.{◌≡◌, ℕ, List, Option, Some, None, true, false, IfOk, IfErr, IfSome};
ghost use Rattle.std.specs.Borrow.{Bor};
ghost use Rattle.rgc_line.specs.declared.command.Command.TheVariants.{Number, Check, Conditions, Prove, Valid, Clauses, Find, Explain};
ghost use Rattle.rgc_line.specs.declared.command.Settings.{Settings as LineSettings};
ghost use Rattle.rgc_commands.specs.Answers.{IsAnswer, SpellsRange};
ghost use Rattle.rgc_commands.specs.Inner.Answers.{FindsProofs};
ghost use Rattle.rgc_commands.specs.Stops.{IsStop};

use crate::answers::{Answer, is_plain};
use crate::entries::entry_of;
use crate::files::{Files, derivation_of, joined, proofs_of, text_of, three_files, two_files};
use crate::stops::Stop;
use rg_watch::Watcher;
use rgc::{
    Derived, InThreads, Parsed, ProofsFound, SearchSettings, accept_in_pieces, clauses,
    condition_clauses, derive_program, find, find_condition, find_part, find_proofs, valid_by,
};
use rgc_answers::{Context, Range};
use rgc_line::{Chosen, Format};
use std::alloc::Global;
use std::sync::Wait;
use std::thread::Threads;

/// The program whose statements are numbered.
pub(crate) fn number<'a>(alloc: Global, files: &Files<'a>) -> Result<Answer<'a>, Stop>
    ensures answer { (s : LineSettings) → (t : Bor (List ℕ)) → IfOk result (IsAnswer s (Number t) files.now) }
    ensures stopped { (s : LineSettings) → (t : Bor (List ℕ)) → IfErr result (IsStop s (Number t) files.now) }
{
    let text = text_of(files)?;
    let parsed = Parsed::read(alloc, text)?;
    Ok(Answer::Numbered(parsed))
}

/// Whether the files are accepted.
pub(crate) fn check<'a, R: Threads + Wait + Sync, P>(
    context: &Context<'_, R, P>,
    files: &Files<'a>,
) -> Result<Answer<'a>, Stop>
    ensures answer { (s : LineSettings) → (t d p : Bor (List ℕ)) → IfOk result (IsAnswer s (Check t d p) files.now) }
    ensures stopped { (s : LineSettings) → (t d p : Bor (List ℕ)) → IfErr result (IsStop s (Check t d p) files.now) }
{
    let (text, derivation, proofs) = three_files(files)?;
    let checker = InThreads {
        rt: context.rt,
        threads: context.threads,
    };
    accept_in_pieces(&checker, context.alloc, text, derivation, proofs)?;
    Ok(Answer::Accepted)
}

/// The conditions of what is derived, as formulas, which have no JSON.
fn formulas<'a>(alloc: Global, format: Format, files: &Files<'a>) -> Result<Answer<'a>, Stop>
    ensures answer { (s : LineSettings) → (t d : Bor (List ℕ)) → s.format ≡ format → IfOk result (IsAnswer s (Conditions t d true) files.now) }
    ensures stopped { (s : LineSettings) → (t d : Bor (List ℕ)) → s.format ≡ format → IfErr result (IsStop s (Conditions t d true) files.now) }
{
    if !is_plain(format) {
        return Err(Stop::Usage("error: --formulas and --format json don't go together\n"));
    }
    let (text, derivation) = two_files(files)?;
    let derived = derive_program(alloc, text, derivation)?;
    Ok(Answer::Formulas(derived))
}

/// The conditions of what is derived, by their names or as formulas.
pub(crate) fn conditions<'a>(
    alloc: Global,
    format: Format,
    has_formulas: bool,
    files: &Files<'a>,
) -> Result<Answer<'a>, Stop>
    ensures answer { (s : LineSettings) → (t d : Bor (List ℕ)) → s.format ≡ format → IfOk result (IsAnswer s (Conditions t d has_formulas) files.now) }
    ensures stopped { (s : LineSettings) → (t d : Bor (List ℕ)) → s.format ≡ format → IfErr result (IsStop s (Conditions t d has_formulas) files.now) }
{
    if has_formulas {
        return formulas(alloc, format, files);
    }
    let (text, derivation) = two_files(files)?;
    let derived = derive_program(alloc, text, derivation)?;
    Ok(Answer::Conditions(derived))
}

/// What is reported of a word that names no range.
const NO_RANGE: &str = "error: --conditions takes two numbers, as in 3-7\n";

/// The first and the last number of a range `A-B`.
fn range_of(word: &str) -> Option<(u64, u64)>
    ensures { IfSome result (λ range. SpellsRange word.now range.0 range.1) }
{
    let (first, last) = word.split_once("-")?;
    match (first.parse::<u64>(), last.parse::<u64>()) {
        (Ok(first), Ok(last)) => Some((first, last)),
        _ => None,
    }
}

/// What was found of proofs of these conditions, as an answer.
fn proofs_answer<'a>(derived: Derived, range: Range, found: ProofsFound) -> Answer<'a>
    ensures { FindsProofs derived range found result }
{
    match found {
        ProofsFound::Proofs(pieces) => Answer::Proved(range, pieces),
        ProofsFound::Failures(unproved) => Answer::Unproved(derived, unproved),
    }
}

/// Proofs of all conditions of what is derived, or those without one.
fn prove_all<'a, R: Threads + Wait + Sync, P: Watcher + Copy + Sync>(
    context: &Context<'_, R, P>,
    steps: u64,
    files: &Files<'a>,
) -> Result<Answer<'a>, Stop>
    ensures answer { (s : LineSettings) → (t d : Bor (List ℕ)) → IfOk result (IsAnswer s (Prove t d steps None) files.now) }
    ensures stopped { (s : LineSettings) → (t d : Bor (List ℕ)) → IfErr result (IsStop s (Prove t d steps None) files.now) }
{
    let (text, derivation) = two_files(files)?;
    let (rt, alloc, threads) = (context.rt, context.alloc, context.threads);
    let derived = derive_program(alloc, text, derivation)?;
    let found = find_proofs(rt, alloc, threads, &derived, steps, context.watcher)?;
    let conditions = derived.conditions(alloc)?;
    let count = conditions.len();
    Ok(proofs_answer(derived, Range::All(count), found))
}

/// Proofs of a range of the conditions of what is derived, or those without one.
fn prove_part<'a, R: Threads + Wait + Sync, P: Watcher + Copy + Sync>(
    context: &Context<'_, R, P>,
    steps: u64,
    range: &'a str,
    files: &Files<'a>,
) -> Result<Answer<'a>, Stop>
    ensures answer { (s : LineSettings) → (t d : Bor (List ℕ)) → IfOk result (IsAnswer s (Prove t d steps (Some range.entry)) files.now) }
    ensures stopped { (s : LineSettings) → (t d : Bor (List ℕ)) → IfErr result (IsStop s (Prove t d steps (Some range.entry)) files.now) }
{
    let Some((first, last)) = range_of(range) else {
        return Err(Stop::Usage(NO_RANGE));
    };
    let (text, derivation) = two_files(files)?;
    let derived = derive_program(context.alloc, text, derivation)?;
    let settings = SearchSettings {
        rt: context.rt,
        threads: context.threads,
        steps,
        watcher: context.watcher,
    };
    let found = find_part(&settings, context.alloc, &derived, first, last)?;
    Ok(proofs_answer(derived, Range::Part(first, last), found))
}

/// Proofs of all conditions of what is derived, or of a range of them.
pub(crate) fn prove<'a, R: Threads + Wait + Sync, P: Watcher + Copy + Sync>(
    context: &Context<'_, R, P>,
    steps: u64,
    range: Option<&'a str>,
    files: &Files<'a>,
) -> Result<Answer<'a>, Stop>
    ensures answer { (s : LineSettings) → (t d : Bor (List ℕ)) → IfOk result (IsAnswer s (Prove t d steps range.entry) files.now) }
    ensures stopped { (s : LineSettings) → (t d : Bor (List ℕ)) → IfErr result (IsStop s (Prove t d steps range.entry) files.now) }
{
    match range {
        None => prove_all(context, steps, files),
        Some(range) => prove_part(context, steps, range, files),
    }
}

/// Whether the hint lines prove the formula.
pub(crate) fn valid<'a, R: Threads + Wait + Sync, P>(
    context: &Context<'_, R, P>,
    files: &Files<'a>,
) -> Result<Answer<'a>, Stop>
    ensures answer { (s : LineSettings) → (t p : Bor (List ℕ)) → IfOk result (IsAnswer s (Valid t p) files.now) }
    ensures stopped { (s : LineSettings) → (t p : Bor (List ℕ)) → IfErr result (IsStop s (Valid t p) files.now) }
{
    let text = text_of(files)?;
    let proofs = proofs_of(files)?;
    let hints = joined(context.alloc, proofs)?;
    let checker = InThreads {
        rt: context.rt,
        threads: context.threads,
    };
    valid_by(&checker, context.alloc, text, &hints)?;
    Ok(Answer::Holds)
}

/// The clauses of the formula, or of the chosen condition.
pub(crate) fn clauses_of<'a>(
    alloc: Global,
    chosen: Option<Chosen<'a>>,
    files: &Files<'a>,
) -> Result<Answer<'a>, Stop>
    ensures answer { (s : LineSettings) → (t : Bor (List ℕ)) → s.is_smt ≡ false → IfOk result (IsAnswer s (Clauses t chosen.entry) files.now) }
    ensures stopped { (s : LineSettings) → (t : Bor (List ℕ)) → IfErr result (IsStop s (Clauses t chosen.entry) files.now) }
{
    let text = text_of(files)?;
    match chosen {
        None => Ok(Answer::Clauses(clauses(alloc, text)?)),
        Some(chosen) => {
            let derivation = derivation_of(files)?;
            let (_, found) = condition_clauses(alloc, text, derivation, chosen.condition)?;
            Ok(Answer::Clauses(found))
        }
    }
}

/// What a search finds of the formula, or of the chosen condition.
pub(crate) fn find_of<'a, R, P: Watcher + Copy>(
    context: &Context<'_, R, P>,
    steps: u64,
    chosen: Option<Chosen<'a>>,
    files: &Files<'a>,
) -> Result<Answer<'a>, Stop>
    ensures answer { (s : LineSettings) → (t : Bor (List ℕ)) → IfOk result (IsAnswer s (Find t steps chosen.entry) files.now) }
    ensures stopped { (s : LineSettings) → (t : Bor (List ℕ)) → IfErr result (IsStop s (Find t steps chosen.entry) files.now) }
{
    let mut watcher = *context.watcher;
    let alloc = context.alloc;
    let text = text_of(files)?;
    match chosen {
        None => {
            let (condition, judged) = find(alloc, text, steps, &mut watcher)?;
            Ok(Answer::Found(condition, judged))
        }
        Some(chosen) => {
            let derivation = derivation_of(files)?;
            let number = chosen.condition;
            let (condition, judged) = find_condition(
                alloc,
                text,
                derivation,
                number,
                steps,
                &mut watcher,
            )?;
            Ok(Answer::Found(condition, judged))
        }
    }
}

/// The entry of the refusal of a number.
pub(crate) fn explain<'a>(number: u64, files: &Files<'a>) -> Result<Answer<'a>, Stop>
    ensures answer { (s : LineSettings) → IfOk result (IsAnswer s (Explain number) files.now) }
    ensures stopped { (s : LineSettings) → IfErr result (IsStop s (Explain number) files.now) }
{
    let _ = files;
    match entry_of(number) {
        Some(entry) => Ok(Answer::Explained(number, entry)),
        None => Err(Stop::Usage("error: no refusal has this number\n")),
    }
}
