//! Proofs of all conditions, or of a range of them, found by a search for each.

ghost use Rattle.std.specs.Prelude.{◌≡◌, ◌⊎◌, ◌+◌, ◌<◌, ◌≤◌, ◌^◌, ◌∷◌, [], length, true, All, map, string_bytes, IsOk, IfOk, IfErr, IfSome, OnOk};
ghost use Rattle.rg_words.specs.declared.refusal.RefusalNumber.TheVariants.{UnknownCondition};
ghost use Rattle.rg_words.specs.declared.refusal.SourceFile.TheVariants.{Derivation};
ghost use Rattle.rg_words.specs.declared.refusal.Place.TheVariants.{Condition as the_condition};
ghost use Rattle.rg_words.specs.Refusals.{no_memory, refused_in};
ghost use Rattle.rg_tree.specs.Conditions.{condition_tree};
ghost use Rattle.rg_tree.specs.RuleConditions.{AllConditionsHold};
ghost use Rattle.rg_pool.specs.ProofPieces.{ArePartProvedBy};
ghost use Rattle.rg_find.specs.declared.judgement.Judged.TheVariants.{GaveUp};
ghost use Rattle.rgc.specs.Pieces.{bytes_of};
ghost use Rattle.rgc.specs.Proofs.{AreFoundFor, ArePartFoundFor, AreReportedOrHold, IsRange, IsUnproved, IsFirstUnjudged, IsSatisfiedWhere, IsSearchRefusal, IsPartSearchRefusal, outside};
ghost use Rattle.rgc.specs.Failures.{judged_text, name_at, unproved_text, failures_text};
ghost use Rattle.rgc.specs.Inner.Search.{Takes, IsAnswerAt, AreSought};
ghost use Rattle.rg_accept.specs.Accepted.{conditions_of};
ghost use Rattle.rg_accept.specs.Names.{names_of_conditions};
ghost use Rattle.rg_accept.specs.Stages.{derived_program, derived_lines};

use crate::failures::failure_text;
use itoa::Buffer;
use rg_accept::Derived;
use rg_find::{Judged, judge};
use rg_hints::Lines;
use rg_pool::{InThreads, deal, prove_pieces};
use rg_tree::condition::Condition;
use rg_watch::Watcher;
use rg_words::limits::MOST_PROOF_BYTES;
use rg_words::{Layout, Place, Refusal, RefusalNumber, SourceFile};
use std::alloc::{AllocError, Global};
use std::sync::Wait;
use std::sync::atomic::{AtomicBool, Ordering};
use std::thread::Threads;

/// A condition for which no proof is given.
#[derive(Drop)]
pub struct Unproved {
    /// Its number, from 1.
    pub number: usize,
    /// The states at which it fails, or why there is no proof: the search gave up, or the proof is too large.
    pub judged: Judged,
}

/// The section of a condition of this number.
fn section_of(alloc: Global, number: usize, lines: &Lines) -> Result<String, Refusal>
    ensures { IfErr result (λ e. e ≡ no_memory) }
{
    let mut digits = Buffer::new();
    let number = digits.format(number);
    let mut section = format!(in alloc; "section {number}\n")?;
    let text = lines.text(alloc)?;
    section.push_str(&text)?;
    Ok(section)
}

/// Adds a section to the last piece, or where it doesn't fit into that, as a new one; whether a piece can hold it.
fn add_section(alloc: Global, pieces: &mut Vec<String>, section: &str) -> Result<bool, AllocError> {
    if section.len() > MOST_PROOF_BYTES {
        return Ok(false);
    }
    if let Some(last) = pieces.last_mut() {
        let room = MOST_PROOF_BYTES.saturating_sub(last.len());
        if section.len() <= room {
            last.push_str(section)?;
            return Ok(true);
        }
    }
    let piece = String::from_str(alloc, section)?;
    pieces.push(piece)?;
    Ok(true)
}

/// The bytes of pieces that were found, in their order.
///
/// # Errors
///
/// Only where memory is refused.
pub fn bytes_of_pieces(alloc: Global, pieces: &[String]) -> Result<Vec<&[u8]>, AllocError>
    ensures { IfOk result (λ all. bytes_of all.items ≡ map string_bytes pieces.now) }
{
    let mut all = Vec::new(alloc);
    for piece in pieces {
        all.push(piece.as_bytes())?;
    }
    Ok(all)
}

/// Whether pieces that were found prove these conditions, which stand after so many others of `count`.
fn are_proved<R: Threads + Wait + Sync>(
    checker: &InThreads<'_, R>,
    alloc: Global,
    count: usize,
    before: usize,
    conditions: &[Condition],
    pieces: &[String],
) -> Result<bool, AllocError>
    requires { before + length conditions.now ≤ count }
    ensures proved { IfOk result (λ is. is ≡ true → ArePartProvedBy count before (map condition_tree conditions.now) (map string_bytes pieces.now)) }
    ensures holds { IfOk result (λ is. is ≡ true → AllConditionsHold (map condition_tree conditions.now)) }
{
    let all = bytes_of_pieces(alloc, pieces)?;
    match prove_pieces(checker, alloc, count, before, conditions, &all) {
        Ok(()) => Ok(true),
        Err(refusal) if refusal.number == RefusalNumber::Memory => Err(AllocError),
        Err(_) => Ok(false),
    }
}

/// That the search gave up on the condition of this number: the first one, where what was found doesn't prove all conditions. No such search is known.
fn given_up(alloc: Global, number: usize) -> Result<Vec<Unproved>, AllocError>
    ensures { IfOk result (λ unproved. unproved.items ≡ record { number = number; judged = GaveUp } ∷ []) }
{
    let mut unproved = Vec::new(alloc);
    unproved.push(Unproved {
        number,
        judged: Judged::GaveUp,
    })?;
    Ok(unproved)
}

/// What a search says of a condition, and the text of its section; no text, where it has or needs no lines.
#[derive(Drop)]
struct Sought {
    judged: Judged,
    section: String,
}

/// What a search says of the condition of this number, with the text of its section.
fn with_section(alloc: Global, number: usize, judged: Judged) -> Result<Sought, Refusal>
    ensures judged { IfOk result (λ w. w.judged ≡ judged) }
    ensures memory { IfErr result (λ e. e ≡ no_memory) }
{
    let mut section = String::new(alloc);
    if let Judged::Holds(lines) = &judged {
        if lines.len() > 0 {
            section = section_of(alloc, number, lines)?;
        }
    }
    Ok(Sought { judged, section })
}

/// Searches for lines for the condition at this place, from 0, with at most so many decisions.
fn seek<P: Watcher>(
    alloc: Global,
    conditions: &[Condition],
    place: usize,
    steps: u64,
    watcher: &mut P,
) -> Result<Sought, Refusal>
    requires { place < length conditions.now }
    ensures { IsAnswerAt (map condition_tree conditions.now) (place + 1) steps result }
{
    let file = SourceFile::Derivation;
    let number = place as u64 + 1;
    let condition = &conditions[place];
    match judge(alloc, condition, file, number, steps, watcher) {
        Ok(judged) => with_section(alloc, place + 1, judged),
        Err(refusal) => Err(refusal),
    }
}

/// Fewer conditions, over words of fewer bits, are looked at in the thread that asks: to start others takes longer.
const FEW_CONDITIONS: usize = 40;

const FEW_BITS: u64 = 32;

/// How many bits the words have together.
fn bits_of(words: &Layout) -> u64 {
    let mut bits = 0_u64;
    for word in 0..words.len() {
        bits = bits.saturating_add(u64::from(words.width(word)));
    }
    bits
}

/// In how many threads so many conditions over these words are looked at, of at most so many.
fn suiting(words: &Layout, count: usize, threads: usize) -> usize {
    if count < FEW_CONDITIONS && bits_of(words) < FEW_BITS {
        return threads.min(1);
    }
    threads
}

/// What searches found.
#[derive(Drop)]
struct Search {
    /// The sections of the conditions that need one, in pieces that are proofs files.
    pieces: Vec<String>,
    /// The conditions for which no lines were found.
    unproved: Vec<Unproved>,
}

impl Search {
    /// Takes what a search says of the condition of this number.
    fn take(&mut self, alloc: Global, number: usize, sought: Sought) -> Result<(), AllocError>
        ensures { OnOk result (Takes number sought.judged self.old.unproved.items self.new.unproved.items) }
    {
        let Sought { judged, section } = sought;
        let judged = match judged {
            Judged::Holds(_) => {
                if add_section(alloc, &mut self.pieces, &section)? {
                    return Ok(());
                }
                Judged::TooLarge
            }
            judged => judged,
        };
        self.unproved.push(Unproved { number, judged })?;
        Ok(())
    }
}

/// How searches for proofs are made.
#[derive(Clone, Copy)]
pub struct SearchSettings<'a, R, P> {
    /// The handle that starts threads.
    pub rt: &'a R,
    /// The most conditions that are looked at side by side.
    pub threads: usize,
    /// The most decisions of the search for each condition.
    pub steps: u64,
    /// Each search has a copy of it.
    pub watcher: &'a P,
}

/// What a search says of the condition at this place, from 0; nothing, where another condition was refused before.
fn judge_one<P: Watcher + Copy>(
    alloc: Global,
    conditions: &[Condition],
    place: usize,
    steps: u64,
    watcher: &P,
    refused: &AtomicBool,
) -> Option<Result<Sought, Refusal>>
    requires { place < length conditions.now }
    ensures { IfSome result (IsAnswerAt (map condition_tree conditions.now) (place + 1) steps) }
{
    if refused.load(Ordering::SeqCst) {
        return None;
    }
    let mut own = *watcher;
    let sought = seek(alloc, conditions, place, steps, &mut own);
    if sought.is_err() {
        refused.store(true, Ordering::SeqCst);
    }
    Some(sought)
}

/// What searches say of so many conditions from this place on, in at most so many threads; nothing of some of them, where
/// one is refused, and of none with fewer than two threads.
fn judge_some<R: Threads + Sync, P: Watcher + Copy + Sync>(
    settings: &SearchSettings<'_, R, P>,
    alloc: Global,
    conditions: &[Condition],
    from: usize,
    count: usize,
) -> Result<Vec<Option<Result<Sought, Refusal>>>, AllocError>
    requires { from + count ≤ length conditions.now }
    ensures { IfOk result (λ known. AreSought (map condition_tree conditions.now) from settings.now.steps known.items) }
{
    let rt = settings.rt;
    let threads = settings.threads;
    let steps = settings.steps;
    let watcher = settings.watcher;
    if threads < 2 {
        return Ok(Vec::new(alloc));
    }
    let refused = AtomicBool::new(false);
    let reported = &refused;
    deal(
        rt,
        alloc,
        threads,
        count,
        &|index: usize| -> Option<Result<Sought, Refusal>>
            requires { (from + index < length conditions.now) × (length conditions.now < 2 ^ 64) }
            ensures { IfSome result (IsAnswerAt (map condition_tree conditions.entry.now) (from + index + 1) steps) }
        { judge_one(alloc, conditions, from + index, steps, watcher, reported) },
    )
}

/// What a search says of the condition at this place, from 0: what is known of it, which is taken, or what is found now.
fn judged_at<R, P: Watcher + Copy>(
    settings: &SearchSettings<'_, R, P>,
    alloc: Global,
    conditions: &[Condition],
    known: &mut [Option<Result<Sought, Refusal>>],
    from: usize,
    place: usize,
) -> Result<Sought, Refusal>
    requires place { place < length conditions.now }
    requires from { from ≤ place }
    requires known { AreSought (map condition_tree conditions.now) from settings.now.steps known.old }
    ensures answer { IsAnswerAt (map condition_tree conditions.now) (place + 1) settings.now.steps result }
    ensures known { AreSought (map condition_tree conditions.now) from settings.now.steps known.new }
{
    let index = place - from;
    if index < known.len() {
        if let Some(sought) = known[index].take() {
            return sought;
        }
    }
    let mut own = *settings.watcher;
    seek(alloc, conditions, place, settings.steps, &mut own)
}

/// Searches for lines for each condition from one place on and before another, with at most so many decisions each.
fn search_in<R: Threads + Sync, P: Watcher + Copy + Sync>(
    settings: &SearchSettings<'_, R, P>,
    alloc: Global,
    conditions: &[Condition],
    from: usize,
    to: usize,
) -> Result<Search, Refusal>
    requires order { from ≤ to }
    requires bound { to ≤ length conditions.now }
    // What is reported of a condition for which no lines were found is true of it.
    ensures reported { IfOk result (λ s. All (IsUnproved (map condition_tree conditions.now)) s.unproved.items) }
    // All others hold.
    ensures others { IfOk result (λ s. AreReportedOrHold (map condition_tree conditions.now) (from + 1) (to + 1) s.unproved.items) }
    ensures refused { IfErr result (λ e. (e ≡ no_memory) ⊎ IsFirstUnjudged (map condition_tree conditions.now) (from + 1) settings.now.steps e) }
{
    let mut known = judge_some(settings, alloc, conditions, from, to - from)?;
    let mut pieces = Vec::new(alloc);
    pieces.push(String::new(alloc))?;
    let mut found = Search {
        pieces,
        unproved: Vec::new(alloc),
    };
    let reported = known.as_mut_slice();
    for place in from..to {
        let sought = match judged_at(settings, alloc, conditions, reported, from, place) {
            Ok(sought) => sought,
            Err(refusal) => return Err(refusal),
        };
        found.take(alloc, place + 1, sought)?;
    }
    Ok(found)
}

/// What searches for all conditions of a program's derivation found.
#[derive(Drop)]
pub enum ProofsFound {
    /// Proofs files that together prove all of them: one, where they fit into one.
    Proofs(Vec<String>),
    /// The conditions for which there is no proof, at least one, in the order of their numbers.
    Failures(Vec<Unproved>),
}

/// Looks for proofs of all conditions of a program's derivation, with at most so many decisions for each. The conditions are looked
/// at side by side in at most so many threads; with fewer than two threads, in their order in the thread that asks. Each search has a
/// copy of the watcher. What is found is the same for any count of threads.
///
/// # Errors
///
/// `Limit` at the first condition with too many variables; `Limit`, without a file and a place, where more than `MOST_DECISIONS` are
/// asked for. `Memory` where memory is refused.
pub fn find_proofs<R: Threads + Wait + Sync, P: Watcher + Copy + Sync>(
    rt: &R,
    alloc: Global,
    threads: usize,
    derived: &Derived,
    steps: u64,
    watcher: &P,
) -> Result<ProofsFound, Refusal>
    // What is given proves all conditions: it is checked before it is given. Else what is reported of conditions without a proof is true, and all others hold.
    ensures found { IfOk result (AreFoundFor (derived_program derived.now) (derived_lines derived.now)) }
    ensures satisfied { IfOk result (IsSatisfiedWhere (derived_program derived.now)) }
    ensures refused { IfErr result (IsSearchRefusal (conditions_of (derived_program derived.now) (derived_lines derived.now)) steps) }
{
    let conditions = derived.conditions(alloc)?;
    let count = conditions.len();
    let settings = SearchSettings {
        rt,
        threads: suiting(&derived.program().layout, count, threads),
        steps,
        watcher,
    };
    let all = conditions.as_slice();
    let found = match search_in(&settings, alloc, all, 0, count) {
        Ok(found) => found,
        Err(refusal) => return Err(refusal),
    };
    let Search { pieces, unproved } = found;
    if !unproved.is_empty() {
        return Ok(ProofsFound::Failures(unproved));
    }
    let checker = InThreads { rt, threads };
    if are_proved(&checker, alloc, count, 0, all, &pieces)? {
        return Ok(ProofsFound::Proofs(pieces));
    }
    let first = given_up(alloc, 1)?;
    Ok(ProofsFound::Failures(first))
}

/// Whether there are conditions of these numbers, from 1; refused at the first number of which there is none.
fn check_range(first: u64, last: u64, count: usize) -> Result<(), Refusal>
    ensures range { OnOk result (IsRange first last count) }
    ensures accepts { IsRange first last count → IsOk result }
    ensures refused { IfErr result (λ e. e ≡ refused_in UnknownCondition Derivation (the_condition (outside first last count))) }
{
    let fault = if first == 0 || first > count as u64 {
        first
    } else {
        last
    };
    if first > 0 && first <= last && last <= count as u64 {
        return Ok(());
    }
    Err(Refusal::at(
        RefusalNumber::UnknownCondition,
        SourceFile::Derivation,
        Place::Condition(fault),
    ))
}

/// Looks for proofs of the conditions with these numbers, from 1, the last of them included, as `find_proofs` does for all. The pieces that ranges give, one after another in the order of their ranges, prove all of
/// their conditions.
///
/// # Errors
///
/// `UnknownCondition` at the condition of the derivation where there is none of the first or the last number, or where the
/// last is below the first; then as `find_proofs`.
pub fn find_part<R: Threads + Wait + Sync, P: Watcher + Copy + Sync>(
    settings: &SearchSettings<'_, R, P>,
    alloc: Global,
    derived: &Derived,
    first: u64,
    last: u64,
) -> Result<ProofsFound, Refusal>
    // What is given proves these conditions: it is checked before it is given. Else what is reported of those without a proof is true, and all others hold.
    ensures found { IfOk result (ArePartFoundFor (derived_program derived.now) (derived_lines derived.now) first last) }
    ensures refused { IfErr result (IsPartSearchRefusal (conditions_of (derived_program derived.now) (derived_lines derived.now)) first last
        settings.now.steps) }
{
    let conditions = derived.conditions(alloc)?;
    let count = conditions.len();
    match check_range(first, last, count) {
        Ok(()) => {}
        Err(refusal) => return Err(refusal),
    }
    let (from, to) = ((first - 1) as usize, last as usize);
    let suited = SearchSettings {
        rt: settings.rt,
        threads: suiting(&derived.program().layout, to - from, settings.threads),
        steps: settings.steps,
        watcher: settings.watcher,
    };
    let all = conditions.as_slice();
    let found = match search_in(&suited, alloc, all, from, to) {
        Ok(found) => found,
        Err(refusal) => return Err(refusal),
    };
    let Search { pieces, unproved } = found;
    if !unproved.is_empty() {
        return Ok(ProofsFound::Failures(unproved));
    }
    let part = &all[from..to];
    let checker = InThreads {
        rt: settings.rt,
        threads: settings.threads,
    };
    if are_proved(&checker, alloc, count, from, part, &pieces)? {
        return Ok(ProofsFound::Proofs(pieces));
    }
    let lowest = given_up(alloc, from + 1)?;
    Ok(ProofsFound::Failures(lowest))
}

/// What is reported of a condition that isn't proved, after its name.
fn reported_of(alloc: Global, words: &Layout, judged: &Judged) -> Result<String, AllocError>
    ensures { IfOk result (λ t. string_bytes t ≡ judged_text words.now judged.now) }
{
    match judged {
        Judged::Fails(first, second) => {
            let states = failure_text(alloc, words, first, second)?;
            format!(in alloc; " {states}")
        }
        Judged::GaveUp => String::from_str(alloc, " gave up\n"),
        _ => String::from_str(
            alloc,
            ": no proof within the 16777216 bytes of a file was found; a smaller condition may help\n",
        ),
    }
}

/// The name at a number, from 1; no text where there is none.
pub fn name_at(names: &[String], number: usize) -> &str
    ensures { result.now ≡ name_at (map string_bytes names.now) number }
{
    if number == 0 || number > names.len() {
        return "";
    }
    names[number - 1].as_str()
}

/// A condition without a proof, of those with these names: its number, its name, and what is reported of it.
fn unproved_text(
    alloc: Global,
    words: &Layout,
    names: &[String],
    unproved: &Unproved,
) -> Result<String, AllocError>
    ensures { IfOk result (λ t. string_bytes t ≡ unproved_text words.now (map string_bytes names.now) unproved.now) }
{
    let name = name_at(names, unproved.number);
    let reported = reported_of(alloc, words, &unproved.judged)?;
    let mut digits = Buffer::new();
    let number = digits.format(unproved.number);
    format!(in alloc; "condition {number} {name}{reported}")
}

/// Conditions without a proof, of those with these names, one after another.
fn unproved_texts(
    alloc: Global,
    words: &Layout,
    names: &[String],
    unproved: &[Unproved],
) -> Result<String, AllocError>
    ensures { IfOk result (λ t. string_bytes t ≡ failures_text words.now (map string_bytes names.now) unproved.now) }
{
    let mut text = String::new(alloc);
    for one in unproved {
        let reported = unproved_text(alloc, words, names, one)?;
        text.push_str(&reported)?;
    }
    Ok(text)
}

/// What is reported of conditions without a proof: those that fail, at which states, those for which the search gave up, and those whose
/// proofs are too large, a line or more each.
///
/// # Errors
///
/// Only where memory is refused.
pub fn failures_text(
    alloc: Global,
    derived: &Derived,
    unproved: &[Unproved],
) -> Result<String, AllocError>
    ensures { IfOk result (λ t. string_bytes t
        ≡ failures_text (derived_program derived.now).words
        (names_of_conditions (derived_program derived.now) (derived_lines derived.now)) unproved.now) }
{
    let names = derived.names(alloc)?;
    unproved_texts(alloc, &derived.program().layout, &names, unproved)
}
