//! Steps, by the way in which they are done.

ghost use Rattle.std.specs.Prelude.{◌≡◌, ◌++◌, [], ◌∷◌, codes, length, map, nat_eq, string_bytes, IfOk, OnOk};
ghost use Rattle.rg_words.specs.Layout.{widths_of};
ghost use Rattle.rg_tree.specs.ConditionTrees.{assignment};
ghost use Rattle.rg_c_plan.specs.View.{guard_tree};
ghost use Rattle.rg_c_plan.specs.Changes.{moving};
ghost use Rattle.rg_c_plan.specs.Ways.{met_words};
ghost use Rattle.rg_c_report.specs.Counts.{is_section};
ghost use Rattle.rg_c_values.specs.View.{test};
ghost use Rattle.rg_c.specs.CStatements.{◌⨾◌, block};
ghost use Rattle.rg_c.specs.Steps.{is_true, marked, awaits, entered, left, waiting, if_done, tried, held, held_step, loaded, changed, tested, attempted, exchanging, bare, step_by, test_of, more_names, names_text, section_note, step_of};
ghost use Rattle.rg_c.specs.Together.{all_given};
ghost use Rattle.rg_c.specs.Fitting.{AssignmentsFit, GuardFits};
ghost use Rattle.rg_c.specs.View.{given, statement, of, on};

use crate::assigned::{all_translated, targets_beside};
use crate::print::push_code;
use crate::reads::{held_reads, is_one_load, kind_reads, load_reads, local_reads};
use crate::tree::{Asked, BREAKS, Code, Flag, Given, Line, Sheet, WAITING};
use crate::used::is_used;
use Code::{Block, Either, Forever, IfDone, Single, Then, ToLocals, ToWords, When, Which};
use rg_c_plan::change::moving;
use rg_c_plan::way::{Way, met_words, way_of};
use rg_c_values::arrays::push_member_of;
use rg_c_values::translate::test_in_c;
use rg_c_values::tree::Test;
use rg_tree::condition::Assign;
use rg_tree::tree::Formula;
use rg_words::Layout;
use std::alloc::{AllocError, Global};

const DECLARED: Code<'static> = Single(Line::Declares(Flag::Done));

/// Whether a test is always true.
pub(crate) fn is_true(t: &Test) -> bool
    ensures { result ≡ is_true (test t.now) }
{
    match t {
        Test::Truth(b) => *b,
        _ => false,
    }
}

/// The mark of a step, by its text; none where that is empty.
pub(crate) fn marked<'a>(s: &Sheet<'_>, mark: &'a str) -> Code<'a>
    ensures { of s.now result ≡ marked mark.now }
{
    if mark.len() == 0 {
        Code::Nothing
    } else {
        Single(Line::Hook(mark))
    }
}

/// How a step begins that is done in a section or over a local; a load has a local only where that is used.
pub(crate) fn entered(s: &Sheet<'_>, way: Way, used: bool) -> Code<'static>
    ensures { of s.now result ≡ entered way used }
{
    match way {
        Way::Load(word) if used => Single(Line::Loads(word)),
        Way::Load(word) => Single(Line::Discards(word)),
        Way::Section => Single(Line::Hook("RGC_ENTER(w)")),
        _ => Code::Nothing,
    }
}

/// How it ends.
pub(crate) fn left(s: &Sheet<'_>, way: Way) -> Code<'static>
    ensures { of s.now result ≡ left way }
{
    match way {
        Way::Section => Single(Line::Hook("RGC_LEAVE(w)")),
        _ => Code::Nothing,
    }
}

/// What is done where the step is made, if it is anything.
fn if_done<'a>(s: &Sheet<'_>, empty: bool, c: &'a Code<'a>) -> Code<'a>
    ensures { of s.now result ≡ if_done empty (of s.now c.now) }
{
    if empty { Code::Nothing } else { IfDone(c) }
}

/// A step: its mark, its test, and its assignments.
#[derive(Clone, Copy)]
struct Step<'a> {
    mark: &'a Code<'a>,
    test: &'a Test,
    gs: &'a [Given],
}

/// Adds waiting until its test is true, if it isn't always.
fn push_awaits(s: &Sheet<'_>, text: &mut String, step: &Step<'_>) -> Result<(), AllocError>
    ensures { OnOk result (string_bytes text.new ≡ string_bytes text.old ++ on s.now (awaits (of s.now step.now.mark.now) (test step.now.test.now))) }
{
    let leaving = When(Asked::Asks(&*step.test), &BREAKS);
    let waiting = Forever(&Then(&*step.mark, &Then(&leaving, &WAITING)));
    push_code(s, text, &Which(is_true(step.test), &*step.mark, &waiting))
}

/// Adds such a step that needs no test, whose words are read as they are here.
fn push_free(
    s: &Sheet<'_>,
    text: &mut String,
    step: &Step<'_>,
    way: Way,
    used: bool,
) -> Result<(), AllocError>
    ensures { OnOk result (string_bytes text.new
        ≡ string_bytes text.old
        ++ on s.now (block (of s.now step.now.mark.now ⨾ entered way used
        ⨾ all_given s.now.layout.now s.now.kinds.now 0 (map given step.now.gs.now) ⨾ left way))) }
{
    let enter = entered(s, way, used);
    let changes = ToWords(&*step.gs);
    let leave = left(s, way);
    let made = Then(&enter, &Then(&changes, &leave));
    push_code(s, text, &Block(&Then(&*step.mark, &made)))
}

/// Adds tries of such a step until its test is true: its beginning, what is done then, and its end.
fn push_tried<'x>(
    s: &Sheet<'_>,
    text: &mut String,
    step: &'x Step<'x>,
    enter: &'x Code<'x>,
    made: &'x Code<'x>,
    ending: &'x Code<'x>,
) -> Result<(), AllocError>
    ensures { OnOk result (string_bytes text.new
        ≡ string_bytes text.old
        ++ on s.now (tried (of s.now step.now.mark.now) (of s.now enter.now) (test step.now.test.now) (of s.now made.now)
        (of s.now ending.now))) }
{
    let decided = Single(Line::Decides(Flag::Done, step.test));
    let tried = Then(enter, &Then(&decided, &Then(made, ending)));
    push_code(
        s,
        text,
        &Forever(&Then(&DECLARED, &Then(step.mark, &tried))),
    )
}

/// Adds such a step, with its test if it needs one.
fn push_held(
    s: &Sheet<'_>,
    text: &mut String,
    step: &Step<'_>,
    way: Way,
    used: bool,
) -> Result<(), AllocError>
    ensures { OnOk result (string_bytes text.new
        ≡ string_bytes text.old
        ++ on s.now (held (of s.now step.now.mark.now) (entered way used) (left way) (test step.now.test.now)
        (nat_eq (length step.now.gs.now) 0)
        (all_given s.now.layout.now s.now.kinds.now 0 (map given step.now.gs.now)))) }
{
    if is_true(step.test) {
        return push_free(s, text, step, way, used);
    }
    let enter = entered(s, way, used);
    let changes = ToWords(&*step.gs);
    let made = if_done(s, step.gs.len() == 0, &changes);
    let leave = left(s, way);
    let leaving = IfDone(&BREAKS);
    let ending = Then(&leave, &Then(&leaving, &WAITING));
    push_tried(s, text, step, &enter, &made, &ending)
}

/// Adds a step that is done in a section, or over a local if that is used.
fn push_held_step(
    s: &Sheet<'_>,
    text: &mut String,
    step: &Step<'_>,
    way: Way,
    used: bool,
) -> Result<(), AllocError>
    ensures { OnOk result (string_bytes text.new
        ≡ string_bytes text.old
        ++ on s.now (held_step s.now.layout.now s.now.kinds.now (of s.now step.now.mark.now) way used
        (test step.now.test.now) (map given step.now.gs.now))) }
{
    let reads = held_reads(s.alloc, s.layout, s.kinds, way, used)?;
    let reading = Sheet {
        reads: &reads,
        ..*s
    };
    push_held(&reading, text, step, way, used)
}

/// Adds a step that loads this word.
fn push_loaded(
    s: &Sheet<'_>,
    text: &mut String,
    step: &Step<'_>,
    word: usize,
) -> Result<(), AllocError>
    ensures { OnOk result (string_bytes text.new
        ≡ string_bytes text.old
        ++ on s.now (loaded s.now.layout.now s.now.kinds.now (of s.now step.now.mark.now) word (test step.now.test.now)
        (map given step.now.gs.now))) }
{
    if step.gs.len() == 0 && is_one_load(word, step.test) {
        let reads = load_reads(s.alloc, s.layout, word)?;
        let reading = Sheet {
            reads: &reads,
            ..*s
        };
        return push_awaits(&reading, text, step);
    }
    let used = is_used(word, step.test, step.gs);
    push_held_step(s, text, step, Way::Load(word), used)
}

/// Adds exchanges of this word, with these other words in locals, until one is made: what is done in each try.
fn push_attempted<'x>(
    s: &Sheet<'_>,
    text: &mut String,
    mark: &'x Code<'x>,
    word: usize,
    others: &'x [usize],
    tried: &'x Code<'x>,
) -> Result<(), AllocError>
    ensures { OnOk result (string_bytes text.new ≡ string_bytes text.old ++ on s.now (attempted (of s.now mark.now) word others.now (of s.now tried.now))) }
{
    let leaving = IfDone(&BREAKS);
    let begins = Single(Line::Begins(word));
    let copies = Code::Copies(others);
    let attempt = Then(&begins, &Then(&copies, &Then(tried, &leaving)));
    push_code(s, text, &Forever(&Then(&DECLARED, &Then(mark, &attempt))))
}

/// Adds a step that is done by such exchanges.
fn push_exchanged<'x>(
    s: &Sheet<'_>,
    text: &mut String,
    step: &'x Step<'x>,
    word: usize,
    others: &'x [usize],
) -> Result<(), AllocError>
    ensures { OnOk result (string_bytes text.new
        ≡ string_bytes text.old
        ++ on s.now (attempted (of s.now step.now.mark.now) word others.now (tested (test step.now.test.now)
        (changed s.now.kinds.now word others.now (map given step.now.gs.now)) waiting))) }
{
    let changes = ToLocals(step.gs);
    let exchange = Single(Line::Exchanges(word));
    let returned = Code::Returned(others);
    let changed = Then(&changes, &Then(&exchange, &returned));
    if is_true(step.test) {
        return push_attempted(s, text, step.mark, word, others, &changed);
    }
    let either = Either(Asked::Asks(step.test), &changed, &WAITING);
    push_attempted(s, text, step.mark, word, others, &either)
}

/// Adds a step that is done by an exchange of this word.
fn push_exchanging(
    s: &Sheet<'_>,
    text: &mut String,
    step: &Step<'_>,
    word: usize,
) -> Result<(), AllocError>
    ensures { OnOk result (string_bytes text.new
        ≡ string_bytes text.old
        ++ on s.now (exchanging s.now.layout.now s.now.kinds.now (of s.now step.now.mark.now) word (test step.now.test.now)
        (map given step.now.gs.now))) }
{
    let others = targets_beside(s.alloc, word, step.gs)?;
    let reads = local_reads(s.alloc, s.layout, s.kinds, word, &others)?;
    let reading = Sheet {
        reads: &reads,
        ..*s
    };
    push_exchanged(&reading, text, step, word, &others)
}

/// Adds a step without locals.
fn push_bare(s: &Sheet<'_>, text: &mut String, step: &Step<'_>) -> Result<(), AllocError>
    ensures { OnOk result (string_bytes text.new
        ≡ string_bytes text.old
        ++ on s.now (bare s.now.layout.now s.now.kinds.now (of s.now step.now.mark.now) (test step.now.test.now)
        (map given step.now.gs.now))) }
{
    let reads = kind_reads(s.alloc, s.layout, s.kinds)?;
    let reading = Sheet {
        reads: &reads,
        ..*s
    };
    push_awaits(&reading, text, step)?;
    push_code(&reading, text, &ToWords(&*step.gs))
}

/// Adds a step that is done in this way.
fn push_by(s: &Sheet<'_>, text: &mut String, step: &Step<'_>, way: Way) -> Result<(), AllocError>
    ensures { OnOk result (string_bytes text.new
        ≡ string_bytes text.old
        ++ on s.now (step_by s.now.layout.now s.now.kinds.now (of s.now step.now.mark.now) way (test step.now.test.now)
        (map given step.now.gs.now))) }
{
    match way {
        Way::Load(word) => push_loaded(s, text, step, word),
        Way::Section => push_held_step(s, text, step, way, true),
        Way::Exchange(word) => push_exchanging(s, text, step, word),
        Way::Direct | Way::Store(_) | Way::Select => push_bare(s, text, step),
    }
}

/// The test of a guard; true where there is none.
fn test_of(alloc: Global, layout: &Layout, guard: Option<&Formula>) -> Result<Test, AllocError>
    requires { GuardFits (length layout.now) (guard_tree guard) }
    ensures { IfOk result (λ t. test t ≡ test_of (widths_of layout.now) (guard_tree guard.entry)) }
{
    match guard {
        None => Ok(Test::Truth(true)),
        Some(f) => test_in_c(alloc, layout, f),
    }
}

/// Adds words as members of the struct, each after a comma.
fn push_more_names(text: &mut String, layout: &Layout, words: &[usize]) -> Result<(), AllocError>
    ensures { OnOk result (string_bytes text.new ≡ string_bytes text.old ++ more_names layout.now words.now) }
{
    for word in words {
        text.push_str(", ")?;
        push_member_of(text, layout, *word)?;
    }
    Ok(())
}

/// Adds words as members of the struct, with commas between them.
fn push_names(text: &mut String, layout: &Layout, words: &[usize]) -> Result<(), AllocError>
    ensures { OnOk result (string_bytes text.new ≡ string_bytes text.old ++ names_text layout.now words.now) }
{
    match words.split_first() {
        None => Ok(()),
        Some((first, rest)) => {
            push_member_of(text, layout, *first)?;
            push_more_names(text, layout, rest)
        }
    }
}

/// Whether a step is done in a section.
fn is_section(way: Way) -> bool
    ensures { result ≡ is_section way }
{
    match way {
        Way::Section => true,
        _ => false,
    }
}

/// At which words a step in a section may meet others.
fn note_text(s: &Sheet<'_>, guard: Option<&Formula>, act: &[Assign]) -> Result<String, AllocError>
    ensures { IfOk result (λ text. string_bytes text
        ≡ codes "a critical section, for "
        ++ names_text s.now.layout.now
        (met_words s.now.kinds.now (guard_tree guard.entry) (moving (map assignment act.now)))) }
{
    let words = met_words(s.alloc, s.kinds, guard, act)?;
    let mut note = String::from_str(s.alloc, "a critical section, for ")?;
    push_names(&mut note, s.layout, &words)?;
    Ok(note)
}

/// Adds at which words a step in a section may meet others.
#[tactic(auto, unfolding(crate::specs::Steps::section_note))]
pub(crate) fn push_note(
    s: &Sheet<'_>,
    text: &mut String,
    guard: Option<&Formula>,
    act: &[Assign],
) -> Result<(), AllocError>
    ensures { OnOk result (string_bytes text.new
        ≡ string_bytes text.old
        ++ on s.now (section_note s.now.layout.now s.now.kinds.now (guard_tree guard.entry)
        (moving (map assignment act.now)))) }
{
    if !is_section(way_of(s.kinds, guard, act)) {
        return Ok(());
    }
    let note = note_text(s, guard, act)?;
    push_code(s, text, &Single(Line::Remark(&note)))
}

/// Adds a step under its mark, by the kinds of its words.
#[tactic(auto, unfolding(crate::specs::Steps::step_of))]
pub(crate) fn push_step(
    s: &Sheet<'_>,
    text: &mut String,
    mark: &str,
    guard: Option<&Formula>,
    act: &[Assign],
) -> Result<(), AllocError>
    requires guard { GuardFits (length s.now.layout.now) (guard_tree guard) }
    requires values { AssignmentsFit (length s.now.layout.now) (map assignment act.now) }
    ensures { OnOk result (string_bytes text.new
        ≡ string_bytes text.old
        ++ on s.now
        (step_of s.now.layout.now s.now.kinds.now mark.now (guard_tree guard.entry) (map assignment act.now))) }
{
    let moves = moving(s.alloc, act)?;
    let way = way_of(s.kinds, guard, act);
    let test = test_of(s.alloc, s.layout, guard)?;
    let gs = all_translated(s.alloc, s.layout, &moves)?;
    push_note(s, text, guard, act)?;
    let step = Step {
        mark: &marked(s, mark),
        test: &test,
        gs: &gs,
    };
    push_by(s, text, &step, way)
}
