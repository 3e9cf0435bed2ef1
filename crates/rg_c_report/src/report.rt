//! What `rgc accesses` prints: each word with its kind and who reads and writes it, and how each step is done.

ghost use Rattle.std.specs.Prelude.{◌≡◌, ◌++◌, ◌<◌, [], not, length, map, string_bytes, IfOk, OnOk};
ghost use Rattle.std.specs.List.{filter};
ghost use Rattle.rg_tree.specs.ConditionTrees.{assignment};
ghost use Rattle.rg_tree.specs.ProgramView.{part as part_tree};
ghost use Rattle.rg_tree.specs.ProgramTrees.{program as program_tree};
ghost use Rattle.rg_c_plan.specs.View.{guard_tree, step, view};
ghost use Rattle.rg_c_plan.specs.Changes.{moving};
ghost use Rattle.rg_c_plan.specs.Accesses.{steps};
ghost use Rattle.rg_c_plan.specs.Views.{kinds_for};
ghost use Rattle.rg_c_report.specs.Lines.{line_shown};
ghost use Rattle.rg_c_report.specs.Words.{name_of};
ghost use Rattle.rg_c_report.specs.Reports.{kind_text, is_met, guarded_beside, word_beside, since_text, since_of, first_since, first_reason, reason_text, word_line, word_text, words_text, way_text, spared, spared_text, step_text, steps_text, handler_text, part_text, parts_text, report_text, met_text};

use crate::counts::{counts_of, push_counts};
use crate::lines::line_shown;
use crate::orders::interrupted;
use crate::parties::push_parties;
use crate::words::{name_of, push_all, push_counted, push_listed, push_name, push_number};
use itoa::Buffer;
use rg_c_plan::kind::Kind;
use rg_c_plan::order::Rank;
use rg_c_plan::step::{Step, steps_of};
use rg_c_plan::views::{PartView, kinds_for, views};
use rg_c_plan::way::{Way, kind_at, met_words, way_of};
use rg_tree::condition::Assign;
use rg_tree::part::Part;
use rg_tree::program::Program;
use rg_tree::tree::Formula;
use rg_words::Layout;
use std::alloc::{AllocError, Global};

/// A program, which of its parts interrupt which, the kinds of its words (of a part as it sees them), and the lines that are printed for those of the text.
#[derive(Clone, Copy)]
struct Page<'a> {
    alloc: Global,
    program: &'a Program,
    order: &'a [Option<Rank>],
    kinds: &'a [Kind],
    /// The kinds as a part sees them that interrupts none.
    bare: &'a [Kind],
    lines: &'a [u64],
}

/// A step that touches a word with another one: its line, and the other word.
#[derive(Clone, Copy)]
pub struct Since {
    pub line: u32,
    pub word: usize,
}

/// What is said of a kind.
pub fn kind_text(kind: Kind) -> &'static str
    ensures { result.now ≡ kind_text kind }
{
    match kind {
        Kind::Fixed => "fixed",
        Kind::Own => "plain",
        Kind::Apart => "plain: assertions keep its parts apart",
        Kind::Published | Kind::Sheltered | Kind::Atomic => "atomic",
        Kind::Guarded => "in critical sections",
    }
}

/// Whether a word is among those that a step meets others at.
fn is_met(word: usize, met: &[usize]) -> bool
    ensures { result ≡ is_met word met.now }
{
    for other in met {
        if *other == word {
            return true;
        }
    }
    false
}

/// The first guarded one of these words beside this one.
fn guarded_beside(kinds: &[Kind], word: usize, met: &[usize]) -> Option<usize>
    ensures { result ≡ guarded_beside kinds.now word met.now }
{
    for other in met {
        if *other != word && matches!(kind_at(kinds, *other), Kind::Guarded) {
            return Some(*other);
        }
    }
    None
}

/// The first guarded word that a step touches beside this one, where it touches this one.
fn word_beside(
    alloc: Global,
    kinds: &[Kind],
    word: usize,
    s: &Step<'_>,
) -> Result<Option<usize>, AllocError>
    ensures { IfOk result (λ other. other ≡ word_beside kinds.now word (step s.now)) }
{
    let met = met_words(alloc, kinds, s.guard, s.act)?;
    if is_met(word, &met) {
        Ok(guarded_beside(kinds, word, &met))
    } else {
        Ok(None)
    }
}

/// Adds which statement touches a word with this one.
fn push_since(text: &mut String, layout: &Layout, line: u64, word: usize) -> Result<(), AllocError>
    ensures { OnOk result (string_bytes text.new ≡ string_bytes text.old ++ since_text layout.now line word) }
{
    let mut digits = Buffer::new();
    push_all(
        text,
        &[
            "    since line ",
            digits.format(line),
            " accesses it with ",
            name_of(layout, word),
            "\n",
        ],
    )
}

/// Why a step keeps a word in critical sections, if it does.
fn since_of(
    alloc: Global,
    kinds: &[Kind],
    word: usize,
    s: &Step<'_>,
) -> Result<Option<Since>, AllocError>
    ensures { IfOk result (λ r. r ≡ since_of kinds.now word (step s.now)) }
{
    match word_beside(alloc, kinds, word, s)? {
        Some(other) => Ok(Some(Since {
            line: s.line,
            word: other,
        })),
        None => Ok(None),
    }
}

/// The first of these steps that does.
fn first_since(
    alloc: Global,
    kinds: &[Kind],
    word: usize,
    steps: &[Step<'_>],
) -> Result<Option<Since>, AllocError>
    ensures { IfOk result (λ r. r ≡ first_since kinds.now word (map step steps.now)) }
{
    for s in steps {
        if let Some(found) = since_of(alloc, kinds, word, s)? {
            return Ok(Some(found));
        }
    }
    Ok(None)
}

/// The first one of these parts.
fn first_reason(
    alloc: Global,
    views: &[PartView<'_>],
    word: usize,
) -> Result<Option<Since>, AllocError>
    ensures { IfOk result (λ r. r ≡ first_reason (map view views.now) word) }
{
    for v in views {
        if let Some(found) = first_since(alloc, &v.kinds, word, &v.steps)? {
            return Ok(Some(found));
        }
    }
    Ok(None)
}

/// Adds the first step of these parts for which a word is kept in critical sections, if there is one.
fn push_reason(
    page: &Page<'_>,
    text: &mut String,
    word: usize,
    views: &[PartView<'_>],
) -> Result<(), AllocError>
    ensures { OnOk result (string_bytes text.new
        ≡ string_bytes text.old ++ reason_text page.now.program.now.layout page.now.lines.now (map view views.now) word) }
{
    match first_reason(page.alloc, views, word)? {
        Some(found) => {
            let line = line_shown(page.lines, found.line);
            push_since(text, &page.program.layout, line, found.word)
        }
        None => Ok(()),
    }
}

/// Adds a word with its width, its kind, and who reads and writes it.
#[tactic(auto, unfolding(crate::specs::Reports::word_line))]
fn push_word_line(
    page: &Page<'_>,
    text: &mut String,
    kind: Kind,
    word: usize,
) -> Result<(), AllocError>
    requires { word < length page.now.program.now.layout }
    ensures { OnOk result (string_bytes text.new ≡ string_bytes text.old ++ word_line (program_tree page.now.program.now) kind word) }
{
    let layout = &page.program.layout;
    text.push_str("  ")?;
    push_name(text, layout, word)?;
    text.push_str(": ")?;
    push_counted(text, u64::from(layout.width(word)), " bit, ", " bits, ")?;
    text.push_str(kind_text(kind))?;
    text.push_str(", ")?;
    push_parties(page.alloc, text, page.program, word)?;
    text.push_str("\n")?;
    Ok(())
}

/// Adds a word, and why it is kept in critical sections, if it is; these are the program's parts.
#[tactic(auto, unfolding(crate::specs::Reports::word_text))]
fn push_word(
    page: &Page<'_>,
    text: &mut String,
    word: usize,
    views: &[PartView<'_>],
) -> Result<(), AllocError>
    requires { word < length page.now.program.now.layout }
    ensures { OnOk result (string_bytes text.new
        ≡ string_bytes text.old
        ++ word_text (program_tree page.now.program.now) page.now.kinds.now page.now.lines.now (map view views.now)
        word) }
{
    let kind = kind_at(page.kinds, word);
    push_word_line(page, text, kind, word)?;
    if matches!(kind, Kind::Guarded) {
        push_reason(page, text, word, views)?;
    }
    Ok(())
}

/// Adds all words; these are the program's parts.
fn push_words(page: &Page<'_>, text: &mut String, views: &[PartView<'_>]) -> Result<(), AllocError>
    ensures { OnOk result (string_bytes text.new
        ≡ string_bytes text.old
        ++ words_text (program_tree page.now.program.now) page.now.kinds.now page.now.lines.now (map view views.now)
        0 (length page.now.program.now.layout)) }
{
    for word in 0..page.program.layout.len() {
        push_word(page, text, word, views)?;
    }
    Ok(())
}

/// The names of these words.
fn names_of<'a>(
    alloc: Global,
    layout: &'a Layout,
    words: &[usize],
) -> Result<Vec<&'a str>, AllocError>
    ensures { IfOk result (λ names. map (λ t. t.now) names.items ≡ map (name_of layout.now) words.now) }
{
    let mut names = Vec::new(alloc);
    for word in words {
        names.push(name_of(layout, *word))?;
    }
    Ok(names)
}

/// Adds a text, and the words at which a step may meet others.
fn push_met(
    page: &Page<'_>,
    text: &mut String,
    before: &str,
    guard: Option<&Formula>,
    act: &[Assign],
) -> Result<(), AllocError>
    ensures { OnOk result (string_bytes text.new
        ≡ string_bytes text.old
        ++ met_text page.now.program.now.layout page.now.kinds.now before.now (guard_tree guard.entry)
        (moving (map assignment act.now))) }
{
    let met = met_words(page.alloc, page.kinds, guard, act)?;
    let names = names_of(page.alloc, &page.program.layout, &met)?;
    push_listed(text, before, &names)
}

/// Adds how a step is done with this guard or test, if it has one, and these assignments.
fn push_way(
    page: &Page<'_>,
    text: &mut String,
    way: Way,
    guard: Option<&Formula>,
    act: &[Assign],
) -> Result<(), AllocError>
    ensures { OnOk result (string_bytes text.new
        ≡ string_bytes text.old
        ++ way_text page.now.program.now.layout page.now.kinds.now (guard_tree guard.entry)
        (moving (map assignment act.now)) way) }
{
    let layout = &page.program.layout;
    match way {
        Way::Direct => push_all(text, &["meets no other part"]),
        Way::Load(word) => push_all(text, &["one load of ", name_of(layout, word)]),
        Way::Store(word) => push_all(text, &["one store to ", name_of(layout, word)]),
        Way::Exchange(word) => {
            push_all(
                text,
                &["one compare-and-exchange of ", name_of(layout, word)],
            )
        }
        Way::Select => push_met(page, text, "one load or store, of one of ", guard, act),
        Way::Section => push_met(page, text, "a critical section, for ", guard, act),
    }
}

/// Those of these words that aren't met.
fn unmet(alloc: Global, words: &[usize], met: &[usize]) -> Result<Vec<usize>, AllocError>
    ensures { IfOk result (λ list. list.items ≡ filter (λ k. not (is_met k met.now)) words.now) }
{
    let mut list = Vec::new(alloc);
    for word in words {
        if !is_met(*word, met) {
            list.push(*word)?;
        }
    }
    Ok(list)
}

/// The words at which a step would meet others if none stood still while it is made.
fn spared(
    page: &Page<'_>,
    guard: Option<&Formula>,
    act: &[Assign],
) -> Result<Vec<usize>, AllocError>
    ensures { IfOk result (λ list. list.items ≡ spared page.now.bare.now page.now.kinds.now (guard_tree guard.entry) (moving (map assignment act.now))) }
{
    let words = met_words(page.alloc, page.bare, guard, act)?;
    let met = met_words(page.alloc, page.kinds, guard, act)?;
    unmet(page.alloc, &words, &met)
}

/// Adds why a step meets nobody at these words, if there are any.
#[tactic(auto, unfolding(crate::specs::Reports::spared_text))]
fn push_spared(page: &Page<'_>, text: &mut String, words: &[usize]) -> Result<(), AllocError>
    ensures { OnOk result (string_bytes text.new ≡ string_bytes text.old ++ spared_text page.now.program.now.layout words.now) }
{
    if words.is_empty() {
        return Ok(());
    }
    let names = names_of(page.alloc, &page.program.layout, words)?;
    push_listed(text, "; none that accesses ", &names)?;
    text.push_str(" interrupts it")?;
    Ok(())
}

/// Adds a step with its line.
#[tactic(auto, unfolding(crate::specs::Reports::step_text))]
fn push_step(page: &Page<'_>, text: &mut String, s: &Step<'_>) -> Result<(), AllocError>
    ensures { OnOk result (string_bytes text.new
        ≡ string_bytes text.old
        ++ step_text page.now.program.now.layout page.now.lines.now page.now.bare.now page.now.kinds.now (step s.now)) }
{
    let way = way_of(page.kinds, s.guard, s.act);
    text.push_str("  line ")?;
    push_number(text, line_shown(page.lines, s.line))?;
    text.push_str(": ")?;
    push_way(page, text, way, s.guard, s.act)?;
    let words = spared(page, s.guard, s.act)?;
    push_spared(page, text, &words)?;
    text.push_str("\n")?;
    Ok(())
}

/// Adds steps.
fn push_steps(page: &Page<'_>, text: &mut String, steps: &[Step<'_>]) -> Result<(), AllocError>
    ensures { OnOk result (string_bytes text.new
        ≡ string_bytes text.old
        ++ steps_text page.now.program.now.layout page.now.lines.now page.now.bare.now page.now.kinds.now
        (map step steps.now)) }
{
    for s in steps {
        push_step(page, text, s)?;
    }
    Ok(())
}

/// Adds the steps of a part.
fn push_part_steps(page: &Page<'_>, text: &mut String, part: &Part) -> Result<(), AllocError>
    ensures { OnOk result (string_bytes text.new
        ≡ string_bytes text.old
        ++ steps_text page.now.program.now.layout page.now.lines.now page.now.bare.now page.now.kinds.now
        (steps (part_tree part.now).body)) }
{
    let steps = steps_of(page.alloc, &part.body)?;
    push_steps(page, text, &steps)
}

/// Adds the steps of a part at this place, by the kinds of words as it sees them.
fn push_seen_steps(
    page: &Page<'_>,
    text: &mut String,
    place: usize,
    part: &Part,
) -> Result<(), AllocError>
    ensures { OnOk result (string_bytes text.new
        ≡ string_bytes text.old
        ++ steps_text page.now.program.now.layout page.now.lines.now
        (kinds_for (program_tree page.now.program.now) [] page.now.kinds.now place)
        (kinds_for (program_tree page.now.program.now) page.now.order.now page.now.kinds.now place)
        (steps (part_tree part.now).body)) }
{
    let bare = kinds_for(page.alloc, page.program, &[], page.kinds, place)?;
    let kinds = kinds_for(page.alloc, page.program, page.order, page.kinds, place)?;
    let seen = Page {
        alloc: page.alloc,
        program: page.program,
        order: page.order,
        kinds: &kinds,
        bare: &bare,
        lines: page.lines,
    };
    push_part_steps(&seen, text, part)
}

/// Adds which parts a part interrupts, if there are any.
#[tactic(auto, unfolding(crate::specs::Reports::handler_text))]
fn push_handler(text: &mut String, names: &[&str]) -> Result<(), AllocError>
    ensures { OnOk result (string_bytes text.new ≡ string_bytes text.old ++ handler_text (map (λ t. t.now) names.now)) }
{
    if names.is_empty() {
        return Ok(());
    }
    push_listed(text, ", which interrupts ", names)
}

/// Adds a part at this place.
#[tactic(auto, unfolding(crate::specs::Reports::part_text))]
fn push_part(
    page: &Page<'_>,
    text: &mut String,
    place: usize,
    part: &Part,
) -> Result<(), AllocError>
    ensures { OnOk result (string_bytes text.new
        ≡ string_bytes text.old
        ++ part_text (program_tree page.now.program.now) page.now.order.now page.now.kinds.now page.now.lines.now
        place (part_tree part.now)) }
{
    let names = interrupted(page.alloc, page.program, page.order, place)?;
    text.push_str("part ")?;
    text.push_str(part.name.as_str())?;
    push_handler(text, &names)?;
    text.push_str("\n")?;
    push_seen_steps(page, text, place, part)
}

/// Adds parts.
fn push_parts(page: &Page<'_>, text: &mut String, parts: &[Part]) -> Result<(), AllocError>
    ensures { OnOk result (string_bytes text.new
        ≡ string_bytes text.old
        ++ parts_text (program_tree page.now.program.now) page.now.order.now page.now.kinds.now page.now.lines.now 0
        (map part_tree parts.now)) }
{
    for (place, part) in parts.iter().enumerate() {
        push_part(page, text, place, part)?;
    }
    Ok(())
}

/// The words of a program, with their kinds and who reads and writes them; how each step of each part is done, where the parts interrupt each other so; and how many
/// are done in each way. `lines` has the line that is printed for each line of the text, after a first one for none; where it is empty, the lines of the text are.
///
/// An error comes only where memory was refused.
pub fn report(
    alloc: Global,
    program: &Program,
    order: &[Option<Rank>],
    kinds: &[Kind],
    lines: &[u64],
) -> Result<String, AllocError>
    ensures { IfOk result (λ text. string_bytes text ≡ report_text (program_tree program.now) order.now kinds.now lines.now) }
{
    let page = Page {
        alloc,
        program,
        order,
        kinds,
        bare: kinds,
        lines,
    };
    let parts = views(alloc, program, order, kinds)?;
    let counts = counts_of(alloc, program, order, kinds)?;
    let mut text = String::new(alloc);
    text.push_str("words\n")?;
    push_words(&page, &mut text, &parts)?;
    push_parts(&page, &mut text, &program.parts)?;
    push_counts(&mut text, &counts)?;
    text.push_str("\n")?;
    Ok(text)
}
