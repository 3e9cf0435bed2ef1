//! How an outline names what the records of its program's runs speak of, and the lines of records in these names.

ghost use Rattle.std.specs.Prelude.{◌≡◌, ◌++◌, map, OnOk};
ghost use Rattle.rg_tree.specs.ProgramTrees.{program as program_tree};
ghost use Rattle.rg_monitor.specs.Lines.{change_text, change_if};
ghost use Rattle.rgc_outlines.specs.Reported.{changes_by, words_by, line_in, reported_line, reported_lines};

use rg_floor::closed::Closed;
use rg_monitor::lines::{name, push_cover, push_number};
use rg_monitor::record::Record;
use rg_outline_reports::{Outlined, Places};
use rg_tree::numbered::Numbered;
use rg_tree::program::Program;
use rg_words::State;
use rgc_answers::{MOST_DRAWN, Shown, draw};
use std::alloc::{AllocError, Global};
use std::marker::Model;

/// How an outline names what records speak of.
#[derive(Drop)]
pub struct Naming {
    words: Vec<Vec<u8>>,
    lines: Vec<u64>,
}

impl Model for Naming {
    ghost use Rattle.std.specs.Prelude.{map};
    ghost use Rattle.rgc_outlines.specs.Reported.{NamingView};

    ghost Value = { NamingView };

    ghost view = { λ n. record { words = map (λ w. w.items) n.words.items; lines = n.lines.items } };
}

impl Naming {
    /// The outline's name of each word, in the order of declaration, and the outline's line of each line of the text, of which the first is
    /// number 1; the one before it is 0, as an outline has no line for the environment.
    pub fn new(words: Vec<Vec<u8>>, lines: Vec<u64>) -> Naming
        ensures words { result.words ≡ map (λ w. w.items) words.items }
        ensures lines { result.lines ≡ lines.items }
    {
        Naming { words, lines }
    }
}

/// The outline's line of a line of the text; 0 where there is none.
fn line_of(lines: &[u64], line: usize) -> u64
    ensures { result ≡ line_in lines.now line }
{
    match lines.get(line) {
        Some(line) => *line,
        None => 0,
    }
}

/// Adds a word with its values before and after.
fn push_change(text: &mut Vec<u8>, name: &[u8], before: u64, after: u64) -> Result<(), AllocError>
    ensures { OnOk result (text.new.items ≡ text.old.items ++ change_text name.now before after) }
{
    text.extend_from_slice(b" ")?;
    text.extend_from_slice(name)?;
    text.extend_from_slice(b"=")?;
    push_number(text, before)?;
    text.extend_from_slice(b">")?;
    push_number(text, after)
}

/// Adds a word with its values before and after, where they differ.
fn push_if_changed(
    text: &mut Vec<u8>,
    name: &[u8],
    before: u64,
    after: u64,
) -> Result<(), AllocError>
    ensures { OnOk result (text.new.items ≡ text.old.items ++ change_if name.now before after) }
{
    if before == after {
        return Ok(());
    }
    push_change(text, name, before, after)
}

/// Adds the changed words with their values.
fn push_changes(
    text: &mut Vec<u8>,
    names: &[Vec<u8>],
    before: &State,
    after: &State,
) -> Result<(), AllocError>
    ensures { OnOk result (text.new.items ≡ text.old.items ++ changes_by (map (λ w. w.items) names.now) before.now.values after.now.values) }
{
    let count = names.len().min(before.len()).min(after.len());
    for word in 0..count {
        push_if_changed(text, &names[word], before.get(word), after.get(word))?;
    }
    Ok(())
}

/// Adds the changed words with their values, and `same` where none changed.
fn push_words(
    text: &mut Vec<u8>,
    names: &[Vec<u8>],
    before: &State,
    after: &State,
) -> Result<(), AllocError>
    ensures { OnOk result (text.new.items ≡ text.old.items ++ words_by (map (λ w. w.items) names.now) before.now.values after.now.values) }
{
    if before.same(after) {
        text.extend_from_slice(b" same")?;
        return Ok(());
    }
    push_changes(text, names, before, after)
}

/// Adds the line of a record, with its line end.
fn push_line(
    text: &mut Vec<u8>,
    naming: &Naming,
    program: &Program,
    step: &Record,
) -> Result<(), AllocError>
    ensures { OnOk result (text.new.items ≡ text.old.items ++ reported_line naming.now (program_tree program.now) step.now) }
{
    let parts = program.parts.as_slice();
    push_number(text, step.number())?;
    text.extend_from_slice(b" ")?;
    text.extend_from_slice(name(parts, step.who()).as_bytes())?;
    text.extend_from_slice(b" ")?;
    push_number(text, line_of(&naming.lines, step.line() as usize))?;
    push_words(text, &naming.words, step.before(), step.after())?;
    text.extend_from_slice(b" in")?;
    push_cover(text, parts, step.cover())?;
    text.extend_from_slice(b"\n")?;
    Ok(())
}

/// Adds a line for each of these records: the number, the part's name or `env`, the outline's line of the statement, `name=before>after` for each
/// changed word, by the outline's name, or `same`, and `in` with the names of the covering parts or `-`.
///
/// An error comes only where memory was refused; the text may then end in a part of a line.
pub fn push_reported(
    text: &mut Vec<u8>,
    naming: &Naming,
    program: &Program,
    steps: &[Record],
) -> Result<(), AllocError>
    ensures { OnOk result (text.new.items ≡ text.old.items ++ reported_lines naming.now (program_tree program.now) steps.now) }
{
    for step in steps {
        push_line(text, naming, program, step)?;
    }
    Ok(())
}

/// The picture of a run, as an outline names what it speaks of; of a long one the last steps.
/// An error comes only where memory is refused.
pub fn draw_reported(
    alloc: Global,
    naming: &Naming,
    closed: &Closed<'_>,
) -> Result<Vec<u8>, AllocError> {
    let left_out = closed.len().saturating_sub(MOST_DRAWN);
    let records = closed.records_from(alloc, left_out.saturating_add(1))?;
    let shown = Shown {
        program: closed.program(),
        words: &naming.words,
        lines: &naming.lines,
    };
    let mut picture = Vec::new(alloc);
    draw(&mut picture, shown, left_out as u64, &records)?;
    Ok(picture)
}

/// Puts the outline's line of a statement at the statement's line of the text, where none is there yet.
fn put_line(lines: &mut Vec<u64>, line: usize, reported: u64) -> Result<(), AllocError> {
    for _ in lines.len()..line.saturating_add(1) {
        lines.push(0)?;
    }
    if let Some(slot) = lines.get_mut(line) {
        if *slot == 0 {
            *slot = reported;
        }
    }
    Ok(())
}

/// The outline's line of each line of the text, from those of the statements by their numbers.
fn text_lines(
    alloc: Global,
    statements: &[Numbered],
    by_number: &[u64],
) -> Result<Vec<u64>, AllocError> {
    let mut lines = Vec::new(alloc);
    for statement in statements {
        if let Some(reported) = by_number.get(statement.number) {
            put_line(&mut lines, statement.line as usize, *reported)?;
        }
    }
    Ok(lines)
}

/// The outline's line of each line of its text that has a statement, after a first one for none; 0 for each other line, and, where only written statements are
/// asked for, for the `skip` of an `else` that isn't there, which else has that of its `if`.
/// An error comes only where memory is refused.
pub fn lines_of(
    alloc: Global,
    outlined: &Outlined<'_>,
    program: &Program,
    only_written: bool,
) -> Result<Vec<u64>, AllocError> {
    let Places {
        mut lines,
        added,
        ..
    } = outlined.places()?;
    if only_written {
        for number in &added {
            if let Some(slot) = lines.get_mut(*number) {
                *slot = 0;
            }
        }
    }
    let statements = program.numbered(alloc)?;
    text_lines(alloc, &statements, &lines)
}

/// How an outline names the words of its program, and its statements by their lines.
/// An error comes only where memory is refused.
pub fn naming_of(
    alloc: Global,
    outlined: &Outlined<'_>,
    program: &Program,
) -> Result<Naming, AllocError> {
    let Places { words, lines, .. } = outlined.places()?;
    let statements = program.numbered(alloc)?;
    let lines = text_lines(alloc, &statements, &lines)?;
    Ok(Naming::new(words, lines))
}
