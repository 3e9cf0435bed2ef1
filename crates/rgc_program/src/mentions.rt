//! The files that the words of a command name, and which of them are one file.

use crate::names::PieceNames;
use rgc_line::{Command, Line};
use rgc_system::{INPUT, INPUT_FILE, Identity, identity_of, report};
use std::alloc::{AllocError, Global};

/// How a file is named that an outline uses.
const USED: &str = "`use`";

/// A file as it is named: by an option, or at a place of the line.
#[derive(Clone, Copy)]
pub struct Mention<'a> {
    pub option: &'static str,
    pub name: &'a str,
}

/// Adds a file that may not be named.
fn add<'a>(
    mentions: &mut Vec<Mention<'a>>,
    option: &'static str,
    name: Option<&'a str>,
) -> Result<(), AllocError> {
    if let Some(name) = name {
        mentions.push(Mention { option, name })?;
    }
    Ok(())
}

/// Adds files that are named in one way.
fn add_all<'a>(
    mentions: &mut Vec<Mention<'a>>,
    option: &'static str,
    names: &[&'a str],
) -> Result<(), AllocError> {
    for name in names {
        mentions.push(Mention { option, name })?;
    }
    Ok(())
}

/// How the text that a command reads is named.
fn option_of_text(command: &Command<'_>) -> &'static str {
    match command {
        Command::Outline { .. }
        | Command::Verify { .. }
        | Command::Complete { .. }
        | Command::Challenge { .. } => "OUTLINE",
        Command::EmitOutline { .. }
        | Command::AccessesOutline { .. }
        | Command::RunOutline { .. } => "--outline",
        _ => "TEXT",
    }
}

/// How many files of the derivation that a command reads have a place on the line.
fn places_of_derivation(command: &Command<'_>) -> usize {
    match command {
        Command::Clauses { .. } | Command::Find { .. } => 0,
        _ => 1,
    }
}

/// The files that a command reads.
fn inputs_of<'a>(
    alloc: Global,
    line: &Line<'a>,
    names: &PieceNames<'a>,
) -> Result<Vec<Mention<'a>>, AllocError> {
    let named = line.command.named();
    let mut mentions = Vec::new(alloc);
    add(&mut mentions, option_of_text(&line.command), named.text)?;
    if named.derivation.is_some() {
        let count = places_of_derivation(&line.command).min(names.derivation.len());
        let (first, further) = names.derivation.split_at(count);
        add_all(&mut mentions, "DERIVATION", first)?;
        add_all(&mut mentions, "--derivation", further)?;
    }
    if named.proofs.is_some() {
        add_all(&mut mentions, "PROOFS", &names.proofs)?;
    }
    add(&mut mentions, "--start", named.start)?;
    add(&mut mentions, "--moves", named.moves)?;
    Ok(mentions)
}

/// Adds the files that a command writes.
fn add_outputs<'a>(
    mentions: &mut Vec<Mention<'a>>,
    line: &Line<'a>,
    names: &PieceNames<'a>,
) -> Result<(), AllocError> {
    match line.command {
        Command::Outline { text, map, .. } => {
            add(mentions, "--text", text)?;
            add_all(mentions, "--derivation", &names.derivation)?;
            add_all(mentions, "--proofs", &names.proofs)?;
            add(mentions, "--map", map)
        }
        Command::Verify { text, .. } => add(mentions, "--text", text),
        Command::Run { draw, .. } | Command::RunOutline { draw, .. } => {
            add(mentions, "--draw", draw)
        }
        _ => add_all(mentions, "--output", &names.outputs),
    }
}

/// A file that is named, with what tells it from others where something does.
#[derive(Drop)]
struct Seen<'a> {
    mention: Mention<'a>,
    identity: Option<Identity>,
}

/// What tells the files that are named from others. So many of them, the first ones, are read.
fn all_seen<'a>(
    rt: &HostRuntime,
    mentions: &[Mention<'a>],
    inputs: usize,
) -> Result<Vec<Seen<'a>>, AllocError> {
    let mut all = Vec::new(rt.alloc());
    for (place, mention) in mentions.iter().enumerate() {
        let is_standard = place < inputs && mention.name == INPUT;
        let name = if is_standard {
            INPUT_FILE
        } else {
            mention.name
        };
        let identity = identity_of(rt, name)?;
        all.push(Seen {
            mention: *mention,
            identity,
        })?;
    }
    Ok(all)
}

/// Whether two are of one file.
fn is_one(one: &Seen<'_>, other: &Seen<'_>) -> bool {
    match (&one.identity, &other.identity) {
        (Some(one), Some(other)) => one.is_of(other),
        _ => false,
    }
}

/// The first of these that is the same file; none where there is none.
fn first_same<'a>(all: &[Seen<'a>], file: &Seen<'_>) -> Option<Mention<'a>> {
    for other in all {
        if is_one(other, file) {
            return Some(other.mention);
        }
    }
    None
}

/// The first file that a command would write and that is one which it reads, or writes before: how it is named at both; none where there is
/// none.
pub fn clash_of<'a>(
    rt: &HostRuntime,
    line: &Line<'a>,
    names: &PieceNames<'a>,
) -> Result<Option<(Mention<'a>, Mention<'a>)>, AllocError> {
    let mut mentions = inputs_of(rt.alloc(), line, names)?;
    let inputs = mentions.len();
    add_outputs(&mut mentions, line, names)?;
    if mentions.len() == inputs {
        return Ok(None);
    }
    let all = all_seen(rt, &mentions, inputs)?;
    for (place, output) in all.iter().enumerate().skip(inputs) {
        let (before, _) = all.split_at(place.min(all.len()));
        if let Some(other) = first_same(before, output) {
            return Ok(Some((other, output.mention)));
        }
    }
    Ok(None)
}

/// Whether a file is one of these, which the outline uses.
fn is_used(rt: &HostRuntime, used: &[String], file: &Seen<'_>) -> Result<bool, AllocError> {
    for name in used {
        let identity = identity_of(rt, name.as_str())?;
        let mention = Mention {
            option: USED,
            name: name.as_str(),
        };
        if is_one(&Seen { mention, identity }, file) {
            return Ok(true);
        }
    }
    Ok(false)
}

/// As `clash_of`, of files that are read as the outline uses them.
pub fn clash_with<'a>(
    rt: &HostRuntime,
    line: &Line<'a>,
    names: &PieceNames<'a>,
    used: &[String],
) -> Result<Option<(Mention<'a>, Mention<'a>)>, AllocError> {
    if used.is_empty() {
        return Ok(None);
    }
    let mut mentions = Vec::new(rt.alloc());
    add_outputs(&mut mentions, line, names)?;
    let outputs = all_seen(rt, &mentions, 0)?;
    for output in &outputs {
        if is_used(rt, used, output)? {
            let read = Mention {
                option: USED,
                name: output.mention.name,
            };
            return Ok(Some((read, output.mention)));
        }
    }
    Ok(None)
}

/// Reports that a file that a command would write is one which it reads, or writes before.
pub fn report_clash(rt: &HostRuntime, clash: (Mention<'_>, Mention<'_>)) -> Result<(), AllocError> {
    let (earlier, output) = clash;
    let (one, other, name) = (earlier.option, output.option, output.name);
    let said = format!(in rt.alloc(); "error: {one} and {other} name one file: {name}\n")?;
    report(rt, said.as_bytes());
    Ok(())
}
