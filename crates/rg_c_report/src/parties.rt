//! Who reads and who writes a word.

ghost use Rattle.std.specs.Prelude.{◌≡◌, ◌++◌, ◌<◌, length, map, string_bytes, IfOk, OnOk};
ghost use Rattle.rg_tree.specs.ProgramTrees.{program as program_tree};
ghost use Rattle.rg_c_report.specs.Inner.Party.{party as party_tree};
ghost use Rattle.rg_c_report.specs.Parties.{parties, readers, writers, names_text, parties_text};

use crate::words::push_listed;
use rg_c_plan::access::{Access, accesses};
use rg_tree::program::Program;
use std::alloc::{AllocError, Global};

/// A part, or the world outside, and how it accesses a word.
#[derive(Clone, Copy)]
struct Party<'a> {
    name: &'a str,
    access: Access,
}

/// Each party: the parts in their order, and then the world outside.
fn parties(alloc: Global, program: &Program, word: usize) -> Result<Vec<Party<'_>>, AllocError>
    requires { word < length program.now.layout }
    ensures { IfOk result (λ list. map party_tree list.items ≡ parties (program_tree program.now) word) }
{
    let known = accesses(alloc, program, word)?;
    let mut list = Vec::new(alloc);
    let mut place = 1;
    for part in &program.parts {
        list.push(Party {
            name: part.name.as_str(),
            access: known[place],
        })?;
        place += 1;
    }
    list.push(Party {
        name: "outside",
        access: known[0],
    })?;
    Ok(list)
}

/// The names of those that read.
fn readers<'a>(alloc: Global, list: &[Party<'a>]) -> Result<Vec<&'a str>, AllocError>
    ensures { IfOk result (λ names. map (λ t. t.now) names.items ≡ readers (map party_tree list.now)) }
{
    let mut names = Vec::new(alloc);
    for party in list {
        if party.access.reads {
            names.push(party.name)?;
        }
    }
    Ok(names)
}

/// The names of those that write.
fn writers<'a>(alloc: Global, list: &[Party<'a>]) -> Result<Vec<&'a str>, AllocError>
    ensures { IfOk result (λ names. map (λ t. t.now) names.items ≡ writers (map party_tree list.now)) }
{
    let mut names = Vec::new(alloc);
    for party in list {
        if party.access.writes {
            names.push(party.name)?;
        }
    }
    Ok(names)
}

/// Adds who reads and who writes.
fn push_names(text: &mut String, readers: &[&str], writers: &[&str]) -> Result<(), AllocError>
    ensures { OnOk result (string_bytes text.new ≡ string_bytes text.old ++ names_text (map (λ t. t.now) readers.now) (map (λ t. t.now) writers.now)) }
{
    match (readers, writers) {
        ([], []) => {
            text.push_str("unused")?;
        }
        ([_, ..], []) => push_listed(text, "read by ", readers)?,
        ([], [_, ..]) => push_listed(text, "written by ", writers)?,
        ([_, ..], [_, ..]) => {
            push_listed(text, "read by ", readers)?;
            push_listed(text, "; written by ", writers)?;
        }
    }
    Ok(())
}

/// Adds who reads a word and who writes it, by the names of the parts in their order, with `outside` last for the world outside.
///
/// An error comes only where memory was refused.
pub fn push_parties(
    alloc: Global,
    text: &mut String,
    program: &Program,
    word: usize,
) -> Result<(), AllocError>
    requires { word < length program.now.layout }
    ensures { OnOk result (string_bytes text.new ≡ string_bytes text.old ++ parties_text (program_tree program.now) word) }
{
    let list = parties(alloc, program, word)?;
    let readers = readers(alloc, &list)?;
    let writers = writers(alloc, &list)?;
    push_names(text, &readers, &writers)
}
