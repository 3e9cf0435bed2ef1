//! Which parts run on one core, and which interrupt which there, as a text says: `isr > main, dma > net`.

ghost use Rattle.std.specs.Prelude.{◌≡◌, ◌++◌, None, Some, find, is_some, map, option_map, IfOk, IfErr, OnOk};
ghost use Rattle.rg_tree.specs.ProgramView.{part as part_tree};
ghost use Rattle.rg_tree.specs.ProgramTrees.{program as program_tree};
ghost use Rattle.rgc_commands.specs.Priority.{trimmed, cores_in, names_on, named_on, named_from, named_in, rank_named, ranks_of, is_alone, first_twice, is_part, first_stranger, alone_line, twice_line, stranger_line, fault_among, fault_in, misordered, IsOrdered, priority_for, said};
ghost use Rattle.rgc_commands.specs.Inner.Named.{named};
ghost use Rattle.rgc_commands.specs.Inner.Stops.{IsFaultStop};

use crate::stops::Stop;
use rg_c_plan::order::Rank;
use rg_outline_reports::Outlined;
use rg_tree::part::Part;
use rg_tree::program::Program;
use rgc_line::Settings;
use std::alloc::{AllocError, Global};

/// A part that is named, and its rank.
#[derive(Clone, Copy)]
pub struct Named<'a> {
    pub name: &'a str,
    pub rank: Rank,
}

/// A text without the white space at its ends.
fn trimmed(text: &str) -> &str
    ensures { result.now ≡ trimmed text.now }
{
    text.trim_ascii()
}

/// The cores, with commas between them.
fn cores_in(alloc: Global, text: &str) -> Result<Vec<&str>, AllocError>
    ensures { IfOk result (λ list. map (λ t. t.now) list.items ≡ cores_in text.now) }
{
    text.split(',').collect(alloc)
}

/// The names of the parts on a core, with `>` between them.
fn names_on(alloc: Global, core: &str) -> Result<Vec<&str>, AllocError>
    ensures { IfOk result (λ list. map (λ t. t.now) list.items ≡ names_on core.now) }
{
    core.split('>').collect(alloc)
}

/// Adds the parts on a core of this number, which have these names.
fn push_named<'a>(
    core: usize,
    names: &[&'a str],
    list: &mut Vec<Named<'a>>,
) -> Result<(), AllocError>
    ensures { OnOk result (map named list.new.items ≡ map named list.old.items ++ named_on core 0 (map (λ t. t.now) names.now)) }
{
    for (place, name) in names.iter().enumerate() {
        list.push(Named {
            name: trimmed(*name),
            rank: Rank { core, place },
        })?;
    }
    Ok(())
}

/// All parts that are named, core by core.
fn named_on_all<'a>(alloc: Global, cores: &[&'a str]) -> Result<Vec<Named<'a>>, AllocError>
    ensures { IfOk result (λ list. map named list.items ≡ named_from 0 (map (λ t. t.now) cores.now)) }
{
    let mut list = Vec::new(alloc);
    for (core, text) in cores.iter().enumerate() {
        let names = names_on(alloc, *text)?;
        push_named(core, &names, &mut list)?;
    }
    Ok(list)
}

/// The rank of a part of this name, where it is named.
fn rank_named(list: &[Named<'_>], name: &str) -> Option<Rank>
    ensures { result ≡ rank_named (map named list.now) name.now }
{
    for one in list {
        if one.name == name {
            return Some(one.rank);
        }
    }
    None
}

/// The rank of each part.
fn ranks_of(
    alloc: Global,
    list: &[Named<'_>],
    parts: &[Part],
) -> Result<Vec<Option<Rank>>, AllocError>
    ensures { IfOk result (λ order. order.items ≡ ranks_of (map named list.now) (map part_tree parts.now)) }
{
    let mut order = Vec::new(alloc);
    for part in parts {
        order.push(rank_named(list, part.name.as_str()))?;
    }
    Ok(order)
}

/// Whether a part is alone on a core.
fn is_alone(alloc: Global, core: &str) -> Result<bool, AllocError>
    ensures { IfOk result (λ r. r ≡ is_alone core.now) }
{
    let names = names_on(alloc, core)?;
    Ok(names.len() < 2)
}

/// The first core on which a part is alone.
fn first_alone<'a>(alloc: Global, cores: &[&'a str]) -> Result<Option<&'a str>, AllocError>
    ensures { IfOk result (λ core. option_map (λ t. t.now) core ≡ find is_alone (map (λ t. t.now) cores.now)) }
{
    for core in cores {
        if is_alone(alloc, *core)? {
            return Ok(Some(*core));
        }
    }
    Ok(None)
}

/// The first name that stands twice.
fn first_twice<'a>(list: &[Named<'a>]) -> Option<&'a str>
    ensures { option_map (λ t. t.now) result ≡ first_twice (map named list.now) }
{
    for i in 0..list.len() {
        if rank_named(&list[i + 1..], list[i].name).is_some() {
            return Some(list[i].name);
        }
    }
    None
}

/// Whether a part has this name.
fn is_part(parts: &[Part], name: &str) -> bool
    ensures { result ≡ is_part (map part_tree parts.now) name.now }
{
    for part in parts {
        if part.name.as_str() == name {
            return true;
        }
    }
    false
}

/// The first name that is that of no part.
fn first_stranger<'a>(parts: &[Part], list: &[Named<'a>]) -> Option<&'a str>
    ensures { option_map (λ t. t.now) result ≡ first_stranger (map part_tree parts.now) (map named list.now) }
{
    for one in list {
        if !is_part(parts, one.name) {
            return Some(one.name);
        }
    }
    None
}

/// A line of three pieces.
fn line_of(alloc: Global, before: &[u8], name: &str, after: &[u8]) -> Result<Vec<u8>, AllocError>
    ensures { IfOk result (λ line. line.items ≡ before.now ++ name.now ++ after.now) }
{
    let mut line = Vec::new(alloc);
    line.extend_from_slice(before)?;
    line.extend_from_slice(name.as_bytes())?;
    line.extend_from_slice(after)?;
    Ok(line)
}

/// That a part is alone on a core.
fn alone_line(alloc: Global, core: &str) -> Result<Vec<u8>, AllocError>
    ensures { IfOk result (λ line. line.items ≡ alone_line core.now) }
{
    line_of(
        alloc,
        b"error: --priority has ",
        trimmed(core),
        b" alone on a core: a part is followed by > and those that it interrupts, as in isr > main\n",
    )
}

/// That a part is named twice.
fn twice_line(alloc: Global, name: &str) -> Result<Vec<u8>, AllocError>
    ensures { IfOk result (λ line. line.items ≡ twice_line name.now) }
{
    line_of(alloc, b"error: --priority names ", name, b" twice\n")
}

/// That no part has a name.
fn stranger_line(alloc: Global, name: &str) -> Result<Vec<u8>, AllocError>
    ensures { IfOk result (λ line. line.items ≡ stranger_line name.now) }
{
    line_of(
        alloc,
        b"error: --priority names ",
        name,
        b", which is no part of the program\n",
    )
}

/// The line that reports why parts that are named so aren't those of a program, if it isn't so: one is alone on a core, is named twice, or isn't there.
fn fault_among(
    alloc: Global,
    parts: &[Part],
    cores: &[&str],
    list: &[Named<'_>],
) -> Result<Option<Vec<u8>>, AllocError>
    ensures { IfOk result (λ line. option_map (λ v. v.items) line ≡ fault_among (map part_tree parts.now) (map (λ t. t.now) cores.now) (map named list.now)) }
{
    if let Some(core) = first_alone(alloc, cores)? {
        return Ok(Some(alone_line(alloc, core)?));
    }
    if let Some(name) = first_twice(list) {
        return Ok(Some(twice_line(alloc, name)?));
    }
    match first_stranger(parts, list) {
        Some(name) => Ok(Some(stranger_line(alloc, name)?)),
        None => Ok(None),
    }
}

/// The rank of each part of a program, as a text says, or why it can't be so.
fn order_in(
    alloc: Global,
    parts: &[Part],
    text: &str,
) -> Result<Result<Vec<Option<Rank>>, Vec<u8>>, AllocError>
    ensures order { IfOk result (λ r. IfOk r (λ order. order.items ≡ ranks_of (named_in text.now) (map part_tree parts.now))) }
    ensures fit { IfOk result (λ r. OnOk r (fault_in (map part_tree parts.now) text.now ≡ None)) }
    ensures unfit { IfOk result (λ r. IfErr r (λ line. fault_in (map part_tree parts.now) text.now ≡ Some line.items)) }
{
    let cores = cores_in(alloc, text)?;
    let list = named_on_all(alloc, &cores)?;
    match fault_among(alloc, parts, &cores, &list)? {
        Some(line) => Ok(Err(line)),
        None => Ok(Ok(ranks_of(alloc, &list, parts)?)),
    }
}

/// Which parts of an outline interrupt which: as the settings say, else as it says itself; none where neither says anything.
pub(crate) fn priority_for<'a>(
    settings: &Settings<'a>,
    outlined: &'a Outlined<'_>,
) -> Option<&'a str>
    ensures { said result ≡ priority_for settings.now.priority outlined.now.files }
{
    if settings.priority.is_some() {
        return settings.priority;
    }
    let own = outlined.files.priority.as_str();
    if own.is_empty() { None } else { Some(own) }
}

/// The rank of each part of a program, as a text says, where there is one; none else.
pub(crate) fn order_for(
    alloc: Global,
    program: &Program,
    priority: Option<&str>,
) -> Result<Vec<Option<Rank>>, Stop>
    ensures order { IfOk result (λ order. IsOrdered (said priority.entry) (program_tree program.now) order.items) }
    ensures stopped { IfErr result (IsFaultStop (λ lines. misordered (program_tree program.now) (said priority.entry) ≡ Some lines)) }
{
    let Some(text) = priority else {
        return Ok(Vec::new(alloc));
    };
    match order_in(alloc, &program.parts, text)? {
        Ok(order) => Ok(order),
        Err(line) => Err(Stop::Fault(line)),
    }
}
