//! Who reads and who writes a word.

ghost use Rattle.std.specs.Prelude.{◌≡◌, ◌<◌, length, map, IfOk};
ghost use Rattle.std.specs.List.{list_any};
ghost use Rattle.rg_tree.specs.View.{formula};
ghost use Rattle.rg_tree.specs.ProgramTrees.{program as program_tree};
ghost use Rattle.rg_c_plan.specs.View.{step};
ghost use Rattle.rg_c_plan.specs.Accesses.{part_access, world_access, accesses, is_touched, meet, some_meet};

use crate::mention::{is_kept, is_seen, reads, writes};
use crate::step::{Step, steps_of};
use rg_tree::program::Program;
use rg_tree::tree::Formula;
use rg_words::Layout;
use std::alloc::{AllocError, Global};

/// How a party, the world outside or a part, accesses a word.
#[derive(Clone, Copy, Debug, PartialEq, Eq)]
pub struct Access {
    pub reads: bool,
    pub writes: bool,
}

/// Whether some step reads a word.
fn some_reads(word: usize, steps: &[Step<'_>]) -> bool
    ensures { result ≡ (part_access word (map step steps.now)).reads }
{
    for s in steps {
        if reads(word, s.guard, s.act) {
            return true;
        }
    }
    false
}

/// Whether some step writes a word.
fn some_writes(word: usize, steps: &[Step<'_>]) -> bool
    ensures { result ≡ (part_access word (map step steps.now)).writes }
{
    for s in steps {
        if writes(word, s.act) {
            return true;
        }
    }
    false
}

/// How a part with these steps accesses a word.
fn part_access(word: usize, steps: &[Step<'_>]) -> Access
    ensures { result ≡ part_access word (map step steps.now) }
{
    Access {
        reads: some_reads(word, steps),
        writes: some_writes(word, steps),
    }
}

/// How the world outside accesses a word: it writes it where it isn't fixed and no conjunct of the rely says that it stays what it is, and reads it where
/// another conjunct speaks of it.
pub fn world_access(word: usize, layout: &Layout, rely: &Formula) -> Access
    requires { word < length layout.now }
    ensures { result ≡ world_access word layout.now (formula rely.now) }
{
    Access {
        reads: is_seen(word, rely),
        writes: !layout.is_fixed(word) && !is_kept(word, rely),
    }
}

/// How each party accesses a word: first the world outside, then the parts in their order.
///
/// An error comes only where memory was refused.
pub fn accesses(alloc: Global, program: &Program, word: usize) -> Result<Vec<Access>, AllocError>
    requires { word < length program.now.layout }
    ensures { IfOk result (λ list. list.items ≡ accesses (program_tree program.now) word) }
{
    let mut list = Vec::new(alloc);
    list.push(world_access(word, &program.layout, &program.spec.rely))?;
    for part in &program.parts {
        let steps = steps_of(alloc, &part.body)?;
        list.push(part_access(word, &steps))?;
    }
    Ok(list)
}

/// Whether a party reads or writes the word.
pub(crate) fn is_touched(a: Access) -> bool
    ensures { result ≡ is_touched a }
{
    a.reads || a.writes
}

/// Whether two parties meet: both touch the word, and one of them writes it.
fn meet(a: Access, b: Access) -> bool
    ensures { result ≡ meet a b }
{
    is_touched(a) && b.writes || a.writes && is_touched(b)
}

/// Whether a party meets one of these.
pub(crate) fn meets_any(a: Access, list: &[Access]) -> bool
    ensures { result ≡ list_any (meet a) list.now }
{
    for b in list {
        if meet(a, *b) {
            return true;
        }
    }
    false
}

/// Whether some two of these parties meet.
pub(crate) fn some_meet(list: &[Access]) -> bool
    ensures { result ≡ some_meet list.now }
{
    for i in 0..list.len() {
        if meets_any(list[i], &list[i + 1..]) {
            return true;
        }
    }
    false
}
