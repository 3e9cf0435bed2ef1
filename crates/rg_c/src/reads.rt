//! How the words of a test are read.

ghost use Rattle.std.specs.Prelude.{◌≡◌, ◌∷◌, [], slice_set, IfOk};
ghost use Rattle.rg_c_values.specs.declared.print.Read.TheVariants.{Local};
ghost use Rattle.rg_c_values.specs.View.{test, value};
ghost use Rattle.rg_c.specs.Reads.{is_load_of, is_literal, is_one_load, load_reads, kind_read, kind_reads, local_reads};
ghost use Rattle.rg_c.specs.Steps.{held_reads};

use crate::assigned::is_stored;
use rg_c_plan::kind::Kind;
use rg_c_plan::way::Way;
use rg_c_values::print::Read;
use rg_c_values::tree::{Test, Value};
use rg_words::Layout;
use std::alloc::{AllocError, Global};

/// Whether a value is this word.
pub(crate) fn is_load_of(word: usize, v: &Value) -> bool
    ensures { result ≡ is_load_of word (value v.now) }
{
    match v {
        Value::Word(_, k) => word == *k,
        _ => false,
    }
}

/// Whether a value is a number.
fn is_literal(v: &Value) -> bool
    ensures { result ≡ is_literal (value v.now) }
{
    match v {
        Value::Literal(_) => true,
        _ => false,
    }
}

/// Whether a test loads this word once: it compares it with a number.
pub(crate) fn is_one_load(word: usize, t: &Test) -> bool
    ensures { result ≡ is_one_load word (test t.now) }
{
    match t {
        Test::Compared(_, a, b) => is_load_of(word, a) && is_literal(b),
        _ => false,
    }
}

/// How words are read where this one is loaded.
pub(crate) fn load_reads(
    alloc: Global,
    layout: &Layout,
    word: usize,
) -> Result<Vec<Read>, AllocError>
    ensures { IfOk result (λ reads. reads.items ≡ load_reads layout.now word) }
{
    let mut reads = vec![in alloc; Read::Plain; layout.len()]?;
    set_read(&mut reads, word, Read::Load);
    Ok(reads)
}

/// A word is read so.
fn set_read(reads: &mut [Read], word: usize, read: Read)
    ensures { reads.new ≡ slice_set reads.old word read }
{
    if word < reads.len() {
        reads[word] = read;
    }
}

/// How a word is read by its kind.
fn kind_read(kinds: &[Kind], word: usize) -> Read
    ensures { result ≡ kind_read kinds.now word }
{
    if is_stored(kinds, word) {
        Read::Load
    } else {
        Read::Plain
    }
}

/// How words are read by their kinds: by a load where each access is atomic, and plainly else.
pub(crate) fn kind_reads(
    alloc: Global,
    layout: &Layout,
    kinds: &[Kind],
) -> Result<Vec<Read>, AllocError>
    ensures { IfOk result (λ reads. reads.items ≡ kind_reads layout.now kinds.now) }
{
    let mut reads = Vec::new(alloc);
    for word in 0..layout.len() {
        reads.push(kind_read(kinds, word))?;
    }
    Ok(reads)
}

/// How words are read where this word and the others have locals.
pub(crate) fn local_reads(
    alloc: Global,
    layout: &Layout,
    kinds: &[Kind],
    first: usize,
    others: &[usize],
) -> Result<Vec<Read>, AllocError>
    ensures { IfOk result (λ reads. reads.items ≡ local_reads layout.now kinds.now (first ∷ others.now)) }
{
    let mut reads = kind_reads(alloc, layout, kinds)?;
    set_read(&mut reads, first, Read::Local);
    for word in others {
        set_read(&mut reads, *word, Read::Local);
    }
    Ok(reads)
}

/// How words are read by a step that is done in a section, or over a local if that is used.
pub(crate) fn held_reads(
    alloc: Global,
    layout: &Layout,
    kinds: &[Kind],
    way: Way,
    used: bool,
) -> Result<Vec<Read>, AllocError>
    ensures { IfOk result (λ reads. reads.items ≡ held_reads layout.now kinds.now way used) }
{
    match way {
        Way::Load(word) if used => local_reads(alloc, layout, kinds, word, &[]),
        _ => kind_reads(alloc, layout, kinds),
    }
}
