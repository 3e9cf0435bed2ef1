//! Tests of `if` and `while`.

ghost use Rattle.std.specs.Prelude.{◌≡◌, ◌++◌, [], string_bytes, IfOk, OnOk};
ghost use Rattle.rg_c_values.specs.View.{test};
ghost use Rattle.rg_c.specs.Questions.{is_bare, reads_loaded, loaded_reads, before, question, stops_unless};
ghost use Rattle.rg_c.specs.View.{question as question_of, of, on};

use crate::print::push_code;
use crate::reads::{held_reads, is_one_load, load_reads};
use crate::steps::{entered, is_true, left};
use crate::tree::{Asked, BREAKS, Code, Flag, Line, Sheet};
use crate::used::test_reads;
use Code::{Block, Single, Then};
use rg_c_plan::kind::Kind;
use rg_c_plan::way::Way;
use rg_c_values::print::Read;
use rg_c_values::tree::Test;
use rg_words::Layout;
use std::alloc::{AllocError, Global};

/// Whether a test can stand in the `if` itself; else it is worked out before, into a flag.
fn is_bare(way: Way, t: &Test) -> bool
    ensures { result ≡ is_bare way (test t.now) }
{
    match way {
        Way::Direct | Way::Select => true,
        Way::Load(word) => is_one_load(word, t),
        Way::Store(_) | Way::Exchange(_) | Way::Section => false,
    }
}

/// Where a test that is worked out before loads a word, whether it reads that.
fn reads_loaded(way: Way, t: &Test) -> bool
    ensures { result ≡ reads_loaded way (test t.now) }
{
    match way {
        Way::Load(word) => test_reads(word, t),
        _ => true,
    }
}

/// How the words of a test are read.
pub(crate) fn loaded_reads(
    alloc: Global,
    layout: &Layout,
    kinds: &[Kind],
    way: Way,
    t: &Test,
) -> Result<Vec<Read>, AllocError>
    ensures { IfOk result (λ reads. reads.items ≡ loaded_reads layout.now kinds.now way (test t.now)) }
{
    match way {
        Way::Load(word) if is_one_load(word, t) => load_reads(alloc, layout, word),
        _ => held_reads(alloc, layout, kinds, way, reads_loaded(way, t)),
    }
}

/// Adds what comes before a question, under the mark of its step.
pub(crate) fn push_before(
    s: &Sheet<'_>,
    text: &mut String,
    mark: &Code<'_>,
    place: usize,
    way: Way,
    t: &Test,
) -> Result<(), AllocError>
    ensures { OnOk result (string_bytes text.new ≡ string_bytes text.old ++ on s.now (before (of s.now mark.now) place way (test t.now))) }
{
    if is_bare(way, t) {
        return push_code(s, text, mark);
    }
    let declared = Single(Line::Declares(Flag::Go(place)));
    let enter = entered(s, way, reads_loaded(way, t));
    let decided = Single(Line::Decides(Flag::Go(place), t));
    let ending = Then(&decided, &left(s, way));
    push_code(
        s,
        text,
        &Then(&declared, &Block(&Then(mark, &Then(&enter, &ending)))),
    )
}

/// The question itself.
pub(crate) fn question(place: usize, way: Way, t: &Test) -> Asked<'_>
    ensures { question_of result ≡ question place way (test t.now) }
{
    if is_bare(way, t) {
        Asked::Asks(t)
    } else {
        Asked::Flagged(Flag::Go(place))
    }
}

/// Adds the end of the loop around it, where a question is answered by no.
pub(crate) fn push_stops(
    s: &Sheet<'_>,
    text: &mut String,
    asked: Asked<'_>,
) -> Result<(), AllocError>
    ensures { OnOk result (string_bytes text.new ≡ string_bytes text.old ++ on s.now (stops_unless (question_of asked.entry))) }
{
    match asked {
        Asked::Asks(t) if is_true(t) => Ok(()),
        _ => push_code(s, text, &Code::Unless(asked, &BREAKS)),
    }
}
