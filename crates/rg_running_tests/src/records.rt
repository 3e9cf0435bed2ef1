//! Records of steps: their lines, whether two say the same, and the order in which they are given, with the answers written by hand.

use rg_monitor::fits::fits;
use rg_monitor::gather::{Gather, Untaken};
use rg_monitor::lines::line;
use rg_monitor::record::Record;
use rg_parse::{program, start};
use rg_tree::program::Program;
use rg_words::{Refusal, RefusalNumber};
use std::alloc::Global;
use std::test::Fail;

/// Part a changes x alone, part p the word turn alone.
const TEXT: &str = "words x:8 turn:1 pre true rely true guar true post true
part a pre true rely true guar (turn' = turn) post true begin x := 1 end
part p pre true rely true guar (x' = x) post true begin turn := 1 end";

/// A step by its number, who made it, the line, and the states around it as texts.
pub(crate) type Step<'a> = (u64, usize, u32, &'a str, &'a str);

/// The record of a step.
pub(crate) fn record_of(alloc: Global, read: &Program, step: Step) -> Result<Record, Refusal> {
    let (number, who, line, before, after) = step;
    let before = start(alloc, &read.layout, before.as_bytes())?;
    let after = start(alloc, &read.layout, after.as_bytes())?;
    Ok(Record::of(alloc, read, number, who, line, &before, &after)?)
}

/// Whether this is the line of the step; empty where its record doesn't fit the program.
fn is_line(alloc: Global, read: &Program, step: Step, text: &str) -> Result<bool, Refusal> {
    let made = record_of(alloc, read, step)?;
    if !fits(read, &made) {
        return Ok(text.is_empty());
    }
    let found = line(alloc, read, &made)?;
    Ok(found.as_slice() == text.as_bytes())
}

#[test]
fn steps_have_lines(rt: HostRuntime) -> Result<(), Fail> {
    let rows = [
        ((1, 1, 8, "", "x = 1"), "1 a 8 x=0>1 in a\n"),
        ((1, 0, 0, "", "turn = 1"), "1 env 0 turn=0>1 in p\n"),
        ((2, 2, 4, "", ""), "2 p 4 same in a p\n"),
        (
            (30, 0, 0, "x = 255", "turn = 1"),
            "30 env 0 x=255>0 turn=0>1 in -\n",
        ),
        ((1, 3, 4, "", ""), ""),
    ];
    let read = program(rt.alloc(), TEXT.as_bytes())?;
    for (step, text) in &rows {
        assert!(rt; is_line(rt.alloc(), &read, *step, text)?);
    }
    Ok(())
}

/// Whether the records of two steps say the same.
fn are_same(alloc: Global, read: &Program, first: Step, second: Step) -> Result<bool, Refusal> {
    let first = record_of(alloc, read, first)?;
    let second = record_of(alloc, read, second)?;
    Ok(first.same(&second))
}

#[test]
fn records_differ_in_each_of_their_sides(rt: HostRuntime) -> Result<(), Fail> {
    let rows = [
        ((1, 1, 8, "", "x = 1"), true),
        ((2, 1, 8, "", "x = 1"), false),
        ((1, 0, 8, "", "x = 1"), false),
        ((1, 1, 9, "", "x = 1"), false),
        ((1, 1, 8, "x = 2", "x = 1"), false),
        ((1, 1, 8, "", "x = 2"), false),
    ];
    let read = program(rt.alloc(), TEXT.as_bytes())?;
    for (step, same) in &rows {
        assert!(rt; are_same(rt.alloc(), &read, (1, 1, 8, "", "x = 1"), *step)? == *same);
    }
    Ok(())
}

/// How many records are ready; none where the last one was a stranger.
type Ready = Option<u64>;

/// How many records are ready after one of this number is taken.
fn ready_after(
    alloc: Global,
    read: &Program,
    gather: &mut Gather,
    number: u64,
) -> Result<Ready, Refusal> {
    let made = record_of(alloc, read, (number, 0, 0, "", ""))?;
    match gather.take(made) {
        Ok(()) => {}
        Err(Untaken::Stranger) => return Ok(None),
        Err(Untaken::Memory) => return Err(Refusal::new(RefusalNumber::Memory)),
    }
    let mut count: u64 = 0;
    for _ in 0..4 {
        if gather.ready().is_some() {
            count = count.saturating_add(1);
        }
    }
    Ok(Some(count))
}

/// The numbers of records that are taken one by one, and how many are ready each time.
const TAKEN: &[(u64, Ready)] = &[
    (2, Some(0)),
    (1, Some(2)),
    (1, None),
    (4, Some(0)),
    (4, None),
    (5, Some(0)),
    (3, Some(3)),
    (0, Some(0)),
    (0, None),
    (6, Some(1)),
];

#[test]
fn records_are_given_in_order(rt: HostRuntime) -> Result<(), Fail> {
    let read = program(rt.alloc(), TEXT.as_bytes())?;
    let mut gather = Gather::new(rt.alloc());
    for (number, ready) in TAKEN {
        assert!(rt; ready_after(rt.alloc(), &read, &mut gather, *number)? == *ready);
    }
    Ok(())
}
