//! Hint lines: their normal form, files of 5,000 lines that are checked in one thread and in four, and pieces of sections.

ghost use Rattle.std.specs.Prelude.{◌≡◌, ◌+◌, ◌^◌, ◌<◌, length, IfOk};

use rg_clauses::Clauses;
use rg_hints::{Lines, check};
use rg_pool::{Unreported, check_all, check_piece};
use rg_words::{Place, Refusal, RefusalNumber, SourceFile};
use std::alloc::{AllocError, Global};
use std::sync::Wait;
use std::test::Fail;
use std::thread::Threads;

/// Whether the lines of a text have this normal form.
fn is_normal_form(alloc: Global, text: &[u8], expected: &str) -> Result<bool, Refusal>
    requires { 1 + length text.now < 2 ^ 64 }
{
    let lines = Lines::read(alloc, text, 1, 7)?;
    Ok(lines.text(alloc)?.as_str() == expected)
}

#[test]
fn normal_form(rt: HostRuntime) {
    let text = b"c first\n08 -0007\t0 07 5 1 4 00\r\n2147483647 0 0";
    let same = is_normal_form(rt.alloc(), text, "8 -7 0 7 5 1 4 0\n2147483647 0 0\n");
    assert!(rt; matches!(same, Ok(true)));
}

/// The clauses that are satisfied where `((x = 1) and (y = 1)) implies (x = 1)` fails.
pub(crate) fn implication(alloc: Global) -> Result<Clauses, AllocError> {
    let mut clauses = Clauses::new(alloc, 4);
    clauses.push(&[-3, 1])?;
    clauses.push(&[-3, 2])?;
    clauses.push(&[3, -1, -2])?;
    clauses.push(&[-4, -1])?;
    clauses.push(&[-4, 3])?;
    clauses.push(&[4, 1, -3])?;
    clauses.push(&[4])?;
    Ok(clauses)
}

/// Lines, from 1, that have other hints than those of a line that follows.
type Others<'a> = &'a [(u32, &'a str)];

/// Lines with the numbers from 8 on, so many, with the hints of a line that follows but for these others.
fn text_of(alloc: Global, count: u32, others: Others) -> Result<String, AllocError> {
    let mut text = String::new(alloc);
    for line in 1..=count {
        let mut hints = "7 5 1 4";
        for (other, its) in others {
            if *other == line {
                hints = *its;
            }
        }
        let number = u64::from(line) + 7;
        let row = format!(in alloc; "{number} 0 {hints} 0\n")?;
        text.push_str(&row)?;
    }
    Ok(text)
}

/// Such lines over these clauses; refused where their text is too long.
pub(crate) fn lines_of(
    alloc: Global,
    clauses: &Clauses,
    count: u32,
    others: Others,
) -> Result<Lines, Refusal>
    ensures { IfOk result (λ lines. lines.given ≡ length clauses.now.clauses) }
{
    let text = text_of(alloc, count, others)?;
    if text.len() > 1_000_000 {
        return Err(Refusal::new(RefusalNumber::Limit));
    }
    Lines::read(alloc, text.as_bytes(), 1, clauses.len())
}

/// What is refused of lines, and the line; none where all follow.
type Fault = Option<(RefusalNumber, u64)>;

/// Whether this is reported of lines.
fn is_reported(found: Result<(), Refusal>, fault: Fault) -> bool {
    match fault {
        None => found == Ok(()),
        Some((number, line)) => {
            found == Err(Refusal::at(number, SourceFile::Proofs, Place::Line(line)))
        }
    }
}

/// Whether both checks report this of 5,000 lines, of which these have other hints.
fn both_report<R: Threads + Wait + Sync>(
    rt: &R,
    alloc: Global,
    others: Others,
    fault: Fault,
) -> Result<bool, Refusal> {
    let clauses = implication(alloc)?;
    let lines = lines_of(alloc, &clauses, 5_000, others)?;
    let one = check(alloc, 1, &clauses, &lines);
    let all = check_all(rt, alloc, 1, &clauses, &lines, &Unreported);
    Ok(is_reported(one, fault) && is_reported(all, fault))
}

/// A line with a hint that isn't unit, and one with a hint that is no earlier line.
const FAR_FAULTS: Others<'static> = &[(3_000, "7 1 5 4"), (4_500, "9000")];

/// The three forms of a file of 5,000 lines, with what is reported: all lines follow, the least bad line, the last line.
const FILES: &[(Others<'static>, Fault)] = &[
    (&[], None),
    (FAR_FAULTS, Some((RefusalNumber::HintNotUnit, 3_000))),
    (&[(5_000, "7")], Some((RefusalNumber::NoConflict, 5_000))),
];

#[test]
fn the_least_bad_line_of_5000_is_reported(rt: HostRuntime) -> Result<(), Fail> {
    for (others, fault) in FILES {
        let same = both_report(&rt, rt.alloc(), others, *fault)?;
        assert!(rt; same);
    }
    Ok(())
}

/// Whether this is reported of a piece of so many lines, from one place to another, of which these have other hints.
fn piece_reports(
    alloc: Global,
    (count, others): (u32, Others),
    from: usize,
    to: usize,
    fault: Fault,
) -> Result<bool, Refusal> {
    let clauses = implication(alloc)?;
    let lines = lines_of(alloc, &clauses, count, others)?;
    Ok(
        from <= to
            && to <= lines.len()
            && is_reported(check_piece(alloc, &clauses, &lines, from, to), fault),
    )
}

/// Two faults of five lines, as of 5,000.
const NEAR_FAULTS: Others<'static> = &[(3, "7 1 5 4"), (4, "9000")];

/// Pieces of sections: how many lines there are and which have other hints, the places of the first line and after the last, and the fault.
const PIECES: &[((u32, Others<'static>), usize, usize, Fault)] = &[
    ((5, &[]), 2, 5, None),
    ((5, NEAR_FAULTS), 0, 2, None),
    (
        (5, NEAR_FAULTS),
        2,
        5,
        Some((RefusalNumber::HintNotUnit, 3)),
    ),
    (
        (5, NEAR_FAULTS),
        3,
        5,
        Some((RefusalNumber::HintNotEarlier, 4)),
    ),
    ((5, NEAR_FAULTS), 4, 5, None),
    ((5, &[(5, "7")]), 2, 5, Some((RefusalNumber::NoConflict, 5))),
    ((5_000, FAR_FAULTS), 0, 2_999, None),
    (
        (5_000, FAR_FAULTS),
        1_000,
        5_000,
        Some((RefusalNumber::HintNotUnit, 3_000)),
    ),
    (
        (5_000, FAR_FAULTS),
        3_000,
        5_000,
        Some((RefusalNumber::HintNotEarlier, 4_500)),
    ),
];

#[test]
fn a_piece_reports_its_least_bad_line(rt: HostRuntime) -> Result<(), Fail> {
    for (section, from, to, fault) in PIECES {
        assert!(rt; piece_reports(rt.alloc(), *section, *from, *to, *fault)?);
    }
    Ok(())
}
