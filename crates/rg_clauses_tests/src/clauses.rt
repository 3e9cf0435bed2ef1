//! Worked clauses, what is handed out of them, and their text by several writers.

use crate::conditions::shown;
use rg_clauses::Clauses;
use rg_words::{Fuse, Refusal, RefusalNumber, SourceFile, Taker};
use std::alloc::Global;
use std::test::Fail;

/// The text for `((x = 1) and (y = 1)) implies (x = 1)`.
const IMPLICATION: &[u8] =
    b"p cnf 4 7\n-3 1 0\n-3 2 0\n3 -1 -2 0\n-4 -1 0\n-4 3 0\n4 1 -3 0\n4 0\n";

/// The clauses that are satisfied where `((x = 1) and (y = 1)) implies (x = 1)` fails, x the variable 1 and y the variable 2.
fn implication(alloc: Global) -> Result<Clauses, Refusal> {
    let text = "words x:1 y:1 show (((x = 1) and (y = 1)) implies (x = 1))";
    let condition = shown(alloc, text)?;
    Clauses::of(alloc, &condition, SourceFile::Text, 1)
}

/// Whether these are seven clauses over four variables, of which two are inputs, and the third clause is the worked one.
fn are_seven(clauses: &Clauses) -> bool {
    clauses.variables() == 4
        && clauses.inputs() == 2
        && clauses.len() == 7
        && clauses.literals(2) == [3, -1, -2].as_slice()
}

/// Whether the list of all literals and the places of the clauses in it are the worked ones.
fn flat_is_the_worked_one(clauses: &Clauses) -> bool {
    let (literals, starts) = clauses.flat();
    let expected = [-3, 1, -3, 2, 3, -1, -2, -4, -1, -4, 3, 4, 1, -3, 4];
    literals == expected.as_slice() && starts == [0, 2, 4, 7, 9, 11, 14].as_slice()
}

#[test]
fn hands_out_the_worked_clauses(rt: HostRuntime) -> Result<(), Fail> {
    let clauses = implication(rt.alloc())?;
    assert!(rt; are_seven(&clauses) && flat_is_the_worked_one(&clauses));
    Ok(())
}

/// Whether the text of clauses is this, to a writer that takes so many bytes a call.
fn is_text(alloc: Global, clauses: &Clauses, most: usize, expected: &[u8]) -> bool {
    let mut taker = Taker::new(alloc, most);
    clauses.write_cnf(&mut taker).is_ok() && taker.bytes() == expected
}

/// Whether a writer that fails after so many calls, each of a byte, has these bytes, and its failure is reported.
fn stops_after(alloc: Global, clauses: &Clauses, written: &[u8]) -> bool {
    let mut fuse = Fuse::new(Taker::new(alloc, 1), written.len() as u64);
    let reported = clauses.write_cnf(&mut fuse).err();
    reported == Some(Refusal::new(RefusalNumber::Write)) && fuse.inner().bytes() == written
}

#[test]
fn writes_the_worked_text_and_stops_at_each_failure(rt: HostRuntime) -> Result<(), Fail> {
    let clauses = implication(rt.alloc())?;
    for most in [1, 2, 3, 1_000] {
        assert!(rt; is_text(rt.alloc(), &clauses, most, IMPLICATION));
    }
    for calls in 0..IMPLICATION.len() {
        assert!(rt; stops_after(rt.alloc(), &clauses, &IMPLICATION[..calls]));
    }
    Ok(())
}

#[test]
fn takes_given_clauses(rt: HostRuntime) -> Result<(), Fail> {
    let mut clauses = Clauses::new(rt.alloc(), 2);
    clauses.push(&[1, -2])?;
    clauses.push(&[])?;
    assert!(rt; clauses.inputs() == 2);
    assert!(rt; is_text(rt.alloc(), &clauses, 1_000, b"p cnf 2 2\n1 -2 0\n0\n"));
    Ok(())
}
