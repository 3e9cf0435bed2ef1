//! Proofs that are accepted, refused or found by any count of threads, and found range by range: the same answers.

use crate::program::{DERIVATION, LATE_FAULT, PROOFS, TEXT, TWO_FAULTS};
use rg_watch::Unwatched;
use rg_words::{Place, Refusal, RefusalNumber, SourceFile};
use rgc::{
    Derived, InThreads, ProofsFound, SearchSettings, accept, accept_all, build_by, derive_program,
    find_part, find_proofs,
};
use std::alloc::{AllocError, Global};
use std::sync::Wait;
use std::test::Fail;
use std::thread::Threads;

/// The counts of threads that are tried.
const COUNTS: [usize; 5] = [0, 1, 2, 4, 64];

/// The first fault of proofs that so many threads find.
fn all_report<R: Threads + Wait + Sync>(
    rt: &R,
    alloc: Global,
    threads: usize,
    proofs: &[u8],
) -> Option<Refusal> {
    accept_all(rt, alloc, threads, TEXT, DERIVATION, proofs).err()
}

/// A fault of proofs.
fn refused(number: RefusalNumber, place: Place) -> Option<Refusal> {
    Some(Refusal::at(number, SourceFile::Proofs, place))
}

#[test]
fn all_counts_of_threads_say_the_same(rt: HostRuntime) -> Result<(), Fail> {
    let rows = [
        (PROOFS, None),
        (
            TWO_FAULTS,
            refused(RefusalNumber::NoSection, Place::Condition(8)),
        ),
        (
            LATE_FAULT,
            refused(RefusalNumber::NoConflict, Place::Line(10)),
        ),
    ];
    for (proofs, fault) in &rows {
        assert!(rt; accept(rt.alloc(), TEXT, DERIVATION, proofs).err() == *fault);
        for threads in COUNTS {
            let found = all_report(&rt, rt.alloc(), threads, proofs);
            assert!(rt; found == *fault, "{threads} threads");
        }
    }
    Ok(())
}

#[test]
fn builds_in_threads(rt: HostRuntime) -> Result<(), Fail> {
    let prover = InThreads {
        rt: &rt,
        threads: 4,
    };
    assert!(rt; build_by(&prover, rt.alloc(), TEXT, DERIVATION, PROOFS).is_ok());
    Ok(())
}

/// The most decisions of a search.
const STEPS: u64 = 1_000;

/// The text of proofs that were found, in one piece; an empty one where there are failures.
fn text_of(alloc: Global, found: ProofsFound) -> Result<String, AllocError> {
    let mut text = String::new(alloc);
    if let ProofsFound::Proofs(pieces) = found {
        for piece in &pieces {
            text.push_str(piece)?;
        }
    }
    Ok(text)
}

/// What so many threads find.
fn found_by<R: Threads + Wait + Sync>(
    rt: &R,
    alloc: Global,
    threads: usize,
    derived: &Derived,
) -> Result<String, Refusal> {
    let found = find_proofs(rt, alloc, threads, derived, STEPS, &Unwatched)?;
    let text = text_of(alloc, found)?;
    Ok(text)
}

/// Whether so many threads find this.
fn all_find<R: Threads + Wait + Sync>(
    rt: &R,
    alloc: Global,
    threads: usize,
    derived: &Derived,
    text: &str,
) -> Result<bool, Refusal> {
    let found = found_by(rt, alloc, threads, derived)?;
    Ok(found.as_str() == text)
}

/// Whether the sections of three ranges are this.
fn ranges_find<R: Threads + Wait + Sync>(
    rt: &R,
    alloc: Global,
    derived: &Derived,
    text: &str,
) -> Result<bool, Refusal> {
    let watcher = Unwatched;
    let settings = SearchSettings {
        rt,
        threads: 2,
        steps: STEPS,
        watcher: &watcher,
    };
    let mut whole = String::new(alloc);
    for (first, last) in [(1, 7), (8, 8), (9, 17)] {
        let found = find_part(&settings, alloc, derived, first, last)?;
        let part = text_of(alloc, found)?;
        whole.push_str(&part)?;
    }
    Ok(whole.as_str() == text)
}

#[test]
fn all_counts_of_threads_and_ranges_in_order_find_the_same(rt: HostRuntime) -> Result<(), Fail> {
    let derived = derive_program(rt.alloc(), TEXT, &[DERIVATION])?;
    let one = found_by(&rt, rt.alloc(), 1, &derived)?;
    for threads in COUNTS {
        let same = all_find(&rt, rt.alloc(), threads, &derived, &one)?;
        assert!(rt; same, "{threads} threads");
    }
    let same = ranges_find(&rt, rt.alloc(), &derived, &one)?;
    assert!(rt; same && one.len() > 0);
    Ok(())
}
