//! Refused memory is reported. These tests allocate nothing of their own: under `rt try --test --fail-alloc N` what is refused is the call's.

use crate::commands::{COMMANDS, Printed};
use crate::program::{DERIVATION, PROOFS, TEXT};
use crate::writers::status_of;
use rg_code::checked::Checked;
use rg_words::{Device, Refusal, RefusalNumber};
use rgc::build;
use std::alloc::Global;
use std::sync::Wait;
use std::test::Fail;
use std::thread::Threads;

/// The whole text was printed, or refused memory was reported.
fn is_printed_or_reported(text: &str, status: u8, out: &[u8], faults: &[u8]) -> bool {
    if status == 0 {
        return out.starts_with(text.as_bytes()) && faults.starts_with(b"\0");
    }
    status == 3 && faults.starts_with(b"refused 99\n\0")
}

/// A command prints what it has to, or reports refused memory.
fn prints_or_reports<R: Threads + Wait + Sync>(rt: &R, alloc: Global, row: &Printed) -> bool {
    let mut out = [0u8; 600];
    let mut faults = [0u8; 100];
    let mut printed = Device::new(out.as_mut_slice());
    let mut reported = Device::new(faults.as_mut_slice());
    let status = status_of(rt, alloc, 2, row, &mut printed, &mut reported);
    is_printed_or_reported(row.text, status, out.as_slice(), faults.as_slice())
}

#[test]
fn refused_memory_is_reported_of_commands(rt: HostRuntime) -> Result<(), Fail> {
    for row in COMMANDS {
        assert!(rt; prints_or_reports(&rt, rt.alloc(), row));
    }
    Ok(())
}

/// A program's text comes to code, or its refusal is that of memory, without a file and a place.
fn builds_or_reports(alloc: Global) -> bool {
    match build(alloc, TEXT, DERIVATION, PROOFS) {
        Ok(emitted) => emitted.program().parts.len() == 2,
        Err(refusal) => refusal == Refusal::new(RefusalNumber::Memory),
    }
}

#[test]
fn refused_memory_is_reported_of_texts(rt: HostRuntime) {
    assert!(rt; builds_or_reports(rt.alloc()));
}
