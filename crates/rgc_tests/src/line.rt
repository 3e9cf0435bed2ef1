//! What no command shows of the words: the most decisions, exactly.

use rgc_line::{Command, Line};
use std::alloc::Global;

/// The most decisions that the words ask for, of a command that searches.
fn steps_in(alloc: Global, words: &[&str]) -> Option<u64> {
    let line = Line::read(alloc, words, 0).ok()?;
    match line.command {
        Command::Prove { steps, .. } | Command::Find { steps, .. } => Some(steps),
        _ => None,
    }
}

#[test]
fn reads_the_most_decisions(rt: HostRuntime) {
    let rows = [
        (["rgc", "find", "a"].as_slice(), 1_000_000),
        (["rgc", "find", "a", "--steps", "7"].as_slice(), 7),
        (["rgc", "prove", "a", "b"].as_slice(), 1_000_000),
        (["rgc", "prove", "a", "--steps", "0", "b"].as_slice(), 0),
    ];
    for (words, steps) in &rows {
        assert!(rt; steps_in(rt.alloc(), words) == Some(*steps));
    }
}
