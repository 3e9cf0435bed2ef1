//! What is refused of formulas by themselves and of programs, also where memory is refused.

use rg_parse::{formula, program, show};
use rg_words::{Place, Refusal, RefusalNumber, SourceFile};
use std::alloc::Global;

/// What is refused of a text, and its line; none where it is read.
type Fault = Option<(RefusalNumber, u64)>;

fn refusal(fault: Fault) -> Option<Refusal> {
    let (number, line) = fault?;
    Some(Refusal::at(number, SourceFile::Text, Place::Line(line)))
}

/// Formulas with the number and the line of what is refused of them; none where one is read.
const FORMULAS: &[(&str, Fault)] = &[
    ("(x' = 1)", None),
    ("(x = 1)", None),
    ("", Some((RefusalNumber::Unfinished, 1))),
    ("not\n", Some((RefusalNumber::Unfinished, 1))),
    ("(x\n)", Some((RefusalNumber::Unexpected, 2))),
    ("true\ntrue", Some((RefusalNumber::Unexpected, 2))),
    ("(x' =\n256)", Some((RefusalNumber::NumberTooLarge, 2))),
    ("(x =\nz')", Some((RefusalNumber::UnknownName, 2))),
];

/// Whether a formula over the word x of eight bits has this fault.
fn has_fault(alloc: Global, text: &str, fault: Fault) -> Result<bool, Refusal> {
    let (layout, _tree) = show(alloc, b"words x:8 show true")?;
    Ok(formula(alloc, &layout, text.as_bytes()).err() == refusal(fault))
}

#[test]
fn a_formula_is_read_by_itself(rt: HostRuntime) {
    for (text, fault) in FORMULAS {
        assert!(rt; matches!(has_fault(rt.alloc(), text, *fault), Ok(true)));
    }
}

/// Two parts, which each set a word: eleven lines.
const TWO_PARTS: &str =
    "words x:1 y:1\npre true\nrely ((x' = x) and (y' = y))\nguar true\npost ((x = 1) and (y = 1))\npart a\npre true rely (x' = x) guar (y' = y) post (x = 1)\nbegin x := 1 end\npart b\npre true rely (y' = y) guar (x' = x) post (y = 1)\nbegin y := 1 end\n";

/// A sequence inside a branch inside a sequence: seven lines.
const ITEMS: &str =
    "words x:2\npre true rely true guar true post true\npart p pre true rely true guar true post true\nbegin\nx := 1;\nif (x = 1) then skip; x := 2 else skip end\nend\n";

/// A part that speaks of a fixed word, up to its body on the fourth line.
const FIXED: &str =
    "words x:2 fixed n:2\npre (x = n) rely (x' = x) guar true post (x = (n + 1))\npart p pre (x = n) rely (x' = x) guar true post (x = (n + 1))\nbegin ";

/// Programs with their faults.
const PROGRAMS: &[(&str, Fault)] = &[
    (TWO_PARTS, None),
    (ITEMS, None),
    (FIXED, Some((RefusalNumber::Unfinished, 4))),
    ("words x:1 show true", Some((RefusalNumber::Unexpected, 1))),
];

/// Whether a program has this fault, or memory was refused.
fn is_reported(alloc: Global, text: &str, fault: Fault) -> bool {
    let found = program(alloc, text.as_bytes()).err();
    found == refusal(fault) || found == Some(Refusal::new(RefusalNumber::Memory))
}

/// Under `rt try --test --fail-alloc N` too: this test allocates nothing of its own, so what is refused is the program's.
#[test]
fn tells_refused_memory(rt: HostRuntime) {
    for (text, fault) in PROGRAMS {
        assert!(rt; is_reported(rt.alloc(), text, *fault));
    }
}
