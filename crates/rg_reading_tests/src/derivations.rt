//! The lines that a derivation spells, with the expected answers written by hand.

use rg_parse::parse::parse;
use rg_syntax::written::{FormulaText, LineText, SpecText};
use rg_text::Tokens;
use rg_tree::line::Rule;
use rg_words::{Refusal, SourceFile};
use std::alloc::Global;

/// Two lines: of 15 tokens and of 12, each token on a line of its own.
const TWO: &[u8] =
    b"line\n1\nif\n4\nfrom\n2\n3\npre\ntrue\nrely\nfalse\nguar\ntrue\npost\nfalse\nline\n2\nseq\n5\npre\nfalse\nrely\ntrue\nguar\nfalse\npost\ntrue\n";

/// Whether a formula is this truth.
fn is_truth(formula: &FormulaText, expected: bool) -> bool {
    matches!(formula, FormulaText::Truth(truth) if *truth == expected)
}

/// Whether pre and guarantee are this truth, and rely and post the other.
fn alternates(spec: &SpecText, expected: bool) -> bool {
    is_truth(&spec.pre, expected)
        && is_truth(&spec.rely, !expected)
        && is_truth(&spec.guar, expected)
        && is_truth(&spec.post, !expected)
}

/// Whether the word `line`, the number and the statement stand on these lines of the file, and the premises on those.
fn stands_at(line: &LineText, places: [u32; 3], premises: &[u32]) -> bool {
    [line.begin.line, line.number.line, line.statement.line] == places
        && line.premises.len() == premises.len()
        && line
            .premises
            .iter()
            .zip(premises)
            .all(|(premise, at)| premise.line == *at)
}

/// Whether the lines that are read are the two.
fn reads_two(alloc: Global) -> Result<bool, Refusal> {
    let tokens = Tokens::read(alloc, TWO, SourceFile::Derivation)?;
    let lines: Vec<LineText> = parse(alloc, SourceFile::Derivation, tokens.as_slice())?;
    Ok(
        lines.len() == 2
            && stands_at(&lines[0], [1, 2, 4], &[6, 7])
            && stands_at(&lines[1], [16, 17, 19], &[])
            && lines[0].rule == Rule::If
            && lines[1].rule == Rule::Seq
            && alternates(&lines[0].spec, true)
            && alternates(&lines[1].spec, false),
    )
}

#[test]
fn lines_are_kept_in_order(rt: HostRuntime) {
    assert!(rt; matches!(reads_two(rt.alloc()), Ok(true)));
}
