//! Conditions have the same clauses by both tables of gates, to the byte of their text.

use crate::scan::scanning;
use rg_bits::{formula as gates_of, inputs};
use rg_clauses::Clauses;
use rg_gates::GateError;
use rg_par::conditions::add_conditions;
use rg_parse::{program, show};
use rg_rules::Derivation;
use rg_tree::condition::Condition;
use rg_words::{Refusal, SourceFile, Taker};
use std::alloc::Global;
use std::test::Fail;

/// The text of clauses.
fn text_of(alloc: Global, clauses: &Clauses) -> Taker {
    let mut taker = Taker::new(alloc, usize::MAX);
    let _ = clauses.write_cnf(&mut taker);
    taker
}

/// Whether two lists of clauses have the same text, which isn't empty.
fn same(alloc: Global, left: &Clauses, right: &Clauses) -> bool {
    let one = text_of(alloc, left);
    let other = text_of(alloc, right);
    !one.bytes().is_empty() && one.bytes() == other.bytes()
}

/// The clauses of a condition by the table that is searched from its front.
fn scanned(alloc: Global, condition: &Condition) -> Result<Clauses, GateError> {
    let mut gates = scanning(alloc, inputs(condition));
    let literal = gates_of(alloc, &mut gates, condition)?;
    Ok(Clauses::of_gates(alloc, &gates, literal.negated())?)
}

/// Whether a condition has the same clauses by both tables.
fn agrees(alloc: Global, condition: &Condition) -> Result<bool, Fail> {
    let plain = scanned(alloc, condition)?;
    let clauses = Clauses::of(alloc, condition, SourceFile::Text, 1)?;
    Ok(same(alloc, &clauses, &plain))
}

/// The condition that a text shows.
pub(crate) fn shown(alloc: Global, text: &str) -> Result<Condition, Refusal> {
    let (layout, goal) = show(alloc, text.as_bytes())?;
    Ok(Condition::show(alloc, layout, goal))
}

/// Texts that each show something.
const SHOWN: &[&str] = &[
    "words x:1 y:1 show (((x = 1) and (y = 1)) implies (x = 1))",
    "words x:1 show ((x = 1) or not (x = 1))",
    "words x:1 show false",
    "words x:33 show true",
    "words x:2 show (x < 2)",
    "words x:64 show (x < 9223372036854775808)",
    "words x:2 show (x < (x + 1))",
    "words x:1 show ((x' = x) or (x' != x))",
    "words x:1 fixed n:1 show ((n' = n) and (x' = x))",
    "words x:32 y:32 show (((x + y) - y) = x)",
];

#[test]
fn both_tables_give_the_clauses_of_a_formula(rt: HostRuntime) -> Result<(), Fail> {
    for text in SHOWN {
        let condition = shown(rt.alloc(), text)?;
        assert!(rt; agrees(rt.alloc(), &condition)?);
    }
    Ok(())
}

/// The conditions of a program's lines and of the parallel rule.
fn conditions_of(alloc: Global, text: &str, lines: &str) -> Result<Vec<Condition>, Refusal> {
    let program = program(alloc, text.as_bytes())?;
    let derivation = Derivation::read(alloc, &program, lines.as_bytes())?;
    let mut conditions = derivation.conditions(alloc, &program)?;
    add_conditions(alloc, &mut conditions, &program)?;
    Ok(conditions)
}

/// Programs with their lines, and how many conditions they have: a part that keeps one of two words and sets the other to its own value; two parts
/// that each set a word; two parts that each add to a word in one step, and say so.
const PROGRAMS: &[(&str, &str, usize)] = &[
    (
        "words x:1 y:2 pre true rely true guar true post true
part a pre (x = 1) rely (x' = x) guar (y' = y) post true begin y := y end",
        "line 1 basic 1 pre (x = 1) rely (x' = x) guar (y' = y) post true",
        8,
    ),
    (
        "words x:1 y:1
pre true rely ((x' = x) and (y' = y)) guar true post ((x = 1) and (y = 1))
part a pre true rely (x' = x) guar (y' = y) post (x = 1) begin x := 1 end
part b pre true rely (y' = y) guar (x' = x) post (y = 1) begin y := 1 end",
        "line 1 basic 1 pre true rely (x' = x) guar (y' = y) post (x = 1)
line 2 basic 2 pre true rely (y' = y) guar (x' = x) post (y = 1)",
        17,
    ),
    (
        "words x:2 a:2 b:2
pre ((x = 0) and (a = 0) and (b = 0)) rely ((x' = x) and (a' = a) and (b' = b)) guar true post (x = 2)
part p pre ((x = (a + b)) and (a = 0)) rely ((a' = a) and ((x = (a + b)) implies (x' = (a' + b'))))
guar ((b' = b) and ((x = (a + b)) implies (x' = (a' + b')))) post ((x = (a + b)) and (a = 1))
begin await true do x := (x + 1); a := 1 end end
part q pre ((x = (a + b)) and (b = 0)) rely ((b' = b) and ((x = (a + b)) implies (x' = (a' + b'))))
guar ((a' = a) and ((x = (a + b)) implies (x' = (a' + b')))) post ((x = (a + b)) and (b = 1))
begin await true do x := (x + 1); b := 1 end end",
        "line 1 atomic 1 pre ((x = (a + b)) and (a = 0)) rely ((a' = a) and ((x = (a + b)) implies (x' = (a' + b'))))
guar ((b' = b) and ((x = (a + b)) implies (x' = (a' + b')))) post ((x = (a + b)) and (a = 1))
line 2 atomic 2 pre ((x = (a + b)) and (b = 0)) rely ((b' = b) and ((x = (a + b)) implies (x' = (a' + b'))))
guar ((a' = a) and ((x = (a + b)) implies (x' = (a' + b')))) post ((x = (a + b)) and (b = 1))",
        17,
    ),
];

#[test]
fn both_tables_give_the_clauses_of_programs(rt: HostRuntime) -> Result<(), Fail> {
    for (text, lines, count) in PROGRAMS {
        let conditions = conditions_of(rt.alloc(), text, lines)?;
        assert!(rt; conditions.len() == *count);
        for condition in &conditions {
            assert!(rt; agrees(rt.alloc(), condition)?);
        }
    }
    Ok(())
}
