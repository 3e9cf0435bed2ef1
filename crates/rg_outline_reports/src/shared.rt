//! Warnings of steps that use shared words several times at once.

use crate::loads::Loads;
use crate::promises::auxiliary_bits;
use crate::reports::{Reports, Warning};
use crate::template::Gap::WordsIn;
use crate::warnings::warn;
use rg_outline::{Action, Expansion, Line, Rule, Statement};
use rg_outline_terms::bit_of;
use std::alloc::AllocError;

/// The words that a part's steps and tests read, and those that they assign, as bits.
#[derive(Clone, Copy)]
struct Uses {
    read: u64,
    assigned: u64,
}

/// What a statement reads and assigns: of a statement with blocks, its test.
fn uses_of(expansion: &Expansion<'_>, statement: Statement) -> Uses {
    let forest = &expansion.scope.forest;
    let mut uses = Uses {
        read: forest.reads(statement.test).plain,
        assigned: 0,
    };
    for update in expansion.updates_of(statement.updates) {
        uses.read |= forest.reads(update.value).plain;
        uses.assigned |= bit_of(update.word);
    }
    uses
}

/// What the parts other than one read and assign.
fn uses_of_others(expansion: &Expansion<'_>, part: usize) -> Uses {
    let mut uses = Uses {
        read: 0,
        assigned: 0,
    };
    for line in &expansion.lines {
        if line.part != part {
            let more = uses_of(expansion, expansion.statement(line.statement));
            uses.read |= more.read;
            uses.assigned |= more.assigned;
        }
    }
    uses
}

/// Whether a line is of a step or a test that stands for one read or write alone in the usual machine: outside `atomic` and `await`.
fn is_plain(line: Line, statement: Statement) -> bool {
    match line.rule {
        Rule::Basic | Rule::If | Rule::Loop => true,
        Rule::Atomic => statement.is_choice,
        _ => false,
    }
}

/// Which words are loaded for what is assigned: of an assignment to a chosen member those of the index and of the value, and none of the members.
fn loaded_by(expansion: &Expansion<'_>, statement: Statement, loads: &Loads, value: usize) -> u64 {
    if !statement.is_choice {
        return loads.tree(expansion, value);
    }
    let forest = &expansion.scope.forest;
    let index = loads.tree(expansion, forest.operand(value, 0));
    index | loads.tree(expansion, forest.operand(value, 1))
}

/// The sentence for a statement that uses so many shared words in one step, with these words at its gap.
fn sentence_of(statement: Statement, words: u32) -> &'static str {
    if words < 2 {
        "this assignment reads and writes the shared word $0 in one step: a machine does so only where it is made atomic"
    } else if statement.action == Action::Assign || statement.is_choice {
        "this assignment uses several shared words in one step ($0): a machine does so only where it is made atomic"
    } else {
        "this test reads several shared words in one step ($0): a machine does so only where it is made atomic"
    }
}

/// Reports a statement that loads and stores several times at once what others use.
fn report_statement(
    reports: &mut Reports<'_>,
    line: Line,
    loads: &Loads,
    others: Uses,
) -> Result<(), AllocError> {
    let expansion = reports.expansion;
    let statement = expansion.statement(line.statement);
    let mut read = loads.tree(expansion, statement.test);
    for update in expansion.updates_of(statement.updates) {
        read |= loaded_by(expansion, statement, loads, update.value);
    }
    let used = (others.assigned | others.read) & !auxiliary_bits(expansion);
    let assigned = uses_of(expansion, statement).assigned & used;
    let mut stores = assigned.count_ones();
    if statement.is_choice {
        stores = stores.min(1);
    }
    let count = read.count_ones().saturating_add(stores);
    if count < 2 {
        return Ok(());
    }
    let shared = read | assigned;
    let template = sentence_of(statement, shared.count_ones());
    let (place, part, gaps) = (statement.span, Some(line.part), [WordsIn(shared)]);
    warn(reports, Warning::SharedWords, place, part, template, &gaps)
}

/// Reports each step outside `atomic`, and each test, that needs several accesses to words that other parts use: loads of words that others assign,
/// and a store to one that others read or assign. Of a choice one branch is loaded. Auxiliary words don't count.
pub(crate) fn report_shared(reports: &mut Reports<'_>) -> Result<(), AllocError> {
    let expansion = reports.expansion;
    for part in 0..expansion.parts.len() {
        let others = uses_of_others(expansion, part);
        let loads = Loads::of(expansion, others.assigned & !auxiliary_bits(expansion))?;
        for line in &expansion.lines {
            let statement = expansion.statement(line.statement);
            if line.part == part && is_plain(*line, statement) {
                report_statement(reports, *line, &loads, others)?;
            }
        }
    }
    Ok(())
}
