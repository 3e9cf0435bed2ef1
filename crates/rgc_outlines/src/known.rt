//! Conditions that are proved: those of the outline as it is written. A changed outline has most of them, too.

use rg_hints::{SectionBytes, place_sections, proof_sections};
use rg_tree::condition::{Assign, Condition, Second};
use rg_tree::tree::{Expr, Formula};
use rg_words::Refusal;
use std::alloc::{AllocError, Global};

/// An odd number with many bits, by which hashes are multiplied.
const MULTIPLIER: u64 = 0x9E37_79B9_7F4A_7C15;

/// A condition with a proof.
#[derive(Clone, Copy)]
struct ProvedCondition<'p> {
    /// A hash of the condition. Two conditions may have the same, so the lines are checked wherever they are used.
    print: u64,
    /// The lines of its section.
    lines: &'p [u8],
}

/// Conditions with their proofs.
#[derive(Drop)]
pub struct Known<'p> {
    proved: Vec<ProvedCondition<'p>>,
}

/// A hash with one more number.
fn mixed(print: u64, number: u64) -> u64 {
    let mixed = (print ^ number).wrapping_mul(MULTIPLIER);
    mixed ^ (mixed >> 29)
}

/// A hash with one more expression.
#[cycle(prints)]
fn with_value(print: u64, e: &Expr) -> u64 {
    match e {
        Expr::Number(width, n) => mixed(mixed(mixed(print, 1), u64::from(*width)), *n),
        Expr::Word(k) => mixed(mixed(print, 2), *k as u64),
        Expr::NextWord(k) => mixed(mixed(print, 3), *k as u64),
        Expr::Inverse(width, a) => with_value(mixed(mixed(print, 4), u64::from(*width)), a),
        Expr::Binary(operator, width, a, b) => {
            let begun = mixed(mixed(mixed(print, 5), *operator as u64), u64::from(*width));
            with_value(with_value(begun, a), b)
        }
        Expr::Shifted(shift, width, a, count) => {
            let begun = mixed(mixed(mixed(print, 6), *shift as u64), u64::from(*width));
            with_value(mixed(begun, u64::from(*count)), a)
        }
        Expr::If(f, a, b) => with_value(with_value(with_formula(mixed(print, 7), f), a), b),
    }
}

/// A hash with one more formula.
#[cycle(prints)]
fn with_formula(print: u64, f: &Formula) -> u64 {
    match f {
        Formula::Truth(is_true) => mixed(mixed(print, 8), u64::from(*is_true)),
        Formula::Not(f) => with_formula(mixed(print, 9), f),
        Formula::Connect(connective, f, g) => {
            let begun = mixed(mixed(print, 10), *connective as u64);
            with_formula(with_formula(begun, f), g)
        }
        Formula::Compare(comparison, a, b) => {
            let begun = mixed(mixed(print, 11), *comparison as u64);
            with_value(with_value(begun, a), b)
        }
    }
}

/// A hash with further assignments.
fn with_assignments(print: u64, assignments: &[Assign]) -> u64 {
    let mut now = mixed(print, assignments.len() as u64);
    for assign in assignments {
        now = with_value(mixed(now, assign.word as u64), &assign.value);
    }
    now
}

/// A hash with further hypotheses.
fn with_hypotheses(print: u64, hypotheses: &[Formula]) -> u64 {
    let mut now = mixed(print, hypotheses.len() as u64);
    for hypothesis in hypotheses {
        now = with_formula(now, hypothesis);
    }
    now
}

/// The hash of a condition over the words of the outline, which no change touches.
fn print_of(condition: &Condition) -> u64 {
    let begun = with_hypotheses(0, &condition.hypotheses);
    let second = match &condition.second {
        Second::Same => mixed(begun, 12),
        Second::Free => mixed(begun, 13),
        Second::After(assignments) => with_assignments(mixed(begun, 14), assignments),
    };
    let flags = mixed(
        mixed(second, u64::from(condition.alone)),
        u64::from(condition.or_no_change),
    );
    with_formula(flags, &condition.goal)
}

/// Adds the conditions that have a section, each with its lines. (One that needs no section is found again at once.)
fn add_proved<'p>(
    conditions: &[Condition],
    sections: &[Option<SectionBytes<'p>>],
    proved: &mut Vec<ProvedCondition<'p>>,
) -> Result<(), AllocError> {
    for (condition, section) in conditions.iter().zip(sections) {
        if let Some(section) = section {
            let print = print_of(condition);
            let lines = section.bytes;
            proved.push(ProvedCondition { print, lines })?;
        }
    }
    Ok(())
}

impl<'p> Known<'p> {
    /// These conditions, which these pieces of proofs prove.
    ///
    /// # Errors
    ///
    /// As `rg_hints::proof_sections`.
    pub fn of(
        alloc: Global,
        conditions: &[Condition],
        proofs: &'p [String],
    ) -> Result<Known<'p>, Refusal> {
        let count = conditions.len();
        let mut proved = Vec::new(alloc);
        for piece in proofs {
            let read = proof_sections(alloc, piece.as_bytes(), count)?;
            let sections = place_sections(alloc, &read, count)?;
            add_proved(conditions, &sections, &mut proved)?;
        }
        Ok(Known { proved })
    }

    /// The lines of a condition that has the same hash; nothing where there is none.
    pub(crate) fn lines_of(&self, condition: &Condition) -> Option<&'p [u8]> {
        let print = print_of(condition);
        for one in &self.proved {
            if one.print == print {
                return Some(one.lines);
            }
        }
        None
    }
}
