//! Hint lines from the clauses of a refutation.

ghost use Rattle.std.specs.Prelude.{◌≡◌, All, IfOk, IfSome, IsTrue};
ghost use Rattle.rg_hints.specs.Lines.{IsHintLiteral};
ghost use Rattle.rg_find.specs.Found.{HasNoGaps};

use rg_hints::{Head, Lines};
use rg_search::Refutation;
use rg_words::limits::MOST_HINT_NUMBER;
use std::alloc::{AllocError, Global};

/// Whether numbers may stand as literals in a hint line.
fn are_literals(literals: &[i32]) -> bool
    ensures { IsTrue result → All IsHintLiteral literals.now }
{
    for literal in literals {
        let variable = literal.unsigned_abs();
        if variable == 0 || variable > MOST_HINT_NUMBER {
            return false;
        }
    }
    true
}

/// The clauses of a refutation as lines, numbered with no gaps. None where one has a number that is no literal, or the
/// numbers run out.
pub fn lines_of(
    alloc: Global,
    given: usize,
    refutation: &Refutation,
) -> Result<Option<Lines>, AllocError>
    ensures given { IfOk result (λ o. IfSome o (λ l. l.given ≡ given)) }
    ensures order { IfOk result (λ o. IfSome o HasNoGaps) }
{
    let Ok(mut last) = u32::try_from(given) else {
        return Ok(None);
    };
    let mut lines = Lines::new(alloc, given);
    let mut text_line = 0u64;
    for index in 0..refutation.len() {
        let literals = refutation.literals(index);
        if last == u32::MAX || !are_literals(literals) {
            return Ok(None);
        }
        last += 1;
        text_line = text_line.saturating_add(1);
        lines = lines.with_line(
            Head {
                id: last,
                text_line,
            },
            literals,
            refutation.hints(index),
        )?;
    }
    Ok(Some(lines))
}
