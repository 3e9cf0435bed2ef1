//! Hint lines from a text.

ghost use Rattle.std.specs.Prelude.{◌≡◌, ℕ, ◌+◌, ◌^◌, ◌<◌, [], length, IfOk, OnOk, OnSome, MatchOption, MatchResult, All};
ghost use Rattle.rg_hint_lines.specs.Lines.{IsHintLiteral};
ghost use Rattle.rg_hint_lines.specs.Text.{fields_of};
ghost use Rattle.rg_hint_lines.specs.Reading.{literals_of, hints_of, hint_line, reading_of};
ghost use Rattle.rg_hint_lines.specs.Inner.LineForms.{reading_as, hint_line_in};

use crate::lines::{Head, Lines};
use crate::refusal::refusal_at;
use crate::text::{is_passed_over, next_field, next_literal, next_number, split_line};
use rg_words::{Refusal, RefusalNumber};
use std::alloc::{AllocError, Global};

/// Reads the literals before the first 0 of a line into the list, in place of what it holds, and gives what
/// stands after that 0. None where a field before it is no literal, or no 0 stands there.
fn read_literals<'a>(
    line: &'a [u8],
    literals: &mut Vec<i32>,
) -> Result<Option<&'a [u8]>, AllocError>
    ensures value { IfOk result (λ rest. MatchOption rest
        (literals_of (fields_of line.now) ≡ None)
        (λ r. literals_of (fields_of line.now) ≡ Some (literals.new.items, fields_of r.now))) }
    ensures fit { OnOk result (All IsHintLiteral literals.new.items) }
{
    literals.clear();
    let mut rest = line;
    while let Some((literal, after)) = next_literal(rest) {
        rest = after;
        if literal == 0 {
            return Ok(Some(rest));
        }
        literals.push(literal)?;
    }
    Ok(None)
}

/// Reads the hints before the first 0 of a line into the list, in place of what it holds, and gives what
/// stands after that 0. None where a field before it is no number, or no 0 stands there.
fn read_hints<'a>(line: &'a [u8], hints: &mut Vec<u32>) -> Result<Option<&'a [u8]>, AllocError>
    ensures { IfOk result (λ rest. MatchOption rest
        (hints_of (fields_of line.now) ≡ None)
        (λ r. hints_of (fields_of line.now) ≡ Some (hints.new.items, fields_of r.now))) }
{
    hints.clear();
    let mut rest = line;
    while let Some((hint, after)) = next_number(rest) {
        rest = after;
        if hint == 0 {
            return Ok(Some(rest));
        }
        hints.push(hint)?;
    }
    Ok(None)
}

/// Reads a hint line, into the lists. Gives the line's number, and none where the line is no hint line.
fn read_hint_line(
    line: &[u8],
    literals: &mut Vec<i32>,
    hints: &mut Vec<u32>,
) -> Result<Option<u32>, AllocError>
    ensures value { IfOk result (λ id. MatchOption id
        (hint_line_in (fields_of line.now) ≡ None)
        (λ n. hint_line_in (fields_of line.now) ≡ Some (hint_line n literals.new.items hints.new.items))) }
    ensures fit { IfOk result (λ id. OnSome id (All IsHintLiteral literals.new.items)) }
{
    let Some((id, rest)) = next_number(line) else {
        return Ok(None);
    };
    if id == 0 {
        return Ok(None);
    }
    let Some(rest) = read_literals(rest, literals)? else {
        return Ok(None);
    };
    let Some(rest) = read_hints(rest, hints)? else {
        return Ok(None);
    };
    if next_field(rest).is_some() {
        return Ok(None);
    }
    Ok(Some(id))
}

/// What a line of the text says. The literals and the hints of a hint line are in the lists.
enum LineForm {
    PassedOver,
    HintLine(u32),
    Unreadable,
}

fn read_line(
    line: &[u8],
    literals: &mut Vec<i32>,
    hints: &mut Vec<u32>,
) -> Result<LineForm, AllocError>
    ensures value { IfOk result (λ form. reading_of (fields_of line.now) ≡ reading_as form literals.new.items hints.new.items) }
    ensures fit { IfOk result (λ form. (id : ℕ) → form ≡ LineForm.HintLine id → All IsHintLiteral literals.new.items) }
{
    if let Some(id) = read_hint_line(line, literals, hints)? {
        return Ok(LineForm::HintLine(id));
    }
    if is_passed_over(line) {
        return Ok(LineForm::PassedOver);
    }
    Ok(LineForm::Unreadable)
}

impl Lines {
    ghost use Rattle.std.specs.Prelude.{◌≡◌, ◌+◌, ◌^◌, ◌<◌, length, Ok, MatchResult, IfOk};
    ghost use Rattle.rg_words.specs.Refusals.{no_memory};
    ghost use Rattle.rg_hint_lines.specs.Reading.{section_of, IsReadingRefusal};

    /// Reads the hint lines of a text, the first line of which has the number `first_line`, over `given`
    /// clauses. The text has no heads of sections.
    ///
    /// Refused with 41 at the first line that has no known form, and with 43 at the first whose number is not
    /// greater than `given` and than those before it; the lesser line is reported, and at one line 41.
    pub fn read(
        alloc: Global,
        bytes: &[u8],
        first_line: u64,
        given: usize,
    ) -> Result<Lines, Refusal>
        requires { first_line + length bytes.now < 2 ^ 64 }

        // The section that the text spells, or its first faulty line.
        ensures section { MatchResult result
            (λ lines. section_of first_line given bytes.now ≡ Ok lines)
            (IsReadingRefusal (section_of first_line given bytes.now)) }
        ensures given { IfOk result (λ lines. lines.given ≡ given) }
    {
        let mut lines = Lines::with_room(alloc, given, bytes.len())?;
        let mut literals = Vec::new(alloc);
        let mut hints = Vec::new(alloc);
        let mut rest = bytes;
        let mut number = first_line;
        let mut last = given;
        while !rest.is_empty() {
            let (line, after) = split_line(rest);
            match read_line(line, &mut literals, &mut hints)? {
                LineForm::PassedOver => {}
                LineForm::Unreadable => return Err(refusal_at(RefusalNumber::Unreadable, number)),
                LineForm::HintLine(id) => {
                    if id as usize <= last {
                        return Err(refusal_at(RefusalNumber::IdOrder, number));
                    }
                    last = id as usize;
                    let head = Head {
                        id,
                        text_line: number,
                    };
                    lines = lines.with_line(head, &literals, &hints)?;
                }
            }
            rest = after;
            number += 1;
        }
        Ok(lines)
    }
}
