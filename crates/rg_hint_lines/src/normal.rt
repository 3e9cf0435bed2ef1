//! The text of hint lines in its normal form.

ghost use Rattle.std.specs.Prelude.{◌≡◌, ◌++◌, ◌<◌, length, codes, OnOk};
ghost use Rattle.std.specs.List.{flat_map};
ghost use Rattle.std.specs.String.{string_bytes};
ghost use Rattle.rg_hint_lines.specs.Lines.{hint_line_at};
ghost use Rattle.rg_hint_lines.specs.Normal.{hint_line_text};

use crate::lines::Lines;
use itoa::{Buffer, Integer};
use rg_words::Refusal;
use std::alloc::{AllocError, Global};

/// Adds a number and a space.
fn push_number<I: Integer>(text: &mut String, number: I) -> Result<(), AllocError>
    ensures { OnOk result (string_bytes text.new ≡ string_bytes text.old ++ (I.text number ++ codes " ")) }
{
    let mut buffer = Buffer::new();
    text.push_str(buffer.format(number))?;
    text.push_str(" ")?;
    Ok(())
}

/// Adds numbers, with a space after each.
fn push_numbers<I: Integer>(text: &mut String, numbers: &[I]) -> Result<(), AllocError>
    ensures { OnOk result (string_bytes text.new ≡ string_bytes text.old ++ flat_map (λ x. I.text x ++ codes " ") numbers.now) }
{
    for number in numbers {
        push_number(text, *number)?;
    }
    Ok(())
}

/// Adds a line.
fn push_line(text: &mut String, lines: &Lines, index: usize) -> Result<(), AllocError>
    requires { index < length lines.now.lines }
    ensures { OnOk result (string_bytes text.new ≡ string_bytes text.old ++ hint_line_text (hint_line_at lines.now index)) }
{
    push_number(text, lines.id(index))?;
    push_numbers(text, lines.literals(index))?;
    text.push_str("0 ")?;
    push_numbers(text, lines.hints(index))?;
    text.push_str("0\n")?;
    Ok(())
}

impl Lines {
    ghost use Rattle.std.specs.Prelude.{◌≡◌, MatchResult};
    ghost use Rattle.std.specs.String.{string_bytes};
    ghost use Rattle.rg_words.specs.Refusals.{no_memory};
    ghost use Rattle.rg_hint_lines.specs.Normal.{section_text};

    /// The lines in their normal form: one space between fields, a line feed after each line, numbers
    /// without leading zeros.
    pub fn text(&self, alloc: Global) -> Result<String, Refusal>
        ensures { MatchResult result (λ text. string_bytes text ≡ section_text self.now) (λ r. r ≡ no_memory) }
    {
        let mut text = String::new(alloc);
        for index in 0..self.len() {
            push_line(&mut text, self, index)?;
        }
        Ok(text)
    }
}
