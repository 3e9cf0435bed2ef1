//! Leaves: the bytes of a token, and the number or the name that they are.

ghost use Rattle.std.specs.Prelude.{◌≡◌, ◌<◌, ◌≤◌, ◌^◌, SomeIff};
ghost use Rattle.std.specs.Char.{digit_value};
ghost use Rattle.rg_words.specs.Layout.{index_of};
ghost use Rattle.rg_text.specs.Text.{text_of, unprimed};
ghost use Rattle.rg_leaves.specs.Leaves.{number_of};

use rg_text::token::Token;
use rg_words::Layout;
use rg_words::limits::MOST_WIDTH;
use std::str;

/// The bytes of a token.
pub fn text<'a>(source: &'a [u8], token: &Token) -> &'a [u8]
    ensures { result.now ≡ text_of source.now token.now }
{
    let rest = &source[token.start.min(source.len())..];
    let len = token.end.saturating_sub(token.start);
    &rest[..len.min(rest.len())]
}

/// The name in a primed name: all but its last byte.
pub fn unprimed(text: &[u8]) -> &[u8]
    ensures { result.now ≡ unprimed text.now }
{
    &text[..text.len().saturating_sub(1)]
}

/// The value of a decimal digit; for letters that of a digit in a larger base, and 36 for any other byte.
fn digit_value(byte: u8) -> u64
    ensures { result ≡ digit_value byte }
{
    let value = match byte {
        b'0'..=b'9' => byte - b'0',
        b'A'..=b'Z' => byte - 55,
        b'a'..=b'z' => byte - 87,
        _ => 36,
    };
    u64::from(value)
}

/// The number that decimal digits write, where it is below 2 to the power of 64.
pub fn number(digits: &[u8]) -> Option<u64>
    ensures { SomeIff result (number_of digits.now < 2 ^ 64) (number_of digits.now) }
{
    let mut number = 0u64;
    for digit in digits {
        number = number.checked_mul(10)?.checked_add(digit_value(*digit))?;
    }
    Some(number)
}

/// The number of these digits, where it is below 2 to the power of a width.
pub fn number_below(digits: &[u8], width: u32) -> Option<u64>
    requires { width ≤ MOST_WIDTH }
    ensures { SomeIff result (number_of digits.now < 2 ^ width) (number_of digits.now) }
{
    let number = number(digits)?;
    if u128::from(number) < 1u128 << width {
        Some(number)
    } else {
        None
    }
}

/// The word of this name.
pub fn find(layout: &Layout, name: &[u8]) -> Option<usize>
    ensures { result ≡ index_of layout.now name.now }
{
    match str::from_utf8(name) {
        Ok(name) => layout.find(name),
        Err(_) => {
            // The names of a layout are ASCII.
            layout.facts();
            None
        }
    }
}
