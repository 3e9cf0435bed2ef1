//! Lines, fields and numbers of a proofs text.

ghost use Rattle.std.specs.Prelude.{◌≡◌, ◌==◌, ◌<◌, ◌≤◌, [], ◌∷◌, length, Some, IfSome, MatchOption, None, not, take, drop, pos, neg_ℤ, ◌≢◌, ◌&&◌, if◌then◌else◌, slice_index, count_by};
ghost use Rattle.std.specs.Int.RustNames.{unsigned_abs};
ghost use Rattle.std.specs.Char.{is_ascii_digit};
ghost use Rattle.std.specs.List.{prefix_len};
ghost use Rattle.std.specs.Str.Parse.{digits_value};
ghost use Rattle.std.specs.Str.Lines.{lines, strip_carriage_return};
ghost use Rattle.rg_hint_lines.specs.Lines.{IsHintLiteral};
ghost use Rattle.rg_hint_lines.specs.Text.{is_blank, fields_of, number_in, positive, literal_in};
ghost use Rattle.rg_hint_lines.specs.Reading.{is_passed_over};
ghost use Rattle.rg_hint_lines.specs.LineEnds.{EndsLine, IsFrontLine};
ghost use Rattle.rg_hint_lines.specs.Inner.Fronts.{is_line_feed, front_field, after_field, IsUpToMost, first_read};

use memchr::{memchr, memrchr};
use rg_words::limits::MOST_HINT_NUMBER;

/// Of so many bytes a count fits into one, so that sixteen of them are counted at once.
const PIECE: usize = 255;

const MOST: u64 = MOST_HINT_NUMBER as u64;

pub(crate) fn is_blank(byte: u8) -> bool
    ensures { result ≡ is_blank byte }
{
    byte == b' ' || byte == b'\t'
}

/// How many spaces and tabs stand first.
fn blank_len(line: &[u8]) -> usize
    ensures value { result ≡ prefix_len is_blank line.now }
    ensures bound { result ≤ length line.now }
{
    line.iter().take_while(|b| is_blank(**b)).count()
}

/// The bytes after the spaces and tabs that stand first. Mostly one or none stands there.
fn skip_blanks(line: &[u8]) -> &[u8]
    ensures { result.now ≡ drop (prefix_len is_blank line.now) line.now }
{
    match line {
        [first, ..] if !is_blank(*first) => line,
        [_, second, ..] if !is_blank(*second) => skip(line, 1),
        _ => skip(line, blank_len(line)),
    }
}

/// How many bytes stand before the first space or tab.
fn field_len(line: &[u8]) -> usize
    ensures value { result ≡ prefix_len (λ b. not (is_blank b)) line.now }
    ensures bound { result ≤ length line.now }
{
    line.iter().take_while(|b| !is_blank(**b)).count()
}

/// How many bytes stand before the first line feed.
fn line_len(text: &[u8]) -> usize
    ensures value { result ≡ prefix_len (λ b. not (b == 10)) text.now }
    ensures bound { result ≤ length text.now }
{
    match memchr(b'\n', text) {
        Some(place) => place,
        None => text.len(),
    }
}

/// The bytes after so many.
pub(crate) fn skip(bytes: &[u8], count: usize) -> &[u8]
    requires { count ≤ length bytes.now }
    ensures { result.now ≡ drop count bytes.now }
{
    &bytes[count..]
}

/// The line without the carriage return at its end.
fn strip_carriage_return(line: &[u8]) -> &[u8]
    ensures { result.now ≡ strip_carriage_return line.now }
{
    match line {
        [front @ .., b'\r'] => front,
        _ => line,
    }
}

/// The line at the front of a text, without its end, and the text after it. A line ends by a line feed,
/// and one carriage return directly before it is dropped; the last line feed may be missing.
pub fn split_line(text: &[u8]) -> (&[u8], &[u8])
    requires { 0 < length text.now }
    ensures lines { lines text.now ≡ result.0.now ∷ lines result.1.now }
    ensures front { IsFrontLine text.now result.0.now result.1.now }
    ensures shorter { length result.1.now < length text.now }
{
    let end = line_len(text);
    let (line, rest) = text.split_at(end);
    if rest.is_empty() {
        return (line, rest);
    }
    (strip_carriage_return(line), skip(rest, 1))
}

/// How many bytes of a text stand up to its last line feed, and with it; 0 where it has none.
pub(crate) fn whole_lines_len(text: &[u8]) -> usize
    ensures bound { result ≤ length text.now }
    ensures ends { EndsLine (take result text.now) }
{
    match memrchr(b'\n', text) {
        Some(place) => place + 1,
        None => 0,
    }
}

/// How many line feeds stand in a piece of a text.
fn line_feeds_in_piece(piece: &[u8]) -> u8
    requires { length piece.now < 256 }
    ensures { result ≡ count_by is_line_feed piece.now }
{
    let mut count = 0;
    for byte in piece {
        count += u8::from(*byte == b'\n');
    }
    count
}

/// How many line feeds stand in a text.
pub(crate) fn line_feeds(text: &[u8]) -> u64
    ensures value { result ≡ count_by is_line_feed text.now }
    ensures bound { result ≤ length text.now }
{
    let mut rest = text;
    let mut count = 0;
    while !rest.is_empty() {
        let (piece, after) = rest.split_at(rest.len().min(PIECE));
        count += u64::from(line_feeds_in_piece(piece));
        rest = after;
    }
    count
}

/// The first field of a line, and what stands after it, where the line has one. Fields stand between
/// spaces and tabs.
pub fn next_field(line: &[u8]) -> Option<(&[u8], &[u8])>
    ensures fields { MatchOption result (fields_of line.now ≡ [])
        (λ r. fields_of line.now ≡ r.0.now ∷ fields_of r.1.now) }
    ensures shorter { IfSome result (λ r. length r.1.now < length line.now) }
    ensures filled { IfSome result (λ r. 0 < length r.0.now) }
{
    let line = skip(line, blank_len(line));
    if line.is_empty() {
        return None;
    }
    Some(line.split_at(field_len(line)))
}

/// The number that the digits in front of bytes write, and how many they are. Where it is greater than `MOST`,
/// some number that is.
fn leading_number(bytes: &[u8]) -> (u64, usize)
    ensures count { result.1 ≡ prefix_len is_ascii_digit bytes.now }
    ensures number { IsUpToMost result.0 (digits_value 10 (take result.1 bytes.now)) }
    ensures bound { result.1 ≤ length bytes.now }
{
    let mut number = 0;
    let mut count = 0;
    for byte in bytes {
        if !byte.is_ascii_digit() {
            return (number, count);
        }
        if number <= MOST {
            number = 10 * number + u64::from(*byte - b'0');
        }
        count += 1;
    }
    (number, count)
}

/// The number that a field writes by decimal digits, where it is at most 2,147,483,647. It may have any
/// leading zeros.
pub fn number_in(field: &[u8]) -> Option<u32>
    ensures value { result ≡ number_in field.now }
    ensures bound { IfSome result (λ n. n ≤ MOST_HINT_NUMBER) }
{
    let (number, count) = leading_number(field);
    if count < field.len() {
        return None;
    }
    if field.is_empty() || number > MOST {
        return None;
    }
    Some(number as u32)
}

/// Whether the first byte is neither a space nor a tab.
fn begins_filled(bytes: &[u8]) -> bool
    ensures { result ≡ not (prefix_len (λ b. not (is_blank b)) bytes.now == 0) }
{
    match bytes {
        [] => false,
        [byte, ..] => !is_blank(*byte),
    }
}

/// The number that the bytes before the first space or tab write, where it is at most 2,147,483,647, and what
/// stands after them.
fn front_number(bytes: &[u8]) -> Option<(u32, &[u8])>
    ensures value { MatchOption result
        (number_in (front_field bytes.now) ≡ None)
        (λ r. (number_in (front_field bytes.now) ≡ Some r.0) × (r.1.now ≡ after_field bytes.now)) }
    ensures bound { IfSome result (λ r. r.0 ≤ MOST_HINT_NUMBER) }
    ensures shorter { IfSome result (λ r. length r.1.now < length bytes.now) }
{
    let (number, count) = leading_number(bytes);
    let rest = skip(bytes, count);
    if begins_filled(rest) {
        return None;
    }
    if count == 0 || number > MOST {
        return None;
    }
    Some((number as u32, rest))
}

/// The number that a field writes, where it is not 0.
pub fn positive_in(field: &[u8]) -> Option<u32>
    ensures value { result ≡ positive (number_in field.now) }
    ensures bound { IfSome result (λ n. (0 < n) × (n ≤ MOST_HINT_NUMBER)) }
{
    match number_in(field) {
        Some(0) | None => None,
        Some(number) => Some(number),
    }
}

/// The number that a field writes, with a minus sign or none; a minus sign before 0 is none.
pub fn literal_in(field: &[u8]) -> Option<i32>
    ensures value { result ≡ literal_in field.now }
    ensures bound { IfSome result (λ x. x ≢ pos 0 → IsHintLiteral x) }
{
    match field {
        [] => None,
        [b'-', digits @ ..] => match positive_in(digits) {
            None => None,
            Some(number) => Some(-(number as i32)),
        },
        _ => match number_in(field) {
            None => None,
            Some(number) => Some(number as i32),
        },
    }
}

/// How many minus signs stand in front: one or none.
fn sign_len(bytes: &[u8]) -> usize
    ensures value { result ≡ (if slice_index bytes.now 0 == 45 then 1 else 0) }
    ensures bound { result ≤ length bytes.now }
{
    match bytes {
        [] => 0,
        [byte, ..] => usize::from(*byte == b'-'),
    }
}

fn is_minus_zero(sign: usize, number: u32) -> bool
    ensures { result ≡ ((number == 0) && (sign == 1)) }
{
    number == 0 && sign == 1
}

/// A number in range, or its negation.
fn signed_literal(negative: bool, number: u32) -> i32
    requires { number ≤ MOST_HINT_NUMBER }
    ensures value { result ≡ (if negative then neg_ℤ (pos number) else pos number) }
    ensures within { unsigned_abs result ≤ MOST_HINT_NUMBER }
    ensures fits { result ≢ pos 0 → IsHintLiteral result }
{
    let literal = number as i32;
    if negative { -literal } else { literal }
}

/// The literal that the bytes before the first space or tab write, and what stands after them.
fn front_literal(bytes: &[u8]) -> Option<(i32, &[u8])>
    ensures value { MatchOption result
        (literal_in (front_field bytes.now) ≡ None)
        (λ r. (literal_in (front_field bytes.now) ≡ Some r.0) × (r.1.now ≡ after_field bytes.now)) }
    ensures bound { IfSome result (λ r. r.0 ≢ pos 0 → IsHintLiteral r.0) }
    ensures shorter { IfSome result (λ r. length r.1.now < length bytes.now) }
{
    let sign = sign_len(bytes);
    let Some((number, rest)) = front_number(skip(bytes, sign)) else {
        return None;
    };
    if is_minus_zero(sign, number) {
        return None;
    }
    Some((signed_literal(sign == 1, number), rest))
}

/// The number that the first field of a line writes, and what stands after it. None where there is no field, or
/// the first is no number.
pub(crate) fn next_number(line: &[u8]) -> Option<(u32, &[u8])>
    ensures value { MatchOption result
        (first_read number_in (fields_of line.now) ≡ None)
        (λ r. first_read number_in (fields_of line.now) ≡ Some (r.0, fields_of r.1.now)) }
    ensures shorter { IfSome result (λ r. length r.1.now < length line.now) }
{
    front_number(skip_blanks(line))
}

/// The literal that the first field of a line writes, and what stands after it. None where there is no field, or
/// the first is no literal.
pub(crate) fn next_literal(line: &[u8]) -> Option<(i32, &[u8])>
    ensures value { MatchOption result
        (first_read literal_in (fields_of line.now) ≡ None)
        (λ r. first_read literal_in (fields_of line.now) ≡ Some (r.0, fields_of r.1.now)) }
    ensures bound { IfSome result (λ r. r.0 ≢ pos 0 → IsHintLiteral r.0) }
    ensures shorter { IfSome result (λ r. length r.1.now < length line.now) }
{
    front_literal(skip_blanks(line))
}

/// Whether a line says nothing: it has no fields, or the first begins with `c`, or the second is `d` and
/// the first is not `section`.
pub fn is_passed_over(line: &[u8]) -> bool
    ensures { result ≡ is_passed_over (fields_of line.now) }
{
    let Some((first, rest)) = next_field(line) else {
        return true;
    };
    if first[0] == b'c' {
        return true;
    }
    let Some((second, _)) = next_field(rest) else {
        return false;
    };
    second == b"d".as_slice() && first != b"section".as_slice()
}
