//! The sections of a proofs file.

ghost use Rattle.std.specs.Prelude.{◌≡◌, ◌⊎◌, ℕ, ◌+◌, ◌^◌, ◌<◌, ◌≤◌, List, length, map, take, IfOk, IfSome, MatchOption, MatchResult, Ok, Err, IsTrue, false};
ghost use Rattle.rg_words.specs.Refusals.{no_memory};
ghost use Rattle.rg_hint_lines.specs.Text.{fields_of};
ghost use Rattle.rg_hint_lines.specs.Sections.{is_head, whole_number, head_number, named_condition, sections_of};
ghost use Rattle.rg_hint_lines.specs.Located.{text_of, AreRising};
ghost use Rattle.rg_hint_lines.specs.Inner.SectionForms.{IsUpTo, IsPlainLine, BeginsWithHead, HasNoS, ArePlainLines, AreLinesBeforeHead, IsFront, IsFaultyFront, AreNamed, sections_after, HaveRoom};

use crate::refusal::refusal_at;
use crate::text::{
    is_blank, is_passed_over, line_feeds, next_field, skip, split_line, whole_lines_len,
};
use memchr::memchr;
use rg_words::{Refusal, RefusalNumber};
use std::alloc::Global;

/// A section: the number of its condition, from 1, the number of its first line in the file, and its bytes.
#[derive(Clone, Copy)]
pub struct SectionBytes<'a> {
    pub condition: u64,
    pub first_line: u64,
    pub bytes: &'a [u8],
}

/// Whether the first byte of a line shows that it is no head: it begins another field.
fn begins_otherwise(line: &[u8]) -> bool
    ensures { IsTrue result → is_head (fields_of line.now) ≡ false }
{
    match line {
        [] => true,
        [b's', ..] => false,
        [byte, ..] => !is_blank(*byte),
    }
}

/// Whether a line is meant as a head: its first field is `section`.
fn is_head(line: &[u8]) -> bool
    ensures { result ≡ is_head (fields_of line.now) }
{
    if begins_otherwise(line) {
        return false;
    }
    let Some((first, _)) = next_field(line) else {
        return false;
    };
    first == b"section".as_slice()
}

/// The number that a field writes by decimal digits; where it is greater than `most`, some number that is.
fn whole_number(field: &[u8], most: u64) -> Option<u128>
    ensures { MatchOption result (whole_number field.now ≡ None) (λ n. IsUpTo most n (whole_number field.now)) }
{
    let mut number = 0u128;
    for byte in field {
        if !byte.is_ascii_digit() {
            return None;
        }
        if number <= u128::from(most) {
            number = 10 * number + u128::from(*byte - b'0');
        }
    }
    if field.is_empty() {
        return None;
    }
    Some(number)
}

/// The number of a head; where it is greater than `most`, some number that is.
fn head_number(head: &[u8], most: u64) -> Option<u128>
    ensures { MatchOption result (head_number (fields_of head.now) ≡ None) (λ n. IsUpTo most n (head_number (fields_of head.now))) }
{
    let (_, rest) = next_field(head)?;
    let (number, rest) = next_field(rest)?;
    if next_field(rest).is_some() {
        return None;
    }
    whole_number(number, most)
}

/// The condition, of so many, that a head names, where the head before names the last one; that is 0 where
/// there is none.
fn condition_of(head: &[u8], count: u64, last: u64) -> Result<u64, RefusalNumber>
    requires { last ≤ count }
    ensures value { result ≡ named_condition count last (head_number (fields_of head.now)) }
    ensures above { IfOk result (λ k. (last < k) × (k ≤ count)) }
{
    let Some(number) = head_number(head, count) else {
        return Err(RefusalNumber::Unreadable);
    };
    if last > 0 && number <= u128::from(last) {
        return Err(RefusalNumber::IdOrder);
    }
    if number == 0 || number > u128::from(count) {
        return Err(RefusalNumber::UnknownCondition);
    }
    Ok(number as u64)
}

/// The text after its first line, where it has one that is no head.
fn after_plain_line(text: &[u8]) -> Option<&[u8]>
    ensures line { MatchOption result (BeginsWithHead text.now) (λ rest. IsPlainLine text.now rest.now) }
    ensures shorter { IfSome result (λ rest. length rest.now < length text.now) }
{
    if text.is_empty() {
        return None;
    }
    let (line, rest) = split_line(text);
    if is_head(line) {
        return None;
    }
    Some(rest)
}

/// The front of a text in which no `s` stands.
fn before_first_s(text: &[u8]) -> &[u8]
    ensures front { result.now ≡ take (length result.now) text.now }
    ensures bound { length result.now ≤ length text.now }
    ensures none { HasNoS result.now }
{
    match memchr(b's', text) {
        Some(place) => &text[..place],
        None => text,
    }
}

/// The text after those of its first lines that end before the first `s`, so that none of them is a head; and how many they are.
fn after_lines_without_s(text: &[u8]) -> (&[u8], u64)
    ensures lines { (front : List ℕ) × ArePlainLines text.now front result.0.now result.1 }
    ensures room { result.1 + length result.0.now ≤ length text.now }
{
    let end = whole_lines_len(before_first_s(text));
    (skip(text, end), line_feeds(&text[..end]))
}

/// The bytes before the first head of a text, and the count of their lines.
fn lines_before_head(text: &[u8]) -> (&[u8], u64)
    ensures lines { AreLinesBeforeHead text.now result.0.now result.1 }
    ensures room { result.1 ≤ length result.0.now }
    ensures bound { length result.0.now ≤ length text.now }
{
    let (mut rest, mut count) = after_lines_without_s(text);
    while let Some(after) = after_plain_line(rest) {
        let (others, more) = after_lines_without_s(after);
        rest = others;
        count += 1 + more;
    }
    (&text[..text.len() - rest.len()], count)
}

/// Whether each line of the front of a file is passed over. Refused with 41 at the first that isn't.
fn check_front(front: &[u8]) -> Result<(), Refusal>
    requires { 1 + length front.now < 2 ^ 64 }
    ensures { MatchResult result (λ _. IsFront front.now) (λ r. IsFaultyFront front.now r) }
{
    let mut rest = front;
    let mut number = 1;
    while !rest.is_empty() {
        let (line, after) = split_line(rest);
        if !is_passed_over(line) {
            return Err(refusal_at(RefusalNumber::Unreadable, number));
        }
        rest = after;
        number += 1;
    }
    Ok(())
}

/// The sections of a text that begins with a head, over so many conditions.
fn sections_after<'a>(
    alloc: Global,
    text: &'a [u8],
    first_line: u64,
    count: u64,
) -> Result<Vec<SectionBytes<'a>>, Refusal>
    requires begins { BeginsWithHead text.now }
    requires room { first_line + length text.now < 2 ^ 64 }
    ensures sections { MatchResult result
        (λ found. sections_after count first_line text.now ≡ Ok (map text_of found.items))
        (λ r. (r ≡ no_memory) ⊎ (sections_after count first_line text.now ≡ Err r)) }
    ensures rising { IfOk result (λ found. AreRising found.items) }
    ensures named { IfOk result (λ found. AreNamed found.items) }
    ensures fits { IfOk result (λ found. HaveRoom (first_line + length text.now) found.items) }
{
    let mut sections = Vec::new(alloc);
    let mut rest = text;
    let mut number = first_line;
    let mut last = 0;
    while !rest.is_empty() {
        let (head, after) = split_line(rest);
        let condition = match condition_of(head, count, last) {
            Ok(condition) => condition,
            Err(fault) => return Err(refusal_at(fault, number)),
        };
        let (bytes, lines) = lines_before_head(after);
        sections.push(SectionBytes {
            condition,
            first_line: number + 1,
            bytes,
        })?;
        last = condition;
        number = number + 1 + lines;
        rest = skip(after, bytes.len());
    }
    Ok(sections)
}

/// The sections of a proofs file, over so many conditions. No bytes are copied, and each is read once.
///
/// Refused at the first line at fault: with 41 before the first head, where the line isn't passed over; in a head
/// with 41 where its form isn't known, else with 43 where its number isn't above that of the head before, else with
/// 48 where it names no condition.
pub fn read_sections<'a>(
    alloc: Global,
    proofs: &'a [u8],
    count: u64,
) -> Result<Vec<SectionBytes<'a>>, Refusal>
    requires { 1 + length proofs.now < 2 ^ 64 }
    ensures sections { MatchResult result
        (λ found. sections_of count proofs.now ≡ Ok (map text_of found.items))
        (λ r. (r ≡ no_memory) ⊎ (sections_of count proofs.now ≡ Err r)) }
    ensures rising { IfOk result (λ found. AreRising found.items) }
    ensures named { IfOk result (λ found. AreNamed found.items) }
    ensures fits { IfOk result (λ found. HaveRoom (1 + length proofs.now) found.items) }
{
    let (front, lines) = lines_before_head(proofs);
    if let Err(refusal) = check_front(front) {
        return Err(refusal);
    }
    sections_after(alloc, skip(proofs, front.len()), lines + 1, count)
}
