//! Choices that are an item of an array at an index.

ghost use Rattle.std.specs.Prelude.{◌≡◌, ◌<◌, ◌≤◌, length, IfSome};
ghost use Rattle.std.specs.List.{list_all, range_with_len};
ghost use Rattle.rg_words.specs.Layout.{widths_of};
ghost use Rattle.rg_c_values.specs.View.{value, test};
ghost use Rattle.rg_c_values.specs.Items.{is_operator, is_value, word_in, is_with_word, is_at, chooses, is_number_below, is_below, read_of, is_read_alike, are_read_alike, is_item_at, item_in};

use crate::arrays::array_length;
use crate::print::Read;
use crate::tree::{Test, Value};
use rg_words::Layout;
use rg_words::operators::{Comparison, Operator};

/// Whether two operators are the same.
fn is_operator(o: Operator, p: Operator) -> bool
    ensures { result ≡ is_operator o p }
{
    matches!(
        (o, p),
        (Operator::Add, Operator::Add)
            | (Operator::Subtract, Operator::Subtract)
            | (Operator::BitAnd, Operator::BitAnd)
            | (Operator::BitOr, Operator::BitOr)
            | (Operator::BitXor, Operator::BitXor)
    )
}

/// Whether two values are the same: words, numbers, casts, remainders and operations on such.
#[cycle(same)]
pub fn is_value(v: &Value, u: &Value) -> bool
    ensures { result ≡ is_value (value v.now) (value u.now) }
{
    match (v, u) {
        (Value::Literal(n), Value::Literal(m)) => *n == *m,
        (Value::Word(c, k), Value::Word(d, j)) => *c == *d && *k == *j,
        (Value::Cast(n, v), Value::Cast(m, u)) => *n == *m && is_value(v, u),
        (Value::Binary(o, g, a, b), Value::Binary(p, h, c, d)) => {
            is_operator(*o, *p) && *g == *h && is_value(a, c) && is_value(b, d)
        }
        (Value::Rest(g, v, n), Value::Rest(h, u, m)) => *g == *h && *n == *m && is_value(v, u),
        _ => false,
    }
}

/// The word that a value is, perhaps cast.
#[cycle(word)]
fn word_in(v: &Value) -> Option<usize>
    ensures { result ≡ word_in (value v.now) }
{
    match v {
        Value::Word(_, k) => Some(*k),
        Value::Cast(_, v) => word_in(v),
        _ => None,
    }
}

/// Whether the second value is what the first one is, of this word.
#[cycle(other)]
fn is_with_word(word: usize, v: &Value, u: &Value) -> bool
    ensures { result ≡ is_with_word word (value v.now) (value u.now) }
{
    match (v, u) {
        (Value::Word(c, _), Value::Word(d, j)) => *c == *d && *j == word,
        (Value::Cast(n, v), Value::Cast(m, u)) => *n == *m && is_with_word(word, v, u),
        _ => false,
    }
}

/// Whether a test is that this index is this number.
pub fn is_at(index: &Value, number: usize, t: &Test) -> bool
    ensures { result ≡ is_at (value index.now) number (test t.now) }
{
    match t {
        Test::Compared(Comparison::Equal, a, Value::Literal(n)) => {
            is_value(index, a) && number as u64 == *n
        }
        _ => false,
    }
}

/// Whether a value is the item at an index of so many from a word on, where all items before this one were compared with.
#[cycle(chosen)]
fn chooses(
    index: &Value,
    of_first: &Value,
    first: usize,
    count: usize,
    item: usize,
    v: &Value,
) -> bool
    requires item { item < count }
    requires count { count ≤ 64 }
    requires first { first ≤ 64 }
    ensures { result ≡ chooses (value index.now) (value of_first.now) first count item (value v.now) }
{
    match v {
        Value::Choice(t, b, c) => {
            item + 1 < count
                && is_at(index, item, t)
                && is_with_word(first + item, of_first, b)
                && chooses(index, of_first, first, count, item + 1, c)
        }
        _ => item + 1 == count && is_with_word(first + item, of_first, v),
    }
}

/// Whether a value is seen to be below a number.
#[cycle(below)]
pub fn is_below(layout: &Layout, n: usize, v: &Value) -> bool
    ensures { result ≡ is_below layout.now n (value v.now) }
{
    match v {
        Value::Word(_, k) => *k < layout.len() && 1u128 << layout.width(*k) <= n as u128,
        Value::Cast(_, v) => is_below(layout, n, v),
        Value::Binary(Operator::BitAnd, _, _, b) => is_number_below(n, b),
        Value::Rest(_, _, m) => 0 < *m && *m <= n as u64,
        _ => false,
    }
}

/// Whether a value is a number below this one.
fn is_number_below(n: usize, v: &Value) -> bool
    ensures { result ≡ is_number_below n (value v.now) }
{
    match v {
        Value::Literal(m) => *m < n as u64,
        _ => false,
    }
}

/// How a word is read.
pub(crate) fn read_of(reads: &[Read], word: usize) -> Read
    ensures { result ≡ read_of reads.now word }
{
    match reads.get(word) {
        Some(read) => *read,
        None => Read::Plain,
    }
}

/// Whether both are read from the struct, or both by a load.
fn is_read_alike(r: Read, s: Read) -> bool
    ensures { result ≡ is_read_alike r s }
{
    matches!(
        (r, s),
        (Read::Plain, Read::Plain) | (Read::Load, Read::Load)
    )
}

/// Whether so many words from this one on are read alike.
#[tactic(auto, using(crate::proofs::Places::range_more, crate::proofs::Places::range_over))]
fn are_read_alike(reads: &[Read], first: usize, count: usize) -> bool
    requires count { count ≤ 64 }
    requires first { first ≤ 64 }
    ensures { result ≡ are_read_alike reads.now first count }
{
    for item in 0..count {
        if !is_read_alike(read_of(reads, first), read_of(reads, first + item)) {
            return false;
        }
    }
    true
}

/// Whether a value is the item at this index of the array that begins at a word.
fn is_item_at(
    layout: &Layout,
    reads: &[Read],
    index: &Value,
    of_first: &Value,
    first: usize,
    v: &Value,
) -> bool
    requires { first < length layout.now }
    ensures { result ≡ is_item_at layout.now reads.now (value index.now) (value of_first.now) first (value v.now) }
{
    layout.facts();
    let count = array_length(layout, first);
    count > 1
        && are_read_alike(reads, first, count)
        && is_below(layout, count, index)
        && chooses(index, of_first, first, count, 0, v)
}

/// Where the array begins of which a value is an item at an index, if it is one.
pub(crate) fn item_in(layout: &Layout, reads: &[Read], v: &Value) -> Option<usize>
    ensures exact { result ≡ item_in layout.now reads.now (value v.now) }
    ensures within { IfSome result (λ first. first < length layout.now) }
{
    let Value::Choice(t, a, _) = v else {
        return None;
    };
    let Test::Compared(_, index, _) = &**t else {
        return None;
    };
    let first = word_in(a)?;
    if first < layout.len() && is_item_at(layout, reads, index, a, first, v) {
        Some(first)
    } else {
        None
    }
}
