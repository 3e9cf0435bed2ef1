//! The listing of a code, as JSON text.

ghost use Rattle.std.specs.Prelude.{◌≡◌, ◌++◌, [], ◌∷◌, map, decimal, string_bytes, OnOk, IfOk};
ghost use Rattle.serde_json.specs.Data.{string as string_data};
ghost use Rattle.serde_json.specs.View.{view};
ghost use Rattle.serde_json.specs.Written.{compact_text};
ghost use Rattle.rg_code.specs.Code.{do_block, await_block, test_block, end_block};
ghost use Rattle.rg_code.specs.BlockView.{block as block_tree, store as store_tree};
ghost use Rattle.rgc_answers.specs.Listing.{listed_operator, listed_shift, listed_comparison, listed_connective, operation_text, number_data, list_data, operations_data, store_data, stores_data, block_data, part_data, word_data, listing_data};

use itoa::Buffer;
use rg_code::block::{Block, Store};
use rg_code::code::{Code, PartCode};
use rg_code::operation::Operation;
use rg_words::Layout;
use rg_words::operators::{Comparison, Connective, Operator, Shift};
use serde_json::{Value, json};
use std::alloc::{AllocError, Global};

/// A name, and a number after it.
fn numbered(alloc: Global, name: &str, n: u64) -> Result<String, AllocError>
    ensures { IfOk result (λ text. string_bytes text ≡ name.now ++ decimal n) }
{
    let mut text = String::from_str(alloc, name)?;
    let mut digits = Buffer::new();
    text.push_str(digits.format(n))?;
    Ok(text)
}

fn operator_text(alloc: Global, operator: Operator, width: u32) -> Result<String, AllocError>
    ensures { IfOk result (λ text. string_bytes text ≡ listed_operator operator width) }
{
    match operator {
        Operator::Add => numbered(alloc, "add ", u64::from(width)),
        Operator::Subtract => numbered(alloc, "sub ", u64::from(width)),
        Operator::BitAnd => String::from_str(alloc, "band"),
        Operator::BitOr => String::from_str(alloc, "bor"),
        Operator::BitXor => String::from_str(alloc, "bxor"),
    }
}

fn shift_text(alloc: Global, shift: Shift, width: u32, count: u32) -> Result<String, AllocError>
    ensures { IfOk result (λ text. string_bytes text ≡ listed_shift shift width count) }
{
    match shift {
        Shift::Left => {
            let mut text = numbered(alloc, "shl ", u64::from(width))?;
            text.push_str(" ")?;
            let mut digits = Buffer::new();
            text.push_str(digits.format(count))?;
            Ok(text)
        }
        Shift::Right => numbered(alloc, "shr ", u64::from(count)),
    }
}

fn comparison_text(comparison: Comparison) -> &'static str
    ensures { result.now ≡ listed_comparison comparison }
{
    match comparison {
        Comparison::Equal => "eq",
        Comparison::NotEqual => "ne",
        Comparison::Less => "lt",
        Comparison::LessOrEqual => "le",
        Comparison::Greater => "gt",
        Comparison::GreaterOrEqual => "ge",
    }
}

fn connective_text(connective: Connective) -> &'static str
    ensures { result.now ≡ listed_connective connective }
{
    match connective {
        Connective::And => "and",
        Connective::Or => "or",
        Connective::Implies => "implies",
        Connective::Iff => "iff",
    }
}

fn operation_text(alloc: Global, operation: Operation) -> Result<String, AllocError>
    ensures { IfOk result (λ text. string_bytes text ≡ operation_text operation) }
{
    match operation {
        Operation::Number(n) => numbered(alloc, "num ", n),
        Operation::Word(k) => numbered(alloc, "word ", k as u64),
        Operation::Inverse(width) => numbered(alloc, "inv ", u64::from(width)),
        Operation::Binary(operator, width) => operator_text(alloc, operator, width),
        Operation::Shifted(shift, width, count) => shift_text(alloc, shift, width, count),
        Operation::Pick => String::from_str(alloc, "pick"),
        Operation::Compare(comparison) => String::from_str(alloc, comparison_text(comparison)),
        Operation::Truth(b) => String::from_str(alloc, if b { "true" } else { "false" }),
        Operation::Not => String::from_str(alloc, "not"),
        Operation::Connect(connective) => String::from_str(alloc, connective_text(connective)),
    }
}

fn operations_value(alloc: Global, operations: &[Operation]) -> Result<Value, AllocError>
    ensures { IfOk result (λ v. view v ≡ operations_data operations.now) }
{
    let mut texts = Vec::new(alloc);
    for operation in operations {
        texts.push(Value::String(operation_text(alloc, *operation)?))?;
    }
    Ok(Value::Array(texts))
}

/// Adds an item at the end of a list.
fn put<T: Drop>(items: &mut Vec<T>, item: T) -> Result<(), AllocError>
    ensures { OnOk result (items.new.items ≡ items.old.items ++ item ∷ []) }
{
    items.push(item)?;
    Ok(())
}

/// Adds a text at the end of a list of values.
fn put_text(alloc: Global, items: &mut Vec<Value>, text: &str) -> Result<(), AllocError>
    ensures { OnOk result (map view items.new.items ≡ map view items.old.items ++ string_data text.now ∷ []) }
{
    let text = String::from_str(alloc, text)?;
    put(items, Value::String(text))
}

/// Adds a number at the end of a list of values.
fn put_number(items: &mut Vec<Value>, n: u64) -> Result<(), AllocError>
    ensures { OnOk result (map view items.new.items ≡ map view items.old.items ++ number_data n ∷ []) }
{
    put(items, Value::from(n))
}

fn store_value(alloc: Global, store: &Store) -> Result<Value, AllocError>
    ensures { IfOk result (λ v. view v ≡ store_data (store_tree store.now)) }
{
    let mut items = Vec::new(alloc);
    put_number(&mut items, store.word as u64)?;
    put(&mut items, operations_value(alloc, &store.value)?)?;
    Ok(Value::Array(items))
}

fn stores_value(alloc: Global, act: &[Store]) -> Result<Value, AllocError>
    ensures { IfOk result (λ v. view v ≡ stores_data (map store_tree act.now)) }
{
    let mut stores = Vec::new(alloc);
    for store in act {
        stores.push(store_value(alloc, store)?)?;
    }
    Ok(Value::Array(stores))
}

/// A block's name, its line and a place.
fn head(alloc: Global, name: &str, line: u32, place: usize) -> Result<Vec<Value>, AllocError>
    ensures { IfOk result (λ items. map view items.items ≡ string_data name.now ∷ number_data line ∷ number_data place ∷ []) }
{
    let mut items = Vec::new(alloc);
    put_text(alloc, &mut items, name)?;
    put_number(&mut items, u64::from(line))?;
    put_number(&mut items, place as u64)?;
    Ok(items)
}

fn do_value(alloc: Global, line: u32, next: usize, act: &[Store]) -> Result<Value, AllocError>
    ensures { IfOk result (λ v. view v ≡ block_data (do_block line next (map store_tree act.now))) }
{
    let mut items = head(alloc, "do", line, next)?;
    put(&mut items, stores_value(alloc, act)?)?;
    Ok(Value::Array(items))
}

fn await_value(
    alloc: Global,
    line: u32,
    next: usize,
    guard: &[Operation],
    act: &[Store],
) -> Result<Value, AllocError>
    ensures { IfOk result (λ v. view v ≡ block_data (await_block line next guard.now (map store_tree act.now))) }
{
    let mut items = head(alloc, "await", line, next)?;
    put(&mut items, operations_value(alloc, guard)?)?;
    put(&mut items, stores_value(alloc, act)?)?;
    Ok(Value::Array(items))
}

fn test_value(
    alloc: Global,
    line: u32,
    yes_place: usize,
    no_place: usize,
    guard: &[Operation],
) -> Result<Value, AllocError>
    ensures { IfOk result (λ v. view v ≡ block_data (test_block line yes_place no_place guard.now)) }
{
    let mut items = head(alloc, "test", line, yes_place)?;
    put_number(&mut items, no_place as u64)?;
    put(&mut items, operations_value(alloc, guard)?)?;
    Ok(Value::Array(items))
}

fn end_value(alloc: Global) -> Result<Value, AllocError>
    ensures { IfOk result (λ v. view v ≡ block_data end_block) }
{
    json!(in alloc; ["end"])
}

fn block_value(alloc: Global, block: &Block) -> Result<Value, AllocError>
    ensures { IfOk result (λ v. view v ≡ block_data (block_tree block.now)) }
{
    match block {
        Block::Do(line, next, act) => do_value(alloc, *line, *next, act),
        Block::Await(line, next, guard, act) => await_value(alloc, *line, *next, guard, act),
        Block::Test(line, yes_place, no_place, guard) => test_value(
            alloc, *line, *yes_place, *no_place, guard,
        ),
        Block::End => end_value(alloc),
    }
}

fn blocks_value(alloc: Global, blocks: &[Block]) -> Result<Value, AllocError>
    ensures { IfOk result (λ v. view v ≡ list_data (map block_data (map block_tree blocks.now))) }
{
    let mut values = Vec::new(alloc);
    for block in blocks {
        values.push(block_value(alloc, block)?)?;
    }
    Ok(Value::Array(values))
}

fn part_value(alloc: Global, part: &PartCode) -> Result<Value, AllocError>
    ensures { IfOk result (λ v. view v ≡ part_data part.now) }
{
    let blocks = blocks_value(alloc, &part.blocks)?;
    json!(in alloc; {"blocks": blocks, "name": part.name.as_str()})
}

fn parts_value(alloc: Global, parts: &[PartCode]) -> Result<Value, AllocError>
    ensures { IfOk result (λ v. view v ≡ list_data (map part_data parts.now)) }
{
    let mut values = Vec::new(alloc);
    for part in parts {
        values.push(part_value(alloc, part)?)?;
    }
    Ok(Value::Array(values))
}

fn word_value(alloc: Global, name: &str, width: u32, fixed: bool) -> Result<Value, AllocError>
    ensures { IfOk result (λ v. view v ≡ word_data (record { name = name.now; width = width; fixed = fixed })) }
{
    let mut items = Vec::new(alloc);
    put_text(alloc, &mut items, name)?;
    put_number(&mut items, u64::from(width))?;
    if fixed {
        put_text(alloc, &mut items, "fixed")?;
    }
    Ok(Value::Array(items))
}

fn words_value(alloc: Global, layout: &Layout) -> Result<Value, AllocError>
    ensures { IfOk result (λ v. view v ≡ list_data (map word_data layout.now)) }
{
    let mut values = Vec::new(alloc);
    for word in 0..layout.len() {
        let fixed = layout.is_fixed(word);
        values.push(word_value(alloc, layout.name(word), layout.width(word), fixed)?)?;
    }
    Ok(Value::Array(values))
}

fn code_value(alloc: Global, code: &Code) -> Result<Value, AllocError>
    ensures { IfOk result (λ v. view v ≡ listing_data code.now) }
{
    let parts = parts_value(alloc, &code.parts)?;
    let words = words_value(alloc, &code.layout)?;
    json!(in alloc; {"parts": parts, "words": words})
}

/// The listing of a code: compact JSON, with keys in the order of their bytes, of its parts (their blocks and their names)
/// and its words (their names and widths, and `fixed`).
///
/// Refused only where memory was refused.
pub fn listing(alloc: Global, code: &Code) -> Result<String, AllocError>
    ensures { IfOk result (λ text. string_bytes text ≡ compact_text (listing_data code.now)) }
{
    let value = code_value(alloc, code)?;
    value.to_string(alloc)
}
