//! The conditions of a derivation as texts to show.

ghost use Rattle.std.specs.Prelude.{◌≡◌, ◌<◌, length, map, string_bytes, IfOk};
ghost use Rattle.rg_tree.specs.Conditions.{condition_tree};
ghost use Rattle.rg_accept.specs.Stages.{derived_program, derived_lines};
ghost use Rattle.rgc_answers.specs.Blocks.{fixed_text, words_text, shown_text, block_text, blocks_text, formulas_text};
ghost use Rattle.rgc_answers.specs.Inner.Blocks.{declaration};

use crate::formulas::formula_of;
use itoa::Buffer;
use rg_tree::condition::Condition;
use rg_tree::print::print;
use rg_words::Layout;
use rgc::Derived;
use std::alloc::{AllocError, Global};

/// What stands before the name of a word.
fn fixed_text(fixed: bool) -> &'static str
    ensures { result.now ≡ fixed_text fixed }
{
    if fixed { " fixed " } else { " " }
}

/// The declaration of a word. As with all calls of this file that give a text, an error comes only where memory was refused.
fn word_text(alloc: Global, layout: &Layout, word: usize) -> Result<String, AllocError>
    requires { word < length layout.now }
    ensures { IfOk result (λ t. string_bytes t ≡ declaration layout.now word) }
{
    let before = fixed_text(layout.is_fixed(word));
    let name = layout.name(word);
    let mut digits = Buffer::new();
    let width = digits.format(layout.width(word));
    format!(in alloc; "{before}{name}:{width}")
}

/// The declarations of all words of a layout.
fn words_text(alloc: Global, layout: &Layout) -> Result<String, AllocError>
    ensures { IfOk result (λ t. string_bytes t ≡ words_text layout.now) }
{
    let mut text = String::new(alloc);
    for word in 0..layout.len() {
        let declared = word_text(alloc, layout, word)?;
        text.push_str(&declared)?;
    }
    Ok(text)
}

/// A condition as a text to show.
fn shown_text(alloc: Global, c: &Condition) -> Result<String, AllocError>
    ensures { IfOk result (λ t. string_bytes t ≡ shown_text (condition_tree c.now)) }
{
    let formula = formula_of(alloc, c)?;
    let formula = print(alloc, &c.layout, &formula)?;
    let words = words_text(alloc, &c.layout)?;
    format!(in alloc; "words{words}\nshow {formula}\n")
}

/// A condition's number and name, its text, and an empty line.
fn block_text(alloc: Global, number: usize, name: &str, c: &Condition) -> Result<String, AllocError>
    ensures { IfOk result (λ t. string_bytes t ≡ block_text number name.now (condition_tree c.now)) }
{
    let shown = shown_text(alloc, c)?;
    let mut digits = Buffer::new();
    let number = digits.format(number);
    format!(in alloc; "{number} {name}\n{shown}\n")
}

/// Conditions with their names, which are numbered from 1: as many as there are of both.
fn blocks_text(
    alloc: Global,
    names: &[String],
    conditions: &[Condition],
) -> Result<String, AllocError>
    ensures { IfOk result (λ text. string_bytes text ≡ blocks_text 1 (map string_bytes names.now) (map condition_tree conditions.now)) }
{
    let mut text = String::new(alloc);
    let count = names.len().min(conditions.len());
    for i in 0..count {
        let block = block_text(alloc, i + 1, &names[i], &conditions[i])?;
        text.push_str(&block)?;
    }
    Ok(text)
}

/// Each condition of a program's derivation as a text to show: a line with its number, from 1, and its name, then a line with the words
/// and a line with the formula, which `rgc find`, `rgc valid` and `rgc clauses` read, and an empty line.
pub fn formulas_text(alloc: Global, derived: &Derived) -> Result<String, AllocError>
    ensures { IfOk result (λ text. string_bytes text ≡ formulas_text (derived_program derived.now) (derived_lines derived.now)) }
{
    let names = derived.names(alloc)?;
    let conditions = derived.conditions(alloc)?;
    blocks_text(alloc, names.as_slice(), conditions.as_slice())
}
