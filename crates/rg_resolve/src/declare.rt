//! The declared words of a text, or the first fault of their declarations.

ghost use Rattle.std.specs.Prelude.{◌≡◌, ◌≤◌, ◌<◌, [], ◌∷◌, ◌++◌, length, map, All, OnOk, IfOk, IfErr, ◌⊎◌};
ghost use Rattle.rg_words.specs.Names.{IsName};
ghost use Rattle.rg_words.specs.Layout.{IsWidth, IsLayout};
ghost use Rattle.rg_words.specs.Refusals.{no_memory};
ghost use Rattle.rg_text.specs.Text.{text_of, leaf_of};
ghost use Rattle.rg_syntax.specs.Written.{declared_word};
ghost use Rattle.rg_resolve.specs.Faults.{number_of, IsRefusal};
ghost use Rattle.rg_resolve.specs.Words.{word_of, words_of, name_faults, width_faults, declaration_faults};

use rg_leaves::leaf::{find, number, text};
use rg_syntax::written::Declaration;
use rg_text::token::Token;
use rg_words::limits::{MOST_WIDTH, MOST_WORDS};
use rg_words::names::as_name;
use rg_words::{Layout, Place, Refusal, RefusalNumber, SourceFile};
use std::alloc::Global;

/// A width from 1 to 64.
#[tactic(auto, using(rg_leaves::proofs::Refusals::refusals))]
fn width_of(file: SourceFile, source: &[u8], token: &Token) -> Result<u32, Refusal>
    ensures value { IfOk result (λ width. width ≡ number_of (text_of source.now token.now)) }
    ensures range { IfOk result (λ width. IsWidth width) }
    ensures faultless { OnOk result (width_faults (leaf_of source.now token.now) ≡ []) }
    ensures fault { IfErr result (λ refusal. IsRefusal file (width_faults (leaf_of source.now token.now)) refusal) }
{
    match number(text(source, token)) {
        Some(width) if width >= 1 && width <= u64::from(MOST_WIDTH) => Ok(width as u32),
        _ => Err(Refusal::at(
            RefusalNumber::Width,
            file,
            Place::Line(u64::from(token.line)),
        )),
    }
}

/// Puts a declared word after the others.
#[tactic(auto, using(rg_leaves::proofs::Refusals::refusals))]
fn declare_word(
    layout: &mut Layout,
    file: SourceFile,
    source: &[u8],
    declaration: &Declaration,
) -> Result<(), Refusal>
    requires name { IsName (text_of source.now declaration.now.name) }
    requires room { length layout.old < MOST_WORDS }
    ensures word { OnOk result (layout.new ≡ layout.old ++ word_of (declared_word source.now declaration.now) ∷ []) }
    ensures faultless { OnOk result (name_faults layout.old (leaf_of source.now declaration.now.name)
        ++ width_faults (leaf_of source.now declaration.now.width)
        ≡ []) }
    ensures fault { IfErr result (λ refusal. IsRefusal file
        (name_faults layout.old (leaf_of source.now declaration.now.name) ++ width_faults (leaf_of source.now declaration.now.width))
        refusal) }
{
    let name = text(source, &declaration.name);
    if find(layout, name).is_some() {
        let line = Place::Line(u64::from(declaration.name.line));
        return Err(Refusal::at(RefusalNumber::NameTwice, file, line));
    }
    let width = width_of(file, source, &declaration.width)?;
    let Some(name) = as_name(name) else {
        unreachable!()
    };
    if declaration.fixed {
        layout.add_fixed(name, width)?;
    } else {
        layout.add(name, width)?;
    }
    Ok(())
}

/// The declared words, in order, of declarations whose tokens are of the source.
///
/// Refused at the least token that is at fault, at its line: 4 the name of a second declaration of a name, 5 a width
/// that isn't from 1 to 64. 99 where memory was refused.
pub fn declare(
    alloc: Global,
    file: SourceFile,
    source: &[u8],
    declarations: &[Declaration],
) -> Result<Layout, Refusal>
    requires names { All (λ d. IsName (text_of source.now d.name)) declarations.now }
    requires count { length declarations.now ≤ MOST_WORDS }
    ensures words { IfOk result (λ layout. layout ≡ words_of (map (declared_word source.now) declarations.now)) }
    // They are the words of a layout, and where they aren't the declarations are refused.
    ensures refused { IfErr result (λ refusal. (refusal ≡ no_memory)
        ⊎ (IsLayout (words_of (map (declared_word source.now) declarations.now)) → ⊥)) }
    ensures faultless { OnOk result (declaration_faults (map (declared_word source.now) declarations.now) ≡ []) }
    ensures fault { IfErr result (λ refusal. IsRefusal file (declaration_faults (map (declared_word source.now) declarations.now)) refusal) }
{
    let mut layout = Layout::new(alloc);
    for declaration in declarations {
        declare_word(&mut layout, file, source, declaration)?;
    }
    Ok(layout)
}
