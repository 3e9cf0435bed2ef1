//! Texts to show, and formulas, from their bytes.

ghost use Rattle.std.specs.Prelude.{◌≡◌, false, List, length, IfOk, IfErr};
ghost use Rattle.rg_words.specs.Layout.{Word, widths_of};
ghost use Rattle.rg_words.specs.Refusals.{no_memory};
ghost use Rattle.rg_tree.specs.Trees.{Proposition};
ghost use Rattle.rg_tree.specs.View.{formula as view};
ghost use Rattle.rg_tree.specs.Typing.{IsTyped};
ghost use Rattle.rg_tree.specs.Fits.{FormulaFits};
ghost use Rattle.rg_syntax.specs.declared.text_kind.TextKind.TheVariants as texts;
ghost use Rattle.rg_syntax.specs.Written.{claim, show_text};
ghost use Rattle.rg_resolve.specs.Faults.{claim_faults};
ghost use Rattle.rg_resolve.specs.Typing.{ClaimStandsFor};
ghost use Rattle.rg_parse.specs.Shown.{ShownStandsFor, faults_shown, SpellsShow, SpellsFormula, IsShowRefusal, IsFormulaRefusal, OneShown, OneFormulaShown};

use crate::parse::parse;
use crate::reader::{Reader, read};
use rg_resolve::resolve::{resolve_formula, resolve_shown};
use rg_syntax::written::{FormulaText, ShowText};
use rg_text::token::Token;
use rg_tree::tree::Formula;
use rg_words::{Layout, Refusal, SourceFile};
use std::alloc::Global;

/// The declared words and the formula that a text `words .. show ..` spells.
///
/// # Errors
///
/// The first fault, in file `text`, at the line of its token: first `Limit` (the text is too large) and `BadByte`; then of its
/// shape `Unexpected`, `Depth`, `Limit` (a 65th word), `Unfinished`; then of its meaning `UnknownName`, `NameTwice`, `Width`,
/// `NumberTooLarge`, `WidthsDiffer`, `WidthUnknown`, the least token first. `Memory` where memory is refused.
pub fn show(alloc: Global, source: &[u8]) -> Result<(Layout, Formula), Refusal>
    // What is read is what is written.
    ensures spells { IfOk result (λ r. SpellsShow source.now r.0 (view r.1)) }
    ensures typed { IfOk result (λ r. IsTyped (widths_of r.0) (view r.1)) }
    ensures fits { IfOk result (λ r. FormulaFits (view r.1) (length r.0)) }
    ensures refused { IfErr result (IsShowRefusal SourceFile.Text source.now) }
    // What is written is read, unless memory runs out.
    ensures accepts { (words : List Word) (f : Proposition) → SpellsShow source.now words f → IfErr result (λ e. e ≡ no_memory) }
{
    read(&ShowReader, alloc, SourceFile::Text, source)
}

/// The formula over declared words that a text spells. It may speak of two states.
///
/// # Errors
///
/// The first fault, in file `text`, at the line of its token, as for `show`.
pub fn formula(alloc: Global, layout: &Layout, source: &[u8]) -> Result<Formula, Refusal>
    // What is read is what is written.
    ensures spells { IfOk result (λ f. SpellsFormula layout.now source.now (view f)) }
    ensures typed { IfOk result (λ f. IsTyped (widths_of layout.now) (view f)) }
    ensures fits { IfOk result (λ f. FormulaFits (view f) (length layout.now)) }
    ensures refused { IfErr result (IsFormulaRefusal SourceFile.Text layout.now source.now) }
    // What is written is read, unless memory runs out.
    ensures accepts { (f : Proposition) → SpellsFormula layout.now source.now f → IfErr result (λ e. e ≡ no_memory) }
{
    read(&FormulaReader { layout }, alloc, SourceFile::Text, source)
}

/// Reads texts to show.
#[derive(Drop)]
struct ShowReader;

impl Reader for ShowReader {
    type Written = ShowText;

    type Answer = (Layout, Formula);

    ghost kind = { texts.Show };

    ghost says = { λ source written. show_text source written };

    ghost view = { λ shown. (shown.0, view shown.1) };

    ghost stands = { λ _ said shown. ShownStandsFor said shown };

    ghost faults = { λ _ said. faults_shown said };

    ghost holds = { λ _ shown. IsTyped (widths_of shown.0) (view shown.1) × FormulaFits (view shown.1) (length shown.0) };

    fn parse(
        &self,
        alloc: Global,
        file: SourceFile,
        tokens: &[Token],
    ) -> Result<ShowText, Refusal> {
        parse(alloc, file, tokens)
    }

    fn resolve(
        &self,
        alloc: Global,
        file: SourceFile,
        source: &[u8],
        written: &ShowText,
    ) -> Result<(Layout, Formula), Refusal> {
        match resolve_shown(alloc, file, source, &written.words, &written.formula) {
            Ok(shown) => {
                shown.0.facts();
                Ok(shown)
            }
            Err(refusal) => Err(refusal),
        }
    }
}

/// Reads formulas over declared words.
#[derive(Drop)]
struct FormulaReader<'a> {
    layout: &'a Layout,
}

impl Reader for FormulaReader<'_> {
    type Written = FormulaText;

    type Answer = Formula;

    ghost kind = { texts.Formula };

    ghost says = { λ source written. claim source written };

    ghost view = { λ formula. view formula };

    ghost stands = { λ reader said formula. ClaimStandsFor reader.layout.now false said formula };

    ghost faults = { λ reader said. claim_faults reader.layout.now false said };

    ghost holds = { λ reader formula. IsTyped (widths_of reader.layout.now) (view formula) × FormulaFits (view formula) (length reader.layout.now) };

    fn parse(
        &self,
        alloc: Global,
        file: SourceFile,
        tokens: &[Token],
    ) -> Result<FormulaText, Refusal> {
        parse(alloc, file, tokens)
    }

    fn resolve(
        &self,
        alloc: Global,
        file: SourceFile,
        source: &[u8],
        written: &FormulaText,
    ) -> Result<Formula, Refusal> {
        resolve_formula(alloc, self.layout, file, source, false, written)
    }
}

/// The same bytes spell one thing.
pub fn one_meaning()
    ensures show { OneShown }
    ensures formula { OneFormulaShown }
{}
