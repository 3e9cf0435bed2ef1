//! The lines of a derivation over declared words, from their bytes.

ghost use Rattle.std.specs.Prelude.{◌≡◌, ℕ, List, map, IfOk, IfErr};
ghost use Rattle.rg_words.specs.Refusals.{no_memory};
ghost use Rattle.rg_tree.specs.Lines.{LineTree, line_tree, AreTypedLines};
ghost use Rattle.rg_syntax.specs.declared.text_kind.TextKind.TheVariants as texts;
ghost use Rattle.rg_syntax.specs.Written.{line_text};
ghost use Rattle.rg_resolve.specs.Derivations.{derivation_faults, DerivationStandsFor};
ghost use Rattle.rg_parse.specs.Derivations.{SpellsDerivation, IsDerivationTextRefusal, OneSpelledDerivation};

use crate::parse::parse;
use crate::reader::{Reader, read_with_last_line};
use rg_resolve::resolve::resolve_derivation;
use rg_syntax::written::LineText;
use rg_text::token::Token;
use rg_tree::line::DerivationLine;
use rg_words::{Layout, Refusal, SourceFile};
use std::alloc::Global;

/// The lines of a derivation that a source spells, `line 1 basic 1 pre true rely true guar true post true` and so on, and the line
/// of its last token, 1 where there is none. Whether the lines fit a program isn't asked here.
///
/// # Errors
///
/// The first fault, in the file `derivation`. First `Limit` at line 1 (the file is too large) and `BadByte` at the byte's line. Then
/// of its shape, at the line of the token, `UnexpectedInDerivation`, `Depth` and `Limit`, and `Unfinished` at the last line. Then of
/// its meaning, the least token first: `NumberTooLarge` for a number of a line above 4,294,967,295, and the faults of its formulas
/// as `rg_resolve::resolve::resolve_formula` reports them. `Memory` where memory was refused.
pub fn derivation(
    alloc: Global,
    layout: &Layout,
    source: &[u8],
) -> Result<(Vec<DerivationLine>, u32), Refusal>
    // What is read is what is written.
    ensures spells { IfOk result (λ r. SpellsDerivation layout.now source.now (map line_tree r.0.items) r.1) }
    ensures typed { IfOk result (λ r. AreTypedLines layout.now (map line_tree r.0.items)) }
    ensures refused { IfErr result (IsDerivationTextRefusal layout.now source.now) }
    // What is written is read, unless memory runs out.
    ensures accepts { (ls : List LineTree) (last : ℕ) → SpellsDerivation layout.now source.now ls last → IfErr result (λ e. e ≡ no_memory) }
{
    read_with_last_line(
        &DerivationReader { layout },
        alloc,
        SourceFile::Derivation,
        source,
    )
}

/// Reads derivations over declared words.
#[derive(Drop)]
struct DerivationReader<'a> {
    layout: &'a Layout,
}

impl Reader for DerivationReader<'_> {
    type Written = Vec<LineText>;

    type Answer = Vec<DerivationLine>;

    ghost kind = { texts.Derivation };

    ghost says = { λ source written. map (line_text source) written.items };

    ghost view = { λ lines. map line_tree lines.items };

    ghost stands = { λ reader said lines. DerivationStandsFor reader.layout.now said lines };

    ghost faults = { λ reader said. derivation_faults reader.layout.now said };

    ghost holds = { λ reader lines. AreTypedLines reader.layout.now (map line_tree lines.items) };

    fn parse(
        &self,
        alloc: Global,
        file: SourceFile,
        tokens: &[Token],
    ) -> Result<Vec<LineText>, Refusal> {
        parse(alloc, file, tokens)
    }

    fn resolve(
        &self,
        alloc: Global,
        file: SourceFile,
        source: &[u8],
        written: &Vec<LineText>,
    ) -> Result<Vec<DerivationLine>, Refusal> {
        resolve_derivation(alloc, self.layout, file, source, written)
    }
}

/// The same bytes over the same words spell one list of lines.
pub fn one_derivation()
    ensures { OneSpelledDerivation }
{}
