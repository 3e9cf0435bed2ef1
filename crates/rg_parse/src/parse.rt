//! The trees that tokens spell, or the refusal of the first fault of their shape.

ghost use Rattle.std.specs.Prelude.{◌≡◌, ◌≢◌, ℕ, List, [], map, IfOk, IfErr, IsSomeAnd};
ghost use Rattle.rg_words.specs.Refusals.{no_memory};
ghost use Rattle.rg_syntax.specs.Grammar.{Spelling, spelled, lexeme_of};
ghost use Rattle.rg_syntax.specs.declared.text_kind.TextKind.{TextKind};
ghost use Rattle.rg_syntax.specs.declared.text_kind.TextKind.TheVariants as texts;
ghost use Rattle.rg_syntax.specs.Limits.{IsTextWithin};
ghost use Rattle.rg_syntax.specs.Written.{claim, show_text, setting, move_text, line_text};
ghost use Rattle.rg_parse.specs.Parse.{IsShapeRefusal, refusal_of, unexpected_in, line_at, last_line};
ghost use Rattle.rg_parse.specs.Spelled.{Said, said, IsParsed, IsWithin};
ghost use Rattle.rg_syntax.specs.OneReading.{OneFormula, OneShow, OneStart, OneMoves, OneDerivation};

use rg_build::{build_derivation, build_formula, build_moves, build_show, build_start};
use rg_shape::shape::{ShapeFault, shape};
use rg_syntax::TextKind;
use rg_syntax::written::{FormulaText, LineText, MoveText, Setting, ShowText};
use rg_text::token::Token;
use rg_words::{Place, Refusal, RefusalNumber, SourceFile};
use std::alloc::{AllocError, Global};

/// A tree that the tokens of a text of one kind spell. A program, whose statements are counted too, is parsed by `parse_program`.
pub trait Text: Sized + Drop {
    /// The kind of text.
    ghost kind: { TextKind };

    /// What the tree says, whose words and numbers are of these bytes.
    ghost says: { List ℕ → Self → Said kind };

    /// The kind of text.
    fn kind() -> TextKind
        ensures { result ≡ kind };

    /// The tree, where the tokens spell one.
    fn build(alloc: Global, tokens: &[Token]) -> Result<Option<Self>, AllocError>
        ensures { (src : List ℕ) (s : Spelling kind) → map (lexeme_of src) tokens.now ≡ spelled kind s []
            → IfOk result (λ built. IsSomeAnd built (λ tree. says src tree ≡ said kind s)) };

    /// It isn't that of programs.
    ghost is_plain: { kind ≢ texts.Program };
}

impl Text for FormulaText {
    ghost kind = { texts.Formula };

    ghost says = { λ source tree. claim source tree };

    fn kind() -> TextKind {
        TextKind::Formula
    }

    fn build(alloc: Global, tokens: &[Token]) -> Result<Option<FormulaText>, AllocError> {
        build_formula(alloc, tokens)
    }

    ghost is_plain = { λ same. cc };
}

impl Text for ShowText {
    ghost kind = { texts.Show };

    ghost says = { λ source tree. show_text source tree };

    fn kind() -> TextKind {
        TextKind::Show
    }

    fn build(alloc: Global, tokens: &[Token]) -> Result<Option<ShowText>, AllocError> {
        build_show(alloc, tokens)
    }

    ghost is_plain = { λ same. cc };
}

impl Text for Vec<Setting> {
    ghost kind = { texts.Start };

    ghost says = { λ source tree. map (setting source) tree.items };

    fn kind() -> TextKind {
        TextKind::Start
    }

    fn build(alloc: Global, tokens: &[Token]) -> Result<Option<Vec<Setting>>, AllocError> {
        build_start(alloc, tokens)
    }

    ghost is_plain = { λ same. cc };
}

impl Text for Vec<MoveText> {
    ghost kind = { texts.Moves };

    ghost says = { λ source tree. map (move_text source) tree.items };

    fn kind() -> TextKind {
        TextKind::Moves
    }

    fn build(alloc: Global, tokens: &[Token]) -> Result<Option<Vec<MoveText>>, AllocError> {
        build_moves(alloc, tokens)
    }

    ghost is_plain = { λ same. cc };
}

impl Text for Vec<LineText> {
    ghost kind = { texts.Derivation };

    ghost says = { λ source tree. map (line_text source) tree.items };

    fn kind() -> TextKind {
        TextKind::Derivation
    }

    fn build(alloc: Global, tokens: &[Token]) -> Result<Option<Vec<LineText>>, AllocError> {
        let lines = build_derivation(alloc, tokens)?;
        Ok(Some(lines))
    }

    ghost is_plain = { λ same. cc };
}

/// The tree that the tokens of a file spell.
///
/// # Errors
///
/// The first token, in their order, that is
///
/// - `Unexpected` (in a derivation `UnexpectedInDerivation`): the tokens up to it begin no such text;
/// - `Depth`: an opener inside 200 others, or the connective before a 65th operand of a chain. The `if` that names a rule opens
///   nothing;
/// - `Limit`: the first token of a 65th word of a text to show, and the `line` of a 20,001st line of a derivation;
///
/// at its line. Then `Unfinished`, at the line of the last token or 1, where the tokens end too early. `Memory` where memory is
/// refused.
pub fn parse<T: Text>(alloc: Global, file: SourceFile, tokens: &[Token]) -> Result<T, Refusal>
    ensures answers { (src : List ℕ) → IsParsed T.kind (T.says src) file src tokens.now result }
    ensures accepts { (src : List ℕ) → IsWithin T.kind (map (lexeme_of src) tokens.now) → IfErr result (λ e. e ≡ no_memory) }
{
    check_shape(alloc, T::kind(), file, tokens)?;
    match T::build(alloc, tokens)? {
        Some(tree) => Ok(tree),
        None => unreachable!(),
    }
}

/// The same tokens say one thing: two spellings of them have one tree.
pub fn one_tree()
    ensures formula { OneFormula }
    ensures show { OneShow }
    ensures start { OneStart }
    ensures moves { OneMoves }
    ensures derivation { OneDerivation }
{}

/// Refuses the first fault of shape.
fn check_shape(
    alloc: Global,
    text: TextKind,
    file: SourceFile,
    tokens: &[Token],
) -> Result<(), Refusal>
    ensures within { (src : List ℕ) → IfOk result (λ _. IsTextWithin text (map (lexeme_of src) tokens.now)) }
    ensures refused { (src : List ℕ) → IfErr result (IsShapeRefusal text file src tokens.now) }
    ensures accepts { (src : List ℕ) → IsTextWithin text (map (lexeme_of src) tokens.now) → IfErr result (λ e. e ≡ no_memory) }
{
    match shape(alloc, text, tokens) {
        Ok(()) => Ok(()),
        Err(fault) => Err(refusal(file, tokens, fault)),
    }
}

/// The refusal that reports a fault of shape: `Unexpected` (in a derivation `UnexpectedInDerivation`), `Depth` and `Limit` at the
/// line of the token, `Unfinished` at the line of the last token, 1 where there is none, and `Memory`.
pub fn refusal(file: SourceFile, tokens: &[Token], fault: ShapeFault) -> Refusal
    ensures { result ≡ refusal_of file tokens.now fault }
{
    let (number, line) = match fault {
        ShapeFault::Memory => return Refusal::new(RefusalNumber::Memory),
        ShapeFault::Unexpected(place) => (unexpected_in(file), line_at(tokens, place)),
        ShapeFault::TooDeep(place) => (RefusalNumber::Depth, line_at(tokens, place)),
        ShapeFault::TooMany(place) => (RefusalNumber::Limit, line_at(tokens, place)),
        ShapeFault::Unfinished => (RefusalNumber::Unfinished, last_line(tokens)),
    };
    Refusal::at(number, file, Place::Line(line))
}

/// The number of an unexpected token in this file.
fn unexpected_in(file: SourceFile) -> RefusalNumber
    ensures { result ≡ unexpected_in file }
{
    match file {
        SourceFile::Derivation => RefusalNumber::UnexpectedInDerivation,
        _ => RefusalNumber::Unexpected,
    }
}

/// The line of a token, and 1 where there is none.
fn line_at(tokens: &[Token], place: usize) -> u64
    ensures { result ≡ line_at tokens.now place }
{
    match tokens.get(place) {
        Some(token) => u64::from(token.line),
        None => 1,
    }
}

/// The line of the last token, and 1 where there is none.
fn last_line(tokens: &[Token]) -> u64
    ensures { result ≡ last_line tokens.now }
{
    line_at(tokens, tokens.len().saturating_sub(1))
}
