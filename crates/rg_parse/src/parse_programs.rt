//! The tree that the tokens of a program spell, or the refusal of the first fault of their shape.

ghost use Rattle.std.specs.Prelude.{◌≡◌, ℕ, List, map, take, slice_get, Some, None, Err, IfErr};
ghost use Rattle.rg_words.specs.Refusals.{no_memory, refused_at};
ghost use Rattle.rg_syntax.specs.Grammar.{lexeme_of};
ghost use Rattle.rg_shape.specs.Shape.{ShapeIs};
ghost use Rattle.rg_syntax.specs.Limits.{IsTextWithin};
ghost use Rattle.rg_syntax.specs.Begun.{OneBeginning, AllBegun};
ghost use Rattle.rg_syntax.specs.Written.{program_text};
ghost use Rattle.rg_parse.specs.Spelled.{IsParsed, IsWithin};
ghost use Rattle.rg_parse.specs.ParseProgram.{IsProgramShapeRefusal, reported_fault, reported_at, after_semicolon, met_before};
ghost use Rattle.rg_syntax.specs.OneReading.{OneProgram};

use crate::parse::refusal;
use rg_build::{begun_too_many, build_program};
use rg_shape::shape::{ShapeFault, shape};
use rg_syntax::TextKind;
use rg_syntax::written::ProgramText;
use rg_text::kind::{Kind, Terminal};
use rg_text::token::Token;
use rg_words::{Place, Refusal, RefusalNumber, SourceFile};
use std::alloc::Global;

/// The fault at a place after the `;` of an await that is full.
fn after_semicolon(tokens: &[Token], place: usize) -> ShapeFault
    ensures { (src : List ℕ) → result ≡ after_semicolon place (slice_get (map (lexeme_of src) tokens.now) place) }
{
    match tokens.get(place) {
        None => ShapeFault::Unfinished,
        Some(token) => match token.kind {
            Kind::Name => ShapeFault::TooMany(place),
            _ => ShapeFault::Unexpected(place),
        },
    }
}

/// The fault that is reported: of an assignment too many its name, which stands after the `;` where the shape pass finds it.
fn reported_fault(tokens: &[Token], fault: ShapeFault) -> ShapeFault
    ensures { (src : List ℕ) → result ≡ reported_fault (map (lexeme_of src) tokens.now) fault }
{
    match fault {
        ShapeFault::TooMany(place) => match tokens.get(place) {
            Some(token) => match token.kind {
                Kind::Fixed(Terminal::Semicolon) => after_semicolon(tokens, place + 1),
                _ => ShapeFault::TooMany(place),
            },
            None => ShapeFault::TooMany(place),
        },
        other => other,
    }
}

/// The first tokens, all where there are no more.
fn first(tokens: &[Token], count: usize) -> &[Token]
    ensures { result.now ≡ take count tokens.now }
{
    if count < tokens.len() {
        &tokens[..count]
    } else {
        tokens
    }
}

/// The tokens before a fault.
fn met_before<'a>(tokens: &'a [Token], fault: &ShapeFault) -> &'a [Token]
    ensures { result.now ≡ met_before tokens.now fault.now }
{
    match fault {
        ShapeFault::Unexpected(place) | ShapeFault::TooDeep(place) | ShapeFault::TooMany(place) => {
            first(tokens, *place)
        }
        ShapeFault::Unfinished | ShapeFault::Memory => tokens,
    }
}

/// The refusal of a statement too many, whose first token is on this line.
fn limit(file: SourceFile, line: u32) -> Refusal
    ensures { result ≡ refused_at RefusalNumber.Limit file line }
{
    Refusal::at(RefusalNumber::Limit, file, Place::Line(u64::from(line)))
}

/// The refusal of tokens whose shape has this fault.
fn refuse(alloc: Global, file: SourceFile, tokens: &[Token], fault: ShapeFault) -> Refusal
    requires { (src : List ℕ) → ShapeIs TextKind.Program (map (lexeme_of src) tokens.now) (Err fault) }
    ensures refused { (src : List ℕ) → IsProgramShapeRefusal file src tokens.now result }
    ensures memory { fault ≡ ShapeFault.Memory → result ≡ no_memory }
{
    if let ShapeFault::Memory = fault {
        return Refusal::new(RefusalNumber::Memory);
    }
    let reported = reported_fault(tokens, fault);
    let met = met_before(tokens, &reported);
    let Ok(line) = begun_too_many(alloc, met) else {
        return Refusal::new(RefusalNumber::Memory);
    };
    match line {
        Some(line) => limit(file, line),
        None => refusal(file, tokens, reported),
    }
}

/// The program that tokens of its shape spell.
fn parse_whole(alloc: Global, file: SourceFile, tokens: &[Token]) -> Result<ProgramText, Refusal>
    requires { (src : List ℕ) → IsTextWithin TextKind.Program (map (lexeme_of src) tokens.now) }
    ensures answers { (src : List ℕ) → IsParsed TextKind.Program (program_text src) file src tokens.now result }
    ensures accepts { (src : List ℕ) → IsWithin TextKind.Program (map (lexeme_of src) tokens.now) → IfErr result (λ e. e ≡ no_memory) }
{
    if let Some(line) = begun_too_many(alloc, tokens)? {
        return Err(limit(file, line));
    }
    match build_program(alloc, tokens)? {
        Some(text) => Ok(text),
        None => unreachable!(),
    }
}

/// The program that the tokens of a file spell.
///
/// # Errors
///
/// The first token, in their order, that is
///
/// - `Unexpected`: the tokens up to it begin no program;
/// - `Depth`: an opener inside 200 others, or the connective before a 65th operand of a chain;
/// - `Limit`: the first token of a 65th word, of a 33rd part, of a 17th assignment of an await, or of the statement whose number is 4,001;
///   here a block counts as a statement of its own where one of its `;` stands before the first token that isn't taken for another
///   cause;
///
/// at its line. Then `Unfinished`, at the line of the last token or 1, where the tokens end too early. `Memory` where memory is
/// refused.
pub fn parse_program(
    alloc: Global,
    file: SourceFile,
    tokens: &[Token],
) -> Result<ProgramText, Refusal>
    ensures answers { (src : List ℕ) → IsParsed TextKind.Program (program_text src) file src tokens.now result }
    ensures accepts { (src : List ℕ) → IsWithin TextKind.Program (map (lexeme_of src) tokens.now) → IfErr result (λ e. e ≡ no_memory) }
{
    match shape(alloc, TextKind::Program, tokens) {
        Err(fault) => Err(refuse(alloc, file, tokens, fault)),
        Ok(()) => match parse_whole(alloc, file, tokens) {
            Ok(text) => Ok(text),
            Err(refusal) => Err(refusal),
        },
    }
}

/// The same tokens say one thing: two spellings of them have one tree.
#[tactic(auto, using(rg_build::proofs::BuildsPrograms::one_program))]
pub fn programs_have_one_tree()
    ensures { OneProgram }
{}

/// The same tokens begin the same statements, whatever program goes on from them; and a whole program begins as many as it has.
pub fn beginnings_have_one_list()
    ensures one { OneBeginning }
    ensures all { AllBegun }
{}
