//! Starts and moves over declared words, from their bytes.

ghost use Rattle.std.specs.Prelude.{◌≡◌, ℕ, List, map, IfOk, IfErr};
ghost use Rattle.rg_words.specs.Layout.{widths_of};
ghost use Rattle.rg_words.specs.Refusals.{no_memory};
ghost use Rattle.rg_tree.specs.Moves.{MoveTree, move, AreMoves};
ghost use Rattle.rg_syntax.specs.Written.{setting, move_text};
ghost use Rattle.rg_syntax.specs.declared.text_kind.TextKind.TheVariants as texts;
ghost use Rattle.rg_resolve.specs.Settings.{StartStandsFor, MovesStandFor, settings_faults, moves_faults};
ghost use Rattle.rg_parse.specs.Inputs.{SpellsStart, IsStartRefusal, SpellsMoves, IsMovesRefusal, OneSpelledStart, OneSpelledMoves};

use crate::parse::parse;
use crate::reader::{Reader, read};
use rg_resolve::resolve::{resolve_moves, resolve_start};
use rg_syntax::written::{MoveText, Setting};
use rg_text::token::Token;
use rg_tree::moves::Move;
use rg_words::{Layout, Refusal, SourceFile, State};
use std::alloc::Global;

/// The state that a start spells: `x = 1 y = 2` names words with their values, and every other word is 0.
///
/// # Errors
///
/// The first fault, in file `start`, at the line of its token: first `Limit` (the file is too large) and `BadByte`; then of its
/// shape `Unexpected`, `Unfinished`; then of its meaning `UnknownName`, `NameTwice`, `NumberTooLarge` (the number isn't
/// below 2 to the power of its word's width), the least token first. `Memory` where memory is refused.
pub fn start(alloc: Global, layout: &Layout, source: &[u8]) -> Result<State, Refusal>
    // What is read is what is written.
    ensures spells { IfOk result (λ s. SpellsStart layout.now source.now s.values) }
    ensures widths { IfOk result (λ s. s.widths ≡ widths_of layout.now) }
    ensures refused { IfErr result (IsStartRefusal layout.now source.now) }
    // What is written is read, unless memory runs out.
    ensures accepts { (s : List ℕ) → SpellsStart layout.now source.now s → IfErr result (λ e. e ≡ no_memory) }
{
    read(&StartReader { layout }, alloc, SourceFile::Start, source)
}

/// The moves that a moves file spells: each `at` and a number, and then the words that it gives values.
///
/// # Errors
///
/// The first fault, in file `moves`, at the line of its token: first `Limit` (the file is too large) and `BadByte`; then of its
/// shape `Unexpected`, `Unfinished`; then of its meaning, the least token first: `NumberTooLarge` for a number after
/// `at` above 4,294,967,295, and the faults of settings as for `start`, where a word may stand again in another move.
/// `Memory` where memory is refused.
pub fn moves(alloc: Global, layout: &Layout, source: &[u8]) -> Result<Vec<Move>, Refusal>
    // What is read is what is written.
    ensures spells { IfOk result (λ ms. SpellsMoves layout.now source.now (map move ms.items)) }
    // Each names words that are there, none twice, with values below 2 to the power of their widths.
    ensures changes { IfOk result (λ ms. AreMoves layout.now (map move ms.items)) }
    ensures refused { IfErr result (IsMovesRefusal layout.now source.now) }
    // What is written is read, unless memory runs out.
    ensures accepts { (ms : List MoveTree) → SpellsMoves layout.now source.now ms → IfErr result (λ e. e ≡ no_memory) }
{
    read(&MovesReader { layout }, alloc, SourceFile::Moves, source)
}

/// Reads a start over declared words.
#[derive(Drop)]
struct StartReader<'a> {
    layout: &'a Layout,
}

impl Reader for StartReader<'_> {
    type Written = Vec<Setting>;

    type Answer = State;

    ghost kind = { texts.Start };

    ghost says = { λ source written. map (setting source) written.items };

    ghost view = { λ state. state.values };

    ghost stands = { λ reader said state. StartStandsFor reader.layout.now said state };

    ghost faults = { λ reader said. settings_faults reader.layout.now said };

    ghost holds = { λ reader state. state.widths ≡ widths_of reader.layout.now };

    fn parse(
        &self,
        alloc: Global,
        file: SourceFile,
        tokens: &[Token],
    ) -> Result<Vec<Setting>, Refusal> {
        parse(alloc, file, tokens)
    }

    fn resolve(
        &self,
        alloc: Global,
        file: SourceFile,
        source: &[u8],
        written: &Vec<Setting>,
    ) -> Result<State, Refusal> {
        resolve_start(alloc, self.layout, file, source, written)
    }
}

/// Reads moves over declared words.
#[derive(Drop)]
struct MovesReader<'a> {
    layout: &'a Layout,
}

impl Reader for MovesReader<'_> {
    type Written = Vec<MoveText>;

    type Answer = Vec<Move>;

    ghost kind = { texts.Moves };

    ghost says = { λ source written. map (move_text source) written.items };

    ghost view = { λ moves. map move moves.items };

    ghost stands = { λ reader said moves. MovesStandFor reader.layout.now said moves };

    ghost faults = { λ reader said. moves_faults reader.layout.now said };

    ghost holds = { λ reader moves. AreMoves reader.layout.now (map move moves.items) };

    fn parse(
        &self,
        alloc: Global,
        file: SourceFile,
        tokens: &[Token],
    ) -> Result<Vec<MoveText>, Refusal> {
        parse(alloc, file, tokens)
    }

    fn resolve(
        &self,
        alloc: Global,
        file: SourceFile,
        source: &[u8],
        written: &Vec<MoveText>,
    ) -> Result<Vec<Move>, Refusal> {
        resolve_moves(alloc, self.layout, file, source, written)
    }
}

/// The same bytes spell one state, and one list of moves.
pub fn one_reading()
    ensures start { OneSpelledStart }
    ensures moves { OneSpelledMoves }
{}
