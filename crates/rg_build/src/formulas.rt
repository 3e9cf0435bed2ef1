//! The trees of formulas, shown texts, starts and moves, built token by token.

ghost use Rattle.std.specs.Prelude.{◌≡◌, ℕ, List, [], ◌∷◌, map, IfOk, IsSomeAnd, option_map};
ghost use Rattle.rg_syntax.specs.Written.{claim, show_text, setting, move_text};
ghost use Rattle.rg_syntax.specs.Grammar.{FormulaSpelling, ShowSpelling, SettingsSpelling, MovesSpelling, formula, show, settings, moves, lexeme_of};
ghost use Rattle.rg_syntax.specs.Texts.{claim_of, shown_claim, settings_of, moves_of};
ghost use Rattle.rg_build.specs.Frames.{stack, open_of, setter_of};
ghost use Rattle.rg_build.specs.Inner.Building.{steps, whole_of, whole_show_of, whole_start_of, whole_moves_of, with_last};

use crate::{Frame, Setter, put, take_token};
use rg_syntax::written::{FormulaText, MoveText, Setting, ShowText};
use rg_text::token::Token;
use std::alloc::{AllocError, Global};

/// The open parts of a text after all its tokens, where this one stands before them.
fn read(alloc: Global, first: Frame, tokens: &[Token]) -> Result<Vec<Frame>, AllocError>
    ensures { (src : List ℕ) → IfOk result (λ frames. (stack src frames)
        ≡ steps (open_of src first ∷ []) (map (lexeme_of src) tokens.now)) }
{
    let mut frames = Vec::new(alloc);
    put(&mut frames, first)?;
    for token in tokens {
        take_token(alloc, &mut frames, *token)?;
    }
    Ok(frames)
}

/// The tree of a formula, where the tokens spell one.
pub fn build_formula(alloc: Global, tokens: &[Token]) -> Result<Option<FormulaText>, AllocError>
    ensures { (src : List ℕ) (f : FormulaSpelling) → map (lexeme_of src) tokens.now ≡ formula f []
        → IfOk result (λ built. IsSomeAnd built (λ r. claim src r ≡ claim_of f)) }
{
    let mut frames = read(alloc, Frame::Whole, tokens)?;
    Ok(take_whole(&mut frames))
}

/// The words and the tree of a text to show, where the tokens spell one.
pub fn build_show(alloc: Global, tokens: &[Token]) -> Result<Option<ShowText>, AllocError>
    ensures { (src : List ℕ) (s : ShowSpelling) → map (lexeme_of src) tokens.now ≡ show s []
        → IfOk result (λ built. IsSomeAnd built (λ r. show_text src r ≡ shown_claim s)) }
{
    let mut frames = read(alloc, Frame::Declaring(Vec::new(alloc), false), tokens)?;
    Ok(take_show(&mut frames))
}

/// The words that a start sets, where the tokens spell one.
pub fn build_start(alloc: Global, tokens: &[Token]) -> Result<Option<Vec<Setting>>, AllocError>
    ensures { (src : List ℕ) (s : SettingsSpelling) → map (lexeme_of src) tokens.now ≡ settings s []
        → IfOk result (λ built. IsSomeAnd built (λ r. map (setting src) r.items ≡ settings_of s)) }
{
    let mut frames = read(
        alloc,
        Frame::Settings(Setter::Start, Vec::new(alloc)),
        tokens,
    )?;
    Ok(take_start(&mut frames))
}

/// The moves, where the tokens spell some or none.
pub fn build_moves(alloc: Global, tokens: &[Token]) -> Result<Option<Vec<MoveText>>, AllocError>
    ensures { (src : List ℕ) (s : MovesSpelling) → map (lexeme_of src) tokens.now ≡ moves s []
        → IfOk result (λ built. IsSomeAnd built (λ r. map (move_text src) r.items ≡ moves_of s)) }
{
    let mut frames = read(alloc, Frame::Moves(Vec::new(alloc)), tokens)?;
    take_moves(&mut frames)
}

/// The formula, where nothing else is open.
pub fn take_whole(frames: &mut Vec<Frame>) -> Option<FormulaText>
    ensures { (src : List ℕ) → option_map (claim src) result
        ≡ whole_of (stack src frames.old) }
{
    match frames.pop() {
        None => None,
        Some(Frame::End(formula)) => Some(formula),
        Some(other) => {
            drop(other);
            None
        }
    }
}

/// The words and the formula, where nothing else is open.
fn take_show(frames: &mut Vec<Frame>) -> Option<ShowText>
    ensures { (src : List ℕ) → option_map (show_text src) result
        ≡ whole_show_of (stack src frames.old) }
{
    match frames.pop() {
        None => None,
        Some(Frame::ShowEnd(words, formula)) => Some(ShowText { words, formula }),
        Some(other) => {
            drop(other);
            None
        }
    }
}

/// The words that a start sets.
fn take_start(frames: &mut Vec<Frame>) -> Option<Vec<Setting>>
    ensures { (src : List ℕ) → option_map (λ r. map (setting src) r.items) result
        ≡ whole_start_of (stack src frames.old) }
{
    match frames.pop() {
        None => None,
        Some(Frame::Settings(Setter::Start, settings)) => Some(settings),
        Some(other) => {
            drop(other);
            None
        }
    }
}

/// All moves, with the last.
fn take_moves(frames: &mut Vec<Frame>) -> Result<Option<Vec<MoveText>>, AllocError>
    ensures { (src : List ℕ) → IfOk result (λ built. option_map (λ r. map (move_text src) r.items) built
        ≡ whole_moves_of (stack src frames.old)) }
{
    match frames.pop() {
        None => Ok(None),
        Some(Frame::Moves(moves)) => Ok(Some(moves)),
        Some(Frame::Settings(setter, settings)) => with_last(setter, settings),
        Some(other) => {
            drop(other);
            Ok(None)
        }
    }
}

/// The moves up to the one that sets these words, where a move does.
fn with_last(setter: Setter, settings: Vec<Setting>) -> Result<Option<Vec<MoveText>>, AllocError>
    ensures { (src : List ℕ) → IfOk result (λ built. option_map (λ r. map (move_text src) r.items) built
        ≡ with_last (setter_of src setter) (map (setting src) settings.items)) }
{
    match setter {
        Setter::Start => Ok(None),
        Setter::Move(moves, number) => {
            let mut moves = moves;
            put(&mut moves, MoveText { number, settings })?;
            Ok(Some(moves))
        }
    }
}
