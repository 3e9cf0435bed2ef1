//! The shape of a text: whether its tokens are those of its grammar, and else the first that can't be.

ghost use Rattle.std.specs.Prelude.{◌≡◌, ℕ, List, [], ◌∷◌, map, reverse, cond, Some, None, IfOk, IfErr, OnOk};
ghost use Rattle.rg_syntax.specs.Grammar.{lexeme_of};
ghost use Rattle.rg_shape.specs.Inner.Machine.{complete, end_statement, after_turn, next, is_shallow, has_room, is_at_end};
ghost use Rattle.rg_syntax.specs.Limits.{IsTextWithin};
ghost use Rattle.rg_shape.specs.Shape.{ShapeIs, OneFault, NoFaultWithin};
ghost use Rattle.rg_shape.specs.declared.shape.ShapeFault.TheVariants.{Memory};

use crate::kinds::{is_join, is_opener};
use crate::point::{Point, Sort, Start, Turn, before, operand_of, start_of};
use rg_syntax::TextKind;
use rg_text::kind::Kind;
use rg_text::token::Token;
use rg_words::limits::MOST_OPENERS;
use std::alloc::{AllocError, AllocFailed, Global};

/// Why the tokens aren't those of a text. A place in the list of tokens counts from 0.
#[derive(Drop)]
pub enum ShapeFault {
    /// Memory was refused.
    Memory,
    /// The first token such that the tokens up to it begin no text, limits aside.
    Unexpected(usize),
    /// The first token such that the tokens up to it begin no text within the limits of depth:
    /// an opener inside too many others, or the connective before one operand too many.
    TooDeep(usize),
    /// The first token such that the tokens up to it begin no text within the limits of lists:
    /// the first token of one word, of one part or of one line of a derivation too many, or the `;`
    /// of an `await` before one assignment too many.
    TooMany(usize),
    /// The tokens begin a text and aren't a whole one.
    Unfinished,
}

impl From<AllocError> for ShapeFault {
    ghost use Rattle.std.specs.Prelude.{◌≡◌};
    ghost use Rattle.rg_shape.specs.declared.shape.ShapeFault.TheVariants.{Memory};

    ghost from_gives = { λ _ e. e ≡ Memory };

    fn from(_: AllocError) -> ShapeFault {
        ShapeFault::Memory
    }
}

impl<T: Drop> From<AllocFailed<T>> for ShapeFault {
    ghost use Rattle.std.specs.Prelude.{◌≡◌};
    ghost use Rattle.rg_shape.specs.declared.shape.ShapeFault.TheVariants.{Memory};

    ghost from_gives = { λ _ e. e ≡ Memory };

    fn from(_: AllocFailed<T>) -> ShapeFault {
        ShapeFault::Memory
    }
}

/// Takes note of a whole item at the innermost place.
fn complete(points: &mut Vec<Point>, sort: Sort) -> Result<(), AllocError>
    ensures { OnOk result (reverse points.new.items ≡ complete sort (reverse points.old.items)) }
{
    while let Some(point) = points.pop() {
        if !point.is_prefix() {
            points.push(point.resume(sort))?;
            return Ok(());
        }
    }
    Ok(())
}

/// Takes note of a whole statement at the innermost place.
fn end_statement(points: &mut Vec<Point>) -> Result<(), AllocError>
    ensures { OnOk result (reverse points.new.items ≡ end_statement (reverse points.old.items)) }
{
    if let Some(point) = points.pop() {
        points.push(point.after_statement())?;
    }
    Ok(())
}

/// Goes where a token leads that begins no item, and says whether it leads anywhere.
fn follow(points: &mut Vec<Point>, turn: Option<Turn>) -> Result<bool, AllocError>
    ensures { IfOk result (λ moved. after_turn (reverse points.old.items) turn
        ≡ cond moved (Some (reverse points.new.items)) None) }
{
    match turn {
        None => Ok(false),
        Some(Turn::On(point)) => {
            points.push(point)?;
            Ok(true)
        }
        Some(Turn::Inside(inner, outer)) => {
            points.push(outer)?;
            points.push(inner)?;
            Ok(true)
        }
        Some(Turn::Closed(sort)) => {
            complete(points, sort)?;
            Ok(true)
        }
        Some(Turn::Ended) => {
            end_statement(points)?;
            Ok(true)
        }
    }
}

/// Takes one token, and says whether it may stand there.
fn next(points: &mut Vec<Point>, kind: Kind) -> Result<bool, AllocError>
    ensures { IfOk result (λ moved. next (reverse points.old.items) kind
        ≡ cond moved (Some (reverse points.new.items)) None) }
{
    let Some(point) = points.pop() else {
        return Ok(false);
    };
    let takes = point.takes();
    match start_of(kind) {
        Start::Leaf(sort) if takes.has(sort) => {
            points.push(point)?;
            complete(points, sort)?;
            Ok(true)
        }
        Start::Prefix(sort) if takes.has(sort) => {
            points.push(point)?;
            points.push(operand_of(sort))?;
            Ok(true)
        }
        Start::Opener if takes.formula || takes.expression => {
            points.push(point)?;
            points.push(Point::First(takes))?;
            Ok(true)
        }
        _ => follow(points, point.turn(kind)),
    }
}

/// Whether the limits of depth let the token stand here.
fn is_shallow(points: &[Point], kind: Kind) -> bool
    ensures { result ≡ is_shallow (reverse points.now) kind }
{
    let Some((last, others)) = points.split_last() else {
        return true;
    };
    if is_opener(kind) {
        others.len() < MOST_OPENERS
    } else if is_join(kind) {
        last.has_operand_left()
    } else {
        true
    }
}

/// Whether the limits of lists let the token stand here.
fn has_room(points: &[Point], kind: Kind) -> bool
    ensures { result ≡ has_room (reverse points.now) kind }
{
    match points.split_last() {
        Some((last, _)) => last.has_room(kind),
        None => true,
    }
}

/// Whether nothing is wanted any more.
fn is_at_end(points: &[Point]) -> bool
    ensures { result ≡ is_at_end (reverse points.now) }
{
    match points.split_last() {
        Some((last, _)) => last.is_end(),
        None => false,
    }
}

/// Whether the tokens are those of a text of this kind within the limits, and else the first fault.
pub fn shape(alloc: Global, text: TextKind, tokens: &[Token]) -> Result<(), ShapeFault>
    ensures answers { (src : List ℕ) → ShapeIs text (map (lexeme_of src) tokens.now) result }
    ensures accepts { (src : List ℕ) → IsTextWithin text (map (lexeme_of src) tokens.now) → IfErr result (λ e. e ≡ Memory) }
{
    let mut points = Vec::new(alloc);
    points.push(before(text))?;
    for (i, token) in tokens.iter().enumerate() {
        let shallow = is_shallow(&points, token.kind);
        let room = has_room(&points, token.kind);
        if !next(&mut points, token.kind)? {
            return Err(ShapeFault::Unexpected(i));
        }
        if !shallow {
            return Err(ShapeFault::TooDeep(i));
        }
        if !room {
            return Err(ShapeFault::TooMany(i));
        }
    }
    if !is_at_end(&points) {
        return Err(ShapeFault::Unfinished);
    }
    Ok(())
}

/// The same tokens have one answer: a text within the limits has no fault, and other tokens have
/// one first fault.
pub fn one_answer()
    ensures one_fault { OneFault }
    ensures no_fault { NoFaultWithin }
{}
