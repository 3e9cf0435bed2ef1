//! The statements that the tokens of a program begin, in the order of their numbers, each as the line of its first token.

ghost use Rattle.std.specs.Prelude.{◌≡◌, ℕ, List, [], ◌++◌, map, cond, slice_get, IfOk, OnOk};
ghost use Rattle.std.specs.List.{flat_map};
ghost use Rattle.rg_words.specs.declared.limits.TheConstants.{MOST_STATEMENTS};
ghost use Rattle.rg_syntax.specs.Begun.{AreBegun};
ghost use Rattle.rg_syntax.specs.Grammar.{lexeme_of};
ghost use Rattle.rg_syntax.specs.Written.{statement, part_text, listed};
ghost use Rattle.rg_build.specs.Inner.Drafts.{body_of, open_block, read_for, place_of, drafted};
ghost use Rattle.rg_build.specs.Inner.DraftLines.{first_line, statement_lines, item_lines, joined_line, block_lines, part_lines, around_lines, open_lines, reading_lines, place_lines, begun_lines};

use crate::programs::{Around, OpenBlock, ProgramDraft, ProgramPlace, Purpose, draft_of};
use crate::put;
use rg_syntax::written::{PartText, StatementText};
use rg_text::token::Token;
use rg_words::limits::MOST_STATEMENTS;
use std::alloc::{AllocError, Global};

/// The line of a statement's first token.
fn first_line(s: &StatementText) -> u32
    ensures { (src : List ℕ) → result ≡ first_line (statement src s.now) }
{
    match s {
        StatementText::Skip(token)
        | StatementText::Await(token, _, _)
        | StatementText::If(token, _, _, _)
        | StatementText::While(token, _, _) => token.line,
        StatementText::Assign(assigned) => assigned.target.line,
    }
}

/// Adds the line of the sequence that these statements are, where they are one.
fn add_sequence(
    lines: &mut Vec<u32>,
    items: &[StatementText],
    joined: bool,
) -> Result<(), AllocError>
    ensures { OnOk result ((src : List ℕ) → lines.new.items ≡ lines.old.items ++ cond joined (joined_line (map (statement src) items.now)) []) }
{
    if !joined {
        return Ok(());
    }
    match items.get(0) {
        None => Ok(()),
        Some(first) => put(lines, first_line(first)),
    }
}

/// Adds the lines of a statement and of those inside it.
#[cycle(lines)]
fn add_statement(lines: &mut Vec<u32>, s: &StatementText) -> Result<(), AllocError>
    ensures { OnOk result ((src : List ℕ) → lines.new.items ≡ lines.old.items ++ statement_lines (statement src s.now)) }
{
    put(lines, first_line(s))?;
    match s {
        StatementText::Skip(_) | StatementText::Assign(_) | StatementText::Await(_, _, _) => Ok(()),
        StatementText::If(_, _, first, second) => {
            add_block(lines, first)?;
            add_block(lines, second)
        }
        StatementText::While(_, _, body) => add_block(lines, body),
    }
}

/// Adds the lines of a whole block.
#[cycle(lines)]
fn add_block(lines: &mut Vec<u32>, items: &[StatementText]) -> Result<(), AllocError>
    ensures { OnOk result ((src : List ℕ) → lines.new.items ≡ lines.old.items ++ block_lines (listed (map (statement src) items.now))) }
{
    add_items(lines, items, items.len() > 1)
}

/// Adds the lines of the statements of a list, and first that of their sequence, where they are one.
#[cycle(lines)]
fn add_items(lines: &mut Vec<u32>, items: &[StatementText], joined: bool) -> Result<(), AllocError>
    ensures { OnOk result ((src : List ℕ) → lines.new.items ≡ lines.old.items
        ++ (cond joined (joined_line (map (statement src) items.now)) [] ++ item_lines (listed (map (statement src) items.now)))) }
{
    add_sequence(lines, items, joined)?;
    for one in items {
        add_statement(lines, one)?;
    }
    Ok(())
}

/// Adds the lines of whole parts.
fn add_parts(lines: &mut Vec<u32>, parts: &[PartText]) -> Result<(), AllocError>
    ensures { OnOk result ((src : List ℕ) → lines.new.items ≡ lines.old.items ++ part_lines (map (part_text src) parts.now)) }
{
    for part in parts {
        add_block(lines, &part.body)?;
    }
    Ok(())
}

/// Adds the lines of what is begun round a list of statements.
fn add_around(lines: &mut Vec<u32>, around: &Around) -> Result<(), AllocError>
    ensures { OnOk result ((src : List ℕ) → lines.new.items ≡ lines.old.items ++ around_lines (body_of src around.now)) }
{
    match around {
        Around::Part => Ok(()),
        Around::Then(begin, _) | Around::Loop(begin, _) => put(lines, begin.line),
        Around::Else(begin, _, first) => {
            put(lines, begin.line)?;
            add_block(lines, first)
        }
    }
}

/// Adds the lines of lists of statements that aren't ended.
fn add_open(lines: &mut Vec<u32>, blocks: &[OpenBlock]) -> Result<(), AllocError>
    ensures { OnOk result ((src : List ℕ) → lines.new.items ≡ lines.old.items ++ flat_map open_lines (map (open_block src) blocks.now)) }
{
    for block in blocks {
        add_around(lines, &block.around)?;
        add_items(lines, &block.statements, block.joined)?;
    }
    Ok(())
}

/// Adds the line of the statement that is being read, where one is.
fn add_place(lines: &mut Vec<u32>, place: ProgramPlace) -> Result<(), AllocError>
    ensures { OnOk result ((src : List ℕ) → lines.new.items ≡ lines.old.items ++ place_lines (place_of src place)) }
{
    match place {
        ProgramPlace::Words(_)
        | ProgramPlace::Word(_, _)
        | ProgramPlace::Parts
        | ProgramPlace::Statements(_) => Ok(()),
        ProgramPlace::Acts(_, begin) => put(lines, begin.line),
        ProgramPlace::Reading(purpose) => add_reading(lines, purpose),
    }
}

/// Adds the line of the statement whose formula or value is read, where it is one of a statement.
fn add_reading(lines: &mut Vec<u32>, purpose: Purpose) -> Result<(), AllocError>
    ensures { OnOk result ((src : List ℕ) → lines.new.items ≡ lines.old.items ++ reading_lines (read_for src purpose)) }
{
    match purpose {
        Purpose::ProgramClause | Purpose::PartClause(_) => Ok(()),
        Purpose::Assign(_, begin)
        | Purpose::Guard(_, begin)
        | Purpose::Act(_, begin, _)
        | Purpose::Branch(_, begin)
        | Purpose::Loop(_, begin) => put(lines, begin.line),
    }
}

/// Adds the lines of all statements that are begun.
fn add_begun(lines: &mut Vec<u32>, draft: &ProgramDraft) -> Result<(), AllocError>
    ensures { OnOk result ((src : List ℕ) → lines.new.items ≡ lines.old.items ++ begun_lines (drafted src draft.now)) }
{
    add_parts(lines, &draft.parts)?;
    add_open(lines, &draft.blocks)?;
    add_place(lines, draft.place)
}

/// The line of the first token of the statement whose number is one above the most, where it is begun.
fn statement_too_many(alloc: Global, draft: &ProgramDraft) -> Result<Option<u32>, AllocError>
    ensures { (src : List ℕ) → IfOk result (λ line. line ≡ slice_get (begun_lines (drafted src draft.now)) MOST_STATEMENTS) }
{
    let mut lines = Vec::new(alloc);
    add_begun(&mut lines, draft)?;
    Ok(lines.get(MOST_STATEMENTS).copied())
}

/// The line of the first token of the statement whose number is one above the most, where these tokens, which a program begins with, begin that
/// statement.
pub fn begun_too_many(alloc: Global, tokens: &[Token]) -> Result<Option<u32>, AllocError>
    ensures { (src : List ℕ) (lines : List ℕ) → AreBegun (map (lexeme_of src) tokens.now) lines
        → IfOk result (λ line. line ≡ slice_get lines MOST_STATEMENTS) }
{
    let draft = draft_of(alloc, tokens)?;
    let line = statement_too_many(alloc, &draft);
    drop(draft);
    line
}
