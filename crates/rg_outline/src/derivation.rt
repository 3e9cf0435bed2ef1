//! The derivation, and the map from its lines to the outline.

use crate::expansion::{Expansion, Line};
use crate::print::{push_tight_tree, too_large};
use rg_outline_syntax::{Fault, List, push_count, push_phrase, push_place};
use rg_tree::line::Rule;
use rg_words::limits::MOST_TEXT_BYTES;
use std::alloc::AllocError;

/// The most bytes of a phrase in the map.
const MOST_PHRASE: usize = 70;

/// The most bytes of a derivation, which may be longer than a file: what is held of it at once is bounded.
const MOST_DERIVATION_BYTES: usize = 67_108_864;

/// Adds the derivation, without a space that no token needs, and the places of the text at which a further piece of it begins. A piece is whole
/// lines, as many as fit into a file, and `rg_parse::derivation` reads each.
///
/// # Errors
///
/// - `MeaningFault::TooDeep` where a formula is nested too deeply for a text, at the place of the deepest conjunct.
/// - `MeaningFault::TooLarge` where a line has more than `MOST_TEXT_BYTES` bytes, or the text has more than `MOST_DERIVATION_BYTES`.
/// - `FaultKind::Memory`.
pub fn push_derivation(
    expansion: &Expansion<'_>,
    text: &mut Vec<u8>,
    cuts: &mut Vec<usize>,
) -> Result<(), Fault> {
    let mut start = text.len();
    for (place, line) in expansion.lines.iter().enumerate() {
        let begin = text.len();
        push_head(text, place, *line)?;
        expansion.push_premises(text, *line)?;
        expansion.push_claims(text, *line)?;
        start = piece_with(cuts, start, begin, text.len())?;
    }
    Ok(())
}

/// Where the piece begins that has a line from `begin` to `end`: it is the last one, which begins at `start`; or a new one where the line doesn't
/// fit into that.
fn piece_with(
    cuts: &mut Vec<usize>,
    start: usize,
    begin: usize,
    end: usize,
) -> Result<usize, Fault> {
    if end > MOST_DERIVATION_BYTES || end.saturating_sub(begin) > MOST_TEXT_BYTES {
        return Err(too_large());
    }
    if end.saturating_sub(start) <= MOST_TEXT_BYTES {
        return Ok(start);
    }
    cuts.push(begin)?;
    Ok(begin)
}

/// Adds a row for each line of the derivation: `line K RULE PART LINE:COLUMN phrase`, the place in the outline of its statement.
///
/// # Errors
///
/// `FaultKind::Memory`.
pub fn push_map(expansion: &Expansion<'_>, text: &mut Vec<u8>) -> Result<(), Fault> {
    for (place, line) in expansion.lines.iter().enumerate() {
        push_head(text, place, *line)?;
        expansion.push_statement_place(text, *line)?;
    }
    Ok(())
}

/// Adds the number of the line at a place, from 1, and its rule.
fn push_head(text: &mut Vec<u8>, place: usize, line: Line) -> Result<(), Fault> {
    let rule = match line.rule {
        Rule::Basic => " basic ",
        Rule::Atomic => " atomic ",
        Rule::Seq => " seq ",
        Rule::If => " if ",
        Rule::Loop => " loop ",
        Rule::Conseq => " conseq ",
    };
    text.extend_from_slice(b"line ")?;
    push_count(text, place.saturating_add(1) as u64)?;
    text.extend_from_slice(rule.as_bytes())?;
    Ok(())
}

impl Expansion<'_> {
    /// Adds the number of a line's statement and the lines that it follows from.
    fn push_premises(&self, text: &mut Vec<u8>, line: Line) -> Result<(), Fault> {
        push_count(text, line.number as u64)?;
        let List { start, end } = line.premises;
        let mut before: &[u8] = b" from ";
        for premise in self.premises.get(start..end).unwrap_or(&[]) {
            text.extend_from_slice(before)?;
            push_count(text, *premise as u64)?;
            before = b" ";
        }
        text.push(b'\n')?;
        Ok(())
    }

    /// Adds the four formulas of a line.
    fn push_claims(&self, text: &mut Vec<u8>, line: Line) -> Result<(), Fault> {
        let part = self.parts.get(line.part);
        let (rely, guar) = part.map_or((0, 0), |part| (part.rely, part.guar));
        self.push_claim(text, b"pre ", line.pre)?;
        self.push_claim(text, b"rely ", rely)?;
        self.push_claim(text, b"guar ", guar)?;
        self.push_claim(text, b"post ", line.post)
    }

    fn push_claim(&self, text: &mut Vec<u8>, key: &[u8], tree: usize) -> Result<(), Fault> {
        self.want_shallow(tree, 0)?;
        text.push(b' ')?;
        push_tight_tree(self, text, key, tree)?;
        text.push(b'\n')?;
        Ok(())
    }

    /// Adds the part of a line, and its statement's place and phrase.
    fn push_statement_place(&self, text: &mut Vec<u8>, line: Line) -> Result<(), Fault> {
        let span = self.statement(line.statement).span;
        text.extend_from_slice(self.part_names.at(line.part))?;
        text.push(b' ')?;
        push_place(text, self.scope.source, span)?;
        text.push(b' ')?;
        push_clipped(text, span.of(self.scope.source))?;
        text.push(b'\n')?;
        Ok(())
    }
}

/// Adds what stands at a place, in one row that isn't long.
///
/// # Errors
///
/// `AllocError` where memory is refused.
pub fn push_clipped(text: &mut Vec<u8>, bytes: &[u8]) -> Result<(), AllocError> {
    let start = text.len();
    push_phrase(text, bytes)?;
    let most = start.saturating_add(MOST_PHRASE);
    if text.len() > most {
        text.truncate(most.saturating_sub(3));
        text.extend_from_slice(b"...")?;
    }
    Ok(())
}
