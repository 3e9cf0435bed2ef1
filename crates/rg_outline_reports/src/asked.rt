//! What each condition of a derivation asks.

use rg_outline::{Expansion, Line, Rule};
use std::alloc::AllocError;

/// What a condition of a line asks.
#[derive(Clone, Copy)]
pub(crate) enum OfLine {
    /// The step leads to the assertion after it.
    Reach,
    /// The step is inside the guarantee.
    Step,
    /// Steps of others keep the assertion before the statement.
    PreStable,
    /// Steps of others keep the assertion after the statement.
    PostStable,
    /// Where the loop ends, the assertion after it holds.
    Exit,
    /// The assertion before the line that this one follows from follows from this line's own.
    PreFollows,
    /// The rely of the line that this one follows from follows from this line's own.
    RelyFollows,
    /// This line's guarantee follows from that of the line that it follows from.
    GuarFollows,
    /// The assertion after the line follows from the one after the line that this one follows from.
    PostFollows,
}

/// What a condition of the parallel parts asks, of parts by their indices from 0.
#[derive(Clone, Copy)]
pub(crate) enum OfParts {
    /// The program's pre gives the part's.
    Pre(usize),
    /// The program's rely gives the part's.
    Rely(usize),
    /// A part's guarantee gives another's rely.
    Between { guar: usize, rely: usize },
    /// The part's guarantee gives the program's.
    Guar(usize),
    /// The posts of the parts give the program's.
    Post,
}

/// What a condition asks, and of which line, with the line's number from 1, or of the parts.
#[derive(Clone, Copy)]
pub(crate) enum Asked<'e> {
    Line(OfLine, usize, &'e Line),
    Parts(OfParts),
}

/// What the conditions of a line ask, in their order.
fn asks_of(rule: Rule) -> &'static [OfLine] {
    match rule {
        Rule::Basic | Rule::Atomic => &[
            OfLine::Reach,
            OfLine::Step,
            OfLine::PreStable,
            OfLine::PostStable,
        ],
        Rule::Seq => &[],
        Rule::If => &[OfLine::PreStable],
        Rule::Loop => &[OfLine::PreStable, OfLine::Exit, OfLine::PostStable],
        Rule::Conseq => &[
            OfLine::PreFollows,
            OfLine::RelyFollows,
            OfLine::GuarFollows,
            OfLine::PostFollows,
        ],
    }
}

/// Adds what the conditions of so many parts ask: of each part, its pre and its rely; of each part what it relies on, from each other one; then of
/// each part its guarantee, and the post.
fn push_of_parts(parts: usize, asked: &mut Vec<Asked<'_>>) -> Result<(), AllocError> {
    for part in 0..parts {
        asked.push(Asked::Parts(OfParts::Pre(part)))?;
    }
    for part in 0..parts {
        asked.push(Asked::Parts(OfParts::Rely(part)))?;
    }
    for rely in 0..parts {
        for guar in 0..parts {
            if guar != rely {
                asked.push(Asked::Parts(OfParts::Between { guar, rely }))?;
            }
        }
    }
    for part in 0..parts {
        asked.push(Asked::Parts(OfParts::Guar(part)))?;
    }
    asked.push(Asked::Parts(OfParts::Post))?;
    Ok(())
}

/// What the conditions ask, in the order of their numbers: those of the lines, then those of the parallel parts.
pub(crate) fn conditions_of<'e>(
    expansion: &'e Expansion<'_>,
) -> Result<Vec<Asked<'e>>, AllocError> {
    let mut asked = Vec::new(expansion.scope.alloc);
    for (index, line) in expansion.lines.iter().enumerate() {
        for asks in asks_of(line.rule) {
            asked.push(Asked::Line(*asks, index.saturating_add(1), line))?;
        }
    }
    push_of_parts(expansion.parts.len(), &mut asked)?;
    Ok(asked)
}
