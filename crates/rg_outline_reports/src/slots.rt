//! What the conditions of a derivation ask of assertions by their places, and assertions as the text has them: for a search for assertions.

use crate::asked::{Asked, OfLine, OfParts, conditions_of};
use crate::conditions::given_and_due;
use crate::faults::fits;
use crate::outlined::{Outlined, read_in};
use rg_outline::{Assertion, BlockRow, Expansion, Line, push_flat, work_out};
use rg_outline_syntax::{Fault, FaultKind, Span, Texts};
use std::alloc::{AllocError, Global};

/// What a condition asks of the assertions of a part.
#[derive(Clone, Copy, PartialEq, Eq)]
pub enum Demand {
    /// Where the one holds, the other holds after a step, or at once.
    Leads,
    /// Steps of others keep it.
    Stable,
    /// Where it holds, a step is inside the part's guarantee.
    Guaranteed,
    /// The program's pre gives it.
    Entered,
    /// Those at the ends of all parts give the program's post.
    Ended,
    /// Nothing.
    Other,
}

/// An assertion of a part: where it is written, and in which round of a `for`, or use of named statements, the greater the later.
#[derive(Clone, Copy)]
pub struct Spot {
    pub span: Span,
    pub round: usize,
}

/// What a condition asks, and of which assertions.
#[derive(Clone, Copy)]
pub struct Obligation {
    pub demand: Demand,
    /// The part, by its place in the text.
    pub part: usize,
    /// What holds before.
    pub given: Option<Spot>,
    /// What has to hold then.
    pub due: Option<Spot>,
}

/// Where an assertion is.
fn spot_of(assertion: Assertion) -> Spot {
    Spot {
        span: assertion.span,
        round: assertion.round,
    }
}

/// What a condition of a line asks.
fn of_line(expansion: &Expansion<'_>, of: OfLine, line: &Line) -> Obligation {
    let (before, after) = (Some(line.before), Some(line.after));
    let (demand, given, due) = match of {
        OfLine::Reach | OfLine::Exit => (Demand::Leads, before, after),
        OfLine::Step => (Demand::Guaranteed, before, None),
        OfLine::PreStable => (Demand::Stable, before, before),
        OfLine::PostStable => (Demand::Stable, after, after),
        OfLine::PreFollows | OfLine::PostFollows => {
            let is_before = matches!(of, OfLine::PreFollows);
            let (given, due) = given_and_due(expansion, line, is_before);
            (Demand::Leads, Some(given), Some(due))
        }
        OfLine::RelyFollows | OfLine::GuarFollows => (Demand::Other, None, None),
    };
    Obligation {
        demand,
        part: line.part,
        given: given.map(|given| spot_of(given)),
        due: due.map(|due| spot_of(due)),
    }
}

/// What a condition of the parts asks.
fn of_parts(expansion: &Expansion<'_>, of: OfParts) -> Obligation {
    let (demand, part, known) = match of {
        OfParts::Pre(part) => (Demand::Entered, part, expansion.parts.get(part)),
        OfParts::Post => (Demand::Ended, 0, None),
        _ => (Demand::Other, 0, None),
    };
    Obligation {
        demand,
        part,
        given: None,
        due: known.map(|known| spot_of(known.pre)),
    }
}

/// What assertions of an outline say as the text has them, or where the outline can't be read.
#[derive(Drop)]
pub enum Leading {
    /// The place of the first fault: of a fault in a statement or an assertion, where this stands.
    Fault(Span),
    /// The assertions before each statement of the body of each part, in their order.
    Parts(Vec<Vec<Before>>),
}

/// The assertions before a statement, without the invariant; those that are too long are empty.
#[derive(Drop)]
pub struct Before {
    pub texts: Texts,
    /// The byte at which the statement begins.
    pub near: usize,
}

/// Adds an assertion, without the invariant; one that is too long is empty.
fn push_own(
    expansion: &Expansion<'_>,
    texts: &mut Texts,
    assertion: Assertion,
) -> Result<(), AllocError> {
    let mut text = Vec::new(expansion.scope.alloc);
    if !fits(push_flat(expansion, &mut text, assertion.own))? {
        text.clear();
    }
    texts.push(&text)
}

/// The assertions before each statement of a body.
fn leading_of(expansion: &Expansion<'_>, body: usize) -> Result<Vec<Before>, Fault> {
    let alloc = expansion.scope.alloc;
    let mut all = Vec::new(alloc);
    let mut texts = Texts::new(alloc);
    for row in expansion.rows_of(expansion.block(body).rows) {
        match *row {
            BlockRow::Assertion(assertion) => push_own(expansion, &mut texts, assertion)?,
            BlockRow::Statement(statement) => {
                let near = expansion.statement(statement).span.start;
                let texts = std::mem::replace(&mut texts, Texts::new(alloc));
                all.push(Before { texts, near })?;
            }
        }
    }
    Ok(all)
}

/// The assertions before the statements of the bodies of an outline.
fn leading_in(alloc: Global, source: &[u8]) -> Result<Vec<Vec<Before>>, Fault> {
    let read = read_in(alloc, source)?;
    let mut expansion = Expansion::new(alloc, source, &read.written);
    if let Err(fault) = work_out(&mut expansion) {
        let span = expansion.at.unwrap_or(fault.span);
        return Err(Fault { span, ..fault });
    }
    let mut parts = Vec::new(alloc);
    for part in &expansion.parts {
        parts.push(leading_of(&expansion, part.body)?)?;
    }
    Ok(parts)
}

/// The assertions before the statements of the bodies of an outline in these bytes, as the text has them; or the place of its first fault.
///
/// # Errors
///
/// Only where memory is refused.
pub fn leading_assertions(alloc: Global, source: &[u8]) -> Result<Leading, AllocError> {
    match leading_in(alloc, source) {
        Ok(parts) => Ok(Leading::Parts(parts)),
        Err(fault) if matches!(fault.kind, FaultKind::Memory) => Err(AllocError),
        Err(fault) => Ok(Leading::Fault(fault.span)),
    }
}

/// A part of the text.
#[derive(Clone, Copy)]
pub struct Member {
    /// The assertion at its end.
    pub end: Spot,
    /// The words that it owns, as bits.
    pub owned: u64,
    /// The written part of which it is, by its place among these.
    pub family: usize,
}

impl Outlined<'_> {
    /// What each condition of the derivation asks, in the order of their numbers.
    /// An error comes only where memory is refused.
    pub fn obligations(&self) -> Result<Vec<Obligation>, AllocError> {
        let expansion = &self.expansion;
        let mut obligations = Vec::new(expansion.scope.alloc);
        for asked in &conditions_of(expansion)? {
            obligations.push(match *asked {
                Asked::Line(of, _, line) => of_line(expansion, of, line),
                Asked::Parts(of) => of_parts(expansion, of),
            })?;
        }
        Ok(obligations)
    }

    /// The parts, in the order of the text.
    /// An error comes only where memory is refused.
    pub fn members(&self) -> Result<Vec<Member>, AllocError> {
        let expansion = &self.expansion;
        let mut members = Vec::new(expansion.scope.alloc);
        for part in &expansion.parts {
            let mut written = expansion.scope.written.parts.iter();
            let family = written.position(|written| written.span.start <= part.span.start
                && part.span.end <= written.span.end);
            members.push(Member {
                end: spot_of(part.post),
                owned: part.owned_bits,
                family: family.unwrap_or(usize::MAX),
            })?;
        }
        Ok(members)
    }
}
