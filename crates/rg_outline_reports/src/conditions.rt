//! What a condition says, in one sentence, what it is called, and where it is: for one without an answer, and for the map from the conditions of a
//! derivation to the outline. What is reported of one that fails is made in `step.rt`, `steady.rt` and `failures.rt`.

use crate::asked::{Asked, OfLine, OfParts, conditions_of};
use crate::template::Gap::{AssertionAt, Count, Part};
use crate::template::fill;
use rg_outline::{Assertion, Expansion, Line};
use rg_outline_syntax::{Span, push_count, push_place};
use std::alloc::AllocError;

/// The assertion that is given and the one that should follow from it, of a line of the rule of consequence, before its statement or after it.
pub(crate) fn given_and_due(
    expansion: &Expansion<'_>,
    line: &Line,
    is_before: bool,
) -> (Assertion, Assertion) {
    let premise = expansion
        .premises
        .get(line.premises.start)
        .and_then(|premise| expansion.lines.get(premise.saturating_sub(1)));
    match premise {
        Some(premise) if is_before => (line.before, premise.before),
        Some(premise) => (premise.after, line.after),
        None => (line.before, line.after),
    }
}

/// Where a condition is reported where nothing more is known of it.
pub(crate) fn place_of(expansion: &Expansion<'_>, asked: Asked<'_>) -> Span {
    match asked {
        Asked::Line(asks, _, line) => match asks {
            OfLine::PreStable => line.before.span,
            OfLine::PostStable => line.after.span,
            OfLine::PreFollows => given_and_due(expansion, line, true).1.span,
            OfLine::PostFollows => given_and_due(expansion, line, false).1.span,
            _ => expansion.statement(line.statement).span,
        },
        Asked::Parts(asks) => asked_of_parts(expansion, asks).2,
    }
}

/// Of a condition of the parts: the formula that it asks for, a number for its kind, and where it is reported, at the pre of a part, or where a part is
/// named, or at the program's post.
pub(crate) fn asked_of_parts(expansion: &Expansion<'_>, asks: OfParts) -> (usize, usize, Span) {
    let forest = &expansion.scope.forest;
    let program = expansion.specification;
    let rely = |part: usize| expansion.parts.get(part).map_or(0, |part| part.rely);
    let place = |part: usize| {
        let part = expansion.parts.get(part);
        part.map_or(Span::NOWHERE, |part| part.span)
    };
    match asks {
        OfParts::Pre(part) => match expansion.parts.get(part) {
            Some(part) => (part.pre.full, 0, part.pre.span),
            None => (0, 0, Span::NOWHERE),
        },
        OfParts::Rely(part) => (rely(part), 1, place(part)),
        OfParts::Between { guar, rely: part } => (rely(part), 2, place(guar)),
        OfParts::Guar(part) => (program.guar, 3, place(part)),
        OfParts::Post => (program.post, 4, forest.span(program.post)),
    }
}

/// What a condition of a line is called, and what it says, as templates: `$0` is its part, `$1` the line's number, `$2` and `$3` are the assertions after
/// and before the statement, and `$4` is the one from which another should follow.
fn of_line(asks: OfLine) -> (&'static str, &'static str) {
    let stable = "$0: steps inside $0's rely keep this assertion";
    let follows = "$0: this assertion follows from $4";
    let same = "$0: the same formula on both sides";
    match asks {
        OfLine::Reach => (
            "line $1 reach",
            "$0: after this step $2 and the invariant hold",
        ),
        OfLine::Step => (
            "line $1 step",
            "$0: this step keeps the invariant, the relies of the others and the program's guar",
        ),
        OfLine::PreStable => ("line $1 pre stable", stable),
        OfLine::PostStable => ("line $1 post stable", stable),
        OfLine::Exit => ("line $1 exit", "$0: where the loop ends, $3 gives $2"),
        OfLine::PreFollows => ("line $1 pre", follows),
        OfLine::RelyFollows => ("line $1 rely", same),
        OfLine::GuarFollows => ("line $1 guar", same),
        OfLine::PostFollows => ("line $1 post", follows),
    }
}

/// What a condition of the parts is called, and what it says, as templates, and the parts at their gaps.
fn of_parts(asks: OfParts) -> (&'static str, &'static str, usize, usize) {
    match asks {
        OfParts::Pre(part) => (
            "all pre $0",
            "the program's pre gives the pre of $0",
            part,
            part,
        ),
        OfParts::Rely(part) => (
            "all rely $0",
            "the program's rely gives the rely of $0",
            part,
            part,
        ),
        OfParts::Between { guar, rely } => (
            "all guar $0 rely $1",
            "the guarantee of $0 gives the rely of $1",
            guar,
            rely,
        ),
        OfParts::Guar(part) => (
            "all guar $0",
            "the guarantee of $0 gives the program's guar",
            part,
            part,
        ),
        OfParts::Post => (
            "all post",
            "the posts of the parts give the program's post",
            0,
            0,
        ),
    }
}

/// Adds what a condition is called, as `rgc conditions` prints it, or what it says.
fn push_condition(
    expansion: &Expansion<'_>,
    text: &mut Vec<u8>,
    asked: Asked<'_>,
    is_name: bool,
) -> Result<(), AllocError> {
    match asked {
        Asked::Line(asks, number, line) => {
            let (name, sentence) = of_line(asks);
            let is_before = matches!(asks, OfLine::PreFollows);
            let (given, _) = given_and_due(expansion, line, is_before);
            let gaps = [
                Part(line.part),
                Count(number as u64),
                AssertionAt(line.after.span),
                AssertionAt(line.before.span),
                AssertionAt(given.span),
            ];
            fill(
                expansion,
                text,
                if is_name { name } else { sentence },
                &gaps,
            )
        }
        Asked::Parts(asks) => {
            let (name, sentence, first, second) = of_parts(asks);
            let gaps = [Part(first), Part(second)];
            fill(
                expansion,
                text,
                if is_name { name } else { sentence },
                &gaps,
            )
        }
    }
}

/// What a condition says.
pub(crate) fn condition_sentence(
    expansion: &Expansion<'_>,
    asked: Asked<'_>,
) -> Result<Vec<u8>, AllocError> {
    let mut sentence = Vec::new(expansion.scope.alloc);
    push_condition(expansion, &mut sentence, asked, false)?;
    Ok(sentence)
}

/// Adds a row for each condition of the derivation: `K NAME LINE:COLUMN what it says`, with its number and its name as `rgc conditions` prints
/// them, and its place in the outline.
///
/// # Errors
///
/// `AllocError` where memory is refused; the text is then of no use.
pub(crate) fn push_conditions(
    expansion: &Expansion<'_>,
    text: &mut Vec<u8>,
) -> Result<(), AllocError> {
    let conditions = conditions_of(expansion)?;
    for (index, asked) in conditions.iter().enumerate() {
        push_count(text, index.saturating_add(1) as u64)?;
        text.push(b' ')?;
        push_condition(expansion, text, *asked, true)?;
        text.push(b' ')?;
        push_place(text, expansion.scope.source, place_of(expansion, *asked))?;
        text.push(b' ')?;
        push_condition(expansion, text, *asked, false)?;
        text.push(b'\n')?;
    }
    Ok(())
}
