//! All warnings of an outline.

use crate::always::report_empty_promises;
use crate::names::report_unused;
use crate::outside::report_outside;
use crate::promises::{report_auxiliary_alone, report_post};
use crate::questions::{Asks, Outside};
use crate::relies::report_relies;
use crate::reports::{Cause, Key, Reports, Warning};
use crate::shared::report_shared;
use crate::sums::report_sums;
use crate::template::Gap;
use crate::tests_asked::report_tests;
use rg_outline::Expansion;
use rg_outline_syntax::{Clause, HeadKind, Span};
use std::alloc::AllocError;

/// Reports a warning at a place, of a part or of the program.
pub(crate) fn warn(
    reports: &mut Reports<'_>,
    warning: Warning,
    place: Span,
    part: Option<usize>,
    template: &str,
    gaps: &[Gap<'_>],
) -> Result<(), AllocError> {
    let key = Key {
        cause: Cause::Warned(warning),
        at: place,
        what: place,
    };
    reports.put(key, place, part, template, gaps)?;
    Ok(())
}

/// Where the program's formula of a clause stands, where it is written.
pub(crate) fn clause_span(expansion: &Expansion<'_>, clause: Clause) -> Option<Span> {
    let written = expansion.scope.written;
    for head in written.heads(written.following_words) {
        if let HeadKind::Clause(kind, formula) = head.kind
            && kind == clause
        {
            return written
                .expression(formula)
                .map(|expression| expression.span);
        }
    }
    None
}

/// Reports all warnings of an outline that was worked out. `shown` are the questions to which the answer is yes, and `outside` the indices that are
/// outside their ranges: that takes a search, so who calls says it.
pub(crate) fn report_warnings(
    reports: &mut Reports<'_>,
    shown: &[Asks],
    outside: &[Outside],
) -> Result<(), AllocError> {
    let is_unmet = shown.iter().any(|asks| *asks == Asks::PreUnmet);
    if is_unmet && let Some(place) = clause_span(reports.expansion, Clause::Pre) {
        let template = "no state meets the pre, so nothing is proved of any run";
        warn(reports, Warning::PreUnmet, place, None, template, &[])?;
    }
    report_empty_promises(reports, shown)?;
    report_post(reports)?;
    report_auxiliary_alone(reports)?;
    report_relies(reports)?;
    report_sums(reports)?;
    report_tests(reports)?;
    report_outside(reports, outside)?;
    report_shared(reports)?;
    report_unused(reports)
}
