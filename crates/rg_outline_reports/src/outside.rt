//! Warnings of indices over words that can be outside their ranges.

use crate::questions::Outside;
use crate::reports::{Cause, Key, Moved, Reports, Warning};
use crate::template::Gap::Number;
use crate::values::Moment;
use crate::words::Words;
use rg_outline::IndexAsked;
use std::alloc::AllocError;

/// Reports an index that is outside its range in a state.
fn report_index(
    reports: &mut Reports<'_>,
    asked: IndexAsked,
    state: &[u64],
) -> Result<(), AllocError> {
    let expansion = reports.expansion;
    let place = asked.chosen.span;
    let key = Key {
        cause: Cause::Warned(Warning::IndexOutside),
        at: place,
        what: place,
    };
    let template =
        "nothing shows that this index is in $0..$1: outside it the last member is read, and none is assigned; say in the assertion before this that it is inside";
    let gaps = [Number(asked.chosen.lowest), Number(asked.chosen.highest)];
    if reports.put(key, place, Some(asked.part), template, &gaps)? {
        let mut words = Words::new(expansion);
        words.add_tree(expansion, asked.chosen.index)?;
        let values = words.values(expansion, Moment::at(state))?;
        reports.explain(Vec::new(expansion.scope.alloc), Moved::State, values);
    }
    Ok(())
}

/// Reports each index over words that a search found outside its range.
pub(crate) fn report_outside(
    reports: &mut Reports<'_>,
    outside: &[Outside],
) -> Result<(), AllocError> {
    let expansion = reports.expansion;
    for found in outside {
        if let Some(asked) = expansion.asked.get(found.place) {
            report_index(reports, *asked, &found.state)?;
        }
    }
    Ok(())
}
