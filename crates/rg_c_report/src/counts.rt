//! How many steps are done in each way.

ghost use Rattle.std.specs.Prelude.{◌≡◌, ◌++◌, map, string_bytes, IfOk, OnOk};
ghost use Rattle.rg_tree.specs.ProgramTrees.{program as program_tree};
ghost use Rattle.rg_c_plan.specs.View.{step, view};
ghost use Rattle.rg_c_report.specs.Counts.{way_of_step, ways_of, counts_of_ways, counts_of, counts_first, counts_second, counts_text};

use crate::words::{push_counted, push_number};
use rg_c_plan::kind::Kind;
use rg_c_plan::order::Rank;
use rg_c_plan::step::Step;
use rg_c_plan::views::{PartView, views};
use rg_c_plan::way::{Way, way_of};
use rg_tree::program::Program;
use std::alloc::{AllocError, Global};

/// How many steps a program has, and how many of them are done in each way.
#[derive(Clone, Copy, Debug, PartialEq, Eq)]
pub struct Counts {
    pub steps: usize,
    /// Those that meet no other part.
    pub direct: usize,
    pub loads: usize,
    pub stores: usize,
    pub exchanges: usize,
    /// Those that access one of several words.
    pub selects: usize,
    pub sections: usize,
}

/// Adds how each of these steps is done.
fn push_ways(kinds: &[Kind], steps: &[Step<'_>], ways: &mut Vec<Way>) -> Result<(), AllocError>
    ensures { OnOk result (ways.new.items ≡ ways.old.items ++ map (way_of_step kinds.now) (map step steps.now)) }
{
    for s in steps {
        ways.push(way_of(kinds, s.guard, s.act))?;
    }
    Ok(())
}

/// How the steps of these parts are done.
fn ways_of(alloc: Global, views: &[PartView<'_>]) -> Result<Vec<Way>, AllocError>
    ensures { IfOk result (λ ways. ways.items ≡ ways_of (map view views.now)) }
{
    let mut ways = Vec::new(alloc);
    for v in views {
        push_ways(&v.kinds, &v.steps, &mut ways)?;
    }
    Ok(ways)
}

/// How many of these steps are done in each way.
fn counts_of_ways(ways: &[Way]) -> Counts
    ensures { result ≡ counts_of_ways ways.now }
{
    let mut counts = Counts {
        steps: ways.len(),
        direct: 0,
        loads: 0,
        stores: 0,
        exchanges: 0,
        selects: 0,
        sections: 0,
    };
    for way in ways {
        match way {
            Way::Direct => counts.direct += 1,
            Way::Load(_) => counts.loads += 1,
            Way::Store(_) => counts.stores += 1,
            Way::Exchange(_) => counts.exchanges += 1,
            Way::Select => counts.selects += 1,
            Way::Section => counts.sections += 1,
        }
    }
    counts
}

/// How many steps a program has, and how many are done in each way, by the kinds of words.
///
/// An error comes only where memory was refused.
pub fn counts_of(
    alloc: Global,
    program: &Program,
    order: &[Option<Rank>],
    kinds: &[Kind],
) -> Result<Counts, AllocError>
    ensures { IfOk result (λ counts. counts ≡ counts_of (program_tree program.now) order.now kinds.now) }
{
    let views = views(alloc, program, order, kinds)?;
    let ways = ways_of(alloc, &views)?;
    Ok(counts_of_ways(&ways))
}

/// Adds the first half of what is said of the counts: the steps, those that meet no other part, loads and stores.
///
/// An error comes only where memory was refused.
pub fn push_counts_first(text: &mut String, counts: &Counts) -> Result<(), AllocError>
    ensures { OnOk result (string_bytes text.new ≡ string_bytes text.old ++ counts_first counts.now) }
{
    text.push_str("Steps: ")?;
    push_number(text, counts.steps as u64)?;
    text.push_str(". ")?;
    push_counted(
        text,
        counts.direct as u64,
        " meets no other part, ",
        " meet no other part, ",
    )?;
    push_counted(
        text,
        counts.loads as u64,
        " is one load, ",
        " are one load, ",
    )?;
    push_counted(
        text,
        counts.stores as u64,
        " is one store,",
        " are one store,",
    )?;
    Ok(())
}

/// Adds the second half: exchanges, accesses that are chosen, and sections.
///
/// An error comes only where memory was refused.
pub fn push_counts_second(text: &mut String, counts: &Counts) -> Result<(), AllocError>
    ensures { OnOk result (string_bytes text.new ≡ string_bytes text.old ++ counts_second counts.now) }
{
    push_counted(
        text,
        counts.exchanges as u64,
        " is one compare-and-exchange, ",
        " are one compare-and-exchange, ",
    )?;
    push_counted(
        text,
        counts.selects as u64,
        " accesses one of several words, ",
        " access one of several words, ",
    )?;
    push_counted(
        text,
        counts.sections as u64,
        " is a critical section.",
        " are a critical section.",
    )?;
    Ok(())
}

/// Adds what is said of the counts, as one sentence.
///
/// An error comes only where memory was refused.
#[tactic(auto, unfolding(crate::specs::Counts::counts_text))]
pub fn push_counts(text: &mut String, counts: &Counts) -> Result<(), AllocError>
    ensures { OnOk result (string_bytes text.new ≡ string_bytes text.old ++ counts_text counts.now) }
{
    push_counts_first(text, counts)?;
    text.push_str(" ")?;
    push_counts_second(text, counts)
}
