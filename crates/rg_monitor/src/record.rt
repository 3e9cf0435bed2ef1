//! The record of one step.

ghost use Rattle.std.specs.Prelude.{◌≡◌, ◌↔◌, ◌≤◌, IfOk, IsTrue, map, length};
ghost use Rattle.rg_words.specs.Layout.{widths_of};
ghost use Rattle.rg_words.specs.declared.limits.TheConstants.{MOST_PARTS};
ghost use Rattle.rg_tree.specs.View.{formula};
ghost use Rattle.rg_tree.specs.ProgramView.{specification, part};
ghost use Rattle.rg_tree.specs.ProgramTrees.{program as program_tree};
ghost use Rattle.rg_tree.specs.TypedPrograms.{IsTypedSpecification, AreTypedParts};
ghost use Rattle.rg_tree.specs.Inside.{is_inside};
ghost use Rattle.rg_monitor.specs.Entry.{covering, entry_of, OfSameWords};

use rg_tree::meaning::inside;
use rg_tree::part::Part;
use rg_tree::program::Program;
use rg_tree::typing::typed_trees_fit;
use rg_words::{Layout, State};
use std::alloc::{AllocError, Global};
use std::marker::Model;

/// A step that was made: its number, who made it, the line of the statement, the states around it, and the parts whose
/// guarantee it is inside. Both states are of the same words.
#[derive(Drop)]
pub struct Record {
    number: u64,
    who: usize,
    line: u32,
    before: State,
    after: State,
    cover: Vec<usize>,
}

impl Model for Record {
    ghost use Rattle.std.specs.Prelude.{◌≡◌};
    ghost use Rattle.rg_monitor.specs.Entry.{Entry};

    ghost Value = { Entry };

    ghost view = { λ r. record { number = r.number; who = r.who; line = r.line; before = r.before.values; after = r.after.values; cover = r.cover.items } };

    ghost invariant = { λ r. r.after.widths ≡ r.before.widths };
}

impl Record {
    /// The record of a step, from copies of its states. Every part is looked at, whoever made the step.
    ///
    /// An error comes only where memory was refused.
    pub fn of(
        alloc: Global,
        program: &Program,
        number: u64,
        who: usize,
        line: u32,
        before: &State,
        after: &State,
    ) -> Result<Record, AllocError>
        requires before { before.now.widths ≡ widths_of program.now.layout }
        requires after { after.now.widths ≡ widths_of program.now.layout }
        ensures { IfOk result (λ r. r ≡ entry_of (program_tree program.now) number who line before.now.values after.now.values) }
    {
        let before = before.copy()?;
        let after = after.copy()?;
        let cover = cover_of(alloc, program, &before, &after)?;
        Ok(Record {
            number,
            who,
            line,
            before,
            after,
            cover,
        })
    }

    /// Whether both say the same.
    pub fn same(&self, other: &Record) -> bool
        ensures { IsTrue result ↔ (self.now ≡ other.now) }
    {
        self.number == other.number
            && self.who == other.who
            && self.line == other.line
            && self.before.same(&other.before)
            && self.after.same(&other.after)
            && self.cover == other.cover
    }

    /// The number of the step, from 1.
    pub fn number(&self) -> u64
        ensures { result ≡ self.now.number }
    {
        self.number
    }

    /// Who made the step: 0 for the environment, else a part by its number, from 1.
    pub fn who(&self) -> usize
        ensures { result ≡ self.now.who }
    {
        self.who
    }

    /// The line of the statement, from 1; 0 for the environment.
    pub fn line(&self) -> u32
        ensures { result ≡ self.now.line }
    {
        self.line
    }

    /// The state before the step.
    pub fn before(&self) -> &State
        ensures { result.now.values ≡ self.now.before }
    {
        &self.before
    }

    /// The state after the step.
    pub fn after(&self) -> &State
        ensures { result.now.values ≡ self.now.after }
    {
        &self.after
    }

    /// The numbers of the parts whose guarantee the step is inside, in order, from 1.
    pub fn cover(&self) -> &[usize]
        ensures { result.now ≡ self.now.cover }
    {
        self.cover.as_slice()
    }

    /// What is known of every record, for proofs: there is nothing to do.
    pub fn facts(&self)
        ensures { OfSameWords self.now.before self.now.after }
    {
        self.before.facts();
        self.after.facts();
    }
}

/// Whether a step is inside a part's guarantee.
fn is_covered(layout: &Layout, part: &Part, before: &State, after: &State) -> bool
    requires part { IsTypedSpecification layout.now (specification part.now.spec) }
    requires before { before.now.widths ≡ widths_of layout.now }
    requires after { after.now.widths ≡ widths_of layout.now }
    ensures { result ≡ is_inside (formula part.now.spec.guar) before.now.values after.now.values }
{
    typed_trees_fit();
    layout.facts();
    inside(&part.spec.guar, before, after)
}

/// Of these parts, the numbers of those whose guarantee a step is inside.
fn covering_parts(
    alloc: Global,
    layout: &Layout,
    parts: &[Part],
    before: &State,
    after: &State,
) -> Result<Vec<usize>, AllocError>
    requires parts { AreTypedParts layout.now (map part parts.now) }
    requires most { length parts.now ≤ MOST_PARTS }
    requires before { before.now.widths ≡ widths_of layout.now }
    requires after { after.now.widths ≡ widths_of layout.now }
    ensures { IfOk result (λ r. r.items ≡ covering 1 (map part parts.now) before.now.values after.now.values) }
{
    let mut numbers = Vec::new(alloc);
    for (i, part) in parts.iter().enumerate() {
        if is_covered(layout, part, before, after) {
            numbers.push(i + 1)?;
        }
    }
    Ok(numbers)
}

/// The numbers of the program's parts whose guarantee a step is inside.
fn cover_of(
    alloc: Global,
    program: &Program,
    before: &State,
    after: &State,
) -> Result<Vec<usize>, AllocError>
    requires before { before.now.widths ≡ widths_of program.now.layout }
    requires after { after.now.widths ≡ widths_of program.now.layout }
    ensures { IfOk result (λ r. r.items ≡ covering 1 (program_tree program.now).parts before.now.values after.now.values) }
{
    covering_parts(alloc, &program.layout, &program.parts, before, after)
}
