//! An outline with what it was worked out to: neither can be exchanged for that of another outline.

use crate::files::{NoFiles, OutlineSource};
use crate::outlined::{Outlined, ReadOutline, read_outline};
use std::alloc::Global;

/// An outline, and what is written in it, or why it is refused.
#[derive(Drop)]
pub struct Reading<'a> {
    outline: OutlineSource<'a>,
    read: Result<ReadOutline, NoFiles>,
}

impl<'a> Reading<'a> {
    ghost use Rattle.std.specs.Prelude.{◌≡◌};
    ghost use Rattle.rg_outline_reports.specs.WorkedOut.{read_source};

    /// That of this outline.
    pub fn of(alloc: Global, outline: OutlineSource<'a>) -> Reading<'a>
        ensures { read_source result ≡ outline.entry }
    {
        Reading {
            outline,
            read: read_outline(alloc, outline),
        }
    }
}

/// An outline, and the files that it stands for, or why there are none.
#[derive(Drop)]
pub struct WorkedOut<'a> {
    outline: OutlineSource<'a>,
    expanded: Result<Outlined<'a>, NoFiles>,
}

impl<'a> WorkedOut<'a> {
    ghost use Rattle.std.specs.Prelude.{◌≡◌};
    ghost use Rattle.rg_outline_reports.specs.WorkedOut.{read_source, read_result, worked_source, worked_result, IsExpansionOf};

    /// That of the outline in which this is written.
    pub fn of(alloc: Global, reading: &'a Reading<'a>) -> WorkedOut<'a>
        ensures source { worked_source result ≡ read_source reading.now }
        ensures written { IsExpansionOf (read_result reading.now) (worked_result result) }
    {
        let outline = reading.outline;
        let expanded = match &reading.read {
            Ok(read) => Outlined::of(alloc, outline, read),
            Err(none) => Err(none.copied(alloc)),
        };
        WorkedOut { outline, expanded }
    }

    /// What it was worked out to.
    pub fn expanded(&self) -> &Result<Outlined<'a>, NoFiles>
        ensures { result.now ≡ worked_result self.now }
    {
        &self.expanded
    }
}
