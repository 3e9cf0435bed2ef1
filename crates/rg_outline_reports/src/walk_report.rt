//! What a walk found, with the lines that report it: neither can be exchanged for that of another walk.

use crate::outlined::Outlined;
use rg_walk::Walked;
use std::alloc::AllocError;

/// What a walk found, and the lines that report it.
#[derive(Drop)]
pub struct WalkReport {
    walked: Walked,
    lines: Vec<u8>,
}

impl WalkReport {
    ghost use Rattle.std.specs.Prelude.{◌≡◌, IfOk};
    ghost use Rattle.rg_outline_reports.specs.WalkReport.{reported_walk, reported_lines};

    /// What is reported of this walk, in the outline's words.
    /// An error comes only where memory is refused.
    pub fn of(outlined: &Outlined<'_>, walked: Walked) -> Result<WalkReport, AllocError>
        ensures { IfOk result (λ report. reported_walk report ≡ walked) }
    {
        match outlined.walked(&walked) {
            Ok(lines) => Ok(WalkReport { walked, lines }),
            Err(error) => {
                drop(walked);
                Err(error)
            }
        }
    }

    /// What was found.
    pub fn walk(&self) -> &Walked
        ensures { result.now ≡ reported_walk self.now }
    {
        &self.walked
    }

    /// The lines.
    pub fn lines(&self) -> &[u8]
        ensures { result.now ≡ reported_lines self.now }
    {
        &self.lines
    }
}
