//! An outline that was worked out, and what is printed of it.

use crate::conditions::push_conditions;
use crate::draw::push_reports;
use crate::failures::{Failed, FailureReports};
use crate::faults::{printable, refused_expansion, refused_source};
use crate::files::{Failures, Format, NoFiles, OutlineFiles, OutlineSource, Places};
use crate::inputs::report_outside_pre;
use crate::marks::take_marks;
use crate::operations::{Operation, operations_of};
use crate::places::{is_added, own_line};
use crate::questions::{Asks, Outside};
use crate::reports::Reports;
use crate::run::{push_breaking, push_walked};
use crate::stuck::report_stuck;
use crate::warnings::report_warnings;
use rg_outline::{Expansion, push_derivation, push_map, push_priority, push_text, work_out};
use rg_outline_syntax::{Fault, Standing, Tokens, Written, parse};
use rg_walk::{BreakingRun, StuckRun, Walked};
use std::alloc::{AllocError, Global};

/// What is written in an outline: its tokens, and the tree over them.
#[derive(Drop)]
pub struct ReadOutline {
    pub tokens: Tokens,
    pub written: Written,
}

/// What is written in these bytes.
pub(crate) fn read_in(alloc: Global, source: &[u8]) -> Result<ReadOutline, Fault> {
    let tokens = Tokens::read(alloc, source)?;
    let written = parse(alloc, source, &tokens)?;
    Ok(ReadOutline { tokens, written })
}

/// What is written in an outline, as `Outlined::of` takes it.
///
/// # Errors
///
/// - `NoFiles::Reported`, with the fault for which a file can't be used, else the first of the tokens, else of the shape.
/// - `NoFiles::Memory` where memory is refused.
pub fn read_outline(alloc: Global, outline: OutlineSource<'_>) -> Result<ReadOutline, NoFiles> {
    let read = match outline.fault {
        None => read_in(alloc, outline.source),
        Some(fault) => Err(fault),
    };
    match read {
        Ok(read) => Ok(read),
        Err(fault) => Err(refused_source(alloc, outline, fault)),
    }
}

/// Works an outline out, and prints its files, which don't depend on how it is reported of.
fn make_files(expansion: &mut Expansion<'_>, files: &mut OutlineFiles) -> Result<(), Fault> {
    work_out(expansion)?;
    for word in &expansion.scope.words {
        files.auxiliary.push(word.standing == Standing::Auxiliary)?;
    }
    let alloc = expansion.scope.alloc;
    let mut priority = Vec::new(alloc);
    push_priority(expansion, &mut priority)?;
    files.priority = String::from_utf8_lossy(alloc, &priority)?;
    push_text(expansion, &mut files.text)?;
    push_derivation(expansion, &mut files.derivation, &mut files.cuts)
}

/// An outline that was worked out, with the files that it stands for.
#[derive(Drop)]
pub struct Outlined<'a> {
    pub outline: OutlineSource<'a>,
    pub read: &'a ReadOutline,
    pub(crate) expansion: Expansion<'a>,
    pub files: OutlineFiles,
}

impl<'a> Outlined<'a> {
    ghost use Rattle.std.specs.Prelude.{◌≡◌, IfOk};

    /// An outline in which this is written, worked out.
    ///
    /// # Errors
    ///
    /// - `NoFiles::Reported`, with the first fault of the meaning, else that the text or a line of the derivation would be too large for a file, or the
    ///   derivation as a whole for this program.
    /// - `NoFiles::Memory` where memory is refused.
    pub fn of(
        alloc: Global,
        outline: OutlineSource<'a>,
        read: &'a ReadOutline,
    ) -> Result<Outlined<'a>, NoFiles>
        ensures { IfOk result (λ outlined. outlined.read.now ≡ read.now) }
    {
        let mut expansion = Expansion::new(alloc, outline.source, &read.written);
        let mut files = OutlineFiles {
            text: Vec::new(alloc),
            derivation: Vec::new(alloc),
            cuts: Vec::new(alloc),
            auxiliary: Vec::new(alloc),
            priority: String::new(alloc),
        };
        match make_files(&mut expansion, &mut files) {
            Ok(()) => Ok(Outlined {
                outline,
                read,
                expansion,
                files,
            }),
            Err(fault) => Err(refused_expansion(outline, &expansion, fault)),
        }
    }

    /// The files alone.
    pub fn into_files(self) -> OutlineFiles {
        let Outlined { files, .. } = self;
        files
    }

    /// A text as it is printed: lines without control bytes, and JSON as it is.
    fn printed(&self, text: Vec<u8>) -> Result<Vec<u8>, AllocError> {
        match self.outline.format {
            Format::Plain => printable(self.expansion.scope.alloc, &text),
            Format::Json => Ok(text),
        }
    }

    /// Reports as they are printed.
    fn drawn(&self, reports: &Reports<'_>) -> Result<Vec<u8>, AllocError> {
        let mut lines = Vec::new(self.expansion.scope.alloc);
        let own = self.outline.name.as_bytes();
        push_reports(&mut lines, self.outline.format, reports, own)?;
        self.printed(lines)
    }

    /// The map: a row `line K RULE PART LINE:COLUMN phrase` for each line of the derivation, then a row `K NAME LINE:COLUMN what it says` for each
    /// condition.
    /// An error comes only where memory is refused.
    pub fn map(&self) -> Result<Vec<u8>, AllocError> {
        let mut map = Vec::new(self.expansion.scope.alloc);
        if push_map(&self.expansion, &mut map).is_err() {
            return Err(AllocError);
        }
        push_conditions(&self.expansion, &mut map)?;
        printable(self.expansion.scope.alloc, &map)
    }

    /// What the words and the statements of the text are in the outline.
    /// An error comes only where memory is refused.
    pub fn places(&self) -> Result<Places, AllocError> {
        let expansion = &self.expansion;
        let alloc = expansion.scope.alloc;
        let mut words = Vec::new(alloc);
        for word in 0..expansion.scope.words.len() {
            words.push(Vec::from_slice(alloc, expansion.scope.shown.at(word))?)?;
        }
        let mut lines = Vec::new(alloc);
        for _ in 0..expansion.count.saturating_add(1) {
            lines.push(0)?;
        }
        let mut added = Vec::new(alloc);
        for statement in &expansion.statements {
            if is_added(expansion, *statement) {
                added.push(statement.number)?;
            }
            if let Some(slot) = lines.get_mut(statement.number) {
                *slot = own_line(expansion, *statement);
            }
        }
        Ok(Places {
            words,
            lines,
            added,
        })
    }

    /// The uses of named statements in its parts, which C has as functions.
    /// An error comes only where memory is refused.
    pub fn operations(&self) -> Result<Vec<Operation>, AllocError> {
        operations_of(&self.expansion)
    }

    /// What of the program's pre is false where the words have these values; nothing where they are in the pre.
    /// An error comes only where memory is refused.
    pub fn outside_pre(&self, values: &[u64]) -> Result<Vec<u8>, AllocError> {
        let mut reports = Reports::new(&self.expansion);
        report_outside_pre(&mut reports, values)?;
        self.drawn(&reports)
    }

    /// What is reported of conditions of the derivation that aren't proved, and what that says to be false.
    /// An error comes only where memory is refused.
    pub fn failures(&self, failed: &[Failed<'_>]) -> Result<Failures, AllocError> {
        let reported = FailureReports::of(&self.expansion, failed)?;
        let mut lines = Vec::new(self.expansion.scope.alloc);
        reported.push(
            &mut lines,
            self.outline.format,
            self.outline.name.as_bytes(),
        )?;
        Ok(Failures {
            lines: self.printed(lines)?,
            claims: reported.into_claims(),
        })
    }

    /// The warnings but for those that are meant; nothing where there are none, or none are wanted. `shown` are the questions to which a search answered
    /// yes, and `outside` are the indices of which it found that they are outside their ranges.
    /// An error comes only where memory is refused.
    pub fn warnings(&self, shown: &[Asks], outside: &[Outside]) -> Result<Vec<u8>, AllocError> {
        let mut reports = Reports::new(&self.expansion);
        if self.outline.has_warnings {
            report_warnings(&mut reports, shown, outside)?;
            take_marks(&mut reports)?;
        }
        self.drawn(&reports)
    }

    /// What a walk of the text found, in the outline's words: the run that breaks the specification, or how far was looked.
    /// An error comes only where memory is refused.
    pub(crate) fn walked(&self, walked: &Walked) -> Result<Vec<u8>, AllocError> {
        let mut lines = Vec::new(self.expansion.scope.alloc);
        push_walked(&self.expansion, &mut lines, self.outline, walked)?;
        self.printed(lines)
    }

    /// The warning of a run that gets stuck.
    /// An error comes only where memory is refused.
    pub fn stuck(&self, run: &StuckRun) -> Result<Vec<u8>, AllocError> {
        let mut reports = Reports::new(&self.expansion);
        report_stuck(&mut reports, run)?;
        self.drawn(&reports)
    }

    /// The lines that report a run of the program, in the outline's words; or a JSON value in a line of its own.
    /// An error comes only where memory is refused.
    pub fn run_lines(&self, run: &BreakingRun) -> Result<Vec<u8>, AllocError> {
        let mut lines = Vec::new(self.expansion.scope.alloc);
        push_breaking(&self.expansion, &mut lines, self.outline, run)?;
        Ok(lines)
    }
}
