//! The text that an outline was expanded to, validated against what the outline stands for (A. Pnueli, M. Siegel, E. Singerman: Translation Validation, TACAS
//! 1998): no proof is needed of the expansion.

ghost use Rattle.std.specs.Prelude.{◌≡◌, true, IfOk, IfSome, IfNone};
ghost use Rattle.rgc_commands.specs.Inner.Meant.{is_memory};
ghost use Rattle.rgc_commands.specs.Meant.{IsMeant, AreMeant, IsUnmeant, unmeant_text};

use crate::files::Expanded;
use rg_outline_meaning::stands_for;
use rg_outline_reports::{Format, NoFiles, OutlineSource, Outlined};
use rg_parse::program;
use rg_words::{Refusal, RefusalNumber};
use std::alloc::Global;

/// Whether memory was refused.
fn is_memory(number: RefusalNumber) -> bool
    ensures { result ≡ is_memory number }
{
    matches!(number, RefusalNumber::Memory)
}

/// Whether the outline is known to stand for the program that its text spells, if it spells one.
///
/// # Errors
///
/// Only where memory is refused.
#[tactic(auto, using(crate::proofs::Meant::rules))]
fn is_meant(
    alloc: Global,
    outline: OutlineSource<'_>,
    outlined: &Outlined<'_>,
) -> Result<bool, Refusal>
    ensures { IfOk result (λ is. is ≡ true → IsMeant outline.entry outlined.now) }
{
    match program(alloc, &outlined.files.text) {
        Ok(program) => Ok(stands_for(alloc, outline.source, &outlined.read.written, &program)?),
        Err(refusal) if is_memory(refusal.number) => Err(refusal),
        // (it spells none)
        Err(_) => Ok(true),
    }
}

/// What is reported of an outline that isn't known to stand for the program of its text.
fn unmeant_text(format: Format) -> &'static [u8]
    ensures { result.now ≡ unmeant_text format }
{
    match format {
        Format::Plain =>
            b"error: the text that was made of the outline isn't known to say what the outline says: it is too large to be read a second time, or rgc is at fault\n",
        Format::Json => b"{\"kind\":\"unmeant\"}\n",
    }
}

/// Why an outline is refused that was worked out to files: it isn't known to stand for the program of their text.
pub(crate) fn unmeant(
    alloc: Global,
    outline: OutlineSource<'_>,
    expanded: &Expanded<'_>,
) -> Option<NoFiles>
    ensures none { IfNone result (AreMeant outline.entry expanded.now) }
    ensures some { IfSome result (IsUnmeant outline.entry) }
{
    let Ok(outlined) = expanded else {
        return None;
    };
    match is_meant(alloc, outline, outlined) {
        Ok(true) => None,
        Ok(false) => match Vec::from_slice(alloc, unmeant_text(outline.format)) {
            Ok(lines) => Some(NoFiles::Reported(lines)),
            Err(_) => Some(NoFiles::Memory),
        },
        Err(_) => Some(NoFiles::Memory),
    }
}
