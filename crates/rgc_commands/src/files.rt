//! The bytes of the files that a command names.

ghost use Rattle.std.specs.Prelude.{◌≡◌, ℕ, List, Option, Some, IfOk, IfErr, OnOk};
ghost use Rattle.std.specs.List.{concat};
ghost use Rattle.rg_words.specs.Refusals.{no_memory};
ghost use Rattle.rgc.specs.Pieces.{bytes_of};
ghost use Rattle.rgc_commands.specs.Of.{IsRead};
ghost use Rattle.rgc_commands.specs.Stops.{unless_read, where_named, text_line, derivation_line, proofs_line, input_lines};
ghost use Rattle.rgc_commands.specs.Inner.Stops.{IsDevice};

use crate::stops::Stop;
use rg_outline_reports::{NoFiles, Outlined};
use rg_words::Refusal;
use std::alloc::Global;

/// What an outline was worked out to: the files that it stands for, or why there are none.
pub type Expanded<'a> = Result<Outlined<'a>, NoFiles>;

/// The bytes of the pieces of a file, each of which is a file.
pub type Pieces<'a> = &'a [&'a [u8]];

/// The bytes of the files that a command names; none where it isn't named or can't be read.
#[derive(Clone, Copy)]
pub struct Files<'a> {
    /// The text; of a command over an outline, the outline's bytes, which are only shown.
    pub text: Option<&'a [u8]>,
    /// The pieces of a derivation, each a file, and those of proofs; none where one of them can't be read.
    pub derivation: Option<Pieces<'a>>,
    pub proofs: Option<Pieces<'a>>,
    pub start: Option<&'a [u8]>,
    pub moves: Option<&'a [u8]>,
    /// What the outline of a command was worked out to.
    pub outline: Option<&'a Expanded<'a>>,
}

/// A file's bytes, where it can be read.
fn needed<'a>(file: Option<&'a [u8]>, fault: &'static str) -> Result<&'a [u8], Stop>
    ensures bytes { IfOk result (λ bytes. file.entry ≡ Some bytes) }
    ensures unread { (rest : Option (List ℕ)) → IfErr result (IsDevice (unless_read file.entry fault.now rest)) }
{
    match file {
        Some(bytes) => Ok(bytes),
        None => Err(Stop::Device(fault)),
    }
}

pub(crate) fn text_of<'a>(files: &Files<'a>) -> Result<&'a [u8], Stop>
    ensures bytes { IfOk result (λ bytes. files.now.text ≡ Some bytes) }
    ensures unread { (rest : Option (List ℕ)) → IfErr result (IsDevice (text_line files.now rest)) }
{
    needed(files.text, "device text\n")
}

/// The bytes of the pieces of a file, where all can be read.
fn needed_pieces<'a>(file: Option<Pieces<'a>>, fault: &'static str) -> Result<Pieces<'a>, Stop>
    ensures bytes { IfOk result (λ bytes. file.entry ≡ Some bytes) }
    ensures unread { (rest : Option (List ℕ)) → IfErr result (IsDevice (unless_read file.entry fault.now rest)) }
{
    match file {
        Some(bytes) => Ok(bytes),
        None => Err(Stop::Device(fault)),
    }
}

pub(crate) fn derivation_of<'a>(files: &Files<'a>) -> Result<Pieces<'a>, Stop>
    ensures bytes { IfOk result (λ bytes. files.now.derivation ≡ Some bytes) }
    ensures unread { (rest : Option (List ℕ)) → IfErr result (IsDevice (derivation_line files.now rest)) }
{
    needed_pieces(files.derivation, "device derivation\n")
}

pub(crate) fn proofs_of<'a>(files: &Files<'a>) -> Result<Pieces<'a>, Stop>
    ensures bytes { IfOk result (λ bytes. files.now.proofs ≡ Some bytes) }
    ensures unread { (rest : Option (List ℕ)) → IfErr result (IsDevice (proofs_line files.now rest)) }
{
    needed_pieces(files.proofs, "device proofs\n")
}

/// A text and the pieces of a derivation.
pub(crate) fn two_files<'a>(files: &Files<'a>) -> Result<(&'a [u8], Pieces<'a>), Stop>
    ensures text { IfOk result (λ r. files.now.text ≡ Some r.0) }
    ensures derivation { IfOk result (λ r. files.now.derivation ≡ Some r.1) }
    ensures unread { (rest : Option (List ℕ)) → IfErr result (IsDevice (text_line files.now (derivation_line files.now rest))) }
{
    let text = match text_of(files) {
        Ok(text) => text,
        Err(stop) => return Err(stop),
    };
    match derivation_of(files) {
        Ok(derivation) => Ok((text, derivation)),
        Err(stop) => Err(stop),
    }
}

/// A text, the pieces of a derivation, and those of proofs.
pub(crate) fn three_files<'a>(files: &Files<'a>) -> Result<(&'a [u8], Pieces<'a>, Pieces<'a>), Stop>
    ensures text { IfOk result (λ r. files.now.text ≡ Some r.0) }
    ensures derivation { IfOk result (λ r. files.now.derivation ≡ Some r.1) }
    ensures proofs { IfOk result (λ r. files.now.proofs ≡ Some r.2) }
    ensures unread { (rest : Option (List ℕ)) → IfErr result (IsDevice (text_line files.now (derivation_line files.now (proofs_line files.now rest)))) }
{
    let (text, derivation) = match two_files(files) {
        Ok(two) => two,
        Err(stop) => return Err(stop),
    };
    match proofs_of(files) {
        Ok(proofs) => Ok((text, derivation, proofs)),
        Err(stop) => Err(stop),
    }
}

/// The bytes of pieces, one after another.
pub(crate) fn joined(alloc: Global, pieces: &[&[u8]]) -> Result<Vec<u8>, Refusal>
    ensures joined { IfOk result (λ all. all.items ≡ concat (bytes_of pieces.now)) }
    ensures refused { IfErr result (λ e. e ≡ no_memory) }
{
    let mut all = Vec::new(alloc);
    for piece in pieces {
        all.extend_from_slice(piece)?;
    }
    Ok(all)
}

/// The bytes of a file that need not be named: none where it isn't, and else those that can be read.
fn read_where_named<'a>(
    name: Option<&str>,
    file: Option<&'a [u8]>,
    fault: &'static str,
) -> Result<Option<&'a [u8]>, Stop>
    ensures read { IfOk result (IsRead name.entry file.entry) }
    ensures passed { (rest : Option (List ℕ)) → OnOk result (where_named name.entry file.entry fault.now rest ≡ rest) }
    ensures unread { (rest : Option (List ℕ)) → IfErr result (IsDevice (where_named name.entry file.entry fault.now rest)) }
{
    match name {
        Some(_) => match needed(file, fault) {
            Ok(bytes) => Ok(Some(bytes)),
            Err(stop) => Err(stop),
        },
        None => Ok(None),
    }
}

/// The bytes of a start and of moves, each where it is named.
///
/// # Errors
///
/// `Stop::Device` for the first of them that is named and has no bytes.
pub(crate) fn inputs<'a>(
    start: Option<&str>,
    moves: Option<&str>,
    files: &Files<'a>,
) -> Result<(Option<&'a [u8]>, Option<&'a [u8]>), Stop>
    ensures start { IfOk result (λ r. IsRead start.entry files.now.start r.0) }
    ensures moves { IfOk result (λ r. IsRead moves.entry files.now.moves r.1) }
    ensures unread { IfErr result (IsDevice (input_lines start.entry moves.entry files.now)) }
{
    let first = match read_where_named(start, files.start, "device start\n") {
        Ok(first) => first,
        Err(stop) => return Err(stop),
    };
    match read_where_named(moves, files.moves, "device moves\n") {
        Ok(moving) => Ok((first, moving)),
        Err(stop) => Err(stop),
    }
}
