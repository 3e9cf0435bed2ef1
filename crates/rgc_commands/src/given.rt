//! What a command is given: the bytes of its files.

ghost use Rattle.std.specs.Prelude.{◌≡◌};

use crate::files::{Expanded, Files, Pieces};
use rg_outline_reports::OutlineSource;

/// The bytes of the files that a command names, as they are given; none where one isn't named or can't be read.
#[derive(Clone, Copy)]
pub struct Given<'a> {
    /// The text; of a command over an outline, the bytes of its own file, which are only shown.
    pub text: Option<&'a [u8]>,
    /// The pieces of a derivation, each a file, and those of proofs; none where one of them can't be read.
    pub derivation: Option<Pieces<'a>>,
    pub proofs: Option<Pieces<'a>>,
    pub start: Option<&'a [u8]>,
    pub moves: Option<&'a [u8]>,
    /// The outline of a command, with the files that it uses.
    pub outline: Option<OutlineSource<'a>>,
}

/// What a command is given, with what its outline is taken for.
#[derive(Clone, Copy)]
pub(crate) struct Taken<'g, 'e> {
    pub(crate) given: Given<'g>,
    pub(crate) expanded: &'e Expanded<'e>,
}

impl<'g, 'e> Taken<'g, 'e> {
    pub(crate) fn new(given: Given<'g>, expanded: &'e Expanded<'e>) -> Taken<'g, 'e>
        ensures { result ≡ record { given = given.entry; expanded = expanded.entry } }
    {
        Taken { given, expanded }
    }
}

/// The files, the outline among them worked out to this.
pub(crate) fn files_with<'a>(given: Given<'a>, outline: Option<&'a Expanded<'a>>) -> Files<'a>
    ensures text { result.text ≡ given.entry.text }
    ensures derivation { result.derivation ≡ given.entry.derivation }
    ensures proofs { result.proofs ≡ given.entry.proofs }
    ensures start { result.start ≡ given.entry.start }
    ensures moves { result.moves ≡ given.entry.moves }
    ensures outline { result.outline ≡ outline.entry }
{
    Files {
        text: given.text,
        derivation: given.derivation,
        proofs: given.proofs,
        start: given.start,
        moves: given.moves,
        outline,
    }
}
