//! What a command writes beside its output.

ghost use Rattle.std.specs.Prelude.{◌≡◌, []};

use std::alloc::Global;

/// What a command writes beside its output, to files that it names.
#[derive(Drop)]
pub struct Sides {
    /// The picture of a run.
    pub picture: Vec<u8>,
    /// The text that an outline stands for.
    pub text: Vec<u8>,
    /// Its derivation, which may be longer than a file may be.
    pub derivation: Vec<u8>,
    /// The places of the derivation at which a further piece of it begins.
    pub cuts: Vec<usize>,
    /// The pieces of the proofs that were found of it, or by `prove`.
    pub proofs: Vec<String>,
    /// Which place of the outline each line of its derivation and each condition comes from.
    pub map: Vec<u8>,
}

impl Sides {
    /// Nothing so far.
    pub fn new(alloc: Global) -> Sides
        ensures picture { result.picture.items ≡ [] }
        ensures text { result.text.items ≡ [] }
        ensures derivation { result.derivation.items ≡ [] }
        ensures cuts { result.cuts.items ≡ [] }
        ensures proofs { result.proofs.items ≡ [] }
        ensures map { result.map.items ≡ [] }
    {
        Sides {
            picture: Vec::new(alloc),
            text: Vec::new(alloc),
            derivation: Vec::new(alloc),
            cuts: Vec::new(alloc),
            proofs: Vec::new(alloc),
            map: Vec::new(alloc),
        }
    }
}
