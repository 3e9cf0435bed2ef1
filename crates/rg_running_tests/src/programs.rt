//! Programs with their derivations and proofs.

use rg_words::Refusal;
use rgc::{Emitted, build};
use std::alloc::Global;

/// Two parts, each of which sets a word of its own; no other step changes a word.
pub(crate) const EACH_SETS_A_WORD: &str =
    "words x:1 y:1\npre true\nrely ((x' = x) and (y' = y))\nguar true\npost ((x = 1) and (y = 1))\npart a\npre true rely (x' = x) guar (y' = y) post (x = 1)\nbegin x := 1 end\npart b\npre true rely (y' = y) guar (x' = x) post (y = 1)\nbegin y := 1 end\n";

/// These with their derivation and proofs.
pub(crate) const TWO_PARTS: [&str; 3] = [
    EACH_SETS_A_WORD,
    "line 1 basic 1 pre true rely (x' = x) guar (y' = y) post (x = 1)\nline 2 basic 2 pre true rely (y' = y) guar (x' = x) post (y = 1)\n",
    "section 4\n17 0 16 13 14 10 11 8 6 0\nsection 8\n17 0 16 13 14 10 11 8 6 0\nsection 11\n29 0 28 25 26 23 0\nsection 12\n29 0 28 25 26 23 0\nsection 13\n29 0 28 25 26 22 0\nsection 14\n29 0 28 25 26 22 0\n",
];

/// A part that never ends and changes nothing.
pub(crate) const ENDLESS: [&str; 3] = [
    "words x:1\npre true rely true guar true post true\npart p pre true rely true guar true post true\nbegin while true do skip end end\n",
    "line 1 basic 2 pre (true and true) rely true guar true post true\nline 2 loop 1 from 1 pre true rely true guar true post true\n",
    "",
];

/// A program with its code.
pub(crate) fn built(alloc: Global, files: [&str; 3]) -> Result<Emitted, Refusal> {
    let [text, derivation, proofs] = files;
    build(
        alloc,
        text.as_bytes(),
        derivation.as_bytes(),
        proofs.as_bytes(),
    )
}
