//! A program of two parts, with seventeen conditions, six of which need a section.

pub(crate) const TEXT: &[u8] =
    b"words x:1 y:1\npre true\nrely ((x' = x) and (y' = y))\nguar true\npost ((x = 1) and (y = 1))\npart a\npre true rely (x' = x) guar (y' = y) post (x = 1)\nbegin x := 1 end\npart b\npre true rely (y' = y) guar (x' = x) post (y = 1)\nbegin y := 1 end\n";

/// A line for each part.
pub(crate) const DERIVATION: &[u8] =
    b"line 1 basic 1 pre true rely (x' = x) guar (y' = y) post (x = 1)\nline 2 basic 2 pre true rely (y' = y) guar (x' = x) post (y = 1)\n";

/// The sections of the conditions 4, 8, 11, 12, 13 and 14.
pub(crate) const PROOFS: &[u8] =
    b"section 4\n17 0 16 13 14 10 11 8 6 0\nsection 8\n17 0 16 13 14 10 11 8 6 0\nsection 11\n29 0 28 25 26 23 0\nsection 12\n29 0 28 25 26 23 0\nsection 13\n29 0 28 25 26 22 0\nsection 14\n29 0 28 25 26 22 0\n";

/// These sections without the section of condition 8, and with a line in that of condition 13 that doesn't follow.
pub(crate) const TWO_FAULTS: &[u8] =
    b"section 4\n17 0 16 13 14 10 11 8 6 0\nsection 11\n29 0 28 25 26 23 0\nsection 12\n29 0 28 25 26 23 0\nsection 13\n29 0 28 0\nsection 14\n29 0 28 25 26 22 0\n";

/// These sections, but for a line in the section of condition 13 that doesn't follow.
pub(crate) const LATE_FAULT: &[u8] =
    b"section 4\n17 0 16 13 14 10 11 8 6 0\nsection 8\n17 0 16 13 14 10 11 8 6 0\nsection 11\n29 0 28 25 26 23 0\nsection 12\n29 0 28 25 26 23 0\nsection 13\n29 0 28 0\nsection 14\n29 0 28 25 26 22 0\n";
