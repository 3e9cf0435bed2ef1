//! Faults of proofs files.

use crate::entries::Entry;

const UNREADABLE: Entry = Entry {
    name: "Unreadable",
    when: "a proofs line of no known form, or a hint line before the first head",
    meaning: "A line of a proofs file is `section K`, or a hint line: an id, literals, 0, hints, 0.",
    remedy: "Make the file again with `rgc prove`, or compare the line with FORMATS.md.",
    example: "\n\
An example: `rgc valid text proofs` with\n\
\n\
text\n\
\x20   words x:1 y:1\n\
\x20   show (((x = 1) and (y = 1)) implies (x = 1))\n\
\n\
proofs\n\
\x20   8 0 7 5 1 4\n",
};

const NO_SECTION: Entry = Entry {
    name: "NoSection",
    when: "a condition has no section in the proofs file, and its clauses hold no empty clause",
    meaning: "Each condition needs a section with the hint lines that prove it, but for those whose\n\
clauses hold the empty clause already.",
    remedy: "Make the file again with `rgc prove`. If the program or the derivation has\n\
changed, the numbers of the conditions may have, too.",
    example: "\n\
An example: `rgc check text derivation proofs` with\n\
\n\
text\n\
\x20   words x:1 y:1\n\
\x20   pre true\n\
\x20   rely ((x' = x) and (y' = y))\n\
\x20   guar true\n\
\x20   post ((x = 1) and (y = 1))\n\
\x20   part a\n\
\x20     pre true rely (x' = x) guar (y' = y) post (x = 1)\n\
\x20   begin\n\
\x20     x := 1\n\
\x20   end\n\
\x20   part b\n\
\x20     pre true rely (y' = y) guar (x' = x) post (y = 1)\n\
\x20   begin\n\
\x20     y := 1\n\
\x20   end\n\
\n\
derivation\n\
\x20   line 1 basic 1 pre true rely (x' = x) guar (y' = y) post (x = 1)\n\
\x20   line 2 basic 2 pre true rely (y' = y) guar (x' = x) post (y = 1)\n\
\n\
proofs: an empty file\n",
};

const ID_ORDER: Entry = Entry {
    name: "IdOrder",
    when: "an id not above the given clauses and all earlier ids of its section; a section head not above the one before",
    meaning: "The given clauses have the ids 1 to m. The ids of the lines rise from there, and so do the\n\
numbers of the sections.",
    remedy: "Make the file again with `rgc prove`.",
    example: "\n\
An example: `rgc valid text proofs` with\n\
\n\
text\n\
\x20   words x:1 y:1\n\
\x20   show (((x = 1) and (y = 1)) implies (x = 1))\n\
\n\
proofs\n\
\x20   7 0 7 5 1 4 0\n",
};

const HINT_NOT_EARLIER: Entry = Entry {
    name: "HintNotEarlier",
    when: "a hint that names neither a given clause nor an earlier line of the section",
    meaning: "A hint is the id of a clause that is known where the line stands.",
    remedy: "Make the file again with `rgc prove`. If another solver made it, its clauses\n\
must be those that `rgc clauses` prints.",
    example: "\n\
An example: `rgc valid text proofs` with\n\
\n\
text\n\
\x20   words x:1 y:1\n\
\x20   show (((x = 1) and (y = 1)) implies (x = 1))\n\
\n\
proofs\n\
\x20   8 0 9 0\n",
};

const HINT_NOT_UNIT: Entry = Entry {
    name: "HintNotUnit",
    when: "a hint clause with two or more literals that aren't false",
    meaning: "The hints of a line are taken in order. Each must have at most one literal that isn't false\n\
yet; that one is then true.",
    remedy: "Make the file again with `rgc prove`. If another solver made it, its hints must\n\
stand in the order of propagation, as in the LRAT format.",
    example: "\n\
An example: `rgc valid text proofs` with\n\
\n\
text\n\
\x20   words x:1 y:1\n\
\x20   show (((x = 1) and (y = 1)) implies (x = 1))\n\
\n\
proofs\n\
\x20   8 0 7 1 5 4 0\n",
};

const NO_CONFLICT: Entry = Entry {
    name: "NoConflict",
    when: "the hints ran out",
    meaning: "After all hints of the line no clause is false, so the line wasn't seen to follow.",
    remedy: "Make the file again with `rgc prove`.",
    example: "\n\
An example: `rgc valid text proofs` with\n\
\n\
text\n\
\x20   words x:1 y:1\n\
\x20   show (((x = 1) and (y = 1)) implies (x = 1))\n\
\n\
proofs\n\
\x20   8 0 7 0\n",
};

const NO_EMPTY_CLAUSE: Entry = Entry {
    name: "NoEmptyClause",
    when: "all lines follow, and neither one of them nor a given clause is empty",
    meaning: "Each line is right, and the proof doesn't end: its last line would be the empty clause.",
    remedy: "Make the file again with `rgc prove`. The file may have been cut off.",
    example: "\n\
An example: `rgc valid text proofs` with\n\
\n\
text\n\
\x20   words x:1 y:1\n\
\x20   show (((x = 1) and (y = 1)) implies (x = 1))\n\
\n\
proofs\n\
\x20   8 4 0 7 0\n",
};

const UNKNOWN_CONDITION: Entry = Entry {
    name: "UnknownCondition",
    when: "a number that names no condition, of a section's head or of `--condition`",
    meaning: "Conditions have the numbers that `rgc conditions` prints, from 1.",
    remedy: "See with `rgc conditions` how many there are.",
    example: "\n\
An example: `rgc clauses text --derivation derivation --condition 99` with\n\
\n\
text\n\
\x20   words x:1\n\
\x20   pre true rely true guar true post true\n\
\x20   part a\n\
\x20     pre true rely true guar true post true\n\
\x20   begin\n\
\x20     skip\n\
\x20   end\n\
\n\
derivation\n\
\x20   line 1 basic 1 pre true rely true guar true post true\n",
};

/// The entry of a fault of a proofs file, by its number; none where no refusal has it.
pub(crate) fn proof_entry(number: u64) -> Option<Entry> {
    match number {
        41 => Some(UNREADABLE),
        42 => Some(NO_SECTION),
        43 => Some(ID_ORDER),
        44 => Some(HINT_NOT_EARLIER),
        _ => proof_entry_further(number),
    }
}

/// Those of further numbers.
fn proof_entry_further(number: u64) -> Option<Entry> {
    match number {
        45 => Some(HINT_NOT_UNIT),
        46 => Some(NO_CONFLICT),
        47 => Some(NO_EMPTY_CLAUSE),
        48 => Some(UNKNOWN_CONDITION),
        _ => None,
    }
}
