//! Faults of runs, and what the machine refuses.

use crate::entries::Entry;

const START_OUTSIDE_PRE: Entry = Entry {
    name: "StartOutsidePre",
    when: "the start isn't in the pre",
    meaning: "Runs begin in states in which the program's pre holds. Words that the start doesn't name are\n\
0.",
    remedy: "Give a start file with values that the pre allows.",
    example: "\n\
An example: `rgc run text derivation proofs --start start` with\n\
\n\
text\n\
\x20   words x:2 fixed n:2\n\
\x20   pre (x = n) rely (x' = x) guar true post (x = (n + 1))\n\
\x20   part a\n\
\x20     pre (x = n) rely (x' = x) guar true post (x = (n + 1))\n\
\x20   begin\n\
\x20     x := (x + 1)\n\
\x20   end\n\
\n\
derivation\n\
\x20   line 1 basic 1 pre (x = n) rely (x' = x) guar true post (x = (n + 1))\n\
\n\
start\n\
\x20   x = 1\n\
\n\
proofs: what `rgc prove text derivation` prints\n",
};

const OUTSIDE_RELY: Entry = Entry {
    name: "OutsideRely",
    when: "a move isn't inside the rely",
    meaning: "The environment may make the steps alone that the program's rely allows. The move was passed\n\
over, and the run went on.",
    remedy: "Change the move, or the program's rely; then the proofs have to be made again.",
    example: "\n\
An example: `rgc run text derivation proofs --moves moves` with\n\
\n\
text\n\
\x20   words x:2 fixed n:2\n\
\x20   pre (x = n) rely (x' = x) guar true post (x = (n + 1))\n\
\x20   part a\n\
\x20     pre (x = n) rely (x' = x) guar true post (x = (n + 1))\n\
\x20   begin\n\
\x20     x := (x + 1)\n\
\x20   end\n\
\n\
derivation\n\
\x20   line 1 basic 1 pre (x = n) rely (x' = x) guar true post (x = (n + 1))\n\
\n\
moves\n\
\x20   at 0 x = 3\n\
\n\
proofs: what `rgc prove text derivation` prints\n",
};

const WRITE: Entry = Entry {
    name: "Write",
    when: "the writer failed",
    meaning: "The output couldn't be written in full: the disk is full, or what reads it has ended.",
    remedy: "Mend that, and run the command again. What went out is a beginning of the\n\
output.",
    example: "",
};

const MISMATCH: Entry = Entry {
    name: "Mismatch",
    when: "the printed records aren't the history",
    meaning: "What the threads of a run printed isn't its history, or moves weren't made where they were due.\n\
No proof rules this out, but only a fault of `rgc` itself leads to it, and no test has met it.",
    remedy: "Please report it with the files.",
    example: "",
};

const STRANGER: Entry = Entry {
    name: "Stranger",
    when: "a record whose number was already taken",
    meaning: "Two records of a run had one number. No proof rules this out, but only a fault of `rgc` itself\n\
leads to it, and no test has met it.",
    remedy: "Please report it with the files.",
    example: "",
};

const MOVES_ENDED: Entry = Entry {
    name: "MovesEnded",
    when: "a move after the last one",
    meaning: "The library's caller made a move after it had said that no more come. The command `run`\n\
doesn't.",
    remedy: "Make all moves before the call that ends them.",
    example: "",
};

const FIXED_MOVED: Entry = Entry {
    name: "FixedMoved",
    when: "a move that changes a fixed word",
    meaning: "A fixed word keeps its first value for the whole run, also in the steps of the environment.\n\
The move was passed over, and the run went on.",
    remedy: "Take the word out of the move, or `fixed` out of its declaration.",
    example: "\n\
An example: `rgc run text derivation proofs --moves moves` with\n\
\n\
text\n\
\x20   words x:2 fixed n:2\n\
\x20   pre (x = n) rely (x' = x) guar true post (x = (n + 1))\n\
\x20   part a\n\
\x20     pre (x = n) rely (x' = x) guar true post (x = (n + 1))\n\
\x20   begin\n\
\x20     x := (x + 1)\n\
\x20   end\n\
\n\
derivation\n\
\x20   line 1 basic 1 pre (x = n) rely (x' = x) guar true post (x = (n + 1))\n\
\n\
moves\n\
\x20   at 0 n = 1\n\
\n\
proofs: what `rgc prove text derivation` prints\n",
};

const MEMORY: Entry = Entry {
    name: "Memory",
    when: "an allocation was refused during the call; nothing else gives it",
    meaning: "The system refused memory, or a thread.",
    remedy: "Give the program more memory, or a smaller input. It uses less than 500 MB on\n\
most inputs.",
    example: "",
};

/// The entry of a fault of a run, or of the machine, by its number; none where no refusal has it.
pub(crate) fn run_entry(number: u64) -> Option<Entry> {
    match number {
        61 => Some(START_OUTSIDE_PRE),
        62 => Some(OUTSIDE_RELY),
        63 => Some(WRITE),
        64 => Some(MISMATCH),
        _ => run_entry_further(number),
    }
}

/// Those of further numbers.
fn run_entry_further(number: u64) -> Option<Entry> {
    match number {
        65 => Some(STRANGER),
        66 => Some(MOVES_ENDED),
        67 => Some(FIXED_MOVED),
        99 => Some(MEMORY),
        _ => None,
    }
}
