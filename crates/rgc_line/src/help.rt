//! What `--help` says of the commands, their files and their options. Nothing is promised of it, and no proof reads it.

use crate::commands::Kind;

/// What is said of a command.
pub struct Help {
    /// What it does, in one line of at most 86 characters.
    pub about: &'static str,
    /// What it reads and prints, when its status is 1, and examples: calls, each with a line of what it prints, or in parentheses with what it does.
    pub more: &'static str,
    /// What is said of its files and options, by their ids, in lines of at most 73 characters; those of `SHARED` may be left out.
    fields: &'static [(&'static str, &'static str)],
}

impl Help {
    /// What is said of the file or the option with this id.
    pub fn of(&self, id: &str) -> &'static str {
        match text_at(self.fields, id) {
            Some(text) => text,
            None => text_at(&SHARED, id).unwrap_or(""),
        }
    }
}

/// The text at the id, where there is one.
fn text_at(texts: &[(&'static str, &'static str)], id: &str) -> Option<&'static str> {
    for (known, text) in texts {
        if *known == id {
            return Some(*text);
        }
    }
    None
}

/// What `rgc` is.
pub fn about() -> &'static str {
    "A verifying compiler for programs of parallel parts that share words"
}

/// What can be done with it, by tasks.
pub fn overview() -> &'static str {
    OVERVIEW
}

/// What is said of the command of this kind.
pub fn help_of(kind: Kind) -> &'static Help {
    match kind {
        Kind::Number => &NUMBER,
        Kind::Check => &CHECK,
        Kind::Conditions => &CONDITIONS,
        Kind::Prove => &PROVE,
        Kind::Emit => &EMIT,
        Kind::Accesses => &ACCESSES,
        Kind::Run => &RUN,
        Kind::Valid => &VALID,
        Kind::Clauses => &CLAUSES,
        Kind::Find => &FIND,
        Kind::Outline => &OUTLINE,
        Kind::Verify => &VERIFY,
        Kind::Complete => &COMPLETE,
        Kind::Challenge => &CHALLENGE,
        Kind::Explain => &EXPLAIN,
    }
}

const OVERVIEW: &str = "Tasks:
  Verify an outline, the one file that you write: a program, and what you say of it
      rgc verify lock.rgo                prove it, or see where it isn't so, and in which states
      rgc verify lock.rgo --runs-only    look for a run that breaks it, without assertions
      rgc complete lock.rgo              find the assertions that it lacks
      rgc challenge lock.rgo             list small changes that its specification doesn't notice
  See a run
      rgc run --outline lock.rgo         each step, and whose guarantee it is inside
  C for a device
      rgc emit --outline lock.rgo --format c --name lock --output lock.h
      rgc accesses --outline lock.rgo    how each step is done in C
  Text, derivation and proofs, for which an outline stands
      rgc outline lock.rgo --text lock.rg --derivation lock.rgd --proofs lock.lrat
      rgc check lock.rg lock.rgd lock.lrat
      (prove finds proofs; number and conditions print what derivations and proofs speak of)
      (emit, accesses and run take these three files too)
  Single formulas
      rgc find sum.rg --output sum.lrat  find a proof, or values at which the formula is false
      rgc valid sum.rg sum.lrat          check the proof
      rgc clauses sum.rg                 print clauses for another solver
  What a refusal means
      rgc explain 45

Statuses: 0 done; 1 refused, not verified, or no proof found; 2 the command line is wrong; 3 a
file can't be read or written, or memory is refused. A file named `-` is standard input.
`rgc help NAME` and `rgc NAME --help` say more about a command.";

/// What is said of a file or an option wherever its command says nothing else.
static SHARED: [(&str, &str); 19] = [
    (
        "TEXT",
        "the program: its words, its specification and its parts",
    ),
    (
        "DERIVATION",
        "by which rule each statement meets the formulas of its part",
    ),
    (
        "PROOFS",
        "proofs of the conditions, in sections of hint lines; in one file or more",
    ),
    (
        "OUTLINE",
        "a program, its specification, and assertions between its statements",
    ),
    (
        "outline",
        "an outline in the place of the three files; it is verified first",
    ),
    (
        "derivation",
        "a further file of the derivation, after DERIVATION; may be repeated",
    ),
    (
        "condition",
        "the number of one of its conditions, from 1; goes with --derivation",
    ),
    (
        "steps",
        "the most decisions on inputs, and the most conflicts, of each search;\n\
         at most 1000000000",
    ),
    (
        "threads",
        "the most threads, at most 256; without it one for each processor, and\n\
         one for small files. What is printed is the same for any number",
    ),
    (
        "seconds",
        "the most seconds of all searches: what has no answer then is given up",
    ),
    (
        "output",
        "write the output to the file, whole or not at all",
    ),
    (
        "format",
        "plain: lines, as without the option; json: one JSON value a line",
    ),
    (
        "explain",
        "show the line of the file below a refusal, and what could stand there",
    ),
    (
        "erase",
        "leave out the words A,B,.. (their names in the text); nothing that\n\
         stays may need them",
    ),
    (
        "keep-aux",
        "leave in the words that the outline marks aux; goes with --outline",
    ),
    (
        "priority",
        "parts of one core, the one that interrupts the others first, such as\n\
         \"isr > main\"; a comma before those of another core. The others stand\n\
         still while it runs, so it needs fewer sections",
    ),
    ("text", "write the program's text to the file"),
    (
        "proofs",
        "write proofs of all conditions to the file; repeat it where one file\n\
         can't hold them (16777216 bytes)",
    ),
    ("NUMBER", "the number of the refusal"),
];

static NUMBER: Help = Help {
    about: "Prints the statements of a program with their numbers",
    more: "Reads the program alone. Prints a line for each statement: its number, by which a derivation names
it, its part, its line in the text, and its kind.

Example:
  rgc number lock.rg
      1 p_1 39 while",
    fields: &[],
};

static CHECK: Help = Help {
    about: "Says whether a derivation and proofs are accepted for a program",
    more: "Where they are accepted, every run of the program meets its specification. Otherwise the first fault
is on standard error, such as `refused 45 proofs line 12`, and the status is 1; `rgc explain 45`
says what that means.

Example:
  rgc check lock.rg lock.rgd lock.lrat
      accepted",
    fields: &[],
};

static CONDITIONS: Help = Help {
    about: "Prints the pre of a program and the conditions of its derivation",
    more: "A derivation is accepted where each of its conditions is proved. Prints a line for each: its number,
from 1, and its name, which says of which line of the derivation it is, and what it asks.

Examples:
  rgc conditions lock.rg lock.rgd
      1 line 1 reach
  rgc conditions lock.rg lock.rgd --formulas
      (prints below each name the condition, as `rgc find` reads it)",
    fields: &[(
        "formulas",
        "print below each name the condition as a text `words .. show ..`",
    )],
};

static PROVE: Help = Help {
    about: "Looks for proofs of all conditions of a derivation",
    more: "Prints proofs, which it has checked: a section of hint lines for each condition that needs one.
Where a condition has no proof, it prints instead which one, and the states at which it fails, or
that the search gave up; the status is 1.

Examples:
  rgc prove lock.rg lock.rgd --output lock.lrat
      (writes lock.lrat, which `rgc check lock.rg lock.rgd lock.lrat` accepts)
  rgc prove lock.rg lock.rgd --conditions 1-3
      section 1",
    fields: &[
        (
            "conditions",
            "prove the conditions from A to B alone, given as A-B, from 1",
        ),
        (
            "output",
            "write the proofs to the file, whole or not at all; repeat it where one\n\
             file can't hold them (16777216 bytes)",
        ),
    ],
};

static EMIT: Help = Help {
    about: "Prints the code of an accepted program, as a listing or as C",
    more: "Reads the three files, which are checked first, or an outline, which is verified first and whose
auxiliary words are left out. Prints a listing of blocks, each of them one step, as JSON; with
--format c a header of C11: a struct of the words, and a function for each part. The status is 1
where the program isn't accepted, a word can't be left out, or no C does a step at once. What the
specification says of words that are left out is reported on standard error.

Examples:
  rgc emit --outline lock.rgo --format c --name lock --output lock.h
      (writes lock.h, with lock_run_p_1 for the part p_1)
  rgc emit lock.rg lock.rgd lock.lrat --output lock.json
      (writes the listing)",
    fields: &[
        (
            "format",
            "json: the listing, as without the option; c: a header of C11",
        ),
        (
            "name",
            "with --format c: the prefix of the header's names; without it program",
        ),
        (
            "trace",
            "with --format c: RGC_AT(part, block), which the board defines, before\n\
             each step",
        ),
    ],
};

static ACCESSES: Help = Help {
    about: "Says how each step of an accepted program is done in C",
    more: "Reads what emit reads. Prints each word, its kind and who reads and writes it; then each step by
its line in the text, with --outline in the outline: it is a load, a store, a compare-and-exchange,
or a critical section, or it meets no other part; and last how many there are of each.

Example:
  rgc accesses --outline lock.rgo
      lock: 1 bit, atomic, read by p_1, p_2; written by p_1, p_2",
    fields: &[],
};

static RUN: Help = Help {
    about: "Runs the parts of an accepted program side by side, and prints each step",
    more: "Reads the three files, which are checked first, or an outline, which is verified first. Each part is
a thread of its own. A line has the number of a step, its part (env for a move), its line, the words
that it changes, and after `in` the parts whose guarantee it is inside:
  4 p_1 25 lock=0>1 owner=0>1 in p_1
The last line is `ended` where all parts have ended, `limit`, or `stuck` where none can go on.
--outline can't be combined with --erase, --derivation and --format json.

Examples:
  rgc run --outline lock.rgo
      ended
  rgc run lock.rg lock.rgd lock.lrat --seed a --draw run.svg
      (writes run.svg, a picture of the run)",
    fields: &[
        (
            "start",
            "the values of the words at the start, as `x = 1 y = 2`; others are 0",
        ),
        (
            "moves",
            "the steps of the environment, as `at 3 x = 1`: after 3 steps",
        ),
        ("limit", "the most steps of the parts, at most 1000000"),
        (
            "draw",
            "write a picture of the run to the file, as SVG; without --format json",
        ),
        (
            "seed",
            "let one part after another go first, by an order that follows from the\n\
             word; without it the threads race. Two runs may differ either way",
        ),
    ],
};

static VALID: Help = Help {
    about: "Says whether hint lines prove a formula",
    more: "Where they do, the formula holds for all values of its words. Otherwise the first fault is on
standard error, such as `refused 45 proofs line 12`, and the status is 1. Any solver may have
made the lines.

Example:
  rgc valid sum.rg sum.lrat
      holds",
    fields: &[
        ("TEXT", "the formula: a text `words .. show ..`"),
        ("PROOFS", "hint lines, as in the LRAT format"),
    ],
};

// What is said of the files of the two commands over a formula or a condition.
const FORMULA: (&str, &str) = (
    "TEXT",
    "a formula, `words .. show ..`; with the two options a program",
);

const OF_PROGRAM: (&str, &str) = (
    "derivation",
    "the derivation of the program; may be repeated; goes with --condition",
);

static CLAUSES: Help = Help {
    about: "Prints a formula or a condition as clauses, in the DIMACS cnf format, or as SMT-LIB",
    more: "They can be satisfied exactly where the formula is false for some values, so another solver can look
for a proof. --format smt2 prints the formula itself, over bit vectors (QF_BV): solvers say unsat
where it is true.

Examples:
  rgc clauses sum.rg
      p cnf 263 694
  rgc clauses lock.rg --derivation lock.rgd --condition 3 --output 3.cnf
      (writes the clauses of condition 3)
  rgc clauses sum.rg --format smt2
      (set-logic QF_BV)",
    fields: &[
        FORMULA,
        OF_PROGRAM,
        (
            "format",
            "plain: clauses, as without the option; smt2: the formula, in SMT-LIB 2",
        ),
    ],
};

static FIND: Help = Help {
    about: "Looks for a proof of a formula or of a condition, or for values at which it is false",
    more: "Prints hint lines, which it has checked. Else it prints `fails` and the values, or `gave up`; the
status is 1.

Examples:
  rgc find sum.rg --output sum.lrat
      (writes sum.lrat, with which `rgc valid sum.rg sum.lrat` holds)
  rgc find false.rg
      fails
  rgc find lock.rg --derivation lock.rgd --condition 3 --output 3.lrat
      (writes hint lines for condition 3)",
    fields: &[FORMULA, OF_PROGRAM],
};

static OUTLINE: Help = Help {
    about: "Prints the program that an outline stands for, and writes its derivation and proofs",
    more: "--text, --derivation, --proofs and --map write a file each; without --text the text is printed.
Proofs are looked for only with --proofs; where a condition has none, that is reported as verify
does it, no file is written, and the status is 1.

Examples:
  rgc outline lock.rgo
      words lock:1 owner:2 count:8 got_1:1 got_2:1 t_1:8 t_2:8 n_1:8 n_2:8
  rgc outline lock.rgo --text lock.rg --derivation lock.rgd --proofs lock.lrat
      (writes what `rgc check lock.rg lock.rgd lock.lrat` accepts)",
    fields: &[
        (
            "derivation",
            "write the derivation to the file; repeat it where one file can't hold\n\
             it (1048576 bytes)",
        ),
        (
            "steps",
            "the most decisions and the most conflicts of each search, 1000000 where\n\
             it isn't given",
        ),
        (
            "map",
            "write to the file which place of the outline each line of the\n\
             derivation and each condition comes from",
        ),
    ],
};

static VERIFY: Help = Help {
    about: "Proves that an outline's program meets its specification, or says where it doesn't",
    more: "Checks every interleaving. Where something isn't so, it prints the place, what is false, and the
values of the words; then a run that breaks the specification, where it finds one. Warnings of what
may not be meant go to standard error. The status is 1 where an outline isn't verified, or with
--runs-only where a run breaks its specification.

Examples:
  rgc verify lock.rgo
      verified: 77 conditions, 73 by search
  rgc verify broken.rgo
      not verified: 69 conditions hold, 8 do not
  rgc verify broken.rgo --runs-only
      this run breaks it:",
    fields: &[
        (
            "steps",
            "the most decisions and the most conflicts of each search, 1000000 where\n\
             it isn't given; and the most steps of the runs that are followed,\n\
             12000000, and with --runs-only 25000000",
        ),
        (
            "runs-only",
            "look for a run that breaks the specification, and for no proof: the\n\
             outline needs no assertions",
        ),
        (
            "text",
            "write the text that is verified to the file; with one outline",
        ),
        (
            "warnings",
            "error: the status is 1 where a warning is given; off: none is given",
        ),
        (
            "accesses",
            "print below the verdict what `rgc accesses` prints; without --runs-only,\n\
             --text and --format json",
        ),
        (
            "complete",
            "search first for assertions and loop invariants that are missing",
        ),
    ],
};

static COMPLETE: Help = Help {
    about: "Finds assertions and loop invariants that an outline lacks, and prints it with them",
    more: "What is written stays as it stands. What is found is verified as any outline is, and the verdict is
printed on standard error, or on standard output where the file is rewritten. Where nothing is found
that makes all conditions hold, the place is reported, and the status is 1.

Example:
  rgc complete lock.rgo
      verified: 77 conditions, 73 by search
      0 assertions were found
      (it lacks none, so it is printed as it stands)",
    fields: &[
        (
            "steps",
            "the most decisions and the most conflicts of each search of the\n\
             verification, 1000000 where it isn't given",
        ),
        (
            "invariant",
            "search for conjuncts of the invariant, too: they say what the program\n\
             keeps, so read what is found",
        ),
        (
            "relies",
            "search for conjuncts of the relies of parts, too: they say what the\n\
             others keep, so read what is found",
        ),
        (
            "in-place",
            "rewrite the file, in place of printing the outline",
        ),
        (
            "warnings",
            "error: the status is 1 where a warning is given; off: none is given",
        ),
    ],
};

static CHALLENGE: Help = Help {
    about: "Changes a verified outline in small ways, and says which its specification doesn't see",
    more: "Verifies the outline first. Then its statements, tests and numbers are changed, one at a time. A
change that is proved all the same shows what the specification says nothing of; one that breaks it
has a run outside of it; of the others, which are undecided, nothing is known. The status is 1 where
the outline isn't verified.

Example:
  rgc challenge lock.rgo
      proved all the same, touching words of the program's rely, guar or post:",
    fields: &[(
        "refused",
        "report the other changes too, each with why it isn't proved",
    )],
};

static EXPLAIN: Help = Help {
    about: "Says what a refusal means and what to do, with an example that meets it",
    more: "The status is 2 where no refusal has this number.

Example:
  rgc explain 45
      refused 45 HintNotUnit: a hint clause with two or more literals that aren't false",
    fields: &[],
};
