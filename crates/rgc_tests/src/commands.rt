//! Commands with their files, and what they print.

use crate::program::{DERIVATION, PROOFS, TEXT};
use rgc_commands::Given;
use rgc_line::{Chosen, Command};

/// The bytes of the files of a command over texts.
#[derive(Clone, Copy)]
pub(crate) struct Texts {
    pub(crate) text: Option<&'static [u8]>,
    pub(crate) derivation: Option<&'static [&'static [u8]]>,
    pub(crate) proofs: Option<&'static [&'static [u8]]>,
    pub(crate) start: Option<&'static [u8]>,
    pub(crate) moves: Option<&'static [u8]>,
}

impl Texts {
    /// The files that the command takes.
    pub(crate) fn files(self) -> Given<'static> {
        Given {
            text: self.text,
            derivation: self.derivation,
            proofs: self.proofs,
            start: self.start,
            moves: self.moves,
            outline: None,
        }
    }
}

/// A command over files, and what it prints.
#[derive(Clone, Copy)]
pub(crate) struct Printed {
    pub(crate) command: Command<'static>,
    pub(crate) files: Texts,
    pub(crate) text: &'static str,
}

const PROGRAM: Texts = Texts {
    text: Some(TEXT),
    derivation: Some(&[DERIVATION]),
    proofs: Some(&[PROOFS]),
    start: None,
    moves: None,
};

const FORMULA: Texts = Texts {
    text: Some(b"words x:1 y:1 show (((x = 1) and (y = 1)) implies (x = 1))"),
    derivation: None,
    proofs: Some(&[b"8 0 7 5 1 4 0"]),
    start: None,
    moves: None,
};

/// A part that waits for a move.
const WAITING: Texts = Texts {
    text: Some(
        b"words x:2 turn:1\npre true rely true guar true post true\npart p pre true rely true guar true post true\nbegin await (turn = 1) do x := 2; turn := 0 end end\n",
    ),
    derivation: Some(&[b"line 1 atomic 1 pre true rely true guar true post true\n"]),
    proofs: Some(&[b""]),
    start: None,
    moves: Some(b"at 0 turn = 1"),
};

/// Two parts, of which the first waits for the second.
const IN_TURN: Texts = Texts {
    text: Some(
        b"words x:1 y:1\npre true rely true guar true post true\npart a pre true rely true guar true post true\nbegin await (y = 1) do x := 1 end end\npart b pre true rely true guar true post true\nbegin await (x = 1) do y := 1 end end\n",
    ),
    derivation: Some(&[
        b"line 1 atomic 1 pre true rely true guar true post true\nline 2 atomic 2 pre true rely true guar true post true\n",
    ]),
    proofs: Some(&[b""]),
    start: Some(b"x = 1"),
    moves: None,
};

/// A command of each kind whose whole output is known, but for those that search.
pub(crate) const COMMANDS: &[Printed] = &[
    Printed {
        command: Command::Number { text: "text" },
        files: PROGRAM,
        text: "1 a 8 assign\n2 b 11 assign\n",
    },
    Printed {
        command: Command::Check {
            text: "text",
            derivation: "derivation",
            proofs: "proofs",
        },
        files: PROGRAM,
        text: "accepted\n",
    },
    Printed {
        command: Command::Conditions {
            text: "text",
            derivation: "derivation",
            has_formulas: false,
        },
        files: PROGRAM,
        text: "pre true\n1 line 1 reach\n2 line 1 step\n3 line 1 pre stable\n4 line 1 post stable\n5 line 2 reach\n6 line 2 step\n7 line 2 pre stable\n8 line 2 post stable\n9 all pre a\n10 all pre b\n11 all rely a\n12 all rely b\n13 all guar b rely a\n14 all guar a rely b\n15 all guar a\n16 all guar b\n17 all post\n",
    },
    Printed {
        command: Command::Emit {
            text: "text",
            derivation: "derivation",
            proofs: "proofs",
        },
        files: PROGRAM,
        text: "{\"parts\":[{\"blocks\":[[\"do\",8,1,[[0,[\"num 1\"]]]],[\"end\"]],\"name\":\"a\"},{\"blocks\":[[\"do\",11,1,[[1,[\"num 1\"]]]],[\"end\"]],\"name\":\"b\"}],\"words\":[[\"x\",1],[\"y\",1]]}\n",
    },
    Printed {
        command: Command::Run {
            text: "text",
            derivation: "derivation",
            proofs: "proofs",
            start: None,
            moves: Some("moves"),
            limit: 10,
            draw: None,
        },
        files: WAITING,
        text: "1 env 0 turn=0>1 in p\n2 p 4 x=0>2 turn=1>0 in p\nended\n",
    },
    Printed {
        command: Command::Run {
            text: "text",
            derivation: "derivation",
            proofs: "proofs",
            start: Some("start"),
            moves: None,
            limit: 10,
            draw: Some("draw"),
        },
        files: IN_TURN,
        text: "1 b 6 y=0>1 in a b\n2 a 4 same in a b\nended\n",
    },
    Printed {
        command: Command::Clauses {
            text: "text",
            chosen: Some(Chosen {
                derivation: "derivation",
                condition: 4,
            }),
        },
        files: PROGRAM,
        text: "p cnf 9 16\n-5 -1 0\n-5 3 0\n5 1 -3 0\n-6 1 0\n-6 -3 0\n6 -1 3 0\n-7 -5 0\n-7 -6 0\n7 5 6 0\n-8 1 0\n-8 7 0\n8 -1 -7 0\n-9 -3 0\n-9 8 0\n9 3 -8 0\n9 0\n",
    },
    Printed {
        command: Command::Valid {
            text: "text",
            proofs: "proofs",
        },
        files: FORMULA,
        text: "holds\n",
    },
    Printed {
        command: Command::Clauses {
            text: "text",
            chosen: None,
        },
        files: FORMULA,
        text: "p cnf 4 7\n-3 1 0\n-3 2 0\n3 -1 -2 0\n-4 -1 0\n-4 3 0\n4 1 -3 0\n4 0\n",
    },
];
