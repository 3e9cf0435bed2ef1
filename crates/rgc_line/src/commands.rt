//! The table of the commands: the name of each, its files and its options.

/// Which command it is.
#[derive(Clone, Copy)]
pub enum Kind {
    Number,
    Check,
    Conditions,
    Prove,
    Emit,
    Accesses,
    Run,
    Valid,
    Clauses,
    Find,
    Outline,
    Verify,
    Complete,
    Challenge,
    Explain,
}

/// How a field is written on a line.
#[derive(Clone, Copy)]
pub enum Form {
    /// A file that has to be named, by its place.
    File,
    /// A file by its place, which may be left out.
    Place,
    /// Files, of which at least one has to be named, by their place, the last one.
    Files,
    /// Files that may be left out, by their place, the last one.
    Places,
    /// A file that may be left out, after `--` and the field's id.
    OptionalFile,
    /// A file that may be left out or be given several times, each after `--` and the field's id.
    RepeatedFile,
    /// A text that may be left out, after `--` and the field's id; no file is named by it.
    OptionalText,
    /// A number that may be left out, after `--` and the field's id.
    OptionalNumber,
    /// A number that has to be given, by its place.
    NeededNumber,
    /// A number after `--` and the field's id, which is 1,000,000 where it isn't given.
    NumberOrMillion,
    /// What is asked for by `--` and the field's id alone.
    Flag,
}

/// A file or an option of a command.
#[derive(Clone, Copy)]
pub struct Field {
    pub form: Form,
    pub id: &'static str,
}

/// A command: its name, and its files and options.
#[derive(Clone, Copy)]
pub struct Row {
    pub kind: Kind,
    pub name: &'static str,
    pub fields: &'static [Field],
}

/// A field, from its form and its id.
macro_rules! field {
    ($form:ident $id:literal) => {
        Field {
            form: Form::$form,
            id: $id,
        }
    };
}

// Files by their places.
pub const TEXT: Field = field!(File "TEXT");

pub const DERIVATION: Field = field!(File "DERIVATION");

pub const PROOFS: Field = field!(Files "PROOFS");

pub const HINTS: Field = field!(File "PROOFS");

pub const OUTLINE: Field = field!(File "OUTLINE");

pub const OUTLINES: Field = field!(Files "OUTLINE");

// Files for which an outline may stand, and that outline.
pub const RUN_TEXT: Field = field!(Place "TEXT");

pub const RUN_DERIVATION: Field = field!(Place "DERIVATION");

pub const RUN_PROOFS: Field = field!(Places "PROOFS");

pub const RUN_OUTLINE: Field = field!(OptionalFile "outline");

// What a command is about.
pub const DERIVATION_FILES: Field = field!(RepeatedFile "derivation");

pub const CONDITION: Field = field!(OptionalNumber "condition");

pub const CONDITIONS: Field = field!(OptionalText "conditions");

pub const FORMULAS: Field = field!(Flag "formulas");

pub const STEPS: Field = field!(NumberOrMillion "steps");

pub const VERIFY_STEPS: Field = field!(OptionalNumber "steps");

pub const RUNS_ONLY: Field = field!(Flag "runs-only");

pub const INVARIANT: Field = field!(Flag "invariant");

pub const IN_PLACE: Field = field!(Flag "in-place");

pub const START: Field = field!(OptionalFile "start");

pub const MOVES: Field = field!(OptionalFile "moves");

pub const LIMIT: Field = field!(NumberOrMillion "limit");

pub const DRAW: Field = field!(OptionalFile "draw");

pub const WRITTEN_TEXT: Field = field!(OptionalFile "text");

pub const WRITTEN_PROOFS: Field = field!(RepeatedFile "proofs");

pub const MAP: Field = field!(OptionalFile "map");

pub const REFUSED: Field = field!(Flag "refused");

pub const REFUSAL: Field = field!(NeededNumber "NUMBER");

// Settings, and the files of an output in pieces.
pub const THREADS: Field = field!(OptionalNumber "threads");

pub const SECONDS: Field = field!(OptionalNumber "seconds");

pub const OUTPUT: Field = field!(OptionalFile "output");

pub const OUTPUTS: Field = field!(RepeatedFile "output");

pub const FORMAT: Field = field!(OptionalText "format");

pub const EXPLAINED: Field = field!(Flag "explain");

pub const WARNINGS: Field = field!(OptionalText "warnings");

pub const SEED: Field = field!(OptionalText "seed");

pub const ERASE: Field = field!(OptionalText "erase");

pub const KEEP_AUX: Field = field!(Flag "keep-aux");

pub const PREFIX: Field = field!(OptionalText "name");

pub const TRACED: Field = field!(Flag "trace");

pub const PRIORITY: Field = field!(OptionalText "priority");

pub const SHOWN_ACCESSES: Field = field!(Flag "accesses");

pub const COMPLETED: Field = field!(Flag "complete");

pub const RELIES: Field = field!(Flag "relies");

/// The commands, in the order in which the help lists them.
pub static COMMANDS: [Row; 15] = [
    Row {
        kind: Kind::Number,
        name: "number",
        fields: &[TEXT, FORMAT, EXPLAINED],
    },
    Row {
        kind: Kind::Check,
        name: "check",
        fields: &[
            TEXT,
            DERIVATION,
            PROOFS,
            DERIVATION_FILES,
            THREADS,
            FORMAT,
            EXPLAINED,
        ],
    },
    Row {
        kind: Kind::Conditions,
        name: "conditions",
        fields: &[
            TEXT,
            DERIVATION,
            FORMULAS,
            DERIVATION_FILES,
            FORMAT,
            EXPLAINED,
        ],
    },
    Row {
        kind: Kind::Prove,
        name: "prove",
        fields: &[
            TEXT,
            DERIVATION,
            STEPS,
            CONDITIONS,
            DERIVATION_FILES,
            THREADS,
            SECONDS,
            OUTPUTS,
            FORMAT,
            EXPLAINED,
        ],
    },
    Row {
        kind: Kind::Emit,
        name: "emit",
        fields: &[
            RUN_OUTLINE,
            RUN_TEXT,
            RUN_DERIVATION,
            RUN_PROOFS,
            DERIVATION_FILES,
            THREADS,
            OUTPUT,
            EXPLAINED,
            ERASE,
            KEEP_AUX,
            FORMAT,
            PREFIX,
            TRACED,
            PRIORITY,
        ],
    },
    Row {
        kind: Kind::Accesses,
        name: "accesses",
        fields: &[
            RUN_OUTLINE,
            RUN_TEXT,
            RUN_DERIVATION,
            RUN_PROOFS,
            DERIVATION_FILES,
            THREADS,
            OUTPUT,
            EXPLAINED,
            ERASE,
            KEEP_AUX,
            PRIORITY,
        ],
    },
    Row {
        kind: Kind::Run,
        name: "run",
        fields: &[
            START,
            MOVES,
            LIMIT,
            DRAW,
            RUN_OUTLINE,
            RUN_TEXT,
            RUN_DERIVATION,
            RUN_PROOFS,
            DERIVATION_FILES,
            THREADS,
            FORMAT,
            EXPLAINED,
            SEED,
            ERASE,
        ],
    },
    Row {
        kind: Kind::Valid,
        name: "valid",
        fields: &[TEXT, HINTS, THREADS, EXPLAINED],
    },
    Row {
        kind: Kind::Clauses,
        name: "clauses",
        fields: &[TEXT, DERIVATION_FILES, CONDITION, OUTPUT, FORMAT, EXPLAINED],
    },
    Row {
        kind: Kind::Find,
        name: "find",
        fields: &[
            TEXT,
            DERIVATION_FILES,
            CONDITION,
            STEPS,
            SECONDS,
            OUTPUT,
            EXPLAINED,
        ],
    },
    Row {
        kind: Kind::Outline,
        name: "outline",
        fields: &[
            OUTLINE,
            VERIFY_STEPS,
            WRITTEN_TEXT,
            DERIVATION_FILES,
            WRITTEN_PROOFS,
            MAP,
            THREADS,
            SECONDS,
        ],
    },
    Row {
        kind: Kind::Verify,
        name: "verify",
        fields: &[
            OUTLINES,
            VERIFY_STEPS,
            RUNS_ONLY,
            WRITTEN_TEXT,
            THREADS,
            SECONDS,
            FORMAT,
            WARNINGS,
            SHOWN_ACCESSES,
            PRIORITY,
            COMPLETED,
        ],
    },
    Row {
        kind: Kind::Complete,
        name: "complete",
        fields: &[
            OUTLINE,
            VERIFY_STEPS,
            INVARIANT,
            IN_PLACE,
            THREADS,
            SECONDS,
            FORMAT,
            WARNINGS,
            RELIES,
        ],
    },
    Row {
        kind: Kind::Challenge,
        name: "challenge",
        fields: &[OUTLINE, REFUSED, THREADS, SECONDS, FORMAT],
    },
    Row {
        kind: Kind::Explain,
        name: "explain",
        fields: &[REFUSAL],
    },
];
