//! What the program is asked to do, and the settings of a command, from the matches of its subcommand.

ghost use Rattle.std.specs.Prelude.{◌≡◌, IfOk, IfErr};
ghost use Rattle.clap.specs.Words.{found_of, rows_of};
ghost use Rattle.rgc_line.specs.App.{AsksForC, AsksForSmt, HasFormat, HasSettings, IsUnknownFormat, number_settings};
ghost use Rattle.rgc_line.specs.Inner.Table.{AreSound};
ghost use Rattle.rgc_line.specs.Named.{named};
ghost use Rattle.rgc_line.specs.declared.fields.FieldFault.TheVariants.{UnknownFormat};

use crate::commands::{
    COMPLETED, ERASE, EXPLAINED, FORMAT, KEEP_AUX, OUTPUT, PREFIX, PRIORITY, RELIES, SECONDS, SEED,
    SHOWN_ACCESSES, THREADS, TRACED, WARNINGS,
};
use crate::fields::{FieldFault, is_given, number_or_none, option};
use clap::ArgMatches;

/// The condition of a program that a command is about.
#[derive(Clone, Copy)]
pub struct Chosen<'a> {
    /// The derivation's file, by its path as given.
    pub derivation: &'a str,
    /// The condition's number, from 1.
    pub condition: u64,
}

/// One of the outlines that a command is about.
#[derive(Clone, Copy)]
pub struct Outlines<'a> {
    /// Its file, by its path as given.
    pub outline: &'a str,
    /// Its place among them, from 0.
    pub place: usize,
    /// How many they are.
    pub count: usize,
}

/// How the output is written.
#[derive(Clone, Copy, PartialEq, Eq)]
pub enum Format {
    /// Lines to be read.
    Plain,
    /// One JSON value a line.
    Json,
}

/// What can be asked of several commands.
#[derive(Clone, Copy)]
pub struct Settings<'a> {
    /// A file for the output, by its path as given; it is written and not read.
    pub output: Option<&'a str>,
    /// How the output is written.
    pub format: Format,
    /// Whether a refusal is explained at the line that it is about.
    pub is_explained: bool,
    /// The most threads; one for each processor where it isn't given.
    pub threads: Option<u64>,
    /// After how many seconds searches are given up.
    pub seconds: Option<u64>,
    /// Which warnings are given, by the word for it.
    pub warnings: Option<&'a str>,
    /// The word by which one part of a run after another is let go.
    pub seed: Option<&'a str>,
    /// The names of words that are erased, with commas between them.
    pub erase: Option<&'a str>,
    /// Whether the auxiliary words of an outline stay.
    pub keeps_aux: bool,
    /// Whether code is written as C.
    pub is_c: bool,
    /// Whether a formula is written as SMT-LIB.
    pub is_smt: bool,
    /// The name with which all begins that the C declares.
    pub prefix: Option<&'a str>,
    /// Whether steps are marked in the C.
    pub is_traced: bool,
    /// Which parts run on one core, and which interrupt which: `isr > main`, with commas between cores.
    pub priority: Option<&'a str>,
    /// Whether a verdict is followed by how each step is done in C.
    pub has_accesses: bool,
    /// Whether assertions that an outline lacks are searched for first.
    pub is_completed: bool,
    /// Whether conjuncts of the relies of parts are searched for, too.
    pub finds_relies: bool,
}

/// The settings where nothing is asked for.
pub const PLAIN: Settings<'static> = Settings {
    output: None,
    format: Format::Plain,
    is_explained: false,
    threads: None,
    seconds: None,
    warnings: None,
    seed: None,
    erase: None,
    keeps_aux: false,
    is_c: false,
    is_smt: false,
    prefix: None,
    is_traced: false,
    priority: None,
    has_accesses: false,
    is_completed: false,
    finds_relies: false,
};

/// The format; without a word for it, lines to be read.
fn format_of(matches: &ArgMatches<'_>) -> Result<Format, FieldFault>
    ensures format { IfOk result (HasFormat (rows_of (found_of matches.now))) }
    ensures fault { IfErr result (λ f. (f ≡ UnknownFormat) × IsUnknownFormat (rows_of (found_of matches.now))) }
{
    let Some(word) = option(matches, FORMAT.id) else {
        return Ok(Format::Plain);
    };
    if word == "plain" || word == "c" || word == "smt2" {
        return Ok(Format::Plain);
    }
    if word == "json" {
        return Ok(Format::Json);
    }
    Err(FieldFault::UnknownFormat)
}

/// Whether code is asked for as C.
fn is_c(matches: &ArgMatches<'_>) -> bool
    ensures { AsksForC (rows_of (found_of matches.now)) result }
{
    match option(matches, FORMAT.id) {
        Some(word) => word == "c",
        None => false,
    }
}

/// Whether a formula is asked for as SMT-LIB.
fn is_smt(matches: &ArgMatches<'_>) -> bool
    ensures { AsksForSmt (rows_of (found_of matches.now)) result }
{
    match option(matches, FORMAT.id) {
        Some(word) => word == "smt2",
        None => false,
    }
}

/// The settings of a subcommand; one that it has no option for is not given.
pub fn settings_of<'a>(matches: &ArgMatches<'a>) -> Result<Settings<'a>, FieldFault>
    requires { AreSound (rows_of (found_of matches.now)) number_settings }
    ensures settings { IfOk result (HasSettings (rows_of (found_of matches.now))) }
    ensures fault { IfErr result (λ f. (f ≡ UnknownFormat) × IsUnknownFormat (rows_of (found_of matches.now))) }
{
    Ok(Settings {
        output: option(matches, OUTPUT.id),
        format: format_of(matches)?,
        is_explained: is_given(matches, EXPLAINED.id),
        threads: number_or_none(matches, THREADS.id),
        seconds: number_or_none(matches, SECONDS.id),
        warnings: option(matches, WARNINGS.id),
        seed: option(matches, SEED.id),
        erase: option(matches, ERASE.id),
        keeps_aux: is_given(matches, KEEP_AUX.id),
        is_c: is_c(matches),
        is_smt: is_smt(matches),
        prefix: option(matches, PREFIX.id),
        is_traced: is_given(matches, TRACED.id),
        priority: option(matches, PRIORITY.id),
        has_accesses: is_given(matches, SHOWN_ACCESSES.id),
        is_completed: is_given(matches, COMPLETED.id),
        finds_relies: is_given(matches, RELIES.id),
    })
}

/// A command with its files, each by its path as given.
#[derive(Clone, Copy)]
pub enum Command<'a> {
    /// The statements of a program with their numbers.
    Number {
        text: &'a str,
    },
    /// Whether the written rules accept a derivation and proofs for a program.
    Check {
        text: &'a str,
        derivation: &'a str,
        proofs: &'a str,
    },
    /// The names of the conditions of a program's derivation, and the conditions as formulas where that is asked.
    Conditions {
        text: &'a str,
        derivation: &'a str,
        has_formulas: bool,
    },
    /// A proofs file for all conditions of a program's derivation, or for a range of them as it is given, with at most so many decisions
    /// for each.
    Prove {
        text: &'a str,
        derivation: &'a str,
        steps: u64,
        conditions: Option<&'a str>,
    },
    /// The listing of the code of an accepted program.
    Emit {
        text: &'a str,
        derivation: &'a str,
        proofs: &'a str,
    },
    /// The code of an outline's program, which is verified first.
    EmitOutline {
        outline: &'a str,
    },
    /// How the steps of an accepted program are done in C.
    Accesses {
        text: &'a str,
        derivation: &'a str,
        proofs: &'a str,
    },
    /// How the steps of an outline's program are done in C, which is verified first.
    AccessesOutline {
        outline: &'a str,
    },
    /// A run of an accepted program, from the start file or else from words that are all 0, with the environment's moves, where a file has
    /// them, and with at most so many steps; it is drawn to a file where one is named, which is written and not read.
    Run {
        text: &'a str,
        derivation: &'a str,
        proofs: &'a str,
        start: Option<&'a str>,
        moves: Option<&'a str>,
        limit: u64,
        draw: Option<&'a str>,
    },
    /// A run of an outline, which is verified first.
    RunOutline {
        outline: &'a str,
        start: Option<&'a str>,
        moves: Option<&'a str>,
        limit: u64,
        draw: Option<&'a str>,
    },
    /// Whether the hint lines prove the `show` formula of a text.
    Valid {
        text: &'a str,
        proofs: &'a str,
    },
    /// The clauses of the `show` formula of a text, or of a condition of a program.
    Clauses {
        text: &'a str,
        chosen: Option<Chosen<'a>>,
    },
    /// Hint lines for the `show` formula of a text or for a condition of a program, or states at which it fails, with at most so many
    /// decisions.
    Find {
        text: &'a str,
        steps: u64,
        chosen: Option<Chosen<'a>>,
    },
    /// The text that an outline stands for, its derivation, proofs of all its conditions, and its map: each goes to a file where one is named,
    /// which is written and not read, and the text to the output where none is named for it.
    Outline {
        outline: &'a str,
        steps: Option<u64>,
        text: Option<&'a str>,
        derivation: Option<&'a str>,
        proofs: Option<&'a str>,
        map: Option<&'a str>,
    },
    /// Whether what an outline stands for is proved, with at most so many decisions for each condition; or the runs of its program alone, with
    /// at most so many steps. The program's text goes to a file where one is named, which is written and not read.
    Verify {
        outlines: Outlines<'a>,
        steps: Option<u64>,
        is_runs_only: bool,
        text: Option<&'a str>,
    },
    /// An outline with the assertions that it lacks, and with conjuncts of its invariant where that is asked, which is verified with at most so many
    /// decisions for each condition. It is printed, or takes the place of the file.
    Complete {
        outline: &'a str,
        steps: Option<u64>,
        finds_invariant: bool,
        is_in_place: bool,
    },
    /// The small changes of an outline's program that its specification doesn't see, and the others too where that is asked.
    Challenge {
        outline: &'a str,
        has_refused: bool,
    },
    /// What a refusal of this number means.
    Explain {
        number: u64,
    },
}

/// The files that a command reads, each by its path as given; none where it has none. An outline is read in the place of the text.
#[derive(Clone, Copy)]
pub struct Named<'a> {
    pub text: Option<&'a str>,
    pub derivation: Option<&'a str>,
    pub proofs: Option<&'a str>,
    pub start: Option<&'a str>,
    pub moves: Option<&'a str>,
}

impl<'a> Command<'a> {
    /// The text, or the outline in its place, that the command reads.
    fn text_of(&self) -> Option<&'a str>
        ensures { result ≡ (named self.now).text }
    {
        match *self {
            Command::Number { text }
            | Command::Check { text, .. }
            | Command::Conditions { text, .. }
            | Command::Prove { text, .. }
            | Command::Emit { text, .. }
            | Command::Accesses { text, .. }
            | Command::Run { text, .. }
            | Command::Valid { text, .. }
            | Command::Clauses { text, .. }
            | Command::Find { text, .. } => Some(text),
            Command::Outline { outline, .. }
            | Command::EmitOutline { outline }
            | Command::AccessesOutline { outline }
            | Command::RunOutline { outline, .. }
            | Command::Complete { outline, .. }
            | Command::Challenge { outline, .. } => Some(outline),
            Command::Verify { outlines, .. } => Some(outlines.outline),
            Command::Explain { .. } => None,
        }
    }

    /// The derivation and the proofs that the command reads.
    fn certificate_of(&self) -> (Option<&'a str>, Option<&'a str>)
        ensures { result ≡ ((named self.now).derivation, (named self.now).proofs) }
    {
        match *self {
            Command::Check {
                derivation,
                proofs,
                ..
            }
            | Command::Emit {
                derivation,
                proofs,
                ..
            }
            | Command::Accesses {
                derivation,
                proofs,
                ..
            }
            | Command::Run {
                derivation,
                proofs,
                ..
            } => (Some(derivation), Some(proofs)),
            Command::Conditions { derivation, .. } | Command::Prove { derivation, .. } => {
                (Some(derivation), None)
            }
            Command::Valid { proofs, .. } => (None, Some(proofs)),
            Command::Clauses { chosen, .. } | Command::Find { chosen, .. } => {
                (chosen.map(|chosen| chosen.derivation), None)
            }
            _ => (None, None),
        }
    }

    /// The values at the start and the environment's moves that the command reads.
    fn inputs_of(&self) -> (Option<&'a str>, Option<&'a str>)
        ensures { result ≡ ((named self.now).start, (named self.now).moves) }
    {
        match *self {
            Command::Run { start, moves, .. } | Command::RunOutline { start, moves, .. } => {
                (start, moves)
            }
            _ => (None, None),
        }
    }

    /// The files that the command reads.
    pub fn named(&self) -> Named<'a>
        ensures { result ≡ named self.now }
    {
        let (derivation, proofs) = self.certificate_of();
        let (start, moves) = self.inputs_of();
        Named {
            text: self.text_of(),
            derivation,
            proofs,
            start,
            moves,
        }
    }
}
