//! The answers of the commands about code: it is printed, or run.

ghost use Rattle.std.specs.Prelude.{◌≡◌, ℕ, Bool, List, Option, string_bytes, IfOk, IfErr};
ghost use Rattle.std.specs.Borrow.{Bor};
ghost use Rattle.rgc_line.specs.declared.command.Command.TheVariants.{Emit, EmitOutline, Accesses, AccessesOutline, Run as the_run, RunOutline};
ghost use Rattle.rgc_outlines.specs.Proved.{IsProvedOf};
ghost use Rattle.rg_apart.specs.Laws.{PartsAreApart};
ghost use Rattle.rgc_commands.specs.Answers.{AsInFiles, AsInOutline, auxiliary_of, HasCode, IsAnswer, IsLeftOfFiles, IsLeftOfOutline};
ghost use Rattle.rgc_commands.specs.Code.{coded_program, coded_blocks, is_in_c, shown};
ghost use Rattle.rgc_commands.specs.Inner.Stops.{IsFilesStop, IsOutlineStop, IsProofStop};
ghost use Rattle.rgc_commands.specs.Of.{OfOutline, OfThree};
ghost use Rattle.rgc_commands.specs.Priority.{priority_for, said};
ghost use Rattle.rgc_commands.specs.Stops.{IsStop, LacksCodeOfOutline};
ghost use Rattle.rgc_commands.specs.declared.files.Files.{Files as AllFiles};

use crate::answers::{Answer, is_plain};
use crate::code::{Coded, Form, Origins, Ready, code_form, code_text, left_with};
use crate::files::{Files, inputs, three_files};
use crate::operations::operations_for;
use crate::outlines::{MOST_STEPS, expanded_of, outlined_of, prove};
use crate::priority::priority_for;
use crate::stops::Stop;
use rg_apart::search::Search;
use rg_code::checked::Checked;
use rg_outline_reports::Outlined;
use rg_watch::{Unwatched, Watcher};
use rgc::{InThreads, build_in_pieces};
use rgc_answers::{Context, Run};
use rgc_line::Settings;
use rgc_outlines::{Proved, lines_of, naming_of};
use std::alloc::Global;
use std::sync::Wait;
use std::thread::Threads;

/// The most decisions of each search that looks for words at which parts are apart.
const MOST_STEPS_FOR_WORDS: u64 = 10_000;

/// Flags of the auxiliary words of an outline; none where they stay.
fn auxiliary_of<'a>(keeps_aux: bool, outlined: &'a Outlined<'_>) -> &'a [bool]
    ensures { result.now ≡ auxiliary_of keeps_aux outlined.now.files }
{
    if keeps_aux {
        return &[];
    }
    &outlined.files.auxiliary
}

/// What is left of the code of files, without the words that the settings name; what is lost is noted.
fn left_of_files<R: Threads + Wait + Sync, P>(
    context: &Context<'_, R, P>,
    settings: &Settings<'_>,
    files: &Files<'_>,
    notes: &mut Vec<u8>,
) -> Result<Coded, Stop>
    ensures left { IfOk result (λ c. OfThree files.now (λ text derivation proofs.
        IsLeftOfFiles settings.now.erase text derivation proofs (coded_program c) (coded_blocks c))) }
    ensures stopped { (in_c : Bool) → IfErr result (IsFilesStop settings.now in_c files.now) }
{
    let (text, derivation, proofs) = three_files(files)?;
    let checker = InThreads {
        rt: context.rt,
        threads: context.threads,
    };
    let emitted = build_in_pieces(&checker, context.alloc, text, derivation, proofs)?;
    let search: Option<Search<'_, Unwatched>> = None;
    let (code, _) = left_with(emitted, settings.erase, &[], search, &[], notes)?;
    Ok(code)
}

/// How it is looked for words at which parts are apart: only where C is asked for.
fn search_for<'a, P>(form: Form<'_>, watcher: &'a P) -> Option<Search<'a, P>> {
    match form {
        Form::Listing => None,
        Form::C(_) | Form::Accesses => Some(Search {
            steps: MOST_STEPS_FOR_WORDS,
            watcher,
        }),
    }
}

/// What is left of the code of an outline, without the words that the settings name, and without auxiliary ones unless they stay, with flags of the words at which
/// its parts are found to be apart, and the lines that are printed for those of its text; what is lost is noted.
fn left_of_outline<R: Threads + Wait + Sync, P: Watcher + Copy>(
    context: &Context<'_, R, P>,
    settings: &Settings<'_>,
    form: Form<'_>,
    outlined: &Outlined<'_>,
    proved: Proved,
    notes: &mut Vec<u8>,
) -> Result<(Coded, Vec<bool>, Vec<u64>), Stop>
    requires { IsProvedOf outlined.now.files proved }
    ensures left { IfOk result (λ r. IsLeftOfOutline settings.now.erase settings.now.keeps_aux outlined.now.files (coded_program r.0) (coded_blocks r.0)) }
    ensures apart { IfOk result (λ r. PartsAreApart (coded_program r.0) r.1.items) }
    ensures stopped { (steps : ℕ) →
        (in_c : Bool) →
        IfErr result
        (IsProofStop outlined.now.files steps (λ lines. LacksCodeOfOutline settings.now in_c lines outlined.now.files)) }
{
    let emitted = proved.code(context)?;
    let in_header = matches!(form, Form::C(_));
    let lines = lines_of(context.alloc, outlined, emitted.program(), in_header)?;
    let auxiliary = auxiliary_of(settings.keeps_aux, outlined);
    let search = search_for(form, context.watcher);
    let (code, apart) = left_with(emitted, settings.erase, auxiliary, search, &lines, notes)?;
    Ok((code, apart, lines))
}

/// The text of the code of an outline that is proved, in a form.
pub(crate) fn proved_text<R: Threads + Wait + Sync, P: Watcher + Copy>(
    context: &Context<'_, R, P>,
    settings: &Settings<'_>,
    form: Form<'_>,
    outlined: &Outlined<'_>,
    proved: Proved,
    notes: &mut Vec<u8>,
) -> Result<String, Stop>
    requires { IsProvedOf outlined.now.files proved }
    ensures text { IfOk result (λ text.
        HasCode (IsLeftOfOutline settings.now.erase settings.now.keeps_aux outlined.now.files) AsInOutline
        (priority_for settings.now.priority outlined.now.files) (shown form.entry) (string_bytes text)) }
    ensures stopped { (steps : ℕ) →
        IfErr result (IsProofStop outlined.now.files steps (λ lines.
        LacksCodeOfOutline settings.now (is_in_c (shown form.entry)) lines outlined.now.files)) }
{
    let (code, apart, lines) = left_of_outline(context, settings, form, outlined, proved, notes)?;
    let operations = operations_for(context.alloc, form, outlined, &code)?;
    let priority = priority_for(settings, outlined);
    let origins = Origins {
        lines: &lines,
        operations: &operations,
    };
    code_text(context.alloc, &code, priority, &apart, origins, form)
}

/// The text of the code of files, in a form.
fn files_text<R: Threads + Wait + Sync, P>(
    context: &Context<'_, R, P>,
    settings: &Settings<'_>,
    form: Form<'_>,
    files: &Files<'_>,
    notes: &mut Vec<u8>,
) -> Result<String, Stop>
    ensures text { IfOk result (λ text. OfThree files.now (λ t d p.
        HasCode (IsLeftOfFiles settings.now.erase t d p) AsInFiles (said settings.now.priority) (shown form.entry)
        (string_bytes text))) }
    ensures stopped { IfErr result (IsFilesStop settings.now (is_in_c (shown form.entry)) files.now) }
{
    let code = left_of_files(context, settings, files, notes)?;
    let origins = Origins {
        lines: &[],
        operations: &[],
    };
    code_text(context.alloc, &code, settings.priority, &[], origins, form)
}

/// The text of the code of an outline, in a form.
fn outline_text<R: Threads + Wait + Sync, P: Watcher + Copy + Sync>(
    context: &Context<'_, R, P>,
    settings: &Settings<'_>,
    form: Form<'_>,
    files: &Files<'_>,
    notes: &mut Vec<u8>,
) -> Result<String, Stop>
    ensures text { IfOk result (λ text.
        OfOutline files.now (λ o. HasCode (IsLeftOfOutline settings.now.erase settings.now.keeps_aux o) AsInOutline
        (priority_for settings.now.priority o) (shown form.entry) (string_bytes text))) }
    ensures stopped { IfErr result (IsOutlineStop files.now (LacksCodeOfOutline settings.now (is_in_c (shown form.entry)))) }
{
    let outlined = outlined_of(context.alloc, files)?;
    let proved = prove(context, outlined, MOST_STEPS, None)?;
    proved_text(context, settings, form, outlined, proved, notes)
}

/// The code of files as the settings ask for it.
pub(crate) fn emit<'a, R: Threads + Wait + Sync, P>(
    context: &Context<'_, R, P>,
    settings: &Settings<'a>,
    files: &Files<'a>,
    notes: &mut Vec<u8>,
) -> Result<Answer<'a>, Stop>
    ensures answer { (t d p : Bor (List ℕ)) → IfOk result (IsAnswer settings.now (Emit t d p) files.now) }
    ensures stopped { (t d p : Bor (List ℕ)) → IfErr result (IsStop settings.now (Emit t d p) files.now) }
{
    let form = code_form(context.alloc, settings)?;
    let text = files_text(context, settings, form, files, notes)?;
    Ok(Answer::Code(text))
}

/// The code of an outline as the settings ask for it.
pub(crate) fn emit_outline<'a, R: Threads + Wait + Sync, P: Watcher + Copy + Sync>(
    context: &Context<'_, R, P>,
    settings: &Settings<'a>,
    files: &Files<'a>,
    notes: &mut Vec<u8>,
) -> Result<Answer<'a>, Stop>
    ensures answer { (o : Bor (List ℕ)) → IfOk result (IsAnswer settings.now (EmitOutline o) files.now) }
    ensures stopped { (o : Bor (List ℕ)) → IfErr result (IsStop settings.now (EmitOutline o) files.now) }
{
    let form = code_form(context.alloc, settings)?;
    let text = outline_text(context, settings, form, files, notes)?;
    Ok(Answer::Code(text))
}

/// How the steps of the code of files are done in C.
pub(crate) fn accesses<'a, R: Threads + Wait + Sync, P>(
    context: &Context<'_, R, P>,
    settings: &Settings<'a>,
    files: &Files<'a>,
    notes: &mut Vec<u8>,
) -> Result<Answer<'a>, Stop>
    ensures answer { (t d p : Bor (List ℕ)) → IfOk result (IsAnswer settings.now (Accesses t d p) files.now) }
    ensures stopped { (t d p : Bor (List ℕ)) → IfErr result (IsStop settings.now (Accesses t d p) files.now) }
{
    let text = files_text(context, settings, Form::Accesses, files, notes)?;
    Ok(Answer::Code(text))
}

/// How the steps of the code of an outline are done in C.
pub(crate) fn accesses_outline<'a, R: Threads + Wait + Sync, P: Watcher + Copy + Sync>(
    context: &Context<'_, R, P>,
    settings: &Settings<'a>,
    files: &Files<'a>,
    notes: &mut Vec<u8>,
) -> Result<Answer<'a>, Stop>
    ensures answer { (o : Bor (List ℕ)) → IfOk result (IsAnswer settings.now (AccessesOutline o) files.now) }
    ensures stopped { (o : Bor (List ℕ)) → IfErr result (IsStop settings.now (AccessesOutline o) files.now) }
{
    let text = outline_text(context, settings, Form::Accesses, files, notes)?;
    Ok(Answer::Code(text))
}

/// How a command asks for a run: the names of a start and of moves, the most steps of all parts, and whether it is drawn.
#[derive(Clone, Copy)]
pub(crate) struct Asked<'a> {
    start: Option<&'a str>,
    moves: Option<&'a str>,
    limit: u64,
    draw: Option<&'a str>,
}

impl<'b> Asked<'b> {
    pub(crate) fn new(
        start: Option<&'b str>,
        moves: Option<&'b str>,
        limit: u64,
        draw: Option<&'b str>,
    ) -> Asked<'b>
        ensures { result ≡ record { start = start.entry; moves = moves.entry; limit = limit; draw = draw.entry } }
    {
        Asked {
            start,
            moves,
            limit,
            draw,
        }
    }

    /// How code is run, with the bytes of a start and of moves.
    fn run<'a>(
        self,
        start: Option<&'a [u8]>,
        moves: Option<&'a [u8]>,
        seed: Option<&'a str>,
    ) -> Run<'a>
        ensures { result ≡ record { start = start.entry; moves = moves.entry; limit = self.entry.limit; seed = seed.entry } }
    {
        Run {
            start,
            moves,
            limit: self.limit,
            seed,
        }
    }
}

/// Refuses a picture of a run that is printed as JSON.
fn drawn_as_lines(settings: &Settings<'_>, draw: Option<&str>) -> Result<(), Stop>
    ensures { (t d p : Bor (List ℕ)) →
        (start moves : Option (Bor (List ℕ))) →
        (limit : ℕ) →
        (files : AllFiles) →
        IfErr result (IsStop settings.now (the_run t d p start moves limit draw.entry) files) }
{
    match draw {
        Some(_) if !is_plain(settings.format) => Err(Stop::Usage(
            "error: --draw and --format json don't go together\n",
        )),
        _ => Ok(()),
    }
}

/// The code of files, ready to run.
pub(crate) fn run<'a, R: Threads + Wait + Sync, P>(
    context: &Context<'_, R, P>,
    settings: &Settings<'a>,
    asked: Asked<'a>,
    files: &Files<'a>,
) -> Result<Answer<'a>, Stop>
    ensures answer { (t d p : Bor (List ℕ)) →
        IfOk result (IsAnswer settings.now (the_run t d p asked.entry.start asked.entry.moves asked.entry.limit asked.entry.draw)
        files.now) }
    ensures stopped { (t d p : Bor (List ℕ)) →
        IfErr result (IsStop settings.now (the_run t d p asked.entry.start asked.entry.moves asked.entry.limit asked.entry.draw)
        files.now) }
{
    drawn_as_lines(settings, asked.draw)?;
    three_files(files)?;
    let (start, moves) = inputs(asked.start, asked.moves, files)?;
    let mut unsaid = Vec::new(context.alloc);
    let code = left_of_files(context, settings, files, &mut unsaid)?;
    Ok(Answer::Run(Ready {
        code,
        run: asked.run(start, moves, settings.seed),
        is_drawn: asked.draw.is_some(),
        naming: None,
    }))
}

/// The code of an outline, ready to run: its auxiliary words stay.
pub(crate) fn run_outline<'a, R: Threads + Wait + Sync, P: Watcher + Copy + Sync>(
    context: &Context<'_, R, P>,
    settings: &Settings<'a>,
    asked: Asked<'a>,
    files: &Files<'a>,
) -> Result<Answer<'a>, Stop>
    ensures answer { (o : Bor (List ℕ)) →
        IfOk result (IsAnswer settings.now (RunOutline o asked.entry.start asked.entry.moves asked.entry.limit asked.entry.draw)
        files.now) }
    ensures stopped { (o : Bor (List ℕ)) →
        IfErr result (IsStop settings.now (RunOutline o asked.entry.start asked.entry.moves asked.entry.limit asked.entry.draw)
        files.now) }
{
    expanded_of(files)?;
    let (start, moves) = inputs(asked.start, asked.moves, files)?;
    let outlined = outlined_of(context.alloc, files)?;
    let proved = prove(context, outlined, MOST_STEPS, None)?;
    let emitted = proved.code(context)?;
    let naming = naming_of(context.alloc, outlined, emitted.program())?;
    Ok(Answer::Run(Ready {
        code: Coded::Whole(emitted),
        run: asked.run(start, moves, settings.seed),
        is_drawn: asked.draw.is_some(),
        naming: Some(naming),
    }))
}
