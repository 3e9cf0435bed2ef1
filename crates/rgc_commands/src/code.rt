//! The code that a command is about: of files that are accepted or of an outline that is verified, without the words that are erased.

ghost use Rattle.std.specs.Prelude.{◌≡◌, Bool, true, List, [], map, string_bytes, IfOk, IfErr};
ghost use Rattle.std.specs.List.{list_any};
ghost use Rattle.rg_tree.specs.ProgramTrees.{program as program_tree};
ghost use Rattle.rg_accept.specs.Stages.{emitted_program, emitted_blocks};
ghost use Rattle.rg_apart.specs.Laws.{IsLeftOf, PartsAreApart};
ghost use Rattle.rg_c.specs.View.{operation};
ghost use Rattle.rgc_commands.specs.Flagged.{flags_for};
ghost use Rattle.rgc_commands.specs.Code.{AreAmong, coded_program, coded_blocks, is_in_c, IsCodeForm, IsPlan, IsPlanned, IsPrinted, IsPrintedAs, shown, title_of};
ghost use Rattle.rgc_commands.specs.Left.{IsLeftBy, NamesStranger, CantBeErased, HaveToStay, IsUnplanned, LacksPlan};
ghost use Rattle.rgc_commands.specs.Inner.Stops.{IsFaultStop, IsFormStop};
ghost use Rattle.rgc_commands.specs.Priority.{said};

use crate::names::{flags_for, stranger};
use crate::priority::order_for;
use crate::sentences::{fault_line, push_lost, unknown_line, unplanned_line};
use crate::stops::Stop;
use crate::titles::is_title;
use rg_accept::Emitted;
use rg_apart::laws::parts_stand_where_they_stood;
use rg_apart::search::{Search, find_apart};
use rg_c::header::{Options, header};
use rg_c::operations::Operation;
use rg_c_plan::kind::Kind;
use rg_c_plan::order::Rank;
use rg_c_plan::plan::plan;
use rg_c_plan::planned::Unplanned;
use rg_c_report::report::report;
use rg_code::checked::Checked;
use rg_erase::{Erased, erase};
use rg_tree::program::Program;
use rg_tree::typing::typed_trees_fit;
use rg_watch::Watcher;
use rg_words::Layout;
use rgc_answers::{Run, listing_text};
use rgc_line::Settings;
use rgc_outlines::Naming;
use std::alloc::{AllocError, Global};

/// Code of an accepted program, or of what is left of one where words are erased.
#[derive(Drop)]
pub enum Coded {
    Whole(Emitted),
    Left(Erased),
}

/// Code that is ready to run: how it is run, whether the run is drawn, and how an outline names what its records speak of, where it is of one.
#[derive(Drop)]
pub struct Ready<'a> {
    pub code: Coded,
    pub run: Run<'a>,
    pub is_drawn: bool,
    pub naming: Option<Naming>,
}

/// What is printed of code.
#[derive(Clone, Copy)]
pub enum Form<'a> {
    /// Its listing.
    Listing,
    /// A header of C11.
    C(Options<'a>),
    /// How each of its steps is done in C.
    Accesses,
}

/// The name under which a header of C is printed.
fn title_of<'a>(prefix: Option<&'a str>) -> &'a str
    ensures { result.now ≡ title_of prefix.entry }
{
    match prefix {
        Some(name) => name,
        None => "program",
    }
}

/// What the settings ask to print of code: a header of C, or its listing.
pub(crate) fn code_form<'a>(alloc: Global, settings: &Settings<'a>) -> Result<Form<'a>, Stop>
    ensures form { IfOk result (λ form. IsCodeForm settings.now (shown form)) }
    ensures stopped { IfErr result IsFormStop }
{
    if !settings.is_c {
        if settings.prefix.is_some() || settings.is_traced || settings.priority.is_some() {
            return Err(Stop::Usage("error: --name, --trace and --priority go with --format c\n"));
        }
        return Ok(Form::Listing);
    }
    let name = title_of(settings.prefix);
    let is_traced = settings.is_traced;
    if is_title(alloc, name)? {
        return Ok(Form::C(Options {
            name,
            is_traced,
            operations: &[],
        }));
    }
    Err(Stop::Usage(
        "error: --name takes a letter, and then letters, digits and _, a small letter among them; none that C or its headers may use, and without _run, _round and _perform, as functions are named so\n",
    ))
}

/// A flag for each word that says whether it is erased: the words that are named, with commas between the names, and those that are flagged.
fn flags_of(
    alloc: Global,
    layout: &Layout,
    names: Option<&str>,
    flagged: &[bool],
) -> Result<Vec<bool>, Stop>
    ensures flags { IfOk result (λ flags. flags.items ≡ flags_for layout.now names.entry flagged.now) }
    ensures stopped { IfErr result (IsFaultStop (NamesStranger layout.now names.entry)) }
{
    if let Some(names) = names {
        if let Some(name) = stranger(layout, names) {
            return Err(Stop::Fault(unknown_line(alloc, name)?));
        }
    }
    Ok(flags_for(alloc, layout, names, flagged)?)
}

/// Whether a word is flagged.
fn has_flag(flags: &[bool]) -> bool
    ensures { result ≡ list_any (λ b. b) flags.now }
{
    flags.iter().any(|flag| *flag)
}

/// A line for each conjunct of a program's guarantee and of its post that is lost where these words are erased, and a line where nothing is left of one.
fn lost_lines(
    alloc: Global,
    program: &Program,
    left: &Program,
    flags: &[bool],
) -> Result<Vec<u8>, AllocError> {
    // Typed trees over the words of a layout fit them.
    program.layout.facts();
    typed_trees_fit();
    let mut lines = Vec::new(alloc);
    let (spec, kept) = (&program.spec, &left.spec);
    let layout = &program.layout;
    push_lost(layout, "guar", &spec.guar, &kept.guar, flags, &mut lines)?;
    push_lost(layout, "post", &spec.post, &kept.post, flags, &mut lines)?;
    Ok(lines)
}

/// A flag for each word of what is left of an accepted program at which a search finds that its parts are apart; none where none is made.
fn apart_of<P: Watcher + Copy>(
    alloc: Global,
    emitted: &Emitted,
    left: &Program,
    erased: &[bool],
    search: Option<Search<'_, P>>,
) -> Result<Vec<bool>, AllocError>
    requires { IsLeftOf erased.now (emitted_program emitted.now) (program_tree left.now) }
    ensures { IfOk result (λ apart. PartsAreApart (program_tree left.now) apart.items) }
{
    match search {
        Some(search) => find_apart(alloc, emitted, left, erased, search),
        None => Ok(Vec::new(alloc)),
    }
}

/// What is left of an accepted program without these words, all of it where none is flagged, with flags of the words at which the search finds that its parts are
/// apart; what is lost is noted. A fault names these lines for those of the text.
fn left_of<P: Watcher + Copy>(
    emitted: Emitted,
    flags: &[bool],
    search: Option<Search<'_, P>>,
    lines: &[u64],
    notes: &mut Vec<u8>,
) -> Result<(Coded, Vec<bool>), Stop>
    ensures left { IfOk result (λ r. IsLeftBy flags.now (emitted_program emitted) (emitted_blocks emitted) (coded_program r.0) (coded_blocks r.0)) }
    ensures apart { IfOk result (λ r. PartsAreApart (coded_program r.0) r.1.items) }
    ensures stopped { IfErr result (IsFaultStop (CantBeErased flags.now (emitted_program emitted) lines.now)) }
{
    // The parts of what is left stand where the program's parts stand.
    parts_stand_where_they_stood();
    let alloc = *notes.allocator();
    if !has_flag(flags) {
        let apart = apart_of(alloc, &emitted, emitted.program(), &[], search)?;
        return Ok((Coded::Whole(emitted), apart));
    }
    match erase(alloc, &emitted, flags)? {
        Ok(left) => {
            let lost = lost_lines(alloc, emitted.program(), left.program(), flags)?;
            notes.extend_from_slice(&lost)?;
            let apart = apart_of(alloc, &emitted, left.program(), flags, search)?;
            Ok((Coded::Left(left), apart))
        }
        Err(fault) => {
            let line = fault_line(alloc, &emitted.program().layout, lines, fault)?;
            Err(Stop::Fault(line.into_bytes()))
        }
    }
}

/// What is left of an accepted program without the words of these names and those that are flagged, with flags as `left_of` gives them; what is lost is noted.
/// A fault names these lines for those of the text.
pub(crate) fn left_with<P: Watcher + Copy>(
    emitted: Emitted,
    names: Option<&str>,
    flagged: &[bool],
    search: Option<Search<'_, P>>,
    lines: &[u64],
    notes: &mut Vec<u8>,
) -> Result<(Coded, Vec<bool>), Stop>
    ensures left { IfOk result (λ r.
        IsLeftBy (flags_for (emitted_program emitted).words names.entry flagged.now) (emitted_program emitted)
        (emitted_blocks emitted) (coded_program r.0) (coded_blocks r.0)) }
    ensures apart { IfOk result (λ r. PartsAreApart (coded_program r.0) r.1.items) }
    ensures stopped { IfErr result (IsFaultStop (HaveToStay names.entry flagged.now (emitted_program emitted) lines.now)) }
{
    let flags = flags_of(
        *notes.allocator(),
        &emitted.program().layout,
        names,
        flagged,
    )?;
    left_of(emitted, &flags, search, lines, notes)
}

/// A kind for each word of a program whose parts interrupt each other so, and of which no parts are apart. A fault names these lines for those of the text.
fn plain_kinds(
    alloc: Global,
    program: &Program,
    order: &[Option<Rank>],
    lines: &[u64],
) -> Result<Vec<Kind>, Stop>
    ensures kinds { IfOk result (λ kinds. IsPlan kinds.items order.now [] (program_tree program.now)) }
    ensures stopped { IfErr result (IsFaultStop (IsUnplanned order.now (program_tree program.now) lines.now)) }
{
    match plan(alloc, program, order, &[])? {
        Ok(plan) => Ok(plan.kinds),
        Err(why) => Err(Stop::Fault(unplanned_line(alloc, &program.layout, lines, why)?)),
    }
}

/// Clears the flag of a word, and answers whether it was set.
fn clear(flags: &mut [bool], word: usize) -> bool
    ensures { (those : List Bool) → AreAmong flags.old those → AreAmong flags.new those }
{
    if word >= flags.len() {
        return false;
    }
    let was = flags[word];
    flags[word] = false;
    was
}

/// Clears the flag of the word for which a step isn't done at once, and answers whether it was set.
fn clear_for(flags: &mut [bool], why: Unplanned) -> bool
    ensures { (those : List Bool) → AreAmong flags.old those → AreAmong flags.new those }
{
    match why {
        Unplanned::Step(_, word) => clear(flags, word),
        Unplanned::Wait(_) => false,
    }
}

/// A kind for each word of a program whose parts interrupt each other so, and are apart at these: the flag of a word at which a step isn't done at once is cleared, and
/// where no flag is in the way of a step, all are.
fn kinds_of(
    alloc: Global,
    program: &Program,
    order: &[Option<Rank>],
    apart: &[bool],
    lines: &[u64],
) -> Result<Vec<Kind>, Stop>
    ensures kinds { IfOk result (λ kinds. (some : List Bool) × AreAmong some apart.now × IsPlan kinds.items order.now some (program_tree program.now)) }
    ensures stopped { IfErr result (IsFaultStop (IsUnplanned order.now (program_tree program.now) lines.now)) }
{
    let mut some = Vec::from_slice(alloc, apart)?;
    for _ in 0..apart.len() {
        match plan(alloc, program, order, &some)? {
            Ok(plan) => return Ok(plan.kinds),
            Err(why) => {
                if !clear_for(&mut some, why) {
                    return plain_kinds(alloc, program, order, lines);
                }
            }
        }
    }
    plain_kinds(alloc, program, order, lines)
}

/// The rank of each part of a program, as a text says, if there is one, and a kind for each word.
fn planned(
    alloc: Global,
    program: &Program,
    priority: Option<&str>,
    apart: &[bool],
    lines: &[u64],
) -> Result<(Vec<Option<Rank>>, Vec<Kind>), Stop>
    ensures planned { IfOk result (λ r. (some : List Bool) × AreAmong some apart.now
        × IsPlanned (said priority.entry) r.0.items r.1.items some (program_tree program.now)) }
    ensures stopped { IfErr result (IsFaultStop (LacksPlan (said priority.entry) (program_tree program.now) lines.now)) }
{
    let order = order_for(alloc, program, priority)?;
    let kinds = kinds_of(alloc, program, &order, apart, lines)?;
    Ok((order, kinds))
}

/// What an outline has of the text whose code is printed, and files have nothing of: the lines that are printed for those of the text, and the uses of named
/// statements.
#[derive(Clone, Copy)]
pub(crate) struct Origins<'a> {
    pub lines: &'a [u64],
    pub operations: &'a [Operation],
}

/// The text of a checked program, whose parts interrupt each other as a text says and are apart at these words, in a form.
fn form_text<E: Checked>(
    alloc: Global,
    left: &E,
    priority: Option<&str>,
    apart: &[bool],
    origins: Origins<'_>,
    form: Form<'_>,
) -> Result<String, Stop>
    ensures printed { IfOk result (λ text. (some : List Bool) × AreAmong some apart.now
        × IsPrintedAs (shown form.entry) (said priority.entry) origins.entry.lines.now (map operation origins.entry.operations.now) some
        (program_tree (E.program_of left.now)) (E.code_of left.now) (string_bytes text)) }
    ensures stopped { IfErr result (IsFaultStop (λ report. (is_in_c (shown form.entry) ≡ true)
        × LacksPlan (said priority.entry) (program_tree (E.program_of left.now)) origins.entry.lines.now report)) }
{
    let program = left.program();
    let Origins { lines, operations } = origins;
    match form {
        Form::Listing => Ok(listing_text(alloc, left.code())?),
        Form::C(options) => {
            let (order, kinds) = planned(alloc, program, priority, apart, lines)?;
            let options = Options {
                operations,
                ..options
            };
            Ok(header(alloc, program, &order, &kinds, lines, &options)?)
        }
        Form::Accesses => {
            let (order, kinds) = planned(alloc, program, priority, apart, lines)?;
            Ok(report(alloc, program, &order, &kinds, lines)?)
        }
    }
}

/// The text of code, whose parts interrupt each other as a text says and are apart at these words, in a form.
pub(crate) fn code_text(
    alloc: Global,
    code: &Coded,
    priority: Option<&str>,
    apart: &[bool],
    origins: Origins<'_>,
    form: Form<'_>,
) -> Result<String, Stop>
    ensures printed { IfOk result (λ text. (some : List Bool) × AreAmong some apart.now
        × IsPrinted (shown form.entry) (said priority.entry) origins.entry.lines.now (map operation origins.entry.operations.now) some code.now
        (string_bytes text)) }
    ensures stopped { IfErr result (IsFaultStop (λ report. (is_in_c (shown form.entry) ≡ true)
        × LacksPlan (said priority.entry) (coded_program code.now) origins.entry.lines.now report)) }
{
    match code {
        Coded::Whole(emitted) => form_text(alloc, emitted, priority, apart, origins, form),
        Coded::Left(erased) => form_text(alloc, erased, priority, apart, origins, form),
    }
}
