//! A program as one header of C11.

ghost use Rattle.std.specs.Prelude.{◌≡◌, ◌++◌, ◌<◌, ◌^◌, codes, decimal, length, map, string_bytes, IfOk, OnOk};
ghost use Rattle.std.specs.List.{list_any, list_all, flat_map};
ghost use Rattle.rg_tree.specs.Fits.{FormulaFits};
ghost use Rattle.rg_tree.specs.View.{formula};
ghost use Rattle.rg_tree.specs.ProgramView.{statement, specification, part as part_tree};
ghost use Rattle.rg_tree.specs.ProgramTrees.{program as program_tree};
ghost use Rattle.rg_code.specs.Code.{count_of};
ghost use Rattle.rg_c_plan.specs.Accesses.{places};
ghost use Rattle.rg_c_plan.specs.Apart.{is_apart_kind};
ghost use Rattle.rg_c_plan.specs.Ways.{kind_at, has_atomic_accesses, is_guarded};
ghost use Rattle.rg_c_values.specs.Arrays.{array_length, array_name, indexed, member_of};
ghost use Rattle.rg_c.specs.Headers.{kind_before, kind_after, bits_text, note_text, own_field, is_fixed_kind, kind_of_items, kinds_from, array_field, item_note, field_text, struct_text, conjunct_lines, promise_text, promises_text, counts_text, apart_text, top_text, has_atomic, lock_free_text, lock_free_texts, atomics_text, apart_hook, macros_text, asserted, part_text, parts_text, header_text};
ghost use Rattle.rg_c.specs.Fitting.{StatementFits, SpecificationFits, PartsFit};
ghost use Rattle.rg_c.specs.View.{operation};

use crate::bodies::{Titles, push_body};
use crate::heads::{
    promise_head, push_apart_lines, push_apart_type, push_assertion_text, push_atomics_close,
    push_atomics_open, push_field_line, push_guard_close, push_guard_open, push_hooks_text,
    push_item_line, push_lock_free_line, push_promise_line, push_rests_text, push_sections_text,
    push_struct_close, push_struct_open, push_top_open,
};
use crate::operations::{Operation, push_operations};
use crate::orders::push_order;
use crate::print::{push_digits, push_word_name, type_of};
use crate::reads::kind_reads;
use crate::start::push_start;
use crate::tree::Sheet;
use rg_c_plan::kind::Kind;
use rg_c_plan::order::Rank;
use rg_c_plan::views::kinds_for;
use rg_c_plan::way::{has_atomic_accesses, kind_at};
use rg_c_report::counts::{Counts, counts_of, push_counts_first, push_counts_second};
use rg_c_report::parties::push_parties;
use rg_c_report::report::kind_text;
use rg_c_values::arrays::{array_length, array_of, push_array_name, push_member_of};
use rg_c_values::pieces::container;
use rg_c_values::print::print_test;
use rg_c_values::translate::test_in_c;
use rg_tree::part::{Part, Spec};
use rg_tree::print::print;
use rg_tree::program::Program;
use rg_tree::tree::Formula;
use rg_words::Layout;
use rg_words::operators::Connective;
use std::alloc::{AllocError, Global};

/// How a header is made.
#[derive(Clone, Copy)]
pub struct Options<'a> {
    /// The name of the struct, and what the functions' names begin with.
    pub name: &'a str,
    /// Before each step stands `RGC_AT(part, block)`, by their places in the listing of the code, from 0. The device has to define it.
    pub is_traced: bool,
    /// The uses of named statements that get functions of their own, which stand after those of their parts.
    pub operations: &'a [Operation],
}

fn kind_before(kind: Kind) -> &'static str
    ensures { result.now ≡ kind_before kind }
{
    match kind {
        Kind::Fixed => "const ",
        Kind::Published | Kind::Sheltered | Kind::Atomic => "RGC_ATOMIC(",
        Kind::Apart => "RGC_APART(",
        Kind::Own | Kind::Guarded => "",
    }
}

fn kind_after(kind: Kind) -> &'static str
    ensures { result.now ≡ kind_after kind }
{
    match kind {
        Kind::Published | Kind::Sheltered | Kind::Atomic | Kind::Apart => ")",
        Kind::Fixed | Kind::Own | Kind::Guarded => "",
    }
}

/// So many bits.
#[tactic(auto, unfolding(crate::specs::Headers::bits_text))]
fn bits_text(alloc: Global, width: u32) -> Result<String, AllocError>
    ensures { IfOk result (λ text. string_bytes text ≡ bits_text width) }
{
    let mut text = String::new(alloc);
    push_digits(&mut text, u64::from(width))?;
    text.push_str(if width == 1 { " bit" } else { " bits" })?;
    Ok(text)
}

/// What is said of a word.
#[tactic(auto, unfolding(crate::specs::Headers::note_text))]
fn note_text(
    alloc: Global,
    program: &Program,
    kinds: &[Kind],
    word: usize,
) -> Result<String, AllocError>
    requires { word < length program.now.layout }
    ensures { IfOk result (λ text. string_bytes text ≡ note_text (program_tree program.now) kinds.now word) }
{
    let mut text = bits_text(alloc, program.layout.width(word))?;
    text.push_str(", ")?;
    text.push_str(kind_text(kind_at(kinds, word)))?;
    text.push_str("; ")?;
    push_parties(alloc, &mut text, program, word)?;
    Ok(text)
}

/// Adds a word as a field of its own.
#[tactic(auto, unfolding(crate::specs::Headers::own_field))]
fn push_own_field(
    alloc: Global,
    text: &mut String,
    program: &Program,
    kinds: &[Kind],
    word: usize,
) -> Result<(), AllocError>
    requires { word < length program.now.layout }
    ensures { OnOk result (string_bytes text.new ≡ string_bytes text.old ++ own_field (program_tree program.now) kinds.now word) }
{
    let kind = kind_at(kinds, word);
    let mut name = String::new(alloc);
    push_word_name(&mut name, &program.layout, word)?;
    let note = note_text(alloc, program, kinds, word)?;
    push_field_line(
        text,
        kind_before(kind),
        type_of(&program.layout, word),
        kind_after(kind),
        &name,
        &note,
    )
}

fn is_fixed_kind(kind: Kind) -> bool
    ensures { result ≡ is_fixed_kind kind }
{
    matches!(kind, Kind::Fixed)
}

/// Whether a word of one of these kinds has atomic accesses.
fn some_atomic(kinds: &[Kind]) -> bool
    ensures { result ≡ list_any has_atomic_accesses kinds.now }
{
    kinds.iter().any(|kind| has_atomic_accesses(*kind))
}

/// Whether all of these kinds are fixed.
fn all_fixed(kinds: &[Kind]) -> bool
    ensures { result ≡ list_all is_fixed_kind kinds.now }
{
    kinds.iter().all(|kind| is_fixed_kind(*kind))
}

/// How an array is declared whose items have these kinds.
fn kind_of_items(kinds: &[Kind]) -> Kind
    ensures { result ≡ kind_of_items kinds.now }
{
    if some_atomic(kinds) {
        Kind::Atomic
    } else if all_fixed(kinds) {
        Kind::Fixed
    } else if is_apart(kinds) {
        Kind::Apart
    } else {
        Kind::Own
    }
}

/// The kinds of so many words, from this one on.
fn kinds_from(kinds: &[Kind], first: usize, count: usize) -> &[Kind]
    ensures { result.now ≡ kinds_from kinds.now first count }
{
    let rest = kinds.get(first..).unwrap_or(&[]);
    rest.get(..count).unwrap_or(rest)
}

/// The name of an array, with its length.
fn array_text(
    alloc: Global,
    layout: &Layout,
    first: usize,
    count: usize,
) -> Result<String, AllocError>
    requires { first < length layout.now }
    ensures { IfOk result (λ text. string_bytes text ≡ indexed (array_name layout.now first) (decimal count)) }
{
    let mut text = String::new(alloc);
    push_array_name(&mut text, layout, first)?;
    text.push_str("[")?;
    push_digits(&mut text, count as u64)?;
    text.push_str("]")?;
    Ok(text)
}

/// Adds an array that begins at a word.
#[tactic(auto, unfolding(crate::specs::Headers::array_field))]
fn push_array_field(
    alloc: Global,
    text: &mut String,
    program: &Program,
    kinds: &[Kind],
    first: usize,
) -> Result<(), AllocError>
    requires { first < length program.now.layout }
    ensures { OnOk result (string_bytes text.new ≡ string_bytes text.old ++ array_field (program_tree program.now) kinds.now (kind_of_items (kinds_from
        kinds.now first (array_length program.now.layout first))) first (array_length program.now.layout first)) }
{
    let count = array_length(&program.layout, first);
    let kind = kind_of_items(kinds_from(kinds, first, count));
    let name = array_text(alloc, &program.layout, first, count)?;
    let note = note_text(alloc, program, kinds, first)?;
    push_field_line(
        text,
        kind_before(kind),
        type_of(&program.layout, first),
        kind_after(kind),
        &name,
        &note,
    )
}

/// Adds what is said of an item of an array, where it isn't what is said of the first one.
#[tactic(auto, unfolding(crate::specs::Headers::item_note))]
fn push_item_note(
    alloc: Global,
    text: &mut String,
    program: &Program,
    kinds: &[Kind],
    first: usize,
    word: usize,
) -> Result<(), AllocError>
    requires first { first < length program.now.layout }
    requires word { word < length program.now.layout }
    ensures { OnOk result (string_bytes text.new ≡ string_bytes text.old ++ item_note (program_tree program.now) kinds.now first word) }
{
    let of_first = note_text(alloc, program, kinds, first)?;
    let note = note_text(alloc, program, kinds, word)?;
    if note.as_str() == of_first.as_str() {
        return Ok(());
    }
    let mut member = String::new(alloc);
    push_member_of(&mut member, &program.layout, word)?;
    push_item_line(text, &member, &note)
}

/// Adds a word as a field, or in an array.
#[tactic(auto, unfolding(crate::specs::Headers::field_text))]
fn push_field(
    alloc: Global,
    text: &mut String,
    program: &Program,
    kinds: &[Kind],
    word: usize,
) -> Result<(), AllocError>
    requires { word < length program.now.layout }
    ensures { OnOk result (string_bytes text.new ≡ string_bytes text.old ++ field_text (program_tree program.now) kinds.now word) }
{
    match array_of(&program.layout, word) {
        None => push_own_field(alloc, text, program, kinds, word),
        Some(first) if first == word => push_array_field(alloc, text, program, kinds, word),
        Some(first) => push_item_note(alloc, text, program, kinds, first, word),
    }
}

/// Adds the struct of the words.
#[tactic(auto, unfolding(crate::specs::Headers::struct_text))]
fn push_struct(
    alloc: Global,
    text: &mut String,
    name: &str,
    program: &Program,
    kinds: &[Kind],
) -> Result<(), AllocError>
    ensures { OnOk result (string_bytes text.new ≡ string_bytes text.old ++ struct_text name.now (program_tree program.now) kinds.now) }
{
    push_struct_open(text, name)?;
    push_fields(alloc, text, program, kinds)?;
    push_struct_close(text)
}

/// Adds the words as fields.
fn push_fields(
    alloc: Global,
    text: &mut String,
    program: &Program,
    kinds: &[Kind],
) -> Result<(), AllocError>
    ensures { OnOk result (string_bytes text.new ≡ string_bytes text.old ++ flat_map (field_text (program_tree program.now) kinds.now) (places program.now.layout)) }
{
    for word in 0..program.layout.len() {
        push_field(alloc, text, program, kinds, word)?;
    }
    Ok(())
}

/// Adds the conjuncts of a formula, each on a line, after what stands before the first.
#[cycle(promises)]
fn push_conjuncts(
    alloc: Global,
    text: &mut String,
    layout: &Layout,
    before: &str,
    f: &Formula,
) -> Result<(), AllocError>
    requires { FormulaFits (formula f.now) (length layout.now) }
    ensures { OnOk result (string_bytes text.new ≡ string_bytes text.old ++ conjunct_lines layout.now before.now (formula f.now)) }
{
    match f {
        Formula::Connect(Connective::And, f, g) => {
            push_conjuncts(alloc, text, layout, before, f)?;
            push_conjuncts(alloc, text, layout, " *     and ", g)
        }
        _ => {
            let conjunct = print(alloc, layout, f)?;
            push_promise_line(text, before, &conjunct)
        }
    }
}

/// Adds a formula that is promised.
#[tactic(auto, unfolding(crate::specs::Headers::promise_text))]
fn push_promise(
    alloc: Global,
    text: &mut String,
    layout: &Layout,
    what: &str,
    f: &Formula,
) -> Result<(), AllocError>
    requires { FormulaFits (formula f.now) (length layout.now) }
    ensures { OnOk result (string_bytes text.new ≡ string_bytes text.old ++ promise_text layout.now what.now (formula f.now)) }
{
    let before = promise_head(alloc, what)?;
    push_conjuncts(alloc, text, layout, &before, f)
}

/// Adds the four formulas.
#[tactic(auto, unfolding(crate::specs::Headers::promises_text))]
fn push_promises(
    alloc: Global,
    text: &mut String,
    layout: &Layout,
    spec: &Spec,
) -> Result<(), AllocError>
    requires { SpecificationFits (length layout.now) (specification spec.now) }
    ensures { OnOk result (string_bytes text.new ≡ string_bytes text.old ++ promises_text layout.now (specification spec.now)) }
{
    push_promise(alloc, text, layout, "pre", &spec.pre)?;
    push_promise(alloc, text, layout, "rely", &spec.rely)?;
    push_promise(alloc, text, layout, "guar", &spec.guar)?;
    push_promise(alloc, text, layout, "post", &spec.post)
}

/// Adds how many steps are done in each way.
#[tactic(auto, unfolding(crate::specs::Headers::counts_text))]
fn push_counts(text: &mut String, counts: &Counts) -> Result<(), AllocError>
    ensures { OnOk result (string_bytes text.new ≡ string_bytes text.old ++ counts_text counts.now) }
{
    text.push_str(" *\n * ")?;
    push_counts_first(text, counts)?;
    text.push_str("\n * ")?;
    push_counts_second(text, counts)?;
    text.push_str("\n")?;
    Ok(())
}

/// Whether parts are kept apart at a word.
fn is_apart(kinds: &[Kind]) -> bool
    ensures { result ≡ list_any is_apart_kind kinds.now }
{
    kinds.iter().any(|kind| matches!(kind, Kind::Apart))
}

/// Adds what is proved of such words, if there are any.
fn push_apart(text: &mut String, kinds: &[Kind]) -> Result<(), AllocError>
    ensures { OnOk result (string_bytes text.new ≡ string_bytes text.old ++ apart_text kinds.now) }
{
    if is_apart(kinds) {
        push_apart_lines(text)?;
    }
    Ok(())
}

/// Adds the comment at the top.
#[tactic(auto, unfolding(crate::specs::Headers::top_text))]
fn push_top(
    alloc: Global,
    text: &mut String,
    name: &str,
    order: &[Option<Rank>],
    kinds: &[Kind],
    program: &Program,
) -> Result<(), AllocError>
    requires { SpecificationFits (length program.now.layout) (specification program.now.spec) }
    ensures { OnOk result (string_bytes text.new ≡ string_bytes text.old ++ top_text name.now order.now kinds.now (program_tree program.now)) }
{
    let counts = counts_of(alloc, program, order, kinds)?;
    push_top_open(text, name)?;
    push_promises(alloc, text, &program.layout, &program.spec)?;
    push_counts(text, &counts)?;
    push_apart(text, kinds)?;
    push_order(alloc, text, program, order)?;
    push_rests_text(text)
}

/// Whether some atomic word has a type of so many bits.
#[tactic(auto, using(crate::proofs::Places::range_more, crate::proofs::Places::range_over))]
fn has_atomic(layout: &Layout, kinds: &[Kind], bits: u32) -> bool
    ensures { result ≡ has_atomic layout.now kinds.now bits }
{
    for word in 0..layout.len() {
        if matches!(kind_at(kinds, word), Kind::Atomic) && container(layout.width(word)) == bits {
            return true;
        }
    }
    false
}

/// Adds that such a type has to be accessed without a lock.
#[tactic(auto, unfolding(crate::specs::Headers::lock_free_text))]
fn push_lock_free(
    alloc: Global,
    text: &mut String,
    layout: &Layout,
    kinds: &[Kind],
    bits: u32,
    test: &str,
) -> Result<(), AllocError>
    ensures { OnOk result (string_bytes text.new ≡ string_bytes text.old ++ lock_free_text layout.now kinds.now bits test.now) }
{
    if !has_atomic(layout, kinds, bits) {
        return Ok(());
    }
    let mut number = String::new(alloc);
    push_digits(&mut number, u64::from(bits))?;
    push_lock_free_line(text, test, &number)
}

/// Adds that the types of atomic words have to be accessed without a lock.
#[tactic(auto, unfolding(crate::specs::Headers::lock_free_texts))]
fn push_lock_free_types(
    alloc: Global,
    text: &mut String,
    layout: &Layout,
    kinds: &[Kind],
) -> Result<(), AllocError>
    ensures { OnOk result (string_bytes text.new ≡ string_bytes text.old ++ lock_free_texts layout.now kinds.now) }
{
    push_lock_free(alloc, text, layout, kinds, 8, "ATOMIC_CHAR_LOCK_FREE == 2")?;
    push_lock_free(
        alloc,
        text,
        layout,
        kinds,
        16,
        "ATOMIC_SHORT_LOCK_FREE == 2",
    )?;
    push_lock_free(
        alloc,
        text,
        layout,
        kinds,
        32,
        "ATOMIC_INT_LOCK_FREE == 2 && ATOMIC_LONG_LOCK_FREE == 2",
    )?;
    push_lock_free(
        alloc,
        text,
        layout,
        kinds,
        64,
        "ATOMIC_LLONG_LOCK_FREE == 2",
    )?;
    Ok(())
}

/// Adds how atomic words are accessed, unless the device says so.
#[tactic(auto, unfolding(crate::specs::Headers::atomics_text))]
fn push_atomics(
    alloc: Global,
    text: &mut String,
    layout: &Layout,
    kinds: &[Kind],
) -> Result<(), AllocError>
    ensures { OnOk result (string_bytes text.new ≡ string_bytes text.old ++ atomics_text layout.now kinds.now) }
{
    push_atomics_open(text)?;
    push_lock_free_types(alloc, text, layout, kinds)?;
    push_atomics_close(text)
}

/// Adds how words are declared at which parts are kept apart, if there are any.
fn push_apart_hook(text: &mut String, kinds: &[Kind]) -> Result<(), AllocError>
    ensures { OnOk result (string_bytes text.new ≡ string_bytes text.old ++ apart_hook kinds.now) }
{
    if is_apart(kinds) {
        push_apart_type(text)?;
    }
    Ok(())
}

/// Whether a word is touched in sections.
fn is_guarded(kinds: &[Kind]) -> bool
    ensures { result ≡ list_any is_guarded kinds.now }
{
    kinds.iter().any(|kind| matches!(kind, Kind::Guarded))
}

/// Adds what stands before the struct.
#[tactic(auto, unfolding(crate::specs::Headers::macros_text))]
fn push_macros(
    alloc: Global,
    text: &mut String,
    name: &str,
    layout: &Layout,
    kinds: &[Kind],
) -> Result<(), AllocError>
    ensures { OnOk result (string_bytes text.new ≡ string_bytes text.old ++ macros_text name.now layout.now kinds.now) }
{
    push_guard_open(text, name)?;
    push_atomics(alloc, text, layout, kinds)?;
    push_hooks_text(text)?;
    push_apart_hook(text, kinds)?;
    if is_guarded(kinds) {
        push_sections_text(text)?;
    }
    Ok(())
}

/// Adds a function that tells whether a formula holds.
#[tactic(auto, unfolding(crate::specs::Headers::asserted))]
fn push_asserted(
    s: &Sheet<'_>,
    text: &mut String,
    name: &str,
    what: &str,
    f: &Formula,
) -> Result<(), AllocError>
    requires { FormulaFits (formula f.now) (length s.now.layout.now) }
    ensures { OnOk result (string_bytes text.new ≡ string_bytes text.old ++ asserted name.now what.now s.now.layout.now s.now.kinds.now (formula f.now)) }
{
    let reads = kind_reads(s.alloc, s.layout, s.kinds)?;
    let t = test_in_c(s.alloc, s.layout, f)?;
    let mut asked = String::new(s.alloc);
    print_test(&mut asked, s.layout, &reads, &t)?;
    push_assertion_text(text, name, what, &asked)
}

/// What the text of the parts depends on: the program, which of its parts interrupt which, the kinds of its words, and how a header is made.
#[derive(Clone, Copy)]
struct Whole<'a> {
    alloc: Global,
    program: &'a Program,
    order: &'a [Option<Rank>],
    kinds: &'a [Kind],
    lines: &'a [u64],
    options: &'a Options<'a>,
}

/// Adds a part at this place, by the kinds of words as it sees them, and the uses of named statements in it.
fn push_part(
    whole: &Whole<'_>,
    text: &mut String,
    place: usize,
    part: &Part,
) -> Result<(), AllocError>
    requires fits { StatementFits (length whole.now.program.now.layout) (statement part.now.body) }
    requires room { count_of (statement part.now.body) < 2 ^ 64 }
    ensures { OnOk result (string_bytes text.new ≡ string_bytes text.old ++ part_text whole.now.options.now.name.now (program_tree whole.now.program.now)
        whole.now.order.now whole.now.kinds.now whole.now.options.now.is_traced whole.now.lines.now (map operation whole.now.options.now.operations.now) place (part_tree part.now)) }
{
    let kinds = kinds_for(whole.alloc, whole.program, whole.order, whole.kinds, place)?;
    let s = Sheet {
        alloc: whole.alloc,
        layout: &whole.program.layout,
        kinds: &kinds,
        reads: &[],
        indent: "",
        part: place,
        is_traced: whole.options.is_traced,
        lines: whole.lines,
    };
    let titles = Titles {
        name: whole.options.name,
        part: part.name.as_str(),
    };
    push_body(&s, text, &titles, &part.body)?;
    push_operations(&s, text, &titles, whole.options.operations, &part.body)
}

/// Adds parts.
fn push_parts(whole: &Whole<'_>, text: &mut String, parts: &[Part]) -> Result<(), AllocError>
    requires { PartsFit (length whole.now.program.now.layout) (map part_tree parts.now) }
    ensures { OnOk result (string_bytes text.new ≡ string_bytes text.old ++ parts_text whole.now.options.now.name.now (program_tree whole.now.program.now)
        whole.now.order.now whole.now.kinds.now whole.now.options.now.is_traced whole.now.lines.now (map operation whole.now.options.now.operations.now) 0 (map part_tree parts.now)) }
{
    let mut place = 0;
    for part in parts {
        push_part(whole, text, place, part)?;
        place += 1;
    }
    Ok(())
}

/// A program as one header of C11, whose parts interrupt each other so, with these kinds of words. `lines` has the line that is printed for each line of the
/// text, after a first one for none, and 0 for a `skip` that nobody wrote; where it is empty, the text's own. An error comes only where memory was refused.
pub fn header(
    alloc: Global,
    program: &Program,
    order: &[Option<Rank>],
    kinds: &[Kind],
    lines: &[u64],
    options: &Options<'_>,
) -> Result<String, AllocError>
    ensures { IfOk result (λ text. string_bytes text ≡ header_text options.now.name.now options.now.is_traced lines.now (map operation options.now.operations.now) order.now kinds.now (program_tree program.now)) }
{
    let layout = &program.layout;
    layout.facts();
    let mut text = String::new(alloc);
    let s = Sheet {
        alloc,
        layout,
        kinds,
        reads: &[],
        indent: "",
        part: 0,
        is_traced: options.is_traced,
        lines,
    };
    push_top(alloc, &mut text, options.name, order, kinds, program)?;
    push_macros(alloc, &mut text, options.name, layout, kinds)?;
    push_struct(alloc, &mut text, options.name, program, kinds)?;
    push_start(alloc, &mut text, options.name, program)?;
    push_asserted(&s, &mut text, options.name, "pre", &program.spec.pre)?;
    push_asserted(&s, &mut text, options.name, "post", &program.spec.post)?;
    let whole = Whole {
        alloc,
        program,
        order,
        kinds,
        lines,
        options,
    };
    push_parts(&whole, &mut text, &program.parts)?;
    push_guard_close(&mut text)?;
    Ok(text)
}
