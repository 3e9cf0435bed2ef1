//! The text of statements of C.

ghost use Rattle.std.specs.Prelude.{◌≡◌, ◌++◌, ◌∷◌, [], ◌<◌, codes, decimal, length, map, nat_eq, string_bytes, IfOk, OnOk};
ghost use Rattle.rg_c_values.specs.Arrays.{member_of, array_name, indexed};
ghost use Rattle.rg_c_values.specs.Printed.{value_text, test_text};
ghost use Rattle.rg_c_values.specs.View.{value, test};
ghost use Rattle.rg_c.specs.CStatements.{begins, copies, each, exchanges, loads, returns};
ghost use Rattle.rg_c.specs.Printed.{name_of, type_text, type_of, flag_text, initial, joined, question_text, contrary_text, inner, line as line_text, opens, closes, printed};
ghost use Rattle.rg_c.specs.Steps.{if_done};
ghost use Rattle.rg_c.specs.View.{question, line, piece, of, on};

use crate::together::{push_to_locals, push_to_words};
use crate::tree::{Asked, Code, Flag, Line, Sheet};
use itoa::Buffer;
use rg_c_values::arrays::{push_member_of, push_name};
use rg_c_values::print::{print_test, print_value};
use rg_c_values::tree::Value;
use rg_words::Layout;
use std::alloc::{AllocError, Global};

/// A piece of a line: a text, a word's name in C, the word as a member of the struct, its type, a value, a question, or its contrary.
#[derive(Clone, Copy)]
pub(crate) enum Piece<'a> {
    Text(&'a str),
    Name(usize),
    Member(usize),
    Kind(usize),
    Value(&'a Value),
    Question(Asked<'a>),
    Contrary(Asked<'a>),
}

use Piece::{Contrary, Kind, Member, Name, Question, Text};

/// The unsigned type of a word of this width.
#[tactic(auto, unfolding(crate::specs::Printed::type_text))]
fn type_text(width: u32) -> &'static str
    ensures { result.now ≡ type_text width }
{
    if width <= 8 {
        "uint8_t"
    } else if width <= 16 {
        "uint16_t"
    } else if width <= 32 {
        "uint32_t"
    } else {
        "uint64_t"
    }
}

/// The unsigned type of a word.
pub(crate) fn type_of(layout: &Layout, word: usize) -> &'static str
    ensures { result.now ≡ type_of layout.now word }
{
    if word < layout.len() {
        type_text(layout.width(word))
    } else {
        type_text(0)
    }
}

/// The name of a word in C.
#[tactic(auto, unfolding(crate::specs::Printed::name_of))]
pub(crate) fn push_word_name(
    text: &mut String,
    layout: &Layout,
    word: usize,
) -> Result<(), AllocError>
    ensures { OnOk result (string_bytes text.new ≡ string_bytes text.old ++ name_of layout.now word) }
{
    push_name(text, layout, word)
}

/// Adds the digits of a number.
pub(crate) fn push_digits(text: &mut String, n: u64) -> Result<(), AllocError>
    ensures { OnOk result (string_bytes text.new ≡ string_bytes text.old ++ decimal n) }
{
    let mut buffer = Buffer::new();
    text.push_str(buffer.format(n))?;
    Ok(())
}

/// Adds the name of a flag.
fn push_flag(text: &mut String, flag: Flag) -> Result<(), AllocError>
    ensures { OnOk result (string_bytes text.new ≡ string_bytes text.old ++ flag_text flag) }
{
    match flag {
        Flag::Done => {
            text.push_str("rgc_done")?;
            Ok(())
        }
        Flag::Go(place) => {
            text.push_str("rgc_go")?;
            push_digits(text, place as u64)
        }
    }
}

/// Adds a question.
fn push_question(s: &Sheet<'_>, text: &mut String, asked: Asked<'_>) -> Result<(), AllocError>
    ensures { OnOk result (string_bytes text.new ≡ string_bytes text.old ++ question_text s.now.layout.now s.now.reads.now (question asked.entry)) }
{
    match asked {
        Asked::Asks(t) => print_test(text, s.layout, s.reads, t),
        Asked::Flagged(flag) => push_flag(text, flag),
    }
}

/// Adds its contrary.
fn push_contrary(s: &Sheet<'_>, text: &mut String, asked: Asked<'_>) -> Result<(), AllocError>
    ensures { OnOk result (string_bytes text.new ≡ string_bytes text.old ++ contrary_text s.now.layout.now s.now.reads.now (question asked.entry)) }
{
    match asked {
        Asked::Asks(t) => {
            text.push_str("!(")?;
            print_test(text, s.layout, s.reads, t)?;
            text.push_str(")")?;
            Ok(())
        }
        Asked::Flagged(flag) => {
            text.push_str("!")?;
            push_flag(text, flag)
        }
    }
}

/// Adds a piece.
fn push_piece(s: &Sheet<'_>, text: &mut String, part: Piece<'_>) -> Result<(), AllocError>
    ensures { OnOk result (string_bytes text.new ≡ string_bytes text.old ++ piece s.now.layout.now s.now.reads.now part.entry) }
{
    match part {
        Text(piece) => {
            text.push_str(piece)?;
            Ok(())
        }
        Name(word) => push_word_name(text, s.layout, word),
        Member(word) => push_member_of(text, s.layout, word),
        Kind(word) => {
            text.push_str(type_of(s.layout, word))?;
            Ok(())
        }
        Piece::Value(v) => print_value(text, s.layout, s.reads, v),
        Question(asked) => push_question(s, text, asked),
        Contrary(asked) => push_contrary(s, text, asked),
    }
}

/// Adds pieces, one after another.
fn push_pieces(s: &Sheet<'_>, text: &mut String, pieces: &[Piece<'_>]) -> Result<(), AllocError>
    ensures { OnOk result (string_bytes text.new ≡ string_bytes text.old ++ joined (map (piece s.now.layout.now s.now.reads.now) pieces.now)) }
{
    for piece in pieces {
        push_piece(s, text, *piece)?;
    }
    Ok(())
}

/// Adds a line.
pub(crate) fn push_line(
    s: &Sheet<'_>,
    text: &mut String,
    pieces: &[Piece<'_>],
) -> Result<(), AllocError>
    ensures { OnOk result (string_bytes text.new
        ≡ string_bytes text.old ++ line_text s.now.indent.now (map (piece s.now.layout.now s.now.reads.now) pieces.now)) }
{
    text.push_str(s.indent)?;
    push_pieces(s, text, pieces)?;
    text.push_str(";\n")?;
    Ok(())
}

/// Adds what stands before a block.
pub(crate) fn push_opening(
    s: &Sheet<'_>,
    text: &mut String,
    pieces: &[Piece<'_>],
) -> Result<(), AllocError>
    ensures { OnOk result (string_bytes text.new ≡ string_bytes text.old ++ opens s.now.indent.now (map (piece s.now.layout.now s.now.reads.now) pieces.now)) }
{
    text.push_str(s.indent)?;
    push_pieces(s, text, pieces)?;
    text.push_str("{\n")?;
    Ok(())
}

/// Adds the end of a block.
pub(crate) fn push_closing(s: &Sheet<'_>, text: &mut String) -> Result<(), AllocError>
    ensures { OnOk result (string_bytes text.new ≡ string_bytes text.old ++ closes s.now.indent.now) }
{
    text.push_str(s.indent)?;
    text.push_str("}\n")?;
    Ok(())
}

/// The indent of what stands inside.
#[tactic(auto, unfolding(crate::specs::Printed::inner))]
pub(crate) fn inner(alloc: Global, indent: &str) -> Result<String, AllocError>
    ensures { IfOk result (λ text. string_bytes text ≡ inner indent.now) }
{
    let mut text = String::from_str(alloc, indent)?;
    text.push_str("    ")?;
    Ok(text)
}

/// Adds a comment.
fn push_remark(s: &Sheet<'_>, text: &mut String, remark: &str) -> Result<(), AllocError>
    ensures { OnOk result (string_bytes text.new ≡ string_bytes text.old ++ (s.now.indent.now ++ (codes "/* " ++ (remark.now ++ codes " */\n")))) }
{
    text.push_str(s.indent)?;
    text.push_str("/* ")?;
    text.push_str(remark)?;
    text.push_str(" */\n")?;
    Ok(())
}

/// What a flag is declared with.
fn initial(flag: Flag) -> &'static str
    ensures { result.now ≡ initial flag }
{
    match flag {
        Flag::Done => " = false",
        Flag::Go(_) => "",
    }
}

/// Adds a load of a word into its local.
fn push_load(s: &Sheet<'_>, text: &mut String, word: usize) -> Result<(), AllocError>
    ensures { OnOk result (string_bytes text.new ≡ string_bytes text.old ++ on s.now (loads word)) }
{
    let load = [
        Text("const "),
        Kind(word),
        Text(" "),
        Name(word),
        Text("_ = RGC_LOAD(&w->"),
        Member(word),
        Text(")"),
    ];
    push_line(s, text, &load)
}

/// Adds the load of a word that is to be exchanged, and its local.
fn push_begun(s: &Sheet<'_>, text: &mut String, word: usize) -> Result<(), AllocError>
    ensures { OnOk result (string_bytes text.new ≡ string_bytes text.old ++ on s.now (begins word)) }
{
    let load = [
        Kind(word),
        Text(" rgc_old = RGC_LOAD(&w->"),
        Member(word),
        Text(")"),
    ];
    let local = [Kind(word), Text(" "), Name(word), Text("_ = rgc_old")];
    push_line(s, text, &load)?;
    push_line(s, text, &local)
}

/// Adds the exchange of a word for its local.
fn push_exchange(s: &Sheet<'_>, text: &mut String, word: usize) -> Result<(), AllocError>
    ensures { OnOk result (string_bytes text.new ≡ string_bytes text.old ++ on s.now (exchanges word)) }
{
    let exchange = [
        Text("rgc_done = RGC_CAS(&w->"),
        Member(word),
        Text(", rgc_old, "),
        Name(word),
        Text("_)"),
    ];
    push_line(s, text, &exchange)
}

/// Adds a statement without others in it.
fn push_single(s: &Sheet<'_>, text: &mut String, single: Line<'_>) -> Result<(), AllocError>
    ensures { OnOk result (string_bytes text.new ≡ string_bytes text.old ++ on s.now (line single.entry)) }
{
    match single {
        Line::Remark(remark) => push_remark(s, text, remark),
        Line::Hook(hook) => push_line(s, text, &[Text(hook)]),
        Line::Loads(k) => push_load(s, text, k),
        Line::Discards(k) => {
            let load = [Text("(void)RGC_LOAD(&w->"), Member(k), Text(")")];
            push_line(s, text, &load)
        }
        Line::Begins(k) => push_begun(s, text, k),
        Line::Exchanges(k) => push_exchange(s, text, k),
        Line::Declares(flag) => {
            let name = Question(Asked::Flagged(flag));
            push_line(s, text, &[Text("bool "), name, Text(initial(flag))])
        }
        Line::Decides(flag, t) => {
            let name = Question(Asked::Flagged(flag));
            push_line(s, text, &[name, Text(" = "), Question(Asked::Asks(t))])
        }
        Line::Breaks => push_line(s, text, &[Text("break")]),
    }
}

/// Adds locals with the values of words.
fn push_copies(s: &Sheet<'_>, text: &mut String, words: &[usize]) -> Result<(), AllocError>
    ensures { OnOk result (string_bytes text.new ≡ string_bytes text.old ++ on s.now (each copies words.now)) }
{
    for word in words {
        let copy = [
            Kind(*word),
            Text(" "),
            Name(*word),
            Text("_ = w->"),
            Member(*word),
        ];
        push_line(s, text, &copy)?;
    }
    Ok(())
}

/// Adds what gives words the values of their locals.
fn push_returns(s: &Sheet<'_>, text: &mut String, words: &[usize]) -> Result<(), AllocError>
    ensures { OnOk result (string_bytes text.new ≡ string_bytes text.old ++ on s.now (each returns words.now)) }
{
    for word in words {
        let copy = [
            Text("w->"),
            Member(*word),
            Text(" = "),
            Name(*word),
            Text("_"),
        ];
        push_line(s, text, &copy)?;
    }
    Ok(())
}

/// Adds what gives words the values of their locals where the step is made, if there are any.
fn push_returned(s: &Sheet<'_>, text: &mut String, words: &[usize]) -> Result<(), AllocError>
    ensures { OnOk result (string_bytes text.new ≡ string_bytes text.old ++ on s.now (if_done (nat_eq (length words.now) 0) (each returns words.now))) }
{
    if words.len() == 0 {
        return Ok(());
    }
    let done = Question(Asked::Flagged(Flag::Done));
    push_opening(s, text, &[Text("if ("), done, Text(") ")])?;
    let inside = inner(s.alloc, s.indent)?;
    let deeper = Sheet {
        indent: &inside,
        ..*s
    };
    push_returns(&deeper, text, words)?;
    push_closing(s, text)
}

/// Adds statements.
#[cycle(code)]
pub(crate) fn push_code(s: &Sheet<'_>, text: &mut String, c: &Code<'_>) -> Result<(), AllocError>
    ensures { OnOk result (string_bytes text.new ≡ string_bytes text.old ++ on s.now (of s.now c.now)) }
{
    match c {
        Code::Nothing => Ok(()),
        Code::Then(a, b) => {
            push_code(s, text, a)?;
            push_code(s, text, b)
        }
        Code::Which(first, a, b) => push_code(s, text, if *first { a } else { b }),
        Code::Single(single) => push_single(s, text, *single),
        Code::Copies(words) => push_copies(s, text, words),
        Code::Returned(words) => push_returned(s, text, words),
        Code::ToLocals(gs) => push_to_locals(s, text, gs),
        Code::ToWords(gs) => push_to_words(s, text, gs),
        Code::Block(c) => {
            push_opening(s, text, &[])?;
            push_inside(s, text, c)?;
            push_closing(s, text)
        }
        Code::Forever(c) => {
            push_opening(s, text, &[Text("for (;;) ")])?;
            push_inside(s, text, c)?;
            push_closing(s, text)
        }
        Code::IfDone(c) => {
            let done = Question(Asked::Flagged(Flag::Done));
            push_opening(s, text, &[Text("if ("), done, Text(") ")])?;
            push_inside(s, text, c)?;
            push_closing(s, text)
        }
        Code::When(asked, c) => {
            push_opening(s, text, &[Text("if ("), Question(*asked), Text(") ")])?;
            push_inside(s, text, c)?;
            push_closing(s, text)
        }
        Code::Unless(asked, c) => {
            push_opening(s, text, &[Text("if ("), Contrary(*asked), Text(") ")])?;
            push_inside(s, text, c)?;
            push_closing(s, text)
        }
        Code::Either(asked, a, b) => {
            push_opening(s, text, &[Text("if ("), Question(*asked), Text(") ")])?;
            push_inside(s, text, a)?;
            push_opening(s, text, &[Text("} else ")])?;
            push_inside(s, text, b)?;
            push_closing(s, text)
        }
    }
}

/// Adds what stands in a block.
#[cycle(code)]
fn push_inside(s: &Sheet<'_>, text: &mut String, c: &Code<'_>) -> Result<(), AllocError>
    ensures { OnOk result (string_bytes text.new
        ≡ string_bytes text.old ++ printed s.now.layout.now s.now.reads.now (inner s.now.indent.now) (of s.now c.now)) }
{
    let inside = inner(s.alloc, s.indent)?;
    let deeper = Sheet {
        indent: &inside,
        ..*s
    };
    push_code(&deeper, text, c)
}
