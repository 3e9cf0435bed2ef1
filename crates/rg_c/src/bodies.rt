//! The functions of a part: from its beginning to its end, and of one round.

ghost use Rattle.std.specs.Prelude.{◌≡◌, ◌++◌, ◌+◌, ◌<◌, ◌^◌, [], length, string_bytes, IfOk, OnOk};
ghost use Rattle.rg_tree.specs.Fits.{FormulaFits};
ghost use Rattle.rg_tree.specs.View.{formula};
ghost use Rattle.rg_tree.specs.ProgramView.{statement};
ghost use Rattle.rg_code.specs.Code.{count_of};
ghost use Rattle.rg_c.specs.Printed.{function_text};
ghost use Rattle.rg_c.specs.Headers.{run_text, round_text, body_text};
ghost use Rattle.rg_c.specs.Functions.{goes_round, function_name};
ghost use Rattle.rg_c.specs.CStatements.{calls};
ghost use Rattle.rg_c.specs.Bodies.{in_c, looped};
ghost use Rattle.rg_c.specs.Fitting.{StatementFits};
ghost use Rattle.rg_c.specs.View.{page, on};

use crate::heads::{push_part_open, push_round_open};
use crate::print::{Piece, inner, push_closing, push_code, push_line, push_opening};
use crate::statements::{At, push_loop, push_statement};
use crate::tree::{Code, Line, Sheet};
use rg_c_plan::order::is_always;
use rg_tree::statement::Stmt;
use rg_tree::tree::Formula;
use std::alloc::{AllocError, Global};

/// What the functions of a part are named after.
#[derive(Clone, Copy)]
pub(crate) struct Titles<'a> {
    pub(crate) name: &'a str,
    pub(crate) part: &'a str,
}

pub(crate) const UNUSED: Code<'static> = Code::Single(Line::Hook("(void)w"));

/// Adds the body of a function: a statement whose first step stands at this place.
fn push_block(s: &Sheet<'_>, text: &mut String, place: usize, body: &Stmt) -> Result<(), AllocError>
    requires fits { StatementFits (length s.now.layout.now) (statement body.now) }
    requires room { place + count_of (statement body.now) < 2 ^ 64 }
    ensures { OnOk result (string_bytes text.new ≡ string_bytes text.old ++ function_text s.now.layout.now [] (in_c (page s.now) place (statement body.now))) }
{
    let inside = inner(s.alloc, "")?;
    let outer = Sheet {
        reads: &[],
        indent: "",
        ..*s
    };
    let deeper = Sheet {
        indent: &inside,
        ..outer
    };
    push_opening(&outer, text, &[])?;
    push_code(&deeper, text, &UNUSED)?;
    push_statement(&deeper, text, place, body)?;
    push_closing(&outer, text)
}

/// Adds a part from its beginning to its end.
#[tactic(auto, unfolding(crate::specs::Headers::run_text))]
fn push_run(
    s: &Sheet<'_>,
    text: &mut String,
    titles: &Titles<'_>,
    body: &Stmt,
) -> Result<(), AllocError>
    requires fits { StatementFits (length s.now.layout.now) (statement body.now) }
    requires room { count_of (statement body.now) < 2 ^ 64 }
    ensures { OnOk result (string_bytes text.new ≡ string_bytes text.old ++ run_text titles.now.name.now titles.now.part.now (page s.now) (statement body.now)) }
{
    push_part_open(text, titles.name, titles.part)?;
    push_block(s, text, 0, body)
}

/// Adds a part that goes round without an end: one round of it, and the part, which calls that again and again.
#[tactic(auto, unfolding(crate::specs::Headers::round_text))]
fn push_round(
    s: &Sheet<'_>,
    text: &mut String,
    titles: &Titles<'_>,
    line: u32,
    f: &Formula,
    body: &Stmt,
) -> Result<(), AllocError>
    requires guard { FormulaFits (formula f.now) (length s.now.layout.now) }
    requires fits { StatementFits (length s.now.layout.now) (statement body.now) }
    requires room { 1 + count_of (statement body.now) < 2 ^ 64 }
    ensures { OnOk result (string_bytes text.new ≡ string_bytes text.old ++ round_text titles.now.name.now titles.now.part.now (page s.now) line (formula
        f.now) (statement body.now)) }
{
    push_round_open(text, titles.name, titles.part)?;
    push_block(s, text, 1, body)?;
    push_part_open(text, titles.name, titles.part)?;
    push_rounds(s, text, titles, line, f)
}

/// The name of the function for one round of a part.
fn round_name(alloc: Global, titles: &Titles<'_>) -> Result<String, AllocError>
    ensures { IfOk result (λ text. string_bytes text ≡ function_name titles.now.name.now (goes_round titles.now.part.now)) }
{
    let mut text = String::from_str(alloc, titles.name)?;
    text.push_str("_round_")?;
    text.push_str(titles.part)?;
    Ok(text)
}

/// Adds the loop of such a part, which calls its round.
fn push_calls(
    s: &Sheet<'_>,
    text: &mut String,
    titles: &Titles<'_>,
    line: u32,
    f: &Formula,
) -> Result<(), AllocError>
    requires { FormulaFits (formula f.now) (length s.now.layout.now) }
    ensures { OnOk result (string_bytes text.new ≡ string_bytes text.old ++ on s.now (looped (page s.now) 0 line (formula f.now) (calls (function_name titles.now.name.now (goes_round titles.now.part.now))))) }
{
    let round = round_name(s.alloc, titles)?;
    let inside = inner(s.alloc, s.indent)?;
    let deeper = Sheet {
        indent: &inside,
        ..*s
    };
    push_loop(s, text, At { place: 0, line }, f)?;
    push_line(&deeper, text, &[Piece::Text(&round), Piece::Text("(w)")])?;
    push_closing(s, text)
}

/// Adds the body of such a part.
fn push_rounds(
    s: &Sheet<'_>,
    text: &mut String,
    titles: &Titles<'_>,
    line: u32,
    f: &Formula,
) -> Result<(), AllocError>
    requires { FormulaFits (formula f.now) (length s.now.layout.now) }
    ensures { OnOk result (string_bytes text.new ≡ string_bytes text.old ++ function_text s.now.layout.now [] (looped (page s.now) 0 line (formula f.now)
        (calls (function_name titles.now.name.now (goes_round titles.now.part.now))))) }
{
    let inside = inner(s.alloc, "")?;
    let outer = Sheet {
        reads: &[],
        indent: "",
        ..*s
    };
    let deeper = Sheet {
        indent: &inside,
        ..outer
    };
    push_opening(&outer, text, &[])?;
    push_code(&deeper, text, &UNUSED)?;
    push_calls(&deeper, text, titles, line, f)?;
    push_closing(&outer, text)
}

/// Adds the functions of a part with this body.
pub(crate) fn push_body(
    s: &Sheet<'_>,
    text: &mut String,
    titles: &Titles<'_>,
    body: &Stmt,
) -> Result<(), AllocError>
    requires fits { StatementFits (length s.now.layout.now) (statement body.now) }
    requires room { count_of (statement body.now) < 2 ^ 64 }
    ensures { OnOk result (string_bytes text.new ≡ string_bytes text.old ++ body_text titles.now.name.now titles.now.part.now (page s.now) (statement body.now)) }
{
    match body {
        Stmt::While(line, f, inside) if is_always(f) => {
            push_round(s, text, titles, *line, f, inside)
        }
        _ => push_run(s, text, titles, body),
    }
}
