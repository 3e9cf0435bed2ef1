//! Statements of the program.

ghost use Rattle.std.specs.Prelude.{◌≡◌, ◌∷◌, ◌++◌, ◌<◌, ◌+◌, ◌^◌, [], codes, decimal, length, map, None, Some, string_bytes, IfOk, IfSome, OnOk};
ghost use Rattle.rg_tree.specs.Fits.{FormulaFits};
ghost use Rattle.rg_tree.specs.View.{formula};
ghost use Rattle.rg_tree.specs.ConditionTrees.{assignment};
ghost use Rattle.rg_tree.specs.ProgramView.{statement, items};
ghost use Rattle.rg_code.specs.Code.{count_of, count_of_items};
ghost use Rattle.rg_c.specs.Bodies.{mark_of, sourced, await_source, skipped, asked, idle_line, in_c, items_in_c};
ghost use Rattle.std.specs.Option.{option_map_or};
ghost use Rattle.rg_c.specs.Steps.{step_of, waiting};
ghost use Rattle.rg_c.specs.Source.{assignment_source};
ghost use Rattle.rg_c.specs.CStatements.{◌⨾◌, hook};
ghost use Rattle.rg_c.specs.Fitting.{AssignmentsFit, StatementFits, ItemsFit};
ghost use Rattle.rg_c.specs.View.{page, on, if_opened, loop_opened};
ghost use Rattle.rg_c_report.specs.Lines.{line_shown};

use crate::print::{Piece, inner, push_closing, push_code, push_digits, push_opening};
use crate::questions::{loaded_reads, push_before, push_stops, question};
use crate::source::{push_assignment, push_assignments, push_formula};
use crate::steps::{marked, push_note, push_step};
use crate::tree::{Code, Line, Sheet};
use Code::{Single, Then};
use rg_c_plan::way::way_of;
use rg_c_report::lines::line_shown;
use rg_c_values::translate::test_in_c;
use rg_tree::condition::Assign;
use rg_tree::statement::{Items, Stmt};
use rg_tree::tree::Formula;
use std::alloc::AllocError;
use std::slice::from_ref;

/// The mark of the step at this place; an empty text where steps aren't marked.
#[tactic(auto, unfolding(crate::specs::Bodies::mark_of))]
fn mark_of(s: &Sheet<'_>, place: usize) -> Result<String, AllocError>
    ensures { IfOk result (λ text. string_bytes text ≡ mark_of (page s.now) place) }
{
    let mut text = String::new(s.alloc);
    if s.is_traced {
        text.push_str("RGC_AT(")?;
        push_digits(&mut text, s.part as u64)?;
        text.push_str(", ")?;
        push_digits(&mut text, place as u64)?;
        text.push_str(")")?;
    }
    Ok(text)
}

/// Where a statement stands: its first step's place in the listing of the code, from 0, and its line, from 1.
#[derive(Clone, Copy)]
pub(crate) struct At {
    pub(crate) place: usize,
    pub(crate) line: u32,
}

/// The beginning of a comment for a line of the program.
fn row(s: &Sheet<'_>, at: At) -> Result<String, AllocError>
    ensures { IfOk result (λ text. string_bytes text ≡ decimal (line_shown s.now.lines.now at.line) ++ codes ": ") }
{
    let mut text = String::new(s.alloc);
    push_digits(&mut text, line_shown(s.lines, at.line))?;
    text.push_str(": ")?;
    Ok(text)
}

/// Adds a `skip`, and the macro that stands for it; nothing for one that has no line.
fn push_skip(s: &Sheet<'_>, text: &mut String, at: At, what: &str) -> Result<(), AllocError>
    ensures { OnOk result (string_bytes text.new ≡ string_bytes text.old ++ on s.now (skipped (page s.now) at.place at.line (hook what.now))) }
{
    let mark = mark_of(s, at.place)?;
    if line_shown(s.lines, at.line) == 0 {
        return push_code(s, text, &marked(s, &mark));
    }
    let mut comment = row(s, at)?;
    comment.push_str("skip")?;
    let done = Single(Line::Hook(what));
    let rest = Then(&marked(s, &mark), &done);
    push_code(s, text, &Then(&Single(Line::Remark(&comment)), &rest))
}

/// What stands for a `skip` on this line.
fn skip_hook(s: &Sheet<'_>, line: u32) -> Result<String, AllocError>
    ensures { IfOk result (λ text. string_bytes text ≡ codes "RGC_SKIP(" ++ (decimal (line_shown s.now.lines.now line) ++ codes ")")) }
{
    let mut text = String::from_str(s.alloc, "RGC_SKIP(")?;
    push_digits(&mut text, line_shown(s.lines, line))?;
    text.push_str(")")?;
    Ok(text)
}

/// Adds an assignment.
fn push_assign(s: &Sheet<'_>, text: &mut String, at: At, a: &Assign) -> Result<(), AllocError>
    requires { AssignmentsFit (length s.now.layout.now) (assignment a.now ∷ []) }
    ensures { OnOk result (string_bytes text.new
        ≡ string_bytes text.old
        ++ on s.now (sourced (page s.now) at.line (assignment_source s.now.layout.now (assignment a.now))
        ⨾ step_of s.now.layout.now s.now.kinds.now (mark_of (page s.now) at.place) None
        (assignment a.now ∷ []))) }
{
    let mark = mark_of(s, at.place)?;
    let mut comment = row(s, at)?;
    push_assignment(&mut comment, s.layout, a)?;
    push_code(s, text, &Single(Line::Remark(&comment)))?;
    push_step(s, text, &mark, None, from_ref(a))
}

/// Adds an await.
fn push_await(
    s: &Sheet<'_>,
    text: &mut String,
    at: At,
    f: &Formula,
    act: &[Assign],
) -> Result<(), AllocError>
    requires guard { FormulaFits (formula f.now) (length s.now.layout.now) }
    requires values { AssignmentsFit (length s.now.layout.now) (map assignment act.now) }
    ensures { OnOk result (string_bytes text.new
        ≡ string_bytes text.old
        ++ on s.now (sourced (page s.now) at.line (await_source s.now.layout.now (formula f.now) (map assignment act.now))
        ⨾ step_of s.now.layout.now s.now.kinds.now (mark_of (page s.now) at.place) (Some (formula f.now))
        (map assignment act.now))) }
{
    let mark = mark_of(s, at.place)?;
    let mut comment = row(s, at)?;
    comment.push_str("await ")?;
    push_formula(&mut comment, s.layout, f)?;
    comment.push_str(" do ")?;
    push_assignments(&mut comment, s.layout, act)?;
    comment.push_str(" end")?;
    push_code(s, text, &Single(Line::Remark(&comment)))?;
    push_step(s, text, &mark, Some(f), act)
}

/// Adds the line of an `if` or a `while`, and of its section.
fn push_asked(
    s: &Sheet<'_>,
    text: &mut String,
    at: At,
    what: &str,
    f: &Formula,
) -> Result<(), AllocError>
    requires { FormulaFits (formula f.now) (length s.now.layout.now) }
    ensures { OnOk result (string_bytes text.new ≡ string_bytes text.old ++ on s.now (asked (page s.now) at.line what.now (formula f.now))) }
{
    let mut comment = row(s, at)?;
    comment.push_str(what)?;
    push_formula(&mut comment, s.layout, f)?;
    push_code(s, text, &Single(Line::Remark(&comment)))?;
    push_note(s, text, Some(f), &[])
}

/// Adds an `if` up to its first block.
fn push_if(s: &Sheet<'_>, text: &mut String, at: At, f: &Formula) -> Result<(), AllocError>
    requires { FormulaFits (formula f.now) (length s.now.layout.now) }
    ensures { OnOk result (string_bytes text.new ≡ string_bytes text.old ++ if_opened s.now at.place at.line (formula f.now)) }
{
    let mark = mark_of(s, at.place)?;
    let way = way_of(s.kinds, Some(f), &[]);
    let t = test_in_c(s.alloc, s.layout, f)?;
    let reads = loaded_reads(s.alloc, s.layout, s.kinds, way, &t)?;
    let reading = Sheet {
        reads: &reads,
        ..*s
    };
    push_asked(s, text, at, "if ", f)?;
    push_before(&reading, text, &marked(s, &mark), at.place, way, &t)?;
    let asked = Piece::Question(question(at.place, way, &t));
    push_opening(
        &reading,
        text,
        &[Piece::Text("if ("), asked, Piece::Text(") ")],
    )
}

/// Adds a loop up to what is done in it.
pub(crate) fn push_loop(
    s: &Sheet<'_>,
    text: &mut String,
    at: At,
    f: &Formula,
) -> Result<(), AllocError>
    requires { FormulaFits (formula f.now) (length s.now.layout.now) }
    ensures { OnOk result (string_bytes text.new ≡ string_bytes text.old ++ loop_opened s.now at.place at.line (formula f.now)) }
{
    let mark = mark_of(s, at.place)?;
    let way = way_of(s.kinds, Some(f), &[]);
    let t = test_in_c(s.alloc, s.layout, f)?;
    let reads = loaded_reads(s.alloc, s.layout, s.kinds, way, &t)?;
    let inside = inner(s.alloc, s.indent)?;
    let reading = Sheet {
        reads: &reads,
        indent: &inside,
        ..*s
    };
    push_asked(s, text, at, "while ", f)?;
    push_opening(s, text, &[Piece::Text("for (;;) ")])?;
    push_before(&reading, text, &marked(&reading, &mark), at.place, way, &t)?;
    push_stops(&reading, text, question(at.place, way, &t))
}

/// The line of a `skip`, if the statement is one.
fn idle_line(s: &Stmt) -> Option<u32>
    ensures exact { result ≡ idle_line (statement s.now) }
    ensures one { IfSome result (λ line. count_of (statement s.now) ≡ 1) }
{
    match s {
        Stmt::Skip(line) => Some(*line),
        _ => None,
    }
}

/// Adds a statement whose first step stands at this place, and gives the place after it.
#[cycle(statements)]
pub(crate) fn push_statement(
    s: &Sheet<'_>,
    text: &mut String,
    place: usize,
    stmt: &Stmt,
) -> Result<usize, AllocError>
    requires fits { StatementFits (length s.now.layout.now) (statement stmt.now) }
    requires room { place + count_of (statement stmt.now) < 2 ^ 64 }
    ensures text { OnOk result (string_bytes text.new ≡ string_bytes text.old ++ on s.now (in_c (page s.now) place (statement stmt.now))) }
    ensures place { IfOk result (λ next. next ≡ place + count_of (statement stmt.now)) }
{
    match stmt {
        Stmt::Skip(line) => {
            let hook = skip_hook(s, *line)?;
            push_skip(s, text, At { place, line: *line }, &hook)?;
            Ok(place + 1)
        }
        Stmt::Assign(line, a) => {
            push_assign(s, text, At { place, line: *line }, a)?;
            Ok(place + 1)
        }
        Stmt::Await(line, f, act) => {
            push_await(s, text, At { place, line: *line }, f, act)?;
            Ok(place + 1)
        }
        Stmt::Seq(_, first, rest) => {
            let middle = push_statement(s, text, place, first)?;
            push_items(s, text, middle, rest)
        }
        Stmt::If(line, f, first, second) => {
            let inside = inner(s.alloc, s.indent)?;
            let deeper = Sheet {
                reads: &[],
                indent: &inside,
                ..*s
            };
            push_if(s, text, At { place, line: *line }, f)?;
            let middle = push_statement(&deeper, text, place + 1, first)?;
            push_opening(s, text, &[Piece::Text("} else ")])?;
            let end = push_statement(&deeper, text, middle, second)?;
            push_closing(s, text)?;
            Ok(end)
        }
        Stmt::While(line, f, body) => {
            let inside = inner(s.alloc, s.indent)?;
            let deeper = Sheet {
                indent: &inside,
                ..*s
            };
            push_loop(s, text, At { place, line: *line }, f)?;
            let end = push_repeated(&deeper, text, place + 1, body)?;
            push_closing(s, text)?;
            Ok(end)
        }
    }
}

/// Adds the body of a loop, which is waiting where it is a `skip`, and gives the place after it.
#[cycle(statements)]
fn push_repeated(
    s: &Sheet<'_>,
    text: &mut String,
    place: usize,
    body: &Stmt,
) -> Result<usize, AllocError>
    requires fits { StatementFits (length s.now.layout.now) (statement body.now) }
    requires room { place + count_of (statement body.now) < 2 ^ 64 }
    ensures text { OnOk result (string_bytes text.new
        ≡ string_bytes text.old
        ++ on s.now (option_map_or (λ line. skipped (page s.now) place line waiting) (idle_line (statement body.now))
        (in_c (page s.now) place (statement body.now)))) }
    ensures place { IfOk result (λ next. next ≡ place + count_of (statement body.now)) }
{
    if let Some(line) = idle_line(body) {
        push_skip(s, text, At { place, line }, "RGC_WAIT(w)")?;
        return Ok(place + 1);
    }
    push_statement(s, text, place, body)
}

/// Adds the items of a sequence.
#[cycle(statements)]
fn push_items(
    s: &Sheet<'_>,
    text: &mut String,
    place: usize,
    list: &Items,
) -> Result<usize, AllocError>
    requires fits { ItemsFit (length s.now.layout.now) (items list.now) }
    requires room { place + count_of_items (items list.now) < 2 ^ 64 }
    ensures text { OnOk result (string_bytes text.new ≡ string_bytes text.old ++ on s.now (items_in_c (page s.now) place (items list.now))) }
    ensures place { IfOk result (λ next. next ≡ place + count_of_items (items list.now)) }
{
    match list {
        Items::One(stmt) => push_statement(s, text, place, stmt),
        Items::More(stmt, rest) => {
            let next = push_statement(s, text, place, stmt)?;
            push_items(s, text, next, rest)
        }
    }
}
