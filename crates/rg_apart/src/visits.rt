//! Steps that may access a word, with what the lines of a derivation say where their parts stand at them.

ghost use Rattle.std.specs.Prelude.{◌≡◌, ◌++◌, map, option_map, OnOk, IfOk};
ghost use Rattle.std.specs.List.{filter};
ghost use Rattle.rg_tree.specs.View.{formula};
ghost use Rattle.rg_tree.specs.Lines.{line_tree};
ghost use Rattle.rg_tree.specs.ProgramTrees.{program as program_tree};
ghost use Rattle.rg_c_plan.specs.Where.{step_where};
ghost use Rattle.rg_c_plan.specs.View.{step};
ghost use Rattle.rg_apart.specs.Lifted.{lifted_formula};
ghost use Rattle.rg_apart.specs.Conditions.{is_line_of, stepping, visit_of, visits_by, visits};
ghost use Rattle.rg_apart.specs.Inner.View.{visit};

use crate::lift::lifted_formula;
use rg_c_plan::mention::writes;
use rg_c_plan::sites::step_where;
use rg_c_plan::step::Step;
use rg_tree::copy::copy_formula;
use rg_tree::line::{DerivationLine, Rule};
use rg_tree::numbered::{Numbered, StatementKind};
use rg_tree::program::Program;
use rg_tree::tree::Formula;
use std::alloc::{AllocError, Global};

/// A step of a part that may access a word.
#[derive(Drop)]
pub(crate) struct Visit<'a> {
    /// The part's number, from 1.
    pub part: usize,
    /// What a line says where the part stands at the step.
    pub pre: &'a Formula,
    /// Where the step accesses the word, over the program's words.
    pub site: Formula,
    pub writes: bool,
}

/// The statements of a program that are steps, in the order of their numbers.
pub(crate) fn stepping(alloc: Global, program: &Program) -> Result<Vec<Numbered>, AllocError>
    ensures { IfOk result (λ list. list.items ≡ stepping (program_tree program.now)) }
{
    let all = program.numbered(alloc)?;
    let mut list = Vec::new(alloc);
    for n in &all {
        if !matches!(n.kind, StatementKind::Seq) {
            list.push(*n)?;
        }
    }
    Ok(list)
}

/// Whether a line is of the statement with this number, and doesn't follow from another one by consequence.
fn is_line_of(number: usize, line: &DerivationLine) -> bool
    ensures { result ≡ is_line_of number (line_tree line.now) }
{
    line.number == number as u64 && !matches!(line.rule, Rule::Conseq)
}

/// Where a step accesses a word, over the program's words; nowhere where it never does.
fn site_of(
    alloc: Global,
    old: &[usize],
    word: usize,
    s: &Step<'_>,
) -> Result<Option<Formula>, AllocError>
    ensures { IfOk result (λ o. option_map formula o ≡ option_map (lifted_formula old.now) (step_where word (step s.now).guard (step s.now).act)) }
{
    match step_where(alloc, word, s.guard, s.act)? {
        Some(f) => Ok(Some(lifted_formula(alloc, old, &f)?)),
        None => Ok(None),
    }
}

/// Adds the visits of a step of this statement: one for each line that is of it.
fn push_visits<'a>(
    alloc: Global,
    lines: &'a [DerivationLine],
    n: Numbered,
    site: &Formula,
    writes: bool,
    list: &mut Vec<Visit<'a>>,
) -> Result<(), AllocError>
    ensures { OnOk result (map visit list.new.items
        ≡ map visit list.old.items
        ++ map (visit_of n.part (formula site.now) writes) (filter (is_line_of n.number) (map line_tree lines.now))) }
{
    for line in lines {
        if is_line_of(n.number, line) {
            list.push(Visit {
                part: n.part,
                pre: &line.spec.pre,
                site: copy_formula(alloc, site)?,
                writes,
            })?;
        }
    }
    Ok(())
}

/// Adds the visits of a step, where it accesses the word at all.
fn push_site<'a>(
    alloc: Global,
    lines: &'a [DerivationLine],
    n: Numbered,
    site: Option<Formula>,
    writes: bool,
    list: &mut Vec<Visit<'a>>,
) -> Result<(), AllocError>
    ensures { OnOk result (map visit list.new.items ≡ map visit list.old.items ++ visits_by (map line_tree lines.now) n (option_map formula site) writes) }
{
    match site {
        Some(site) => push_visits(alloc, lines, n, &site, writes, list),
        None => Ok(()),
    }
}

/// The visits of steps, which are those of these statements.
pub(crate) fn visits<'a>(
    alloc: Global,
    old: &[usize],
    word: usize,
    lines: &'a [DerivationLine],
    steps: &[Step<'_>],
    numbers: &[Numbered],
) -> Result<Vec<Visit<'a>>, AllocError>
    ensures { IfOk result (λ list. map visit list.items ≡ visits old.now word (map line_tree lines.now) (map step steps.now) numbers.now) }
{
    let mut list = Vec::new(alloc);
    for i in 0..steps.len() {
        if let Some(n) = numbers.get(i) {
            let s = &steps[i];
            let site = site_of(alloc, old, word, s)?;
            push_site(alloc, lines, *n, site, writes(word, s.act), &mut list)?;
        }
    }
    Ok(list)
}
