//! The conditions on which it rests that the assertions keep the parts apart at a word.

ghost use Rattle.std.specs.Prelude.{◌≡◌, ◌++◌, [], ◌∷◌, map, OnOk, IfOk};
ghost use Rattle.std.specs.List.{flat_map};
ghost use Rattle.rg_words.specs.Layout.{widths_of};
ghost use Rattle.rg_tree.specs.View.{formula};
ghost use Rattle.rg_tree.specs.Lines.{line_tree, AreTypedLines};
ghost use Rattle.rg_tree.specs.ProgramTrees.{program as program_tree};
ghost use Rattle.rg_tree.specs.Conditions.{condition_tree};
ghost use Rattle.rg_tree.specs.RuleConditions.{as_condition};
ghost use Rattle.rg_erase.specs.Erased.{staying};
ghost use Rattle.rg_apart.specs.Lifted.{old_places};
ghost use Rattle.rg_apart.specs.Conditions.{kept_apart, apart_among, apart_asked};
ghost use Rattle.rg_apart.specs.Inner.View.{visit, IsTypedVisit, AreTypedVisits};

use crate::lift::old_places;
use crate::visits::{Visit, stepping, visits};
use rg_c_plan::step::steps_of_parts;
use rg_tree::condition::Condition;
use rg_tree::copy::copy_formula;
use rg_tree::line::DerivationLine;
use rg_tree::program::Program;
use rg_tree::rule_conditions::reaches;
use rg_tree::tree::Formula;
use rg_words::Layout;
use std::alloc::{AllocError, Global};

/// What is so where both visits are made in one state.
fn both(alloc: Global, u: &Visit<'_>, v: &Visit<'_>) -> Result<Vec<Formula>, AllocError>
    ensures { IfOk result (λ given. map formula given.items ≡ (visit u.now).pre ∷ (visit u.now).site ∷ (visit v.now).pre ∷ (visit v.now).site ∷ []) }
{
    let mut given = Vec::new(alloc);
    given.push(copy_formula(alloc, u.pre)?)?;
    given.push(copy_formula(alloc, &u.site)?)?;
    given.push(copy_formula(alloc, v.pre)?)?;
    given.push(copy_formula(alloc, &v.site)?)?;
    Ok(given)
}

/// Adds that two visits are never made in one state, where they are of two parts and one of them writes.
fn add_pair(
    alloc: Global,
    all: &mut Vec<Condition>,
    layout: &Layout,
    u: &Visit<'_>,
    v: &Visit<'_>,
) -> Result<(), AllocError>
    requires first { IsTypedVisit (widths_of layout.now) (visit u.now) }
    requires second { IsTypedVisit (widths_of layout.now) (visit v.now) }
    ensures { OnOk result (map condition_tree all.new.items
        ≡ map condition_tree all.old.items ++ map (as_condition layout.now) (kept_apart (visit u.now) (visit v.now))) }
{
    if u.part != v.part && (u.writes || v.writes) {
        let given = both(alloc, u, v)?;
        all.push(reaches(
            layout.copy()?,
            given,
            Vec::new(alloc),
            Formula::Truth(false),
        ))?;
    }
    Ok(())
}

/// Adds this of a visit and each of these.
fn add_pairs(
    alloc: Global,
    all: &mut Vec<Condition>,
    layout: &Layout,
    u: &Visit<'_>,
    list: &[Visit<'_>],
) -> Result<(), AllocError>
    requires first { IsTypedVisit (widths_of layout.now) (visit u.now) }
    requires list { AreTypedVisits (widths_of layout.now) (map visit list.now) }
    ensures { OnOk result (map condition_tree all.new.items
        ≡ map condition_tree all.old.items
        ++ map (as_condition layout.now) (flat_map (kept_apart (visit u.now)) (map visit list.now))) }
{
    for v in list {
        add_pair(alloc, all, layout, u, v)?;
    }
    Ok(())
}

/// The conditions of visits: of each and each of those after it.
fn among(alloc: Global, layout: &Layout, list: &[Visit<'_>]) -> Result<Vec<Condition>, AllocError>
    requires { AreTypedVisits (widths_of layout.now) (map visit list.now) }
    ensures { IfOk result (λ all. map condition_tree all.items ≡ map (as_condition layout.now) (apart_among (map visit list.now))) }
{
    let mut all = Vec::new(alloc);
    for i in 0..list.len() {
        add_pairs(alloc, &mut all, layout, &list[i], &list[i + 1..])?;
    }
    Ok(all)
}

/// The conditions for a word of what is left of a program where these words are erased: for each two steps of two parts that may access it, of which one may write it,
/// and each two of these lines that speak of them, that the lines' pres and the formulas that say where the steps access the word are never all true.
///
/// An error comes only where memory was refused.
pub fn apart_conditions(
    alloc: Global,
    program: &Program,
    left: &Program,
    erased: &[bool],
    lines: &[DerivationLine],
    word: usize,
) -> Result<Vec<Condition>, AllocError>
    requires lines { AreTypedLines program.now.layout (map line_tree lines.now) }
    requires words { left.now.layout ≡ staying erased.now program.now.layout }
    // Exactly these.
    ensures { IfOk result (λ all. map condition_tree all.items
        ≡ map (as_condition program.now.layout) (apart_asked (program_tree program.now) (program_tree left.now) (old_places erased.now program.now.layout)
        (map line_tree lines.now) word)) }
{
    let old = old_places(alloc, erased, &program.layout)?;
    let numbers = stepping(alloc, program)?;
    let steps = steps_of_parts(alloc, &left.parts)?;
    let list = visits(alloc, &old, word, lines, &steps, &numbers)?;
    among(alloc, &program.layout, &list)
}
