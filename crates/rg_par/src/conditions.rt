//! The conditions of the parallel rule.

ghost use Rattle.std.specs.Prelude.{◌≡◌, ◌++◌, ◌≤◌, ◌==◌, if◌then◌else◌, [], ◌∷◌, map, length, OnOk, OnErr, IfOk};
ghost use Rattle.rg_words.specs.Layout.{widths_of};
ghost use Rattle.rg_words.specs.declared.limits.TheConstants.{MOST_PARTS};
ghost use Rattle.rg_tree.specs.View.{formula};
ghost use Rattle.rg_tree.specs.ProgramView.{specification, part};
ghost use Rattle.rg_tree.specs.ProgramTrees.{program as program_tree};
ghost use Rattle.rg_tree.specs.Programs.{IsSatisfied, PartsSatisfy};
ghost use Rattle.rg_tree.specs.Conditions.{condition_tree};
ghost use Rattle.rg_tree.specs.Typing.{IsTyped};
ghost use Rattle.rg_tree.specs.TypedPrograms.{IsTypedSpecification, AreTypedParts};
ghost use Rattle.rg_tree.specs.RuleConditions.{as_condition, AllConditionsHold, allows as allows_of, reaches as reaches_of};
ghost use Rattle.rg_par.specs.Parallel.{pre_conditions, rely_conditions, guar_conditions, other_conditions, cross_conditions, parallel_conditions};

use rg_tree::condition::Condition;
use rg_tree::copy::copy_formula;
use rg_tree::part::Part;
use rg_tree::program::Program;
use rg_tree::rule_conditions::{allows, implies, reaches};
use rg_tree::tree::Formula;
use rg_words::Layout;
use std::alloc::{AllocError, Global};

/// The pre gives each part's pre.
#[tactic(auto, using(crate::proofs::Typed::part_typed))]
fn add_pres(
    alloc: Global,
    all: &mut Vec<Condition>,
    layout: &Layout,
    pre: &Formula,
    parts: &[Part],
) -> Result<(), AllocError>
    requires pre { IsTyped (widths_of layout.now) (formula pre.now) }
    requires parts { AreTypedParts layout.now (map part parts.now) }
    ensures { OnOk result (map condition_tree all.new.items
        ≡ map condition_tree all.old.items
        ++ map (as_condition layout.now) (pre_conditions (formula pre.now) (map part parts.now))) }
{
    for part in parts {
        all.push(implies(alloc, layout.copy()?, pre, &part.spec.pre)?)?;
    }
    Ok(())
}

/// The rely gives each part's rely.
fn add_relies(
    alloc: Global,
    all: &mut Vec<Condition>,
    layout: &Layout,
    rely: &Formula,
    parts: &[Part],
) -> Result<(), AllocError>
    requires rely { IsTyped (widths_of layout.now) (formula rely.now) }
    requires parts { AreTypedParts layout.now (map part parts.now) }
    ensures { OnOk result (map condition_tree all.new.items
        ≡ map condition_tree all.old.items
        ++ map (as_condition layout.now) (rely_conditions (formula rely.now) (map part parts.now))) }
{
    for part in parts {
        all.push(allows(alloc, layout.copy()?, rely, &part.spec.rely)?)?;
    }
    Ok(())
}

/// Each part's guarantee gives the guarantee.
fn add_guars(
    alloc: Global,
    all: &mut Vec<Condition>,
    layout: &Layout,
    guar: &Formula,
    parts: &[Part],
) -> Result<(), AllocError>
    requires guar { IsTyped (widths_of layout.now) (formula guar.now) }
    requires parts { AreTypedParts layout.now (map part parts.now) }
    ensures { OnOk result (map condition_tree all.new.items
        ≡ map condition_tree all.old.items
        ++ map (as_condition layout.now) (guar_conditions (formula guar.now) (map part parts.now))) }
{
    for part in parts {
        all.push(allows(alloc, layout.copy()?, &part.spec.guar, guar)?)?;
    }
    Ok(())
}

/// The guarantee of a part gives this rely, but where the rely is the part's own.
fn add_other(
    alloc: Global,
    all: &mut Vec<Condition>,
    layout: &Layout,
    rely: &Formula,
    part: &Part,
    is_own: bool,
) -> Result<(), AllocError>
    requires rely { IsTyped (widths_of layout.now) (formula rely.now) }
    requires part { IsTypedSpecification layout.now (specification part.now.spec) }
    ensures { OnOk result (map condition_tree all.new.items
        ≡ map condition_tree all.old.items
        ++ map (as_condition layout.now)
        (if is_own then [] else allows_of (formula part.now.spec.guar) (formula rely.now) ∷ [])) }
{
    if !is_own {
        all.push(allows(alloc, layout.copy()?, &part.spec.guar, rely)?)?;
    }
    Ok(())
}

/// The guarantees of all parts but part `i`, numbered from 1, give this rely.
fn add_others(
    alloc: Global,
    all: &mut Vec<Condition>,
    layout: &Layout,
    i: usize,
    rely: &Formula,
    parts: &[Part],
) -> Result<(), AllocError>
    requires rely { IsTyped (widths_of layout.now) (formula rely.now) }
    requires parts { AreTypedParts layout.now (map part parts.now) }
    requires most { length parts.now ≤ MOST_PARTS }
    ensures { OnOk result (map condition_tree all.new.items
        ≡ map condition_tree all.old.items
        ++ map (as_condition layout.now) (other_conditions i (formula rely.now) 1 (map part parts.now))) }
{
    for (j, part) in parts.iter().enumerate() {
        add_other(alloc, all, layout, rely, part, i == j + 1)?;
    }
    Ok(())
}

/// For each part in order, the guarantees of all others give its rely.
fn add_crosses(
    alloc: Global,
    all: &mut Vec<Condition>,
    layout: &Layout,
    parts: &[Part],
) -> Result<(), AllocError>
    requires parts { AreTypedParts layout.now (map part parts.now) }
    requires most { length parts.now ≤ MOST_PARTS }
    ensures { OnOk result (map condition_tree all.new.items
        ≡ map condition_tree all.old.items
        ++ map (as_condition layout.now) (cross_conditions (map part parts.now) 1 (map part parts.now))) }
{
    for (i, part) in parts.iter().enumerate() {
        add_others(alloc, all, layout, i + 1, &part.spec.rely, parts)?;
    }
    Ok(())
}

/// Copies of the parts' posts.
fn posts(alloc: Global, parts: &[Part]) -> Result<Vec<Formula>, AllocError>
    ensures { IfOk result (λ fs. map formula fs.items ≡ map (λ p. p.spec.post) (map part parts.now)) }
{
    let mut all = Vec::new(alloc);
    for part in parts {
        all.push(copy_formula(alloc, &part.spec.post)?)?;
    }
    Ok(all)
}

/// The posts of the parts together give the post.
#[tactic(auto, using(crate::proofs::Typed::posts_typed))]
fn add_post(
    alloc: Global,
    all: &mut Vec<Condition>,
    layout: &Layout,
    post: &Formula,
    parts: &[Part],
) -> Result<(), AllocError>
    requires post { IsTyped (widths_of layout.now) (formula post.now) }
    requires parts { AreTypedParts layout.now (map part parts.now) }
    ensures { OnOk result (map condition_tree all.new.items
        ≡ map condition_tree all.old.items
        ++ map (as_condition layout.now)
        (reaches_of (map (λ p. p.spec.post) (map part parts.now)) [] (formula post.now) ∷ [])) }
{
    let posts = posts(alloc, parts)?;
    let post = copy_formula(alloc, post)?;
    all.push(reaches(layout.copy()?, posts, Vec::new(alloc), post))?;
    Ok(())
}

/// Adds the conditions in their order. Where memory is refused, some may have been added.
fn add_all(alloc: Global, all: &mut Vec<Condition>, program: &Program) -> Result<(), AllocError>
    // Exactly the rule's list, after what was there.
    ensures { OnOk result (map condition_tree all.new.items
        ≡ map condition_tree all.old.items
        ++ map (as_condition program.now.layout)
        (parallel_conditions (specification program.now.spec) (map part program.now.parts.items))) }
{
    let layout = &program.layout;
    let parts = program.parts.as_slice();
    add_pres(alloc, all, layout, &program.spec.pre, parts)?;
    add_relies(alloc, all, layout, &program.spec.rely, parts)?;
    add_crosses(alloc, all, layout, parts)?;
    add_guars(alloc, all, layout, &program.spec.guar, parts)?;
    add_post(alloc, all, layout, &program.spec.post, parts)?;
    Ok(())
}

/// The conditions of the parallel rule for parts 1 to n, in this order: for each part, the pre gives its pre; for each part,
/// the rely gives its rely; for each part and then each other one, the other's guarantee gives its rely; for each part, its
/// guarantee gives the guarantee; last, the posts together give the post. Relies and guarantees are read with "or no change".
///
/// Refused only where memory was refused.
pub fn conditions(alloc: Global, program: &Program) -> Result<Vec<Condition>, AllocError>
    // Exactly the rule's list.
    ensures list { IfOk result (λ all. map condition_tree all.items
        ≡ map (as_condition program.now.layout)
        (parallel_conditions (specification program.now.spec) (map part program.now.parts.items))) }
    // Where they are true and each part satisfies its own specification, the program satisfies its specification.
    ensures sound { IfOk result (λ all. AllConditionsHold (map condition_tree all.items) →
        PartsSatisfy (program_tree program.now) →
        IsSatisfied (program_tree program.now)) }
{
    let mut all = Vec::new(alloc);
    add_all(alloc, &mut all, program)?;
    Ok(all)
}

/// Adds the conditions of the parallel rule, as `conditions` has them.
///
/// Refused only where memory was refused, and then nothing is added.
pub fn add_conditions(
    alloc: Global,
    all: &mut Vec<Condition>,
    program: &Program,
) -> Result<(), AllocError>
    // Exactly the rule's list, after what was there.
    ensures list { OnOk result (map condition_tree all.new.items
        ≡ map condition_tree all.old.items
        ++ map (as_condition program.now.layout)
        (parallel_conditions (specification program.now.spec) (map part program.now.parts.items))) }
    ensures unchanged { OnErr result (all.new.items ≡ all.old.items) }
{
    let mut own = conditions(alloc, program)?;
    all.append(&mut own)
}
