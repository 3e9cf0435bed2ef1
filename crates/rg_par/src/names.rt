//! The printed names of the conditions of the parallel rule.

ghost use Rattle.std.specs.Prelude.{◌≡◌, ◌++◌, ◌≤◌, ◌==◌, if◌then◌else◌, [], ◌∷◌, map, length, codes, string_bytes, OnOk, OnErr, IfOk};
ghost use Rattle.rg_words.specs.declared.limits.TheConstants.{MOST_PARTS};
ghost use Rattle.rg_tree.specs.ProgramView.{specification, part};
ghost use Rattle.rg_par.specs.Parallel.{parallel_conditions};
ghost use Rattle.rg_par.specs.Names.{of_part, of_two, other_names, cross_names, parallel_names};

use rg_tree::part::Part;
use rg_tree::program::Program;
use std::alloc::{AllocError, Global};

/// A name that begins so, and ends with the part's name, for each part.
fn add_each(
    alloc: Global,
    all: &mut Vec<String>,
    start: &str,
    parts: &[Part],
) -> Result<(), AllocError>
    ensures { OnOk result (map string_bytes all.new.items ≡ map string_bytes all.old.items ++ map (of_part start.now) (map part parts.now)) }
{
    for part in parts {
        let mut text = String::from_str(alloc, start)?;
        text.push_str(part.name.as_str())?;
        all.push(text)?;
    }
    Ok(())
}

/// That the guarantee of part `j` gives the rely of part `i`, but for the same part.
fn add_other(
    alloc: Global,
    all: &mut Vec<String>,
    i: usize,
    own: &Part,
    j: usize,
    other: &Part,
) -> Result<(), AllocError>
    ensures { OnOk result (map string_bytes all.new.items
        ≡ map string_bytes all.old.items ++ (if i == j then [] else of_two (part other.now) (part own.now) ∷ [])) }
{
    if i != j {
        let mut text = String::from_str(alloc, "all guar ")?;
        text.push_str(other.name.as_str())?;
        text.push_str(" rely ")?;
        text.push_str(own.name.as_str())?;
        all.push(text)?;
    }
    Ok(())
}

/// The names for the rely of part `i` and the guarantees of all others, which are numbered from 1.
fn add_others(
    alloc: Global,
    all: &mut Vec<String>,
    i: usize,
    own: &Part,
    parts: &[Part],
) -> Result<(), AllocError>
    requires most { length parts.now ≤ MOST_PARTS }
    ensures { OnOk result (map string_bytes all.new.items ≡ map string_bytes all.old.items ++ other_names i (part own.now) 1 (map part parts.now)) }
{
    for (j, other) in parts.iter().enumerate() {
        add_other(alloc, all, i, own, j + 1, other)?;
    }
    Ok(())
}

/// For each part in order, the names for its rely.
fn add_crosses(alloc: Global, all: &mut Vec<String>, parts: &[Part]) -> Result<(), AllocError>
    requires most { length parts.now ≤ MOST_PARTS }
    ensures { OnOk result (map string_bytes all.new.items ≡ map string_bytes all.old.items ++ cross_names (map part parts.now) 1 (map part parts.now)) }
{
    for (i, part) in parts.iter().enumerate() {
        add_others(alloc, all, i + 1, part, parts)?;
    }
    Ok(())
}

/// This text as a name.
fn add_text(alloc: Global, all: &mut Vec<String>, text: &str) -> Result<(), AllocError>
    ensures { OnOk result (map string_bytes all.new.items ≡ map string_bytes all.old.items ++ text.now ∷ []) }
{
    let name = String::from_str(alloc, text)?;
    all.push(name)?;
    Ok(())
}

/// Adds the names in their order. Where memory is refused, some may have been added.
fn add_all(alloc: Global, all: &mut Vec<String>, program: &Program) -> Result<(), AllocError>
    // Exactly these, after what was there.
    ensures { OnOk result (map string_bytes all.new.items ≡ map string_bytes all.old.items ++ parallel_names (map part program.now.parts.items)) }
{
    let parts = program.parts.as_slice();
    add_each(alloc, all, "all pre ", parts)?;
    add_each(alloc, all, "all rely ", parts)?;
    add_crosses(alloc, all, parts)?;
    add_each(alloc, all, "all guar ", parts)?;
    add_text(alloc, all, "all post")?;
    Ok(())
}

/// The name of each condition, in the order of `conditions`: `all pre P`, `all rely P`, `all guar Q rely P`, `all guar P` and
/// `all post`, where P and Q are names of parts.
///
/// Refused only where memory was refused.
pub fn names(alloc: Global, program: &Program) -> Result<Vec<String>, AllocError>
    ensures exact { IfOk result (λ all. map string_bytes all.items ≡ parallel_names (map part program.now.parts.items)) }
    // One for each condition.
    ensures count { IfOk result (λ all. length all.items ≡ length (parallel_conditions (specification program.now.spec) (map part program.now.parts.items))) }
{
    let mut all = Vec::new(alloc);
    add_all(alloc, &mut all, program)?;
    Ok(all)
}

/// Adds the name of each condition, as `names` has them.
///
/// Refused only where memory was refused, and then nothing is added.
pub fn add_names(alloc: Global, all: &mut Vec<String>, program: &Program) -> Result<(), AllocError>
    // Exactly these, after what was there.
    ensures list { OnOk result (map string_bytes all.new.items ≡ map string_bytes all.old.items ++ parallel_names (map part program.now.parts.items)) }
    ensures unchanged { OnErr result (all.new.items ≡ all.old.items) }
{
    let mut own = names(alloc, program)?;
    all.append(&mut own)
}
