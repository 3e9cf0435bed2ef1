//! Truth of formulas and steps, printed text and copies, with the expected answers written by hand.

use rg_parse::{show, start};
use rg_tree::copy::copy_formula;
use rg_tree::equal::same_formula;
use rg_tree::meaning::{holds, inside};
use rg_tree::print::print;
use rg_tree::tree::Formula;
use rg_tree::typing::typed_trees_fit;
use rg_words::Refusal;
use std::alloc::Global;

/// Formulas to show, the states before and after a step, whether the formula holds over both, and whether the step is inside it.
const STEPS: &[(&str, [&str; 2], bool, bool)] = &[
    // Values are modulo the width.
    ("words x:8 show ((x - 1) = 255)", ["", ""], true, true),
    (
        "words x:64 show ((x + 1) = 0)",
        [WIDEST, WIDEST],
        true,
        true,
    ),
    (
        "words x:8 show ((x shl 8) = 0)",
        ["x = 255", "x = 255"],
        true,
        true,
    ),
    // Comparisons are unsigned.
    (
        "words x:8 y:8 show (x < y)",
        ["x = 255 y = 1", "x = 255 y = 1"],
        false,
        true,
    ),
    // A step that changes nothing is inside.
    (
        "words x:8 y:8 show (x < x')",
        ["x = 1 y = 7", "x = 2 y = 7"],
        true,
        true,
    ),
    (
        "words x:8 y:8 show (x < x')",
        ["x = 2 y = 7", "x = 1 y = 7"],
        false,
        false,
    ),
    (
        "words x:8 y:8 show (x < x')",
        ["x = 1 y = 7", "x = 1 y = 7"],
        false,
        true,
    ),
];

const WIDEST: &str = "x = 18446744073709551615";

/// Whether the formula of a text to show holds over two states, and whether the step between them is inside it.
fn judged(alloc: Global, text: &str, states: [&str; 2]) -> Result<(bool, bool), Refusal> {
    let (layout, tree) = show(alloc, text.as_bytes())?;
    let first = start(alloc, &layout, states[0].as_bytes())?;
    let second = start(alloc, &layout, states[1].as_bytes())?;
    typed_trees_fit();
    layout.facts();
    Ok((
        holds(&tree, &first, &second),
        inside(&tree, &first, &second),
    ))
}

#[test]
fn formulas_hold_and_steps_are_inside_them(rt: HostRuntime) {
    for (text, states, is_so, is_inside) in STEPS {
        assert!(rt; judged(rt.alloc(), text, *states) == Ok((*is_so, *is_inside)));
    }
}

/// Whether the formula of a text to show is printed so.
fn is_printed(alloc: Global, text: &str, expected: &str) -> Result<bool, Refusal> {
    let (layout, tree) = show(alloc, text.as_bytes())?;
    let printed = print(alloc, &layout, &tree)?;
    Ok(printed.as_str() == expected)
}

/// Texts to show, with the formulas as they are printed.
const PRINTED: &[(&str, &str)] = &[
    (
        "words x:8 y:8 show (((if(x>=y)then(y shr 012)else inv x')!=(x bxor 107))implies false)",
        "(((if (x >= y) then (y shr 12) else inv x') != (x bxor 107)) implies false)",
    ),
    (
        "words x:8 y:8 show ((x' - 1) < inv (2 + y))",
        "((x' - 1) < inv (2 + y))",
    ),
    (
        "words x:8 y:8 z:8 show ((if (x = 1) then y' else 2) = z)",
        "((if (x = 1) then y' else 2) = z)",
    ),
    (
        "words x:8 fixed y:16 show (3 = (if (y' = 300) then x else 1))",
        "(3 = (if (y' = 300) then x else 1))",
    ),
];

#[test]
fn formulas_are_printed(rt: HostRuntime) {
    for (text, expected) in PRINTED {
        assert!(rt; matches!(is_printed(rt.alloc(), text, expected), Ok(true)));
    }
}

/// The formula of a text to show.
fn shown(alloc: Global, text: &str) -> Result<Formula, Refusal> {
    let (_layout, tree) = show(alloc, text.as_bytes())?;
    Ok(tree)
}

/// Whether a copy of the first text's formula is the other's.
fn copy_is(alloc: Global, text: &str, other: &str) -> Result<bool, Refusal> {
    let copy = copy_formula(alloc, &shown(alloc, text)?)?;
    let other = shown(alloc, other)?;
    Ok(same_formula(&copy, &other))
}

#[test]
fn copies_are_the_same(rt: HostRuntime) {
    let text = "words x:2 show (x' < (x + 1))";
    assert!(rt; matches!(copy_is(rt.alloc(), text, text), Ok(true)));
    assert!(rt;
        matches!(
            copy_is(rt.alloc(), text, "words x:2 show (x = 1)"),
            Ok(false)
        )
    );
}
