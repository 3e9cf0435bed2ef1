//! Moves that are read, with the expected answers written by hand. Starts, and moves that are refused, are rows of `rows/runs.json`.

use rg_parse::{moves, show};
use rg_tree::moves::WordValue;
use rg_words::Refusal;
use std::alloc::Global;

/// What moves set, each with the number of its first step.
type Settings<'a> = &'a [(u64, &'a [WordValue])];

/// Whether these are the moves of a text over the words x, of 1 bit, and y, of 8.
fn are_moves(alloc: Global, text: &str, expected: Settings) -> Result<bool, Refusal> {
    let (layout, _formula) = show(alloc, b"words x:1 y:8 show true")?;
    let list = moves(alloc, &layout, text.as_bytes())?;
    Ok(
        list.len() == expected.len()
            && list.iter().zip(expected).all(|(one, (at, values))| one.at == *at
                && one.values.as_slice() == *values),
    )
}

/// What the moves of the text below set.
const SET: Settings<'static> = &[
    (
        7,
        &[
            WordValue { word: 1, value: 3 },
            WordValue { word: 0, value: 1 },
        ],
    ),
    (0, &[]),
    (4_294_967_295, &[WordValue { word: 0, value: 0 }]),
];

#[test]
fn moves_are_read_in_order(rt: HostRuntime) {
    let text = "at 7 y = 3 x = 1 at 0 at 4294967295 x = 0";
    assert!(rt; matches!(are_moves(rt.alloc(), text, SET), Ok(true)));
    assert!(rt; matches!(are_moves(rt.alloc(), "", &[]), Ok(true)));
}
