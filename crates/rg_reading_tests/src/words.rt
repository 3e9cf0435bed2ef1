//! What no clause says: that calls succeed, and that the definitions are what the language means.

use rg_words::names::{as_name, is_keyword, is_name};
use rg_words::{
    Buffered, Device, Fuse, Layout, Out, Place, Refusal, RefusalNumber, SourceFile, State, Taker,
    WriteFault, write_all,
};
use std::alloc::{AllocError, Global};
use std::test::Fail;

#[test]
fn tells_names(rt: HostRuntime) {
    let names = ["x", "_", "Lock_2", "iffy", "WORDS", "x0"];
    let others = ["", "2x", "x'", "x y", "x-y", "é", "words", "if", "at"];
    assert!(rt; names.iter().all(|text| is_name(text)) && !others.iter().any(|text| is_name(text)));
    assert!(rt; as_name(b"x").is_some() && as_name(&[120, 255]).is_none());
    assert!(rt; is_keyword("conseq") && !is_keyword("consequence"));
}

/// A layout of the words `x`, of 8 bits, and `limit`, of 64 bits and fixed.
fn sample(alloc: Global) -> Result<Layout, Refusal> {
    let mut layout = Layout::new(alloc);
    if is_name("x") {
        layout.add("x", 8)?;
    }
    if is_name("limit") {
        layout.add_fixed("limit", 64)?;
    }
    Ok(layout)
}

/// Whether a layout's word of this number is so.
fn has_word(layout: &Layout, number: usize, name: &str, width: u32, is_fixed: bool) -> bool {
    number < layout.len()
        && layout.name(number) == name
        && layout.width(number) == width
        && layout.is_fixed(number) == is_fixed
}

/// Whether a layout has the two words of the sample.
fn is_sample(layout: &Layout) -> bool {
    layout.len() == 2
        && has_word(layout, 0, "x", 8, false)
        && has_word(layout, 1, "limit", 64, true)
        && layout.find("limit") == Some(1)
        && layout.find("lim").is_none()
}

/// Whether a copy of a layout is the same, and another one than an empty layout.
fn copies_well(alloc: Global, layout: &Layout) -> Result<bool, AllocError> {
    let copy = layout.copy()?;
    Ok(copy.same(layout) && !copy.same(&Layout::new(alloc)))
}

/// Whether a state of the sample's words has zeros at first and then what it is given, as its copy has until a word of the state changes.
fn keeps_and_copies(alloc: Global, layout: &Layout) -> Result<bool, AllocError> {
    if layout.len() != 2 || layout.width(0) != 8 || layout.width(1) != 64 {
        return Ok(false);
    }
    let mut state = State::zero(alloc, layout)?;
    let zeros = state.get(0) == 0 && state.get(1) == 0;
    state.set(1, u64::MAX);
    state.set(0, 255);
    let copy = state.copy()?;
    let kept = state.get(0) == 255 && state.get(1) == u64::MAX && state.same(&copy);
    state.set(0, 0);
    Ok(zeros && kept && !state.same(&copy))
}

#[test]
fn declares_words_and_keeps_values(rt: HostRuntime) -> Result<(), Fail> {
    let layout = sample(rt.alloc())?;
    assert!(rt; is_sample(&layout) && copies_well(rt.alloc(), &layout)?);
    assert!(rt; keeps_and_copies(rt.alloc(), &layout)?);
    Ok(())
}

/// A layout of 64 words of one bit, from `w0` on.
fn full(alloc: Global) -> Result<Layout, Refusal> {
    let mut layout = Layout::new(alloc);
    for number in 0..64 {
        let name = format!(in alloc; "w{number}")?;
        if is_name(&name) {
            layout.add(&name, 1)?;
        }
    }
    Ok(layout)
}

/// Whether a layout of 64 words refuses one more so, and is left as it was.
fn refuses(alloc: Global, name: &str, width: u32, number: RefusalNumber) -> Result<bool, Refusal> {
    let mut layout = full(alloc)?;
    Ok(is_name(name) && layout.add(name, width) == Err(Refusal::new(number)) && layout.len() == 64)
}

/// Words that are one too many, each with its width and its refusal.
const REFUSED: &[(&str, u32, RefusalNumber)] = &[
    ("w0", 65, RefusalNumber::NameTwice),
    ("more", 65, RefusalNumber::Width),
    ("more", 0, RefusalNumber::Width),
    ("more", 1, RefusalNumber::Limit),
];

#[test]
fn refuses_words(rt: HostRuntime) {
    for (name, width, number) in REFUSED {
        assert!(rt; matches!(refuses(rt.alloc(), name, *width, *number), Ok(true)));
    }
}

#[test]
fn prints_refusals(rt: HostRuntime) -> Result<(), Fail> {
    let rows = [
        (
            Refusal::at(
                RefusalNumber::HintNotUnit,
                SourceFile::Proofs,
                Place::Line(12),
            ),
            "refused 45 proofs line 12",
        ),
        (
            Refusal::at(
                RefusalNumber::NoEmptyClause,
                SourceFile::Proofs,
                Place::Condition(1),
            ),
            "refused 47 proofs condition 1",
        ),
        (
            Refusal::at(
                RefusalNumber::OutsideRely,
                SourceFile::Moves,
                Place::Move(1),
            ),
            "refused 62 moves move 1",
        ),
        (Refusal::new(RefusalNumber::Mismatch), "refused 64"),
        (Refusal::new(RefusalNumber::Limit), "refused 11"),
        (Refusal::from(AllocError), "refused 99"),
        (Refusal::from(WriteFault), "refused 63"),
    ];
    for (refusal, text) in &rows {
        let reported = refusal.to_string(rt.alloc())?;
        assert!(rt; reported.as_str() == *text);
    }
    Ok(())
}

/// Whether a writer that takes three bytes a call takes a text as a whole.
fn takes_whole(alloc: Global) -> bool {
    let mut taker = Taker::new(alloc, 3);
    write_all(&mut taker, b"eight by").is_ok() && taker.bytes() == b"eight by".as_slice()
}

/// Whether a writer that fails after two calls has what these took.
fn fails_in_pieces(alloc: Global) -> bool {
    let mut fuse = Fuse::new(Taker::new(alloc, 3), 2);
    write_all(&mut fuse, b"eight by").is_err() && fuse.inner().bytes() == b"eight ".as_slice()
}

/// Whether a device over a list takes a text.
fn fits_device(alloc: Global) -> bool {
    let mut device = Device::new(Vec::new(alloc));
    write_all(&mut device, b"eight by").is_ok()
}

/// Whether a device over three bytes takes these, and then fails.
fn fills_device() -> bool {
    let mut room = [0u8; 3];
    let mut full = Device::new(room.as_mut_slice());
    let reported = write_all(&mut full, b"eight by");
    reported == Err(WriteFault) && room == *b"eig"
}

#[test]
fn writes_in_pieces_and_to_a_device(rt: HostRuntime) {
    assert!(rt; takes_whole(rt.alloc()) && fails_in_pieces(rt.alloc()));
    assert!(rt; fits_device(rt.alloc()) && fills_device());
}

/// Whether a buffer keeps a text until it is flushed.
fn waits_for_a_flush(alloc: Global) -> Result<bool, AllocError> {
    let mut buffered = Buffered::new(alloc, Taker::new(alloc, 100))?;
    let waits = write_all(&mut buffered, b"one two").is_ok() && buffered.inner().bytes().is_empty();
    let flushed = buffered.flush().is_ok();
    Ok(waits && flushed && buffered.inner().bytes() == b"one two".as_slice())
}

/// Whether a buffer passes so many bytes on.
fn passes_many_on(alloc: Global, count: usize) -> Result<bool, AllocError> {
    let long = vec![in alloc; b'x'; count]?;
    let mut buffered = Buffered::new(alloc, Taker::new(alloc, 100))?;
    let written = write_all(&mut buffered, &long).is_ok();
    let flushed = buffered.flush().is_ok();
    Ok(written && flushed && buffered.inner().bytes() == long.as_slice())
}

/// Whether a flush that fails is reported, and what went out before stays.
fn keeps_the_rest(alloc: Global) -> Result<bool, AllocError> {
    let mut buffered = Buffered::new(alloc, Fuse::new(Taker::new(alloc, 3), 2))?;
    let written = write_all(&mut buffered, b"eight by").is_ok();
    let failed = buffered.flush() == Err(WriteFault);
    Ok(written && failed && buffered.inner().inner().bytes() == b"eight ".as_slice())
}

#[test]
fn buffers_until_a_flush(rt: HostRuntime) -> Result<(), Fail> {
    assert!(rt; waits_for_a_flush(rt.alloc())?);
    assert!(rt; passes_many_on(rt.alloc(), 70_000)? && keeps_the_rest(rt.alloc())?);
    Ok(())
}
