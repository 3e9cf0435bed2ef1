//! The picture of a run.

use crate::frame::Frame;
use crate::label::{Shown, label_length, push_cover, push_step};
use crate::pieces::{name_length, push_around, push_name};
use rg_monitor::record::Record;
use rg_tree::part::Part;
use std::alloc::AllocError;

/// The most steps that a picture should have, so that a browser shows it at once: of a longer run, draw the last ones.
pub const MOST_DRAWN: usize = 1000;

/// The colours of the parts' marks, as classes of the style; they begin again after the last.
const COLOURS: u64 = 8;

/// The fonts and colours: `env` and `c0` to `c7` are those of the marks.
const STYLE: &str = "<style>
text{font:13px ui-monospace,Menlo,Consolas,monospace;fill:#1f2933}
.h{font-size:18px;font-weight:600}.e{font-size:12px;fill:#52606d}
.l{font-weight:600;text-anchor:middle}.s{font-weight:600}
.n{text-anchor:end;fill:#616e7c}.u{font-size:12px;fill:#616e7c}
.k{font-size:11px;font-weight:600;text-anchor:middle;fill:#ffffff}
.v{stroke:#cbd2d9;stroke-width:2}.d{stroke:#cbd2d9;stroke-dasharray:2 4}
.r{fill:#ffffff;stroke:#1f2933;stroke-width:1.5}
.env{fill:#616e7c}.c0{fill:#1f6feb}.c1{fill:#b35900}.c2{fill:#1a7f4b}
.c3{fill:#8250df}.c4{fill:#bf2d5a}.c5{fill:#0b7285}.c6{fill:#7a5c00}
.c7{fill:#5c4d7d}
</style>
";

/// How to read the picture.
const LEGEND: &str = "<text class='e' x='24' y='58'>Each row is a step. \
Its mark stands in the lane of who made it, and holds the line of the statement.</text>
<text class='e' x='24' y='76'>x=0&gt;1: the word x changed from 0 to 1. \
A ring stands in the lane of each part whose guarantee covers it.</text>
";

/// Draws the records of a run of this program, as an SVG document, after what the text already holds. They are those after the
/// first `left_out` of the run, which aren't drawn: a note says so.
///
/// There is a lane for the environment and one for each part, in their order from left to right. Each step has a row, in the
/// order of the records from top to bottom: a mark in the lane of who made it, with the line of the statement, from 1, or `env`;
/// a ring in each lane whose part's guarantee covers it; and a label with the words that changed, as `name=before>after`. Names of words and lines
/// are those of `shown`.
/// The text is ASCII. Lengths are in CSS pixels.
///
/// Nothing is promised of the picture. An error comes only where memory was refused; the text is then of no use.
pub fn draw(
    text: &mut Vec<u8>,
    shown: Shown<'_>,
    left_out: u64,
    records: &[Record],
) -> Result<(), AllocError> {
    let frame = frame_of(shown, records);
    push_start(text, frame)?;
    push_head(text, left_out, records.len() as u64)?;
    push_lane(text, frame, 0, "env")?;
    push_lanes(text, frame, &shown.program.parts)?;
    push_rows(text, frame, shown, records)?;
    text.extend_from_slice(b"</svg>\n")?;
    Ok(())
}

/// The sizes of a picture of these records.
fn frame_of(shown: Shown<'_>, records: &[Record]) -> Frame {
    let parts = &shown.program.parts;
    Frame {
        lanes: (parts.len() as u64).saturating_add(1),
        longest_name: longest_name(parts),
        rows: records.len() as u64,
        longest_label: longest_label(shown, records),
    }
}

fn longest_name(parts: &[Part]) -> u64 {
    let mut longest = 3;
    for part in parts {
        longest = name_length(&part.name).max(longest);
    }
    longest
}

fn longest_label(shown: Shown<'_>, records: &[Record]) -> u64 {
    let mut longest = 0;
    for step in records {
        longest = label_length(shown, step).max(longest);
    }
    longest
}

/// Begins the document, with a white ground.
fn push_start(text: &mut Vec<u8>, frame: Frame) -> Result<(), AllocError> {
    let (width, height) = (frame.width(), frame.height());
    text.extend_from_slice(b"<svg xmlns=\"http://www.w3.org/2000/svg\" role=\"img\"")?;
    push_around(text, b" width=\"", width, b"\"")?;
    push_around(text, b" height=\"", height, b"\"")?;
    push_around(text, b" viewBox=\"0 0 ", width, b" ")?;
    push_around(text, b"", height, b"\">\n")?;
    text.extend_from_slice(b"<rect width=\"100%\" height=\"100%\" fill=\"#ffffff\"/>\n")?;
    Ok(())
}

/// Adds what stands above the lanes: the title, how to read the picture, and how many steps are left out.
fn push_head(text: &mut Vec<u8>, left_out: u64, drawn: u64) -> Result<(), AllocError> {
    text.extend_from_slice(STYLE.as_bytes())?;
    push_around(
        text,
        b"<text class=\"h\" x=\"24\" y=\"34\">Steps of the run: ",
        left_out.saturating_add(drawn),
        b"</text>\n",
    )?;
    text.extend_from_slice(LEGEND.as_bytes())?;
    if left_out > 0 {
        text.extend_from_slice(b"<text class=\"e\" x=\"24\" y=\"94\">Only the last ")?;
        push_around(text, b"", drawn, b" steps are drawn: ")?;
        push_around(text, b"the first ", left_out, b" are left out.</text>\n")?;
    }
    Ok(())
}

/// Adds the class of a lane's marks.
fn push_colour(text: &mut Vec<u8>, lane: u64) -> Result<(), AllocError> {
    match lane.checked_sub(1) {
        None => {
            text.extend_from_slice(b" class=\"env\"")?;
            Ok(())
        }
        Some(part) => push_around(text, b" class=\"c", part % COLOURS, b"\""),
    }
}

/// Adds a lane with its name.
fn push_lane(text: &mut Vec<u8>, frame: Frame, lane: u64, name: &str) -> Result<(), AllocError> {
    let middle = frame.lane_middle(lane);
    push_around(text, b"<text class=\"l\" x=\"", middle, b"\" y=\"126\">")?;
    push_name(text, name)?;
    push_around(
        text,
        b"</text>\n<line class=\"v\" x1=\"",
        middle,
        b"\" y1=\"136\"",
    )?;
    push_around(text, b" x2=\"", middle, b"\"")?;
    push_around(text, b" y2=\"", frame.row_top(frame.rows), b"\"/>\n")
}

/// Adds the lanes of the parts.
fn push_lanes(text: &mut Vec<u8>, frame: Frame, parts: &[Part]) -> Result<(), AllocError> {
    let mut lane: u64 = 0;
    for part in parts {
        lane = lane.saturating_add(1);
        push_lane(text, frame, lane, &part.name)?;
    }
    Ok(())
}

/// Adds the rows.
fn push_rows(
    text: &mut Vec<u8>,
    frame: Frame,
    shown: Shown<'_>,
    records: &[Record],
) -> Result<(), AllocError> {
    let mut row: u64 = 0;
    for step in records {
        push_row(text, frame, row, shown, step)?;
        row = row.saturating_add(1);
    }
    Ok(())
}

/// Adds the row of a step.
fn push_row(
    text: &mut Vec<u8>,
    frame: Frame,
    row: u64,
    shown: Shown<'_>,
    step: &Record,
) -> Result<(), AllocError> {
    let top = frame.row_top(row);
    push_around(
        text,
        b"<text class=\"n\" x=\"60\" y=\"",
        top.saturating_add(20),
        b"\">",
    )?;
    push_around(text, b"", step.number(), b"</text>\n")?;
    push_thread(text, frame, top, step.who() as u64)?;
    push_rings(text, frame, top, step.cover())?;
    push_mark(text, frame, top, shown, step)?;
    push_label(text, frame, top, shown, step)
}

/// Adds the dotted line from a mark to its label.
fn push_thread(text: &mut Vec<u8>, frame: Frame, top: u64, who: u64) -> Result<(), AllocError> {
    let middle = top.saturating_add(16);
    push_around(
        text,
        b"<line class=\"d\" x1=\"",
        frame.lane_middle(who),
        b"\"",
    )?;
    push_around(text, b" y1=\"", middle, b"\"")?;
    push_around(
        text,
        b" x2=\"",
        frame.labels_left().saturating_sub(8),
        b"\"",
    )?;
    push_around(text, b" y2=\"", middle, b"\"/>\n")
}

/// Adds a ring under the mark's place in the lane of each covering part.
fn push_rings(
    text: &mut Vec<u8>,
    frame: Frame,
    top: u64,
    cover: &[usize],
) -> Result<(), AllocError> {
    for who in cover {
        push_around(
            text,
            b"<circle class=\"r\" cx=\"",
            frame.lane_middle(*who as u64),
            b"\"",
        )?;
        push_around(text, b" cy=\"", top.saturating_add(33), b"\" r=\"4\"/>\n")?;
    }
    Ok(())
}

/// Adds the mark of a step, with the line of the statement or `env`.
fn push_mark(
    text: &mut Vec<u8>,
    frame: Frame,
    top: u64,
    shown: Shown<'_>,
    step: &Record,
) -> Result<(), AllocError> {
    let middle = frame.lane_middle(step.who() as u64);
    text.extend_from_slice(b"<rect")?;
    push_colour(text, step.who() as u64)?;
    push_around(text, b" x=\"", middle.saturating_sub(22), b"\"")?;
    push_around(
        text,
        b" y=\"",
        top.saturating_add(6),
        b"\" width=\"44\" height=\"20\" rx=\"10\"/>\n",
    )?;
    push_around(text, b"<text class=\"k\" x=\"", middle, b"\"")?;
    push_around(text, b" y=\"", top.saturating_add(20), b"\">")?;
    if step.line() == 0 {
        text.extend_from_slice(b"env</text>\n")?;
        return Ok(());
    }
    push_around(text, b"", shown.line_of(step), b"</text>\n")
}

/// Adds the label of a step, in two lines.
fn push_label(
    text: &mut Vec<u8>,
    frame: Frame,
    top: u64,
    shown: Shown<'_>,
    step: &Record,
) -> Result<(), AllocError> {
    let left = frame.labels_left();
    push_around(text, b"<text x=\"", left, b"\"")?;
    push_around(text, b" y=\"", top.saturating_add(20), b"\">")?;
    push_step(text, shown, step)?;
    push_around(text, b"</text>\n<text class=\"u\" x=\"", left, b"\"")?;
    push_around(text, b" y=\"", top.saturating_add(36), b"\">")?;
    push_cover(text, &shown.program.parts, step.cover())?;
    text.extend_from_slice(b"</text>\n")?;
    Ok(())
}
