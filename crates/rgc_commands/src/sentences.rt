//! Why words can't be erased, and what is lost where they are.

ghost use Rattle.std.specs.Prelude.{◌≡◌, length, string_bytes, IfOk};
ghost use Rattle.rg_tree.specs.View.{formula};
ghost use Rattle.rg_tree.specs.Fits.{FormulaFits};
ghost use Rattle.rg_c_report.specs.Words.{name_of};
ghost use Rattle.rgc_commands.specs.Sentences.{unknown_line, fault_line, step_line, wait_line, unplanned_line};

use itoa::Buffer;
use rg_c_plan::planned::Unplanned;
use rg_c_report::lines::line_shown;
use rg_erase::{Fault, lost};
use rg_tree::print::print;
use rg_tree::tree::Formula;
use rg_words::Layout;
use std::alloc::{AllocError, Global};

/// The line that reports a name that no word has.
pub(crate) fn unknown_line(alloc: Global, name: &str) -> Result<Vec<u8>, AllocError>
    ensures { IfOk result (λ line. line.items ≡ unknown_line name.now) }
{
    let mut line = Vec::new(alloc);
    line.extend_from_slice(b"error: --erase names ")?;
    line.extend_from_slice(name.as_bytes())?;
    line.extend_from_slice(b", which is no word of the program\n")?;
    Ok(line)
}

/// The name of a word; nothing where there is none at the place.
fn name_of(layout: &Layout, word: usize) -> &str
    ensures { result.now ≡ name_of layout.now word }
{
    if word < layout.len() {
        layout.name(word)
    } else {
        ""
    }
}

/// Why words can't be erased, with these lines for those of the text.
pub(crate) fn fault_line(
    alloc: Global,
    layout: &Layout,
    lines: &[u64],
    fault: Fault,
) -> Result<String, AllocError>
    ensures { IfOk result (λ line. string_bytes line ≡ fault_line layout.now lines.now fault) }
{
    match fault {
        Fault::NothingLeft => {
            String::from_str(alloc, "error: no word is left that a step may change\n")
        }
        Fault::Pre(word) => {
            let name = name_of(layout, word);
            format!(in alloc;
                "error: {} can't be erased: the pre says something else of it than its value, once, as `{} = 0` does\n",
                name, name
            )
        }
        Fault::Rely(word) => {
            let name = name_of(layout, word);
            format!(in alloc;
                "error: {} can't be erased: the rely says something else of it than its value after a step, once, as `{}' = {}` does\n",
                name, name, name
            )
        }
        Fault::Read(line, word) => {
            let mut digits = Buffer::new();
            format!(in alloc;
                "error: line {}: {} can't be erased: what stays reads it\n",
                digits.format(line_shown(lines, line)),
                name_of(layout, word)
            )
        }
    }
}

/// The line that reports that no C does the step at this line at once, for this word.
fn step_line(alloc: Global, layout: &Layout, line: u64, word: usize) -> Result<Vec<u8>, AllocError>
    ensures { IfOk result (λ text. text.items ≡ step_line layout.now line word) }
{
    let mut digits = Buffer::new();
    let line = format!(in alloc;
        "error: line {}: no C does this step at once: it accesses {}, which the world outside accesses too, and another shared word\n",
        digits.format(line),
        name_of(layout, word)
    )?;
    Ok(line.into_bytes())
}

/// The line that reports that a part which interrupts another one may wait at this line.
fn wait_line(alloc: Global, line: u64) -> Result<Vec<u8>, AllocError>
    ensures { IfOk result (λ text. text.items ≡ wait_line line) }
{
    let mut digits = Buffer::new();
    let line = format!(in alloc;
        "error: line {}: its part interrupts another one, which stands still, so it must not wait: let it ask with `if`\n",
        digits.format(line)
    )?;
    Ok(line.into_bytes())
}

/// Why there is no C, with these lines for those of the text.
pub(crate) fn unplanned_line(
    alloc: Global,
    layout: &Layout,
    lines: &[u64],
    why: Unplanned,
) -> Result<Vec<u8>, AllocError>
    ensures { IfOk result (λ line. line.items ≡ unplanned_line layout.now lines.now why) }
{
    match why {
        Unplanned::Step(line, word) => step_line(alloc, layout, line_shown(lines, line), word),
        Unplanned::Wait(line) => wait_line(alloc, line_shown(lines, line)),
    }
}

/// Whether a formula says nothing.
fn is_true(f: &Formula) -> bool {
    match f {
        Formula::Truth(b) => *b,
        _ => false,
    }
}

/// Adds a warning for each conjunct of a formula of the program that is lost, and another one where nothing is left of it.
pub(crate) fn push_lost(
    layout: &Layout,
    what: &str,
    f: &Formula,
    left: &Formula,
    erased: &[bool],
    lines: &mut Vec<u8>,
) -> Result<(), AllocError>
    requires { FormulaFits (formula f.now) (length layout.now) }
{
    let alloc = *lines.allocator();
    let conjuncts = lost(alloc, erased, f)?;
    for conjunct in &conjuncts {
        let text = print(alloc, layout, conjunct)?;
        lines.extend_from_slice(b"warning: without the erased words the ")?;
        lines.extend_from_slice(what.as_bytes())?;
        lines.extend_from_slice(b" no longer says ")?;
        lines.extend_from_slice(text.as_bytes())?;
        lines.extend_from_slice(b"\n")?;
    }
    if !conjuncts.is_empty() && is_true(left) {
        lines.extend_from_slice(b"warning: without the erased words nothing is left of the ")?;
        lines.extend_from_slice(what.as_bytes())?;
        lines.extend_from_slice(b"\n")?;
    }
    Ok(())
}
