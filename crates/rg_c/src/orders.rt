//! What a header says of parts that run on one core.

ghost use Rattle.std.specs.Prelude.{◌≡◌, ◌++◌, map, string_bytes, OnOk};
ghost use Rattle.rg_tree.specs.ProgramView.{part as part_tree};
ghost use Rattle.rg_tree.specs.ProgramTrees.{program as program_tree};
ghost use Rattle.rg_c_report.specs.Orders.{interrupted};
ghost use Rattle.rg_c.specs.Orders.{interrupted_text, interrupting_line, handler_line, handler_lines, order_text};

use crate::heads::push_order_open;
use rg_c_plan::order::Rank;
use rg_c_report::orders::interrupted;
use rg_c_report::words::push_listed;
use rg_tree::part::Part;
use rg_tree::program::Program;
use std::alloc::{AllocError, Global};

/// Adds those that a part interrupts, to the end of the line.
#[tactic(auto, unfolding(crate::specs::Orders::interrupted_text))]
fn push_interrupted(text: &mut String, names: &[&str]) -> Result<(), AllocError>
    ensures { OnOk result (string_bytes text.new ≡ string_bytes text.old ++ interrupted_text (map (λ t. t.now) names.now)) }
{
    push_listed(text, " interrupts ", names)?;
    text.push_str("\n")?;
    Ok(())
}

/// Adds a part, and those that it interrupts.
#[tactic(auto, unfolding(crate::specs::Orders::interrupting_line))]
fn push_interrupting_line(text: &mut String, name: &str, names: &[&str]) -> Result<(), AllocError>
    ensures { OnOk result (string_bytes text.new ≡ string_bytes text.old ++ interrupting_line name.now (map (λ t. t.now) names.now)) }
{
    text.push_str(" *   ")?;
    text.push_str(name)?;
    push_interrupted(text, names)
}

/// Adds them if there are any.
fn push_handler_line(text: &mut String, name: &str, names: &[&str]) -> Result<(), AllocError>
    ensures { OnOk result (string_bytes text.new ≡ string_bytes text.old ++ handler_line name.now (map (λ t. t.now) names.now)) }
{
    if names.is_empty() {
        return Ok(());
    }
    push_interrupting_line(text, name, names)
}

/// Adds the part at a place, and those that it interrupts, if there are any.
fn push_handler(
    alloc: Global,
    text: &mut String,
    program: &Program,
    order: &[Option<Rank>],
    place: usize,
    part: &Part,
) -> Result<(), AllocError>
    ensures { OnOk result (string_bytes text.new
        ≡ string_bytes text.old
        ++ handler_line (part_tree part.now).name (interrupted (program_tree program.now) order.now place)) }
{
    let names = interrupted(alloc, program, order, place)?;
    push_handler_line(text, part.name.as_str(), &names)
}

/// Adds each part that interrupts others, and these.
fn push_handlers(
    alloc: Global,
    text: &mut String,
    program: &Program,
    order: &[Option<Rank>],
) -> Result<(), AllocError>
    ensures { OnOk result (string_bytes text.new
        ≡ string_bytes text.old
        ++ handler_lines (program_tree program.now) order.now 0 (map part_tree program.now.parts.items)) }
{
    for (place, part) in program.parts.iter().enumerate() {
        push_handler(alloc, text, program, order, place, part)?;
    }
    Ok(())
}

/// Adds what is presumed of parts that run on one core, if some do.
#[tactic(auto, unfolding(crate::specs::Orders::order_text))]
pub(crate) fn push_order(
    alloc: Global,
    text: &mut String,
    program: &Program,
    order: &[Option<Rank>],
) -> Result<(), AllocError>
    ensures { OnOk result (string_bytes text.new ≡ string_bytes text.old ++ order_text (program_tree program.now) order.now) }
{
    if order.is_empty() {
        return Ok(());
    }
    push_order_open(text)?;
    push_handlers(alloc, text, program, order)
}
