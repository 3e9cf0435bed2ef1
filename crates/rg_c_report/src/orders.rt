//! Which parts a part interrupts.

ghost use Rattle.std.specs.Prelude.{◌≡◌, map, IfOk};
ghost use Rattle.rg_tree.specs.ProgramTrees.{program as program_tree};
ghost use Rattle.rg_c_report.specs.Orders.{interrupted};

use rg_c_plan::order::{Rank, interrupts};
use rg_tree::program::Program;
use std::alloc::{AllocError, Global};

/// The names of the parts that a part interrupts, in their order. The part is its place, from 0.
///
/// An error comes only where memory was refused.
pub fn interrupted<'a>(
    alloc: Global,
    program: &'a Program,
    order: &[Option<Rank>],
    place: usize,
) -> Result<Vec<&'a str>, AllocError>
    ensures { IfOk result (λ names. map (λ t. t.now) names.items ≡ interrupted (program_tree program.now) order.now place) }
{
    let mut names = Vec::new(alloc);
    for (other, part) in program.parts.iter().enumerate() {
        if interrupts(order, place, other) {
            names.push(part.name.as_str())?;
        }
    }
    Ok(names)
}
