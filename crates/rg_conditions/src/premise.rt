//! The lines that a line follows from.

ghost use Rattle.std.specs.Prelude.{◌≡◌, map};
ghost use Rattle.std.specs.Option.{option_map};
ghost use Rattle.rg_tree.specs.Programs.{nth};
ghost use Rattle.rg_tree.specs.Lines.{line_tree};
ghost use Rattle.rg_conditions.specs.Asked.{first_spec};
ghost use Rattle.rg_conditions.specs.Inner.View.{referred_line, referred_spec};

use rg_tree::line::DerivationLine;
use rg_tree::part::Spec;

/// The line of a number, from 1.
fn line_of_number(lines: &[DerivationLine], number: u64) -> Option<&DerivationLine>
    ensures { option_map referred_line result ≡ nth (map line_tree lines.now) number }
{
    if number == 0 || number > lines.len() as u64 {
        None
    } else {
        Some(&lines[(number - 1) as usize])
    }
}

/// The formulas of the first premise.
pub(crate) fn first_premise<'a>(lines: &'a [DerivationLine], premises: &[u64]) -> Option<&'a Spec>
    ensures { option_map referred_spec result ≡ first_spec (map line_tree lines.now) premises.now }
{
    let first = premises.first()?;
    let line = line_of_number(lines, *first)?;
    Some(&line.spec)
}
