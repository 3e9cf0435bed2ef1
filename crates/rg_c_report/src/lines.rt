//! The lines that are printed for those of a text.

ghost use Rattle.std.specs.Prelude.{◌≡◌};
ghost use Rattle.rg_c_report.specs.Lines.{line_shown};

/// The line that is printed for a line of the text, from 1: that of a list, in which the first is for none, and 0 where the list has none for it. Where the list is
/// empty it is the line itself.
pub fn line_shown(lines: &[u64], line: u32) -> u64
    ensures { result ≡ line_shown lines.now line }
{
    if lines.is_empty() {
        return u64::from(line);
    }
    match lines.get(line as usize) {
        Some(shown) => *shown,
        None => 0,
    }
}
