//! The printed names of the conditions of a derivation's lines.

ghost use Rattle.std.specs.Prelude.{◌≡◌, ◌++◌, [], ◌∷◌, map, length, decimal, string_bytes, OnOk, IfOk};
ghost use Rattle.rg_rules.specs.Names.{condition_names, named, line_names};
ghost use Rattle.rg_tree.specs.Lines.{line_tree};

use crate::derivation::Derivation;
use itoa::Buffer;
use rg_tree::line::Rule;
use std::alloc::{AllocError, Global};

/// What each condition of a line is called, by its rule.
fn condition_names(rule: Rule) -> &'static [&'static str]
    ensures { map (λ name. name.now) result.now ≡ condition_names rule }
{
    match rule {
        Rule::Basic | Rule::Atomic => &["reach", "step", "pre stable", "post stable"],
        Rule::Seq => &[],
        Rule::If => &["pre stable"],
        Rule::Loop => &["pre stable", "exit", "post stable"],
        Rule::Conseq => &["pre", "rely", "guar", "post"],
    }
}

/// Adds the name of a condition of a line.
fn push_name(alloc: Global, all: &mut Vec<String>, place: u64, name: &str) -> Result<(), AllocError>
    ensures { OnOk result (map string_bytes all.new.items ≡ map string_bytes all.old.items ++ named place name.now ∷ []) }
{
    let mut digits = Buffer::new();
    let mut text = String::new(alloc);
    text.push_str("line ")?;
    text.push_str(digits.format(place))?;
    text.push_str(" ")?;
    text.push_str(name)?;
    all.push(text)?;
    Ok(())
}

/// Adds the names of the conditions of a line.
fn push_names(
    alloc: Global,
    all: &mut Vec<String>,
    place: u64,
    rule: Rule,
) -> Result<(), AllocError>
    ensures { OnOk result (map string_bytes all.new.items ≡ map string_bytes all.old.items ++ map (named place) (condition_names rule)) }
{
    for name in condition_names(rule) {
        push_name(alloc, all, place, name)?;
    }
    Ok(())
}

impl Derivation {
    /// The name of each condition, in the order of `conditions`: `line`, the line's number, and `reach`, `step`, `pre stable`,
    /// `post stable`, `exit`, `pre`, `rely`, `guar` or `post`.
    ///
    /// Refused only where memory was refused.
    pub fn names(&self, alloc: Global) -> Result<Vec<String>, AllocError>
        ensures { IfOk result (λ all. map string_bytes all.items ≡ line_names 1 (map line_tree self.now.lines.items)) }
    {
        let mut all = Vec::new(alloc);
        for (i, line) in self.lines.iter().enumerate() {
            push_names(alloc, &mut all, (i + 1) as u64, line.rule)?;
        }
        Ok(all)
    }
}
