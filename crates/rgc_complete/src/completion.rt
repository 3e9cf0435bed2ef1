//! What was found, and what is said of it.

use rg_complete::Filled;
use rg_outline_syntax::{Texts, push_count};
use serde_json::{Value, json};
use std::alloc::{AllocError, Global};

/// A formula that was added to an outline.
#[derive(Drop)]
pub struct Added {
    /// Its line in the outline with it, from 1.
    line: u64,
    says: Vec<u8>,
}

/// An outline with what it lacked.
#[derive(Drop)]
pub struct Completion {
    pub source: Vec<u8>,
    /// The assertions that were added to it, the conjuncts of its invariant, and those of the relies of its parts.
    pub(crate) assertions: Vec<Added>,
    pub(crate) conjuncts: Vec<Added>,
    pub(crate) relies: Vec<Added>,
}

/// The formulas that were added to an outline.
pub(crate) fn added_in(
    alloc: Global,
    filled: &Filled,
    formulas: &Texts,
) -> Result<Vec<Added>, AllocError> {
    let mut added = Vec::new(alloc);
    for (index, span) in filled.spans.iter().enumerate() {
        let formula = formulas.at(index);
        if !formula.is_empty() {
            added.push(Added {
                line: span.position(&filled.source).line as u64,
                says: Vec::from_slice(alloc, formula)?,
            })?;
        }
    }
    Ok(added)
}

/// Adds how many there are, in words.
fn push_said(
    text: &mut Vec<u8>,
    count: usize,
    one: &[u8],
    several: &[u8],
) -> Result<(), AllocError> {
    push_count(text, count as u64)?;
    text.extend_from_slice(if count == 1 { one } else { several })
}

/// Formulas that were added, as a JSON value.
fn listed(alloc: Global, added: &[Added]) -> Result<Value, AllocError> {
    let mut values = Vec::new(alloc);
    for one in added {
        let line = one.line;
        let says = str::from_utf8(&one.says).unwrap_or("");
        values.push(json!(in alloc; {"line": line, "says": says})?)?;
    }
    Ok(Value::Array(values))
}

impl Completion {
    /// How many assertions, conjuncts of the invariant, and conjuncts of relies were found, in lines.
    ///
    /// # Errors
    ///
    /// Only where memory is refused.
    pub fn lines(&self, alloc: Global) -> Result<Vec<u8>, AllocError> {
        let mut text = Vec::new(alloc);
        let (assertions, conjuncts) = (self.assertions.len(), self.conjuncts.len());
        push_said(
            &mut text,
            assertions,
            b" assertion was found\n",
            b" assertions were found\n",
        )?;
        if conjuncts > 0 {
            push_said(
                &mut text,
                conjuncts,
                b" conjunct of the invariant was found: read what it says\n",
                b" conjuncts of the invariant were found: read what they say\n",
            )?;
        }
        if !self.relies.is_empty() {
            push_said(
                &mut text,
                self.relies.len(),
                b" conjunct of a rely was found: read what it says\n",
                b" conjuncts of relies were found: read what they say\n",
            )?;
        }
        Ok(text)
    }

    /// Which assertions, conjuncts of the invariant, and conjuncts of relies were found and where they stand, as a JSON value in a line of its own. It speaks of
    /// relies where some were found.
    ///
    /// # Errors
    ///
    /// Only where memory is refused.
    pub fn json_line(&self, alloc: Global) -> Result<Vec<u8>, AllocError> {
        let (found, conjuncts) = (self.assertions.len(), self.conjuncts.len());
        let assertions = listed(alloc, &self.assertions)?;
        let invariant = listed(alloc, &self.conjuncts)?;
        let value = if self.relies.is_empty() {
            json!(in alloc; {"assertions": assertions, "conjuncts": conjuncts, "found": found, "invariant": invariant, "kind": "completed"})?
        } else {
            let relies = listed(alloc, &self.relies)?;
            json!(in alloc; {"assertions": assertions, "conjuncts": conjuncts, "found": found, "invariant": invariant, "kind": "completed", "relies": relies})?
        };
        let mut text = value.to_string(alloc)?;
        text.push_str("\n")?;
        Vec::from_slice(alloc, text.as_bytes())
    }
}
