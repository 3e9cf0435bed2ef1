//! Changes of words.

ghost use Rattle.std.specs.Prelude.{◌≡◌, ◌++◌, ◌+◌, ◌<◌, ◌^◌, IfOk, length};
ghost use Rattle.rg_floor.specs.Changes.{changed, change_of};

use rg_tree::moves::WordValue;
use rg_words::State;
use std::alloc::{AllocError, Global};
use std::marker::Model;

/// Who made a step, at which line, and the words that differ after it, in their order, with their new values.
#[derive(Drop)]
pub struct Change {
    who: usize,
    line: u32,
    values: Vec<WordValue>,
}

impl Model for Change {
    ghost use Rattle.rg_floor.specs.Changes.{Changing};

    ghost Value = { Changing };

    ghost view = { λ c. record { who = c.who; line = c.line; values = c.values.items } };
}

impl Change {
    /// The change from one state to another.
    pub(crate) fn between(
        alloc: Global,
        who: usize,
        line: u32,
        before: &State,
        after: &State,
    ) -> Result<Change, AllocError>
        requires { after.now.widths ≡ before.now.widths }
        ensures { IfOk result (λ c. c ≡ change_of who line before.now.values after.now.values) }
    {
        let values = differences(alloc, before, after)?;
        Ok(Change { who, line, values })
    }

    /// Who made the step: 0 for the environment, else a part by its number, from 1.
    pub fn who(&self) -> usize
        ensures { result ≡ self.now.who }
    {
        self.who
    }

    /// The line of the statement, from 1; 0 for the environment.
    pub fn line(&self) -> u32
        ensures { result ≡ self.now.line }
    {
        self.line
    }

    /// The words that differ after the step, with their new values.
    pub fn values(&self) -> &[WordValue]
        ensures { result.now ≡ self.now.values }
    {
        self.values.as_slice()
    }
}

/// The words that differ, with their values in the second state.
fn differences(alloc: Global, before: &State, after: &State) -> Result<Vec<WordValue>, AllocError>
    requires { after.now.widths ≡ before.now.widths }
    ensures { IfOk result (λ values. values.items ≡ changed 0 before.now.values after.now.values) }
{
    before.facts();
    after.facts();
    let mut values = Vec::new(alloc);
    for word in 0..before.len() {
        let value = after.get(word);
        if before.get(word) != value {
            values.push(WordValue { word, value })?;
        }
    }
    Ok(values)
}
