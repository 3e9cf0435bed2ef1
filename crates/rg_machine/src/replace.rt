//! States in place of others.

ghost use Rattle.std.specs.Prelude.{◌≡◌, ◌↔◌, IsTrue};
ghost use Rattle.rg_words.specs.Layout.{widths_of};
ghost use Rattle.rg_words.specs.States.{SameIf, AgreeOnFixed};

use rg_words::{Layout, State};

/// Whether two values are the same, where they have to be.
fn same_if(fixed: bool, before: u64, after: u64) -> bool
    ensures { IsTrue result ↔ SameIf fixed before after }
{
    if fixed { before == after } else { true }
}

/// Whether the fixed words have the same values in both states.
pub fn agree_on_fixed(layout: &Layout, before: &State, after: &State) -> bool
    requires before { before.now.widths ≡ widths_of layout.now }
    requires after { after.now.widths ≡ widths_of layout.now }
    ensures { IsTrue result ↔ AgreeOnFixed layout.now before.now.values after.now.values }
{
    before.facts();
    after.facts();
    for word in 0..layout.len() {
        if !same_if(layout.is_fixed(word), before.get(word), after.get(word)) {
            return false;
        }
    }
    true
}

/// Gives each word the value that it has in another state. It takes no memory.
pub fn replace(state: &mut State, by: &State)
    requires { state.old.widths ≡ by.now.widths }
    ensures values { state.new.values ≡ by.now.values }
    ensures widths { state.new.widths ≡ state.old.widths }
{
    state.facts();
    for word in 0..by.len() {
        state.set(word, by.get(word));
    }
}
