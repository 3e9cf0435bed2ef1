//! Guards and stores, done in a state.

ghost use Rattle.std.specs.Prelude.{◌≡◌, ◌≤◌, Some, [], ◌∷◌, map, length, vec_capacity};
ghost use Rattle.rg_words.specs.Layout.{widths_of};
ghost use Rattle.rg_code.specs.Operations.{reported_by};
ghost use Rattle.rg_code.specs.Code.{stored};
ghost use Rattle.rg_code.specs.Legal.{LeavesBelow, IsLegalStore, AreLegalStores};
ghost use Rattle.rg_code.specs.BlockView.{store as store_tree};
ghost use Rattle.rg_machine.specs.Kept.{stores_room};

use crate::stack::work_out;
use rg_code::block::Store;
use rg_code::operation::Operation;
use rg_words::{Layout, State};

/// Whether a guard holds.
pub(crate) fn is_reported(
    stack: &mut Vec<u64>,
    guard: &[Operation],
    layout: &Layout,
    state: &State,
) -> bool
    requires legal { LeavesBelow layout.now 2 guard.now }
    requires state { state.now.widths ≡ widths_of layout.now }
    requires room { length guard.now ≤ vec_capacity stack.old }
    ensures reported { reported_by guard.now state.now.values ≡ Some result }
    ensures capacity { vec_capacity stack.old ≤ vec_capacity stack.new }
{
    state.facts();
    match work_out(stack, guard, state) {
        Some(x) => x != 0,
        None => false,
    }
}

/// Does one store.
fn store_one(stack: &mut Vec<u64>, store: &Store, layout: &Layout, state: &mut State)
    requires legal { IsLegalStore layout.now (store_tree store.now) }
    requires state { state.old.widths ≡ widths_of layout.now }
    requires room { length store.now.value.items ≤ vec_capacity stack.old }
    ensures stored { stored (store_tree store.now ∷ []) state.old.values ≡ Some state.new.values }
    ensures widths { state.new.widths ≡ state.old.widths }
    ensures capacity { vec_capacity stack.old ≤ vec_capacity stack.new }
{
    state.facts();
    if let Some(x) = work_out(stack, &store.value, state) {
        state.set(store.word, x);
    }
}

/// Does stores, in order.
pub(crate) fn store_all(stack: &mut Vec<u64>, act: &[Store], layout: &Layout, state: &mut State)
    requires legal { AreLegalStores layout.now (map store_tree act.now) }
    requires state { state.old.widths ≡ widths_of layout.now }
    requires room { stores_room (map store_tree act.now) ≤ vec_capacity stack.old }
    ensures stored { stored (map store_tree act.now) state.old.values ≡ Some state.new.values }
    ensures widths { state.new.widths ≡ state.old.widths }
    ensures capacity { vec_capacity stack.old ≤ vec_capacity stack.new }
{
    for store in act {
        store_one(stack, store, layout, state);
    }
}
