//! Where blocks lead.

ghost use Rattle.std.specs.Prelude.{◌≡◌, ◌↔◌, ◌-◌, ◌<◌, ◌≤◌, ℕ, [], Some, IsTrue, MatchOption, length, slice_get, slice_index, slice_index_or, vec_capacity};
ghost use Rattle.rg_words.specs.Layout.{widths_of};
ghost use Rattle.rg_tree.specs.Traces.{State};
ghost use Rattle.rg_code.specs.Code.{Makes_step};
ghost use Rattle.rg_code.specs.Legal.{IsLegalBlock};
ghost use Rattle.rg_code.specs.BlockView.{block as block_tree};
ghost use Rattle.rg_code.specs.CodeTrees.{code_blocks};
ghost use Rattle.rg_machine.specs.Kept.{AreAtBlocks, block_room, codes_room};
ghost use Rattle.rg_machine.specs.Machine.{CanLead};

use crate::stores::{is_reported, store_all};
use rg_code::block::Block;
use rg_code::code::Code;
use rg_words::{Layout, State};

/// The block at which a part stands.
pub(crate) fn block_at<'e>(code: &'e Code, places: &[usize], part: usize) -> &'e Block
    requires places { AreAtBlocks (code_blocks code.now) places.now }
    requires part { (0 < part) × (part ≤ length (code_blocks code.now)) }
    ensures found { slice_get (slice_index_or (code_blocks code.now) (part - 1) []) (slice_index places.now (part - 1)) ≡ Some (block_tree result.now) }
    ensures legal { IsLegalBlock code.now.layout (length (slice_index_or (code_blocks code.now) (part - 1) [])) (block_tree result.now) }
    ensures room { block_room (block_tree result.now) ≤ codes_room (code_blocks code.now) }
{
    &code.parts[part - 1].blocks[places[part - 1]]
}

/// Whether a block can be done in a state.
pub(crate) fn can_lead(stack: &mut Vec<u64>, block: &Block, layout: &Layout, state: &State) -> bool
    requires legal { (n : ℕ) × IsLegalBlock layout.now n (block_tree block.now) }
    requires state { state.now.widths ≡ widths_of layout.now }
    requires room { block_room (block_tree block.now) ≤ vec_capacity stack.old }
    ensures can { IsTrue result ↔ CanLead (Some (block_tree block.now)) state.now.values }
    ensures capacity { vec_capacity stack.old ≤ vec_capacity stack.new }
{
    state.facts();
    match block {
        Block::Do(_, _, _) => true,
        Block::Test(_, _, _, _) => true,
        Block::Await(_, _, guard, _) => is_reported(stack, guard, layout, state),
        Block::End => false,
    }
}

/// Does a block, if it can be done, and gives the place to which it leads.
pub(crate) fn lead(
    stack: &mut Vec<u64>,
    block: &Block,
    layout: &Layout,
    state: &mut State,
) -> Option<usize>
    requires legal { (n : ℕ) × IsLegalBlock layout.now n (block_tree block.now) }
    requires state { state.old.widths ≡ widths_of layout.now }
    requires room { block_room (block_tree block.now) ≤ vec_capacity stack.old }
    ensures made { MatchOption result ((CanLead (Some (block_tree block.now)) state.old.values → ⊥) × (state.new ≡ state.old))
        (λ to. Makes_step (Some (block_tree block.now)) state.old.values state.new.values to) }
    ensures widths { state.new.widths ≡ state.old.widths }
    ensures capacity { vec_capacity stack.old ≤ vec_capacity stack.new }
{
    match block {
        Block::Do(_, next, act) => {
            store_all(stack, act, layout, state);
            Some(*next)
        }
        Block::Await(_, next, guard, act) => {
            if !is_reported(stack, guard, layout, state) {
                return None;
            }
            store_all(stack, act, layout, state);
            Some(*next)
        }
        Block::Test(_, yes_place, no_place, guard) => {
            let reported = is_reported(stack, guard, layout, state);
            Some(if reported { *yes_place } else { *no_place })
        }
        Block::End => None,
    }
}
