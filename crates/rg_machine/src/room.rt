//! How much room the operands of a code's steps need.

ghost use Rattle.std.specs.Prelude.{◌≡◌, map};
ghost use Rattle.rg_code.specs.BlockView.{block as block_tree, store as store_tree};
ghost use Rattle.rg_code.specs.CodeTrees.{code_blocks};
ghost use Rattle.rg_machine.specs.Kept.{stores_room, block_room, blocks_room, codes_room};

use rg_code::block::{Block, Store};
use rg_code::code::Code;

fn stores_room(act: &[Store]) -> usize
    ensures { result ≡ stores_room (map store_tree act.now) }
{
    let mut room = 0;
    for store in act {
        room = room.max(store.value.len());
    }
    room
}

fn block_room(block: &Block) -> usize
    ensures { result ≡ block_room (block_tree block.now) }
{
    match block {
        Block::Do(_, _, act) => stores_room(act),
        Block::Await(_, _, guard, act) => guard.len().max(stores_room(act)),
        Block::Test(_, _, _, guard) => guard.len(),
        Block::End => 0,
    }
}

fn blocks_room(blocks: &[Block]) -> usize
    ensures { result ≡ blocks_room (map block_tree blocks.now) }
{
    let mut room = 0;
    for block in blocks {
        room = room.max(block_room(block));
    }
    room
}

/// The most operations of one list in the code: no step needs more operands at once.
pub(crate) fn code_room(code: &Code) -> usize
    ensures { result ≡ codes_room (code_blocks code.now) }
{
    let mut room = 0;
    for part in &code.parts {
        room = room.max(blocks_room(&part.blocks));
    }
    room
}
