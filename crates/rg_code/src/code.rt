//! Flat code.

ghost use Rattle.std.specs.Prelude.{map};
ghost use Rattle.rg_code.specs.BlockView.{blocks};
ghost use Rattle.rg_code.specs.Legal.{AreLegalParts};
ghost use Rattle.rg_code.specs.Inner.LegalProof.{AreLegalParts-prop};

use crate::block::Block;
use rg_words::Layout;

/// The code of a part, which starts at its first block.
#[derive(Drop)]
pub struct PartCode {
    pub name: String,
    pub blocks: Vec<Block>,
}

/// The code of a program: its words, and the code of its parts in order, which are numbered from 1.
///
/// Its places are blocks of their part, and each part's last block is its only `End`. In every state of the words each list of
/// operations finds its operands and leaves one number: a truth value for a guard, and for a store one within the width of its
/// word, which isn't fixed.
#[derive(Drop)]
pub struct Code {
    pub layout: Layout,
    pub parts: Vec<PartCode>,
    pub ghost legal: { AreLegalParts layout (map blocks parts.items) } by { AreLegalParts-prop _ _ },
}
