//! What the program has of the system: the terminal, the files that it reads and writes, memory, and the stacks of its threads.
#![tactic(auto)]

mod faults;
mod input;
mod largest;
mod memory;
mod paint;
mod pieces;
mod place;
mod replace;
mod screen;
mod stack;
mod terminal;
mod used;
mod version;

pub use faults::{report, report_failure};
pub use input::{INPUT, read};
pub use largest::{Kind, report_largest};
pub use memory::Memory;
pub use pieces::{can_hold, slices_of};
pub use place::{INPUT_FILE, Identity, identity_of};
pub use replace::{Output, add_output, add_pieces, write_outputs, write_pieces};
pub use screen::Screen;
pub use stack::{STACK_BYTES, has_small_stacks};
pub use terminal::{Terminal, Time, is_coloured, print_painted, report_over};
pub use used::{Joined, joined_of};
pub use version::proved_at;
