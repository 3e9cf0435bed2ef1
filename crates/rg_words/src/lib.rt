//! Words and states, refusals, limits and writers: what every other crate speaks of.
#![tactic(auto)]

mod buffered;
mod layout;
pub mod limits;
pub mod names;
pub mod operators;
mod refusal;
mod sink;
mod state;
mod writers;

pub use buffered::Buffered;
pub use layout::Layout;
pub use refusal::{Place, Refusal, RefusalNumber, SourceFile};
pub use sink::{Out, WriteFault, write_all};
pub use state::State;
pub use writers::{Device, Fuse, Taker};
