//! The command line of `rgc`: from its words to a command and the files that it names.
#![tactic(auto)]

mod app;
mod command;
mod commands;
mod fields;
mod help;
mod line;
mod readers;

pub use command::{Chosen, Command, Format, Named, Outlines, PLAIN, Settings};
pub use fields::FieldFault;
pub use line::{Line, LineFault};
