//! The commands of a script of JSON lines: which they are, how a line is read as one, and a script that
//! is made from a seed.
#![tactic(auto)]

mod amounts;
mod bad_lines;
mod building;
mod checking;
mod commands;
mod fields;
mod generating;
mod grammar;
mod names;
mod parts;
mod reading;
mod settings;

pub use bad_lines::BadLine;
pub use ccr_lines::{Line, LineFault, Lines, MOST_LINE_BYTES, MOST_LINES};
pub use commands::Command;
pub use generating::generate;
pub use names::Names;
pub use reading::read_command;
