//! The lines of a source of bytes, read one by one.
#![tactic(auto)]

mod chunks;
mod lines;
#[cfg(test)]
mod tests;

pub use lines::{Line, LineFault, Lines, MOST_LINE_BYTES, MOST_LINES};
