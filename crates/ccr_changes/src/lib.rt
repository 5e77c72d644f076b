//! Reads of a copy's history: what a read from a number on brings, and the reads that wait at a copy for an
//! operation of their number.
#![tactic(auto)]

mod answer;
mod poll;
mod polls;
mod reading;

pub use answer::Cut;
pub use poll::Poll;
pub use polls::{Least, Polls};
pub use reading::cut;

#[cfg(test)]
mod tests;
