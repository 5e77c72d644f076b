//! One machine that many threads act on, with one journal.
//!
//! A [`Cell`] holds a [`Machine`], and each thread acts on it through a [`Pass`]. The calls of all threads stand in one order, that of the
//! machine's journal: each call sees all that its pass had seen before, and its entry stands in the journal once, at the place that it
//! was told. Passes are split off one another and joined again, and whoever has the whole share takes the machine back.
#![tactic(auto)]

mod cell;
mod law;
mod machine;
mod pass;
#[cfg(test)]
mod tests;
mod view;

pub use cell::Cell;
pub use machine::Machine;
pub use pass::{Pass, Ticket};
pub use view::View;
