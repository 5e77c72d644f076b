//! The shard worlds of a run in cells, in which many threads act, each with its journal and with the policy of merges
//! that was handed in for it.
//!
//! Worlds are made one after another, and each takes the next of the policies. Outside a settle each cell has one pass,
//! so what is done in a world is told by that pass alone. At the end they hand out their journals, with the theorem on
//! each of them.
#![tactic(auto)]

mod cells;
mod converted;
mod handing_out;
mod held;
mod numbered;
mod room;
mod settling;
mod threads;

pub use ccr_workers::{Gate, Open};
pub use cells::Cells;
pub use held::{Held, ShardWorld};
pub use numbered::{Numbered, Opening};
