//! The shard worlds of a run on one thread, each with its journal and with the policy of merges that was handed in for
//! it.
//!
//! Worlds are made one after another, and each takes the next of the policies. At the end they hand out their journals,
//! with the theorem on each of them.
#![tactic(auto)]

mod bare;
mod converted;
mod handed;
mod handing_out;
mod room;
mod settling;

pub use bare::Bare;
pub use handed::Handed;
