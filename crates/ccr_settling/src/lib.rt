//! What to do next to settle a shard world.
//!
//! A world is settled where nothing is left to be done: each copy has what its primary has, no message is in flight, no
//! follower is in its bootstrap, and each active one has all that the leader has. [`choose`] names the next event that
//! brings a world nearer to that.
#![tactic(auto)]

mod choosing;
mod copies;
mod followers;
mod requests;
mod waking;
mod writes;

pub use choosing::choose;
