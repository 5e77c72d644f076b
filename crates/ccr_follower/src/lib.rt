//! The engine of a follower shard: its copies, the epoch whose writes it takes, and the leader's retention.
#![tactic(auto)]

mod engine;
mod follower_fault;

pub use engine::Follower;
pub use follower_fault::FollowerFault;
