//! The leader's side of a shard: its copies, leases, sessions and the reads that wait, and what each event on them
//! comes to.
//!
//! In Elasticsearch a leader index keeps the history of its operations for those who follow it under retention
//! leases, and answers their reads by sequence number (Elastic reference, cross-cluster replication; history
//! retention).
#![tactic(auto)]

mod events;
mod hearing;
mod kept_requests;
mod leader;
mod leader_fault;
mod stale_copies;
mod start;
mod writing;

pub use kept_requests::KeptRequest;
pub use leader::Leader;
pub use leader_fault::LeaderFault;
pub use start::Start;
