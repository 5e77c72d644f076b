//! The state of a shard world: the leader, its followers and the messages in flight, and what each event comes to.
//!
//! A leader index is followed by any number of follower indices, which read its history (Elastic reference,
//! cross-cluster replication). Nothing passes between them but messages, which may be delivered in any order, more
//! than once, or never.
#![tactic(auto)]

mod flight;
mod leader_events;
mod lookups;
mod note;
mod replies;
mod searches;
mod shard;
mod sides;

pub use note::Note;
pub use shard::Shard;
