//! A follower's side of a shard world: its lease, its bootstrap from the leader's files or its task that reads and
//! writes, its clock and its copies, and what each event on them comes to.
//!
//! In Elasticsearch a follower shard is restored from its leader's files, and then a task reads the leader's
//! operations and writes them to the follower's primary, under a retention lease that it renews (Elastic reference,
//! cross-cluster replication: bootstrapping, how it works; pause, resume and unfollow).
#![tactic(auto)]

mod copies;
mod events;
mod following;
mod hearing;
mod note;
mod receiving;
mod requests;
mod side;
mod told;
mod work;

pub use note::FollowerNote;
pub use side::FollowerSide;
pub use told::Told;
