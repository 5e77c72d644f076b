//! The task of a follower shard: what it reads from the leader, what it has read, and the writes to its own
//! primary, by the rules of the Elastic reference on cross-cluster replication (its parameters are those of
//! the create follower API).
#![tactic(auto)]

mod filling;
mod lists;
mod operations;
mod reading;
mod reads;
mod task;
mod writes;

pub use reads::{Progress, Read};
pub use task::{Load, Stopped, Taken, Task, TaskFault};
pub use writes::Write;
