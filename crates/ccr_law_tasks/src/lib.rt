//! The law of a follower's task.
//!
//! From the count at which an epoch began, each number below `next` stands in exactly one place: in the range
//! of one read, in the buffer, in the batch of one outstanding write, or in a batch that was written in this
//! epoch. An active task leaves nothing undone: it writes what it may write and reads what it may read. Its
//! reads, writes, batches and its buffer are bounded by its parameters, and no number that was received is
//! asked for again in the epoch.
//!
//! `GoodTask.antt` in `specs/` says this of one task, with what else is needed for each function of a task to
//! keep it. The buffer leaves room for what each read that isn't in the sent state may have brought since the
//! buffer was below its bounds: a read is sent only while it is, and a reply brings no more than its read asked
//! for. `GoodFollowers.antt` says it of all followers of a shard world; each event keeps that, too.
//!
//! The functions here do nothing: their contracts are the theorems.
#![tactic(auto)]

mod task;
mod world;

pub use task::{
    asks, draws, ends, loses, replies, retries, says, starts, stays, stays_from, stops,
};
pub use world::tasks;
