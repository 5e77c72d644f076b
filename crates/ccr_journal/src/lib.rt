//! What happens in a shard world and what it is answered: the events, their replies, and the journal of
//! both. A shard world is one leader shard, the follower shards that replicate it, and the messages between
//! them. A place counts from 0.
#![tactic(auto)]

mod boxed;
mod events;
mod journals;
mod params;
mod replies;
mod requests;
mod sides;
mod statuses;

pub use boxed::Boxed;
pub use ccr_op::Batch;
pub use events::Event;
pub use journals::{Entry, Journal};
pub use params::{ParamValues, Params};
pub use replies::{ExpiredLeases, Heard, Refusal, Reply, WriteResult, Wrote};
pub use requests::{SearchRequest, SortKeys, WriteRequest};
pub use sides::{CopyCount, Phase, Side};
pub use statuses::{CopyStatus, CopyStatuses, FollowerStatus, KeptLeases};
