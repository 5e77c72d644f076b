//! The operations of a replicated shard, and the plain types that every other part names: texts with
//! their bounds, counts, terms and times.
#![tactic(auto)]

mod bad_op;
mod batches;
mod decoding;
mod encoding;
mod history;
mod ids;
mod index_name;
mod kinds;
mod operation;
mod texts;

pub use bad_op::BadOp;
pub use batches::{Batch, copy_ops};
pub use decoding::{decode, measure};
pub use encoding::encode;
pub use history::History;
pub use ids::{DocId, LeaseId, MOST_ID_BYTES};
pub use index_name::IndexName;
pub use kinds::{ROUTED_DELETE, ROUTED_INDEX};
pub use operation::{Kind, LEAST_SOURCE_BYTES, MOST_SOURCE_BYTES, Op};
pub use texts::{Body, Name};

/// A number of operations that come before a place: the least sequence number that is not yet there.
/// A checkpoint, as the Elastic reference on sequence numbers has it, is a count less 1.
pub type Count = u64;

/// A primary term: it starts at 1 and rises by 1 with each promotion.
pub type Term = u64;

/// A reading of a clock, or a span of time, in milliseconds.
pub type Millis = u64;
