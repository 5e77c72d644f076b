//! Queries over documents, in the form of Elasticsearch's query language: how they are read, and what
//! they mean on one document. Beside them the keys by which a search's hits are sorted, and the answer of
//! one shard.
#![tactic(auto)]

mod answers;
mod conditions;
mod counting;
mod keys;
mod queries;
mod reading;
mod sorting;

pub use answers::{Hit, ShardAnswer};
pub use conditions::Condition;
pub use counting::Reads;
pub use queries::{Node, Query};
pub use reading::BadQuery;
pub use sorting::{SortKey, SortOrder};
