//! Searches: what one shard answers to a query over what its copy holds, what the answers of several shards come to as
//! one, and how that answer is written.
#![tactic(auto)]

mod found;
mod fronts;
mod joining;
mod printing;
mod ranks;
mod shards;

pub use joining::{Answer, join_answers};
pub use printing::text;
pub use shards::shard_search;
