//! What the commands of a script come to over clusters, indices, shards and followers: a plan of worlds to be made and
//! of deeds in them.
#![tactic(auto)]

mod clocks;
mod grouped;
mod making;
mod notes;
mod planning;
mod plans;
mod reads;

pub use planning::plan;
pub use plans::Plan;
pub use reads::{index_read, is_settle};
