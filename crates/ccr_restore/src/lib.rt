//! The bootstrap of a follower shard: it asks the leader for its retention lease, opens a session on the files
//! of a commit, and fetches them in parts. What it restored is then read as segments.
#![tactic(auto)]

mod asks;
mod fetch;
mod finish;
mod places;
mod plan;
mod progress;
mod requests;
mod restore;
mod stage;

pub use restore::{Restore, RestoreFault};
