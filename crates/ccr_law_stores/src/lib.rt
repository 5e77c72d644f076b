//! What copies hold, whether a leader's or a follower's: what they hold serves for what they were given, its operations
//! can be spelled in bytes, and searches show it.
//!
//! No code of this crate does anything: its functions are the places where the theorems are named. The claims stand in
//! `specs/`, their proofs in `proofs/`.
#![tactic(auto)]

mod holdings;
mod searches;
mod several_shards;
mod spellings;

pub use holdings::{copy_changes, leader_stores, leased_stays, longest_cut, reads, session_files};
pub use searches::searches_answer;
pub use several_shards::fronts_join;
pub use spellings::{source_texts, spelled_operations};
