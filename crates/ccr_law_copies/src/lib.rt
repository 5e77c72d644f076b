//! The copies of a shard leader, its line of operations, and the histories that begin at forced promotions, at every
//! place of a legal journal.
//!
//! No code of this crate does anything: its functions are the places where the theorems are named. The claims stand in
//! `specs/`, their proofs in `proofs/`.
#![tactic(auto)]

mod beginnings;
mod leader;

pub use beginnings::{histories, own_histories};
pub use leader::leader_copies;
