//! What a shard world answers to searches while it is as a settle left it.
//!
//! No code of this crate does anything: its functions are the places where the theorems are named. The claims stand in
//! `specs/`, their proofs in `proofs/`.
#![tactic(auto)]

mod settled;

pub use settled::{a_settle_before_a_promotion, settled_answers};
