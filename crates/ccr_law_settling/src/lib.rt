//! Settling: five numbers that each of its events makes smaller, what is left where none of its events may be used, and
//! both joined over every fit and legal journal.
//!
//! No code of this crate does anything: its functions are the places where the theorems are named. The claims stand in
//! `specs/`, their proofs in `proofs/`.
#![tactic(auto)]

mod everywhere;
mod fetches;
mod measuring;
mod remains;
mod tasks;

pub use everywhere::settling;
pub use fetches::fetches_lower_measure;
pub use measuring::{
    asking_lowers_measure, copying_lowers_measure, delivery_lowers_measure, ending_lowers_measure,
    no_endless_descent, nothing_left_at_leader, settling_adds_no_operation, waiting_lowers_measure,
};
pub use remains::{active_copies_are_whole, followers_end, nothing_left_to_fetch_or_write};
pub use tasks::{replies_lower_measure, ticks_lower_measure};
