//! What code may rest on in a state that a possible journal leads to.
//!
//! A journal is possible where its start has 1 to 8 copies, its events are fit, it has fewer than 2^32 entries, and
//! each entry has the reply that `ccr_model` gives. A state is reached where some possible journal leads to it
//! (`specs/Reached`). A call whose caller keeps a possible journal may require that the state is reached, and takes from
//! here what the theorems on journals say of it.
//!
//! No code of this crate does anything: its functions are the places where the theorems are named.
#![tactic(auto)]

mod facts;

pub use facts::{
    fetched_files_are_right, kept_requests_wait, numbers_are_held_once, parts_are_there,
    polls_are_of_followers, primary_has_no_gap, settling_ends, settling_lowers,
};
