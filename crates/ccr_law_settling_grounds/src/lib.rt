//! What settling rests on besides the theorem's groups: what requests are for, what is told and known of the leader's
//! count, what waits at the leader, and what followers have outstanding.
//!
//! No code of this crate does anything: its functions are the places where the theorems are named. The claims stand in
//! `specs/`, their proofs in `proofs/`.
#![tactic(auto)]

mod counts;
mod requests;
mod waits;
mod works;

pub use counts::known_counts;
pub use requests::purposes;
pub use waits::parked;
pub use works::pending;
