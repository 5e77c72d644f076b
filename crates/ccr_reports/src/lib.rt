//! What a run of a script leaves, and what a report of it tells.
#![tactic(auto)]

mod reports;

pub use reports::Report;
