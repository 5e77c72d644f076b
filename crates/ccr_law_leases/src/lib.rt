//! The leases of a shard leader's copies, at every place of a legal journal.
//!
//! A lease of an id retains a number: the greatest that it was added, answered or renewed with so far. It is
//! unbroken where an answer about it was sent and nothing dropped or removed it since. Proved here, over the
//! definitions of `ccr_model` alone: no collection has a lease with a number above what its id retains; an
//! unbroken lease is in the collection of each in-sync copy, and no copy's floor is above what it retains; a
//! replica's collection is the primary's, or the primary's supersedes it; and a merge drops no operation at or
//! above the number of a lease of the same copy. A lease that an entry answered, and that no entry after it dropped
//! or removed, is unbroken. An expiry drops each lease whose period is over, and no other.
//!
//! No code of this crate does anything: its functions are the places where the theorems are named.
#![tactic(auto)]

mod law;

pub use law::{leader_expiry, leader_leases, leader_merges, lease_history};
