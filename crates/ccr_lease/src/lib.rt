//! Retention leases: what a primary promises its followers to keep.
//! A lease has an id and a retaining number: no operation from that number on is dropped from the
//! history while the lease stands (Elastic reference, history retention).
#![tactic(auto)]

mod collection;
mod retention;

pub use collection::{LeaseFault, Leases};
pub use retention::{Expired, Lease};
