//! The sessions of a leader shard: files that a follower fetches part by part.
#![tactic(auto)]

mod faults;
mod files;
mod session;
mod sessions;
#[cfg(test)]
mod tests;

pub use faults::SessionFault;
pub use session::SESSION_PERIOD;
pub use sessions::Sessions;
