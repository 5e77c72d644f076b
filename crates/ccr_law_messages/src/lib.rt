//! The messages in flight, the polls, the kept requests and the sessions of a shard world, at every place of a
//! legal journal.
//!
//! A request number is used for one request of a follower alone. So a message in flight under a number that is
//! still outstanding was sent for the read, or for the part of a file, that waits for it: a request for
//! operations asks what the read asks, and a reply brings committed operations of consecutive numbers, from the
//! read's number on and within what it asked for; a request for a part names a place in a file of its session,
//! and the bytes that come are all of that part. A session stays as it was opened, its files hold the committed
//! operations below its count, and a bootstrap that fetches has true parts of it alone. Each message names a
//! follower that was made, and a request about a lease is about that follower's own.
//!
//! Taken from others: the leader's copies have the line and their stores serve for it, the session that would be
//! opened now serves for the line up to its count, and the parameters of new followers are in their ranges.
//!
//! No code of this crate does anything: its functions are the places where the theorems are named.
#![tactic(auto)]

mod law;

pub use law::{frames_keep, frames_say, frames_start};
