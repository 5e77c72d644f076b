//! The theorem on the journals of a shard world: what holds at every place of every legal journal whose events are
//! fit, from every start, and of each of its entries.
//!
//! A journal lists events in any order, with the reply that each gets; it is legal where each reply is the one that
//! the definitions of `ccr_model` give. It is fit where ids are texts of 1 to 512 bytes, a follower's parameters lie
//! in their ranges, and it has fewer than 2^32 entries, which is what the types of events keep of their values. So
//! the theorem speaks of every way in which messages are delivered, repeated, lost and overtaken, copies fail, come
//! and are promoted, also stale ones by force, with which a new history begins, leases expire, and tasks are paused
//! and restarted.
//!
//! The claims are proved in groups, each in a crate of its own: the leader's copies and its line, and which histories
//! were begun (`ccr_law_copies`), leases (`ccr_law_leases`), what the copies hold, that it can be spelled, and searches
//! (`ccr_law_stores`), tasks (`ccr_law_tasks`), messages, polls and sessions (`ccr_law_messages`), what each request is
//! for (`ccr_law_settling_grounds`), followers' copies and bootstraps (`ccr_law_followers`), and what a follower's
//! lease retains (`ccr_law_retention`). Here they are joined: `Parts.antt` in `specs/` has what they say together,
//! which holds at the start and which each event keeps.
//!
//! No code of this crate does anything: its functions are the places where the theorems are named.
#![tactic(auto)]

mod law;

pub use law::{headline, invariants};
