//! What a shard world is and what each event does to it, as definitions: the state as plain records, one row
//! an event, the world after a journal, and the legal journals. No code of this crate does anything; the
//! definitions stand in `specs/`.
#![tactic(auto)]
