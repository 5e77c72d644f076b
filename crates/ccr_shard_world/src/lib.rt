//! A shard world: one leader shard, the followers that replicate it and the messages between them, with the journal of
//! all that happened and the policy that picks what a merge joins.
//!
//! Each step adds one entry, of the event and the reply that the definitions of `ccr_model` give it. So the journal of a
//! world could have come about from its start, and what `ccr_law` proves of such journals holds of it: `into_journal`
//! hands it on with the theorem. A world has fewer than 2^32 entries; one more is answered as want of memory.
#![tactic(auto)]

mod fits;
mod machine;
mod policy;
mod recorded;
mod world;

pub use ccr_leader::Start;
pub use ccr_shard::Note;
pub use policy::Chooser;
pub use recorded::Recorded;
pub use world::World;
