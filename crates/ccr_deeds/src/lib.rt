//! The shard worlds of a run, told by their journals, and the deeds that are done in them.
#![tactic(auto)]

mod deeds;
mod doing;
mod notes;
mod starts;
mod worlds;

pub use deeds::Deed;
pub use doing::do_deeds;
pub use notes::{FollowerNote, Note};
pub use starts::WorldStart;
pub use worlds::{Settles, Worlds};
