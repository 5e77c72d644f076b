//! The commands of a script, done in shard worlds: what a command comes to is planned, its deeds are done, and its
//! answer is printed.
#![tactic(auto)]

mod game;
mod making;
mod planning;
mod players;
mod reading;
mod scenes;

pub use game::{Game, Told};
pub use scenes::SceneOf;
