//! A run: the lines of a source are commands, a player does them one by one, and each answer is written to a sink.
//!
//! It is proved for any player, source and sink: what commands there are, what they do and what they are answered is the player's own.
#![tactic(auto)]

mod answering;
mod players;
mod playing;
mod statuses;

pub use answering::answer_left;
pub use players::{Player, Whole};
pub use playing::{Halt, play, play_on};
pub use statuses::Status;
