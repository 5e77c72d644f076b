//! The program's top calls. The words of the program name a form; by it a script of JSON lines is read, its commands
//! are done one after another in shard worlds, and each is answered by a line; or a script that is made from a seed is
//! done, and one line sums it up.
#![tactic(auto)]

mod replays;
mod samples;

pub use ccr_playing::Status;
pub use ccr_reports::Report;
pub use ccr_words::Form;
pub use replays::replay;
