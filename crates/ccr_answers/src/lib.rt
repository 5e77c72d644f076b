//! What is printed for a command of a script: the form of its answer, and its text for what the deeds were answered.
#![tactic(auto)]

mod forms;
mod joining;
mod texts;
mod told;
mod words;

pub use forms::{Answer, Decisions};
pub use joining::found;
pub use texts::text;
