//! The forms of the program's words: `replay`, `sample SEED WRITES` and `run --workers N`.
#![tactic(auto)]

mod forms;
mod numbers;
mod workers;

pub use forms::{Form, form_of};
pub use workers::workers_in;

#[cfg(test)]
mod tests;
