//! Workers that settle machines in cells.
//!
//! Each worker has a pass of each cell, takes one cell after another that nobody has taken yet, and lets what the cell's
//! machine chooses happen until nothing is left. Then the passes are joined again. No thread is started here: whoever
//! knows the machines sets the workers to work.
#![tactic(auto)]

mod crew;
mod gate;
mod room;
mod settling;
mod turns;

pub use crew::{Hand, Worker, work};
pub use gate::{Gate, Open};
pub use settling::{hire_all, release_all, settle_rest};
