//! What a copy of a shard holds: operations in closed parts and in one part that still takes operations.
//!
//! Each operation is kept once, under its number. A part is a list of numbers, so that closing a part or
//! joining parts moves no operation. Beside these stand, for each id, the numbers of the operations about it.
#![tactic(auto)]

mod by_id;
mod cuts;
mod files;
mod filling;
mod merges;
mod parts;
mod store;

pub use store::Store;
