//! Segments: operations as the bytes of a file, and files opened again so that each operation is found by
//! its number.
#![tactic(auto)]

mod bad_segment;
mod index;
mod reading;
mod restored;
mod segment;
mod versions;
mod writer;
mod writing;

pub use bad_segment::BadSegment;
pub use restored::{Files, Restored};
pub use segment::Segment;
pub use writer::Writer;
pub use writing::{size, write};
