//! The edge of a program: where bytes come from, where they go, and how often that failed.
//!
//! A program that is generic over a `Source` and a `Sink` can have its whole input and output named by a
//! contract, at sources and sinks over memory, and runs unchanged at standard input and output, of
//! whose bytes no clause can speak. Each source and each sink counts its faults, so that a contract
//! can say that an error of the edge came only where the edge failed.
#![tactic(auto)]

mod error;
mod memory;
mod pure;
mod standard;
mod traits;

pub use error::Failed;
pub use memory::{MemSink, MemSource};
pub use pure::{PureSink, PureSource};
pub use standard::{StdSink, StdSource};
pub use traits::{Sink, Source, write_all};

#[cfg(test)]
mod tests;
