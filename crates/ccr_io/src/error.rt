//! The error of the edge.

use thiserror::Error;

/// A read or a write failed. Its source or sink has counted it.
#[derive(Clone, Copy, Debug, PartialEq, Eq, Error)]
#[error("reading or writing failed")]
pub struct Failed;
