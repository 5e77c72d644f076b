//! The byte of each kind of operation.

/// An index operation.
pub const INDEX: u8 = 1;

/// A delete.
pub const DELETE: u8 = 2;

/// A no-op.
pub const NO_OP: u8 = 3;

/// An index operation with a routing.
pub const ROUTED_INDEX: u8 = 4;

/// A delete with a routing.
pub const ROUTED_DELETE: u8 = 5;
