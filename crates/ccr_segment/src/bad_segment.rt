use ccr_op::BadOp;
use std::alloc::{AllocError, AllocFailed};
use thiserror::Error;

/// Why bytes are no segment: the first of its fields that cannot be read, each judged by itself and by the
/// fields before it.
#[derive(Debug, Drop, Error)]
pub enum BadSegment {
    /// One of the first four bytes is not that of `CCRS`.
    #[error("the bytes do not begin as a segment does")]
    Magic,
    /// The version is neither 1 nor 2.
    #[error("the segment has an unknown version")]
    Version,
    /// The bytes end inside the header or inside an operation.
    #[error("the bytes end inside the segment")]
    Short,
    /// The number of an operation is not above that of the one before.
    #[error("the operations are not in ascending order")]
    Order,
    /// An operation cannot be read for another cause than its end.
    #[error("an operation cannot be read")]
    Op,
    /// Bytes stand behind the last operation.
    #[error("bytes stand behind the last operation")]
    Trailing,
    /// The version is 2, and no operation has a routing.
    #[error("the segment is of the version with routings and has none")]
    NoRouting,
    /// Memory ran out.
    #[error("out of memory")]
    Memory,
}

/// An operation that ends early makes the segment end early, and one with another fault cannot be read.
impl From<BadOp> for BadSegment {
    ghost use Rattle.std.specs.Prelude.{◌≡◌};
    ghost use Rattle.ccr_segment.specs.Reading.{op_fault};

    ghost from_gives = { λ fault e. e ≡ op_fault fault };

    fn from(fault: BadOp) -> BadSegment {
        match fault {
            BadOp::Short => BadSegment::Short,
            BadOp::Kind | BadOp::Length | BadOp::Utf8 => BadSegment::Op,
            BadOp::Memory => BadSegment::Memory,
        }
    }
}

impl From<AllocError> for BadSegment {
    ghost use Rattle.std.specs.Prelude.{◌≡◌};
    ghost use Rattle.ccr_segment.specs.declared.bad_segment.BadSegment.TheVariants.{Memory};

    ghost from_gives = { λ _ e. e ≡ Memory };

    fn from(_error: AllocError) -> BadSegment {
        BadSegment::Memory
    }
}

impl<T: Drop> From<AllocFailed<T>> for BadSegment {
    ghost use Rattle.std.specs.Prelude.{◌≡◌};
    ghost use Rattle.ccr_segment.specs.declared.bad_segment.BadSegment.TheVariants.{Memory};

    ghost from_gives = { λ _ e. e ≡ Memory };

    fn from(_error: AllocFailed<T>) -> BadSegment {
        BadSegment::Memory
    }
}
