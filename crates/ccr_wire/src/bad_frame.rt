use std::alloc::{AllocError, AllocFailed};
use thiserror::Error;

/// Why bytes are no frame: the first of its fields that cannot be read, each judged by itself and by the
/// fields before it.
#[derive(Debug, Drop, Error)]
pub enum BadFrame {
    /// The bytes end in the field or before it.
    #[error("the bytes end inside the frame")]
    Short,
    /// The first byte is that of no kind.
    #[error("no kind of frame has this byte")]
    Kind,
    /// A length or a size is out of its range.
    #[error("a length or a size is out of its range")]
    Length,
    /// An id is not UTF-8, a result byte is unknown, a lease that was not found has a number, or an operation
    /// cannot be read or has another number than its place asks.
    #[error("a field has no such value")]
    Field,
    /// Bytes stand behind the last field.
    #[error("bytes stand behind the last field")]
    Trailing,
    /// Memory ran out.
    #[error("out of memory")]
    Memory,
}

impl From<AllocError> for BadFrame {
    ghost use Rattle.std.specs.Prelude.{◌≡◌};
    ghost use Rattle.ccr_wire.specs.declared.bad_frame.BadFrame.TheVariants.{Memory};

    ghost from_gives = { λ _ e. e ≡ Memory };

    fn from(_error: AllocError) -> BadFrame {
        BadFrame::Memory
    }
}

impl<T: Drop> From<AllocFailed<T>> for BadFrame {
    ghost use Rattle.std.specs.Prelude.{◌≡◌};
    ghost use Rattle.ccr_wire.specs.declared.bad_frame.BadFrame.TheVariants.{Memory};

    ghost from_gives = { λ _ e. e ≡ Memory };

    fn from(_error: AllocFailed<T>) -> BadFrame {
        BadFrame::Memory
    }
}
