use std::alloc::AllocError;
use thiserror::Error;

/// Why bytes do not begin with an operation: the first of its fields that cannot be read, each judged by
/// itself and by the fields before it.
#[derive(Debug, Drop, Error)]
pub enum BadOp {
    /// The bytes end in the field or before it.
    #[error("the bytes end inside the operation")]
    Short,
    /// The first byte is that of no kind.
    #[error("no kind of operation has this byte")]
    Kind,
    /// A length is out of its range.
    #[error("a length is out of its range")]
    Length,
    /// An id or a source is not UTF-8.
    #[error("a text is not UTF-8")]
    Utf8,
    /// Memory ran out.
    #[error("out of memory")]
    Memory,
}

impl From<AllocError> for BadOp {
    ghost use Rattle.std.specs.Prelude.{◌≡◌};
    ghost use Rattle.ccr_op.specs.declared.bad_op.BadOp.TheVariants.{Memory};

    ghost from_gives = { λ _ e. e ≡ Memory };

    fn from(_error: AllocError) -> BadOp {
        BadOp::Memory
    }
}
