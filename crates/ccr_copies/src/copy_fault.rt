use std::alloc::AllocError;
use thiserror::Error;

/// Why a call on the copies of a shard was refused.
#[derive(Clone, Copy, Debug, PartialEq, Eq, Error)]
pub enum CopyFault {
    /// The copy is not in the in-sync set.
    #[error("copy {copy} is not in the in-sync set")]
    NoCopy { copy: u64 },
    /// The copy is the primary.
    #[error("copy {copy} is the primary")]
    IsPrimary { copy: u64 },
    /// The copy is the only one.
    #[error("copy {copy} is the only one")]
    LastCopy { copy: u64 },
    /// The copy was not resynced in this term.
    #[error("copy {copy} is not resynced")]
    NotReady { copy: u64 },
    /// The primary has not processed the number.
    #[error("the primary has not processed {seq}")]
    NoOperation { seq: u64 },
    /// There are eight copies.
    #[error("there are eight copies")]
    TooMany,
    /// Memory ran out, or a counter is at the last value of its type.
    #[error("out of memory")]
    Memory,
}

impl From<AllocError> for CopyFault {
    ghost use Rattle.std.specs.Prelude.{◌≡◌};
    ghost use Rattle.ccr_copies.specs.declared.copy_fault.CopyFault.TheVariants.{Memory};

    ghost from_gives = { λ _ e. e ≡ Memory };

    fn from(_error: AllocError) -> CopyFault {
        CopyFault::Memory
    }
}
