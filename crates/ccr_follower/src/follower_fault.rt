use ccr_copies::CopyFault;
use std::alloc::AllocError;
use thiserror::Error;

/// Why a call on a follower's engine was refused.
#[derive(Clone, Copy, Debug, PartialEq, Eq, Error)]
pub enum FollowerFault {
    /// The epoch of the write is over: the one that is kept.
    #[error("the epoch is over, {kept} is kept")]
    OldEpoch { kept: u64 },
    /// The copy is not in the in-sync set.
    #[error("copy {copy} is not in the in-sync set")]
    NoCopy { copy: u64 },
    /// The copy is the primary.
    #[error("copy {copy} is the primary")]
    IsPrimary { copy: u64 },
    /// The copy is the only one.
    #[error("copy {copy} is the only one")]
    LastCopy { copy: u64 },
    /// The copy was not resynced in this term.
    #[error("copy {copy} is not resynced")]
    NotReady { copy: u64 },
    /// The primary has not processed the number.
    #[error("the primary has not processed {seq}")]
    NoOperation { seq: u64 },
    /// There are eight copies.
    #[error("there are eight copies")]
    TooMany,
    /// Memory ran out, or a counter is at the last value of its type.
    #[error("out of memory")]
    Memory,
}

impl From<AllocError> for FollowerFault {
    ghost use Rattle.std.specs.Prelude.{◌≡◌};
    ghost use Rattle.ccr_follower.specs.declared.follower_fault.FollowerFault.TheVariants.{Memory};

    ghost from_gives = { λ _ e. e ≡ Memory };

    fn from(_error: AllocError) -> FollowerFault {
        FollowerFault::Memory
    }
}

impl From<CopyFault> for FollowerFault {
    ghost use Rattle.std.specs.Prelude.{◌≡◌};
    ghost use Rattle.ccr_follower.specs.Faults.{copy_fault};

    ghost from_gives = { λ fault e. e ≡ copy_fault fault };

    fn from(fault: CopyFault) -> FollowerFault {
        match fault {
            CopyFault::NoCopy { copy } => FollowerFault::NoCopy { copy },
            CopyFault::IsPrimary { copy } => FollowerFault::IsPrimary { copy },
            CopyFault::LastCopy { copy } => FollowerFault::LastCopy { copy },
            CopyFault::NotReady { copy } => FollowerFault::NotReady { copy },
            CopyFault::NoOperation { seq } => FollowerFault::NoOperation { seq },
            CopyFault::TooMany => FollowerFault::TooMany,
            CopyFault::Memory => FollowerFault::Memory,
        }
    }
}
