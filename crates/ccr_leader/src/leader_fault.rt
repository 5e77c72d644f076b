use ccr_copies::CopyFault;
use ccr_doc::BadSource;
use ccr_op::{Count, Term};
use std::alloc::AllocError;
use thiserror::Error;

/// Why a call on a leader was refused. A refused call changes nothing.
#[derive(Clone, Copy, Debug, PartialEq, Eq, Error)]
pub enum LeaderFault {
    /// The copy is not in the in-sync set.
    #[error("copy {copy} is not in the in-sync set")]
    NoCopy { copy: u64 },
    /// The copy is the primary.
    #[error("copy {copy} is the primary")]
    IsPrimary { copy: u64 },
    /// The copy is the only one.
    #[error("copy {copy} is the only one")]
    LastCopy { copy: u64 },
    /// The copy was not resynced in this term.
    #[error("copy {copy} is not resynced")]
    NotReady { copy: u64 },
    /// The primary has not processed the number.
    #[error("the primary has not processed {seq}")]
    NoOperation { seq: u64 },
    /// There are eight copies.
    #[error("there are eight copies")]
    TooMany,
    /// The copy is not among those that left and are kept.
    #[error("copy {copy} is not among those that left and are kept")]
    NoStale { copy: u64 },
    /// No poll is parked at that place.
    #[error("no poll is parked at {at}")]
    NoPoll { at: u64 },
    /// The copy has no operation of the poll's number yet, and the poll's time is not over: its global count.
    #[error("the poll waits beyond {global}")]
    Wait { global: Count },
    /// The write expects another operation: the number and term of the document's, if there is one.
    #[error("the document was written by another operation")]
    Conflict { last: Option<(u64, Term)> },
    /// The document is there already: its operation's number.
    #[error("the document is there already, since operation {seq}")]
    Exists { seq: u64 },
    /// The source is no document. The cause is never `Memory`.
    #[error("the source is no document")]
    BadSource(BadSource),
    /// Memory ran out, or a counter is at the last value of its type.
    #[error("out of memory")]
    Memory,
}

impl From<AllocError> for LeaderFault {
    ghost use Rattle.std.specs.Prelude.{◌≡◌};
    ghost use Rattle.ccr_leader.specs.declared.leader_fault.LeaderFault.TheVariants.{Memory};

    ghost from_gives = { λ _ e. e ≡ Memory };

    fn from(_error: AllocError) -> LeaderFault {
        LeaderFault::Memory
    }
}

impl From<CopyFault> for LeaderFault {
    ghost use Rattle.std.specs.Prelude.{◌≡◌};
    ghost use Rattle.ccr_leader.specs.Faults.{of_copies};

    ghost from_gives = { λ fault e. e ≡ of_copies fault };

    fn from(fault: CopyFault) -> LeaderFault {
        match fault {
            CopyFault::NoCopy { copy } => LeaderFault::NoCopy { copy },
            CopyFault::IsPrimary { copy } => LeaderFault::IsPrimary { copy },
            CopyFault::LastCopy { copy } => LeaderFault::LastCopy { copy },
            CopyFault::NotReady { copy } => LeaderFault::NotReady { copy },
            CopyFault::NoOperation { seq } => LeaderFault::NoOperation { seq },
            CopyFault::TooMany => LeaderFault::TooMany,
            CopyFault::Memory => LeaderFault::Memory,
        }
    }
}
