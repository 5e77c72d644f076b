ghost use Rattle.std.specs.Prelude.{◌≡◌};

use std::alloc::AllocError;
use thiserror::Error;

/// Why a part of a file was refused.
#[derive(Debug, Clone, Copy, PartialEq, Eq, Error)]
pub enum SessionFault {
    /// There is no such session: it was closed, or it never began.
    #[error("there is no such session")]
    NoSession,
    /// The session has no file of this number.
    #[error("the session has no such file")]
    NoFile,
    /// The offset is not below the size of the file.
    #[error("the file ends before the offset")]
    Range,
    /// Memory ran out.
    #[error("out of memory")]
    Memory,
}

impl From<AllocError> for SessionFault {
    ghost use Rattle.std.specs.Prelude.{◌≡◌};
    ghost use Rattle.ccr_session.specs.declared.faults.SessionFault.TheVariants.{Memory};

    ghost from_gives = { λ _ fault. fault ≡ Memory };

    fn from(_refused: AllocError) -> SessionFault {
        SessionFault::Memory
    }
}
