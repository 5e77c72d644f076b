//! What is wrong with a line that ends a run.

use std::alloc::AllocError;
use thiserror::Error;

/// Why a line was not read.
#[derive(Clone, Copy, Debug, PartialEq, Eq, Error)]
pub enum BadLine {
    /// It is no JSON value in UTF-8.
    #[error("the line isn't JSON")]
    NotJson,
    /// It is no object, or has no text `op` that names a command.
    #[error("the line names no command")]
    NoOp,
    /// A field of the command is absent, isn't one of the command's, or has a value that isn't of its kind.
    #[error("a field is absent, unlisted, or not of its kind")]
    BadField,
    /// It has more bytes than a line may have.
    #[error("the line is too long")]
    TooLong,
    /// More lines came before it than a script may have.
    #[error("the script has too many lines")]
    TooMany,
    /// Memory ran out.
    #[error("out of memory")]
    Memory,
}

impl From<AllocError> for BadLine {
    ghost use Rattle.std.specs.Prelude.{◌≡◌};
    ghost use Rattle.ccr_script.specs.declared.bad_lines.BadLine.TheVariants.{Memory};

    ghost from_gives = { λ _ e. e ≡ Memory };

    fn from(_refused: AllocError) -> BadLine {
        BadLine::Memory
    }
}
