//! How a run ends.
ghost use Rattle.std.specs.Prelude.{◌≡◌};

use ccr_script::BadLine;

/// How a run ended.
#[derive(Clone, Copy, Debug, PartialEq, Eq)]
pub enum Status {
    /// The script was read to its end, and each command was done and answered.
    Done,
    /// The line of this number, from 1 on, is the first that is bad: why is never `Memory`.
    BadLine { line: u64, why: BadLine },
    /// The source failed.
    ReadFault,
    /// The sink failed.
    WriteFault,
    /// Memory ran out.
    OutOfMemory,
    /// The words are none of the program's forms. Nothing was read or written.
    Usage,
}

impl Status {
    ghost use Rattle.ccr_playing.specs.Codes.{code_of};

    /// The exit status of the program: 0, 2, 3, 4, 5 or 64 in the order of the variants.
    pub fn code(self) -> u8
        ensures { result ≡ code_of self }
    {
        match self {
            Status::Done => 0,
            Status::BadLine { .. } => 2,
            Status::ReadFault => 3,
            Status::WriteFault => 4,
            Status::OutOfMemory => 5,
            Status::Usage => 64,
        }
    }
}
