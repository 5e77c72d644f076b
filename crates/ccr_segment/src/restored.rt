ghost use Rattle.std.specs.Prelude.{◌≡◌};

use crate::Segment;
use ccr_op::Count;
use std::marker::Model;
use uuid::Uuid;

/// The files of a session, each a segment.
#[derive(Debug, Drop)]
pub struct Files {
    files: Vec<Segment>,
}

impl Model for Files {
    ghost use Rattle.std.specs.Prelude.{List};
    ghost use Rattle.ccr_op.specs.Operation.{Operation};

    ghost Value = { List (List Operation) };

    ghost view = { λ a. a.files.items };
}

impl Files {
    /// These files.
    pub fn new(files: Vec<Segment>) -> Self
        ensures { result ≡ files.items }
    {
        Files { files }
    }

    /// The files.
    pub fn as_slice(&self) -> &[Segment]
        ensures { result.now ≡ self.now }
    {
        self.files.as_slice()
    }

    /// The files, with their memory.
    pub fn into_vec(self) -> Vec<Segment>
        ensures { result.items ≡ self }
    {
        self.files
    }
}

/// What a bootstrap has fetched: the operations of a copy of the leader below a count.
#[derive(Debug, Drop)]
pub struct Restored {
    /// The number below which the files have each operation that the leader still had.
    pub count: Count,
    /// The history that they are of.
    pub history: Uuid,
    /// The operations.
    pub files: Files,
}
