ghost use Rattle.std.specs.Prelude.{◌≡◌};

use ccr_op::Op;
use std::marker::Model;

/// The operations of a reply to a read. Contracts see the list of them.
#[derive(Debug, Drop)]
pub struct Ops {
    list: Vec<Op>,
}

impl Model for Ops {
    ghost use Rattle.std.specs.Prelude.{List};
    ghost use Rattle.ccr_op.specs.Operation.{Operation};

    ghost Value = { List Operation };

    ghost view = { λ a. a.list.items };
}

impl Ops {
    /// These operations.
    pub fn new(list: Vec<Op>) -> Self
        ensures { result ≡ list.items }
    {
        Ops { list }
    }

    /// The operations.
    pub fn as_slice(&self) -> &[Op]
        ensures { result.now ≡ self.now }
    {
        self.list.as_slice()
    }

    /// The operations, with their memory.
    pub fn into_vec(self) -> Vec<Op>
        ensures { result.items ≡ self }
    {
        self.list
    }
}

/// The sizes of a session's files, in bytes. Contracts see the list of them.
#[derive(Debug, Drop)]
pub struct Sizes {
    list: Vec<u64>,
}

impl Model for Sizes {
    ghost use Rattle.std.specs.Prelude.{List, ℕ};

    ghost Value = { List ℕ };

    ghost view = { λ a. a.list.items };
}

impl Sizes {
    /// These sizes.
    pub fn new(list: Vec<u64>) -> Self
        ensures { result ≡ list.items }
    {
        Sizes { list }
    }

    /// The sizes.
    pub fn as_slice(&self) -> &[u64]
        ensures { result.now ≡ self.now }
    {
        self.list.as_slice()
    }

    /// The sizes, with their memory.
    pub fn into_vec(self) -> Vec<u64>
        ensures { result.items ≡ self }
    {
        self.list
    }
}

/// A part of a file. Contracts see its bytes.
#[derive(Debug, Drop)]
pub struct Chunk {
    list: Vec<u8>,
}

impl Model for Chunk {
    ghost use Rattle.std.specs.Prelude.{List, ℕ};

    ghost Value = { List ℕ };

    ghost view = { λ a. a.list.items };
}

impl Chunk {
    /// These bytes.
    pub fn new(list: Vec<u8>) -> Self
        ensures { result ≡ list.items }
    {
        Chunk { list }
    }

    /// The bytes.
    pub fn as_slice(&self) -> &[u8]
        ensures { result.now ≡ self.now }
    {
        self.list.as_slice()
    }

    /// The bytes, with their memory.
    pub fn into_vec(self) -> Vec<u8>
        ensures { result.items ≡ self }
    {
        self.list
    }
}
