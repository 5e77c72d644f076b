// How the copies of a shard, and a follower, stand.
ghost use Rattle.std.specs.Prelude.{◌≡◌, IfOk};

use crate::sides::Phase;
use ccr_lease::Lease;
use ccr_op::{Count, Term};
use std::alloc::{AllocError, Global};
use std::marker::Model;

/// How one copy stands.
#[derive(Clone, Copy, Debug, PartialEq, Eq)]
pub struct CopyStatus {
    /// The number of the copy.
    pub copy: u32,
    /// The least number that it has not processed.
    pub count: Count,
    /// The global count that it knows.
    pub global: Count,
    /// The least number from which on it keeps all operations.
    pub floor: Count,
    /// How many operations it holds.
    pub held: u64,
}

/// How the copies of a shard stand, the primary first and the others ascending. Contracts see the list.
#[derive(Debug, Drop)]
pub struct CopyStatuses {
    list: Vec<CopyStatus>,
}

impl Model for CopyStatuses {
    ghost use Rattle.std.specs.Prelude.{List};
    ghost use Rattle.ccr_journal.specs.declared.statuses.CopyStatus.{CopyStatus};

    ghost Value = { List CopyStatus };

    ghost view = { λ a. a.list.items };
}

impl CopyStatuses {
    /// These copies.
    pub fn new(list: Vec<CopyStatus>) -> Self
        ensures { result ≡ list.items }
    {
        CopyStatuses { list }
    }

    /// The copies.
    pub fn as_slice(&self) -> &[CopyStatus]
        ensures { result.now ≡ self.now }
    {
        self.list.as_slice()
    }

    /// The copies, with their memory.
    pub fn into_vec(self) -> Vec<CopyStatus>
        ensures { result.items ≡ self }
    {
        self.list
    }

    /// An equal list.
    pub fn copy(&self, alloc: Global) -> Result<Self, AllocError>
        ensures { IfOk result (λ other. other ≡ self.now) }
    {
        let list = Vec::from_slice(alloc, self.list.as_slice())?;
        Ok(CopyStatuses { list })
    }
}

/// How a follower shard stands.
#[derive(Debug, Drop)]
pub struct FollowerStatus {
    pub phase: Phase,
    /// The epoch of its task, which is 0 during the bootstrap.
    pub epoch: u64,
    /// The term of its primary.
    pub term: Term,
    pub copies: CopyStatuses,
    /// How many reads are outstanding.
    pub reads: u64,
    /// How many operations are in the buffer.
    pub buffer: u64,
    /// How many writes are outstanding.
    pub writes: u64,
}

impl FollowerStatus {
    /// An equal status.
    pub fn copy(&self, alloc: Global) -> Result<Self, AllocError>
        ensures { IfOk result (λ other. other ≡ self.now) }
    {
        let copies = self.copies.copy(alloc)?;
        Ok(FollowerStatus {
            phase: self.phase,
            epoch: self.epoch,
            term: self.term,
            copies,
            reads: self.reads,
            buffer: self.buffer,
            writes: self.writes,
        })
    }
}

/// The leases of a collection, ascending by the bytes of their ids. Contracts see the list.
#[derive(Debug, Drop)]
pub struct KeptLeases {
    list: Vec<Lease>,
}

impl Model for KeptLeases {
    ghost use Rattle.std.specs.Prelude.{List};
    ghost use Rattle.ccr_lease.specs.declared.retention.Lease.{Lease};

    ghost Value = { List Lease };

    ghost view = { λ a. a.list.items };
}

impl KeptLeases {
    /// These leases.
    pub fn new(list: Vec<Lease>) -> Self
        ensures { result ≡ list.items }
    {
        KeptLeases { list }
    }

    /// The leases.
    pub fn as_slice(&self) -> &[Lease]
        ensures { result.now ≡ self.now }
    {
        self.list.as_slice()
    }

    /// The leases, with their memory.
    pub fn into_vec(self) -> Vec<Lease>
        ensures { result.items ≡ self }
    {
        self.list
    }

    /// An equal list.
    pub fn copy(&self, alloc: Global) -> Result<Self, AllocError>
        ensures { IfOk result (λ other. other ≡ self.now) }
    {
        let list = copy_leases(alloc, self.list.as_slice())?;
        Ok(KeptLeases { list })
    }
}

fn copy_leases(alloc: Global, leases: &[Lease]) -> Result<Vec<Lease>, AllocError>
    ensures { IfOk result (λ copies. copies.items ≡ leases.now) }
{
    let mut copies = Vec::with_capacity(alloc, leases.len())?;
    for lease in leases {
        let copied = lease.copy(alloc)?;
        copies.push(copied)?;
    }
    Ok(copies)
}
