// What an event of a shard world is answered.
ghost use Rattle.std.specs.Prelude.{◌≡◌, IfOk};

use crate::boxed::Boxed;
use crate::statuses::{CopyStatuses, FollowerStatus, KeptLeases};
use ccr_doc::BadSource;
use ccr_lease::Expired;
use ccr_op::{Batch, Count, Term};
use ccr_policy::Picks;
use ccr_query::ShardAnswer;
use ccr_wire::LeaseResult;
use std::alloc::{AllocError, Global};
use std::marker::Model;

/// What a write or a delete found under its id.
#[derive(Clone, Copy, Debug, PartialEq, Eq)]
pub enum WriteResult {
    /// A write found no live document.
    Created,
    /// A write found a live document.
    Updated,
    /// A delete found a live document.
    Deleted,
    /// A delete found no live document.
    NotFound,
}

/// The operation that a write became.
#[derive(Clone, Copy, Debug, PartialEq, Eq)]
pub struct Wrote {
    /// Its sequence number.
    pub seq: u64,
    /// The primary's term.
    pub term: Term,
    /// The version of its document.
    pub version: u64,
    /// What it found under its id.
    pub result: WriteResult,
}

/// What the receiver of a message, or of a wake, did.
#[derive(Clone, Copy, Debug, PartialEq, Eq)]
pub enum Heard {
    /// It took the message, and answered where an answer is due.
    Done,
    /// The read waits for an operation of its number.
    Parked,
    /// The read waited for its time, and was answered without an operation.
    Empty,
    /// The read asked for operations that may be gone.
    Missing { from: Count, floor: Count },
    /// The read asked for another history.
    History,
    /// A request about a lease was answered so.
    Lease { result: LeaseResult, number: Count },
    /// A request for a lease is kept until each in-sync copy has the lease; this is the least that has not.
    Waiting { copy: u32 },
    /// The least copy that a session or a lease has to wait for.
    NotReady { copy: u32 },
    /// The session is closed.
    Gone,
    /// The message answers no request that was sent.
    Ignored,
    /// The follower's task stopped, since what it asked for is gone.
    StoppedMissing,
    /// The follower's task stopped, since the leader has another history.
    StoppedHistory,
}

/// Why an event was refused. A refused event changes nothing but the journal.
#[derive(Clone, Copy, Debug, PartialEq, Eq)]
pub enum Refusal {
    /// The copy is not in the in-sync set.
    NoCopy { copy: u64 },
    /// The copy is the primary.
    IsPrimary { copy: u64 },
    /// The copy is the only one.
    LastCopy { copy: u64 },
    /// The copy is not resynced.
    NotReady { copy: u64 },
    /// The primary has not processed the number.
    NoOperation { seq: u64 },
    /// The shard has 8 copies, or the world 8 followers.
    TooMany,
    /// No message is in flight at that place.
    NoFrame { at: u64 },
    /// No poll is parked at that place.
    NoPoll { at: u64 },
    /// The copy has no operation of the poll's number yet: its global count.
    Wait { global: Count },
    /// No request was sent at that place.
    NoRequest { at: u64 },
    /// No write of that number was sent, or it has other operations.
    NoBatch { write: u64 },
    /// The epoch is over: the one that is kept.
    OldEpoch { kept: u64 },
    /// The least copy that has not processed one of the write's operations.
    NotWritten { copy: u64 },
    /// The follower's task is not active.
    NotActive,
    /// The follower is in its bootstrap.
    Bootstrapping,
    /// The write expects another operation: the number and term of the document's, if there is one.
    Conflict { last: Option<(u64, Term)> },
    /// The document is there already: its operation's number.
    Exists { seq: u64 },
    /// The source is no document. The cause is never `Memory`.
    BadSource(BadSource),
    /// The follower is not paused.
    NotPaused,
    /// This follower has the same lease id.
    SameName { f: u32 },
    /// There is no follower of that number.
    NoFollower { f: u32 },
    /// The world is not settled.
    NotSettled,
    /// The copy is not among those that left and are kept.
    NoStale { copy: u64 },
}

/// The leases that an expiry dropped, in the collection's order. Contracts see the list.
#[derive(Debug, Drop)]
pub struct ExpiredLeases {
    list: Vec<Expired>,
}

impl Model for ExpiredLeases {
    ghost use Rattle.std.specs.Prelude.{List};
    ghost use Rattle.ccr_lease.specs.declared.retention.Expired.{Expired};

    ghost Value = { List Expired };

    ghost view = { λ a. a.list.items };
}

impl ExpiredLeases {
    /// These leases.
    pub fn new(list: Vec<Expired>) -> Self
        ensures { result ≡ list.items }
    {
        ExpiredLeases { list }
    }

    /// The leases.
    pub fn as_slice(&self) -> &[Expired]
        ensures { result.now ≡ self.now }
    {
        self.list.as_slice()
    }

    /// The leases, with their memory.
    pub fn into_vec(self) -> Vec<Expired>
        ensures { result.items ≡ self }
    {
        self.list
    }

    /// An equal list.
    pub fn copy(&self, alloc: Global) -> Result<Self, AllocError>
        ensures { IfOk result (λ other. other ≡ self.now) }
    {
        let list = copy_expired(alloc, self.list.as_slice())?;
        Ok(ExpiredLeases { list })
    }
}

fn copy_expired(alloc: Global, leases: &[Expired]) -> Result<Vec<Expired>, AllocError>
    ensures { IfOk result (λ copies. copies.items ≡ leases.now) }
{
    let mut copies = Vec::with_capacity(alloc, leases.len())?;
    for lease in leases {
        let copied = lease.copy(alloc)?;
        copies.push(copied)?;
    }
    Ok(copies)
}

/// What an event is answered.
#[derive(Drop)]
pub enum Reply {
    /// A write was numbered and taken by the primary.
    Written(Boxed<Wrote>),
    /// The primary learnt a copy's count: the global count after that.
    Acked {
        global: Count,
    },
    /// A copy became the primary: the new term, and how many numbers became no-ops.
    Promoted {
        term: Term,
        filled: u64,
    },
    /// A stale copy became the only one: the new term, and how many numbers became no-ops.
    Forced {
        term: Term,
        filled: u64,
    },
    /// How many operations a copy dropped and took.
    Resynced {
        dropped: u64,
        taken: u64,
    },
    /// The number of the new copy.
    Added {
        copy: u32,
    },
    /// The commit count after a flush.
    Flushed {
        commit: Count,
    },
    /// The floor after a merge, how many operations it dropped, and the places of the parts that the policy
    /// picked for it.
    Merged {
        floor: Count,
        dropped: u64,
        picks: Boxed<Picks>,
    },
    /// The leases that were dropped.
    Expired {
        list: ExpiredLeases,
    },
    /// How many sessions were closed.
    Closed {
        sessions: u64,
    },
    /// What a message's receiver, or a wake, did.
    Heard(Heard),
    /// A copy of a write's batch.
    Took {
        batch: Batch,
    },
    /// How many operations were new to the follower's primary.
    Applied {
        new: u64,
    },
    /// What a search found.
    Found {
        answer: Boxed<ShardAnswer>,
    },
    /// How a leader shard stands.
    LeaderStatus {
        term: Term,
        copies: Boxed<CopyStatuses>,
        leases: Boxed<KeptLeases>,
    },
    /// How a follower shard stands.
    FollowerStatus(Boxed<FollowerStatus>),
    /// The world is settled.
    Settled,
    /// The event was refused.
    Refused(Boxed<Refusal>),
    /// The event was done, and there is no more to say.
    Done,
}

impl Reply {
    /// An equal reply.
    pub fn copy(&self, alloc: Global) -> Result<Self, AllocError>
        ensures { IfOk result (λ other. other ≡ self.now) }
    {
        match self {
            Reply::Written(wrote) => {
                let wrote = Boxed::new(alloc, *wrote.get())?;
                Ok(Reply::Written(wrote))
            }
            Reply::Acked { global } => Ok(Reply::Acked { global: *global }),
            Reply::Promoted { term, filled } => Ok(Reply::Promoted {
                term: *term,
                filled: *filled,
            }),
            Reply::Forced { term, filled } => Ok(Reply::Forced {
                term: *term,
                filled: *filled,
            }),
            Reply::Resynced { dropped, taken } => Ok(Reply::Resynced {
                dropped: *dropped,
                taken: *taken,
            }),
            Reply::Added { copy } => Ok(Reply::Added { copy: *copy }),
            Reply::Flushed { commit } => Ok(Reply::Flushed { commit: *commit }),
            Reply::Merged {
                floor,
                dropped,
                picks,
            } => {
                let picks = Boxed::new(alloc, picks.get().copy(alloc)?)?;
                Ok(Reply::Merged {
                    floor: *floor,
                    dropped: *dropped,
                    picks,
                })
            }
            Reply::Expired { list } => {
                let list = list.copy(alloc)?;
                Ok(Reply::Expired { list })
            }
            Reply::Closed { sessions } => Ok(Reply::Closed {
                sessions: *sessions,
            }),
            Reply::Heard(heard) => Ok(Reply::Heard(*heard)),
            Reply::Took { batch } => {
                let batch = batch.copy(alloc)?;
                Ok(Reply::Took { batch })
            }
            Reply::Applied { new } => Ok(Reply::Applied { new: *new }),
            Reply::Found { answer } => {
                let answer = Boxed::new(alloc, answer.get().copy(alloc)?)?;
                Ok(Reply::Found { answer })
            }
            Reply::LeaderStatus {
                term,
                copies,
                leases,
            } => {
                let copies = Boxed::new(alloc, copies.get().copy(alloc)?)?;
                let leases = Boxed::new(alloc, leases.get().copy(alloc)?)?;
                Ok(Reply::LeaderStatus {
                    term: *term,
                    copies,
                    leases,
                })
            }
            Reply::FollowerStatus(status) => {
                let status = Boxed::new(alloc, status.get().copy(alloc)?)?;
                Ok(Reply::FollowerStatus(status))
            }
            Reply::Settled => Ok(Reply::Settled),
            Reply::Refused(refusal) => {
                let refusal = Boxed::new(alloc, *refusal.get())?;
                Ok(Reply::Refused(refusal))
            }
            Reply::Done => Ok(Reply::Done),
        }
    }
}
