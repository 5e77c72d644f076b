// What happens in a shard world.
ghost use Rattle.std.specs.Prelude.{◌≡◌, IfOk};

use crate::boxed::Boxed;
use crate::params::Params;
use crate::requests::{SearchRequest, WriteRequest};
use crate::sides::{CopyCount, Side};
use ccr_op::{Batch, LeaseId, Millis};
use std::alloc::{AllocError, Global};

/// What happens in a shard world. `side` tells whose copies are meant, `f` is the number of a follower
/// shard, and a copy of 2^32 or more is no copy of any shard.
#[derive(Debug, Drop)]
pub enum Event {
    /// A client writes or deletes a document at the leader's primary.
    Write {
        request: Boxed<WriteRequest>,
    },
    /// A replica takes the primary's operation of a number.
    Replicate {
        side: Side,
        copy: u64,
        seq: u64,
    },
    /// The primary learns a copy's count.
    Ack {
        side: Side,
        copy: u64,
    },
    /// A copy learns the primary's global count and its leases.
    Sync {
        side: Side,
        copy: u64,
    },
    /// The primary is lost, and a replica takes its place.
    Promote {
        side: Side,
        copy: u64,
    },
    /// A copy of the leader that left is made the primary, alone, and begins a new history.
    ForcePromote {
        copy: u64,
    },
    /// A replica of the leader takes the new primary's operations in place of its own.
    Resync {
        copy: u64,
    },
    /// A replica leaves. Of the leader it is kept as stale.
    FailCopy {
        side: Side,
        copy: u64,
    },
    /// A new copy takes all that the primary has.
    AddCopy {
        side: Side,
    },
    /// A copy closes the part of its store that takes operations, and commits.
    Flush {
        side: Side,
        copy: u64,
    },
    /// A copy drops what nothing needs any more from some of its closed parts, and makes one part of them.
    Merge {
        side: Side,
        copy: u64,
    },
    /// A side's clock is read.
    Clock {
        side: Side,
        now: Millis,
    },
    /// The leader's primary drops the leases that have expired.
    Expire,
    /// The leader's primary closes the sessions that have been idle.
    CloseSessions,
    /// A follower sends again what is due.
    Tick {
        f: u32,
    },
    /// The message at a place of those in flight comes to its receiver, which of the leader is this copy.
    /// With `keep` it stays in flight as well.
    Deliver {
        at: u64,
        copy: u64,
        keep: bool,
    },
    /// The message at a place of those in flight is lost.
    Drop {
        at: u64,
    },
    /// The poll at a place among a follower's, oldest first, is answered where it can be.
    Wake {
        f: u32,
        at: u64,
    },
    /// The request at a place among a follower's sent ones, by request number, is lost.
    Lose {
        f: u32,
        at: u64,
    },
    /// A follower's write is lost on its way to its primary.
    LoseWrite {
        f: u32,
        write: u64,
    },
    /// A copy of the batch of a follower's write is taken.
    Take {
        f: u32,
        write: u64,
    },
    /// A follower's primary applies the batch of a write of an epoch.
    Apply {
        f: u32,
        epoch: u64,
        write: u64,
        batch: Boxed<Batch>,
    },
    /// All copies of a follower have applied a write.
    Written {
        f: u32,
        write: u64,
    },
    /// A follower asks that its lease retain no more than it needs.
    Renew {
        f: u32,
    },
    /// A new follower shard is made, under the id of its lease.
    Follow {
        params: Boxed<Params>,
        copies: CopyCount,
        name: LeaseId,
    },
    /// A follower's task stops until it is resumed.
    Pause {
        f: u32,
    },
    /// A paused follower starts its task anew.
    Resume {
        f: u32,
    },
    /// An active follower starts its task anew.
    Restart {
        f: u32,
    },
    /// A follower that isn't active follows no more.
    Unfollow {
        f: u32,
    },
    /// A client searches a copy.
    Search {
        side: Side,
        copy: u64,
        request: Boxed<SearchRequest>,
    },
    /// A client asks how a side's copies stand.
    Status {
        side: Side,
    },
    /// The world is settled.
    Settle,
}

impl Event {
    /// An equal event.
    pub fn copy(&self, alloc: Global) -> Result<Self, AllocError>
        ensures { IfOk result (λ other. other ≡ self.now) }
    {
        match self {
            Event::Write { request } => {
                let request = Boxed::new(alloc, request.get().copy(alloc)?)?;
                Ok(Event::Write { request })
            }
            Event::Replicate { side, copy, seq } => Ok(Event::Replicate {
                side: *side,
                copy: *copy,
                seq: *seq,
            }),
            Event::Ack { side, copy } => Ok(Event::Ack {
                side: *side,
                copy: *copy,
            }),
            Event::Sync { side, copy } => Ok(Event::Sync {
                side: *side,
                copy: *copy,
            }),
            Event::Promote { side, copy } => Ok(Event::Promote {
                side: *side,
                copy: *copy,
            }),
            Event::ForcePromote { copy } => Ok(Event::ForcePromote { copy: *copy }),
            Event::Resync { copy } => Ok(Event::Resync { copy: *copy }),
            Event::FailCopy { side, copy } => Ok(Event::FailCopy {
                side: *side,
                copy: *copy,
            }),
            Event::AddCopy { side } => Ok(Event::AddCopy { side: *side }),
            Event::Flush { side, copy } => Ok(Event::Flush {
                side: *side,
                copy: *copy,
            }),
            Event::Merge { side, copy } => Ok(Event::Merge {
                side: *side,
                copy: *copy,
            }),
            Event::Clock { side, now } => Ok(Event::Clock {
                side: *side,
                now: *now,
            }),
            Event::Expire => Ok(Event::Expire),
            Event::CloseSessions => Ok(Event::CloseSessions),
            Event::Tick { f } => Ok(Event::Tick { f: *f }),
            Event::Deliver { at, copy, keep } => Ok(Event::Deliver {
                at: *at,
                copy: *copy,
                keep: *keep,
            }),
            Event::Drop { at } => Ok(Event::Drop { at: *at }),
            Event::Wake { f, at } => Ok(Event::Wake { f: *f, at: *at }),
            Event::Lose { f, at } => Ok(Event::Lose { f: *f, at: *at }),
            Event::LoseWrite { f, write } => Ok(Event::LoseWrite {
                f: *f,
                write: *write,
            }),
            Event::Take { f, write } => Ok(Event::Take {
                f: *f,
                write: *write,
            }),
            Event::Apply {
                f,
                epoch,
                write,
                batch,
            } => {
                let batch = Boxed::new(alloc, batch.get().copy(alloc)?)?;
                Ok(Event::Apply {
                    f: *f,
                    epoch: *epoch,
                    write: *write,
                    batch,
                })
            }
            Event::Written { f, write } => Ok(Event::Written {
                f: *f,
                write: *write,
            }),
            Event::Renew { f } => Ok(Event::Renew { f: *f }),
            Event::Follow {
                params,
                copies,
                name,
            } => {
                let params = Boxed::new(alloc, params.get().copy())?;
                let name = name.copy(alloc)?;
                Ok(Event::Follow {
                    params,
                    copies: copies.copy(),
                    name,
                })
            }
            Event::Pause { f } => Ok(Event::Pause { f: *f }),
            Event::Resume { f } => Ok(Event::Resume { f: *f }),
            Event::Restart { f } => Ok(Event::Restart { f: *f }),
            Event::Unfollow { f } => Ok(Event::Unfollow { f: *f }),
            Event::Search {
                side,
                copy,
                request,
            } => {
                let request = Boxed::new(alloc, request.get().copy(alloc)?)?;
                Ok(Event::Search {
                    side: *side,
                    copy: *copy,
                    request,
                })
            }
            Event::Status { side } => Ok(Event::Status { side: *side }),
            Event::Settle => Ok(Event::Settle),
        }
    }
}
