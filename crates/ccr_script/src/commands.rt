// What a line of a script asks for.

use crate::names::Names;
use ccr_journal::{Params, SortKeys};
use ccr_meta::Settings;
use ccr_op::{Body, DocId, IndexName, Millis, Name, Term};
use ccr_query::Query;

/// A command: one variant an `op`. A shard is a shard of the index, and a copy one of that shard; any
/// number may be the number of none.
#[derive(Debug, Drop)]
pub enum Command {
    /// A cluster is added.
    Cluster {
        name: Name,
    },
    /// An index is created.
    Create {
        index: IndexName,
        settings: Settings,
    },
    /// A follower of another cluster's index is created.
    Follow {
        index: IndexName,
        leader: IndexName,
        settings: Settings,
        params: Params,
    },
    /// A follower reads no further.
    Pause {
        index: IndexName,
    },
    /// A paused follower reads on.
    Resume {
        index: IndexName,
    },
    /// A follower becomes an index of its own.
    Unfollow {
        index: IndexName,
    },
    /// An auto-follow pattern is added to a cluster.
    AutoPut {
        cluster: Name,
        name: Name,
        remote: Name,
        patterns: Names,
        exclude: Names,
        follow: Name,
    },
    /// An auto-follow pattern is removed.
    AutoDelete {
        cluster: Name,
        name: Name,
    },
    /// A document is written.
    Write {
        index: IndexName,
        id: DocId,
        source: Body,
        create: bool,
        expect: Option<(u64, Term)>,
        routing: Option<DocId>,
    },
    /// A document is deleted.
    Delete {
        index: IndexName,
        id: DocId,
        expect: Option<(u64, Term)>,
        routing: Option<DocId>,
    },
    /// The documents of an index are searched, at the primaries where no copy is named.
    Search {
        index: IndexName,
        query: Query,
        sort: SortKeys,
        from: u64,
        size: u64,
        copy: Option<u64>,
    },
    /// The state of an index is shown.
    Status {
        index: IndexName,
    },
    /// Every shard world is settled.
    Settle,
    /// A cluster's clock is read.
    Clock {
        cluster: Name,
        now: Millis,
    },
    /// A replica takes the primary's operation of a number.
    Replicate {
        index: IndexName,
        shard: u64,
        copy: u64,
        seq: u64,
    },
    /// The primary learns a copy's count.
    Ack {
        index: IndexName,
        shard: u64,
        copy: u64,
    },
    /// A copy learns the primary's global count and its leases.
    Sync {
        index: IndexName,
        shard: u64,
        copy: u64,
    },
    /// A replica takes the lost primary's place.
    Promote {
        index: IndexName,
        shard: u64,
        copy: u64,
    },
    /// A replica takes the new primary's operations in place of its own.
    Resync {
        index: IndexName,
        shard: u64,
        copy: u64,
    },
    /// A replica leaves.
    FailCopy {
        index: IndexName,
        shard: u64,
        copy: u64,
    },
    /// A copy that left takes the place of all others.
    ForcePromote {
        index: IndexName,
        shard: u64,
        copy: u64,
    },
    /// A copy commits.
    Flush {
        index: IndexName,
        shard: u64,
        copy: u64,
    },
    /// A copy merges parts of its store.
    Merge {
        index: IndexName,
        shard: u64,
        copy: u64,
    },
    /// A copy is added.
    AddCopy {
        index: IndexName,
        shard: u64,
    },
    /// The message at a place of those in flight comes to its receiver; it leaves them unless it is kept.
    Deliver {
        index: IndexName,
        shard: u64,
        at: u64,
        copy: Option<u64>,
        keep: bool,
    },
    /// The message at a place is lost.
    Drop {
        index: IndexName,
        shard: u64,
        at: u64,
    },
    /// The parked read at a place is answered if there is something to answer.
    Wake {
        index: IndexName,
        shard: u64,
        at: u64,
    },
    /// The follower takes the request at a place for lost.
    Lose {
        index: IndexName,
        shard: u64,
        at: u64,
    },
    /// The follower takes a write for lost.
    LoseWrite {
        index: IndexName,
        shard: u64,
        write: u64,
    },
    /// A write of the follower ends.
    Written {
        index: IndexName,
        shard: u64,
        write: u64,
    },
    /// The follower applies a write, under its own epoch where none is named.
    Apply {
        index: IndexName,
        shard: u64,
        write: u64,
        epoch: Option<u64>,
    },
    /// The follower renews its lease.
    Renew {
        index: IndexName,
        shard: u64,
    },
    /// The follower starts anew from the leader's files.
    Restart {
        index: IndexName,
        shard: u64,
    },
}
