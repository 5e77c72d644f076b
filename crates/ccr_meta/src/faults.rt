use ccr_auto::AutoFault;
use thiserror::Error;

/// Why a command was refused by the names made so far, and by the phases of a follower's shards. Where
/// several hold at once, the first of this order is told: NoCluster, NoIndex, IndexExists, NotFollower,
/// IsFollower, NoShard, SoftDeletesOff, BadSetting, Bootstrapping, NotPaused, ClusterExists, TooMany.
#[derive(Debug, Clone, Copy, PartialEq, Eq)]
pub enum MetaFault {
    /// An index that the command names isn't there.
    NoIndex,
    /// The index to be made is there already.
    IndexExists,
    /// A setting is unknown or out of its range, a follower's leader stands in its own cluster, or a
    /// name breaks the rule of names.
    BadSetting,
    /// The index is a follower.
    IsFollower,
    /// The index is no follower.
    NotFollower,
    /// No shard of the index is paused, or one to be unfollowed is active.
    NotPaused,
    /// A cluster that the command names isn't there.
    NoCluster,
    /// The leader keeps no history of its operations (Elastic reference, history retention).
    SoftDeletesOff,
    /// A limit is reached.
    TooMany,
    /// A shard of the index is in its bootstrap.
    Bootstrapping,
    /// The index has no shard of this number.
    NoShard,
    /// The cluster to be made is there already.
    ClusterExists,
    /// Memory ran out.
    Memory,
}

/// Why a call on the auto-follow patterns of a cluster was refused.
#[derive(Debug, Drop, Error)]
pub enum AutoRefused {
    /// By the names made so far.
    #[error("refused by the names")]
    Meta(MetaFault),
    /// By the patterns of the cluster.
    #[error("refused by the patterns")]
    Auto(AutoFault),
}
