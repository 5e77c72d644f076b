ghost use Rattle.std.specs.Prelude.{◌≡◌};
ghost use Rattle.ccr_meta.specs.Guards.{first_refusal, write_guards, shard_guards, resync_guards, follower_guards, follower_shard_guards, pause_guards, resume_guards, unfollow_guards};

use crate::MetaFault;
use ccr_op::{IndexName, Millis};
use uuid::Uuid;

/// What is known of an index: its settings, and where its shards lie.
#[derive(Debug, Drop)]
pub struct IndexMeta {
    /// How many shards it has, from 1 to 16; a follower has its leader's.
    pub shards: u32,
    /// How many replicas each shard begins with, from 0 to 7.
    pub replicas: u32,
    /// Whether it keeps a history of its operations; a follower has its leader's.
    pub soft_deletes: bool,
    /// How many operations it keeps besides; a follower has its leader's.
    pub retention: u64,
    /// After how many milliseconds a retention lease expires; a follower has its leader's.
    pub period: Millis,
    /// The UUID of the index.
    pub uuid: Uuid,
    /// The index that it follows.
    pub leader: Option<IndexName>,
    /// The number of the shard world of its shard 0, in order of creation; those of the other shards
    /// follow on. A follower lies in its leader's worlds.
    pub first: u32,
    /// A follower's number in these worlds: how many followers of its leader were made before it.
    pub follower: Option<u32>,
}

/// What is told of the shards of a follower: whether one of them is in its bootstrap, and so on.
#[derive(Debug, Clone, Copy, PartialEq, Eq)]
pub struct Phases {
    /// Whether a shard is in its bootstrap.
    pub bootstrapping: bool,
    /// Whether a shard is active.
    pub active: bool,
    /// Whether a shard is paused.
    pub paused: bool,
}

impl IndexMeta {
    /// Why a write or a delete is refused: `IsFollower`.
    pub fn write_refusal(&self) -> Option<MetaFault>
        ensures { result ≡ first_refusal (write_guards self.now) }
    {
        if self.leader.is_some() {
            return Some(MetaFault::IsFollower);
        }
        None
    }

    /// Why a command on a shard is refused: `NoShard`.
    pub fn shard_refusal(&self, shard: u64) -> Option<MetaFault>
        ensures { result ≡ first_refusal (shard_guards shard self.now) }
    {
        if shard >= u64::from(self.shards) {
            return Some(MetaFault::NoShard);
        }
        None
    }

    /// Why a resync of a copy of a shard is refused: `IsFollower`, `NoShard`.
    pub fn resync_refusal(&self, shard: u64) -> Option<MetaFault>
        ensures { result ≡ first_refusal (resync_guards shard self.now) }
    {
        self.write_refusal().or(self.shard_refusal(shard))
    }

    /// Why a command on a follower is refused: `NotFollower`.
    pub fn follower_refusal(&self) -> Option<MetaFault>
        ensures { result ≡ first_refusal (follower_guards self.now) }
    {
        if self.leader.is_none() {
            return Some(MetaFault::NotFollower);
        }
        None
    }

    /// Why a command on a shard of a follower is refused: `NotFollower`, `NoShard`.
    pub fn follower_shard_refusal(&self, shard: u64) -> Option<MetaFault>
        ensures { result ≡ first_refusal (follower_shard_guards shard self.now) }
    {
        self.follower_refusal().or(self.shard_refusal(shard))
    }

    /// Why a pause is refused: `NotFollower`, or `Bootstrapping` where a shard is in its bootstrap.
    pub fn pause_refusal(&self, phases: Phases) -> Option<MetaFault>
        ensures { result ≡ first_refusal (pause_guards phases self.now) }
    {
        if self.leader.is_none() {
            return Some(MetaFault::NotFollower);
        }
        if phases.bootstrapping {
            return Some(MetaFault::Bootstrapping);
        }
        None
    }

    /// Why a resume is refused: `NotFollower`, or `NotPaused` where no shard is paused.
    pub fn resume_refusal(&self, phases: Phases) -> Option<MetaFault>
        ensures { result ≡ first_refusal (resume_guards phases self.now) }
    {
        if self.leader.is_none() {
            return Some(MetaFault::NotFollower);
        }
        if !phases.paused {
            return Some(MetaFault::NotPaused);
        }
        None
    }

    /// Why an unfollow is refused: `NotFollower`, `Bootstrapping` where a shard is in its bootstrap, or
    /// `NotPaused` where one is active.
    pub fn unfollow_refusal(&self, phases: Phases) -> Option<MetaFault>
        ensures { result ≡ first_refusal (unfollow_guards phases self.now) }
    {
        if self.leader.is_none() {
            return Some(MetaFault::NotFollower);
        }
        if phases.bootstrapping {
            return Some(MetaFault::Bootstrapping);
        }
        if phases.active {
            return Some(MetaFault::NotPaused);
        }
        None
    }
}
