// The shards of a world, and where a follower shard stands.
ghost use Rattle.std.specs.Prelude.{◌≡◌, ◌↔◌, IsSome, IfSome};
ghost use Rattle.ccr_journal.specs.Params.{IsCopyCount};

use std::marker::Model;

/// Which shard's copies an event is about.
#[derive(Clone, Copy, Debug, PartialEq, Eq)]
pub enum Side {
    Leader,
    /// The follower shard of this number, counted from 0 in the order in which they were made.
    Follower(u32),
}

/// Where a follower shard stands. The first three are its bootstrap from the leader's files.
#[derive(Clone, Copy, Debug, PartialEq, Eq)]
pub enum Phase {
    /// It asks for its retention lease.
    Leasing,
    /// It asks for a session.
    Opening,
    /// It fetches the session's files.
    Fetching,
    /// Its task reads from the leader.
    Active,
    Paused,
    /// It stopped: operations that it asked for are gone at the leader.
    Missing,
    /// It stopped: the leader has another history.
    History,
    /// It follows no more, for ever.
    Unfollowed,
}

/// How many copies a shard is made with: 1 to 8.
#[derive(Debug, Drop)]
pub struct CopyCount {
    copies: u32,
}

impl Model for CopyCount {
    ghost use Rattle.std.specs.Prelude.{ℕ};
    ghost use Rattle.ccr_journal.specs.Params.{IsCopyCount};

    ghost Value = { ℕ };

    ghost view = { λ a. a.copies };

    ghost invariant = { λ a. IsCopyCount a.copies };
}

impl CopyCount {
    /// So many copies, or `None` exactly where there are none or more than 8.
    pub fn new(copies: u32) -> Option<Self>
        ensures bounds { IsSome result ↔ IsCopyCount copies }
        ensures value { IfSome result (λ count. count ≡ copies) }
    {
        if copies == 0 || copies > 8 {
            return None;
        }
        Some(CopyCount { copies })
    }

    /// An equal count. It takes no memory.
    pub fn copy(&self) -> Self
        ensures { result ≡ self.now }
    {
        CopyCount {
            copies: self.copies,
        }
    }

    /// The number.
    pub fn get(&self) -> u32
        ensures value { result ≡ self.now }
        ensures bounds { IsCopyCount self.now }
    {
        self.copies
    }
}
