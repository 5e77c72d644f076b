// The forms of answers.
ghost use Rattle.std.specs.Prelude.{◌≡◌};

use ccr_auto::AutoFault;
use ccr_journal::SortKeys;
use ccr_meta::{Decided, MetaFault};
use std::marker::Model;

/// What auto-follow came to for a new index, in order of cluster. Contracts see the list.
#[derive(Debug, Drop)]
pub struct Decisions {
    list: Vec<Decided>,
}

impl Model for Decisions {
    ghost use Rattle.std.specs.Prelude.{List};
    ghost use Rattle.ccr_meta.specs.declared.creating.Decided.{Decided};

    ghost Value = { List Decided };

    ghost view = { λ a. a.list.items };
}

impl Decisions {
    /// These decisions.
    pub fn new(list: Vec<Decided>) -> Self
        ensures { result ≡ list.items }
    {
        Decisions { list }
    }

    /// The decisions.
    pub fn as_slice(&self) -> &[Decided]
        ensures { result.now ≡ self.now }
    {
        self.list.as_slice()
    }
}

/// The form of an answer. Most tell what the deeds were answered.
#[derive(Debug, Drop)]
pub enum Answer {
    /// It is done, whatever the deeds were answered.
    Done,
    /// It is refused by the names, or by the phases of a follower's shards.
    Refused(MetaFault),
    /// It is refused by the auto-follow patterns of a cluster.
    PatternRefused(AutoFault),
    /// An index was made, and auto-follow decided so.
    Created {
        decided: Decisions,
    },
    /// What the one deed was answered, in the world of this shard.
    Told {
        shard: u64,
    },
    /// What a search found over all shards, in this order: so many hits from a place on.
    Found {
        sort: SortKeys,
        from: u64,
        size: u64,
    },
    /// How each shard stands.
    Statuses,
    /// How many leases were dropped.
    Expired,
    /// All worlds are settled.
    Settled,
}
