ghost use Rattle.std.specs.Prelude.{◌≡◌, ◌↔◌, IsTrue};
ghost use Rattle.ccr_tracker.specs.Numbers.{HasGap};
ghost use Rattle.ccr_model.specs.Copies.{replica_in_step};

use crate::{CopySide, Replica};
use ccr_lease::Leases;
use ccr_op::Count;
use ccr_store::Store;
use ccr_tracker::Tracker;

/// A look at one in-sync copy of a shard.
#[derive(Clone, Copy)]
pub struct CopyView<'a> {
    /// Its number.
    pub number: u32,
    /// What it holds.
    pub store: &'a Store,
    /// The numbers that it has processed.
    pub seen: &'a Tracker,
    /// The least number that it has not processed.
    pub count: Count,
    /// Whether it has processed a number above that.
    pub gap: bool,
    /// The global count that it knows.
    pub global: Count,
    /// The least number from which on it keeps all operations.
    pub floor: Count,
    /// The commit count: the global count that it knew at its last flush.
    pub commit: Count,
    /// Its leases.
    pub leases: &'a Leases,
    /// The count that the primary knows of it: the primary's own is its count.
    pub known: Count,
    /// Whether it was resynced in this term, as the primary always is.
    pub resynced: bool,
    /// Whether it was then acked in this term, as the primary always is.
    pub acked: bool,
}

impl<'a> CopyView<'a> {
    ghost use Rattle.ccr_copies.specs.Views.{shown};

    /// A look at the primary.
    pub(crate) fn of_primary(copy: &'a CopySide) -> CopyView<'a>
        ensures shown { shown result ≡ replica_in_step copy.now copy.now.seen.count }
        ensures count { result.count ≡ result.seen.now.count }
        ensures gap { IsTrue result.gap ↔ HasGap result.seen.now }
    {
        CopyView {
            number: copy.number(),
            store: copy.store(),
            seen: copy.seen(),
            count: copy.count(),
            gap: copy.has_gap(),
            global: copy.known_global(),
            floor: copy.kept_from(),
            commit: copy.commit(),
            leases: copy.leases(),
            known: copy.count(),
            resynced: true,
            acked: true,
        }
    }

    /// A look at a replica.
    pub(crate) fn of_replica(replica: &'a Replica) -> CopyView<'a>
        ensures shown { shown result ≡ replica.now }
        ensures count { result.count ≡ result.seen.now.count }
        ensures gap { IsTrue result.gap ↔ HasGap result.seen.now }
    {
        CopyView {
            known: replica.known(),
            resynced: replica.is_resynced(),
            acked: replica.is_acked(),
            ..CopyView::of_primary(replica.copy())
        }
    }
}
