// What to do next with the copies of a shard, a leader's or a follower's.
ghost use Rattle.std.specs.Prelude.{◌≡◌, ◌&&◌, ◌||◌, not, length, nat_lt, slice_get, IfSome, MatchOption};
ghost use Rattle.ccr_lease.specs.Leases.{supersedes};
ghost use Rattle.ccr_journal.specs.declared.sides.Side.TheVariants as sides;
ghost use Rattle.ccr_model.specs.Settling.{may_sync};
ghost use Rattle.ccr_settling.specs.Served.{AreServedAtLeader, Each, IsAcked, IsCaughtUp, IsResynced, IsSynced, Serves};

use ccr_copies::{CopySet, Replica};
use ccr_journal::{Event, Side};

/// What to do next with the leader's copies: all are resynced, then they take what they lack, then the primary
/// learns their counts, and last they learn the global count and the leases.
pub fn next_of_leader(copies: &CopySet) -> Option<Event>
    ensures { MatchOption result (AreServedAtLeader copies.now) (λ event. Serves sides.Leader copies.now event) }
{
    if let Some(event) = next_to_resync(copies) {
        return Some(event);
    }
    if let Some(event) = next_to_catch_up(Side::Leader, copies) {
        return Some(event);
    }
    if let Some(event) = next_to_ack(Side::Leader, copies) {
        return Some(event);
    }
    if let Some(event) = next_to_sync(Side::Leader, copies) {
        return Some(event);
    }
    None
}

/// How many replicas there are.
pub fn count_replicas(copies: &CopySet) -> usize
    ensures { result ≡ length copies.now.replicas }
{
    copies.len() - 1
}

/// The first replica that has to be resynced.
fn next_to_resync(copies: &CopySet) -> Option<Event>
    ensures { MatchOption result (Each IsResynced copies.now) (λ event. Serves sides.Leader copies.now event) }
{
    for place in 0..count_replicas(copies) {
        if let Some(event) = resync_at(copies, place) {
            return Some(event);
        }
    }
    None
}

/// The first replica that lacks a number of the primary's, and the least one that it lacks.
pub fn next_to_catch_up(side: Side, copies: &CopySet) -> Option<Event>
    ensures { MatchOption result (Each IsCaughtUp copies.now) (λ event. Serves side copies.now event) }
{
    for place in 0..count_replicas(copies) {
        if let Some(event) = catch_up_at(side, copies, place) {
            return Some(event);
        }
    }
    None
}

/// The first replica whose count the primary doesn't know.
pub fn next_to_ack(side: Side, copies: &CopySet) -> Option<Event>
    ensures { MatchOption result (Each IsAcked copies.now) (λ event. Serves side copies.now event) }
{
    for place in 0..count_replicas(copies) {
        if let Some(event) = ack_at(side, copies, place) {
            return Some(event);
        }
    }
    None
}

/// The first replica that doesn't know the global count or the leases.
pub fn next_to_sync(side: Side, copies: &CopySet) -> Option<Event>
    ensures { MatchOption result (Each IsSynced copies.now) (λ event. Serves side copies.now event) }
{
    for place in 0..count_replicas(copies) {
        if let Some(event) = sync_at(side, copies, place) {
            return Some(event);
        }
    }
    None
}

/// A resync of the replica at a place, where it has to be.
fn resync_at(copies: &CopySet, place: usize) -> Option<Event>
    ensures { MatchOption result (IfSome (slice_get copies.now.replicas place) (IsResynced copies.now)) (λ event. Serves sides.Leader copies.now event) }
{
    let replica = copies.replica_at(place)?;
    if replica.is_resynced() {
        return None;
    }
    Some(Event::Resync {
        copy: u64::from(replica.number()),
    })
}

/// The least number of the primary's that the replica at a place lacks. The cost is that of the ranges that the two
/// have above their counts.
fn catch_up_at(side: Side, copies: &CopySet, place: usize) -> Option<Event>
    ensures { MatchOption result (IfSome (slice_get copies.now.replicas place) (IsCaughtUp copies.now)) (λ event. Serves side copies.now event) }
{
    let replica = copies.replica_at(place)?;
    if !replica.is_resynced() {
        return None;
    }
    let seq = replica
        .copy()
        .seen()
        .first_lacking(copies.primary().seen())?;
    Some(Event::Replicate {
        side,
        copy: u64::from(replica.number()),
        seq,
    })
}

/// An ack of the replica at a place, where the primary doesn't know its count.
fn ack_at(side: Side, copies: &CopySet, place: usize) -> Option<Event>
    ensures { MatchOption result (IfSome (slice_get copies.now.replicas place) (IsAcked copies.now)) (λ event. Serves side copies.now event) }
{
    let replica = copies.replica_at(place)?;
    if !may_ack(replica) {
        return None;
    }
    Some(Event::Ack {
        side,
        copy: u64::from(replica.number()),
    })
}

/// A sync of the replica at a place, where it doesn't know what the primary knows.
fn sync_at(side: Side, copies: &CopySet, place: usize) -> Option<Event>
    ensures { MatchOption result (IfSome (slice_get copies.now.replicas place) (IsSynced copies.now)) (λ event. Serves side copies.now event) }
{
    let replica = copies.replica_at(place)?;
    if !may_sync(copies, replica) {
        return None;
    }
    Some(Event::Sync {
        side,
        copy: u64::from(replica.number()),
    })
}

/// Whether the primary doesn't know a replica's count, or that it was resynced.
fn may_ack(replica: &Replica) -> bool
    ensures { result ≡ (replica.now.resynced && (nat_lt replica.now.known replica.now.copy.seen.count || not replica.now.acked)) }
{
    replica.is_resynced() && (replica.known() < replica.copy().count() || !replica.is_acked())
}

/// Whether a replica doesn't know the primary's global count or its leases.
fn may_sync(copies: &CopySet, replica: &Replica) -> bool
    ensures { result ≡ may_sync copies.now replica.now }
{
    replica.is_resynced() && is_behind(copies, replica)
}

/// Whether the primary's global count or its leases are newer than a replica's.
fn is_behind(copies: &CopySet, replica: &Replica) -> bool
    ensures { result ≡ (nat_lt replica.now.copy.global copies.now.primary.global || supersedes copies.now.primary.leases replica.now.copy.leases) }
{
    let primary = copies.primary();
    replica.copy().known_global() < primary.known_global()
        || primary.leases().supersedes(replica.copy().leases())
}
