// Walks over the replicas of a shard.
ghost use Rattle.std.specs.Prelude.{◌≡◌, ◌<◌, ◌==◌, ◌++◌, ◌∷◌, ◌&&◌, ℕ, true, not, map, find, filter, None, Some, OnOk, MatchOption, min, option_copied, slice_get};
ghost use Rattle.std.specs.Option.{option_map, option_map_or};
ghost use Rattle.ccr_journal.specs.declared.statuses.CopyStatus.{CopyStatus};
ghost use Rattle.ccr_model.specs.Operations.{has_number};
ghost use Rattle.ccr_model.specs.Stores.{held};
ghost use Rattle.ccr_model.specs.Copies.{Copy, Replica as Modelled, greatest, has_lease, least_known, status_of};
ghost use Rattle.ccr_model.specs.CopyRows.{unknown, with_true_count};
ghost use Rattle.ccr_model.specs.FollowerRows.{has_all, least_number};
ghost use Rattle.ccr_copies.specs.Changes.{filed_copy};
ghost use Rattle.ccr_copies.specs.Places.{AreNumbered, IsPlaceOf};

use crate::Replica;
use ccr_journal::CopyStatus;
use ccr_op::{Count, LeaseId, Op};
use ccr_store::Store;
use std::alloc::{AllocError, Global};

/// The place of the replica of a number.
pub fn place_of(replicas: &[Replica], copy: u64) -> Option<usize>
    ensures { MatchOption result (find (λ r. r.copy.number == copy) replicas.now ≡ None) (λ place. IsPlaceOf copy place replicas.now) }
{
    for (place, replica) in replicas.iter().enumerate() {
        if u64::from(replica.number()) == copy {
            return Some(place);
        }
    }
    None
}

/// The replica at a place.
pub fn get_at(replicas: &[Replica], place: usize) -> Option<&Replica>
    ensures { option_copied result ≡ slice_get replicas.now place }
{
    replicas.get(place)
}

/// The least of a count and the known counts.
pub fn least_known(count: Count, replicas: &[Replica]) -> Count
    ensures { result ≡ least_known count replicas.now }
{
    let mut least = count;
    for replica in replicas {
        least = least.min(replica.known());
    }
    least
}

/// The first replica that was not resynced and then acked.
pub fn first_unready(replicas: &[Replica]) -> Option<u32>
    ensures { result ≡ option_map (λ r. r.copy.number) (find (λ r. not (r.resynced && r.acked)) replicas.now) }
{
    for replica in replicas {
        if !(replica.is_resynced() && replica.is_acked()) {
            return Some(replica.number());
        }
    }
    None
}

/// The first replica without a lease of this id.
pub fn first_without_lease(replicas: &[Replica], id: &LeaseId) -> Option<u32>
    ensures { result ≡ option_map (λ c. c.number) (find (λ c. not (has_lease id.now c)) (map {A = Modelled} {B = Copy} (λ r. r.copy) replicas.now)) }
{
    for replica in replicas {
        if !replica.copy().has_lease(id) {
            return Some(replica.number());
        }
    }
    None
}

/// The greatest of a number and the floors of the replicas.
pub fn greatest_floor_with(floor: Count, replicas: &[Replica]) -> Count
    ensures { result ≡ greatest (floor ∷ map {A = Modelled} {B = ℕ} (λ r. r.copy.floor) replicas.now) }
{
    let mut greatest = floor;
    for replica in replicas {
        greatest = greatest.max(replica.copy().kept_from());
    }
    greatest
}

/// Adds how each replica stands.
pub fn add_statuses(replicas: &[Replica], list: &mut Vec<CopyStatus>) -> Result<(), AllocError>
    ensures { OnOk result (list.new.items ≡ list.old.items ++ map {A = Modelled} {B = CopyStatus} (λ r. status_of r.copy) replicas.now) }
{
    for replica in replicas {
        list.push(replica.copy().status())?;
    }
    Ok(())
}

/// The lesser of a number and one that may be there.
pub fn lesser(number: u32, other: Option<u32>) -> u32
    ensures { result ≡ option_map_or (λ n. min number n) other number }
{
    match other {
        Some(other) => number.min(other),
        None => number,
    }
}

/// The least replica that has not processed one of these operations.
pub fn least_lacking(replicas: &[Replica], batch: &[Op]) -> Option<u32>
    ensures { result ≡ least_number (filter (λ c. not (has_all batch.now c)) (map {A = Modelled} {B = Copy} (λ r. r.copy) replicas.now)) }
{
    let mut least = None;
    for replica in replicas {
        if replica.copy().has_all(batch) {
            continue;
        }
        least = Some(lesser(replica.number(), least));
    }
    least
}

/// A new leader's primary knows nothing of the replicas.
pub fn forget_all(replicas: &mut [Replica])
    ensures { replicas.new ≡ map {A = Modelled} {B = Modelled} unknown replicas.old }
{
    for replica in replicas.iter_mut() {
        replica.forget();
    }
}

/// A new follower's primary knows the counts of the replicas.
pub fn tell_counts(replicas: &mut [Replica])
    ensures { replicas.new ≡ map {A = Modelled} {B = Modelled} with_true_count replicas.old }
{
    for replica in replicas.iter_mut() {
        replica.tell_count();
    }
}

/// Each replica is restored from files, as the primary knows.
pub fn restore_all(
    alloc: Global,
    replicas: &mut [Replica],
    store: &Store,
    count: Count,
) -> Result<(), AllocError>
    requires { (n : ℕ) → has_number (held store.now) n ≡ true → n < count }
    ensures ok { OnOk result (replicas.new ≡ map {A = Modelled} {B = Modelled} (λ r. record r { copy = filed_copy count store.now r.copy; known = count }) replicas.old) }
    ensures numbers { (next : ℕ) → AreNumbered next replicas.old → AreNumbered next replicas.new }
{
    for replica in replicas.iter_mut() {
        let copied = store.copy(alloc)?;
        replica.restore(alloc, copied, count)?;
    }
    Ok(())
}
