ghost use Rattle.std.specs.Prelude.{◌≡◌, ◌-◌, ◌<◌, ◌↔◌, ℕ, true, [], length, Some, None, IfOk, OnOk, OnErr, IsTrue, if◌then◌else◌};
ghost use Rattle.std.specs.Option.{ok_or};
ghost use Rattle.std.specs.List.{fold, list_all};
ghost use Rattle.ccr_lease.specs.Leases.{after_expiry, expired, lease_of};
ghost use Rattle.ccr_lease.specs.Faults.{renewal};
ghost use Rattle.ccr_tracker.specs.Numbers.{HasGap, has};
ghost use Rattle.ccr_model.specs.Operations.{has_number, op_at};
ghost use Rattle.ccr_model.specs.Stores.{held, merge_drops};
ghost use Rattle.ccr_model.specs.Copies.{has_lease, knowing, new_copy, status_of, taking};
ghost use Rattle.ccr_model.specs.CopyRows.{after_merge, merge_bound, risen_floor, taking_leases};
ghost use Rattle.ccr_model.specs.LeaderRows.{held_from, resynced_copy};
ghost use Rattle.ccr_model.specs.FollowerRows.{has_all, new_in};
ghost use Rattle.ccr_copies.specs.Changes.{filed_copy, flushed_copy, led_by};
ghost use Rattle.ccr_copies.specs.Leased.{IsTold, leased, re_leased, released};

use crate::floors::cap;
use crate::runs::{mark_run, take_run};
use ccr_journal::CopyStatus;
use ccr_lease::{Expired, Lease, LeaseFault, Leases};
use ccr_op::{Count, LeaseId, Millis, Op, Term};
use ccr_policy::Picks;
use ccr_store::Store;
use ccr_tracker::Tracker;
use std::alloc::{AllocError, Global};
use std::marker::Model;

/// One copy of a shard: the numbers that it has processed, what it holds, the global count that it knows, its
/// floor, its commit count and its leases.
///
/// A count is one more than a checkpoint (Elastic reference, sequence numbers): the global count is the number
/// below which every in-sync copy has processed all, as far as this copy knows. The floor is the least number
/// from which on no operation was dropped (Elastic reference, history retention).
#[derive(Drop)]
pub struct CopySide {
    number: u32,
    seen: Tracker,
    store: Store,
    global: Count,
    floor: Count,
    commit: Count,
    leases: Leases,
}

impl Model for CopySide {
    ghost use Rattle.ccr_model.specs.Copies.{Copy as Modelled};

    ghost Value = { Modelled };

    ghost use Rattle.ccr_copies.specs.Processed.{HoldsProcessed};

    ghost view = { λ a. record { number = a.number; seen = a.seen; store = a.store; global = a.global; floor = a.floor; commit = a.commit; leases = a.leases } };

    ghost invariant = { λ a. HoldsProcessed a.seen a.store };
}

impl CopySide {
    /// A copy of this number that has processed nothing, in term 1.
    pub fn new(alloc: Global, number: u32) -> CopySide
        ensures { result ≡ new_copy number }
    {
        CopySide {
            number,
            seen: Tracker::new(alloc),
            store: Store::new(alloc),
            global: 0,
            floor: 0,
            commit: 0,
            leases: Leases::new(alloc, 1),
        }
    }

    /// Its number.
    pub fn number(&self) -> u32
        ensures { result ≡ self.now.number }
    {
        self.number
    }

    /// The numbers that it has processed.
    pub fn seen(&self) -> &Tracker
        ensures { result.now ≡ self.now.seen }
    {
        &self.seen
    }

    /// What it holds.
    pub fn store(&self) -> &Store
        ensures { result.now ≡ self.now.store }
    {
        &self.store
    }

    /// The least number that it has not processed: one more than its local checkpoint.
    pub fn count(&self) -> Count
        ensures { result ≡ self.now.seen.count }
    {
        self.seen.count()
    }

    /// Whether it has processed a number above its count.
    pub fn has_gap(&self) -> bool
        ensures { IsTrue result ↔ HasGap self.now.seen }
    {
        self.seen.gap()
    }

    /// The global count that it knows.
    pub fn known_global(&self) -> Count
        ensures { result ≡ self.now.global }
    {
        self.global
    }

    /// The least number from which on it dropped no operation.
    pub fn kept_from(&self) -> Count
        ensures { result ≡ self.now.floor }
    {
        self.floor
    }

    /// The commit count: the global count that it knew at its last flush.
    pub fn commit(&self) -> Count
        ensures { result ≡ self.now.commit }
    {
        self.commit
    }

    /// Its leases.
    pub fn leases(&self) -> &Leases
        ensures { result.now ≡ self.now.leases }
    {
        &self.leases
    }

    /// Whether it has a lease of this id. The cost is a logarithm of how many leases there are.
    pub fn has_lease(&self, id: &LeaseId) -> bool
        ensures { result ≡ has_lease id.now self.now }
    {
        self.leases.get(id).is_some()
    }

    /// How it stands.
    pub fn status(&self) -> CopyStatus
        ensures { result ≡ status_of self.now }
    {
        CopyStatus {
            copy: self.number,
            count: self.seen.count(),
            global: self.global,
            floor: self.floor,
            held: self.store.held(),
        }
    }

    /// Whether it has processed each of these operations.
    pub fn has_all(&self, batch: &[Op]) -> bool
        ensures { result ≡ has_all batch.now self.now }
    {
        has_numbers(&self.seen, batch)
    }

    /// An equal copy of another number. The cost goes with all that it holds.
    pub fn copy_as(&self, alloc: Global, number: u32) -> Result<CopySide, AllocError>
        ensures { IfOk result (λ other. other ≡ record self.now { number = number }) }
    {
        let seen = self.seen.copy(alloc)?;
        let store = self.store.copy(alloc)?;
        let leases = self.leases.copy(alloc)?;
        Ok(CopySide {
            number,
            seen,
            store,
            global: self.global,
            floor: self.floor,
            commit: self.commit,
            leases,
        })
    }

    /// Learns a global count. What it knows is never lowered.
    pub(crate) fn know(&mut self, global: Count)
        ensures { self.new ≡ knowing global self.old }
    {
        self.global = self.global.max(global);
    }

    /// Notes a number as processed, without an operation.
    fn mark(&mut self, seq: u64) -> Result<(), AllocError>
        ensures ok { OnOk result (self.new ≡ taking self.old seq None) }
        ensures number { self.new.number ≡ self.old.number }
    {
        if seq == u64::MAX {
            return Err(AllocError);
        }
        self.seen.mark(seq)?;
        Ok(())
    }

    /// Takes an operation, unless it has processed its number.
    pub(crate) fn take(&mut self, alloc: Global, op: Op) -> Result<(), AllocError>
        ensures ok { OnOk result (self.new ≡ taking self.old op.seq (Some op)) }
        ensures number { self.new.number ≡ self.old.number }
    {
        let seq = op.seq();
        if self.seen.has(seq) {
            return Ok(());
        }
        if seq == u64::MAX {
            return Err(AllocError);
        }
        self.seen.mark(seq)?;
        self.store.put(alloc, op)?;
        Ok(())
    }

    /// Takes an equal operation, unless it has processed its number.
    fn take_copy(&mut self, alloc: Global, op: &Op) -> Result<(), AllocError>
        ensures ok { OnOk result (self.new ≡ taking self.old op.now.seq (Some op.now)) }
        ensures number { self.new.number ≡ self.old.number }
    {
        let copied = op.copy(alloc)?;
        self.take(alloc, copied)?;
        Ok(())
    }

    /// Takes what another copy holds of a number, unless it has processed it: an equal operation, or none where
    /// the other has dropped it.
    pub(crate) fn take_from(
        &mut self,
        alloc: Global,
        from: &CopySide,
        seq: u64,
    ) -> Result<(), AllocError>
        ensures ok { OnOk result (self.new ≡ taking self.old seq (op_at seq (held from.now.store))) }
        ensures number { self.new.number ≡ self.old.number }
    {
        let Some(op) = from.store.get(seq) else {
            self.mark(seq)?;
            return Ok(());
        };
        self.take_copy(alloc, op)?;
        Ok(())
    }

    /// Takes each of these operations whose number it has not processed, and answers how many these were.
    pub(crate) fn take_all(&mut self, alloc: Global, batch: &[Op]) -> Result<u64, AllocError>
        ensures ok { OnOk result (self.new ≡ fold (λ c op. taking c op.seq (Some op)) self.old batch.now) }
        ensures told { IfOk result (λ new. new ≡ new_in self.old.seen batch.now) }
        ensures number { self.new.number ≡ self.old.number }
    {
        let mut taken = 0;
        for op in batch {
            if self.seen().has(op.seq()) {
                continue;
            }
            self.take_copy(alloc, op)?;
            taken += 1;
        }
        Ok(taken)
    }

    /// Takes the other copy's leases, where these supersede its own.
    pub(crate) fn take_leases(&mut self, from: &CopySide) -> Result<(), AllocError>
        ensures ok { OnOk result (self.new ≡ taking_leases from.now self.old) }
        ensures number { self.new.number ≡ self.old.number }
    {
        let _taken = self.leases.take_over(&from.leases)?;
        Ok(())
    }

    /// Closes the open part of what it holds. The commit count becomes the global count that it knows, and is
    /// answered.
    pub(crate) fn flush(&mut self, alloc: Global) -> Result<Count, AllocError>
        ensures ok { OnOk result (self.new ≡ flushed_copy self.old) }
        ensures told { IfOk result (λ commit. commit ≡ self.old.global) }
        ensures number { self.new.number ≡ self.old.number }
    {
        self.store.flush(alloc)?;
        self.commit = self.global;
        Ok(self.commit)
    }

    /// Raises the floor, drops what is droppable in the picked parts, and joins the rest of them. Answers the
    /// floor and how many operations were dropped.
    pub(crate) fn merge(
        &mut self,
        alloc: Global,
        retention: u64,
        picks: &Picks,
    ) -> Result<(Count, u64), AllocError>
        ensures ok { OnOk result (self.new ≡ after_merge retention picks.now self.old) }
        ensures floor { IfOk result (λ told. told.0 ≡ risen_floor retention self.old) }
        ensures dropped { IfOk result (λ told. told.1 ≡ length (merge_drops picks.now (merge_bound retention self.old) self.old.global self.old.store)) }
        ensures number { self.new.number ≡ self.old.number }
    {
        let kept = self.global.saturating_sub(retention).min(self.commit);
        let candidate = cap(self.leases.as_slice(), kept);
        let floor = self.floor.max(candidate);
        let bound = cap(self.leases.as_slice(), floor);
        let drops = self.store.merge(alloc, picks, bound, self.global)?;
        self.floor = floor;
        Ok((floor, drops.len() as u64))
    }

    /// Adds a lease of this id at its floor, stamped `now`, unless one stands. Says whether one stood.
    pub(crate) fn add_lease(
        &mut self,
        alloc: Global,
        id: &LeaseId,
        now: Millis,
    ) -> Result<bool, AllocError>
        ensures existed { IfOk result (λ existed. existed ≡ has_lease id.now self.old) }
        ensures ok { OnOk result (self.new ≡ (if has_lease id.now self.old then self.old else record self.old { leases = leased id.now self.old.floor now self.old.leases })) }
        ensures number { self.new.number ≡ self.old.number }
    {
        if self.has_lease(id) {
            return Ok(true);
        }
        if self.leases.version() == u64::MAX {
            return Err(AllocError);
        }
        let id = id.copy(alloc)?;
        match self.leases.add(id, self.floor, now) {
            Ok(()) => Ok(false),
            Err(_) => Err(AllocError),
        }
    }

    /// Renews a lease of its own.
    pub(crate) fn renew_lease(
        &mut self,
        id: &LeaseId,
        number: Count,
        now: Millis,
    ) -> Result<(), LeaseFault>
        ensures told { IsTold result → result ≡ renewal number (lease_of id.now self.old.leases.leases) }
        ensures ok { OnOk result (self.new ≡ record self.old { leases = re_leased id.now number now self.old.leases }) }
        ensures err { OnErr result (self.new ≡ self.old) }
    {
        if self.leases.version() == u64::MAX {
            return Err(LeaseFault::Memory);
        }
        self.leases.renew(id, number, now)
    }

    /// Takes a lease of its own out, and answers it.
    pub(crate) fn remove_lease(&mut self, id: &LeaseId) -> Result<Lease, LeaseFault>
        ensures told { IsTold result → result ≡ ok_or (lease_of id.now self.old.leases.leases) LeaseFault.NotFound }
        ensures ok { OnOk result (self.new ≡ record self.old { leases = released id.now self.old.leases }) }
        ensures err { OnErr result (self.new ≡ self.old) }
    {
        if self.leases.version() == u64::MAX {
            return Err(LeaseFault::Memory);
        }
        self.leases.remove(id)
    }

    /// Takes out the leases that have expired at `now`, and tells them.
    pub(crate) fn expire_leases(
        &mut self,
        now: Millis,
        period: Millis,
    ) -> Result<Vec<Expired>, AllocError>
        ensures told { IfOk result (λ list. list.items ≡ expired now period self.old.leases.leases) }
        ensures ok { OnOk result (self.new ≡ record self.old { leases = after_expiry now period self.old.leases }) }
        ensures err { OnErr result (self.new ≡ self.old) }
    {
        if self.leases.version() == u64::MAX {
            return Err(AllocError);
        }
        self.leases.expire(now, period)
    }

    /// Its leases are of this term, at the version that they have.
    pub(crate) fn begin_term(&mut self, term: Term)
        ensures { self.new ≡ record self.old { leases = record self.old.leases { term = term } } }
    {
        self.leases.begin_term(term);
    }

    /// All that it has is committed, and it has no lease in this term.
    pub(crate) fn begin_alone(&mut self, alloc: Global, term: Term)
        ensures { self.new ≡ record self.old { global = self.old.seen.count; leases = record { term = term; version = 0; leases = [] } } }
    {
        self.global = self.seen.count();
        self.leases = Leases::new(alloc, term);
    }

    /// Comes to the state of the primary from a number on: it drops what it has at or above it, and takes what the
    /// primary has from there. Answers how many operations went and came. The cost goes with these.
    pub(crate) fn resync_from(
        &mut self,
        alloc: Global,
        primary: &CopySide,
        mark: Count,
    ) -> Result<(u64, u64), AllocError>
        ensures ok { OnOk result (self.new ≡ resynced_copy (led_by primary.now) mark self.old) }
        ensures dropped { IfOk result (λ told. told.0 ≡ held_from mark self.old.store) }
        ensures taken { IfOk result (λ told. told.1 ≡ primary.now.seen.count - mark) }
        ensures number { self.new.number ≡ self.old.number }
    {
        let count = primary.count();
        let dropped = self.store.roll_back(alloc, mark)?;
        self.seen.reset_from(mark);
        mark_run(&mut self.seen, mark, count)?;
        take_run(alloc, &mut self.store, &primary.store, mark, count)?;
        Ok((dropped, count.saturating_sub(mark)))
    }

    /// Becomes a copy that was restored from files: it holds these operations, counts all numbers below the count
    /// as processed, and knows that count. Its commit count and its leases stay.
    pub(crate) fn restore(
        &mut self,
        alloc: Global,
        store: Store,
        count: Count,
    ) -> Result<(), AllocError>
        requires { (n : ℕ) → has_number (held store) n ≡ true → n < count }
        ensures ok { OnOk result (self.new ≡ filed_copy count store self.old) }
        ensures number { self.new.number ≡ self.old.number }
    {
        let mut seen = Tracker::new(alloc);
        seen.fill_below(count)?;
        self.seen = seen;
        self.store = store;
        self.global = count;
        Ok(())
    }
}

/// Whether all numbers of these operations are processed.
fn has_numbers(seen: &Tracker, batch: &[Op]) -> bool
    ensures { result ≡ list_all (λ op. has seen.now op.seq) batch.now }
{
    for op in batch {
        if !seen.has(op.seq()) {
            return false;
        }
    }
    true
}
