ghost use Rattle.std.specs.Prelude.{◌≡◌, ◌≤◌, ◌<◌, ◌+◌, ◌==◌, ◌↔◌, ℕ, true, [], length, count_by, Some, IfOk, IfErr, IfSome, OnOk, OnErr, IsTrue, slice_get, option_copied};
ghost use Rattle.std.specs.Option.{ok_or, option_map};
ghost use Rattle.ccr_tracker.specs.Numbers.{HasGap};
ghost use Rattle.ccr_model.specs.Operations.{has_number};
ghost use Rattle.ccr_model.specs.Stores.{held};
ghost use Rattle.ccr_lease.specs.Leases.{after_expiry, expired, lease_of};
ghost use Rattle.ccr_lease.specs.Faults.{renewal};
ghost use Rattle.ccr_journal.specs.declared.replies.Reply.TheVariants as replies;
ghost use Rattle.ccr_model.specs.Outcomes.{answered, refused};
ghost use Rattle.ccr_model.specs.Copies.{all_copies, copy_of, counted, greatest_floor, has_lease, lacks_lease, new_copies, not_ready, replica_of, statuses_of};
ghost use Rattle.ccr_model.specs.CopyRows.{ack_row, add_copy_row, fail_copy_row, flush_row, follower_promote_row, merge_row, not_leaving, not_replica, replicate_row, sync_row};
ghost use Rattle.ccr_model.specs.LeaderRows.{all_hold, missing_numbers, primary_takes, resync_row};
ghost use Rattle.ccr_model.specs.Followers.{restored};
ghost use Rattle.ccr_model.specs.FollowerRows.{applied, lacks, new_in};
ghost use Rattle.ccr_copies.specs.Faults.{IsRefusal, ready_refusal, refusal_of};
ghost use Rattle.ccr_copies.specs.Changes.{forced, leader_copies_promote_row, with_leases, with_new_lease};
ghost use Rattle.ccr_copies.specs.Leased.{IsTold, re_leased, released};
ghost use Rattle.ccr_copies.specs.Places.{IsReadyPlace};
ghost use Rattle.ccr_copies.specs.Views.{member_of, shown};

use crate::walks::{
    add_statuses, first_unready, first_without_lease, forget_all, get_at, greatest_floor_with,
    least_known, least_lacking, lesser, place_of, restore_all, tell_counts,
};
use crate::{CopyFault, CopySide, CopyView, Replica};
use ccr_journal::CopyStatuses;
use ccr_lease::{Expired, Lease, LeaseFault};
use ccr_op::{Count, LeaseId, Millis, Op, Term};
use ccr_policy::Picks;
use ccr_segment::Segment;
use ccr_store::Store;
use std::alloc::{AllocError, Global};
use std::marker::Model;

/// The most copies that a shard has.
pub const MOST_COPIES: usize = 8;

/// The in-sync copies of a shard: the primary, and at most seven replicas in ascending number with what the
/// primary knows of each. In Elasticsearch the primary keeps for each in-sync copy the local checkpoint that it last
/// heard, and the global checkpoint is the least of these (Elastic reference, sequence numbers).
///
/// A call names a copy by its number, and a number of 2^32 or more is that of no copy. A call that is refused
/// changes nothing. After want of memory nothing is said of the copies.
#[derive(Drop)]
pub struct CopySet {
    alloc: Global,
    term: Term,
    primary: CopySide,
    replicas: Vec<Replica>,
    next: u32,
}

impl Model for CopySet {
    ghost use Rattle.ccr_model.specs.Copies.{Copies};

    ghost Value = { Copies };

    ghost use Rattle.ccr_copies.specs.Places.{AreNumbered};

    ghost view = { λ a. record { term = a.term; primary = a.primary; replicas = a.replicas.items; next = a.next } };

    ghost invariant = { λ a. AreNumbered a.next a.replicas.items };
}

impl CopySet {
    /// Copies from 0 on, that many, with copy 0 as the primary, in term 1. A shard has at least one.
    pub fn new(alloc: Global, copies: u32) -> Result<CopySet, AllocError>
        ensures { IfOk result (λ set. set ≡ new_copies copies) }
    {
        let mut replicas = Vec::new(alloc);
        for number in 1..copies {
            replicas.push(Replica::in_step(CopySide::new(alloc, number), 0))?;
        }
        Ok(CopySet {
            alloc,
            term: 1,
            primary: CopySide::new(alloc, 0),
            replicas,
            next: copies,
        })
    }

    /// The primary's term.
    pub fn term(&self) -> Term
        ensures { result ≡ self.now.term }
    {
        self.term
    }

    /// The primary.
    pub fn primary(&self) -> &CopySide
        ensures { result.now ≡ self.now.primary }
    {
        &self.primary
    }

    /// The number of the next copy.
    pub fn next(&self) -> u32
        ensures { result ≡ self.now.next }
    {
        self.next
    }

    /// How many copies there are, the primary among them.
    pub fn len(&self) -> usize
        ensures { result ≡ length (all_copies self.now) }
    {
        self.replicas.len() + 1
    }

    /// The replica at a place of their list, which ascends by number. No two have the same number.
    pub fn replica_at(&self, place: usize) -> Option<&Replica>
        ensures value { option_copied result ≡ slice_get self.now.replicas place }
        ensures number { IfSome result (λ replica. replica_of self.now replica.now.copy.number ≡ Some replica.now) }
    {
        get_at(&self.replicas, place)
    }

    /// The in-sync copy of a number.
    pub fn copy_of(&self, copy: u64) -> Option<&CopySide>
        ensures { option_copied result ≡ copy_of self.now copy }
    {
        if u64::from(self.primary.number()) == copy {
            return Some(&self.primary);
        }
        let place = place_of(&self.replicas, copy)?;
        Some(self.replicas[place].copy())
    }

    /// A look at the in-sync copy of a number, with what the primary knows of it.
    pub fn view_of(&self, copy: u64) -> Option<CopyView<'_>>
        ensures shown { option_map shown result ≡ member_of self.now copy }
        ensures count { IfSome result (λ view. view.count ≡ view.seen.now.count) }
        ensures gap { IfSome result (λ view. IsTrue view.gap ↔ HasGap view.seen.now) }
    {
        if u64::from(self.primary.number()) == copy {
            return Some(CopyView::of_primary(&self.primary));
        }
        let place = place_of(&self.replicas, copy)?;
        Some(CopyView::of_replica(&self.replicas[place]))
    }

    /// The least replica that was not resynced and then acked in this term.
    pub fn not_ready(&self) -> Option<u32>
        ensures { result ≡ not_ready self.now }
    {
        first_unready(&self.replicas)
    }

    /// The least copy without a lease of this id.
    pub fn lacks_lease(&self, id: &LeaseId) -> Option<u32>
        ensures { result ≡ lacks_lease id.now self.now }
    {
        if !self.primary.has_lease(id) {
            return Some(self.primary.number());
        }
        first_without_lease(&self.replicas, id)
    }

    /// Whether each copy has a lease of this id.
    pub fn all_hold(&self, id: &LeaseId) -> bool
        ensures { result ≡ all_hold id.now self.now }
    {
        self.lacks_lease(id).is_none()
    }

    /// The greatest floor of the copies.
    pub fn greatest_floor(&self) -> Count
        ensures { result ≡ greatest_floor self.now }
    {
        greatest_floor_with(self.primary.kept_from(), &self.replicas)
    }

    /// How each copy stands, the primary first and the replicas in ascending number.
    pub fn statuses(&self) -> Result<CopyStatuses, AllocError>
        ensures { IfOk result (λ statuses. statuses ≡ statuses_of self.now) }
    {
        let mut list = Vec::with_capacity(self.alloc, self.len())?;
        list.push(self.primary.status())?;
        add_statuses(&self.replicas, &mut list)?;
        Ok(CopyStatuses::new(list))
    }

    /// The least copy that has not processed one of these operations.
    pub fn lacks(&self, batch: &[Op]) -> Option<u32>
        ensures { result ≡ lacks batch.now self.now }
    {
        let lacking = least_lacking(&self.replicas, batch);
        if self.primary.has_all(batch) {
            return lacking;
        }
        Some(lesser(self.primary.number(), lacking))
    }
}

impl CopySet {
    /// The replica takes the primary's operation of a number, unless it has processed it, and learns the global
    /// count. Refused are `NoCopy`, `IsPrimary`, `NotReady` where the replica is not resynced, and `NoOperation`
    /// where the primary has not processed the number. The cost is a logarithm.
    pub fn replicate(&mut self, copy: u64, seq: u64) -> Result<(), CopyFault>
        ensures ok { OnOk result (replicate_row self.old copy seq (replica_of self.old copy) ≡ answered replies.Done self.new) }
        ensures err { IfErr result (λ fault. IsRefusal fault → replicate_row self.old copy seq (replica_of self.old copy) ≡ refused self.new (refusal_of fault)) }
    {
        let place = self.ready_place(copy)?;
        if !self.primary.seen().has(seq) {
            return Err(CopyFault::NoOperation { seq });
        }
        let replica = &mut self.replicas[place];
        replica.catch_up(self.alloc, &self.primary, seq)?;
        Ok(())
    }

    /// The primary learns the replica's count. Answers the global count after that. Refused are `NoCopy`,
    /// `IsPrimary`, and `NotReady` where the replica is not resynced.
    pub fn ack(&mut self, copy: u64) -> Result<Count, CopyFault>
        ensures ok { IfOk result (λ global. ack_row self.old copy (replica_of self.old copy) ≡ answered (replies.Acked global) self.new) }
        ensures err { IfErr result (λ fault. IsRefusal fault → ack_row self.old copy (replica_of self.old copy) ≡ refused self.new (refusal_of fault)) }
    {
        let place = self.ready_place(copy)?;
        let replica = &mut self.replicas[place];
        replica.hear();
        self.count_anew();
        Ok(self.primary.known_global())
    }

    /// The replica learns the global count, and takes the primary's leases where these supersede its own. Refused
    /// are `NoCopy`, `IsPrimary`, and `NotReady` where the replica is not resynced.
    pub fn sync_copy(&mut self, copy: u64) -> Result<(), CopyFault>
        ensures ok { OnOk result (sync_row self.old copy (replica_of self.old copy) ≡ answered replies.Done self.new) }
        ensures err { IfErr result (λ fault. IsRefusal fault → sync_row self.old copy (replica_of self.old copy) ≡ refused self.new (refusal_of fault)) }
    {
        let place = self.ready_place(copy)?;
        let replica = &mut self.replicas[place];
        replica.sync(&self.primary)?;
        Ok(())
    }

    /// The replica leaves, and is answered: a leader keeps it as stale. Refused are `NoCopy`, `LastCopy` where
    /// the copy is the primary alone, and `IsPrimary` where it has replicas. It takes no memory.
    pub fn fail_copy(&mut self, copy: u64) -> Result<CopySide, CopyFault>
        ensures left { IfOk result (λ left. option_map (λ r. r.copy) (replica_of self.old copy) ≡ Some left) }
        ensures ok { OnOk result (fail_copy_row self.old copy (replica_of self.old copy) ≡ answered replies.Done self.new) }
        ensures err { IfErr result (λ fault. fail_copy_row self.old copy (replica_of self.old copy) ≡ refused self.new (refusal_of fault)) }
        ensures refusal { IfErr result IsRefusal }
    {
        let Some(place) = place_of(&self.replicas, copy) else {
            return Err(self.not_leaving(copy));
        };
        let left = self.replicas.remove(place).into_copy();
        self.count_anew();
        Ok(left)
    }

    /// A new copy takes all that the primary has, and counts as resynced and acked. Answers its number. Refused is
    /// `TooMany`, where there are eight copies. The cost goes with all that the primary holds.
    pub fn add_copy(&mut self) -> Result<u32, CopyFault>
        ensures ok { IfOk result (λ number. add_copy_row self.old ≡ answered (replies.Added number) self.new) }
        ensures err { IfErr result (λ fault. IsRefusal fault → add_copy_row self.old ≡ refused self.new (refusal_of fault)) }
    {
        if self.len() >= MOST_COPIES {
            return Err(CopyFault::TooMany);
        }
        let number = self.next;
        if number == u32::MAX {
            return Err(CopyFault::Memory);
        }
        let copy = self.primary.copy_as(self.alloc, number)?;
        let known = self.primary.count();
        match self.replicas.push(Replica::in_step(copy, known)) {
            Ok(()) => {}
            Err(_) => return Err(CopyFault::Memory),
        }
        self.next = number + 1;
        self.count_anew();
        Ok(number)
    }

    /// The copy closes its open part, and its commit count becomes the global count that it knows, which is
    /// answered. Refused is `NoCopy`. The cost goes with the operations of the open part.
    pub fn flush(&mut self, copy: u64) -> Result<Count, CopyFault>
        ensures ok { IfOk result (λ commit. flush_row self.old copy (copy_of self.old copy) ≡ answered (replies.Flushed commit) self.new) }
        ensures err { IfErr result (λ fault. IsRefusal fault → flush_row self.old copy (copy_of self.old copy) ≡ refused self.new (refusal_of fault)) }
    {
        if u64::from(self.primary.number()) == copy {
            let commit = self.primary.flush(self.alloc)?;
            return Ok(commit);
        }
        let Some(place) = place_of(&self.replicas, copy) else {
            return Err(CopyFault::NoCopy { copy });
        };
        let replica = &mut self.replicas[place];
        let commit = replica.flush(self.alloc)?;
        Ok(commit)
    }

    /// Raises the copy's floor as far as its leases, its commit count and the operations that are kept beyond the
    /// global count allow, drops what is droppable in the picked parts, and joins the rest of them. Answers the
    /// floor and how many operations were dropped. Refused is `NoCopy`. The cost goes with the picked operations,
    /// each at a logarithm.
    pub fn merge(
        &mut self,
        copy: u64,
        retention: u64,
        picks: &Picks,
    ) -> Result<(Count, u64), CopyFault>
        ensures ok { IfOk result (λ told. merge_row self.old retention copy picks.now (copy_of self.old copy) ≡ answered (replies.Merged told.0 told.1 picks.now) self.new) }
        ensures err { IfErr result (λ fault. IsRefusal fault → merge_row self.old retention copy picks.now (copy_of self.old copy) ≡ refused self.new (refusal_of fault)) }
    {
        if u64::from(self.primary.number()) == copy {
            let told = self.primary.merge(self.alloc, retention, picks)?;
            return Ok(told);
        }
        let Some(place) = place_of(&self.replicas, copy) else {
            return Err(CopyFault::NoCopy { copy });
        };
        let replica = &mut self.replicas[place];
        let told = replica.merge(self.alloc, retention, picks)?;
        Ok(told)
    }
}

impl CopySet {
    /// A follower's replica becomes the primary of the next term, which is answered: it knows the counts that the
    /// others have. The former primary goes. Refused are `NoCopy` and `IsPrimary`.
    pub fn promote_follower(&mut self, copy: u64) -> Result<Term, CopyFault>
        ensures ok { IfOk result (λ term. follower_promote_row self.old copy (replica_of self.old copy) ≡ answered (replies.Promoted term 0) self.new) }
        ensures err { IfErr result (λ fault. IsRefusal fault → follower_promote_row self.old copy (replica_of self.old copy) ≡ refused self.new (refusal_of fault)) }
    {
        let Some(place) = place_of(&self.replicas, copy) else {
            return Err(self.not_replica(copy));
        };
        let term = self.next_term()?;
        let primary = self.replicas.remove(place).into_copy();
        tell_counts(&mut self.replicas);
        self.term = term;
        self.primary = primary;
        self.count_anew();
        Ok(term)
    }

    /// A leader's replica becomes the primary of the next term: no-ops fill its gaps, its leases are of the new
    /// term, and it knows nothing of the others, which have to be resynced. The former primary goes. Answers the
    /// term and how many numbers were filled. Refused are `NoCopy` and `IsPrimary`.
    pub fn promote_leader(&mut self, copy: u64) -> Result<(Term, u64), CopyFault>
        ensures ok { IfOk result (λ told. leader_copies_promote_row self.old copy (replica_of self.old copy) ≡ answered (replies.Promoted told.0 told.1) self.new) }
        ensures err { IfErr result (λ fault. IsRefusal fault → leader_copies_promote_row self.old copy (replica_of self.old copy) ≡ refused self.new (refusal_of fault)) }
    {
        let Some(place) = place_of(&self.replicas, copy) else {
            return Err(self.not_replica(copy));
        };
        let term = self.next_term()?;
        let mut primary = self.replicas.remove(place).into_copy();
        let filled = primary.lead(self.alloc, term)?;
        forget_all(&mut self.replicas);
        self.term = term;
        self.primary = primary;
        self.count_anew();
        Ok((term, filled))
    }

    /// A copy that is not among these becomes the primary of the next term, alone: no-ops fill its gaps, all that
    /// it has is committed, and it has no lease. All others go. Answers the term and how many numbers were filled.
    pub fn force_promote(&mut self, stale: CopySide) -> Result<(Term, u64), AllocError>
        ensures ok { OnOk result (self.new ≡ forced self.old stale) }
        ensures term { IfOk result (λ told. told.0 ≡ self.old.term + 1) }
        ensures filled { IfOk result (λ told. told.1 ≡ length (missing_numbers stale.seen)) }
    {
        let term = self.next_term()?;
        let mut primary = stale;
        let filled = primary.lead_alone(self.alloc, term)?;
        self.term = term;
        self.primary = primary;
        self.replicas.clear();
        Ok((term, filled))
    }

    /// A replica that was not resynced in this term comes to the primary's state: from the greater of both known
    /// global counts on its operations go, and the primary's come in their place. Answers how many went and came:
    /// none and none where it was resynced already. Refused are `NoCopy` and `IsPrimary`. The cost goes with what
    /// goes and comes.
    pub fn resync(&mut self, copy: u64) -> Result<(u64, u64), CopyFault>
        ensures ok { IfOk result (λ told. resync_row self.old copy (replica_of self.old copy) ≡ answered (replies.Resynced told.0 told.1) self.new) }
        ensures err { IfErr result (λ fault. IsRefusal fault → resync_row self.old copy (replica_of self.old copy) ≡ refused self.new (refusal_of fault)) }
    {
        let Some(place) = place_of(&self.replicas, copy) else {
            return Err(self.not_replica(copy));
        };
        if self.replicas[place].is_resynced() {
            return Ok((0, 0));
        }
        let replica = &mut self.replicas[place];
        let told = replica.resync(self.alloc, &self.primary)?;
        Ok(told)
    }

    /// The primary takes an operation, unless it has processed its number. The cost is a logarithm.
    pub fn take_at_primary(&mut self, op: Op) -> Result<(), AllocError>
        ensures { OnOk result (self.new ≡ primary_takes self.old op) }
    {
        self.primary.take(self.alloc, op)?;
        self.count_anew();
        Ok(())
    }

    /// The primary takes each of these operations whose number it has not processed, and answers how many these
    /// were. The cost goes with the operations, each at a logarithm.
    pub fn take_batch(&mut self, batch: &[Op]) -> Result<u64, AllocError>
        ensures ok { OnOk result (self.new ≡ applied batch.now self.old) }
        ensures told { IfOk result (λ new. new ≡ new_in self.old.primary.seen batch.now) }
    {
        let new = self.primary.take_all(self.alloc, batch)?;
        self.count_anew();
        Ok(new)
    }

    /// Each copy is restored from files: it holds their operations, each file as a closed part, counts all numbers
    /// below the count as processed, and knows that count, as the primary knows of each.
    /// The cost goes with the operations, each at a logarithm, and with the number of copies.
    pub fn restore(&mut self, files: Vec<Segment>, count: Count) -> Result<(), AllocError>
        requires once { (n : ℕ) → count_by (λ op. op.seq == n) (held (record { parts = files.items; open_part = [] })) ≤ 1 }
        requires below { (n : ℕ) → has_number (held (record { parts = files.items; open_part = [] })) n ≡ true → n < count }
        ensures { OnOk result (self.new ≡ restored count files.items self.old) }
    {
        let store = Store::from_files(self.alloc, files)?;
        restore_all(self.alloc, &mut self.replicas, &store, count)?;
        self.primary.restore(self.alloc, store, count)?;
        Ok(())
    }
}

impl CopySet {
    /// The primary has a lease of this id: where it has none, a new one at its floor, stamped `now`, in
    /// milliseconds. Says whether it had one.
    pub fn add_lease(&mut self, id: &LeaseId, now: Millis) -> Result<bool, AllocError>
        ensures existed { IfOk result (λ existed. existed ≡ has_lease id.now self.old.primary) }
        ensures ok { OnOk result (self.new ≡ with_new_lease id.now now self.old) }
    {
        let existed = self.primary.add_lease(self.alloc, id, now)?;
        Ok(existed)
    }

    /// Renews a lease of the primary with this number and the stamp `now`, in milliseconds. Refused are `NotFound`,
    /// `LowNumber` where the lease's number is greater, and `Memory` where the version is at its last value. A
    /// refused call changes nothing.
    pub fn renew_lease(
        &mut self,
        id: &LeaseId,
        number: Count,
        now: Millis,
    ) -> Result<(), LeaseFault>
        ensures told { IsTold result → result ≡ renewal number (lease_of id.now self.old.primary.leases.leases) }
        ensures ok { OnOk result (self.new ≡ with_leases self.old (re_leased id.now number now self.old.primary.leases)) }
        ensures err { OnErr result (self.new ≡ self.old) }
    {
        self.primary.renew_lease(id, number, now)
    }

    /// Takes a lease of the primary out, and answers it. Refused are `NotFound`, and `Memory` where the version is
    /// at its last value. A refused call changes nothing.
    pub fn remove_lease(&mut self, id: &LeaseId) -> Result<Lease, LeaseFault>
        ensures told { IsTold result → result ≡ ok_or (lease_of id.now self.old.primary.leases.leases) LeaseFault.NotFound }
        ensures ok { OnOk result (self.new ≡ with_leases self.old (released id.now self.old.primary.leases)) }
        ensures err { OnErr result (self.new ≡ self.old) }
    {
        self.primary.remove_lease(id)
    }

    /// Takes out the leases of the primary that have expired at `now`, in milliseconds as the period is, and
    /// tells them in order of their ids.
    pub fn expire_leases(&mut self, now: Millis, period: Millis) -> Result<Vec<Expired>, AllocError>
        ensures told { IfOk result (λ list. list.items ≡ expired now period self.old.primary.leases.leases) }
        ensures ok { OnOk result (self.new ≡ with_leases self.old (after_expiry now period self.old.primary.leases)) }
        ensures err { OnErr result (self.new ≡ self.old) }
    {
        self.primary.expire_leases(now, period)
    }
}

impl CopySet {
    /// Why no replica has this number.
    fn not_replica(&self, copy: u64) -> CopyFault
        ensures refusal { IsRefusal result }
        ensures same { refusal_of result ≡ not_replica self.now copy }
    {
        if u64::from(self.primary.number()) == copy {
            return CopyFault::IsPrimary { copy };
        }
        CopyFault::NoCopy { copy }
    }

    /// Why a copy that is no replica doesn't leave.
    fn not_leaving(&self, copy: u64) -> CopyFault
        ensures refusal { IsRefusal result }
        ensures same { refusal_of result ≡ not_leaving self.now copy }
    {
        if u64::from(self.primary.number()) != copy {
            return CopyFault::NoCopy { copy };
        }
        if self.replicas.is_empty() {
            return CopyFault::LastCopy { copy };
        }
        CopyFault::IsPrimary { copy }
    }

    /// The place of a replica that is resynced.
    fn ready_place(&self, copy: u64) -> Result<usize, CopyFault>
        ensures ok { IfOk result (λ place. IsReadyPlace copy place self.now.replicas) }
        ensures err { IfErr result (λ fault. IsRefusal fault × (ready_refusal self.now copy (replica_of self.now copy) ≡ Some (refusal_of fault))) }
    {
        let Some(place) = place_of(&self.replicas, copy) else {
            return Err(self.not_replica(copy));
        };
        if !self.replicas[place].is_resynced() {
            return Err(CopyFault::NotReady { copy });
        }
        Ok(place)
    }

    /// The term after this one.
    fn next_term(&self) -> Result<Term, AllocError>
        ensures { IfOk result (λ term. term ≡ self.now.term + 1) }
    {
        self.term.checked_add(1).ok_or(AllocError)
    }

    /// The global count is worked out again.
    fn count_anew(&mut self)
        ensures { self.new ≡ counted self.old }
    {
        let least = least_known(self.primary.count(), &self.replicas);
        self.primary.know(least);
    }
}
