ghost use Rattle.std.specs.Prelude.{◌≡◌, ◌-◌, ◌<◌, ℕ, true, length, IfOk, OnOk};
ghost use Rattle.ccr_model.specs.Operations.{has_number, op_at};
ghost use Rattle.ccr_model.specs.Stores.{held, merge_drops};
ghost use Rattle.ccr_model.specs.Copies.{knowing, replica_in_step, taking};
ghost use Rattle.ccr_model.specs.CopyRows.{after_merge, merge_bound, risen_floor, taking_leases, unknown, with_true_count};
ghost use Rattle.ccr_model.specs.LeaderRows.{held_from, resync_mark, resynced_copy};
ghost use Rattle.ccr_copies.specs.Changes.{filed_copy, flushed_copy, led_by};

use crate::CopySide;
use ccr_op::Count;
use ccr_policy::Picks;
use ccr_store::Store;
use std::alloc::{AllocError, Global};
use std::marker::Model;

/// A copy that is not the primary, with what the primary knows of it.
#[derive(Drop)]
pub struct Replica {
    copy: CopySide,
    known: Count,
    resynced: bool,
    acked: bool,
}

impl Model for Replica {
    ghost use Rattle.ccr_model.specs.Copies.{Replica as Modelled};

    ghost Value = { Modelled };

    ghost view = { λ a. record { copy = a.copy; known = a.known; resynced = a.resynced; acked = a.acked } };
}

impl Replica {
    /// A copy that counts as resynced and acked.
    pub(crate) fn in_step(copy: CopySide, known: Count) -> Replica
        ensures { result ≡ replica_in_step copy known }
    {
        Replica {
            copy,
            known,
            resynced: true,
            acked: true,
        }
    }

    /// Its number.
    pub fn number(&self) -> u32
        ensures { result ≡ self.now.copy.number }
    {
        self.copy.number()
    }

    /// The copy.
    pub fn copy(&self) -> &CopySide
        ensures { result.now ≡ self.now.copy }
    {
        &self.copy
    }

    /// The copy, by itself.
    pub(crate) fn into_copy(self) -> CopySide
        ensures { result ≡ self.copy }
    {
        self.copy
    }

    /// The count that the primary knows of it.
    pub fn known(&self) -> Count
        ensures { result ≡ self.now.known }
    {
        self.known
    }

    /// Whether it was resynced in this term.
    pub fn is_resynced(&self) -> bool
        ensures { result ≡ self.now.resynced }
    {
        self.resynced
    }

    /// Whether it was then acked in this term.
    pub fn is_acked(&self) -> bool
        ensures { result ≡ self.now.acked }
    {
        self.acked
    }

    /// Takes the primary's operation of a number, unless it has processed it, and learns the global count.
    pub(crate) fn catch_up(
        &mut self,
        alloc: Global,
        primary: &CopySide,
        seq: u64,
    ) -> Result<(), AllocError>
        ensures ok { OnOk result (self.new ≡ record self.old { copy = knowing primary.now.global (taking self.old.copy seq (op_at seq (held primary.now.store))) }) }
        ensures number { self.new.copy.number ≡ self.old.copy.number }
    {
        self.copy.take_from(alloc, primary, seq)?;
        self.copy.know(primary.known_global());
        Ok(())
    }

    /// The primary learns its count.
    pub(crate) fn hear(&mut self)
        ensures { self.new ≡ record self.old { known = self.old.copy.seen.count; acked = true } }
    {
        self.tell_count();
        self.acked = true;
    }

    /// Learns the global count and the leases.
    pub(crate) fn sync(&mut self, primary: &CopySide) -> Result<(), AllocError>
        ensures ok { OnOk result (self.new ≡ record self.old { copy = taking_leases primary.now (knowing primary.now.global self.old.copy) }) }
        ensures number { self.new.copy.number ≡ self.old.copy.number }
    {
        self.copy.know(primary.known_global());
        self.copy.take_leases(primary)?;
        Ok(())
    }

    /// Flushes the copy, and answers its commit count.
    pub(crate) fn flush(&mut self, alloc: Global) -> Result<Count, AllocError>
        ensures ok { OnOk result (self.new ≡ record self.old { copy = flushed_copy self.old.copy }) }
        ensures told { IfOk result (λ commit. commit ≡ self.old.copy.global) }
        ensures number { self.new.copy.number ≡ self.old.copy.number }
    {
        let commit = self.copy.flush(alloc)?;
        Ok(commit)
    }

    /// Merges parts of the copy, and answers its floor and how many operations were dropped.
    pub(crate) fn merge(
        &mut self,
        alloc: Global,
        retention: u64,
        picks: &Picks,
    ) -> Result<(Count, u64), AllocError>
        ensures ok { OnOk result (self.new ≡ record self.old { copy = after_merge retention picks.now self.old.copy }) }
        ensures floor { IfOk result (λ told. told.0 ≡ risen_floor retention self.old.copy) }
        ensures dropped { IfOk result (λ told. told.1 ≡ length (merge_drops picks.now (merge_bound retention self.old.copy) self.old.copy.global self.old.copy.store)) }
        ensures number { self.new.copy.number ≡ self.old.copy.number }
    {
        let told = self.copy.merge(alloc, retention, picks)?;
        Ok(told)
    }

    /// Comes to the primary's state from the greater of both known global counts on, and answers how many
    /// operations went and came.
    pub(crate) fn resync(
        &mut self,
        alloc: Global,
        primary: &CopySide,
    ) -> Result<(u64, u64), AllocError>
        ensures ok { OnOk result (self.new ≡ record self.old { copy = resynced_copy (led_by primary.now) (resync_mark (led_by primary.now) self.old) self.old.copy; resynced = true }) }
        ensures dropped { IfOk result (λ told. told.0 ≡ held_from (resync_mark (led_by primary.now) self.old) self.old.copy.store) }
        ensures taken { IfOk result (λ told. told.1 ≡ primary.now.seen.count - resync_mark (led_by primary.now) self.old) }
        ensures number { self.new.copy.number ≡ self.old.copy.number }
    {
        let mark = self.copy.known_global().max(primary.known_global());
        let told = self.copy.resync_from(alloc, primary, mark)?;
        self.resynced = true;
        Ok(told)
    }

    /// A new leader's primary knows nothing of it.
    pub(crate) fn forget(&mut self)
        ensures { self.new ≡ unknown self.old }
    {
        self.known = 0;
        self.resynced = false;
        self.acked = false;
    }

    /// A new follower's primary knows its count.
    pub(crate) fn tell_count(&mut self)
        ensures { self.new ≡ with_true_count self.old }
    {
        self.known = self.copy.count();
    }

    /// It is restored from files, as the primary knows.
    pub(crate) fn restore(
        &mut self,
        alloc: Global,
        store: Store,
        count: Count,
    ) -> Result<(), AllocError>
        requires { (n : ℕ) → has_number (held store) n ≡ true → n < count }
        ensures ok { OnOk result (self.new ≡ record self.old { copy = filed_copy count store self.old.copy; known = count }) }
        ensures number { self.new.copy.number ≡ self.old.copy.number }
    {
        self.copy.restore(alloc, store, count)?;
        self.known = count;
        Ok(())
    }
}
