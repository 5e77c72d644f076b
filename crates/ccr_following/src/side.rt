ghost use Rattle.std.specs.Prelude.{◌≡◌, IfOk, IfErr, OnOk, option_copied};
ghost use Rattle.ccr_journal.specs.declared.replies.Refusal.{Refusal};
ghost use Rattle.std.specs.List.{list_all};
ghost use Rattle.std.specs.Str.{bytes_eq};
ghost use Rattle.ccr_model.specs.Copies.{all_copies, copy_of};
ghost use Rattle.ccr_model.specs.Outcomes.{refused};
ghost use Rattle.ccr_model.specs.Followers.{new_follower, phase_of_work};
ghost use Rattle.ccr_model.specs.FollowerRows.{follower_status_row, task_of};
ghost use Rattle.ccr_model.specs.Settled.{is_follower_settled, is_whole};
ghost use Rattle.ccr_model.specs.Settling.{request_at, waits_until};
ghost use Rattle.ccr_following.specs.After.{after};
ghost use Rattle.ccr_following.specs.Works.{AreDrawn};

use crate::requests::LeaseRequests;
use crate::work::Work;
use crate::{FollowerNote, Told};
use ccr_copies::{CopySet, CopySide};
use ccr_follower::Follower;
use ccr_journal::{Boxed, CopyCount, FollowerStatus, Params, Phase, Refusal, Reply};
use ccr_op::{Count, LeaseId, Millis};
use ccr_restore::Restore;
use ccr_task::Task;
use ccr_wire::Messages;
use std::alloc::{AllocError, Global};
use std::marker::Model;
use uuid::Uuid;

/// A follower's side of a shard world: its lease, the history that it follows, its parameters, its clock, what it
/// does, the requests about its lease that stand, and its engine. A call that is refused changes nothing.
///
/// After want of memory it is broken: each later call that can answer want of memory answers it, and nothing else is
/// said of its state. A counter at its last value is answered as want of memory too.
#[derive(Drop)]
pub struct FollowerSide {
    pub(crate) alloc: Global,
    pub(crate) lease: LeaseId,
    pub(crate) history: Uuid,
    pub(crate) params: Params,
    pub(crate) now: Millis,
    pub(crate) work: Work,
    pub(crate) lease_requests: LeaseRequests,
    pub(crate) engine: Follower,
    pub(crate) broken: bool,
}

impl Model for FollowerSide {
    ghost use Rattle.std.specs.Prelude.{◌≡◌, false};
    ghost use Rattle.ccr_model.specs.Followers.{Follower as Modelled};

    ghost Value = { Modelled };

    ghost use Rattle.ccr_following.specs.Works.{AreDrawn, work_of};

    ghost view = { λ a. record {
      lease = a.lease;
      history = a.history;
      params = a.params;
      retention = a.engine.retention;
      now = a.now;
      work = work_of a.work;
      lease_requests = a.lease_requests;
      epoch = a.engine.epoch;
      copies = a.engine.copies;
    } };

    ghost invariant = { λ a. a.broken ≡ false → AreDrawn (work_of a.work) a.lease_requests };
}

impl FollowerSide {
    /// The follower of a number, with so many copies, of a leader with this history that keeps `retention` operations
    /// beyond its global count. It asks for its lease at once.
    pub fn new(
        alloc: Global,
        f: u32,
        params: Params,
        copies: CopyCount,
        lease: LeaseId,
        history: Uuid,
        retention: u64,
    ) -> Result<(FollowerSide, Messages), AllocError>
        ensures { IfOk result (λ r. new_follower f params copies lease history retention ≡ record { next = r.0; sent = r.1 }) }
    {
        let own = lease.clone()?;
        let follower = Uuid::from_u128(u128::from(f));
        let values = params.values();
        let (restore, message) = Restore::start(
            alloc,
            own,
            follower,
            history,
            values.chunk_size as u32,
            values.max_retry_delay,
        )?;
        let engine = Follower::new(alloc, copies.get(), retention)?;
        let sent = Messages::one(alloc, message)?;
        let side = FollowerSide {
            alloc,
            lease,
            history,
            params,
            now: 0,
            work: Work::Restoring(restore),
            lease_requests: LeaseRequests::new(alloc),
            engine,
            broken: false,
        };
        Ok((side, sent))
    }

    /// The id of its lease.
    pub fn lease(&self) -> &LeaseId
        ensures { result.now ≡ self.entry.now.lease }
    {
        &self.lease
    }

    /// The UUID of the history that it follows.
    pub fn history(&self) -> &Uuid
        ensures { result.now ≡ self.entry.now.history }
    {
        &self.history
    }

    /// Its clock, in milliseconds.
    pub fn now(&self) -> Millis
        ensures { result ≡ self.entry.now.now }
    {
        self.now
    }

    /// The epoch that it keeps: 0 during the bootstrap.
    pub fn epoch(&self) -> u64
        ensures { result ≡ self.entry.now.epoch }
    {
        self.engine.epoch()
    }

    /// Where it stands.
    pub fn phase(&self) -> Phase
        ensures { result ≡ phase_of_work self.entry.now.work }
    {
        self.work.phase()
    }

    /// Its copies.
    pub fn copies(&self) -> &CopySet
        ensures { result.now ≡ self.entry.now.copies }
    {
        self.engine.copies()
    }

    /// The in-sync copy of a number.
    pub fn copy_of(&self, copy: u64) -> Option<&CopySide>
        ensures { option_copied result ≡ copy_of self.entry.now.copies copy }
    {
        self.engine.copies().copy_of(copy)
    }

    /// Its task, where the bootstrap is over.
    pub fn task(&self) -> Option<&Task>
        ensures { option_copied result ≡ task_of self.entry.now.work }
    {
        self.work.task()
    }

    /// The number of the request at a place among those that were sent and not lost, in ascending order.
    pub fn sent_at(&self, at: u64) -> Option<u64>
        ensures { result ≡ request_at self.entry.now.work at }
    {
        self.work.sent_at(at)
    }

    /// The least time until which something waits.
    pub fn waits_until(&self) -> Option<Millis>
        ensures { result ≡ waits_until self.entry.now.work }
    {
        self.work.waits_until()
    }

    /// Whether nothing is left to be done here, where the leader has this history and its primary has processed the
    /// numbers below the count: the bootstrap is over, nothing is to be written, and where the task is active each
    /// copy has all of them.
    pub fn is_settled(&self, history: &Uuid, count: Count) -> bool
        ensures { result ≡ is_follower_settled history.now count self.entry.now }
    {
        if !self.work.is_idle() {
            return false;
        }
        if !self.work.is_active() {
            return true;
        }
        is_same(&self.history, history) && are_whole(self.engine.copies(), count)
    }

    /// What a command has to know of it.
    pub fn note(&self) -> FollowerNote
        ensures { result ≡ record { phase = phase_of_work self.entry.now.work; epoch = self.entry.now.epoch; primary = self.entry.now.copies.primary.number } }
    {
        FollowerNote {
            phase: self.work.phase(),
            epoch: self.engine.epoch(),
            primary: self.engine.primary().number(),
        }
    }

    /// How it stands.
    pub fn status(&self) -> Result<Told, AllocError>
        ensures { IfOk result (λ told. follower_status_row self.entry.now ≡ after told self.entry.now) }
    {
        self.is_whole()?;
        let copies = self.engine.statuses()?;
        let (reads, buffer, writes) = self.work.loads();
        let status = FollowerStatus {
            phase: self.work.phase(),
            epoch: self.engine.epoch(),
            term: self.engine.term(),
            copies,
            reads,
            buffer,
            writes,
        };
        let status = Boxed::new(self.alloc, status)?;
        Ok(Told {
            reply: Reply::FollowerStatus(status),
            sent: Messages::none(self.alloc),
        })
    }

    /// That no call before this one ran out of memory.
    pub(crate) fn is_whole(&self) -> Result<(), AllocError>
        ensures { OnOk result (AreDrawn self.entry.now.work self.entry.now.lease_requests) }
    {
        if self.broken {
            return Err(AllocError);
        }
        Ok(())
    }

    /// An event is refused, and nothing changes.
    pub(crate) fn refuse(&mut self, why: Refusal) -> Result<Told, AllocError>
        requires { AreDrawn self.old.work self.old.lease_requests }
        ensures { IfOk result (λ told. refused self.old why ≡ after told self.new) }
    {
        self.broken = true;
        let why = Boxed::new(self.alloc, why)?;
        let sent = Messages::none(self.alloc);
        self.broken = false;
        Ok(Told {
            reply: Reply::Refused(why),
            sent,
        })
    }
}

/// Whether two identifiers are the same.
fn is_same(a: &Uuid, b: &Uuid) -> bool
    ensures { result ≡ bytes_eq a.now b.now }
{
    a.as_bytes().as_slice() == b.as_bytes().as_slice()
}

/// Whether a copy has processed all numbers below the count, and knows it.
fn is_whole(copy: &CopySide, count: Count) -> bool
    ensures { result ≡ is_whole count copy.now }
{
    count <= copy.count() && copy.known_global() == count
}

/// Whether each copy has processed all numbers below the count, and knows it.
fn are_whole(copies: &CopySet, count: Count) -> bool
    ensures { result ≡ list_all (is_whole count) (all_copies copies.now) }
{
    if !is_whole(copies.primary(), count) {
        return false;
    }
    for place in 0..copies.len() {
        let Some(replica) = copies.replica_at(place) else {
            return true;
        };
        if !is_whole(replica.copy(), count) {
            return false;
        }
    }
    true
}
