ghost use Rattle.std.specs.Prelude.{◌≡◌, ◌+◌, ◌^◌, ◌∷◌, [], slice_get, IfOk, OnOk, OnErr};
ghost use Rattle.ccr_journal.specs.Params.{IsFrom1Below};
ghost use Rattle.ccr_model.specs.Followers.{restoring};
ghost use Rattle.ccr_model.specs.Restores.{restore_started, restore_ticked, phase_of, sent_requests};
ghost use Rattle.ccr_model.specs.Settling.{waits_until};

use crate::finish::join_files;
use crate::plan::{Counters, Plan};
use crate::requests::Asked;
use crate::stage::{Stage, ask_lease, hear, lose, tick};
use ccr_journal::{Heard, Phase};
use ccr_op::{LeaseId, Millis};
use ccr_segment::{Files, Restored};
use ccr_wire::{Message, Messages};
use std::alloc::{AllocError, Global};
use std::marker::Model;
use thiserror::Error;
use uuid::Uuid;

/// Why the loss of a request was refused.
#[derive(Debug, Drop, Error)]
pub enum RestoreFault {
    /// No request was sent at that place.
    #[error("no request was sent at place {at}")]
    NoRequest { at: u64 },
    /// The losses since the last answer can't be counted on.
    #[error("out of memory")]
    Memory,
}

/// The bootstrap of a follower shard. It asks the leader for its retention lease, then for a session on the files of
/// a commit, and then for the files' parts, of which five at most are asked for at once. What is lost is asked for
/// again, after a delay that doubles with each loss since the last answer.
///
/// After want of memory nothing is said of it, and each call that can answer want of memory does so.
#[derive(Drop)]
pub struct Restore {
    alloc: Global,
    broken: bool,
    plan: Plan,
    counters: Counters,
    stage: Stage,
}

impl Model for Restore {
    ghost use Rattle.ccr_model.specs.Restores.{Restore as Modelled};

    ghost Value = { Modelled };

    ghost use Rattle.ccr_restore.specs.Stages.{restore_of, IsByPlan};

    ghost view = { λ a. restore_of a.plan a.counters a.stage };

    ghost invariant = { λ a. IsByPlan a.plan a.stage };
}

impl Restore {
    ghost use Rattle.ccr_restore.specs.Finishing.{has_all, IsFinished, IsRestored};
    ghost use Rattle.ccr_restore.specs.Hearing.{hears};
    ghost use Rattle.ccr_restore.specs.Losing.{after_loss, loss};

    /// A bootstrap at its start, with the request for the lease of this id. `history` is the leader's, `chunk_size` how
    /// many bytes a request for a part asks for, from 1 to 16,777,216.
    pub fn start(
        alloc: Global,
        lease: LeaseId,
        follower: Uuid,
        history: Uuid,
        chunk_size: u32,
        max_retry_delay: Millis,
    ) -> Result<(Restore, Message), AllocError>
        requires { IsFrom1Below (2 ^ 24 + 1) chunk_size }
        ensures { IfOk result (λ r. restore_started lease follower history chunk_size max_retry_delay ≡ record { next = r.0; sent = r.1 ∷ [] }) }
    {
        let plan = Plan {
            lease,
            follower,
            history,
            chunk_size,
            max_retry_delay,
        };
        let mut counters = Counters {
            next_request: 0,
            retry: 0,
        };
        let mut stage = Stage::Leasing(Asked::sent(0));
        let message = ask_lease(&plan, &mut counters, &mut stage)?;
        let restore = Restore {
            alloc,
            broken: false,
            plan,
            counters,
            stage,
        };
        Ok((restore, message))
    }

    /// A message comes at a time of the follower's clock: what it did, and what is then sent. It is `Ignored` exactly
    /// where it answers no request that was sent. A session of another history is answered `StoppedHistory`: the
    /// bootstrap is over and stays as it is. The cost is that of the message, and a logarithm at most.
    pub fn on_message(
        &mut self,
        message: Message,
        now: Millis,
    ) -> Result<(Heard, Messages), AllocError>
        ensures { IfOk result (λ r. hears self.old now message ≡ record { heard = r.0; next = self.new; sent = r.1 }) }
    {
        if self.broken {
            return Err(AllocError);
        }
        self.broken = true;
        let (heard, sent) = hear(
            self.alloc,
            &self.plan,
            &mut self.counters,
            &mut self.stage,
            now,
            message,
        )?;
        self.broken = false;
        Ok((heard, Messages::new(sent)))
    }

    /// The request at a place among those that were sent is lost, and waits. `Memory` is answered exactly where there
    /// is one and 2^64 - 1 losses came before it since the last answer. It takes no memory, and a refused call changes
    /// nothing.
    pub fn lose(&mut self, at: u64, now: Millis) -> Result<(), RestoreFault>
        ensures answer { result ≡ loss self.old at }
        ensures ok { OnOk result (self.new ≡ after_loss self.old now at) }
        ensures err { OnErr result (self.new ≡ self.old) }
    {
        let Some(request) = self.stage.sent_at(at) else {
            return Err(RestoreFault::NoRequest { at });
        };
        if lose(
            &self.plan,
            &mut self.counters,
            &mut self.stage,
            now,
            request,
        )
        .is_err()
        {
            return Err(RestoreFault::Memory);
        }
        Ok(())
    }

    /// What waited long enough is asked for again: the messages, in ascending number of the requests.
    pub fn tick(&mut self, now: Millis) -> Result<Messages, AllocError>
        ensures { IfOk result (λ sent. restore_ticked now self.old ≡ record { next = self.new; sent = sent }) }
    {
        if self.broken {
            return Err(AllocError);
        }
        self.broken = true;
        let sent = tick(
            self.alloc,
            &self.plan,
            &mut self.counters,
            &mut self.stage,
            now,
        )?;
        self.broken = false;
        Ok(Messages::new(sent))
    }

    /// The number of the request at a place among those that were sent and not lost, in ascending number.
    pub fn sent_at(&self, at: u64) -> Option<u64>
        ensures { result ≡ slice_get (sent_requests self.now.stage) at }
    {
        self.stage.sent_at(at)
    }

    /// The least time until which a request waits.
    pub fn waits_until(&self) -> Option<Millis>
        ensures { result ≡ waits_until (restoring self.now) }
    {
        self.stage.waits_until()
    }

    /// Whether all parts of the files are there.
    pub fn complete(&self) -> bool
        ensures { result ≡ has_all self.now }
    {
        match &self.stage {
            Stage::Leasing(_) | Stage::Opening(_) => false,
            Stage::Fetching(fetch) => fetch.asks.is_empty() && fetch.places.is_done(),
        }
    }

    /// The session's count and history, and its files as segments. It reads each byte twice.
    pub fn finish(&self) -> Result<Restored, AllocError>
        requires { IsFinished self.now.chunk_size self.now.stage }
        ensures { IfOk result (λ restored. IsRestored self.now.chunk_size self.now.stage restored) }
    {
        match &self.stage {
            Stage::Leasing(_) | Stage::Opening(_) => unreachable!(),
            Stage::Fetching(fetch) => {
                let files = join_files(self.alloc, fetch)?;
                Ok(Restored {
                    count: fetch.count,
                    history: fetch.history,
                    files: Files::new(files),
                })
            }
        }
    }

    /// The number that no request has had yet.
    pub fn next_request(&self) -> u64
        ensures { result ≡ self.now.next_request }
    {
        self.counters.next_request
    }

    /// Which of its phases it is in: `Leasing`, `Opening` or `Fetching`.
    pub fn phase(&self) -> Phase
        ensures { result ≡ phase_of self.now.stage }
    {
        self.stage.phase()
    }

    /// The id of its lease.
    pub fn lease(&self) -> &LeaseId
        ensures { result.now ≡ self.now.lease }
    {
        &self.plan.lease
    }

    /// The follower that it is of.
    pub fn follower(&self) -> Uuid
        ensures { result ≡ self.now.follower }
    {
        self.plan.follower
    }

    /// The history of the leader when it began.
    pub fn history(&self) -> Uuid
        ensures { result ≡ self.now.history }
    {
        self.plan.history
    }
}
