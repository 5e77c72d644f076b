ghost use Rattle.std.specs.Prelude.{◌≡◌, ◌<◌, ◌∷◌, ◌++◌, ℕ, [], IfOk};
ghost use Rattle.std.specs.List.{AllByRecursion};
ghost use Rattle.ccr_journal.specs.declared.replies.Reply.TheVariants as replies;
ghost use Rattle.ccr_model.specs.Tasks.{Task as Modelled};
ghost use Rattle.ccr_model.specs.Followers.{replicating};
ghost use Rattle.ccr_model.specs.FollowerRows.{pause_row, renew_row, restart_row, resume_row, task_anew, task_of, unfollow_row};
ghost use Rattle.ccr_following.specs.After.{after};
ghost use Rattle.ccr_following.specs.Works.{AreDrawn};

use crate::{FollowerSide, Told};
use ccr_journal::{Refusal, Reply};
use ccr_wire::{Message, Messages};
use std::alloc::AllocError;

impl FollowerSide {
    /// The lease is asked to be renewed, for all that the primary doesn't know to be on each copy, and all that is read
    /// or will be. Refused is `NotActive`.
    pub fn renew(&mut self) -> Result<Told, AllocError>
        ensures { IfOk result (λ told. renew_row self.old (task_of self.old.work) ≡ after told self.new) }
    {
        self.is_whole()?;
        self.broken = true;
        let Some(message) = self.work.renew(&self.lease, self.engine.global())? else {
            return self.refuse(Refusal::NotActive);
        };
        self.send_request(message)
    }

    /// An active task is paused: its reads and its buffer are dropped, its writes stay. A task that isn't active is
    /// left as it is. Refused is `Bootstrapping`.
    pub fn pause(&mut self) -> Result<Told, AllocError>
        ensures { IfOk result (λ told. pause_row self.old (task_of self.old.work) ≡ after told self.new) }
    {
        self.is_whole()?;
        self.broken = true;
        if !self.work.pause() {
            return self.refuse(Refusal::Bootstrapping);
        }
        self.broken = false;
        Ok(Told {
            reply: Reply::Done,
            sent: Messages::none(self.alloc),
        })
    }

    /// A paused task starts anew in the next epoch, at what the primary knows to be on each copy. Refused is
    /// `NotPaused`.
    pub fn resume(&mut self) -> Result<Told, AllocError>
        ensures { IfOk result (λ told. resume_row self.old (task_of self.old.work) ≡ after told self.new) }
    {
        self.is_whole()?;
        if !self.work.is_paused() {
            return self.refuse(Refusal::NotPaused);
        }
        self.start_anew()
    }

    /// An active task starts anew in the next epoch, at what the primary knows to be on each copy: all that it had
    /// under way is lost. Refused is `NotActive`.
    pub fn restart(&mut self) -> Result<Told, AllocError>
        ensures { IfOk result (λ told. restart_row self.old (task_of self.old.work) ≡ after told self.new) }
    {
        self.is_whole()?;
        if !self.work.is_active() {
            return self.refuse(Refusal::NotActive);
        }
        self.start_anew()
    }

    /// A follower whose task isn't active follows no more, and its lease is asked to be removed. Refused is `NotPaused`.
    pub fn unfollow(&mut self) -> Result<Told, AllocError>
        ensures { IfOk result (λ told. unfollow_row self.old (task_of self.old.work) ≡ after told self.new) }
    {
        self.is_whole()?;
        self.broken = true;
        let Some(message) = self.work.unfollow(&self.lease)? else {
            return self.refuse(Refusal::NotPaused);
        };
        self.send_request(message)
    }

    /// A request about the lease is sent, and stands until it is answered.
    fn send_request(&mut self, message: Message) -> Result<Told, AllocError>
        requires older { AllByRecursion (λ (n : ℕ). n < message.request) self.old.lease_requests }
        requires drawn { AreDrawn self.old.work (self.old.lease_requests ++ message.request ∷ []) }
        ensures { IfOk result (λ told. record { reply = replies.Done; next = record self.old { lease_requests = self.old.lease_requests ++ message.request ∷ [] }; sent = message ∷ [] } ≡ after told self.new) }
    {
        self.broken = true;
        self.lease_requests.add(message.request())?;
        let sent = Messages::one(self.alloc, message)?;
        self.broken = false;
        Ok(Told {
            reply: Reply::Done,
            sent,
        })
    }

    /// The task starts anew in the next epoch, at what the primary knows to be on each copy.
    fn start_anew(&mut self) -> Result<Told, AllocError>
        requires { AreDrawn self.old.work self.old.lease_requests }
        ensures { IfOk result (λ told. (t : Modelled) → self.old.work ≡ replicating t → task_anew self.old t ≡ after told self.new) }
    {
        self.broken = true;
        let Some(epoch) = self.engine.epoch().checked_add(1) else {
            return Err(AllocError);
        };
        let count = self.engine.global();
        let history = self.work.history();
        let sent = self
            .work
            .begin(self.alloc, &self.params, count, epoch, history)?;
        self.engine.begin_epoch(epoch);
        self.broken = false;
        Ok(Told {
            reply: Reply::Done,
            sent,
        })
    }
}
