ghost use Rattle.std.specs.Prelude.{◌≡◌, IfOk, MatchOption};
ghost use Rattle.ccr_model.specs.Outcomes.{answered, refused};
ghost use Rattle.ccr_model.specs.FollowerRows.{follower_ack, follower_add_copy_row, follower_fail_copy, follower_flush, follower_merge, follower_promote, follower_replicate, follower_sync};
ghost use Rattle.ccr_follower.specs.Faults.{IsRefusal, refusal_of};
ghost use Rattle.ccr_following.specs.After.{after};
ghost use Rattle.ccr_following.specs.Works.{AreDrawn};

use crate::{FollowerSide, Told};
use ccr_follower::FollowerFault;
use ccr_journal::{Boxed, Refusal, Reply};
use ccr_policy::Picks;
use ccr_wire::Messages;
use std::alloc::AllocError;

impl FollowerSide {
    /// A new copy takes all that the primary has. Answers its number. Refused are `Bootstrapping`, and `TooMany` where
    /// there are eight copies. The cost goes with all that the primary holds.
    pub fn add_copy(&mut self) -> Result<Told, AllocError>
        ensures { IfOk result (λ told. follower_add_copy_row self.old ≡ after told self.new) }
    {
        self.is_whole()?;
        if self.work.is_restoring() {
            return self.refuse(Refusal::Bootstrapping);
        }
        match self.engine.add_copy() {
            Ok(copy) => Ok(self.told(Reply::Added { copy })),
            Err(fault) => {
                let told = self.turn_down(fault)?;
                Ok(told)
            }
        }
    }

    /// A replica takes the primary's operation of a number, unless it has processed it, and learns the global count.
    /// Refused are `NoCopy`, `IsPrimary`, `NotReady` and `NoOperation`. The cost is a logarithm.
    pub fn replicate(&mut self, copy: u64, seq: u64) -> Result<Told, AllocError>
        ensures { IfOk result (λ told. follower_replicate self.old copy seq ≡ after told self.new) }
    {
        self.is_whole()?;
        match self.engine.replicate(copy, seq) {
            Ok(()) => Ok(self.told(Reply::Done)),
            Err(fault) => {
                let told = self.turn_down(fault)?;
                Ok(told)
            }
        }
    }

    /// The primary learns a replica's count. Answers the global count after that. Refused are `NoCopy`, `IsPrimary` and
    /// `NotReady`.
    pub fn ack(&mut self, copy: u64) -> Result<Told, AllocError>
        ensures { IfOk result (λ told. follower_ack self.old copy ≡ after told self.new) }
    {
        self.is_whole()?;
        match self.engine.ack(copy) {
            Ok(global) => Ok(self.told(Reply::Acked { global })),
            Err(fault) => {
                let told = self.turn_down(fault)?;
                Ok(told)
            }
        }
    }

    /// A replica learns the global count. Refused are `NoCopy`, `IsPrimary` and `NotReady`.
    pub fn sync_copy(&mut self, copy: u64) -> Result<Told, AllocError>
        ensures { IfOk result (λ told. follower_sync self.old copy ≡ after told self.new) }
    {
        self.is_whole()?;
        match self.engine.sync_copy(copy) {
            Ok(()) => Ok(self.told(Reply::Done)),
            Err(fault) => {
                let told = self.turn_down(fault)?;
                Ok(told)
            }
        }
    }

    /// A replica becomes the primary of the next term, which is answered; no number is filled, since a follower gives
    /// out none. The former primary goes. Refused are `NoCopy` and `IsPrimary`.
    pub fn promote(&mut self, copy: u64) -> Result<Told, AllocError>
        ensures { IfOk result (λ told. follower_promote self.old copy ≡ after told self.new) }
    {
        self.is_whole()?;
        match self.engine.promote(copy) {
            Ok((term, filled)) => Ok(self.told(Reply::Promoted { term, filled })),
            Err(fault) => {
                let told = self.turn_down(fault)?;
                Ok(told)
            }
        }
    }

    /// A replica leaves. Refused are `NoCopy`, `LastCopy` and `IsPrimary`.
    pub fn fail_copy(&mut self, copy: u64) -> Result<Told, AllocError>
        ensures { IfOk result (λ told. follower_fail_copy self.old copy ≡ after told self.new) }
    {
        self.is_whole()?;
        match self.engine.fail_copy(copy) {
            Ok(()) => Ok(self.told(Reply::Done)),
            Err(fault) => {
                let told = self.turn_down(fault)?;
                Ok(told)
            }
        }
    }

    /// A copy closes the part that takes operations, and its commit count becomes the global count that it knows, which
    /// is answered. Refused is `NoCopy`.
    pub fn flush(&mut self, copy: u64) -> Result<Told, AllocError>
        ensures { IfOk result (λ told. follower_flush self.old copy ≡ after told self.new) }
    {
        self.is_whole()?;
        match self.engine.flush(copy) {
            Ok(commit) => Ok(self.told(Reply::Flushed { commit })),
            Err(fault) => {
                let told = self.turn_down(fault)?;
                Ok(told)
            }
        }
    }

    /// A copy's floor is raised, what is droppable in the picked parts is dropped, and the rest of them is joined.
    /// Answers the floor, how many operations were dropped, and the picks. Refused is `NoCopy`.
    pub fn merge(&mut self, copy: u64, picks: &Picks) -> Result<Told, AllocError>
        ensures { IfOk result (λ told. follower_merge self.old copy picks.now ≡ after told self.new) }
    {
        self.is_whole()?;
        self.broken = true;
        let picked = Boxed::new(self.alloc, picks.copy(self.alloc)?)?;
        match self.engine.merge(copy, picks) {
            Ok((floor, dropped)) => Ok(self.told(Reply::Merged {
                floor,
                dropped,
                picks: picked,
            })),
            Err(fault) => {
                let told = self.turn_down(fault)?;
                Ok(told)
            }
        }
    }

    /// An event on the copies is answered so, and sends nothing.
    fn told(&mut self, reply: Reply) -> Told
        requires { AreDrawn self.old.work self.old.lease_requests }
        ensures { answered reply self.old ≡ after result self.new }
    {
        self.broken = false;
        Told {
            reply,
            sent: Messages::none(self.alloc),
        }
    }

    /// The engine refused an event, or ran out of memory.
    fn turn_down(&mut self, fault: FollowerFault) -> Result<Told, AllocError>
        requires { AreDrawn self.old.work self.old.lease_requests }
        ensures refusal { IfOk result (λ told. IsRefusal fault) }
        ensures refused { IfOk result (λ told. refused self.old (refusal_of fault) ≡ after told self.new) }
    {
        let Some(why) = refusal_of(fault) else {
            self.broken = true;
            return Err(AllocError);
        };
        self.refuse(why)
    }
}

/// The refusal that a fault of the engine is. `None` at want of memory.
fn refusal_of(fault: FollowerFault) -> Option<Refusal>
    ensures { MatchOption result (fault ≡ FollowerFault.Memory) (λ why. IsRefusal fault × (why ≡ refusal_of fault)) }
{
    match fault {
        FollowerFault::OldEpoch { kept } => Some(Refusal::OldEpoch { kept }),
        FollowerFault::NoCopy { copy } => Some(Refusal::NoCopy { copy }),
        FollowerFault::IsPrimary { copy } => Some(Refusal::IsPrimary { copy }),
        FollowerFault::LastCopy { copy } => Some(Refusal::LastCopy { copy }),
        FollowerFault::NotReady { copy } => Some(Refusal::NotReady { copy }),
        FollowerFault::NoOperation { seq } => Some(Refusal::NoOperation { seq }),
        FollowerFault::TooMany => Some(Refusal::TooMany),
        FollowerFault::Memory => None,
    }
}
