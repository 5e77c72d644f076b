ghost use Rattle.std.specs.Prelude.{◌≡◌, IfOk};
ghost use Rattle.ccr_model.specs.FollowerRows.{apply_row, follower_clock_row, lose_row, lose_write_row, sent_write, take_row, tick_row, written_row};
ghost use Rattle.ccr_following.specs.After.{after};
ghost use Rattle.ccr_following.specs.Refusals.{not_applied, not_written};

use crate::{FollowerSide, Told};
use ccr_journal::{Refusal, Reply};
use ccr_op::{Batch, Millis};
use ccr_wire::Messages;
use std::alloc::AllocError;

impl FollowerSide {
    /// The request at a place among those that were sent, in ascending order, is lost, and waits for a retry. Refused
    /// is `NoRequest`.
    pub fn lose(&mut self, at: u64) -> Result<Told, AllocError>
        ensures { IfOk result (λ told. lose_row self.old at ≡ after told self.new) }
    {
        self.is_whole()?;
        self.broken = true;
        if !self.work.lose(at, self.now)? {
            return self.refuse(Refusal::NoRequest { at });
        }
        self.broken = false;
        Ok(Told {
            reply: Reply::Done,
            sent: Messages::none(self.alloc),
        })
    }

    /// What waited long enough is sent again, and an active task does all that it may do.
    pub fn tick(&mut self) -> Result<Told, AllocError>
        ensures { IfOk result (λ told. tick_row self.old ≡ after told self.new) }
    {
        self.is_whole()?;
        self.broken = true;
        let sent = self.work.tick(self.alloc, self.now)?;
        self.broken = false;
        Ok(Told {
            reply: Reply::Done,
            sent,
        })
    }

    /// Its clock is set.
    pub fn clock(&mut self, now: Millis) -> Result<Told, AllocError>
        ensures { IfOk result (λ told. follower_clock_row self.old now ≡ after told self.new) }
    {
        self.is_whole()?;
        self.now = now;
        Ok(Told {
            reply: Reply::Done,
            sent: Messages::none(self.alloc),
        })
    }

    /// A write that was sent is lost, and waits for a retry. Refused is `NoBatch`.
    pub fn lose_write(&mut self, write: u64) -> Result<Told, AllocError>
        ensures { IfOk result (λ told. lose_write_row self.old write (sent_write self.old.work write) ≡ after told self.new) }
    {
        self.is_whole()?;
        self.broken = true;
        if !self.work.lose_write(write, self.now)? {
            return self.refuse(Refusal::NoBatch { write });
        }
        self.broken = false;
        Ok(Told {
            reply: Reply::Done,
            sent: Messages::none(self.alloc),
        })
    }

    /// A copy of the batch of a write that was sent. Refused is `NoBatch`.
    pub fn take(&mut self, write: u64) -> Result<Told, AllocError>
        ensures { IfOk result (λ told. take_row self.old write (sent_write self.old.work write) ≡ after told self.new) }
    {
        self.is_whole()?;
        self.broken = true;
        let Some(batch) = self.work.batch(self.alloc, write)? else {
            return self.refuse(Refusal::NoBatch { write });
        };
        self.broken = false;
        Ok(Told {
            reply: Reply::Took { batch },
            sent: Messages::none(self.alloc),
        })
    }

    /// The primary takes each operation of a write whose number it has not processed. Answers how many these were.
    /// Refused are `OldEpoch`, where the epoch is below the one that is kept, and `NoBatch`, where no write of that number
    /// was sent with these operations.
    pub fn apply(&mut self, epoch: u64, write: u64, batch: &Batch) -> Result<Told, AllocError>
        ensures { IfOk result (λ told. apply_row self.old epoch write batch.now (sent_write self.old.work write) ≡ after told self.new) }
    {
        self.is_whole()?;
        if let Some(why) = self.not_applied(epoch, write, batch) {
            return self.refuse(why);
        }
        self.broken = true;
        let Ok(new) = self.engine.apply(epoch, batch) else {
            return Err(AllocError);
        };
        self.broken = false;
        Ok(Told {
            reply: Reply::Applied { new },
            sent: Messages::none(self.alloc),
        })
    }

    /// A write that was sent is over, once each copy has processed its operations, and an active task does all that it
    /// may do then. Refused are `NoBatch`, and `NotWritten` with the least copy that lacks one of them.
    pub fn written(&mut self, write: u64) -> Result<Told, AllocError>
        ensures { IfOk result (λ told. written_row self.old write (sent_write self.old.work write) ≡ after told self.new) }
    {
        self.is_whole()?;
        if let Some(why) = self.not_written(write) {
            return self.refuse(why);
        }
        self.broken = true;
        let Some(sent) = self.work.end_write(self.alloc, write)? else {
            return Err(AllocError);
        };
        self.broken = false;
        Ok(Told {
            reply: Reply::Done,
            sent,
        })
    }

    /// Why the primary takes no write of this epoch and number with these operations, if it doesn't.
    fn not_applied(&self, epoch: u64, write: u64, batch: &Batch) -> Option<Refusal>
        ensures { result ≡ not_applied self.entry.now epoch write batch.now (sent_write self.entry.now.work write) }
    {
        let kept = self.engine.epoch();
        if epoch < kept {
            return Some(Refusal::OldEpoch { kept });
        }
        let Some(sent) = self.work.sent_batch(write) else {
            return Some(Refusal::NoBatch { write });
        };
        if !sent.is(batch) {
            return Some(Refusal::NoBatch { write });
        }
        None
    }

    /// Why a write doesn't end, if it doesn't.
    fn not_written(&self, write: u64) -> Option<Refusal>
        ensures { result ≡ not_written self.entry.now write (sent_write self.entry.now.work write) }
    {
        let Some(sent) = self.work.sent_batch(write) else {
            return Some(Refusal::NoBatch { write });
        };
        let copy = u64::from(self.engine.lacks(sent)?);
        Some(Refusal::NotWritten { copy })
    }
}
