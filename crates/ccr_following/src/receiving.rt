ghost use Rattle.std.specs.Prelude.{◌≡◌, IfOk};
ghost use Rattle.ccr_model.specs.FollowerRows.{follower_receive_row};
ghost use Rattle.ccr_following.specs.After.{after};
ghost use Rattle.ccr_following.specs.Ending.{EndsRightly};
ghost use Rattle.ccr_following.specs.Finished.{IsFetched, IsFetchedRightly, IsRestoredBy, follows};
ghost use Rattle.ccr_following.specs.Works.{AreDrawn, work_of};

use crate::hearing::Hearing;
use crate::work::Work;
use crate::{FollowerSide, Told};
use ccr_journal::{Heard, Reply};
use ccr_segment::Restored;
use ccr_wire::{Message, Messages};
use std::alloc::AllocError;

impl FollowerSide {
    /// A message comes. It answers a request about the lease, which stands no more then, or what the bootstrap or the
    /// task asked for; any other message is ignored. Where all parts of the session's files have come, the copies are
    /// restored from them and the task of epoch 1 starts. A session of another history ends the bootstrap without a task.
    pub fn receive(&mut self, message: Message) -> Result<Told, AllocError>
        requires { EndsRightly self.old message }
        ensures { IfOk result (λ told. follower_receive_row self.old message ≡ after told self.new) }
    {
        self.is_whole()?;
        self.broken = true;
        if self.lease_requests.answer(message.request()) {
            self.broken = false;
            return Ok(Told {
                reply: Reply::Heard(Heard::Done),
                sent: Messages::none(self.alloc),
            });
        }
        match self.work.hear(self.alloc, self.now, message)? {
            Hearing::GoesOn { heard, sent } => {
                self.broken = false;
                Ok(Told {
                    reply: Reply::Heard(heard),
                    sent,
                })
            }
            Hearing::Ended => {
                self.work.end(self.alloc, &self.params);
                self.broken = false;
                Ok(Told {
                    reply: Reply::Heard(Heard::StoppedHistory),
                    sent: Messages::none(self.alloc),
                })
            }
            Hearing::Fetched => {
                let told = self.start_following()?;
                Ok(told)
            }
        }
    }

    /// The bootstrap is over: the copies are restored from the files, and the task of epoch 1 starts at the session's
    /// count.
    fn start_following(&mut self) -> Result<Told, AllocError>
        requires right { IsFetchedRightly self.old.work }
        requires drawn { AreDrawn self.old.work self.old.lease_requests }
        ensures { IfOk result (λ told. follows self.old self.old.work ≡ after told self.new) }
    {
        self.broken = true;
        let restored = self.work.finish()?;
        let count = restored.count;
        let history = restored.history;
        self.engine.install(restored.files.into_vec(), count)?;
        self.engine.begin_epoch(1);
        let sent = self
            .work
            .begin(self.alloc, &self.params, count, 1, history)?;
        self.broken = false;
        Ok(Told {
            reply: Reply::Heard(Heard::Done),
            sent,
        })
    }
}

impl Work {
    /// The files of the session that the bootstrap fetched.
    fn finish(&self) -> Result<Restored, AllocError>
        requires { IsFetched (work_of self.now) }
        ensures { IfOk result (λ restored. IsRestoredBy (work_of self.now) restored) }
    {
        match self {
            Work::Restoring(restore) => {
                let restored = restore.finish()?;
                Ok(restored)
            }
            Work::Replicating(_) => unreachable!(),
        }
    }
}
