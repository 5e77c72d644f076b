ghost use Rattle.std.specs.Prelude.{◌≡◌, [], IfOk};
ghost use Rattle.ccr_model.specs.Tasks.{read_sent};
ghost use Rattle.ccr_model.specs.Followers.{replicating, restoring};
ghost use Rattle.ccr_following.specs.Hearings.{hearing_of, read_goes, restore_heard_by, work_heard_by};
ghost use Rattle.ccr_following.specs.Works.{work_of};

use crate::work::Work;
use ccr_journal::Heard;
use ccr_op::Millis;
use ccr_restore::Restore;
use ccr_task::{Stopped, Taken, Task};
use ccr_wire::{Message, Messages};
use std::alloc::{AllocError, Global};

/// What a follower's work made of a message.
#[derive(Drop)]
pub enum Hearing {
    /// It goes on.
    GoesOn {
        /// What it did.
        heard: Heard,
        /// What it sends.
        sent: Messages,
    },
    /// The bootstrap is over, since the leader has another history.
    Ended,
    /// The bootstrap has all parts of the files.
    Fetched,
}

impl Work {
    /// A message comes at a time of the follower's clock.
    pub fn hear(
        &mut self,
        alloc: Global,
        now: Millis,
        message: Message,
    ) -> Result<Hearing, AllocError>
        ensures { IfOk result (λ hearing. work_heard_by now message (work_of self.old) ≡ record { next = work_of self.new; told = hearing }) }
    {
        match self {
            Work::Restoring(restore) => {
                let hearing = hear_leader(restore, now, message)?;
                Ok(hearing)
            }
            Work::Replicating(task) => {
                let hearing = hear_reply(task, alloc, message)?;
                Ok(hearing)
            }
        }
    }
}

/// A message comes to the bootstrap.
fn hear_leader(restore: &mut Restore, now: Millis, message: Message) -> Result<Hearing, AllocError>
    ensures { IfOk result (λ hearing. restore_heard_by now message restore.old ≡ record { next = restoring restore.new; told = hearing }) }
{
    let (heard, sent) = restore.on_message(message, now)?;
    Ok(hearing_of(heard, restore.complete(), sent))
}

/// What the bootstrap made of a message, where it has all parts of the files then or not.
fn hearing_of(heard: Heard, complete: bool, sent: Messages) -> Hearing
    ensures { result ≡ hearing_of heard complete sent }
{
    match heard {
        Heard::StoppedHistory => Hearing::Ended,
        Heard::Done => {
            if complete {
                return Hearing::Fetched;
            }
            Hearing::GoesOn { heard, sent }
        }
        _ => Hearing::GoesOn { heard, sent },
    }
}

/// A message comes to the task.
fn hear_reply(task: &mut Task, alloc: Global, message: Message) -> Result<Hearing, AllocError>
    ensures { IfOk result (λ hearing. read_goes task.old message.content (read_sent task.old message.request) ≡ record { next = replicating task.new; told = hearing }) }
{
    match task.on_reply(alloc, message)? {
        Taken::Kept { asks } => Ok(Hearing::GoesOn {
            heard: Heard::Done,
            sent: asks,
        }),
        Taken::Ignored => Ok(goes_quietly(alloc, Heard::Ignored)),
        Taken::Stopped(Stopped::Missing { .. }) => Ok(goes_quietly(alloc, Heard::StoppedMissing)),
        Taken::Stopped(Stopped::HistoryChanged { .. }) => {
            Ok(goes_quietly(alloc, Heard::StoppedHistory))
        }
        Taken::Stopped(Stopped::Paused) => unreachable!(),
    }
}

/// It goes on, and sends nothing.
fn goes_quietly(alloc: Global, heard: Heard) -> Hearing
    ensures { result ≡ Hearing.GoesOn heard [] }
{
    Hearing::GoesOn {
        heard,
        sent: Messages::none(alloc),
    }
}
