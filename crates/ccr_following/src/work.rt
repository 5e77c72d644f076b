ghost use Rattle.std.specs.Prelude.{◌≡◌, IfOk, Some, option_copied};
ghost use Rattle.ccr_wire.specs.Message.{ContentFits};
ghost use Rattle.ccr_model.specs.FrameFacts.{next_request_of};
ghost use Rattle.ccr_model.specs.Followers.{phase_of_work, replicating};
ghost use Rattle.ccr_model.specs.FollowerRows.{is_bootstrapping, loads, task_of};
ghost use Rattle.ccr_model.specs.Settling.{request_at, waits_until};
ghost use Rattle.ccr_following.specs.Works.{asks, batch_of, begins, ended, ended_write, follower_of, history_of, is_active_work, is_idle_work, is_paused_work, lost_at, lost_write, pauses, renews, unfollows, work_of, work_ticked};

use ccr_journal::{Params, Phase};
use ccr_op::{Batch, Count, LeaseId, Millis};
use ccr_restore::{Restore, RestoreFault};
use ccr_task::{Task, TaskFault};
use ccr_wire::{Content, Message, Messages};
use std::alloc::{AllocError, Global};
use uuid::Uuid;

/// What a follower does.
#[derive(Drop)]
pub enum Work {
    /// Its bootstrap.
    Restoring(Restore),
    /// Its task, which stays when it is stopped.
    Replicating(Task),
}

impl Work {
    /// Where the follower stands.
    pub fn phase(&self) -> Phase
        ensures { result ≡ phase_of_work (work_of self.now) }
    {
        match self {
            Work::Restoring(restore) => restore.phase(),
            Work::Replicating(task) => task.phase(),
        }
    }

    /// The task, where the bootstrap is over.
    pub fn task(&self) -> Option<&Task>
        ensures { option_copied result ≡ task_of (work_of self.now) }
    {
        match self {
            Work::Restoring(_) => None,
            Work::Replicating(task) => Some(task),
        }
    }

    /// Whether it is the bootstrap.
    pub fn is_restoring(&self) -> bool
        ensures { result ≡ is_bootstrapping (work_of self.now) }
    {
        match self {
            Work::Restoring(_) => true,
            Work::Replicating(_) => false,
        }
    }

    /// The follower that it is of.
    pub fn follower(&self) -> Uuid
        ensures { result ≡ follower_of (work_of self.now) }
    {
        match self {
            Work::Restoring(restore) => restore.follower(),
            Work::Replicating(task) => task.follower(),
        }
    }

    /// The leader's history when it began.
    pub fn history(&self) -> Uuid
        ensures { result ≡ history_of (work_of self.now) }
    {
        match self {
            Work::Restoring(restore) => restore.history(),
            Work::Replicating(task) => task.history(),
        }
    }

    /// The number that the next request has.
    pub fn next_request(&self) -> u64
        ensures { result ≡ next_request_of (work_of self.now) }
    {
        match self {
            Work::Restoring(restore) => restore.next_request(),
            Work::Replicating(task) => task.next_request(),
        }
    }

    /// Whether there is an active task.
    pub fn is_active(&self) -> bool
        ensures { result ≡ is_active_work (work_of self.now) }
    {
        match self {
            Work::Restoring(_) => false,
            Work::Replicating(task) => matches!(task.phase(), Phase::Active),
        }
    }

    /// Whether there is a paused task.
    pub fn is_paused(&self) -> bool
        ensures { result ≡ is_paused_work (work_of self.now) }
    {
        match self {
            Work::Restoring(_) => false,
            Work::Replicating(task) => matches!(task.phase(), Phase::Paused),
        }
    }

    /// Whether the bootstrap is over, and nothing is to be written.
    pub fn is_idle(&self) -> bool
        ensures { result ≡ is_idle_work (work_of self.now) }
    {
        match self {
            Work::Restoring(_) => false,
            Work::Replicating(task) => {
                let load = task.load();
                load.buffer == 0 && load.writes == 0
            }
        }
    }

    /// How many reads, operations in the buffer and writes it has under way.
    pub fn loads(&self) -> (u64, u64, u64)
        ensures { result ≡ loads (work_of self.now) }
    {
        match self {
            Work::Restoring(_) => (0, 0, 0),
            Work::Replicating(task) => {
                let load = task.load();
                (load.reads, load.buffer, load.writes)
            }
        }
    }

    /// The number of the request at a place among those that were sent, in ascending order.
    pub fn sent_at(&self, at: u64) -> Option<u64>
        ensures { result ≡ request_at (work_of self.now) at }
    {
        match self {
            Work::Restoring(restore) => restore.sent_at(at),
            Work::Replicating(task) => task.sent_at(at as usize),
        }
    }

    /// The least time until which something waits.
    pub fn waits_until(&self) -> Option<Millis>
        ensures { result ≡ waits_until (work_of self.now) }
    {
        match self {
            Work::Restoring(restore) => restore.waits_until(),
            Work::Replicating(task) => task.waits_until(),
        }
    }

    /// The batch of a write that was sent.
    pub fn sent_batch(&self, write: u64) -> Option<&Batch>
        ensures { option_copied result ≡ batch_of (work_of self.now) write }
    {
        match self {
            Work::Restoring(_) => None,
            Work::Replicating(task) => task.sent_batch(write),
        }
    }

    /// A copy of the batch of a write that was sent.
    pub fn batch(&self, alloc: Global, write: u64) -> Result<Option<Batch>, AllocError>
        ensures { IfOk result (λ batch. batch ≡ batch_of (work_of self.now) write) }
    {
        match self {
            Work::Restoring(_) => Ok(None),
            Work::Replicating(task) => {
                let batch = task.batch(alloc, write)?;
                Ok(batch)
            }
        }
    }
}

impl Work {
    /// The request at a place among those that were sent is lost, and waits. Says whether there is one. Want of
    /// memory is answered where the losses can't be counted.
    pub fn lose(&mut self, at: u64, now: Millis) -> Result<bool, AllocError>
        ensures { IfOk result (λ lost. lost_at now at (work_of self.old) ≡ record { next = work_of self.new; told = lost }) }
    {
        match self {
            Work::Restoring(restore) => match restore.lose(at, now) {
                Ok(()) => Ok(true),
                Err(RestoreFault::NoRequest { .. }) => Ok(false),
                Err(RestoreFault::Memory) => Err(AllocError),
            },
            Work::Replicating(task) => {
                if task.losses() == u64::MAX {
                    return Err(AllocError);
                }
                match task.lose(at as usize, now) {
                    Ok(()) => Ok(true),
                    Err(_) => Ok(false),
                }
            }
        }
    }

    /// What waited long enough is sent again, and an active task does all that it may do.
    pub fn tick(&mut self, alloc: Global, now: Millis) -> Result<Messages, AllocError>
        ensures { IfOk result (λ sent. work_ticked now (work_of self.old) ≡ record { next = work_of self.new; told = sent }) }
    {
        match self {
            Work::Restoring(restore) => {
                let sent = restore.tick(now)?;
                Ok(sent)
            }
            Work::Replicating(task) => {
                let sent = task.tick(alloc, now)?;
                Ok(sent)
            }
        }
    }

    /// A write that was sent is lost, and waits. Says whether there is one.
    pub fn lose_write(&mut self, write: u64, now: Millis) -> Result<bool, AllocError>
        ensures { IfOk result (λ lost. lost_write now write (work_of self.old) ≡ record { next = work_of self.new; told = lost }) }
    {
        match self {
            Work::Restoring(_) => Ok(false),
            Work::Replicating(task) => {
                if task.losses() == u64::MAX {
                    return Err(AllocError);
                }
                match task.on_lost_write(write, now) {
                    Ok(()) => Ok(true),
                    Err(_) => Ok(false),
                }
            }
        }
    }

    /// A write that was sent is over: what is sent then, and `None` where there is none.
    pub fn end_write(&mut self, alloc: Global, write: u64) -> Result<Option<Messages>, AllocError>
        ensures { IfOk result (λ sent. ended_write write (work_of self.old) ≡ record { next = work_of self.new; told = sent }) }
    {
        match self {
            Work::Restoring(_) => Ok(None),
            Work::Replicating(task) => match task.on_written(alloc, write) {
                Ok(sent) => Ok(Some(sent)),
                Err(TaskFault::NoBatch) => Ok(None),
                Err(_) => Err(AllocError),
            },
        }
    }
}

impl Work {
    /// An active task asks to renew the lease for what is still needed: all from the global count that the primary
    /// knows, and all that it asks for or will ask for. `None` where no task is active.
    pub fn renew(&mut self, lease: &LeaseId, global: Count) -> Result<Option<Message>, AllocError>
        ensures { IfOk result (λ asked. renews lease.now global (work_of self.old) ≡ record { next = work_of self.new; told = asked }) }
    {
        match self {
            Work::Restoring(_) => Ok(None),
            Work::Replicating(task) => {
                let Some(least) = task.least_asked() else {
                    return Ok(None);
                };
                let id = lease.clone()?;
                let number = global.min(least);
                let message = ask(task, Content::LeaseRenew { id, number })?;
                Ok(Some(message))
            }
        }
    }

    /// A task that isn't active follows no more, and asks to remove the lease. `None` where it is active, and in the
    /// bootstrap.
    pub fn unfollow(&mut self, lease: &LeaseId) -> Result<Option<Message>, AllocError>
        ensures { IfOk result (λ asked. unfollows lease.now (work_of self.old) ≡ record { next = work_of self.new; told = asked }) }
    {
        match self {
            Work::Restoring(_) => Ok(None),
            Work::Replicating(task) => {
                if matches!(task.phase(), Phase::Active) {
                    return Ok(None);
                }
                let id = lease.clone()?;
                task.retire();
                let message = ask(task, Content::LeaseRemove { id })?;
                Ok(Some(message))
            }
        }
    }

    /// An active task is paused; another is left as it is. Says whether there is a task.
    pub fn pause(&mut self) -> bool
        ensures { pauses (work_of self.old) ≡ record { next = work_of self.new; told = result } }
    {
        match self {
            Work::Restoring(_) => false,
            Work::Replicating(task) => {
                if matches!(task.phase(), Phase::Active) {
                    task.stop();
                }
                true
            }
        }
    }

    /// A task begins an epoch in place of this work, and reads a history from a count on: what is sent.
    pub fn begin(
        &mut self,
        alloc: Global,
        params: &Params,
        count: Count,
        epoch: u64,
        history: Uuid,
    ) -> Result<Messages, AllocError>
        ensures { IfOk result (λ sent. begins params.now count epoch history (work_of self.old) ≡ record { next = work_of self.new; told = sent }) }
    {
        let follower = self.follower();
        let request = self.next_request();
        let (task, sent) = Task::start(
            alloc,
            params.copy(),
            count,
            epoch,
            history,
            follower,
            request,
        )?;
        *self = Work::Replicating(task);
        Ok(sent)
    }

    /// A task that never began, and is stopped since the leader has another history, stands in place of this work.
    pub fn end(&mut self, alloc: Global, params: &Params)
        ensures { work_of self.new ≡ ended params.now (work_of self.old) }
    {
        let history = self.history();
        let follower = self.follower();
        let request = self.next_request();
        *self = Work::Replicating(Task::never_started(
            alloc,
            params.copy(),
            history,
            follower,
            request,
            Phase::History,
        ));
    }
}

/// A message of this content under the task's next request number. Want of memory is answered at the last number.
fn ask(task: &mut Task, content: Content) -> Result<Message, AllocError>
    requires { ContentFits content }
    ensures { IfOk result (λ message. asks task.old content ≡ record { next = replicating task.new; told = Some message }) }
{
    if task.next_request() == u64::MAX {
        return Err(AllocError);
    }
    let request = task.draw();
    Ok(Message::new(task.follower(), request, content))
}
