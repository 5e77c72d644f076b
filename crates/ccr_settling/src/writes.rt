// What to do next with the writes of a follower's task.
ghost use Rattle.std.specs.Prelude.{◌≡◌, ℕ, List, Some, length, slice_get, IfOk, IfSome, MatchOption};
ghost use Rattle.ccr_journal.specs.declared.events.Event.TheVariants as events;
ghost use Rattle.ccr_model.specs.Leaders.{Poll};
ghost use Rattle.ccr_model.specs.FollowerRows.{task_of};
ghost use Rattle.ccr_settling.specs.Still.{Acts, IsApplied, IsStillGoing};

use ccr_following::FollowerSide;
use ccr_journal::{Boxed, Event};
use ccr_op::Batch;
use ccr_task::Task;
use std::alloc::{AllocError, Global};

/// The first write that was sent and that each copy has processed. It ends.
pub fn next_to_end(f: u32, own: &FollowerSide) -> Option<Event>
    ensures { MatchOption result ((write : ℕ) → IsStillGoing own.entry.now write) (λ event. (polls : List Poll) → Acts f polls own.entry.now event) }
{
    let task = own.task()?;
    for at in 0..count_writes(task) {
        if let Some(event) = end_at(f, own, task, at) {
            return Some(event);
        }
    }
    None
}

/// The first write that was sent and that the follower's primary lacks an operation of. It is applied, with a copy of
/// its batch that shares the texts of the operations.
pub fn next_to_apply(alloc: Global, f: u32, own: &FollowerSide) -> Result<Option<Event>, AllocError>
    ensures { IfOk result (λ next. MatchOption next ((write : ℕ) → IsApplied own.entry.now write) (λ event. (polls : List Poll) → Acts f polls own.entry.now event)) }
{
    let Some(task) = own.task() else {
        return Ok(None);
    };
    for at in 0..count_writes(task) {
        if let Some(event) = apply_at(alloc, f, own, task, at)? {
            return Ok(Some(event));
        }
    }
    Ok(None)
}

/// How many writes are outstanding.
fn count_writes(task: &Task) -> usize
    ensures { result ≡ length task.now.writes }
{
    task.load().writes as usize
}

/// The write at a place ends, where it was sent and each copy has processed its batch. The cost is that of the
/// operations up to the first one that a copy lacks.
fn end_at(f: u32, own: &FollowerSide, task: &Task, at: usize) -> Option<Event>
    requires { task_of own.now.work ≡ Some task.now }
    ensures { MatchOption result (IfSome (slice_get task.now.writes at) (λ w. IsStillGoing own.entry.now w.number)) (λ event. (polls : List Poll) → Acts f polls own.entry.now event) }
{
    let write = task.write_at(at)?;
    let batch = task.sent_batch(write)?;
    if own.copies().lacks(batch.as_slice()).is_some() {
        return None;
    }
    Some(Event::Written { f, write })
}

/// The write at a place is applied, where it was sent and the follower's primary lacks an operation of its batch. The
/// cost is that of the operations up to the first one that it lacks, and of the copy of the batch.
fn apply_at(
    alloc: Global,
    f: u32,
    own: &FollowerSide,
    task: &Task,
    at: usize,
) -> Result<Option<Event>, AllocError>
    requires { task_of own.now.work ≡ Some task.now }
    ensures { IfOk result (λ next. MatchOption next (IfSome (slice_get task.now.writes at) (λ w. IsApplied own.entry.now w.number)) (λ event. (polls : List Poll) → Acts f polls own.entry.now event)) }
{
    let Some(write) = task.write_at(at) else {
        return Ok(None);
    };
    let Some(batch) = task.sent_batch(write) else {
        return Ok(None);
    };
    if own.copies().primary().has_all(batch.as_slice()) {
        return Ok(None);
    }
    let event = apply(alloc, f, own.epoch(), write, batch)?;
    Ok(Some(event))
}

/// The event that applies a batch.
fn apply(alloc: Global, f: u32, epoch: u64, write: u64, batch: &Batch) -> Result<Event, AllocError>
    ensures { IfOk result (λ event. event ≡ events.Apply f epoch write batch.now) }
{
    let batch = batch.copy(alloc)?;
    let batch = Boxed::new(alloc, batch)?;
    Ok(Event::Apply {
        f,
        epoch,
        write,
        batch,
    })
}
