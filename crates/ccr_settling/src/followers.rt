// What to do next at the followers.
ghost use Rattle.std.specs.Prelude.{◌≡◌, Some, length, IfOk, MatchOption};
ghost use Rattle.ccr_settling.specs.Idle.{NoneWaitsBelow, waits_of};
ghost use Rattle.ccr_settling.specs.Still.{Acts, ActsThere, AreStillBetween, IsStill, IsStillAt};

use crate::copies::{next_to_ack, next_to_catch_up, next_to_sync};
use crate::requests::{is_due, next_to_lose};
use crate::writes::{next_to_apply, next_to_end};
use ccr_changes::Polls;
use ccr_following::FollowerSide;
use ccr_journal::{Event, Side};
use ccr_op::Millis;
use ccr_shard::Shard;
use std::alloc::{AllocError, Global};

/// What to do next at the followers from one on and below another.
pub fn next_between(
    alloc: Global,
    shard: &Shard,
    first: u32,
    end: u32,
) -> Result<Option<Event>, AllocError>
    ensures { IfOk result (λ next. MatchOption next (AreStillBetween shard.now first end) (λ event. ActsThere shard.now event)) }
{
    for f in first..end {
        if let Some(event) = next_at(alloc, shard, f)? {
            return Ok(Some(event));
        }
    }
    Ok(None)
}

/// The first follower that waits, and until when.
pub fn first_to_wait(shard: &Shard) -> Option<(u32, Millis)>
    ensures { MatchOption result (NoneWaitsBelow shard.now (length shard.now.followers)) (λ found. waits_of shard.now found.0 ≡ Some found.1) }
{
    for f in 0..shard.followers() {
        if let Some(now) = wait_at(shard, f) {
            return Some((f, now));
        }
    }
    None
}

/// Until when a follower waits.
fn wait_at(shard: &Shard, f: u32) -> Option<Millis>
    ensures { result ≡ waits_of shard.now f }
{
    let own = shard.follower(f)?;
    own.waits_until()
}

/// What to do next at a follower, where there is one of that number.
fn next_at(alloc: Global, shard: &Shard, f: u32) -> Result<Option<Event>, AllocError>
    ensures { IfOk result (λ next. MatchOption next (IsStillAt shard.now f) (λ event. ActsThere shard.now event)) }
{
    let Some(own) = shard.follower(f) else {
        return Ok(None);
    };
    let next = next_of_follower(alloc, f, own, shard.leader().polls())?;
    Ok(next)
}

/// What to do next at a follower. Its replicas take what they lack before a write may end, and that before the next one
/// is applied: so a batch is looked through once or twice, and not once for each of its operations. The primary learns
/// the counts last, so once and not after each batch.
fn next_of_follower(
    alloc: Global,
    f: u32,
    own: &FollowerSide,
    polls: &Polls,
) -> Result<Option<Event>, AllocError>
    ensures { IfOk result (λ next. MatchOption next (IsStill f polls.now own.entry.now) (λ event. Acts f polls.now own.entry.now event)) }
{
    let side = Side::Follower(f);
    if let Some(event) = next_to_catch_up(side, own.copies()) {
        return Ok(Some(event));
    }
    if let Some(event) = next_to_end(f, own) {
        return Ok(Some(event));
    }
    if let Some(event) = next_to_apply(alloc, f, own)? {
        return Ok(Some(event));
    }
    if is_due(own) {
        return Ok(Some(Event::Tick { f }));
    }
    if let Some(event) = next_to_lose(f, own, polls)? {
        return Ok(Some(event));
    }
    if let Some(event) = next_to_ack(side, own.copies()) {
        return Ok(Some(event));
    }
    if let Some(event) = next_to_sync(side, own.copies()) {
        return Ok(Some(event));
    }
    Ok(None)
}
