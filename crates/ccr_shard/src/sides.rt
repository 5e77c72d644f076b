ghost use Rattle.std.specs.Prelude.{◌≡◌, IfOk};
ghost use Rattle.ccr_following.specs.After.{after};
ghost use Rattle.ccr_shard.specs.Sides.{side_of, leader_part, follower_part};

use crate::leader_events;
use crate::replies::quiet;
use ccr_following::{FollowerSide, Told};
use ccr_journal::{Event, Reply, Side};
use ccr_leader::Leader;
use ccr_policy::Picks;
use std::alloc::{AllocError, Global};

/// The side that an event is of: the follower that it names, and else the leader.
pub(crate) fn side_of(event: &Event) -> Side
    ensures { result ≡ side_of event.now }
{
    match event {
        Event::Replicate { side, .. } => *side,
        Event::Ack { side, .. } => *side,
        Event::Sync { side, .. } => *side,
        Event::Promote { side, .. } => *side,
        Event::FailCopy { side, .. } => *side,
        Event::AddCopy { side, .. } => *side,
        Event::Flush { side, .. } => *side,
        Event::Merge { side, .. } => *side,
        Event::Clock { side, .. } => *side,
        Event::Search { side, .. } => *side,
        Event::Status { side, .. } => *side,
        Event::Tick { f, .. } => Side::Follower(*f),
        Event::Wake { f, .. } => Side::Follower(*f),
        Event::Lose { f, .. } => Side::Follower(*f),
        Event::LoseWrite { f, .. } => Side::Follower(*f),
        Event::Take { f, .. } => Side::Follower(*f),
        Event::Apply { f, .. } => Side::Follower(*f),
        Event::Written { f, .. } => Side::Follower(*f),
        Event::Renew { f, .. } => Side::Follower(*f),
        Event::Pause { f, .. } => Side::Follower(*f),
        Event::Resume { f, .. } => Side::Follower(*f),
        Event::Restart { f, .. } => Side::Follower(*f),
        Event::Unfollow { f, .. } => Side::Follower(*f),
        _ => Side::Leader,
    }
}

/// What an event of the leader's side comes to there. Any other does nothing there.
pub(crate) fn lead(
    alloc: Global,
    leader: &mut Leader,
    event: &Event,
    picks: &Picks,
) -> Result<Told, AllocError>
    ensures { IfOk result (λ told. leader_part event.now picks.now leader.old ≡ after told leader.new) }
{
    match event {
        Event::Write { request } => leader_events::write(alloc, leader, request.get()),
        Event::Replicate { copy, seq, .. } => leader_events::replicate(alloc, leader, *copy, *seq),
        Event::Ack { copy, .. } => leader_events::ack(alloc, leader, *copy),
        Event::Sync { copy, .. } => leader_events::sync_copy(alloc, leader, *copy),
        Event::Promote { copy, .. } => leader_events::promote(alloc, leader, *copy),
        Event::ForcePromote { copy } => leader_events::force_promote(alloc, leader, *copy),
        Event::Resync { copy } => leader_events::resync(alloc, leader, *copy),
        Event::FailCopy { copy, .. } => leader_events::fail_copy(alloc, leader, *copy),
        Event::AddCopy { .. } => leader_events::add_copy(alloc, leader),
        Event::Flush { copy, .. } => leader_events::flush(alloc, leader, *copy),
        Event::Merge { copy, .. } => leader_events::merge(alloc, leader, *copy, picks),
        Event::Clock { now, .. } => leader_events::clock(alloc, leader, *now),
        Event::Expire => leader_events::expire(alloc, leader),
        Event::CloseSessions => leader_events::close_sessions(alloc, leader),
        Event::Status { .. } => leader_events::status(alloc, leader),
        _ => Ok(quiet(alloc, Reply::Done)),
    }
}

/// What an event of a follower's side comes to there. Any other does nothing there.
pub(crate) fn follow(
    alloc: Global,
    follower: &mut FollowerSide,
    event: &Event,
    picks: &Picks,
) -> Result<Told, AllocError>
    ensures { IfOk result (λ told. follower_part event.now picks.now follower.old ≡ after told follower.new) }
{
    match event {
        Event::Replicate { copy, seq, .. } => follower.replicate(*copy, *seq),
        Event::Ack { copy, .. } => follower.ack(*copy),
        Event::Sync { copy, .. } => follower.sync_copy(*copy),
        Event::Promote { copy, .. } => follower.promote(*copy),
        Event::FailCopy { copy, .. } => follower.fail_copy(*copy),
        Event::AddCopy { .. } => follower.add_copy(),
        Event::Flush { copy, .. } => follower.flush(*copy),
        Event::Merge { copy, .. } => follower.merge(*copy, picks),
        Event::Clock { now, .. } => follower.clock(*now),
        Event::Status { .. } => follower.status(),
        Event::Tick { .. } => follower.tick(),
        Event::Lose { at, .. } => follower.lose(*at),
        Event::LoseWrite { write, .. } => follower.lose_write(*write),
        Event::Take { write, .. } => follower.take(*write),
        Event::Apply {
            epoch,
            write,
            batch,
            ..
        } => follower.apply(*epoch, *write, batch.get()),
        Event::Written { write, .. } => follower.written(*write),
        Event::Renew { .. } => follower.renew(),
        Event::Pause { .. } => follower.pause(),
        Event::Resume { .. } => follower.resume(),
        Event::Restart { .. } => follower.restart(),
        Event::Unfollow { .. } => follower.unfollow(),
        _ => Ok(quiet(alloc, Reply::Done)),
    }
}
