ghost use Rattle.std.specs.Prelude.{◌≡◌, ◌≤◌, true, false, length, IfOk, MatchOption};
ghost use Rattle.ccr_law_reached.specs.Reached.{IsReached};
ghost use Rattle.ccr_journal.specs.declared.events.Event.TheVariants as events;
ghost use Rattle.ccr_model.specs.Settled.{is_settled};
ghost use Rattle.ccr_settling.specs.Grounds.{Grounds};
ghost use Rattle.ccr_settling.specs.Next.{IsNext};
ghost use Rattle.ccr_settling.specs.Still.{ActsThere, AreStillBetween};

use crate::copies::next_of_leader;
use crate::followers::{first_to_wait, next_between};
use crate::waking::next_to_wake;
use ccr_journal::{Event, Side};
use ccr_law_reached::{kept_requests_wait, polls_are_of_followers, settling_ends};
use ccr_shard::Shard;
use std::alloc::{AllocError, Global};

/// What to do next to settle a world, and `None` exactly where it is settled.
///
/// At the leader all replicas come to the primary's state first, then what is in flight is delivered, the oldest message
/// first, then polls that have something to bring are answered. After that the followers do what they can, from the one
/// of the number `hint` on, counted again from 0 behind the last one; so callers with other hints begin at other
/// followers. A clock is set only where nothing else may be done.
///
/// The cost is one look at each copy, with a look-up among the polls there, and at one follower after another up to the
/// first of which something may be done, with the requests and writes that it has outstanding. An apply has a copy of
/// its batch.
pub fn choose(alloc: Global, shard: &Shard, hint: u64) -> Result<Option<Event>, AllocError>
    requires { IsReached shard.now }
    ensures { IfOk result (λ chosen. MatchOption chosen (is_settled shard.now ≡ true) (λ event. IsNext shard.now event)) }
{
    settling_ends();
    polls_are_of_followers();
    kept_requests_wait();
    let chosen = choose_there(alloc, shard, hint)?;
    Ok(chosen)
}

/// The same, of a state of which this holds.
fn choose_there(alloc: Global, shard: &Shard, hint: u64) -> Result<Option<Event>, AllocError>
    requires { Grounds shard.now }
    ensures { IfOk result (λ chosen. MatchOption chosen (is_settled shard.now ≡ true) (λ event. IsNext shard.now event)) }
{
    if shard.is_settled() {
        return Ok(None);
    }
    if let Some(event) = next_of_leader(shard.leader().copies()) {
        return Ok(Some(event));
    }
    if shard.in_flight() > 0 {
        return Ok(Some(deliver_oldest(shard)));
    }
    if let Some(event) = next_to_wake(shard) {
        return Ok(Some(event));
    }
    if let Some(event) = next_of_followers(alloc, shard, hint)? {
        return Ok(Some(event));
    }
    match first_to_wait(shard) {
        Some((f, now)) => Ok(Some(Event::Clock {
            side: Side::Follower(f),
            now,
        })),
        None => unreachable!(),
    }
}

/// The oldest message in flight comes to its receiver, which at the leader is the primary.
fn deliver_oldest(shard: &Shard) -> Event
    ensures { result ≡ events.Deliver 0 shard.now.leader.copies.primary.number false }
{
    Event::Deliver {
        at: 0,
        copy: u64::from(shard.leader().primary()),
        keep: false,
    }
}

/// What to do next at the followers, from the one that the hint names on.
fn next_of_followers(alloc: Global, shard: &Shard, hint: u64) -> Result<Option<Event>, AllocError>
    ensures { IfOk result (λ next. MatchOption next (AreStillBetween shard.now 0 (length shard.now.followers)) (λ event. ActsThere shard.now event)) }
{
    let end = shard.followers();
    let first = first_of(hint, end);
    if let Some(event) = next_between(alloc, shard, first, end)? {
        return Ok(Some(event));
    }
    let rest = next_between(alloc, shard, 0, first)?;
    Ok(rest)
}

/// The follower at which a hint begins.
fn first_of(hint: u64, followers: u32) -> u32
    ensures { result ≤ followers }
{
    if followers == 0 {
        return 0;
    }
    (hint % u64::from(followers)) as u32
}
