// Which poll to wake next.
ghost use Rattle.std.specs.Prelude.{◌≡◌, ◌<◌, ◌≢◌, ◌↔◌, ℕ, true, false, IfSome, IsTrue, MatchOption, option_copied, slice_get};
ghost use Rattle.std.specs.List.{list_any};
ghost use Rattle.ccr_journal.specs.declared.events.Event.TheVariants as events;
ghost use Rattle.ccr_changes.specs.Waits.{IsLeastAt, waits_at};
ghost use Rattle.ccr_model.specs.Copies.{copy_of};
ghost use Rattle.ccr_model.specs.Followers.{uuid_of};
ghost use Rattle.ccr_model.specs.Settling.{may_act};
ghost use Rattle.ccr_law_reached.specs.Reached.{ArePollsOfFollowers};
ghost use Rattle.ccr_settling.specs.Idle.{NoneWakes, NoneWakesAt, NoneWakesAtReplica};
ghost use Rattle.ccr_settling.specs.Served.{Each};

use crate::copies::count_replicas;
use crate::requests::uuid_of;
use ccr_changes::Least;
use ccr_copies::CopySide;
use ccr_journal::Event;
use ccr_shard::Shard;
use uuid::Uuid;

/// A poll that has something to bring: at the first copy, the primary first, whose global count is above the least
/// number that a poll there asks for. The cost goes with the copies, and with the logarithm of the polls at each.
pub fn next_to_wake(shard: &Shard) -> Option<Event>
    requires { ArePollsOfFollowers shard.now }
    ensures { MatchOption result (NoneWakes shard.now) (λ event. may_act shard.now event ≡ true) }
{
    if let Some(event) = wake_at(shard, shard.leader().primary()) {
        return Some(event);
    }
    if let Some(event) = next_to_wake_at_replicas(shard) {
        return Some(event);
    }
    None
}

/// A poll that has something to bring at a replica.
fn next_to_wake_at_replicas(shard: &Shard) -> Option<Event>
    requires { ArePollsOfFollowers shard.now }
    ensures { MatchOption result (Each (NoneWakesAtReplica shard.now) shard.now.leader.copies) (λ event. may_act shard.now event ≡ true) }
{
    for place in 0..count_replicas(shard.leader().copies()) {
        if let Some(event) = wake_at_place(shard, place) {
            return Some(event);
        }
    }
    None
}

/// A poll that has something to bring at the replica at a place.
fn wake_at_place(shard: &Shard, place: usize) -> Option<Event>
    requires { ArePollsOfFollowers shard.now }
    ensures { MatchOption result (IfSome (slice_get shard.now.leader.copies.replicas place) (NoneWakesAtReplica shard.now shard.now.leader.copies)) (λ event. may_act shard.now event ≡ true) }
{
    let replica = shard.leader().copies().replica_at(place)?;
    wake_at(shard, replica.number())
}

/// A poll that has something to bring at the copy of a number.
fn wake_at(shard: &Shard, copy: u32) -> Option<Event>
    requires { ArePollsOfFollowers shard.now }
    ensures { MatchOption result (NoneWakesAt shard.now copy) (λ event. may_act shard.now event ≡ true) }
{
    let side = copy_of(shard, copy)?;
    let least = least_at(shard, copy)?;
    if least.from >= side.known_global() {
        return None;
    }
    match follower_of(shard.followers(), &least.follower) {
        Some(f) => Some(wake(f, &least)),
        None => unreachable!(),
    }
}

/// The leader's copy of a number.
fn copy_of(shard: &Shard, copy: u32) -> Option<&CopySide>
    ensures { option_copied result ≡ copy_of shard.now.leader.copies copy }
{
    shard.leader().copy_of(u64::from(copy))
}

/// The poll at a copy that asks for the least number.
fn least_at(shard: &Shard, copy: u32) -> Option<Least>
    ensures { MatchOption result (list_any (waits_at copy) shard.now.leader.polls ≡ false) (IsLeastAt copy shard.now.leader.polls) }
{
    shard.leader().polls().least_from(copy)
}

/// The event that wakes a follower's poll.
fn wake(f: u32, least: &Least) -> Event
    ensures { result ≡ events.Wake f least.now.at }
{
    Event::Wake {
        f,
        at: least.at as u64,
    }
}

/// The number of the follower whose UUID this is.
fn follower_of(followers: u32, uuid: &Uuid) -> Option<u32>
    ensures { MatchOption result ((f : ℕ) → f < followers → uuid_of f ≢ uuid.now) (λ f. (f < followers) × (uuid_of f ≡ uuid.now)) }
{
    for f in 0..followers {
        if is_same(&uuid_of(f), uuid) {
            return Some(f);
        }
    }
    None
}

/// Whether two UUIDs are the same.
fn is_same(a: &Uuid, b: &Uuid) -> bool
    ensures { IsTrue result ↔ (a.now ≡ b.now) }
{
    a == b
}
