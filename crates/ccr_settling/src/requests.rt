// What to do next with the requests of a follower.
ghost use Rattle.std.specs.Prelude.{◌≡◌, ℕ, false, IfOk, MatchOption};
ghost use Rattle.ccr_model.specs.Followers.{uuid_of};
ghost use Rattle.ccr_model.specs.Settling.{may_tick};
ghost use Rattle.ccr_settling.specs.Still.{Acts, is_unpolled};

use ccr_changes::Polls;
use ccr_following::FollowerSide;
use ccr_journal::Event;
use std::alloc::AllocError;
use uuid::Uuid;

/// The UUID of the follower of a number: that number in 128 bits.
pub fn uuid_of(f: u32) -> Uuid
    ensures { result ≡ uuid_of f }
{
    Uuid::from_u128(u128::from(f))
}

/// Whether something that a follower sends again has waited long enough.
pub fn is_due(own: &FollowerSide) -> bool
    ensures { result ≡ may_tick own.entry.now }
{
    match own.waits_until() {
        Some(until) => until <= own.now(),
        None => false,
    }
}

/// The first request that was sent and for whose answer no poll waits. Where nothing is in flight, and no request for a
/// lease waits at the leader, it is lost. The cost goes with the requests that were sent.
pub fn next_to_lose(f: u32, own: &FollowerSide, polls: &Polls) -> Result<Option<Event>, AllocError>
    ensures { IfOk result (λ next. MatchOption next ((at : ℕ) → is_unpolled polls.now f own.entry.now.work at ≡ false) (λ event. Acts f polls.now own.entry.now event)) }
{
    let uuid = uuid_of(f);
    for at in 0..u64::MAX {
        let Some(request) = own.sent_at(at) else {
            return Ok(None);
        };
        if !polls.has(&uuid, request) {
            return Ok(Some(Event::Lose { f, at }));
        }
    }
    Err(AllocError)
}
