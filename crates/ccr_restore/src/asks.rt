ghost use Rattle.std.specs.Prelude.{◌≡◌, ◌+◌, ◌++◌, ◌∷◌, ◌&&◌, ◌==◌, [], map, filter, find, filter_map, slice_get, IfOk, OnOk};
ghost use Rattle.ccr_wire.specs.declared.content.Content.TheVariants.{ChunkRequest};
ghost use Rattle.ccr_model.specs.Requests.{on_its_way, waiting, is_sent, is_due};
ghost use Rattle.ccr_model.specs.Restores.{changed_ask, without_ask};
ghost use Rattle.ccr_model.specs.Settling.{least_of, time_of};
ghost use Rattle.ccr_restore.specs.Asks.{earlier, first_of};

use crate::places::Place;
use crate::plan::{Counters, Plan, ask};
use crate::requests::ChunkAsked;
use ccr_op::Millis;
use ccr_wire::{Content, Message};
use std::alloc::{AllocError, Global};

/// The request of this number, where it was sent and not lost.
pub fn ask_sent(asks: &[ChunkAsked], request: u64) -> Option<ChunkAsked>
    ensures { result ≡ find (λ a. (a.request == request) && is_sent a.progress) asks.now }
{
    for asked in asks {
        if asked.is_answered_by(request) {
            return Some(asked.copy());
        }
    }
    None
}

/// The number of the request at a place among those that were sent and not lost.
pub fn sent_at(asks: &[ChunkAsked], at: u64) -> Option<u64>
    ensures { result ≡ slice_get (map (λ a. a.request) (filter (λ a. is_sent a.progress) asks.now)) at }
{
    let mut before = at;
    for asked in asks {
        if !asked.is_sent() {
            continue;
        }
        if before == 0 {
            return Some(asked.request());
        }
        before -= 1;
    }
    None
}

/// The lesser of two times, of which either may be missing.
fn earlier(first: Option<Millis>, second: Option<Millis>) -> Option<Millis>
    ensures { result ≡ earlier first second }
{
    match (first, second) {
        (Some(first), Some(second)) => Some(first.min(second)),
        (Some(first), None) => Some(first),
        (None, second) => second,
    }
}

/// The least time until which one of the requests waits.
pub fn waits_until(asks: &[ChunkAsked]) -> Option<Millis>
    ensures { result ≡ least_of (filter_map time_of (map (λ a. a.progress) asks.now)) }
{
    let mut least = None;
    for asked in asks {
        least = earlier(least, asked.until());
    }
    least
}

/// The requests that waited long enough.
pub fn due_asks(
    alloc: Global,
    asks: &[ChunkAsked],
    now: Millis,
) -> Result<Vec<ChunkAsked>, AllocError>
    ensures { IfOk result (λ due. due.items ≡ filter (λ a. is_due now a.progress) asks.now) }
{
    let mut due = Vec::new(alloc);
    for asked in asks {
        if !asked.is_due(now) {
            continue;
        }
        due.push(asked.copy())?;
    }
    Ok(due)
}

/// The first place of a request of this number, or how many there are.
fn place_of(asks: &[ChunkAsked], request: u64) -> usize
    ensures { result ≡ first_of request asks.now }
{
    for (at, asked) in asks.iter().enumerate() {
        if asked.request() == request {
            return at;
        }
    }
    asks.len()
}

/// The request of this number is over.
pub fn remove_ask(asks: &mut Vec<ChunkAsked>, request: u64)
    ensures { asks.new.items ≡ without_ask request asks.old.items }
{
    let at = place_of(asks.as_slice(), request);
    if at < asks.len() {
        asks.remove(at);
    }
}

/// The request of this number waits until this time.
pub fn delay_ask(asks: &mut Vec<ChunkAsked>, request: u64, until: Millis)
    ensures { asks.new.items ≡ changed_ask request (λ a. record a { progress = waiting until }) asks.old.items }
{
    let at = place_of(asks.as_slice(), request);
    if at < asks.len() {
        asks[at].wait(until);
    }
}

/// The part at a place is asked for under the next request number.
pub fn ask_part(
    plan: &Plan,
    counters: &mut Counters,
    asks: &mut Vec<ChunkAsked>,
    session: u64,
    place: Place,
) -> Result<Message, AllocError>
    ensures message { IfOk result (λ message. message ≡ record { follower = plan.now.follower; request = counters.old.next_request; content = ChunkRequest session place.0 place.1 plan.now.chunk_size }) }
    ensures counted { OnOk result (counters.new ≡ record counters.old { next_request = counters.old.next_request + 1 }) }
    ensures asked { OnOk result (asks.new.items ≡ asks.old.items ++ record { request = counters.old.next_request; file = place.0; offset = place.1; progress = on_its_way } ∷ []) }
{
    let request = counters.next_request;
    let (file, offset) = place;
    let content = Content::ChunkRequest {
        session,
        file,
        offset,
        size: plan.chunk_size,
    };
    let message = ask(plan, counters, content)?;
    asks.push(ChunkAsked::sent(request, place))?;
    Ok(message)
}
