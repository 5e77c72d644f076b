ghost use Rattle.std.specs.Prelude.{◌≡◌, ◌+◌, ◌-◌, ◌^◌, ◌<◌, take, filter, length, IfOk};
ghost use Rattle.ccr_model.specs.Requests.{Sending, is_due};
ghost use Rattle.ccr_model.specs.Restores.{asks_chunks, asks_more, chunk_came, chunks_again, most_asks};
ghost use Rattle.ccr_restore.specs.Places.{places_left};
ghost use Rattle.ccr_restore.specs.Stages.{fetch_at, fetch_of};

use crate::asks::{ask_part, due_asks, remove_ask};
use crate::places::Places;
use crate::plan::{Counters, Plan};
use crate::requests::{ChunkAsked, Part};
use ccr_op::{Count, Millis};
use ccr_wire::{Chunk, Message};
use std::alloc::{AllocError, Global};
use uuid::Uuid;

/// How many parts are asked for at once.
const MOST_ASKS: usize = 5;

/// The session as it was opened, the requests that are outstanding in ascending number, and the parts in the order
/// in which they came.
#[derive(Drop)]
pub struct Fetch {
    pub session: u64,
    pub history: Uuid,
    pub count: Count,
    pub places: Places,
    pub asks: Vec<ChunkAsked>,
    pub parts: Vec<Part>,
}

/// So many of the next parts are asked for, one after the other.
fn ask_places(
    alloc: Global,
    plan: &Plan,
    counters: &mut Counters,
    fetch: &mut Fetch,
    room: usize,
) -> Result<Vec<Message>, AllocError>
    requires { fetch.old.places.chunk_size ≡ plan.now.chunk_size }
    ensures same { fetch.new.places.chunk_size ≡ plan.now.chunk_size }
    ensures asked { IfOk result (λ sent. asks_chunks (take room (places_left fetch.old.places)) (fetch_at plan.now counters.old fetch.old)
        ≡ record { next = fetch_at plan.now counters.new fetch.new; sent = sent.items }) }
{
    let mut sent = Vec::new(alloc);
    for turn in 0..room {
        if fetch.places.is_done() {
            break;
        }
        let place = fetch.places.next()?;
        let message = ask_part(plan, counters, &mut fetch.asks, fetch.session, place)?;
        sent.push(message)?;
    }
    Ok(sent)
}

/// The next parts are asked for, as many as may be outstanding.
pub fn ask_more(
    alloc: Global,
    plan: &Plan,
    counters: &mut Counters,
    fetch: &mut Fetch,
) -> Result<Vec<Message>, AllocError>
    requires { fetch.old.places.chunk_size ≡ plan.now.chunk_size }
    ensures same { fetch.new.places.chunk_size ≡ plan.now.chunk_size }
    ensures asked { IfOk result (λ sent. asks_more (fetch_at plan.now counters.old fetch.old) (fetch_of fetch.old)
        ≡ record { next = fetch_at plan.now counters.new fetch.new; sent = sent.items }) }
{
    let room = MOST_ASKS.saturating_sub(fetch.asks.len());
    let sent = ask_places(alloc, plan, counters, fetch, room)?;
    Ok(sent)
}

/// The part that a request asked for has come.
pub fn take_part(
    alloc: Global,
    plan: &Plan,
    counters: &mut Counters,
    fetch: &mut Fetch,
    asked: &ChunkAsked,
    bytes: Chunk,
) -> Result<Vec<Message>, AllocError>
    requires { fetch.old.places.chunk_size ≡ plan.now.chunk_size }
    ensures same { fetch.new.places.chunk_size ≡ plan.now.chunk_size }
    ensures taken { IfOk result (λ sent. chunk_came (fetch_at plan.now counters.old fetch.old) (fetch_of fetch.old) asked.now bytes
        ≡ record { next = fetch_at plan.now counters.new fetch.new; sent = sent.items }) }
{
    remove_ask(&mut fetch.asks, asked.request());
    fetch.parts.push(Part::new(asked.place(), bytes))?;
    counters.retry = 0;
    let sent = ask_more(alloc, plan, counters, fetch)?;
    Ok(sent)
}

/// These parts are asked for again, one after the other.
fn ask_all_again(
    alloc: Global,
    plan: &Plan,
    counters: &mut Counters,
    fetch: &mut Fetch,
    due: &[ChunkAsked],
) -> Result<Vec<Message>, AllocError>
    requires { fetch.old.places.chunk_size ≡ plan.now.chunk_size }
    ensures same { fetch.new.places.chunk_size ≡ plan.now.chunk_size }
    ensures asked { IfOk result (λ sent. chunks_again due.now (fetch_at plan.now counters.old fetch.old)
        ≡ record { next = fetch_at plan.now counters.new fetch.new; sent = sent.items }) }
{
    let mut sent = Vec::new(alloc);
    for asked in due {
        remove_ask(&mut fetch.asks, asked.request());
        let message = ask_part(
            plan,
            counters,
            &mut fetch.asks,
            fetch.session,
            asked.place(),
        )?;
        sent.push(message)?;
    }
    Ok(sent)
}

/// The parts are asked for again whose requests waited long enough.
pub fn ask_again(
    alloc: Global,
    plan: &Plan,
    counters: &mut Counters,
    fetch: &mut Fetch,
    now: Millis,
) -> Result<Vec<Message>, AllocError>
    requires { fetch.old.places.chunk_size ≡ plan.now.chunk_size }
    ensures same { fetch.new.places.chunk_size ≡ plan.now.chunk_size }
    ensures asked { IfOk result (λ sent. chunks_again (filter (λ a. is_due now a.progress) fetch.old.asks.items) (fetch_at plan.now counters.old fetch.old)
        ≡ record { next = fetch_at plan.now counters.new fetch.new; sent = sent.items }) }
{
    let due = due_asks(alloc, fetch.asks.as_slice(), now)?;
    let sent = ask_all_again(alloc, plan, counters, fetch, due.as_slice())?;
    Ok(sent)
}
