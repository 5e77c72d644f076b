ghost use Rattle.std.specs.Prelude.{◌≡◌, ◌+◌, ◌^◌, ◌<◌, ◌∷◌, [], slice_get, length, IfOk, OnOk, OnErr, IsOk, ◌↔◌};
ghost use Rattle.ccr_wire.specs.Message.{ContentFits};
ghost use Rattle.ccr_model.specs.Requests.{Sending, waiting};
ghost use Rattle.ccr_model.specs.Followers.{restoring};
ghost use Rattle.ccr_model.specs.Restores.{asks_lease, asks_session, phase_of, restore_lost, restore_ticked, sent_requests, hear_leasing, if_sent, lost_in};
ghost use Rattle.ccr_model.specs.Settling.{least_of, waits_in_stage, time_of};
ghost use Rattle.std.specs.Prelude.{filter_map};
ghost use Rattle.ccr_restore.specs.Hearing.{fetching_hears, hears, opening_hears, taken};
ghost use Rattle.ccr_restore.specs.declared.plan.Plan.{Plan};
ghost use Rattle.ccr_restore.specs.Stages.{restore_of, stage_of, IsByPlan};

use crate::asks::{ask_sent, delay_ask, sent_at, waits_until};
use crate::fetch::{Fetch, ask_again, ask_more, take_part};
use crate::places::Places;
use crate::plan::{Counters, Plan, ask};
use crate::progress::retry_time;
use crate::requests::Asked;
use ccr_journal::{Heard, Phase};
use ccr_op::Millis;
use ccr_wire::{Content, LeaseResult, Message};
use std::alloc::{AllocError, Global};

/// How far a bootstrap is.
#[derive(Drop)]
pub enum Stage {
    /// It asks for its lease.
    Leasing(Asked),
    /// It asks for a session.
    Opening(Asked),
    /// It fetches the session's files.
    Fetching(Fetch),
}

impl Stage {
    /// The phase of the follower.
    pub fn phase(&self) -> Phase
        ensures { result ≡ phase_of (stage_of self.now) }
    {
        match self {
            Stage::Leasing(_) => Phase::Leasing,
            Stage::Opening(_) => Phase::Opening,
            Stage::Fetching(_) => Phase::Fetching,
        }
    }

    /// The number of the request at a place among those that were sent and not lost.
    pub fn sent_at(&self, at: u64) -> Option<u64>
        ensures { result ≡ slice_get (sent_requests (stage_of self.now)) at }
    {
        match self {
            Stage::Leasing(asked) | Stage::Opening(asked) => if_sent(asked, at),
            Stage::Fetching(fetch) => sent_at(fetch.asks.as_slice(), at),
        }
    }

    /// The least time until which a request waits.
    pub fn waits_until(&self) -> Option<Millis>
        ensures { result ≡ least_of (filter_map time_of (waits_in_stage (stage_of self.now))) }
    {
        match self {
            Stage::Leasing(asked) | Stage::Opening(asked) => asked.until(),
            Stage::Fetching(fetch) => waits_until(fetch.asks.as_slice()),
        }
    }
}

/// The number of the one request, at the place 0 where it was sent and not lost.
fn if_sent(asked: &Asked, at: u64) -> Option<u64>
    ensures { result ≡ slice_get (if_sent asked.now) at }
{
    if at == 0 && asked.is_sent() {
        return Some(asked.request());
    }
    None
}

/// The lease is asked for under the next request number.
pub fn ask_lease(
    plan: &Plan,
    counters: &mut Counters,
    stage: &mut Stage,
) -> Result<Message, AllocError>
    requires { IsByPlan plan.now stage.old }
    ensures by { IsByPlan plan.now stage.new }
    ensures asked { IfOk result (λ message. asks_lease (restore_of plan.now counters.old stage.old)
        ≡ record { next = restore_of plan.now counters.new stage.new; sent = message ∷ [] }) }
{
    let request = counters.next_request;
    let id = plan.lease.clone()?;
    let message = ask(plan, counters, Content::LeaseAdd { id })?;
    *stage = Stage::Leasing(Asked::sent(request));
    Ok(message)
}

/// A session is asked for under the next request number.
fn ask_session(
    plan: &Plan,
    counters: &mut Counters,
    stage: &mut Stage,
) -> Result<Message, AllocError>
    requires { IsByPlan plan.now stage.old }
    ensures by { IsByPlan plan.now stage.new }
    ensures asked { IfOk result (λ message. asks_session (restore_of plan.now counters.old stage.old)
        ≡ record { next = restore_of plan.now counters.new stage.new; sent = message ∷ [] }) }
{
    let request = counters.next_request;
    let message = ask(plan, counters, Content::SessionOpen)?;
    *stage = Stage::Opening(Asked::sent(request));
    Ok(message)
}

/// What is due is asked for again, in ascending number of the requests.
pub fn tick(
    alloc: Global,
    plan: &Plan,
    counters: &mut Counters,
    stage: &mut Stage,
    now: Millis,
) -> Result<Vec<Message>, AllocError>
    requires { IsByPlan plan.now stage.old }
    ensures by { IsByPlan plan.now stage.new }
    ensures ticked { IfOk result (λ sent. restore_ticked now (restore_of plan.now counters.old stage.old)
        ≡ record { next = restore_of plan.now counters.new stage.new; sent = sent.items }) }
{
    match stage {
        Stage::Leasing(asked) => {
            if !asked.is_due(now) {
                return Ok(Vec::new(alloc));
            }
            let message = ask_lease(plan, counters, stage)?;
            let sent = vec![in alloc; message]?;
            Ok(sent)
        }
        Stage::Opening(asked) => {
            if !asked.is_due(now) {
                return Ok(Vec::new(alloc));
            }
            let message = ask_session(plan, counters, stage)?;
            let sent = vec![in alloc; message]?;
            Ok(sent)
        }
        Stage::Fetching(fetch) => {
            let sent = ask_again(alloc, plan, counters, fetch, now)?;
            Ok(sent)
        }
    }
}

/// The request of a number waits until a time.
fn delay(stage: &mut Stage, request: u64, until: Millis)
    ensures stage { stage_of stage.new ≡ lost_in request (waiting until) (stage_of stage.old) }
    ensures by { (plan : Plan) → IsByPlan plan stage.old → IsByPlan plan stage.new }
{
    match stage {
        Stage::Leasing(asked) => asked.wait(until),
        Stage::Opening(asked) => asked.wait(until),
        Stage::Fetching(fetch) => delay_ask(&mut fetch.asks, request, until),
    }
}

/// The request of a number is lost. Want of memory is answered where there are 2^64 - 1 losses already since the
/// last answer; then nothing changes.
pub fn lose(
    plan: &Plan,
    counters: &mut Counters,
    stage: &mut Stage,
    now: Millis,
    request: u64,
) -> Result<(), AllocError>
    requires { IsByPlan plan.now stage.old }
    ensures by { IsByPlan plan.now stage.new }
    ensures counted { IsOk result ↔ (counters.old.retry + 1 < 2 ^ 64) }
    ensures lost { OnOk result (restore_of plan.now counters.new stage.new ≡ restore_lost (restore_of plan.now counters.old stage.old) now request) }
    ensures err { OnErr result (restore_of plan.now counters.new stage.new ≡ restore_of plan.now counters.old stage.old) }
{
    let Some(retry) = counters.retry.checked_add(1) else {
        return Err(AllocError);
    };
    counters.retry = retry;
    delay(stage, request, retry_time(plan.max_retry_delay, now, retry));
    Ok(())
}

/// An answer to the request for the lease.
fn hear_leasing(
    alloc: Global,
    plan: &Plan,
    counters: &mut Counters,
    stage: &mut Stage,
    now: Millis,
    request: u64,
    content: Content,
) -> Result<(Heard, Vec<Message>), AllocError>
    requires { IsByPlan plan.now stage.old }
    ensures by { IsByPlan plan.now stage.new }
    ensures heard { IfOk result (λ r. taken (restore_of plan.now counters.old stage.old) (hear_leasing (restore_of plan.now counters.old stage.old) now request content)
        ≡ record { heard = r.0; next = restore_of plan.now counters.new stage.new; sent = r.1.items }) }
{
    match content {
        Content::LeaseAdded { .. }
        | Content::LeaseAnswer {
            outcome: LeaseResult::Exists,
            ..
        } => {
            counters.retry = 0;
            let message = ask_session(plan, counters, stage)?;
            let sent = vec![in alloc; message]?;
            Ok((Heard::Done, sent))
        }
        Content::NotReady { .. } => {
            lose(plan, counters, stage, now, request)?;
            Ok((Heard::Done, Vec::new(alloc)))
        }
        _ => Ok((Heard::Ignored, Vec::new(alloc))),
    }
}

/// An answer to the request for a session.
fn hear_opening(
    alloc: Global,
    plan: &Plan,
    counters: &mut Counters,
    stage: &mut Stage,
    now: Millis,
    request: u64,
    content: Content,
) -> Result<(Heard, Vec<Message>), AllocError>
    requires fits { ContentFits content }
    requires by { IsByPlan plan.now stage.old }
    ensures by { IsByPlan plan.now stage.new }
    ensures heard { IfOk result (λ r. opening_hears (restore_of plan.now counters.old stage.old) now request content
        ≡ record { heard = r.0; next = restore_of plan.now counters.new stage.new; sent = r.1.items }) }
{
    match content {
        Content::SessionOpened {
            session,
            history,
            count,
            sizes,
        } => {
            if history != plan.history {
                return Ok((Heard::StoppedHistory, Vec::new(alloc)));
            }
            let mut fetch = Fetch {
                session,
                history,
                count,
                places: Places::new(plan.chunk_size, sizes.into_vec()),
                asks: Vec::new(alloc),
                parts: Vec::new(alloc),
            };
            counters.retry = 0;
            let sent = ask_more(alloc, plan, counters, &mut fetch)?;
            *stage = Stage::Fetching(fetch);
            Ok((Heard::Done, sent))
        }
        Content::NotReady { .. } => {
            lose(plan, counters, stage, now, request)?;
            Ok((Heard::Done, Vec::new(alloc)))
        }
        _ => Ok((Heard::Ignored, Vec::new(alloc))),
    }
}

/// An answer to the request for a part of a file.
fn hear_fetching(
    alloc: Global,
    plan: &Plan,
    counters: &mut Counters,
    stage: &mut Stage,
    request: u64,
    content: Content,
) -> Result<(Heard, Vec<Message>), AllocError>
    requires { IsByPlan plan.now stage.old }
    ensures by { IsByPlan plan.now stage.new }
    ensures heard { IfOk result (λ r. fetching_hears (restore_of plan.now counters.old stage.old) request content
        ≡ record { heard = r.0; next = restore_of plan.now counters.new stage.new; sent = r.1.items }) }
{
    let Stage::Fetching(fetch) = stage else {
        return Ok((Heard::Ignored, Vec::new(alloc)));
    };
    let Some(asked) = ask_sent(fetch.asks.as_slice(), request) else {
        return Ok((Heard::Ignored, Vec::new(alloc)));
    };
    match content {
        Content::ChunkReply { bytes, .. } => {
            let sent = take_part(alloc, plan, counters, fetch, &asked, bytes)?;
            Ok((Heard::Done, sent))
        }
        Content::SessionGone { .. } => {
            counters.retry = 0;
            let message = ask_session(plan, counters, stage)?;
            let sent = vec![in alloc; message]?;
            Ok((Heard::Done, sent))
        }
        _ => Ok((Heard::Ignored, Vec::new(alloc))),
    }
}

/// A message comes.
pub fn hear(
    alloc: Global,
    plan: &Plan,
    counters: &mut Counters,
    stage: &mut Stage,
    now: Millis,
    message: Message,
) -> Result<(Heard, Vec<Message>), AllocError>
    requires { IsByPlan plan.now stage.old }
    ensures by { IsByPlan plan.now stage.new }
    ensures heard { IfOk result (λ r. hears (restore_of plan.now counters.old stage.old) now message
        ≡ record { heard = r.0; next = restore_of plan.now counters.new stage.new; sent = r.1.items }) }
{
    let request = message.request();
    match stage {
        Stage::Leasing(asked) => {
            if !asked.is_answered_by(request) {
                return Ok((Heard::Ignored, Vec::new(alloc)));
            }
            let content = message.into_content();
            let answer = hear_leasing(alloc, plan, counters, stage, now, request, content)?;
            Ok(answer)
        }
        Stage::Opening(asked) => {
            if !asked.is_answered_by(request) {
                return Ok((Heard::Ignored, Vec::new(alloc)));
            }
            let content = message.into_content();
            let answer = hear_opening(alloc, plan, counters, stage, now, request, content)?;
            Ok(answer)
        }
        Stage::Fetching(_) => {
            let content = message.into_content();
            let answer = hear_fetching(alloc, plan, counters, stage, request, content)?;
            Ok(answer)
        }
    }
}
