ghost use Rattle.std.specs.Prelude.{◌≡◌, ◌+◌, ◌^◌, IfOk, OnOk};
ghost use Rattle.ccr_journal.specs.Params.{IsFrom1Below};
ghost use Rattle.ccr_wire.specs.Message.{ContentFits};

use ccr_op::{LeaseId, Millis};
use ccr_wire::{Content, Message};
use std::alloc::AllocError;
use uuid::Uuid;

/// What a bootstrap is for, and how it asks.
#[derive(Drop)]
pub struct Plan {
    pub lease: LeaseId,
    pub follower: Uuid,
    pub history: Uuid,
    pub chunk_size: u32,
    pub max_retry_delay: Millis,
    ghost chunk: { IsFrom1Below (2 ^ 24 + 1) chunk_size },
}

/// What it counts: the requests so far, and the losses since the last answer.
#[derive(Drop)]
pub struct Counters {
    pub next_request: u64,
    pub retry: u64,
}

/// A message of this content under the next request number.
pub fn ask(plan: &Plan, counters: &mut Counters, content: Content) -> Result<Message, AllocError>
    requires { ContentFits content }
    ensures message { IfOk result (λ message. message ≡ record { follower = plan.now.follower; request = counters.old.next_request; content = content }) }
    ensures counted { OnOk result (counters.new ≡ record counters.old { next_request = counters.old.next_request + 1 }) }
{
    let request = counters.next_request;
    let Some(next) = request.checked_add(1) else {
        return Err(AllocError);
    };
    counters.next_request = next;
    Ok(Message::new(plan.follower, request, content))
}
