use ccr_op::{Count, Millis};
use std::marker::Model;
use uuid::Uuid;

/// A read that waits at a copy for an operation of its number: a long poll. It waits until the copy's global
/// count passes `from`, or until `timeout` is over.
#[derive(Debug, Drop)]
pub struct Poll {
    /// The follower that asks.
    pub follower: Uuid,
    /// The number of its request.
    pub request: u64,
    /// The copy at which it waits.
    pub copy: u32,
    /// The history of which it asks.
    pub history: Uuid,
    /// The number of the first operation that it asks for.
    pub from: Count,
    /// The most operations that it takes.
    pub max_ops: u64,
    /// The most bytes of operations that it takes.
    pub max_bytes: u64,
    /// How long it waits at most.
    pub timeout: Millis,
    /// When it was parked.
    pub parked: Millis,
}

impl Model for Poll {
    ghost use Rattle.ccr_model.specs.Leaders.{Poll as Waiting};

    ghost Value = { Waiting };

    ghost view = { λ p. record {
      follower = p.follower;
      request = p.request;
      copy = p.copy;
      history = p.history;
      from = p.from;
      max_ops = p.max_ops;
      max_bytes = p.max_bytes;
      timeout = p.timeout;
      parked = p.parked;
    } };

    ghost inverse = { λ p. record {
      follower = p.follower;
      request = p.request;
      copy = p.copy;
      history = p.history;
      from = p.from;
      max_ops = p.max_ops;
      max_bytes = p.max_bytes;
      timeout = p.timeout;
      parked = p.parked;
    } };
}
