use ccr_op::Millis;
use std::marker::Model;
use uuid::Uuid;

/// What a leader shard is made with.
#[derive(Debug, Drop)]
pub struct Start {
    /// How many copies it has.
    pub copies: u32,
    /// The UUID of its first history.
    pub history: Uuid,
    /// How long a lease lasts that is not renewed.
    pub period: Millis,
    /// How many operations are kept beyond the global count.
    pub retention: u64,
}

impl Model for Start {
    ghost use Rattle.ccr_model.specs.Leaders.{Start as Modelled};

    ghost Value = { Modelled };

    ghost view = { λ a. record { copies = a.copies; history = a.history; period = a.period; retention = a.retention } };
}
