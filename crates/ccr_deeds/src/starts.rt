// What a shard world begins with.

use ccr_journal::CopyCount;
use ccr_op::Millis;
use std::marker::Model;
use uuid::Uuid;

/// What a shard world is made with.
#[derive(Debug, Drop)]
pub struct WorldStart {
    /// How many copies its leader shard has.
    pub copies: CopyCount,
    /// The UUID of its first history.
    pub history: Uuid,
    /// How many milliseconds a lease lasts that is not renewed.
    pub period: Millis,
    /// How many operations are kept beyond the global count.
    pub retention: u64,
}

impl Model for WorldStart {
    ghost use Rattle.ccr_model.specs.Leaders.{Start};

    ghost Value = { Start };

    ghost view = { λ a. record { copies = a.copies; history = a.history; period = a.period; retention = a.retention } };
}
