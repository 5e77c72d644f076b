// What a command has to know of a shard world.

use ccr_journal::Phase;
use std::marker::Model;

/// Where a follower shard stands: its phase, the epoch that it keeps, and the number of its primary.
#[derive(Debug, Drop)]
pub struct FollowerNote {
    pub phase: Phase,
    pub epoch: u64,
    pub primary: u32,
}

impl Model for FollowerNote {
    ghost use Rattle.ccr_model.specs.Settling.{FollowerNote as Noted};

    ghost Value = { Noted };

    ghost view = { λ a. record { phase = a.phase; epoch = a.epoch; primary = a.primary } };
}

/// What is read of a shard world: the number of the leader's primary, and where one of its followers stands, if that
/// was made.
#[derive(Debug, Drop)]
pub struct Note {
    pub primary: u32,
    pub follower: Option<FollowerNote>,
}

impl Model for Note {
    ghost use Rattle.ccr_model.specs.Settling.{Note as Noted};

    ghost Value = { Noted };

    ghost view = { λ a. record { primary = a.primary; follower = a.follower } };
}
