use ccr_journal::Phase;
use std::marker::Model;

/// What a command has to know of a follower.
#[derive(Debug, Drop)]
pub struct FollowerNote {
    /// Where it stands.
    pub phase: Phase,
    /// The epoch that it keeps: 0 during the bootstrap.
    pub epoch: u64,
    /// The number of its primary.
    pub primary: u32,
}

impl Model for FollowerNote {
    ghost use Rattle.ccr_model.specs.Settling.{FollowerNote as Noted};

    ghost Value = { Noted };

    ghost view = { λ a. record { phase = a.phase; epoch = a.epoch; primary = a.primary } };
}
