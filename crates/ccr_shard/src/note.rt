use ccr_following::FollowerNote;
use std::marker::Model;

/// What a worker that settles a world reads of it.
#[derive(Debug, Drop)]
pub struct Note {
    /// The number of the leader's primary.
    pub primary: u32,
    /// Of the follower that is asked for, where there is one.
    pub follower: Option<FollowerNote>,
}

impl Model for Note {
    ghost use Rattle.ccr_model.specs.Settling.{Note as Noted};

    ghost Value = { Noted };

    ghost view = { λ a. record { primary = a.primary; follower = a.follower } };
}
