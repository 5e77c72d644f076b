// Events of copies and of followers, before it is known which side the index is.
ghost use Rattle.std.specs.Prelude.{◌≡◌};
ghost use Rattle.ccr_plans.specs.Grouped.{copy_event, follower_event};

use ccr_journal::{Event, Side};

/// What happens to a copy of a shard, or to the messages of its world.
#[derive(Clone, Copy, Debug, PartialEq, Eq)]
pub enum CopyEvent {
    Replicate { copy: u64, seq: u64 },
    Ack { copy: u64 },
    Sync { copy: u64 },
    Promote { copy: u64 },
    FailCopy { copy: u64 },
    Flush { copy: u64 },
    Merge { copy: u64 },
    AddCopy,
    Deliver { at: u64, copy: u64, keep: bool },
    Drop { at: u64 },
}

/// What happens to a follower shard.
#[derive(Clone, Copy, Debug, PartialEq, Eq)]
pub enum FollowerEvent {
    Wake { at: u64 },
    Lose { at: u64 },
    LoseWrite { write: u64 },
    Written { write: u64 },
    Renew,
    Restart,
}

/// The event on this side.
pub fn copy_event(side: Side, event: CopyEvent) -> Event
    ensures { result ≡ copy_event side event }
{
    match event {
        CopyEvent::Replicate { copy, seq } => Event::Replicate { side, copy, seq },
        CopyEvent::Ack { copy } => Event::Ack { side, copy },
        CopyEvent::Sync { copy } => Event::Sync { side, copy },
        CopyEvent::Promote { copy } => Event::Promote { side, copy },
        CopyEvent::FailCopy { copy } => Event::FailCopy { side, copy },
        CopyEvent::Flush { copy } => Event::Flush { side, copy },
        CopyEvent::Merge { copy } => Event::Merge { side, copy },
        CopyEvent::AddCopy => Event::AddCopy { side },
        CopyEvent::Deliver { at, copy, keep } => Event::Deliver { at, copy, keep },
        CopyEvent::Drop { at } => Event::Drop { at },
    }
}

/// The event of the follower of this number.
pub fn follower_event(f: u32, event: FollowerEvent) -> Event
    ensures { result ≡ follower_event f event }
{
    match event {
        FollowerEvent::Wake { at } => Event::Wake { f, at },
        FollowerEvent::Lose { at } => Event::Lose { f, at },
        FollowerEvent::LoseWrite { write } => Event::LoseWrite { f, write },
        FollowerEvent::Written { write } => Event::Written { f, write },
        FollowerEvent::Renew => Event::Renew { f },
        FollowerEvent::Restart => Event::Restart { f },
    }
}
