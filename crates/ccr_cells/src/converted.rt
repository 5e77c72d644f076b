// What the deeds of a run know, as a shard world takes and tells it.
ghost use Rattle.std.specs.Prelude.{◌≡◌, ◌≤◌};

use ccr_deeds::{FollowerNote, Note, WorldStart};
use ccr_shard_world::{Note as ShardNote, Start};

/// What a world begins with. It has from 1 to 8 copies.
pub(crate) fn start_of(start: WorldStart) -> Start
    ensures value { result ≡ start }
    ensures some { 1 ≤ result.copies }
    ensures few { result.copies ≤ 8 }
{
    let copies = start.copies.get();
    Start {
        copies,
        history: start.history,
        period: start.period,
        retention: start.retention,
    }
}

/// What is read of a world.
pub(crate) fn note_of(note: ShardNote) -> Note
    ensures { result ≡ note }
{
    let primary = note.primary;
    let follower = note.follower;
    match follower {
        Some(own) => Note {
            primary,
            follower: Some(FollowerNote {
                phase: own.phase,
                epoch: own.epoch,
                primary: own.primary,
            }),
        },
        None => Note {
            primary,
            follower: None,
        },
    }
}
