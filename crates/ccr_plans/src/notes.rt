// What a command has to know of a shard world.
ghost use Rattle.std.specs.Prelude.{◌≡◌};
ghost use Rattle.std.specs.List.{list_any};
ghost use Rattle.ccr_plans.specs.Forms.{epoch_in, epoch_of, has_phase, is_active, is_bootstrap, is_paused, phases_in, primary_in, primary_of};

use ccr_deeds::Note;
use ccr_journal::{Phase, Side};
use ccr_meta::Phases;

// Whether the follower is in its bootstrap.
fn is_bootstrapping(note: &Note) -> bool
    ensures { result ≡ has_phase is_bootstrap note.now }
{
    match &note.follower {
        None => false,
        Some(f) => matches!(f.phase, Phase::Leasing | Phase::Opening | Phase::Fetching),
    }
}

fn is_active(note: &Note) -> bool
    ensures { result ≡ has_phase is_active note.now }
{
    match &note.follower {
        None => false,
        Some(f) => matches!(f.phase, Phase::Active),
    }
}

fn is_paused(note: &Note) -> bool
    ensures { result ≡ has_phase is_paused note.now }
{
    match &note.follower {
        None => false,
        Some(f) => matches!(f.phase, Phase::Paused),
    }
}

fn has_bootstrapping(notes: &[Note]) -> bool
    ensures { result ≡ list_any (has_phase is_bootstrap) notes.now }
{
    notes.iter().any(|note| is_bootstrapping(note))
}

fn has_active(notes: &[Note]) -> bool
    ensures { result ≡ list_any (has_phase is_active) notes.now }
{
    notes.iter().any(|note| is_active(note))
}

fn has_paused(notes: &[Note]) -> bool
    ensures { result ≡ list_any (has_phase is_paused) notes.now }
{
    notes.iter().any(|note| is_paused(note))
}

// What is told of all shards of a follower.
pub(crate) fn phases_in(notes: &[Note]) -> Phases
    ensures { result ≡ phases_in notes.now }
{
    Phases {
        bootstrapping: has_bootstrapping(notes),
        active: has_active(notes),
        paused: has_paused(notes),
    }
}

fn epoch_of(note: &Note) -> u64
    ensures { result ≡ epoch_of note.now }
{
    match &note.follower {
        None => 0,
        Some(f) => f.epoch,
    }
}

// The epoch that a follower keeps in a shard.
pub(crate) fn epoch_in(notes: &[Note], shard: u64) -> u64
    ensures { result ≡ epoch_in notes.now shard }
{
    match notes.get(shard as usize) {
        None => 0,
        Some(note) => epoch_of(note),
    }
}

// The leader's primary in a shard.
pub(crate) fn primary_in(notes: &[Note], shard: u64) -> u64
    ensures { result ≡ primary_in notes.now shard }
{
    match notes.get(shard as usize) {
        None => 0,
        Some(note) => u64::from(note.primary),
    }
}

// The primary of a side.
pub(crate) fn primary_of(side: Side, note: &Note) -> u64
    ensures { result ≡ primary_of side note.now }
{
    match side {
        Side::Leader => u64::from(note.primary),
        Side::Follower(_) => match &note.follower {
            None => 0,
            Some(f) => u64::from(f.primary),
        },
    }
}
