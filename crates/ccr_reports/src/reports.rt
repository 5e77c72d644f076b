// What a run leaves.

use ccr_journal::Journal;
use ccr_playing::Status;

/// What a run leaves: how it ended, and the journal of each leader shard in order of creation.
#[derive(Drop)]
pub struct Report {
    /// How it ended.
    pub status: Status,
    /// The journals of the shard worlds, also of those whose making a later want of memory cut short.
    pub journals: Vec<Journal>,
}
