// What is done in the shard worlds.

use ccr_journal::Event;

/// What is done in the shard worlds. A world is named by its number in order of creation.
#[derive(Debug, Drop)]
pub enum Deed {
    /// An event happens in a world.
    Happens {
        world: u32,
        event: Event,
    },
    /// The batch of a follower's write is taken, and what was taken is applied: nothing where it was refused.
    TakeAndApply {
        world: u32,
        f: u32,
        epoch: u64,
        write: u64,
    },
    /// All worlds are settled.
    Settle,
}
