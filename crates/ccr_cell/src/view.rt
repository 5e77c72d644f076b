//! What a pass knows.
use std::collections::LinkedList;

/// What a pass knows of its cell. Contracts read it, and no value of it is made.
pub struct View<S, E> {
    /// The entries that the pass has seen: a beginning of the journal.
    pub seen: LinkedList<E>,
    /// A beginning of `seen` that a pass joined into this one had seen.
    pub heard: LinkedList<E>,
    /// The places of the pass's own calls in the journal, and of the calls of passes joined into it.
    pub mine: LinkedList<u64>,
    /// How much of the right to close the cell the pass has: 4294967296 is all of it.
    pub share: u64,
    /// Whether the pass has the machine in hand.
    pub turn: bool,
    /// The machine's start.
    pub start: Option<S>,
    /// The length of the journal when the cell was made.
    pub opened: u64,
}
