//! The right to act on a cell.
ghost use Rattle.std.specs.Prelude.{◌≡◌, ◌<◌, ◌≤◌, false, length};

use crate::machine::Machine;
use crate::view::View;
use atomic_table::Seat;

/// A pass to a cell that holds an `X`.
pub type Pass<X> = Ticket<X, <X as Machine>::Start, <X as Machine>::Entry>;

/// A pass to a cell that holds an `X` with the start `S` and entries `E`. A thread acts on the cell through it, and contracts see what
/// it knows as its view. One that is dropped keeps its share, so its cell can't be closed any more.
pub struct Ticket<X, S, E> {
    pub(crate) seat: Seat<X, View<S, E>>,
    pub(crate) share: u64,
    ghost share_is: { share ≡ seat.me.0.share },
    ghost some_share: { 0 < share },
    ghost at_most_whole: { share ≤ 4294967296 },
    ghost no_slot: { length seat.me.1 ≡ 0 },
    ghost no_turn: { seat.me.0.turn ≡ false },
    ghost one_word: { seat.table_id.words ≡ 1 },
    ghost one_slot: { seat.table_id.slots ≡ 1 },
}

impl<X, S, E> Ticket<X, S, E> {
    ghost use Rattle.ccr_cell.specs.Passes.{view_of};

    /// How much of the right to close the cell the pass has: 2^32 is all of it.
    pub fn share(&self) -> u64
        ensures { result ≡ (view_of self.now).share }
    {
        self.share
    }

    pub(crate) fn into_seat(self) -> Seat<X, View<S, E>>
        ensures { result ≡ self.seat }
    {
        let Ticket { seat, share: _ } = self;
        seat
    }
}

impl<X, S, E> Drop for Ticket<X, S, E> {
    fn drop(self) {
        let Self { seat: _, share: _ } = self;
    }
}
