//! The rule that a cell keeps, and what its steps tell.
ghost use Rattle.std.specs.Prelude.{length};

use crate::machine::Machine;
use crate::view::View;
use atomic_table::{Join, Play, Seat, Split, Table, TableRule};
use std::alloc::Global;
use std::snapshot::Snapshot;

/// A cell's table: one word, which is twice the length of the journal, and one more while a pass has the machine in hand; and one slot,
/// in which the machine lies. Its key shows the machine that the cell was made with.
pub(crate) type Board<X> = Table<
    X,
    View<<X as Machine>::Start, <X as Machine>::Entry>,
    Snapshot<X>,
    Law,
    Global,
>;

/// What a thread steps with on that table.
pub(crate) type Place<X> = Seat<X, View<<X as Machine>::Start, <X as Machine>::Entry>>;

/// The rule of a cell.
pub struct Law;

impl<X: Machine> TableRule<X, View<X::Start, X::Entry>, Snapshot<X>> for Law {
    ghost use Rattle.ccr_cell.specs.Law.{Kept, first_view};

    ghost holds = { λ key. Kept X.start X.journal (X.start key.value) (X.journal key.value) };

    ghost first = { λ key. first_view (X.start key.value) (X.journal key.value) };
}

/// A step that takes the machine in hand.
pub(crate) struct Take;

impl<X: Machine> Play<X, View<X::Start, X::Entry>> for Take {
    ghost use Rattle.ccr_cell.specs.Law.{Takes};

    ghost then = { Takes X.start X.journal };
}

/// A step that gives the machine back with an entry more.
pub(crate) struct Add;

impl<X: Machine> Play<X, View<X::Start, X::Entry>> for Add {
    ghost use Rattle.ccr_cell.specs.Law.{Adds};

    ghost then = { Adds X.start X.journal };
}

/// A step that gives the machine back as it was.
pub(crate) struct Leave;

impl<X: Machine> Play<X, View<X::Start, X::Entry>> for Leave {
    ghost use Rattle.ccr_cell.specs.Law.{Leaves};

    ghost then = { Leaves };
}

/// A step that changes nothing, and tells what always holds of a view.
pub(crate) struct Bound;

impl<X: Machine> Play<X, View<X::Start, X::Entry>> for Bound {
    ghost use Rattle.ccr_cell.specs.Law.{Bounds};

    ghost then = { Bounds };
}

/// How a pass is split off another.
pub(crate) struct Cut;

impl<S, E> Split<View<S, E>> for Cut {
    ghost use Rattle.ccr_cell.specs.Law.{kept_half, given_half};

    ghost left = { kept_half };

    ghost right = { given_half };
}

/// How a pass is joined into another.
pub(crate) struct Glue;

impl<S, E> Join<View<S, E>> for Glue {
    ghost use Rattle.ccr_cell.specs.Law.{both_views, spent_view};

    ghost both = { both_views };

    ghost spent = { spent_view };
}
