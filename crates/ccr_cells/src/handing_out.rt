// Worlds in cells hand out their journals.
ghost use Rattle.std.specs.Prelude.{◌≡◌, ◌≤◌, ◌+◌, ℕ, Some, [], map, length, vec_capacity};
ghost use Rattle.std.specs.List.{AllByRecursion};
ghost use Rattle.ccr_cell.specs.Passes.{view_of};
ghost use Rattle.ccr_workers.specs.Lists.{Each};
ghost use Rattle.ccr_workers.specs.Settles.{IsOnlyPass};
ghost use Rattle.ccr_worlds.specs.Fated.{PicksAreHanded};
ghost use Rattle.ccr_worlds.specs.HandedOut.{IsHandedOut};
ghost use Rattle.ccr_cells.specs.Opened.{opening_of};
ghost use Rattle.ccr_model.specs.Leaders.{Start};
ghost use Rattle.ccr_model.specs.World.{start_state};
ghost use Rattle.ccr_model.specs.Policies.{ArePicked};
ghost use Rattle.ccr_cells.specs.Views.{AreNumbered, log_in, logs_in};

use crate::held::Held;
use crate::numbered::Numbered;
use crate::room::put;
use ccr_cell::{Cell, Pass};
use ccr_journal::Journal;
use ccr_shard_world::Chooser;
use ccr_worlds::Handed;

/// The journals of the worlds in the cells, in their order, put into an empty list that has room for them. It takes no
/// memory.
pub(crate) fn hand_out<P: Chooser, K: Handed>(
    cells: Vec<Cell<Held<Numbered<P, K>>>>,
    passes: Vec<Pass<Held<Numbered<P, K>>>>,
    mut journals: Vec<Journal>,
) -> Vec<Journal>
    requires only { Each (IsOnlyPass opening_of) cells.items passes.items }
    requires numbered { AreNumbered 0 passes.items }
    requires empty { journals.items ≡ [] }
    requires room { length passes.items ≤ vec_capacity journals }
    ensures value { result.items ≡ map (λ log. log.entries) (logs_in passes.items) }
    ensures handed { AllByRecursion IsHandedOut (logs_in passes.items) }
    ensures picks { PicksAreHanded K.fates 0 (logs_in passes.items) }
{
    let mut rest = passes.into_iter();
    for cell in cells {
        let Some(pass) = rest.next() else {
            unreachable!()
        };
        put(&mut journals, close(cell, pass));
    }
    journals
}

// The journal of the world in a cell.
fn close<P: Chooser, K: Handed>(
    cell: Cell<Held<Numbered<P, K>>>,
    pass: Pass<Held<Numbered<P, K>>>,
) -> Journal
    requires { IsOnlyPass opening_of cell pass }
    ensures value { result ≡ (view_of pass).seen }
    ensures handed { IsHandedOut (log_in (view_of pass)) }
    ensures picks { (number : ℕ) (start : Start) → (view_of pass).start ≡ Some (record { number = number; start = start })
        → ArePicked (K.fates number) (start_state start) (view_of pass).seen }
{
    match cell.close(pass) {
        Ok(held) => held.into_world().into_journal(),
        Err(_) => unreachable!(),
    }
}
