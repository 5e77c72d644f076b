// Worlds in cells are settled.
ghost use Rattle.std.specs.Prelude.{◌≡◌, OnOk, OnErr};
ghost use Rattle.std.specs.List.{AllByRecursion};
ghost use Rattle.ccr_cell.specs.Passes.{view_of};
ghost use Rattle.ccr_deeds.specs.Settles.{EachWorld, IsSettled, MayBeSettled};
ghost use Rattle.ccr_workers.specs.Lists.{Each};
ghost use Rattle.ccr_workers.specs.Settles.{IsOnlyPass, IsIdleAt};
ghost use Rattle.ccr_cells.specs.Opened.{opening_of, is_idle_in};
ghost use Rattle.ccr_cells.specs.Views.{AreNumbered, Entered, MayBeEntered, logs_in};

use crate::held::Held;
use crate::numbered::Numbered;
use crate::threads::settle_all;
use ccr_cell::{Cell, Pass};
use ccr_journal::Event;
use ccr_shard_world::Chooser;
use ccr_workers::Gate;
use ccr_worlds::Handed;
use std::alloc::{AllocError, Global};
use std::sync::Wait;
use std::thread::Threads;

/// Settles the world in each cell, and enters there that it is settled.
pub(crate) fn settle_each<
    P: Chooser + Send,
    K: Handed + Send + Sync,
    R: Threads + Wait + Sync,
    G: Gate + Sync,
>(
    rt: &R,
    alloc: Global,
    cells: &[Cell<Held<Numbered<P, K>>>],
    passes: &mut [Pass<Held<Numbered<P, K>>>],
    workers: u32,
    gate: &G,
) -> Result<(), AllocError>
    requires only { Each (IsOnlyPass opening_of) cells.now passes.old }
    requires numbered { AreNumbered 0 passes.old }
    ensures only { Each (IsOnlyPass opening_of) cells.now passes.new }
    ensures numbered { AreNumbered 0 passes.new }
    ensures ok { OnOk result (EachWorld IsSettled (logs_in passes.old) (logs_in passes.new)) }
    ensures err { OnErr result (EachWorld MayBeSettled (logs_in passes.old) (logs_in passes.new)) }
{
    settle_all(rt, alloc, cells, passes, workers, gate)?;
    enter_each(rt, cells, passes)
}

// Enters in each world that it is settled.
fn enter_each<P: Chooser, K: Handed, R: Wait>(
    rt: &R,
    cells: &[Cell<Held<Numbered<P, K>>>],
    passes: &mut [Pass<Held<Numbered<P, K>>>],
) -> Result<(), AllocError>
    requires only { Each (IsOnlyPass opening_of) cells.now passes.old }
    requires idle { AllByRecursion (λ p. IsIdleAt is_idle_in (view_of p)) passes.old }
    ensures ok { OnOk result (Each Entered passes.old passes.new) }
    ensures err { OnErr result (Each MayBeEntered passes.old passes.new) }
{
    for at in 0..cells.len() {
        enter(rt, &cells[at], &mut passes[at])?;
    }
    Ok(())
}

// Enters in a world that it is settled.
fn enter<P: Chooser, K: Handed, R: Wait>(
    rt: &R,
    cell: &Cell<Held<Numbered<P, K>>>,
    pass: &mut Pass<Held<Numbered<P, K>>>,
) -> Result<(), AllocError>
    requires only { IsOnlyPass opening_of cell.now pass.old }
    requires idle { IsIdleAt is_idle_in (view_of pass.old) }
    ensures ok { OnOk result (Entered pass.old pass.new) }
    ensures err { OnErr result (MayBeEntered pass.old pass.new) }
{
    let _entered = cell.act(rt, pass, &Event::Settle)?;
    Ok(())
}
