// Workers are hired and give back what they have.
ghost use Rattle.std.specs.Prelude.{◌≡◌, ◌<◌, ◌≤◌, ◌+◌, [], All, length, vec_len, OnOk};
ghost use Rattle.ccr_workers.specs.Lists.{Each};
ghost use Rattle.ccr_workers.specs.Settles.{IsChosen, IsHome, IsOnlyPass};
ghost use Rattle.ccr_workers.specs.Lending.{IsReady, Went, Finished};

use crate::crew::{Worker, hire, release};
use crate::room::put;
use crate::turns::settle_one;
use ccr_cell::{Cell, Machine, Pass};
use std::alloc::{AllocError, Global};
use std::sync::Wait;

/// Hires so many workers, into an empty list. At `Err`, for want of memory, it hired some.
pub fn hire_all<X: Machine>(
    alloc: Global,
    cells: &[Cell<X>],
    passes: &mut [Pass<X>],
    workers: u32,
    crew: &mut Vec<Worker<X>>,
) -> Result<(), AllocError>
    requires own { Each (IsOnlyPass X.start) cells.now passes.old }
    requires none { crew.old.items ≡ [] }
    ensures ready { All (λ worker. Each (IsReady X.start (IsChosen X.entry_of X.may_reply X.may_choose X.is_idle)) cells.now worker.passes.items) crew.new.items }
    ensures lent { Each (Went (IsChosen X.entry_of X.may_reply X.may_choose X.is_idle) (length crew.new.items) 0) passes.old passes.new }
{
    for number in 0..workers {
        crew.reserve(1)?;
        let worker = hire(alloc, cells, passes, number)?;
        put(crew, worker);
    }
    Ok(())
}

/// All workers give back what they have. It takes no memory.
pub fn release_all<X: Machine>(cells: &[Cell<X>], passes: &mut [Pass<X>], crew: Vec<Worker<X>>)
    requires own { Each (IsHome X.start) cells.now passes.old }
    requires ready { All (λ worker. Each (IsReady X.start (IsChosen X.entry_of X.may_reply X.may_choose X.is_idle)) cells.now worker.passes.items) crew.items }
    ensures { Each (Went (IsChosen X.entry_of X.may_reply X.may_choose X.is_idle) 0 (length crew.items)) passes.old passes.new }
{
    let mut left = crew;
    while let Some(worker) = left.pop() {
        release(cells, passes, worker);
    }
}

/// Settles each cell in this thread: what is left of it after a crew. At `Err` a machine was refused memory, or is broken.
pub fn settle_rest<X: Machine, R: Wait>(
    rt: &R,
    cells: &[Cell<X>],
    passes: &mut [Pass<X>],
) -> Result<(), AllocError>
    requires { Each (IsOnlyPass X.start) cells.now passes.old }
    ensures went { Each (Went (IsChosen X.entry_of X.may_reply X.may_choose X.is_idle) 0 0) passes.old passes.new }
    ensures ok { OnOk result (Each (Finished (IsChosen X.entry_of X.may_reply X.may_choose X.is_idle) X.is_idle) passes.old passes.new) }
{
    for at in 0..cells.len() {
        settle_one(rt, &cells[at], &mut passes[at])?;
    }
    Ok(())
}
