// Workers, with what they were given and what they give back.
ghost use Rattle.std.specs.Prelude.{◌≡◌, ℕ, ◌+◌, ◌<◌, ◌≤◌, [], length, vec_len, vec_capacity, IfOk, OnErr};
ghost use Rattle.ccr_workers.specs.Lists.{Each};
ghost use Rattle.ccr_workers.specs.Settles.{IsChosen, IsHome};
ghost use Rattle.ccr_workers.specs.Lending.{IsReady, MayLend, Halved, Went};

use crate::gate::Gate;
use crate::room::put;
use crate::turns::settle_one;
use ccr_cell::{Cell, Machine, Pass, Ticket};
use std::alloc::{AllocError, Global};
use std::sync::Wait;
use std::sync::atomic::{AtomicU64, Ordering};

/// A worker: its number, counted from 0, and a pass of each cell.
#[derive(Drop)]
pub struct Hand<X, S, E> {
    pub(crate) number: u32,
    pub(crate) passes: Vec<Ticket<X, S, E>>,
}

/// A worker at cells that hold an `X`.
pub type Worker<X> = Hand<X, <X as Machine>::Start, <X as Machine>::Entry>;

/// A worker with a pass of each cell, each of which has one share of the cell's pass. At `Err` nothing was given.
pub(crate) fn hire<X: Machine>(
    alloc: Global,
    cells: &[Cell<X>],
    passes: &mut [Pass<X>],
    number: u32,
) -> Result<Worker<X>, AllocError>
    requires { Each (MayLend X.start) cells.now passes.old }
    ensures given { IfOk result (λ worker. Each (IsReady X.start (IsChosen X.entry_of X.may_reply X.may_choose X.is_idle)) cells.now worker.passes.items) }
    ensures kept { IfOk result (λ worker. Each Halved passes.old passes.new) }
    ensures err { OnErr result (passes.new ≡ passes.old) }
{
    let mut given = Vec::new(alloc);
    given.reserve(cells.len())?;
    lend_each(cells, passes, &mut given);
    Ok(Hand {
        number,
        passes: given,
    })
}

// Gives a share of each pass away, into an empty list that has room for them.
fn lend_each<X: Machine>(cells: &[Cell<X>], passes: &mut [Pass<X>], given: &mut Vec<Pass<X>>)
    requires lend { Each (MayLend X.start) cells.now passes.old }
    requires empty { given.old.items ≡ [] }
    requires room { length cells.now ≤ vec_capacity given.old }
    ensures given { Each (IsReady X.start (IsChosen X.entry_of X.may_reply X.may_choose X.is_idle)) cells.now given.new.items }
    ensures kept { Each Halved passes.old passes.new }
{
    for at in 0..cells.len() {
        put(given, cells[at].split(&mut passes[at]));
    }
}

/// Joins what the worker has into the passes of the cells.
pub(crate) fn release<X: Machine>(cells: &[Cell<X>], passes: &mut [Pass<X>], worker: Worker<X>)
    requires own { Each (IsHome X.start) cells.now passes.old }
    requires given { Each (IsReady X.start (IsChosen X.entry_of X.may_reply X.may_choose X.is_idle)) cells.now worker.passes.items }
    ensures { Each (Went (IsChosen X.entry_of X.may_reply X.may_choose X.is_idle) 0 1) passes.old passes.new }
{
    let mut at = 0;
    for pass in worker.passes {
        cells[at].join(&mut passes[at], pass);
        at += 1;
    }
}

/// Takes one cell after another that nobody has taken yet, and settles it, until a machine is refused memory or is broken. `next` counts
/// those that were taken.
pub fn work<X: Machine, R: Wait, G: Gate>(
    rt: &R,
    cells: &[Cell<X>],
    next: &AtomicU64,
    gate: &G,
    worker: &mut Worker<X>,
)
    requires { Each (IsReady X.start (IsChosen X.entry_of X.may_reply X.may_choose X.is_idle)) cells.now worker.old.passes.items }
    ensures { Each (IsReady X.start (IsChosen X.entry_of X.may_reply X.may_choose X.is_idle)) cells.now worker.new.passes.items }
{
    gate.pass(worker.number);
    for _ in 0..cells.len() {
        let at = next.fetch_add(1, Ordering::SeqCst) as usize;
        if at >= cells.len() {
            return;
        }
        if settle_at(rt, cells, at, &mut worker.passes).is_err() {
            return;
        }
    }
}

// Settles the cell at a place, through the pass there.
fn settle_at<X: Machine, R: Wait>(
    rt: &R,
    cells: &[Cell<X>],
    at: usize,
    passes: &mut Vec<Pass<X>>,
) -> Result<(), AllocError>
    requires within { at < length cells.now }
    requires ready { Each (IsReady X.start (IsChosen X.entry_of X.may_reply X.may_choose X.is_idle)) cells.now passes.old.items }
    ensures { Each (IsReady X.start (IsChosen X.entry_of X.may_reply X.may_choose X.is_idle)) cells.now passes.new.items }
{
    settle_one(rt, &cells[at], &mut passes[at])
}
