// Workers settle the cells of a run, each in a thread of its own where one can be made.
ghost use Rattle.std.specs.Prelude.{◌≡◌, All, length, OnOk};
ghost use Rattle.ccr_workers.specs.Lists.{Each};
ghost use Rattle.ccr_workers.specs.Settles.{IsOnlyPass};
ghost use Rattle.ccr_workers.specs.Lending.{IsReady, Went, Finished};
ghost use Rattle.ccr_cells.specs.Opened.{opening_of, chosen_in, is_idle_in};

use crate::held::{Held, ShardWorld};
use ccr_cell::{Cell, Pass};
use ccr_workers::{Gate, Worker, hire_all, release_all, settle_rest, work};
use std::alloc::{AllocError, Global};
use std::sync::Wait;
use std::sync::atomic::AtomicU64;
use std::thread;
use std::thread::Threads;

/// Settles the world in each cell by so many workers, and what they leave in this thread. The passes are joined again, also
/// after want of memory, and each entry was chosen at its place.
pub(crate) fn settle_all<W: ShardWorld + Send, R: Threads + Wait + Sync, G: Gate + Sync>(
    rt: &R,
    alloc: Global,
    cells: &[Cell<Held<W>>],
    passes: &mut [Pass<Held<W>>],
    workers: u32,
    gate: &G,
) -> Result<(), AllocError>
    requires { Each (IsOnlyPass opening_of) cells.now passes.old }
    ensures went { Each (Went chosen_in 0 0) passes.old passes.new }
    ensures ok { OnOk result (Each (Finished chosen_in is_idle_in) passes.old passes.new) }
{
    settle_by_crew(rt, alloc, cells, passes, workers, gate);
    settle_rest(rt, cells, passes)
}

// What a crew does of it, whose passes are joined again. Where memory is short it is a smaller one.
fn settle_by_crew<W: ShardWorld + Send, R: Threads + Wait + Sync, G: Gate + Sync>(
    rt: &R,
    alloc: Global,
    cells: &[Cell<Held<W>>],
    passes: &mut [Pass<Held<W>>],
    workers: u32,
    gate: &G,
)
    requires { Each (IsOnlyPass opening_of) cells.now passes.old }
    ensures { Each (Went chosen_in 0 0) passes.old passes.new }
{
    let mut crew = Vec::new(alloc);
    let _hired = hire_all(alloc, cells, passes, workers, &mut crew);
    set_to_work(rt, cells, &mut crew, gate);
    release_all(cells, passes, crew);
}

// Each worker works.
fn set_to_work<W: ShardWorld + Send, R: Threads + Wait + Sync, G: Gate + Sync>(
    rt: &R,
    cells: &[Cell<Held<W>>],
    crew: &mut [Worker<Held<W>>],
    gate: &G,
)
    requires { All (λ worker. Each (IsReady opening_of chosen_in) cells.now worker.passes.items) crew.old }
    ensures ready { All (λ worker. Each (IsReady opening_of chosen_in) cells.now worker.passes.items) crew.new }
    ensures all { length crew.new ≡ length crew.old }
{
    let taken = AtomicU64::new(0);
    let next = &taken;
    let threads = crew.len().max(1);
    thread::for_each_mut(
        rt,
        crew,
        threads,
        &|_, worker: &mut Worker<Held<W>>|
            requires { Each (IsReady opening_of chosen_in) cells.now worker.now.passes.items }
            ensures { Each (IsReady opening_of chosen_in) cells.entry.now worker.exit.now.passes.items }
        { work(rt, cells, next, gate, worker) },
    );
}
