// The worlds of a run in cells.
ghost use Rattle.std.specs.Prelude.{◌≡◌, [], map, OnOk, OnErr};
ghost use Rattle.std.specs.List.{AllByRecursion};
ghost use Rattle.ccr_model.specs.Past.{start_past};
ghost use Rattle.ccr_model.specs.Headline.{Headline};
ghost use Rattle.ccr_law_reached.specs.Reached.{IsPossible};
ghost use Rattle.ccr_deeds.specs.Settles.{EachWorld, IsSettled, MayBeSettled};
ghost use Rattle.ccr_worlds.specs.Fated.{AreLeft, PicksAreHanded};
ghost use Rattle.ccr_worlds.specs.HandedOut.{KeepsPrefixes};

use crate::converted::{note_of, start_of};
use crate::handing_out::hand_out;
use crate::held::Held;
use crate::numbered::Numbered;
use crate::room::put;
use crate::settling::settle_each;
use ccr_cell::{Cell, Pass};
use ccr_deeds::{Note, WorldStart, Worlds};
use ccr_journal::{Event, Journal, Reply};
use ccr_shard_world::Chooser;
use ccr_workers::Gate;
use ccr_worlds::Handed;
use std::alloc::{AllocError, Global};
use std::marker::{Model, PhantomData};
use std::sync::Wait;
use std::thread::Threads;

/// The shard worlds of a run, in order of creation, each in a cell, and the policies that are left for further ones.
/// Contracts see the log of each world: what it began with, and its journal. Its picks are those of the policy that was
/// handed in for it.
///
/// What is done in a world may wait for its cell, and so needs a runtime that may wait.
#[derive(Drop)]
pub struct Cells<'a, P: Chooser, K: Handed, R: Wait> {
    rt: &'a R,
    alloc: Global,
    cells: Vec<Cell<Held<Numbered<P, K>>>>,
    // the pass of each of the cells
    passes: Vec<Pass<Held<Numbered<P, K>>>>,
    // the policies for further worlds, the next one last
    left: Vec<P>,
    // whether a policy was lost: no further world is made then
    broken: bool,
    // empty, with room for the journals of the worlds
    journals: Vec<Journal>,
    of: PhantomData<K>,
}

impl<'a, P: Chooser, K: Handed, R: Wait> Model for Cells<'a, P, K, R> {
    ghost use Rattle.std.specs.Prelude.{List, map};
    ghost use Rattle.std.specs.Coded.{codes};
    ghost use Rattle.ccr_query.specs.contracts.queries.Query as query;
    ghost use Rattle.ccr_deeds.specs.Logs.{Log};
    ghost use Rattle.std.specs.Prelude.{reverse, vec_capacity};
    ghost use Rattle.ccr_cells.specs.Views.{AreCells, logs_in};

    ghost Value = { List Log };

    ghost coded = { Prim.hlevel (codes, query.the_row.coded) };

    ghost view = { λ c. logs_in c.passes.items };

    ghost invariant = { λ c. AreCells K.fates c.cells.items c.passes.items c.broken (map P.fate (reverse c.left.items)) c.journals.items (vec_capacity c.journals) };
}

impl<'a, P: Chooser, K: Handed, R: Wait> Cells<'a, P, K, R> {
    /// No world yet, and these policies for the worlds to come: the first for the first one, and so on. Worlds behind
    /// the last policy get none, and their merges join nothing.
    pub fn new(rt: &'a R, alloc: Global, policies: Vec<P>) -> Self
        requires { AreLeft K.fates 0 (map P.fate policies.items) }
        ensures { result ≡ [] }
    {
        let mut left = policies;
        left.reverse();
        Cells {
            rt,
            alloc,
            cells: Vec::new(alloc),
            passes: Vec::new(alloc),
            left,
            broken: false,
            journals: Vec::new(alloc),
            of: PhantomData,
        }
    }

    /// The journals of the worlds, in order of creation, with what is known of each: it could have come about from its
    /// start, and so the theorem on journals holds of it; and its picks are those of the policy that was handed in for
    /// it. This takes no memory.
    pub fn into_journals(self) -> Vec<Journal>
        ensures value { result.items ≡ map (λ log. log.entries) self.entry }
        ensures possible { AllByRecursion (λ log. IsPossible log.start log.entries) self.entry }
        ensures headline { AllByRecursion (λ log. Headline (start_past log.start) log.entries) self.entry }
        ensures prefix { AllByRecursion KeepsPrefixes self.entry }
        ensures picks { PicksAreHanded K.fates 0 self.entry }
    {
        let Cells {
            cells,
            passes,
            journals,
            ..
        } = self;
        hand_out(cells, passes, journals)
    }
}

impl<'a, P: Chooser, K: Handed, R: Wait> Worlds for Cells<'a, P, K, R> {
    ghost logs = { λ cells. cells };

    fn make(&mut self, start: WorldStart) -> Result<(), AllocError> {
        if self.broken {
            return Err(AllocError);
        }
        let Some(count) = self.passes.len().checked_add(1) else {
            return Err(AllocError);
        };
        self.journals.reserve(count)?;
        self.cells.reserve(1)?;
        self.passes.reserve(1)?;
        let number = self.passes.len() as u64;
        self.broken = true;
        let policy = self.left.pop();
        let world = Numbered::new(self.alloc, number, start_of(start), policy)?;
        let Ok((cell, pass)) = Cell::new(self.alloc, Held::new(world)) else {
            return Err(AllocError);
        };
        put(&mut self.cells, cell);
        put(&mut self.passes, pass);
        self.broken = false;
        Ok(())
    }

    fn happens(&mut self, world: u32, event: &Event) -> Result<Reply, AllocError> {
        let at = world as usize;
        let (reply, _place) = self.cells[at].act(self.rt, &mut self.passes[at], event)?;
        Ok(reply)
    }

    fn note(&mut self, world: u32, of: u32) -> Result<Note, AllocError> {
        let at = world as usize;
        let note = self.cells[at].look(self.rt, &mut self.passes[at], u64::from(of))?;
        Ok(note_of(note))
    }
}

impl<'a, P: Chooser + Send, K: Handed + Send + Sync, R: Threads + Wait + Sync> Cells<'a, P, K, R> {
    /// Settles all worlds by so many workers, each in a thread of its own where one can be made. After want of memory
    /// each world has done a part of what settles it, or all. No policy is asked.
    pub fn settle<G: Gate + Sync>(&mut self, workers: u32, gate: &G) -> Result<(), AllocError>
        ensures ok { OnOk result (EachWorld IsSettled self.old self.new) }
        ensures err { OnErr result (EachWorld MayBeSettled self.old self.new) }
    {
        settle_each(
            self.rt,
            self.alloc,
            self.cells.as_slice(),
            self.passes.as_mut_slice(),
            workers,
            gate,
        )
    }
}
