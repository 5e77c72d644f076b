// A shard world of a run.
ghost use Rattle.std.specs.Prelude.{◌≡◌, ◌≤◌, [], false, List, IfOk};
ghost use Rattle.ccr_policy.specs.declared.PartSize.{PartSize};
ghost use Rattle.ccr_model.specs.World.{start_state};
ghost use Rattle.ccr_model.specs.Policies.{ArePicked, picks_of};
ghost use Rattle.ccr_worlds.specs.Fated.{log_of};
ghost use Rattle.ccr_worlds.specs.HandedOut.{IsHandedOut};

use crate::held::ShardWorld;
use ccr_journal::{Event, Journal, Reply};
use ccr_shard_world::{Chooser, Note, Start, World};
use ccr_worlds::Handed;
use std::alloc::{AllocError, Global};
use std::marker::{Model, PhantomData};

/// What a shard world of a run began with: its number, counted from 0 in order of creation, and its start.
pub struct Opening {
    pub number: u64,
    pub start: Start,
}

/// A shard world with its number among those of a run. Its picks are those of the policy that was handed in for that
/// number.
#[derive(Drop)]
pub struct Numbered<P: Chooser, K: Handed> {
    number: u64,
    world: World<P>,
    of: PhantomData<K>,
}

impl<P: Chooser, K: Handed> Model for Numbered<P, K> {
    ghost use Rattle.ccr_query.specs.contracts.queries.Query as query;
    ghost use Rattle.std.specs.Coded.{codes};
    ghost use Rattle.ccr_worlds.specs.Fated.{Fated, standing_of};
    ghost use Rattle.ccr_cells.specs.Opened.{NumberedWorld};

    ghost Value = { NumberedWorld };

    ghost coded = { Prim.hlevel (codes, query.the_row.coded) };

    ghost view = { λ w. record { number = w.number; recorded = w.world.recorded } };

    ghost invariant = { λ w. Fated (K.fates w.number) (standing_of P.fate w.world.recorded w.world.policy) };
}

impl<P: Chooser, K: Handed> Numbered<P, K> {
    /// A world of this start, which has from 1 to 8 copies, with no entry and with the policy that was handed in for this
    /// number.
    pub(crate) fn new(
        alloc: Global,
        number: u64,
        start: Start,
        policy: Option<P>,
    ) -> Result<Numbered<P, K>, AllocError>
        requires some { 1 ≤ start.copies }
        requires few { start.copies ≤ 8 }
        requires handed { (seen : List (List PartSize)) → picks_of P.fate policy seen ≡ K.fates number seen }
        ensures { IfOk result (λ w. w ≡ record { number = number; recorded = record { start = start; journal = []; broken = false } }) }
    {
        let world = World::new(alloc, start, policy)?;
        Ok(Numbered {
            number,
            world,
            of: PhantomData,
        })
    }

    /// The journal, with what is known of it.
    pub(crate) fn into_journal(self) -> Journal
        ensures value { result ≡ self.recorded.journal }
        ensures handed { IsHandedOut (log_of self.recorded) }
        ensures picked { ArePicked (K.fates self.number) (start_state self.recorded.start) self.recorded.journal }
    {
        let Numbered { world, .. } = self;
        world.into_journal()
    }
}

impl<P: Chooser, K: Handed> ShardWorld for Numbered<P, K> {
    ghost numbered = { λ w. w };

    fn step(&mut self, event: &Event) -> Result<Reply, AllocError> {
        self.world.step(event)
    }

    fn choose(&self, hint: u64) -> Result<Option<Event>, AllocError> {
        self.world.choose(hint)
    }

    fn note(&self, of: u64) -> Result<Note, AllocError> {
        self.world.note(of)
    }

    fn len(&self) -> u64 {
        self.world.journal().len()
    }
}
