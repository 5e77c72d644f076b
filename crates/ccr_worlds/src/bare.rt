// The worlds of a run on one thread.
ghost use Rattle.std.specs.Prelude.{◌≡◌, [], map, reverse};
ghost use Rattle.std.specs.List.{AllByRecursion};
ghost use Rattle.ccr_model.specs.Past.{start_past};
ghost use Rattle.ccr_model.specs.Headline.{Headline};
ghost use Rattle.ccr_law_reached.specs.Reached.{IsPossible};
ghost use Rattle.ccr_worlds.specs.Fated.{AreLeft, PicksAreHanded};
ghost use Rattle.ccr_worlds.specs.HandedOut.{KeepsPrefixes};

use crate::converted::{note_of, start_of};
use crate::handed::Handed;
use crate::handing_out::hand_out;
use crate::room::put;
use crate::settling::settle_each;
use ccr_deeds::{Note, Settles, WorldStart, Worlds};
use ccr_journal::{Event, Journal, Reply};
use ccr_shard_world::{Chooser, World};
use std::alloc::{AllocError, Global};
use std::marker::{Model, PhantomData};

/// The shard worlds of a run, in order of creation, and the policies that are left for further ones. Contracts see the
/// log of each world: what it began with, and its journal. Its picks are those of the policy that was handed in for it.
#[derive(Drop)]
pub struct Bare<P: Chooser, K: Handed> {
    alloc: Global,
    worlds: Vec<World<P>>,
    // the policies for further worlds, the next one last
    left: Vec<P>,
    // empty, with room for the journals of the worlds
    journals: Vec<Journal>,
    of: PhantomData<K>,
}

impl<P: Chooser, K: Handed> Model for Bare<P, K> {
    ghost use Rattle.std.specs.Prelude.{List, map};
    ghost use Rattle.std.specs.Coded.{codes};
    ghost use Rattle.ccr_query.specs.contracts.queries.Query as query;
    ghost use Rattle.ccr_deeds.specs.Logs.{Log};

    ghost Value = { List Log };

    ghost coded = { Prim.hlevel (codes, query.the_row.coded) };

    ghost use Rattle.std.specs.Prelude.{length, reverse, vec_capacity};
    ghost use Rattle.ccr_worlds.specs.Fated.{IsBare, log_of, standing_of};

    ghost view = { λ b. map (λ w. log_of w.recorded) b.worlds.items };

    ghost invariant = { λ b. IsBare K.fates (map (λ w. standing_of P.fate w.recorded w.policy) b.worlds.items)
        (map P.fate (reverse b.left.items)) b.journals.items (length b.worlds.items) (vec_capacity b.journals) };
}

impl<P: Chooser, K: Handed> Bare<P, K> {
    /// No world yet, and these policies for the worlds to come: the first for the first one, and so on. Worlds behind
    /// the last policy get none, and their merges join nothing.
    pub fn new(alloc: Global, policies: Vec<P>) -> Self
        requires { AreLeft K.fates 0 (map P.fate policies.items) }
        ensures { result ≡ [] }
    {
        let mut left = policies;
        left.reverse();
        Bare {
            alloc,
            worlds: Vec::new(alloc),
            left,
            journals: Vec::new(alloc),
            of: PhantomData,
        }
    }

    /// The journals of the worlds, in order of creation, with what is known of each: it could have come about from its
    /// start, and so the theorem on journals holds of it; and its picks are those of the policy that was handed in for
    /// it. This takes no memory.
    pub fn into_journals(self) -> Vec<Journal>
        ensures value { result.items ≡ map (λ log. log.entries) self }
        ensures possible { AllByRecursion (λ log. IsPossible log.start log.entries) self }
        ensures headline { AllByRecursion (λ log. Headline (start_past log.start) log.entries) self }
        ensures prefix { AllByRecursion KeepsPrefixes self }
        ensures picks { PicksAreHanded K.fates 0 self }
    {
        let Bare {
            worlds,
            journals,
            ..
        } = self;
        hand_out(worlds, journals)
    }
}

impl<P: Chooser, K: Handed> Worlds for Bare<P, K> {
    ghost logs = { λ bare. bare };

    fn make(&mut self, start: WorldStart) -> Result<(), AllocError> {
        let Some(count) = self.worlds.len().checked_add(1) else {
            return Err(AllocError);
        };
        self.journals.reserve(count)?;
        self.worlds.reserve(1)?;
        let mut world = World::new(self.alloc, start_of(start), None)?;
        world.policy = self.left.pop();
        put(&mut self.worlds, world);
        Ok(())
    }

    fn happens(&mut self, world: u32, event: &Event) -> Result<Reply, AllocError> {
        let place = &mut self.worlds[world as usize];
        place.step(event)
    }

    fn note(&mut self, world: u32, of: u32) -> Result<Note, AllocError> {
        let place = &self.worlds[world as usize];
        let note = place.note(u64::from(of))?;
        Ok(note_of(note))
    }
}

impl<P: Chooser, K: Handed> Settles for Bare<P, K> {
    fn settle(&mut self) -> Result<(), AllocError> {
        settle_each(&mut self.worlds)
    }
}
