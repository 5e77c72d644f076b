// A shard with its journal.
ghost use Rattle.std.specs.Prelude.{◌≡◌, ◌<◌, ◌≤◌, ◌^◌, ◌++◌, ◌∷◌, [], true, false, List, IfOk, OnOk, OnErr, MatchOption, slice_get, option_copied, length};
ghost use Rattle.std.specs.Option.{option_map};
ghost use Rattle.ccr_wire.specs.Spelling.{spelling};
ghost use Rattle.ccr_journal.specs.declared.journals.Entry.{Entry};
ghost use Rattle.ccr_model.specs.Step.{step};
ghost use Rattle.ccr_model.specs.Past.{start_past, past_of};
ghost use Rattle.ccr_model.specs.Headline.{Headline, StaysCommitted};
ghost use Rattle.ccr_model.specs.Settled.{is_settled};
ghost use Rattle.ccr_model.specs.Settling.{note_of};
ghost use Rattle.ccr_law_reached.specs.Reached.{IsPossible};
ghost use Rattle.ccr_settling.specs.Next.{IsNext};
ghost use Rattle.ccr_shard_world.specs.Recorded.{state_of, IsReplyTo};
ghost use Rattle.ccr_shard_world.specs.Runs.{Settling, SettledBy};
ghost use Rattle.ccr_shard_world.specs.Fates.{sizes_of_copy};

use crate::fits::know_fit;
use bytes::Bytes;
use ccr_journal::{Entry, Event, Journal, Reply, Side};
use ccr_leader::Start;
use ccr_policy::{PartSize, Picks};
use ccr_settling::choose;
use ccr_shard::{Note, Shard};
use std::alloc::{AllocError, Global};
use std::marker::Model;

// A world has at most this many entries, so that its numbers stay within their types.
const MOST_ENTRIES: u64 = 4_294_967_295;

/// A shard with its journal, whose steps are told the picks of a merge. After want of memory it is broken: the journal
/// stays as it was before that event, and each later step is answered want of memory too.
#[derive(Drop)]
pub struct Recorded {
    alloc: Global,
    start: Start,
    shard: Shard,
    journal: Journal,
    broken: bool,
}

impl Model for Recorded {
    ghost use Rattle.ccr_query.specs.contracts.queries.Query as query;
    ghost use Rattle.std.specs.Coded.{codes};
    ghost use Rattle.ccr_shard_world.specs.Recorded.{Recorded as Modelled, IsRecorded};

    ghost Value = { Modelled };

    ghost coded = { Prim.hlevel (codes, query.the_row.coded) };

    ghost view = { λ a. record { start = a.start; journal = a.journal; broken = a.broken } };

    ghost invariant = { λ a. IsRecorded a.start a.shard a.journal a.broken };
}

impl Recorded {
    /// A shard of this start, which has from 1 to 8 copies, with no entry.
    #[tactic(auto, using(crate::proofs::Recording::recording))]
    pub fn new(alloc: Global, start: Start) -> Result<Recorded, AllocError>
        requires some { 1 ≤ start.copies }
        requires few { start.copies ≤ 8 }
        ensures { IfOk result (λ world. world ≡ record { start = start; journal = []; broken = false }) }
    {
        let kept = Start {
            copies: start.copies,
            history: start.history,
            period: start.period,
            retention: start.retention,
        };
        let shard = Shard::new(alloc, start)?;
        Ok(Recorded {
            alloc,
            start: kept,
            shard,
            journal: Journal::new(alloc),
            broken: false,
        })
    }

    /// Does one event, which is a merge of these picks where it is one, and enters it with its reply at the end of the
    /// journal. A journal of 2^32 - 1 entries takes no more: that is answered as want of memory.
    #[tactic(auto, using(crate::proofs::Recording::recording))]
    pub fn step(&mut self, event: &Event, picks: &Picks) -> Result<Reply, AllocError>
        ensures entry { IfOk result (λ reply. self.new ≡ record self.old {
          journal = self.old.journal ++ record { event = event.now; reply = reply } ∷ [];
        }) }
        ensures reply { IfOk result (λ reply. reply ≡ (step (state_of self.old) event.now picks.now).reply) }
        ensures to { IfOk result (λ reply. IsReplyTo (state_of self.old) event.now reply) }
        ensures whole { OnOk result (self.old.broken ≡ false) }
        ensures few { OnOk result (length self.new.journal < 2 ^ 32) }
        ensures err { OnErr result (self.new ≡ record self.old { broken = true }) }
        ensures possible { IsPossible self.new.start self.new.journal }
    {
        if self.broken || self.journal.len() >= MOST_ENTRIES {
            self.broken = true;
            return Err(AllocError);
        }
        self.broken = true;
        self.journal.reserve()?;
        let kept = event.copy(self.alloc)?;
        know_fit(event);
        let reply = self.shard.step(event, picks)?;
        let answer = reply.copy(self.alloc)?;
        self.journal.push(Entry { event: kept, reply })?;
        self.broken = false;
        Ok(answer)
    }

    /// Whether nothing is left to be done. Of a broken world nothing is said.
    pub fn settled(&self) -> bool
        ensures { self.now.broken ≡ false → result ≡ is_settled (state_of self.now) }
    {
        self.shard.is_settled()
    }

    /// What may be done to settle it, or `None` exactly where it is settled. Where there are several such events, `hint`
    /// may pick one.
    #[tactic(auto, using(crate::proofs::Recording::reaching))]
    pub fn choose(&self, hint: u64) -> Result<Option<Event>, AllocError>
        ensures chosen { IfOk result (λ chosen. MatchOption chosen (is_settled (state_of self.now) ≡ true) (λ event. IsNext (state_of self.now) event)) }
        ensures whole { OnOk result (self.now.broken ≡ false) }
    {
        if self.broken {
            return Err(AllocError);
        }
        choose(self.alloc, &self.shard, hint)
    }

    /// What a command has to know of the leader and of a follower.
    pub fn note(&self, of: u64) -> Result<Note, AllocError>
        ensures note { IfOk result (λ note. note ≡ note_of (state_of self.now) of) }
        ensures whole { OnOk result (self.now.broken ≡ false) }
    {
        if self.broken {
            return Err(AllocError);
        }
        Ok(self.shard.note(of))
    }

    /// The bytes of the message at a place of those in flight, counted from the oldest: `None` exactly where there are
    /// not that many. Of a broken world nothing is said.
    pub fn frame(&self, at: usize) -> Option<&Bytes>
        ensures { self.now.broken ≡ false → option_copied result ≡ option_map spelling (slice_get (state_of self.now).flight at) }
    {
        self.shard.frame(at)
    }

    /// The sizes of a copy's closed parts, or `None` exactly where there is no such copy.
    pub fn sizes(&self, side: Side, copy: u64) -> Result<Option<Vec<PartSize>>, AllocError>
        ensures sizes { IfOk result (λ sizes. option_map (λ s. s.items) sizes ≡ sizes_of_copy (state_of self.now) side copy) }
        ensures whole { OnOk result (self.now.broken ≡ false) }
        ensures possible { IsPossible self.now.start self.now.journal }
    {
        if self.broken {
            return Err(AllocError);
        }
        self.shard.sizes(side, copy)
    }

    /// What stands for want of memory that was met outside of it: no step is done any more.
    pub fn break_now(&mut self)
        ensures after { self.new ≡ record self.old { broken = true } }
        ensures possible { IsPossible self.new.start self.new.journal }
    {
        self.broken = true;
    }

    /// How many entries the journal has.
    pub fn len(&self) -> u64
        ensures { result ≡ length self.now.journal }
    {
        self.journal.len()
    }

    /// Does what may be done to settle it, one event after the other, and enters that it is settled. Each of these events
    /// makes the five numbers of settling smaller. After want of memory it is broken, and has done some of them.
    #[tactic(auto, using(crate::proofs::Settling::settles))]
    pub fn settle(&mut self) -> Result<(), AllocError>
        ensures ok { OnOk result (SettledBy self.old.start self.old.journal self.new.journal) }
        ensures err { OnErr result (Settling self.old.start self.old.journal self.new.journal) }
        ensures broken { OnErr result (self.new.broken ≡ true) }
        ensures start { self.new.start ≡ self.old.start }
        ensures possible { IsPossible self.new.start self.new.journal }
    {
        let none = Picks::of(Vec::new(self.alloc));
        settle_rest(self, &none)?;
        let _ = self.step(&Event::Settle, &none)?;
        Ok(())
    }

    /// The journal.
    pub fn journal(&self) -> &Journal
        ensures value { result.now ≡ self.now.journal }
        ensures possible { IsPossible self.now.start self.now.journal }
    {
        &self.journal
    }

    /// The journal, which outlives the world, with the theorem on it.
    #[tactic(auto, using(crate::proofs::Recording::headlines))]
    pub fn into_journal(self) -> Journal
        ensures value { result ≡ self.journal }
        ensures possible { IsPossible self.start result }
        ensures headline { Headline (start_past self.start) result }
        ensures prefix { (front back : List Entry) → result ≡ front ++ back → StaysCommitted (past_of (start_past self.start) front) (past_of (start_past self.start) result) }
    {
        self.journal
    }
}

// Does what may be chosen, until nothing is left.
#[tactic(auto, using(crate::proofs::Settling::settles))]
fn settle_rest(world: &mut Recorded, none: &Picks) -> Result<(), AllocError>
    requires { IsPossible world.old.start world.old.journal }
    ensures ok { OnOk result (is_settled (state_of world.new) ≡ true) }
    ensures grew { Settling world.old.start world.old.journal world.new.journal }
    ensures broken { OnErr result (world.new.broken ≡ true) }
    ensures start { world.new.start ≡ world.old.start }
    ensures possible { IsPossible world.new.start world.new.journal }
{
    loop {
        let chosen = match world.choose(0) {
            Ok(chosen) => chosen,
            Err(refused) => {
                world.break_now();
                return Err(refused);
            }
        };
        let Some(event) = chosen else {
            return Ok(());
        };
        let _ = world.step(&event, none)?;
    }
}
