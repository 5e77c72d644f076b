// A shard world with its policy of merges.
ghost use Rattle.std.specs.Prelude.{◌≡◌, ◌≤◌, ◌<◌, ◌^◌, ℕ, List, ◌++◌, ◌∷◌, [], true, false, IfOk, OnOk, OnErr, MatchOption, Option, Some, slice_get, option_copied, length};
ghost use Rattle.std.specs.Option.{option_map};
ghost use Rattle.ccr_wire.specs.Spelling.{spelling};
ghost use Rattle.ccr_policy.specs.declared.PartSize.{PartSize};
ghost use Rattle.ccr_journal.specs.declared.events.Event.{Event};
ghost use Rattle.ccr_journal.specs.declared.events.Event.TheVariants as Event;
ghost use Rattle.ccr_journal.specs.declared.journals.Entry.{Entry};
ghost use Rattle.ccr_model.specs.Policies.{KeepsFate};
ghost use Rattle.ccr_model.specs.Past.{start_past, past_of};
ghost use Rattle.ccr_model.specs.Headline.{Headline, StaysCommitted};
ghost use Rattle.ccr_model.specs.Settled.{is_settled};
ghost use Rattle.ccr_model.specs.Settling.{note_of};
ghost use Rattle.ccr_law_reached.specs.Reached.{IsPossible};
ghost use Rattle.ccr_settling.specs.Next.{IsNext};
ghost use Rattle.ccr_shard_world.specs.Recorded.{state_of, IsReplyTo};
ghost use Rattle.ccr_shard_world.specs.Runs.{Settling, SettledBy};
ghost use Rattle.ccr_shard_world.specs.Fates.{is_merge, Asked, sizes_of_copy};

use crate::policy::{Chooser, ask};
use crate::recorded::Recorded;
use bytes::Bytes;
use ccr_journal::{Event, Journal, Reply, Side};
use ccr_leader::Start;
use ccr_policy::{PartSize, Picks};
use ccr_shard::Note;
use std::alloc::{AllocError, Global};

/// A shard world with its policy of merges. The policy is asked once for each merge of a copy that is there, before the
/// step, with the sizes of that copy, and at no other event.
#[derive(Drop)]
pub struct World<P> {
    alloc: Global,
    /// The shard with its journal.
    pub recorded: Recorded,
    /// What picks the parts that a merge joins. Without one a merge joins none.
    pub policy: Option<P>,
}

impl<P: Chooser> World<P> {
    /// A world of this start, which has from 1 to 8 copies, with no entry.
    pub fn new(alloc: Global, start: Start, policy: Option<P>) -> Result<World<P>, AllocError>
        requires some { 1 ≤ start.copies }
        requires few { start.copies ≤ 8 }
        ensures recorded { IfOk result (λ world. world.recorded ≡ record { start = start; journal = []; broken = false }) }
        ensures policy { IfOk result (λ world. world.policy ≡ policy) }
    {
        let recorded = Recorded::new(alloc, start)?;
        Ok(World {
            alloc,
            recorded,
            policy,
        })
    }

    /// Does one event, and enters it with its reply at the end of the journal. After want of memory the journal is as it
    /// was, and each later step is answered want of memory too.
    pub fn step(&mut self, event: &Event) -> Result<Reply, AllocError>
        ensures entry { IfOk result (λ reply. self.new.recorded ≡ record self.old.recorded {
          journal = self.old.recorded.journal ++ record { event = event.now; reply = reply } ∷ [];
        }) }
        ensures reply { IfOk result (λ reply. IsReplyTo (state_of self.old.recorded) event.now reply) }
        ensures fate { IfOk result (λ reply. KeepsFate P.fate self.old.policy self.new.policy (state_of self.old.recorded) event.now reply) }
        ensures whole { OnOk result (self.old.recorded.broken ≡ false) }
        ensures few { OnOk result (length self.new.recorded.journal < 2 ^ 32) }
        ensures err { OnErr result (self.new.recorded ≡ record self.old.recorded { broken = true }) }
        ensures possible { IsPossible self.new.recorded.start self.new.recorded.journal }
    {
        match event {
            Event::Merge { side, copy } => self.merge(event, *side, *copy),
            _ => self.act(event),
        }
    }

    // No other event asks the policy.
    #[tactic(auto, using(crate::proofs::Asking::asking))]
    fn act(&mut self, event: &Event) -> Result<Reply, AllocError>
        requires { is_merge event.now ≡ false }
        ensures entry { IfOk result (λ reply. self.new.recorded ≡ record self.old.recorded {
          journal = self.old.recorded.journal ++ record { event = event.now; reply = reply } ∷ [];
        }) }
        ensures reply { IfOk result (λ reply. IsReplyTo (state_of self.old.recorded) event.now reply) }
        ensures fate { IfOk result (λ reply. KeepsFate P.fate self.old.policy self.new.policy (state_of self.old.recorded) event.now reply) }
        ensures whole { OnOk result (self.old.recorded.broken ≡ false) }
        ensures few { OnOk result (length self.new.recorded.journal < 2 ^ 32) }
        ensures err { OnErr result (self.new.recorded ≡ record self.old.recorded { broken = true }) }
        ensures possible { IsPossible self.new.recorded.start self.new.recorded.journal }
    {
        let reply = self.recorded.step(event, &Picks::of(Vec::new(self.alloc)))?;
        Ok(reply)
    }

    // A merge asks the policy about the sizes of the copy's parts, where there is such a copy.
    #[tactic(auto, using(crate::proofs::Asking::asking))]
    fn merge(&mut self, event: &Event, side: Side, copy: u64) -> Result<Reply, AllocError>
        requires { event.now ≡ Event.Merge side copy }
        ensures entry { IfOk result (λ reply. self.new.recorded ≡ record self.old.recorded {
          journal = self.old.recorded.journal ++ record { event = event.now; reply = reply } ∷ [];
        }) }
        ensures reply { IfOk result (λ reply. IsReplyTo (state_of self.old.recorded) event.now reply) }
        ensures fate { IfOk result (λ reply. KeepsFate P.fate self.old.policy self.new.policy (state_of self.old.recorded) event.now reply) }
        ensures whole { OnOk result (self.old.recorded.broken ≡ false) }
        ensures few { OnOk result (length self.new.recorded.journal < 2 ^ 32) }
        ensures err { OnErr result (self.new.recorded ≡ record self.old.recorded { broken = true }) }
        ensures possible { IsPossible self.new.recorded.start self.new.recorded.journal }
    {
        let picks = match picks_for(&self.recorded, &mut self.policy, self.alloc, side, copy) {
            Ok(picks) => picks,
            Err(refused) => {
                self.recorded.break_now();
                return Err(refused);
            }
        };
        let reply = self.recorded.step(event, &picks)?;
        Ok(reply)
    }

    /// Whether nothing is left to be done. Of a broken world nothing is said.
    pub fn settled(&self) -> bool
        ensures { self.now.recorded.broken ≡ false → result ≡ is_settled (state_of self.now.recorded) }
    {
        self.recorded.settled()
    }

    /// What may be done to settle it, or `None` exactly where it is settled. Where there are several such events, `hint`
    /// may pick one.
    pub fn choose(&self, hint: u64) -> Result<Option<Event>, AllocError>
        ensures chosen { IfOk result (λ chosen. MatchOption chosen (is_settled (state_of self.now.recorded) ≡ true) (λ event. IsNext (state_of self.now.recorded) event)) }
        ensures whole { OnOk result (self.now.recorded.broken ≡ false) }
    {
        self.recorded.choose(hint)
    }

    /// Settles a world that is alone, and enters that it is settled. The policy is not asked, since no merge settles
    /// anything. After want of memory it is broken, and has done some of the events.
    pub fn settle_alone(&mut self) -> Result<(), AllocError>
        ensures ok { OnOk result (SettledBy self.old.recorded.start self.old.recorded.journal self.new.recorded.journal) }
        ensures err { OnErr result (Settling self.old.recorded.start self.old.recorded.journal self.new.recorded.journal) }
        ensures broken { OnErr result (self.new.recorded.broken ≡ true) }
        ensures start { self.new.recorded.start ≡ self.old.recorded.start }
        ensures possible { IsPossible self.new.recorded.start self.new.recorded.journal }
        ensures policy { self.new.policy ≡ self.old.policy }
    {
        self.recorded.settle()
    }

    /// What a command has to know of the leader and of a follower.
    pub fn note(&self, of: u64) -> Result<Note, AllocError>
        ensures note { IfOk result (λ note. note ≡ note_of (state_of self.now.recorded) of) }
        ensures whole { OnOk result (self.now.recorded.broken ≡ false) }
    {
        self.recorded.note(of)
    }

    /// The bytes of the message at a place of those in flight, counted from the oldest: `None` exactly where there are
    /// not that many. Of a broken world nothing is said.
    pub fn frame(&self, at: usize) -> Option<&Bytes>
        ensures { self.now.recorded.broken ≡ false → option_copied result ≡ option_map spelling (slice_get (state_of self.now.recorded).flight at) }
    {
        self.recorded.frame(at)
    }

    /// The sizes of a copy's closed parts, or `None` exactly where there is no such copy.
    pub fn sizes(&self, side: Side, copy: u64) -> Result<Option<Vec<PartSize>>, AllocError>
        ensures sizes { IfOk result (λ sizes. option_map (λ s. s.items) sizes ≡ sizes_of_copy (state_of self.now.recorded) side copy) }
        ensures whole { OnOk result (self.now.recorded.broken ≡ false) }
    {
        self.recorded.sizes(side, copy)
    }

    /// The journal.
    pub fn journal(&self) -> &Journal
        ensures value { result.now ≡ self.now.recorded.journal }
        ensures possible { IsPossible self.now.recorded.start self.now.recorded.journal }
    {
        self.recorded.journal()
    }

    /// The journal, which outlives the world, with the theorem on it.
    pub fn into_journal(self) -> Journal
        ensures value { result ≡ self.recorded.journal }
        ensures possible { IsPossible self.recorded.start result }
        ensures headline { Headline (start_past self.recorded.start) result }
        ensures prefix { (front back : List Entry) → result ≡ front ++ back → StaysCommitted (past_of (start_past self.recorded.start) front) (past_of (start_past self.recorded.start) result) }
    {
        self.recorded.into_journal()
    }
}

// What the policy picks of the copy's parts, and nothing where there is no such copy.
fn picks_for<P: Chooser>(
    recorded: &Recorded,
    policy: &mut Option<P>,
    alloc: Global,
    side: Side,
    copy: u64,
) -> Result<Picks, AllocError>
    ensures asked { IfOk result (λ picks. Asked P.fate policy.old policy.new picks (sizes_of_copy (state_of recorded.now) side copy)) }
    ensures possible { IsPossible recorded.now.start recorded.now.journal }
{
    let Some(sizes) = recorded.sizes(side, copy)? else {
        return Ok(Picks::of(Vec::new(alloc)));
    };
    let picks = ask(policy, alloc, &sizes)?;
    Ok(picks)
}
