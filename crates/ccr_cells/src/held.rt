// A shard world as the machine that lies in a cell.
ghost use Rattle.std.specs.Prelude.{◌≡◌, [], ◌∷◌, ◌++◌, false, length, IfOk, OnOk, OnErr, MatchOption};
ghost use Rattle.ccr_cells.specs.Opened.{NumberedWorld, opening_of, entry_in, may_reply_in, may_choose_in, is_idle_in, note_in};

use crate::numbered::Opening;
use ccr_cell::Machine;
use ccr_journal::{Entry, Event, Reply};
use ccr_shard_world::Note;
use std::alloc::AllocError;
use std::marker::Model;

/// A shard world with its number among those of a run, whatever picks what its merges join.
///
/// Threads share what lies in a cell, so it has to be `Send`: of a type parameter its bound says that.
pub trait ShardWorld: Drop {
    ghost numbered: { Self → NumberedWorld };

    /// Lets the event happen. At `Ok` the journal has one entry more, of this event and this reply. At `Err` it is as before.
    fn step(&mut self, event: &Event) -> Result<Reply, AllocError>
        ensures start { opening_of (numbered self.new) ≡ opening_of (numbered self.old) }
        ensures ok { IfOk result (λ reply. (numbered self.new).recorded.journal ≡ (numbered self.old).recorded.journal ++ entry_in event.now reply ∷ []) }
        ensures may { IfOk result (λ reply. may_reply_in (opening_of (numbered self.old)) (numbered self.old).recorded.journal event.now reply) }
        ensures whole { OnOk result ((numbered self.old).recorded.broken ≡ false) }
        ensures err { OnErr result ((numbered self.new).recorded.journal ≡ (numbered self.old).recorded.journal) };

    /// The next event that settles the world, or None exactly where it is settled. Where there are several, `hint` may pick one.
    fn choose(&self, hint: u64) -> Result<Option<Event>, AllocError>
        ensures chosen { IfOk result (λ chosen. MatchOption chosen
            (is_idle_in (opening_of (numbered self.now)) (numbered self.now).recorded.journal)
            (λ event. (¬ is_idle_in (opening_of (numbered self.now)) (numbered self.now).recorded.journal) × may_choose_in (opening_of (numbered self.now)) (numbered self.now).recorded.journal event)) }
        ensures whole { OnOk result ((numbered self.now).recorded.broken ≡ false) };

    /// What is read of the world: of its leader, and of the follower of the number `of`.
    fn note(&self, of: u64) -> Result<Note, AllocError>
        ensures note { IfOk result (λ note. note ≡ note_in (opening_of (numbered self.now)) (numbered self.now).recorded.journal of) }
        ensures whole { OnOk result ((numbered self.now).recorded.broken ≡ false) };

    /// The length of the journal, also of a broken world.
    fn len(&self) -> u64
        ensures { result ≡ length (numbered self.now).recorded.journal };
}

/// A shard world as the machine of a cell.
#[derive(Drop)]
pub struct Held<W: ShardWorld> {
    world: W,
}

impl<W: ShardWorld> Model for Held<W> {
    ghost use Rattle.ccr_query.specs.contracts.queries.Query as query;
    ghost use Rattle.std.specs.Coded.{codes};
    ghost use Rattle.ccr_cells.specs.Opened.{NumberedWorld};

    ghost Value = { NumberedWorld };

    ghost coded = { Prim.hlevel (codes, query.the_row.coded) };

    ghost view = { λ h. W.numbered h.world };
}

impl<W: ShardWorld> Held<W> {
    /// This world.
    pub(crate) fn new(world: W) -> Held<W>
        ensures { result ≡ W.numbered world }
    {
        Held { world }
    }

    /// The world.
    pub(crate) fn into_world(self) -> W
        ensures { W.numbered result ≡ self }
    {
        let Held { world } = self;
        world
    }
}

impl<W: ShardWorld> Machine for Held<W> {
    type Start = Opening;

    type Event = Event;

    type Reply = Reply;

    type Entry = Entry;

    type Note = Note;

    ghost use Rattle.ccr_cells.specs.Opened.{opening_of, entry_in, may_reply_in, may_choose_in, is_idle_in, note_in};

    ghost start = { opening_of };

    ghost journal = { λ w. w.recorded.journal };

    ghost is_broken = { λ w. w.recorded.broken };

    ghost entry_of = { entry_in };

    ghost may_reply = { may_reply_in };

    ghost may_choose = { may_choose_in };

    ghost is_idle = { is_idle_in };

    ghost note_of = { note_in };

    fn step(&mut self, event: &Event) -> Result<Reply, AllocError> {
        self.world.step(event)
    }

    fn choose(&self, hint: u64) -> Result<Option<Event>, AllocError> {
        self.world.choose(hint)
    }

    fn note(&self, of: u64) -> Result<Note, AllocError> {
        self.world.note(of)
    }

    fn len(&self) -> u64 {
        self.world.len()
    }
}
