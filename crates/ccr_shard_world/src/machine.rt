// A world as a machine that threads may share.
use crate::policy::Chooser;
use crate::world::World;
use ccr_cell::Machine;
use ccr_journal::{Entry, Event, Reply};
use ccr_leader::Start;
use ccr_shard::Note;
use std::alloc::AllocError;

impl<P: Chooser + Send> Machine for World<P> {
    type Start = Start;

    type Event = Event;

    type Reply = Reply;

    type Entry = Entry;

    type Note = Note;

    ghost use Rattle.std.specs.Prelude.{◌≡◌, true};
    ghost use Rattle.ccr_model.specs.World.{start_state};
    ghost use Rattle.ccr_model.specs.Step.{state_after};
    ghost use Rattle.ccr_model.specs.Settled.{is_settled};
    ghost use Rattle.ccr_model.specs.Settling.{note_of, MaySettle};
    ghost use Rattle.ccr_shard_world.specs.Recorded.{IsReplyTo};

    ghost start = { λ w. w.recorded.start };

    ghost journal = { λ w. w.recorded.journal };

    ghost is_broken = { λ w. w.recorded.broken };

    ghost entry_of = { λ event reply. record { event = event; reply = reply } };

    ghost may_reply = { λ start entries event reply. IsReplyTo (state_after (start_state start) entries) event reply };

    ghost may_choose = { λ start entries event. MaySettle (state_after (start_state start) entries) event };

    ghost is_idle = { λ start entries. is_settled (state_after (start_state start) entries) ≡ true };

    ghost note_of = { λ start entries of. note_of (state_after (start_state start) entries) of };

    fn step(&mut self, event: &Event) -> Result<Reply, AllocError> {
        World::step(self, event)
    }

    fn choose(&self, hint: u64) -> Result<Option<Event>, AllocError> {
        self.recorded.choose(hint)
    }

    fn note(&self, of: u64) -> Result<Note, AllocError> {
        self.recorded.note(of)
    }

    fn len(&self) -> u64 {
        self.recorded.len()
    }
}
