//! What lies in a cell.
ghost use Rattle.std.specs.Prelude.{◌≡◌, ℕ, Bool, false, List, [], ◌∷◌, ◌++◌, length, IfOk, OnOk, OnErr, MatchOption};

use std::alloc::AllocError;

/// A machine that steps from event to event and keeps a journal of what happened.
///
/// Its meanings are its start, which no step changes, its journal, and whether it is broken. What its calls answer is said by
/// definitions over a start and a list of entries, so a thread that knows the journal knows what the machine may do.
///
/// A broken machine is one that was refused memory amid a step. It answers each further call by want of memory, but for `len`.
pub trait Machine: Drop {
    /// What it began with, as plain data.
    type Start;
    /// What may happen to it.
    type Event: Drop;
    /// What it answers.
    type Reply: Drop;
    /// What its journal keeps of an event and its reply.
    type Entry;
    /// Numbers of its state.
    type Note: Drop;

    ghost start: { Self → Self.Start };

    ghost journal: { Self → List Self.Entry };

    ghost is_broken: { Self → Bool };

    ghost entry_of: { Self.Event → Self.Reply → Self.Entry };

    // Which reply a step may give to an event, from a start after these entries.
    ghost may_reply: { Self.Start → List Self.Entry → Self.Event → Self.Reply → Type 0 };

    // Which events `choose` may give there.
    ghost may_choose: { Self.Start → List Self.Entry → Self.Event → Type 0 };

    // Whether there is nothing left to choose there.
    ghost is_idle: { Self.Start → List Self.Entry → Type 0 };

    // The note of a number there.
    ghost note_of: { Self.Start → List Self.Entry → ℕ → Self.Note };

    /// Lets the event happen. At Ok the journal has one entry more, of this event and this reply. At Err it is as before.
    fn step(&mut self, event: &Self::Event) -> Result<Self::Reply, AllocError>
        ensures start { start self.new ≡ start self.old }
        ensures ok { IfOk result (λ reply. journal self.new ≡ journal self.old ++ entry_of event.now reply ∷ []) }
        ensures may { IfOk result (λ reply. may_reply (start self.old) (journal self.old) event.now reply) }
        ensures whole { OnOk result (is_broken self.old ≡ false) }
        ensures err { OnErr result (journal self.new ≡ journal self.old) };

    /// The next event that settles the machine, or None exactly where it is idle. Where there are several, `hint` may pick one.
    fn choose(&self, hint: u64) -> Result<Option<Self::Event>, AllocError>
        ensures chosen { IfOk result (λ chosen. MatchOption chosen (is_idle (start self.now) (journal self.now)) (λ event. (¬ is_idle (start self.now) (journal self.now)) × may_choose (start self.now) (journal self.now) event)) }
        ensures whole { OnOk result (is_broken self.now ≡ false) };

    /// The note of the number `of`.
    fn note(&self, of: u64) -> Result<Self::Note, AllocError>
        ensures note { IfOk result (λ note. note ≡ note_of (start self.now) (journal self.now) of) }
        ensures whole { OnOk result (is_broken self.now ≡ false) };

    /// The length of the journal, also of a broken machine.
    fn len(&self) -> u64
        ensures { result ≡ length (journal self.now) };
}
