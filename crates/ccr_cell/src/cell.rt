//! The cell and its calls.
ghost use Rattle.std.specs.Prelude.{◌≡◌, ◌+◌, ◌*◌, ◌^◌, ◌<◌, ◌≤◌, ◌%◌, [], ◌∷◌, ◌++◌, length, ◌↔◌, IfOk, IfErr, IsOk, OnErr, MatchOption, Some};
ghost use Rattle.ccr_cell.specs.Law.{Took, Added, Left, Owns, IsWhole, first_view, kept_half, given_half};
ghost use Rattle.ccr_cell.specs.Told.{Acted, Looked, Joined, Closed, InHand};

use crate::law::{Add, Board, Bound, Cut, Glue, Law, Leave, Place, Take};
use crate::machine::Machine;
use crate::pass::{Pass, Ticket};
use atomic_table::{Refused, Table};
use std::alloc::{AllocError, AllocFailed, Global};
use std::snapshot::Snapshot;
use std::sync::Wait;
use std::sync::atomic::{AtomicU64, Ordering};

/// The share of a pass that is the only one: 2^32.
const WHOLE: u64 = 1 << 32;

/// The longest journal that a cell can be made with, and one more.
const MOST: u64 = 1 << 62;

/// A machine that many threads act on. Dropping it drops the machine.
#[derive(Drop)]
pub struct Cell<X: Machine> {
    table: Board<X>,
    // how many threads wait for the machine, or are about to
    waiting: AtomicU64,
}

impl<X: Machine> Cell<X> {
    ghost use Rattle.ccr_cell.specs.Passes.{view_of, IsOf, first_of};

    /// A cell with the machine, and the first pass, which has the whole share and has seen the machine's journal.
    /// Hands the machine back where memory is refused, and where its journal has 2^62 entries.
    pub fn new(alloc: Global, machine: X) -> Result<(Cell<X>, Pass<X>), X>
        ensures own { IfOk result (λ r. IsOf r.0 r.1) }
        ensures first { IfOk result (λ r. first_of r.0 ≡ machine) }
        ensures view { IfOk result (λ r. view_of r.1 ≡ first_view (X.start machine) (X.journal machine)) }
        ensures owns { IfOk result (λ r. Owns (view_of r.1)) }
        ensures err { IfErr result (λ back. back ≡ machine) }
    {
        let length = machine.len();
        if length >= MOST {
            return Err(machine);
        }
        let about = Snapshot::of(&machine);
        let mut slots = Vec::new(alloc);
        if let Err(AllocFailed { value }) = slots.push(machine) {
            return Err(value);
        }
        match Table::new(alloc, &[2 * length], slots, &about) {
            Ok((table, seat)) => {
                let waiting = AtomicU64::new(0);
                Ok((Cell { table, waiting }, Ticket { seat, share: WHOLE }))
            }
            Err(Refused { mut slots }) => {
                let Some(machine) = slots.pop() else {
                    unreachable!()
                };
                slots.destroy_empty();
                Err(machine)
            }
        }
    }

    // Waits for the machine and takes it in hand. Returns the word as it was.
    fn take<R: Wait>(&self, rt: &R, seat: &mut Place<X>) -> u64
        requires own { seat.old.table_id ≡ self.now.table.shared.table_id }
        requires one_word { seat.old.table_id.words ≡ 1 }
        requires bare { seat.old.me.1 ≡ [] }
        requires live { 0 < seat.old.me.0.share }
        ensures own { seat.new.table_id ≡ seat.old.table_id }
        ensures took { Took X.start X.journal seat.old.me result seat.new.me }
    {
        for _ in rt.forever() {
            let word = self.table.shared.peek(0);
            if word % 2 == 1 {
                self.wait(rt, word);
                continue;
            }
            let found = self
                .table
                .shared
                .compare_exchange::<Take>(seat, 0, word, word + 1);
            if found == word {
                return word;
            }
        }
        unreachable!()
    }

    // Sleeps while the word is this one, until a wake. It counts itself first, so whoever changes the word afterwards
    // sees that somebody waits. It may also return for no reason.
    fn wait<R: Wait>(&self, rt: &R, word: u64)
        requires { 0 < self.now.table.shared.table_id.words }
    {
        self.waiting.fetch_add(1, Ordering::SeqCst);
        self.table.shared.park(rt, 0, (word % (1 << 32)) as u32);
        self.waiting.fetch_sub(1, Ordering::SeqCst);
    }

    // Wakes a thread that waits for the machine, where one does. It asks the system only then.
    fn wake(&self)
        requires { 0 < self.now.table.shared.table_id.words }
    {
        if self.waiting.load(Ordering::SeqCst) > 0 {
            self.table.shared.wake_one(0);
        }
    }

    // Gives the machine back with one entry more, and wakes a thread that waits for it.
    fn add(&self, seat: &mut Place<X>, word: u64)
        requires own { seat.old.table_id ≡ self.now.table.shared.table_id }
        requires one_word { seat.old.table_id.words ≡ 1 }
        requires live { 0 < seat.old.me.0.share }
        requires hand { (entry : X.Entry) × InHand X.start X.journal seat.old.me (seat.old.me.0.seen ++ entry ∷ []) }
        requires word { word ≡ 2 * length seat.old.me.0.seen }
        requires room { word + 2 < 2 ^ 64 }
        ensures own { seat.new.table_id ≡ seat.old.table_id }
        ensures added { (m : X) → seat.old.me.1 ≡ (0, m) ∷ [] → Added X.start X.journal seat.old.me seat.new.me m }
    {
        self.table.shared.store::<Add>(seat, 0, word + 2);
        self.wake();
    }

    // Gives the machine back as it was, and wakes a thread that waits for it.
    fn leave(&self, seat: &mut Place<X>, word: u64)
        requires own { seat.old.table_id ≡ self.now.table.shared.table_id }
        requires one_word { seat.old.table_id.words ≡ 1 }
        requires live { 0 < seat.old.me.0.share }
        requires hand { InHand X.start X.journal seat.old.me seat.old.me.0.seen }
        requires word { word ≡ 2 * length seat.old.me.0.seen }
        ensures own { seat.new.table_id ≡ seat.old.table_id }
        ensures left { Left seat.old.me seat.new.me }
    {
        self.table.shared.store::<Leave>(seat, 0, word);
        self.wake();
    }

    // Steps the machine in hand, and answers the length of its journal before.
    fn step(&self, seat: &mut Place<X>, event: &X::Event) -> Result<(X::Reply, u64), AllocError>
        requires own { seat.old.table_id ≡ self.now.table.shared.table_id }
        requires hand { InHand X.start X.journal seat.old.me seat.old.me.0.seen }
        ensures own { seat.new.table_id ≡ seat.old.table_id }
        ensures view { seat.new.me.0 ≡ seat.old.me.0 }
        ensures place { IfOk result (λ r. r.1 ≡ length seat.old.me.0.seen) }
        ensures may { IfOk result (λ r. (s : X.Start) → seat.old.me.0.start ≡ Some s → X.may_reply s seat.old.me.0.seen event.now r.0) }
        ensures ok { IfOk result (λ r. InHand X.start X.journal seat.new.me (seat.old.me.0.seen ++ X.entry_of event.now r.0 ∷ [])) }
        ensures err { OnErr result (InHand X.start X.journal seat.new.me seat.old.me.0.seen) }
    {
        let machine = seat.slot_mut(&self.table.shared, 0);
        let place = machine.len();
        let reply = machine.step(event)?;
        Ok((reply, place))
    }

    // What the machine in hand would do next.
    fn choose(&self, seat: &mut Place<X>, hint: u64) -> Result<Option<X::Event>, AllocError>
        requires own { seat.old.table_id ≡ self.now.table.shared.table_id }
        requires hand { InHand X.start X.journal seat.old.me seat.old.me.0.seen }
        ensures own { seat.new.table_id ≡ seat.old.table_id }
        ensures view { seat.new.me.0 ≡ seat.old.me.0 }
        ensures hand { InHand X.start X.journal seat.new.me seat.new.me.0.seen }
        ensures chosen { IfOk result (λ chosen. (s : X.Start) → seat.new.me.0.start ≡ Some s → MatchOption chosen (X.is_idle s seat.new.me.0.seen) (λ event. (¬ X.is_idle s seat.new.me.0.seen) × X.may_choose s seat.new.me.0.seen event)) }
    {
        let machine = seat.slot_mut(&self.table.shared, 0);
        machine.choose(hint)
    }

    // The note of the machine in hand.
    fn note(&self, seat: &mut Place<X>, of: u64) -> Result<X::Note, AllocError>
        requires own { seat.old.table_id ≡ self.now.table.shared.table_id }
        requires hand { InHand X.start X.journal seat.old.me seat.old.me.0.seen }
        ensures own { seat.new.table_id ≡ seat.old.table_id }
        ensures view { seat.new.me.0 ≡ seat.old.me.0 }
        ensures hand { InHand X.start X.journal seat.new.me seat.old.me.0.seen }
        ensures note { IfOk result (λ note. (s : X.Start) → seat.old.me.0.start ≡ Some s → note ≡ X.note_of s seat.old.me.0.seen of) }
    {
        let machine = seat.slot_mut(&self.table.shared, 0);
        machine.note(of)
    }

    /// Lets the event happen at this call's turn. Answers the reply, and the place of the entry in the journal. At Err it made no entry:
    /// the machine was refused memory, or is broken, or the journal has 2^63 - 2 entries.
    pub fn act<R: Wait>(
        &self,
        rt: &R,
        pass: &mut Pass<X>,
        event: &X::Event,
    ) -> Result<(X::Reply, u64), AllocError>
        requires own { IsOf self.now pass.old }
        ensures own { IsOf self.now pass.new }
        ensures ok { IfOk result (λ r. Acted (λ s front. X.may_reply s front event.now r.0) (X.entry_of event.now r.0) r.1 (view_of pass.old) (view_of pass.new)) }
        ensures err { OnErr result (Looked (λ s front. Unit {0}) (view_of pass.old) (view_of pass.new)) }
    {
        let word = self.take(rt, &mut pass.seat);
        if word >= u64::MAX - 2 {
            self.leave(&mut pass.seat, word);
            return Err(AllocError);
        }
        match self.step(&mut pass.seat, event) {
            Ok(done) => {
                self.add(&mut pass.seat, word);
                Ok(done)
            }
            Err(refused) => {
                self.leave(&mut pass.seat, word);
                Err(refused)
            }
        }
    }

    /// Lets what the machine chooses happen, in one turn, and answers the event, the reply and the place of the entry. None exactly where
    /// the machine is idle at this turn. Err is as for `act`.
    pub fn act_next<R: Wait>(
        &self,
        rt: &R,
        pass: &mut Pass<X>,
        hint: u64,
    ) -> Result<Option<(X::Event, X::Reply, u64)>, AllocError>
        requires own { IsOf self.now pass.old }
        ensures own { IsOf self.now pass.new }
        ensures ok { IfOk result (λ next. MatchOption next (Looked (λ s front. X.is_idle s front) (view_of pass.old) (view_of pass.new)) (λ r. Acted (λ s front. (¬ X.is_idle s front) × X.may_choose s front r.0 × X.may_reply s front r.0 r.1) (X.entry_of r.0 r.1) r.2 (view_of pass.old) (view_of pass.new))) }
        ensures err { OnErr result (Looked (λ s front. Unit {0}) (view_of pass.old) (view_of pass.new)) }
    {
        let word = self.take(rt, &mut pass.seat);
        if word >= u64::MAX - 2 {
            self.leave(&mut pass.seat, word);
            return Err(AllocError);
        }
        let next = match self.choose(&mut pass.seat, hint) {
            Ok(next) => next,
            Err(refused) => {
                self.leave(&mut pass.seat, word);
                return Err(refused);
            }
        };
        let Some(event) = next else {
            self.leave(&mut pass.seat, word);
            return Ok(None);
        };
        match self.step(&mut pass.seat, &event) {
            Ok(done) => {
                self.add(&mut pass.seat, word);
                let (reply, place) = done;
                Ok(Some((event, reply, place)))
            }
            Err(refused) => {
                self.leave(&mut pass.seat, word);
                Err(refused)
            }
        }
    }

    /// The machine's note of the number `of` at this call's turn. It makes no entry.
    pub fn look<R: Wait>(&self, rt: &R, pass: &mut Pass<X>, of: u64) -> Result<X::Note, AllocError>
        requires own { IsOf self.now pass.old }
        ensures own { IsOf self.now pass.new }
        ensures ok { IfOk result (λ note. Looked (λ s front. note ≡ X.note_of s front of) (view_of pass.old) (view_of pass.new)) }
        ensures err { OnErr result (Looked (λ s front. Unit {0}) (view_of pass.old) (view_of pass.new)) }
    {
        let word = self.take(rt, &mut pass.seat);
        let note = self.note(&mut pass.seat, of);
        self.leave(&mut pass.seat, word);
        note
    }

    /// A new pass, which has seen what the other has, made no calls, and has a share of 1 of the other's.
    pub fn split(&self, pass: &mut Pass<X>) -> Pass<X>
        requires own { IsOf self.now pass.old }
        requires two { 2 ≤ (view_of pass.old).share }
        ensures own { IsOf self.now pass.new × IsOf self.now result }
        ensures kept { view_of pass.new ≡ kept_half (view_of pass.old) }
        ensures given { view_of result ≡ given_half (view_of pass.old) }
    {
        let seat = self.table.shared.split_seat::<Cut>(&mut pass.seat);
        pass.share -= 1;
        Ticket { seat, share: 1 }
    }

    /// Joins the other pass into this one, which has then seen what both saw, and keeps the calls and the shares of both.
    pub fn join(&self, pass: &mut Pass<X>, other: Pass<X>)
        requires own { IsOf self.now pass.old }
        requires other { IsOf self.now other }
        ensures own { IsOf self.now pass.new }
        ensures joined { Joined (view_of pass.old) (view_of other) (view_of pass.new) }
    {
        let share = other.share();
        self.table
            .shared
            .join_seat::<Glue>(&mut pass.seat, other.into_seat());
        let _word = self.table.shared.load::<Bound>(&mut pass.seat, 0);
        pass.share += share;
    }

    /// Takes the machine out. Refused exactly where the pass hasn't the whole share, which is where another pass is out or was dropped.
    pub fn close(self, pass: Pass<X>) -> Result<X, (Cell<X>, Pass<X>)>
        requires own { IsOf self pass }
        ensures whole { IsOk result ↔ IsWhole (view_of pass) }
        ensures ok { IfOk result (λ machine. Closed X.start X.journal (first_of self) (view_of pass) machine) }
        ensures err { IfErr result (λ r. (r.0 ≡ self) × (r.1 ≡ pass)) }
    {
        if pass.share != WHOLE {
            return Err((self, pass));
        }
        let Cell { table, .. } = self;
        let mut closed = table.close_with(pass.into_seat());
        let machine = closed.take(0);
        closed.free();
        Ok(machine)
    }
}
