ghost use Rattle.std.specs.Prelude.{◌≡◌, ◌↔◌, ◌==◌, ◌+◌, ◌<◌, ◌^◌, ◌&&◌, ◌++◌, ℕ, max, min, length, List, [], ◌∷◌, IfOk, OnOk, IsOk, IsTrue, IfErr, MatchOption, Ok, Err, Some, None, slice_get, option_copied, if◌then◌else◌, not, ◌||◌, nat_lt, nat_le, is_some, map, filter_map};
ghost use Rattle.std.specs.Option.{option_map};
ghost use Rattle.std.specs.List.{list_any};
ghost use Rattle.ccr_op.specs.Operation.{Operation};
ghost use Rattle.ccr_model.specs.Followers.{replicating};
ghost use Rattle.ccr_model.specs.Requests.{retry_time};
ghost use Rattle.ccr_model.specs.Settling.{least_of, time_of, waits_until};
ghost use Rattle.ccr_model.specs.TaskFacts.{IsSaturated};
ghost use Rattle.ccr_model.specs.Tasks.{Read as Asked, Write as Outstanding, after_reply, bytes_of, changed_read, changed_write, due_writes_sent, filled_if_active, has_budget, is_active, is_held, least_from, may_read, never_started, read_lost, read_sent, sent_reads, started, stopped, ticked, waits_after, write_ended, write_lost, write_sent};
ghost use Rattle.ccr_task.specs.Does.{Did};
ghost use Rattle.ccr_task.specs.Ordering.{earlier};
ghost use Rattle.ccr_task.specs.Takes.{Takes};
ghost use Rattle.ccr_task.specs.Ends.{EndsWrite};
ghost use Rattle.ccr_task.specs.Keeps.{EndsWell, HearsWell, LoadsWell, StartsWell, StaysWell};

use crate::filling::is_active;
use crate::lists::{delay_write, end_write, send_due_writes, sent_write, writes_wait_until};
use crate::operations::{kept, next_after};
use crate::reading::Reading;
use crate::{Read, Write};
use ccr_buffer::Buffer;
use ccr_journal::{Params, Phase};
use ccr_op::{Batch, Count, Millis, Op};
use ccr_wire::{Content, Message, Messages};
use std::alloc::{AllocError, Global};
use std::marker::Model;
use uuid::Uuid;

/// Why a task stopped.
#[derive(Clone, Copy, Debug)]
pub enum Stopped {
    /// The operations from `from` on are gone at the leader, which keeps them from `floor` on.
    Missing { from: Count, floor: Count },
    /// The leader has another history, which is this.
    HistoryChanged { found: Uuid },
    /// It was paused.
    Paused,
}

/// What a task made of a message.
#[derive(Debug, Drop)]
pub enum Taken {
    /// It kept what the message brought, and asks for more.
    Kept { asks: Messages },
    /// The message answers no read that was sent.
    Ignored,
    /// It reads no more.
    Stopped(Stopped),
}

/// Why a call on a task was refused.
#[derive(Clone, Copy, Debug, PartialEq, Eq)]
pub enum TaskFault {
    /// No request was sent at this place.
    NoRequest,
    /// No write of this number was sent.
    NoBatch,
    /// Memory ran out.
    Memory,
}

/// How much a task has under way.
#[derive(Clone, Copy, Debug, PartialEq, Eq)]
pub struct Load {
    /// Reads that are outstanding.
    pub reads: u64,
    /// Operations that were read and not yet written.
    pub buffer: u64,
    /// The bytes that these take.
    pub bytes: u64,
    /// Writes that are outstanding.
    pub writes: u64,
}

/// What a follower shard reads from its leader, what it has read, and the writes to its primary, in one epoch.
/// A task that ran out of memory is broken: each later call that can answer want of memory answers it.
#[derive(Drop)]
pub struct Task {
    pub(crate) params: Params,
    pub(crate) history: Uuid,
    pub(crate) follower: Uuid,
    pub(crate) phase: Phase,
    pub(crate) epoch: u64,
    pub(crate) retry: u64,
    pub(crate) next: Count,
    pub(crate) known: Count,
    pub(crate) reads: Reading,
    pub(crate) buffer: Buffer,
    pub(crate) next_write: u64,
    pub(crate) writes: Vec<Write>,
    pub(crate) broken: bool,
}

impl Model for Task {
    ghost use Rattle.ccr_model.specs.Tasks.{Task as Modelled};

    ghost Value = { Modelled };

    ghost view = { λ a. record {
      params = a.params;
      history = a.history;
      follower = a.follower;
      phase = a.phase;
      epoch = a.epoch;
      next_request = a.reads.next_request;
      retry = a.retry;
      next = a.next;
      known = a.known;
      reads = a.reads.reads;
      buffer = a.buffer;
      next_write = a.next_write;
      writes = a.writes.items;
    } };
}

impl Task {
    ghost use Rattle.ccr_journal.specs.declared.sides.Phase.TheVariants as phases;
    ghost use Rattle.ccr_task.specs.declared.task.TaskFault.TheVariants.{NoRequest, NoBatch};

    /// A task that reads from a count on, in an epoch. Its first request has the number `request`.
    pub fn start(
        alloc: Global,
        params: Params,
        count: Count,
        epoch: u64,
        history: Uuid,
        follower: Uuid,
        request: u64,
    ) -> Result<(Task, Messages), AllocError>
        ensures task { IfOk result (λ r. Did r.0 [] r.1 (started params count epoch history follower request)) }
        ensures well { IfOk result (λ r. StartsWell r.0 count epoch) }
    {
        let _ranges = params.values();
        let begun = Self::begin(alloc, params, count, epoch, history, follower, request)?;
        Ok(begun)
    }

    /// The task of a bootstrap that ended without one, as where the leader has another history by then: it never began
    /// an epoch, and it is stopped in this phase. Its next request has the given number.
    pub fn never_started(
        alloc: Global,
        params: Params,
        history: Uuid,
        follower: Uuid,
        request: u64,
        phase: Phase,
    ) -> Task
        ensures { result ≡ never_started params history follower request phase }
    {
        Task {
            params,
            history,
            follower,
            phase,
            epoch: 0,
            retry: 0,
            next: 0,
            known: 0,
            reads: Reading::new(alloc, request),
            buffer: Buffer::new(alloc),
            next_write: 0,
            writes: Vec::new(alloc),
            broken: false,
        }
    }

    /// The task that starts.
    fn begin(
        alloc: Global,
        params: Params,
        count: Count,
        epoch: u64,
        history: Uuid,
        follower: Uuid,
        request: u64,
    ) -> Result<(Task, Messages), AllocError>
        ensures { IfOk result (λ r. Did r.0 [] r.1 (started params count epoch history follower request)) }
    {
        let mut task = Task {
            params,
            history,
            follower,
            phase: Phase::Active,
            epoch,
            retry: 0,
            next: count,
            known: count,
            reads: Reading::new(alloc, request),
            buffer: Buffer::new(alloc),
            next_write: 0,
            writes: Vec::new(alloc),
            broken: false,
        };
        let mut sent = Messages::none(alloc);
        task.fill(alloc, &mut sent)?;
        Ok((task, sent))
    }

    /// A message comes. An answer to a read that was sent is taken; any other message is ignored. The cost goes with the
    /// operations that it brings and with what is sent, and but for a move of the reads behind one that ends, by no more
    /// than a logarithm with the reads.
    pub fn on_reply(&mut self, alloc: Global, reply: Message) -> Result<Taken, AllocError>
        ensures takes { IfOk result (λ taken. Takes self.old reply.content (read_sent self.old reply.request) taken self.new) }
        ensures well { OnOk result (HearsWell self.old reply.request reply.content self.new) }
    {
        let taken = self.hear(alloc, reply)?;
        Ok(taken)
    }

    /// What becomes of a message.
    fn hear(&mut self, alloc: Global, reply: Message) -> Result<Taken, AllocError>
        ensures { IfOk result (λ taken. Takes self.old reply.content (read_sent self.old reply.request) taken self.new) }
    {
        if self.is_broken() {
            return Err(AllocError);
        }
        let Some(read) = self.find_sent(reply.request()) else {
            return Ok(Taken::Ignored);
        };
        match reply.into_content() {
            Content::ReadReply { global, ops, .. } => {
                let asks = self.take(alloc, &read, global, ops.into_vec())?;
                Ok(Taken::Kept { asks })
            }
            Content::ReadMissing { from, floor } => {
                self.retry = 0;
                self.stop_in(Phase::Missing);
                Ok(Taken::Stopped(Stopped::Missing { from, floor }))
            }
            Content::ReadHistory { history } => {
                self.retry = 0;
                self.stop_in(Phase::History);
                Ok(Taken::Stopped(Stopped::HistoryChanged { found: history }))
            }
            _ => Ok(Taken::Ignored),
        }
    }

    /// The read that was sent under this request number.
    fn find_sent(&self, request: u64) -> Option<Read>
        ensures { result ≡ read_sent self.now request }
    {
        self.reads.find_sent(request)
    }

    /// Whether memory ran out before.
    fn is_broken(&self) -> bool {
        self.broken
    }

    /// From now on it is broken, until it is mended.
    fn break_off(&mut self)
        ensures { self.new ≡ self.old }
    {
        self.broken = true;
    }

    /// It is not broken any more.
    fn mend(&mut self)
        ensures { self.new ≡ self.old }
    {
        self.broken = false;
    }

    /// A reply to a read is kept, and more is asked for.
    fn take(
        &mut self,
        alloc: Global,
        read: &Read,
        global: Count,
        ops: Vec<Op>,
    ) -> Result<Messages, AllocError>
        ensures { IfOk result (λ asks. Did self.new [] asks (filled_if_active (after_reply self.old read.now global ops.items))) }
    {
        self.broken = true;
        self.keep(alloc, read, global, ops)?;
        let mut asks = Messages::none(alloc);
        self.fill_if_active(alloc, &mut asks)?;
        self.broken = false;
        Ok(asks)
    }

    /// What a reply to a read brings is kept.
    fn keep(
        &mut self,
        alloc: Global,
        read: &Read,
        global: Count,
        ops: Vec<Op>,
    ) -> Result<(), AllocError>
        ensures { OnOk result (self.new ≡ after_reply self.old read.now global ops.items) }
    {
        let is_last = self.next == read.to();
        let next = next_after(ops.as_slice(), self.next, is_last)?;
        self.reads.take(read, ops.as_slice());
        let kept = kept(alloc, ops, is_last, read.to())?;
        self.buffer.add_all(kept)?;
        self.retry = 0;
        self.known = self.known.max(global);
        self.next = next;
        Ok(())
    }

    /// Reads and buffer are dropped, outstanding writes stay.
    fn stop_in(&mut self, phase: Phase)
        ensures { self.new ≡ stopped phase self.old }
    {
        self.phase = phase;
        self.reads.clear();
        self.buffer.clear();
    }

    /// All copies have applied a write.
    pub fn on_written(&mut self, alloc: Global, write: u64) -> Result<Messages, TaskFault>
        ensures ends { EndsWrite self.old (write_sent self.old write) result self.new }
        ensures well { OnOk result (EndsWell self.old (write_sent self.old write) self.new) }
    {
        self.end_sent(alloc, write)
    }

    /// What becomes of a write that all copies have applied.
    fn end_sent(&mut self, alloc: Global, write: u64) -> Result<Messages, TaskFault>
        ensures { EndsWrite self.old (write_sent self.old write) result self.new }
    {
        if self.is_broken() {
            return Err(TaskFault::Memory);
        }
        if !self.has_sent(write) {
            return Err(TaskFault::NoBatch);
        }
        match self.end(alloc, write) {
            Ok(sent) => Ok(sent),
            Err(_) => Err(TaskFault::Memory),
        }
    }

    /// The write of this number is over, and what may be done then is done.
    fn end(&mut self, alloc: Global, write: u64) -> Result<Messages, AllocError>
        ensures { IfOk result (λ sent. (w : Outstanding) → w.number ≡ write → Did self.new [] sent (write_ended self.old w)) }
    {
        self.broken = true;
        self.retry = 0;
        end_write(&mut self.writes, write);
        let mut sent = Messages::none(alloc);
        self.fill_if_active(alloc, &mut sent)?;
        self.broken = false;
        Ok(sent)
    }

    /// The time until which what is lost now waits, after so many losses.
    fn delay_until(&self, now: Millis) -> Millis
        requires { 0 < self.now.retry }
        ensures { result ≡ retry_time self.now.params.max_retry_delay now self.now.retry }
    {
        let doubled = 50 * 2u64.pow((self.retry.min(24) - 1) as u32);
        now.saturating_add(doubled.min(self.params.values().max_retry_delay))
    }

    /// The read of this request number waits for a retry.
    fn lose_read(&mut self, request: u64, now: Millis)
        requires { self.old.retry + 1 < 2 ^ 64 }
        ensures { self.new ≡ record self.old { retry = self.old.retry + 1; reads = changed_read request (λ own. record own { progress = waits_after self.old now }) self.old.reads } }
    {
        self.retry += 1;
        let until = self.delay_until(now);
        self.reads.delay(request, until);
    }

    /// The write of this number waits for a retry.
    fn lose_write(&mut self, number: u64, now: Millis)
        requires { self.old.retry + 1 < 2 ^ 64 }
        ensures { self.new ≡ record self.old { retry = self.old.retry + 1; writes = changed_write number (λ own. record own { progress = waits_after self.old now }) self.old.writes } }
    {
        self.retry += 1;
        let until = self.delay_until(now);
        delay_write(&mut self.writes, number, until);
    }

    /// Whether a write of this number was sent.
    fn has_sent(&self, write: u64) -> bool
        ensures { result ≡ is_some (write_sent self.now write) }
    {
        sent_write(self.writes.as_slice(), write).is_some()
    }

    /// The request at this place among the sent ones, in ascending number, is lost and waits for a retry. It takes no
    /// memory. The cost is that of a search by halves, and of a move of the numbers behind it.
    pub fn lose(&mut self, at: usize, now: Millis) -> Result<(), TaskFault>
        requires room { self.old.retry + 1 < 2 ^ 64 }
        ensures { MatchOption (slice_get (sent_reads self.old) at)
            ((result ≡ Err NoRequest) × (self.new ≡ self.old))
            (λ r. IsOk result × (self.new ≡ read_lost self.old now r)) }
    {
        let Some(request) = self.sent_at(at) else {
            return Err(TaskFault::NoRequest);
        };
        self.lose_read(request, now);
        Ok(())
    }

    /// A write that was sent is lost and waits for a retry.
    pub fn on_lost_write(&mut self, write: u64, now: Millis) -> Result<(), TaskFault>
        requires room { self.old.retry + 1 < 2 ^ 64 }
        ensures { MatchOption (write_sent self.old write)
            ((result ≡ Err NoBatch) × (self.new ≡ self.old))
            (λ w. IsOk result × (self.new ≡ write_lost self.old now w)) }
    {
        if !self.has_sent(write) {
            return Err(TaskFault::NoBatch);
        }
        self.lose_write(write, now);
        Ok(())
    }

    /// What is due is sent again: reads while the buffer is below its bounds, and writes. Then an active task does
    /// all that it may do. The cost goes with how many reads and writes are outstanding, and with the square of how many
    /// reads are due at once.
    pub fn tick(&mut self, alloc: Global, now: Millis) -> Result<Messages, AllocError>
        ensures sends { IfOk result (λ sent. Did self.new [] sent (ticked now self.old)) }
        ensures well { OnOk result (StaysWell self.old self.new) }
    {
        let sent = self.retry_due(alloc, now)?;
        Ok(sent)
    }

    /// What is due is sent again, unless the task is broken.
    fn retry_due(&mut self, alloc: Global, now: Millis) -> Result<Messages, AllocError>
        ensures { IfOk result (λ sent. Did self.new [] sent (ticked now self.old)) }
    {
        if self.is_broken() {
            return Err(AllocError);
        }
        self.break_off();
        let mut sent = Messages::none(alloc);
        self.send_due(alloc, now, &mut sent)?;
        self.mend();
        Ok(sent)
    }

    /// What is due is sent again, and what may be done then is done.
    fn send_due(
        &mut self,
        alloc: Global,
        now: Millis,
        sent: &mut Messages,
    ) -> Result<(), AllocError>
        ensures { OnOk result (Did self.new sent.old sent.new (ticked now self.old)) }
    {
        self.send_due_reads(alloc, now, sent)?;
        self.send_due_writes(now);
        self.fill_if_active(alloc, sent)?;
        Ok(())
    }

    /// Writes that are due are sent again.
    fn send_due_writes(&mut self, now: Millis)
        ensures { self.new ≡ due_writes_sent now self.old }
    {
        send_due_writes(&mut self.writes, now);
    }

    /// It is paused: reads and buffer are dropped, outstanding writes stay.
    pub fn stop(&mut self)
        ensures { self.new ≡ stopped phases.Paused self.old }
    {
        self.stop_in(Phase::Paused);
    }

    /// Its follower follows no more.
    pub fn retire(&mut self)
        ensures { self.new ≡ record self.old { phase = phases.Unfollowed } }
    {
        self.phase = Phase::Unfollowed;
    }

    /// The next request number, for a request for a lease or the next epoch.
    pub fn draw(&mut self) -> u64
        requires room { self.old.next_request + 1 < 2 ^ 64 }
        ensures value { result ≡ self.old.next_request }
        ensures raised { self.new ≡ record self.old { next_request = self.old.next_request + 1 } }
    {
        self.reads.draw()
    }

    // ---- what it has

    /// A copy of the batch of a write that was sent. `None` where no write of that number was sent.
    pub fn batch(&self, alloc: Global, write: u64) -> Result<Option<Batch>, AllocError>
        ensures { IfOk result (λ batch. batch ≡ option_map (λ (w : Outstanding). w.batch) (write_sent self.now write)) }
    {
        if self.broken {
            return Err(AllocError);
        }
        match sent_write(self.writes.as_slice(), write) {
            Some(sent) => {
                let batch = sent.batch().copy(alloc)?;
                Ok(Some(batch))
            }
            None => Ok(None),
        }
    }

    /// The batch of a write that was sent.
    pub fn sent_batch(&self, write: u64) -> Option<&Batch>
        ensures { option_copied result ≡ option_map (λ (w : Outstanding). w.batch) (write_sent self.now write) }
    {
        match sent_write(self.writes.as_slice(), write) {
            Some(sent) => Some(sent.batch()),
            None => None,
        }
    }

    /// The least number that it asks for or will ask for. `None` where it reads no more. No scan is needed.
    pub fn least_asked(&self) -> Option<Count>
        ensures { result ≡ (if is_active self.now.phase then Some (least_from self.now.next self.now.reads) else None) }
    {
        if !is_active(self.phase) {
            return None;
        }
        Some(self.reads.least(self.next))
    }

    /// Whether nothing that may be done is left undone.
    pub fn saturated(&self) -> bool
        ensures { IsTrue result ↔ IsSaturated self.now }
    {
        if !self.writes_all() {
            return false;
        }
        if !self.sends_all() {
            return false;
        }
        self.reads_all()
    }

    /// The buffer is empty, or no more writes may be outstanding.
    fn writes_all(&self) -> bool
        ensures { result ≡ ((length self.now.buffer == 0) || nat_le self.now.params.max_outstanding_write_requests (length self.now.writes)) }
    {
        self.buffer.count() == 0
            || self.params.values().max_outstanding_write_requests <= self.writes.len() as u64
    }

    /// No read may be sent, or none is held.
    fn sends_all(&self) -> bool
        ensures { result ≡ (not (may_read self.now) || not (list_any is_held self.now.reads)) }
    {
        !self.may_read() || !self.reads.has_held()
    }

    /// No read may be begun, or what is known was asked for and a read is outstanding.
    fn reads_all(&self) -> bool
        ensures { result ≡ (not (has_budget self.now) || (nat_le self.now.known self.now.next && nat_lt 0 (length self.now.reads))) }
    {
        !self.has_budget() || (self.known <= self.next && !self.reads.is_empty())
    }

    /// How much it has under way.
    pub fn load(&self) -> Load
        ensures load { result ≡ record { reads = length self.now.reads; buffer = length self.now.buffer; bytes = bytes_of self.now.buffer; writes = length self.now.writes } }
        ensures well { LoadsWell self.now result }
    {
        self.measure()
    }

    /// What it has under way, as numbers.
    fn measure(&self) -> Load
        ensures { result ≡ record { reads = length self.now.reads; buffer = length self.now.buffer; bytes = bytes_of self.now.buffer; writes = length self.now.writes } }
    {
        Load {
            reads: self.reads.len() as u64,
            buffer: self.buffer.count(),
            bytes: self.buffer.bytes(),
            writes: self.writes.len() as u64,
        }
    }

    /// The request number at this place among the sent ones, in ascending order. It is an index.
    pub fn sent_at(&self, at: usize) -> Option<u64>
        ensures { result ≡ option_map (λ (r : Asked). r.request) (slice_get (sent_reads self.now) at) }
    {
        self.reads.sent_at(at)
    }

    /// The number at this place among the outstanding writes, in ascending order.
    pub fn write_at(&self, at: usize) -> Option<u64>
        ensures { result ≡ option_map (λ (w : Outstanding). w.number) (slice_get self.now.writes at) }
    {
        match self.writes.as_slice().get(at) {
            Some(write) => Some(write.number()),
            None => None,
        }
    }

    /// The least time until which something waits. Reads that may not be sent for the buffer's bounds don't count. The
    /// cost goes with how many writes are outstanding.
    pub fn waits_until(&self) -> Option<Millis>
        ensures { result ≡ waits_until (replicating self.now) }
    {
        let writes = self.writes_wait();
        if !self.may_read() {
            return writes;
        }
        self.reads_wait(writes)
    }

    /// The least time until which a write waits.
    fn writes_wait(&self) -> Option<Millis>
        ensures { result ≡ earlier (least_of (filter_map time_of (map (λ (w : Outstanding). w.progress) self.now.writes))) None }
    {
        writes_wait_until(self.writes.as_slice(), None)
    }

    /// The least time until which a read waits, and that other time.
    fn reads_wait(&self, other: Option<Millis>) -> Option<Millis>
        ensures { result ≡ earlier (least_of (filter_map time_of (map (λ (r : Asked). r.progress) self.now.reads))) other }
    {
        self.reads.wait_until(other)
    }

    /// The leader's history that it reads.
    pub fn history(&self) -> Uuid
        ensures { result ≡ self.now.history }
    {
        self.history
    }

    /// The follower that it reads for.
    pub fn follower(&self) -> Uuid
        ensures { result ≡ self.now.follower }
    {
        self.follower
    }

    /// Where it stands.
    pub fn phase(&self) -> Phase
        ensures { result ≡ self.now.phase }
    {
        self.phase
    }

    /// Its epoch.
    pub fn epoch(&self) -> u64
        ensures { result ≡ self.now.epoch }
    {
        self.epoch
    }

    /// The parameters by which it reads and writes.
    pub fn params(&self) -> &Params
        ensures { result.now ≡ self.now.params }
    {
        &self.params
    }

    /// How many losses there were since something was received or written.
    pub fn losses(&self) -> u64
        ensures { result ≡ self.now.retry }
    {
        self.retry
    }

    /// The number that the next request has.
    pub fn next_request(&self) -> u64
        ensures { result ≡ self.now.next_request }
    {
        self.reads.next_request()
    }
}
