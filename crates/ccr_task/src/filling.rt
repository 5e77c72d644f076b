// What an active task does after each event that changed it: it writes what it may write, and reads what it may
// read.
ghost use Rattle.std.specs.Prelude.{◌≡◌, ◌&&◌, ◌∷◌, ◌++◌, nat_lt, [], OnOk, IfOk};
ghost use Rattle.ccr_wire.specs.Message.{Frame};
ghost use Rattle.ccr_wire.specs.declared.content.Content.TheVariants.{ReadRequest};
ghost use Rattle.ccr_model.specs.Tasks.{all_sent_again, due_reads_sent, fill, fill_held, fill_peek, fill_reads, fill_writes, filled_if_active, has_budget, is_active, may_read, next_read, read_frame, sent_again, with_batch, with_read};
ghost use Rattle.ccr_task.specs.Does.{Did};

use crate::{Read, Task, Write};
use ccr_journal::Phase;
use ccr_op::{Batch, Count, Millis};
use ccr_wire::{Content, Message, Messages};
use std::alloc::{AllocError, Global};

/// Whether the phase is that of a task that reads and writes.
pub(crate) fn is_active(phase: Phase) -> bool
    ensures { result ≡ is_active phase }
{
    matches!(phase, Phase::Active)
}

impl Task {
    /// A read may be sent: the buffer is below both its bounds.
    pub(crate) fn may_read(&self) -> bool
        ensures { result ≡ may_read self.now }
    {
        let params = self.params.values();
        self.buffer.count() < params.max_write_buffer_count
            && self.buffer.bytes() < params.max_write_buffer_size
    }

    /// One more read may be begun.
    pub(crate) fn has_budget(&self) -> bool
        ensures { result ≡ has_budget self.now }
    {
        let params = self.params.values();
        (self.reads.len() as u64) < params.max_outstanding_read_requests && self.may_read()
    }

    // ---- what is sent

    /// The request of a read under this number.
    fn request_of(&self, request: u64, from: Count, asked: u64) -> Message
        ensures { result ≡ record { follower = self.now.follower; request = request; content = ReadRequest self.now.history from asked self.now.params.max_read_request_size self.now.params.read_poll_timeout } }
    {
        let params = self.params.values();
        let content = Content::ReadRequest {
            history: self.history,
            from,
            max_ops: asked,
            max_bytes: params.max_read_request_size,
            timeout: params.read_poll_timeout,
        };
        Message::new(self.follower, request, content)
    }

    /// A read that is begun is sent under the next request number.
    fn begin_read(
        &mut self,
        from: Count,
        to: Count,
        asked: u64,
        sent: &mut Messages,
    ) -> Result<(), AllocError>
        ensures { OnOk result (Did self.new sent.old sent.new (with_read self.old from to asked)) }
    {
        let request = self.reads.next_request();
        sent.push(self.request_of(request, from, asked))?;
        self.reads.begin(from, to, asked)?;
        self.next = to;
        Ok(())
    }

    /// A read is sent again, under the next request number.
    fn send_again(&mut self, read: &Read, sent: &mut Messages) -> Result<(), AllocError>
        ensures { OnOk result (Did self.new sent.old sent.new (sent_again self.old read.now)) }
    {
        let request = self.reads.next_request();
        sent.push(self.request_of(request, read.from(), read.asked()))?;
        self.reads.send_again(read)?;
        Ok(())
    }

    /// Reads are sent again, one after the other.
    fn send_all_again(&mut self, reads: &[Read], sent: &mut Messages) -> Result<(), AllocError>
        ensures { OnOk result (Did self.new sent.old sent.new (all_sent_again reads.now self.old)) }
    {
        for read in reads {
            self.send_again(read, sent)?;
        }
        Ok(())
    }

    /// The reads that are due are sent again, while the buffer is below its bounds.
    pub(crate) fn send_due_reads(
        &mut self,
        alloc: Global,
        now: Millis,
        sent: &mut Messages,
    ) -> Result<(), AllocError>
        ensures { OnOk result (Did self.new sent.old sent.new (due_reads_sent now self.old)) }
    {
        if !self.may_read() {
            return Ok(());
        }
        let due = self.reads.due_reads(alloc, now)?;
        self.send_all_again(due.as_slice(), sent)?;
        self.reads.refresh();
        Ok(())
    }

    // ---- writes

    /// A batch of the least numbers of the buffer becomes the next write.
    fn begin_write(&mut self, alloc: Global) -> Result<(), AllocError>
        ensures { OnOk result (self.new ≡ with_batch self.old) }
    {
        let Some(next_write) = self.next_write.checked_add(1) else {
            return Err(AllocError);
        };
        let params = self.params.values();
        let batch = self.buffer.take_batch(
            alloc,
            params.max_write_request_operation_count,
            params.max_write_request_size,
        )?;
        self.writes
            .push(Write::new(self.next_write, Batch::new(batch)))?;
        self.next_write = next_write;
        Ok(())
    }

    /// While fewer writes are outstanding than may be, and the buffer has operations, a batch is taken.
    fn fill_writes(&mut self, alloc: Global) -> Result<(), AllocError>
        ensures { OnOk result (self.new ≡ fill_writes self.old) }
    {
        let most = self.params.values().max_outstanding_write_requests;
        let turns = most
            .saturating_sub(self.writes.len() as u64)
            .min(self.buffer.count());
        for turn in 0..turns {
            if self.buffer.count() == 0 {
                break;
            }
            self.begin_write(alloc)?;
        }
        Ok(())
    }

    // ---- reads

    /// Held reads are sent, while the buffer is below its bounds.
    fn fill_held(&mut self, alloc: Global, sent: &mut Messages) -> Result<(), AllocError>
        ensures { OnOk result (Did self.new sent.old sent.new (fill_held self.old)) }
    {
        if !self.may_read() {
            return Ok(());
        }
        let held = self.reads.held_reads(alloc)?;
        self.send_all_again(held.as_slice(), sent)
    }

    /// The next read up to what is known. It asks for the most where no read is outstanding.
    fn begin_next_read(&mut self, sent: &mut Messages) -> Result<(), AllocError>
        ensures { OnOk result (Did self.new sent.old sent.new (next_read self.old)) }
    {
        let most = self.params.values().max_read_request_operation_count;
        let from = self.next;
        let to = self.known.min(from.saturating_add(most));
        let asked = if self.reads.is_empty() {
            most
        } else {
            to.saturating_sub(from)
        };
        self.begin_read(from, to, asked, sent)
    }

    /// A read may be begun, and there is something to read.
    fn may_begin(&self) -> bool
        ensures { result ≡ (has_budget self.now && nat_lt self.now.next self.now.known) }
    {
        self.has_budget() && self.next < self.known
    }

    /// While a read may be begun and the next number is below what is known, the next read is.
    fn fill_reads(&mut self, sent: &mut Messages) -> Result<(), AllocError>
        ensures { OnOk result (Did self.new sent.old sent.new (fill_reads self.old)) }
    {
        let most = self.params.values().max_outstanding_read_requests;
        let turns = most
            .saturating_sub(self.reads.len() as u64)
            .min(self.known.saturating_sub(self.next));
        for turn in 0..turns {
            if !self.may_begin() {
                break;
            }
            self.begin_next_read(sent)?;
        }
        Ok(())
    }

    /// Where no read is outstanding and one may be begun, one peek is: a read for no number yet.
    fn fill_peek(&mut self, sent: &mut Messages) -> Result<(), AllocError>
        ensures { OnOk result (Did self.new sent.old sent.new (fill_peek self.old)) }
    {
        if !self.reads.is_empty() || !self.has_budget() {
            return Ok(());
        }
        let most = self.params.values().max_read_request_operation_count;
        let next = self.next;
        self.begin_read(next, next, most, sent)
    }

    /// All that may be done is done.
    pub(crate) fn fill(&mut self, alloc: Global, sent: &mut Messages) -> Result<(), AllocError>
        ensures { OnOk result (Did self.new sent.old sent.new (fill self.old)) }
    {
        self.fill_writes(alloc)?;
        self.fill_held(alloc, sent)?;
        self.fill_reads(sent)?;
        self.fill_peek(sent)
    }

    /// An active task is filled, another is left as it is.
    pub(crate) fn fill_if_active(
        &mut self,
        alloc: Global,
        sent: &mut Messages,
    ) -> Result<(), AllocError>
        ensures { OnOk result (Did self.new sent.old sent.new (filled_if_active self.old)) }
    {
        if !is_active(self.phase) {
            return Ok(());
        }
        self.fill(alloc, sent)
    }
}
