ghost use Rattle.std.specs.Prelude.{◌≡◌, ◌==◌, ◌+◌, ◌-◌, ◌<◌, ◌≤◌, ◌&&◌, ◌++◌, ◌∷◌, ◌^◌, [], ℕ, false, filter, find, length, set, remove, slice_get, get_or, if◌then◌else◌, IfOk, OnOk, OnErr, MatchOption, IfSome, filter_map, map, is_none};
ghost use Rattle.std.specs.List.{list_any};
ghost use Rattle.std.specs.Option.{option_map, option_map_or};
ghost use Rattle.ccr_model.specs.Requests.{on_its_way, waiting, held_back, is_due, is_sent};
ghost use Rattle.ccr_model.specs.Settling.{time_of, least_of};
ghost use Rattle.ccr_model.specs.Tasks.{Read as Asked, changed_read, in_order_of_request, is_held, least_from, reads_after, without_read};
ghost use Rattle.ccr_task.specs.Indexed.{AreRising, IsThere, IsUnlisted, begins_by, begins_from, fits_at, times};
ghost use Rattle.ccr_task.specs.Ordering.{earlier};

use crate::Read;
use crate::lists::{
    due_reads, earlier_of, held_reads, least_of_reads, place_of_read, reads_wait_until, rest_of,
};
use ccr_op::{Count, Millis, Op};
use std::alloc::{AllocError, Global};
use std::marker::Model;

/// The reads of a task in the order in which they were begun, and the number of its next request.
#[derive(Drop)]
pub(crate) struct Reading {
    next_request: u64,
    reads: Vec<Read>,
    /// The request numbers of the reads that were sent, in ascending order.
    sent: Vec<u64>,
    /// Of each of these the end of its read, which tells where to look for it.
    ends: Vec<Count>,
    /// How many reads are held.
    held: usize,
    /// Whether the reads are known to ascend by the first number that each is for.
    ascends: bool,
    /// Whether the earliest time until which a read waits is known.
    timed: bool,
    /// This time, where it is known.
    soonest: Option<Millis>,
}

impl Model for Reading {
    ghost use Rattle.ccr_task.specs.Reading.{Reading as Shown};
    ghost use Rattle.ccr_task.specs.Indexed.{IsKept};

    ghost Value = { Shown };

    ghost view = { λ a. record { next_request = a.next_request; reads = a.reads.items } };

    ghost invariant = { λ a. IsKept a.next_request a.reads.items a.sent.items a.held a.ascends a.timed a.soonest };
}

impl Reading {
    /// No read. The first request has this number.
    pub(crate) fn new(alloc: Global, request: u64) -> Self
        ensures { result ≡ record { next_request = request; reads = [] } }
    {
        Reading {
            next_request: request,
            reads: Vec::new(alloc),
            sent: Vec::new(alloc),
            ends: Vec::new(alloc),
            held: 0,
            ascends: true,
            timed: true,
            soonest: None,
        }
    }

    /// The number that the next request has.
    pub(crate) fn next_request(&self) -> u64
        ensures { result ≡ self.now.next_request }
    {
        self.next_request
    }

    /// How many reads are outstanding.
    pub(crate) fn len(&self) -> usize
        ensures { result ≡ length self.now.reads }
    {
        self.reads.len()
    }

    /// Whether no read is outstanding.
    pub(crate) fn is_empty(&self) -> bool
        ensures { result ≡ (length self.now.reads == 0) }
    {
        self.reads.is_empty()
    }

    /// The next request number, for something else than a read.
    pub(crate) fn draw(&mut self) -> u64
        requires { self.old.next_request + 1 < 2 ^ 64 }
        ensures value { result ≡ self.old.next_request }
        ensures raised { self.new ≡ record self.old { next_request = self.old.next_request + 1 } }
    {
        let request = self.next_request;
        self.next_request += 1;
        request
    }

    /// No read is left.
    pub(crate) fn clear(&mut self)
        ensures { self.new ≡ record self.old { reads = [] } }
    {
        self.reads.clear();
        self.sent.clear();
        self.ends.clear();
        self.held = 0;
        self.ascends = true;
        self.timed = true;
        self.soonest = None;
    }

    /// A read is begun, which is sent under the next request number.
    pub(crate) fn begin(&mut self, from: Count, to: Count, asked: u64) -> Result<(), AllocError>
        ensures { OnOk result (self.new ≡ record { next_request = self.old.next_request + 1; reads = self.old.reads ++ record { request = self.old.next_request; from = from; to = to; asked = asked; progress = on_its_way } ∷ [] }) }
    {
        let request = self.next_request;
        let Some(next_request) = request.checked_add(1) else {
            return Err(AllocError);
        };
        let read = Read::new(request, from, to, asked);
        let ascends = follows(self.reads.as_slice(), self.ascends, from);
        push_sent(&mut self.reads, &mut self.sent, &mut self.ends, read)?;
        self.next_request = next_request;
        self.ascends = ascends;
        Ok(())
    }

    /// The read of this one's request number is sent again, under the next one. The cost is that of a search by halves.
    pub(crate) fn send_again(&mut self, read: &Read) -> Result<(), AllocError>
        ensures { OnOk result (self.new ≡ record { next_request = self.old.next_request + 1; reads = changed_read read.now.request (λ own. record own { request = self.old.next_request; progress = on_its_way }) self.old.reads }) }
    {
        let request = self.next_request;
        let Some(next_request) = request.checked_add(1) else {
            return Err(AllocError);
        };
        let Some(place) = place_of_read(self.reads.as_slice(), read.request(), read.to()) else {
            self.next_request = next_request;
            return Ok(());
        };
        let mut own = self.reads[place].copy();
        list_sent(&mut self.sent, &mut self.ends, request, own.to())?;
        unlist(&mut self.sent, &mut self.ends, own.request());
        self.held = without(self.held, own.is_held());
        self.ascends = fits(self.reads.as_slice(), self.ascends, place, own.from());
        self.timed = still(self.timed, own.waits_until());
        own.send_again(request);
        self.reads[place] = own;
        self.next_request = next_request;
        Ok(())
    }

    /// The read of this request number waits until a time. It takes no memory. The cost is that of a search by halves.
    pub(crate) fn delay(&mut self, request: u64, until: Millis)
        ensures { self.new ≡ record self.old { reads = changed_read request (λ own. record own { progress = waiting until }) self.old.reads } }
    {
        let end = end_of(self.sent.as_slice(), self.ends.as_slice(), request);
        let Some(place) = place_of_read(self.reads.as_slice(), request, end) else {
            return;
        };
        let mut own = self.reads[place].copy();
        own.wait(until);
        self.put(place, own);
    }

    /// After these operations a read is held for what is left below its end, and ends where nothing is. It takes no
    /// memory. The cost is that of a search by halves, and of a move of the reads behind it where it ends.
    pub(crate) fn take(&mut self, read: &Read, ops: &[Op])
        ensures { self.new ≡ record self.old { reads = reads_after read.now ops.now self.old.reads } }
    {
        let Some(from) = rest_of(read, ops) else {
            self.end(read);
            return;
        };
        let asked = read.to().saturating_sub(from);
        self.hold(read, from, asked);
    }

    /// The read of this one's request number is held for what is left.
    fn hold(&mut self, read: &Read, from: Count, asked: u64)
        ensures { self.new ≡ record self.old { reads = changed_read read.now.request (λ own. record own { from = from; asked = asked; progress = held_back }) self.old.reads } }
    {
        let Some(place) = place_of_read(self.reads.as_slice(), read.request(), read.to()) else {
            return;
        };
        let mut own = self.reads[place].copy();
        own.hold(from, asked);
        self.put(place, own);
    }

    /// The read of this one's request number is over.
    fn end(&mut self, read: &Read)
        ensures { self.new ≡ record self.old { reads = without_read read.now.request self.old.reads } }
    {
        let Some(place) = place_of_read(self.reads.as_slice(), read.request(), read.to()) else {
            return;
        };
        self.cut(place);
    }

    /// The read at a place is over.
    fn cut(&mut self, place: usize)
        requires { place < length self.old.reads }
        ensures { self.new ≡ record self.old { reads = remove self.old.reads place } }
    {
        let own = self.reads.remove(place);
        unlist(&mut self.sent, &mut self.ends, own.request());
        self.held = without(self.held, own.is_held());
        self.timed = still(self.timed, own.waits_until());
    }

    /// The read at a place becomes this one, of the same number, which is not sent.
    fn put(&mut self, place: usize, read: Read)
        requires within { place < length self.old.reads }
        requires same { read.request ≡ (get_or self.old.reads place read).request }
        requires unsent { is_sent read.progress ≡ false }
        ensures { self.new ≡ record self.old { reads = set self.old.reads place read } }
    {
        let own = self.reads[place].copy();
        unlist(&mut self.sent, &mut self.ends, read.request());
        let others = without(self.held, own.is_held());
        self.held = with(others, read.is_held(), self.reads.as_slice().len());
        self.ascends = fits(self.reads.as_slice(), self.ascends, place, read.from());
        self.timed = still(self.timed, own.waits_until());
        self.soonest = earlier_of(self.soonest, read.waits_until());
        self.reads[place] = read;
    }

    /// The read that was sent under this request number. The cost is that of a search by halves.
    pub(crate) fn find_sent(&self, request: u64) -> Option<Read>
        ensures { result ≡ find (λ (r : Asked). (r.request == request) && is_sent r.progress) self.now.reads }
    {
        let at = place_in(self.sent.as_slice(), request)?;
        let end = end_at(self.ends.as_slice(), at);
        let place = place_of_read(self.reads.as_slice(), request, end)?;
        let read = &self.reads[place];
        if !read.is_sent() {
            return None;
        }
        Some(read.copy())
    }

    /// The request number at this place among those of the sent reads, in ascending order.
    pub(crate) fn sent_at(&self, at: usize) -> Option<u64>
        ensures { result ≡ option_map (λ (r : Asked). r.request) (slice_get (in_order_of_request (filter (λ (r : Asked). is_sent r.progress) self.now.reads)) at) }
    {
        number_at(self.sent.as_slice(), at)
    }

    /// Whether a read is held.
    pub(crate) fn has_held(&self) -> bool
        ensures { result ≡ list_any is_held self.now.reads }
    {
        self.held > 0
    }

    /// The reads that are held, in their order. The cost goes with the place of the last one.
    pub(crate) fn held_reads(&self, alloc: Global) -> Result<Vec<Read>, AllocError>
        ensures { IfOk result (λ held. held.items ≡ filter is_held self.now.reads) }
    {
        held_reads(alloc, self.reads.as_slice(), self.held)
    }

    /// The reads that are due, in ascending request number. The cost goes with how many reads there are.
    pub(crate) fn due_reads(&self, alloc: Global, now: Millis) -> Result<Vec<Read>, AllocError>
        ensures { IfOk result (λ due. due.items ≡ in_order_of_request (filter (λ r. is_due now r.progress) self.now.reads)) }
    {
        due_reads(alloc, self.reads.as_slice(), now)
    }

    /// The least number that a read is for, and `next` where there is no read. Where the reads are known to ascend, the
    /// first one tells it; a task's reads do.
    pub(crate) fn least(&self, next: Count) -> Count
        ensures { result ≡ least_from next self.now.reads }
    {
        if self.ascends {
            return first_from(self.reads.as_slice(), next);
        }
        least_of_reads(self.reads.as_slice(), next)
    }

    /// The least time until which a read waits, and that other time. The cost goes with how many reads there are where
    /// one that waited was sent again since `refresh`, and else it is none.
    pub(crate) fn wait_until(&self, other: Option<Millis>) -> Option<Millis>
        ensures { result ≡ earlier (least_of (filter_map time_of (map (λ (r : Asked). r.progress) self.now.reads))) other }
    {
        if self.timed {
            return earlier_of(self.soonest, other);
        }
        reads_wait_until(self.reads.as_slice(), other)
    }

    /// From now on the earliest time until which a read waits is known. The cost goes with how many reads there are
    /// where it was not.
    pub(crate) fn refresh(&mut self)
        ensures { self.new ≡ self.old }
    {
        if self.timed {
            return;
        }
        self.soonest = reads_wait_until(self.reads.as_slice(), None);
        self.timed = true;
    }
}

/// Whether a read at a place is from no more than this number on.
fn begins_by(reads: &[Read], at: usize, from: Count) -> bool
    ensures { result ≡ begins_by from (slice_get reads.now at) }
{
    match reads.get(at) {
        Some(read) => read.from() <= from,
        None => true,
    }
}

/// Whether a read at a place is from no less than this number on.
fn begins_from(reads: &[Read], at: usize, from: Count) -> bool
    ensures { result ≡ begins_from from (slice_get reads.now at) }
{
    match reads.get(at) {
        Some(read) => from <= read.from(),
        None => true,
    }
}

/// Whether the reads are known to ascend with a last one from this number on.
fn follows(reads: &[Read], ascends: bool, from: Count) -> bool
    ensures { result ≡ (ascends && begins_by from (slice_get reads.now (length reads.now - 1))) }
{
    ascends && begins_by(reads, reads.len().saturating_sub(1), from)
}

/// Whether the reads are known to ascend with the one at a place from this number on.
fn fits(reads: &[Read], ascends: bool, place: usize, from: Count) -> bool
    requires { place < length reads.now }
    ensures { result ≡ (ascends && fits_at reads.now place from) }
{
    ascends && is_between(reads, place, from)
}

/// Whether this number is no less than what the read at a place is from, and no more than what the next one is.
fn is_between(reads: &[Read], place: usize, from: Count) -> bool
    requires { place < length reads.now }
    ensures { result ≡ fits_at reads.now place from }
{
    begins_by(reads, place, from) && begins_from(reads, place + 1, from)
}

/// Whether the earliest time stays known without a read.
fn still(timed: bool, waits: Option<Millis>) -> bool
    ensures { result ≡ (timed && is_none waits) }
{
    timed && waits.is_none()
}

/// The first number that the first read is for.
fn first_from(reads: &[Read], next: Count) -> Count
    ensures { result ≡ option_map_or (λ (r : Asked). r.from) (slice_get reads.now 0) next }
{
    match reads.get(0) {
        Some(read) => read.from(),
        None => next,
    }
}

/// How many are left without one, if there is one.
fn without(count: usize, one: bool) -> usize
    requires { (if one then 1 else 0) ≤ count }
    ensures { result + (if one then 1 else 0) ≡ count }
{
    if one { count - 1 } else { count }
}

/// How many there are with one more, if there is one, of so many.
fn with(count: usize, one: bool, all: usize) -> usize
    requires { count + (if one then 1 else 0) ≤ all }
    ensures { result ≡ count + (if one then 1 else 0) }
{
    if one { count + 1 } else { count }
}

/// The place of a number among those that rise.
fn place_in(numbers: &[u64], number: u64) -> Option<usize>
    ensures value { (high : ℕ) → AreRising 0 numbers.now high → MatchOption result (times number numbers.now ≡ 0) (IsThere number numbers.now) }
    ensures within { IfSome result (λ at. at < length numbers.now) }
{
    numbers.binary_search(&number).ok()
}

/// The number at a place.
fn number_at(numbers: &[u64], at: usize) -> Option<u64>
    ensures { result ≡ slice_get numbers.now at }
{
    match numbers.get(at) {
        Some(number) => Some(*number),
        None => None,
    }
}

/// The end at a place, and any where there is none.
fn end_at(ends: &[Count], at: usize) -> Count {
    match ends.get(at) {
        Some(end) => *end,
        None => 0,
    }
}

/// Where the read that was sent under this request number is to be looked for, by its end.
fn end_of(sent: &[u64], ends: &[Count], request: u64) -> Count {
    let Ok(at) = sent.binary_search(&request) else {
        return 0;
    };
    end_at(ends, at)
}

/// A sent read becomes the last one. After want of memory the reads and the numbers are as before.
fn push_sent(
    reads: &mut Vec<Read>,
    sent: &mut Vec<u64>,
    ends: &mut Vec<Count>,
    read: Read,
) -> Result<(), AllocError>
    ensures ok_reads { OnOk result (reads.new.items ≡ reads.old.items ++ read ∷ []) }
    ensures ok_sent { OnOk result (sent.new.items ≡ sent.old.items ++ read.request ∷ []) }
    ensures err_reads { OnErr result (reads.new.items ≡ reads.old.items) }
    ensures err_sent { OnErr result (sent.new.items ≡ sent.old.items) }
{
    list_sent(sent, ends, read.request(), read.to())?;
    if reads.push(read).is_err() {
        let _ = sent.pop();
        let _ = ends.pop();
        return Err(AllocError);
    }
    Ok(())
}

/// A number that is greater than all that are listed is listed, with the end of its read. After want of memory the
/// numbers are as before.
fn list_sent(
    sent: &mut Vec<u64>,
    ends: &mut Vec<Count>,
    request: u64,
    end: Count,
) -> Result<(), AllocError>
    ensures ok { OnOk result (sent.new.items ≡ sent.old.items ++ request ∷ []) }
    ensures err { OnErr result (sent.new.items ≡ sent.old.items) }
{
    ends.push(end)?;
    sent.push(request)?;
    Ok(())
}

/// A number is listed no more. It takes no memory.
fn unlist(sent: &mut Vec<u64>, ends: &mut Vec<Count>, request: u64)
    ensures { (high : ℕ) → AreRising 0 sent.old.items high → IsUnlisted request sent.old.items sent.new.items high }
{
    let Some(at) = place_in(sent.as_slice(), request) else {
        return;
    };
    sent.remove(at);
    if at < ends.len() {
        ends.remove(at);
    }
}
