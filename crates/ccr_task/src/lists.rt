// The reads and the writes of a task, as lists in the order in which they were begun.
ghost use Rattle.std.specs.Prelude.{◌≡◌, ◌==◌, ◌&&◌, ◌≤◌, ◌<◌, ◌-◌, nat_lt, if◌then◌else◌, Some, None, IfSome, slice_get, filter, filter_map, find, map, length, option_copied, IfOk};
ghost use Rattle.std.specs.List.{position_from, list_any};
ghost use Rattle.std.specs.Option.{option_map};
ghost use Rattle.ccr_model.specs.Requests.{on_its_way, waiting, held_back, is_due, is_sent};
ghost use Rattle.ccr_model.specs.Settling.{time_of, least_of};
ghost use Rattle.ccr_model.specs.Tasks.{Read as Asked, Write as Outstanding, changed_read, changed_write, without_read, without_write, in_order_of_request, is_held, least_from, reads_after, rest_from};
ghost use Rattle.ccr_task.specs.Ordering.{earlier, place_after};

use crate::operations::count_below;
use crate::{Read, Write};
use ccr_op::{Count, Millis, Op};
use std::alloc::{AllocError, Global};

// ---- reads

/// The place of the read of this request number. Its end tells where to look for it: where that is so, the cost is that
/// of a search by halves.
pub(crate) fn place_of_read(reads: &[Read], request: u64, end: Count) -> Option<usize>
    requires { length (filter (λ (r : Asked). r.request == request) reads.now) ≤ 1 }
    ensures place { result ≡ position_from (λ (r : Asked). r.request == request) 0 reads.now }
    ensures within { IfSome result (λ place. place < length reads.now) }
{
    let place = place_of_end(reads, end);
    if place < reads.len() && reads[place].request() == request {
        return Some(place);
    }
    first_of_request(reads, request)
}

/// A place of a read with this end, among reads whose ends rise.
fn place_of_end(reads: &[Read], end: Count) -> usize {
    match reads.binary_search_by_key(&end, |read| read.to()) {
        Ok(place) => place,
        Err(place) => place,
    }
}

/// The place of the first read of this request number.
fn first_of_request(reads: &[Read], request: u64) -> Option<usize>
    ensures place { result ≡ position_from (λ (r : Asked). r.request == request) 0 reads.now }
    ensures within { IfSome result (λ place. place < length reads.now) }
{
    for (i, read) in reads.iter().enumerate() {
        if read.request() == request {
            return Some(i);
        }
    }
    None
}

/// The first number that these operations leave to be read, where one is left.
pub(crate) fn rest_of(read: &Read, ops: &[Op]) -> Option<Count>
    ensures { result ≡ (if nat_lt (rest_from read.now ops.now) read.now.to then Some (rest_from read.now ops.now) else None) }
{
    let from = read.from().saturating_add(count_below(ops, read.to()));
    if from < read.to() { Some(from) } else { None }
}

/// The reads that are held, in their order: there are so many. The cost goes with the place of the last one.
pub(crate) fn held_reads(
    alloc: Global,
    reads: &[Read],
    count: usize,
) -> Result<Vec<Read>, AllocError>
    requires { count ≡ length (filter is_held reads.now) }
    ensures { IfOk result (λ held. held.items ≡ filter is_held reads.now) }
{
    let mut held = Vec::new(alloc);
    for read in reads {
        if held.as_slice().len() == count {
            return Ok(held);
        }
        if !read.is_held() {
            continue;
        }
        held.push(read.copy())?;
    }
    Ok(held)
}

/// The place of the first read of a greater request number, or the end.
fn place_behind(reads: &[Read], request: u64) -> usize
    ensures value { result ≡ place_after request reads.now }
    ensures within { result ≤ length reads.now }
{
    let mut place = 0;
    for read in reads {
        if request < read.request() {
            return place;
        }
        place += 1;
    }
    place
}

/// The reads that are due, in ascending request number.
pub(crate) fn due_reads(alloc: Global, reads: &[Read], now: Millis) -> Result<Vec<Read>, AllocError>
    ensures { IfOk result (λ due. due.items ≡ in_order_of_request (filter (λ r. is_due now r.progress) reads.now)) }
{
    let mut due = Vec::new(alloc);
    for read in reads {
        if !read.is_due(now) {
            continue;
        }
        let place = place_behind(due.as_slice(), read.request());
        due.insert(place, read.copy())?;
    }
    Ok(due)
}

/// The least number that a read is for, and `next` where there is no read.
pub(crate) fn least_of_reads(reads: &[Read], next: Count) -> Count
    ensures { result ≡ least_from next reads.now }
{
    let Some(first) = reads.first() else {
        return next;
    };
    let mut least = first.from();
    for read in reads {
        least = least.min(read.from());
    }
    least
}

/// The least time until which a read waits, and that other time.
pub(crate) fn reads_wait_until(reads: &[Read], other: Option<Millis>) -> Option<Millis>
    ensures { result ≡ earlier (least_of (filter_map time_of (map (λ (r : Asked). r.progress) reads.now))) other }
{
    let mut least = other;
    for read in reads {
        least = earlier_of(least, read.waits_until());
    }
    least
}

/// The earlier of two times, of which any may be missing.
pub(crate) fn earlier_of(a: Option<Millis>, b: Option<Millis>) -> Option<Millis>
    ensures { result ≡ earlier a b }
{
    match (a, b) {
        (Some(a), Some(b)) => Some(a.min(b)),
        (Some(a), None) => Some(a),
        (None, b) => b,
    }
}

// ---- writes

/// The place of the first write of this number.
fn place_of_write(writes: &[Write], number: u64) -> Option<usize>
    ensures place { result ≡ position_from (λ (w : Outstanding). w.number == number) 0 writes.now }
    ensures within { IfSome result (λ place. place < length writes.now) }
{
    for (i, write) in writes.iter().enumerate() {
        if write.number() == number {
            return Some(i);
        }
    }
    None
}

/// The write of this number, where it was sent.
pub(crate) fn sent_write(writes: &[Write], number: u64) -> Option<&Write>
    ensures { option_copied result ≡ find (λ (w : Outstanding). (w.number == number) && is_sent w.progress) writes.now }
{
    for write in writes {
        if write.number() == number && write.is_sent() {
            return Some(write);
        }
    }
    None
}

/// The write of this number waits until a time.
pub(crate) fn delay_write(writes: &mut Vec<Write>, number: u64, until: Millis)
    ensures { writes.new.items ≡ changed_write number (λ own. record own { progress = waiting until }) writes.old.items }
{
    let Some(place) = place_of_write(writes.as_slice(), number) else {
        return;
    };
    writes[place].wait(until);
}

/// The write of this number is over.
pub(crate) fn end_write(writes: &mut Vec<Write>, number: u64)
    ensures { writes.new.items ≡ without_write number writes.old.items }
{
    let Some(place) = place_of_write(writes.as_slice(), number) else {
        return;
    };
    writes.remove(place);
}

/// The writes that are due are sent again.
pub(crate) fn send_due_writes(writes: &mut [Write], now: Millis)
    ensures { writes.new ≡ map {A = Outstanding} {B = Outstanding} (λ w. if is_due now w.progress then record w { progress = on_its_way } else w) writes.old }
{
    for i in 0..writes.len() {
        writes[i].send_if_due(now);
    }
}

/// The least time until which a write waits, and that other time.
pub(crate) fn writes_wait_until(writes: &[Write], other: Option<Millis>) -> Option<Millis>
    ensures { result ≡ earlier (least_of (filter_map time_of (map (λ (w : Outstanding). w.progress) writes.now))) other }
{
    let mut least = other;
    for write in writes {
        least = earlier_of(least, write.waits_until());
    }
    least
}
