//! A task and its messages.
use crate::calls::{is_told, number, word};
use ccr_journal::{ParamValues, Params};
use ccr_task::{Taken, Task, TaskFault};
use ccr_wire::{Content, Message, Messages, decode};
use std::alloc::Global;
use uuid::Uuid;

/// A buffer of one operation at most, two reads of three operations, and one write of one operation.
const NARROW: ParamValues = ParamValues {
    max_read_request_operation_count: 3,
    max_read_request_size: 1000,
    max_outstanding_read_requests: 2,
    max_write_request_operation_count: 1,
    max_write_request_size: 1000,
    max_outstanding_write_requests: 1,
    max_write_buffer_count: 1,
    max_write_buffer_size: 1000,
    max_retry_delay: 500,
    read_poll_timeout: 60_000,
    chunk_size: 16,
};

/// Each table is of a task of its own: a blank line ends it. `reply REQUEST FROM HOW_MANY COUNT` brings no-ops. Where
/// something is sent, `REQUEST FROM MOST` of each read is told. A load has reads, buffered operations and writes: the
/// six that are buffered at once are 1 - 1 + 2 * 3. A reply of fewer operations than were asked for leaves the rest to its
/// read: of the three from 3 on, one comes, and two are asked for.
const TABLES: &str = r#"sent 0 | Some(0)
reply 0 0 3 10 | []
load | (0, 2, 1)
reply 0 0 3 10 | ignored
written 0 | []
batch 1 | Some(1)
written 1 | [(1, 3, 3), (2, 6, 3)]
written 1 | no batch
reply 1 3 3 10 | []
reply 2 6 3 10 | []
load | (0, 6, 1)
saturated | true

lose 1 1000 | no request
lose 0 1000 | lost
waits | Some(1050)
tick 1049 | []
tick 1050 | [(1, 0, 3)]
lose 0 1050 | lost
waits | Some(1150)
tick 1150 | [(2, 0, 3)]
reply 2 0 1 1 | [(3, 1, 3)]
lose_write 1 2000 | no batch
lose_write 0 2000 | lost
waits | Some(2050)
batch 0 | None
tick 2050 | []
batch 0 | Some(1)
stop | Paused
reply 3 1 1 6 | ignored

reply 0 0 0 6 | [(1, 0, 3), (2, 3, 3)]
sent 1 | Some(2)
reply 2 3 1 6 | [(3, 4, 2)]
least | Some(0)
write 0 | Some(0)
load | (2, 0, 1)
stop | Paused
load | (0, 0, 1)
least | None
reply 3 4 1 6 | ignored
next | 4"#;

fn begin(alloc: Global) -> Option<Task> {
    let params = Params::new(NARROW)?;
    let leader = Uuid::from_bytes([7; 16]);
    let follower = Uuid::from_bytes([9; 16]);
    let (task, _asks) = Task::start(alloc, params, 0, 1, leader, follower, 0).ok()?;
    Some(task)
}

fn add_number(bytes: &mut Vec<u8>, number: u64) -> bool {
    bytes.extend_from_slice(&number.to_be_bytes()).is_ok()
}

fn add_no_op(bytes: &mut Vec<u8>, number: u64) -> bool {
    bytes.push(3).is_ok() && add_number(bytes, number) && add_number(bytes, 1)
}

/// The bytes of a frame before its operations: its kind, the follower, the request, and then the first number, the
/// leader's count, and how many operations.
fn add_head(bytes: &mut Vec<u8>, line: &str, many: u64) -> bool {
    bytes.push(2).is_ok()
        && bytes.extend_from_slice(&[9; 16]).is_ok()
        && add_number(bytes, number(line, 1))
        && add_number(bytes, number(line, 2))
        && add_number(bytes, number(line, 4))
        && bytes
            .extend_from_slice(&[0, 0, 0, many.min(9) as u8])
            .is_ok()
}

/// A reply to a read.
fn reply(alloc: Global, line: &str) -> Option<Message> {
    let many = number(line, 3).min(9);
    let from = number(line, 2);
    let mut bytes = Vec::new(alloc);
    let mut is_whole = add_head(&mut bytes, line, many);
    for i in 0..many {
        is_whole &= add_no_op(&mut bytes, from.saturating_add(i));
    }
    if !is_whole {
        return None;
    }
    decode(alloc, bytes.as_slice()).ok()
}

/// The number, the first operation and the most operations of a read request.
fn read(message: &Message) -> Option<(u64, u64, u64)> {
    match message.content() {
        Content::ReadRequest { from, max_ops, .. } => Some((message.request(), *from, *max_ops)),
        _ => None,
    }
}

fn is_sent(alloc: Global, messages: &Messages, line: &str) -> bool {
    let mut list = Vec::new(alloc);
    for message in messages.as_slice() {
        if let Some(one) = read(message) {
            if list.push(one).is_err() {
                return false;
            }
        }
    }
    is_told(alloc, &list.as_slice(), line)
}

fn is_word(line: &str, told: &str) -> bool {
    match line.split_once(" | ") {
        Some((_, want)) => want == told,
        None => false,
    }
}

fn takes(alloc: Global, task: &mut Task, line: &str) -> bool {
    let Some(message) = reply(alloc, line) else {
        return false;
    };
    match task.on_reply(alloc, message) {
        Ok(Taken::Kept { asks }) => is_sent(alloc, &asks, line),
        Ok(Taken::Ignored) => is_word(line, "ignored"),
        _ => false,
    }
}

/// What is asked for after a write ended.
fn ends(alloc: Global, task: &mut Task, line: &str) -> bool {
    match task.on_written(alloc, number(line, 1)) {
        Ok(sent) => is_sent(alloc, &sent, line),
        Err(TaskFault::NoBatch) => is_word(line, "no batch"),
        Err(_) => false,
    }
}

fn ticks(alloc: Global, task: &mut Task, line: &str) -> bool {
    match task.tick(alloc, number(line, 1)) {
        Ok(sent) => is_sent(alloc, &sent, line),
        Err(_) => false,
    }
}

fn is_lost(lost: Result<(), TaskFault>, line: &str) -> bool {
    match lost {
        Ok(()) => is_word(line, "lost"),
        Err(TaskFault::NoRequest) => is_word(line, "no request"),
        Err(TaskFault::NoBatch) => is_word(line, "no batch"),
        Err(_) => false,
    }
}

fn loses(task: &mut Task, line: &str) -> bool {
    if task.losses() > 100 {
        return false;
    }
    is_lost(task.lose(number(line, 1) as usize, number(line, 2)), line)
}

fn loses_write(task: &mut Task, line: &str) -> bool {
    if task.losses() > 100 {
        return false;
    }
    is_lost(task.on_lost_write(number(line, 1), number(line, 2)), line)
}

/// How many operations the batch of a write that was sent has.
fn batch(alloc: Global, task: &Task, write: u64) -> Option<usize> {
    let batch = task.batch(alloc, write).ok()??;
    Some(batch.as_slice().len())
}

fn load(task: &Task) -> (u64, u64, u64) {
    let load = task.load();
    (load.reads, load.buffer, load.writes)
}

fn stops(alloc: Global, task: &mut Task, line: &str) -> bool {
    task.stop();
    is_told(alloc, &task.phase(), line)
}

fn is_right(alloc: Global, task: &mut Task, line: &str) -> bool {
    match word(line, 0) {
        "reply" => takes(alloc, task, line),
        "written" => ends(alloc, task, line),
        "tick" => ticks(alloc, task, line),
        "lose" => loses(task, line),
        "lose_write" => loses_write(task, line),
        "batch" => is_told(alloc, &batch(alloc, task, number(line, 1)), line),
        "load" => is_told(alloc, &load(task), line),
        "saturated" => is_told(alloc, &task.saturated(), line),
        "waits" => is_told(alloc, &task.waits_until(), line),
        "sent" => is_told(alloc, &task.sent_at(number(line, 1) as usize), line),
        "write" => is_told(alloc, &task.write_at(number(line, 1) as usize), line),
        "least" => is_told(alloc, &task.least_asked(), line),
        "next" => is_told(alloc, &task.next_request(), line),
        _ => stops(alloc, task, line),
    }
}

/// The first line that comes to something else, empty where there is none.
fn first_wrong(alloc: Global, tables: &'static str) -> Option<&'static str> {
    let mut task = begin(alloc)?;
    for line in tables.lines() {
        if line.is_empty() {
            task = begin(alloc)?;
        } else if !is_right(alloc, &mut task, line) {
            return Some(line);
        }
    }
    Some("")
}

#[test]
fn a_task_reads_and_writes_within_its_bounds(rt: HostRuntime) {
    assert_eq!(rt; first_wrong(rt.alloc(), TABLES), Some(""));
}
