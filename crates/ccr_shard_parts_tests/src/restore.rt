//! A bootstrap, message by message.
use crate::calls::{is_refused, is_told, number, word};
use ccr_op::LeaseId;
use ccr_restore::{Restore, RestoreFault};
use ccr_wire::{Message, decode};
use std::alloc::Global;
use std::sync::ArcStr;
use uuid::Uuid;

/// Each table is of a bootstrap of its own, which asks for four bytes at once, waits 120 milliseconds at most, and is of
/// the history of sixteen bytes 9: a blank line ends it. Behind a message stands what was heard and how many messages
/// are sent. `added REQUEST` answers that the lease is added, `exists REQUEST` that it is there. `opened REQUEST HISTORY`
/// has one file of nine bytes, so that three parts are asked for, and `part REQUEST` has one byte. What is lost waits 50
/// milliseconds, then 100, and then the most.
const TABLES: &str = r#"added 0 | (Done, 1)
phase | Opening
opened 1 9 | (Done, 3)
sent 2 | Some(4)
part 4 | (Done, 0)
part 2 | (Done, 0)
part 2 | (Ignored, 0)
complete | false
part 3 | (Done, 0)
complete | true
next | 5

sent 0 | Some(0)
lose 0 1000 | true
lose 0 1000 | false
waits | Some(1050)
tick 1049 | Some(0)
tick 1050 | Some(1)
sent 0 | Some(1)
lose 0 1050 | true
waits | Some(1150)
tick 1149 | Some(0)
tick 1150 | Some(1)
lose 0 1150 | true
waits | Some(1270)
tick 1269 | Some(0)
tick 1270 | Some(1)
exists 3 | (Done, 1)
opened 4 8 | (StoppedHistory, 0)"#;

fn begin(alloc: Global) -> Option<Restore> {
    let lease = LeaseId::new(ArcStr::from_str(alloc, "f").ok()?)?;
    let follower = Uuid::from_bytes([7; 16]);
    let history = Uuid::from_bytes([9; 16]);
    let (restore, _first) = Restore::start(alloc, lease, follower, history, 4, 120).ok()?;
    Some(restore)
}

/// The byte of a kind, and the follower.
fn add_head(bytes: &mut Vec<u8>, kind: u8, request: u64) -> bool {
    bytes.push(kind).is_ok()
        && bytes.extend_from_slice(&[7; 16]).is_ok()
        && bytes.extend_from_slice(&request.to_be_bytes()).is_ok()
}

/// What follows the head of a frame: the number of a lease; a result and the number; a session, its history and count,
/// how many files and their sizes; or a session, a file, an offset, how many bytes, and these.
fn add_rest(bytes: &mut Vec<u8>, line: &str) -> bool {
    let history = number(line, 2).min(255) as u8;
    match word(line, 0) {
        "added" => bytes.extend_from_slice(&[0; 8]).is_ok(),
        "exists" => bytes
            .extend_from_slice(&[1, 0, 0, 0, 0, 0, 0, 0, 3])
            .is_ok(),
        "opened" => {
            bytes.extend_from_slice(&[0; 8]).is_ok()
                && bytes.extend_from_slice(&[history; 16]).is_ok()
                && bytes.extend_from_slice(&[0; 8]).is_ok()
                && bytes
                    .extend_from_slice(&[0, 0, 0, 1, 0, 0, 0, 0, 0, 0, 0, 9])
                    .is_ok()
        }
        _ => {
            bytes.extend_from_slice(&[0; 20]).is_ok()
                && bytes.extend_from_slice(&[0, 0, 0, 1, 5]).is_ok()
        }
    }
}

fn kind(name: &str) -> u8 {
    match name {
        "added" => 6,
        "exists" => 9,
        "opened" => 11,
        _ => 13,
    }
}

fn message(alloc: Global, line: &str) -> Option<Message> {
    let mut bytes = Vec::new(alloc);
    if !add_head(&mut bytes, kind(word(line, 0)), number(line, 1)) {
        return None;
    }
    if !add_rest(&mut bytes, line) {
        return None;
    }
    decode(alloc, bytes.as_slice()).ok()
}

fn hears(alloc: Global, restore: &mut Restore, line: &str) -> bool {
    let Some(message) = message(alloc, line) else {
        return false;
    };
    match restore.on_message(message, 0) {
        Ok((heard, sent)) => is_told(alloc, &(heard, sent.as_slice().len()), line),
        Err(_) => false,
    }
}

/// How many messages are sent again.
fn ticked(restore: &mut Restore, now: u64) -> Option<usize> {
    let sent = restore.tick(now).ok()?;
    Some(sent.as_slice().len())
}

fn is_right(alloc: Global, restore: &mut Restore, line: &str) -> bool {
    let first = number(line, 1);
    match word(line, 0) {
        "sent" => is_told(alloc, &restore.sent_at(first), line),
        "lose" => is_told(alloc, &restore.lose(first, number(line, 2)).is_ok(), line),
        "waits" => is_told(alloc, &restore.waits_until(), line),
        "tick" => is_told(alloc, &ticked(restore, first), line),
        "phase" => is_told(alloc, &restore.phase(), line),
        "complete" => is_told(alloc, &restore.complete(), line),
        "next" => is_told(alloc, &restore.next_request(), line),
        _ => hears(alloc, restore, line),
    }
}

/// The first line that comes to something else, empty where there is none.
fn first_wrong(alloc: Global, tables: &'static str) -> Option<&'static str> {
    let mut restore = begin(alloc)?;
    for line in tables.lines() {
        if line.is_empty() {
            restore = begin(alloc)?;
        } else if !is_right(alloc, &mut restore, line) {
            return Some(line);
        }
    }
    Some("")
}

#[test]
fn messages_are_heard_and_lost(rt: HostRuntime) {
    assert_eq!(rt; first_wrong(rt.alloc(), TABLES), Some(""));
}

#[test]
fn faults_are_printed(rt: HostRuntime) {
    let alloc = rt.alloc();
    let none = RestoreFault::NoRequest { at: 2 };
    assert!(rt; is_refused(alloc, &none, " | no request was sent at place 2"));
    assert!(rt; is_refused(alloc, &RestoreFault::Memory, " | out of memory"));
}
