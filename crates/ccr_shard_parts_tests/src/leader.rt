//! The rows of a leader.
use crate::calls::{comes_to, first_part, is_refused, is_told, number, stands, word};
use ccr_journal::{WriteRequest, Wrote};
use ccr_leader::{Leader, LeaderFault, Start};
use ccr_op::{Body, DocId};
use ccr_wire::Messages;
use std::alloc::{AllocError, Global};
use std::sync::ArcStr;
use uuid::Uuid;

/// Each table is of a leader of its own, whose first line says how many copies it has.
const TABLES: &str = r#"copies 1
write a {"x":1} | (0, 1, 1)
write a {"x":1} | (1, 1, 2)
create a {} | the document is there already, since operation 1
create b {} | (2, 1, 1)
write a [] | the source is no document
fail 0 | copy 0 is the only one
add | 1
add | 2
flush 0 | 3
merge 0 | (3, 1)
expire | 0
status | [(0, 3, 3, 3, 2), (1, 3, 3, 0, 3), (2, 3, 3, 0, 3)]

copies 2
write a {} | (0, 1, 1)
write b {} | (1, 1, 1)
replicate 1 1 | ()
replicate 1 2 | the primary has not processed 2
ack 1 | 0
ack 0 | copy 0 is the primary
sync 1 | 0
promote 1 | (2, 1)
promote 0 | copy 0 is not in the in-sync set

copies 2
write a {} | (0, 1, 1)
write b {} | (1, 1, 1)
replicate 1 0 | ()
ack 1 | 1
status | [(0, 2, 1, 0, 2), (1, 1, 0, 0, 1)]

copies 2
write a {} | (0, 1, 1)
fail 1 | 0
force 1 | (2, 0)
force 1 | copy 1 is not among those that left and are kept

copies 3
write a {} | (0, 1, 1)
replicate 1 0 | ()
promote 1 | (2, 0)
ack 2 | copy 2 is not resynced
resync 2 | (0, 1)
ack 2 | 1

copies 8
add | there are eight copies"#;

fn request(alloc: Global, line: &str) -> Option<WriteRequest> {
    let id = DocId::new(ArcStr::from_str(alloc, word(line, 1)).ok()?)?;
    let body = Body::new(ArcStr::from_str(alloc, word(line, 2)).ok()?);
    Some(WriteRequest {
        id,
        routing: None,
        body: Some(body),
        create: word(line, 0) == "create",
        expect: None,
    })
}

fn wrote(alloc: Global, outcome: Result<Wrote, LeaderFault>, line: &str) -> bool {
    match outcome {
        Ok(wrote) => is_told(alloc, &(wrote.seq, wrote.term, wrote.version), line),
        Err(fault) => is_refused(alloc, &fault, line),
    }
}

fn writes(alloc: Global, leader: &mut Leader, line: &str) -> bool {
    match request(alloc, line) {
        Some(request) => wrote(alloc, leader.write(&request), line),
        None => false,
    }
}

fn merges(alloc: Global, leader: &mut Leader, line: &str) -> bool {
    match first_part(alloc) {
        Ok(picks) => comes_to(alloc, leader.merge(number(line, 1), &picks), line),
        Err(_) => false,
    }
}

/// How many messages are sent.
fn sends(alloc: Global, outcome: Result<Messages, LeaderFault>, line: &str) -> bool {
    match outcome {
        Ok(sent) => is_told(alloc, &sent.as_slice().len(), line),
        Err(fault) => is_refused(alloc, &fault, line),
    }
}

/// How many leases expire.
fn expires(alloc: Global, leader: &mut Leader, line: &str) -> bool {
    match leader.expire() {
        Ok(list) => is_told(alloc, &list.as_slice().len(), line),
        Err(_) => false,
    }
}

fn is_right(alloc: Global, leader: &mut Leader, line: &str) -> bool {
    let first = number(line, 1);
    match word(line, 0) {
        "write" => writes(alloc, leader, line),
        "create" => writes(alloc, leader, line),
        "replicate" => comes_to(alloc, leader.replicate(first, number(line, 2)), line),
        "ack" => comes_to(alloc, leader.ack(first), line),
        "sync" => sends(alloc, leader.sync_copy(first), line),
        "promote" => comes_to(alloc, leader.promote(first), line),
        "force" => comes_to(alloc, leader.force_promote(first), line),
        "resync" => comes_to(alloc, leader.resync(first), line),
        "fail" => sends(alloc, leader.fail_copy(first), line),
        "add" => comes_to(alloc, leader.add_copy(), line),
        "flush" => comes_to(alloc, leader.flush(first), line),
        "merge" => merges(alloc, leader, line),
        "expire" => expires(alloc, leader, line),
        _ => stands(alloc, leader.statuses(), line),
    }
}

fn begin(alloc: Global, copies: u64) -> Result<Leader, AllocError> {
    let start = Start {
        copies: copies.clamp(1, 8) as u32,
        history: Uuid::from_bytes([0; 16]),
        period: 1000,
        retention: 0,
    };
    Leader::new(alloc, start)
}

/// The first line that comes to something else, empty where there is none.
fn first_wrong(alloc: Global, tables: &'static str) -> Result<&'static str, AllocError> {
    let mut leader = begin(alloc, 1)?;
    for line in tables.lines() {
        if word(line, 0) == "copies" {
            leader = begin(alloc, number(line, 1))?;
        } else if !line.is_empty() && !is_right(alloc, &mut leader, line) {
            return Ok(line);
        }
    }
    Ok("")
}

#[test]
fn calls_are_answered_as_the_rules_say(rt: HostRuntime) {
    assert_eq!(rt; first_wrong(rt.alloc(), TABLES), Ok(""));
}

#[test]
fn other_faults_are_printed(rt: HostRuntime) {
    let alloc = rt.alloc();
    let wait = LeaderFault::Wait { global: 3 };
    assert!(rt; is_refused(alloc, &wait, " | the poll waits beyond 3"));
    let gone = LeaderFault::NoPoll { at: 2 };
    assert!(rt; is_refused(alloc, &gone, " | no poll is parked at 2"));
    assert!(rt; is_refused(alloc, &LeaderFault::Memory, " | out of memory"));
}

#[test]
fn a_conflict_is_printed(rt: HostRuntime) {
    let other = LeaderFault::Conflict { last: None };
    let want = " | the document was written by another operation";
    assert!(rt; is_refused(rt.alloc(), &other, want));
}
