//! The rows of a follower's engine.
use crate::calls::{comes_to, first_part, is_refused, is_told, number, stands, word};
use ccr_follower::{Follower, FollowerFault};
use ccr_op::{Batch, Op};
use std::alloc::{AllocError, Global};

/// Each table is of an engine of its own, whose first line says how many copies it has. The leader's retention is 1. A
/// write of an epoch has so many operations from a number on. Terms are the epoch and the term, and a status is the
/// number, the count, the global count, the floor and the held operations of each copy.
const TABLES: &str = r#"copies 2
terms | (0, 1)
status | [(0, 0, 0, 0, 0), (1, 0, 0, 0, 0)]
epoch 2 | true
apply 1 0 1 | the epoch is over, 2 is kept
apply 3 0 2 | 2
apply 2 1 2 | 1
terms | (2, 1)
status | [(0, 3, 0, 0, 3), (1, 0, 0, 0, 0)]
replicate 1 0 | ()
ack 1 | 1
status | [(0, 3, 1, 0, 3), (1, 1, 0, 0, 1)]
sync 1 | ()
status | [(0, 3, 1, 0, 3), (1, 1, 1, 0, 1)]
ack 0 | copy 0 is the primary
sync 2 | copy 2 is not in the in-sync set
replicate 1 3 | the primary has not processed 3
promote 1 | (2, 0)
status | [(1, 1, 1, 0, 1)]
terms | (2, 2)

copies 3
apply 0 0 2 | 2
replicate 1 0 | ()
replicate 2 1 | ()
promote 1 | (2, 0)
status | [(1, 1, 0, 0, 1), (2, 0, 0, 0, 1)]

copies 2
apply 0 0 1 | 1
fail 1 | ()
add | 2
status | [(0, 1, 1, 0, 1), (2, 1, 1, 0, 1)]

copies 1
apply 0 0 3 | 3
merge 0 | (0, 0)
flush 0 | 3
merge 0 | (2, 2)
status | [(0, 3, 3, 2, 1)]
fail 0 | copy 0 is the only one

copies 2
install 5 | true
status | [(0, 5, 5, 0, 0), (1, 5, 5, 0, 0)]

copies 8
add | there are eight copies"#;

fn no_ops(alloc: Global, from: u64, many: u64) -> Result<Batch, AllocError> {
    let mut ops = Vec::new(alloc);
    for i in 0..many {
        ops.push(Op::no_op(from.saturating_add(i), 1))?;
    }
    Ok(Batch::new(ops))
}

fn applies(alloc: Global, engine: &mut Follower, line: &str) -> bool {
    match no_ops(alloc, number(line, 2), number(line, 3)) {
        Ok(batch) => comes_to(alloc, engine.apply(number(line, 1), &batch), line),
        Err(_) => false,
    }
}

fn merges(alloc: Global, engine: &mut Follower, line: &str) -> bool {
    match first_part(alloc) {
        Ok(picks) => comes_to(alloc, engine.merge(number(line, 1), &picks), line),
        Err(_) => false,
    }
}

fn begins(engine: &mut Follower, epoch: u64) -> bool {
    engine.begin_epoch(epoch);
    engine.epoch() == epoch
}

fn is_right(alloc: Global, engine: &mut Follower, line: &str) -> bool {
    let first = number(line, 1);
    match word(line, 0) {
        "epoch" => is_told(alloc, &begins(engine, first), line),
        "install" => is_told(alloc, &engine.install(Vec::new(alloc), first).is_ok(), line),
        "apply" => applies(alloc, engine, line),
        "replicate" => comes_to(alloc, engine.replicate(first, number(line, 2)), line),
        "ack" => comes_to(alloc, engine.ack(first), line),
        "sync" => comes_to(alloc, engine.sync_copy(first), line),
        "promote" => comes_to(alloc, engine.promote(first), line),
        "fail" => comes_to(alloc, engine.fail_copy(first), line),
        "add" => comes_to(alloc, engine.add_copy(), line),
        "flush" => comes_to(alloc, engine.flush(first), line),
        "merge" => merges(alloc, engine, line),
        "terms" => is_told(alloc, &(engine.epoch(), engine.term()), line),
        _ => stands(alloc, engine.statuses(), line),
    }
}

/// The first line that comes to something else, empty where there is none.
fn first_wrong(alloc: Global, tables: &'static str) -> Result<&'static str, AllocError> {
    let mut engine = Follower::new(alloc, 1, 1)?;
    for line in tables.lines() {
        if word(line, 0) == "copies" {
            engine = Follower::new(alloc, number(line, 1).min(8) as u32, 1)?;
        } else if !line.is_empty() && !is_right(alloc, &mut engine, line) {
            return Ok(line);
        }
    }
    Ok("")
}

#[test]
fn the_engine_stands_as_the_rules_say(rt: HostRuntime) {
    assert_eq!(rt; first_wrong(rt.alloc(), TABLES), Ok(""));
}

#[test]
fn other_faults_are_printed(rt: HostRuntime) {
    let alloc = rt.alloc();
    assert!(rt; is_refused(alloc, &FollowerFault::Memory, " | out of memory"));
    let behind = FollowerFault::NotReady { copy: 2 };
    assert!(rt; is_refused(alloc, &behind, " | copy 2 is not resynced"));
}
