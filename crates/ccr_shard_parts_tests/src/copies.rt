//! The rows of an in-sync set.
use crate::calls::{comes_to, first_part, is_refused, is_told, number, stands, word};
use ccr_copies::{CopyFault, CopySet};
use ccr_op::{LeaseId, Op};
use std::alloc::Global;
use std::sync::ArcStr;

/// Each table is of a set of its own, whose first line says how many copies it has. A status is the number, the count,
/// the global count, the floor and the held operations of each copy.
const TABLES: &str = r#"copies 2
take 0 1 | true
take 0 1 | true
take 1 1 | true
replicate 1 0 | ()
replicate 1 0 | ()
ack 1 | 1
status | [(0, 2, 1, 0, 2), (1, 1, 0, 0, 1)]
sync 1 | ()
status | [(0, 2, 1, 0, 2), (1, 1, 1, 0, 1)]
replicate 1 1 | ()
ack 1 | 2
sync 1 | ()
flush 1 | 2
merge 1 0 | (2, 2)
status | [(0, 2, 2, 0, 2), (1, 2, 2, 2, 0)]
add | 2
fail 1 | true
add | 3
status | [(0, 2, 2, 0, 2), (2, 2, 2, 0, 2), (3, 2, 2, 0, 2)]

copies 2
take 0 1 | true
fail 1 | true
add | 2
status | [(0, 1, 1, 0, 1), (2, 1, 1, 0, 1)]

copies 2
take 0 1 | true
take 1 1 | true
take 2 1 | true
replicate 1 0 | ()
replicate 1 2 | ()
leader 1 | (2, 1)
status | [(1, 3, 3, 0, 3)]

copies 2
take 0 1 | true
take 1 1 | true
take 2 1 | true
replicate 1 0 | ()
replicate 1 2 | ()
follower 1 | 2
status | [(1, 1, 1, 0, 2)]

copies 2
take 0 1 | true
take 1 1 | true
take 2 1 | true
replicate 1 0 | ()
replicate 1 2 | ()
force 1 | true
status | [(1, 3, 3, 0, 3)]

copies 3
take 0 1 | true
take 1 1 | true
replicate 1 0 | ()
replicate 1 1 | ()
replicate 2 0 | ()
replicate 2 1 | ()
follower 1 | 2
status | [(1, 2, 2, 0, 2), (2, 2, 0, 0, 2)]

copies 3
take 0 1 | true
take 1 1 | true
replicate 1 0 | ()
replicate 2 1 | ()
leader 1 | (2, 0)
ack 2 | copy 2 is not resynced
resync 2 | (1, 1)
status | [(1, 1, 0, 0, 1), (2, 1, 0, 0, 1)]
ack 2 | 1
status | [(1, 1, 1, 0, 1), (2, 1, 0, 0, 1)]

copies 1
take 0 1 | true
take 1 1 | true
merge 0 0 | (0, 0)
lease 0 | true
flush 0 | 2
merge 0 0 | (0, 0)
renew 1 0 | true
merge 0 0 | (1, 1)
expire 4 4 | 0
expire 5 4 | 1
lease 5 | true
release | true
merge 0 0 | (2, 1)
fail 0 | copy 0 is the only one
add | 1

copies 1
take 0 1 | true
take 1 1 | true
flush 0 | 2
merge 0 1 | (1, 1)
status | [(0, 2, 2, 1, 1)]

copies 2
take 0 1 | true
replicate 1 0 | ()
ack 1 | 1
lease 0 | true
sync 1 | ()
flush 1 | 1
merge 1 0 | (0, 0)
status | [(0, 1, 1, 0, 1), (1, 1, 1, 0, 1)]

copies 2
ack 0 | copy 0 is the primary
ack 4294967297 | copy 4294967297 is not in the in-sync set
fail 0 | copy 0 is the primary
replicate 1 0 | the primary has not processed 0

copies 8
add | there are eight copies"#;

/// Takes an operation at the primary.
fn takes(set: &mut CopySet, seq: u64, term: u64) -> bool {
    set.take_at_primary(Op::no_op(seq, term)).is_ok()
}

fn merges(alloc: Global, set: &mut CopySet, line: &str) -> bool {
    match first_part(alloc) {
        Ok(picks) => comes_to(
            alloc,
            set.merge(number(line, 1), number(line, 2), &picks),
            line,
        ),
        Err(_) => false,
    }
}

/// A copy leaves.
fn fails(alloc: Global, set: &mut CopySet, line: &str) -> bool {
    match set.fail_copy(number(line, 1)) {
        Ok(_left) => is_told(alloc, &true, line),
        Err(fault) => is_refused(alloc, &fault, line),
    }
}

/// A copy leaves, and takes the place of all.
fn forces(set: &mut CopySet, copy: u64) -> bool {
    match set.fail_copy(copy) {
        Ok(left) => set.force_promote(left).is_ok(),
        Err(_) => false,
    }
}

fn expires(alloc: Global, set: &mut CopySet, line: &str) -> bool {
    match set.expire_leases(number(line, 1), number(line, 2)) {
        Ok(list) => is_told(alloc, &list.len(), line),
        Err(_) => false,
    }
}

fn id(alloc: Global) -> Option<LeaseId> {
    LeaseId::new(ArcStr::from_str(alloc, "a").ok()?)
}

/// A call on the primary's one lease; whether it is done.
fn leases(alloc: Global, set: &mut CopySet, name: &str, first: u64, second: u64) -> bool {
    let Some(id) = id(alloc) else {
        return false;
    };
    match name {
        "lease" => set.add_lease(&id, first).is_ok(),
        "renew" => set.renew_lease(&id, first, second).is_ok(),
        _ => set.remove_lease(&id).is_ok(),
    }
}

fn is_right(alloc: Global, set: &mut CopySet, line: &str) -> bool {
    let first = number(line, 1);
    let second = number(line, 2);
    let name = word(line, 0);
    match name {
        "take" => is_told(alloc, &takes(set, first, second), line),
        "replicate" => comes_to(alloc, set.replicate(first, second), line),
        "ack" => comes_to(alloc, set.ack(first), line),
        "sync" => comes_to(alloc, set.sync_copy(first), line),
        "fail" => fails(alloc, set, line),
        "add" => comes_to(alloc, set.add_copy(), line),
        "flush" => comes_to(alloc, set.flush(first), line),
        "merge" => merges(alloc, set, line),
        "leader" => comes_to(alloc, set.promote_leader(first), line),
        "follower" => comes_to(alloc, set.promote_follower(first), line),
        "force" => is_told(alloc, &forces(set, first), line),
        "resync" => comes_to(alloc, set.resync(first), line),
        "expire" => expires(alloc, set, line),
        "status" => stands(alloc, set.statuses(), line),
        _ => is_told(alloc, &leases(alloc, set, name, first, second), line),
    }
}

/// The first line that comes to something else, empty where there is none.
fn first_wrong(
    alloc: Global,
    tables: &'static str,
) -> Result<&'static str, std::alloc::AllocError> {
    let mut set = CopySet::new(alloc, 1)?;
    for line in tables.lines() {
        if word(line, 0) == "copies" {
            set = CopySet::new(alloc, number(line, 1).min(8) as u32)?;
        } else if !line.is_empty() && !is_right(alloc, &mut set, line) {
            return Ok(line);
        }
    }
    Ok("")
}

#[test]
fn copies_stand_as_the_rules_say(rt: HostRuntime) {
    assert_eq!(rt; first_wrong(rt.alloc(), TABLES), Ok(""));
}

#[test]
fn want_of_memory_is_printed(rt: HostRuntime) {
    assert!(rt; is_refused(rt.alloc(), &CopyFault::Memory, " | out of memory"));
}
