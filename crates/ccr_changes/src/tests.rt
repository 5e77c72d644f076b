ghost use Rattle.std.specs.Prelude.{◌∷◌, []};

use super::*;
use ccr_op::{Count, History, Op};
use std::alloc::{AllocError, Global};
use std::test::Fail;
use uuid::Uuid;

/// A history of one operation.
#[derive(Drop)]
struct One {
    op: Op,
    floor: Count,
    global: Count,
}

impl History for One {
    ghost held = { λ h. h.op ∷ [] };

    ghost floor_of = { λ h. h.floor };

    ghost processed_of = { λ h. h.global };

    ghost global_of = { λ h. h.global };

    fn get(&self, n: u64) -> Option<&Op> {
        if self.op.seq() == n {
            Some(&self.op)
        } else {
            None
        }
    }

    fn floor(&self) -> Count {
        self.floor
    }

    fn processed(&self) -> Count {
        self.global
    }

    fn global(&self) -> Count {
        self.global
    }
}

/// How many operations a read brings, and the global count, or what it comes to in place of them.
fn read(alloc: Global, history: &One, from: u64) -> Result<(&'static str, u64), AllocError> {
    Ok(match cut(alloc, history, from, 0, 0)? {
        Cut::Ops { list, global } => {
            if list.as_slice().len() == 1 {
                ("one", global)
            } else {
                ("not one", global)
            }
        }
        Cut::Wait { global } => ("wait", global),
        Cut::Missing { floor, .. } => ("missing", floor),
    })
}

#[test]
fn reads_go_from_the_floor_to_the_global_count(rt: HostRuntime) -> Result<(), Fail> {
    let alloc = rt.alloc();
    let history = One {
        op: Op::no_op(5, 1),
        floor: 5,
        global: 6,
    };
    assert_eq!(rt; read(alloc, &history, 4)?, ("missing", 5));
    assert_eq!(rt; read(alloc, &history, 5)?, ("one", 6));
    assert_eq!(rt; read(alloc, &history, 6)?, ("wait", 6));
    Ok(())
}

fn poll(follower: u8, request: u64, copy: u32, from: u64) -> Poll {
    Poll {
        follower: Uuid::from_bytes([follower; 16]),
        request,
        copy,
        history: Uuid::from_bytes([0; 16]),
        from,
        max_ops: 1,
        max_bytes: 1,
        timeout: 1,
        parked: 0,
    }
}

#[test]
fn polls_are_found_by_their_place_among_a_followers(rt: HostRuntime) -> Result<(), Fail> {
    let mut polls = Polls::new(rt.alloc());
    for (follower, request, copy, from) in [
        (1, 7, 0, 9),
        (2, 7, 1, 4),
        (1, 8, 1, 3),
        (2, 9, 0, 2),
    ] {
        polls.park(poll(follower, request, copy, from))?;
    }
    let one = Uuid::from_bytes([1; 16]);
    let two = Uuid::from_bytes([2; 16]);
    assert_eq!(rt; polls.len(), 4);
    assert!(rt; polls.has(&two, 9));
    assert!(rt; !polls.has(&one, 9));
    let least = polls.least_from(1).ok_or("one waits at copy 1")?;
    assert_eq!(rt; (least.at, least.from), (1, 3));
    let taken = polls.take(&one, 1).ok_or("the follower has two")?;
    assert_eq!(rt; taken.request, 8);
    assert!(rt; polls.get(&one, 1).is_none());
    let least = polls.least_from(1).ok_or("one waits at copy 1")?;
    assert_eq!(rt; (least.at, least.from), (0, 4));
    polls.drop_copy(1);
    assert!(rt; polls.least_from(1).is_none());
    let left = polls.get(&two, 0).ok_or("the follower has one")?;
    assert_eq!(rt; left.request, 9);
    Ok(())
}

// Twenty-four polls: the n-th is of follower n % 3 and at copy n % 4, and asks for operations from 100 - n on.
fn many(alloc: Global) -> Result<Polls, AllocError> {
    let mut polls = Polls::new(alloc);
    for n in 0..24u8 {
        let request = u64::from(n);
        polls.park(poll(n % 3, request, u32::from(n % 4), 100 - request))?;
    }
    Ok(polls)
}

fn is_at(polls: &Polls, follower: u8, at: usize, request: u64) -> bool {
    match polls.get(&Uuid::from_bytes([follower; 16]), at) {
        Some(poll) => poll.request == request,
        None => false,
    }
}

fn is_least(polls: &Polls, copy: u32, at: usize, from: u64) -> bool {
    match polls.least_from(copy) {
        Some(least) => least.at == at && least.from == from,
        None => false,
    }
}

#[test]
fn many_polls_of_several_followers_and_copies_are_found(rt: HostRuntime) -> Result<(), Fail> {
    let mut polls = many(rt.alloc())?;
    let zero = Uuid::from_bytes([0; 16]);
    let one = Uuid::from_bytes([1; 16]);
    // Of copy 1 are 1, 5, 9, 13, 17 and 21, and of follower 0 are 0, 3, .., 21.
    assert!(rt; is_least(&polls, 1, 7, 79));
    assert!(rt; is_at(&polls, 2, 3, 11));
    assert!(rt; polls.has(&zero, 21));
    assert!(rt; !polls.has(&one, 21));
    // Of follower 1 are 1, 4, 7, 10, ..
    let taken = polls.take(&one, 2).ok_or("the follower has eight")?;
    assert_eq!(rt; taken.request, 7);
    assert!(rt; is_at(&polls, 1, 2, 10));
    // Now follower 0 has 0, 3, 6, 12, 15, 18, follower 1 has 4, 10, 16, 19, 22, and follower 2 has 2, 8, 11, 14, 20, 23.
    polls.drop_copy(1);
    assert_eq!(rt; polls.len(), 17);
    assert!(rt; is_at(&polls, 0, 3, 12));
    assert!(rt; is_at(&polls, 1, 2, 16));
    assert!(rt; is_at(&polls, 2, 1, 8));
    assert!(rt; !polls.has(&zero, 21));
    assert!(rt; polls.least_from(1).is_none());
    // Of copy 2 are 2, 6, 10, 14, 18 and 22.
    assert!(rt; is_least(&polls, 2, 4, 78));
    Ok(())
}
