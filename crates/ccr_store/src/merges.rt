ghost use Rattle.std.specs.Prelude.{◌≡◌, ℕ, ◌+◌, ◌≤◌, ◌<◌, ◌==◌, ◌&&◌, ◌∷◌, ◌++◌, [], Bool, true, false, List, Option, Some, None, is_some, length, filter, if◌then◌else◌, IfOk, OnOk, vec_len, vec_capacity};
ghost use Rattle.std.specs.Option.{option_map_or};
ghost use Rattle.std.specs.BTreeSet.{contains};
ghost use Rattle.std.specs.Ordering.{nat_cmp};
ghost use Rattle.ccr_op.specs.Operation.{Operation};
ghost use Rattle.ccr_model.specs.Stores.{dropped, is_among, is_droppable};
ghost use Rattle.ccr_store.specs.Kept.{IsIndexed, IsWithout, closed_if_any, is_pick, joined_parts, kept_at, lists_of, one, ops_of, picked_numbers, times, with_keys};

use crate::by_id::{ById, has_below, has_between, release};
use crate::parts::Part;
use ccr_op::{Kind, Op};
use ccr_policy::Picks;
use std::alloc::{AllocError, Global};
use std::collections::{BTreeMap, BTreeSet};

/// Puts a value at the end of a list that has room for it.
pub fn push_within<T: Drop>(list: &mut Vec<T>, value: T)
    requires { vec_len list.old < vec_capacity list.old }
    ensures items { list.new.items ≡ list.old.items ++ value ∷ [] }
    ensures len { vec_len list.new ≡ vec_len list.old + 1 }
    ensures capacity { vec_capacity list.old ≤ vec_capacity list.new }
{
    match list.push(value) {
        Ok(()) => {}
        Err(_) => unreachable!(),
    }
}

/// The places that are picked.
pub fn picked_places(alloc: Global, picks: &Picks) -> Result<BTreeSet<usize>, AllocError>
    ensures { IfOk result (λ chosen. (place : ℕ) → contains nat_cmp chosen place ≡ is_pick picks.now place) }
{
    picks.as_slice().iter().copied().collect(alloc)
}

fn insert_all(numbers: &mut BTreeSet<u64>, more: &[u64]) -> Result<(), AllocError>
    ensures { OnOk result (numbers.new.keys ≡ with_keys numbers.old.keys more.now) }
{
    for n in more {
        numbers.insert(*n)?;
    }
    Ok(())
}

/// The numbers of the parts at the chosen places, in ascending order.
pub fn numbers_at(
    alloc: Global,
    chosen: &BTreeSet<usize>,
    parts: &[Part],
) -> Result<BTreeSet<u64>, AllocError>
    ensures { IfOk result (λ numbers. numbers.keys ≡ with_keys [] (picked_numbers (contains nat_cmp chosen.now) 0 (lists_of parts.now))) }
{
    let mut numbers = BTreeSet::new(alloc);
    for place in 0..parts.len() {
        if !chosen.contains(&place) {
            continue;
        }
        insert_all(&mut numbers, parts[place].as_slice())?;
    }
    Ok(numbers)
}

/// Whether an operation may go: it is below the bound, and what is held makes it needless.
fn is_needless(op: &Op, ids: &ById, bound: u64, count: u64) -> bool
    ensures { (at : ℕ → Option Operation) (numbers : List ℕ) → IsIndexed at numbers ids.now.entries → result ≡ is_droppable bound count (ops_of at numbers) op.now }
{
    if op.seq() >= bound {
        return false;
    }
    match op.kind() {
        Kind::Index { id, .. } => has_between(ids, id, op.seq(), count),
        Kind::Delete { id, .. } => {
            has_between(ids, id, op.seq(), count) || !has_below(ids, id, op.seq())
        }
        Kind::NoOp => true,
    }
}

fn may_go(ops: &BTreeMap<u64, Op>, ids: &ById, n: u64, bound: u64, count: u64) -> bool
    ensures { (numbers : List ℕ) → IsIndexed (kept_at ops.now.entries) numbers ids.now.entries → result ≡ option_map_or (is_droppable bound count (ops_of (kept_at ops.now.entries) numbers)) (kept_at ops.now.entries n) false }
{
    match ops.get(&n) {
        Some(op) => is_needless(op, ids, bound, count),
        None => false,
    }
}

/// Drops the operation of this number, if there is one.
pub fn drop_op(ops: &mut BTreeMap<u64, Op>, ids: &mut ById, n: u64)
    ensures kept { (q : ℕ) → kept_at ops.new.entries q ≡ (if n == q then None else kept_at ops.old.entries q) }
    ensures indexed { (numbers : List ℕ) → IsIndexed (kept_at ops.old.entries) numbers ids.old.entries → IsIndexed (kept_at ops.new.entries) numbers ids.new.entries }
    ensures len { length ops.new.entries + one (is_some (kept_at ops.old.entries n)) ≡ length ops.old.entries }
{
    if let Some(op) = ops.remove(&n) {
        release(ids, op);
    }
}

/// Drops the operation of this number where it may go, and says whether it went.
fn drop_needless(
    ops: &mut BTreeMap<u64, Op>,
    ids: &mut ById,
    n: u64,
    bound: u64,
    count: u64,
) -> bool
    ensures kept { (q : ℕ) → kept_at ops.new.entries q ≡ (if result && (n == q) then None else kept_at ops.old.entries q) }
    ensures went { (numbers : List ℕ) → IsIndexed (kept_at ops.old.entries) numbers ids.old.entries → result ≡ option_map_or (is_droppable bound count (ops_of (kept_at ops.old.entries) numbers)) (kept_at ops.old.entries n) false }
    ensures indexed { (numbers : List ℕ) → IsIndexed (kept_at ops.old.entries) numbers ids.old.entries → IsIndexed (kept_at ops.new.entries) numbers ids.new.entries }
{
    if !may_go(ops, ids, n, bound, count) {
        return false;
    }
    drop_op(ops, ids, n);
    true
}

/// Drops of these operations, each where it may go; what went before counts as not held.
pub fn drop_all(
    ops: &mut BTreeMap<u64, Op>,
    ids: &mut ById,
    all: &[u64],
    bound: u64,
    count: u64,
    drops: &mut Vec<u64>,
)
    requires room { vec_len drops.old + length all.now ≤ vec_capacity drops.old }
    requires fresh { drops.old.items ≡ [] }
    requires once { (q : ℕ) → times q all.now ≤ 1 }
    ensures without { IsWithout drops.new.items (kept_at ops.old.entries) (kept_at ops.new.entries) }
    ensures among { (q : ℕ) → is_among drops.new.items q ≡ true → 1 ≤ times q all.now }
    ensures went { (numbers : List ℕ) → IsIndexed (kept_at ops.old.entries) numbers ids.old.entries → drops.new.items ≡ dropped bound count (ops_of (kept_at ops.old.entries) numbers) (ops_of (kept_at ops.old.entries) all.now) }
    ensures indexed { (numbers : List ℕ) → IsIndexed (kept_at ops.old.entries) numbers ids.old.entries → IsIndexed (kept_at ops.new.entries) numbers ids.new.entries }
{
    for n in all {
        if !drop_needless(ops, ids, *n, bound, count) {
            continue;
        }
        push_within(drops, *n);
    }
}

/// Of these numbers those that are kept.
pub fn take_kept(ops: &BTreeMap<u64, Op>, all: &[u64], left: &mut Vec<u64>)
    requires room { vec_len left.old + length all.now ≤ vec_capacity left.old }
    requires fresh { left.old.items ≡ [] }
    ensures { left.new.items ≡ filter (λ n. is_some (kept_at ops.now.entries n)) all.now }
{
    for n in all {
        if !ops.contains_key(n) {
            continue;
        }
        push_within(left, *n);
    }
}

/// Puts a part at the end, if there is one and it isn't empty.
pub fn push_part(joined: &mut Vec<Part>, left: Option<Part>)
    requires { vec_len joined.old < vec_capacity joined.old }
    ensures items { joined.new.items ≡ joined.old.items ++ closed_if_any left }
    ensures len { vec_len joined.new ≤ vec_len joined.old + 1 }
    ensures capacity { vec_capacity joined.old ≤ vec_capacity joined.new }
{
    if let Some(part) = left {
        if !part.is_empty() {
            push_within(joined, part);
        }
    }
}

/// The parts, where those at the chosen places are one at the least of these; an empty one goes.
pub fn join(parts: Vec<Part>, chosen: &BTreeSet<usize>, left: Part, joined: &mut Vec<Part>)
    requires room { vec_len joined.old + length parts.items ≤ vec_capacity joined.old }
    requires fresh { joined.old.items ≡ [] }
    ensures { joined.new.items ≡ joined_parts (contains nat_cmp chosen.now) 0 (Some left) parts.items }
{
    let mut left = Some(left);
    let mut place = 0usize;
    for part in parts {
        let here = place;
        place += 1;
        if !chosen.contains(&here) {
            push_within(joined, part);
            continue;
        }
        push_part(joined, left.take());
    }
}
