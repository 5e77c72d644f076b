ghost use Rattle.std.specs.Prelude.{◌≡◌, ℕ, ◌+◌, ◌≤◌, ◌<◌, [], true, false, List, Option, None, Some, nat_lt, length, if◌then◌else◌, IsTrue, vec_len, vec_capacity};
ghost use Rattle.std.specs.List.{AllByRecursion};
ghost use Rattle.ccr_op.specs.Operation.{Operation};
ghost use Rattle.ccr_store.specs.Kept.{IsBelow, IsClosed, IsIndexed, below, cut_lists, kept_at, lists_of};

use crate::by_id::ById;
use crate::merges::{drop_op, push_part};
use crate::parts::Part;
use ccr_op::Op;
use std::collections::{BTreeMap, BTreeSet};

/// The parts without the numbers that are not below the bound; one that this empties goes.
pub fn cut_parts(parts: Vec<Part>, ops: &BTreeMap<u64, Op>, bound: u64, shorter: &mut Vec<Part>)
    requires room { vec_len shorter.old + length parts.items ≤ vec_capacity shorter.old }
    requires fresh { shorter.old.items ≡ [] }
    requires closed { AllByRecursion (IsClosed (kept_at ops.now.entries)) parts.items }
    ensures numbers { lists_of shorter.new.items ≡ cut_lists bound (lists_of parts.items) }
    ensures closed { AllByRecursion (IsClosed (kept_at ops.now.entries)) shorter.new.items }
{
    for part in parts {
        let mut part = part;
        part.cut(ops, bound);
        push_part(shorter, Some(part));
    }
}

/// Takes the greatest number out where it is not below the bound, and says whether it did.
fn drop_greatest(numbers: &mut BTreeSet<u64>, bound: u64) -> bool
    ensures same { below bound numbers.new.keys ≡ below bound numbers.old.keys }
    ensures shorter { IsTrue result → length numbers.new.keys + 1 ≡ length numbers.old.keys }
    ensures done { result ≡ false → below bound numbers.new.keys ≡ numbers.new.keys }
{
    let Some(last) = numbers.last() else {
        return false;
    };
    if *last < bound {
        return false;
    }
    let _ = numbers.pop_last();
    true
}

/// Takes the numbers out that are not below the bound. The cost goes with these, each at a logarithm.
pub fn cut_numbers(numbers: &mut BTreeSet<u64>, bound: u64)
    ensures { numbers.new.keys ≡ below bound numbers.old.keys }
{
    while drop_greatest(numbers, bound) {}
}

/// Drops the operation of greatest number where that is not below the bound, and says whether it did.
fn drop_last(ops: &mut BTreeMap<u64, Op>, ids: &mut ById, bound: u64) -> bool
    ensures same { (q : ℕ) → nat_lt q bound ≡ true → kept_at ops.new.entries q ≡ kept_at ops.old.entries q }
    ensures indexed { (numbers : List ℕ) → IsIndexed (kept_at ops.old.entries) numbers ids.old.entries → IsIndexed (kept_at ops.new.entries) numbers ids.new.entries }
    ensures shorter { IsTrue result → length ops.new.entries + 1 ≡ length ops.old.entries }
    ensures fewer { length ops.new.entries ≤ length ops.old.entries }
    ensures done { result ≡ false → (ops.new.entries ≡ ops.old.entries) × ((q : ℕ) → nat_lt q bound ≡ false → kept_at ops.new.entries q ≡ None) }
{
    let Some((last, _)) = ops.last_key_value() else {
        return false;
    };
    let last = *last;
    if last < bound {
        return false;
    }
    drop_op(ops, ids, last);
    true
}

/// Drops the operations whose numbers are not below the bound. The cost goes with these, each at a logarithm.
pub fn drop_from(ops: &mut BTreeMap<u64, Op>, ids: &mut ById, bound: u64)
    ensures kept { IsBelow bound (kept_at ops.old.entries) (kept_at ops.new.entries) }
    ensures indexed { (numbers : List ℕ) → IsIndexed (kept_at ops.old.entries) numbers ids.old.entries → IsIndexed (kept_at ops.new.entries) numbers ids.new.entries }
    ensures fewer { length ops.new.entries ≤ length ops.old.entries }
{
    while drop_last(ops, ids, bound) {}
}
