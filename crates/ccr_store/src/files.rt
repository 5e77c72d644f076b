ghost use Rattle.std.specs.Prelude.{◌≡◌, ℕ, ◌++◌, Some, nat_lt, filter, map, IfOk, OnOk};
ghost use Rattle.std.specs.List.{AllByRecursion};
ghost use Rattle.std.specs.Option.{option_to_list};
ghost use Rattle.ccr_op.specs.Operation.{Operation};
ghost use Rattle.ccr_segment.specs.Segment.{spelling as segment_of_ops};
ghost use Rattle.ccr_model.specs.Stores.{one_part};
ghost use Rattle.ccr_store.specs.Kept.{Ascend, IsClosed, contents_of, files_of, kept_at, lists_of, ops_of};

use crate::parts::Part;
use ccr_op::Op;
use std::alloc::{AllocError, Global};
use std::collections::BTreeMap;

/// The most operations that a segment can count.
const MOST_IN_SEGMENT: usize = 0xffff_ffff;

/// Puts a copy of the operation of this number at the end, where there is one and it is below the count.
fn push_below(
    alloc: Global,
    ops: &BTreeMap<u64, Op>,
    n: u64,
    count: u64,
    copies: &mut Vec<Op>,
) -> Result<(), AllocError>
    ensures { OnOk result (copies.new.items ≡ copies.old.items ++ filter (λ op. nat_lt op.seq count) (option_to_list (kept_at ops.now.entries n))) }
{
    let Some(op) = ops.get(&n) else {
        return Ok(());
    };
    if op.seq() >= count {
        return Ok(());
    }
    copies.push(op.copy(alloc)?)?;
    Ok(())
}

/// Copies of the operations of these numbers below a count, over the same texts.
fn ops_below(
    alloc: Global,
    ops: &BTreeMap<u64, Op>,
    numbers: &[u64],
    count: u64,
) -> Result<Vec<Op>, AllocError>
    ensures { IfOk result (λ copies. copies.items ≡ filter (λ op. nat_lt op.seq count) (ops_of (kept_at ops.now.entries) numbers.now)) }
{
    let mut copies = Vec::new(alloc);
    for n in numbers {
        push_below(alloc, ops, *n, count, &mut copies)?;
    }
    Ok(copies)
}

/// Puts the segment of the operations of these numbers below a count at the end of the files, where there is any
/// such operation.
fn push_file(
    alloc: Global,
    ops: &BTreeMap<u64, Op>,
    numbers: &[u64],
    count: u64,
    files: &mut Vec<Vec<u8>>,
) -> Result<(), AllocError>
    requires own { (n : ℕ) (op : Operation) → kept_at ops.now.entries n ≡ Some op → op.seq ≡ n }
    requires order { Ascend 0 numbers.now }
    ensures { OnOk result (contents_of files.new.items ≡ contents_of files.old.items ++ map segment_of_ops (one_part (filter (λ op. nat_lt op.seq count) (ops_of (kept_at ops.now.entries) numbers.now)))) }
{
    let below = ops_below(alloc, ops, numbers, count)?;
    if below.is_empty() {
        return Ok(());
    }
    if below.len() > MOST_IN_SEGMENT {
        return Err(AllocError);
    }
    let file = ccr_segment::write(alloc, below.as_slice())?;
    files.push(file)?;
    Ok(())
}

/// The segments of the operations below a count, one for each list of numbers that has any.
fn push_files(
    alloc: Global,
    ops: &BTreeMap<u64, Op>,
    parts: &[Part],
    count: u64,
    files: &mut Vec<Vec<u8>>,
) -> Result<(), AllocError>
    requires own { (n : ℕ) (op : Operation) → kept_at ops.now.entries n ≡ Some op → op.seq ≡ n }
    requires closed { AllByRecursion (IsClosed (kept_at ops.now.entries)) parts.now }
    ensures { OnOk result (contents_of files.new.items ≡ contents_of files.old.items ++ map segment_of_ops (files_of (kept_at ops.now.entries) count (lists_of parts.now))) }
{
    for part in parts {
        push_file(alloc, ops, part.as_slice(), count, files)?;
    }
    Ok(())
}

/// The segments of the operations below a count: one for each closed part that has any, and one for the open
/// part's.
pub fn files_below(
    alloc: Global,
    ops: &BTreeMap<u64, Op>,
    parts: &[Part],
    fresh: &[u64],
    count: u64,
) -> Result<Vec<Vec<u8>>, AllocError>
    requires own { (n : ℕ) (op : Operation) → kept_at ops.now.entries n ≡ Some op → op.seq ≡ n }
    requires closed { AllByRecursion (IsClosed (kept_at ops.now.entries)) parts.now }
    requires order { Ascend 0 fresh.now }
    ensures { IfOk result (λ files. contents_of files.items ≡ map segment_of_ops (files_of (kept_at ops.now.entries) count (lists_of parts.now) ++ one_part (filter (λ op. nat_lt op.seq count) (ops_of (kept_at ops.now.entries) fresh.now)))) }
{
    let mut files = Vec::new(alloc);
    push_files(alloc, ops, parts, count, &mut files)?;
    push_file(alloc, ops, fresh, count, &mut files)?;
    Ok(files)
}
