ghost use Rattle.std.specs.Prelude.{◌≡◌, ◌≤◌, ◌<◌, ◌^◌, ◌+◌, ℕ, ◌==◌, length, take, IfOk, OnErr};
ghost use Rattle.std.specs.Option.{option_map_or};
ghost use Rattle.ccr_model.specs.Operations.{size_of};
ghost use Rattle.ccr_segment.specs.Segment.{spelling as segment_of_ops};
ghost use Rattle.ccr_store.specs.Kept.{Ascend, IsClosed, below, bytes_of, kept_at, ops_of};

use ccr_op::Op;
use std::alloc::{AllocError, Global};
use std::collections::BTreeMap;
use std::marker::Model;

/// The bytes of a segment before its operations.
const SEGMENT_HEAD_BYTES: u64 = 9;

/// A closed part: the numbers of its operations, in ascending order, and how many bytes their segment takes.
#[derive(Drop)]
pub struct Part {
    numbers: Vec<u64>,
    bytes: u64,
}

impl Model for Part {
    ghost use Rattle.ccr_store.specs.Kept.{Closed};

    ghost Value = { Closed };

    ghost view = { λ a. record { numbers = a.numbers.items; bytes = a.bytes } };

    ghost use Rattle.std.specs.Prelude.{◌<◌, ◌^◌};

    ghost invariant = { λ a. a.bytes < 2 ^ 64 };
}

impl Part {
    /// The part of these numbers, whose segment has so many bytes.
    pub fn new(numbers: Vec<u64>, bytes: u64) -> Part
        ensures { result ≡ record { numbers = numbers.items; bytes = bytes } }
    {
        Part { numbers, bytes }
    }

    /// The numbers.
    pub fn as_slice(&self) -> &[u64]
        ensures { result.now ≡ self.now.numbers }
    {
        self.numbers.as_slice()
    }

    /// How many bytes the segment takes.
    pub fn bytes(&self) -> u64
        ensures { result ≡ self.now.bytes }
    {
        self.bytes
    }

    /// Whether it has no number.
    pub fn is_empty(&self) -> bool
        ensures { result ≡ (length self.now.numbers == 0) }
    {
        self.numbers.is_empty()
    }

    /// An equal part.
    pub fn copy(&self, alloc: Global) -> Result<Part, AllocError>
        ensures { IfOk result (λ other. other ≡ self.now) }
    {
        let numbers = Vec::from_slice(alloc, self.numbers.as_slice())?;
        Ok(Part {
            numbers,
            bytes: self.bytes,
        })
    }

    /// Takes the numbers off that are not below the bound. The cost goes with these, each at a logarithm.
    pub fn cut(&mut self, ops: &BTreeMap<u64, Op>, bound: u64)
        requires { IsClosed (kept_at ops.now.entries) self.old }
        ensures closed { IsClosed (kept_at ops.now.entries) self.new }
        ensures numbers { self.new.numbers ≡ below bound self.old.numbers }
    {
        let kept = count_below(self.numbers.as_slice(), bound);
        self.bytes -= bytes_at(ops, &self.numbers.as_slice()[kept..]);
        self.numbers.truncate(kept);
    }
}

/// How many of ascending numbers are below the bound, found by halving.
fn count_below(numbers: &[u64], bound: u64) -> usize
    requires { Ascend 0 numbers.now }
    ensures within { result ≤ length numbers.now }
    ensures front { take result numbers.now ≡ below bound numbers.now }
{
    match numbers.binary_search(&bound) {
        Ok(at) => at,
        Err(at) => at,
    }
}

/// How many bytes the operation of a number takes: none where there is no such operation.
fn size_at(ops: &BTreeMap<u64, Op>, n: u64) -> u64
    ensures { result ≡ option_map_or size_of (kept_at ops.now.entries n) 0 }
{
    match ops.get(&n) {
        Some(op) => op.size(),
        None => 0,
    }
}

/// How many bytes the operations of these numbers take.
fn bytes_at(ops: &BTreeMap<u64, Op>, numbers: &[u64]) -> u64
    requires { bytes_of (ops_of (kept_at ops.now.entries) numbers.now) < 2 ^ 64 }
    ensures { result ≡ bytes_of (ops_of (kept_at ops.now.entries) numbers.now) }
{
    let mut bytes = 0;
    for n in numbers {
        bytes += size_at(ops, *n);
    }
    bytes
}

/// The length of the segment of the operations of these numbers. It fails where that is not below 2^64.
pub fn segment_length(ops: &BTreeMap<u64, Op>, numbers: &[u64]) -> Result<u64, AllocError>
    ensures ok { IfOk result (λ bytes. bytes ≡ length (segment_of_ops (ops_of (kept_at ops.now.entries) numbers.now))) }
    ensures err { OnErr result (2 ^ 64 ≤ length (segment_of_ops (ops_of (kept_at ops.now.entries) numbers.now))) }
{
    let mut bytes = SEGMENT_HEAD_BYTES;
    for n in numbers {
        let size = size_at(ops, *n);
        if bytes > u64::MAX - size {
            return Err(AllocError);
        }
        bytes += size;
    }
    Ok(bytes)
}
