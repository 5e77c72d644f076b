ghost use Rattle.std.specs.Prelude.{◌≡◌, ◌∷◌, ◌++◌, ◌≤◌, ◌+◌, ◌<◌, [], length, take, drop, IfOk, OnOk, OnErr, vec_len, vec_capacity};
ghost use Rattle.std.specs.BTreeMap.{values};
ghost use Rattle.ccr_model.specs.Operations.{cut_of, front_within, with_op, with_ops};
ghost use Rattle.ccr_model.specs.Tasks.{bytes_of};

use ccr_op::Op;
use std::alloc::{AllocError, Global};
use std::collections::BTreeMap;
use std::marker::Model;

/// The operations that were read and not yet written, in ascending number; of equal numbers the one that came
/// first stands first.
#[derive(Drop)]
pub struct Buffer {
    ops: BTreeMap<(u64, u64), Op>,
    next: u64,
    bytes: u64,
}

impl Model for Buffer {
    ghost use Rattle.std.specs.Prelude.{List};
    ghost use Rattle.std.specs.Map.{values_of};
    ghost use Rattle.ccr_op.specs.Operation.{Operation};
    ghost use Rattle.ccr_buffer.specs.Buffered.{IsBuffered};

    ghost Value = { List Operation };

    ghost view = { λ a. values_of a.ops.entries };

    ghost invariant = { λ a. IsBuffered a.ops.entries a.next a.bytes };
}

impl Buffer {
    /// A buffer without operations.
    pub fn new(alloc: Global) -> Buffer
        ensures { result ≡ [] }
    {
        Buffer {
            ops: BTreeMap::new(alloc),
            next: 0,
            bytes: 0,
        }
    }

    /// How many operations.
    pub fn count(&self) -> u64
        ensures { result ≡ length self.now }
    {
        self.ops.len() as u64
    }

    /// How many bytes they take.
    pub fn bytes(&self) -> u64
        ensures { result ≡ bytes_of self.now }
    {
        self.bytes
    }

    /// Lets all of them go.
    pub fn clear(&mut self)
        ensures { self.new ≡ [] }
    {
        self.ops.clear();
        self.bytes = 0;
    }

    fn add(&mut self, op: Op) -> Result<(), AllocError>
        ensures ok { OnOk result (self.new ≡ with_op op self.old) }
        ensures err { OnErr result (self.new ≡ self.old) }
    {
        let Some(next) = self.next.checked_add(1) else {
            return Err(AllocError);
        };
        let Some(bytes) = self.bytes.checked_add(op.size()) else {
            return Err(AllocError);
        };
        let key = (op.seq(), self.next);
        self.ops.insert(key, op)?;
        self.next = next;
        self.bytes = bytes;
        Ok(())
    }

    /// Adds operations. After want of memory it may have those of a first part of them. The cost of each is a
    /// logarithm.
    pub fn add_all(&mut self, ops: Vec<Op>) -> Result<(), AllocError>
        ensures ok { OnOk result (self.new ≡ with_ops ops.items self.old) }
    {
        for op in ops {
            self.add(op)?;
        }
        Ok(())
    }

    /// Takes the longest front within both bounds, or the first operation where not even that is within them.
    /// After want of memory it is as before. The cost goes with what is taken.
    pub fn take_batch(
        &mut self,
        alloc: Global,
        max_ops: u64,
        max_bytes: u64,
    ) -> Result<Vec<Op>, AllocError>
        ensures batch { IfOk result (λ batch. batch.items ≡ cut_of max_ops max_bytes self.old) }
        ensures ok { OnOk result (self.new ≡ drop (length (cut_of max_ops max_bytes self.old)) self.old) }
        ensures err { OnErr result (self.new ≡ self.old) }
    {
        let n = cut_len(&self.ops, max_ops, max_bytes);
        let mut batch = Vec::with_capacity(alloc, n)?;
        let bytes = pop_all(&mut self.ops, n, self.bytes, &mut batch);
        self.bytes = bytes;
        Ok(batch)
    }
}

/// How many operations the next batch has.
fn cut_len(ops: &BTreeMap<(u64, u64), Op>, max_ops: u64, max_bytes: u64) -> usize
    ensures { result ≡ length (cut_of max_ops max_bytes (values ops.now)) }
{
    let n = front_len(ops, max_ops, max_bytes);
    if n == 0 { ops.len().min(1) } else { n }
}

fn front_len(ops: &BTreeMap<(u64, u64), Op>, max_ops: u64, max_bytes: u64) -> usize
    ensures { result ≡ length (front_within max_ops max_bytes (values ops.now)) }
{
    let mut n = 0usize;
    let mut left = max_ops;
    let mut room = max_bytes;
    for op in ops.values() {
        if left == 0 || op.size() > room {
            break;
        }
        room -= op.size();
        left -= 1;
        n += 1;
    }
    n
}

fn push_within(list: &mut Vec<Op>, op: Op)
    requires { vec_len list.old < vec_capacity list.old }
    ensures items { list.new.items ≡ list.old.items ++ op ∷ [] }
    ensures len { vec_len list.new ≡ vec_len list.old + 1 }
    ensures capacity { vec_capacity list.old ≤ vec_capacity list.new }
{
    match list.push(op) {
        Ok(()) => {}
        Err(_) => unreachable!(),
    }
}

/// Takes the first n operations to the end of a list that has room for them, and answers how many bytes the
/// others take.
fn pop_all(ops: &mut BTreeMap<(u64, u64), Op>, n: usize, bytes: u64, batch: &mut Vec<Op>) -> u64
    requires size { bytes ≡ bytes_of (values ops.old) }
    requires room { vec_len batch.old + n ≤ vec_capacity batch.old }
    requires there { n ≤ length ops.old.entries }
    ensures batch { batch.new.items ≡ batch.old.items ++ take n (values ops.old) }
    ensures others { ops.new.entries ≡ drop n ops.old.entries }
    ensures size { result ≡ bytes_of (values ops.new) }
{
    let mut left = bytes;
    for turn in 0..n {
        let Some((_, op)) = ops.pop_first() else {
            unreachable!()
        };
        left -= op.size();
        push_within(batch, op);
    }
    left
}
