ghost use Rattle.std.specs.Prelude.{◌≡◌, ℕ, ◌<◌, ◌≤◌, ◌^◌, ◌==◌, [], true, false, nat_lt, length, map, flat_map, count_by, OnOk, OnErr, IfOk, IfErr, option_copied};
ghost use Rattle.std.specs.BTreeMap.{insert_entry};
ghost use Rattle.std.specs.Map.{keys_of};
ghost use Rattle.std.specs.Ordering.{nat_cmp};
ghost use Rattle.ccr_segment.specs.Segment.{spelling as segment_of_ops};
ghost use Rattle.ccr_model.specs.Operations.{has_number, is_empty, live, only_index, op_at};
ghost use Rattle.ccr_model.specs.Stores.{empty_store, files_below, flushed, held, merge_drops, merged, sifted, stored};
ghost use Rattle.ccr_model.specs.Policies.{sizes_in};
ghost use Rattle.ccr_model.specs.LeaderRows.{held_from};
ghost use Rattle.ccr_store.specs.Kept.{kept_at, contents_of, ops_of, part_size, Ascend, IsTaken, IsLeft, IsNext, IsNextLive, first_live};

use crate::by_id::{ById, greatest, note, release};
use crate::cuts::{cut_numbers, cut_parts, drop_from};
use crate::files;
use crate::filling::take_files;
use crate::merges::{drop_all, join, numbers_at, picked_places, take_kept};
use crate::parts::{Part, segment_length};
use ccr_op::{DocId, Kind, Op};
use ccr_policy::{PartSize, Picks};
use ccr_segment::Segment;
use std::alloc::{AllocError, AllocFailed, Global};
use std::collections::btree_map::Range;
use std::collections::{BTreeMap, BTreeSet};
use std::marker::Model;
use std::mem;
use std::ops::Bound;

/// What a copy holds: closed parts, and one part that still takes operations. Each number is held once.
#[derive(Drop)]
pub struct Store {
    ops: BTreeMap<u64, Op>,
    parts: Vec<Part>,
    fresh: BTreeSet<u64>,
    ids: ById,
}

impl Model for Store {
    ghost use Rattle.ccr_model.specs.Stores.{Store as Stored};

    ghost Value = { Stored };

    ghost use Rattle.ccr_store.specs.Kept.{IsKept, kept_at, lists_of, store_of};

    ghost view = { λ a. store_of (kept_at a.ops.entries) (lists_of a.parts.items) a.fresh.keys };

    ghost invariant = { λ a. IsKept a.ops.entries a.parts.items a.fresh.keys a.ids.entries };
}

impl Store {
    /// A store that holds no operation.
    pub fn new(alloc: Global) -> Store
        ensures { result ≡ empty_store }
    {
        Store {
            ops: BTreeMap::new(alloc),
            parts: Vec::new(alloc),
            fresh: BTreeSet::new(alloc),
            ids: BTreeMap::new(alloc),
        }
    }

    /// The store whose closed parts are these files, in their order, with an open part that has no operation. Each
    /// operation is read once, and comes under its number at a logarithm; a file is let go once it is read.
    pub fn from_files(alloc: Global, files: Vec<Segment>) -> Result<Store, AllocError>
        requires { (n : ℕ) → count_by (λ op. op.seq == n) (held (record { parts = files.items; open_part = [] })) ≤ 1 }
        ensures { IfOk result (λ store. store ≡ record { parts = files.items; open_part = [] }) }
    {
        let mut ops = BTreeMap::new(alloc);
        let mut ids = BTreeMap::new(alloc);
        let fresh = BTreeSet::new(alloc);
        let parts = take_files(alloc, files, &mut ops, &mut ids)?;
        Ok(Store {
            ops,
            parts,
            fresh,
            ids,
        })
    }

    /// Takes an operation whose number it does not hold into the open part. After want of memory it is as
    /// before. The cost is a logarithm.
    pub fn put(&mut self, alloc: Global, op: Op) -> Result<(), AllocError>
        requires { has_number (held self.old) op.seq ≡ false }
        ensures ok { OnOk result (self.new ≡ stored op self.old) }
        ensures err { OnErr result (self.new ≡ self.old) }
    {
        note(alloc, &mut self.ids, &op)?;
        match keep(&mut self.ops, &mut self.fresh, op) {
            Ok(()) => Ok(()),
            Err(refused) => {
                release(&mut self.ids, refused.value);
                Err(AllocError)
            }
        }
    }

    /// Whether it holds an operation of this number. The cost is a logarithm.
    pub fn has(&self, n: u64) -> bool
        ensures { result ≡ has_number (held self.now) n }
    {
        self.ops.contains_key(&n)
    }

    /// The operation of a number. The cost is a logarithm.
    pub fn get(&self, n: u64) -> Option<&Op>
        ensures { option_copied result ≡ op_at n (held self.now) }
    {
        self.ops.get(&n)
    }

    /// A copy of the operation of a number, over the same texts. The cost is a logarithm.
    pub fn op_at(&self, alloc: Global, n: u64) -> Result<Option<Op>, AllocError>
        ensures { IfOk result (λ found. found ≡ op_at n (held self.now)) }
    {
        match self.get(n) {
            Some(op) => Ok(Some(op.copy(alloc)?)),
            None => Ok(None),
        }
    }

    /// The operation that put the live document of an id in place. The cost is a logarithm.
    pub fn live(&self, id: &DocId) -> Option<&Op>
        ensures { option_copied result ≡ live (held self.now) id.now }
    {
        let n = greatest(&self.ids, id)?;
        match self.ops.get(&n) {
            Some(op) => index_only(op),
            None => unreachable!(),
        }
    }

    /// How many operations it holds.
    pub fn held(&self) -> u64
        ensures { result ≡ length (held self.now) }
    {
        self.ops.len() as u64
    }

    /// Closes the open part, where it holds an operation. After want of memory it is as before. The cost goes
    /// with the operations of the open part; none is copied.
    pub fn flush(&mut self, alloc: Global) -> Result<(), AllocError>
        ensures ok { OnOk result (self.new ≡ flushed self.old) }
        ensures err { OnErr result (self.new ≡ self.old) }
    {
        if self.fresh.is_empty() {
            return Ok(());
        }
        let numbers = in_order(alloc, &self.fresh)?;
        let bytes = segment_length(&self.ops, numbers.as_slice())?;
        self.parts.push(Part::new(numbers, bytes))?;
        self.fresh.clear();
        Ok(())
    }
}

impl Store {
    /// Drops of the operations of the picked parts those below the bound that what is held below the count makes
    /// needless, and joins the rest of these parts at the least place among them. Picks that repeat or lie
    /// outside the list of parts change nothing. Answers the numbers that were dropped, in ascending order. After
    /// want of memory it is as before. No operation is copied; the cost goes with the picked operations, each at a
    /// logarithm, and with the number of parts.
    pub fn merge(
        &mut self,
        alloc: Global,
        picks: &Picks,
        bound: u64,
        count: u64,
    ) -> Result<Vec<u64>, AllocError>
        ensures drops { IfOk result (λ drops. drops.items ≡ merge_drops picks.now bound count self.old) }
        ensures ok { OnOk result (self.new ≡ merged picks.now bound count self.old) }
        ensures fewer { OnOk result ((n : ℕ) → has_number (held self.new) n ≡ true → has_number (held self.old) n ≡ true) }
        ensures err { OnErr result (self.new ≡ self.old) }
    {
        let chosen = picked_places(alloc, picks)?;
        let numbers = numbers_at(alloc, &chosen, self.parts.as_slice())?;
        let all = in_order(alloc, &numbers)?;
        // The segment of what is left is no longer than this one: nothing fails once an operation has gone.
        segment_length(&self.ops, all.as_slice())?;
        let mut drops = Vec::with_capacity(alloc, all.len())?;
        let mut left = Vec::with_capacity(alloc, all.len())?;
        let mut joined = Vec::with_capacity(alloc, self.parts.len())?;
        drop_all(
            &mut self.ops,
            &mut self.ids,
            all.as_slice(),
            bound,
            count,
            &mut drops,
        );
        take_kept(&self.ops, all.as_slice(), &mut left);
        let parts = mem::replace(&mut self.parts, Vec::new(alloc));
        join(parts, &chosen, part_of(&self.ops, left), &mut joined);
        self.parts = joined;
        Ok(drops)
    }

    /// Drops the operations whose numbers are n or above, in all parts, and says how many these were; a closed
    /// part that this empties goes. After want of memory it is as before. The cost goes with what is dropped, each
    /// at a logarithm, and with the number of parts.
    pub fn roll_back(&mut self, alloc: Global, n: u64) -> Result<u64, AllocError>
        ensures gone { IfOk result (λ gone. gone ≡ held_from n self.old) }
        ensures ok { OnOk result (self.new ≡ sifted (λ op. nat_lt op.seq n) self.old) }
        ensures fewer { OnOk result ((k : ℕ) → has_number (held self.new) k ≡ true → has_number (held self.old) k ≡ true) }
        ensures low { OnOk result ((k : ℕ) → has_number (held self.new) k ≡ true → k < n) }
        ensures err { OnErr result (self.new ≡ self.old) }
    {
        let mut shorter = Vec::with_capacity(alloc, self.parts.len())?;
        let before = self.ops.len();
        let parts = mem::replace(&mut self.parts, Vec::new(alloc));
        cut_parts(parts, &self.ops, n, &mut shorter);
        self.parts = shorter;
        cut_numbers(&mut self.fresh, n);
        drop_from(&mut self.ops, &mut self.ids, n);
        Ok((before - self.ops.len()) as u64)
    }
}

impl Store {
    /// For each closed part, in their order, how many operations it has and how many bytes their segment takes.
    /// The cost goes with the number of parts.
    pub fn sizes(&self, alloc: Global) -> Result<Vec<PartSize>, AllocError>
        ensures { IfOk result (λ sizes. sizes.items ≡ sizes_in self.now) }
    {
        sizes_of(alloc, self.parts.as_slice())
    }

    /// The operations below a count as files, each a segment: one for each closed part that has any, in their
    /// order, and one for those of the open part, if it has any. A segment of 2^32 operations or more cannot be
    /// spelled, and is answered as want of memory. The cost goes with what is held.
    pub fn commit_at(&self, alloc: Global, count: u64) -> Result<Vec<Vec<u8>>, AllocError>
        ensures { IfOk result (λ files. contents_of files.items ≡ map segment_of_ops (files_below count self.now)) }
    {
        let fresh = in_order(alloc, &self.fresh)?;
        files::files_below(
            alloc,
            &self.ops,
            self.parts.as_slice(),
            fresh.as_slice(),
            count,
        )
    }

    /// An equal store, over the same texts. The cost goes with what is held.
    pub fn copy(&self, alloc: Global) -> Result<Store, AllocError>
        ensures { IfOk result (λ other. other ≡ self.now) }
    {
        let ops = copy_map(alloc, &self.ops)?;
        let parts = copy_parts(alloc, self.parts.as_slice())?;
        Ok(Store {
            ops,
            parts,
            fresh: self.fresh.clone()?,
            ids: self.ids.clone()?,
        })
    }

    /// The held operation of least number at or above n: a walk in ascending number, without a copy. The cost is
    /// a logarithm.
    pub fn next_from(&self, n: u64) -> Option<&Op>
        ensures { IsNext n (held self.now) (option_copied result) }
    {
        match self.ops.range(n..).next() {
            Some((_, op)) => Some(op),
            None => None,
        }
    }
}

impl Store {
    /// The live document of least id after the given one, or the least of all where none is given: by it a search
    /// reads the live documents one after another in the order of their ids, without a copy. It answers the
    /// operation that put the document in place. The cost is a logarithm, and one more for each id that is passed
    /// because its document is deleted.
    pub fn live_after(&self, id: Option<&DocId>) -> Option<&Op>
        ensures { IsNextLive (held self.now) (option_copied id.entry) (option_copied result) }
    {
        match id {
            Some(id) => self.first_live(self.ids.range((Bound::Excluded(id), Bound::Unbounded))),
            None => self.first_live(self.ids.range(..)),
        }
    }

    /// The live document of the first of these ids that has one.
    fn first_live(&self, ids: Range<'_, DocId, BTreeSet<u64>>) -> Option<&Op>
        ensures { option_copied result ≡ first_live (held self.now) (keys_of ids.entry) }
    {
        for (id, _) in ids {
            let found = self.live(id);
            if found.is_some() {
                return found;
            }
        }
        None
    }
}

/// The part of these numbers, whose segment is known to have less than 2^64 bytes.
fn part_of(ops: &BTreeMap<u64, Op>, numbers: Vec<u64>) -> Part
    requires { length (segment_of_ops (ops_of (kept_at ops.now.entries) numbers.items)) < 2 ^ 64 }
    ensures { result ≡ record { numbers = numbers.items; bytes = length (segment_of_ops (ops_of (kept_at ops.now.entries) numbers.items)) } }
{
    match segment_length(ops, numbers.as_slice()) {
        Ok(bytes) => Part::new(numbers, bytes),
        Err(_) => unreachable!(),
    }
}

/// How large these parts are.
fn sizes_of(alloc: Global, parts: &[Part]) -> Result<Vec<PartSize>, AllocError>
    ensures { IfOk result (λ sizes. sizes.items ≡ map part_size parts.now) }
{
    let mut sizes = Vec::with_capacity(alloc, parts.len())?;
    for part in parts {
        sizes.push(PartSize {
            ops: part.as_slice().len() as u64,
            bytes: part.bytes(),
        })?;
    }
    Ok(sizes)
}

/// Keeps an operation under a number.
fn add(ops: &mut BTreeMap<u64, Op>, n: u64, op: Op) -> Result<(), AllocError>
    ensures { OnOk result (ops.new.entries ≡ insert_entry nat_cmp ops.old.entries n op) }
{
    match ops.insert(n, op) {
        Ok(_) => Ok(()),
        Err(_) => Err(AllocError),
    }
}

/// Equal operations under the same numbers.
fn copy_map(alloc: Global, ops: &BTreeMap<u64, Op>) -> Result<BTreeMap<u64, Op>, AllocError>
    ensures { IfOk result (λ copies. copies.entries ≡ ops.now.entries) }
{
    let mut copies = BTreeMap::new(alloc);
    for (n, op) in ops.iter() {
        let copied = op.copy(alloc)?;
        add(&mut copies, *n, copied)?;
    }
    Ok(copies)
}

/// Equal parts.
fn copy_parts(alloc: Global, parts: &[Part]) -> Result<Vec<Part>, AllocError>
    ensures { IfOk result (λ copies. copies.items ≡ parts.now) }
{
    let mut copies = Vec::with_capacity(alloc, parts.len())?;
    for part in parts {
        copies.push(part.copy(alloc)?)?;
    }
    Ok(copies)
}

/// The operation, where it puts a document in place.
fn index_only(op: &Op) -> Option<&Op>
    ensures { option_copied result ≡ only_index op.now }
{
    match op.kind() {
        Kind::Index { .. } => Some(op),
        Kind::Delete { .. } => None,
        Kind::NoOp => None,
    }
}

/// The numbers of a set, in ascending order.
fn in_order(alloc: Global, numbers: &BTreeSet<u64>) -> Result<Vec<u64>, AllocError>
    ensures keys { IfOk result (λ all. all.items ≡ numbers.now.keys) }
    ensures order { IfOk result (λ all. Ascend 0 all.items) }
{
    numbers.iter().copied().collect(alloc)
}

/// Keeps an operation of a new number, which comes into the open part. After want of memory both are as
/// before, and the operation comes back.
fn keep(
    ops: &mut BTreeMap<u64, Op>,
    fresh: &mut BTreeSet<u64>,
    op: Op,
) -> Result<(), AllocFailed<Op>>
    requires { kept_at ops.old.entries op.seq ≡ None }
    ensures ok { OnOk result (IsTaken op ops.old.entries ops.new.entries fresh.old.keys fresh.new.keys) }
    ensures value_returned { IfErr result (λ refused. refused.value ≡ op) }
    ensures err { OnErr result (IsLeft ops.old.entries ops.new.entries fresh.old.keys fresh.new.keys) }
{
    let n = op.seq();
    if let Err(refused) = ops.insert(n, op) {
        let (_, op) = refused.value;
        return Err(AllocFailed { value: op });
    }
    if fresh.insert(n).is_err() {
        match ops.remove(&n) {
            Some(op) => return Err(AllocFailed { value: op }),
            None => unreachable!(),
        }
    }
    Ok(())
}
