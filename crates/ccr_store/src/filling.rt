ghost use Rattle.std.specs.Prelude.{◌≡◌, ◌∷◌, ◌++◌, [], List, false, map, IfOk, OnOk};
ghost use Rattle.std.specs.List.{AllByRecursion};
ghost use Rattle.ccr_op.specs.Operation.{Operation};
ghost use Rattle.ccr_segment.specs.Segment.{AscendsFrom};
ghost use Rattle.ccr_model.specs.Operations.{has_number};
ghost use Rattle.ccr_store.specs.Kept.{all_of, closed_of, numbers_in, AreOnce, IsHolding};

use crate::by_id::{ById, note};
use crate::parts::Part;
use ccr_op::Op;
use ccr_segment::Segment;
use std::alloc::{AllocError, Global};
use std::collections::BTreeMap;

/// Keeps an operation of a new number, and lists it for its id.
fn take_op(
    alloc: Global,
    ops: &mut BTreeMap<u64, Op>,
    ids: &mut ById,
    op: Op,
) -> Result<(), AllocError>
    ensures { OnOk result ((all : List Operation) → IsHolding all ops.old.entries ids.old.entries → has_number all op.seq ≡ false → IsHolding (all ++ op ∷ []) ops.new.entries ids.new.entries) }
{
    note(alloc, ids, &op)?;
    ops.insert(op.seq(), op)?;
    Ok(())
}

/// Keeps the operations of a file, and gives their numbers.
fn take_ops(
    alloc: Global,
    ops: &mut BTreeMap<u64, Op>,
    ids: &mut ById,
    file: Vec<Op>,
) -> Result<Vec<u64>, AllocError>
    ensures numbers { IfOk result (λ numbers. numbers.items ≡ numbers_in file.items) }
    ensures held { OnOk result ((all : List Operation) → IsHolding all ops.old.entries ids.old.entries → AreOnce (all ++ file.items) → IsHolding (all ++ file.items) ops.new.entries ids.new.entries) }
{
    let mut numbers = Vec::with_capacity(alloc, file.len())?;
    for op in file {
        numbers.push(op.seq())?;
        take_op(alloc, ops, ids, op)?;
    }
    Ok(numbers)
}

/// Keeps the operations of a file, which are a closed part from then on.
fn take_file(
    alloc: Global,
    ops: &mut BTreeMap<u64, Op>,
    ids: &mut ById,
    file: &Segment,
) -> Result<Part, AllocError>
    ensures part { IfOk result (λ part. part ≡ closed_of file.now) }
    ensures order { AscendsFrom 0 file.now }
    ensures held { OnOk result ((all : List Operation) → IsHolding all ops.old.entries ids.old.entries → AreOnce (all ++ file.now) → IsHolding (all ++ file.now) ops.new.entries ids.new.entries) }
{
    let bytes = file.bytes().len() as u64;
    let numbers = take_ops(alloc, ops, ids, file.all(alloc)?)?;
    Ok(Part::new(numbers, bytes))
}

/// Keeps the operations of all files, each of which is a closed part from then on. A file is let go once it is read.
pub fn take_files(
    alloc: Global,
    files: Vec<Segment>,
    ops: &mut BTreeMap<u64, Op>,
    ids: &mut ById,
) -> Result<Vec<Part>, AllocError>
    requires none { IsHolding [] ops.old.entries ids.old.entries }
    requires once { AreOnce (all_of files.items) }
    ensures parts { IfOk result (λ parts. parts.items ≡ map closed_of files.items) }
    ensures order { OnOk result (AllByRecursion (AscendsFrom 0) files.items) }
    ensures held { OnOk result (IsHolding (all_of files.items) ops.new.entries ids.new.entries) }
{
    let mut parts = Vec::with_capacity(alloc, files.len())?;
    for file in files {
        let part = take_file(alloc, ops, ids, &file)?;
        parts.push(part)?;
    }
    Ok(parts)
}
