// What the operations of a reply come to.
ghost use Rattle.std.specs.Prelude.{◌≡◌, nat_lt, if◌then◌else◌, filter, length, IfOk};
ghost use Rattle.ccr_model.specs.Tasks.{end_of_ops};

use ccr_op::{Count, Op};
use std::alloc::{AllocError, Global};

/// The operations that are kept: all, or those below `to`. None is copied.
pub(crate) fn kept(alloc: Global, ops: Vec<Op>, all: bool, to: Count) -> Result<Vec<Op>, AllocError>
    ensures { IfOk result (λ kept. kept.items ≡ (if all then ops.items else filter (λ op. nat_lt op.seq to) ops.items)) }
{
    if all {
        return Ok(ops);
    }
    below(alloc, ops, to)
}

/// The operations below `to`.
fn below(alloc: Global, ops: Vec<Op>, to: Count) -> Result<Vec<Op>, AllocError>
    ensures { IfOk result (λ kept. kept.items ≡ filter (λ op. nat_lt op.seq to) ops.items) }
{
    let mut kept = Vec::new(alloc);
    for op in ops {
        if op.seq() >= to {
            continue;
        }
        kept.push(op)?;
    }
    Ok(kept)
}

/// How many of the operations stand below `to`.
pub(crate) fn count_below(ops: &[Op], to: Count) -> u64
    ensures { result ≡ length (filter (λ op. nat_lt op.seq to) ops.now) }
{
    let mut below = 0;
    for op in ops {
        if op.seq() >= to {
            continue;
        }
        below += 1;
    }
    below
}

/// One more than the greatest number of the operations, and `next` where that is more.
pub(crate) fn end_of(ops: &[Op], next: Count) -> Result<Count, AllocError>
    ensures { IfOk result (λ end. end ≡ end_of_ops ops.now next) }
{
    let mut end = next;
    for op in ops {
        let Some(after) = op.seq().checked_add(1) else {
            return Err(AllocError);
        };
        end = end.max(after);
    }
    Ok(end)
}

/// The least number that was never asked for, after a reply.
pub(crate) fn next_after(ops: &[Op], next: Count, all: bool) -> Result<Count, AllocError>
    ensures { IfOk result (λ end. end ≡ (if all then end_of_ops ops.now next else next)) }
{
    if !all {
        return Ok(next);
    }
    end_of(ops, next)
}
