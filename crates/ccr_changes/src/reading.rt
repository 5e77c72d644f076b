ghost use Rattle.std.specs.Prelude.{◌≡◌, ◌<◌, IfOk};
ghost use Rattle.ccr_model.specs.Operations.{cut_of, run_from};
ghost use Rattle.ccr_changes.specs.Cuts.{cut_from};

use crate::Cut;
use ccr_op::{Batch, Count, History, Op};
use std::alloc::{AllocError, Global};

/// What a read from a number on brings: the longest run of operations one after another below the global
/// count, with at most so many operations and at most so many bytes, and the first operation alone where not
/// even that is within these bounds (Elastic reference, follower requests of cross-cluster replication:
/// `max_read_request_operation_count` and `max_read_request_size`).
///
/// It asks the history for one operation after another and stops at a bound, so its cost goes with what it
/// brings.
pub fn cut<H: History>(
    alloc: Global,
    history: &H,
    from: Count,
    max_ops: u64,
    max_bytes: u64,
) -> Result<Cut, AllocError>
    ensures { IfOk result (λ cut. cut ≡ cut_from (H.held history.now) (H.floor_of history.now) (H.global_of history.now) from max_ops max_bytes) }
{
    let floor = history.floor();
    if from < floor {
        return Ok(Cut::Missing { from, floor });
    }
    let global = history.global();
    if from >= global {
        return Ok(Cut::Wait { global });
    }
    let ops = read_run(alloc, history, from, global, max_ops, max_bytes)?;
    Ok(Cut::Ops {
        list: Batch::new(ops),
        global,
    })
}

/// The longest front of the run from a number on that is within both bounds, or its first operation alone.
fn read_run<H: History>(
    alloc: Global,
    history: &H,
    from: Count,
    global: Count,
    max_ops: u64,
    max_bytes: u64,
) -> Result<Vec<Op>, AllocError>
    requires { from < global }
    ensures { IfOk result (λ ops. ops.items ≡ cut_of max_ops max_bytes (run_from (H.held history.now) from global)) }
{
    let mut ops = Vec::new(alloc);
    let Some(first) = history.get(from) else {
        return Ok(ops);
    };
    let mut left = max_ops.saturating_sub(1);
    let mut room = max_bytes.saturating_sub(first.size());
    let copy = first.copy(alloc)?;
    ops.push(copy)?;
    for n in from + 1..global {
        let Some(op) = history.get(n) else {
            break;
        };
        let size = op.size();
        if left == 0 || size > room {
            break;
        }
        left -= 1;
        room -= size;
        let copy = op.copy(alloc)?;
        ops.push(copy)?;
    }
    Ok(ops)
}
