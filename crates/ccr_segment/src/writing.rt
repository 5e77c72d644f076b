ghost use Rattle.std.specs.Prelude.{◌≡◌, ◌<◌, ◌^◌, length, IfOk};
ghost use Rattle.std.specs.List.{AllByRecursion};
ghost use Rattle.ccr_op.specs.Operation.{HasSpelling as OpHasSpelling};
ghost use Rattle.ccr_segment.specs.Segment.{AscendsFrom, HasSpelling, spelling};

use crate::Writer;
use ccr_op::Op;
use std::alloc::{AllocError, Global};

/// Operations can be spelled.
fn know_ops(ops: &[Op])
    ensures { AllByRecursion OpHasSpelling ops.now }
{
    for op in ops {
        let _kind = op.kind();
    }
}

/// How many bytes the segment of these operations takes: 9 and those of each operation.
pub fn size(ops: &[Op]) -> u64
    requires { length ops.now < 2 ^ 32 }
    ensures { result ≡ length (spelling ops.now) }
{
    let mut size = 9;
    for op in ops {
        let _fits = op.kind();
        size += op.size();
    }
    size
}

/// The one spelling of a segment of operations in strictly ascending number: `CCRS`, the version, their
/// number, and the operations. The version is 2 where an operation has a routing, and else 1. This takes time
/// and one piece of memory with its length.
pub fn write(alloc: Global, ops: &[Op]) -> Result<Vec<u8>, AllocError>
    requires count { length ops.now < 2 ^ 32 }
    requires order { AscendsFrom 0 ops.now }
    ensures spelled { IfOk result (λ bytes. bytes.items ≡ spelling ops.now) }
    ensures fits { HasSpelling ops.now }
{
    know_ops(ops);
    let mut writer = Writer::new(alloc, size(ops) as usize)?;
    for op in ops {
        writer.push(op)?;
    }
    Ok(writer.finish())
}
