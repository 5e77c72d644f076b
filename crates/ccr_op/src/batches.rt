ghost use Rattle.std.specs.Prelude.{◌≡◌, ◌↔◌, IfOk, IsTrue};
ghost use Rattle.ccr_op.specs.Sameness.{same_operations};

use crate::Op;
use std::alloc::{AllocError, Global};
use std::marker::Model;

/// A list of operations, as a read brings them and a write takes them.
#[derive(Debug, Drop)]
pub struct Batch {
    ops: Vec<Op>,
}

impl Model for Batch {
    ghost use Rattle.std.specs.Prelude.{List};
    ghost use Rattle.ccr_op.specs.Operation.{Operation};

    ghost Value = { List Operation };

    ghost view = { λ a. a.ops.items };
}

impl Batch {
    /// The batch of these operations.
    pub fn new(ops: Vec<Op>) -> Self
        ensures { result ≡ ops.items }
    {
        Batch { ops }
    }

    /// The operations.
    pub fn as_slice(&self) -> &[Op]
        ensures { result.now ≡ self.now }
    {
        self.ops.as_slice()
    }

    /// The operations, with their memory.
    pub fn into_vec(self) -> Vec<Op>
        ensures { result.items ≡ self }
    {
        self.ops
    }

    /// Whether the other has the same operations in the same order.
    #[tactic(auto, using(crate::proofs::Sameness::same_operations_are_equal))]
    pub fn is(&self, other: &Batch) -> bool
        ensures test { result ≡ same_operations self.now other.now }
        ensures equal { IsTrue result ↔ (self.now ≡ other.now) }
    {
        same_ops(self.ops.as_slice(), other.ops.as_slice())
    }

    /// An equal batch.
    pub fn copy(&self, alloc: Global) -> Result<Self, AllocError>
        ensures { IfOk result (λ other. other ≡ self.now) }
    {
        let ops = copy_ops(alloc, self.ops.as_slice())?;
        Ok(Batch { ops })
    }
}

/// Whether two lists have the same operations in the same order.
fn same_ops(a: &[Op], b: &[Op]) -> bool
    ensures { result ≡ same_operations a.now b.now }
{
    if a.len() != b.len() {
        return false;
    }
    for i in 0..a.len() {
        if !a[i].is(&b[i]) {
            return false;
        }
    }
    true
}

/// Equal operations, in the same order.
pub fn copy_ops(alloc: Global, ops: &[Op]) -> Result<Vec<Op>, AllocError>
    ensures { IfOk result (λ copies. copies.items ≡ ops.now) }
{
    let mut copies = Vec::with_capacity(alloc, ops.len())?;
    for op in ops {
        let copied = op.copy(alloc)?;
        copies.push(copied)?;
    }
    Ok(copies)
}
