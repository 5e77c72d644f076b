ghost use Rattle.std.specs.Prelude.{◌≡◌, ℕ, ◌==◌, List, find, option_copied, IfOk};
ghost use Rattle.ccr_op.specs.Operation.{Operation};

use crate::{Count, Op};
use std::alloc::{AllocError, Global};

/// The operations that a copy of a shard holds, and how far it stands, for one who reads its changes.
///
/// A read goes by numbers: it asks for one operation after another, up to the global count, and a copy says
/// from which number on it still has them all (Elastic reference, cross-cluster replication, soft deletes and
/// retention of history).
pub trait History {
    // The operations that it holds.
    ghost held: { Self → List Operation };

    // The least number from which on no operation was given up.
    ghost floor_of: { Self → ℕ };

    // The least number that it has not processed.
    ghost processed_of: { Self → ℕ };

    // The number below which every in-sync copy has processed all, as far as this copy knows.
    ghost global_of: { Self → ℕ };

    /// The operation of a number, by loan, or `None` exactly where it holds none. This is to cost no scan of
    /// what it holds.
    fn get(&self, n: u64) -> Option<&Op>
        ensures { option_copied result ≡ find (λ op. op.seq == n) (held self.now) };

    /// The least number from which on no operation was given up.
    fn floor(&self) -> Count
        ensures { result ≡ floor_of self.now };

    /// The least number that it has not processed: one more than its local checkpoint.
    fn processed(&self) -> Count
        ensures { result ≡ processed_of self.now };

    /// The number below which every in-sync copy has processed all, as far as this copy knows: one more than
    /// the global checkpoint.
    fn global(&self) -> Count
        ensures { result ≡ global_of self.now };

    /// An equal operation to the one of a number, or `None` exactly where it holds none.
    fn op_at(&self, alloc: Global, n: u64) -> Result<Option<Op>, AllocError>
        ensures { IfOk result (λ found. found ≡ find (λ op. op.seq == n) (held self.now)) }
    {
        let Some(op) = self.get(n) else {
            return Ok(None);
        };
        let copy = op.copy(alloc)?;
        Ok(Some(copy))
    }
}
