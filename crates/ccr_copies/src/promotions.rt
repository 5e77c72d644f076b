// How a copy becomes the primary of a term.
ghost use Rattle.std.specs.Prelude.{◌≡◌, length, IfOk, OnOk};
ghost use Rattle.ccr_model.specs.LeaderRows.{as_only_copy, as_primary, filled, missing_numbers};

use crate::CopySide;
use ccr_op::{Op, Term};
use std::alloc::{AllocError, Global};

impl CopySide {
    /// Takes no-ops of a term for the numbers below its greatest that it has not processed, and answers how many
    /// these were. The cost goes with the numbers from its count on to the greatest.
    pub(crate) fn fill_gaps(&mut self, alloc: Global, term: Term) -> Result<u64, AllocError>
        ensures ok { OnOk result (self.new ≡ filled term (missing_numbers self.old.seen) self.old) }
        ensures told { IfOk result (λ filled. filled ≡ length (missing_numbers self.old.seen)) }
        ensures number { self.new.number ≡ self.old.number }
    {
        let mut filled = 0;
        for seq in self.count()..self.seen().end() {
            if self.seen().has(seq) {
                continue;
            }
            self.take(alloc, Op::no_op(seq, term))?;
            filled += 1;
        }
        Ok(filled)
    }

    /// Becomes the primary of a term: its gaps are filled by no-ops, and its leases are of the new term at the
    /// version that they had. Answers how many numbers were filled.
    pub(crate) fn lead(&mut self, alloc: Global, term: Term) -> Result<u64, AllocError>
        ensures ok { OnOk result (self.new ≡ as_primary term self.old) }
        ensures told { IfOk result (λ filled. filled ≡ length (missing_numbers self.old.seen)) }
        ensures number { self.new.number ≡ self.old.number }
    {
        let filled = self.fill_gaps(alloc, term)?;
        self.begin_term(term);
        Ok(filled)
    }

    /// Becomes the primary of a term, alone: its gaps are filled by no-ops, all that it has is committed, and it
    /// has no lease. Answers how many numbers were filled.
    pub(crate) fn lead_alone(&mut self, alloc: Global, term: Term) -> Result<u64, AllocError>
        ensures ok { OnOk result (self.new ≡ as_only_copy term self.old) }
        ensures told { IfOk result (λ filled. filled ≡ length (missing_numbers self.old.seen)) }
        ensures number { self.new.number ≡ self.old.number }
    {
        let filled = self.fill_gaps(alloc, term)?;
        self.begin_alone(alloc, term);
        Ok(filled)
    }
}
