ghost use Rattle.std.specs.Prelude.{◌≡◌, IfOk};
ghost use Rattle.ccr_lease.specs.Leases.{has_expired};

use ccr_op::{Count, LeaseId, Millis};
use std::alloc::{AllocError, Global};

/// A retention lease.
#[derive(Debug, Drop)]
pub struct Lease {
    /// Its id, of which a collection has one lease at most.
    pub id: LeaseId,
    /// The retaining number: the least sequence number that has to be kept.
    pub number: Count,
    /// When it was added or last renewed, in milliseconds.
    pub stamp: Millis,
}

impl Lease {
    /// Whether it has expired: `now` is above the stamp and the period together, both in milliseconds.
    /// The sum has no upper limit, and at the sum itself the lease still stands.
    pub fn has_expired(&self, now: Millis, period: Millis) -> bool
        ensures { result ≡ has_expired now period self.now }
    {
        now.saturating_sub(self.stamp) > period
    }

    /// An equal lease.
    pub fn copy(&self, alloc: Global) -> Result<Lease, AllocError>
        ensures { IfOk result (λ other. other ≡ self.now) }
    {
        let id = self.id.copy(alloc)?;
        Ok(Lease {
            id,
            number: self.number,
            stamp: self.stamp,
        })
    }
}

/// A lease that expired, and when that was seen.
#[derive(Debug, Drop)]
pub struct Expired {
    /// The id of the lease.
    pub id: LeaseId,
    /// When it was added or last renewed, in milliseconds.
    pub stamp: Millis,
    /// The reading of the clock at which it was dropped, in milliseconds.
    pub now: Millis,
}

impl Expired {
    /// An equal one.
    pub fn copy(&self, alloc: Global) -> Result<Expired, AllocError>
        ensures { IfOk result (λ other. other ≡ self.entry.now) }
    {
        let id = self.id.copy(alloc)?;
        Ok(Expired {
            id,
            stamp: self.stamp,
            now: self.now,
        })
    }
}
