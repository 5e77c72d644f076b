ghost use Rattle.std.specs.Prelude.{◌≡◌};
ghost use Rattle.ccr_model.specs.Stores.{capped};

use ccr_lease::Lease;
use ccr_op::Count;

/// The least of n and the leases' retaining numbers.
pub fn cap(leases: &[Lease], n: Count) -> Count
    ensures { result ≡ capped leases.now n }
{
    let mut least = n;
    for lease in leases {
        least = least.min(lease.number);
    }
    least
}
