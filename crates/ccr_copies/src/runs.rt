// Runs of numbers that follow on one another.
ghost use Rattle.std.specs.Prelude.{◌≡◌, ◌-◌, ◌<◌, ◌≤◌, ◌⊎◌, ℕ, true, OnOk};
ghost use Rattle.std.specs.List.{fold, range_with_len};
ghost use Rattle.ccr_tracker.specs.Numbers.{has, marked};
ghost use Rattle.ccr_model.specs.Operations.{has_number, run_from};
ghost use Rattle.ccr_model.specs.Stores.{held, stored_all};

use ccr_op::Count;
use ccr_store::Store;
use ccr_tracker::Tracker;
use std::alloc::{AllocError, Global};

/// Notes the numbers from one on and below another as processed.
pub fn mark_run(seen: &mut Tracker, from: Count, to: Count) -> Result<(), AllocError>
    ensures ok { OnOk result (seen.new ≡ fold marked seen.old (range_with_len from (to - from))) }
    ensures kept { (k : ℕ) → has seen.old k ≡ true → has seen.new k ≡ true }
    ensures run { OnOk result ((k : ℕ) → from ≤ k → k < to → has seen.new k ≡ true) }
{
    for n in from..to {
        seen.mark(n)?;
    }
    Ok(())
}

/// Takes equal operations to those that the other store holds from a number on, one after the other, below another.
pub fn take_run(
    alloc: Global,
    store: &mut Store,
    of: &Store,
    from: Count,
    to: Count,
) -> Result<(), AllocError>
    requires { (n : ℕ) → has_number (held store.old) n ≡ true → n < from }
    ensures ok { OnOk result (store.new ≡ stored_all (run_from (held of.now) from to) store.old) }
    ensures within { (n : ℕ) → has_number (held store.new) n ≡ true → (has_number (held store.old) n ≡ true) ⊎ ((from ≤ n) × (n < to)) }
{
    for n in from..to {
        let Some(op) = of.get(n) else {
            break;
        };
        let copied = op.copy(alloc)?;
        store.put(alloc, copied)?;
    }
    Ok(())
}
