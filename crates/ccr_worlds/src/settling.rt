// Worlds are settled one after another.
ghost use Rattle.std.specs.Prelude.{◌≡◌, ℕ, List, map, OnOk, OnErr};
ghost use Rattle.ccr_deeds.specs.Settles.{EachWorld, IsSettled, MayBeSettled};
ghost use Rattle.ccr_worlds.specs.Fated.{Fate, Fated, AreFated, log_of, standing_of};

use ccr_shard_world::{Chooser, World};
use std::alloc::AllocError;

/// Settles each world. After want of memory those before one of them are settled, that one has done a part or all of
/// what settles it, and those behind it are as they were. No policy is asked.
pub(crate) fn settle_each<P: Chooser>(worlds: &mut [World<P>]) -> Result<(), AllocError>
    ensures ok { OnOk result (EachWorld IsSettled (map (λ w. log_of w.recorded) worlds.old) (map (λ w. log_of w.recorded) worlds.new)) }
    ensures err { OnErr result (EachWorld MayBeSettled (map (λ w. log_of w.recorded) worlds.old) (map (λ w. log_of w.recorded) worlds.new)) }
    ensures fated { (fates : ℕ → Fate) (n : ℕ) (left : List Fate)
        → AreFated fates n (map (λ w. standing_of P.fate w.recorded w.policy) worlds.old) left
        → AreFated fates n (map (λ w. standing_of P.fate w.recorded w.policy) worlds.new) left }
{
    for world in worlds.iter_mut() {
        settle_one(world)?;
    }
    Ok(())
}

// Settles a world, unless it is broken. Of a broken one the policy may have seen what it picked nothing for: it is left
// as it is.
fn settle_one<P: Chooser>(world: &mut World<P>) -> Result<(), AllocError>
    ensures ok { OnOk result (IsSettled (log_of world.old.recorded) (log_of world.new.recorded)) }
    ensures err { OnErr result (MayBeSettled (log_of world.old.recorded) (log_of world.new.recorded)) }
    ensures fated { (first : Fate)
        → Fated first (standing_of P.fate world.old.recorded world.old.policy)
        → Fated first (standing_of P.fate world.new.recorded world.new.policy) }
{
    let _whole = world.note(0)?;
    world.settle_alone()
}
