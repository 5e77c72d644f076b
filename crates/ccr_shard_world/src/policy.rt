// A policy that is asked in a world.
ghost use Rattle.std.specs.Prelude.{◌≡◌, ℕ, List, [], ◌∷◌, IfOk, OnOk, OnErr};
ghost use Rattle.ccr_policy.specs.declared.PartSize.{PartSize};
ghost use Rattle.ccr_model.specs.Policies.{picks_of};

use ccr_policy::{MergePolicy, PartSize, Picks};
use std::alloc::{AllocError, Global};

/// A policy of merges as a world asks it, which may or may not go to another thread. Its meaning is `fate`: for a list of
/// size lists, the picks that `pick` gives once these have been observed in turn.
pub trait Chooser: Drop {
    ghost fate: { Self → List (List PartSize) → List ℕ };

    /// Notes the sizes of a store's closed parts, in their order.
    fn observe(&mut self, alloc: Global, sizes: &[PartSize]) -> Result<(), AllocError>
        ensures observed { OnOk result ((seen : List (List PartSize)) → fate self.new seen ≡ fate self.old (sizes.now ∷ seen)) }
        ensures err { OnErr result ((seen : List (List PartSize)) → fate self.new seen ≡ fate self.old seen) };

    /// Picks parts of the list that was observed last.
    fn pick(&mut self, alloc: Global) -> Result<Picks, AllocError>
        ensures picks { IfOk result (λ picks. picks ≡ fate self.old []) }
        ensures kept { (seen : List (List PartSize)) → fate self.new seen ≡ fate self.old seen };
}

impl Chooser for Box<dyn MergePolicy> {
    ghost use Rattle.ccr_policy.specs.declared.PartSize.{PartSize};

    ghost fate = { λ any seen. (MergePolicy-box any).fate any.value seen };

    fn observe(&mut self, alloc: Global, sizes: &[PartSize]) -> Result<(), AllocError> {
        (**self).observe(alloc, sizes)
    }

    fn pick(&mut self, alloc: Global) -> Result<Picks, AllocError> {
        (**self).pick(alloc)
    }
}

/// Lets the policy see the sizes and pick. Without one there are no picks.
pub(crate) fn ask<P: Chooser>(
    policy: &mut Option<P>,
    alloc: Global,
    sizes: &[PartSize],
) -> Result<Picks, AllocError>
    ensures picks { IfOk result (λ picks. picks ≡ picks_of P.fate policy.old (sizes.now ∷ [])) }
    ensures observed { OnOk result ((seen : List (List PartSize)) → picks_of P.fate policy.new seen ≡ picks_of P.fate policy.old (sizes.now ∷ seen)) }
{
    match policy {
        Some(own) => ask_one(own, alloc, sizes),
        None => Ok(Picks::of(Vec::new(alloc))),
    }
}

fn ask_one<P: Chooser>(
    policy: &mut P,
    alloc: Global,
    sizes: &[PartSize],
) -> Result<Picks, AllocError>
    ensures picks { IfOk result (λ picks. picks ≡ P.fate policy.old (sizes.now ∷ [])) }
    ensures observed { OnOk result ((seen : List (List PartSize)) → P.fate policy.new seen ≡ P.fate policy.old (sizes.now ∷ seen)) }
{
    policy.observe(alloc, sizes)?;
    let picks = policy.pick(alloc)?;
    Ok(picks)
}
