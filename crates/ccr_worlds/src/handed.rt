// Whose policies pick.
use std::marker::Brand;

/// The policies that were handed in, told by what they pick: the first for the first world, and so on. A type stands
/// for them, so that the worlds of a run keep in their type whose picks theirs are.
pub trait Handed {
    ghost use Rattle.std.specs.Prelude.{List, ℕ};
    ghost use Rattle.ccr_policy.specs.declared.PartSize.{PartSize};

    ghost fates: { ℕ → List (List PartSize) → List ℕ };
}

impl Handed for Brand {
    ghost use Rattle.std.specs.Prelude.{[]};

    ghost fates = { λ n seen. [] };
}
