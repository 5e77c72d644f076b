//! Which parts of a copy's store a merge joins. A policy sees the parts' sizes and picks places; any
//! list of places is a lawful answer.
#![tactic(auto)]

ghost use Rattle.std.specs.Prelude.{◌≡◌, ℕ, ◌+◌, ◌*◌, ◌^◌, ◌<◌, ◌≤◌, List, [], ◌∷◌, IfOk, OnOk, OnErr};
ghost use Rattle.std.specs.List.{range_with_len};
ghost use Rattle.ccr_policy.specs.declared.PartSize.{PartSize};
ghost use Rattle.ccr_policy.specs.Fate.{binary_digits, first_places, last_sizes, least_tier, parts_in, parts_seen, places_in, tier_places};

use std::alloc::{AllocError, Global};
use std::marker::Model;

// A 64-bit number has 0 to 64 binary digits.
const TIERS: u32 = 65;

/// How large a part of a store is.
#[derive(Clone, Copy, Debug, PartialEq, Eq)]
pub struct PartSize {
    /// How many operations it holds.
    pub ops: u64,
    /// How many bytes they take.
    pub bytes: u64,
}

/// Places in a list of parts, in the order of picking.
#[derive(Debug, Drop)]
pub struct Picks {
    places: Vec<usize>,
}

impl Model for Picks {
    ghost use Rattle.std.specs.Prelude.{List, ℕ};

    ghost Value = { List ℕ };

    ghost view = { λ p. p.places.items };
}

impl Picks {
    /// The picks of these places. It takes no memory.
    pub fn of(places: Vec<usize>) -> Picks
        ensures { result ≡ places.items }
    {
        Picks { places }
    }

    /// The places. It takes no memory.
    pub fn into_places(self) -> Vec<usize>
        ensures { result.items ≡ self }
    {
        let Picks { places } = self;
        places
    }

    pub fn as_slice(&self) -> &[usize]
        ensures { result.now ≡ self.now }
    {
        self.places.as_slice()
    }

    /// Equal picks.
    pub fn copy(&self, alloc: Global) -> Result<Picks, AllocError>
        ensures { IfOk result (λ other. other ≡ self.now) }
    {
        let places = Vec::from_slice(alloc, self.places.as_slice())?;
        Ok(Picks { places })
    }
}

/// A policy of merges. Its meaning is `fate`: for a list of size lists, the picks that `pick` gives
/// once these have been observed in turn.
pub trait MergePolicy: Send + Drop {
    ghost fate: { Self → List (List PartSize) → List ℕ };

    /// Notes the sizes of a store's closed parts, in their order.
    fn observe(&mut self, alloc: Global, sizes: &[PartSize]) -> Result<(), AllocError>
        ensures observed { OnOk result ((seen : List (List PartSize)) → fate self.new seen ≡ fate self.old (sizes.now ∷ seen)) }
        ensures err { OnErr result ((seen : List (List PartSize)) → fate self.new seen ≡ fate self.old seen) };

    /// Picks parts of the list that was observed last.
    fn pick(&mut self, alloc: Global) -> Result<Picks, AllocError>
        ensures picks { IfOk result (λ picks. picks ≡ fate self.old []) }
        ensures kept { (seen : List (List PartSize)) → fate self.new seen ≡ fate self.old seen };
}

/// Lets a boxed policy observe sizes and pick.
pub fn ask(
    policy: &mut Box<dyn MergePolicy>,
    alloc: Global,
    sizes: &[PartSize],
) -> Result<Picks, AllocError>
    ensures picks { IfOk result (λ picks. picks ≡ fate policy.old (sizes.now ∷ [])) }
    ensures observed { OnOk result ((seen : List (List PartSize)) → fate policy.new seen ≡ fate policy.old (sizes.now ∷ seen)) }
{
    policy.observe(alloc, sizes)?;
    let picks = policy.pick(alloc)?;
    Ok(picks)
}

/// Picks the first parts.
#[derive(Drop)]
pub struct Oldest {
    most: usize,
    parts: usize,
}

impl Oldest {
    /// Picks the first `most` parts, or all where there are fewer.
    pub fn new(most: usize) -> Oldest
        ensures { (seen : List (List PartSize)) → ⟦<Oldest as MergePolicy>⟧.fate result seen ≡ first_places most (parts_seen 0 seen) }
    {
        Oldest { most, parts: 0 }
    }
}

impl MergePolicy for Oldest {
    ghost fate = { λ policy seen. first_places policy.most (parts_seen policy.parts seen) };

    fn observe(&mut self, _alloc: Global, sizes: &[PartSize]) -> Result<(), AllocError> {
        self.parts = sizes.len();
        Ok(())
    }

    fn pick(&mut self, alloc: Global) -> Result<Picks, AllocError> {
        let places = places_below(alloc, self.most.min(self.parts))?;
        Ok(Picks::of(places))
    }
}

/// Picks the parts of one tier. A part's tier is the number of binary digits of its operations, so
/// the parts of a tier differ in size by less than a factor of 2.
#[derive(Drop)]
pub struct Tiered {
    per_tier: usize,
    sizes: Vec<PartSize>,
}

impl Tiered {
    /// Picks the parts of the least tier that has at least `per_tier` parts, and none where no tier has.
    pub fn new(alloc: Global, per_tier: usize) -> Tiered
        ensures { (seen : List (List PartSize)) → ⟦<Tiered as MergePolicy>⟧.fate result seen ≡ tier_places per_tier (last_sizes [] seen) }
    {
        Tiered {
            per_tier,
            sizes: Vec::new(alloc),
        }
    }
}

impl MergePolicy for Tiered {
    ghost fate = { λ policy seen. tier_places policy.per_tier (last_sizes policy.sizes.items seen) };

    fn observe(&mut self, alloc: Global, sizes: &[PartSize]) -> Result<(), AllocError> {
        self.sizes = Vec::from_slice(alloc, sizes)?;
        Ok(())
    }

    #[tactic(auto, unfolding(crate::specs::Fate::tier_places))]
    fn pick(&mut self, alloc: Global) -> Result<Picks, AllocError> {
        let Some(tier) = least_tier(&self.sizes, TIERS, self.per_tier) else {
            return Ok(Picks::of(Vec::new(alloc)));
        };
        let places = places_in(alloc, &self.sizes, tier)?;
        Ok(Picks::of(places))
    }
}

/// Picks no part.
#[derive(Clone, Copy)]
pub struct Never;

impl MergePolicy for Never {
    ghost fate = { λ _ _. [] };

    fn observe(&mut self, _alloc: Global, _sizes: &[PartSize]) -> Result<(), AllocError> {
        Ok(())
    }

    fn pick(&mut self, alloc: Global) -> Result<Picks, AllocError> {
        Ok(Picks::of(Vec::new(alloc)))
    }
}

fn binary_digits(ops: u64) -> u32
    ensures value { result ≡ binary_digits ops }
    ensures fits { ops < 2 ^ result }
    ensures least { 2 ^ result ≤ 2 * ops + 1 }
{
    u64::BITS - ops.leading_zeros()
}

fn parts_in(sizes: &[PartSize], tier: u32) -> usize
    ensures { result ≡ parts_in tier sizes.now }
{
    sizes
        .iter()
        .filter(|part| binary_digits(part.ops) == tier)
        .count()
}

#[tactic(auto, unfolding(crate::specs::Fate::least_tier))]
fn least_tier(sizes: &[PartSize], tiers: u32, per_tier: usize) -> Option<u32>
    ensures { result ≡ least_tier tiers per_tier sizes.now }
{
    (0..tiers).find(|tier| per_tier <= parts_in(sizes, *tier))
}

fn places_in(alloc: Global, sizes: &[PartSize], tier: u32) -> Result<Vec<usize>, AllocError>
    ensures { IfOk result (λ places. places.items ≡ places_in tier sizes.now) }
{
    sizes
        .iter()
        .enumerate()
        .filter(|(_, part)| binary_digits(part.ops) == tier)
        .map(|(at, _)| at)
        .collect(alloc)
}

fn places_below(alloc: Global, count: usize) -> Result<Vec<usize>, AllocError>
    ensures { IfOk result (λ places. places.items ≡ range_with_len 0 count) }
{
    let mut places = Vec::new(alloc);
    for place in 0..count {
        places.push(place)?;
    }
    Ok(places)
}

#[cfg(test)]
mod tests {
    use super::*;
    use std::test::Fail;

    fn sizes() -> [PartSize; 5] {
        [1, 3, 2, 900, 2].map(|ops| PartSize { ops, bytes: 64 })
    }

    #[test]
    fn picks_by_policy(rt: HostRuntime) -> Result<(), Fail> {
        let alloc = rt.alloc();
        let mut oldest: Box<dyn MergePolicy> = Box::new(alloc, Oldest::new(2))?;
        let picks = ask(&mut oldest, alloc, &sizes())?;
        assert_eq!(rt; picks.as_slice(), [0, 1].as_slice());
        let mut tiered: Box<dyn MergePolicy> = Box::new(alloc, Tiered::new(alloc, 3))?;
        let picks = ask(&mut tiered, alloc, &sizes())?.copy(alloc)?;
        assert_eq!(rt; picks.as_slice(), [1, 2, 4].as_slice());
        let mut never: Box<dyn MergePolicy> = Box::new(alloc, Never)?;
        let picks = ask(&mut never, alloc, &sizes())?;
        assert_eq!(rt; picks.into_places().len(), 0);
        Ok(())
    }
}
