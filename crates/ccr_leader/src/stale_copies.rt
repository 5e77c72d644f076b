ghost use Rattle.std.specs.Prelude.{◌≡◌, ◌≤◌, ◌<◌, ◌==◌, [], None, length, vec_len, drop, find, slice_get, IfNone, IfSome, MatchOption, OnOk};
ghost use Rattle.std.specs.List.{insert};
ghost use Rattle.ccr_model.specs.Copies.{Copy};
ghost use Rattle.ccr_model.specs.Leaders.{stale_of, with_copy, with_stale};

use ccr_copies::CopySide;
use std::alloc::{AllocError, Global};
use std::marker::Model;

/// The most copies that left and are kept.
pub(crate) const MOST_STALE: usize = 8;

/// The copies of a leader that left the in-sync set and are kept as they were, in ascending number.
#[derive(Drop)]
pub(crate) struct StaleCopies {
    copies: Vec<CopySide>,
}

impl Model for StaleCopies {
    ghost use Rattle.std.specs.Prelude.{List};
    ghost use Rattle.ccr_model.specs.Copies.{Copy as Modelled};

    ghost Value = { List Modelled };

    ghost view = { λ a. a.copies.items };
}

impl StaleCopies {
    /// None.
    pub(crate) fn new(alloc: Global) -> StaleCopies
        ensures { result ≡ [] }
    {
        StaleCopies {
            copies: Vec::new(alloc),
        }
    }

    /// Keeps a copy. Where that is one too many, the one of least number is forgotten.
    pub(crate) fn keep(&mut self, copy: CopySide) -> Result<(), AllocError>
        ensures { OnOk result (self.new ≡ with_stale copy self.old) }
    {
        insert(&mut self.copies, copy)?;
        let many = self.copies.len().saturating_sub(MOST_STALE);
        forget_first(&mut self.copies, many);
        Ok(())
    }

    /// Takes the copy of a number out.
    pub(crate) fn take(&mut self, copy: u64) -> Option<CopySide>
        ensures taken { result ≡ stale_of self.old copy }
        ensures none { IfNone result (self.new ≡ self.old) }
    {
        let place = place_of(&self.copies, copy)?;
        Some(self.copies.remove(place))
    }

    /// None is kept any more.
    pub(crate) fn clear(&mut self)
        ensures { self.new ≡ [] }
    {
        self.copies.clear();
    }
}

/// The copy stands before those of greater number.
fn insert(copies: &mut Vec<CopySide>, copy: CopySide) -> Result<(), AllocError>
    ensures { OnOk result (copies.new.items ≡ with_copy copy copies.old.items) }
{
    let place = place_for(copies, copy.number());
    copies.insert(place, copy)?;
    Ok(())
}

/// The first copies go, that many.
fn forget_first(copies: &mut Vec<CopySide>, many: usize)
    requires { many ≤ vec_len copies.old }
    ensures { copies.new.items ≡ drop many copies.old.items }
{
    for _ in 0..many {
        copies.remove(0);
    }
}

/// The place of the copy of a number.
fn place_of(copies: &[CopySide], copy: u64) -> Option<usize>
    ensures place { MatchOption result (find (λ c. c.number == copy) copies.now ≡ None) (λ place. find (λ c. c.number == copy) copies.now ≡ slice_get copies.now place) }
    ensures within { IfSome result (λ place. place < length copies.now) }
{
    for (place, other) in copies.iter().enumerate() {
        if u64::from(other.number()) == copy {
            return Some(place);
        }
    }
    None
}

/// The place of the first copy of greater number, or the end.
fn place_for(copies: &[CopySide], number: u32) -> usize
    ensures within { result ≤ length copies.now }
    ensures place { (c : Copy) → c.number ≡ number → with_copy c copies.now ≡ insert copies.now result c }
{
    for (place, other) in copies.iter().enumerate() {
        if number < other.number() {
            return place;
        }
    }
    copies.len()
}
