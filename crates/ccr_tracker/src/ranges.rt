//! A set of numbers, kept as its ranges.
ghost use Rattle.std.specs.Prelude.{◌≡◌, ℕ, ◌+◌, ◌<◌, ◌≤◌, ◌==◌, ◌||◌, ◌&&◌, ◌↔◌, [], false, nat_lt, IsTrue, IsSome, IfOk, IfSome, IfNone, OnOk, OnErr};
ghost use Rattle.std.specs.BTreeMap.{is_at};
ghost use Rattle.std.specs.Map.{lookup, set_value};
ghost use Rattle.std.specs.Ordering.{nat_cmp};
ghost use Rattle.ccr_tracker.specs.Numbers.{IsEnd, IsFirstLacking};
ghost use Rattle.ccr_tracker.specs.Ranges.{AreApart, IsBefore, IsNextAbsent, covers, end_from, start_of};

use std::alloc::{AllocError, Global};
use std::collections::BTreeMap;
use std::marker::Model;

/// A set of numbers below `u64::MAX`: for each of its ranges the first number, and the first one after
/// it. A range never begins where another ends, so numbers that follow on take one entry.
#[derive(Drop)]
pub struct Ranges {
    by_start: BTreeMap<u64, u64>,
}

impl Model for Ranges {
    ghost use Rattle.std.specs.Prelude.{List, ℕ};
    ghost use Rattle.ccr_tracker.specs.Ranges.{AreApart};

    ghost Value = { List (ℕ × ℕ) };

    ghost view = { λ r. r.by_start.entries };

    ghost invariant = { λ r. AreApart 0 r.by_start.entries };
}

impl Ranges {
    /// The empty set.
    pub fn new(alloc: Global) -> Ranges
        ensures { result ≡ [] }
    {
        Ranges {
            by_start: BTreeMap::new(alloc),
        }
    }

    /// Whether the set is empty.
    pub fn is_empty(&self) -> bool
        ensures { IsTrue result ↔ (self.now ≡ []) }
    {
        self.by_start.is_empty()
    }

    /// Whether the number is in the set. The cost is a logarithm of how many ranges there are.
    pub fn has(&self, n: u64) -> bool
        ensures { result ≡ covers self.now n }
    {
        match self.before(n) {
            Some((_, end)) => n < end,
            None => false,
        }
    }

    /// The least number from `n` on that is absent. The cost is a logarithm of how many ranges there are.
    pub fn first_absent_from(&self, n: u64) -> u64
        ensures { IsNextAbsent (covers self.now) n result }
    {
        if let Some((_, end)) = self.before(n) {
            if n < end {
                return end;
            }
        }
        n
    }

    /// One more than the greatest number of the set, where it has one.
    pub fn end(&self) -> Option<u64>
        ensures end { IfSome result (λ end. (0 < end) × IsEnd (covers self.now) end) }
        ensures none { IfNone result (self.now ≡ []) }
    {
        match self.by_start.last_key_value() {
            Some((_, end)) => Some(*end),
            None => None,
        }
    }

    /// The least number of the set that is neither below `count` nor held by the other set, or `None` exactly where
    /// there is none. The cost is a logarithm of how many ranges the other has, for each range of this one.
    pub fn first_outside(&self, count: u64, held: &Ranges) -> Option<u64>
        ensures { IsFirstLacking (covers self.now) (λ k. nat_lt k count || covers held.now k) result }
    {
        for (first, end) in &self.by_start {
            let absent = held.first_absent_from(count.max(*first));
            if absent < *end {
                return Some(absent);
            }
        }
        None
    }

    /// Adds an absent number, which joins the ranges that it touches. It takes memory for one range at most, and the
    /// cost is a logarithm of how many there are.
    pub fn insert(&mut self, n: u64) -> Result<(), AllocError>
        requires in_range { n < u64.MAX }
        requires absent { covers self.old n ≡ false }
        ensures members { OnOk result ((k : ℕ) → covers self.new k ≡ (covers self.old k || (k == n))) }
        ensures apart { OnOk result (AreApart 0 self.new) }
        ensures err { OnErr result (self.new ≡ self.old) }
    {
        let start = self.start_of(n);
        let end = self.end_from(n + 1);
        self.by_start.insert(start, end)?;
        let _ = self.by_start.remove(&(n + 1));
        Ok(())
    }

    /// Takes out the numbers below `count` and those that follow on from it, and gives the least number from
    /// `count` on that was absent. Each range leaves once.
    pub fn take_from_count(&mut self, mut count: u64) -> u64
        ensures members { (k : ℕ) → (nat_lt k result || covers self.new k) ≡ (nat_lt k count || covers self.old k) }
        ensures apart { AreApart (result + 1) self.new }
    {
        while let Some((first, end)) = self.by_start.first_key_value() {
            let first = *first;
            if first > count {
                break;
            }
            count = count.max(*end);
            let _ = self.by_start.pop_first();
        }
        count
    }

    /// Takes out all numbers at or above `n`. It takes no memory, and its cost goes with the ranges that leave.
    pub fn cut_from(&mut self, n: u64)
        ensures members { (k : ℕ) → covers self.new k ≡ (covers self.old k && nat_lt k n) }
        ensures apart { AreApart 0 self.new }
    {
        while let Some((first, end)) = self.by_start.last_key_value() {
            let first = *first;
            if *end <= n {
                break;
            }
            if first < n {
                shorten(&mut self.by_start, first, n);
                break;
            }
            let _ = self.by_start.remove(&first);
        }
    }

    /// An equal set.
    pub fn copy(&self, alloc: Global) -> Result<Ranges, AllocError>
        ensures { IfOk result (λ other. other ≡ self.now) }
    {
        let mut by_start = BTreeMap::new(alloc);
        for (first, end) in &self.by_start {
            by_start.insert(*first, *end)?;
        }
        Ok(Ranges { by_start })
    }

    // The last of the ranges that begin at n or below, with its end.
    fn before(&self, n: u64) -> Option<(u64, u64)>
        ensures some { IfSome result (IsBefore self.now n) }
        ensures none { IfNone result (covers self.now n ≡ false) }
        ensures no_start { IfNone result (start_of self.now n ≡ n) }
    {
        match self.by_start.range(..=n).next_back() {
            Some((first, end)) => Some((*first, *end)),
            None => None,
        }
    }

    // Where the range that ends at n begins, and n where none ends there.
    fn start_of(&self, n: u64) -> u64
        ensures { result ≡ start_of self.now n }
    {
        match self.before(n) {
            Some((first, end)) => { if end == n { first } else { n } }
            None => n,
        }
    }

    // Where the range that begins at n ends, and n where none begins there.
    fn end_from(&self, n: u64) -> u64
        ensures { result ≡ end_from self.now n }
    {
        match self.by_start.get(&n) {
            Some(end) => *end,
            None => n,
        }
    }
}

// Lets the range that begins at `first` end at `end`.
fn shorten(by_start: &mut BTreeMap<u64, u64>, first: u64, end: u64)
    requires { IsSome (lookup (is_at (nat_cmp first)) by_start.old.entries) }
    ensures { by_start.new.entries ≡ set_value (is_at (nat_cmp first)) by_start.old.entries end }
{
    if let Some(last) = by_start.get_mut(&first) {
        *last = end;
    }
}
