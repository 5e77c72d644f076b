//! Which sequence numbers a copy of a shard has processed: a set of numbers that mostly fills in
//! order, with its local checkpoint.
//!
//! Elasticsearch marks each operation's sequence number as processed and works out the local
//! checkpoint from it: the greatest number such that all numbers up to it are processed. Here a
//! count stands for a checkpoint: it is one more, and so the least number that is not processed.
#![tactic(auto)]

ghost use Rattle.std.specs.Prelude.{◌≡◌, ℕ, ◌<◌, ◌==◌, ◌||◌, ◌&&◌, ◌↔◌, nat_lt, IsTrue, IfOk, OnOk, OnErr, if◌then◌else◌};
ghost use Rattle.ccr_tracker.specs.Ranges.{IsNextAbsent};
ghost use Rattle.ccr_tracker.specs.Numbers.{HasGap, HoldsBetween, IsCanonical, IsEnd, IsFirstLacking, IsLeastAbsent, OneForm, end_of, filled_below, has, kept_below, marked, no_numbers, risen};

mod ranges;

use ranges::Ranges;
use std::alloc::{AllocError, Global};
use std::marker::Model;

/// How many numbers from 0 on: one more than a checkpoint.
pub type Count = u64;

/// Whether `mark` found the number new.
#[derive(Clone, Copy, Debug, PartialEq, Eq)]
pub enum Marked {
    New,
    Seen,
}

/// A set of numbers below `u64::MAX`, kept as its least absent number and the ranges of the numbers above
/// that: numbers marked in order take no memory, and those above a gap one entry a range.
#[derive(Drop)]
pub struct Tracker {
    count: Count,
    above: Ranges,
}

impl Model for Tracker {
    ghost use Rattle.std.specs.Prelude.{◌+◌};
    ghost use Rattle.ccr_tracker.specs.Numbers.{Numbers};
    ghost use Rattle.ccr_tracker.specs.Ranges.{AreApart, numbers_of};

    ghost Value = { Numbers };

    ghost view = { λ t. record { count = t.count; above = numbers_of t.above } };

    ghost invariant = { λ t. AreApart (t.count + 1) t.above };
}

impl Tracker {
    /// The empty set.
    pub fn new(alloc: Global) -> Tracker
        ensures { result ≡ no_numbers }
    {
        Tracker {
            count: 0,
            above: Ranges::new(alloc),
        }
    }

    /// Adds a number, and says whether it was absent. A number that is the count takes no memory, and another
    /// that is new takes memory for one range at most. The cost is a logarithm of how many ranges are above
    /// the count.
    pub fn mark(&mut self, n: u64) -> Result<Marked, AllocError>
        requires { n < u64.MAX }
        ensures answer { IfOk result (λ marked. marked ≡ (if has self.old n then Marked.Seen else Marked.New)) }
        ensures members { OnOk result ((k : ℕ) → has self.new k ≡ (has self.old k || (k == n))) }
        ensures after { OnOk result (self.new ≡ marked self.old n) }
        ensures err { OnErr result (self.new ≡ self.old) }
    {
        if self.has(n) {
            return Ok(Marked::Seen);
        }
        if n == self.count {
            self.count = self.above.take_from_count(n + 1);
        } else {
            self.above.insert(n)?;
        }
        Ok(Marked::New)
    }

    /// The least number that is absent: one more than the local checkpoint.
    pub fn count(&self) -> Count
        ensures value { result ≡ self.now.count }
        ensures least { IsLeastAbsent (has self.now) result }
        ensures canonical { IsCanonical self.now }
    {
        self.count
    }

    /// Whether the number is in the set. The cost is a logarithm of how many ranges are above the count.
    pub fn has(&self, n: u64) -> bool
        ensures { result ≡ has self.now n }
    {
        n < self.count || self.above.has(n)
    }

    /// Whether a number above the count is in the set.
    pub fn gap(&self) -> bool
        ensures { IsTrue result ↔ HasGap self.now }
    {
        !self.above.is_empty()
    }

    /// One more than the greatest number of the set, and 0 where it has none.
    pub fn end(&self) -> Count
        ensures value { result ≡ end_of self.now }
        ensures end { IsEnd (has self.now) result }
    {
        match self.above.end() {
            Some(end) => end,
            None => self.count,
        }
    }

    /// The least number that the other set has and this one lacks, or `None` exactly where it lacks none.
    /// Where this one's count is the lower one that is the answer, at once; otherwise the cost is, for each range
    /// above the other's count, a logarithm of how many ranges are above this one's.
    pub fn first_lacking(&self, of: &Tracker) -> Option<u64>
        ensures { IsFirstLacking (has of.now) (has self.now) result }
    {
        if self.count < of.count {
            return Some(self.count);
        }
        of.above.first_outside(self.count, &self.above)
    }

    /// Whether the set has all numbers from `from` on and below `to`. The cost is a logarithm of how many ranges
    /// are above the count.
    pub fn has_run(&self, from: u64, to: u64) -> bool
        ensures { IsTrue result ↔ HoldsBetween (has self.now) from to }
    {
        from >= to || self.first_absent_from(from) >= to
    }

    /// Adds all numbers below `n`, and no other. It takes no memory, and its cost goes with the ranges above the
    /// count that it reaches.
    pub fn fill_below(&mut self, n: Count) -> Result<(), AllocError>
        ensures members { OnOk result ((k : ℕ) → has self.new k ≡ (has self.old k || nat_lt k n)) }
        ensures after { OnOk result (self.new ≡ filled_below self.old n) }
        ensures err { OnErr result (self.new ≡ self.old) }
    {
        self.count = self.above.take_from_count(self.count.max(n));
        Ok(())
    }

    /// Forgets all numbers at or above `n`, and no other. It takes no memory, and its cost goes with the ranges
    /// above the count that it reaches.
    pub fn reset_from(&mut self, n: Count)
        ensures members { (k : ℕ) → has self.new k ≡ (has self.old k && nat_lt k n) }
        ensures after { self.new ≡ kept_below self.old n }
    {
        self.count = self.count.min(n);
        self.above.cut_from(n);
    }

    /// An equal set.
    pub fn copy(&self, alloc: Global) -> Result<Tracker, AllocError>
        ensures { IfOk result (λ other. other ≡ self.now) }
    {
        Ok(Tracker {
            count: self.count,
            above: self.above.copy(alloc)?,
        })
    }

    // The least number from `n` on that is absent.
    fn first_absent_from(&self, n: u64) -> u64
        ensures { IsNextAbsent (has self.now) n result }
    {
        if n < self.count {
            self.count
        } else {
            self.above.first_absent_from(n)
        }
    }
}

/// A law, and nothing that runs: sets that a tracker keeps are equal where they have the same numbers.
pub fn equal_by_members()
    ensures { OneForm }
{}

#[cfg(test)]
mod tests {
    use super::*;
    use std::test::Fail;

    #[test]
    fn fills_gaps(rt: HostRuntime) -> Result<(), Fail> {
        let mut seen = Tracker::new(rt.alloc());
        assert_eq!(rt; seen.count(), 0);
        assert_eq!(rt; seen.mark(0)?, Marked::New);
        assert_eq!(rt; seen.mark(3)?, Marked::New);
        assert_eq!(rt; seen.mark(2)?, Marked::New);
        assert_eq!(rt; seen.mark(3)?, Marked::Seen);
        assert_eq!(rt; seen.count(), 1);
        assert!(rt; seen.gap());
        assert!(rt; seen.has(3));
        assert!(rt; !seen.has(1));
        assert_eq!(rt; seen.end(), 4);
        assert_eq!(rt; seen.mark(1)?, Marked::New);
        assert_eq!(rt; seen.count(), 4);
        assert!(rt; !seen.gap());
        Ok(())
    }

    #[test]
    fn tells_what_another_has_more(rt: HostRuntime) -> Result<(), Fail> {
        let mut some = Tracker::new(rt.alloc());
        let mut more = Tracker::new(rt.alloc());
        assert_eq!(rt; more.end(), 0);
        assert_eq!(rt; some.first_lacking(&more), None);
        for n in [0, 1, 2, 4, 5] {
            more.mark(n)?;
        }
        assert_eq!(rt; more.end(), 6);
        assert_eq!(rt; some.first_lacking(&more), Some(0));
        some.fill_below(5)?;
        assert_eq!(rt; some.first_lacking(&more), Some(5));
        assert_eq!(rt; more.first_lacking(&some), Some(3));
        some.mark(5)?;
        assert_eq!(rt; some.first_lacking(&more), None);
        assert!(rt; more.has_run(4, 6));
        assert!(rt; !more.has_run(4, 7));
        assert!(rt; !more.has_run(1, 5));
        assert!(rt; more.has_run(7, 7));
        Ok(())
    }

    #[test]
    fn fills_and_forgets(rt: HostRuntime) -> Result<(), Fail> {
        let mut seen = Tracker::new(rt.alloc());
        assert_eq!(rt; seen.mark(5)?, Marked::New);
        assert_eq!(rt; seen.mark(9)?, Marked::New);
        seen.fill_below(5)?;
        assert_eq!(rt; seen.count(), 6);
        let kept = seen.copy(rt.alloc())?;
        seen.reset_from(9);
        assert_eq!(rt; seen.count(), 6);
        assert!(rt; !seen.gap());
        seen.reset_from(2);
        assert_eq!(rt; seen.count(), 2);
        assert_eq!(rt; kept.count(), 6);
        assert!(rt; kept.has(9));
        Ok(())
    }
}
