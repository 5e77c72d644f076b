//! A source and a sink that never fail.
ghost use Rattle.std.specs.Prelude.{◌≡◌, ◌+◌, ◌-◌, ◌^◌, ◌<◌, ◌≤◌, ℕ, List, ◌++◌, length, take, drop, min, IsOk, IfOk, None, Some, vec_len};
ghost use Rattle.std.specs.Io.{ReadsAtMost};

use crate::error::Failed;
use crate::traits::{Sink, Source};
use std::marker::Model;

/// Bytes in memory, as a source that never fails: its count of faults stays 0. A clause sees the bytes
/// that are left.
#[derive(Drop)]
pub struct PureSource {
    bytes: Vec<u8>,
    at: usize,
}

impl Model for PureSource {
    ghost Value = { List ℕ };

    ghost view = { λ s. drop s.at s.bytes.items };

    ghost invariant = { λ s. s.at ≤ vec_len s.bytes };
}

impl PureSource {
    /// A source of these bytes.
    pub fn new(bytes: Vec<u8>) -> PureSource
        ensures { result ≡ bytes.items }
    {
        PureSource { bytes, at: 0 }
    }

    /// Moves as many bytes as there are left, and as `into` has, to its front, and says how many.
    pub(crate) fn give(&mut self, into: &mut [u8]) -> usize
        ensures count { result ≡ min (length self.old) (length into.old) }
        ensures copied { into.new ≡ take result self.old ++ drop result into.old }
        ensures rest { self.new ≡ drop result self.old }
    {
        let left = &self.bytes[self.at..];
        let count = left.len().min(into.len());
        into[..count].copy_from_slice(&left[..count]);
        self.at += count;
        count
    }
}

impl Source for PureSource {
    ghost left = { λ s. Some s };

    ghost faults = { λ _. 0 };

    fn read(&mut self, into: &mut [u8]) -> Result<usize, Failed>
        requires { 0 < length into.old }
        ensures never_fails { IsOk result }
        ensures count { ReadsAtMost result into.new }
        ensures most { IfOk result (λ n. n ≡ min (length self.old) (length into.old)) }
        ensures bytes { IfOk result (λ n. self.old ≡ take n into.new ++ self.new) }
    {
        Ok(self.give(into))
    }
}

/// A sink that never fails: its count of faults stays 0. Whatever keeps bytes can run out of room, so
/// this keeps none, and tells none. It counts them, and the count stops at `u64::MAX`. A clause sees
/// that count.
#[derive(Drop)]
pub struct PureSink {
    count: u64,
}

impl Model for PureSink {
    ghost Value = { ℕ };

    ghost view = { λ s. s.count };
}

impl PureSink {
    /// A sink that has taken nothing.
    pub fn new() -> PureSink
        ensures { result ≡ 0 }
    {
        PureSink { count: 0 }
    }

    /// How many bytes it has taken.
    pub fn count(&self) -> u64
        ensures { result ≡ self.now }
    {
        self.count
    }
}

impl Sink for PureSink {
    ghost taken = { λ _. None };

    ghost faults = { λ _. 0 };

    fn write(&mut self, from: &[u8]) -> Result<usize, Failed>
        requires { 0 < length from.now }
        ensures whole { result ≡ Ok (length from.now) }
        ensures counted { self.new ≡ min (self.old + length from.now) (2 ^ 64 - 1) }
    {
        self.count = self.count.saturating_add(from.len() as u64);
        Ok(from.len())
    }
}
