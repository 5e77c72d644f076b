//! A source and a sink over memory, which fail at calls that were chosen.
ghost use Rattle.std.specs.Prelude.{◌≡◌, ◌+◌, ◌-◌, ◌^◌, ◌<◌, ◌≤◌, ◌↔◌, ◌++◌, ℕ, List, [], length, take, drop, min, Contains, IsErr, IsOk, IfOk, OnErr, OnOk, Some, vec_len, if◌then◌else◌, is_ok};
ghost use Rattle.std.specs.Io.{ReadsAtMost};
ghost use Rattle.ccr_io.specs.Memory.{SourceState, SinkState, next_call};

use crate::error::Failed;
use crate::pure::PureSource;
use crate::traits::{Sink, Source};
use std::alloc::Global;
use std::marker::Model;

/// Which calls are to fail, by their numbers from 0 on, and how many were made and failed.
#[derive(Drop)]
struct Schedule {
    failing: Vec<u64>,
    calls: u64,
    faults: u64,
}

impl Schedule {
    fn new(failing: Vec<u64>) -> Schedule
        ensures { result ≡ record { failing = failing; calls = 0; faults = 0 } }
    {
        Schedule {
            failing,
            calls: 0,
            faults: 0,
        }
    }

    /// Counts a call, and fails where it is to.
    fn call(&mut self) -> Result<(), Failed>
        requires { self.old.faults < 2 ^ 64 - 1 }
        ensures listed { IsErr result ↔ Contains self.old.failing.items self.old.calls }
        ensures ok { OnOk result (self.new ≡ record self.old { calls = next_call self.old.calls }) }
        ensures err { OnErr result (self.new ≡ record self.old { calls = next_call self.old.calls; faults = self.old.faults + 1 }) }
    {
        let must_fail = self.failing.contains(&self.calls);
        self.calls = self.calls.saturating_add(1);
        if must_fail {
            return Err(self.fault());
        }
        Ok(())
    }

    /// Counts a fault.
    fn fault(&mut self) -> Failed
        requires { self.old.faults < 2 ^ 64 - 1 }
        ensures { self.new ≡ record self.old { faults = self.old.faults + 1 } }
    {
        self.faults += 1;
        Failed
    }
}

/// Bytes in memory as a source that tells them. It gives at most `piece` bytes a read, and each read
/// whose number, from 0 on, is in a list fails. The numbers stop at `u64::MAX`.
///
/// A read costs a pass over that list.
#[derive(Drop)]
pub struct MemSource {
    bytes: PureSource,
    piece: usize,
    schedule: Schedule,
}

impl Model for MemSource {
    ghost Value = { SourceState };

    ghost view = { λ s. record {
      left = s.bytes;
      piece = s.piece;
      failing = s.schedule.failing.items;
      calls = s.schedule.calls;
      faults = s.schedule.faults;
    } };

    ghost invariant = { λ s. 0 < s.piece };
}

impl MemSource {
    /// A source of these bytes that was not read yet.
    pub fn new(bytes: Vec<u8>, piece: usize, failing: Vec<u64>) -> MemSource
        requires { 0 < piece }
        ensures { result ≡ record { left = bytes.items; piece = piece; failing = failing.items; calls = 0; faults = 0 } }
    {
        MemSource {
            bytes: PureSource::new(bytes),
            piece,
            schedule: Schedule::new(failing),
        }
    }
}

impl Source for MemSource {
    ghost left = { λ s. Some s.left };

    ghost faults = { λ s. s.faults };

    fn read(&mut self, into: &mut [u8]) -> Result<usize, Failed>
        requires some_room { 0 < length into.old }
        requires countable { self.old.faults < 2 ^ 64 - 1 }
        ensures listed { IsErr result ↔ Contains self.old.failing self.old.calls }
        ensures count { ReadsAtMost result into.new }
        ensures most { IfOk result (λ n. n ≡ min (length self.old.left) (min self.old.piece (length into.old))) }
        ensures bytes { IfOk result (λ n. self.old.left ≡ take n into.new ++ self.new.left) }
        ensures end { IfOk result (λ n. n ≡ 0 → self.new.left ≡ []) }
        ensures kept { OnErr result (self.new.left ≡ self.old.left) }
        ensures quiet { OnOk result (self.new.faults ≡ self.old.faults) }
        ensures rose { OnErr result (self.new.faults ≡ self.old.faults + 1) }
        ensures rest { self.new ≡ record self.old { left = self.new.left; calls = next_call self.old.calls; faults = self.new.faults } }
    {
        self.schedule.call()?;
        let most = into.len().min(self.piece);
        Ok(self.bytes.give(&mut into[..most]))
    }
}

/// A sink that keeps its bytes in memory, and tells them. It takes at most `piece` bytes a write, and
/// each write whose number, from 0 on, is in a list fails. The numbers stop at `u64::MAX`. It grows as
/// it takes bytes: a write for which there is no memory fails too, and is counted as a fault.
///
/// A write costs a pass over that list.
#[derive(Drop)]
pub struct MemSink {
    bytes: Vec<u8>,
    piece: usize,
    schedule: Schedule,
}

impl Model for MemSink {
    ghost Value = { SinkState };

    ghost view = { λ s. record {
      taken = s.bytes.items;
      piece = s.piece;
      failing = s.schedule.failing.items;
      calls = s.schedule.calls;
      faults = s.schedule.faults;
    } };

    ghost invariant = { λ s. 0 < s.piece };
}

impl MemSink {
    /// A sink that has taken nothing.
    pub fn new(alloc: Global, piece: usize, failing: Vec<u64>) -> MemSink
        requires { 0 < piece }
        ensures { result ≡ record { taken = []; piece = piece; failing = failing.items; calls = 0; faults = 0 } }
    {
        MemSink {
            bytes: Vec::new(alloc),
            piece,
            schedule: Schedule::new(failing),
        }
    }

    /// The bytes that it has taken.
    pub fn bytes(&self) -> &[u8]
        ensures { result.now ≡ self.now.taken }
    {
        &self.bytes
    }
}

impl Sink for MemSink {
    ghost taken = { λ s. Some s.taken };

    ghost faults = { λ s. s.faults };

    fn write(&mut self, from: &[u8]) -> Result<usize, Failed>
        requires some_bytes { 0 < length from.now }
        requires countable { self.old.faults < 2 ^ 64 - 1 }
        ensures listed { Contains self.old.failing self.old.calls → IsErr result }
        ensures most { IfOk result (λ n. n ≡ min self.old.piece (length from.now)) }
        ensures some { IfOk result (λ n. 0 < n) }
        ensures bytes { IfOk result (λ n. self.new.taken ≡ self.old.taken ++ take n from.now) }
        ensures kept { OnErr result (self.new.taken ≡ self.old.taken) }
        ensures quiet { OnOk result (self.new.faults ≡ self.old.faults) }
        ensures rose { OnErr result (self.new.faults ≡ self.old.faults + 1) }
        ensures rest { self.new ≡ record self.old { taken = self.new.taken; calls = next_call self.old.calls; faults = self.new.faults } }
    {
        self.schedule.call()?;
        let count = from.len().min(self.piece);
        match self.bytes.extend_from_slice(&from[..count]) {
            Ok(()) => Ok(count),
            Err(_) => Err(self.schedule.fault()),
        }
    }
}
