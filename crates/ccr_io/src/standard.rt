//! Standard input as a source, and standard output as a sink.
//!
//! What comes from and goes to the outside is known to no clause, so these tell nothing of the bytes.
ghost use Rattle.std.specs.Prelude.{◌≡◌, ◌+◌, ◌-◌, ◌^◌, ◌<◌, ◌≤◌, ℕ, None, IfOk, OnOk, OnErr, length};
ghost use Rattle.std.specs.Io.{ReadsAtMost};
ghost use Rattle.std.specs.Io.KnownBytes.{ReadConsumes, WriteAppends};
ghost use Rattle.ccr_io.specs.Adapter.{Adapter};

use crate::error::Failed;
use crate::traits::{Sink, Source};
use std::io::{Read, Write};
use std::marker::Model;

/// A reader, such as `rt.reader()` of standard input, as a source. Each read that ends in an error is
/// a fault. A clause sees how many there were.
#[derive(Drop)]
pub struct StdSource<R> {
    reader: R,
    faults: u64,
}

impl<R> Model for StdSource<R> {
    ghost Value = { Adapter R };

    ghost view = { λ s. record { handle = s.reader; faults = s.faults } };
}

impl<R> StdSource<R> {
    /// This reader, with no fault so far.
    pub fn new(reader: R) -> StdSource<R>
        ensures { result ≡ record { handle = reader; faults = 0 } }
    {
        StdSource { reader, faults: 0 }
    }
}

impl<R: Read> Source for StdSource<R> {
    ghost left = { λ _. None };

    ghost faults = { λ s. s.faults };

    fn read(&mut self, into: &mut [u8]) -> Result<usize, Failed>
        requires some_room { 0 < length into.old }
        requires countable { self.old.faults < 2 ^ 64 - 1 }
        ensures count { ReadsAtMost result into.new }
        ensures passes_on { ReadConsumes (R.remaining self.old.handle) (R.remaining self.new.handle) result into.new }
        ensures quiet { OnOk result (self.new.faults ≡ self.old.faults) }
        ensures rose { OnErr result (self.new.faults ≡ self.old.faults + 1) }
    {
        match self.reader.read(into) {
            Ok(count) => Ok(count),
            Err(_) => {
                self.faults += 1;
                Err(Failed)
            }
        }
    }
}

/// A writer, such as `io::writer(rt)` of standard output, as a sink. Each write that ends in an error
/// is a fault, and so is one that takes no byte. A clause sees how many there were.
///
/// It adds no buffer of its own, and a write never flushes: bytes in a writer that has a buffer count as taken. Call
/// [`StdSink::flush`] before the program ends.
#[derive(Drop)]
pub struct StdSink<W> {
    writer: W,
    faults: u64,
}

impl<W> Model for StdSink<W> {
    ghost Value = { Adapter W };

    ghost view = { λ s. record { handle = s.writer; faults = s.faults } };
}

impl<W> StdSink<W> {
    /// This writer, with no fault so far.
    pub fn new(writer: W) -> StdSink<W>
        ensures { result ≡ record { handle = writer; faults = 0 } }
    {
        StdSink { writer, faults: 0 }
    }
}

impl<W: Write> StdSink<W> {
    /// Writes out what the writer has in its buffer. A failure is a fault.
    pub fn flush(&mut self) -> Result<(), Failed>
        requires countable { self.old.faults < 2 ^ 64 - 1 }
        ensures quiet { OnOk result (self.new.faults ≡ self.old.faults) }
        ensures rose { OnErr result (self.new.faults ≡ self.old.faults + 1) }
    {
        match self.writer.flush() {
            Ok(()) => Ok(()),
            Err(_) => {
                self.faults += 1;
                Err(Failed)
            }
        }
    }
}

impl<W: Write> Sink for StdSink<W> {
    ghost taken = { λ _. None };

    ghost faults = { λ s. s.faults };

    fn write(&mut self, from: &[u8]) -> Result<usize, Failed>
        requires some_bytes { 0 < length from.now }
        requires countable { self.old.faults < 2 ^ 64 - 1 }
        ensures some { IfOk result (λ n. 0 < n) }
        ensures count { IfOk result (λ n. n ≤ length from.now) }
        ensures passes_on { WriteAppends (W.contents self.old.handle) (W.contents self.new.handle) result from.now }
        ensures quiet { OnOk result (self.new.faults ≡ self.old.faults) }
        ensures rose { OnErr result (self.new.faults ≡ self.old.faults + 1) }
    {
        match self.writer.write(from) {
            Ok(count) if count > 0 => Ok(count),
            _ => {
                self.faults += 1;
                Err(Failed)
            }
        }
    }
}
