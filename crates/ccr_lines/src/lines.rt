ghost use Rattle.std.specs.Prelude.{◌≡◌, ℕ, ◌+◌, ◌-◌, ◌<◌, ◌≤◌, ◌^◌, ◌++◌, ◌∷◌, [], List, Option, length, take, drop, is_some, IfOk, IfErr, OnOk, OnErr, IfSome, IfNone, Some, Ok, Err, ◌≢◌, true, false};
ghost use Rattle.std.specs.Io.KnownBytes.{Consumes, IsAtEnd};
ghost use Rattle.ccr_lines.specs.Lines.{BreaksOff, FirstLineIsOver, GivesEnded, GivesLine, HasLine, rest_of, without_return};
ghost use Rattle.ccr_lines.specs.Reader.{EndIsTrue};

pub use crate::chunks::MOST_LINE_BYTES;
use crate::chunks::{Chunk, Refused};
use ccr_io::{Failed, Source};
use std::alloc::Global;
use std::marker::Model;

/// The number of the first line that is one too many.
pub const MOST_LINES: u32 = 16_777_216;

/// A line of a source, without its line feed, under its number from 1 on.
#[derive(Debug, Drop)]
pub struct Line {
    pub number: u32,
    /// The bytes before the line feed, or before the end of the source.
    pub bytes: Vec<u8>,
}

impl Line {
    /// The bytes without the one carriage return that may end them.
    pub fn text(&self) -> &[u8]
        ensures { result.now ≡ without_return self.now.bytes.items }
    {
        trimmed(self.bytes.as_slice())
    }
}

fn trimmed(line: &[u8]) -> &[u8]
    ensures { result.now ≡ without_return line.now }
{
    if line.is_empty() {
        return line;
    }
    let last = line.len() - 1;
    if line[last] != b'\r' {
        return line;
    }
    &line[..last]
}

/// Why a source gave no further line.
#[derive(Clone, Copy, Debug, PartialEq, Eq)]
pub enum LineFault {
    /// The source failed.
    Read,
    /// The line has more bytes than a line may have.
    TooLong,
    /// The line is one too many.
    TooMany,
    Memory,
}

/// Reads the lines of a source one by one. It keeps one chunk and the line at hand, so its memory does
/// not go with the source, and its work goes with the bytes read.
#[derive(Drop)]
pub struct Lines {
    number: u32,
    chunk: Chunk,
}

impl Model for Lines {
    ghost use Rattle.ccr_lines.specs.Reader.{Reader};

    ghost Value = { Reader };

    ghost view = { λ a. record { number = a.number; pending = a.chunk.bytes; ended = a.chunk.ended } };
}

impl Lines {
    /// A reader that has given no line yet. It takes no memory.
    pub fn new() -> Self
        ensures { result ≡ record { number = 0; pending = []; ended = false } }
    {
        Lines {
            number: 0,
            chunk: Chunk::new(),
        }
    }

    // A reader that gave so many lines.
    #[cfg(test)]
    pub(crate) fn after(number: u32) -> Self
        ensures { result ≡ record { number = number; pending = []; ended = false } }
    {
        Lines {
            number,
            chunk: Chunk::new(),
        }
    }

    /// How many lines it gave.
    pub fn number(&self) -> u32
        ensures { result ≡ self.now.number }
    {
        self.number
    }

    /// The next line, or none at the end of the source. A line ends at a line feed or at the end of the
    /// source; an empty rest behind the last line feed is no line. Once the source has said that it is at
    /// its end, it is not read again. After an error nothing is said of what further calls give.
    pub fn next<S: Source>(
        &mut self,
        alloc: Global,
        from: &mut S,
    ) -> Result<Option<Line>, LineFault>
        requires countable { S.faults from.old < 2 ^ 64 - 1 }
        requires numbered { self.old.number < MOST_LINES }
        requires true_end { EndIsTrue self.old.ended self.old.pending (S.left from.old) }
        ensures line { IfOk result (λ found. IfSome found (λ line.
            GivesLine (rest_of self.old.pending (S.left from.old)) (rest_of self.new.pending (S.left from.new)) line.bytes.items)) }
        ensures ended { IfOk result (λ found. IfSome found (λ line. self.new.ended ≡ false →
            GivesEnded (rest_of self.old.pending (S.left from.old)) (rest_of self.new.pending (S.left from.new)) line.bytes.items)) }
        ensures true_end { OnOk result (EndIsTrue self.new.ended self.new.pending (S.left from.new)) }
        ensures stays { self.old.ended ≡ true → self.new.ended ≡ true }
        ensures number { IfOk result (λ found. IfSome found (λ line. (line.number ≡ self.old.number + 1) × (self.new.number ≡ line.number))) }
        ensures bounds { IfOk result (λ found. IfSome found (λ line. (line.number < MOST_LINES) × (length line.bytes.items ≤ MOST_LINE_BYTES))) }
        ensures end { IfOk result (λ found. IfNone found (IsAtEnd (rest_of self.old.pending (S.left from.old)))) }
        ensures spent { IfOk result (λ found. IfNone found (IsAtEnd (S.left from.new))) }
        ensures too_long { result ≡ Err LineFault.TooLong → FirstLineIsOver (rest_of self.old.pending (S.left from.old)) MOST_LINE_BYTES × (self.old.number + 1 < MOST_LINES) }
        ensures too_many { result ≡ Err LineFault.TooMany → HasLine (rest_of self.old.pending (S.left from.old)) × (self.old.number + 1 ≡ MOST_LINES) }
        ensures read { result ≡ Err LineFault.Read → S.faults from.new ≡ S.faults from.old + 1 }
        ensures broken_off { result ≡ Err LineFault.Read → (self.old.ended ≡ false) × BreaksOff (rest_of self.old.pending (S.left from.old)) (S.left from.new) }
        ensures quiet { result ≢ Err LineFault.Read → S.faults from.new ≡ S.faults from.old }
        ensures told { is_some (S.left from.new) ≡ is_some (S.left from.old) }
    {
        if !has_more(&mut self.chunk, from)? {
            return Ok(None);
        }
        if self.number + 1 == MOST_LINES {
            return Err(LineFault::TooMany);
        }
        let bytes = read_line(alloc, &mut self.chunk, from)?;
        self.number += 1;
        Ok(Some(Line {
            number: self.number,
            bytes,
        }))
    }
}

// Reads on where no byte is at hand, unless the source has said that it is at its end, and says whether
// a byte is there then.
fn has_more<S: Source>(chunk: &mut Chunk, from: &mut S) -> Result<bool, LineFault>
    requires countable { S.faults from.old < 2 ^ 64 - 1 }
    requires true_end { EndIsTrue chunk.old.ended chunk.old.bytes (S.left from.old) }
    ensures rest { rest_of chunk.new.bytes (S.left from.new) ≡ rest_of chunk.old.bytes (S.left from.old) }
    ensures more { result ≡ Ok true → (chunk.new.bytes ≢ []) × (chunk.new.ended ≡ false) }
    ensures end { result ≡ Ok false → (chunk.new.bytes ≡ []) × (chunk.new.ended ≡ true) × IsAtEnd (S.left from.new) }
    ensures stays { chunk.old.ended ≡ true → chunk.new.ended ≡ true }
    ensures none { OnErr result ((chunk.new.bytes ≡ []) × (chunk.old.ended ≡ false)) }
    ensures told { is_some (S.left from.new) ≡ is_some (S.left from.old) }
    ensures quiet { OnOk result (S.faults from.new ≡ S.faults from.old) }
    ensures err { IfErr result (λ why. (why ≡ LineFault.Read) × (S.faults from.new ≡ S.faults from.old + 1)) }
{
    if !chunk.is_empty() {
        return Ok(true);
    }
    if chunk.has_ended() {
        return Ok(false);
    }
    match chunk.refill(from) {
        Ok(()) => Ok(!chunk.is_empty()),
        Err(Failed) => Err(LineFault::Read),
    }
}

// Reads to the end of the line that the bytes at hand begin.
fn read_line<S: Source>(
    alloc: Global,
    chunk: &mut Chunk,
    from: &mut S,
) -> Result<Vec<u8>, LineFault>
    requires begun { chunk.old.bytes ≢ [] }
    requires open { chunk.old.ended ≡ false }
    requires countable { S.faults from.old < 2 ^ 64 - 1 }
    ensures line { IfOk result (λ bytes. GivesLine (rest_of chunk.old.bytes (S.left from.old)) (rest_of chunk.new.bytes (S.left from.new)) bytes.items) }
    ensures ended { IfOk result (λ bytes. chunk.new.ended ≡ false → GivesEnded (rest_of chunk.old.bytes (S.left from.old)) (rest_of chunk.new.bytes (S.left from.new)) bytes.items) }
    ensures true_end { OnOk result (EndIsTrue chunk.new.ended chunk.new.bytes (S.left from.new)) }
    ensures bounds { IfOk result (λ bytes. length bytes.items ≤ MOST_LINE_BYTES) }
    ensures too_long { result ≡ Err LineFault.TooLong → FirstLineIsOver (rest_of chunk.old.bytes (S.left from.old)) MOST_LINE_BYTES }
    ensures some { result ≢ Err LineFault.TooMany }
    ensures read { result ≡ Err LineFault.Read → S.faults from.new ≡ S.faults from.old + 1 }
    ensures broken_off { result ≡ Err LineFault.Read → BreaksOff (rest_of chunk.old.bytes (S.left from.old)) (S.left from.new) }
    ensures quiet { result ≢ Err LineFault.Read → S.faults from.new ≡ S.faults from.old }
    ensures told { is_some (S.left from.new) ≡ is_some (S.left from.old) }
{
    let mut bytes = Vec::new(alloc);
    'pieces: for _ in 0..u64::MAX {
        match chunk.give(&mut bytes) {
            Ok(true) => return Ok(bytes),
            Ok(false) => {}
            Err(Refused::TooLong) => return Err(LineFault::TooLong),
            Err(Refused::Memory) => return Err(LineFault::Memory),
        }
        if !has_more(chunk, from)? {
            return Ok(bytes);
        }
    }
    Err(LineFault::Memory)
}
