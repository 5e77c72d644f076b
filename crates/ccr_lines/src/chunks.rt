ghost use Rattle.std.specs.Prelude.{◌≡◌, ◌-◌, ◌<◌, ◌≤◌, ◌+◌, ◌++◌, ◌^◌, ◌↔◌, [], Ok, Err, true, false, length, is_some, IsTrue, IfSome, IfNone, IfOk, OnOk, OnErr};
ghost use Rattle.std.specs.Io.KnownBytes.{Consumes, IsAtEnd};
ghost use Rattle.ccr_lines.specs.Lines.{BreaksAt, EndsLine, GoesOn, IsPlain, GoesOver};

use ccr_io::{Failed, Source};
use std::alloc::AllocError;
use std::marker::Model;

/// How many bytes one call of the source is asked for.
const CHUNK_BYTES: usize = 8192;

/// The most bytes of a line, without the line feed.
pub const MOST_LINE_BYTES: usize = 1_048_576;

const LINE_FEED: u8 = b'\n';

/// The bytes that were read from a source and not yet given away, and whether the source has said that
/// it is at its end.
#[derive(Drop)]
pub struct Chunk {
    bytes: [u8; CHUNK_BYTES],
    start: usize,
    end: usize,
    ended: bool,
}

impl Model for Chunk {
    ghost use Rattle.ccr_lines.specs.Reader.{Ahead, IsChunk, part_of};

    ghost Value = { Ahead };

    ghost view = { λ a. record { bytes = part_of a.bytes a.start a.end; ended = a.ended } };

    ghost invariant = { λ a. IsChunk a.bytes a.start a.end };
}

/// Why a chunk gave a line no bytes.
pub enum Refused {
    /// The line would have more bytes than a line may have.
    TooLong,
    Memory,
}

impl From<AllocError> for Refused {
    ghost use Rattle.std.specs.Prelude.{◌≡◌};
    ghost use Rattle.ccr_lines.specs.declared.chunks.Refused.TheVariants.{Memory};

    ghost from_gives = { λ _ e. e ≡ Memory };

    fn from(_refused: AllocError) -> Refused {
        Refused::Memory
    }
}

impl Chunk {
    /// A chunk with no byte.
    pub fn new() -> Self
        ensures { result ≡ record { bytes = []; ended = false } }
    {
        Chunk {
            bytes: [0; CHUNK_BYTES],
            start: 0,
            end: 0,
            ended: false,
        }
    }

    /// Whether no byte is left.
    pub fn is_empty(&self) -> bool
        ensures { IsTrue result ↔ (self.now.bytes ≡ []) }
    {
        self.start == self.end
    }

    /// Whether the source has said that it is at its end.
    pub fn has_ended(&self) -> bool
        ensures { result ≡ self.now.ended }
    {
        self.ended
    }

    /// Reads further bytes into an empty chunk: none where the source is at its end, which it has then said.
    pub fn refill<S: Source>(&mut self, from: &mut S) -> Result<(), Failed>
        requires empty { self.old.bytes ≡ [] }
        requires open { self.old.ended ≡ false }
        requires countable { S.faults from.old < 2 ^ 64 - 1 }
        ensures bytes { OnOk result (Consumes (S.left from.old) (S.left from.new) self.new.bytes) }
        ensures end { OnOk result (self.new.ended ≡ true → IsAtEnd (S.left from.new)) }
        ensures some { OnOk result ((self.new.ended ≡ true) ↔ (self.new.bytes ≡ [])) }
        ensures kept { OnErr result (S.left from.new ≡ S.left from.old) }
        ensures same { OnErr result (self.new ≡ self.old) }
        ensures told { is_some (S.left from.new) ≡ is_some (S.left from.old) }
        ensures quiet { OnOk result (S.faults from.new ≡ S.faults from.old) }
        ensures rose { OnErr result (S.faults from.new ≡ S.faults from.old + 1) }
    {
        self.start = 0;
        self.end = 0;
        let count = from.read(&mut self.bytes)?;
        self.end = count;
        self.ended = count == 0;
        Ok(())
    }

    /// Gives the bytes up to the next line feed, which is dropped, to the line, and says whether there
    /// is one: else it gives all. A line that would become too long gets none.
    pub fn give(&mut self, line: &mut Vec<u8>) -> Result<bool, Refused>
        ensures ended { result ≡ Ok true → EndsLine self.old.bytes self.new.bytes line.old.items line.new.items }
        ensures goes_on { result ≡ Ok false → GoesOn self.old.bytes self.new.bytes line.old.items line.new.items }
        ensures bounds { OnOk result (length line.new.items ≤ MOST_LINE_BYTES) }
        ensures too_long { result ≡ Err Refused.TooLong → GoesOver self.old.bytes line.old.items MOST_LINE_BYTES }
        ensures same { self.new.ended ≡ self.old.ended }
    {
        let read = &self.bytes[..self.end];
        let part = &read[self.start..];
        match feed_place(part) {
            Some(count) => {
                add(line, &part[..count])?;
                self.start += count + 1;
                Ok(true)
            }
            None => {
                add(line, part)?;
                self.start = self.end;
                Ok(false)
            }
        }
    }
}

// Puts further bytes behind a line, unless it would become too long.
fn add(line: &mut Vec<u8>, bytes: &[u8]) -> Result<(), Refused>
    ensures ok { OnOk result (line.new.items ≡ line.old.items ++ bytes.now) }
    ensures bounds { OnOk result (length line.new.items ≤ MOST_LINE_BYTES) }
    ensures too_long { result ≡ Err Refused.TooLong → MOST_LINE_BYTES < length line.old.items + length bytes.now }
{
    if bytes.len() > MOST_LINE_BYTES || line.len() > MOST_LINE_BYTES - bytes.len() {
        return Err(Refused::TooLong);
    }
    line.extend_from_slice(bytes)?;
    Ok(())
}

// The place of the first line feed.
fn feed_place(bytes: &[u8]) -> Option<usize>
    ensures found { IfSome result (λ place. BreaksAt bytes.now place) }
    ensures none { IfNone result (IsPlain bytes.now) }
{
    for (place, byte) in bytes.iter().enumerate() {
        if *byte == LINE_FEED {
            return Some(place);
        }
    }
    None
}
