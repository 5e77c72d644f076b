//! What no clause says: that calls succeed, which bytes pass through the adapters of readers and
//! writers, and that a caller can prove things by the two traits alone.
ghost use Rattle.std.specs.Prelude.{◌≡◌, ◌-◌, ◌^◌, ◌<◌, ◌⊎◌, length, IfOk, IfSome, OnErr};
ghost use Rattle.std.specs.Bool.{OnTrue};
ghost use Rattle.std.specs.Io.KnownBytes.{Appends};

use super::*;
use std::alloc::Global;
use std::io;
use std::io::{Read, Write};
use std::test::Fail;

/// Copies what is left of the source to the sink, through a buffer, and says whether it came to the end.
fn copy_through<S: Source, K: Sink>(
    source: &mut S,
    sink: &mut K,
    buffer: &mut [u8],
) -> Result<bool, Failed>
    requires some_room { 0 < length buffer.old }
    requires source_countable { S.faults source.old < 2 ^ 64 - 1 }
    requires sink_countable { K.faults sink.old < 2 ^ 64 - 1 }
    ensures copied { IfOk result (λ at_end. OnTrue at_end (IfSome (S.left source.old) (λ bytes. Appends (K.taken sink.old) (K.taken sink.new) bytes))) }
    ensures cause { OnErr result ((S.faults source.old < S.faults source.new) ⊎ (K.faults sink.old < K.faults sink.new)) }
{
    for _ in 0..u64::MAX {
        let count = source.read(buffer)?;
        if count == 0 {
            return Ok(true);
        }
        write_all(sink, &buffer[..count])?;
    }
    Ok(false)
}

/// A reader and a writer that fail at their second call.
#[derive(Drop)]
struct Flaky {
    calls: u8,
}

impl Flaky {
    fn call(&mut self) -> io::Result<()> {
        self.calls = self.calls.saturating_add(1);
        if self.calls == 2 {
            return Err(io::ErrorKind::Other.into());
        }
        Ok(())
    }
}

impl Read for Flaky {
    fn read(&mut self, buf: &mut [u8]) -> io::Result<usize> {
        self.call()?;
        for byte in buf.iter_mut() {
            *byte = b'a';
        }
        Ok(buf.len())
    }
}

/// From its third call on it takes no byte.
impl Write for Flaky {
    fn write(&mut self, buf: &[u8]) -> io::Result<usize> {
        self.call()?;
        if self.calls > 2 { Ok(0) } else { Ok(buf.len()) }
    }

    fn flush(&mut self) -> io::Result<()> {
        Ok(())
    }
}

#[test]
fn copies_in_pieces(rt: HostRuntime) -> Result<(), Fail> {
    let alloc = rt.alloc();
    let mut source = MemSource::new(b"replicate".to_vec(alloc)?, 4, Vec::new(alloc));
    let mut sink = MemSink::new(alloc, 2, Vec::new(alloc));
    let mut buffer = [0; 3];
    assert_eq!(rt; copy_through(&mut source, &mut sink, &mut buffer), Ok(true));
    assert_eq!(rt; sink.bytes(), b"replicate".as_slice());
    Ok(())
}

#[test]
fn memory_fails_at_the_listed_calls_alone(rt: HostRuntime) -> Result<(), Fail> {
    let alloc = rt.alloc();
    let mut source = MemSource::new(b"abc".to_vec(alloc)?, 2, vec![in alloc; 1]?);
    let mut buffer = [0; 8];
    assert_eq!(rt; source.read(&mut buffer), Ok(2));
    assert_eq!(rt; source.read(&mut buffer), Err(Failed));
    assert_eq!(rt; source.read(&mut buffer), Ok(1));
    assert_eq!(rt; buffer[0], b'c');
    assert_eq!(rt; source.read(&mut buffer), Ok(0));

    let mut sink = MemSink::new(alloc, 2, vec![in alloc; 2]?);
    assert_eq!(rt; write_all(&mut sink, b"abcdef"), Err(Failed));
    assert_eq!(rt; sink.bytes(), b"abcd".as_slice());
    Ok(())
}

#[test]
fn unfailing_ends_read_and_count(rt: HostRuntime) -> Result<(), Fail> {
    let alloc = rt.alloc();
    let mut source = PureSource::new(b"abcde".to_vec(alloc)?);
    let mut sink = PureSink::new();
    let mut buffer = [0; 2];
    assert_eq!(rt; source.read(&mut buffer), Ok(2));
    assert_eq!(rt; buffer, *b"ab");
    assert_eq!(rt; copy_through(&mut source, &mut sink, &mut buffer), Ok(true));
    assert_eq!(rt; sink.count(), 3);
    Ok(())
}

#[test]
fn a_reader_passes_its_bytes_and_its_errors(rt: HostRuntime) {
    let mut source = StdSource::new(Flaky { calls: 0 });
    let mut buffer = [0; 2];
    assert_eq!(rt; source.read(&mut buffer), Ok(2));
    assert_eq!(rt; buffer, *b"aa");
    assert_eq!(rt; source.read(&mut buffer), Err(Failed));
    assert_eq!(rt; source.read(&mut buffer), Ok(2));
}

#[test]
fn a_writer_that_takes_nothing_has_failed(rt: HostRuntime) {
    let mut sink = StdSink::new(Flaky { calls: 0 });
    assert_eq!(rt; sink.write(b"ab"), Ok(2));
    assert_eq!(rt; sink.write(b"ab"), Err(Failed));
    assert_eq!(rt; sink.write(b"ab"), Err(Failed));
}
