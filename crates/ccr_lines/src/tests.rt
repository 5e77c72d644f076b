ghost use Rattle.std.specs.Prelude.{◌≡◌, ◌<◌, ◌^◌, IfOk};

use crate::{Lines, MOST_LINE_BYTES};
use ccr_io::MemSource;
use std::alloc::{AllocError, Global};
use std::test::Fail;

// A source that gives so many bytes a read, and fails at the read of this number.
fn source(
    alloc: Global,
    bytes: Vec<u8>,
    piece: usize,
    failing: u64,
) -> Result<MemSource, AllocError>
    requires { 0 < piece }
    ensures { IfOk result (λ source. source.faults ≡ 0) }
{
    let mut reads = Vec::new(alloc);
    reads.push(failing)?;
    Ok(MemSource::new(bytes, piece, reads))
}

// What comes behind so many lines: the line with its number, or what stands in its place.
fn shown(alloc: Global, before: u32, mut from: MemSource) -> Result<String, Fail>
    requires numbered { before < 2 ^ 24 }
    requires quiet { from.faults ≡ 0 }
{
    match Lines::after(before).next(alloc, &mut from) {
        Ok(Some(line)) => {
            let text = String::from_utf8_lossy(alloc, line.text())?;
            Ok(format!(in alloc; "{} {}", line.number, text)?)
        }
        Ok(None) => Ok(String::from_str(alloc, "end")?),
        Err(why) => Ok(format!(in alloc; "{why:?}")?),
    }
}

// Whether this comes first of a text, behind so many lines.
fn shows(alloc: Global, before: u32, text: &[u8], failing: u64, want: &str) -> Result<bool, Fail>
    requires { before < 2 ^ 24 }
{
    let from = source(alloc, Vec::from_slice(alloc, text)?, 3, failing)?;
    Ok(shown(alloc, before, from)?.as_str() == want)
}

#[test]
fn a_line_ends_at_a_line_feed_or_at_the_end(rt: HostRuntime) -> Result<(), Fail> {
    let alloc = rt.alloc();
    assert!(rt; shows(alloc, 0, b"", 9, "end")?);
    assert!(rt; shows(alloc, 0, b"\n", 9, "1 ")?);
    assert!(rt; shows(alloc, 0, b"one\r\ntwo", 9, "1 one")?);
    assert!(rt; shows(alloc, 4, b"four\r\r", 9, "5 four\r")?);
    assert!(rt; shows(alloc, 0, b"four\n", 1, "Read")?);
    assert!(rt; shows(alloc, 16_777_214, b"\n", 9, "16777215 ")?);
    assert!(rt; shows(alloc, 16_777_215, b"\n", 9, "TooMany")?);
    assert!(rt; shows(alloc, 16_777_215, b"", 9, "end")?);
    Ok(())
}

// Whether a line of so many bytes, in front of this end, is given.
fn is_given(alloc: Global, count: usize, end: &[u8]) -> Result<bool, Fail> {
    let mut bytes = vec![in alloc; b'x'; count]?;
    bytes.extend_from_slice(end)?;
    let mut from = source(alloc, bytes, 8_000, 1_000)?;
    Ok(matches!(Lines::new().next(alloc, &mut from), Ok(Some(_))))
}

#[test]
fn a_line_has_at_most_1_048_576_bytes_its_return_counted(rt: HostRuntime) -> Result<(), Fail> {
    let alloc = rt.alloc();
    assert!(rt; is_given(alloc, 1_048_576, b"\n")?);
    assert!(rt; is_given(alloc, 1_048_575, b"\r\n")?);
    assert!(rt; !is_given(alloc, 1_048_576, b"\r\n")?);
    assert!(rt; !is_given(alloc, 1_048_577, b"")?);
    assert_eq!(rt; MOST_LINE_BYTES, 1_048_576);
    Ok(())
}
