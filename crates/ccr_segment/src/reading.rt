ghost use Rattle.std.specs.Prelude.{◌≡◌, ◌+◌, ◌<◌, ◌≤◌, ◌^◌, ◌&&◌, ◌==◌, length, drop, nat_lt, not, IfOk};
ghost use Rattle.std.specs.Int.{w32};
ghost use Rattle.ccr_op.specs.Fields.{number_at};
ghost use Rattle.ccr_segment.specs.declared.bad_segment.BadSegment.TheVariants as faults;
ghost use Rattle.ccr_segment.specs.Reading.{Gives, expected_at, version_at, header_at, begins_routed, op_at, rest_of, segment_of};
ghost use Rattle.ccr_segment.specs.Index.{least_after, places_of, seen, told};

use crate::BadSegment;
use crate::index::Place;
use crate::versions::{PLAIN_VERSION, ROUTED_VERSION, version_for};
use ccr_op::{ROUTED_DELETE, ROUTED_INDEX};
use std::alloc::Global;

/// The length of the header.
const HEADER_BYTES: usize = 9;

#[tactic(auto, unfolding(crate::specs::Reading::expected_at))]
fn expect_byte(bytes: &[u8], byte: u8, fault: BadSegment) -> Result<&[u8], BadSegment>
    ensures read { Gives (λ rest. rest.now) result (expected_at byte fault bytes.now) }
    ensures size { IfOk result (λ rest. length rest.now + 1 ≡ length bytes.now) }
{
    match bytes {
        [] => Err(BadSegment::Short),
        [first, rest @ ..] => {
            if *first != byte {
                return Err(fault);
            }
            Ok(rest)
        }
    }
}

fn read_u32(bytes: &[u8]) -> Result<(u32, &[u8]), BadSegment>
    ensures read { Gives (λ x. (x.0, x.1.now)) result (number_at faults.Short w32 bytes.now) }
    ensures size { IfOk result (λ x. length x.1.now + 4 ≡ length bytes.now) }
{
    if bytes.len() < 4 {
        return Err(BadSegment::Short);
    }
    let (front, rest) = bytes.split_at(4);
    let number = u32::from_be_bytes([front[0], front[1], front[2], front[3]]);
    Ok((number, rest))
}

#[tactic(auto, unfolding(crate::specs::Reading::version_at))]
fn read_version(bytes: &[u8]) -> Result<(u8, &[u8]), BadSegment>
    ensures read { Gives (λ x. (x.0, x.1.now)) result (version_at bytes.now) }
    ensures size { IfOk result (λ x. length x.1.now + 1 ≡ length bytes.now) }
{
    match bytes {
        [] => Err(BadSegment::Short),
        [version, rest @ ..] => {
            if *version != PLAIN_VERSION && *version != ROUTED_VERSION {
                return Err(BadSegment::Version);
            }
            Ok((*version, rest))
        }
    }
}

/// The version, the number of operations, and the bytes after the header.
#[tactic(auto, unfolding(crate::specs::Reading::header_at))]
fn read_header(bytes: &[u8]) -> Result<(u8, u32, &[u8]), BadSegment>
    ensures read { Gives (λ x. (x.0, x.1, x.2.now)) result (header_at bytes.now) }
    ensures size { IfOk result (λ x. length x.2.now + 9 ≡ length bytes.now) }
{
    let rest = expect_byte(bytes, b'C', BadSegment::Magic)?;
    let rest = expect_byte(rest, b'C', BadSegment::Magic)?;
    let rest = expect_byte(rest, b'R', BadSegment::Magic)?;
    let rest = expect_byte(rest, b'S', BadSegment::Magic)?;
    let (version, rest) = read_version(rest)?;
    let (number, rest) = read_u32(rest)?;
    Ok((version, number, rest))
}

fn is_above(seq: u64, before: Option<u64>) -> bool
    ensures { result ≡ not (nat_lt seq (least_after before)) }
{
    match before {
        Some(before) => seq > before,
        None => true,
    }
}

/// Whether the bytes begin as an operation with a routing does.
fn is_routed(bytes: &[u8]) -> bool
    ensures { result ≡ begins_routed bytes.now }
{
    match bytes {
        [] => false,
        [kind, ..] => *kind == ROUTED_INDEX || *kind == ROUTED_DELETE,
    }
}

/// Whether the bytes begin as an operation does that the version doesn't have.
fn is_barred(version: u8, bytes: &[u8]) -> bool
    ensures { result ≡ ((version == 1) && begins_routed bytes.now) }
{
    version == PLAIN_VERSION && is_routed(bytes)
}

/// The number of the next operation, the length of its bytes, whether it has a routing, and the bytes after
/// it. The operation isn't built.
fn read_next(
    version: u8,
    before: Option<u64>,
    bytes: &[u8],
) -> Result<(u64, usize, bool, &[u8]), BadSegment>
    ensures read { Gives (λ x. (x.0, x.1, x.2, x.3.now)) result (seen told (op_at version (least_after before) bytes.now)) }
    ensures size { IfOk result (λ x. x.1 + length x.3.now ≡ length bytes.now) }
{
    if is_barred(version, bytes) {
        return Err(BadSegment::Op);
    }
    let routed = is_routed(bytes);
    let (seq, size) = ccr_op::measure(bytes)?;
    if !is_above(seq, before) {
        return Err(BadSegment::Order);
    }
    Ok((seq, size, routed, &bytes[size..]))
}

/// The places of so many operations, which are the rest of the bytes.
fn read_rest(
    alloc: Global,
    version: u8,
    number: u32,
    bytes: &[u8],
) -> Result<Vec<Place>, BadSegment>
    requires { length bytes.now + 9 < 2 ^ 64 }
    ensures { Gives (λ places. places.items) result (seen (places_of 9) (rest_of version number bytes.now)) }
{
    let mut places = Vec::new(alloc);
    let mut rest = bytes;
    let mut start = HEADER_BYTES;
    let mut before = None;
    let mut routed = false;
    for _ in 0..number {
        let (seq, size, is_routed, after) = read_next(version, before, rest)?;
        places.push(Place { seq, start })?;
        before = Some(seq);
        start += size;
        routed |= is_routed;
        rest = after;
    }
    if !rest.is_empty() {
        return Err(BadSegment::Trailing);
    }
    if version != version_for(routed) {
        return Err(BadSegment::NoRouting);
    }
    Ok(places)
}

/// The place of each operation of the segment that all of the bytes spell.
#[tactic(auto, unfolding(crate::specs::Reading::segment_of))]
pub fn read_places(alloc: Global, bytes: &[u8]) -> Result<Vec<Place>, BadSegment>
    ensures { Gives (λ places. places.items) result (seen (places_of 9) (segment_of bytes.now)) }
{
    let (version, number, rest) = read_header(bytes)?;
    read_rest(alloc, version, number, rest)
}
