//! The reading of single fields from the front of bytes: each gives the value and the bytes after it.

ghost use Rattle.std.specs.Prelude.{◌≡◌, ◌+◌, ◌<◌, ◌≤◌, length, IfOk};
ghost use Rattle.std.specs.Int.{w16};
ghost use Rattle.ccr_op.specs.Ids.{IsIdText};
ghost use Rattle.ccr_op.specs.Fields.{byte_at, number_at, text_at};
ghost use Rattle.ccr_wire.specs.declared.bad_frame.BadFrame.TheVariants as faults;
ghost use Rattle.ccr_wire.specs.Message.{NumberFits};
ghost use Rattle.ccr_wire.specs.Reading.{Gives, u32_at, u64_at, uuid_at, id_at, size_at, chunk_at, kind_at, result_at, answered_at, op_at, ops_at, sizes_at};

use crate::{BadFrame, Chunk, FrameKind, LeaseResult, Ops, Sizes};
use ccr_op::{BadOp, LeaseId, MOST_ID_BYTES, Op};
use std::alloc::Global;
use std::sync::ArcStr;

const UUID_BYTES: usize = 16;

const LEAST_PART_BYTES: u32 = 1;

const MOST_PART_BYTES: u32 = 16_777_216;

pub fn read_u8(bytes: &[u8]) -> Result<(u8, &[u8]), BadFrame>
    ensures { Gives (λ x. (x.0, x.1.now)) result (byte_at faults.Short bytes.now) }
{
    match bytes {
        [] => Err(BadFrame::Short),
        [first, rest @ ..] => Ok((*first, rest)),
    }
}

pub fn read_u16(bytes: &[u8]) -> Result<(u16, &[u8]), BadFrame>
    ensures { Gives (λ x. (x.0, x.1.now)) result (number_at faults.Short w16 bytes.now) }
{
    if bytes.len() < 2 {
        return Err(BadFrame::Short);
    }
    let (front, rest) = bytes.split_at(2);
    let number = u16::from_be_bytes([front[0], front[1]]);
    Ok((number, rest))
}

pub fn read_u32(bytes: &[u8]) -> Result<(u32, &[u8]), BadFrame>
    ensures { Gives (λ x. (x.0, x.1.now)) result (u32_at bytes.now) }
{
    if bytes.len() < 4 {
        return Err(BadFrame::Short);
    }
    let (front, rest) = bytes.split_at(4);
    let number = u32::from_be_bytes([front[0], front[1], front[2], front[3]]);
    Ok((number, rest))
}

pub fn read_u64(bytes: &[u8]) -> Result<(u64, &[u8]), BadFrame>
    ensures { Gives (λ x. (x.0, x.1.now)) result (u64_at bytes.now) }
{
    if bytes.len() < 8 {
        return Err(BadFrame::Short);
    }
    let (front, rest) = bytes.split_at(8);
    let number = u64::from_be_bytes([
        front[0], front[1], front[2], front[3], front[4], front[5], front[6], front[7],
    ]);
    Ok((number, rest))
}

/// The bytes of a UUID.
pub fn read_uuid(bytes: &[u8]) -> Result<([u8; UUID_BYTES], &[u8]), BadFrame>
    ensures { Gives (λ x. (x.0, x.1.now)) result (uuid_at bytes.now) }
{
    if bytes.len() < UUID_BYTES {
        return Err(BadFrame::Short);
    }
    let (front, rest) = bytes.split_at(UUID_BYTES);
    let mut id = [0; UUID_BYTES];
    id.copy_from_slice(front);
    Ok((id, rest))
}

#[tactic(auto, unfolding(crate::specs::Reading::kind_at))]
pub fn read_kind(bytes: &[u8]) -> Result<(FrameKind, &[u8]), BadFrame>
    ensures { Gives (λ x. (x.0, x.1.now)) result (kind_at bytes.now) }
{
    let (byte, rest) = read_u8(bytes)?;
    match FrameKind::of(byte) {
        Some(kind) => Ok((kind, rest)),
        None => Err(BadFrame::Kind),
    }
}

#[tactic(auto, unfolding(crate::specs::Reading::result_at))]
pub fn read_result(bytes: &[u8]) -> Result<(LeaseResult, &[u8]), BadFrame>
    ensures { Gives (λ x. (x.0, x.1.now)) result (result_at bytes.now) }
{
    let (byte, rest) = read_u8(bytes)?;
    match LeaseResult::of(byte) {
        Some(outcome) => Ok((outcome, rest)),
        None => Err(BadFrame::Field),
    }
}

#[tactic(auto, unfolding(crate::specs::Reading::answered_at))]
pub fn read_answered(outcome: LeaseResult, bytes: &[u8]) -> Result<(u64, &[u8]), BadFrame>
    ensures read { Gives (λ x. (x.0, x.1.now)) result (answered_at outcome bytes.now) }
    ensures fits { IfOk result (λ x. NumberFits outcome x.0) }
{
    match outcome {
        LeaseResult::NotFound => {
            let (number, rest) = read_u64(bytes)?;
            if number != 0 {
                return Err(BadFrame::Field);
            }
            Ok((number, rest))
        }
        LeaseResult::Ok | LeaseResult::Exists | LeaseResult::LowNumber => read_u64(bytes),
    }
}

#[tactic(auto, using(crate::proofs::UtfTests::utf8_tests), unfolding(ccr_op::specs::Fields::text_at))]
fn read_text(bytes: &[u8], size: usize) -> Result<(&str, &[u8]), BadFrame>
    ensures read { Gives (λ x. (x.0.now, x.1.now)) result (text_at faults.Short faults.Field size bytes.now) }
    ensures size { IfOk result (λ x. length x.0.now ≡ size) }
{
    if bytes.len() < size {
        return Err(BadFrame::Short);
    }
    let (text, rest) = bytes.split_at(size);
    match str::from_utf8(text) {
        Ok(text) => Ok((text, rest)),
        Err(_) => Err(BadFrame::Field),
    }
}

#[tactic(auto, unfolding(ccr_op::specs::Fields::bounded_at, ccr_op::specs::Fields::bounded_text_at))]
fn read_id_text(bytes: &[u8]) -> Result<(&str, &[u8]), BadFrame>
    ensures read { Gives (λ x. (x.0.now, x.1.now)) result (id_at bytes.now) }
    ensures bounds { IfOk result (λ x. IsIdText x.0.now) }
{
    let (size, rest) = read_u16(bytes)?;
    let size = size as usize;
    if size == 0 || size > MOST_ID_BYTES {
        return Err(BadFrame::Length);
    }
    read_text(rest, size)
}

pub fn read_id(alloc: Global, bytes: &[u8]) -> Result<(LeaseId, &[u8]), BadFrame>
    ensures { Gives (λ x. (x.0, x.1.now)) result (id_at bytes.now) }
{
    let (text, rest) = read_id_text(bytes)?;
    let text = ArcStr::from_str(alloc, text)?;
    match LeaseId::new(text) {
        Some(id) => Ok((id, rest)),
        None => unreachable!(),
    }
}

#[tactic(auto, unfolding(ccr_op::specs::Fields::bounded_at))]
pub fn read_size(bytes: &[u8]) -> Result<(u32, &[u8]), BadFrame>
    ensures read { Gives (λ x. (x.0, x.1.now)) result (size_at bytes.now) }
    ensures bounds { IfOk result (λ x. (1 ≤ x.0) × (x.0 ≤ 16777216)) }
{
    let (size, rest) = read_u32(bytes)?;
    if size < LEAST_PART_BYTES || size > MOST_PART_BYTES {
        return Err(BadFrame::Length);
    }
    Ok((size, rest))
}

#[tactic(auto, unfolding(crate::specs::Reading::chunk_at))]
pub fn read_chunk(alloc: Global, bytes: &[u8]) -> Result<(Chunk, &[u8]), BadFrame>
    ensures read { Gives (λ x. (x.0, x.1.now)) result (chunk_at bytes.now) }
    ensures bounds { IfOk result (λ x. (1 ≤ length x.0) × (length x.0 ≤ 16777216)) }
{
    let (size, rest) = read_size(bytes)?;
    let size = size as usize;
    if rest.len() < size {
        return Err(BadFrame::Short);
    }
    let (part, rest) = rest.split_at(size);
    Ok((Chunk::new(Vec::from_slice(alloc, part)?), rest))
}

#[tactic(auto, unfolding(crate::specs::Reading::op_at))]
fn read_op(alloc: Global, seq_start: u64, place: u64, bytes: &[u8]) -> Result<(Op, &[u8]), BadFrame>
    ensures read { Gives (λ x. (x.0, x.1.now)) result (op_at (seq_start + place) bytes.now) }
    ensures seq { IfOk result (λ x. x.0.seq ≡ seq_start + place) }
{
    match ccr_op::decode(alloc, bytes) {
        Ok((op, size)) => {
            if op.seq() < seq_start || op.seq() - seq_start != place {
                return Err(BadFrame::Field);
            }
            Ok((op, &bytes[size..]))
        }
        Err(BadOp::Short) => Err(BadFrame::Short),
        Err(BadOp::Memory) => Err(BadFrame::Memory),
        Err(BadOp::Kind) | Err(BadOp::Length) | Err(BadOp::Utf8) => Err(BadFrame::Field),
    }
}

/// The list grows as the operations are read.
pub fn read_ops(
    alloc: Global,
    from: u64,
    number: u32,
    bytes: &[u8],
) -> Result<(Ops, &[u8]), BadFrame>
    ensures { Gives (λ x. (x.0, x.1.now)) result (ops_at from number bytes.now) }
{
    let mut ops = Vec::new(alloc);
    let mut rest = bytes;
    for place in 0..number {
        let (op, after) = read_op(alloc, from, place as u64, rest)?;
        ops.push(op)?;
        rest = after;
    }
    Ok((Ops::new(ops), rest))
}

/// The list grows as the sizes are read.
pub fn read_sizes(alloc: Global, number: u32, bytes: &[u8]) -> Result<(Sizes, &[u8]), BadFrame>
    ensures { Gives (λ x. (x.0, x.1.now)) result (sizes_at number bytes.now) }
{
    let mut sizes = Vec::new(alloc);
    let mut rest = bytes;
    for _ in 0..number {
        let (size, after) = read_u64(rest)?;
        sizes.push(size)?;
        rest = after;
    }
    Ok((Sizes::new(sizes), rest))
}
