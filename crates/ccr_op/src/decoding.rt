ghost use Rattle.std.specs.Prelude.{◌≡◌, ℕ, ◌≤◌, List, [], ◌++◌, length, drop, IfOk, Ok};
ghost use Rattle.std.specs.Int.{w16, w32};
ghost use Rattle.ccr_op.specs.declared.bad_op.BadOp.TheVariants as faults;
ghost use Rattle.ccr_op.specs.Operation.{Operation, HasSpelling, IsSourceText};
ghost use Rattle.ccr_op.specs.Ids.{IsIdText};
ghost use Rattle.ccr_op.specs.Fields.{byte_at, number_at, text_at};
ghost use Rattle.ccr_op.specs.Spelling.{spelling};
ghost use Rattle.ccr_op.specs.Reading.{Gives, seen, numbered, measured, u64_at, id_at, source_at, index_at, delete_at, routed_index_at, routed_delete_at, no_op_at, operation_at};

use crate::kinds::{DELETE, INDEX, NO_OP, ROUTED_DELETE, ROUTED_INDEX};
use crate::{BadOp, Body, DocId, LEAST_SOURCE_BYTES, MOST_ID_BYTES, MOST_SOURCE_BYTES, Op};
use std::alloc::Global;
use std::sync::ArcStr;

fn read_u8(bytes: &[u8]) -> Result<(u8, &[u8]), BadOp>
    ensures { seen (λ x. (x.0, x.1.now)) result ≡ byte_at faults.Short bytes.now }
{
    match bytes {
        [] => Err(BadOp::Short),
        [first, rest @ ..] => Ok((*first, rest)),
    }
}

fn read_u16(bytes: &[u8]) -> Result<(u16, &[u8]), BadOp>
    ensures { seen (λ x. (x.0, x.1.now)) result ≡ number_at faults.Short w16 bytes.now }
{
    if bytes.len() < 2 {
        return Err(BadOp::Short);
    }
    let (front, rest) = bytes.split_at(2);
    let number = u16::from_be_bytes([front[0], front[1]]);
    Ok((number, rest))
}

fn read_u32(bytes: &[u8]) -> Result<(u32, &[u8]), BadOp>
    ensures { seen (λ x. (x.0, x.1.now)) result ≡ number_at faults.Short w32 bytes.now }
{
    if bytes.len() < 4 {
        return Err(BadOp::Short);
    }
    let (front, rest) = bytes.split_at(4);
    let number = u32::from_be_bytes([front[0], front[1], front[2], front[3]]);
    Ok((number, rest))
}

fn read_u64(bytes: &[u8]) -> Result<(u64, &[u8]), BadOp>
    ensures { seen (λ x. (x.0, x.1.now)) result ≡ u64_at bytes.now }
{
    if bytes.len() < 8 {
        return Err(BadOp::Short);
    }
    let (front, rest) = bytes.split_at(8);
    let number = u64::from_be_bytes([
        front[0], front[1], front[2], front[3], front[4], front[5], front[6], front[7],
    ]);
    Ok((number, rest))
}

#[tactic(auto, using(crate::proofs::UtfTests::utf8_tests), unfolding(crate::specs::Fields::text_at))]
fn read_text(bytes: &[u8], size: usize) -> Result<(&str, &[u8]), BadOp>
    ensures read { seen (λ x. (x.0.now, x.1.now)) result ≡ text_at faults.Short faults.Utf8 size bytes.now }
    ensures size { IfOk result (λ x. length x.0.now ≡ size) }
{
    if bytes.len() < size {
        return Err(BadOp::Short);
    }
    let (text, rest) = bytes.split_at(size);
    match str::from_utf8(text) {
        Ok(text) => Ok((text, rest)),
        Err(_) => Err(BadOp::Utf8),
    }
}

#[tactic(auto, unfolding(crate::specs::Fields::bounded_at, crate::specs::Fields::bounded_text_at))]
fn read_id_text(bytes: &[u8]) -> Result<(&str, &[u8]), BadOp>
    ensures read { seen (λ x. (x.0.now, x.1.now)) result ≡ id_at bytes.now }
    ensures bounds { IfOk result (λ x. IsIdText x.0.now) }
{
    let (size, rest) = read_u16(bytes)?;
    let size = size as usize;
    if size == 0 || size > MOST_ID_BYTES {
        return Err(BadOp::Length);
    }
    read_text(rest, size)
}

#[tactic(auto, unfolding(crate::specs::Fields::bounded_at, crate::specs::Fields::bounded_text_at))]
fn read_source_text(bytes: &[u8]) -> Result<(&str, &[u8]), BadOp>
    ensures read { seen (λ x. (x.0.now, x.1.now)) result ≡ source_at bytes.now }
    ensures bounds { IfOk result (λ x. IsSourceText x.0.now) }
{
    let (size, rest) = read_u32(bytes)?;
    let size = size as usize;
    if size < LEAST_SOURCE_BYTES || size > MOST_SOURCE_BYTES {
        return Err(BadOp::Length);
    }
    read_text(rest, size)
}

#[tactic(auto, using(crate::proofs::OperationLaws::text_fault_given))]
fn read_id(alloc: Global, bytes: &[u8]) -> Result<(DocId, &[u8]), BadOp>
    ensures { Gives (λ x. (x.0, x.1.now)) result (id_at bytes.now) }
{
    let (text, rest) = read_id_text(bytes)?;
    let text = ArcStr::from_str(alloc, text)?;
    match DocId::new(text) {
        Some(id) => Ok((id, rest)),
        None => unreachable!(),
    }
}

#[tactic(auto, using(crate::proofs::OperationLaws::text_fault_given))]
fn read_source(alloc: Global, bytes: &[u8]) -> Result<(Body, &[u8]), BadOp>
    ensures read { Gives (λ x. (x.0, x.1.now)) result (source_at bytes.now) }
    ensures bounds { IfOk result (λ x. IsSourceText x.0) }
{
    let (text, rest) = read_source_text(bytes)?;
    let text = ArcStr::from_str(alloc, text)?;
    Ok((Body::new(text), rest))
}

#[tactic(auto, using(crate::proofs::OperationLaws::fault_given), unfolding(crate::specs::Reading::index_at))]
fn read_index(alloc: Global, bytes: &[u8]) -> Result<(Op, &[u8]), BadOp>
    ensures { Gives (λ x. (x.0, x.1.now)) result (index_at bytes.now) }
{
    let (seq, rest) = read_u64(bytes)?;
    let (term, rest) = read_u64(rest)?;
    let (version, rest) = read_u64(rest)?;
    let (id, rest) = read_id(alloc, rest)?;
    let (body, rest) = read_source(alloc, rest)?;
    Ok((Op::index(seq, term, version, id, None, body), rest))
}

#[tactic(auto, using(crate::proofs::OperationLaws::fault_given), unfolding(crate::specs::Reading::routed_index_at))]
fn read_routed_index(alloc: Global, bytes: &[u8]) -> Result<(Op, &[u8]), BadOp>
    ensures { Gives (λ x. (x.0, x.1.now)) result (routed_index_at bytes.now) }
{
    let (seq, rest) = read_u64(bytes)?;
    let (term, rest) = read_u64(rest)?;
    let (version, rest) = read_u64(rest)?;
    let (id, rest) = read_id(alloc, rest)?;
    let (routing, rest) = read_id(alloc, rest)?;
    let (body, rest) = read_source(alloc, rest)?;
    let op = Op::index(seq, term, version, id, Some(routing), body);
    Ok((op, rest))
}

#[tactic(auto, using(crate::proofs::OperationLaws::fault_given), unfolding(crate::specs::Reading::delete_at))]
fn read_delete(alloc: Global, bytes: &[u8]) -> Result<(Op, &[u8]), BadOp>
    ensures { Gives (λ x. (x.0, x.1.now)) result (delete_at bytes.now) }
{
    let (seq, rest) = read_u64(bytes)?;
    let (term, rest) = read_u64(rest)?;
    let (version, rest) = read_u64(rest)?;
    let (id, rest) = read_id(alloc, rest)?;
    Ok((Op::delete(seq, term, version, id, None), rest))
}

#[tactic(auto, using(crate::proofs::OperationLaws::fault_given), unfolding(crate::specs::Reading::routed_delete_at))]
fn read_routed_delete(alloc: Global, bytes: &[u8]) -> Result<(Op, &[u8]), BadOp>
    ensures { Gives (λ x. (x.0, x.1.now)) result (routed_delete_at bytes.now) }
{
    let (seq, rest) = read_u64(bytes)?;
    let (term, rest) = read_u64(rest)?;
    let (version, rest) = read_u64(rest)?;
    let (id, rest) = read_id(alloc, rest)?;
    let (routing, rest) = read_id(alloc, rest)?;
    let op = Op::delete(seq, term, version, id, Some(routing));
    Ok((op, rest))
}

#[tactic(auto, using(crate::proofs::OperationLaws::fault_given), unfolding(crate::specs::Reading::no_op_at))]
fn read_no_op(bytes: &[u8]) -> Result<(Op, &[u8]), BadOp>
    ensures { Gives (λ x. (x.0, x.1.now)) result (no_op_at bytes.now) }
{
    let (seq, rest) = read_u64(bytes)?;
    let (term, rest) = read_u64(rest)?;
    Ok((Op::no_op(seq, term), rest))
}

#[tactic(auto, using(crate::proofs::OperationLaws::fault_given), unfolding(crate::specs::Reading::operation_at, crate::specs::Reading::kind_at))]
fn read_op(alloc: Global, bytes: &[u8]) -> Result<(Op, &[u8]), BadOp>
    ensures { Gives (λ x. (x.0, x.1.now)) result (operation_at bytes.now) }
{
    let (kind, rest) = read_u8(bytes)?;
    match kind {
        INDEX => read_index(alloc, rest),
        DELETE => read_delete(alloc, rest),
        NO_OP => read_no_op(rest),
        ROUTED_INDEX => read_routed_index(alloc, rest),
        ROUTED_DELETE => read_routed_delete(alloc, rest),
        _ => Err(BadOp::Kind),
    }
}

fn read_sized(alloc: Global, from: &[u8]) -> Result<(Op, usize), BadOp>
    ensures exact { Gives (λ x. (x.0, drop x.1 from.now)) result (operation_at from.now) }
    ensures within { IfOk result (λ x. x.1 ≤ length from.now) }
{
    let (op, rest) = read_op(alloc, from)?;
    let size = from.len() - rest.len();
    Ok((op, size))
}

/// The operation at the front of the bytes, and the length of its encoding. Bytes after it are left.
/// It asks for memory for the operation's own texts alone.
///
/// # Errors
///
/// The first field in order that cannot be read: the kind, the number, the term, the version, the length of
/// the id, the id, the length of the routing, the routing, the length of the source, the source. A length is
/// judged before the bytes that it counts.
pub fn decode(alloc: Global, from: &[u8]) -> Result<(Op, usize), BadOp>
    // What is read is spelled so.
    ensures found { IfOk result (λ x. HasSpelling x.0 × (from.now ≡ spelling x.0 ++ drop x.1 from.now)) }
    ensures size { IfOk result (λ x. x.1 ≡ length (spelling x.0)) }
    ensures within { IfOk result (λ x. x.1 ≤ length from.now) }
    // What is spelled so is read, unless memory runs out.
    ensures only { (op : Operation) (rest : List ℕ) → HasSpelling op → from.now ≡ spelling op ++ rest → Gives {Y = Operation × ℕ} (λ x. (x.0, x.1)) result (Ok (op, length (spelling op))) }
    // Which field it is.
    ensures exact { Gives (λ x. (x.0, drop x.1 from.now)) result (operation_at from.now) }
    // No spelling of an operation begins another.
    ensures alone { (a : Operation) (b : Operation) (rest : List ℕ) → HasSpelling a → HasSpelling b → spelling b ≡ spelling a ++ rest → (a ≡ b) × (rest ≡ []) }
{
    read_sized(alloc, from)
}

#[tactic(auto, unfolding(crate::specs::Reading::index_at))]
fn skip_index(bytes: &[u8]) -> Result<(u64, &[u8]), BadOp>
    ensures { seen (λ x. (x.0, x.1.now)) result ≡ numbered (index_at bytes.now) }
{
    let (seq, rest) = read_u64(bytes)?;
    let (_, rest) = read_u64(rest)?;
    let (_, rest) = read_u64(rest)?;
    let (_, rest) = read_id_text(rest)?;
    let (_, rest) = read_source_text(rest)?;
    Ok((seq, rest))
}

#[tactic(auto, unfolding(crate::specs::Reading::routed_index_at))]
fn skip_routed_index(bytes: &[u8]) -> Result<(u64, &[u8]), BadOp>
    ensures { seen (λ x. (x.0, x.1.now)) result ≡ numbered (routed_index_at bytes.now) }
{
    let (seq, rest) = read_u64(bytes)?;
    let (_, rest) = read_u64(rest)?;
    let (_, rest) = read_u64(rest)?;
    let (_, rest) = read_id_text(rest)?;
    let (_, rest) = read_id_text(rest)?;
    let (_, rest) = read_source_text(rest)?;
    Ok((seq, rest))
}

#[tactic(auto, unfolding(crate::specs::Reading::delete_at))]
fn skip_delete(bytes: &[u8]) -> Result<(u64, &[u8]), BadOp>
    ensures { seen (λ x. (x.0, x.1.now)) result ≡ numbered (delete_at bytes.now) }
{
    let (seq, rest) = read_u64(bytes)?;
    let (_, rest) = read_u64(rest)?;
    let (_, rest) = read_u64(rest)?;
    let (_, rest) = read_id_text(rest)?;
    Ok((seq, rest))
}

#[tactic(auto, unfolding(crate::specs::Reading::routed_delete_at))]
fn skip_routed_delete(bytes: &[u8]) -> Result<(u64, &[u8]), BadOp>
    ensures { seen (λ x. (x.0, x.1.now)) result ≡ numbered (routed_delete_at bytes.now) }
{
    let (seq, rest) = read_u64(bytes)?;
    let (_, rest) = read_u64(rest)?;
    let (_, rest) = read_u64(rest)?;
    let (_, rest) = read_id_text(rest)?;
    let (_, rest) = read_id_text(rest)?;
    Ok((seq, rest))
}

#[tactic(auto, unfolding(crate::specs::Reading::no_op_at))]
fn skip_no_op(bytes: &[u8]) -> Result<(u64, &[u8]), BadOp>
    ensures { seen (λ x. (x.0, x.1.now)) result ≡ numbered (no_op_at bytes.now) }
{
    let (seq, rest) = read_u64(bytes)?;
    let (_, rest) = read_u64(rest)?;
    Ok((seq, rest))
}

#[tactic(auto, unfolding(crate::specs::Reading::operation_at, crate::specs::Reading::kind_at))]
fn skip_op(bytes: &[u8]) -> Result<(u64, &[u8]), BadOp>
    ensures { seen (λ x. (x.0, x.1.now)) result ≡ numbered (operation_at bytes.now) }
{
    let (kind, rest) = read_u8(bytes)?;
    match kind {
        INDEX => skip_index(rest),
        DELETE => skip_delete(rest),
        NO_OP => skip_no_op(rest),
        ROUTED_INDEX => skip_routed_index(rest),
        ROUTED_DELETE => skip_routed_delete(rest),
        _ => Err(BadOp::Kind),
    }
}

/// The number of the operation at the front of the bytes, and the length of its encoding, as `decode` reads
/// them. It builds nothing and takes no memory; its cost is that of reading the operation's bytes once.
///
/// # Errors
///
/// Those of `decode`, but for want of memory.
pub fn measure(from: &[u8]) -> Result<(u64, usize), BadOp>
    ensures exact { result ≡ measured (operation_at from.now) }
    ensures within { IfOk result (λ x. x.1 ≤ length from.now) }
{
    let (seq, rest) = skip_op(from)?;
    let size = from.len() - rest.len();
    Ok((seq, size))
}
