ghost use Rattle.std.specs.Prelude.{◌≡◌, ◌<◌, ◌^◌, ◌++◌, length, OnOk, IfOk};
ghost use Rattle.std.specs.List.{flat_map};
ghost use Rattle.std.specs.Int.{w16, w32};
ghost use Rattle.ccr_op.specs.Fields.{counted};
ghost use Rattle.ccr_op.specs.Spelling.{spelling as op_spelling};
ghost use Rattle.ccr_wire.specs.Message.{ContentFits, HasSpelling};
ghost use Rattle.ccr_wire.specs.Spelling.{u32 as u32_bytes, u64 as u64_bytes, fields_of, spelling};

use crate::{Content, Message};
use bytes::Bytes;
use ccr_op::{LeaseId, Op};
use std::alloc::{AllocError, Global};
use uuid::Uuid;

/// The bytes that a frame has at most, beside its id, its operations, its sizes and its part of a file.
const OWN_BYTES: usize = 96;

/// How many bytes the lists and texts of a message take, or as many as can be counted: a hint, so that the
/// memory of a frame is asked for once.
fn size_hint(content: &Content) -> usize {
    match content {
        Content::ReadReply { ops, .. } => {
            let mut size = OWN_BYTES;
            for op in ops.as_slice() {
                size = size.saturating_add(op.size() as usize);
            }
            size
        }
        Content::LeaseAdd { id } | Content::LeaseRenew { id, .. } | Content::LeaseRemove { id } => {
            OWN_BYTES.saturating_add(id.as_str().len())
        }
        Content::SessionOpened { sizes, .. } => {
            OWN_BYTES.saturating_add(sizes.as_slice().len().saturating_mul(8))
        }
        Content::ChunkReply { bytes, .. } => OWN_BYTES.saturating_add(bytes.as_slice().len()),
        _ => OWN_BYTES,
    }
}

fn put_u32(to: &mut Vec<u8>, number: u32) -> Result<(), AllocError>
    ensures { OnOk result (to.new.items ≡ to.old.items ++ u32_bytes number) }
{
    to.extend_from_slice(&number.to_be_bytes())
}

fn put_u64(to: &mut Vec<u8>, number: u64) -> Result<(), AllocError>
    ensures { OnOk result (to.new.items ≡ to.old.items ++ u64_bytes number) }
{
    to.extend_from_slice(&number.to_be_bytes())
}

fn put_uuid(to: &mut Vec<u8>, id: &Uuid) -> Result<(), AllocError>
    ensures { OnOk result (to.new.items ≡ to.old.items ++ id.now) }
{
    to.extend_from_slice(id.as_bytes())
}

fn put_id(to: &mut Vec<u8>, id: &LeaseId) -> Result<(), AllocError>
    ensures { OnOk result (to.new.items ≡ to.old.items ++ counted w16 id.now) }
{
    let text = id.as_str();
    to.extend_from_slice(&(text.len() as u16).to_be_bytes())?;
    to.extend_from_slice(text.as_bytes())?;
    Ok(())
}

fn put_ops(to: &mut Vec<u8>, ops: &[Op]) -> Result<(), AllocError>
    ensures { OnOk result (to.new.items ≡ to.old.items ++ flat_map op_spelling ops.now) }
{
    for op in ops {
        ccr_op::encode(op, to)?;
    }
    Ok(())
}

fn put_sizes(to: &mut Vec<u8>, sizes: &[u64]) -> Result<(), AllocError>
    ensures { OnOk result (to.new.items ≡ to.old.items ++ flat_map u64_bytes sizes.now) }
{
    for size in sizes {
        put_u64(to, *size)?;
    }
    Ok(())
}

fn put_read_request(
    to: &mut Vec<u8>,
    history: &Uuid,
    from: u64,
    max_ops: u64,
    max_bytes: u64,
    timeout: u64,
) -> Result<(), AllocError>
    ensures { OnOk result (to.new.items ≡ to.old.items ++ (history.now ++ (u64_bytes from ++ (u64_bytes max_ops ++ (u64_bytes max_bytes ++ u64_bytes timeout))))) }
{
    put_uuid(to, history)?;
    put_u64(to, from)?;
    put_u64(to, max_ops)?;
    put_u64(to, max_bytes)?;
    put_u64(to, timeout)?;
    Ok(())
}

fn put_read_reply(to: &mut Vec<u8>, from: u64, global: u64, ops: &[Op]) -> Result<(), AllocError>
    requires { length ops.now < 2 ^ 32 }
    ensures { OnOk result (to.new.items ≡ to.old.items ++ (u64_bytes from ++ (u64_bytes global ++ (u32_bytes (length ops.now) ++ flat_map op_spelling ops.now)))) }
{
    put_u64(to, from)?;
    put_u64(to, global)?;
    put_u32(to, ops.len() as u32)?;
    put_ops(to, ops)?;
    Ok(())
}

fn put_read_missing(to: &mut Vec<u8>, from: u64, floor: u64) -> Result<(), AllocError>
    ensures { OnOk result (to.new.items ≡ to.old.items ++ (u64_bytes from ++ u64_bytes floor)) }
{
    put_u64(to, from)?;
    put_u64(to, floor)?;
    Ok(())
}

fn put_session_opened(
    to: &mut Vec<u8>,
    session: u64,
    history: &Uuid,
    count: u64,
    sizes: &[u64],
) -> Result<(), AllocError>
    requires { length sizes.now < 2 ^ 32 }
    ensures { OnOk result (to.new.items ≡ to.old.items ++ (u64_bytes session ++ (history.now ++ (u64_bytes count ++ (u32_bytes (length sizes.now) ++ flat_map u64_bytes sizes.now))))) }
{
    put_u64(to, session)?;
    put_uuid(to, history)?;
    put_u64(to, count)?;
    put_u32(to, sizes.len() as u32)?;
    put_sizes(to, sizes)?;
    Ok(())
}

/// A part of a file behind its length.
fn put_counted(to: &mut Vec<u8>, part: &[u8]) -> Result<(), AllocError>
    requires { length part.now < 2 ^ 32 }
    ensures { OnOk result (to.new.items ≡ to.old.items ++ counted w32 part.now) }
{
    put_u32(to, part.len() as u32)?;
    to.extend_from_slice(part)?;
    Ok(())
}

fn put_chunk_request(
    to: &mut Vec<u8>,
    session: u64,
    file: u32,
    offset: u64,
    size: u32,
) -> Result<(), AllocError>
    ensures { OnOk result (to.new.items ≡ to.old.items ++ (u64_bytes session ++ (u32_bytes file ++ (u64_bytes offset ++ u32_bytes size)))) }
{
    put_u64(to, session)?;
    put_u32(to, file)?;
    put_u64(to, offset)?;
    put_u32(to, size)?;
    Ok(())
}

fn put_chunk_reply(
    to: &mut Vec<u8>,
    session: u64,
    file: u32,
    offset: u64,
    part: &[u8],
) -> Result<(), AllocError>
    requires { length part.now < 2 ^ 32 }
    ensures { OnOk result (to.new.items ≡ to.old.items ++ (u64_bytes session ++ (u32_bytes file ++ (u64_bytes offset ++ counted w32 part.now)))) }
{
    put_u64(to, session)?;
    put_u32(to, file)?;
    put_u64(to, offset)?;
    put_counted(to, part)?;
    Ok(())
}

#[tactic(auto, using(std::proofs::Common::append_assoc))]
fn put_fields(to: &mut Vec<u8>, content: &Content) -> Result<(), AllocError>
    requires { ContentFits content.now }
    ensures { OnOk result (to.new.items ≡ to.old.items ++ fields_of content.now) }
{
    match content {
        Content::ReadRequest {
            history,
            from,
            max_ops,
            max_bytes,
            timeout,
        } => {
            put_read_request(to, history, *from, *max_ops, *max_bytes, *timeout)?;
        }
        Content::ReadReply { from, global, ops } => {
            put_read_reply(to, *from, *global, ops.as_slice())?;
        }
        Content::ReadMissing { from, floor } => {
            put_read_missing(to, *from, *floor)?;
        }
        Content::ReadHistory { history } => put_uuid(to, history)?,
        Content::LeaseAdd { id } => put_id(to, id)?,
        Content::LeaseAdded { number } => put_u64(to, *number)?,
        Content::LeaseRenew { id, number } => {
            put_id(to, id)?;
            put_u64(to, *number)?;
        }
        Content::LeaseRemove { id } => put_id(to, id)?,
        Content::LeaseAnswer { outcome, number } => {
            to.push(outcome.byte())?;
            put_u64(to, *number)?;
        }
        Content::SessionOpen => {}
        Content::SessionOpened {
            session,
            history,
            count,
            sizes,
        } => {
            put_session_opened(to, *session, history, *count, sizes.as_slice())?;
        }
        Content::ChunkRequest {
            session,
            file,
            offset,
            size,
        } => {
            put_chunk_request(to, *session, *file, *offset, *size)?;
        }
        Content::ChunkReply {
            session,
            file,
            offset,
            bytes,
        } => {
            put_chunk_reply(to, *session, *file, *offset, bytes.as_slice())?;
        }
        Content::SessionGone { session } => put_u64(to, *session)?,
        Content::NotReady { copy } => put_u32(to, *copy)?,
    }
    Ok(())
}

/// The one spelling of a message as a frame: the byte of its kind, the follower, the request, and the fields
/// of the kind. This takes time and one piece of memory with the length of the frame.
pub fn encode(alloc: Global, message: &Message) -> Result<Bytes, AllocError>
    ensures spelled { IfOk result (λ frame. frame ≡ spelling message.now) }
    ensures fits { HasSpelling message.now }
{
    let content = message.content();
    let mut frame = Vec::with_capacity(alloc, size_hint(content))?;
    frame.push(content.kind().byte())?;
    put_uuid(&mut frame, &message.follower())?;
    put_u64(&mut frame, message.request())?;
    put_fields(&mut frame, content)?;
    Ok(Bytes::from_vec(frame)?)
}
