ghost use Rattle.std.specs.Prelude.{◌≡◌, ℕ, List, [], ◌++◌, IfOk, Ok};
ghost use Rattle.ccr_wire.specs.declared.kind.FrameKind.TheVariants as kinds;
ghost use Rattle.ccr_wire.specs.Message.{Frame, ContentFits, HasSpelling};
ghost use Rattle.ccr_wire.specs.Spelling.{spelling};
ghost use Rattle.ccr_wire.specs.Reading.{Gives, content_at, message_at, message_of};

use crate::fields::{
    read_answered, read_chunk, read_id, read_kind, read_ops, read_result, read_size, read_sizes,
    read_u32, read_u64, read_uuid,
};
use crate::{BadFrame, Content, FrameKind, Message};
use std::alloc::Global;
use uuid::Uuid;

#[tactic(auto, unfolding(crate::specs::Reading::content_at))]
fn read_read_request(bytes: &[u8]) -> Result<(Content, &[u8]), BadFrame>
    ensures { Gives (λ x. (x.0, x.1.now)) result (content_at kinds.ReadRequest bytes.now) }
{
    let (history, rest) = read_uuid(bytes)?;
    let (from, rest) = read_u64(rest)?;
    let (max_ops, rest) = read_u64(rest)?;
    let (max_bytes, rest) = read_u64(rest)?;
    let (timeout, rest) = read_u64(rest)?;
    let content = Content::ReadRequest {
        history: Uuid::from_bytes(history),
        from,
        max_ops,
        max_bytes,
        timeout,
    };
    Ok((content, rest))
}

#[tactic(auto, unfolding(crate::specs::Reading::content_at))]
fn read_read_reply(alloc: Global, bytes: &[u8]) -> Result<(Content, &[u8]), BadFrame>
    ensures { Gives (λ x. (x.0, x.1.now)) result (content_at kinds.ReadReply bytes.now) }
{
    let (from, rest) = read_u64(bytes)?;
    let (global, rest) = read_u64(rest)?;
    let (number, rest) = read_u32(rest)?;
    let (ops, rest) = read_ops(alloc, from, number, rest)?;
    Ok((Content::ReadReply { from, global, ops }, rest))
}

#[tactic(auto, unfolding(crate::specs::Reading::content_at))]
fn read_read_missing(bytes: &[u8]) -> Result<(Content, &[u8]), BadFrame>
    ensures { Gives (λ x. (x.0, x.1.now)) result (content_at kinds.ReadMissing bytes.now) }
{
    let (from, rest) = read_u64(bytes)?;
    let (floor, rest) = read_u64(rest)?;
    Ok((Content::ReadMissing { from, floor }, rest))
}

#[tactic(auto, unfolding(crate::specs::Reading::content_at))]
fn read_read_history(bytes: &[u8]) -> Result<(Content, &[u8]), BadFrame>
    ensures { Gives (λ x. (x.0, x.1.now)) result (content_at kinds.ReadHistory bytes.now) }
{
    let (history, rest) = read_uuid(bytes)?;
    Ok((
        Content::ReadHistory {
            history: Uuid::from_bytes(history),
        },
        rest,
    ))
}

#[tactic(auto, unfolding(crate::specs::Reading::content_at))]
fn read_lease_add(alloc: Global, bytes: &[u8]) -> Result<(Content, &[u8]), BadFrame>
    ensures { Gives (λ x. (x.0, x.1.now)) result (content_at kinds.LeaseAdd bytes.now) }
{
    let (id, rest) = read_id(alloc, bytes)?;
    Ok((Content::LeaseAdd { id }, rest))
}

#[tactic(auto, unfolding(crate::specs::Reading::content_at))]
fn read_lease_added(bytes: &[u8]) -> Result<(Content, &[u8]), BadFrame>
    ensures { Gives (λ x. (x.0, x.1.now)) result (content_at kinds.LeaseAdded bytes.now) }
{
    let (number, rest) = read_u64(bytes)?;
    Ok((Content::LeaseAdded { number }, rest))
}

#[tactic(auto, unfolding(crate::specs::Reading::content_at))]
fn read_lease_renew(alloc: Global, bytes: &[u8]) -> Result<(Content, &[u8]), BadFrame>
    ensures { Gives (λ x. (x.0, x.1.now)) result (content_at kinds.LeaseRenew bytes.now) }
{
    let (id, rest) = read_id(alloc, bytes)?;
    let (number, rest) = read_u64(rest)?;
    Ok((Content::LeaseRenew { id, number }, rest))
}

#[tactic(auto, unfolding(crate::specs::Reading::content_at))]
fn read_lease_remove(alloc: Global, bytes: &[u8]) -> Result<(Content, &[u8]), BadFrame>
    ensures { Gives (λ x. (x.0, x.1.now)) result (content_at kinds.LeaseRemove bytes.now) }
{
    let (id, rest) = read_id(alloc, bytes)?;
    Ok((Content::LeaseRemove { id }, rest))
}

#[tactic(auto, unfolding(crate::specs::Reading::content_at))]
fn read_lease_answer(bytes: &[u8]) -> Result<(Content, &[u8]), BadFrame>
    ensures { Gives (λ x. (x.0, x.1.now)) result (content_at kinds.LeaseAnswer bytes.now) }
{
    let (outcome, rest) = read_result(bytes)?;
    let (number, rest) = read_answered(outcome, rest)?;
    Ok((Content::LeaseAnswer { outcome, number }, rest))
}

#[tactic(auto, unfolding(crate::specs::Reading::content_at))]
fn read_session_opened(alloc: Global, bytes: &[u8]) -> Result<(Content, &[u8]), BadFrame>
    ensures { Gives (λ x. (x.0, x.1.now)) result (content_at kinds.SessionOpened bytes.now) }
{
    let (session, rest) = read_u64(bytes)?;
    let (history, rest) = read_uuid(rest)?;
    let (count, rest) = read_u64(rest)?;
    let (files, rest) = read_u32(rest)?;
    let (sizes, rest) = read_sizes(alloc, files, rest)?;
    let content = Content::SessionOpened {
        session,
        history: Uuid::from_bytes(history),
        count,
        sizes,
    };
    Ok((content, rest))
}

#[tactic(auto, unfolding(crate::specs::Reading::content_at))]
fn read_chunk_request(bytes: &[u8]) -> Result<(Content, &[u8]), BadFrame>
    ensures { Gives (λ x. (x.0, x.1.now)) result (content_at kinds.ChunkRequest bytes.now) }
{
    let (session, rest) = read_u64(bytes)?;
    let (file, rest) = read_u32(rest)?;
    let (offset, rest) = read_u64(rest)?;
    let (size, rest) = read_size(rest)?;
    let content = Content::ChunkRequest {
        session,
        file,
        offset,
        size,
    };
    Ok((content, rest))
}

#[tactic(auto, unfolding(crate::specs::Reading::content_at))]
fn read_chunk_reply(alloc: Global, bytes: &[u8]) -> Result<(Content, &[u8]), BadFrame>
    ensures { Gives (λ x. (x.0, x.1.now)) result (content_at kinds.ChunkReply bytes.now) }
{
    let (session, rest) = read_u64(bytes)?;
    let (file, rest) = read_u32(rest)?;
    let (offset, rest) = read_u64(rest)?;
    let (bytes, rest) = read_chunk(alloc, rest)?;
    let content = Content::ChunkReply {
        session,
        file,
        offset,
        bytes,
    };
    Ok((content, rest))
}

#[tactic(auto, unfolding(crate::specs::Reading::content_at))]
fn read_session_gone(bytes: &[u8]) -> Result<(Content, &[u8]), BadFrame>
    ensures { Gives (λ x. (x.0, x.1.now)) result (content_at kinds.SessionGone bytes.now) }
{
    let (session, rest) = read_u64(bytes)?;
    Ok((Content::SessionGone { session }, rest))
}

#[tactic(auto, unfolding(crate::specs::Reading::content_at))]
fn read_not_ready(bytes: &[u8]) -> Result<(Content, &[u8]), BadFrame>
    ensures { Gives (λ x. (x.0, x.1.now)) result (content_at kinds.NotReady bytes.now) }
{
    let (copy, rest) = read_u32(bytes)?;
    Ok((Content::NotReady { copy }, rest))
}

#[tactic(auto, unfolding(crate::specs::Reading::content_at))]
fn read_session_open(bytes: &[u8]) -> Result<(Content, &[u8]), BadFrame>
    ensures { Gives (λ x. (x.0, x.1.now)) result (content_at kinds.SessionOpen bytes.now) }
{
    Ok((Content::SessionOpen, bytes))
}

fn read_fields(alloc: Global, kind: FrameKind, bytes: &[u8]) -> Result<(Content, &[u8]), BadFrame>
    ensures { Gives (λ x. (x.0, x.1.now)) result (content_at kind bytes.now) }
{
    match kind {
        FrameKind::ReadRequest => read_read_request(bytes),
        FrameKind::ReadReply => read_read_reply(alloc, bytes),
        FrameKind::ReadMissing => read_read_missing(bytes),
        FrameKind::ReadHistory => read_read_history(bytes),
        FrameKind::LeaseAdd => read_lease_add(alloc, bytes),
        FrameKind::LeaseAdded => read_lease_added(bytes),
        FrameKind::LeaseRenew => read_lease_renew(alloc, bytes),
        FrameKind::LeaseRemove => read_lease_remove(alloc, bytes),
        FrameKind::LeaseAnswer => read_lease_answer(bytes),
        FrameKind::SessionOpen => read_session_open(bytes),
        FrameKind::SessionOpened => read_session_opened(alloc, bytes),
        FrameKind::ChunkRequest => read_chunk_request(bytes),
        FrameKind::ChunkReply => read_chunk_reply(alloc, bytes),
        FrameKind::SessionGone => read_session_gone(bytes),
        FrameKind::NotReady => read_not_ready(bytes),
    }
}

fn read_content(alloc: Global, kind: FrameKind, bytes: &[u8]) -> Result<(Content, &[u8]), BadFrame>
    ensures read { Gives (λ x. (x.0, x.1.now)) result (content_at kind bytes.now) }
    ensures fits { IfOk result (λ x. ContentFits x.0) }
{
    read_fields(alloc, kind, bytes)
}

#[tactic(auto, unfolding(crate::specs::Reading::message_at))]
fn read_message(alloc: Global, bytes: &[u8]) -> Result<(Message, &[u8]), BadFrame>
    ensures { Gives (λ x. (x.0, x.1.now)) result (message_at bytes.now) }
{
    let (kind, rest) = read_kind(bytes)?;
    let (follower, rest) = read_uuid(rest)?;
    let (request, rest) = read_u64(rest)?;
    let (content, rest) = read_content(alloc, kind, rest)?;
    Ok((
        Message::new(Uuid::from_bytes(follower), request, content),
        rest,
    ))
}

#[tactic(auto, unfolding(crate::specs::Reading::message_of))]
fn read_all(alloc: Global, bytes: &[u8]) -> Result<Message, BadFrame>
    ensures { Gives (λ m. m) result (message_of bytes.now) }
{
    let (message, rest) = read_message(alloc, bytes)?;
    if !rest.is_empty() {
        return Err(BadFrame::Trailing);
    }
    Ok(message)
}

/// The message that the bytes of a frame spell, all of the bytes. This takes time with their number. Lists
/// grow as their members are read, so a frame that states more of them than it has costs no memory for it.
///
/// # Errors
///
/// The first field in order that cannot be read: the kind, the follower, the request, the fields of the kind,
/// and then the end. A length is judged before the bytes that it counts. An operation is one field: `Short`
/// where the bytes end in it, else `Field` where it cannot be read or has another number than its place asks.
pub fn decode(alloc: Global, from: &[u8]) -> Result<Message, BadFrame>
    // What is read is spelled so.
    ensures found { IfOk result (λ m. HasSpelling m × (from.now ≡ spelling m)) }
    // What is spelled so is read, unless memory runs out.
    ensures only { (m : Frame) → HasSpelling m → from.now ≡ spelling m → Gives (λ x. x) result (Ok m) }
    // Which field it is.
    ensures exact { Gives (λ m. m) result (message_of from.now) }
    // No spelling of a message begins another.
    ensures alone { (a : Frame) (b : Frame) (rest : List ℕ) → HasSpelling a → HasSpelling b → spelling b ≡ spelling a ++ rest → (a ≡ b) × (rest ≡ []) }
{
    read_all(alloc, from)
}
