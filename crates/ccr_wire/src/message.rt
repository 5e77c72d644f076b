ghost use Rattle.std.specs.Prelude.{◌≡◌};
ghost use Rattle.std.specs.List.{AllByRecursion};
ghost use Rattle.ccr_op.specs.Operation.{HasSpelling as OpHasSpelling};
ghost use Rattle.ccr_wire.specs.Message.{ContentFits, FieldsFit, HasSpelling, IsU64, IsUuid};

use crate::Content;
use ccr_op::Op;
use std::marker::Model;
use uuid::Uuid;

/// A message between the leader and a follower. It keeps the bounds under which it can be spelled in bytes:
/// the operations of a reply are fewer than 2^32 and numbered in order from its `from`, a session has fewer
/// than 2^32 files, the size of a part of a file and a part itself are from 1 to 16,777,216 bytes, and a
/// lease that was not found has the number 0.
#[derive(Debug, Drop)]
pub struct Message {
    follower: Uuid,
    request: u64,
    content: Content,
}

impl Model for Message {
    ghost use Rattle.ccr_wire.specs.Message.{Frame, HasSpelling};

    ghost Value = { Frame };

    ghost view = { λ a. record { follower = a.follower; request = a.request; content = a.content } };

    ghost invariant = { λ a. HasSpelling (record { follower = a.follower; request = a.request; content = a.content }) };
}

/// Operations can be spelled.
fn know_ops(ops: &[Op])
    ensures { AllByRecursion OpHasSpelling ops.now }
{
    for op in ops {
        let _kind = op.kind();
    }
}

/// Sizes are numbers of 64 bits.
fn know_sizes(sizes: &[u64])
    ensures { AllByRecursion IsU64 sizes.now }
{
    for size in sizes {
        let _size = *size;
    }
}

/// A UUID has 16 bytes.
fn know_uuid(id: &Uuid)
    ensures { IsUuid id.now }
{
    let bytes: &[u8] = id.as_bytes();
    let _length = bytes.len();
}

/// What the types of a content's fields say of their values.
fn know_fields(content: &Content)
    ensures { FieldsFit content.now }
{
    match content {
        Content::ReadRequest {
            history,
            from,
            max_ops,
            max_bytes,
            timeout,
        } => {
            know_uuid(history);
            let _numbers = (*from, *max_ops, *max_bytes, *timeout);
        }
        Content::ReadReply { from, global, ops } => {
            let _numbers = (*from, *global);
            know_ops(ops.as_slice());
        }
        Content::ReadMissing { from, floor } => {
            let _numbers = (*from, *floor);
        }
        Content::ReadHistory { history } => {
            know_uuid(history);
        }
        Content::LeaseAdd { id } | Content::LeaseRemove { id } => {
            let _id = id.as_str();
        }
        Content::LeaseAdded { number } => {
            let _number = *number;
        }
        Content::LeaseRenew { id, number } => {
            let _id = id.as_str();
            let _number = *number;
        }
        Content::LeaseAnswer { number, .. } => {
            let _number = *number;
        }
        Content::SessionOpen => {}
        Content::SessionOpened {
            session,
            history,
            count,
            sizes,
        } => {
            let _numbers = (*session, *count);
            know_uuid(history);
            know_sizes(sizes.as_slice());
        }
        Content::ChunkRequest {
            session,
            file,
            offset,
            ..
        }
        | Content::ChunkReply {
            session,
            file,
            offset,
            ..
        } => {
            let _numbers = (*session, *file, *offset);
        }
        Content::SessionGone { session } => {
            let _session = *session;
        }
        Content::NotReady { copy } => {
            let _copy = *copy;
        }
    }
}

impl Message {
    ghost use Rattle.ccr_wire.specs.Message.{Frame};

    /// A message of a follower's request, or to it.
    pub fn new(follower: Uuid, request: u64, content: Content) -> Message
        requires { ContentFits content }
        ensures { result ≡ record { follower = follower; request = request; content = content } }
    {
        know_uuid(&follower);
        know_fields(&content);
        Message {
            follower,
            request,
            content,
        }
    }

    /// The follower that sends it or gets it.
    pub fn follower(&self) -> Uuid
        ensures { result ≡ self.now.follower }
    {
        self.follower
    }

    /// The number of the follower's request.
    pub fn request(&self) -> u64
        ensures { result ≡ self.now.request }
    {
        self.request
    }

    /// What it says.
    pub fn content(&self) -> &Content
        ensures value { result.now ≡ self.now.content }
        ensures fits { HasSpelling self.now }
    {
        &self.content
    }

    /// What it says, with its memory.
    pub fn into_content(self) -> Content
        ensures value { result ≡ self.content }
        ensures fits { ContentFits self.content }
    {
        self.content
    }
}
