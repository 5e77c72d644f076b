ghost use Rattle.std.specs.Prelude.{◌≡◌};
ghost use Rattle.ccr_wire.specs.Message.{kind_of_content};

use crate::{Chunk, FrameKind, LeaseResult, Ops, Sizes};
use ccr_op::{Count, LeaseId, Millis};
use uuid::Uuid;

/// What a message says. The requests of reads, leases and sessions go to the leader, the others to the
/// follower.
#[derive(Debug, Drop)]
pub enum Content {
    /// Asks for operations from a number on, of this history. At most `max_ops` operations and `max_bytes`
    /// bytes are wanted, and an answer after `timeout` at the latest.
    ReadRequest {
        history: Uuid,
        from: Count,
        max_ops: u64,
        max_bytes: u64,
        timeout: Millis,
    },
    /// Operations with the numbers `from`, `from + 1` and so on, and the leader's global count.
    ReadReply {
        from: Count,
        global: Count,
        ops: Ops,
    },
    /// The operations from `from` on are gone: the oldest that is kept is at `floor`.
    ReadMissing {
        from: Count,
        floor: Count,
    },
    /// The leader has another history, which is this.
    ReadHistory {
        history: Uuid,
    },
    /// Asks for a lease of this id.
    LeaseAdd {
        id: LeaseId,
    },
    /// The lease is there, and keeps the operations from `number` on.
    LeaseAdded {
        number: Count,
    },
    /// Asks that a lease keeps the operations from `number` on.
    LeaseRenew {
        id: LeaseId,
        number: Count,
    },
    /// Asks that a lease goes.
    LeaseRemove {
        id: LeaseId,
    },
    /// What became of a renewal or a removal. The number is 0 where no lease was found.
    LeaseAnswer {
        outcome: LeaseResult,
        number: Count,
    },
    /// Asks for the files of a commit.
    SessionOpen,
    /// The files of a commit of this history at `count`, by their sizes in bytes.
    SessionOpened {
        session: u64,
        history: Uuid,
        count: Count,
        sizes: Sizes,
    },
    /// Asks for `size` bytes of a file from `offset` on.
    ChunkRequest {
        session: u64,
        file: u32,
        offset: u64,
        size: u32,
    },
    /// The bytes of a file from `offset` on.
    ChunkReply {
        session: u64,
        file: u32,
        offset: u64,
        bytes: Chunk,
    },
    /// There is no such session any more.
    SessionGone {
        session: u64,
    },
    /// A copy of the leader is not ready for a commit.
    NotReady {
        copy: u32,
    },
}

impl Content {
    /// The kind of the frame that carries it.
    pub fn kind(&self) -> FrameKind
        ensures { result ≡ kind_of_content self.now }
    {
        match self {
            Content::ReadRequest { .. } => FrameKind::ReadRequest,
            Content::ReadReply { .. } => FrameKind::ReadReply,
            Content::ReadMissing { .. } => FrameKind::ReadMissing,
            Content::ReadHistory { .. } => FrameKind::ReadHistory,
            Content::LeaseAdd { .. } => FrameKind::LeaseAdd,
            Content::LeaseAdded { .. } => FrameKind::LeaseAdded,
            Content::LeaseRenew { .. } => FrameKind::LeaseRenew,
            Content::LeaseRemove { .. } => FrameKind::LeaseRemove,
            Content::LeaseAnswer { .. } => FrameKind::LeaseAnswer,
            Content::SessionOpen => FrameKind::SessionOpen,
            Content::SessionOpened { .. } => FrameKind::SessionOpened,
            Content::ChunkRequest { .. } => FrameKind::ChunkRequest,
            Content::ChunkReply { .. } => FrameKind::ChunkReply,
            Content::SessionGone { .. } => FrameKind::SessionGone,
            Content::NotReady { .. } => FrameKind::NotReady,
        }
    }
}
