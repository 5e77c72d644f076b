ghost use Rattle.std.specs.Prelude.{◌≡◌};
ghost use Rattle.ccr_wire.specs.Kinds.{byte_of, kind_of, result_byte, result_of};

/// The kinds of frames. The first byte of a frame tells its kind.
#[derive(Clone, Copy, Debug, PartialEq, Eq)]
pub enum FrameKind {
    ReadRequest,
    ReadReply,
    ReadMissing,
    ReadHistory,
    LeaseAdd,
    LeaseAdded,
    LeaseRenew,
    LeaseRemove,
    LeaseAnswer,
    SessionOpen,
    SessionOpened,
    ChunkRequest,
    ChunkReply,
    SessionGone,
    NotReady,
}

impl FrameKind {
    /// Its byte, from 1 to 15.
    pub fn byte(self) -> u8
        ensures { result ≡ byte_of self }
    {
        match self {
            FrameKind::ReadRequest => 1,
            FrameKind::ReadReply => 2,
            FrameKind::ReadMissing => 3,
            FrameKind::ReadHistory => 4,
            FrameKind::LeaseAdd => 5,
            FrameKind::LeaseAdded => 6,
            FrameKind::LeaseRenew => 7,
            FrameKind::LeaseRemove => 8,
            FrameKind::LeaseAnswer => 9,
            FrameKind::SessionOpen => 10,
            FrameKind::SessionOpened => 11,
            FrameKind::ChunkRequest => 12,
            FrameKind::ChunkReply => 13,
            FrameKind::SessionGone => 14,
            FrameKind::NotReady => 15,
        }
    }

    /// The kind that has this byte.
    #[tactic(auto, unfolding(crate::specs::Kinds::kind_of))]
    pub fn of(byte: u8) -> Option<FrameKind>
        ensures { result ≡ kind_of byte }
    {
        match byte {
            1 => Some(FrameKind::ReadRequest),
            2 => Some(FrameKind::ReadReply),
            3 => Some(FrameKind::ReadMissing),
            4 => Some(FrameKind::ReadHistory),
            5 => Some(FrameKind::LeaseAdd),
            6 => Some(FrameKind::LeaseAdded),
            7 => Some(FrameKind::LeaseRenew),
            8 => Some(FrameKind::LeaseRemove),
            9 => Some(FrameKind::LeaseAnswer),
            10 => Some(FrameKind::SessionOpen),
            11 => Some(FrameKind::SessionOpened),
            12 => Some(FrameKind::ChunkRequest),
            13 => Some(FrameKind::ChunkReply),
            14 => Some(FrameKind::SessionGone),
            15 => Some(FrameKind::NotReady),
            _ => None,
        }
    }
}

/// How a leader answered a request about a retention lease.
#[derive(Clone, Copy, Debug, PartialEq, Eq)]
pub enum LeaseResult {
    /// It was done.
    Ok,
    /// The lease was there already.
    Exists,
    /// No lease has this id.
    NotFound,
    /// The lease keeps a higher number than that of the renewal.
    LowNumber,
}

impl LeaseResult {
    /// Its byte in a frame, from 0 to 3.
    pub fn byte(self) -> u8
        ensures { result ≡ result_byte self }
    {
        match self {
            LeaseResult::Ok => 0,
            LeaseResult::Exists => 1,
            LeaseResult::NotFound => 2,
            LeaseResult::LowNumber => 3,
        }
    }

    /// The result that has this byte.
    #[tactic(auto, unfolding(crate::specs::Kinds::result_of))]
    pub fn of(byte: u8) -> Option<LeaseResult>
        ensures { result ≡ result_of byte }
    {
        match byte {
            0 => Some(LeaseResult::Ok),
            1 => Some(LeaseResult::Exists),
            2 => Some(LeaseResult::NotFound),
            3 => Some(LeaseResult::LowNumber),
            _ => None,
        }
    }
}
