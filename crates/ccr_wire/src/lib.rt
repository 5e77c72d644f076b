//! The messages between a leader and its followers, and the frames of bytes that carry them.
#![tactic(auto)]

mod bad_frame;
mod content;
mod decoding;
mod encoding;
mod fields;
mod kind;
mod lists;
mod message;
mod messages;

pub use bad_frame::BadFrame;
pub use content::Content;
pub use decoding::decode;
pub use encoding::encode;
pub use kind::{FrameKind, LeaseResult};
pub use lists::{Chunk, Ops, Sizes};
pub use message::Message;
pub use messages::Messages;
