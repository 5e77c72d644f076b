use ccr_journal::Reply;
use ccr_wire::Messages;

/// What an event is answered, and the messages that are sent.
#[derive(Drop)]
pub struct Told {
    /// The answer.
    pub reply: Reply,
    /// The messages that are sent, in their order.
    pub sent: Messages,
}
