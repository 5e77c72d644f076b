//! What a follower has outstanding.

ghost use Rattle.ccr_law_settling_grounds.specs.Pending.{PendingStart, PendingKeep};

/// A bootstrap always has a request outstanding, sent or waiting to be sent again: for the lease, for a session, or for a part of a file, of
/// which a fetch has at least one and has asked for no more than there are. A task that isn't active has no reads and an empty buffer. Nothing but a read is ever held back.
/// So it is at the start, and each event keeps it.
pub fn pending()
    ensures start { PendingStart }
    ensures keep { PendingKeep }
{}
