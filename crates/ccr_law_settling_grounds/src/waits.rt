//! What waits at the leader.

ghost use Rattle.ccr_law_settling_grounds.specs.Parked.{ParkedStart, ParkedKeep};

/// Of each request for a lease that is kept, some copy of the leader lacks the lease, so none is due an answer; and each poll is of the
/// leader's history and waits at a copy that is there. So it is at the start, and each event keeps it.
pub fn parked()
    ensures start { ParkedStart }
    ensures keep { ParkedKeep }
{}
