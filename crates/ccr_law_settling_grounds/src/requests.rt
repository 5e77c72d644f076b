//! What each request of a follower is for, and that the messages of its number are about just that.

ghost use Rattle.ccr_law_settling_grounds.specs.Purposes.{PurposesStart, PurposesKeep, PurposesIgnore};

/// Each message, poll and kept request under a follower's name is about what the follower waits for under its number, where it waits
/// for anything: its lease, a session, a part of a file, or operations. So it is at the start, and each event keeps it. Then a
/// message is ignored exactly where it goes to a follower and answers nothing that it waits for.
pub fn purposes()
    ensures start { PurposesStart }
    ensures keep { PurposesKeep }
    ensures ignore { PurposesIgnore }
{}
