//! What is told and known of the leader's count: no more than is committed in the history that it is of.

ghost use Rattle.ccr_law_settling_grounds.specs.KnownCounts.{KnownStart, KnownKeep};

/// No reply to a read tells of more operations than are committed in the history of the follower that it is for, and no task knows of more
/// than are in its follower's; `next`, the count below which a task has taken the numbers up, is no greater (a peek asks from it on); and
/// each follower's primary knows at least the count at which the epoch of its task began. So it is at the start, and each event keeps it,
/// where what was committed of each history stays, and the claims on the leader's copies, the tasks, the messages, the sessions and the
/// followers' copies hold.
pub fn known_counts()
    ensures start { KnownStart }
    ensures keep { KnownKeep }
{}
