//! What each function of a follower's task keeps.
ghost use Rattle.ccr_law_tasks.specs.Asking.{StartsAsking, AsksTruly};
ghost use Rattle.ccr_law_tasks.specs.FromOn.{StartsFrom, RepliesFrom, StaysFromOn, IsFromLeast};
ghost use Rattle.ccr_law_tasks.specs.TaskLaws.{StartsWell, TakesReplies, EndsWrites, LosesReads, LosesWrites, Retries, DrawsNumbers, Stops, StaysGood, TellsTruly};

/// A task that starts an epoch in which no write ended is good.
pub fn starts()
    ensures { StartsWell }
{}

/// A good task that takes a reply to a read is good: the reply begins where the read does, has consecutive
/// numbers, committed operations alone, and no more than what was asked for.
pub fn replies()
    ensures { TakesReplies }
{}

/// A good task of which a read or a write is lost is good.
pub fn loses()
    ensures reads { LosesReads }
    ensures writes { LosesWrites }
{}

/// A good task that sends what is due again is good.
pub fn retries()
    ensures { Retries }
{}

/// A good task of which a write ended is good, where the write's batch counts as written.
pub fn ends()
    ensures { EndsWrites }
{}

/// A good task that draws a request number for another message is good.
pub fn draws()
    ensures { DrawsNumbers }
{}

/// A good task that is stopped, or takes another phase that isn't active, is good.
pub fn stops()
    ensures { Stops }
{}

/// A good task stays good where the line has more committed operations.
pub fn stays()
    ensures { StaysGood }
{}

/// Of a good task holds what is stated: each number has its one place and nothing is left undone where it is
/// active, what it has to write is committed, its memory is bounded, and it asks for each number once.
pub fn says()
    ensures { TellsTruly }
{}

/// A task that asks for nothing below a number, now and later, stays so: over its start at that number or above,
/// replies, losses, retries, ended writes, drawn numbers and stops. The least number that a good task asks for
/// is such a number.
pub fn stays_from()
    ensures start { StartsFrom }
    ensures replies { RepliesFrom }
    ensures others { StaysFromOn }
    ensures least { IsFromLeast }
{}

/// What a task sends is a read request that asks what the task's read of that request number asks, where that
/// is in the sent state; and what is in the sent state under a number that was drawn before was so before, and
/// asked for the same.
pub fn asks()
    ensures start { StartsAsking }
    ensures others { AsksTruly }
{}
