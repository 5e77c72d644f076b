//! What settling leaves at the followers: nothing.

ghost use Rattle.ccr_law_settling.specs.FollowersLeft.{BootstrapsEnd, WritesEnd, ActiveIsWhole, FollowersEnd};

/// Where nothing may be done and no clock may be set, no follower is in its bootstrap, and no task has anything to
/// write.
pub fn nothing_left_to_fetch_or_write()
    ensures bootstraps { BootstrapsEnd }
    ensures writes { WritesEnd }
{}

/// Where nothing may be done and no clock may be set, and a follower's task is active and has nothing to write, the
/// follower has the leader's history, and each of its copies is whole: it has processed that history and knows that. For
/// of another history the reads that are out have something left, the word of the leader's history, which stops the task.
pub fn active_copies_are_whole()
    ensures { ActiveIsWhole }
{}

/// So each follower is settled there.
pub fn followers_end()
    ensures { FollowersEnd }
{}
