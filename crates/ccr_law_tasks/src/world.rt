//! What every event of a shard world keeps of its followers' tasks.
ghost use Rattle.ccr_law_tasks.specs.FollowerLaws.{TasksStart, TasksKeep, TasksSay, RepliesAreWithin, AsksAreNew};

/// The tasks of all followers are good at the start, and every event keeps that: where what was committed stays,
/// the messages in flight are true, and a new follower's parameters are in their ranges. Then what is stated of
/// a task holds of each; replies to reads bring no more than was asked for, and no request of a task asks for a
/// number that was received in its epoch, unless it repeats one that was lost.
pub fn tasks()
    ensures start { TasksStart }
    ensures keeps { TasksKeep }
    ensures says { TasksSay }
    ensures within { RepliesAreWithin }
    ensures new { AsksAreNew }
{}
