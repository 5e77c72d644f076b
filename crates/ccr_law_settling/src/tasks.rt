//! What settling makes of tasks: ticks, and answers to reads, make the measure smaller.

ghost use Rattle.std.specs.Prelude.{ℕ, List};
ghost use Rattle.ccr_model.specs.Past.{Past};
ghost use Rattle.ccr_law_copies.specs.Cores.{IsCore};
ghost use Rattle.ccr_law_messages.specs.TrueFrames.{HasTrueFrames};
ghost use Rattle.ccr_law_tasks.specs.GoodFollowers.{HasGoodTasks};
ghost use Rattle.ccr_law_settling_grounds.specs.KnownCounts.{HasKnownCounts};
ghost use Rattle.ccr_law_settling.specs.Lowering.{counts_of};
ghost use Rattle.ccr_law_settling.specs.TaskLowering.{TicksLower, RepliesLower};

/// At a place where the messages in flight agree with what the followers asked for, and the tasks leave nothing
/// undone, each tick that settling may use makes the measure smaller, however many operations each history has, of a
/// follower in its bootstrap as of one with a task.
pub fn ticks_lower_measure()
    ensures lower { (count_of : List ℕ → ℕ) (p : Past) → IsCore p → HasTrueFrames p → HasGoodTasks p → TicksLower count_of p.state }
{}

/// At a place where the messages in flight agree with what the followers asked for, and no more is told or known than
/// is committed of each history, each delivery that settling may use of an answer to a read that waits for it makes the measure
/// smaller: of operations, of none, of the word that they are missing, and of the word of another history.
pub fn replies_lower_measure()
    ensures lower { (p : Past) → IsCore p → HasTrueFrames p → HasGoodTasks p → HasKnownCounts p → RepliesLower (counts_of p) p.state }
{}
