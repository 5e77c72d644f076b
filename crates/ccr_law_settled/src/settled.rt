//! Searches after a settle, and the line that a script makes.

ghost use Rattle.std.specs.Prelude.{List};
ghost use Rattle.ccr_journal.specs.declared.journals.Entry.{Entry};
ghost use Rattle.ccr_model.specs.Leaders.{Start};
ghost use Rattle.ccr_law_reached.specs.Reached.{IsPossible};
ghost use Rattle.ccr_law_settled.specs.Scripts.{LineIsOfCommands};
ghost use Rattle.ccr_law_settled.specs.WhenSettled.{AnswersWhenSettled, LineIsOfScript};
ghost use Rattle.ccr_law_settled.specs.WorkedScript.{IsWorked};

/// In a possible journal each search after a settle, where only searches stand between, answers over the whole line of the
/// leader's history, at each copy of the leader and at each copy of a follower whose task is active. That line is computed
/// from the commands on the leader shard and its settles alone: so whatever was done to settle the world, the answers are
/// the same.
pub fn settled_answers()
    ensures answers { (start : Start) → (entries : List Entry) → IsPossible start entries → AnswersWhenSettled start entries }
    ensures line { (start : Start) → (entries : List Entry) → IsPossible start entries → LineIsOfScript start entries }
    ensures commands { (start : Start) → (entries : List Entry) → IsPossible start entries → LineIsOfCommands start entries }
{}

/// A script on a shard of two copies, with a settle before a search and a settle before a forced promotion.
pub fn a_settle_before_a_promotion()
    ensures { IsWorked }
{}
