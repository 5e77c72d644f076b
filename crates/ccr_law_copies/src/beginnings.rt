//! The histories of a shard world: the first, and one that begins at each forced promotion.

ghost use Rattle.std.specs.Prelude.{List, ◌<◌, ◌^◌, length};
ghost use Rattle.ccr_journal.specs.Params.{IsCopyCount};
ghost use Rattle.ccr_journal.specs.declared.journals.Entry.{Entry};
ghost use Rattle.ccr_model.specs.Leaders.{Start};
ghost use Rattle.ccr_model.specs.World.{start_state};
ghost use Rattle.ccr_model.specs.Step.{IsLegal};
ghost use Rattle.ccr_model.specs.Past.{start_past, past_of};
ghost use Rattle.ccr_law_copies.specs.Begun.{HasHistories, HistoriesStart, HistoriesKeep, AreTold, HistoriesOnward, AllOnward};

/// At every place of a legal journal the leader's term is at least 1 and no greater than the entries so far allow; the
/// leader's history, that of each follower and that in which each session was opened are the first or one that began
/// with a term so far; and no history of a later term has a line. So it is at the start, and each event keeps it.
pub fn histories()
    ensures start { HistoriesStart }
    ensures keep { HistoriesKeep }
    ensures places { (start : Start) → (entries : List Entry) → IsLegal (start_state start) entries → HasHistories (past_of (start_past start) entries) }
{}

/// In a journal of fewer than 2^32 entries no two histories of a world share a UUID. So what was committed of each history
/// stays, that of one that is about to begin too.
pub fn own_histories()
    ensures apart { AreTold }
    ensures onward { HistoriesOnward }
    ensures places { (start : Start) → IsCopyCount start.copies → (entries : List Entry) → length entries < 2 ^ 32 → IsLegal (start_state start) entries → AllOnward (start_past start) entries }
{}
