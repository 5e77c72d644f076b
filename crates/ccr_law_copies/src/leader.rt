//! The leader's copies and the leader's line of operations, at every place of a legal journal.

ghost use Rattle.std.specs.Prelude.{List};
ghost use Rattle.ccr_journal.specs.Params.{IsCopyCount};
ghost use Rattle.ccr_journal.specs.declared.journals.Entry.{Entry};
ghost use Rattle.ccr_model.specs.Leaders.{Start};
ghost use Rattle.ccr_model.specs.World.{start_state};
ghost use Rattle.ccr_model.specs.Step.{IsLegal};
ghost use Rattle.ccr_model.specs.Past.{start_past, past_of};
ghost use Rattle.ccr_law_copies.specs.Cores.{IsCore, IsTrueCore, KeepsCommitted};

/// At each place of a legal journal the primary was given the line and has processed just its numbers; each
/// replica has the line's operations below the cut, and the line's alone once it was resynced; no copy knows of
/// more than is committed, no known count is above its copy's count, and a leader that is ready knows all that
/// is committed. Each entry leaves what was committed before it.
pub fn leader_copies()
    ensures invariant { (start : Start) → IsCopyCount start.copies → (entries : List Entry) → IsLegal (start_state start) entries → IsCore (past_of (start_past start) entries) }
    ensures copies { (start : Start) → IsCopyCount start.copies → (entries : List Entry) → IsLegal (start_state start) entries → IsTrueCore (past_of (start_past start) entries) }
    ensures committed { (start : Start) → IsCopyCount start.copies → (entries : List Entry) → IsLegal (start_state start) entries → KeepsCommitted (start_past start) entries }
{}
