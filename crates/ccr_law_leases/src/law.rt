ghost use Rattle.std.specs.Prelude.{List};
ghost use Rattle.ccr_journal.specs.Params.{IsCopyCount};
ghost use Rattle.ccr_journal.specs.declared.events.Event.{Event};
ghost use Rattle.ccr_journal.specs.declared.journals.Entry.{Entry};
ghost use Rattle.ccr_journal.specs.declared.replies.Reply.{Reply};
ghost use Rattle.ccr_model.specs.Leaders.{Start};
ghost use Rattle.ccr_model.specs.World.{start_state};
ghost use Rattle.ccr_model.specs.Step.{IsLegal};
ghost use Rattle.ccr_model.specs.Past.{Past, start_past, past_of};
ghost use Rattle.ccr_model.specs.Headline.{MergesSafely};
ghost use Rattle.ccr_law_leases.specs.Expiries.{ExpiriesAreRight};
ghost use Rattle.ccr_law_leases.specs.NoteOrder.{HasNotesInOrder, StaysUnbroken};
ghost use Rattle.ccr_law_leases.specs.TrueLeases.{HasTrueLeases, RetainsInAll};

/// At each place of a legal journal each of the leader's copies retains what the history of the leases says, and
/// each replica's collection is the primary's or superseded by it.
pub fn leader_leases()
    ensures truth { (start : Start) → IsCopyCount start.copies → (entries : List Entry) → IsLegal (start_state start) entries → HasTrueLeases (past_of (start_past start) entries) }
    ensures retained { (start : Start) → IsCopyCount start.copies → (entries : List Entry) → IsLegal (start_state start) entries → RetainsInAll (past_of (start_past start) entries) }
{}

/// No merge of a leader's copy drops an operation at or above the number of a lease in the copy's own collection.
pub fn leader_merges()
    ensures { (p : Past) → (event : Event) → (reply : Reply) → MergesSafely p event reply }
{}

/// At each place of a legal journal a lease that an entry answered is unbroken where no entry after it dropped or
/// removed it.
pub fn lease_history()
    ensures order { (start : Start) → IsCopyCount start.copies → (entries : List Entry) → IsLegal (start_state start) entries → HasNotesInOrder (past_of (start_past start) entries) }
    ensures unbroken { (start : Start) → IsCopyCount start.copies → (entries : List Entry) → IsLegal (start_state start) entries → StaysUnbroken (past_of (start_past start) entries) }
{}

/// An expiry drops each lease since whose last addition or renewal more than the period has passed, and no other, and
/// makes none: a lease whose period is just over is kept as it was.
pub fn leader_expiry()
    ensures { ExpiriesAreRight }
{}
