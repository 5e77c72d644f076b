//! The operations of a shard world can be spelled in bytes, at every place of a legal journal whose events are fit:
//! whose ids are texts of 1 to 512 bytes, and which has fewer than 2^32 entries.

ghost use Rattle.std.specs.Prelude.{List, ℕ, ◌≡◌, Ok};
ghost use Rattle.ccr_op.specs.Operation.{IsSourceText};
ghost use Rattle.ccr_doc.specs.Sources.{compact_of};
ghost use Rattle.ccr_journal.specs.Params.{IsCopyCount};
ghost use Rattle.ccr_journal.specs.declared.journals.Entry.{Entry};
ghost use Rattle.ccr_model.specs.Leaders.{Start};
ghost use Rattle.ccr_model.specs.World.{start_state};
ghost use Rattle.ccr_model.specs.Fit.{AreFit};
ghost use Rattle.ccr_model.specs.Step.{IsLegal};
ghost use Rattle.ccr_model.specs.Past.{start_past, past_of};
ghost use Rattle.ccr_law_stores.specs.Spelled.{HasSmallOps, IsSpelled};

/// At each place of a fit and legal journal each operation of the leader's line, and each that a copy of the leader
/// was given, can be spelled in bytes: its number, its term and its version are within 64 bits, since they are no
/// greater than the number of the entries allows, and its texts are within their bounds. The line has no more
/// operations than there were entries.
pub fn spelled_operations()
    ensures small { (start : Start) → IsCopyCount start.copies → (entries : List Entry) → AreFit entries → IsLegal (start_state start) entries → HasSmallOps (past_of (start_past start) entries) }
    ensures spelled { (start : Start) → IsCopyCount start.copies → (entries : List Entry) → AreFit entries → IsLegal (start_state start) entries → IsSpelled (past_of (start_past start) entries) }
{}

/// The compact text of a source, where it has one, is a text of 2 to 524,288 bytes of UTF-8.
pub fn source_texts()
    ensures { (body : List ℕ) → (text : List ℕ) → compact_of body ≡ Ok text → IsSourceText text }
{}
