//! What settling makes of bootstraps: a session that opens, and each part of a file that comes, make the measure
//! smaller.

ghost use Rattle.std.specs.Prelude.{ℕ, List};
ghost use Rattle.ccr_model.specs.Past.{Past};
ghost use Rattle.ccr_law_copies.specs.Cores.{IsCore};
ghost use Rattle.ccr_law_messages.specs.TrueFrames.{HasTrueFrames};
ghost use Rattle.ccr_law_settling.specs.FetchLowering.{FetchesLower};

/// At a place where the messages in flight agree with what the followers asked for, each delivery that settling may use of the word that a session is open,
/// and of a part of a file, to a bootstrap that waits for it makes the measure smaller, also where the bootstrap ends by it.
pub fn fetches_lower_measure()
    ensures lower { (count_of : List ℕ → ℕ) (p : Past) → IsCore p → HasTrueFrames p → FetchesLower count_of p.state }
{}
