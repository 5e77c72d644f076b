//! Settling, at every place of every fit and legal journal: each event that may be used to settle makes five numbers
//! smaller, compared from the first on, and where no event may be used the world is settled. So, in journals of fewer
//! than 2^32 entries, settling goes on only as long as the numbers fall, whichever of its events are chosen, and what
//! it ends in is a settled world.
//!
//! A world is settled where the leader is ready, all of its copies have the whole history and know it, no message is in
//! flight, each follower is out of its bootstrap and has nothing to write, and each whose task is active has the
//! leader's history, which its copies have whole and know, too (`ccr_model::Settled`). One that followed a history that
//! a forced promotion ended is settled once it is stopped. The events are those of `ccr_model::Settling`, the numbers
//! those of `Measure`.

ghost use Rattle.ccr_law.specs.Journals.{AlwaysHolds};
ghost use Rattle.ccr_law_settling.specs.Settles.{IsFull, EachLowers, NoneIsLeft};

/// At every place of every fit and legal journal, each event that settling may use makes the measure smaller, that of
/// the place after it than that of the place before it, and where there is none the world is settled. What both rest on
/// holds there, too: the invariants of the theorem, and what `ccr_law_settling_grounds` say.
pub fn settling()
    ensures grounds { AlwaysHolds IsFull }
    ensures lowers { AlwaysHolds EachLowers }
    ensures settled { AlwaysHolds NoneIsLeft }
{}
