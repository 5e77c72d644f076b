//! What a follower's lease retains, and what a follower is told to be missing, at every place of a legal journal.
//!
//! Proved here, over the definitions of `ccr_model` alone. The first claims are of a follower that has the leader's
//! history, by the notes since that history began. As long as it has no task, its lease retains no
//! number above what is committed, and no renewal of it is in flight. From the answer about the lease that the
//! bootstrap took, and as long as nothing drops or removes the lease, it retains no more than the session has that is
//! opened or fetched; and then no more than the follower's primary knows and its task asks for, now and later, and the
//! same holds of the numbers of the renewals in flight. The last claim is of a follower of any history, by all notes: a
//! message that tells it that operations are missing answers no read of it, unless its lease was dropped or removed after
//! that answer; so a task stops for missing operations only then.
//!
//! `Grounds.antt` in `specs/` has what other crates prove and this one takes: the floors, the leases and their history,
//! that a leader which is ready knows what is committed, whose messages are in flight and what they ask, that no read
//! begins above what was never asked for, that no follower has the history that a forced promotion would begin, and that
//! no follower's primary comes to know a lesser global count.
//! `Retaining.antt` has what each event keeps.
//!
//! No code of this crate does anything: its function is the place where the theorems are named.
#![tactic(auto)]

ghost use Rattle.ccr_law_retention.specs.RetainedLaws.{RetainedStart, RetainedKeep, RetainedSay, StopsSay, FloorsFollow};

/// What a lease retains and what is missing holds at the start of a journal, and every event keeps it. Then the
/// statements on each follower hold, and a task stops for missing operations only after its lease was lost.
pub fn retained()
    ensures start { RetainedStart }
    ensures keeps { RetainedKeep }
    ensures says { RetainedSay }
    ensures stops { StopsSay }
    ensures floors { FloorsFollow }
{}
