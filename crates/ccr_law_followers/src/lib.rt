//! The copies of the followers, at every place of a legal journal. No code of this crate does anything; the claims
//! stand in `specs/`, their proofs in `proofs/`.
#![tactic(auto)]

ghost use Rattle.ccr_law_followers.specs.CopyLaws.{FollowersStart, FollowersKeep, CountsRise, FollowersSay, FollowersHold, MergesKeepLeased};

/// A follower's copies were given committed operations alone; each has processed just these and holds enough of
/// them to serve searches; no known count is above its copy's count; and what was answered as written is processed
/// by every copy, also by one that was just promoted. The files that a bootstrap ends with are those of its session.
/// This holds at the start, and each event keeps it, where the claims on the leader's copies, the tasks, the
/// messages in flight and the sessions hold. The global count that a follower's primary knows never falls, also over
/// a promotion, and a merge drops nothing that a lease of the copy retains.
pub fn follower_copies()
    ensures start { FollowersStart }
    ensures keep { FollowersKeep }
    ensures rise { CountsRise }
    ensures say { FollowersSay }
    ensures hold { FollowersHold }
    ensures leased { MergesKeepLeased }
{}
