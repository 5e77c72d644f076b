ghost use Rattle.std.specs.Prelude.{List};
ghost use Rattle.ccr_journal.specs.declared.journals.Entry.{Entry};
ghost use Rattle.ccr_model.specs.Leaders.{Start};
ghost use Rattle.ccr_model.specs.World.{State};
ghost use Rattle.ccr_law_reached.specs.Reached.{IsPossible, IsReached, EndsSettled, SettlingLowers, LowersAfter, HasNoGap, PartsAreThere, ArePollsOfFollowers, KeptRequestsWait, HoldsNumbersOnce, FetchedFilesAreRight};

/// Where no event may be used to settle a reached state, it is settled.
pub fn settling_ends()
    ensures { (s : State) → IsReached s → EndsSettled s }
{}

/// Each event that may be used to settle a reached state makes its five numbers smaller, compared from the first on;
/// and so it does from the place after a possible journal to the next one.
pub fn settling_lowers()
    ensures state { (s : State) → (reached : IsReached s) → SettlingLowers s reached }
    ensures places { (start : Start) → (entries : List Entry) → IsPossible start entries → LowersAfter start entries }
{}

/// The leader's primary has processed each number below the greatest that it has processed.
pub fn primary_has_no_gap()
    ensures { (s : State) → IsReached s → HasNoGap s }
{}

/// A request in flight for a part of a file of a session that is open names a file of it and an offset within the file.
pub fn parts_are_there()
    ensures { (s : State) → IsReached s → PartsAreThere s }
{}

/// Each read that waits at the leader is of one of the followers.
pub fn polls_are_of_followers()
    ensures { (s : State) → IsReached s → ArePollsOfFollowers s }
{}

/// Of each request for a lease that is kept at the leader some copy still lacks the lease. The leases of each replica are
/// the primary's, or older ones.
pub fn kept_requests_wait()
    ensures { (s : State) → IsReached s → KeptRequestsWait s }
{}

/// No copy, of the leader or of a follower, holds two operations of one number.
pub fn numbers_are_held_once()
    ensures { (s : State) → IsReached s → HoldsNumbersOnce s }
{}

/// Where a message in flight brings the bootstrap of the follower that it names the last part of its files, these are
/// segments, no number of an operation stands twice in them, and each is below the session's count.
pub fn fetched_files_are_right()
    ensures { (s : State) → IsReached s → FetchedFilesAreRight s }
{}
