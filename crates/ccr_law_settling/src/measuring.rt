//! What settling makes of a shard world: five numbers that it makes smaller.

ghost use Rattle.std.specs.Prelude.{◌≡◌, ℕ, ◌+◌, List, Some, slice_get};
ghost use Rattle.ccr_model.specs.Followers.{Follower};
ghost use Rattle.ccr_model.specs.World.{State};
ghost use Rattle.ccr_journal.specs.declared.events.Event.{Event};
ghost use Rattle.ccr_model.specs.Settling.{MaySettle};
ghost use Rattle.ccr_model.specs.Past.{Past};
ghost use Rattle.ccr_model.specs.Invariants.{IsTrueLeader, IsTrueFollower};
ghost use Rattle.ccr_law_base.specs.Events.{past_by};
ghost use Rattle.ccr_law_copies.specs.Cores.{IsCore};
ghost use Rattle.ccr_law_messages.specs.TrueFrames.{HasTrueFrames};
ghost use Rattle.ccr_law_settling.specs.Left.{NothingMayBeDone, IsLeaderSettled};
ghost use Rattle.ccr_law_settling.specs.Measure.{Five, IsBelow};
ghost use Rattle.ccr_law_settling.specs.Lowering.{counts_of, Lowers, LowersAt, CopyingLowers, WaitingLowers, EndingLowers, DeliveryLowers, AskingLowers};

/// Five numbers, compared from the first on, cannot become smaller without end.
pub fn no_endless_descent()
    ensures descent { (five : ℕ → Five) → ((n : ℕ) → IsBelow (five (n + 1)) (five n)) → ⊥ }
{}

/// At a place where the invariants hold, each replication, ack, sync, resync and apply that settling may use makes
/// the measure smaller, on the leader's side and on a follower's.
pub fn copying_lowers_measure()
    ensures lower { (p : Past) → IsCore p → ((f : ℕ) (own : Follower) → slice_get p.state.followers f ≡ Some own → IsTrueFollower p f own) → CopyingLowers (counts_of p) p.state }
{}

/// At such a place, however many operations each history has, each wake, each loss of a request of a number of its own, and each
/// follower's clock that settling may use makes the measure smaller.
pub fn waiting_lowers_measure()
    ensures lower { (count_of : List ℕ → ℕ) (p : Past) → IsTrueLeader p → WaitingLowers count_of p.state }
{}

/// In every world whose tasks know of no more than their history has, each end of a write that settling may
/// use makes the measure smaller.
pub fn ending_lowers_measure()
    ensures lower { (count_of : List ℕ → ℕ) (s : State) → EndingLowers count_of s }
{}

/// At a place where the invariants hold, each delivery to the leader that settling may use makes the measure smaller:
/// of a read, of a lease's renewal or removal, of a request for a lease or a session where the leader is ready, and of a
/// request for a part of a file of a session that is open. So does the delivery to a follower of the word that the leader is
/// not ready.
pub fn delivery_lowers_measure()
    ensures lower { (count_of : List ℕ → ℕ) (p : Past) → IsTrueLeader p → DeliveryLowers count_of p.state }
{}

/// At a place where the messages in flight agree with what the followers asked for, each loss of a request, each tick
/// of a follower that bootstraps, each delivery to the leader of a request for a part of a file, and each delivery to a
/// follower of a message that it doesn't wait for, or that makes its bootstrap ask for a session, that settling may use
/// makes the measure smaller.
pub fn asking_lowers_measure()
    ensures lower { (count_of : List ℕ → ℕ) (p : Past) → IsCore p → HasTrueFrames p → AskingLowers count_of p.state }
{}

/// No event of settling adds an operation to a history. So where it makes the measure by the operations that there are
/// smaller, the measure at the place after it is smaller than the one before it.
pub fn settling_adds_no_operation()
    ensures stay { (p : Past) (event : Event) (picks : List ℕ) → MaySettle p.state event → (history : List ℕ) → counts_of (past_by p event picks) history ≡ counts_of p history }
    ensures lower { (p : Past) (event : Event) → Lowers (counts_of p) p.state event → LowersAt p event }
{}

/// At a place where the leader's invariant holds and nothing may be done, the leader is ready, each of its copies has
/// the whole history and knows it, and nothing is in flight.
pub fn nothing_left_at_leader()
    ensures settled { (p : Past) → IsCore p → NothingMayBeDone p.state → IsLeaderSettled p.state }
{}
