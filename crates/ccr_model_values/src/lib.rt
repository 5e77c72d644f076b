//! Worked values of the definitions of `ccr_model` and of what it stands on, by hand: of all that the journals of
//! `ccr_model_journals` tell too little of, as messages and parts of the state that no reply tells. Each function has
//! some in its contract and does nothing.
#![tactic(auto)]

ghost use Rattle.ccr_model_values.specs.Holding.{StandInOrder, HaveFiles, ComeIntoOpenPart};
ghost use Rattle.ccr_model_values.specs.Reading.{MayRead, TakesReplies};
ghost use Rattle.ccr_model_values.specs.Waiting.{Doubles, CountLosses, CountRefusals};
ghost use Rattle.ccr_model_values.specs.Versions.{Count, Supersede};
ghost use Rattle.ccr_model_values.specs.Runs.{AreCut, AreRuns, AreNumbers};
ghost use Rattle.ccr_model_values.specs.Merging.{AreDropped, GoInOrder, AreJoined, FloorsRise};
ghost use Rattle.ccr_model_values.specs.Copying.{AreNew, AreReady, Replicate, Ack, Sync, AddCopy, Merge, PromoteAtFollower};
ghost use Rattle.ccr_model_values.specs.Promoting.{AreMissing, Promote, ForcePromote, HaveHistories, AreStale, Resync, FailCopy};
ghost use Rattle.ccr_model_values.specs.Telling.{ReadsTell, ReadsWait, KeptTell, LeasesTell, SessionsTell, ClocksFall};
ghost use Rattle.ccr_model_values.specs.Fetching.{Ask, AreNumbered, Hear, AreComplete, AreRestored, Ends};
ghost use Rattle.ccr_model_values.specs.Filling.{HaveBudget, AreSent, IsFilled, AreKept, AreRetried};
ghost use Rattle.ccr_model_values.specs.Following.{Stop, Apply, AreSame, End, Restart, GoOn};
ghost use Rattle.ccr_model_values.specs.Worlds.{Deliver, Send, Follow, AreWhole, AreSettled, IsSettled};
ghost use Rattle.ccr_model_values.specs.Pasts.{Begin, HaveLines, AreNoted};
ghost use Rattle.ccr_model_values.specs.Queries.{AreAsked, AreWritten};

/// Operations stand in ascending number, in a list and in a copy's open part; a session has a file for each part that holds
/// operations below its count.
pub fn operations_have_their_places()
    ensures stand_in_order { StandInOrder }
    ensures have_files { HaveFiles }
    ensures come_into_open_part { ComeIntoOpenPart }
{}

/// A task reads while its buffer is below both bounds. Of a reply it keeps what its read was for, and what lies behind only
/// where nothing else was asked for; what is left to be read is held.
pub fn tasks_take_replies()
    ensures may_read { MayRead }
    ensures takes_replies { TakesReplies }
{}

/// A loss waits 50 milliseconds, and twice as long with each further one, up to a bound; a follower has one count of losses,
/// for reads, writes and refusals alike.
pub fn losses_wait()
    ensures doubles { Doubles }
    ensures count_losses { CountLosses }
    ensures count_refusals { CountRefusals }
{}

/// Each change of a collection of leases raises its version by 1, and a refusal leaves it; of two collections the one of greater
/// term, then of greater version, supersedes.
pub fn changes_of_leases_are_counted()
    ensures count { Count }
    ensures supersede { Supersede }
{}

/// A cut is the longest front within both bounds, a run ends at the first number that is lacking, and a set of numbers is
/// kept with no gap below its count.
pub fn runs_are_cut()
    ensures are_cut { AreCut }
    ensures are_runs { AreRuns }
    ensures are_numbers { AreNumbers }
{}

/// What a merge drops, where the part that it makes stands, and how far floors rise.
pub fn merges_drop_and_join()
    ensures are_dropped { AreDropped }
    ensures go_in_order { GoInOrder }
    ensures are_joined { AreJoined }
    ensures floors_rise { FloorsRise }
{}

/// What each event about copies leaves of them, on both sides.
pub fn copies_change()
    ensures are_new { AreNew }
    ensures are_ready { AreReady }
    ensures replicate { Replicate }
    ensures ack { Ack }
    ensures sync { Sync }
    ensures add_copy { AddCopy }
    ensures merge { Merge }
    ensures promote_at_follower { PromoteAtFollower }
{}

/// What a promotion, by force or not, a resync and a copy that leaves make of the leader; the UUIDs of histories; the stale copies.
pub fn leaders_are_promoted()
    ensures are_missing { AreMissing }
    ensures promote { Promote }
    ensures force_promote { ForcePromote }
    ensures have_histories { HaveHistories }
    ensures are_stale { AreStale }
    ensures resync { Resync }
    ensures fail_copy { FailCopy }
{}

/// What the leader's messages tell, and how it keeps polls, requests and sessions.
pub fn messages_tell()
    ensures reads_tell { ReadsTell }
    ensures reads_wait { ReadsWait }
    ensures kept_tell { KeptTell }
    ensures leases_tell { LeasesTell }
    ensures sessions_tell { SessionsTell }
    ensures clocks_fall { ClocksFall }
{}

/// How a bootstrap asks for parts, hears answers and ends.
pub fn bootstraps_fetch()
    ensures ask { Ask }
    ensures are_numbered { AreNumbered }
    ensures hear { Hear }
    ensures are_complete { AreComplete }
    ensures are_restored { AreRestored }
    ensures ends { Ends }
{}

/// What a task sends and in which order, what it keeps, and what it sends again.
pub fn tasks_are_filled()
    ensures have_budget { HaveBudget }
    ensures are_sent { AreSent }
    ensures is_filled { IsFilled }
    ensures are_kept { AreKept }
    ensures are_retried { AreRetried }
{}

/// What a follower's events leave of its task.
pub fn followers_go_on()
    ensures stop { Stop }
    ensures apply { Apply }
    ensures are_same { AreSame }
    ensures end { End }
    ensures restart { Restart }
    ensures go_on { GoOn }
{}

/// Deliveries and new followers, and which worlds are settled.
pub fn worlds_settle()
    ensures deliver { Deliver }
    ensures send { Send }
    ensures follow { Follow }
    ensures are_whole { AreWhole }
    ensures are_settled { AreSettled }
    ensures is_settled { IsSettled }
{}

/// What the past of a journal tells over a forced promotion: lines, cuts, what was given, and notes on leases.
pub fn histories_end()
    ensures begin { Begin }
    ensures have_lines { HaveLines }
    ensures are_noted { AreNoted }
{}

/// Values of queries, sort orders and writes.
pub fn queries_hold()
    ensures are_asked { AreAsked }
    ensures are_written { AreWritten }
{}
