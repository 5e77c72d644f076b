//! Journals of shard worlds as theorems: each of them is legal, that is, each reply is the one that its event gets by
//! the definitions of `ccr_model`. The replies are those of another implementation. Each function has one journal in
//! its contract and does nothing. `tools/journal_theorems.py` writes this crate, but for `specs/Words.antt` and
//! `proofs/Opened.antt`, from files of journals.
#![tactic(auto)]

ghost use Rattle.ccr_model.specs.World.{start_state};
ghost use Rattle.ccr_model.specs.Step.{IsLegal};
ghost use Rattle.ccr_model_journals.specs.BatchesAndReads.{batches_and_reads_start, batches_and_reads_entries};
ghost use Rattle.ccr_model_journals.specs.Chunks.{chunks_start, chunks_entries};
ghost use Rattle.ccr_model_journals.specs.CommitCounts.{commit_counts_start, commit_counts_entries};
ghost use Rattle.ccr_model_journals.specs.ConditionalWrites.{conditional_writes_start, conditional_writes_entries};
ghost use Rattle.ccr_model_journals.specs.DeletedDocument.{deleted_document_start, deleted_document_entries};
ghost use Rattle.ccr_model_journals.specs.DeletesInMerges.{deletes_in_merges_start, deletes_in_merges_entries};
ghost use Rattle.ccr_model_journals.specs.EachRefusalOfAFollower.{each_refusal_of_a_follower_start, each_refusal_of_a_follower_entries};
ghost use Rattle.ccr_model_journals.specs.ExpiredLease.{expired_lease_start, expired_lease_entries};
ghost use Rattle.ccr_model_journals.specs.FilledGap.{filled_gap_start, filled_gap_entries};
ghost use Rattle.ccr_model_journals.specs.FirstPath.{first_path_start, first_path_entries};
ghost use Rattle.ccr_model_journals.specs.FloorAboveLease.{floor_above_lease_start, floor_above_lease_entries};
ghost use Rattle.ccr_model_journals.specs.FloorsOverPromotions.{floors_over_promotions_start, floors_over_promotions_entries};
ghost use Rattle.ccr_model_journals.specs.FollowerFailover.{follower_failover_start, follower_failover_entries};
ghost use Rattle.ccr_model_journals.specs.FollowerOverAPromotion.{follower_over_a_promotion_start, follower_over_a_promotion_entries};
ghost use Rattle.ccr_model_journals.specs.ForcedPromotionAfterMerges.{forced_promotion_after_merges_start, forced_promotion_after_merges_entries};
ghost use Rattle.ccr_model_journals.specs.ForcedPromotion.{forced_promotion_start, forced_promotion_entries};
ghost use Rattle.ccr_model_journals.specs.FourCopiesAndFiveFollowers.{four_copies_and_five_followers_start, four_copies_and_five_followers_entries};
ghost use Rattle.ccr_model_journals.specs.HeldIsNotSent.{held_is_not_sent_start, held_is_not_sent_entries};
ghost use Rattle.ccr_model_journals.specs.KeptLeaseThatExpired.{kept_lease_that_expired_start, kept_lease_that_expired_entries};
ghost use Rattle.ccr_model_journals.specs.KnownCountsAfterAPromotion.{known_counts_after_a_promotion_start, known_counts_after_a_promotion_entries};
ghost use Rattle.ccr_model_journals.specs.LoseByRequestNumber.{lose_by_request_number_start, lose_by_request_number_entries};
ghost use Rattle.ccr_model_journals.specs.MergesAndLosses.{merges_and_losses_start, merges_and_losses_entries};
ghost use Rattle.ccr_model_journals.specs.NinthFollower.{ninth_follower_start, ninth_follower_entries};
ghost use Rattle.ccr_model_journals.specs.NotReady.{not_ready_start, not_ready_entries};
ghost use Rattle.ccr_model_journals.specs.NotSettledBeforeReady.{not_settled_before_ready_start, not_settled_before_ready_entries};
ghost use Rattle.ccr_model_journals.specs.NumberUsedAgain.{number_used_again_start, number_used_again_entries};
ghost use Rattle.ccr_model_journals.specs.OldEpoch.{old_epoch_start, old_epoch_entries};
ghost use Rattle.ccr_model_journals.specs.OldReadRepeated.{old_read_repeated_start, old_read_repeated_entries};
ghost use Rattle.ccr_model_journals.specs.PauseKeepsLosses.{pause_keeps_losses_start, pause_keeps_losses_entries};
ghost use Rattle.ccr_model_journals.specs.PauseWithABuffer.{pause_with_a_buffer_start, pause_with_a_buffer_entries};
ghost use Rattle.ccr_model_journals.specs.PollOverAPromotion.{poll_over_a_promotion_start, poll_over_a_promotion_entries};
ghost use Rattle.ccr_model_journals.specs.PollTimeout.{poll_timeout_start, poll_timeout_entries};
ghost use Rattle.ccr_model_journals.specs.PromotionsAndExpiry.{promotions_and_expiry_start, promotions_and_expiry_entries};
ghost use Rattle.ccr_model_journals.specs.Refusals.{refusals_start, refusals_entries};
ghost use Rattle.ccr_model_journals.specs.RenewalByWaitingReads.{renewal_by_waiting_reads_start, renewal_by_waiting_reads_entries};
ghost use Rattle.ccr_model_journals.specs.Reordering.{reordering_start, reordering_entries};
ghost use Rattle.ccr_model_journals.specs.Repeats.{repeats_start, repeats_entries};
ghost use Rattle.ccr_model_journals.specs.ReplyTellsItsCopysCount.{reply_tells_its_copys_count_start, reply_tells_its_copys_count_entries};
ghost use Rattle.ccr_model_journals.specs.ResyncFromTheGreaterGlobalCount.{resync_from_the_greater_global_count_start, resync_from_the_greater_global_count_entries};
ghost use Rattle.ccr_model_journals.specs.ResyncOfTwoReplicas.{resync_of_two_replicas_start, resync_of_two_replicas_entries};
ghost use Rattle.ccr_model_journals.specs.RetryCountInTheBootstrap.{retry_count_in_the_bootstrap_start, retry_count_in_the_bootstrap_entries};
ghost use Rattle.ccr_model_journals.specs.RoutedDeletes0.{routed_deletes_0_start, routed_deletes_0_entries};
ghost use Rattle.ccr_model_journals.specs.RoutedDeletes1.{routed_deletes_1_start, routed_deletes_1_entries};
ghost use Rattle.ccr_model_journals.specs.RoutedWrites0.{routed_writes_0_start, routed_writes_0_entries};
ghost use Rattle.ccr_model_journals.specs.RoutedWrites1.{routed_writes_1_start, routed_writes_1_entries};
ghost use Rattle.ccr_model_journals.specs.SecondPollIsWoken.{second_poll_is_woken_start, second_poll_is_woken_entries};
ghost use Rattle.ccr_model_journals.specs.SessionNotReady.{session_not_ready_start, session_not_ready_entries};
ghost use Rattle.ccr_model_journals.specs.SessionOverAPromotion.{session_over_a_promotion_start, session_over_a_promotion_entries};
ghost use Rattle.ccr_model_journals.specs.UncommittedSupersederByHand.{uncommitted_superseder_by_hand_start, uncommitted_superseder_by_hand_entries};

/// A follower with narrow parameters reads and writes in several batches.
pub fn batches_and_reads()
    ensures { IsLegal (start_state batches_and_reads_start) batches_and_reads_entries }
{}

/// A follower fetches a file in parts, out of order, until its session closes, and fetches it again from another.
pub fn chunks()
    ensures { IsLegal (start_state chunks_start) chunks_entries }
{}

/// A flush sets the commit count, beyond which no floor rises.
pub fn commit_counts()
    ensures { IsLegal (start_state commit_counts_start) commit_counts_entries }
{}

/// Writes that expect an operation, or no document, are refused where they find another.
pub fn conditional_writes()
    ensures { IsLegal (start_state conditional_writes_start) conditional_writes_entries }
{}

/// A document that was deleted and merged away is not there at a follower that follows afterwards.
pub fn deleted_document()
    ensures { IsLegal (start_state deleted_document_start) deleted_document_entries }
{}

/// Merges drop no-ops, deletes and what they supersede, and join parts at the least place that is picked.
pub fn deletes_in_merges()
    ensures { IsLegal (start_state deletes_in_merges_start) deletes_in_merges_entries }
{}

/// Each event of a follower is refused where it has to be, and its bootstrap goes to its end with narrow parameters.
pub fn each_refusal_of_a_follower()
    ensures { IsLegal (start_state each_refusal_of_a_follower_start) each_refusal_of_a_follower_entries }
{}

/// A lease expires, a merge drops what it retained, and the follower that asks for it stops.
pub fn expired_lease()
    ensures { IsLegal (start_state expired_lease_start) expired_lease_entries }
{}

/// A replica with a gap becomes the primary, and the missing number becomes a no-op.
pub fn filled_gap()
    ensures { IsLegal (start_state filled_gap_start) filled_gap_entries }
{}

/// One write travels to the follower and is found there.
pub fn first_path()
    ensures { IsLegal (start_state first_path_start) first_path_entries }
{}

/// A lease is answered with the greatest floor of the copies, which is above the primary's.
pub fn floor_above_lease()
    ensures { IsLegal (start_state floor_above_lease_start) floor_above_lease_entries }
{}

/// Floors, leases and polls over three promotions, two new copies and a copy that leaves.
pub fn floors_over_promotions()
    ensures { IsLegal (start_state floors_over_promotions_start) floors_over_promotions_entries }
{}

/// A follower's primary is lost before its replica has a write's operation, and the write is applied again.
pub fn follower_failover()
    ensures { IsLegal (start_state follower_failover_start) follower_failover_entries }
{}

/// A follower's writes, renewals, restart and pause over the promotion of its replica.
pub fn follower_over_a_promotion()
    ensures { IsLegal (start_state follower_over_a_promotion_start) follower_over_a_promotion_entries }
{}

/// A stale copy is promoted by force after merges, while a follower is in its bootstrap.
pub fn forced_promotion_after_merges()
    ensures { IsLegal (start_state forced_promotion_after_merges_start) forced_promotion_after_merges_entries }
{}

/// A stale copy is promoted by force: a new history begins, and the follower of the old one stops.
pub fn forced_promotion()
    ensures { IsLegal (start_state forced_promotion_start) forced_promotion_entries }
{}

/// Four copies of a leader and five followers of many parameters, in a random order.
pub fn four_copies_and_five_followers()
    ensures { IsLegal (start_state four_copies_and_five_followers_start) four_copies_and_five_followers_entries }
{}

/// A read that is held back is not sent while the buffer is full, and can not be lost.
pub fn held_is_not_sent()
    ensures { IsLegal (start_state held_is_not_sent_start) held_is_not_sent_entries }
{}

/// A lease expires while its request is kept, and the request comes again.
pub fn kept_lease_that_expired()
    ensures { IsLegal (start_state kept_lease_that_expired_start) kept_lease_that_expired_entries }
{}

/// A new primary knows nothing of the others before they are resynced and acked.
pub fn known_counts_after_a_promotion()
    ensures { IsLegal (start_state known_counts_after_a_promotion_start) known_counts_after_a_promotion_entries }
{}

/// The places of reads that are lost go by their request numbers.
pub fn lose_by_request_number()
    ensures { IsLegal (start_state lose_by_request_number_start) lose_by_request_number_entries }
{}

/// Merges, flushes and lost requests of a leader of two copies and its follower, in a random order.
pub fn merges_and_losses()
    ensures { IsLegal (start_state merges_and_losses_start) merges_and_losses_entries }
{}

/// Eight followers of one shard, a ninth that is refused, and a world that settles once the write has ended.
pub fn ninth_follower()
    ensures { IsLegal (start_state ninth_follower_start) ninth_follower_entries }
{}

/// A leader that is not ready after a promotion keeps a request for a lease until each copy has the lease.
pub fn not_ready()
    ensures { IsLegal (start_state not_ready_start) not_ready_entries }
{}

/// A world is not settled before its leader is ready.
pub fn not_settled_before_ready()
    ensures { IsLegal (start_state not_settled_before_ready_start) not_settled_before_ready_entries }
{}

/// An operation that no other copy had is lost with the primary, and its number is used again.
pub fn number_used_again()
    ensures { IsLegal (start_state number_used_again_start) number_used_again_entries }
{}

/// A write of an epoch that is over is refused.
pub fn old_epoch()
    ensures { IsLegal (start_state old_epoch_start) old_epoch_entries }
{}

/// A read that comes again after a merge is answered as missing, and its follower goes on.
pub fn old_read_repeated()
    ensures { IsLegal (start_state old_read_repeated_start) old_read_repeated_entries }
{}

/// A pause leaves the count of losses, which a write that ends sets to 0.
pub fn pause_keeps_losses()
    ensures { IsLegal (start_state pause_keeps_losses_start) pause_keeps_losses_entries }
{}

/// A pause drops the buffer, and the task reads it again after the resumption.
pub fn pause_with_a_buffer()
    ensures { IsLegal (start_state pause_with_a_buffer_start) pause_with_a_buffer_entries }
{}

/// A poll at the lost primary ends with a promotion, and one at another copy stays until that leaves.
pub fn poll_over_a_promotion()
    ensures { IsLegal (start_state poll_over_a_promotion_start) poll_over_a_promotion_entries }
{}

/// A read that waited for its time is answered without an operation.
pub fn poll_timeout()
    ensures { IsLegal (start_state poll_timeout_start) poll_timeout_entries }
{}

/// Promotions, expiries and a retention setting over a leader of three copies and its follower, in a random order.
pub fn promotions_and_expiry()
    ensures { IsLegal (start_state promotions_and_expiry_start) promotions_and_expiry_entries }
{}

/// Events that are refused, each for its cause.
pub fn refusals()
    ensures { IsLegal (start_state refusals_start) refusals_entries }
{}

/// A renewal keeps what the least of the sent, held and waiting reads asks for.
pub fn renewal_by_waiting_reads()
    ensures { IsLegal (start_state renewal_by_waiting_reads_start) renewal_by_waiting_reads_entries }
{}

/// Answers that come out of order leave a gap, which the late one closes.
pub fn reordering()
    ensures { IsLegal (start_state reordering_start) reordering_entries }
{}

/// A repeated answer is ignored, and a repeated batch has nothing new.
pub fn repeats()
    ensures { IsLegal (start_state repeats_start) repeats_entries }
{}

/// A read at a replica is answered with what that copy has and knows.
pub fn reply_tells_its_copys_count()
    ensures { IsLegal (start_state reply_tells_its_copys_count_start) reply_tells_its_copys_count_entries }
{}

/// A resync begins at the greater of the replica's and the primary's global count, and teaches neither.
pub fn resync_from_the_greater_global_count()
    ensures { IsLegal (start_state resync_from_the_greater_global_count_start) resync_from_the_greater_global_count_entries }
{}

/// Two replicas are resynced after a promotion.
pub fn resync_of_two_replicas()
    ensures { IsLegal (start_state resync_of_two_replicas_start) resync_of_two_replicas_entries }
{}

/// Each answer to the bootstrap sets the count of losses to 0.
pub fn retry_count_in_the_bootstrap()
    ensures { IsLegal (start_state retry_count_in_the_bootstrap_start) retry_count_in_the_bootstrap_entries }
{}

/// Writes and deletes with a routing or without one, at the leader and at a follower that is restored.
pub fn routed_deletes_0()
    ensures { IsLegal (start_state routed_deletes_0_start) routed_deletes_0_entries }
{}

/// Writes and deletes with a routing or without one, at the leader and at a follower that is restored.
pub fn routed_deletes_1()
    ensures { IsLegal (start_state routed_deletes_1_start) routed_deletes_1_entries }
{}

/// A document is found with the routing of its write, or with none.
pub fn routed_writes_0()
    ensures { IsLegal (start_state routed_writes_0_start) routed_writes_0_entries }
{}

/// A document is found with the routing of its write, or with none.
pub fn routed_writes_1()
    ensures { IsLegal (start_state routed_writes_1_start) routed_writes_1_entries }
{}

/// Of two polls of a follower the second is woken.
pub fn second_poll_is_woken()
    ensures { IsLegal (start_state second_poll_is_woken_start) second_poll_is_woken_entries }
{}

/// A session that is asked for before the leader is ready waits for a retry.
pub fn session_not_ready()
    ensures { IsLegal (start_state session_not_ready_start) session_not_ready_entries }
{}

/// A session ends with a promotion, and its number is not used again.
pub fn session_over_a_promotion()
    ensures { IsLegal (start_state session_over_a_promotion_start) session_over_a_promotion_entries }
{}

/// A merge keeps an operation where only one that is not committed supersedes it.
pub fn uncommitted_superseder_by_hand()
    ensures { IsLegal (start_state uncommitted_superseder_by_hand_start) uncommitted_superseder_by_hand_entries }
{}
