ghost use Rattle.std.specs.Prelude.{◌≡◌, IfOk};
ghost use Rattle.ccr_model.specs.LeaderRows.{leader_ack, leader_add_copy, leader_clock, leader_close_sessions, leader_expire, leader_fail_copy, leader_flush, leader_force_promote, leader_merge, leader_promote, leader_replicate, leader_resync, leader_status, leader_sync, leader_write};
ghost use Rattle.ccr_model.specs.LeaderFrames.{leader_receive, leader_wake};
ghost use Rattle.ccr_leader.specs.Requests.{IsPlaced};
ghost use Rattle.ccr_following.specs.After.{after};

use crate::replies::{quiet, refused_by};
use ccr_following::Told;
use ccr_journal::{Boxed, KeptLeases, Reply, WriteRequest};
use ccr_leader::Leader;
use ccr_lease::Lease;
use ccr_op::Millis;
use ccr_policy::Picks;
use ccr_wire::Message;
use std::alloc::{AllocError, Global};
use uuid::Uuid;

/// A client writes or deletes a document.
pub(crate) fn write(
    alloc: Global,
    leader: &mut Leader,
    request: &WriteRequest,
) -> Result<Told, AllocError>
    ensures { IfOk result (λ told. leader_write leader.old request.now ≡ after told leader.new) }
{
    match leader.write(request) {
        Ok(wrote) => {
            let wrote = Boxed::new(alloc, wrote)?;
            Ok(quiet(alloc, Reply::Written(wrote)))
        }
        Err(fault) => refused_by(alloc, fault),
    }
}

/// A replica takes an operation of the primary's.
pub(crate) fn replicate(
    alloc: Global,
    leader: &mut Leader,
    copy: u64,
    seq: u64,
) -> Result<Told, AllocError>
    ensures { IfOk result (λ told. leader_replicate leader.old copy seq ≡ after told leader.new) }
{
    match leader.replicate(copy, seq) {
        Ok(()) => Ok(quiet(alloc, Reply::Done)),
        Err(fault) => refused_by(alloc, fault),
    }
}

/// The primary learns a replica's count.
pub(crate) fn ack(alloc: Global, leader: &mut Leader, copy: u64) -> Result<Told, AllocError>
    ensures { IfOk result (λ told. leader_ack leader.old copy ≡ after told leader.new) }
{
    match leader.ack(copy) {
        Ok(global) => Ok(quiet(alloc, Reply::Acked { global })),
        Err(fault) => refused_by(alloc, fault),
    }
}

/// A replica learns the global count and the leases.
pub(crate) fn sync_copy(alloc: Global, leader: &mut Leader, copy: u64) -> Result<Told, AllocError>
    ensures { IfOk result (λ told. leader_sync leader.old copy ≡ after told leader.new) }
{
    match leader.sync_copy(copy) {
        Ok(sent) => Ok(Told {
            reply: Reply::Done,
            sent,
        }),
        Err(fault) => refused_by(alloc, fault),
    }
}

/// A replica becomes the primary.
pub(crate) fn promote(alloc: Global, leader: &mut Leader, copy: u64) -> Result<Told, AllocError>
    ensures { IfOk result (λ told. leader_promote leader.old copy ≡ after told leader.new) }
{
    match leader.promote(copy) {
        Ok((term, filled)) => Ok(quiet(alloc, Reply::Promoted { term, filled })),
        Err(fault) => refused_by(alloc, fault),
    }
}

/// A copy that left becomes the only one.
pub(crate) fn force_promote(
    alloc: Global,
    leader: &mut Leader,
    copy: u64,
) -> Result<Told, AllocError>
    ensures { IfOk result (λ told. leader_force_promote leader.old copy ≡ after told leader.new) }
{
    match leader.force_promote(copy) {
        Ok((term, filled)) => Ok(quiet(alloc, Reply::Forced { term, filled })),
        Err(fault) => refused_by(alloc, fault),
    }
}

/// A replica comes to the primary's state.
pub(crate) fn resync(alloc: Global, leader: &mut Leader, copy: u64) -> Result<Told, AllocError>
    ensures { IfOk result (λ told. leader_resync leader.old copy ≡ after told leader.new) }
{
    match leader.resync(copy) {
        Ok((dropped, taken)) => Ok(quiet(alloc, Reply::Resynced { dropped, taken })),
        Err(fault) => refused_by(alloc, fault),
    }
}

/// A replica leaves.
pub(crate) fn fail_copy(alloc: Global, leader: &mut Leader, copy: u64) -> Result<Told, AllocError>
    ensures { IfOk result (λ told. leader_fail_copy leader.old copy ≡ after told leader.new) }
{
    match leader.fail_copy(copy) {
        Ok(sent) => Ok(Told {
            reply: Reply::Done,
            sent,
        }),
        Err(fault) => refused_by(alloc, fault),
    }
}

/// A new copy takes all that the primary has.
pub(crate) fn add_copy(alloc: Global, leader: &mut Leader) -> Result<Told, AllocError>
    ensures { IfOk result (λ told. leader_add_copy leader.old ≡ after told leader.new) }
{
    match leader.add_copy() {
        Ok(copy) => Ok(quiet(alloc, Reply::Added { copy })),
        Err(fault) => refused_by(alloc, fault),
    }
}

/// A copy closes its open part, and commits.
pub(crate) fn flush(alloc: Global, leader: &mut Leader, copy: u64) -> Result<Told, AllocError>
    ensures { IfOk result (λ told. leader_flush leader.old copy ≡ after told leader.new) }
{
    match leader.flush(copy) {
        Ok(commit) => Ok(quiet(alloc, Reply::Flushed { commit })),
        Err(fault) => refused_by(alloc, fault),
    }
}

/// A copy merges the picked parts of its store.
pub(crate) fn merge(
    alloc: Global,
    leader: &mut Leader,
    copy: u64,
    picks: &Picks,
) -> Result<Told, AllocError>
    ensures { IfOk result (λ told. leader_merge leader.old copy picks.now ≡ after told leader.new) }
{
    match leader.merge(copy, picks) {
        Ok((floor, dropped)) => {
            let picks = picks.copy(alloc)?;
            let picks = Boxed::new(alloc, picks)?;
            Ok(quiet(
                alloc,
                Reply::Merged {
                    floor,
                    dropped,
                    picks,
                },
            ))
        }
        Err(fault) => refused_by(alloc, fault),
    }
}

/// The clock reads so.
pub(crate) fn clock(alloc: Global, leader: &mut Leader, now: Millis) -> Result<Told, AllocError>
    ensures { IfOk result (λ told. leader_clock leader.old now ≡ after told leader.new) }
{
    leader.clock(now);
    Ok(quiet(alloc, Reply::Done))
}

/// The primary drops the leases that have expired.
pub(crate) fn expire(alloc: Global, leader: &mut Leader) -> Result<Told, AllocError>
    ensures { IfOk result (λ told. leader_expire leader.old ≡ after told leader.new) }
{
    match leader.expire() {
        Ok(list) => Ok(quiet(alloc, Reply::Expired { list })),
        Err(_) => Err(AllocError),
    }
}

/// The primary closes the sessions that have been idle.
pub(crate) fn close_sessions(alloc: Global, leader: &mut Leader) -> Result<Told, AllocError>
    ensures { IfOk result (λ told. leader_close_sessions leader.old ≡ after told leader.new) }
{
    let sessions = leader.close_sessions();
    Ok(quiet(alloc, Reply::Closed { sessions }))
}

/// How the leader's copies stand.
#[tactic(auto, unfolding(ccr_model::specs::LeaderRows::leader_status_row))]
pub(crate) fn status(alloc: Global, leader: &Leader) -> Result<Told, AllocError>
    ensures { IfOk result (λ told. leader_status leader.entry.now ≡ after told leader.entry.now) }
{
    let term = leader.term();
    let copies = leader.statuses()?;
    let copies = Boxed::new(alloc, copies)?;
    let leases = copy_leases(alloc, leader.leases().as_slice())?;
    let leases = Boxed::new(alloc, leases)?;
    Ok(quiet(
        alloc,
        Reply::LeaderStatus {
            term,
            copies,
            leases,
        },
    ))
}

/// Equal leases.
fn copy_leases(alloc: Global, leases: &[Lease]) -> Result<KeptLeases, AllocError>
    ensures { IfOk result (λ copies. copies ≡ leases.now) }
{
    let mut copies = Vec::with_capacity(alloc, leases.len())?;
    for lease in leases {
        let copied = lease.copy(alloc)?;
        copies.push(copied)?;
    }
    Ok(KeptLeases::new(copies))
}

/// A message comes to a copy.
pub(crate) fn receive(
    alloc: Global,
    leader: &mut Leader,
    copy: u64,
    message: &Message,
) -> Result<Told, AllocError>
    requires { IsPlaced leader.old message.now.content }
    ensures { IfOk result (λ told. leader_receive leader.old copy message.now ≡ after told leader.new) }
{
    match leader.receive(copy, message) {
        Ok((heard, sent)) => Ok(Told {
            reply: Reply::Heard(heard),
            sent,
        }),
        Err(fault) => refused_by(alloc, fault),
    }
}

/// A read of a follower that waits is answered.
pub(crate) fn wake(
    alloc: Global,
    leader: &mut Leader,
    follower: &Uuid,
    at: u64,
) -> Result<Told, AllocError>
    ensures { IfOk result (λ told. leader_wake leader.old follower.now at ≡ after told leader.new) }
{
    match leader.poll_wake(follower, at) {
        Ok((heard, sent)) => Ok(Told {
            reply: Reply::Heard(heard),
            sent,
        }),
        Err(fault) => refused_by(alloc, fault),
    }
}
