// The text of one reply.
ghost use Rattle.std.specs.Prelude.{◌≡◌, ◌++◌, IfOk, OnOk, string_bytes, codes, decimal, flat_map};
ghost use Rattle.std.specs.List.{before_first, after_first, join_by};
ghost use Rattle.ccr_answers.specs.Told.{copies_text, copy_text, follower_text, heard_text, holder_text, is_slash, kept_text, leader_text, lease_text, leases_text, text_of, wrote_text};

use crate::words::{checkpoint, phase_word, refusal_text, result_word};
use ccr_journal::{CopyStatus, FollowerStatus, Heard, Reply, Wrote};
use ccr_lease::Lease;
use ccr_op::{Count, Term};
use ccr_wire::LeaseResult;
use std::alloc::{AllocError, Global};

/// The text of a reply, in the world of this shard.
pub(crate) fn text_of(alloc: Global, shard: u64, reply: &Reply) -> Result<String, AllocError>
    ensures { IfOk result (λ text. string_bytes text ≡ text_of shard reply.now) }
{
    match reply {
        Reply::Written(wrote) => wrote_text(alloc, shard, wrote.get()),
        Reply::Acked { global } => {
            let checkpoint = checkpoint(alloc, *global)?;
            format!(in alloc; "acked global={checkpoint}")
        }
        Reply::Promoted { term, filled } => {
            format!(in alloc; "promoted term={term} filled={filled}")
        }
        Reply::Forced { term, filled } => format!(in alloc; "forced term={term} filled={filled}"),
        Reply::Resynced { dropped, taken } => {
            format!(in alloc; "resynced dropped={dropped} taken={taken}")
        }
        Reply::Added { copy } => format!(in alloc; "added copy={copy}"),
        Reply::Flushed { commit } => format!(in alloc; "flushed commit={commit}"),
        Reply::Merged { floor, dropped, .. } => {
            format!(in alloc; "merged floor={floor} dropped={dropped}")
        }
        Reply::Expired { .. } => String::from_str(alloc, "ok"),
        Reply::Closed { .. } => String::from_str(alloc, "ok"),
        Reply::Heard(heard) => heard_text(alloc, *heard),
        Reply::Took { .. } => String::from_str(alloc, "ok"),
        Reply::Applied { new } => format!(in alloc; "applied new={new}"),
        Reply::Found { .. } => String::from_str(alloc, "ok"),
        Reply::LeaderStatus {
            term,
            copies,
            leases,
        } => leader_text(
            alloc,
            shard,
            *term,
            copies.get().as_slice(),
            leases.get().as_slice(),
        ),
        Reply::FollowerStatus(status) => follower_text(alloc, shard, status.get()),
        Reply::Settled => String::from_str(alloc, "settled"),
        Reply::Refused(refusal) => refusal_text(alloc, refusal.get()),
        Reply::Done => String::from_str(alloc, "ok"),
    }
}

fn wrote_text(alloc: Global, shard: u64, wrote: &Wrote) -> Result<String, AllocError>
    ensures { IfOk result (λ text. string_bytes text ≡ wrote_text shard wrote.now) }
{
    let seq = wrote.seq;
    let term = wrote.term;
    let version = wrote.version;
    let word = result_word(wrote.result);
    format!(in alloc; "written shard={shard} seq={seq} term={term} version={version} result={word}")
}

// ---- messages

fn lease_text(alloc: Global, answer: LeaseResult, number: Count) -> Result<String, AllocError>
    ensures { IfOk result (λ text. string_bytes text ≡ lease_text answer number) }
{
    match answer {
        LeaseResult::Ok => format!(in alloc; "lease Ok number={number}"),
        LeaseResult::Exists => format!(in alloc; "lease Exists number={number}"),
        LeaseResult::NotFound => String::from_str(alloc, "lease NotFound"),
        LeaseResult::LowNumber => format!(in alloc; "lease LowNumber number={number}"),
    }
}

fn heard_text(alloc: Global, heard: Heard) -> Result<String, AllocError>
    ensures { IfOk result (λ text. string_bytes text ≡ heard_text heard) }
{
    match heard {
        Heard::Done => String::from_str(alloc, "ok"),
        Heard::Parked => String::from_str(alloc, "parked"),
        Heard::Empty => String::from_str(alloc, "empty"),
        Heard::Missing { from, floor } => format!(in alloc; "missing from={from} floor={floor}"),
        Heard::History => String::from_str(alloc, "history"),
        Heard::Lease {
            result: answer,
            number,
        } => lease_text(alloc, answer, number),
        Heard::Waiting { copy } => format!(in alloc; "waiting copy={copy}"),
        Heard::NotReady { copy } => format!(in alloc; "NotReady copy={copy}"),
        Heard::Gone => String::from_str(alloc, "gone"),
        Heard::Ignored => String::from_str(alloc, "ignored"),
        Heard::StoppedMissing => String::from_str(alloc, "stopped Missing"),
        Heard::StoppedHistory => String::from_str(alloc, "stopped HistoryChanged"),
    }
}

// ---- how a shard stands

fn copy_text(alloc: Global, status: &CopyStatus) -> Result<String, AllocError>
    ensures { IfOk result (λ text. string_bytes text ≡ copy_text status.now) }
{
    let copy = status.copy;
    let local = checkpoint(alloc, status.count)?;
    let global = checkpoint(alloc, status.global)?;
    let floor = status.floor;
    let held = status.held;
    format!(in alloc; "{copy}:{local}:{global}:{floor}:{held}")
}

fn push_copy(alloc: Global, text: &mut String, status: &CopyStatus) -> Result<(), AllocError>
    ensures { OnOk result (string_bytes text.new ≡ string_bytes text.old ++ copy_text status.now) }
{
    let one = copy_text(alloc, status)?;
    text.push_str(one.as_str())
}

// The copies, with commas between them.
fn push_copies(alloc: Global, text: &mut String, copies: &[CopyStatus]) -> Result<(), AllocError>
    ensures { OnOk result (string_bytes text.new ≡ string_bytes text.old ++ join_by copy_text (codes ",") copies.now) }
{
    let Some((first, rest)) = copies.split_first() else {
        return Ok(());
    };
    push_copy(alloc, text, first)?;
    push_more_copies(alloc, text, rest)
}

fn push_more_copies(
    alloc: Global,
    text: &mut String,
    copies: &[CopyStatus],
) -> Result<(), AllocError>
    ensures { OnOk result (string_bytes text.new ≡ string_bytes text.old ++ flat_map (λ c. codes "," ++ copy_text c) copies.now) }
{
    for copy in copies {
        text.push_str(",")?;
        push_copy(alloc, text, copy)?;
    }
    Ok(())
}

// The copies, the primary first and behind a star.
fn copies_text(alloc: Global, copies: &[CopyStatus]) -> Result<String, AllocError>
    ensures { IfOk result (λ text. string_bytes text ≡ copies_text copies.now) }
{
    let mut text = String::from_str(alloc, "*")?;
    push_copies(alloc, &mut text, copies)?;
    Ok(text)
}

// The follower's cluster and index, with which the id of its lease begins.
fn holder_text(alloc: Global, id: &str) -> Result<String, AllocError>
    ensures { IfOk result (λ text. string_bytes text ≡ holder_text id.now) }
{
    let (cluster, rest) = cut(id);
    let (index, _) = cut(rest);
    format!(in alloc; "{cluster}/{index}")
}

// What stands before the first slash of a text, and what stands after it; without one, all and nothing.
#[tactic(auto, using(std::proofs::lemmas::Str::Pattern::split_once_first))]
fn cut(text: &str) -> (&str, &str)
    ensures before { result.0.now ≡ before_first is_slash text.now }
    ensures after { result.1.now ≡ after_first is_slash text.now }
{
    match text.split_once('/') {
        Some((before, after)) => (before, after),
        None => (text, ""),
    }
}

fn kept_text(alloc: Global, lease: &Lease) -> Result<String, AllocError>
    ensures { IfOk result (λ text. string_bytes text ≡ kept_text lease.now) }
{
    let holder = holder_text(alloc, lease.id.as_str())?;
    let number = lease.number;
    let stamp = lease.stamp;
    format!(in alloc; "{holder}:{number}:{stamp}")
}

fn push_lease(alloc: Global, text: &mut String, lease: &Lease) -> Result<(), AllocError>
    ensures { OnOk result (string_bytes text.new ≡ string_bytes text.old ++ kept_text lease.now) }
{
    let one = kept_text(alloc, lease)?;
    text.push_str(one.as_str())
}

fn push_more_leases(alloc: Global, text: &mut String, leases: &[Lease]) -> Result<(), AllocError>
    ensures { OnOk result (string_bytes text.new ≡ string_bytes text.old ++ flat_map (λ l. codes "," ++ kept_text l) leases.now) }
{
    for lease in leases {
        text.push_str(",")?;
        push_lease(alloc, text, lease)?;
    }
    Ok(())
}

// The leases, with commas between them.
fn leases_text(alloc: Global, leases: &[Lease]) -> Result<String, AllocError>
    ensures { IfOk result (λ text. string_bytes text ≡ leases_text leases.now) }
{
    let Some((first, rest)) = leases.split_first() else {
        return String::from_str(alloc, "-");
    };
    let mut text = kept_text(alloc, first)?;
    push_more_leases(alloc, &mut text, rest)?;
    Ok(text)
}

fn leader_text(
    alloc: Global,
    shard: u64,
    term: Term,
    copies: &[CopyStatus],
    leases: &[Lease],
) -> Result<String, AllocError>
    ensures { IfOk result (λ text. string_bytes text ≡ leader_text shard term copies.now leases.now) }
{
    let copies = copies_text(alloc, copies)?;
    let leases = leases_text(alloc, leases)?;
    format!(in alloc; "shard={shard} term={term} copies={copies} leases={leases}")
}

fn follower_text(alloc: Global, shard: u64, status: &FollowerStatus) -> Result<String, AllocError>
    ensures { IfOk result (λ text. string_bytes text ≡ follower_text shard status.now) }
{
    let phase = phase_word(status.phase);
    let epoch = status.epoch;
    let term = status.term;
    let rest = follower_counts(alloc, status)?;
    format!(in alloc; "shard={shard} phase={phase} epoch={epoch} term={term}{rest}")
}

// The copies of a follower shard, and what its task has in hand.
fn follower_counts(alloc: Global, status: &FollowerStatus) -> Result<String, AllocError>
    ensures { IfOk result (λ text. string_bytes text ≡ codes " copies=" ++ (copies_text status.now.copies ++ (codes " reads=" ++ (decimal status.now.reads ++ (codes " buffer=" ++ (decimal status.now.buffer ++ (codes " writes=" ++ decimal status.now.writes))))))) }
{
    let copies = copies_text(alloc, status.copies.as_slice())?;
    let reads = status.reads;
    let buffer = status.buffer;
    let writes = status.writes;
    format!(in alloc; " copies={copies} reads={reads} buffer={buffer} writes={writes}")
}
