//! The in-sync set of a shard: its copies, what the primary knows of each, and the global count.
//!
//! In Elasticsearch the primary keeps for each in-sync copy the local checkpoint that it last heard,
//! and the global checkpoint is the least of these. Here counts stand for checkpoints: a count is one
//! more, the least number that is not processed. After a promotion the new primary knows nothing of
//! the other copies: each has to be resynced with it and to acknowledge its count anew.
#![tactic(auto)]

ghost use Rattle.std.specs.Prelude.{◌≡◌, ◌≢◌, ◌+◌, ◌<◌, ◌≤◌, ◌==◌, max, false, find, map, None, Some, OnOk, OnErr, IfOk, IfErr, MatchOption, option_map, All};
ghost use Rattle.std.specs.Result.{result_err};
ghost use Rattle.ccr_insync.specs.Members.{as_acked, as_resynced, as_term_begins, in_step, least_known, member_of, without};
ghost use Rattle.ccr_insync.specs.InSyncSet.{IsKept, IsLeastBehind, ack_refusal, acked, add_refusal, added, first_set, has, is_acked, is_behind, is_resynced, leave_refusal, left, promoted, replica_refusal, resynced, set_of_one};

use std::alloc::{AllocError, Global};
use std::marker::Model;
use thiserror::Error;

/// How many numbers from 0 on: one more than a checkpoint.
pub type Count = u64;

/// A primary term: it rises by 1 with each promotion.
pub type Term = u64;

// A shard has at most this many copies.
const MOST_COPIES: usize = 8;

/// Why a call is refused.
#[derive(Clone, Copy, Debug, PartialEq, Eq, Error)]
pub enum SetFault {
    /// The copy is the only one.
    #[error("the copy is the only one")]
    LastCopy,
    /// The copy is not in the set.
    #[error("no such copy is in the set")]
    NoCopy,
    /// The copy is the primary.
    #[error("the copy is the primary")]
    IsPrimary,
    /// The copy was not resynced since the last promotion.
    #[error("the copy is not resynced")]
    NotReady,
    /// There are eight copies.
    #[error("there are eight copies")]
    TooMany,
    /// Want of memory.
    #[error("out of memory")]
    Memory,
}

/// What the set keeps of one copy.
#[derive(Clone, Copy, Debug, PartialEq, Eq)]
pub struct Member {
    /// Its number.
    pub copy: u32,
    /// The count that the primary last heard of it.
    pub known: Count,
    /// Whether it was resynced since the last promotion.
    pub is_resynced: bool,
    /// Whether it was heard of in this term.
    pub is_acked: bool,
}

/// The in-sync set, with at least one copy and at most eight.
#[derive(Drop)]
pub struct InSync {
    term: Term,
    primary: u32,
    next: u32,
    global: Count,
    members: Vec<Member>,
}

impl Model for InSync {
    ghost use Rattle.ccr_insync.specs.InSyncSet.{InSyncSet, IsKept};

    ghost Value = { InSyncSet };

    ghost view = { λ s. record { term = s.term; primary = s.primary; next = s.next; global = s.global; members = s.members.items } };

    ghost invariant = { λ s. IsKept record { term = s.term; primary = s.primary; next = s.next; global = s.global; members = s.members.items } };
}

impl InSync {
    /// The copies from 0 on, that many, with copy 0 as primary, in term 1.
    pub fn new(alloc: Global, copies: u32) -> Result<InSync, AllocError>
        requires some { 1 ≤ copies }
        requires few { copies ≤ 8 }
        ensures { IfOk result (λ set. set ≡ first_set copies) }
    {
        let mut members = Vec::new(alloc);
        for copy in 0..copies {
            members.push(in_step(copy, 0))?;
        }
        Ok(InSync {
            term: 1,
            primary: 0,
            next: copies,
            global: 0,
            members,
        })
    }

    /// The set of one copy, of this number, as primary of this term. The next copy gets the number `next`.
    pub fn alone(alloc: Global, copy: u32, next: u32, term: Term) -> Result<InSync, AllocError>
        requires { copy < next }
        ensures { IfOk result (λ set. set ≡ set_of_one copy next term) }
    {
        let mut members = Vec::new(alloc);
        members.push(in_step(copy, 0))?;
        Ok(InSync {
            term,
            primary: copy,
            next,
            global: 0,
            members,
        })
    }

    /// Notes the count of a copy, which may be the primary, and answers the global count.
    pub fn ack(&mut self, copy: u32, count: Count) -> Result<Count, SetFault>
        ensures refused { result_err result ≡ ack_refusal self.old copy }
        ensures ok { OnOk result (self.new ≡ acked self.old copy count) }
        ensures answer { IfOk result (λ global. global ≡ self.new.global) }
        ensures err { OnErr result (self.new ≡ self.old) }
    {
        let Some(member) = member_of(&self.members, copy) else {
            return Err(SetFault::NoCopy);
        };
        if !member.is_resynced {
            return Err(SetFault::NotReady);
        }
        note_count(&mut self.members, copy, count);
        self.global = counted(self.global, &self.members);
        Ok(self.global)
    }

    /// A replica leaves the set. Answers the global count.
    pub fn fail_copy(&mut self, copy: u32) -> Result<Count, SetFault>
        ensures refused { result_err result ≡ leave_refusal self.old copy }
        ensures ok { OnOk result (self.new ≡ left self.old copy) }
        ensures answer { IfOk result (λ global. global ≡ self.new.global) }
        ensures err { OnErr result (self.new ≡ self.old) }
    {
        let found = member_of(&self.members, copy).is_some();
        if found && self.members.len() == 1 {
            return Err(SetFault::LastCopy);
        }
        if !found {
            return Err(SetFault::NoCopy);
        }
        if copy == self.primary {
            return Err(SetFault::IsPrimary);
        }
        take_out(&mut self.members, copy);
        self.global = counted(self.global, &self.members);
        Ok(self.global)
    }

    /// The primary leaves, and a replica is the primary of a new term, with its own count and its own
    /// known global count. Nothing is known of the other copies then. Answers the new term.
    pub fn promote(&mut self, copy: u32, count: Count, global: Count) -> Result<Term, SetFault>
        requires { self.old.term < u64.MAX }
        ensures refused { result_err result ≡ replica_refusal self.old copy }
        ensures ok { OnOk result (self.new ≡ promoted self.old copy count global) }
        ensures answer { IfOk result (λ term. term ≡ self.new.term) }
        ensures err { OnErr result (self.new ≡ self.old) }
    {
        if member_of(&self.members, copy).is_none() {
            return Err(SetFault::NoCopy);
        }
        if copy == self.primary {
            return Err(SetFault::IsPrimary);
        }
        take_out(&mut self.members, self.primary);
        begin_term(&mut self.members, copy, count);
        self.term += 1;
        self.primary = copy;
        self.global = counted(global, &self.members);
        Ok(self.term)
    }

    /// A replica has what the primary has.
    pub fn resynced(&mut self, copy: u32) -> Result<(), SetFault>
        ensures refused { result_err result ≡ replica_refusal self.old copy }
        ensures ok { OnOk result (self.new ≡ resynced self.old copy) }
        ensures err { OnErr result (self.new ≡ self.old) }
    {
        if member_of(&self.members, copy).is_none() {
            return Err(SetFault::NoCopy);
        }
        if copy == self.primary {
            return Err(SetFault::IsPrimary);
        }
        note_resync(&mut self.members, copy);
        Ok(())
    }

    /// A new copy with all that the primary has. Answers its number, which no copy had before.
    pub fn add_copy(&mut self) -> Result<u32, SetFault>
        requires { self.old.next < u32.MAX }
        ensures refused { IfErr result (λ fault. fault ≢ SetFault.Memory → add_refusal self.old ≡ Some fault) }
        ensures room { OnOk result (add_refusal self.old ≡ None) }
        ensures ok { OnOk result (self.new ≡ added self.old) }
        ensures answer { IfOk result (λ copy. copy ≡ self.old.next) }
        ensures err { OnErr result (self.new ≡ self.old) }
    {
        if self.members.len() >= MOST_COPIES {
            return Err(SetFault::TooMany);
        }
        let copy = self.next;
        let known = member_of(&self.members, self.primary).map_or(0, |primary| primary.known);
        if self.members.push(in_step(copy, known)).is_err() {
            return Err(SetFault::Memory);
        }
        self.next += 1;
        self.global = counted(self.global, &self.members);
        Ok(copy)
    }

    /// The least replica that was not resynced and acked in this term; none where the set is ready.
    pub fn ready(&self) -> Option<u32>
        ensures value { result ≡ option_map (λ m. m.copy) (find (is_behind self.now.primary) self.now.members) }
        ensures least { MatchOption result (All (λ m. is_behind self.now.primary m ≡ false) self.now.members) (IsLeastBehind self.now) }
    {
        first_behind(&self.members, self.primary)
    }

    /// The global count: the least known count since the last promotion, never lowered in a term.
    pub fn global(&self) -> Count
        ensures value { result ≡ self.now.global }
        ensures kept { IsKept self.now }
    {
        self.global
    }

    /// The number of the primary, which is in the set.
    pub fn primary(&self) -> u32
        ensures value { result ≡ self.now.primary }
        ensures kept { IsKept self.now }
    {
        self.primary
    }

    /// The term, which rises by 1 with each promotion.
    pub fn term(&self) -> Term
        ensures { result ≡ self.now.term }
    {
        self.term
    }

    /// The number of the next new copy.
    pub fn next(&self) -> u32
        ensures { result ≡ self.now.next }
    {
        self.next
    }

    /// Whether the copy is in the set.
    pub fn has(&self, copy: u32) -> bool
        ensures { result ≡ has self.now copy }
    {
        member_of(&self.members, copy).is_some()
    }

    /// Whether the copy is in the set and was resynced since the last promotion, as the primary is.
    pub fn is_resynced(&self, copy: u32) -> bool
        ensures { result ≡ is_resynced self.now copy }
    {
        member_of(&self.members, copy).map_or(false, |m| m.is_resynced)
    }

    /// Whether the copy is in the set and was heard of in this term, as the primary is.
    pub fn is_acked(&self, copy: u32) -> bool
        ensures { result ≡ is_acked self.now copy }
    {
        member_of(&self.members, copy).map_or(false, |m| m.is_acked)
    }
}

// A copy that waits for nothing.
fn in_step(copy: u32, known: Count) -> Member
    ensures { result ≡ in_step copy known }
{
    Member {
        copy,
        known,
        is_resynced: true,
        is_acked: true,
    }
}

fn member_of(members: &[Member], copy: u32) -> Option<Member>
    ensures { result ≡ member_of members.now copy }
{
    members.iter().copied().find(|m| m.copy == copy)
}

// The first replica that was not resynced and acked.
fn first_behind(members: &[Member], primary: u32) -> Option<u32>
    ensures { result ≡ option_map (λ m. m.copy) (find (is_behind primary) members.now) }
{
    members
        .iter()
        .find(|m| m.copy != primary && !(m.is_resynced && m.is_acked))
        .map(|m| m.copy)
}

// The global count, worked out again.
fn counted(global: Count, members: &[Member]) -> Count
    ensures { result ≡ max global (least_known members.now) }
{
    let least = members
        .iter()
        .map(|m| m.known)
        .reduce(|a, b| a.min(b))
        .unwrap_or(0);
    global.max(least)
}

fn take_out(members: &mut Vec<Member>, copy: u32)
    ensures { members.new.items ≡ without copy members.old.items }
{
    members.retain(|m| m.copy != copy);
}

fn note_count(members: &mut [Member], copy: u32, count: Count)
    ensures { members.new ≡ map (as_acked copy count) members.old }
{
    for m in members.iter_mut() {
        *m = as_acked(*m, copy, count);
    }
}

fn as_acked(m: Member, copy: u32, count: Count) -> Member
    ensures { result ≡ as_acked copy count m }
{
    if m.copy != copy {
        return m;
    }
    Member {
        known: count,
        is_acked: true,
        ..m
    }
}

fn note_resync(members: &mut [Member], copy: u32)
    ensures { members.new ≡ map (as_resynced copy) members.old }
{
    for m in members.iter_mut() {
        *m = as_resynced(*m, copy);
    }
}

fn as_resynced(m: Member, copy: u32) -> Member
    ensures { result ≡ as_resynced copy m }
{
    if m.copy != copy {
        return m;
    }
    Member {
        is_resynced: true,
        ..m
    }
}

fn begin_term(members: &mut [Member], primary: u32, count: Count)
    ensures { members.new ≡ map (as_term_begins primary count) members.old }
{
    for m in members.iter_mut() {
        *m = as_term_begins(*m, primary, count);
    }
}

fn as_term_begins(m: Member, primary: u32, count: Count) -> Member
    ensures { result ≡ as_term_begins primary count m }
{
    if m.copy == primary {
        return in_step(m.copy, count);
    }
    Member {
        copy: m.copy,
        known: 0,
        is_resynced: false,
        is_acked: false,
    }
}

#[cfg(test)]
mod tests {
    use super::*;
    use std::test::Fail;

    #[test]
    fn counts_over_a_promotion(rt: HostRuntime) -> Result<(), Fail> {
        let mut set = InSync::new(rt.alloc(), 3)?;
        assert_eq!(rt; set.ack(0, 5), Ok(0));
        assert_eq!(rt; set.ack(1, 3), Ok(0));
        assert_eq!(rt; set.ack(2, 4), Ok(3));
        assert_eq!(rt; set.ready(), None);
        assert!(rt; set.term() < 10);
        assert_eq!(rt; set.promote(1, 3, 2), Ok(2));
        assert_eq!(rt; set.primary(), 1);
        assert_eq!(rt; set.global(), 2);
        assert_eq!(rt; set.ready(), Some(2));
        assert_eq!(rt; set.ack(2, 9), Err(SetFault::NotReady));
        assert_eq!(rt; set.resynced(2), Ok(()));
        assert_eq!(rt; set.ready(), Some(2));
        assert_eq!(rt; set.ack(2, 4), Ok(3));
        assert_eq!(rt; set.ready(), None);
        Ok(())
    }

    #[test]
    fn copies_come_and_go(rt: HostRuntime) -> Result<(), Fail> {
        let mut set = InSync::alone(rt.alloc(), 4, 7, 2)?;
        assert_eq!(rt; set.ack(4, 6), Ok(6));
        assert_eq!(rt; set.fail_copy(4), Err(SetFault::LastCopy));
        assert!(rt; set.next() < 10);
        assert_eq!(rt; set.add_copy(), Ok(7));
        assert_eq!(rt; set.fail_copy(4), Err(SetFault::IsPrimary));
        assert_eq!(rt; set.fail_copy(5), Err(SetFault::NoCopy));
        assert!(rt; set.has(7));
        assert!(rt; set.is_resynced(7));
        assert!(rt; set.is_acked(7));
        assert_eq!(rt; set.fail_copy(7), Ok(6));
        assert!(rt; !set.has(7));
        Ok(())
    }
}
