ghost use Rattle.std.specs.Prelude.{◌≡◌, ◌∷◌, ◌++◌, ◌==◌, ℕ, List, [], false, true, not, length, filter, slice_get, remove, option_copied, if◌then◌else◌, Some, IfOk, IfNone, IfSome, OnOk, OnErr, MatchOption};
ghost use Rattle.std.specs.List.{list_any};
ghost use Rattle.std.specs.Ordering.{nat_cmp};
ghost use Rattle.std.specs.Str.{bytes_eq};
ghost use Rattle.std.specs.BTreeMap.{insert_entry, is_at};
ghost use Rattle.ccr_model.specs.Leaders.{polls_of, without_poll};
ghost use Rattle.ccr_changes.specs.Waits.{IsLeastAt, waits_at, waits_for};
ghost use Rattle.ccr_changes.specs.Indexes.{ages_in, copy_cmp, request_cmp, has_copy, has_request, AreRising, IsLeastKey, IsAnyRequest};

use crate::Poll;
use ccr_op::Count;
use std::alloc::{AllocError, Global};
use std::collections::{BTreeMap, BTreeSet, VecDeque};
use std::marker::Model;
use uuid::Uuid;

/// Which poll at a copy asks for the least number.
#[derive(Debug, Drop)]
pub struct Least {
    /// The follower that asks.
    pub follower: Uuid,
    /// The poll's place among the follower's polls, from the oldest on.
    pub at: usize,
    /// The number that it asks for.
    pub from: Count,
}

/// For each follower the ages of its polls, the oldest first.
type Ages = BTreeMap<Uuid, VecDeque<u64>>;

/// Copy, number asked for and age of each poll.
type Copies = BTreeSet<(u32, u64, u64)>;

/// Follower, request and age of each poll.
type Requests = BTreeSet<(Uuid, u64, u64)>;

/// The reads that wait, the oldest first. Each is kept under its age, which counts those that were parked before it.
#[derive(Debug, Drop)]
pub struct Polls {
    alloc: Global,
    by_age: BTreeMap<u64, Poll>,
    /// The age of the poll that is parked next.
    next: u64,
    ages: Ages,
    copies: Copies,
    requests: Requests,
}

impl Model for Polls {
    ghost use Rattle.std.specs.Prelude.{List};
    ghost use Rattle.std.specs.Map.{values_of};
    ghost use Rattle.ccr_model.specs.Leaders.{Poll as Waiting};
    ghost use Rattle.ccr_changes.specs.Indexes.{IsIndexed};

    ghost Value = { List Waiting };

    ghost view = { λ a. values_of a.by_age.entries };

    ghost invariant = { λ a. IsIndexed a.by_age.entries a.next a.ages.entries a.copies.keys a.requests.keys };
}

impl Polls {
    /// No poll.
    pub fn new(alloc: Global) -> Polls
        ensures { result ≡ [] }
    {
        Polls {
            alloc,
            by_age: BTreeMap::new(alloc),
            next: 0,
            ages: BTreeMap::new(alloc),
            copies: BTreeSet::new(alloc),
            requests: BTreeSet::new(alloc),
        }
    }

    /// How many polls wait.
    pub fn len(&self) -> usize
        ensures { result ≡ length self.now }
    {
        self.by_age.len()
    }

    /// Whether none waits.
    pub fn is_empty(&self) -> bool
        ensures { result ≡ (length self.now == 0) }
    {
        self.by_age.len() == 0
    }

    /// Parks a poll, as the youngest one. After want of memory the polls are as before; that no age is left counts as
    /// such. The cost is a logarithm.
    pub fn park(&mut self, poll: Poll) -> Result<(), AllocError>
        ensures ok { OnOk result (self.new ≡ self.old ++ poll ∷ []) }
        ensures err { OnErr result (self.new ≡ self.old) }
    {
        let age = self.next;
        let Some(next) = age.checked_add(1) else {
            return Err(AllocError);
        };
        let follower = poll.follower;
        let place = push_age(self.alloc, &mut self.ages, &follower, age)?;
        let parked = insert(
            &mut self.by_age,
            &mut self.copies,
            &mut self.requests,
            age,
            poll,
        );
        if parked.is_err() {
            remove_age(&mut self.ages, &follower, place);
            return Err(AllocError);
        }
        self.next = next;
        Ok(())
    }

    /// The poll at a place among a follower's, from the oldest on, or `None` past the last one. The cost is a
    /// logarithm.
    pub fn get(&self, follower: &Uuid, at: usize) -> Option<&Poll>
        ensures { option_copied result ≡ slice_get (polls_of self.now follower.now) at }
    {
        let age = age_at(&self.ages, follower, at)?;
        self.by_age.get(&age)
    }

    /// Takes the poll at a place among a follower's, from the oldest on, or `None` past the last one. The cost is a
    /// logarithm, and a move of the ages on the shorter side of the follower's.
    pub fn take(&mut self, follower: &Uuid, at: usize) -> Option<Poll>
        ensures taken { result ≡ slice_get (polls_of self.old follower.now) at }
        ensures after { self.new ≡ without_poll follower.now at self.old }
    {
        let age = age_at(&self.ages, follower, at)?;
        let poll = self.by_age.remove(&age)?;
        remove_age(&mut self.ages, follower, at);
        let _ = self.copies.remove(&(poll.copy, poll.from, age));
        let _ = self.requests.remove(&(poll.follower, poll.request, age));
        Some(poll)
    }

    /// Lets the polls at a copy go. The cost of each that goes is that of `take`.
    pub fn drop_copy(&mut self, copy: u32)
        ensures { self.new ≡ filter (λ p. not (p.copy == copy)) self.old }
    {
        while let Some(least) = self.least_from(copy) {
            let _ = self.take(&least.follower, least.at);
        }
    }

    /// The poll at a copy that asks for the least number, or `None` exactly where none waits there. Of several
    /// it may be any. The cost is a logarithm.
    pub fn least_from(&self, copy: u32) -> Option<Least>
        ensures { MatchOption result (list_any (waits_at copy) self.now ≡ false) (IsLeastAt copy self.now) }
    {
        let (from, age) = least_in(&self.copies, copy)?;
        let poll = self.by_age.get(&age)?;
        let at = place_of(&self.ages, &poll.follower, age)?;
        Some(Least {
            follower: poll.follower,
            at,
            from,
        })
    }

    /// Whether a poll waits for the answer to a request of a follower. The cost is a logarithm.
    pub fn has(&self, follower: &Uuid, request: u64) -> bool
        ensures { result ≡ list_any (waits_for follower.now request) self.now }
    {
        is_requested(&self.requests, follower, request)
    }
}

/// Lists an age as a follower's youngest, and gives its place. After want of memory the ages are as before.
fn push_age(alloc: Global, ages: &mut Ages, follower: &Uuid, age: u64) -> Result<usize, AllocError>
    ensures place { IfOk result (λ place. place ≡ length (ages_in ages.old.entries follower.now)) }
    ensures ok { OnOk result ((f : List ℕ) → ages_in ages.new.entries f ≡ (if bytes_eq follower.now f then ages_in ages.old.entries f ++ age ∷ [] else ages_in ages.old.entries f)) }
    ensures err { OnErr result ((f : List ℕ) → ages_in ages.new.entries f ≡ ages_in ages.old.entries f) }
{
    if let Some(listed) = ages.get_mut(follower) {
        let place = listed.len();
        listed.push_back(age)?;
        return Ok(place);
    }
    let mut listed = VecDeque::new(alloc);
    listed.push_back(age)?;
    ages.insert(*follower, listed)?;
    Ok(0)
}

/// The age at a place among a follower's.
fn age_at(ages: &Ages, follower: &Uuid, at: usize) -> Option<u64>
    ensures { result ≡ slice_get (ages_in ages.now.entries follower.now) at }
{
    let listed = ages.get(follower)?;
    listed.get(at).copied()
}

/// Takes the age at a place off a follower's list.
fn remove_age(ages: &mut Ages, follower: &Uuid, at: usize)
    ensures { (f : List ℕ) → ages_in ages.new.entries f ≡ (if bytes_eq follower.now f then remove (ages_in ages.old.entries f) at else ages_in ages.old.entries f) }
{
    if unlist(ages, follower, at) {
        let _ = ages.remove(follower);
    }
}

/// Takes the age at a place off a follower's list, and says whether that leaves an empty list.
fn unlist(ages: &mut Ages, follower: &Uuid, at: usize) -> bool
    ensures value { (f : List ℕ) → ages_in ages.new.entries f ≡ (if bytes_eq follower.now f then remove (ages_in ages.old.entries f) at else ages_in ages.old.entries f) }
    ensures emptied { result ≡ true → ages_in ages.new.entries follower.now ≡ [] }
{
    match ages.get_mut(follower) {
        Some(listed) => {
            let _ = listed.remove(at);
            listed.len() == 0
        }
        None => false,
    }
}

/// The place of an age among a follower's. The cost is a logarithm.
fn place_of(ages: &Ages, follower: &Uuid, age: u64) -> Option<usize>
    requires { AreRising 0 (ages_in ages.now.entries follower.now) }
    ensures none { IfNone result ((at : ℕ) → slice_get (ages_in ages.now.entries follower.now) at ≡ Some age → ⊥) }
    ensures some { IfSome result (λ at. slice_get (ages_in ages.now.entries follower.now) at ≡ Some age) }
{
    let listed = ages.get(follower)?;
    listed.binary_search(&age).ok()
}

/// The least number that a poll at a copy asks for, and the age of such a poll.
fn least_in(copies: &Copies, copy: u32) -> Option<(Count, u64)>
    ensures { IsLeastKey copies.now.keys copy result }
{
    let (at, from, age) = copies.range((copy, 0, 0)..).next()?;
    if *at != copy {
        return None;
    }
    Some((*from, *age))
}

/// Whether there is a poll of a follower's request.
fn is_requested(requests: &Requests, follower: &Uuid, request: u64) -> bool
    ensures { IsAnyRequest requests.now.keys follower.now request result }
{
    match requests.range((*follower, request, 0)..).next() {
        Some((other, number, _)) => is_same(other, follower) && *number == request,
        None => false,
    }
}

/// Whether two identifiers are the same.
fn is_same(a: &Uuid, b: &Uuid) -> bool
    ensures { result ≡ bytes_eq a.now b.now }
{
    a.as_bytes().as_slice() == b.as_bytes().as_slice()
}

/// Keeps a poll under its age, and lists it in both sets. After want of memory all three are as before.
fn insert(
    by_age: &mut BTreeMap<u64, Poll>,
    copies: &mut Copies,
    requests: &mut Requests,
    age: u64,
    poll: Poll,
) -> Result<(), AllocError>
    requires copies { has_copy copies.old.keys (poll.copy, poll.from, age) ≡ false }
    requires requests { has_request requests.old.keys (poll.follower, poll.request, age) ≡ false }
    ensures polls { OnOk result (by_age.new.entries ≡ insert_entry nat_cmp by_age.old.entries age poll) }
    ensures copies { OnOk result ((key : ℕ × ℕ × ℕ) → has_copy copies.new.keys key ≡ (if is_at (copy_cmp (poll.copy, poll.from, age)) key then true else has_copy copies.old.keys key)) }
    ensures requests { OnOk result ((key : List ℕ × ℕ × ℕ) → has_request requests.new.keys key ≡ (if is_at (request_cmp (poll.follower, poll.request, age)) key then true else has_request requests.old.keys key)) }
    ensures err_polls { OnErr result (by_age.new.entries ≡ by_age.old.entries) }
    ensures err_copies { OnErr result (copies.new.keys ≡ copies.old.keys) }
    ensures err_requests { OnErr result (requests.new.keys ≡ requests.old.keys) }
{
    let at_copy = (poll.copy, poll.from, age);
    copies.insert(at_copy)?;
    let inserted = insert_requested(by_age, requests, age, poll);
    if inserted.is_err() {
        let _ = copies.remove(&at_copy);
    }
    inserted
}

/// Keeps a poll under its age, and lists its request. After want of memory both are as before.
fn insert_requested(
    by_age: &mut BTreeMap<u64, Poll>,
    requests: &mut Requests,
    age: u64,
    poll: Poll,
) -> Result<(), AllocError>
    requires { has_request requests.old.keys (poll.follower, poll.request, age) ≡ false }
    ensures polls { OnOk result (by_age.new.entries ≡ insert_entry nat_cmp by_age.old.entries age poll) }
    ensures requests { OnOk result ((key : List ℕ × ℕ × ℕ) → has_request requests.new.keys key ≡ (if is_at (request_cmp (poll.follower, poll.request, age)) key then true else has_request requests.old.keys key)) }
    ensures err_polls { OnErr result (by_age.new.entries ≡ by_age.old.entries) }
    ensures err_requests { OnErr result (requests.new.keys ≡ requests.old.keys) }
{
    let follower = poll.follower;
    let request = poll.request;
    requests.insert((follower, request, age))?;
    if by_age.insert(age, poll).is_err() {
        let _ = requests.remove(&(follower, request, age));
        return Err(AllocError);
    }
    Ok(())
}
