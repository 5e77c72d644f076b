ghost use Rattle.std.specs.Prelude.{◌≡◌, ◌↔◌, ◌+◌, ◌^◌, ◌<◌, ◌≤◌, [], length, IfOk, OnOk, OnErr, IfSome, IsNone, IsOkUnless, MatchOption, MatchResult, Any, All, option_copied, if◌then◌else◌};
ghost use Rattle.std.specs.Option.{ok_or};
ghost use Rattle.ccr_lease.specs.Leases.{Ascend, IsPlace, IsGap, lease_of, place_of, with_lease, renewed, without, expired, after_expiry, supersedes};
ghost use Rattle.ccr_lease.specs.Faults.{renewal};

use crate::{Expired, Lease};
use ccr_op::{Count, LeaseId, Millis, Term};
use std::alloc::{AllocError, Global};
use std::marker::Model;
use thiserror::Error;

/// Why a call on a collection of leases was refused.
#[derive(Debug, Drop, Error)]
pub enum LeaseFault {
    /// A lease of that id stands, with this retaining number.
    #[error("the lease exists, with number {number}")]
    Exists { number: Count },
    /// There is no lease of that id.
    #[error("there is no such lease")]
    NotFound,
    /// The number of a renewal is below the one that the lease has.
    #[error("the number is below the kept {kept}")]
    LowNumber { kept: Count },
    /// Memory ran out.
    #[error("out of memory")]
    Memory,
}

/// The retention leases of a copy of a shard, at most one of each id, in ascending order of the bytes
/// of their ids. With them stand the term of the primary that rules them, and a version that every
/// change raises by 1: of two collections the one of the greater term, or at equal terms of the
/// greater version, supersedes the other.
///
/// A call that looks for an id compares about log2 of the number of leases; an add and a removal move
/// the leases that follow besides.
#[derive(Debug, Drop)]
pub struct Leases {
    alloc: Global,
    term: Term,
    version: u64,
    list: Vec<Lease>,
}

impl Model for Leases {
    ghost use Rattle.ccr_lease.specs.Leases.{Collection, Ascend};

    ghost Value = { Collection };

    ghost view = { λ a. record { term = a.term; version = a.version; leases = a.list.items } };

    ghost invariant = { λ a. Ascend a.list.items };
}

impl Leases {
    /// No leases, at version 0 of this term.
    pub fn new(alloc: Global, term: Term) -> Leases
        ensures { result ≡ record { term = term; version = 0; leases = [] } }
    {
        Leases {
            alloc,
            term,
            version: 0,
            list: Vec::new(alloc),
        }
    }

    /// The term of the primary that rules these leases.
    pub fn term(&self) -> Term
        ensures { result ≡ self.now.term }
    {
        self.term
    }

    /// How many changes came before.
    pub fn version(&self) -> u64
        ensures { result ≡ self.now.version }
    {
        self.version
    }

    /// The leases, in ascending order of the bytes of their ids.
    pub fn as_slice(&self) -> &[Lease]
        ensures value { result.now ≡ self.now.leases }
        ensures order { Ascend self.now.leases }
    {
        self.list.as_slice()
    }

    /// The lease of this id.
    #[tactic(auto, using(crate::proofs::Ordered::found_at))]
    pub fn get(&self, id: &LeaseId) -> Option<&Lease>
        ensures { option_copied result ≡ lease_of id.now self.now.leases }
    {
        match search(self.list.as_slice(), id) {
            Ok(place) => Some(&self.list[place]),
            Err(_) => None,
        }
    }

    /// The least retaining number: `None` where there are no leases. It reads every lease.
    pub fn least(&self) -> Option<Count>
        ensures none { IsNone result ↔ (self.now.leases ≡ []) }
        ensures kept { IfSome result (λ number. Any (λ lease. lease.number ≡ number) self.now.leases) }
        ensures least { IfSome result (λ number. All (λ lease. number ≤ lease.number) self.now.leases) }
    {
        self.list.iter().map(|lease| lease.number).min()
    }

    /// Whether this collection supersedes the other: its term is greater, or the terms are equal and its
    /// version is greater.
    pub fn supersedes(&self, other: &Leases) -> bool
        ensures { result ≡ supersedes self.now other.now }
    {
        self.term > other.term || (self.term == other.term && self.version > other.version)
    }

    /// Puts the leases under the rule of the primary of this term. The version stays.
    pub fn begin_term(&mut self, term: Term)
        ensures { self.new ≡ record self.old { term = term } }
    {
        self.term = term;
    }

    /// Adds a lease of this number, stamped `now`. Refused are `Exists`, exactly where a lease of that id
    /// stands, with its number, and `Memory`. A refused call changes nothing.
    #[tactic(auto, using(crate::proofs::Ordered::found_at))]
    pub fn add(&mut self, id: LeaseId, number: Count, now: Millis) -> Result<(), LeaseFault>
        requires { self.old.version + 1 < 2 ^ 64 }
        ensures answer { MatchOption (lease_of id self.old.leases) (IsOkUnless result LeaseFault.Memory) (λ kept. result ≡ Err (LeaseFault.Exists kept.number)) }
        ensures ok { OnOk result (self.new ≡ record self.old { version = self.old.version + 1; leases = with_lease (record { id = id; number = number; stamp = now }) self.old.leases }) }
        ensures err { OnErr result (self.new ≡ self.old) }
    {
        let place = match search(self.list.as_slice(), &id) {
            Ok(place) => {
                return Err(LeaseFault::Exists {
                    number: self.list[place].number,
                });
            }
            Err(place) => place,
        };
        let lease = Lease {
            id,
            number,
            stamp: now,
        };
        if self.list.insert(place, lease).is_err() {
            return Err(LeaseFault::Memory);
        }
        self.version += 1;
        Ok(())
    }

    /// Renews a lease: it takes this number and the stamp `now`. Refused are `NotFound`, exactly where no
    /// lease of that id stands, and `LowNumber`, exactly where its number is greater, with that number.
    /// A refused call changes nothing. It takes no memory.
    #[tactic(auto, using(crate::proofs::Ordered::found_at))]
    pub fn renew(&mut self, id: &LeaseId, number: Count, now: Millis) -> Result<(), LeaseFault>
        requires { self.old.version + 1 < 2 ^ 64 }
        ensures answer { result ≡ renewal number (lease_of id.now self.old.leases) }
        ensures ok { OnOk result (self.new ≡ record self.old { version = self.old.version + 1; leases = renewed id.now number now self.old.leases }) }
        ensures err { OnErr result (self.new ≡ self.old) }
    {
        let Ok(place) = search(self.list.as_slice(), id) else {
            return Err(LeaseFault::NotFound);
        };
        let kept = self.list[place].number;
        if number < kept {
            return Err(LeaseFault::LowNumber { kept });
        }
        let lease = &mut self.list[place];
        lease.number = number;
        lease.stamp = now;
        self.version += 1;
        Ok(())
    }

    /// Takes a lease out, and answers it. Refused is `NotFound`, exactly where no lease of that id stands;
    /// then nothing changes. It takes no memory.
    #[tactic(auto, using(crate::proofs::Ordered::found_at))]
    pub fn remove(&mut self, id: &LeaseId) -> Result<Lease, LeaseFault>
        requires { self.old.version + 1 < 2 ^ 64 }
        ensures answer { result ≡ ok_or (lease_of id.now self.old.leases) LeaseFault.NotFound }
        ensures ok { OnOk result (self.new ≡ record self.old { version = self.old.version + 1; leases = without id.now self.old.leases }) }
        ensures err { OnErr result (self.new ≡ self.old) }
    {
        let Ok(place) = search(self.list.as_slice(), id) else {
            return Err(LeaseFault::NotFound);
        };
        self.version += 1;
        Ok(self.list.remove(place))
    }

    /// Takes out the leases that have expired at `now`, in milliseconds as the period is, and answers each
    /// with its stamp, in order of the ids. A call that drops any raises the version by 1, however many
    /// they are, and one that drops none changes nothing, as does one that runs out of memory.
    /// It reads every lease.
    #[tactic(auto, using(crate::proofs::Ordered::expired_none))]
    pub fn expire(&mut self, now: Millis, period: Millis) -> Result<Vec<Expired>, AllocError>
        requires { self.old.version + 1 < 2 ^ 64 }
        ensures told { IfOk result (λ list. list.items ≡ expired now period self.old.leases) }
        ensures ok { OnOk result (self.new ≡ after_expiry now period self.old) }
        ensures err { OnErr result (self.new ≡ self.old) }
    {
        let list = self.expired_at(now, period)?;
        if list.is_empty() {
            return Ok(list);
        }
        self.list.retain(|lease| !lease.has_expired(now, period));
        self.version += 1;
        Ok(list)
    }

    /// Makes this collection equal to the other where that one supersedes it, and says whether it did.
    /// Otherwise, and where memory runs out, nothing changes. It copies every lease.
    pub fn take_over(&mut self, from: &Leases) -> Result<bool, AllocError>
        ensures answer { IfOk result (λ taken. taken ≡ supersedes from.now self.old) }
        ensures taken { IfOk result (λ taken. self.new ≡ (if taken then from.now else self.old)) }
        ensures err { OnErr result (self.new ≡ self.old) }
    {
        if !from.supersedes(self) {
            return Ok(false);
        }
        *self = from.copy(self.alloc)?;
        Ok(true)
    }

    /// An equal collection.
    pub fn copy(&self, alloc: Global) -> Result<Leases, AllocError>
        ensures { IfOk result (λ other. other ≡ self.now) }
    {
        let mut list = Vec::with_capacity(alloc, self.list.len())?;
        for lease in &self.list {
            list.push(lease.copy(alloc)?)?;
        }
        Ok(Leases {
            alloc,
            term: self.term,
            version: self.version,
            list,
        })
    }

    // What is to be told of the leases that have expired.
    fn expired_at(&self, now: Millis, period: Millis) -> Result<Vec<Expired>, AllocError>
        ensures { IfOk result (λ list. list.items ≡ expired now period self.now.leases) }
    {
        let mut list = Vec::new(self.alloc);
        for lease in &self.list {
            if lease.has_expired(now, period) {
                let id = lease.id.copy(self.alloc)?;
                list.push(Expired {
                    id,
                    stamp: lease.stamp,
                    now,
                })?;
            }
        }
        Ok(list)
    }
}

// The place of the lease of this id, or where it would stand.
fn search(leases: &[Lease], id: &LeaseId) -> Result<usize, usize>
    requires { Ascend leases.now }
    ensures { MatchResult result (λ place. IsPlace id.now place leases.now) (λ place. IsGap id.now place leases.now) }
{
    let place = place_of(leases, id);
    if place >= leases.len() {
        return Err(place);
    }
    if leases[place].id != *id {
        return Err(place);
    }
    Ok(place)
}

// How many leases have a smaller id.
fn place_of(leases: &[Lease], id: &LeaseId) -> usize
    requires { Ascend leases.now }
    ensures place { result ≡ place_of id.now leases.now }
    ensures bound { result ≤ length leases.now }
{
    leases.partition_point(|lease| lease.id < *id)
}
