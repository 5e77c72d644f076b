ghost use Rattle.std.specs.Prelude.{◌≡◌, ◌≤◌, ◌&&◌, ◌==◌, ◌↔◌, option_copied, IfOk, IfErr, IfSome, IsTrue, OnOk};
ghost use Rattle.ccr_tracker.specs.Numbers.{HasGap};
ghost use Rattle.ccr_model.specs.Copies.{statuses_of};
ghost use Rattle.ccr_copies.specs.Views.{member_of, shown};
ghost use Rattle.ccr_law_settling_grounds.specs.Parked.{AreKeptRightly};
ghost use Rattle.ccr_leader.specs.Faults.{is_memory, of_copies};
ghost use Rattle.ccr_leader.specs.declared.leader_fault.LeaderFault.TheVariants as LeaderFault;
ghost use Rattle.std.specs.List.{list_any};
ghost use Rattle.std.specs.Str.{bytes_eq};
ghost use Rattle.std.specs.Option.{option_map};
ghost use Rattle.ccr_model.specs.Copies.{copy_of, not_ready};
ghost use Rattle.ccr_model.specs.Leaders.{new_leader};

use crate::kept_requests::KeptRequests;
use crate::stale_copies::StaleCopies;
use crate::{LeaderFault, Start};
use ccr_changes::Polls;
use ccr_copies::{CopyFault, CopySet, CopySide, CopyView};
use ccr_journal::CopyStatuses;
use ccr_lease::Leases;
use ccr_op::{Millis, Term};
use ccr_session::Sessions;
use std::alloc::{AllocError, Global};
use std::marker::Model;
use uuid::Uuid;

/// The leader's side of a shard: its copies, those that left and are kept, its clock, and what followers wait for
/// there. A call that is refused changes nothing.
///
/// After want of memory nothing is said of a leader; no contract tells what its later calls answer.
#[derive(Drop)]
pub struct Leader {
    pub(crate) alloc: Global,
    pub(crate) start: Start,
    pub(crate) history: Uuid,
    pub(crate) copies: CopySet,
    pub(crate) stale: StaleCopies,
    pub(crate) now: Millis,
    pub(crate) sessions: Sessions,
    pub(crate) kept: KeptRequests,
    pub(crate) polls: Polls,
    pub(crate) broken: bool,
}

impl Model for Leader {
    ghost use Rattle.std.specs.Prelude.{◌≡◌, false};
    ghost use Rattle.ccr_model.specs.Leaders.{Leader as Modelled};

    ghost Value = { Modelled };

    ghost use Rattle.ccr_law_settling_grounds.specs.Parked.{AreKeptRightly};

    ghost view = { λ a. record {
      start = a.start;
      history = a.history;
      copies = a.copies;
      stale = a.stale;
      now = a.now;
      next_session = a.sessions.next;
      sessions = a.sessions.sessions;
      kept = a.kept;
      polls = a.polls;
    } };

    ghost invariant = { λ a. a.broken ≡ false → AreKeptRightly a.copies a.kept };
}

impl Leader {
    /// A leader shard of this start, which has from 1 to 8 copies.
    pub fn new(alloc: Global, start: Start) -> Result<Leader, AllocError>
        requires some { 1 ≤ start.copies }
        requires few { start.copies ≤ 8 }
        ensures { IfOk result (λ leader. leader ≡ new_leader start) }
    {
        let copies = CopySet::new(alloc, start.copies)?;
        let history = start.history;
        Ok(Leader {
            alloc,
            start,
            history,
            copies,
            stale: StaleCopies::new(alloc),
            now: 0,
            sessions: Sessions::new(alloc),
            kept: KeptRequests::new(alloc),
            polls: Polls::new(alloc),
            broken: false,
        })
    }

    /// What it was made with.
    pub fn start(&self) -> &Start
        ensures { result.now ≡ self.entry.now.start }
    {
        &self.start
    }

    /// The UUID of its history: the first one until a promotion is forced.
    pub fn history(&self) -> &Uuid
        ensures { result.now ≡ self.entry.now.history }
    {
        &self.history
    }

    /// Its in-sync copies.
    pub fn copies(&self) -> &CopySet
        ensures { result.now ≡ self.entry.now.copies }
    {
        &self.copies
    }

    /// The in-sync copy of a number.
    pub fn copy_of(&self, copy: u64) -> Option<&CopySide>
        ensures { option_copied result ≡ copy_of self.entry.now.copies copy }
    {
        self.copies.copy_of(copy)
    }

    /// A look at the in-sync copy of a number, with what the primary knows of it.
    pub fn view_of(&self, copy: u64) -> Option<CopyView<'_>>
        ensures shown { option_map shown result ≡ member_of self.entry.now.copies copy }
        ensures count { IfSome result (λ view. view.count ≡ view.seen.now.count) }
        ensures gap { IfSome result (λ view. IsTrue view.gap ↔ HasGap view.seen.now) }
    {
        self.copies.view_of(copy)
    }

    /// How each copy stands, the primary first and the replicas in ascending number.
    pub fn statuses(&self) -> Result<CopyStatuses, AllocError>
        ensures { IfOk result (λ statuses. statuses ≡ statuses_of self.entry.now.copies) }
    {
        self.copies.statuses()
    }

    /// The primary's leases.
    pub fn leases(&self) -> &Leases
        ensures { result.now ≡ self.entry.now.copies.primary.leases }
    {
        self.copies.primary().leases()
    }

    /// The primary's number.
    pub fn primary(&self) -> u32
        ensures { result ≡ self.entry.now.copies.primary.number }
    {
        self.copies.primary().number()
    }

    /// The primary's term.
    pub fn term(&self) -> Term
        ensures { result ≡ self.entry.now.copies.term }
    {
        self.copies.term()
    }

    /// The number of the next copy.
    pub fn next_copy(&self) -> u32
        ensures { result ≡ self.entry.now.copies.next }
    {
        self.copies.next()
    }

    /// Its clock, in milliseconds.
    pub fn now(&self) -> Millis
        ensures { result ≡ self.entry.now.now }
    {
        self.now
    }

    /// The reads that wait.
    pub fn polls(&self) -> &Polls
        ensures { result.now ≡ self.entry.now.polls }
    {
        &self.polls
    }

    /// Whether a request for a lease of this number of a follower waits.
    pub fn keeps(&self, follower: &Uuid, request: u64) -> bool
        ensures { result ≡ list_any (λ k. bytes_eq k.follower follower.now && (k.request == request)) self.entry.now.kept }
    {
        self.kept.has(follower, request)
    }

    /// The least replica that was not resynced and then acked in this term.
    pub fn not_ready(&self) -> Option<u32>
        ensures { result ≡ not_ready self.entry.now.copies }
    {
        self.copies.not_ready()
    }

    /// That no call before this one ran out of memory.
    pub(crate) fn is_whole(&self) -> Result<(), LeaderFault>
        ensures ok { OnOk result (AreKeptRightly self.entry.now.copies self.entry.now.kept) }
        ensures err { IfErr result (λ fault. fault ≡ LeaderFault.Memory) }
    {
        if self.broken {
            return Err(LeaderFault::Memory);
        }
        Ok(())
    }
}

/// What the leader answers where its copies refuse a call. After want of memory it is broken.
pub(crate) fn noted(broken: &mut bool, fault: CopyFault) -> LeaderFault
    ensures fault { result ≡ of_copies fault }
    ensures broken { broken.new ≡ is_memory fault }
{
    *broken = matches!(fault, CopyFault::Memory);
    LeaderFault::from(fault)
}
