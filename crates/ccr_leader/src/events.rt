ghost use Rattle.std.specs.Prelude.{◌≡◌, ◌+◌, IfOk, IfErr, OnOk};
ghost use Rattle.ccr_journal.specs.declared.replies.Reply.TheVariants as replies;
ghost use Rattle.ccr_model.specs.Outcomes.{answered, refused};
ghost use Rattle.ccr_model.specs.LeaderRows.{leader_ack, leader_add_copy, leader_clock, leader_close_sessions, leader_expire, leader_fail_copy, leader_flush, leader_force_promote, leader_merge, leader_promote, leader_replicate, leader_resync, leader_sync};
ghost use Rattle.ccr_model.specs.Leaders.{history_of_term};
ghost use Rattle.ccr_leader.specs.Faults.{IsRefusal, refusal_of};
ghost use Rattle.ccr_leader.specs.declared.leader_fault.LeaderFault.TheVariants as LeaderFault;

use crate::leader::noted;
use crate::{Leader, LeaderFault};
use ccr_changes::Polls;
use ccr_journal::ExpiredLeases;
use ccr_op::{Count, Millis, Term};
use ccr_policy::Picks;
use ccr_wire::Messages;
use uuid::Uuid;

impl Leader {
    /// A replica takes the primary's operation of a number, unless it has processed it, and learns the global count.
    /// Refused are `NoCopy`, `IsPrimary`, `NotReady` and `NoOperation`. The cost is a logarithm.
    pub fn replicate(&mut self, copy: u64, seq: u64) -> Result<(), LeaderFault>
        ensures ok { OnOk result (leader_replicate self.old copy seq ≡ answered replies.Done self.new) }
        ensures err { IfErr result (λ fault. IsRefusal fault → leader_replicate self.old copy seq ≡ refused self.new (refusal_of fault)) }
    {
        self.is_whole()?;
        match self.copies.replicate(copy, seq) {
            Ok(()) => Ok(()),
            Err(fault) => Err(noted(&mut self.broken, fault)),
        }
    }

    /// The primary learns a replica's count. Answers the global count after that. Refused are `NoCopy`, `IsPrimary` and
    /// `NotReady`.
    pub fn ack(&mut self, copy: u64) -> Result<Count, LeaderFault>
        ensures ok { IfOk result (λ told. leader_ack self.old copy ≡ answered (replies.Acked told) self.new) }
        ensures err { IfErr result (λ fault. IsRefusal fault → leader_ack self.old copy ≡ refused self.new (refusal_of fault)) }
    {
        self.is_whole()?;
        match self.copies.ack(copy) {
            Ok(told) => Ok(told),
            Err(fault) => Err(noted(&mut self.broken, fault)),
        }
    }

    /// A replica learns the global count, and takes the primary's leases where these supersede its own. Answers the
    /// requests for leases that each copy then has. Refused are `NoCopy`, `IsPrimary` and `NotReady`. It looks at each
    /// lease that a request waits for, and where each copy has one of them at each request that waits.
    pub fn sync_copy(&mut self, copy: u64) -> Result<Messages, LeaderFault>
        ensures ok { IfOk result (λ told. leader_sync self.old copy ≡ record { reply = replies.Done; next = self.new; sent = told }) }
        ensures err { IfErr result (λ fault. IsRefusal fault → leader_sync self.old copy ≡ refused self.new (refusal_of fault)) }
    {
        self.is_whole()?;
        match self.copies.sync_copy(copy) {
            Ok(()) => {}
            Err(fault) => return Err(noted(&mut self.broken, fault)),
        }
        self.broken = true;
        let mut sent = Messages::none(self.alloc);
        self.kept.answer_due(&self.copies, &mut sent)?;
        self.broken = false;
        Ok(sent)
    }

    /// A replica becomes the primary of the next term: no-ops fill its gaps, and it knows nothing of the others, which
    /// have to be resynced. The former primary goes, with the sessions, the requests for leases that wait, and the reads
    /// that wait at it. Answers the term and how many numbers were filled. Refused are `NoCopy` and `IsPrimary`.
    pub fn promote(&mut self, copy: u64) -> Result<(Term, u64), LeaderFault>
        ensures ok { IfOk result (λ told. leader_promote self.old copy ≡ answered (replies.Promoted told.0 told.1) self.new) }
        ensures err { IfErr result (λ fault. IsRefusal fault → leader_promote self.old copy ≡ refused self.new (refusal_of fault)) }
    {
        self.is_whole()?;
        let lost = self.copies.primary().number();
        match self.copies.promote_leader(copy) {
            Ok(told) => {
                self.sessions.end_all();
                self.kept.clear();
                self.polls.drop_copy(lost);
                Ok(told)
            }
            Err(fault) => Err(noted(&mut self.broken, fault)),
        }
    }
}

impl Leader {
    /// A copy that left and is kept as it was becomes the only one, in the next term: no-ops fill its gaps, and all that
    /// it has is committed. A new history begins, and all other copies go, with the leases, the sessions and all that
    /// waits. Writes that it lacks are lost. Answers the term and how many numbers were filled. Refused is `NoStale`.
    pub fn force_promote(&mut self, copy: u64) -> Result<(Term, u64), LeaderFault>
        ensures ok { IfOk result (λ told. leader_force_promote self.old copy ≡ answered (replies.Forced told.0 told.1) self.new) }
        ensures err { IfErr result (λ fault. IsRefusal fault → leader_force_promote self.old copy ≡ refused self.new (refusal_of fault)) }
    {
        self.is_whole()?;
        let history = self.next_history();
        let Some(stale) = self.stale.take(copy) else {
            return Err(LeaderFault::NoStale { copy });
        };
        self.broken = true;
        let told = self.copies.force_promote(stale)?;
        self.history = history;
        self.stale.clear();
        self.sessions.end_all();
        self.kept.clear();
        self.polls = Polls::new(self.alloc);
        self.broken = false;
        Ok(told)
    }

    /// A replica that was not resynced in this term comes to the primary's state. Answers how many operations went and
    /// came: none and none where it was resynced already. Refused are `NoCopy` and `IsPrimary`.
    pub fn resync(&mut self, copy: u64) -> Result<(u64, u64), LeaderFault>
        ensures ok { IfOk result (λ told. leader_resync self.old copy ≡ answered (replies.Resynced told.0 told.1) self.new) }
        ensures err { IfErr result (λ fault. IsRefusal fault → leader_resync self.old copy ≡ refused self.new (refusal_of fault)) }
    {
        self.is_whole()?;
        match self.copies.resync(copy) {
            Ok(told) => Ok(told),
            Err(fault) => Err(noted(&mut self.broken, fault)),
        }
    }

    /// A replica leaves, and is kept as it was; of nine such the one of least number is forgotten. The reads that wait
    /// there go. Answers the requests for leases that each other copy has. Refused are `NoCopy`, `LastCopy` and
    /// `IsPrimary`. It looks at each read that waits, and at requests as
    /// `sync_copy` does.
    pub fn fail_copy(&mut self, copy: u64) -> Result<Messages, LeaderFault>
        ensures ok { IfOk result (λ told. leader_fail_copy self.old copy ≡ record { reply = replies.Done; next = self.new; sent = told }) }
        ensures err { IfErr result (λ fault. IsRefusal fault → leader_fail_copy self.old copy ≡ refused self.new (refusal_of fault)) }
    {
        self.is_whole()?;
        let left = match self.copies.fail_copy(copy) {
            Ok(left) => left,
            Err(fault) => return Err(noted(&mut self.broken, fault)),
        };
        self.broken = true;
        self.polls.drop_copy(left.number());
        self.stale.keep(left)?;
        let mut sent = Messages::none(self.alloc);
        self.kept.answer_due(&self.copies, &mut sent)?;
        self.broken = false;
        Ok(sent)
    }

    /// A new copy takes all that the primary has. Answers its number. Refused is `TooMany`, where there are eight copies.
    /// The cost goes with all that the primary holds.
    pub fn add_copy(&mut self) -> Result<u32, LeaderFault>
        ensures ok { IfOk result (λ told. leader_add_copy self.old ≡ answered (replies.Added told) self.new) }
        ensures err { IfErr result (λ fault. IsRefusal fault → leader_add_copy self.old ≡ refused self.new (refusal_of fault)) }
    {
        self.is_whole()?;
        match self.copies.add_copy() {
            Ok(told) => Ok(told),
            Err(fault) => Err(noted(&mut self.broken, fault)),
        }
    }

    /// The copy closes its open part, and its commit count becomes the global count that it knows, which is answered.
    /// Refused is `NoCopy`.
    pub fn flush(&mut self, copy: u64) -> Result<Count, LeaderFault>
        ensures ok { IfOk result (λ told. leader_flush self.old copy ≡ answered (replies.Flushed told) self.new) }
        ensures err { IfErr result (λ fault. IsRefusal fault → leader_flush self.old copy ≡ refused self.new (refusal_of fault)) }
    {
        self.is_whole()?;
        match self.copies.flush(copy) {
            Ok(told) => Ok(told),
            Err(fault) => Err(noted(&mut self.broken, fault)),
        }
    }

    /// Raises the copy's floor, drops what is droppable in the picked parts, and joins the rest of them. Answers the
    /// floor and how many operations were dropped. Refused is `NoCopy`.
    pub fn merge(&mut self, copy: u64, picks: &Picks) -> Result<(Count, u64), LeaderFault>
        ensures ok { IfOk result (λ told. leader_merge self.old copy picks.now ≡ answered (replies.Merged told.0 told.1 picks.now) self.new) }
        ensures err { IfErr result (λ fault. IsRefusal fault → leader_merge self.old copy picks.now ≡ refused self.new (refusal_of fault)) }
    {
        self.is_whole()?;
        let retention = self.history_retention();
        match self.copies.merge(copy, retention, picks) {
            Ok(told) => Ok(told),
            Err(fault) => Err(noted(&mut self.broken, fault)),
        }
    }
}

impl Leader {
    /// The clock reads so, in milliseconds.
    pub fn clock(&mut self, now: Millis)
        ensures { leader_clock self.old now ≡ answered replies.Done self.new }
    {
        self.now = now;
    }

    /// The primary drops the leases that have expired, and they are told in order of their ids.
    pub fn expire(&mut self) -> Result<ExpiredLeases, LeaderFault>
        ensures ok { IfOk result (λ list. leader_expire self.old ≡ answered (replies.Expired list) self.new) }
        ensures err { IfErr result (λ fault. fault ≡ LeaderFault.Memory) }
    {
        self.is_whole()?;
        let period = self.lease_period();
        let list = self.copies.expire_leases(self.now, period)?;
        Ok(ExpiredLeases::new(list))
    }

    /// Closes the sessions that were idle for more than 60,000 milliseconds, and answers how many these were.
    pub fn close_sessions(&mut self) -> u64
        ensures { leader_close_sessions self.old ≡ answered (replies.Closed result) self.new }
    {
        self.sessions.expire(self.now)
    }
}

impl Leader {
    /// How long a lease lasts that is not renewed.
    fn lease_period(&self) -> Millis
        ensures { result ≡ self.entry.now.start.period }
    {
        self.start.period
    }

    /// How many operations are kept beyond the global count.
    fn history_retention(&self) -> u64
        ensures { result ≡ self.entry.now.start.retention }
    {
        self.start.retention
    }

    /// The UUID of the history that begins after this term.
    fn next_history(&self) -> Uuid
        ensures { result ≡ history_of_term self.entry.now.start.history (self.entry.now.copies.term + 1) }
    {
        history_after(&self.start.history, self.copies.term())
    }
}

/// The UUID of the history that begins after this term, where the first one begins with term 1: each is one more
/// than the one before it, as a number of 128 bits, and after the last comes 0.
fn history_after(first: &Uuid, term: Term) -> Uuid
    ensures { result ≡ history_of_term first.now (term + 1) }
{
    let first = u128::from_be_bytes(*first.as_bytes());
    Uuid::from_bytes(first.wrapping_add(u128::from(term)).to_be_bytes())
}
