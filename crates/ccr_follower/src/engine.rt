ghost use Rattle.std.specs.Prelude.{◌≡◌, ◌≤◌, ◌<◌, ◌==◌, ◌↔◌, ℕ, true, [], length, count_by, Ok, IfOk, IfErr, IfSome, IsErrAnd, OnOk, IsTrue, MatchResult};
ghost use Rattle.std.specs.Option.{option_map};
ghost use Rattle.ccr_tracker.specs.Numbers.{HasGap};
ghost use Rattle.ccr_journal.specs.declared.replies.Reply.TheVariants as replies;
ghost use Rattle.ccr_model.specs.Operations.{has_number};
ghost use Rattle.ccr_model.specs.Stores.{held};
ghost use Rattle.ccr_model.specs.Outcomes.{answered, refused, within};
ghost use Rattle.ccr_model.specs.Copies.{copy_of, replica_of, statuses_of};
ghost use Rattle.ccr_model.specs.CopyRows.{ack_row, add_copy_row, fail_copy_row, flush_row, follower_promote_row, merge_row, replicate_row, sync_row};
ghost use Rattle.ccr_model.specs.Followers.{restored};
ghost use Rattle.ccr_model.specs.FollowerRows.{lacks};
ghost use Rattle.ccr_copies.specs.Views.{member_of, shown};
ghost use Rattle.ccr_follower.specs.Engine.{engine_apply_row, new_engine, with_copies};
ghost use Rattle.ccr_follower.specs.Faults.{IsRefusal, copy_fault, refusal_of};

use crate::FollowerFault;
use ccr_copies::{CopyFault, CopySet, CopySide, CopyView};
use ccr_journal::CopyStatuses;
use ccr_op::{Batch, Count, Term};
use ccr_policy::Picks;
use ccr_segment::Segment;
use std::alloc::{AllocError, Global};
use std::marker::Model;

/// A follower's engine: its copies, the epoch whose writes it takes, and how many operations beyond the global
/// count the leader keeps, which it keeps too. A follower replays the leader's operations and gives out no number
/// of its own (Elastic reference, cross-cluster replication).
///
/// A call names a copy by its number, and a number of 2^32 or more is that of no copy. A call that is refused
/// changes nothing. After want of memory the engine is broken: each later call that can answer it does.
#[derive(Drop)]
pub struct Follower {
    retention: u64,
    epoch: u64,
    copies: CopySet,
    broken: bool,
}

impl Model for Follower {
    ghost use Rattle.ccr_follower.specs.Engine.{Engine};

    ghost Value = { Engine };

    ghost view = { λ a. record { retention = a.retention; epoch = a.epoch; copies = a.copies } };
}

impl Follower {
    /// An engine of copies from 0 on, that many, in epoch 0, with the leader's retention. A shard has at least one
    /// copy.
    pub fn new(alloc: Global, copies: u32, retention: u64) -> Result<Follower, AllocError>
        ensures { IfOk result (λ engine. engine ≡ new_engine copies retention) }
    {
        let copies = CopySet::new(alloc, copies)?;
        Ok(Follower {
            retention,
            epoch: 0,
            copies,
            broken: false,
        })
    }

    /// The epoch that is kept: 0 during the bootstrap.
    pub fn epoch(&self) -> u64
        ensures { result ≡ self.now.epoch }
    {
        self.epoch
    }

    /// Its copies.
    pub fn copies(&self) -> &CopySet
        ensures { result.now ≡ self.now.copies }
    {
        &self.copies
    }

    /// The global count that the primary knows.
    pub fn global(&self) -> Count
        ensures { result ≡ self.now.copies.primary.global }
    {
        self.copies.primary().known_global()
    }

    /// The primary, as one who reads its changes sees it too.
    pub fn primary(&self) -> &CopySide
        ensures { result.now ≡ self.now.copies.primary }
    {
        self.copies.primary()
    }

    /// The primary's term.
    pub fn term(&self) -> Term
        ensures { result ≡ self.now.copies.term }
    {
        self.copies.term()
    }

    /// The number of the next copy.
    pub fn next_copy(&self) -> u32
        ensures { result ≡ self.now.copies.next }
    {
        self.copies.next()
    }

    /// A look at the in-sync copy of a number, with what the primary knows of it.
    pub fn copy(&self, copy: u64) -> Option<CopyView<'_>>
        ensures shown { option_map shown result ≡ member_of self.now.copies copy }
        ensures count { IfSome result (λ view. view.count ≡ view.seen.now.count) }
        ensures gap { IfSome result (λ view. IsTrue view.gap ↔ HasGap view.seen.now) }
    {
        self.copies.view_of(copy)
    }

    /// How each copy stands.
    pub fn statuses(&self) -> Result<CopyStatuses, AllocError>
        ensures { IfOk result (λ statuses. statuses ≡ statuses_of self.now.copies) }
    {
        self.copies.statuses()
    }

    /// The least copy that has not processed one of the operations.
    pub fn lacks(&self, batch: &Batch) -> Option<u32>
        ensures { result ≡ lacks batch.now self.now.copies }
    {
        self.copies.lacks(batch.as_slice())
    }
}

impl Follower {
    /// The writes of this epoch and later ones are taken.
    pub fn begin_epoch(&mut self, epoch: u64)
        ensures { self.new ≡ record self.old { epoch = epoch } }
    {
        self.epoch = epoch;
    }

    /// Each copy is restored from the files of a session and counts all numbers below its count as processed.
    pub fn install(&mut self, files: Vec<Segment>, count: Count) -> Result<(), AllocError>
        requires once { (n : ℕ) → count_by (λ op. op.seq == n) (held (record { parts = files.items; open_part = [] })) ≤ 1 }
        requires below { (n : ℕ) → has_number (held (record { parts = files.items; open_part = [] })) n ≡ true → n < count }
        ensures { OnOk result (self.new ≡ with_copies self.old (restored count files.items self.old.copies)) }
    {
        if self.broken {
            return Err(AllocError);
        }
        if self.copies.restore(files, count).is_err() {
            self.broken = true;
            return Err(AllocError);
        }
        Ok(())
    }

    /// The primary takes each of the operations whose number it has not processed. Answers how many these were.
    /// Refused is `OldEpoch`, exactly where the epoch is below the one that is kept.
    pub fn apply(&mut self, epoch: u64, batch: &Batch) -> Result<u64, FollowerFault>
        ensures ok { IfOk result (λ new. engine_apply_row self.old epoch batch.now ≡ answered (replies.Applied new) self.new) }
        ensures err { IfErr result (λ fault. IsRefusal fault → engine_apply_row self.old epoch batch.now ≡ refused self.new (refusal_of fault)) }
    {
        self.is_whole()?;
        if epoch < self.epoch {
            return Err(FollowerFault::OldEpoch { kept: self.epoch });
        }
        match self.copies.take_batch(batch.as_slice()) {
            Ok(new) => Ok(new),
            Err(_) => {
                self.broken = true;
                Err(FollowerFault::Memory)
            }
        }
    }

    /// The replica takes the primary's operation of a number, unless it has processed it, and learns the global
    /// count. Refused are `NoCopy`, `IsPrimary`, `NotReady` and `NoOperation`.
    pub fn replicate(&mut self, copy: u64, seq: u64) -> Result<(), FollowerFault>
        ensures ok { OnOk result (within (with_copies self.old) (replicate_row self.old.copies copy seq (replica_of self.old.copies copy)) ≡ answered replies.Done self.new) }
        ensures err { IfErr result (λ fault. IsRefusal fault → within (with_copies self.old) (replicate_row self.old.copies copy seq (replica_of self.old.copies copy)) ≡ refused self.new (refusal_of fault)) }
    {
        self.is_whole()?;
        let done = self.copies.replicate(copy, seq);
        self.noted(done)
    }

    /// The primary learns the replica's count. Answers the global count after that. Refused are `NoCopy`,
    /// `IsPrimary` and `NotReady`.
    pub fn ack(&mut self, copy: u64) -> Result<Count, FollowerFault>
        ensures ok { IfOk result (λ global. within (with_copies self.old) (ack_row self.old.copies copy (replica_of self.old.copies copy)) ≡ answered (replies.Acked global) self.new) }
        ensures err { IfErr result (λ fault. IsRefusal fault → within (with_copies self.old) (ack_row self.old.copies copy (replica_of self.old.copies copy)) ≡ refused self.new (refusal_of fault)) }
    {
        self.is_whole()?;
        let done = self.copies.ack(copy);
        self.noted(done)
    }

    /// The replica learns the global count. Refused are `NoCopy`, `IsPrimary` and `NotReady`.
    pub fn sync_copy(&mut self, copy: u64) -> Result<(), FollowerFault>
        ensures ok { OnOk result (within (with_copies self.old) (sync_row self.old.copies copy (replica_of self.old.copies copy)) ≡ answered replies.Done self.new) }
        ensures err { IfErr result (λ fault. IsRefusal fault → within (with_copies self.old) (sync_row self.old.copies copy (replica_of self.old.copies copy)) ≡ refused self.new (refusal_of fault)) }
    {
        self.is_whole()?;
        let done = self.copies.sync_copy(copy);
        self.noted(done)
    }

    /// The replica becomes the primary of the next term, which is answered with how many numbers were filled: none,
    /// since a follower gives out no number. Refused are `NoCopy` and `IsPrimary`.
    pub fn promote(&mut self, copy: u64) -> Result<(Term, u64), FollowerFault>
        ensures ok { IfOk result (λ told. within (with_copies self.old) (follower_promote_row self.old.copies copy (replica_of self.old.copies copy)) ≡ answered (replies.Promoted told.0 told.1) self.new) }
        ensures err { IfErr result (λ fault. IsRefusal fault → within (with_copies self.old) (follower_promote_row self.old.copies copy (replica_of self.old.copies copy)) ≡ refused self.new (refusal_of fault)) }
    {
        self.is_whole()?;
        let done = self.copies.promote_follower(copy);
        let term = self.noted(done)?;
        Ok((term, 0))
    }

    /// The replica leaves. Refused are `NoCopy`, `LastCopy` and `IsPrimary`.
    pub fn fail_copy(&mut self, copy: u64) -> Result<(), FollowerFault>
        ensures ok { OnOk result (within (with_copies self.old) (fail_copy_row self.old.copies copy (replica_of self.old.copies copy)) ≡ answered replies.Done self.new) }
        ensures err { IfErr result (λ fault. IsRefusal fault → within (with_copies self.old) (fail_copy_row self.old.copies copy (replica_of self.old.copies copy)) ≡ refused self.new (refusal_of fault)) }
    {
        self.is_whole()?;
        let done = self.copies.fail_copy(copy);
        let _left = self.noted(done)?;
        Ok(())
    }

    /// A new copy takes all that the primary has. Answers its number. Refused is `TooMany`, where there are eight
    /// copies. The cost goes with all that the primary holds.
    pub fn add_copy(&mut self) -> Result<u32, FollowerFault>
        ensures ok { IfOk result (λ number. within (with_copies self.old) (add_copy_row self.old.copies) ≡ answered (replies.Added number) self.new) }
        ensures err { IfErr result (λ fault. IsRefusal fault → within (with_copies self.old) (add_copy_row self.old.copies) ≡ refused self.new (refusal_of fault)) }
    {
        self.is_whole()?;
        let done = self.copies.add_copy();
        self.noted(done)
    }

    /// The copy closes its open part, and its commit count becomes the global count that it knows, which is
    /// answered. Refused is `NoCopy`.
    pub fn flush(&mut self, copy: u64) -> Result<Count, FollowerFault>
        ensures ok { IfOk result (λ commit. within (with_copies self.old) (flush_row self.old.copies copy (copy_of self.old.copies copy)) ≡ answered (replies.Flushed commit) self.new) }
        ensures err { IfErr result (λ fault. IsRefusal fault → within (with_copies self.old) (flush_row self.old.copies copy (copy_of self.old.copies copy)) ≡ refused self.new (refusal_of fault)) }
    {
        self.is_whole()?;
        let done = self.copies.flush(copy);
        self.noted(done)
    }

    /// Raises the copy's floor, drops what is droppable in the picked parts, and joins the rest of them. Answers the
    /// floor and how many operations were dropped. Refused is `NoCopy`.
    pub fn merge(&mut self, copy: u64, picks: &Picks) -> Result<(Count, u64), FollowerFault>
        ensures ok { IfOk result (λ told. within (with_copies self.old) (merge_row self.old.copies self.old.retention copy picks.now (copy_of self.old.copies copy)) ≡ answered (replies.Merged told.0 told.1 picks.now) self.new) }
        ensures err { IfErr result (λ fault. IsRefusal fault → within (with_copies self.old) (merge_row self.old.copies self.old.retention copy picks.now (copy_of self.old.copies copy)) ≡ refused self.new (refusal_of fault)) }
    {
        self.is_whole()?;
        let done = self.copies.merge(copy, self.retention, picks);
        self.noted(done)
    }

    /// That no call before this one ran out of memory.
    fn is_whole(&self) -> Result<(), FollowerFault>
        ensures { IfErr result (λ fault. fault ≡ FollowerFault.Memory) }
    {
        if self.broken {
            return Err(FollowerFault::Memory);
        }
        Ok(())
    }

    /// What a call on the copies came to. After want of memory the engine is broken.
    fn noted<T: Drop>(&mut self, done: Result<T, CopyFault>) -> Result<T, FollowerFault>
        ensures same { self.new ≡ self.old }
        ensures answer { MatchResult result (λ value. done ≡ Ok value) (λ fault. IsErrAnd done (λ own. fault ≡ copy_fault own)) }
    {
        match done {
            Ok(value) => Ok(value),
            Err(fault) => {
                if matches!(fault, CopyFault::Memory) {
                    self.broken = true;
                }
                Err(FollowerFault::from(fault))
            }
        }
    }
}
