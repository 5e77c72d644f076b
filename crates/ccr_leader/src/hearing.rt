ghost use Rattle.std.specs.Prelude.{◌≡◌, ◌≤◌, ◌+◌, ◌++◌, true, not, length, map, filter, nat_lt, if◌then◌else◌, IfOk, IfErr, OnOk, []};
ghost use Rattle.ccr_wire.specs.declared.content.Content.TheVariants.{LeaseAnswer};
ghost use Rattle.ccr_leader.specs.declared.leader_fault.LeaderFault.TheVariants as LeaderFault;
ghost use Rattle.ccr_wire.specs.declared.kind.LeaseResult.TheVariants as results;
ghost use Rattle.ccr_wire.specs.Message.{ContentFits, Frame, NumberFits};
ghost use Rattle.ccr_journal.specs.declared.replies.Heard.TheVariants as heard;
ghost use Rattle.ccr_lease.specs.Leases.{lease_of};
ghost use Rattle.ccr_model.specs.Outcomes.{refused};
ghost use Rattle.ccr_model.specs.Copies.{copy_of, lacks_lease, not_ready};
ghost use Rattle.ccr_model.specs.Leaders.{KeptRequest as Asked, Leader as Modelled, session_of};
ghost use Rattle.ccr_model.specs.LeaderRows.{all_hold, lease_answer, settling_requests};
ghost use Rattle.ccr_model.specs.LeaderFrames.{answer_or_keep, answer_read, answer_to, chunk_row, has_to_wait, hears, leader_receive, leader_wake, lease_add_row, lease_remove_row, lease_renew_row, read_row, session_open_row};
ghost use Rattle.ccr_leader.specs.Faults.{IsRefusal, refusal_of};
ghost use Rattle.ccr_law_settling_grounds.specs.Parked.{AreKeptRightly};
ghost use Rattle.ccr_leader.specs.Requests.{IsPlaced, IsWithin, has_to_stay};

use crate::kept_requests::{KeptRequest, KeptRequests, is_same};
use crate::{Leader, LeaderFault};
use ccr_changes::{Cut, Poll, cut};
use ccr_copies::{CopySet, CopySide};
use ccr_journal::Heard;
use ccr_lease::LeaseFault;
use ccr_op::{Count, LeaseId, Millis};
use ccr_session::SessionFault;
use ccr_wire::{Chunk, Content, LeaseResult, Message, Messages, Ops, Sizes};
use std::alloc::{AllocError, Global};
use uuid::Uuid;

/// The least number of operations that no reply and no file has.
const MANY: u64 = 4_294_967_296;

impl Leader {
    /// A message comes to a copy: a read of its history, or a request about a lease or a session, which go to the
    /// primary. Answers what was done, and the messages that are sent. A read that has nothing to bring yet waits,
    /// and so does a request for a lease until each copy has the lease. Refused is `NoCopy`, at a read alone. A
    /// read costs what it brings; a request for a lease looks at each lease that is waited for, and where each copy
    /// then has one that was not there before at each request that waits.
    pub fn receive(
        &mut self,
        copy: u64,
        message: &Message,
    ) -> Result<(Heard, Messages), LeaderFault>
        requires { IsPlaced self.old message.now.content }
        ensures ok { IfOk result (λ told. leader_receive self.old copy message.now ≡ hears told.0 self.new told.1) }
        ensures err { IfErr result (λ fault. IsRefusal fault → leader_receive self.old copy message.now ≡ refused self.new (refusal_of fault)) }
    {
        self.is_whole()?;
        let follower = message.follower();
        let request = message.request();
        match message.content() {
            Content::ReadRequest {
                history,
                from,
                max_ops,
                max_bytes,
                timeout,
            } => {
                let Some(side) = self.copies.copy_of(copy) else {
                    return Err(LeaderFault::NoCopy { copy });
                };
                let poll = Poll {
                    follower,
                    request,
                    copy: side.number(),
                    history: *history,
                    from: *from,
                    max_ops: *max_ops,
                    max_bytes: *max_bytes,
                    timeout: *timeout,
                    parked: self.now,
                };
                let told = self.hear_read(copy, poll)?;
                Ok(told)
            }
            Content::LeaseAdd { id } => {
                let told = self.hear_lease_add(&follower, request, id)?;
                Ok(told)
            }
            Content::LeaseRenew { id, number } => {
                let told = self.hear_renewal(&follower, request, id, *number)?;
                Ok(told)
            }
            Content::LeaseRemove { id } => {
                let told = self.hear_removal(&follower, request, id)?;
                Ok(told)
            }
            Content::SessionOpen => {
                let told = self.hear_opening(&follower, request)?;
                Ok(told)
            }
            Content::ChunkRequest {
                session,
                file,
                offset,
                size,
            } => {
                let told = self.hear_chunk(&follower, request, *session, *file, *offset, *size)?;
                Ok(told)
            }
            _ => Ok((Heard::Ignored, Messages::none(self.alloc))),
        }
    }

    /// The read at a place among a follower's that wait, from the oldest on, is answered, once there is something
    /// to bring or its time is over. Answers what was done, and the message that is sent. Refused are `NoPoll` past
    /// the last one, and `Wait`. It costs what it brings.
    pub fn poll_wake(&mut self, follower: &Uuid, at: u64) -> Result<(Heard, Messages), LeaderFault>
        ensures ok { IfOk result (λ told. leader_wake self.old follower.now at ≡ hears told.0 self.new told.1) }
        ensures err { IfErr result (λ fault. IsRefusal fault → leader_wake self.old follower.now at ≡ refused self.new (refusal_of fault)) }
    {
        self.is_whole()?;
        let Some(poll) = self.polls.get(follower, at as usize) else {
            return Err(LeaderFault::NoPoll { at });
        };
        let Some(side) = self.copies.copy_of(u64::from(poll.copy)) else {
            return Err(LeaderFault::NoPoll { at });
        };
        if self.has_to_stay(poll, side) {
            return Err(LeaderFault::Wait {
                global: side.known_global(),
            });
        }
        let told = self.read_answer(poll, side)?;
        let _poll = self.polls.take(follower, at as usize);
        Ok(told)
    }
}

impl Leader {
    /// A read comes to its copy: it waits there where it has nothing to bring yet.
    fn hear_read(&mut self, copy: u64, poll: Poll) -> Result<(Heard, Messages), LeaderFault>
        ensures ok { IfOk result (λ told. read_row self.old poll copy (copy_of self.old.copies copy) ≡ hears told.0 self.new told.1) }
        ensures err { IfErr result (λ fault. IsRefusal fault → read_row self.old poll copy (copy_of self.old.copies copy) ≡ refused self.new (refusal_of fault)) }
        ensures kept { AreKeptRightly self.old.copies self.old.kept → AreKeptRightly self.new.copies self.new.kept }
    {
        let Some(side) = self.copies.copy_of(copy) else {
            return Err(LeaderFault::NoCopy { copy });
        };
        if self.has_to_wait(&poll, side) {
            self.polls.park(poll)?;
            return Ok((Heard::Parked, Messages::none(self.alloc)));
        }
        let told = self.read_answer(&poll, side)?;
        Ok(told)
    }

    /// Whether a read has nothing to bring yet, and no other answer.
    fn has_to_wait(&self, poll: &Poll, side: &CopySide) -> bool
        ensures { result ≡ has_to_wait self.entry.now poll.now side.now }
    {
        is_same(&poll.history, &self.history)
            && poll.from >= side.kept_from()
            && poll.from >= side.known_global()
    }

    /// Whether a read that waits has nothing to bring yet, and its time is not over.
    fn has_to_stay(&self, poll: &Poll, side: &CopySide) -> bool
        ensures { result ≡ has_to_stay self.entry.now poll.now side.now }
    {
        poll.from >= side.known_global() && is_before(self.now, poll.parked, poll.timeout)
    }

    /// The answer to a read: it is of another history, or asks below the floor, or gets the operations that there
    /// are.
    fn read_answer(&self, poll: &Poll, side: &CopySide) -> Result<(Heard, Messages), AllocError>
        ensures { IfOk result (λ told. (next : Modelled) → answer_read self.entry.now poll.now side.now next ≡ hears told.0 next told.1) }
    {
        if !is_same(&poll.history, &self.history) {
            let content = Content::ReadHistory {
                history: self.history,
            };
            let sent = one(self.alloc, &poll.follower, poll.request, content)?;
            return Ok((Heard::History, sent));
        }
        let found = cut(self.alloc, side, poll.from, poll.max_ops, poll.max_bytes)?;
        match found {
            Cut::Missing { from, floor } => {
                let content = Content::ReadMissing { from, floor };
                let sent = one(self.alloc, &poll.follower, poll.request, content)?;
                Ok((Heard::Missing { from, floor }, sent))
            }
            Cut::Wait { global } => {
                let content = Content::ReadReply {
                    from: poll.from,
                    global,
                    ops: Ops::new(Vec::new(self.alloc)),
                };
                let sent = one(self.alloc, &poll.follower, poll.request, content)?;
                Ok((Heard::Empty, sent))
            }
            Cut::Ops { list, global } => {
                let ops = list.into_vec();
                if ops.len() as u64 >= MANY {
                    return Err(AllocError);
                }
                let content = Content::ReadReply {
                    from: poll.from,
                    global,
                    ops: Ops::new(ops),
                };
                let sent = one(self.alloc, &poll.follower, poll.request, content)?;
                Ok((Heard::Done, sent))
            }
        }
    }
}

impl Leader {
    /// A request for a lease: it is answered once each copy has the lease, and waits until then.
    fn hear_lease_add(
        &mut self,
        follower: &Uuid,
        request: u64,
        id: &LeaseId,
    ) -> Result<(Heard, Messages), LeaderFault>
        requires { AreKeptRightly self.old.copies self.old.kept }
        ensures ok { IfOk result (λ told. settling_requests (lease_add_row self.old follower.now request id.now (not_ready self.old.copies)) ≡ hears told.0 self.new told.1) }
        ensures err { IfErr result (λ fault. fault ≡ LeaderFault.Memory) }
    {
        if let Some(copy) = self.copies.not_ready() {
            let content = Content::NotReady { copy };
            let sent = one(self.alloc, follower, request, content)?;
            return Ok((Heard::NotReady { copy }, sent));
        }
        self.broken = true;
        let existed = self.copies.add_lease(id, self.now)?;
        let id = id.copy(self.alloc)?;
        let asked = KeptRequest {
            follower: *follower,
            request,
            id,
            existed,
        };
        let mut sent = Messages::none(self.alloc);
        let told = self.answer_or_keep(asked, &mut sent)?;
        self.broken = true;
        answer_where_new(existed, &mut self.kept, &self.copies, &mut sent)?;
        self.broken = false;
        Ok((told, sent))
    }

    /// A request is answered where each copy has its lease, and else kept.
    fn answer_or_keep(
        &mut self,
        asked: KeptRequest,
        sent: &mut Messages,
    ) -> Result<Heard, AllocError>
        requires { sent.old ≡ [] }
        ensures { IfOk result (λ told. answer_or_keep self.old asked (lacks_lease asked.id self.old.copies) ≡ hears told self.new sent.new) }
    {
        match self.copies.lacks_lease(&asked.id) {
            None => {
                sent.push(asked.answer(&self.copies))?;
                Ok(Heard::Lease {
                    result: granted(asked.existed),
                    number: self.copies.greatest_floor(),
                })
            }
            Some(copy) => {
                self.kept.keep(self.alloc, asked)?;
                Ok(Heard::Waiting { copy })
            }
        }
    }

    /// A request to renew a lease.
    fn hear_renewal(
        &mut self,
        follower: &Uuid,
        request: u64,
        id: &LeaseId,
        number: Count,
    ) -> Result<(Heard, Messages), LeaderFault>
        requires { AreKeptRightly self.old.copies self.old.kept }
        ensures ok { IfOk result (λ told. lease_renew_row self.old follower.now request id.now number (lease_of id.now self.old.copies.primary.leases.leases) ≡ hears told.0 self.new told.1) }
        ensures kept { OnOk result (AreKeptRightly self.new.copies self.new.kept) }
        ensures err { IfErr result (λ fault. fault ≡ LeaderFault.Memory) }
    {
        match self.copies.renew_lease(id, number, self.now) {
            Ok(()) => {
                self.broken = true;
                let told = lease_told(self.alloc, follower, request, LeaseResult::Ok, number)?;
                self.broken = false;
                Ok(told)
            }
            Err(LeaseFault::LowNumber { kept }) => {
                let told = lease_told(self.alloc, follower, request, LeaseResult::LowNumber, kept)?;
                Ok(told)
            }
            Err(LeaseFault::NotFound) => {
                let told = lease_told(self.alloc, follower, request, LeaseResult::NotFound, 0)?;
                Ok(told)
            }
            Err(_) => Err(LeaderFault::Memory),
        }
    }

    /// A request to take a lease out.
    fn hear_removal(
        &mut self,
        follower: &Uuid,
        request: u64,
        id: &LeaseId,
    ) -> Result<(Heard, Messages), LeaderFault>
        requires { AreKeptRightly self.old.copies self.old.kept }
        ensures ok { IfOk result (λ told. lease_remove_row self.old follower.now request id.now (lease_of id.now self.old.copies.primary.leases.leases) ≡ hears told.0 self.new told.1) }
        ensures kept { OnOk result (AreKeptRightly self.new.copies self.new.kept) }
        ensures err { IfErr result (λ fault. fault ≡ LeaderFault.Memory) }
    {
        match self.copies.remove_lease(id) {
            Ok(lease) => {
                self.broken = true;
                let told = lease_told(
                    self.alloc,
                    follower,
                    request,
                    LeaseResult::Ok,
                    lease.number,
                )?;
                self.broken = false;
                Ok(told)
            }
            Err(LeaseFault::NotFound) => {
                let told = lease_told(self.alloc, follower, request, LeaseResult::NotFound, 0)?;
                Ok(told)
            }
            Err(_) => Err(LeaderFault::Memory),
        }
    }
}

impl Leader {
    /// A request to open a session: it has the operations below the primary's global count.
    fn hear_opening(
        &mut self,
        follower: &Uuid,
        request: u64,
    ) -> Result<(Heard, Messages), LeaderFault>
        requires { AreKeptRightly self.old.copies self.old.kept }
        ensures ok { IfOk result (λ told. session_open_row self.old follower.now request (not_ready self.old.copies) ≡ hears told.0 self.new told.1) }
        ensures kept { OnOk result (AreKeptRightly self.new.copies self.new.kept) }
        ensures err { IfErr result (λ fault. fault ≡ LeaderFault.Memory) }
    {
        if let Some(copy) = self.copies.not_ready() {
            let content = Content::NotReady { copy };
            let sent = one(self.alloc, follower, request, content)?;
            return Ok((Heard::NotReady { copy }, sent));
        }
        let primary = self.copies.primary();
        let count = primary.known_global();
        let files = primary.store().commit_at(self.alloc, count)?;
        if files.len() as u64 >= MANY {
            return Err(LeaderFault::Memory);
        }
        let sizes = sizes_of(self.alloc, files.as_slice())?;
        self.broken = true;
        let session = self.sessions.begin(files, count, self.now)?;
        let content = Content::SessionOpened {
            session,
            history: self.history,
            count,
            sizes: Sizes::new(sizes),
        };
        let sent = one(self.alloc, follower, request, content)?;
        self.broken = false;
        Ok((Heard::Done, sent))
    }

    /// A request for a part of a file.
    fn hear_chunk(
        &mut self,
        follower: &Uuid,
        request: u64,
        session: u64,
        file: u32,
        offset: u64,
        size: u32,
    ) -> Result<(Heard, Messages), LeaderFault>
        requires kept { AreKeptRightly self.old.copies self.old.kept }
        requires within { IsWithin self.old.sessions session file offset }
        requires some { 1 ≤ size }
        requires few { size ≤ 16777216 }
        ensures ok { IfOk result (λ told. chunk_row self.old follower.now request session file offset size (session_of self.old.sessions session) ≡ hears told.0 self.new told.1) }
        ensures kept { OnOk result (AreKeptRightly self.new.copies self.new.kept) }
        ensures err { IfErr result (λ fault. fault ≡ LeaderFault.Memory) }
    {
        match self.sessions.chunk(session, file, offset, size, self.now) {
            Ok(bytes) => {
                self.broken = true;
                let content = Content::ChunkReply {
                    session,
                    file,
                    offset,
                    bytes: Chunk::new(bytes),
                };
                let sent = one(self.alloc, follower, request, content)?;
                self.broken = false;
                Ok((Heard::Done, sent))
            }
            Err(SessionFault::NoSession) => {
                let content = Content::SessionGone { session };
                let sent = one(self.alloc, follower, request, content)?;
                Ok((Heard::Gone, sent))
            }
            Err(SessionFault::NoFile) | Err(SessionFault::Range) => unreachable!(),
            Err(SessionFault::Memory) => Err(LeaderFault::Memory),
        }
    }
}

/// Adds the answers to the requests whose lease each copy has, and lets these go. Where the lease was there already
/// there are none.
fn answer_where_new(
    existed: bool,
    kept: &mut KeptRequests,
    copies: &CopySet,
    sent: &mut Messages,
) -> Result<(), AllocError>
    requires { existed ≡ true → AreKeptRightly copies.now kept.old }
    ensures sent { OnOk result (sent.new ≡ sent.old ++ map {A = Asked} {B = Frame} (lease_answer copies.now) (filter (λ k. all_hold k.id copies.now) kept.old)) }
    ensures kept { OnOk result (kept.new ≡ filter (λ k. not (all_hold k.id copies.now)) kept.old) }
{
    if existed {
        return Ok(());
    }
    kept.answer_due(copies, sent)?;
    Ok(())
}

/// What a request for a lease that each copy has comes to.
fn granted(existed: bool) -> LeaseResult
    ensures { result ≡ (if existed then results.Exists else results.Ok) }
{
    if existed {
        return LeaseResult::Exists;
    }
    LeaseResult::Ok
}

/// Whether now is before the end of a time that began then, all in milliseconds.
fn is_before(now: Millis, began: Millis, period: Millis) -> bool
    ensures { result ≡ nat_lt now (began + period) }
{
    now < began || now - began < period
}

/// One message to a follower.
fn one(
    alloc: Global,
    follower: &Uuid,
    request: u64,
    content: Content,
) -> Result<Messages, AllocError>
    requires { ContentFits content }
    ensures { IfOk result (λ sent. sent ≡ answer_to follower.now request content) }
{
    Messages::one(alloc, Message::new(*follower, request, content))
}

/// What a request about a lease comes to.
fn lease_told(
    alloc: Global,
    follower: &Uuid,
    request: u64,
    outcome: LeaseResult,
    number: Count,
) -> Result<(Heard, Messages), AllocError>
    requires { NumberFits outcome number }
    ensures what { IfOk result (λ told. told.0 ≡ heard.Lease outcome number) }
    ensures sent { IfOk result (λ told. told.1 ≡ answer_to follower.now request (LeaseAnswer outcome number)) }
{
    let content = Content::LeaseAnswer { outcome, number };
    let sent = one(alloc, follower, request, content)?;
    let told = Heard::Lease {
        result: outcome,
        number,
    };
    Ok((told, sent))
}

/// How many bytes each file has.
fn sizes_of(alloc: Global, files: &[Vec<u8>]) -> Result<Vec<u64>, AllocError>
    ensures { IfOk result (λ sizes. sizes.items ≡ map (λ file. length file.items) files.now) }
{
    let mut sizes = Vec::with_capacity(alloc, files.len())?;
    for file in files {
        sizes.push(file.len() as u64)?;
    }
    Ok(sizes)
}
