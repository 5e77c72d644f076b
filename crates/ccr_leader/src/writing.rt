ghost use Rattle.std.specs.Prelude.{◌≡◌, ◌+◌, Ok, Err, Some, None, option_copied, IfOk, IfErr, IfSome, IsSomeAnd, OnOk, MatchOption};
ghost use Rattle.std.specs.Option.{option_map_or};
ghost use Rattle.ccr_op.specs.Operation.{IsSourceText};
ghost use Rattle.ccr_journal.specs.declared.replies.Reply.TheVariants as replies;
ghost use Rattle.ccr_model.specs.Operations.{live};
ghost use Rattle.ccr_model.specs.Stores.{held};
ghost use Rattle.ccr_model.specs.Outcomes.{answered, refused};
ghost use Rattle.ccr_model.specs.LeaderRows.{conflicts, leader_write, place_of_live, primary_takes, source_fault, with_copies, written_operation, wrote_at};
ghost use Rattle.ccr_leader.specs.Faults.{IsRefusal, refusal_of};
ghost use Rattle.ccr_leader.specs.Writing.{IsCompactOf, expectation, result_for};
ghost use Rattle.ccr_leader.specs.declared.leader_fault.LeaderFault.TheVariants as LeaderFault;

use crate::{Leader, LeaderFault};
use ccr_doc::{BadSource, compact};
use ccr_journal::{WriteRequest, WriteResult, Wrote};
use ccr_law_stores::source_texts;
use ccr_op::{Body, DocId, Op, Term};
use std::alloc::{AllocError, Global};
use std::sync::ArcStr;

impl Leader {
    /// The primary gives the write the next number and takes its operation; the source is kept in its compact form.
    /// Refused are `BadSource`, `Conflict` where the document's operation is another than the one expected, and
    /// `Exists` where the document is to be new and is there, the first of these that holds (Elastic reference,
    /// optimistic concurrency control). The cost is a logarithm, and what the source takes.
    pub fn write(&mut self, request: &WriteRequest) -> Result<Wrote, LeaderFault>
        ensures ok { IfOk result (λ wrote. leader_write self.old request.now ≡ answered (replies.Written wrote) self.new) }
        ensures err { IfErr result (λ fault. IsRefusal fault → leader_write self.old request.now ≡ refused self.new (refusal_of fault)) }
    {
        self.is_whole()?;
        let (wrote, op) = self.accepted(request)?;
        self.broken = true;
        self.copies.take_at_primary(op)?;
        self.broken = false;
        Ok(wrote)
    }

    /// What the write is answered, and the operation that it becomes.
    fn accepted(&self, request: &WriteRequest) -> Result<(Wrote, Op), LeaderFault>
        ensures ok { IfOk result (λ told. leader_write self.entry.now request.now ≡ answered (replies.Written told.0) (with_copies self.entry.now (primary_takes self.entry.now.copies told.1))) }
        ensures err { IfErr result (λ fault. IsRefusal fault → leader_write self.entry.now request.now ≡ refused self.entry.now (refusal_of fault)) }
    {
        let source = compact_source(self.alloc, &request.body)?;
        let wrote = self.numbered(request)?;
        let op = operation(self.alloc, request, source, &wrote)?;
        Ok((wrote, op))
    }

    /// What the write is answered, where the document is as it expects.
    fn numbered(&self, request: &WriteRequest) -> Result<Wrote, LeaderFault>
        ensures ok { IfOk result (λ wrote. wrote ≡ wrote_at self.entry.now.copies request.now (live (held self.entry.now.copies.primary.store) request.now.id)) }
        ensures meets { OnOk result (expectation request.now (live (held self.entry.now.copies.primary.store) request.now.id) ≡ None) }
        ensures err { IfErr result (λ fault. IsRefusal fault → expectation request.now (live (held self.entry.now.copies.primary.store) request.now.id) ≡ Some (refusal_of fault)) }
    {
        let found = self.copies.primary().store().live(&request.id);
        if conflicts(request.expect, found) {
            return Err(LeaderFault::Conflict {
                last: place_of(found),
            });
        }
        if request.create {
            not_there(found)?;
        }
        let version = next_version(found)?;
        Ok(Wrote {
            seq: self.copies.primary().count(),
            term: self.copies.term(),
            version,
            result: result_of(request.body.is_some(), found.is_some()),
        })
    }
}

/// Whether the document's operation is another than the one that is expected.
fn conflicts(expect: Option<(u64, Term)>, found: Option<&Op>) -> bool
    ensures { result ≡ conflicts expect (option_copied found.entry) }
{
    let Some((seq, term)) = expect else {
        return false;
    };
    let Some(op) = found else {
        return true;
    };
    !(op.seq() == seq && op.term() == term)
}

/// Refuses a document that is there.
fn not_there(found: Option<&Op>) -> Result<(), LeaderFault>
    ensures { MatchOption (option_copied found.entry) (result ≡ Ok tt) (λ op. result ≡ Err (LeaderFault.Exists op.seq)) }
{
    let Some(op) = found else {
        return Ok(());
    };
    Err(LeaderFault::Exists { seq: op.seq() })
}

/// The number and term of a document's operation.
fn place_of(found: Option<&Op>) -> Option<(u64, Term)>
    ensures { result ≡ place_of_live (option_copied found.entry) }
{
    let op = found?;
    Some((op.seq(), op.term()))
}

/// One more than the document's version.
fn next_version(found: Option<&Op>) -> Result<u64, AllocError>
    ensures { IfOk result (λ version. version ≡ option_map_or (λ op. op.version + 1) (option_copied found.entry) 1) }
{
    let Some(op) = found else {
        return Ok(1);
    };
    op.version().checked_add(1).ok_or(AllocError)
}

/// What a write or a delete finds under its id.
fn result_of(writes: bool, found: bool) -> WriteResult
    ensures { result ≡ result_for writes found }
{
    match (writes, found) {
        (true, true) => WriteResult::Updated,
        (true, false) => WriteResult::Created,
        (false, true) => WriteResult::Deleted,
        (false, false) => WriteResult::NotFound,
    }
}

/// The compact form of a source, where there is one.
fn compact_source(alloc: Global, body: &Option<Body>) -> Result<Option<Body>, LeaderFault>
    ensures ok { IfOk result (λ source. IsCompactOf body.now source) }
    ensures fits { IfOk result (λ source. IfSome source IsSourceText) }
    ensures err { IfErr result (λ fault. IsRefusal fault → IsSomeAnd (source_fault body.now) (λ own. fault ≡ LeaderFault.BadSource own)) }
{
    source_texts();
    let Some(body) = body else {
        return Ok(None);
    };
    match compact(alloc, body.as_str().as_bytes()) {
        Ok(text) => {
            let text = ArcStr::from_string(text)?;
            Ok(Some(Body::new(text)))
        }
        Err(BadSource::Memory) => Err(LeaderFault::Memory),
        Err(fault) => Err(LeaderFault::BadSource(fault)),
    }
}

/// The operation that a write becomes.
fn operation(
    alloc: Global,
    request: &WriteRequest,
    source: Option<Body>,
    wrote: &Wrote,
) -> Result<Op, AllocError>
    requires compact { IsCompactOf request.now.body source }
    requires fits { IfSome source IsSourceText }
    ensures { IfOk result (λ op. op ≡ written_operation request.now wrote.now) }
{
    let id = request.id.copy(alloc)?;
    let routing = copy_routing(alloc, &request.routing)?;
    match source {
        Some(body) => Ok(Op::index(wrote.seq, wrote.term, wrote.version, id, routing, body)),
        None => Ok(Op::delete(wrote.seq, wrote.term, wrote.version, id, routing)),
    }
}

/// An equal routing.
fn copy_routing(alloc: Global, routing: &Option<DocId>) -> Result<Option<DocId>, AllocError>
    ensures { IfOk result (λ other. other ≡ routing.now) }
{
    let Some(text) = routing else {
        return Ok(None);
    };
    let text = text.copy(alloc)?;
    Ok(Some(text))
}
