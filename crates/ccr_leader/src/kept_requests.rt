ghost use Rattle.std.specs.Prelude.{◌≡◌, ◌==◌, ◌&&◌, ◌++◌, ◌∷◌, [], ℕ, List, true, map, filter, not, if◌then◌else◌, OnOk, OnErr};
ghost use Rattle.std.specs.List.{list_any};
ghost use Rattle.std.specs.Str.{bytes_eq};
ghost use Rattle.ccr_wire.specs.Message.{ContentFits, Frame};
ghost use Rattle.ccr_wire.specs.declared.kind.LeaseResult.TheVariants as results;
ghost use Rattle.ccr_wire.specs.declared.content.Content.TheVariants.{LeaseAdded, LeaseAnswer};
ghost use Rattle.ccr_model.specs.Leaders.{KeptRequest as Modelled};
ghost use Rattle.ccr_model.specs.LeaderRows.{all_hold, lease_answer};
ghost use Rattle.ccr_leader.specs.Waited.{has_id};

use ccr_copies::CopySet;
use ccr_op::{Count, LeaseId};
use ccr_wire::{Content, LeaseResult, Message, Messages};
use std::alloc::{AllocError, Global};
use std::marker::Model;
use uuid::Uuid;

/// A request for a lease that waits until each in-sync copy has the lease.
#[derive(Debug, Drop)]
pub struct KeptRequest {
    /// The follower that asks.
    pub follower: Uuid,
    /// The number of its request.
    pub request: u64,
    /// The lease's id.
    pub id: LeaseId,
    /// Whether the lease was there when the request came.
    pub existed: bool,
}

impl Model for KeptRequest {
    ghost use Rattle.ccr_model.specs.Leaders.{KeptRequest as Modelled};

    ghost Value = { Modelled };

    ghost view = { λ a. record { follower = a.follower; request = a.request; id = a.id; existed = a.existed } };
}

impl KeptRequest {
    /// The answer to it: both forms carry the greatest floor of the in-sync copies.
    pub(crate) fn answer(&self, copies: &CopySet) -> Message
        ensures { result ≡ lease_answer copies.now self.now }
    {
        let content = content_of(self.existed, copies.greatest_floor());
        Message::new(self.follower, self.request, content)
    }
}

/// What an answer to a request for a lease says.
fn content_of(existed: bool, number: Count) -> Content
    ensures value { result ≡ (if existed then LeaseAnswer results.Exists number else LeaseAdded number) }
    ensures fits { ContentFits result }
{
    if existed {
        return Content::LeaseAnswer {
            outcome: LeaseResult::Exists,
            number,
        };
    }
    Content::LeaseAdded { number }
}

/// The requests for leases that wait, in the order in which they came. Beside them stand the leases that they wait
/// for, each once, so that thousands of requests for a few leases cost no look at each.
#[derive(Debug, Drop)]
pub(crate) struct KeptRequests {
    list: Vec<KeptRequest>,
    leases: Vec<LeaseId>,
}

impl Model for KeptRequests {
    ghost use Rattle.std.specs.Prelude.{List};
    ghost use Rattle.ccr_model.specs.Leaders.{KeptRequest as Modelled};
    ghost use Rattle.ccr_leader.specs.Waited.{HasEach};

    ghost Value = { List Modelled };

    ghost view = { λ a. a.list.items };

    ghost invariant = { λ a. HasEach {K = Modelled} (λ k. k.id) a.leases.items a.list.items };
}

impl KeptRequests {
    /// None.
    pub(crate) fn new(alloc: Global) -> KeptRequests
        ensures { result ≡ [] }
    {
        KeptRequests {
            list: Vec::new(alloc),
            leases: Vec::new(alloc),
        }
    }

    /// One more, the last. It looks at each lease that is waited for.
    pub(crate) fn keep(&mut self, alloc: Global, request: KeptRequest) -> Result<(), AllocError>
        ensures ok { OnOk result (self.new ≡ self.old ++ request ∷ []) }
        ensures err { OnErr result (self.new ≡ self.old) }
    {
        note_lease(alloc, &mut self.leases, &request.id)?;
        self.list.push(request)?;
        Ok(())
    }

    /// None is kept any more.
    pub(crate) fn clear(&mut self)
        ensures { self.new ≡ [] }
    {
        self.list.clear();
        self.leases.clear();
    }

    /// Whether a request of this number of a follower is kept.
    pub(crate) fn has(&self, follower: &Uuid, request: u64) -> bool
        ensures { result ≡ list_any (λ k. bytes_eq k.follower follower.now && (k.request == request)) self.now }
    {
        self.list.iter().any(|kept| is_same(&kept.follower, follower) && kept.request == request)
    }

    /// Adds the answers to the requests whose lease each copy has, in the order in which they came, and lets
    /// these go. It looks at each lease that is waited for, and only where each copy has one of them at each request.
    pub(crate) fn answer_due(
        &mut self,
        copies: &CopySet,
        sent: &mut Messages,
    ) -> Result<(), AllocError>
        ensures sent { OnOk result (sent.new ≡ sent.old ++ map {A = Modelled} {B = Frame} (lease_answer copies.now) (filter (λ k. all_hold k.id copies.now) self.old)) }
        ensures kept { OnOk result (self.new ≡ filter (λ k. not (all_hold k.id copies.now)) self.old) }
    {
        if !is_one_held(self.leases.as_slice(), copies) {
            return Ok(());
        }
        add_answers(self.list.as_slice(), copies, sent)?;
        self.list.retain(|kept| !copies.all_hold(&kept.id));
        self.leases.retain(|id| !copies.all_hold(id));
        Ok(())
    }
}

/// Puts a lease beside those that are waited for, unless it is among them.
fn note_lease(alloc: Global, leases: &mut Vec<LeaseId>, id: &LeaseId) -> Result<(), AllocError>
    ensures there { OnOk result (has_id leases.new.items id.now ≡ true) }
    ensures still { (other : List ℕ) → has_id leases.old.items other ≡ true → has_id leases.new.items other ≡ true }
{
    if is_among(leases.as_slice(), id) {
        return Ok(());
    }
    leases.push(id.copy(alloc)?)?;
    Ok(())
}

/// Whether a lease is among those that are waited for.
fn is_among(leases: &[LeaseId], id: &LeaseId) -> bool
    ensures { result ≡ has_id leases.now id.now }
{
    leases.iter().any(|other| other == id)
}

/// Whether each copy has one of these leases.
fn is_one_held(leases: &[LeaseId], copies: &CopySet) -> bool
    ensures { result ≡ list_any (λ id. all_hold id copies.now) leases.now }
{
    leases.iter().any(|id| copies.all_hold(id))
}

/// Adds the answers to the requests whose lease each copy has.
fn add_answers(
    list: &[KeptRequest],
    copies: &CopySet,
    sent: &mut Messages,
) -> Result<(), AllocError>
    ensures { OnOk result (sent.new ≡ sent.old ++ map {A = Modelled} {B = Frame} (lease_answer copies.now) (filter (λ k. all_hold k.id copies.now) list.now)) }
{
    for kept in list {
        if copies.all_hold(&kept.id) {
            sent.push(kept.answer(copies))?;
        }
    }
    Ok(())
}

/// Whether two identifiers are the same.
pub(crate) fn is_same(a: &Uuid, b: &Uuid) -> bool
    ensures { result ≡ bytes_eq a.now b.now }
{
    a.as_bytes().as_slice() == b.as_bytes().as_slice()
}
