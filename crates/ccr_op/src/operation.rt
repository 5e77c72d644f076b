ghost use Rattle.std.specs.Prelude.{◌≡◌, ◌≤◌, ◌↔◌, length, IfOk, IfSome, IsTrue, Some, None, option_copied};
ghost use Rattle.std.specs.Option.{option_map};
ghost use Rattle.ccr_op.specs.Ids.{IsIdText};
ghost use Rattle.ccr_op.specs.Operation.{HasSpelling, IsSourceText, id_of, routing_of};
ghost use Rattle.ccr_op.specs.Sameness.{same_routing, same_kind, same_operation};

use crate::{Body, DocId, Term};
use std::alloc::{AllocError, Global};
use std::marker::Model;

/// The least bytes that a source has.
pub const LEAST_SOURCE_BYTES: usize = 2;

/// The most bytes that a source has.
pub const MOST_SOURCE_BYTES: usize = 524_288;

/// What an operation does.
#[derive(Debug, Drop)]
pub enum Kind {
    /// Puts a document in place under its id. The routing is the text by which its shard was chosen, where
    /// that was not its id.
    Index {
        id: DocId,
        routing: Option<DocId>,
        body: Body,
    },
    /// Takes the document of an id away.
    Delete {
        id: DocId,
        routing: Option<DocId>,
    },
    /// Does nothing, and fills a number.
    NoOp,
}

impl Kind {
    /// The id that an operation of this kind is about: none for a no-op.
    pub fn id(&self) -> Option<&DocId>
        ensures { option_copied result ≡ id_of self.now }
    {
        match self {
            Kind::Index { id, .. } => Some(id),
            Kind::Delete { id, .. } => Some(id),
            Kind::NoOp => None,
        }
    }

    /// The text that it is routed by in place of its id: none for a no-op.
    pub fn routing(&self) -> Option<&DocId>
        ensures { option_copied result ≡ routing_of self.now }
    {
        match self {
            Kind::Index { routing, .. } => routing.as_ref(),
            Kind::Delete { routing, .. } => routing.as_ref(),
            Kind::NoOp => None,
        }
    }

    /// Whether the other does the same.
    #[tactic(auto, using(crate::proofs::Sameness::same_kinds_are_equal))]
    pub fn is(&self, other: &Kind) -> bool
        ensures test { result ≡ same_kind self.now other.now }
        ensures equal { IsTrue result ↔ (self.now ≡ other.now) }
    {
        match (self, other) {
            (
                Kind::Index { id, routing, body },
                Kind::Index {
                    id: other,
                    routing: way,
                    body: text,
                },
            ) => id == other && same_routings(routing, way) && body.is(text),
            (
                Kind::Delete { id, routing },
                Kind::Delete {
                    id: other,
                    routing: way,
                },
            ) => id == other && same_routings(routing, way),
            (Kind::NoOp, Kind::NoOp) => true,
            _ => false,
        }
    }

    /// An equal kind.
    pub fn copy(&self, alloc: Global) -> Result<Kind, AllocError>
        ensures { IfOk result (λ other. other ≡ self.now) }
    {
        match self {
            Kind::Index { id, routing, body } => {
                let id = id.copy(alloc)?;
                let routing = copy_routing(alloc, routing)?;
                let body = body.copy(alloc)?;
                Ok(Kind::Index { id, routing, body })
            }
            Kind::Delete { id, routing } => {
                let id = id.copy(alloc)?;
                let routing = copy_routing(alloc, routing)?;
                Ok(Kind::Delete { id, routing })
            }
            Kind::NoOp => Ok(Kind::NoOp),
        }
    }
}

/// Whether two operations are routed alike.
fn same_routings(a: &Option<DocId>, b: &Option<DocId>) -> bool
    ensures { result ≡ same_routing a.now b.now }
{
    match (a, b) {
        (Some(a), Some(b)) => a == b,
        (None, None) => true,
        _ => false,
    }
}

/// An equal routing.
fn copy_routing(alloc: Global, routing: &Option<DocId>) -> Result<Option<DocId>, AllocError>
    ensures { IfOk result (λ other. other ≡ routing.now) }
{
    match routing {
        Some(text) => {
            let text = text.copy(alloc)?;
            Ok(Some(text))
        }
        None => Ok(None),
    }
}

/// A routing is within its bounds.
fn know_routing(routing: &Option<DocId>)
    ensures { IfSome routing.now IsIdText }
{
    match routing {
        Some(text) => {
            let _bounds = text.as_str();
        }
        None => {}
    }
}

/// An operation of a shard's history, under its sequence number, which the primary gives it together
/// with its term (Elastic reference, sequence numbers).
/// An operation keeps the bounds under which it can be spelled in bytes: the source of an index
/// operation has 2 to 524,288 bytes, and a no-op has version 0.
#[derive(Debug, Drop)]
pub struct Op {
    seq: u64,
    term: Term,
    version: u64,
    kind: Kind,
}

impl Model for Op {
    ghost use Rattle.ccr_op.specs.Operation.{Operation, HasSpelling};

    ghost Value = { Operation };

    ghost view = { λ a. record { seq = a.seq; term = a.term; version = a.version; kind = a.kind } };

    ghost invariant = { λ a. HasSpelling (record { seq = a.seq; term = a.term; version = a.version; kind = a.kind }) };
}

impl Op {
    ghost use Rattle.ccr_op.specs.declared.operation.Kind.TheVariants.{Index, Delete, NoOp};

    /// An operation that puts a document in place, with the text that it is routed by if not by its id.
    pub fn index(
        seq: u64,
        term: Term,
        version: u64,
        id: DocId,
        routing: Option<DocId>,
        body: Body,
    ) -> Op
        requires { IsSourceText body }
        ensures { result ≡ record { seq = seq; term = term; version = version; kind = Index id routing body } }
    {
        let _bounds = id.as_str();
        know_routing(&routing);
        Op {
            seq,
            term,
            version,
            kind: Kind::Index { id, routing, body },
        }
    }

    /// An operation that takes a document away, with the text that it is routed by if not by its id.
    pub fn delete(seq: u64, term: Term, version: u64, id: DocId, routing: Option<DocId>) -> Op
        ensures { result ≡ record { seq = seq; term = term; version = version; kind = Delete id routing } }
    {
        let _bounds = id.as_str();
        know_routing(&routing);
        Op {
            seq,
            term,
            version,
            kind: Kind::Delete { id, routing },
        }
    }

    /// An operation that only fills a number.
    pub fn no_op(seq: u64, term: Term) -> Op
        ensures { result ≡ record { seq = seq; term = term; version = 0; kind = NoOp } }
    {
        Op {
            seq,
            term,
            version: 0,
            kind: Kind::NoOp,
        }
    }

    /// The sequence number.
    pub fn seq(&self) -> u64
        ensures { result ≡ self.now.seq }
    {
        self.seq
    }

    /// The term of the primary that took it.
    pub fn term(&self) -> Term
        ensures { result ≡ self.now.term }
    {
        self.term
    }

    /// The version of its document: 0 for a no-op.
    pub fn version(&self) -> u64
        ensures { result ≡ self.now.version }
    {
        self.version
    }

    /// What it does.
    pub fn kind(&self) -> &Kind
        ensures value { result.now ≡ self.now.kind }
        ensures fits { HasSpelling self.now }
    {
        &self.kind
    }

    /// What it does, by value.
    pub fn into_kind(self) -> Kind
        ensures { result ≡ self.kind }
    {
        self.kind
    }

    /// The id that it is about: none for a no-op.
    pub fn id(&self) -> Option<&DocId>
        ensures { option_copied result ≡ id_of self.now.kind }
    {
        self.kind.id()
    }

    /// The text that it is routed by in place of its id: none for a no-op.
    pub fn routing(&self) -> Option<&DocId>
        ensures { option_copied result ≡ routing_of self.now.kind }
    {
        self.kind.routing()
    }

    /// Whether the other is the same operation.
    #[tactic(auto, using(crate::proofs::Sameness::same_operation_is_equal))]
    pub fn is(&self, other: &Op) -> bool
        ensures test { result ≡ same_operation self.now other.now }
        ensures equal { IsTrue result ↔ (self.now ≡ other.now) }
    {
        self.seq == other.seq
            && self.term == other.term
            && self.version == other.version
            && self.kind.is(&other.kind)
    }

    /// An equal operation.
    pub fn copy(&self, alloc: Global) -> Result<Op, AllocError>
        ensures { IfOk result (λ other. other ≡ self.now) }
    {
        let kind = self.kind.copy(alloc)?;
        Ok(Op {
            seq: self.seq,
            term: self.term,
            version: self.version,
            kind,
        })
    }
}
