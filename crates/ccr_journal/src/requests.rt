// What a client asks to have written, and what it searches for.
ghost use Rattle.std.specs.Prelude.{◌≡◌, IfOk};

use ccr_op::{Body, DocId, Term};
use ccr_query::{Query, SortKey};
use std::alloc::{AllocError, Global};
use std::marker::Model;

/// A write of the document of an id, or its delete.
#[derive(Debug, Drop)]
pub struct WriteRequest {
    /// The document's id.
    pub id: DocId,
    /// The text by which it is routed in place of the id.
    pub routing: Option<DocId>,
    /// The document's source as it was given, which may be none; without it the document is deleted.
    pub body: Option<Body>,
    /// The write is refused where the document is there.
    pub create: bool,
    /// The write is refused where the document's operation has another number or term, or where there is
    /// no document.
    pub expect: Option<(u64, Term)>,
}

impl WriteRequest {
    /// An equal request.
    pub fn copy(&self, alloc: Global) -> Result<Self, AllocError>
        ensures { IfOk result (λ other. other ≡ self.now) }
    {
        let id = self.id.copy(alloc)?;
        let routing = match &self.routing {
            Some(routing) => {
                let routing = routing.copy(alloc)?;
                Some(routing)
            }
            None => None,
        };
        let body = match &self.body {
            Some(body) => {
                let body = body.copy(alloc)?;
                Some(body)
            }
            None => None,
        };
        Ok(WriteRequest {
            id,
            routing,
            body,
            create: self.create,
            expect: self.expect,
        })
    }
}

/// The keys by which a search is sorted, the first of which tells most. Contracts see the list of them.
#[derive(Debug, Drop)]
pub struct SortKeys {
    keys: Vec<SortKey>,
}

impl Model for SortKeys {
    ghost use Rattle.std.specs.Prelude.{List};
    ghost use Rattle.ccr_query.specs.declared.sorting.SortKey.{SortKey};

    ghost Value = { List SortKey };

    ghost view = { λ a. a.keys.items };
}

impl SortKeys {
    /// These keys.
    pub fn new(keys: Vec<SortKey>) -> Self
        ensures { result ≡ keys.items }
    {
        SortKeys { keys }
    }

    /// The keys.
    pub fn as_slice(&self) -> &[SortKey]
        ensures { result.now ≡ self.now }
    {
        self.keys.as_slice()
    }

    /// The keys, with their memory.
    pub fn into_vec(self) -> Vec<SortKey>
        ensures { result.items ≡ self }
    {
        self.keys
    }

    /// Equal keys.
    pub fn copy(&self, alloc: Global) -> Result<Self, AllocError>
        ensures { IfOk result (λ other. other ≡ self.now) }
    {
        let keys = copy_keys(alloc, self.keys.as_slice())?;
        Ok(SortKeys { keys })
    }
}

fn copy_keys(alloc: Global, keys: &[SortKey]) -> Result<Vec<SortKey>, AllocError>
    ensures { IfOk result (λ copies. copies.items ≡ keys.now) }
{
    let mut copies = Vec::with_capacity(alloc, keys.len())?;
    for key in keys {
        let copied = key.copy(alloc)?;
        copies.push(copied)?;
    }
    Ok(copies)
}

/// A search: the documents that the query holds on, in the order of the keys.
#[derive(Debug, Drop)]
pub struct SearchRequest {
    pub query: Query,
    pub sort: SortKeys,
}

impl SearchRequest {
    /// An equal request.
    pub fn copy(&self, alloc: Global) -> Result<Self, AllocError>
        ensures { IfOk result (λ other. other ≡ self.now) }
    {
        let query = self.query.copy(alloc)?;
        let sort = self.sort.copy(alloc)?;
        Ok(SearchRequest { query, sort })
    }
}
