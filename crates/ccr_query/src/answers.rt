// What one shard answers to a search.
ghost use Rattle.std.specs.Prelude.{◌≡◌, IfOk};

use ccr_op::{Body, Count, DocId};
use std::alloc::{AllocError, Global};
use std::marker::Model;

/// A document that a query holds on.
#[derive(Debug, Drop)]
pub struct Hit {
    pub id: DocId,
    /// The text by which it is routed in place of the id.
    pub routing: Option<DocId>,
    pub body: Body,
}

impl Hit {
    /// An equal hit.
    pub fn copy(&self, alloc: Global) -> Result<Hit, AllocError>
        ensures { IfOk result (λ other. other ≡ self.now) }
    {
        let id = self.id.copy(alloc)?;
        let routing = match &self.routing {
            Some(routing) => {
                let routing = routing.copy(alloc)?;
                Some(routing)
            }
            None => None,
        };
        let body = self.body.copy(alloc)?;
        Ok(Hit { id, routing, body })
    }
}

/// The hits of a copy of a shard, in the order of the search's keys and then of their ids; the copy's
/// local count, and whether operations below its highest number are missing there.
#[derive(Debug, Drop)]
pub struct ShardAnswer {
    count: Count,
    gap: bool,
    hits: Vec<Hit>,
}

impl Model for ShardAnswer {
    ghost use Rattle.ccr_query.specs.Answers.{HitsOfShard};

    ghost Value = { HitsOfShard };

    ghost view = { λ a. record { count = a.count; gap = a.gap; hits = a.hits.items } };
}

impl ShardAnswer {
    pub fn new(count: Count, gap: bool, hits: Vec<Hit>) -> ShardAnswer
        ensures { result ≡ record { count = count; gap = gap; hits = hits.items } }
    {
        ShardAnswer { count, gap, hits }
    }

    pub fn count(&self) -> Count
        ensures { result ≡ self.now.count }
    {
        self.count
    }

    pub fn gap(&self) -> bool
        ensures { result ≡ self.now.gap }
    {
        self.gap
    }

    pub fn hits(&self) -> &[Hit]
        ensures { result.now ≡ self.now.hits }
    {
        self.hits.as_slice()
    }

    /// The hits, with their memory.
    pub fn into_vec(self) -> Vec<Hit>
        ensures { result.items ≡ self.hits }
    {
        self.hits
    }

    /// An equal answer.
    pub fn copy(&self, alloc: Global) -> Result<ShardAnswer, AllocError>
        ensures { IfOk result (λ other. other ≡ self.now) }
    {
        let hits = copy_hits(alloc, self.hits.as_slice())?;
        Ok(ShardAnswer::new(self.count, self.gap, hits))
    }
}

fn copy_hits(alloc: Global, hits: &[Hit]) -> Result<Vec<Hit>, AllocError>
    ensures { IfOk result (λ others. others.items ≡ hits.now) }
{
    let mut others = Vec::with_capacity(alloc, hits.len())?;
    for hit in hits {
        others.push(hit.copy(alloc)?)?;
    }
    Ok(others)
}
