// Queries, and what they mean on one document.
ghost use Rattle.std.specs.Prelude.{◌≡◌, ◌+◌, ◌<◌, ◌^◌, IfOk};
ghost use Rattle.ccr_query.specs.Queries.{holds as holds_of, all_hold as all_hold_of, any_holds as any_holds_of, is_empty as is_empty_of, trees_of};

use crate::conditions::Condition;
use crate::counting::Reads;
use ccr_doc::Doc;
use std::alloc::{AllocError, Global};
use std::marker::Model;

/// A query: what it asks of a document.
#[cycle(query)]
#[derive(Debug, Drop)]
pub struct Query {
    node: Node,
}

/// A condition on one field, or lists of queries. Of the lists, all of `must` and `filter` hold and none
/// of `must_not`; and one of `should`, where that list is not empty and `must` and `filter` are.
#[cycle(query)]
#[derive(Debug, Drop)]
pub enum Node {
    Condition(Condition),
    Bool {
        must: Vec<Query>,
        filter: Vec<Query>,
        should: Vec<Query>,
        must_not: Vec<Query>,
    },
}

impl Model for Query {
    ghost use Rattle.ccr_query.specs.Queries.{Tree};
    ghost use Rattle.ccr_query.specs.Codes.{tree_code, tree_size};

    ghost Value = { Tree };

    ghost coded = { tree_code };

    ghost use Rattle.ccr_query.specs.Nodes.{tree_of};

    ghost view = { λ a. tree_of a.node };

    ghost size = { tree_size };

    ghost use Rattle.ccr_query.specs.TreeFalls.{depth_le-tree_size};

    ghost size_decreases = { λ a h. depth_le-tree_size a.node };
}

impl Query {
    ghost use Rattle.ccr_query.specs.Nodes.{tree_of};

    pub fn new(node: Node) -> Query
        ensures { result ≡ tree_of node }
    {
        Query { node }
    }

    pub fn node(&self) -> &Node
        ensures { tree_of result.now ≡ self.now }
    {
        &self.node
    }

    /// Whether the query holds on the document, which is counted as read whatever the answer is. Takes
    /// no memory, and time by the product of the query's length and the document's.
    pub fn holds(&self, document: &Doc, reads: &mut Reads) -> bool
        requires { reads.old + 1 < 2 ^ 64 }
        ensures answer { result ≡ holds_of self.now document.now }
        ensures counted { reads.new ≡ reads.old + 1 }
    {
        reads.add();
        judge(self, document)
    }

    pub fn copy(&self, alloc: Global) -> Result<Query, AllocError>
        ensures { IfOk result (λ other. other ≡ self.now) }
    {
        copy_query(alloc, self)
    }
}

#[tactic(auto, using(crate::proofs::Trees::is_empty_trees))]
fn is_empty(queries: &Vec<Query>) -> bool
    ensures { result ≡ is_empty_of (trees_of queries.now.items) }
{
    queries.as_slice().is_empty()
}

#[cycle(judge)]
fn judge(query: &Query, document: &Doc) -> bool
    ensures { result ≡ holds_of query.now document.now }
{
    match &query.node {
        Node::Condition(condition) => condition.meets(document),
        Node::Bool {
            must,
            filter,
            should,
            must_not,
        } => {
            all_hold(must, document)
                && all_hold(filter, document)
                && !any_holds(must_not, document)
                && (!is_empty(must)
                    || !is_empty(filter)
                    || is_empty(should)
                    || any_holds(should, document))
        }
    }
}

#[cycle(judge)]
#[tactic(auto, using(crate::proofs::Trees::trees_of_drop, crate::proofs::Trees::trees_size_at))]
fn all_hold(queries: &Vec<Query>, document: &Doc) -> bool
    ensures { result ≡ all_hold_of (trees_of queries.now.items) document.now }
{
    for query in queries {
        if !judge(query, document) {
            return false;
        }
    }
    true
}

#[cycle(judge)]
#[tactic(auto, using(crate::proofs::Trees::trees_of_drop, crate::proofs::Trees::trees_size_at))]
fn any_holds(queries: &Vec<Query>, document: &Doc) -> bool
    ensures { result ≡ any_holds_of (trees_of queries.now.items) document.now }
{
    for query in queries {
        if judge(query, document) {
            return true;
        }
    }
    false
}

#[cycle(copy)]
fn copy_query(alloc: Global, query: &Query) -> Result<Query, AllocError>
    ensures { IfOk result (λ other. other ≡ query.now) }
{
    match &query.node {
        Node::Condition(condition) => {
            let condition = condition.copy(alloc)?;
            Ok(Query::new(Node::Condition(condition)))
        }
        Node::Bool {
            must,
            filter,
            should,
            must_not,
        } => {
            let must = copy_queries(alloc, must)?;
            let filter = copy_queries(alloc, filter)?;
            let should = copy_queries(alloc, should)?;
            let must_not = copy_queries(alloc, must_not)?;
            Ok(Query::new(Node::Bool {
                must,
                filter,
                should,
                must_not,
            }))
        }
    }
}

#[cycle(copy)]
#[tactic(auto, using(crate::proofs::Trees::trees_size_at))]
fn copy_queries(alloc: Global, queries: &Vec<Query>) -> Result<Vec<Query>, AllocError>
    ensures { IfOk result (λ others. others.items ≡ queries.now.items) }
{
    let mut others = Vec::with_capacity(alloc, queries.len())?;
    for query in queries {
        others.push(copy_query(alloc, query)?)?;
    }
    Ok(others)
}
