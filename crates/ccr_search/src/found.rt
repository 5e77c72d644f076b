//! The walk over the live documents of a store.

ghost use Rattle.std.specs.Prelude.{◌≡◌, ◌+◌, ◌≤◌, ◌++◌, [], false, List, length, IfOk, IfSome, OnOk, option_map, option_and_then};
ghost use Rattle.std.specs.Option.{option_to_list};
ghost use Rattle.ccr_doc.specs.declared.documents.Field.{Field};
ghost use Rattle.ccr_query.specs.Queries.{holds};
ghost use Rattle.ccr_model.specs.Searches.{live_hits};
ghost use Rattle.ccr_model.specs.Stores.{held};
ghost use Rattle.ccr_search.specs.Ranks.{hits_in, AreRanked, IsRanked};
ghost use Rattle.ccr_search.specs.Finds.{fields_of_source, hit_of, kept_hit, values_if_held, AreFound, StandForAny};

use crate::ranks::{Ranked, values_of};
use ccr_doc::{BadSource, Doc, Scalar};
use ccr_op::{Body, DocId, Kind, Op};
use ccr_query::{Condition, Hit, Node, Query, Reads, SortKey};
use ccr_store::Store;
use std::alloc::{AllocError, Global};

/// The live documents on which the query holds, in the order of their ids, each beside its values for the keys. Each
/// live document is judged once; its source is read once, and not at all where neither the query nor the keys ask
/// for a field. Texts are shared. A counter of reads at its last value is answered as want of memory.
pub fn found(
    alloc: Global,
    store: &Store,
    query: &Query,
    sort: &[SortKey],
    reads: &mut Reads,
) -> Result<Vec<Ranked>, AllocError>
    ensures hits { IfOk result (λ all. AreFound (held store.now) query.now [] (hits_in all.items)) }
    ensures ranked { IfOk result (λ all. AreRanked sort.now all.items) }
    ensures counted { (reads.old ≤ reads.new) × (reads.new ≤ reads.old + length (live_hits (held store.now))) }
{
    let stand_in = stand_in(alloc, query, sort)?;
    walk(alloc, store, query, sort, &stand_in, reads)
}

/// Judges one live document after another, in the order of their ids.
fn walk(
    alloc: Global,
    store: &Store,
    query: &Query,
    sort: &[SortKey],
    stand_in: &Option<Doc>,
    reads: &mut Reads,
) -> Result<Vec<Ranked>, AllocError>
    requires { IfSome stand_in.now (StandForAny query.now sort.now) }
    ensures hits { IfOk result (λ all. AreFound (held store.now) query.now [] (hits_in all.items)) }
    ensures ranked { IfOk result (λ all. AreRanked sort.now all.items) }
    ensures counted { (reads.old ≤ reads.new) × (reads.new ≤ reads.old + length (live_hits (held store.now))) }
{
    let mut all = Vec::new(alloc);
    let mut last = None;
    'live: while let Some(op) = store.live_after(last) {
        last = op.id();
        let hit = judged(alloc, query, sort, stand_in, op, reads)?;
        keep(&mut all, hit)?;
    }
    Ok(all)
}

/// Puts a hit, where there is one, behind those that are there.
fn keep(all: &mut Vec<Ranked>, hit: Option<Ranked>) -> Result<(), AllocError>
    ensures { OnOk result (all.new.items ≡ all.old.items ++ option_to_list hit) }
{
    match hit {
        Some(ranked) => {
            all.push(ranked)?;
            Ok(())
        }
        None => Ok(()),
    }
}

/// The document that the operation puts in place, beside its values, where the query holds on it.
fn judged(
    alloc: Global,
    query: &Query,
    sort: &[SortKey],
    stand_in: &Option<Doc>,
    op: &Op,
    reads: &mut Reads,
) -> Result<Option<Ranked>, AllocError>
    requires { IfSome stand_in.now (StandForAny query.now sort.now) }
    ensures hit { IfOk result (λ found. option_map (λ ranked. ranked.hit) found
        ≡ option_and_then (kept_hit query.now) (hit_of op.now)) }
    ensures ranked { IfOk result (λ found. IfSome found (IsRanked sort.now)) }
    ensures counted { (reads.old ≤ reads.new) × (reads.new ≤ reads.old + 1) }
{
    match op.kind() {
        Kind::Index { id, routing, body } => {
            match values_of_source(alloc, query, sort, stand_in, body, reads)? {
                Some(values) => {
                    let hit = hit_from(alloc, id, routing, body)?;
                    Ok(Some(Ranked { values, hit }))
                }
                None => Ok(None),
            }
        }
        Kind::Delete { .. } => Ok(None),
        Kind::NoOp => Ok(None),
    }
}

/// The values of a source for the keys, where the query holds on it.
fn values_of_source(
    alloc: Global,
    query: &Query,
    sort: &[SortKey],
    stand_in: &Option<Doc>,
    body: &Body,
    reads: &mut Reads,
) -> Result<Option<Vec<Option<Scalar>>>, AllocError>
    requires { IfSome stand_in.now (StandForAny query.now sort.now) }
    ensures values { IfOk result (λ values. option_map (λ v. v.items) values
        ≡ values_if_held query.now sort.now (fields_of_source body.now)) }
    ensures counted { (reads.old ≤ reads.new) × (reads.new ≤ reads.old + 1) }
{
    match stand_in {
        Some(document) => values_of_document(alloc, query, sort, document, reads),
        None => {
            let document = read_source(alloc, body.as_str().as_bytes())?;
            values_of_document(alloc, query, sort, &document, reads)
        }
    }
}

/// The values of a document for the keys, where the query holds on it.
fn values_of_document(
    alloc: Global,
    query: &Query,
    sort: &[SortKey],
    document: &Doc,
    reads: &mut Reads,
) -> Result<Option<Vec<Option<Scalar>>>, AllocError>
    ensures values { IfOk result (λ values. option_map (λ v. v.items) values
        ≡ values_if_held query.now sort.now document.now) }
    ensures counted { (reads.old ≤ reads.new) × (reads.new ≤ reads.old + 1) }
{
    if reads.count() == u64::MAX {
        return Err(AllocError);
    }
    if !query.holds(document, reads) {
        return Ok(None);
    }
    let values = values_of(alloc, sort, document)?;
    Ok(Some(values))
}

/// A document that stands for any, where neither the query nor the keys ask for a field.
fn stand_in(alloc: Global, query: &Query, sort: &[SortKey]) -> Result<Option<Doc>, AllocError>
    ensures { IfOk result (λ document. IfSome document (StandForAny query.now sort.now)) }
{
    if !sort.is_empty() {
        return Ok(None);
    }
    if asks_for_fields(query) {
        return Ok(None);
    }
    Ok(Some(empty_document(alloc)?))
}

/// Whether the query may ask for a field of a document.
fn asks_for_fields(query: &Query) -> bool
    ensures { result ≡ false → (own : List Field) → (fields : List Field) → holds query.now own ≡ holds query.now fields }
{
    match query.node() {
        Node::Condition(Condition::MatchAll) => false,
        _ => true,
    }
}

/// The fields of a source; one that is no document has none.
pub fn read_source(alloc: Global, source: &[u8]) -> Result<Doc, AllocError>
    ensures { IfOk result (λ document. document ≡ fields_of_source source.now) }
{
    match Doc::read(alloc, source) {
        Ok(document) => Ok(document),
        Err(BadSource::Memory) => Err(AllocError),
        Err(_) => empty_document(alloc),
    }
}

/// A document with no field.
fn empty_document(alloc: Global) -> Result<Doc, AllocError>
    ensures { IfOk result (λ document. document ≡ []) }
{
    match Doc::read(alloc, b"{}") {
        Ok(document) => Ok(document),
        Err(_) => Err(AllocError),
    }
}

fn hit_from(
    alloc: Global,
    id: &DocId,
    routing: &Option<DocId>,
    body: &Body,
) -> Result<Hit, AllocError>
    ensures { IfOk result (λ hit. hit ≡ record { id = id.now; routing = routing.now; body = body.now }) }
{
    let id = id.copy(alloc)?;
    let routing = match routing {
        Some(routing) => {
            let routing = routing.copy(alloc)?;
            Some(routing)
        }
        None => None,
    };
    let body = body.copy(alloc)?;
    Ok(Hit { id, routing, body })
}
