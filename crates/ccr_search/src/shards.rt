//! What one shard answers to a search.

ghost use Rattle.std.specs.Prelude.{◌≡◌, ◌+◌, ◌≤◌, [], List, filter, length, IfOk};
ghost use Rattle.ccr_op.specs.Operation.{Operation};
ghost use Rattle.ccr_query.specs.Queries.{Tree, holds};
ghost use Rattle.ccr_model.specs.Searches.{fields_of_hit, live_hits, sorted_hits};
ghost use Rattle.ccr_model.specs.Stores.{held};
ghost use Rattle.ccr_search.specs.Ranks.{hits_in, AreRanked};
ghost use Rattle.ccr_search.specs.Finds.{AreFound, AreOnce};

use crate::found::found;
use crate::ranks::{Ranked, hits_of, sort_ranked};
use ccr_op::Count;
use ccr_query::{Hit, Query, Reads, ShardAnswer, SortKey};
use ccr_store::Store;
use std::alloc::{AllocError, Global};

/// What a copy of a shard answers to a search: the live documents of what it holds on which the query holds, sorted
/// by the keys and then by the bytes of their ids, with the copy's count and whether it has a gap, as they are given.
///
/// Each live document is judged once, which `reads` counts. A source is read once, and not at all where neither the
/// query nor the keys ask for a field; a body that is no document has no field. Without keys the hits come in the order
/// of the walk, and nothing is sorted; with keys they are sorted once, by values that were worked out once a hit.
/// Texts are shared. A counter of reads at its last value is answered as want of memory.
pub fn shard_search(
    alloc: Global,
    store: &Store,
    count: Count,
    gap: bool,
    query: &Query,
    sort: &[SortKey],
    reads: &mut Reads,
) -> Result<ShardAnswer, AllocError>
    // Whatever the store is, these hits and no others.
    ensures exact { IfOk result (λ answer. (answer.count ≡ count) × (answer.gap ≡ gap)
        × AreFound (held store.now) query.now sort.now answer.hits) }
    // They are the model's, where no number is held twice.
    ensures answer { AreOnce (held store.now) → IfOk result (λ answer. answer ≡ record {
      count = count;
      gap = gap;
      hits = sorted_hits sort.now (filter (λ hit. holds query.now (fields_of_hit hit)) (live_hits (held store.now)));
    }) }
    ensures counted { (reads.old ≤ reads.new) × (reads.new ≤ reads.old + length (live_hits (held store.now))) }
{
    let all = found(alloc, store, query, sort, reads)?;
    let hits = sorted(alloc, sort, all)?;
    Ok(ShardAnswer::new(count, gap, hits))
}

/// The hits in the order of the keys, from the order of their ids.
fn sorted(alloc: Global, sort: &[SortKey], all: Vec<Ranked>) -> Result<Vec<Hit>, AllocError>
    requires { AreRanked sort.now all.items }
    ensures { (ops : List Operation) → (query : Tree) → AreFound ops query [] (hits_in all.items)
        → IfOk result (λ hits. AreFound ops query sort.now hits.items) }
{
    if sort.is_empty() {
        return hits_of(alloc, all);
    }
    let mut all = all;
    sort_ranked(sort, &mut all)?;
    hits_of(alloc, all)
}
