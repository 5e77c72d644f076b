//! What the answers of several shards come to as one.

ghost use Rattle.std.specs.Prelude.{◌≡◌, ◌+◌, ◌≤◌, ◌^◌, length, map, take, drop, All, IfOk, OnOk};
ghost use Rattle.std.specs.List.{sum};
ghost use Rattle.ccr_law_stores.specs.ShardsJoined.{joined, front_of};
ghost use Rattle.ccr_search.specs.Joined.{checkpoint_of, said_by, rests_in, sorted_rests, AreInOrderEach, AreSorted, AreValued, IsSkipped};

use crate::fronts::{Front, fronts_of, take_first};
use ccr_op::Count;
use ccr_query::{Hit, ShardAnswer, SortKey};
use std::alloc::{AllocError, Global};

/// The answer of a search over several shards: by shard, the local checkpoint of the copy that answered (Elastic's
/// reference on sequence numbers: the greatest number up to which nothing is missing, and -1 where there is none) and
/// whether operations behind it are there; the hits of the page that was asked for; and how many hits there are in all.
#[derive(Debug, Drop)]
pub struct Answer {
    pub checkpoints: Vec<i64>,
    pub gaps: Vec<bool>,
    pub hits: Vec<Hit>,
    pub total: u64,
}

/// Joins the answers of several shards, each of which is in the order of the keys and then of the ids: the hits from a
/// place on, counted from 0, at most so many, in the order of the keys, then of the ids, and then of the shards.
///
/// The cost goes with the number of shards for each hit up to the end of the page; a source is read once for each of
/// these hits, and not at all without keys. Texts are shared. A total of 2^64 or more is answered as want of memory.
pub fn join_answers(
    alloc: Global,
    parts: &[ShardAnswer],
    sort: &[SortKey],
    from: u64,
    size: u64,
) -> Result<Answer, AllocError>
    requires { All (λ part. part.count ≤ 2 ^ 63) parts.now }
    ensures checkpoints { IfOk result (λ a. a.checkpoints.items ≡ map (λ part. checkpoint_of part.count) parts.now) }
    ensures gaps { IfOk result (λ a. a.gaps.items ≡ map (λ part. part.gap) parts.now) }
    ensures total { IfOk result (λ a. a.total ≡ sum (map (λ part. length part.hits) parts.now)) }
    // By counts, it is what the law on the fronts of true answers makes of them.
    ensures answer { AreInOrderEach sort.now parts.now → IfOk result (λ a. said_by a
        ≡ joined sort.now from size (map (front_of (from + size)) parts.now)) }
{
    let checkpoints = checkpoints_of(alloc, parts)?;
    let gaps = gaps_of(alloc, parts)?;
    let total = total_of(parts)?;
    let hits = page_of(alloc, parts, sort, from, size)?;
    Ok(Answer {
        checkpoints,
        gaps,
        hits,
        total,
    })
}

fn checkpoints_of(alloc: Global, parts: &[ShardAnswer]) -> Result<Vec<i64>, AllocError>
    requires { All (λ part. part.count ≤ 2 ^ 63) parts.now }
    ensures { IfOk result (λ all. all.items ≡ map (λ part. checkpoint_of part.count) parts.now) }
{
    let mut all = Vec::with_capacity(alloc, parts.len())?;
    for part in parts {
        all.push(checkpoint(part.count()))?;
    }
    Ok(all)
}

/// The checkpoint of a count.
fn checkpoint(count: Count) -> i64
    requires { count ≤ 2 ^ 63 }
    ensures { result ≡ checkpoint_of count }
{
    if count == 0 {
        return -1;
    }
    (count - 1) as i64
}

fn gaps_of(alloc: Global, parts: &[ShardAnswer]) -> Result<Vec<bool>, AllocError>
    ensures { IfOk result (λ all. all.items ≡ map (λ part. part.gap) parts.now) }
{
    parts.iter().map(|part| part.gap()).collect(alloc)
}

/// How many hits there are in all.
#[tactic(auto, using(crate::proofs::Pages::total_next))]
fn total_of(parts: &[ShardAnswer]) -> Result<u64, AllocError>
    ensures { IfOk result (λ total. total ≡ sum (map (λ part. length part.hits) parts.now)) }
{
    let mut total = 0u64;
    for part in parts {
        let more = part.hits().len() as u64;
        if more > u64::MAX - total {
            return Err(AllocError);
        }
        total += more;
    }
    Ok(total)
}

/// The hits of the page.
fn page_of(
    alloc: Global,
    parts: &[ShardAnswer],
    sort: &[SortKey],
    from: u64,
    size: u64,
) -> Result<Vec<Hit>, AllocError>
    ensures { AreInOrderEach sort.now parts.now → IfOk result (λ hits. hits.items
        ≡ take size (drop from (sorted_rests sort.now (map (λ part. take (from + size) part.hits) parts.now)))) }
{
    let mut fronts = fronts_of(alloc, sort, parts, from, size)?;
    page_from(alloc, sort, fronts.as_mut_slice(), from, size)
}

/// So many of the hits that are left, from a place on.
fn page_from(
    alloc: Global,
    sort: &[SortKey],
    fronts: &mut [Front<'_>],
    from: u64,
    size: u64,
) -> Result<Vec<Hit>, AllocError>
    requires { AreValued sort.now fronts.old }
    ensures { AreSorted sort.now (rests_in fronts.old) → IfOk result (λ hits. hits.items
        ≡ take size (drop from (sorted_rests sort.now (rests_in fronts.old)))) }
{
    skip_hits(alloc, sort, fronts, from)?;
    take_hits(alloc, sort, fronts, size)
}

/// Passes over so many of the hits that are left, or over all.
fn skip_hits(
    alloc: Global,
    sort: &[SortKey],
    fronts: &mut [Front<'_>],
    count: u64,
) -> Result<(), AllocError>
    requires { AreValued sort.now fronts.old }
    ensures valued { OnOk result (AreValued sort.now fronts.new) }
    ensures skipped { AreSorted sort.now (rests_in fronts.old)
        → OnOk result (IsSkipped sort.now (rests_in fronts.old) (rests_in fronts.new) count) }
{
    for done in 0..count {
        let hit = take_first(alloc, sort, fronts)?;
        match hit {
            Some(_) => {}
            None => return Ok(()),
        }
    }
    Ok(())
}

/// Takes so many of the hits that are left, or all.
fn take_hits(
    alloc: Global,
    sort: &[SortKey],
    fronts: &mut [Front<'_>],
    count: u64,
) -> Result<Vec<Hit>, AllocError>
    requires { AreValued sort.now fronts.old }
    ensures { AreSorted sort.now (rests_in fronts.old) → IfOk result (λ hits. hits.items
        ≡ take count (sorted_rests sort.now (rests_in fronts.old))) }
{
    let mut hits = Vec::new(alloc);
    for done in 0..count {
        let taken = take_first(alloc, sort, fronts)?;
        match taken {
            Some(hit) => {
                let copied = hit.copy(alloc)?;
                hits.push(copied)?;
            }
            None => return Ok(hits),
        }
    }
    Ok(hits)
}
