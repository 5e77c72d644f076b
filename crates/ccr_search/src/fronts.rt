//! The hits of several shards, each shard's in order, which are taken one after another in the order of all.

ghost use Rattle.std.specs.Prelude.{◌≡◌, ◌+◌, ◌<◌, length, map, take, drop, slice_get, IfOk, OnOk, option_copied};
ghost use Rattle.ccr_search.specs.Joined.{leads, rests_in, sorted_rests, AreSorted, AreFirstValues, IsFirstOf, IsTaken, IsValued, AreValued};

use crate::found::read_source;
use crate::ranks::{compare, values_of};
use ccr_doc::Scalar;
use ccr_query::{Hit, ShardAnswer, SortKey};
use std::alloc::{AllocError, Global};

/// The hits of a shard that are not yet taken, and for each key of the sort the value of the first of them, which is
/// worked out once a hit.
#[derive(Drop)]
pub struct Front<'a> {
    pub hits: &'a [Hit],
    pub values: Vec<Option<Scalar>>,
}

/// The first hits of each part, as many as a place and a number together.
pub fn fronts_of<'a>(
    alloc: Global,
    sort: &[SortKey],
    parts: &'a [ShardAnswer],
    from: u64,
    size: u64,
) -> Result<Vec<Front<'a>>, AllocError>
    ensures hits { IfOk result (λ fronts. rests_in fronts.items
        ≡ map (λ part. take (from + size) part.hits) parts.entry.now) }
    ensures valued { IfOk result (λ fronts. AreValued sort.now fronts.items) }
{
    let mut fronts = Vec::with_capacity(alloc, parts.len())?;
    for part in parts {
        let front = front_of(alloc, sort, part, from, size)?;
        fronts.push(front)?;
    }
    Ok(fronts)
}

fn front_of<'a>(
    alloc: Global,
    sort: &[SortKey],
    part: &'a ShardAnswer,
    from: u64,
    size: u64,
) -> Result<Front<'a>, AllocError>
    ensures hits { IfOk result (λ front. front.hits.now ≡ take (from + size) part.entry.now.hits) }
    ensures valued { IfOk result (IsValued sort.now) }
{
    let hits = first_hits(part.hits(), from, size);
    let values = first_values(alloc, sort, hits)?;
    Ok(Front { hits, values })
}

#[tactic(auto, using(crate::proofs::Pages::take_whole))]
fn first_hits(hits: &[Hit], from: u64, size: u64) -> &[Hit]
    ensures { result.now ≡ take (from + size) hits.entry.now }
{
    let len = hits.len() as u64;
    if from >= len {
        return hits;
    }
    if size >= len - from {
        return hits;
    }
    &hits[..(from + size) as usize]
}

/// The values of the first of these hits for the keys. Without keys no source is read.
fn first_values(
    alloc: Global,
    sort: &[SortKey],
    hits: &[Hit],
) -> Result<Vec<Option<Scalar>>, AllocError>
    ensures { IfOk result (λ values. AreFirstValues sort.now hits.now values.items) }
{
    let Some(hit) = hits.first() else {
        return Ok(Vec::new(alloc));
    };
    if sort.is_empty() {
        return Ok(Vec::new(alloc));
    }
    let document = read_source(alloc, hit.body.as_str().as_bytes())?;
    values_of(alloc, sort, &document)
}

/// Takes the first of the hits that are left: by the keys, then by id, and of equal ones that of the first shard. The
/// cost goes with the number of shards.
pub fn take_first<'a>(
    alloc: Global,
    sort: &[SortKey],
    fronts: &mut [Front<'a>],
) -> Result<Option<&'a Hit>, AllocError>
    requires { AreValued sort.now fronts.old }
    ensures valued { OnOk result (AreValued sort.now fronts.new) }
    ensures taken { AreSorted sort.now (rests_in fronts.old)
        → IfOk result (λ hit. IsTaken sort.now (rests_in fronts.old) (rests_in fronts.new) (option_copied hit)) }
{
    if fronts.is_empty() {
        return Ok(None);
    }
    let place = first_place(sort, fronts);
    take_hit(alloc, sort, &mut fronts[place])
}

/// Takes the first hit of a front.
fn take_hit<'a>(
    alloc: Global,
    sort: &[SortKey],
    front: &mut Front<'a>,
) -> Result<Option<&'a Hit>, AllocError>
    ensures hit { IfOk result (λ hit. option_copied hit ≡ slice_get front.old.hits.now 0) }
    ensures left { OnOk result (front.new.hits.now ≡ drop 1 front.old.hits.now) }
    ensures valued { OnOk result (IsValued sort.now front.new) }
{
    let Some((hit, rest)) = front.hits.split_first() else {
        return Ok(None);
    };
    front.values = first_values(alloc, sort, rest)?;
    front.hits = rest;
    Ok(Some(hit))
}

/// The place of the front whose first hit stands before those of all others, and of equal ones before the later.
fn first_place(sort: &[SortKey], fronts: &[Front<'_>]) -> usize
    requires some { 0 < length fronts.now }
    requires valued { AreValued sort.now fronts.now }
    ensures place { IsFirstOf sort.now (rests_in fronts.now) (length fronts.now) result }
    ensures low { result < length fronts.now }
{
    let mut first = 0;
    for (place, front) in fronts.iter().enumerate() {
        if is_leading(sort, front, &fronts[first]) {
            first = place;
        }
    }
    first
}

/// Whether the first front has a hit, and it stands before that of the other.
fn is_leading(sort: &[SortKey], front: &Front<'_>, other: &Front<'_>) -> bool
    requires own { IsValued sort.now front.now }
    requires others { IsValued sort.now other.now }
    ensures { result ≡ leads sort.now front.now.hits.now other.now.hits.now }
{
    let Some(hit) = front.hits.first() else {
        return false;
    };
    let Some(than) = other.hits.first() else {
        return true;
    };
    compare(
        sort,
        front.values.as_slice(),
        &hit.id,
        other.values.as_slice(),
        &than.id,
    )
    .is_lt()
}
