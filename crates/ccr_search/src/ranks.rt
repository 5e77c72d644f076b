//! Hits beside the values by which they are sorted.

ghost use Rattle.std.specs.Prelude.{◌≡◌, drop, IfOk, OnOk, IsPermutation, IsSorted, option_copied};
ghost use Rattle.ccr_query.specs.Sorting.{key_of, keys_cmp};
ghost use Rattle.ccr_search.specs.Ranks.{values_in, first_value, rank_cmp, ranked_cmp, hits_in};

use ccr_doc::{Doc, Scalar};
use ccr_op::DocId;
use ccr_query::{Hit, SortKey, SortOrder};
use std::alloc::{AllocError, Global};
use std::cmp::Ordering;

/// A hit, and for each key of the sort its value, which is worked out once.
#[derive(Drop)]
pub struct Ranked {
    pub values: Vec<Option<Scalar>>,
    pub hit: Hit,
}

/// The document's value for each key. Texts are shared.
pub fn values_of(
    alloc: Global,
    sort: &[SortKey],
    document: &Doc,
) -> Result<Vec<Option<Scalar>>, AllocError>
    ensures { IfOk result (λ values. values.items ≡ values_in sort.now document.now) }
{
    let mut values = Vec::with_capacity(alloc, sort.len())?;
    for key in sort {
        values.push(value_of(alloc, key, document)?)?;
    }
    Ok(values)
}

fn value_of(alloc: Global, key: &SortKey, document: &Doc) -> Result<Option<Scalar>, AllocError>
    ensures { IfOk result (λ value. value ≡ key_of key.now document.now) }
{
    match key.value_in(document) {
        Some(value) => Ok(Some(value.copy(alloc)?)),
        None => Ok(None),
    }
}

/// Which of two hits stands first, by the values beside them and then by their ids.
pub fn compare(
    sort: &[SortKey],
    left: &[Option<Scalar>],
    left_id: &DocId,
    right: &[Option<Scalar>],
    right_id: &DocId,
) -> Ordering
    ensures { result ≡ rank_cmp sort.now left.now left_id.now right.now right_id.now }
{
    for (at, key) in sort.iter().enumerate() {
        let order = compare_values(key.order, value_at(left, at), value_at(right, at));
        if order.is_ne() {
            return order;
        }
    }
    left_id.cmp(right_id)
}

fn value_at(values: &[Option<Scalar>], at: usize) -> Option<&Scalar>
    ensures { option_copied result ≡ first_value (drop at values.now) }
{
    match values.get(at) {
        Some(Some(value)) => Some(value),
        _ => None,
    }
}

fn compare_values(order: SortOrder, left: Option<&Scalar>, right: Option<&Scalar>) -> Ordering
    ensures { result ≡ keys_cmp order (option_copied left.entry) (option_copied right.entry) }
{
    match (left, right) {
        (Some(left), Some(right)) => order.compare(left, right),
        (Some(_), None) => Ordering::Less,
        (None, Some(_)) => Ordering::Greater,
        (None, None) => Ordering::Equal,
    }
}

/// Sorts hits by the values beside them and then by their ids. After want of memory they are as before.
pub fn sort_ranked(sort: &[SortKey], all: &mut Vec<Ranked>) -> Result<(), AllocError>
    ensures same { IsPermutation all.old.items all.new.items }
    ensures sorted { OnOk result (IsSorted (ranked_cmp sort.now) all.new.items) }
{
    all.sort_by(|a, b| {
        compare(
            sort,
            a.values.as_slice(),
            &a.hit.id,
            b.values.as_slice(),
            &b.hit.id,
        )
    })
}

/// The hits alone, in their order.
pub fn hits_of(alloc: Global, all: Vec<Ranked>) -> Result<Vec<Hit>, AllocError>
    ensures { IfOk result (λ hits. hits.items ≡ hits_in all.items) }
{
    all.into_iter().map(|ranked| ranked.hit).collect(alloc)
}
