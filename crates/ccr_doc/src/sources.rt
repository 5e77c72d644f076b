// Which sources are refused.
ghost use Rattle.std.specs.Prelude.{◌≡◌, ◌≢◌, nat_le, Some, None, IfOk, IfErr, OnOk, string_bytes};
ghost use Rattle.serde_json.specs.Data.{depth, items_depth, members_depth};
ghost use Rattle.serde_json.specs.View.{view, items_view, members_view};
ghost use Rattle.serde_json.specs.Written.{compact_text};
ghost use Rattle.ccr_doc.specs.Sources.{has_other_number as has_other_number_of, items_have_other_number as items_have_other_number_of, members_have_other_number as members_have_other_number_of, value_of, judged, source_of, compact_of};
ghost use Rattle.ccr_doc.specs.declared.sources.BadSource.TheVariants.{Memory};

use ccr_op::MOST_SOURCE_BYTES;
use serde_json::{Map, Value};
use std::alloc::{AllocError, Global};
use thiserror::Error;

/// How many objects and lists may stand inside one another, the source itself counted.
const MOST_LEVELS: u64 = 20;

/// Why a source is refused. The first of `NotJson`, `NotObject`, `Nested`, `Number` and `TooLarge` that
/// holds is the one that is told.
#[derive(Clone, Copy, Debug, PartialEq, Eq, Error)]
pub enum BadSource {
    #[error("the source is no object")]
    NotObject,
    /// As 1.5, 1e2 and 9223372036854775808.
    #[error("a number is not a whole number of 64 bits with a sign")]
    Number,
    /// The source itself is counted.
    #[error("more than 20 objects and lists stand inside one another")]
    Nested,
    #[error("the compact text has more than 524,288 bytes")]
    TooLarge,
    #[error("the source is no JSON in UTF-8")]
    NotJson,
    /// This says nothing of the source.
    #[error("out of memory")]
    Memory,
}

impl From<AllocError> for BadSource {
    ghost from_gives = { λ _ e. e ≡ Memory };

    fn from(_error: AllocError) -> BadSource {
        BadSource::Memory
    }
}

/// The compact text of a source: no spaces, and the members of each object in ascending order of their
/// names. Refuses what `Doc::read` refuses.
pub fn compact(alloc: Global, from: &[u8]) -> Result<String, BadSource>
    ensures ok { IfOk result (λ text. compact_of from.now ≡ Ok (string_bytes text)) }
    ensures err { IfErr result (λ e. e ≢ BadSource.Memory → compact_of from.now ≡ Err e) }
{
    let (_, text) = read_source(alloc, from)?;
    Ok(text)
}

/// A source's value and its compact text.
pub(crate) fn read_source(alloc: Global, from: &[u8]) -> Result<(Value, String), BadSource>
    ensures value { IfOk result (λ read. source_of from.now ≡ Ok (view read.0)) }
    ensures text { IfOk result (λ read. string_bytes read.1 ≡ compact_text (view read.0)) }
    ensures err { IfErr result (λ e. e ≢ BadSource.Memory → source_of from.now ≡ Err e) }
{
    let value = parse(alloc, from)?;
    let text = judge(alloc, &value)?;
    Ok((value, text))
}

/// The value of a JSON text in UTF-8. Refuses with `NotJson` or `Memory` alone.
pub fn parse(alloc: Global, from: &[u8]) -> Result<Value, BadSource>
    ensures ok { IfOk result (λ value. value_of from.now ≡ Some (view value)) }
    ensures err { IfErr result (λ e. e ≢ BadSource.Memory
        → (e ≡ BadSource.NotJson) × (value_of from.now ≡ None)) }
{
    match Value::from_slice(alloc, from) {
        Ok(value) => Ok(value),
        Err(error) => {
            if error.is_memory() {
                return Err(BadSource::Memory);
            }
            Err(BadSource::NotJson)
        }
    }
}

// The compact text of a value that no refusal meets.
#[tactic(auto, using(crate::proofs::Values::no_float))]
fn judge(alloc: Global, value: &Value) -> Result<String, BadSource>
    ensures ok { OnOk result (judged (Some (view value.now)) ≡ Ok (view value.now)) }
    ensures text { IfOk result (λ text. string_bytes text ≡ compact_text (view value.now)) }
    ensures err { IfErr result (λ e. e ≢ BadSource.Memory
        → judged (Some (view value.now)) ≡ Err e) }
{
    if !value.is_object() {
        return Err(BadSource::NotObject);
    }
    if !nests_within(value, MOST_LEVELS) {
        return Err(BadSource::Nested);
    }
    if has_other_number(value) {
        return Err(BadSource::Number);
    }
    let text = value.to_string(alloc)?;
    if text.len() > MOST_SOURCE_BYTES {
        return Err(BadSource::TooLarge);
    }
    Ok(text)
}

#[cycle(nests)]
#[tactic(auto, using(crate::proofs::Walks::items_view_drop))]
fn nests_within(value: &Value, levels: u64) -> bool
    ensures { result ≡ nat_le (depth (view value.now)) levels }
{
    match value {
        Value::Array(items) => levels > 0 && items_nest_within(items, levels - 1),
        Value::Object(members) => levels > 0 && members_nest_within(members, levels - 1),
        _ => true,
    }
}

#[cycle(nests)]
#[tactic(auto, using(crate::proofs::Walks::items_view_drop))]
fn items_nest_within(items: &Vec<Value>, levels: u64) -> bool
    ensures { result ≡ nat_le (items_depth (items_view items.now.items)) levels }
{
    for item in items {
        if !nests_within(item, levels) {
            return false;
        }
    }
    true
}

#[cycle(nests)]
#[tactic(auto, using(crate::proofs::Walks::items_view_drop))]
fn members_nest_within(members: &Map<String, Value>, levels: u64) -> bool
    ensures { result ≡ nat_le (members_depth (members_view members.now.entries)) levels }
{
    for (_, member) in members.iter() {
        if !nests_within(member, levels) {
            return false;
        }
    }
    true
}

#[cycle(numbers)]
#[tactic(auto, using(crate::proofs::Walks::items_view_drop))]
fn has_other_number(value: &Value) -> bool
    ensures { result ≡ has_other_number_of (view value.now) }
{
    match value {
        Value::Number(number) => number.as_i64().is_none(),
        Value::Array(items) => items_have_other_number(items),
        Value::Object(members) => members_have_other_number(members),
        _ => false,
    }
}

#[cycle(numbers)]
#[tactic(auto, using(crate::proofs::Walks::items_view_drop))]
fn items_have_other_number(items: &Vec<Value>) -> bool
    ensures { result ≡ items_have_other_number_of (items_view items.now.items) }
{
    for item in items {
        if has_other_number(item) {
            return true;
        }
    }
    false
}

#[cycle(numbers)]
#[tactic(auto, using(crate::proofs::Walks::items_view_drop))]
fn members_have_other_number(members: &Map<String, Value>) -> bool
    ensures { result ≡ members_have_other_number_of (members_view members.now.entries) }
{
    for (_, member) in members.iter() {
        if has_other_number(member) {
            return true;
        }
    }
    false
}
