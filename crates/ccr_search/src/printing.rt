//! The text of an answer.

ghost use Rattle.std.specs.Prelude.{◌≡◌, ◌++◌, codes, nat_lt, IfOk, OnOk, string_bytes};
ghost use Rattle.serde_json.specs.Written.{comma_if};
ghost use Rattle.ccr_search.specs.Printed.{answer_text, checkpoint_text, hit_text, id_text, routing_text as routing_text_of, truth_text, listed};

use crate::joining::Answer;
use ccr_op::DocId;
use ccr_query::Hit;
use serde_json::Value;
use std::alloc::{AllocError, Global};

/// The text of an answer: a JSON object (RFC 8259) without spaces, with its members in this order: `checkpoints`,
/// `gaps`, `hits`, each with its `id`, its `routing` where it has one, and its `source` as it was kept, and `total`.
/// Takes time by the length of the text.
#[tactic(auto, unfolding(crate::specs::Printed::answer_text))]
pub fn text(alloc: Global, a: &Answer) -> Result<String, AllocError>
    ensures { IfOk result (λ text. string_bytes text ≡ answer_text a.now) }
{
    let checkpoints = checkpoints_text(alloc, a.checkpoints.as_slice())?;
    let gaps = gaps_text(alloc, a.gaps.as_slice())?;
    let hits = hits_text(alloc, a.hits.as_slice())?;
    let total = a.total;
    format!(in alloc;
        "{{\"checkpoints\":[{checkpoints}],\"gaps\":[{gaps}],\"hits\":[{hits}],\"total\":{total}}}"
    )
}

#[tactic(auto, using(crate::proofs::Listing::listed_next))]
fn checkpoints_text(alloc: Global, checkpoints: &[i64]) -> Result<String, AllocError>
    ensures { IfOk result (λ text. string_bytes text ≡ listed checkpoint_text checkpoints.now) }
{
    let mut text = String::new(alloc);
    for (index, checkpoint) in checkpoints.iter().enumerate() {
        push_checkpoint(alloc, &mut text, index, checkpoint)?;
    }
    Ok(text)
}

#[tactic(auto, using(crate::proofs::Listing::listed_next))]
fn gaps_text(alloc: Global, gaps: &[bool]) -> Result<String, AllocError>
    ensures { IfOk result (λ text. string_bytes text ≡ listed truth_text gaps.now) }
{
    let mut text = String::new(alloc);
    for (index, gap) in gaps.iter().enumerate() {
        push_gap(&mut text, index, gap)?;
    }
    Ok(text)
}

#[tactic(auto, unfolding(crate::specs::Printed::checkpoint_text))]
fn push_checkpoint(
    alloc: Global,
    text: &mut String,
    index: usize,
    checkpoint: &i64,
) -> Result<(), AllocError>
    ensures { OnOk result (string_bytes text.new
        ≡ string_bytes text.old ++ (comma_if (nat_lt 0 index) ++ checkpoint_text checkpoint.now)) }
{
    let number = checkpoint.to_string(alloc)?;
    push_listed(text, index, number.as_str())
}

fn push_gap(text: &mut String, index: usize, gap: &bool) -> Result<(), AllocError>
    ensures { OnOk result (string_bytes text.new
        ≡ string_bytes text.old ++ (comma_if (nat_lt 0 index) ++ truth_text gap.now)) }
{
    push_listed(text, index, truth_word(*gap))
}

/// A piece, after a comma unless it is the first.
fn push_listed(text: &mut String, index: usize, piece: &str) -> Result<(), AllocError>
    ensures { OnOk result (string_bytes text.new
        ≡ string_bytes text.old ++ (comma_if (nat_lt 0 index) ++ piece.now)) }
{
    if index == 0 {
        return text.push_str(piece);
    }
    text.push_str(",")?;
    text.push_str(piece)
}

#[tactic(auto, unfolding(crate::specs::Printed::truth_text))]
fn truth_word(truth: bool) -> &'static str
    ensures { result.now ≡ truth_text truth }
{
    if truth { "true" } else { "false" }
}

#[tactic(auto, using(crate::proofs::Listing::listed_next))]
fn hits_text(alloc: Global, hits: &[Hit]) -> Result<String, AllocError>
    ensures { IfOk result (λ text. string_bytes text ≡ listed hit_text hits.now) }
{
    let mut text = String::new(alloc);
    for (index, hit) in hits.iter().enumerate() {
        push_listed_hit(alloc, &mut text, index, hit)?;
    }
    Ok(text)
}

/// A hit, after a comma unless it is the first.
fn push_listed_hit(
    alloc: Global,
    text: &mut String,
    index: usize,
    hit: &Hit,
) -> Result<(), AllocError>
    ensures { OnOk result (string_bytes text.new
        ≡ string_bytes text.old ++ (comma_if (nat_lt 0 index) ++ hit_text hit.now)) }
{
    if index == 0 {
        return push_hit(alloc, text, hit);
    }
    text.push_str(",")?;
    push_hit(alloc, text, hit)
}

#[tactic(auto, unfolding(crate::specs::Printed::hit_text))]
fn push_hit(alloc: Global, text: &mut String, hit: &Hit) -> Result<(), AllocError>
    ensures { OnOk result (string_bytes text.new ≡ string_bytes text.old ++ hit_text hit.now) }
{
    let id = quoted_text(alloc, &hit.id)?;
    let routing = routing_text(alloc, &hit.routing)?;
    text.push_str("{\"id\":")?;
    text.push_str(id.as_str())?;
    text.push_str(routing.as_str())?;
    text.push_str(",\"source\":")?;
    text.push_str(hit.body.as_str())?;
    text.push_str("}")
}

/// The member of a hit's routing, with the comma before it, where it has one.
fn routing_text(alloc: Global, routing: &Option<DocId>) -> Result<String, AllocError>
    ensures { IfOk result (λ text. string_bytes text ≡ routing_text_of routing.now) }
{
    match routing {
        Some(routing) => named_routing(alloc, routing),
        None => Ok(String::new(alloc)),
    }
}

fn named_routing(alloc: Global, routing: &DocId) -> Result<String, AllocError>
    ensures { IfOk result (λ text. string_bytes text ≡ codes ",\"routing\":" ++ id_text routing.now) }
{
    let id = quoted_text(alloc, routing)?;
    format!(in alloc; ",\"routing\":{id}")
}

/// An id as a JSON string.
fn quoted_text(alloc: Global, id: &DocId) -> Result<String, AllocError>
    ensures { IfOk result (λ text. string_bytes text ≡ id_text id.now) }
{
    let value = Value::String(String::from_str(alloc, id.as_str())?);
    value.to_string(alloc)
}
