// What is printed for a command, behind the number of its line.
ghost use Rattle.std.specs.Prelude.{◌≡◌, ◌++◌, IfOk, OnOk, string_bytes, codes, flat_map, length};
ghost use Rattle.ccr_answers.specs.Answers.{AreOrderedFor, all_dropped, decided_text, decision_text, dropped_in, first_text, followed_text, statuses_text, status_text, text_for};

use crate::forms::Answer;
use crate::joining::found_text;
use crate::told::text_of;
use crate::words::{fault_word, pattern_word};
use ccr_auto::Decision;
use ccr_journal::Reply;
use ccr_meta::{Decided, MetaFault};
use ccr_op::Name;
use std::alloc::{AllocError, Global};

/// The text of an answer, where the deeds of the plan were answered so. The answers of a search are moved, and it costs what its page costs
/// (`ccr_search::join_answers`); all else takes time by the length of the text. A sum of dropped leases past 64 bits, a total of hits past 64 bits and a
/// shard's count of more than 2^63 are answered as want of memory.
pub fn text(alloc: Global, answer: &Answer, told: Vec<Reply>) -> Result<String, AllocError>
    requires ordered { AreOrderedFor answer.now told.items }
    ensures { IfOk result (λ text. string_bytes text ≡ text_for answer.now told.items) }
{
    match answer {
        Answer::Done => String::from_str(alloc, "ok"),
        Answer::Refused(fault) => {
            let word = fault_word(*fault);
            format!(in alloc; "refused {word}")
        }
        Answer::PatternRefused(fault) => {
            let word = pattern_word(fault);
            format!(in alloc; "refused {word}")
        }
        Answer::Created { decided } => created_text(alloc, decided.as_slice()),
        Answer::Told { shard } => first_text(alloc, *shard, told.as_slice()),
        Answer::Found { sort, from, size } => found_text(
            alloc,
            sort.as_slice(),
            *from,
            *size,
            told,
        ),
        Answer::Statuses => all_statuses(alloc, told.as_slice()),
        Answer::Expired => {
            let expired = all_dropped(told.as_slice())?;
            format!(in alloc; "clock expired={expired}")
        }
        Answer::Settled => String::from_str(alloc, "settled"),
    }
}

fn first_text(alloc: Global, shard: u64, told: &[Reply]) -> Result<String, AllocError>
    ensures { IfOk result (λ text. string_bytes text ≡ first_text shard told.now) }
{
    match told.split_first() {
        None => String::from_str(alloc, "ok"),
        Some((reply, _)) => text_of(alloc, shard, reply),
    }
}

// ---- auto-follow

fn followed_text(
    alloc: Global,
    cluster: &Name,
    name: &Name,
    refused: Option<MetaFault>,
) -> Result<String, AllocError>
    ensures { IfOk result (λ text. string_bytes text ≡ followed_text cluster.now name.now refused) }
{
    let cluster = cluster.as_str();
    match refused {
        None => {
            let name = name.as_str();
            format!(in alloc; " followed={cluster}/{name}")
        }
        Some(fault) => {
            let word = fault_word(fault);
            format!(in alloc; " refused={cluster}:{word}")
        }
    }
}

fn decided_text(alloc: Global, decided: &Decided) -> Result<String, AllocError>
    ensures { IfOk result (λ text. string_bytes text ≡ decided_text decided.now) }
{
    match &decided.decision {
        Decision::None => Ok(String::new(alloc)),
        Decision::Follow { name } => followed_text(alloc, &decided.cluster, name, decided.refused),
        Decision::Conflict { first, second } => {
            conflict_text(alloc, &decided.cluster, first, second)
        }
    }
}

fn conflict_text(
    alloc: Global,
    cluster: &Name,
    first: &Name,
    second: &Name,
) -> Result<String, AllocError>
    ensures { IfOk result (λ text. string_bytes text ≡ codes " conflict=" ++ (cluster.now ++ (codes ":" ++ (first.now ++ (codes "," ++ second.now))))) }
{
    let cluster = cluster.as_str();
    let first = first.as_str();
    let second = second.as_str();
    format!(in alloc; " conflict={cluster}:{first},{second}")
}

fn created_text(alloc: Global, list: &[Decided]) -> Result<String, AllocError>
    ensures { IfOk result (λ text. string_bytes text ≡ codes "created" ++ flat_map decided_text list.now) }
{
    let mut text = String::from_str(alloc, "created")?;
    for decided in list {
        let one = decided_text(alloc, decided)?;
        text.push_str(one.as_str())?;
    }
    Ok(text)
}

// ---- several replies

fn push_status(
    alloc: Global,
    text: &mut String,
    shard: u64,
    reply: &Reply,
) -> Result<(), AllocError>
    ensures { OnOk result (string_bytes text.new ≡ string_bytes text.old ++ status_text shard reply.now) }
{
    let one = text_of(alloc, shard, reply)?;
    text.push_str(if shard == 0 { " " } else { " ; " })?;
    text.push_str(one.as_str())
}

fn all_statuses(alloc: Global, told: &[Reply]) -> Result<String, AllocError>
    ensures { IfOk result (λ text. string_bytes text ≡ codes "status" ++ statuses_text 0 told.now) }
{
    let mut text = String::from_str(alloc, "status")?;
    for (shard, reply) in told.iter().enumerate() {
        push_status(alloc, &mut text, shard as u64, reply)?;
    }
    Ok(text)
}

fn dropped_in(reply: &Reply) -> u64
    ensures { result ≡ dropped_in reply.now }
{
    match reply {
        Reply::Expired { list } => list.as_slice().len() as u64,
        _ => 0,
    }
}

fn all_dropped(told: &[Reply]) -> Result<u64, AllocError>
    ensures { IfOk result (λ dropped. dropped ≡ all_dropped told.now) }
{
    let mut dropped: u64 = 0;
    for reply in told {
        match dropped.checked_add(dropped_in(reply)) {
            Some(sum) => dropped = sum,
            None => return Err(AllocError),
        }
    }
    Ok(dropped)
}
