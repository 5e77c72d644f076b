// What a search over several shards found, and its text.
ghost use Rattle.std.specs.Prelude.{◌≡◌, ◌≤◌, ◌^◌, true, map, All, IfOk, string_bytes, option_copied};
ghost use Rattle.ccr_search.specs.Joined.{checkpoint_of, said_by};
ghost use Rattle.ccr_answers.specs.Joined.{answer_in, found, found_text, joined_text, refusal_in, AreOrderedBy};

use crate::words::refusal_text;
use ccr_journal::{Refusal, Reply};
use ccr_query::{ShardAnswer, SortKey};
use ccr_search::{Answer, join_answers, text};
use std::alloc::{AllocError, Global};

// The greatest count whose checkpoint an answer can tell.
const MOST_COUNT: u64 = 1 << 63;

/// The text of a search's answer: the first refusal, or what was found over all shards. Errors and cost are those of `found`.
pub(crate) fn found_text(
    alloc: Global,
    sort: &[SortKey],
    from: u64,
    size: u64,
    told: Vec<Reply>,
) -> Result<String, AllocError>
    requires { AreOrderedBy sort.now told.items }
    ensures { IfOk result (λ text. string_bytes text ≡ found_text sort.now from size told.items) }
{
    if let Some(refusal) = refusal_in(told.as_slice()) {
        return refusal_text(alloc, refusal);
    }
    shown_text(alloc, sort, from, size, told)
}

fn shown_text(
    alloc: Global,
    sort: &[SortKey],
    from: u64,
    size: u64,
    told: Vec<Reply>,
) -> Result<String, AllocError>
    requires { AreOrderedBy sort.now told.items }
    ensures { IfOk result (λ text. string_bytes text ≡ joined_text (found sort.now from size told.items)) }
{
    let answer = found(alloc, sort, from, size, told)?;
    text(alloc, &answer)
}

/// What a search found over all shards, whose answers are in the order of the keys and then of the ids: of the hits of all, by the keys, then by their
/// ids, then by shard, at most `size` from the place `from` on, counted from 0; the checkpoint of each shard's copy, and whether it has a gap; and how many
/// hits there are in all. A reply of another kind counts as an answer without a hit.
///
/// The shards' answers are moved. The cost is that of `ccr_search::join_answers`, which goes with the end of the page and the number of shards. A count of
/// more than 2^63, whose checkpoint has no 64 bits, and a total of 2^64 or more are answered as want of memory.
pub fn found(
    alloc: Global,
    sort: &[SortKey],
    from: u64,
    size: u64,
    told: Vec<Reply>,
) -> Result<Answer, AllocError>
    requires { AreOrderedBy sort.now told.items }
    // By counts, it is this answer, and its checkpoints are those of the counts.
    ensures said { IfOk result (λ a. said_by a ≡ found sort.now from size told.items) }
    ensures checkpoints { IfOk result (λ a. a.checkpoints.items ≡ map checkpoint_of (found sort.now from size told.items).counts) }
{
    let parts = answers_in(alloc, told)?;
    let answers = parts.as_slice();
    if !have_checkpoints(answers) {
        return Err(AllocError);
    }
    join_answers(alloc, answers, sort, from, size)
}

fn refusal_in(told: &[Reply]) -> Option<&Refusal>
    ensures { option_copied result ≡ refusal_in told.now }
{
    for reply in told {
        if let Reply::Refused(refusal) = reply {
            return Some(refusal.get());
        }
    }
    None
}

// What each shard answered, moved out of its reply.
fn answers_in(alloc: Global, told: Vec<Reply>) -> Result<Vec<ShardAnswer>, AllocError>
    ensures { IfOk result (λ parts. parts.items ≡ map answer_in told.items) }
{
    told.into_iter()
        .map(|reply| answer_in(alloc, reply))
        .collect(alloc)
}

fn answer_in(alloc: Global, reply: Reply) -> ShardAnswer
    ensures { result ≡ answer_in reply }
{
    match reply {
        Reply::Found { answer } => answer.into_inner(),
        _ => ShardAnswer::new(0, false, Vec::new(alloc)),
    }
}

// Whether each count has a checkpoint of 64 bits.
fn have_checkpoints(parts: &[ShardAnswer]) -> bool
    ensures { result ≡ true → All (λ part. part.count ≤ 2 ^ 63) parts.now }
{
    parts.iter().all(|part| part.count() <= MOST_COUNT)
}
