ghost use Rattle.std.specs.Prelude.{◌≡◌, not, IfOk};
ghost use Rattle.ccr_journal.specs.declared.replies.Reply.TheVariants as replies;
ghost use Rattle.ccr_law_stores.specs.Searchable.{HoldsOnce};
ghost use Rattle.ccr_model.specs.Operations.{is_empty};
ghost use Rattle.ccr_model.specs.Searches.{search_of};

use ccr_copies::CopySide;
use ccr_journal::{Boxed, Reply, SearchRequest};
use ccr_query::{Reads, ShardAnswer};
use ccr_search::shard_search;
use ccr_tracker::Tracker;
use std::alloc::{AllocError, Global};

/// What a search of a copy is answered.
pub(crate) fn search_copy(
    alloc: Global,
    copy: &CopySide,
    request: &SearchRequest,
) -> Result<Reply, AllocError>
    requires { HoldsOnce copy.now }
    ensures { IfOk result (λ reply. reply ≡ replies.Found (search_of copy.now request.now.query request.now.sort)) }
{
    let answer = found(alloc, copy, request)?;
    let answer = Boxed::new(alloc, answer)?;
    Ok(Reply::Found { answer })
}

/// What a search of a copy finds. It judges each live document once.
fn found(alloc: Global, copy: &CopySide, request: &SearchRequest) -> Result<ShardAnswer, AllocError>
    requires { HoldsOnce copy.now }
    ensures { IfOk result (λ answer. answer ≡ search_of copy.now request.now.query request.now.sort) }
{
    let mut reads = Reads::new();
    let gap = has_gap(copy.seen());
    shard_search(
        alloc,
        copy.store(),
        copy.count(),
        gap,
        &request.query,
        request.sort.as_slice(),
        &mut reads,
    )
}

/// Whether a copy that has processed these numbers has one above its count.
fn has_gap(seen: &Tracker) -> bool
    ensures { result ≡ not (is_empty seen.now.above) }
{
    let _count = seen.count();
    seen.gap()
}
