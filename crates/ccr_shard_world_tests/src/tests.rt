use ccr_cell::{Cell, Machine};
use ccr_journal::{
    Boxed, CopyCount, Event, ParamValues, Params, Reply, SearchRequest, Side, SortKeys,
    WriteRequest,
};
use ccr_op::{Body, DocId, LeaseId};
use ccr_policy::{MergePolicy, Oldest};
use ccr_query::{Condition, Node, Query};
use ccr_shard_world::{Chooser, Start, World};
use std::alloc::Global;
use std::fmt::Debug;
use std::sync::{ArcStr, Wait};
use std::test::Fail;
use uuid::Uuid;

/// The defaults of the Elastic reference on creating a follower, but for four operations a read.
const VALUES: ParamValues = ParamValues {
    max_read_request_operation_count: 4,
    max_read_request_size: 33_554_432,
    max_outstanding_read_requests: 12,
    max_write_request_operation_count: 5_120,
    max_write_request_size: 9_223_372_036_854_775_807,
    max_outstanding_write_requests: 9,
    max_write_buffer_count: 2_147_483_647,
    max_write_buffer_size: 536_870_912,
    max_retry_delay: 500,
    read_poll_timeout: 60_000,
    chunk_size: 1_048_576,
};

/// Each line is an event, and behind a bar what it comes to in a world of two copies a side, whose merges join the oldest
/// two parts. A blank line settles the world, which has to be unsettled before. Copy 1 of each side finds the same then.
const EVENTS: &str = r#"follow f | done
write a {"n":1} | Wrote { seq: 0, term: 1, version: 1, result: Created }
write b {"n":2} | Wrote { seq: 1, term: 1, version: 1, result: Created }

flush | 2
write a {"n":3} | Wrote { seq: 2, term: 1, version: 2, result: Updated }

flush | 3
merge | Picks { places: [0, 1] }
search leader | ShardAnswer { count: 3, gap: false, hits: [Hit { id: DocId { text: "a" }, routing: None, body: Body { text: "{\"n\":3}" } }, Hit { id: DocId { text: "b" }, routing: None, body: Body { text: "{\"n\":2}" } }] }
search follower | ShardAnswer { count: 3, gap: false, hits: [Hit { id: DocId { text: "a" }, routing: None, body: Body { text: "{\"n\":3}" } }, Hit { id: DocId { text: "b" }, routing: None, body: Body { text: "{\"n\":2}" } }] }"#;

/// The word of a line at this place, empty where there are not so many.
fn word(line: &str, at: usize) -> &str {
    line.split(' ').nth(at).unwrap_or("")
}

/// A follower of two copies is made.
fn follow(alloc: Global, name: &str) -> Option<Event> {
    let name = LeaseId::new(ArcStr::from_str(alloc, name).ok()?)?;
    let copies = CopyCount::new(2)?;
    let params = Boxed::new(alloc, Params::new(VALUES)?).ok()?;
    Some(Event::Follow {
        params,
        copies,
        name,
    })
}

fn write(alloc: Global, id: &str, source: &str) -> Option<Event> {
    let id = DocId::new(ArcStr::from_str(alloc, id).ok()?)?;
    let body = Body::new(ArcStr::from_str(alloc, source).ok()?);
    let request = WriteRequest {
        id,
        routing: None,
        body: Some(body),
        create: false,
        expect: None,
    };
    let request = Boxed::new(alloc, request).ok()?;
    Some(Event::Write { request })
}

fn side(name: &str) -> Side {
    match name {
        "leader" => Side::Leader,
        _ => Side::Follower(0),
    }
}

/// A search of a side's copy 1 for all documents.
fn search(alloc: Global, side: Side) -> Option<Event> {
    let request = SearchRequest {
        query: Query::new(Node::Condition(Condition::MatchAll)),
        sort: SortKeys::new(Vec::new(alloc)),
    };
    let request = Boxed::new(alloc, request).ok()?;
    Some(Event::Search {
        side,
        copy: 1,
        request,
    })
}

/// What happens to copy 0 of the follower.
fn of_copy(name: &str) -> Event {
    let side = Side::Follower(0);
    match name {
        "flush" => Event::Flush { side, copy: 0 },
        _ => Event::Merge { side, copy: 0 },
    }
}

/// The event of a line.
fn event(alloc: Global, line: &str) -> Option<Event> {
    match word(line, 0) {
        "follow" => follow(alloc, word(line, 1)),
        "write" => write(alloc, word(line, 1), word(line, 2)),
        "search" => search(alloc, side(word(line, 1))),
        name => Some(of_copy(name)),
    }
}

/// Whether a part of a reply is printed so for debugging.
fn is_told(alloc: Global, part: &impl Debug, want: &str) -> bool {
    match format!(in alloc; "{part:?}") {
        Ok(text) => text.as_str() == want,
        Err(_) => false,
    }
}

/// Whether a reply is this: what was written, found or picked, or how far a copy is written out.
fn is_reply(alloc: Global, reply: &Reply, want: &str) -> bool {
    match reply {
        Reply::Written(wrote) => is_told(alloc, wrote.get(), want),
        Reply::Found { answer } => is_told(alloc, answer.get(), want),
        Reply::Flushed { commit } => is_told(alloc, commit, want),
        Reply::Merged { picks, .. } => is_told(alloc, picks.get(), want),
        Reply::Done => want == "done",
        _ => false,
    }
}

fn settles<P: Chooser>(world: &mut World<P>) -> bool {
    !world.settled() && world.settle_alone().is_ok() && world.settled()
}

fn steps<P: Chooser>(alloc: Global, world: &mut World<P>, event: &Event, want: &str) -> bool {
    match world.step(event) {
        Ok(reply) => is_reply(alloc, &reply, want),
        Err(_) => false,
    }
}

fn comes<P: Chooser>(alloc: Global, world: &mut World<P>, line: &str) -> bool {
    let Some((told, want)) = line.split_once(" | ") else {
        return settles(world);
    };
    match event(alloc, told) {
        Some(event) => steps(alloc, world, &event, want),
        None => false,
    }
}

/// The first line that comes to something else, empty where there is none.
fn first_wrong<P: Chooser>(
    alloc: Global,
    world: &mut World<P>,
    lines: &'static str,
) -> &'static str {
    for line in lines.lines() {
        if !comes(alloc, world, line) {
            return line;
        }
    }
    ""
}

/// A leader of two copies without an entry.
fn world<P: Chooser>(alloc: Global, policy: P) -> Option<World<P>> {
    let start = Start {
        copies: 2,
        history: Uuid::nil(),
        period: 43_200_000,
        retention: 0,
    };
    World::new(alloc, start, Some(policy)).ok()
}

#[test]
fn a_settled_follower_answers_as_the_leader(rt: HostRuntime) -> Result<(), Fail> {
    let policy: Box<dyn MergePolicy> = Box::new(rt.alloc(), Oldest::new(2))?;
    let mut world = world(rt.alloc(), policy).ok_or("a world")?;
    assert_eq!(rt; first_wrong(rt.alloc(), &mut world, EVENTS), "");
    Ok(())
}

/// Expires leases in a world that lies in a cell, and gives back how many entries it has then.
fn entries_after<P: Chooser + Send, R: Wait>(
    rt: &R,
    alloc: Global,
    world: World<P>,
) -> Option<u64> {
    let (cell, mut pass) = Cell::new(alloc, world).ok()?;
    let _told = cell.act(rt, &mut pass, &Event::Expire).ok()?;
    let world = cell.close(pass).ok()?;
    Some(world.len())
}

// The type of the cell is named in code that is generic in the policy.
fn entries_after_boxed<R: Wait>(
    rt: &R,
    alloc: Global,
    world: World<Box<dyn MergePolicy>>,
) -> Option<u64> {
    entries_after(rt, alloc, world)
}

#[test]
fn a_world_with_a_boxed_policy_lies_in_a_cell(rt: HostRuntime) -> Result<(), Fail> {
    let policy: Box<dyn MergePolicy> = Box::new(rt.alloc(), Oldest::new(2))?;
    let world = world(rt.alloc(), policy).ok_or("a world")?;
    assert_eq!(rt; entries_after_boxed(&rt, rt.alloc(), world), Some(1));
    Ok(())
}
