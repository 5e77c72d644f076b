use ccr_journal::{
    Batch, Boxed, CopyStatus, CopyStatuses, Entry, Event, ExpiredLeases, FollowerStatus, Journal,
    KeptLeases, ParamValues, Params, Phase, Reply, WriteRequest,
};
use ccr_lease::{Expired, Lease};
use ccr_op::{Body, DocId, LeaseId, Name, Op};
use ccr_policy::Picks;
use ccr_query::{Hit, ShardAnswer};
use std::alloc::{AllocError, Global};
use std::sync::ArcStr;
use std::test::Fail;

/// The greatest value of each parameter, in the order of the fields.
const GREATEST: &str = "\
2147483647
9223372036854775807
2147483647
2147483647
9223372036854775807
2147483647
2147483647
9223372036854775807
9007199254740991
9007199254740991
16777216";

/// The parameter that another one stands in for, where it has that place.
fn value_at(place: usize, other: usize, n: u64) -> u64 {
    if place == other { n } else { 1 }
}

/// Whether the parameters with this number at a place, and 1 at the others, are in their ranges.
fn is_in_range(place: usize, n: u64) -> bool {
    Params::new(ParamValues {
        max_read_request_operation_count: value_at(place, 0, n),
        max_read_request_size: value_at(place, 1, n),
        max_outstanding_read_requests: value_at(place, 2, n),
        max_write_request_operation_count: value_at(place, 3, n),
        max_write_request_size: value_at(place, 4, n),
        max_outstanding_write_requests: value_at(place, 5, n),
        max_write_buffer_count: value_at(place, 6, n),
        max_write_buffer_size: value_at(place, 7, n),
        max_retry_delay: value_at(place, 8, n),
        read_poll_timeout: value_at(place, 9, n),
        chunk_size: value_at(place, 10, n),
    })
    .is_some()
}

/// Whether the parameter at a place goes from 1 to the number of the line.
fn goes_to(place: usize, line: &str) -> Result<bool, Fail> {
    let greatest = line.parse::<u64>()?;
    Ok(
        !is_in_range(place, 0)
            && is_in_range(place, greatest)
            && !is_in_range(place, greatest.saturating_add(1)),
    )
}

#[test]
fn each_parameter_has_its_range(rt: HostRuntime) -> Result<(), Fail> {
    for (place, line) in GREATEST.lines().enumerate() {
        assert!(rt; goes_to(place, line)?, "{line} at {place}");
    }
    Ok(())
}

/// How many sessions the reply of an entry says were closed.
fn sessions_of(entry: Option<&Entry>) -> Option<u64> {
    match &entry?.reply {
        Reply::Closed { sessions } => Some(*sessions),
        _ => None,
    }
}

/// What the one entry of a journal answers.
fn kept_sessions(alloc: Global) -> Result<Option<u64>, AllocError> {
    let mut journal = Journal::new(alloc);
    journal.reserve()?;
    journal.push(Entry {
        event: Event::CloseSessions,
        reply: Reply::Closed { sessions: 4 },
    })?;
    Ok(sessions_of(journal.at(0)))
}

#[test]
fn a_journal_keeps_its_entries(rt: HostRuntime) -> Result<(), Fail> {
    assert_eq!(rt; kept_sessions(rt.alloc())?, Some(4));
    Ok(())
}

fn text(alloc: Global, text: &str) -> Result<ArcStr, AllocError> {
    ArcStr::from_str(alloc, text)
}

/// The number and term that the copy of a request is bound to.
fn copied_expectation(alloc: Global) -> Result<Option<(u64, u64)>, Fail> {
    let request = WriteRequest {
        id: DocId::new(text(alloc, "a")?).ok_or("an id")?,
        routing: None,
        body: None,
        create: false,
        expect: Some((0, 1)),
    };
    Ok(request.copy(alloc)?.expect)
}

#[test]
fn a_request_is_copied(rt: HostRuntime) -> Result<(), Fail> {
    assert_eq!(rt; copied_expectation(rt.alloc())?, Some((0, 1)));
    Ok(())
}

/// The statuses of one copy.
fn statuses(alloc: Global) -> Result<CopyStatuses, AllocError> {
    let status = CopyStatus {
        copy: 3,
        count: 2,
        global: 1,
        floor: 0,
        held: 2,
    };
    let list = Vec::from_array(alloc, [status])?;
    Ok(CopyStatuses::new(list))
}

fn merged(alloc: Global) -> Result<Reply, AllocError> {
    let picks = Picks::of(Vec::from_array(alloc, [1])?);
    let picks = Boxed::new(alloc, picks)?;
    Ok(Reply::Merged {
        floor: 2,
        dropped: 1,
        picks,
    })
}

fn lease_id(alloc: Global) -> Result<LeaseId, Fail> {
    Ok(LeaseId::new(text(alloc, "x")?).ok_or("an id")?)
}

fn expired(alloc: Global) -> Result<Reply, Fail> {
    let lease = Expired {
        id: lease_id(alloc)?,
        stamp: 110,
        now: 161,
    };
    let list = ExpiredLeases::new(Vec::from_array(alloc, [lease])?);
    Ok(Reply::Expired { list })
}

fn took(alloc: Global) -> Result<Reply, AllocError> {
    let mut ops = Vec::new(alloc);
    ops.push(Op::no_op(0, 1))?;
    Ok(Reply::Took {
        batch: Batch::new(ops),
    })
}

fn found(alloc: Global) -> Result<Reply, Fail> {
    let hit = Hit {
        id: DocId::new(text(alloc, "a")?).ok_or("an id")?,
        routing: None,
        body: Body::new(text(alloc, "{}")?),
    };
    let hits = Vec::from_array(alloc, [hit])?;
    let answer = Boxed::new(alloc, ShardAnswer::new(1, false, hits))?;
    Ok(Reply::Found { answer })
}

fn leader_status(alloc: Global) -> Result<Reply, Fail> {
    let lease = Lease {
        id: lease_id(alloc)?,
        number: 5,
        stamp: 100,
    };
    let leases = KeptLeases::new(Vec::from_array(alloc, [lease])?);
    let leases = Boxed::new(alloc, leases)?;
    let copies = Boxed::new(alloc, statuses(alloc)?)?;
    Ok(Reply::LeaderStatus {
        term: 1,
        copies,
        leases,
    })
}

fn follower_status(alloc: Global) -> Result<Reply, AllocError> {
    let status = FollowerStatus {
        phase: Phase::Active,
        epoch: 1,
        term: 1,
        copies: statuses(alloc)?,
        reads: 12,
        buffer: 0,
        writes: 0,
    };
    let status = Boxed::new(alloc, status)?;
    Ok(Reply::FollowerStatus(status))
}

/// Whether the reply has the one part that those above own of each kind.
fn has_its_parts(reply: &Reply) -> bool {
    match reply {
        Reply::Merged { picks, .. } => picks.get().as_slice() == [1].as_slice(),
        Reply::Expired { list } => list.as_slice().len() == 1,
        Reply::Took { batch } => batch.as_slice().len() == 1,
        Reply::Found { answer } => answer.get().hits().len() == 1,
        Reply::LeaderStatus { copies, leases, .. } => {
            copies.get().as_slice().len() == 1 && leases.get().as_slice().len() == 1
        }
        Reply::FollowerStatus(status) => status.get().copies.as_slice().len() == 1,
        _ => false,
    }
}

fn is_copied(alloc: Global, reply: &Reply) -> Result<bool, AllocError> {
    Ok(has_its_parts(&reply.copy(alloc)?))
}

#[test]
fn replies_are_copied(rt: HostRuntime) -> Result<(), Fail> {
    assert!(rt; is_copied(rt.alloc(), &merged(rt.alloc())?)?);
    assert!(rt; is_copied(rt.alloc(), &took(rt.alloc())?)?);
    assert!(rt; is_copied(rt.alloc(), &expired(rt.alloc())?)?);
    assert!(rt; is_copied(rt.alloc(), &found(rt.alloc())?)?);
    Ok(())
}

#[test]
fn statuses_are_copied(rt: HostRuntime) -> Result<(), Fail> {
    assert!(rt; is_copied(rt.alloc(), &leader_status(rt.alloc())?)?);
    assert!(rt; is_copied(rt.alloc(), &follower_status(rt.alloc())?)?);
    Ok(())
}

fn send<T: Send>() {}

#[test]
fn events_replies_and_journals_go_to_threads(_rt: HostRuntime) {
    send::<Event>();
    send::<Reply>();
    send::<Entry>();
    send::<Journal>();
}

#[test]
fn an_entry_is_small(rt: HostRuntime) {
    assert_eq!(rt; size_of::<Event>(), 32);
    assert_eq!(rt; size_of::<Reply>(), 32);
    assert_eq!(rt; size_of::<Entry>(), 64);
}
