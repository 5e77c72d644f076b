use ccr_lease::{LeaseFault, Leases};
use ccr_op::LeaseId;
use std::alloc::{AllocError, Global};
use std::sync::ArcStr;
use std::test::Fail;

fn id(alloc: Global) -> Result<LeaseId, Fail> {
    Ok(LeaseId::new(ArcStr::from_str(alloc, "a")?).ok_or("an id")?)
}

fn text_of(alloc: Global, answer: Result<(), LeaseFault>) -> Result<String, AllocError> {
    match answer {
        Ok(()) => String::from_str(alloc, "ok"),
        Err(fault) => fault.to_string(alloc),
    }
}

/// What is answered where a lease is added twice.
fn added_again(alloc: Global) -> Result<String, Fail> {
    let mut leases = Leases::new(alloc, 1);
    leases.add(id(alloc)?, 5, 100)?;
    let answer = leases.add(id(alloc)?, 9, 120);
    Ok(text_of(alloc, answer)?)
}

/// What is answered where a lease is renewed with a lower number.
fn renewed_below(alloc: Global) -> Result<String, Fail> {
    let mut leases = Leases::new(alloc, 1);
    leases.add(id(alloc)?, 5, 100)?;
    let answer = leases.renew(&id(alloc)?, 4, 120);
    Ok(text_of(alloc, answer)?)
}

#[test]
fn refusals_tell_the_number_that_is_kept(rt: HostRuntime) -> Result<(), Fail> {
    assert_eq!(rt;
        added_again(rt.alloc())?.as_str(),
        "the lease exists, with number 5"
    );
    assert_eq!(rt;
        renewed_below(rt.alloc())?.as_str(),
        "the number is below the kept 5"
    );
    Ok(())
}

/// How many of the leases, one of stamp 110, expire at this time over a period of 50.
fn expired_at(alloc: Global, now: u64) -> Result<usize, Fail> {
    let mut leases = Leases::new(alloc, 1);
    leases.add(id(alloc)?, 7, 110)?;
    Ok(leases.expire(now, 50)?.len())
}

#[test]
fn a_lease_expires_above_its_stamp_and_the_period(rt: HostRuntime) -> Result<(), Fail> {
    assert_eq!(rt; expired_at(rt.alloc(), 160)?, 0);
    assert_eq!(rt; expired_at(rt.alloc(), 161)?, 1);
    Ok(())
}

/// Whether an empty collection takes the leases over, and how many it then has.
fn taken_over(alloc: Global) -> Result<Option<usize>, Fail> {
    let mut leases = Leases::new(alloc, 1);
    leases.add(id(alloc)?, 7, 110)?;
    let mut replica = Leases::new(alloc, 1);
    Ok(
        replica
            .take_over(&leases)?
            .then_some(replica.as_slice().len()),
    )
}

#[test]
fn a_replica_takes_newer_leases_over(rt: HostRuntime) -> Result<(), Fail> {
    assert_eq!(rt; taken_over(rt.alloc())?, Some(1));
    Ok(())
}
