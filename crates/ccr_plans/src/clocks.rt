// The clock of a cluster is read in the worlds of its indices.
ghost use Rattle.std.specs.Prelude.{◌≡◌, ◌≤◌, ◌+◌, ◌++◌, OnOk, IfOk, flat_map};
ghost use Rattle.std.specs.List.{range_with_len};
ghost use Rattle.ccr_plans.specs.Clocks.{LieWithin64, clock_deeds, clock_of_follower, clock_of_leader, clocks_of_followers, follower_clocks, is_follower_in, is_leader_in, leader_clocks};

use ccr_deeds::Deed;
use ccr_journal::{Event, Side};
use ccr_meta::{IndexMeta, Meta};
use ccr_op::{IndexName, Millis, Name};
use std::alloc::{AllocError, Global};
use std::collections::BTreeMap;

// Numbers of followers of one leader are below this.
const MOST_FOLLOWERS: u32 = 8;

// In each of so many worlds the leader's clock is read, expired leases are dropped, and idle sessions are closed.
#[tactic(auto, using(crate::proofs::Tables::tables))]
fn push_leader_clocks(
    deeds: &mut Vec<Deed>,
    now: Millis,
    first: u32,
    n: u32,
) -> Result<(), AllocError>
    requires { first + n ≤ 64 }
    ensures { OnOk result (deeds.new.items ≡ deeds.old.items ++ leader_clocks now first n) }
{
    let side = Side::Leader;
    let mut world = first;
    let mut left = n;
    while left > 0 {
        let event = Event::Clock { side, now };
        deeds.push(Deed::Happens { world, event })?;
        let event = Event::Expire;
        deeds.push(Deed::Happens { world, event })?;
        let event = Event::CloseSessions;
        deeds.push(Deed::Happens { world, event })?;
        world += 1;
        left -= 1;
    }
    Ok(())
}

// In each of so many worlds the follower's clock is read, and what is due is sent again.
#[tactic(auto, using(crate::proofs::Tables::tables))]
fn push_follower_clocks(
    deeds: &mut Vec<Deed>,
    now: Millis,
    f: u32,
    first: u32,
    n: u32,
) -> Result<(), AllocError>
    requires { first + n ≤ 64 }
    ensures { OnOk result (deeds.new.items ≡ deeds.old.items ++ follower_clocks now f first n) }
{
    let side = Side::Follower(f);
    let mut world = first;
    let mut left = n;
    while left > 0 {
        let event = Event::Clock { side, now };
        deeds.push(Deed::Happens { world, event })?;
        let event = Event::Tick { f };
        deeds.push(Deed::Happens { world, event })?;
        world += 1;
        left -= 1;
    }
    Ok(())
}

fn is_leader_in(cluster: &Name, name: &IndexName, x: &IndexMeta) -> bool
    ensures { result ≡ is_leader_in cluster.now (name.now, x.now) }
{
    name.cluster.is(cluster) && x.follower.is_none()
}

fn is_follower_in(cluster: &Name, f: u32, name: &IndexName, x: &IndexMeta) -> bool
    ensures { result ≡ is_follower_in cluster.now f (name.now, x.now) }
{
    name.cluster.is(cluster) && x.follower.is_some_and(|number| number == f)
}

// Nothing where the index is no leader in the cluster.
fn push_leader(
    deeds: &mut Vec<Deed>,
    cluster: &Name,
    now: Millis,
    name: &IndexName,
    x: &IndexMeta,
) -> Result<(), AllocError>
    requires { x.now.first + x.now.shards ≤ 64 }
    ensures { OnOk result (deeds.new.items ≡ deeds.old.items ++ clock_of_leader cluster.now now (name.now, x.now)) }
{
    if !is_leader_in(cluster, name, x) {
        return Ok(());
    }
    push_leader_clocks(deeds, now, x.first, x.shards)
}

// Nothing where the index is no follower of this number in the cluster.
fn push_follower(
    deeds: &mut Vec<Deed>,
    cluster: &Name,
    now: Millis,
    f: u32,
    name: &IndexName,
    x: &IndexMeta,
) -> Result<(), AllocError>
    requires { x.now.first + x.now.shards ≤ 64 }
    ensures { OnOk result (deeds.new.items ≡ deeds.old.items ++ clock_of_follower cluster.now now f (name.now, x.now)) }
{
    if !is_follower_in(cluster, f, name, x) {
        return Ok(());
    }
    push_follower_clocks(deeds, now, f, x.first, x.shards)
}

fn push_leaders(
    deeds: &mut Vec<Deed>,
    indices: &BTreeMap<IndexName, IndexMeta>,
    cluster: &Name,
    now: Millis,
) -> Result<(), AllocError>
    requires { LieWithin64 indices.now.entries }
    ensures { OnOk result (deeds.new.items ≡ deeds.old.items ++ flat_map (clock_of_leader cluster.now now) indices.now.entries) }
{
    for (name, x) in indices {
        push_leader(deeds, cluster, now, name, x)?;
    }
    Ok(())
}

fn push_followers(
    deeds: &mut Vec<Deed>,
    indices: &BTreeMap<IndexName, IndexMeta>,
    cluster: &Name,
    now: Millis,
    f: u32,
) -> Result<(), AllocError>
    requires { LieWithin64 indices.now.entries }
    ensures { OnOk result (deeds.new.items ≡ deeds.old.items ++ flat_map (clock_of_follower cluster.now now f) indices.now.entries) }
{
    for (name, x) in indices {
        push_follower(deeds, cluster, now, f, name, x)?;
    }
    Ok(())
}

// What is due in all worlds of the followers in the cluster, by their numbers.
#[tactic(auto, using(crate::proofs::Bounds::numbers))]
fn push_all_followers(
    deeds: &mut Vec<Deed>,
    meta: &Meta,
    cluster: &Name,
    now: Millis,
) -> Result<(), AllocError>
    ensures { OnOk result (deeds.new.items ≡ deeds.old.items ++ flat_map (clocks_of_followers meta.now cluster.now now) (range_with_len 0 8)) }
{
    let _worlds = meta.worlds();
    let indices = meta.indices();
    for f in 0..MOST_FOLLOWERS {
        push_followers(deeds, indices, cluster, now, f)?;
    }
    Ok(())
}

// The cluster's leaders first, and then its followers, of those in one world the one that was made earlier. It goes
// nine times over all indices, of which there are at most 64.
#[tactic(auto, using(crate::proofs::Bounds::numbers))]
pub(crate) fn clock_deeds(
    alloc: Global,
    meta: &Meta,
    cluster: &Name,
    now: Millis,
) -> Result<Vec<Deed>, AllocError>
    ensures { IfOk result (λ deeds. deeds.items ≡ clock_deeds meta.now cluster.now now) }
{
    let _worlds = meta.worlds();
    let mut deeds = Vec::new(alloc);
    push_leaders(&mut deeds, meta.indices(), cluster, now)?;
    push_all_followers(&mut deeds, meta, cluster, now)?;
    Ok(deeds)
}
