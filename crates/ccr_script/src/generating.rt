// A script that is made from a seed.
ghost use Rattle.std.specs.Prelude.{◌≡◌, ◌++◌, ◌<◌, ◌^◌, codes, decimal, IfOk, OnOk};
ghost use Rattle.ccr_script.specs.Generated.{generated, before, changes, next as next_of, change as change_of, leader as leader_of, follower as follower_of, leader_settings, setup, switch, search_of_all as search_of, searches};

use crate::commands::Command;
use crate::parts::{id_of, name_of};
use crate::settings::{follow_settings, params};
use ccr_journal::SortKeys;
use ccr_meta::Settings;
use ccr_op::{Body, DocId, IndexName};
use ccr_query::{Condition, Node, Query};
use std::alloc::{AllocError, Global};
use std::sync::ArcStr;

/// Numbers that are drawn are below this one: 2^31.
const DRAW_BOUND: u64 = 2_147_483_648;

/// A script of so many writes and deletes, which it takes in the order in which the seed draws them: an
/// index `a/l` of three shards with a follower `b/f`; half way through, its first shard changes its
/// primary; at the end both are searched. Takes time and memory by the writes.
pub fn generate(alloc: Global, seed: u32, writes: u32) -> Result<Vec<Command>, AllocError>
    ensures { IfOk result (λ commands. commands.items ≡ generated seed writes) }
{
    let mut commands = Vec::new(alloc);
    add_setup(alloc, &mut commands)?;
    add_changes(alloc, &mut commands, seed, writes)?;
    add_searches(alloc, &mut commands)?;
    Ok(commands)
}

#[tactic(auto, using(crate::proofs::Changes::change_rules))]
fn add_changes(
    alloc: Global,
    commands: &mut Vec<Command>,
    seed: u32,
    writes: u32,
) -> Result<(), AllocError>
    ensures { OnOk result (commands.new.items ≡ commands.old.items ++ changes writes writes 0 seed) }
{
    let mut drawn = u64::from(seed);
    for i in 0..writes {
        add_before(alloc, commands, i, writes)?;
        drawn = next(drawn);
        commands.push(change(alloc, i, drawn / 65_536, writes)?)?;
    }
    Ok(())
}

// What comes before the change of this number.
fn add_before(
    alloc: Global,
    commands: &mut Vec<Command>,
    i: u32,
    writes: u32,
) -> Result<(), AllocError>
    ensures { OnOk result (commands.new.items ≡ commands.old.items ++ before i writes) }
{
    if i == writes / 2 {
        return add_switch(alloc, commands);
    }
    Ok(())
}

/// The number that is drawn after this one.
fn next(drawn: u64) -> u64
    requires { drawn < 2 ^ 32 }
    ensures value { result ≡ next_of drawn }
    ensures bounds { result < 2 ^ 31 }
{
    (drawn * 1_103_515_245 + 12_345) % DRAW_BOUND
}

fn leader(alloc: Global) -> Result<IndexName, AllocError>
    ensures { IfOk result (λ index. index ≡ leader_of) }
{
    Ok(IndexName {
        cluster: name_of(alloc, "a")?,
        index: name_of(alloc, "l")?,
    })
}

fn follower(alloc: Global) -> Result<IndexName, AllocError>
    ensures { IfOk result (λ index. index ≡ follower_of) }
{
    Ok(IndexName {
        cluster: name_of(alloc, "b")?,
        index: name_of(alloc, "f")?,
    })
}

fn add_setup(alloc: Global, commands: &mut Vec<Command>) -> Result<(), AllocError>
    ensures { OnOk result (commands.new.items ≡ commands.old.items ++ setup) }
{
    commands.push(Command::Cluster {
        name: name_of(alloc, "a")?,
    })?;
    commands.push(Command::Cluster {
        name: name_of(alloc, "b")?,
    })?;
    commands.push(Command::Create {
        index: leader(alloc)?,
        settings: Settings {
            shards: Some(3),
            replicas: Some(1),
            soft_deletes: None,
            retention: None,
            period: None,
            bad: false,
        },
    })?;
    commands.push(Command::Follow {
        index: follower(alloc)?,
        leader: leader(alloc)?,
        settings: follow_settings(None, None),
        params: params(None),
    })?;
    Ok(())
}

fn add_switch(alloc: Global, commands: &mut Vec<Command>) -> Result<(), AllocError>
    ensures { OnOk result (commands.new.items ≡ commands.old.items ++ switch) }
{
    commands.push(Command::Settle)?;
    commands.push(Command::Promote {
        index: leader(alloc)?,
        shard: 0,
        copy: 1,
    })?;
    commands.push(Command::Settle)?;
    commands.push(Command::AddCopy {
        index: leader(alloc)?,
        shard: 0,
    })?;
    Ok(())
}

/// The change of this number, by what was drawn for it.
fn change(alloc: Global, i: u32, drawn: u64, writes: u32) -> Result<Command, AllocError>
    ensures { IfOk result (λ command. command ≡ change_of i drawn writes) }
{
    let index = leader(alloc)?;
    let id = document_id(alloc, drawn % u64::from(writes / 4 + 1))?;
    if drawn % 8 == 0 {
        return Ok(Command::Delete {
            index,
            id,
            expect: None,
            routing: None,
        });
    }
    let kind = drawn % 7;
    let source = format!(in alloc; "{{\"n\":{i},\"t\":\"w{kind}\"}}")?;
    let source = Body::new(ArcStr::from_string(source)?);
    Ok(Command::Write {
        index,
        id,
        source,
        create: false,
        expect: None,
        routing: None,
    })
}

fn document_id(alloc: Global, number: u64) -> Result<DocId, AllocError>
    ensures { IfOk result (λ id. id ≡ codes "d" ++ decimal number) }
{
    let text = format!(in alloc; "d{number}")?;
    match id_of(alloc, text.as_str())? {
        Some(id) => Ok(id),
        None => unreachable!(),
    }
}

fn search_of_all(alloc: Global, index: IndexName) -> Command
    ensures { result ≡ search_of index }
{
    Command::Search {
        index,
        query: Query::new(Node::Condition(Condition::MatchAll)),
        sort: SortKeys::new(Vec::new(alloc)),
        from: 0,
        size: 10_000,
        copy: None,
    }
}

fn add_searches(alloc: Global, commands: &mut Vec<Command>) -> Result<(), AllocError>
    ensures { OnOk result (commands.new.items ≡ commands.old.items ++ searches) }
{
    commands.push(Command::Settle)?;
    let index = leader(alloc)?;
    commands.push(search_of_all(alloc, index))?;
    let index = follower(alloc)?;
    commands.push(search_of_all(alloc, index))?;
    Ok(())
}
