// What a new index, and a new follower, brings into the shard worlds.
ghost use Rattle.std.specs.Prelude.{◌≡◌, ◌≤◌, ◌+◌, ◌++◌, IfOk, OnOk, None, true, string_bytes, codes, flat_map};
ghost use Rattle.std.specs.List.{AllByRecursion};
ghost use Rattle.ccr_meta.specs.Guards.{first_refusal};
ghost use Rattle.ccr_meta.specs.Names.{index_uuid, is_index_name, new_leader};
ghost use Rattle.ccr_meta.specs.NameGuards.{create_guards};
ghost use Rattle.ccr_script.specs.Settings.{params_of};
ghost use Rattle.ccr_plans.specs.Forms.{in_worlds};
ghost use Rattle.ccr_plans.specs.Made.{IsAllowed, IsNamedIfFollowed, follow_deeds, followed, followed_deeds, history_uuid, index_text, lease_id, made_index, named_text, start_of, starts_from};

use ccr_auto::Decision;
use ccr_deeds::{Deed, WorldStart};
use ccr_journal::{Boxed, CopyCount, Event, ParamValues, Params};
use ccr_meta::{Decided, IndexMeta, Meta, Settings, uuid_of};
use ccr_op::{IndexName, LeaseId, Millis};
use std::alloc::{AllocError, Global};
use std::sync::ArcStr;
use uuid::Uuid;

/// After how many milliseconds a lease expires where no setting says it: 12 hours.
const DEFAULT_PERIOD: Millis = 43_200_000;

// ---- texts and UUIDs

// `cluster/index`
fn push_index(text: &mut String, index: &IndexName) -> Result<(), AllocError>
    ensures { OnOk result (string_bytes text.new ≡ string_bytes text.old ++ index_text index.now) }
{
    text.push_str(index.cluster.as_str())?;
    text.push_str("/")?;
    text.push_str(index.index.as_str())
}

fn uuid_of_index(alloc: Global, index: &IndexName) -> Result<Uuid, AllocError>
    ensures { IfOk result (λ uuid. uuid ≡ index_uuid index.now) }
{
    let mut text = String::from_str(alloc, "index:")?;
    push_index(&mut text, index)?;
    Ok(uuid_of(text.as_str()))
}

// The UUID of the first history of a shard.
fn history_uuid(alloc: Global, index: &IndexName, shard: u32) -> Result<Uuid, AllocError>
    ensures { IfOk result (λ uuid. uuid ≡ history_uuid index.now shard) }
{
    let mut text = String::from_str(alloc, "history:")?;
    push_index(&mut text, index)?;
    let place = format!(in alloc; ":{shard}")?;
    text.push_str(place.as_str())?;
    Ok(uuid_of(text.as_str()))
}

// An index and its UUID.
fn push_named(alloc: Global, text: &mut String, index: &IndexName) -> Result<(), AllocError>
    ensures { OnOk result (string_bytes text.new ≡ string_bytes text.old ++ named_text index.now) }
{
    let uuid = uuid_of_index(alloc, index)?;
    push_index(text, index)?;
    text.push_str("/")?;
    let mut buffer = Uuid::encode_buffer();
    text.push_str(uuid.hyphenated().encode_lower(&mut buffer))
}

// The id of the lease by which a follower retains its leader's operations.
fn lease_id(alloc: Global, index: &IndexName, leader: &IndexName) -> Result<LeaseId, AllocError>
    requires index { is_index_name index.now ≡ true }
    requires leader { is_index_name leader.now ≡ true }
    ensures { IfOk result (λ id. id ≡ lease_id index.now leader.now) }
{
    let mut text = String::new(alloc);
    push_named(alloc, &mut text, index)?;
    text.push_str("-following-")?;
    push_named(alloc, &mut text, leader)?;
    let text = ArcStr::from_str(alloc, text.as_str())?;
    match LeaseId::new(text) {
        Some(id) => Ok(id),
        None => unreachable!(),
    }
}

// ---- the worlds of a new index

// An index that follows none, in the worlds from this number on.
fn new_leader(
    alloc: Global,
    first: u32,
    index: &IndexName,
    settings: &Settings,
) -> Result<IndexMeta, AllocError>
    ensures { IfOk result (λ x. x ≡ new_leader first index.now settings.now) }
{
    Ok(IndexMeta {
        shards: settings.shards.unwrap_or(1),
        replicas: settings.replicas.unwrap_or(1),
        soft_deletes: settings.soft_deletes.unwrap_or(true),
        retention: settings.retention.unwrap_or(0),
        period: settings.period.unwrap_or(DEFAULT_PERIOD),
        uuid: uuid_of_index(alloc, index)?,
        leader: None,
        first,
        follower: None,
    })
}

// An index that can be created.
#[tactic(auto, using(crate::proofs::Allowed::allowed))]
pub(crate) fn made_index(
    alloc: Global,
    meta: &Meta,
    index: &IndexName,
    settings: &Settings,
) -> Result<IndexMeta, AllocError>
    requires { first_refusal (create_guards meta.now index.now settings.now) ≡ None }
    ensures value { IfOk result (λ x. x ≡ made_index meta.now index.now settings.now) }
    ensures allowed { IfOk result (λ x. IsAllowed index.now x) }
{
    let first = meta.worlds();
    new_leader(alloc, first, index, settings)
}

// How many copies a shard with so many replicas has.
fn copies_with(replicas: u32) -> CopyCount
    requires { replicas ≤ 7 }
    ensures { result ≡ replicas + 1 }
{
    match CopyCount::new(replicas + 1) {
        Some(copies) => copies,
        None => unreachable!(),
    }
}

fn start_of(
    alloc: Global,
    index: &IndexName,
    x: &IndexMeta,
    shard: u32,
) -> Result<WorldStart, AllocError>
    requires { x.now.replicas ≤ 7 }
    ensures { IfOk result (λ start. start ≡ start_of index.now x.now shard) }
{
    let history = history_uuid(alloc, index, shard)?;
    Ok(WorldStart {
        copies: copies_with(x.replicas),
        history,
        period: x.period,
        retention: x.retention,
    })
}

/// The starts of the worlds of the index's shards.
#[tactic(auto, using(crate::proofs::Tables::tables))]
pub(crate) fn starts_of(
    alloc: Global,
    index: &IndexName,
    x: &IndexMeta,
) -> Result<Vec<WorldStart>, AllocError>
    requires { IsAllowed index.now x.now }
    ensures { IfOk result (λ starts. starts.items ≡ starts_from index.now x.now 0 x.now.shards) }
{
    let mut starts = Vec::with_capacity(alloc, x.shards as usize)?;
    let mut shard = 0;
    let mut left = x.shards;
    while left > 0 {
        let start = start_of(alloc, index, x, shard)?;
        starts.push(start)?;
        shard += 1;
        left -= 1;
    }
    Ok(starts)
}

// ---- the shards of a new follower

/// The same event in each of so many worlds, from this number on.
#[tactic(auto, using(crate::proofs::Tables::tables))]
pub(crate) fn push_in_worlds(
    alloc: Global,
    deeds: &mut Vec<Deed>,
    event: &Event,
    first: u32,
    n: u32,
) -> Result<(), AllocError>
    requires { first + n ≤ 64 }
    ensures { OnOk result (deeds.new.items ≡ deeds.old.items ++ in_worlds event.now first n) }
{
    let mut world = first;
    let mut left = n;
    while left > 0 {
        let event = event.copy(alloc)?;
        deeds.push(Deed::Happens { world, event })?;
        world += 1;
        left -= 1;
    }
    Ok(())
}

// A follower shard with so many replicas is made in each of the leader's worlds.
pub(crate) fn push_follow(
    alloc: Global,
    deeds: &mut Vec<Deed>,
    index: &IndexName,
    leader: &IndexName,
    params: Params,
    replicas: u32,
    x: &IndexMeta,
) -> Result<(), AllocError>
    requires index { is_index_name index.now ≡ true }
    requires leader { is_index_name leader.now ≡ true }
    requires replicas { replicas ≤ 7 }
    requires there { x.now.first + x.now.shards ≤ 64 }
    ensures { OnOk result (deeds.new.items ≡ deeds.old.items ++ follow_deeds index.now leader.now params replicas x.now) }
{
    let event = Event::Follow {
        params: Boxed::new(alloc, params)?,
        copies: copies_with(replicas),
        name: lease_id(alloc, index, leader)?,
    };
    push_in_worlds(alloc, deeds, &event, x.first, x.shards)
}

// ---- the followers that auto-follow makes of a new index

// The parameters of a follow that gives none.
fn default_params() -> Params
    ensures { result ≡ params_of None }
{
    let values = ParamValues {
        max_read_request_operation_count: 5_120,
        max_read_request_size: 33_554_432,
        max_outstanding_read_requests: 12,
        max_write_request_operation_count: 5_120,
        max_write_request_size: 9_223_372_036_854_775_807,
        max_outstanding_write_requests: 9,
        max_write_buffer_count: 2_147_483_647,
        max_write_buffer_size: 536_870_912,
        max_retry_delay: 500,
        read_poll_timeout: 60_000,
        chunk_size: 1_048_576,
    };
    match Params::new(values) {
        Some(params) => params,
        None => unreachable!(),
    }
}

// The follower that was decided on and not refused.
fn followed(alloc: Global, decided: &Decided) -> Result<Option<IndexName>, AllocError>
    ensures { IfOk result (λ index. index ≡ followed decided.now) }
{
    if decided.refused.is_some() {
        return Ok(None);
    }
    match &decided.decision {
        Decision::Follow { name } => {
            let cluster = decided.cluster.copy(alloc)?;
            let index = name.copy(alloc)?;
            Ok(Some(IndexName { cluster, index }))
        }
        _ => Ok(None),
    }
}

fn push_followed(
    alloc: Global,
    deeds: &mut Vec<Deed>,
    leader: &IndexName,
    x: &IndexMeta,
    decided: &Decided,
) -> Result<(), AllocError>
    requires named { IsNamedIfFollowed decided.now }
    requires allowed { IsAllowed leader.now x.now }
    ensures { OnOk result (deeds.new.items ≡ deeds.old.items ++ followed_deeds leader.now x.now decided.now) }
{
    let Some(index) = followed(alloc, decided)? else {
        return Ok(());
    };
    push_follow(
        alloc,
        deeds,
        &index,
        leader,
        default_params(),
        x.replicas,
        x,
    )
}

/// The shards of all followers that auto-follow makes.
pub(crate) fn all_followed(
    alloc: Global,
    leader: &IndexName,
    x: &IndexMeta,
    list: &[Decided],
) -> Result<Vec<Deed>, AllocError>
    requires named { AllByRecursion IsNamedIfFollowed list.now }
    requires allowed { IsAllowed leader.now x.now }
    ensures { IfOk result (λ deeds. deeds.items ≡ flat_map (followed_deeds leader.now x.now) list.now) }
{
    let mut deeds = Vec::new(alloc);
    for decided in list {
        push_followed(alloc, &mut deeds, leader, x, decided)?;
    }
    Ok(deeds)
}
