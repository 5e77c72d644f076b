// What each command comes to.
ghost use Rattle.std.specs.Prelude.{◌≡◌, ◌≤◌, ◌<◌, ◌+◌, ◌∷◌, [], List, Some, None, true, IfOk, OnOk, IfErr, map, length};
ghost use Rattle.ccr_journal.specs.declared.replies.Reply.{Reply};
ghost use Rattle.ccr_meta.specs.Names.{IsIn, index_at, is_index_name};
ghost use Rattle.ccr_meta.specs.Guards.{first_refusal, write_guards};
ghost use Rattle.ccr_meta.specs.NameGuards.{find_guards, follow_guards};
ghost use Rattle.ccr_script.specs.declared.commands.Command.{Command as Asked};
ghost use Rattle.ccr_plans.specs.Forms.{does, first_refused, in_shards, in_turn, number_of, on_shard, refused, side_of, with_index};
ghost use Rattle.ccr_plans.specs.Grouped.{copy_event, follower_event};
ghost use Rattle.ccr_plans.specs.Made.{follow_plan};
ghost use Rattle.ccr_plans.specs.Plans.{apply_plan, on_copy, on_follower, on_leader, plan_of, search_event, write_plan};
ghost use Rattle.ccr_plans.specs.Refused.{IsRefusedSo};
ghost use Rattle.ccr_meta.specs.declared.faults.AutoRefused.{AutoRefused};
ghost use Rattle.ccr_deeds.specs.declared.deeds.Deed.{Deed};
ghost use Rattle.ccr_answers.specs.declared.forms.Answer.{Answer};
ghost use Rattle.ccr_plans.specs.NamesAfter.{names_after};

use crate::clocks::clock_deeds;
use crate::grouped::{CopyEvent, FollowerEvent, copy_event, follower_event};
use crate::making::{all_followed, made_index, push_follow, push_in_worlds, starts_of};
use crate::notes::{epoch_in, phases_in, primary_in, primary_of};
use crate::plans::Plan;
use ccr_answers::{Answer, Decisions};
use ccr_auto::AutoFault;
use ccr_deeds::{Deed, Note};
use ccr_journal::{Boxed, Event, Params, SearchRequest, Side, SortKeys, WriteRequest};
use ccr_meta::{AutoRefused, IndexMeta, Meta, MetaFault, Settings, route};
use ccr_op::{IndexName, Millis, Name};
use ccr_query::Query;
use ccr_script::Command;
use std::alloc::{AllocError, Global};

/// What a command comes to, by the names made so far and by what was read of each shard of the index that it names,
/// before its first event; and the names are those after it. What isn't asked for needs not be read.
///
/// After want of memory nothing is said of the names.
pub fn plan(
    alloc: Global,
    meta: &mut Meta,
    notes: &[Note],
    command: Command,
) -> Result<Plan, AllocError>
    requires few { length notes.now ≤ 64 }
    ensures plan { IfOk result (λ plan. plan ≡ plan_of meta.old notes.now command) }
    ensures names { OnOk result ((told : List Reply) → meta.new ≡ names_after meta.old command told) }
{
    match command {
        Command::Cluster { name } => cluster(alloc, meta, name),
        Command::Create { index, settings } => create(alloc, meta, index, settings),
        Command::Follow {
            index,
            leader,
            settings,
            params,
        } => follow(alloc, meta, index, leader, settings, params),
        Command::Pause { index } => pause(alloc, meta, notes, &index),
        Command::Resume { index } => resume(alloc, meta, notes, &index),
        Command::Unfollow { index } => unfollow(alloc, meta, notes, &index),
        Command::AutoPut {
            cluster,
            name,
            remote,
            patterns,
            exclude,
            follow,
        } => {
            let patterns = patterns.into_vec();
            let exclude = exclude.into_vec();
            auto_put(
                alloc, meta, &cluster, name, remote, patterns, exclude, follow,
            )
        }
        Command::AutoDelete { cluster, name } => auto_delete(alloc, meta, &cluster, &name),
        Command::Write {
            index,
            id,
            source,
            create,
            expect,
            routing,
        } => {
            let body = Some(source);
            let request = WriteRequest {
                id,
                routing,
                body,
                create,
                expect,
            };
            write(alloc, meta, &index, request)
        }
        Command::Delete {
            index,
            id,
            expect,
            routing,
        } => {
            let request = WriteRequest {
                id,
                routing,
                body: None,
                create: false,
                expect,
            };
            write(alloc, meta, &index, request)
        }
        Command::Search {
            index,
            query,
            sort,
            from,
            size,
            copy,
        } => search(alloc, meta, notes, &index, query, sort, from, size, copy),
        Command::Status { index } => status(alloc, meta, &index),
        Command::Settle => settle(alloc),
        Command::Clock { cluster, now } => clock(alloc, meta, &cluster, now),
        Command::Replicate {
            index,
            shard,
            copy,
            seq,
        } => on_copy(
            alloc,
            meta,
            &index,
            shard,
            CopyEvent::Replicate { copy, seq },
        ),
        Command::Ack { index, shard, copy } => {
            on_copy(alloc, meta, &index, shard, CopyEvent::Ack { copy })
        }
        Command::Sync { index, shard, copy } => {
            on_copy(alloc, meta, &index, shard, CopyEvent::Sync { copy })
        }
        Command::Promote { index, shard, copy } => {
            on_copy(alloc, meta, &index, shard, CopyEvent::Promote { copy })
        }
        Command::Resync { index, shard, copy } => {
            on_leader(alloc, meta, &index, shard, Event::Resync { copy })
        }
        Command::FailCopy { index, shard, copy } => {
            on_copy(alloc, meta, &index, shard, CopyEvent::FailCopy { copy })
        }
        Command::ForcePromote { index, shard, copy } => {
            on_leader(alloc, meta, &index, shard, Event::ForcePromote { copy })
        }
        Command::Flush { index, shard, copy } => {
            on_copy(alloc, meta, &index, shard, CopyEvent::Flush { copy })
        }
        Command::Merge { index, shard, copy } => {
            on_copy(alloc, meta, &index, shard, CopyEvent::Merge { copy })
        }
        Command::AddCopy { index, shard } => {
            on_copy(alloc, meta, &index, shard, CopyEvent::AddCopy)
        }
        Command::Deliver {
            index,
            shard,
            at,
            copy,
            keep,
        } => {
            let copy = copy.unwrap_or(primary_in(notes, shard));
            on_copy(
                alloc,
                meta,
                &index,
                shard,
                CopyEvent::Deliver { at, copy, keep },
            )
        }
        Command::Drop { index, shard, at } => {
            on_copy(alloc, meta, &index, shard, CopyEvent::Drop { at })
        }
        Command::Wake { index, shard, at } => {
            on_follower(alloc, meta, &index, shard, FollowerEvent::Wake { at })
        }
        Command::Lose { index, shard, at } => {
            on_follower(alloc, meta, &index, shard, FollowerEvent::Lose { at })
        }
        Command::LoseWrite {
            index,
            shard,
            write,
        } => on_follower(
            alloc,
            meta,
            &index,
            shard,
            FollowerEvent::LoseWrite { write },
        ),
        Command::Written {
            index,
            shard,
            write,
        } => on_follower(alloc, meta, &index, shard, FollowerEvent::Written { write }),
        Command::Apply {
            index,
            shard,
            write,
            epoch,
        } => apply(alloc, meta, notes, &index, shard, write, epoch),
        Command::Renew { index, shard } => {
            on_follower(alloc, meta, &index, shard, FollowerEvent::Renew)
        }
        Command::Restart { index, shard } => {
            on_follower(alloc, meta, &index, shard, FollowerEvent::Restart)
        }
    }
}

// ---- forms

fn does(alloc: Global, deeds: Vec<Deed>, answer: Answer) -> Plan
    ensures { result ≡ does deeds.items answer }
{
    Plan {
        made: Vec::new(alloc),
        deeds,
        answer,
    }
}

fn refused(alloc: Global, fault: MetaFault) -> Plan
    ensures { result ≡ refused fault }
{
    does(alloc, Vec::new(alloc), Answer::Refused(fault))
}

// The index, or why it isn't there.
fn find<'a>(meta: &'a Meta, index: &IndexName) -> Result<&'a IndexMeta, MetaFault>
    ensures err { IfErr result (λ fault. first_refusal (find_guards meta.now index.now) ≡ Some fault) }
    ensures ok { OnOk result (first_refusal (find_guards meta.now index.now) ≡ None) }
    ensures found { IfOk result (λ x. index_at meta.now index.now ≡ Some x.now) }
    ensures bounds { IfOk result (λ x. IsIn 64 x.now) }
    ensures named { OnOk result (is_index_name index.now ≡ true) }
{
    meta.find(index)
}

fn side_of(x: &IndexMeta) -> Side
    ensures { result ≡ side_of x.now }
{
    match x.follower {
        None => Side::Leader,
        Some(f) => Side::Follower(f),
    }
}

fn number_of(x: &IndexMeta) -> u32
    ensures { result ≡ number_of x.now }
{
    x.follower.unwrap_or(0)
}

// An event in the world of a shard, whose reply is told.
fn on_shard(alloc: Global, shard: u64, event: Event, x: &IndexMeta) -> Result<Plan, AllocError>
    requires there { shard < x.now.shards }
    requires bounds { IsIn 64 x.now }
    ensures { IfOk result (λ plan. plan ≡ on_shard shard event x.now) }
{
    let world = x.first + shard as u32;
    let mut deeds = Vec::new(alloc);
    deeds.push(Deed::Happens { world, event })?;
    Ok(does(alloc, deeds, Answer::Told { shard }))
}

// An event in the world of each shard, whatever it is answered.
fn all_shards(
    alloc: Global,
    event: &Event,
    x: &IndexMeta,
    answer: Answer,
) -> Result<Plan, AllocError>
    requires { IsIn 64 x.now }
    ensures { IfOk result (λ plan. plan ≡ does (in_shards event.now x.now) answer) }
{
    let mut deeds = Vec::with_capacity(alloc, x.shards as usize)?;
    push_in_worlds(alloc, &mut deeds, event, x.first, x.shards)?;
    Ok(does(alloc, deeds, answer))
}

// ---- names

fn cluster(alloc: Global, meta: &mut Meta, name: Name) -> Result<Plan, AllocError>
    ensures plan { IfOk result (λ plan. plan ≡ plan_of meta.old [] (Asked.Cluster name)) }
    ensures names { OnOk result ((told : List Reply) → meta.new ≡ names_after meta.old (Asked.Cluster name) told) }
{
    if let Some(fault) = meta.cluster_refusal(&name) {
        return Ok(refused(alloc, fault));
    }
    match meta.add_cluster(name) {
        Ok(()) => Ok(does(alloc, Vec::new(alloc), Answer::Done)),
        Err(_) => Err(AllocError),
    }
}

fn create(
    alloc: Global,
    meta: &mut Meta,
    index: IndexName,
    settings: Settings,
) -> Result<Plan, AllocError>
    ensures plan { IfOk result (λ plan. plan ≡ plan_of meta.old [] (Asked.Create index settings)) }
    ensures names { OnOk result ((told : List Reply) → meta.new ≡ names_after meta.old (Asked.Create index settings) told) }
{
    if let Some(fault) = meta.create_refusal(&index, &settings) {
        return Ok(refused(alloc, fault));
    }
    let _worlds = meta.worlds();
    let leader = index.copy(alloc)?;
    let x = made_index(alloc, meta, &leader, &settings)?;
    let made = starts_of(alloc, &leader, &x)?;
    match meta.create(alloc, index, &settings) {
        Ok(list) => {
            let deeds = all_followed(alloc, &leader, &x, list.as_slice())?;
            let decided = Decisions::new(list);
            Ok(Plan {
                made,
                deeds,
                answer: Answer::Created { decided },
            })
        }
        Err(_) => Err(AllocError),
    }
}

fn follow(
    alloc: Global,
    meta: &mut Meta,
    index: IndexName,
    leader: IndexName,
    settings: Settings,
    params: Params,
) -> Result<Plan, AllocError>
    ensures plan { IfOk result (λ plan. plan ≡ plan_of meta.old [] (Asked.Follow index leader settings params)) }
    ensures names { OnOk result ((told : List Reply) → meta.new ≡ names_after meta.old (Asked.Follow index leader settings params) told) }
{
    if let Some(fault) = meta.follow_refusal(&index, &leader, &settings) {
        return Ok(refused(alloc, fault));
    }
    let plan = follow_plan(alloc, meta, &index, &leader, &settings, params)?;
    match meta.follow(index, &leader, &settings) {
        Ok(()) => Ok(plan),
        Err(_) => Err(AllocError),
    }
}

// A follower that isn't refused.
fn follow_plan(
    alloc: Global,
    meta: &Meta,
    index: &IndexName,
    leader: &IndexName,
    settings: &Settings,
    params: Params,
) -> Result<Plan, AllocError>
    requires { first_refusal (follow_guards meta.now index.now leader.now settings.now) ≡ None }
    ensures { IfOk result (λ plan. plan ≡ follow_plan meta.now index.now leader.now settings.now params) }
{
    let _worlds = meta.worlds();
    let x = match find(meta, leader) {
        Ok(x) => x,
        Err(fault) => return Ok(refused(alloc, fault)),
    };
    let replicas = settings.replicas.unwrap_or(x.replicas);
    let mut deeds = Vec::with_capacity(alloc, x.shards as usize)?;
    push_follow(alloc, &mut deeds, index, leader, params, replicas, x)?;
    Ok(does(alloc, deeds, Answer::Done))
}

fn auto_put(
    alloc: Global,
    meta: &mut Meta,
    cluster: &Name,
    name: Name,
    remote: Name,
    patterns: Vec<Name>,
    exclude: Vec<Name>,
    follow: Name,
) -> Result<Plan, AllocError>
    ensures plan { IfOk result (λ plan. plan ≡ plan_of meta.old [] (Asked.AutoPut cluster.now name remote patterns.items exclude.items follow)) }
    ensures names { OnOk result ((told : List Reply) → meta.new ≡ names_after meta.old (Asked.AutoPut cluster.now name remote patterns.items exclude.items follow) told) }
{
    match meta.auto_put(cluster, name, remote, patterns, exclude, follow) {
        Ok(()) => Ok(does(alloc, Vec::new(alloc), Answer::Done)),
        Err(why) => pattern_refused(alloc, why),
    }
}

fn auto_delete(
    alloc: Global,
    meta: &mut Meta,
    cluster: &Name,
    name: &Name,
) -> Result<Plan, AllocError>
    ensures plan { IfOk result (λ plan. plan ≡ plan_of meta.old [] (Asked.AutoDelete cluster.now name.now)) }
    ensures names { OnOk result ((told : List Reply) → meta.new ≡ names_after meta.old (Asked.AutoDelete cluster.now name.now) told) }
{
    match meta.auto_delete(cluster, name) {
        Ok(()) => Ok(does(alloc, Vec::new(alloc), Answer::Done)),
        Err(why) => pattern_refused(alloc, why),
    }
}

// Why a change of the patterns was refused.
fn pattern_refused(alloc: Global, why: AutoRefused) -> Result<Plan, AllocError>
    ensures { IfOk result (IsRefusedSo why) }
{
    match why {
        AutoRefused::Meta(fault) => refused_by_names(alloc, fault),
        AutoRefused::Auto(fault) => refused_by_patterns(alloc, fault),
    }
}

fn refused_by_names(alloc: Global, fault: MetaFault) -> Result<Plan, AllocError>
    ensures { IfOk result (IsRefusedSo (AutoRefused.Meta fault)) }
{
    match fault {
        MetaFault::Memory => Err(AllocError),
        _ => Ok(refused(alloc, fault)),
    }
}

fn refused_by_patterns(alloc: Global, fault: AutoFault) -> Result<Plan, AllocError>
    ensures { IfOk result (IsRefusedSo (AutoRefused.Auto fault)) }
{
    if let AutoFault::Memory = &fault {
        return Err(AllocError);
    }
    Ok(does(alloc, Vec::new(alloc), Answer::PatternRefused(fault)))
}

// ---- each shard

fn pause(alloc: Global, meta: &Meta, notes: &[Note], index: &IndexName) -> Result<Plan, AllocError>
    ensures { IfOk result (λ plan. plan ≡ plan_of meta.now notes.now (Asked.Pause index.now)) }
{
    let x = match find(meta, index) {
        Ok(x) => x,
        Err(fault) => return Ok(refused(alloc, fault)),
    };
    if let Some(fault) = x.pause_refusal(phases_in(notes)) {
        return Ok(refused(alloc, fault));
    }
    all_shards(alloc, &Event::Pause { f: number_of(x) }, x, Answer::Done)
}

fn resume(alloc: Global, meta: &Meta, notes: &[Note], index: &IndexName) -> Result<Plan, AllocError>
    ensures { IfOk result (λ plan. plan ≡ plan_of meta.now notes.now (Asked.Resume index.now)) }
{
    let x = match find(meta, index) {
        Ok(x) => x,
        Err(fault) => return Ok(refused(alloc, fault)),
    };
    if let Some(fault) = x.resume_refusal(phases_in(notes)) {
        return Ok(refused(alloc, fault));
    }
    all_shards(alloc, &Event::Resume { f: number_of(x) }, x, Answer::Done)
}

fn unfollow(
    alloc: Global,
    meta: &Meta,
    notes: &[Note],
    index: &IndexName,
) -> Result<Plan, AllocError>
    ensures { IfOk result (λ plan. plan ≡ plan_of meta.now notes.now (Asked.Unfollow index.now)) }
{
    let x = match find(meta, index) {
        Ok(x) => x,
        Err(fault) => return Ok(refused(alloc, fault)),
    };
    if let Some(fault) = x.unfollow_refusal(phases_in(notes)) {
        return Ok(refused(alloc, fault));
    }
    all_shards(alloc, &Event::Unfollow { f: number_of(x) }, x, Answer::Done)
}

fn status(alloc: Global, meta: &Meta, index: &IndexName) -> Result<Plan, AllocError>
    ensures { IfOk result (λ plan. plan ≡ plan_of meta.now [] (Asked.Status index.now)) }
{
    let x = match find(meta, index) {
        Ok(x) => x,
        Err(fault) => return Ok(refused(alloc, fault)),
    };
    all_shards(
        alloc,
        &Event::Status { side: side_of(x) },
        x,
        Answer::Statuses,
    )
}

// The search of a shard: at the copy that is named, and else at the primary.
fn search_event(
    alloc: Global,
    x: &IndexMeta,
    request: &SearchRequest,
    copy: Option<u64>,
    note: &Note,
) -> Result<Event, AllocError>
    ensures { IfOk result (λ event. event ≡ search_event x.now request.now copy note.now) }
{
    let side = side_of(x);
    let copy = copy.unwrap_or(primary_of(side, note));
    let request = Boxed::new(alloc, request.copy(alloc)?)?;
    Ok(Event::Search {
        side,
        copy,
        request,
    })
}

fn search_each(
    alloc: Global,
    x: &IndexMeta,
    request: &SearchRequest,
    copy: Option<u64>,
    notes: &[Note],
) -> Result<Vec<Deed>, AllocError>
    requires bounds { IsIn 64 x.now }
    requires few { length notes.now ≤ 64 }
    ensures { IfOk result (λ deeds. deeds.items ≡ in_turn x.now.first (map (search_event x.now request.now copy) notes.now)) }
{
    let mut deeds = Vec::with_capacity(alloc, notes.len())?;
    let mut world = x.first;
    for note in notes {
        let event = search_event(alloc, x, request, copy, note)?;
        deeds.push(Deed::Happens { world, event })?;
        world += 1;
    }
    Ok(deeds)
}

fn search(
    alloc: Global,
    meta: &Meta,
    notes: &[Note],
    index: &IndexName,
    query: Query,
    sort: SortKeys,
    from: u64,
    size: u64,
    copy: Option<u64>,
) -> Result<Plan, AllocError>
    requires few { length notes.now ≤ 64 }
    ensures { IfOk result (λ plan. plan ≡ plan_of meta.now notes.now (Asked.Search index.now query sort from size copy)) }
{
    let x = match find(meta, index) {
        Ok(x) => x,
        Err(fault) => return Ok(refused(alloc, fault)),
    };
    let shown = sort.copy(alloc)?;
    let request = SearchRequest { query, sort };
    let deeds = search_each(alloc, x, &request, copy, notes)?;
    let answer = Answer::Found {
        sort: shown,
        from,
        size,
    };
    Ok(does(alloc, deeds, answer))
}

// ---- all worlds

fn settle(alloc: Global) -> Result<Plan, AllocError>
    ensures { IfOk result (λ plan. plan ≡ does (Deed.Settle ∷ []) Answer.Settled) }
{
    let mut deeds = Vec::new(alloc);
    deeds.push(Deed::Settle)?;
    Ok(does(alloc, deeds, Answer::Settled))
}

fn clock(alloc: Global, meta: &Meta, cluster: &Name, now: Millis) -> Result<Plan, AllocError>
    ensures { IfOk result (λ plan. plan ≡ plan_of meta.now [] (Asked.Clock cluster.now now)) }
{
    if !meta.has_cluster(cluster) {
        return Ok(refused(alloc, MetaFault::NoCluster));
    }
    let deeds = clock_deeds(alloc, meta, cluster, now)?;
    Ok(does(alloc, deeds, Answer::Expired))
}

// ---- one shard

fn write(
    alloc: Global,
    meta: &Meta,
    index: &IndexName,
    request: WriteRequest,
) -> Result<Plan, AllocError>
    ensures { IfOk result (λ plan. plan ≡ with_index meta.now index.now (λ x. first_refused (write_guards x) (write_plan request x))) }
{
    let x = match find(meta, index) {
        Ok(x) => x,
        Err(fault) => return Ok(refused(alloc, fault)),
    };
    if let Some(fault) = x.write_refusal() {
        return Ok(refused(alloc, fault));
    }
    let shard = route(&request.id, request.routing.as_ref(), x.shards);
    let request = Boxed::new(alloc, request)?;
    on_shard(alloc, u64::from(shard), Event::Write { request }, x)
}

#[tactic(auto, using(crate::proofs::Tables::tables))]
fn on_copy(
    alloc: Global,
    meta: &Meta,
    index: &IndexName,
    shard: u64,
    event: CopyEvent,
) -> Result<Plan, AllocError>
    ensures { IfOk result (λ plan. plan ≡ on_copy meta.now index.now shard (λ x. copy_event (side_of x) event)) }
{
    let x = match find(meta, index) {
        Ok(x) => x,
        Err(fault) => return Ok(refused(alloc, fault)),
    };
    if let Some(fault) = x.shard_refusal(shard) {
        return Ok(refused(alloc, fault));
    }
    on_shard(alloc, shard, copy_event(side_of(x), event), x)
}

#[tactic(auto, using(crate::proofs::Tables::tables))]
fn on_leader(
    alloc: Global,
    meta: &Meta,
    index: &IndexName,
    shard: u64,
    event: Event,
) -> Result<Plan, AllocError>
    ensures { IfOk result (λ plan. plan ≡ on_leader meta.now index.now shard event) }
{
    let x = match find(meta, index) {
        Ok(x) => x,
        Err(fault) => return Ok(refused(alloc, fault)),
    };
    if let Some(fault) = x.resync_refusal(shard) {
        return Ok(refused(alloc, fault));
    }
    on_shard(alloc, shard, event, x)
}

#[tactic(auto, using(crate::proofs::Tables::tables))]
fn on_follower(
    alloc: Global,
    meta: &Meta,
    index: &IndexName,
    shard: u64,
    event: FollowerEvent,
) -> Result<Plan, AllocError>
    ensures { IfOk result (λ plan. plan ≡ on_follower meta.now index.now shard (λ x. follower_event (number_of x) event)) }
{
    let x = match find(meta, index) {
        Ok(x) => x,
        Err(fault) => return Ok(refused(alloc, fault)),
    };
    if let Some(fault) = x.follower_shard_refusal(shard) {
        return Ok(refused(alloc, fault));
    }
    on_shard(alloc, shard, follower_event(number_of(x), event), x)
}

// Under the epoch that is named, and else under that which is kept.
#[tactic(auto, using(crate::proofs::Tables::tables))]
fn apply(
    alloc: Global,
    meta: &Meta,
    notes: &[Note],
    index: &IndexName,
    shard: u64,
    write: u64,
    epoch: Option<u64>,
) -> Result<Plan, AllocError>
    ensures { IfOk result (λ plan. plan ≡ plan_of meta.now notes.now (Asked.Apply index.now shard write epoch)) }
{
    let x = match find(meta, index) {
        Ok(x) => x,
        Err(fault) => return Ok(refused(alloc, fault)),
    };
    if let Some(fault) = x.follower_shard_refusal(shard) {
        return Ok(refused(alloc, fault));
    }
    apply_plan(alloc, notes, shard, write, epoch, x)
}

fn apply_plan(
    alloc: Global,
    notes: &[Note],
    shard: u64,
    write: u64,
    epoch: Option<u64>,
    x: &IndexMeta,
) -> Result<Plan, AllocError>
    requires there { shard < x.now.shards }
    requires bounds { IsIn 64 x.now }
    ensures { IfOk result (λ plan. plan ≡ apply_plan notes.now shard write epoch x.now) }
{
    let epoch = epoch.unwrap_or(epoch_in(notes, shard));
    let mut deeds = Vec::new(alloc);
    deeds.push(Deed::TakeAndApply {
        world: x.first + shard as u32,
        f: number_of(x),
        epoch,
        write,
    })?;
    Ok(does(alloc, deeds, Answer::Told { shard }))
}
