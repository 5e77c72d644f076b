//! Tables of commands, each with its answer behind a bar. A table begins with no cluster, and a blank line ends it.
use ccr_auto::Decision;
use ccr_meta::{
    AutoRefused, Decided, IndexMeta, Meta, MetaFault, Phases, Settings, route, uuid_of,
};
use ccr_op::{DocId, IndexName, Name};
use std::alloc::{AllocError, Global};
use std::sync::ArcStr;
use std::test::Fail;

const TABLES: &str = r#"
cluster a | Ok(())
cluster b | Ok(())
create a/l replicas=0 | created
create a/off replicas=0 soft=off | created
follow b/f a/l | Ok(())
create c/x replicas=9 | NoCluster
create a/l replicas=9 | IndexExists
create b/f | IndexExists
follow c/f a/none | Err(NoCluster)
follow b/g c/l | Err(NoCluster)
follow b/f a/none | Err(NoIndex)
follow b/f b/f | Err(IndexExists)
follow b/f a/off | Err(IndexExists)
follow b/g b/f x=1 | Err(IsFollower)
follow a/g a/l | Err(BadSetting)
follow a/g a/off | Err(SoftDeletesOff)
follow b/g a/off x=1 | Err(SoftDeletesOff)
cluster a | Err(ClusterExists)
find c/x | NoCluster
find a/x | NoIndex
cluster - | Err(BadSetting)
cluster _a | Err(BadSetting)
cluster A | Err(BadSetting)

cluster a | Ok(())
cluster b | Ok(())
create a/l replicas=8 | BadSetting
create a/l shards=0 | BadSetting
create a/l shards=17 | BadSetting
create a/l retention=9007199254740992 | BadSetting
create a/l period=0 | BadSetting
create a/l period=9007199254740992 | BadSetting
create a/l x=1 | BadSetting
create a/l replicas=7 shards=1 soft=on retention=9007199254740991 period=9007199254740991 | created
create a/m replicas=0 shards=16 period=1 | created
create a/o | created
find a/l | (1, 7, 9007199254740991, 0, None)
find a/m | (16, 0, 1, 1, None)
find a/o | (1, 1, 43200000, 17, None)
follow b/f a/m shards=16 | Err(BadSetting)
follow b/f a/m soft=on | Err(BadSetting)
follow b/f a/m retention=0 | Err(BadSetting)
follow b/f a/m period=1 | Err(BadSetting)
follow b/f a/m replicas=8 | Err(BadSetting)
follow b/f a/m replicas=3 | Ok(())
follow b/g a/m | Ok(())
find b/f | (16, 3, 1, 1, Some(0))
find b/g | (16, 0, 1, 1, Some(1))

cluster a | Ok(())
cluster b | Ok(())
cluster c | Ok(())
cluster d | Ok(())
cluster e | Ok(())
cluster f | Ok(())
cluster g | Ok(())
cluster h | Ok(())
cluster i | Err(TooMany)
cluster c | Err(ClusterExists)
create a/a shards=16 | created
create a/b shards=16 | created
create a/c shards=16 | created
create a/d shards=15 | created
create a/e shards=2 | TooMany
create a/e replicas=8 shards=2 | BadSetting
create a/e | created
create a/f | TooMany
create a/a | IndexExists
follow b/0 a/a | Ok(())
follow b/1 a/a | Ok(())
follow b/2 a/a | Ok(())
follow b/3 a/a | Ok(())
follow b/4 a/a | Ok(())
follow b/5 a/a | Ok(())
follow b/6 a/a | Ok(())
follow b/7 a/a | Ok(())
follow b/8 a/a | Err(TooMany)
follow b/8 a/a x=1 | Err(BadSetting)
follow b/8 a/b | Ok(())
find b/8 | (16, 1, 43200000, 16, Some(0))
find b/7 | (16, 1, 43200000, 0, Some(7))

cluster a | Ok(())
cluster b | Ok(())
cluster c | Ok(())
put b p3 a l* - 3-{{leader_index}} | Ok(())
put b p1 a *s,l* - 1-{{leader_index}} | Ok(())
put b p2 a *o* - 2-{{leader_index}} | Ok(())
put c p a logs,l*,* - {{leader_index}} | Ok(())
create a/logs replicas=0 | created conflict=b:p1,p2 followed=c/logs
create a/o replicas=0 | created followed=b/2-o followed=c/o
create a/lit replicas=0 | created conflict=b:p1,p3 followed=c/lit
find b/1-logs | NoIndex
delete b p1 | Ok(())
create a/lat replicas=0 | created followed=b/3-lat followed=c/lat
delete b p1 | refused by the patterns: Auto(NoPattern)
delete d p1 | refused by the names: Meta(NoCluster)
put d p a * - {{leader_index}} | refused by the names: Meta(NoCluster)
put b p d * - {{leader_index}} | refused by the names: Meta(NoCluster)
put b p2 a * - {{leader_index}} | refused by the patterns: Auto(NameTaken)
put b p a * - x | refused by the patterns: Auto(BadPattern)
put b p a - - {{leader_index}} | refused by the patterns: Auto(BadPattern)

cluster a | Ok(())
cluster b | Ok(())
cluster c | Ok(())
create b/logs replicas=0 | created
put b p a * - {{leader_index}} | Ok(())
put c p a * - UP-{{leader_index}} | Ok(())
create a/logs replicas=0 | created refused=b:IndexExists refused=c:BadSetting
create a/log replicas=0 | created followed=b/log refused=c:BadSetting
delete c p | Ok(())
create a/off replicas=0 soft=off | created refused=b:SoftDeletesOff
put c p a z - x/{{leader_index}} | Ok(())
create a/z replicas=0 | created followed=b/z refused=c:BadSetting

cluster a | Ok(())
cluster b | Ok(())
put b p1 a logs-* logs-x* {{leader_index}} | Ok(())
put b p2 a * logs-* {{leader_index}} | Ok(())
create a/logs-1 | created followed=b/logs-1
create a/logs-x1 | created
create a/m | created followed=b/m
put b p a * A {{leader_index}} | refused by the patterns: Auto(BadPattern)

cluster a | Ok(())
cluster b | Ok(())
create a/l | created
follow b/f a/l | Ok(())
write a/l | None
resync a/l | Some(NoShard)
follower a/l | Some(NotFollower)
write b/f | Some(IsFollower)
resync b/f | Some(IsFollower)
follower b/f | Some(NoShard)
pause b/f bootstrapping | Some(Bootstrapping)
resume b/f active | Some(NotPaused)
unfollow b/f bootstrapping | Some(Bootstrapping)
unfollow b/f active | Some(NotPaused)
"#;

/// The word of a command at this place, empty where there are not so many.
fn word(command: &str, at: usize) -> &str {
    command.split(' ').nth(at).unwrap_or("")
}

fn name(alloc: Global, text: &str) -> Result<Name, AllocError> {
    Ok(Name::new(ArcStr::from_str(alloc, text)?))
}

fn index_name(alloc: Global, text: &str) -> Result<IndexName, AllocError> {
    let (cluster, index) = text.split_once('/').unwrap_or((text, ""));
    let cluster = name(alloc, cluster)?;
    let index = name(alloc, index)?;
    Ok(IndexName { cluster, index })
}

fn names(alloc: Global, words: &str) -> Result<Vec<Name>, AllocError> {
    let mut list = Vec::new(alloc);
    for word in words.split(',') {
        if word != "-" {
            list.push(name(alloc, word)?)?;
        }
    }
    Ok(list)
}

/// The number behind a key in a command.
fn setting(command: &str, key: &str) -> Option<u64> {
    let (_, rest) = command.split_once(key)?;
    let (value, _) = rest.split_once(' ').unwrap_or((rest, ""));
    value.parse().ok()
}

fn count(command: &str, key: &str) -> Option<u32> {
    u32::try_from(setting(command, key)?).ok()
}

fn soft_deletes(command: &str) -> Option<bool> {
    if command.contains("soft=on") {
        return Some(true);
    }
    if command.contains("soft=off") {
        return Some(false);
    }
    None
}

fn settings(command: &str) -> Settings {
    Settings {
        shards: count(command, "shards="),
        replicas: count(command, "replicas="),
        soft_deletes: soft_deletes(command),
        retention: setting(command, "retention="),
        period: setting(command, "period="),
        bad: command.contains("x=1"),
    }
}

/// Whether this is what a value is printed as for debugging.
fn is_told(alloc: Global, value: &impl std::fmt::Debug, want: &str) -> Result<bool, AllocError> {
    let text = format!(in alloc; "{value:?}")?;
    Ok(text.as_str() == want)
}

fn decided_text(alloc: Global, one: &Decided) -> Result<String, AllocError> {
    let cluster = one.cluster.as_str();
    if let Some(fault) = one.refused {
        return format!(in alloc; " refused={cluster}:{fault:?}");
    }
    match &one.decision {
        Decision::None => String::from_str(alloc, " none"),
        Decision::Follow { name } => {
            let index = name.as_str();
            format!(in alloc; " followed={cluster}/{index}")
        }
        Decision::Conflict { first, second } => {
            let first = first.as_str();
            let second = second.as_str();
            format!(in alloc; " conflict={cluster}:{first},{second}")
        }
    }
}

fn is_decided(alloc: Global, list: &[Decided], want: &str) -> Result<bool, AllocError> {
    let mut text = String::from_str(alloc, "created")?;
    for one in list {
        text.push_str(decided_text(alloc, one)?.as_str())?;
    }
    Ok(text.as_str() == want)
}

fn creates(meta: &mut Meta, alloc: Global, command: &str, want: &str) -> Result<bool, AllocError> {
    let index = index_name(alloc, word(command, 1))?;
    match meta.create(alloc, index, &settings(command)) {
        Ok(list) => is_decided(alloc, list.as_slice(), want),
        Err(fault) => is_told(alloc, &fault, want),
    }
}

fn follows(meta: &mut Meta, alloc: Global, command: &str, want: &str) -> Result<bool, AllocError> {
    let index = index_name(alloc, word(command, 1))?;
    let leader = index_name(alloc, word(command, 2))?;
    let done = meta.follow(index, &leader, &settings(command));
    is_told(alloc, &done, want)
}

fn numbers(x: &IndexMeta) -> (u32, u32, u64, u32, Option<u32>) {
    (x.shards, x.replicas, x.period, x.first, x.follower)
}

fn finds(meta: &Meta, alloc: Global, command: &str, want: &str) -> Result<bool, AllocError> {
    match meta.find(&index_name(alloc, word(command, 1))?) {
        Ok(x) => is_told(alloc, &numbers(x), want),
        Err(fault) => is_told(alloc, &fault, want),
    }
}

fn is_put(alloc: Global, put: Result<(), AutoRefused>, want: &str) -> Result<bool, AllocError> {
    match put {
        Ok(()) => Ok(want == "Ok(())"),
        Err(refused) => {
            let text = format!(in alloc; "{refused}: {refused:?}")?;
            Ok(text.as_str() == want)
        }
    }
}

fn puts(meta: &mut Meta, alloc: Global, command: &str, want: &str) -> Result<bool, AllocError> {
    let cluster = name(alloc, word(command, 1))?;
    let pattern = name(alloc, word(command, 2))?;
    let remote = name(alloc, word(command, 3))?;
    let patterns = names(alloc, word(command, 4))?;
    let exclude = names(alloc, word(command, 5))?;
    let follow = name(alloc, word(command, 6))?;
    let put = meta.auto_put(&cluster, pattern, remote, patterns, exclude, follow);
    is_put(alloc, put, want)
}

fn deletes(meta: &mut Meta, alloc: Global, command: &str, want: &str) -> Result<bool, AllocError> {
    let cluster = name(alloc, word(command, 1))?;
    let pattern = name(alloc, word(command, 2))?;
    let deleted = meta.auto_delete(&cluster, &pattern);
    is_put(alloc, deleted, want)
}

/// Why a command on shard 1 of an index of one shard is refused.
fn refusal(x: &IndexMeta, op: &str, phases: Phases) -> Option<MetaFault> {
    match op {
        "write" => x.write_refusal(),
        "resync" => x.resync_refusal(1),
        "follower" => x.follower_shard_refusal(1),
        "pause" => x.pause_refusal(phases),
        "resume" => x.resume_refusal(phases),
        _ => x.unfollow_refusal(phases),
    }
}

fn is_refused(meta: &Meta, alloc: Global, command: &str, want: &str) -> Result<bool, AllocError> {
    let phases = Phases {
        bootstrapping: word(command, 2) == "bootstrapping",
        active: word(command, 2) == "active",
        paused: false,
    };
    match meta.find(&index_name(alloc, word(command, 1))?) {
        Ok(x) => is_told(alloc, &refusal(x, word(command, 0), phases), want),
        Err(_) => Ok(false),
    }
}

/// Whether a command comes to what is wanted.
fn is_right(meta: &mut Meta, alloc: Global, command: &str, want: &str) -> Result<bool, AllocError> {
    match word(command, 0) {
        "cluster" => {
            let added = meta.add_cluster(name(alloc, word(command, 1))?);
            is_told(alloc, &added, want)
        }
        "create" => creates(meta, alloc, command, want),
        "follow" => follows(meta, alloc, command, want),
        "find" => finds(meta, alloc, command, want),
        "put" => puts(meta, alloc, command, want),
        "delete" => deletes(meta, alloc, command, want),
        _ => is_refused(meta, alloc, command, want),
    }
}

/// The first command that comes to something else, and which line that is.
fn first_wrong(alloc: Global, tables: &'static str) -> Result<&'static str, AllocError> {
    let mut meta = Meta::new(alloc);
    for line in tables.lines() {
        match line.split_once(" | ") {
            Some((command, want)) => {
                if !is_right(&mut meta, alloc, command, want)? {
                    return Ok(line);
                }
            }
            None => meta = Meta::new(alloc),
        }
    }
    Ok("")
}

#[test]
fn commands_come_to_their_answers(rt: HostRuntime) -> Result<(), Fail> {
    assert_eq!(rt; first_wrong(rt.alloc(), TABLES)?, "");
    Ok(())
}

/// The shard of a document, by its id and perhaps a routing.
fn shard(alloc: Global, id: &str, routing: &str, shards: u32) -> Option<u32> {
    let id = DocId::new(ArcStr::from_str(alloc, id).ok()?)?;
    let routing = DocId::new(ArcStr::from_str(alloc, routing).ok()?);
    Some(route(&id, routing.as_ref(), shards.max(1)))
}

/// How many shards, an id, a routing or a dash, and the shard. The published hashes of FNV-1a with 64 bits are
/// af63dc4c8601ec8c of `a` and af63df4c8601f1a5 of `b`, here modulo 2^32 - 1 and modulo 2^32 - 5. A routing stands for
/// the id.
const ROUTES: &str = "4294967295 a  895863001
4294967291 a  4076157463
4294967295 b  895865074
4294967291 b  4076162608
2 a  0
2 b  1
2 a b 1
2 b a 0
1 b  0";

fn is_routed(alloc: Global, line: &str) -> bool {
    let shards = word(line, 0).parse().unwrap_or(0);
    shard(alloc, word(line, 1), word(line, 2), shards) == word(line, 3).parse().ok()
}

#[test]
fn documents_have_their_shards(rt: HostRuntime) {
    for line in ROUTES.lines() {
        assert!(rt; is_routed(rt.alloc(), line), "{line}");
    }
}

#[test]
fn an_index_has_its_uuid(rt: HostRuntime) -> Result<(), Fail> {
    let text = format!(in rt.alloc(); "{}", uuid_of("index:a/l"))?;
    assert_eq!(rt; text.as_str(), "223c283b-627d-5bac-9463-bf337a05a8ea");
    Ok(())
}
