// Commands, made of the fields of a JSON object.
ghost use Rattle.std.specs.Prelude.{◌≡◌, ◌≢◌, true, Some, None, IfOk, IfErr};
ghost use Rattle.serde_json.specs.View.{view};
ghost use Rattle.ccr_script.specs.Commands.{IsMade, IsTextOf, IsNoCommand, op_in};
ghost use Rattle.ccr_script.specs.Parts.{at, query_in};
ghost use Rattle.ccr_script.specs.Checking.{has_fields};
ghost use Rattle.ccr_script.specs.Grammar.{fields_of};
ghost use Rattle.ccr_script.specs.declared.fields.Field.TheVariants as field;
ghost use Rattle.ccr_script.specs.declared.grammar.Op.TheVariants as op;

use crate::bad_lines::BadLine;
use crate::checking::{has_at_most, is_there};
use crate::commands::Command;
use crate::fields::Field;
use crate::grammar::Op;
use crate::parts::{
    expect_in, id_at, index_in, keys_in, member, name_in, names_in, number_at, number_or, truth_in,
};
use crate::settings::{create_settings, follow_settings, params};
use ccr_op::Body;
use ccr_query::{BadQuery, Condition, Node, Query};
use serde_json::Value;
use std::alloc::{AllocError, Global};
use std::sync::ArcStr;

/// How many hits a search may go through.
const MOST_HITS: u64 = 10_000;

/// The command of an object that has the command's fields, unless parts of it don't belong together.
pub fn build(alloc: Global, op: Op, value: &Value) -> Result<Command, BadLine>
    requires named { op_in (view value.now) ≡ Some op }
    requires fields { has_fields (fields_of op) (view value.now) ≡ true }
    ensures ok { IfOk result (λ command. IsMade op (view value.now) command) }
    ensures err { IfErr result (λ why. why ≢ BadLine.Memory → IsNoCommand op (view value.now) why) }
{
    match op {
        Op::Cluster => Ok(Command::Cluster {
            name: name_in(alloc, value, Field::Name)?,
        }),
        Op::Create => Ok(Command::Create {
            index: index_in(alloc, value, Field::Index)?,
            settings: create_settings(member(value, Field::Settings)),
        }),
        Op::Follow => Ok(Command::Follow {
            index: index_in(alloc, value, Field::Index)?,
            leader: index_in(alloc, value, Field::Leader)?,
            settings: follow_settings(member(value, Field::Settings), member(value, Field::Params)),
            params: params(member(value, Field::Params)),
        }),
        Op::Pause => Ok(Command::Pause {
            index: index_in(alloc, value, Field::Index)?,
        }),
        Op::Resume => Ok(Command::Resume {
            index: index_in(alloc, value, Field::Index)?,
        }),
        Op::Unfollow => Ok(Command::Unfollow {
            index: index_in(alloc, value, Field::Index)?,
        }),
        Op::AutoPut => read_auto_put(alloc, value),
        Op::AutoDelete => Ok(Command::AutoDelete {
            cluster: name_in(alloc, value, Field::Cluster)?,
            name: name_in(alloc, value, Field::Name)?,
        }),
        Op::Write => read_write(alloc, value),
        Op::Delete => read_delete(alloc, value),
        Op::Search => read_search(alloc, value),
        Op::Status => Ok(Command::Status {
            index: index_in(alloc, value, Field::Index)?,
        }),
        Op::Settle => Ok(Command::Settle),
        Op::Clock => Ok(Command::Clock {
            cluster: name_in(alloc, value, Field::Cluster)?,
            now: number_or(value, Field::Now, 0),
        }),
        Op::Replicate => Ok(Command::Replicate {
            index: index_in(alloc, value, Field::Index)?,
            shard: number_or(value, Field::Shard, 0),
            copy: number_or(value, Field::Copy, 0),
            seq: number_or(value, Field::Seq, 0),
        }),
        Op::Ack => Ok(Command::Ack {
            index: index_in(alloc, value, Field::Index)?,
            shard: number_or(value, Field::Shard, 0),
            copy: number_or(value, Field::Copy, 0),
        }),
        Op::Sync => Ok(Command::Sync {
            index: index_in(alloc, value, Field::Index)?,
            shard: number_or(value, Field::Shard, 0),
            copy: number_or(value, Field::Copy, 0),
        }),
        Op::Promote => Ok(Command::Promote {
            index: index_in(alloc, value, Field::Index)?,
            shard: number_or(value, Field::Shard, 0),
            copy: number_or(value, Field::Copy, 0),
        }),
        Op::Resync => Ok(Command::Resync {
            index: index_in(alloc, value, Field::Index)?,
            shard: number_or(value, Field::Shard, 0),
            copy: number_or(value, Field::Copy, 0),
        }),
        Op::FailCopy => Ok(Command::FailCopy {
            index: index_in(alloc, value, Field::Index)?,
            shard: number_or(value, Field::Shard, 0),
            copy: number_or(value, Field::Copy, 0),
        }),
        Op::ForcePromote => Ok(Command::ForcePromote {
            index: index_in(alloc, value, Field::Index)?,
            shard: number_or(value, Field::Shard, 0),
            copy: number_or(value, Field::Copy, 0),
        }),
        Op::Flush => Ok(Command::Flush {
            index: index_in(alloc, value, Field::Index)?,
            shard: number_or(value, Field::Shard, 0),
            copy: number_or(value, Field::Copy, 0),
        }),
        Op::Merge => Ok(Command::Merge {
            index: index_in(alloc, value, Field::Index)?,
            shard: number_or(value, Field::Shard, 0),
            copy: number_or(value, Field::Copy, 0),
        }),
        Op::AddCopy => Ok(Command::AddCopy {
            index: index_in(alloc, value, Field::Index)?,
            shard: number_or(value, Field::Shard, 0),
        }),
        Op::Deliver => Ok(Command::Deliver {
            index: index_in(alloc, value, Field::Index)?,
            shard: number_or(value, Field::Shard, 0),
            at: number_or(value, Field::At, 0),
            copy: number_at(value, Field::Copy),
            keep: truth_in(value, Field::Keep),
        }),
        Op::Drop => Ok(Command::Drop {
            index: index_in(alloc, value, Field::Index)?,
            shard: number_or(value, Field::Shard, 0),
            at: number_or(value, Field::At, 0),
        }),
        Op::Wake => Ok(Command::Wake {
            index: index_in(alloc, value, Field::Index)?,
            shard: number_or(value, Field::Shard, 0),
            at: number_or(value, Field::At, 0),
        }),
        Op::Lose => Ok(Command::Lose {
            index: index_in(alloc, value, Field::Index)?,
            shard: number_or(value, Field::Shard, 0),
            at: number_or(value, Field::At, 0),
        }),
        Op::LoseWrite => Ok(Command::LoseWrite {
            index: index_in(alloc, value, Field::Index)?,
            shard: number_or(value, Field::Shard, 0),
            write: number_or(value, Field::Write, 0),
        }),
        Op::Written => Ok(Command::Written {
            index: index_in(alloc, value, Field::Index)?,
            shard: number_or(value, Field::Shard, 0),
            write: number_or(value, Field::Write, 0),
        }),
        Op::Apply => Ok(Command::Apply {
            index: index_in(alloc, value, Field::Index)?,
            shard: number_or(value, Field::Shard, 0),
            write: number_or(value, Field::Write, 0),
            epoch: number_at(value, Field::Epoch),
        }),
        Op::Renew => Ok(Command::Renew {
            index: index_in(alloc, value, Field::Index)?,
            shard: number_or(value, Field::Shard, 0),
        }),
        Op::Restart => Ok(Command::Restart {
            index: index_in(alloc, value, Field::Index)?,
            shard: number_or(value, Field::Shard, 0),
        }),
    }
}

fn read_auto_put(alloc: Global, value: &Value) -> Result<Command, BadLine>
    ensures ok { IfOk result (λ command. IsMade op.AutoPut (view value.now) command) }
    ensures err { IfErr result (λ why. why ≢ BadLine.Memory → IsNoCommand op.AutoPut (view value.now) why) }
{
    let Some(patterns) = names_in(alloc, value, Field::Patterns)? else {
        return Err(BadLine::BadField);
    };
    let Some(exclude) = names_in(alloc, value, Field::Exclude)? else {
        return Err(BadLine::BadField);
    };
    Ok(Command::AutoPut {
        cluster: name_in(alloc, value, Field::Cluster)?,
        name: name_in(alloc, value, Field::Name)?,
        remote: name_in(alloc, value, Field::Remote)?,
        patterns,
        exclude,
        follow: name_in(alloc, value, Field::Follow)?,
    })
}

// Most writes have the fields that a write needs and no other, and then no other is looked for.
#[tactic(auto, using(crate::proofs::Few::plain_rules))]
fn read_write(alloc: Global, value: &Value) -> Result<Command, BadLine>
    requires named { op_in (view value.now) ≡ Some op.Write }
    requires fields { has_fields (fields_of op.Write) (view value.now) ≡ true }
    ensures ok { IfOk result (λ command. IsMade op.Write (view value.now) command) }
    ensures err { IfErr result (λ why. why ≢ BadLine.Memory → IsNoCommand op.Write (view value.now) why) }
{
    if has_at_most(4, value) {
        return read_plain_write(alloc, value);
    }
    if is_there(Field::Create, value) && is_there(Field::IfSeqNo, value) {
        return Err(BadLine::BadField);
    }
    let Some(expect) = expect_in(value) else {
        return Err(BadLine::BadField);
    };
    let Some(id) = id_at(alloc, value, Field::Id)? else {
        return Err(BadLine::BadField);
    };
    let Some(source) = member(value, Field::Source) else {
        return Err(BadLine::BadField);
    };
    Ok(Command::Write {
        index: index_in(alloc, value, Field::Index)?,
        id,
        source: body_of(alloc, source)?,
        create: truth_in(value, Field::Create),
        expect,
        routing: id_at(alloc, value, Field::Routing)?,
    })
}

fn read_plain_write(alloc: Global, value: &Value) -> Result<Command, BadLine>
    requires create { at field.Create (view value.now) ≡ None }
    requires number { at field.IfSeqNo (view value.now) ≡ None }
    requires term { at field.IfPrimaryTerm (view value.now) ≡ None }
    requires routing { at field.Routing (view value.now) ≡ None }
    ensures ok { IfOk result (λ command. IsMade op.Write (view value.now) command) }
    ensures err { IfErr result (λ why. why ≢ BadLine.Memory → IsNoCommand op.Write (view value.now) why) }
{
    let Some(id) = id_at(alloc, value, Field::Id)? else {
        return Err(BadLine::BadField);
    };
    let Some(source) = member(value, Field::Source) else {
        return Err(BadLine::BadField);
    };
    Ok(Command::Write {
        index: index_in(alloc, value, Field::Index)?,
        id,
        source: body_of(alloc, source)?,
        create: false,
        expect: None,
        routing: None,
    })
}

// The text of a source.
fn body_of(alloc: Global, value: &Value) -> Result<Body, AllocError>
    ensures { IfOk result (λ body. IsTextOf (view value.now) body) }
{
    let text = value.to_string(alloc)?;
    Ok(Body::new(ArcStr::from_string(text)?))
}

fn read_delete(alloc: Global, value: &Value) -> Result<Command, BadLine>
    ensures ok { IfOk result (λ command. IsMade op.Delete (view value.now) command) }
    ensures err { IfErr result (λ why. why ≢ BadLine.Memory → IsNoCommand op.Delete (view value.now) why) }
{
    let Some(expect) = expect_in(value) else {
        return Err(BadLine::BadField);
    };
    let Some(id) = id_at(alloc, value, Field::Id)? else {
        return Err(BadLine::BadField);
    };
    Ok(Command::Delete {
        index: index_in(alloc, value, Field::Index)?,
        id,
        expect,
        routing: id_at(alloc, value, Field::Routing)?,
    })
}

fn read_query(alloc: Global, value: &Value) -> Result<Option<Query>, AllocError>
    ensures { IfOk result (λ query. query ≡ query_in (view value.now)) }
{
    let Some(given) = member(value, Field::Query) else {
        return Ok(Some(Query::new(Node::Condition(Condition::MatchAll))));
    };
    match Query::from_value(alloc, given) {
        Ok(query) => Ok(Some(query)),
        Err(BadQuery::Memory) => Err(AllocError),
        Err(_) => Ok(None),
    }
}

fn read_search(alloc: Global, value: &Value) -> Result<Command, BadLine>
    ensures ok { IfOk result (λ command. IsMade op.Search (view value.now) command) }
    ensures err { IfErr result (λ why. why ≢ BadLine.Memory → IsNoCommand op.Search (view value.now) why) }
{
    let Some(query) = read_query(alloc, value)? else {
        return Err(BadLine::BadField);
    };
    let Some(sort) = keys_in(alloc, value)? else {
        return Err(BadLine::BadField);
    };
    let from = number_or(value, Field::From, 0);
    let size = number_or(value, Field::Size, 10);
    if from > MOST_HITS || size > MOST_HITS - from {
        return Err(BadLine::BadField);
    }
    Ok(Command::Search {
        index: index_in(alloc, value, Field::Index)?,
        query,
        sort,
        from,
        size,
        copy: number_at(value, Field::Copy),
    })
}
