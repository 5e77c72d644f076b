// Which commands there are, and which fields they have.
ghost use Rattle.std.specs.Prelude.{◌≡◌, List, ℕ};
ghost use Rattle.ccr_script.specs.Grammar.{op_named as op_named_of, first_named as first_named_of, first_byte as first_byte_of, fields_of};

use crate::fields::Field;

/// A command's `op`.
#[derive(Clone, Copy, Debug, PartialEq, Eq)]
pub enum Op {
    Cluster,
    Create,
    Follow,
    Pause,
    Resume,
    Unfollow,
    AutoPut,
    AutoDelete,
    Write,
    Delete,
    Search,
    Status,
    Settle,
    Clock,
    Replicate,
    Ack,
    Sync,
    Promote,
    Resync,
    FailCopy,
    ForcePromote,
    Flush,
    Merge,
    AddCopy,
    Deliver,
    Drop,
    Wake,
    Lose,
    LoseWrite,
    Written,
    Apply,
    Renew,
    Restart,
}

/// A command's name, as it stands under `op`, the fields that it needs, and those that it may have
/// besides.
#[derive(Clone, Copy)]
pub struct Fields {
    pub name: &'static str,
    pub needed: &'static [Field],
    pub allowed: &'static [Field],
}

fn takes(name: &'static str, needed: &'static [Field], allowed: &'static [Field]) -> Fields
    ensures name { result.name.now ≡ name.now }
    ensures needed { result.needed.now ≡ needed.now }
    ensures allowed { result.allowed.now ≡ allowed.now }
{
    Fields {
        name,
        needed,
        allowed,
    }
}

impl Op {
    /// The command's name.
    pub fn name(self) -> &'static str
        ensures { result.now ≡ (fields_of self).name }
    {
        match self {
            Op::Cluster => "cluster",
            Op::Create => "create",
            Op::Follow => "follow",
            Op::Pause => "pause",
            Op::Resume => "resume",
            Op::Unfollow => "unfollow",
            Op::AutoPut => "auto_put",
            Op::AutoDelete => "auto_delete",
            Op::Write => "write",
            Op::Delete => "delete",
            Op::Search => "search",
            Op::Status => "status",
            Op::Settle => "settle",
            Op::Clock => "clock",
            Op::Replicate => "replicate",
            Op::Ack => "ack",
            Op::Sync => "sync",
            Op::Promote => "promote",
            Op::Resync => "resync",
            Op::FailCopy => "fail_copy",
            Op::ForcePromote => "force_promote",
            Op::Flush => "flush",
            Op::Merge => "merge",
            Op::AddCopy => "add_copy",
            Op::Deliver => "deliver",
            Op::Drop => "drop",
            Op::Wake => "wake",
            Op::Lose => "lose",
            Op::LoseWrite => "lose_write",
            Op::Written => "written",
            Op::Apply => "apply",
            Op::Renew => "renew",
            Op::Restart => "restart",
        }
    }

    /// The command's name and its fields.
    pub fn fields(self) -> Fields
        ensures name { result.name.now ≡ (fields_of self).name }
        ensures needed { result.needed.now ≡ (fields_of self).needed }
        ensures allowed { result.allowed.now ≡ (fields_of self).allowed }
    {
        match self {
            Op::Cluster => takes("cluster", &[Field::Name], &[]),
            Op::Create => takes("create", &[Field::Index], &[Field::Settings]),
            Op::Follow => takes(
                "follow",
                &[Field::Index, Field::Leader],
                &[Field::Settings, Field::Params],
            ),
            Op::Pause => takes("pause", &[Field::Index], &[]),
            Op::Resume => takes("resume", &[Field::Index], &[]),
            Op::Unfollow => takes("unfollow", &[Field::Index], &[]),
            Op::AutoPut => takes(
                "auto_put",
                &[
                    Field::Cluster,
                    Field::Name,
                    Field::Remote,
                    Field::Patterns,
                    Field::Follow,
                ],
                &[Field::Exclude],
            ),
            Op::AutoDelete => takes("auto_delete", &[Field::Cluster, Field::Name], &[]),
            Op::Write => takes(
                "write",
                &[Field::Index, Field::Id, Field::Source],
                &[
                    Field::Create,
                    Field::IfSeqNo,
                    Field::IfPrimaryTerm,
                    Field::Routing,
                ],
            ),
            Op::Delete => takes(
                "delete",
                &[Field::Index, Field::Id],
                &[Field::IfSeqNo, Field::IfPrimaryTerm, Field::Routing],
            ),
            Op::Search => takes(
                "search",
                &[Field::Index],
                &[
                    Field::Query,
                    Field::Sort,
                    Field::From,
                    Field::Size,
                    Field::Copy,
                ],
            ),
            Op::Status => takes("status", &[Field::Index], &[]),
            Op::Settle => takes("settle", &[], &[]),
            Op::Clock => takes("clock", &[Field::Cluster, Field::Now], &[]),
            Op::Replicate => takes(
                "replicate",
                &[Field::Index, Field::Copy, Field::Seq],
                &[Field::Shard],
            ),
            Op::Ack => takes("ack", &[Field::Index, Field::Copy], &[Field::Shard]),
            Op::Sync => takes("sync", &[Field::Index, Field::Copy], &[Field::Shard]),
            Op::Promote => takes("promote", &[Field::Index, Field::Copy], &[Field::Shard]),
            Op::Resync => takes("resync", &[Field::Index, Field::Copy], &[Field::Shard]),
            Op::FailCopy => takes("fail_copy", &[Field::Index, Field::Copy], &[Field::Shard]),
            Op::ForcePromote => takes(
                "force_promote",
                &[Field::Index, Field::Copy],
                &[Field::Shard],
            ),
            Op::Flush => takes("flush", &[Field::Index, Field::Copy], &[Field::Shard]),
            Op::Merge => takes("merge", &[Field::Index, Field::Copy], &[Field::Shard]),
            Op::AddCopy => takes("add_copy", &[Field::Index], &[Field::Shard]),
            Op::Deliver => takes(
                "deliver",
                &[Field::Index, Field::At],
                &[Field::Shard, Field::Copy, Field::Keep],
            ),
            Op::Drop => takes("drop", &[Field::Index, Field::At], &[Field::Shard]),
            Op::Wake => takes("wake", &[Field::Index], &[Field::Shard, Field::At]),
            Op::Lose => takes("lose", &[Field::Index, Field::At], &[Field::Shard]),
            Op::LoseWrite => takes("lose_write", &[Field::Index, Field::Write], &[Field::Shard]),
            Op::Written => takes("written", &[Field::Index, Field::Write], &[Field::Shard]),
            Op::Apply => takes(
                "apply",
                &[Field::Index, Field::Write],
                &[Field::Shard, Field::Epoch],
            ),
            Op::Renew => takes("renew", &[Field::Index], &[Field::Shard]),
            Op::Restart => takes("restart", &[Field::Index], &[Field::Shard]),
        }
    }
}

/// The command of this name. Compares it with the names that begin with its first letter.
pub fn op_named(text: &str) -> Option<Op>
    ensures { result ≡ op_named_of text.now }
{
    first_named(text, ops_with_letter(first_byte(text)))
}

// The commands that can have a name with this first byte.
fn ops_with_letter(first: u8) -> &'static [Op]
    ensures { (text : List ℕ) → first_byte_of text ≡ first → first_named_of text result.now ≡ op_named_of text }
{
    match first {
        b'a' => &[Op::AutoPut, Op::AutoDelete, Op::Ack, Op::AddCopy, Op::Apply],
        b'c' => &[Op::Cluster, Op::Create, Op::Clock],
        b'd' => &[Op::Delete, Op::Deliver, Op::Drop],
        b'f' => &[Op::Follow, Op::FailCopy, Op::ForcePromote, Op::Flush],
        b'l' => &[Op::Lose, Op::LoseWrite],
        b'm' => &[Op::Merge],
        b'p' => &[Op::Pause, Op::Promote],
        b'r' => &[
            Op::Resume,
            Op::Replicate,
            Op::Resync,
            Op::Renew,
            Op::Restart,
        ],
        b's' => &[Op::Search, Op::Status, Op::Settle, Op::Sync],
        b'u' => &[Op::Unfollow],
        b'w' => &[Op::Write, Op::Wake, Op::Written],
        _ => &[
            Op::Cluster,
            Op::Create,
            Op::Follow,
            Op::Pause,
            Op::Resume,
            Op::Unfollow,
            Op::AutoPut,
            Op::AutoDelete,
            Op::Write,
            Op::Delete,
            Op::Search,
            Op::Status,
            Op::Settle,
            Op::Clock,
            Op::Replicate,
            Op::Ack,
            Op::Sync,
            Op::Promote,
            Op::Resync,
            Op::FailCopy,
            Op::ForcePromote,
            Op::Flush,
            Op::Merge,
            Op::AddCopy,
            Op::Deliver,
            Op::Drop,
            Op::Wake,
            Op::Lose,
            Op::LoseWrite,
            Op::Written,
            Op::Apply,
            Op::Renew,
            Op::Restart,
        ],
    }
}

fn first_byte(text: &str) -> u8
    ensures { result ≡ first_byte_of text.now }
{
    match text.as_bytes() {
        [first, ..] => *first,
        [] => 0,
    }
}

#[tactic(auto, using(crate::proofs::Members::op_rules))]
fn first_named(text: &str, ops: &[Op]) -> Option<Op>
    ensures { result ≡ first_named_of text.now ops.now }
{
    for op in ops {
        if text == op.name() {
            return Some(*op);
        }
    }
    None
}
