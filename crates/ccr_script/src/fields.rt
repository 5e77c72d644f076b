// The fields of commands, with their kinds.
ghost use Rattle.std.specs.Prelude.{◌≡◌};
ghost use Rattle.ccr_script.specs.Grammar.{name_of, kind_of};

/// What a field's value is.
#[derive(Clone, Copy, Debug, PartialEq, Eq)]
pub enum Kind {
    /// A whole number from 0 to 2^53 - 1.
    Number,
    Truth,
    Text,
    /// The name of a cluster or of an auto-follow pattern.
    Name,
    /// `cluster/index`.
    Index,
    /// A text of 1 to 512 bytes.
    Id,
    List,
    Object,
    /// Any JSON value.
    Any,
}

/// A field of a command. Each means the same in all commands that have it.
#[derive(Clone, Copy, Debug, PartialEq, Eq)]
pub enum Field {
    Op,
    Name,
    Cluster,
    Remote,
    Index,
    Leader,
    Settings,
    Params,
    Patterns,
    Exclude,
    Follow,
    Id,
    Routing,
    Source,
    Create,
    IfSeqNo,
    IfPrimaryTerm,
    Query,
    Sort,
    From,
    Size,
    Copy,
    Seq,
    At,
    Keep,
    Shard,
    Write,
    Epoch,
    Now,
}

impl Field {
    /// Its name and its kind.
    fn line(self) -> (&'static str, Kind)
        ensures name { result.0.now ≡ name_of self }
        ensures kind { result.1 ≡ kind_of self }
    {
        match self {
            Field::Op => ("op", Kind::Text),
            Field::Name => ("name", Kind::Name),
            Field::Cluster => ("cluster", Kind::Name),
            Field::Remote => ("remote", Kind::Name),
            Field::Index => ("index", Kind::Index),
            Field::Leader => ("leader", Kind::Index),
            Field::Settings => ("settings", Kind::Object),
            Field::Params => ("params", Kind::Object),
            Field::Patterns => ("patterns", Kind::List),
            Field::Exclude => ("exclude", Kind::List),
            Field::Follow => ("follow", Kind::Text),
            Field::Id => ("id", Kind::Id),
            Field::Routing => ("routing", Kind::Id),
            Field::Source => ("source", Kind::Any),
            Field::Create => ("create", Kind::Truth),
            Field::IfSeqNo => ("if_seq_no", Kind::Number),
            Field::IfPrimaryTerm => ("if_primary_term", Kind::Number),
            Field::Query => ("query", Kind::Any),
            Field::Sort => ("sort", Kind::List),
            Field::From => ("from", Kind::Number),
            Field::Size => ("size", Kind::Number),
            Field::Copy => ("copy", Kind::Number),
            Field::Seq => ("seq", Kind::Number),
            Field::At => ("at", Kind::Number),
            Field::Keep => ("keep", Kind::Truth),
            Field::Shard => ("shard", Kind::Number),
            Field::Write => ("write", Kind::Number),
            Field::Epoch => ("epoch", Kind::Number),
            Field::Now => ("now", Kind::Number),
        }
    }

    /// The name of the member that holds it.
    pub fn name(self) -> &'static str
        ensures { result.now ≡ name_of self }
    {
        self.line().0
    }

    pub fn kind(self) -> Kind
        ensures { result ≡ kind_of self }
    {
        self.line().1
    }
}
