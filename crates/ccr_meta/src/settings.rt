use ccr_op::Millis;

/// The settings of a new index or a new follower; `None` where a setting isn't given.
#[derive(Debug, Clone, Copy, PartialEq, Eq)]
pub struct Settings {
    /// `index.number_of_shards`, from 1 to 16.
    pub shards: Option<u32>,
    /// `index.number_of_replicas`, from 0 to 7.
    pub replicas: Option<u32>,
    /// `index.soft_deletes.enabled`.
    pub soft_deletes: Option<bool>,
    /// `index.soft_deletes.retention.operations`, below 2^53.
    pub retention: Option<u64>,
    /// `index.soft_deletes.retention_lease.period`, in milliseconds, from 1 to 2^53 - 1.
    pub period: Option<Millis>,
    /// Whether a name or a value that was given, also of a parameter of a follow, is none of these.
    pub bad: bool,
}
