// The parameters by which a follower shard reads, writes and restores.
ghost use Rattle.std.specs.Prelude.{◌≡◌, ◌↔◌, IsSome, IfSome, IsTrue};
ghost use Rattle.ccr_journal.specs.Params.{AreInRange, IsFrom1Below};

use ccr_op::Millis;
use std::marker::Model;

/// The parameters as plain numbers, of which any may be out of its range. The names are those of the
/// Elastic reference on creating a follower; `chunk_size` is this project's.
#[derive(Clone, Copy, Debug, PartialEq, Eq)]
pub struct ParamValues {
    /// The most operations that a read asks for.
    pub max_read_request_operation_count: u64,
    /// The most bytes that a read asks for.
    pub max_read_request_size: u64,
    /// The most reads that are outstanding at once.
    pub max_outstanding_read_requests: u64,
    /// The most operations in a write's batch.
    pub max_write_request_operation_count: u64,
    /// The most bytes in a write's batch of more than one operation.
    pub max_write_request_size: u64,
    /// The most writes that are outstanding at once.
    pub max_outstanding_write_requests: u64,
    /// No read is sent while the buffer has this many operations.
    pub max_write_buffer_count: u64,
    /// No read is sent while the buffer has this many bytes.
    pub max_write_buffer_size: u64,
    /// The longest delay before a retry, in milliseconds.
    pub max_retry_delay: Millis,
    /// How long a read may wait at the leader, in milliseconds.
    pub read_poll_timeout: Millis,
    /// How many bytes a request for a part of a file asks for.
    pub chunk_size: u64,
}

/// Parameters of which each is in its range: from 1, the counts to 2^31 - 1, the sizes to 2^63 - 1, the
/// times to 2^53 - 1 milliseconds, and `chunk_size` to 16,777,216 bytes.
#[derive(Debug, Drop)]
pub struct Params {
    values: ParamValues,
}

impl Model for Params {
    ghost use Rattle.ccr_journal.specs.declared.params.ParamValues.{ParamValues};
    ghost use Rattle.ccr_journal.specs.Params.{AreInRange};

    ghost Value = { ParamValues };

    ghost view = { λ a. a.values };

    ghost invariant = { λ a. AreInRange a.values };
}

// Whether a number is from 1 to below the limit.
fn is_from_1_below(limit: u64, n: u64) -> bool
    ensures { IsTrue result ↔ IsFrom1Below limit n }
{
    1 <= n && n < limit
}

const COUNT_LIMIT: u64 = 2_147_483_648;

const SIZE_LIMIT: u64 = 9_223_372_036_854_775_808;

const TIME_LIMIT: u64 = 9_007_199_254_740_992;

const CHUNK_LIMIT: u64 = 16_777_217;

// Whether each parameter is in its range.
fn are_in_range(p: &ParamValues) -> bool
    ensures { IsTrue result ↔ AreInRange p.now }
{
    let reads = is_from_1_below(COUNT_LIMIT, p.max_read_request_operation_count)
        && is_from_1_below(SIZE_LIMIT, p.max_read_request_size)
        && is_from_1_below(COUNT_LIMIT, p.max_outstanding_read_requests);
    let writes = is_from_1_below(COUNT_LIMIT, p.max_write_request_operation_count)
        && is_from_1_below(SIZE_LIMIT, p.max_write_request_size)
        && is_from_1_below(COUNT_LIMIT, p.max_outstanding_write_requests);
    let buffer = is_from_1_below(COUNT_LIMIT, p.max_write_buffer_count)
        && is_from_1_below(SIZE_LIMIT, p.max_write_buffer_size);
    let times = is_from_1_below(TIME_LIMIT, p.max_retry_delay)
        && is_from_1_below(TIME_LIMIT, p.read_poll_timeout);
    reads && writes && buffer && times && is_from_1_below(CHUNK_LIMIT, p.chunk_size)
}

impl Params {
    /// The parameters of these values, or `None` exactly where one is out of its range.
    pub fn new(values: ParamValues) -> Option<Self>
        ensures bounds { IsSome result ↔ AreInRange values }
        ensures value { IfSome result (λ params. params ≡ values) }
    {
        if !are_in_range(&values) {
            return None;
        }
        Some(Params { values })
    }

    /// Equal parameters. It takes no memory.
    pub fn copy(&self) -> Self
        ensures { result ≡ self.now }
    {
        Params {
            values: self.values,
        }
    }

    /// The values.
    pub fn values(&self) -> &ParamValues
        ensures value { result.now ≡ self.now }
        ensures bounds { AreInRange self.now }
    {
        &self.values
    }
}
