ghost use Rattle.std.specs.Prelude.{◌≡◌, ◌≤◌};
ghost use Rattle.ccr_model.specs.Requests.{is_sent, is_due, retry_time};
ghost use Rattle.ccr_model.specs.Settling.{time_of};
ghost use Rattle.ccr_restore.specs.Shown.{shown};

use ccr_op::Millis;

/// How far a request is.
#[derive(Clone, Copy)]
pub enum Progress {
    /// It was sent.
    OnItsWay,
    /// It was lost, and waits until this time.
    Waiting(Millis),
}

impl Progress {
    /// Whether it was sent and not lost.
    pub fn is_sent(self) -> bool
        ensures { result ≡ is_sent (shown self) }
    {
        match self {
            Progress::OnItsWay => true,
            Progress::Waiting(_) => false,
        }
    }

    /// Whether it waited long enough.
    pub fn is_due(self, now: Millis) -> bool
        ensures { result ≡ is_due now (shown self) }
    {
        match self {
            Progress::OnItsWay => false,
            Progress::Waiting(until) => until <= now,
        }
    }

    /// The time until which it waits.
    pub fn until(self) -> Option<Millis>
        ensures { result ≡ time_of (shown self) }
    {
        match self {
            Progress::OnItsWay => None,
            Progress::Waiting(until) => Some(until),
        }
    }
}

/// The delay after the first loss, in milliseconds. It doubles with each further one.
const FIRST_DELAY: u64 = 50;

/// After this many losses the delay doubles no more.
const MOST_LOSSES: u64 = 24;

/// The time until which a request waits that was lost `now`, after this many losses without an answer between
/// them.
pub fn retry_time(max_retry_delay: Millis, now: Millis, retry: u64) -> Millis
    requires { 1 ≤ retry }
    ensures { result ≡ retry_time max_retry_delay now retry }
{
    let doublings = retry.min(MOST_LOSSES) - 1;
    let delay = FIRST_DELAY << doublings;
    now.saturating_add(delay.min(max_retry_delay))
}
