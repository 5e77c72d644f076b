ghost use Rattle.std.specs.Prelude.{◌≡◌, ◌+◌, ◌<◌, ◌^◌};
ghost use Rattle.ccr_model.specs.Requests.{on_its_way, waiting, held_back, is_due, is_sent};
ghost use Rattle.ccr_model.specs.Tasks.{is_held};
ghost use Rattle.ccr_model.specs.Settling.{time_of};
ghost use Rattle.ccr_task.specs.Shown.{shown};

use ccr_op::{Count, Millis};
use std::marker::Model;

/// How far a read or a write is.
#[derive(Clone, Copy, Debug, PartialEq, Eq)]
pub enum Progress {
    /// It was sent.
    OnItsWay,
    /// It was lost, and waits until this time.
    Waiting(Millis),
    /// What is left of a read is held back, until the buffer is below its bounds.
    HeldBack,
}

impl Progress {
    /// Whether it was sent.
    pub fn is_sent(&self) -> bool
        ensures { result ≡ is_sent (shown self.now) }
    {
        matches!(self, Progress::OnItsWay)
    }

    /// Whether it is held back.
    pub fn is_held(&self) -> bool
        ensures { result ≡ is_held (record { request = 0; from = 0; to = 0; asked = 0; progress = shown self.now }) }
    {
        matches!(self, Progress::HeldBack)
    }

    /// Whether it waited long enough.
    pub fn is_due(&self, now: Millis) -> bool
        ensures { result ≡ is_due now (shown self.now) }
    {
        match self {
            Progress::Waiting(until) => *until <= now,
            _ => false,
        }
    }

    /// The time until which it waits.
    pub fn waits_until(&self) -> Option<Millis>
        ensures { result ≡ time_of (shown self.now) }
    {
        match self {
            Progress::Waiting(until) => Some(*until),
            _ => None,
        }
    }
}

/// A read of the operations with the numbers from `from` to below `to`, and of as many as `asked` under its
/// last request number.
#[derive(Debug, Drop)]
pub struct Read {
    request: u64,
    from: Count,
    to: Count,
    asked: u64,
    progress: Progress,
}

impl Model for Read {
    ghost use Rattle.ccr_model.specs.Tasks.{Read as Asked};

    ghost Value = { Asked };

    ghost use Rattle.ccr_task.specs.Shown.{shown};

    ghost view = { λ a. record { request = a.request; from = a.from; to = a.to; asked = a.asked; progress = shown a.progress } };
}

impl Read {
    /// A read that is sent under this request number.
    pub(crate) fn new(request: u64, from: Count, to: Count, asked: u64) -> Self
        ensures { result ≡ record { request = request; from = from; to = to; asked = asked; progress = on_its_way } }
    {
        Read {
            request,
            from,
            to,
            asked,
            progress: Progress::OnItsWay,
        }
    }

    /// An equal read. It takes no memory.
    pub(crate) fn copy(&self) -> Self
        ensures { result ≡ self.now }
    {
        Read {
            request: self.request,
            from: self.from,
            to: self.to,
            asked: self.asked,
            progress: self.progress,
        }
    }

    /// Its last request number.
    pub fn request(&self) -> u64
        ensures { result ≡ self.now.request }
    {
        self.request
    }

    /// The first number that it is for.
    pub fn from(&self) -> Count
        ensures { result ≡ self.now.from }
    {
        self.from
    }

    /// The first number that it is not for.
    pub fn to(&self) -> Count
        ensures { result ≡ self.now.to }
    {
        self.to
    }

    /// How many operations it asked for.
    pub fn asked(&self) -> u64
        ensures { result ≡ self.now.asked }
    {
        self.asked
    }

    /// Whether it was sent.
    pub fn is_sent(&self) -> bool
        ensures { result ≡ is_sent self.now.progress }
    {
        self.progress.is_sent()
    }

    /// Whether it is held back.
    pub fn is_held(&self) -> bool
        ensures { result ≡ is_held self.now }
    {
        self.progress.is_held()
    }

    /// Whether it waited long enough.
    pub fn is_due(&self, now: Millis) -> bool
        ensures { result ≡ is_due now self.now.progress }
    {
        self.progress.is_due(now)
    }

    /// The time until which it waits.
    pub fn waits_until(&self) -> Option<Millis>
        ensures { result ≡ time_of self.now.progress }
    {
        self.progress.waits_until()
    }

    /// It is sent again under this number.
    pub(crate) fn send_again(&mut self, request: u64)
        ensures { self.new ≡ record self.old { request = request; progress = on_its_way } }
    {
        self.request = request;
        self.progress = Progress::OnItsWay;
    }

    /// It waits until a time.
    pub(crate) fn wait(&mut self, until: Millis)
        ensures { self.new ≡ record self.old { progress = waiting until } }
    {
        self.progress = Progress::Waiting(until);
    }

    /// It is held for what is left.
    pub(crate) fn hold(&mut self, from: Count, asked: u64)
        ensures { self.new ≡ record self.old { from = from; asked = asked; progress = held_back } }
    {
        self.from = from;
        self.asked = asked;
        self.progress = Progress::HeldBack;
    }
}
