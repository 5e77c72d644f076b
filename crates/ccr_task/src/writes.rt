ghost use Rattle.std.specs.Prelude.{◌≡◌, if◌then◌else◌};
ghost use Rattle.ccr_model.specs.Requests.{on_its_way, waiting, is_due, is_sent};
ghost use Rattle.ccr_model.specs.Settling.{time_of};

use crate::Progress;
use ccr_op::{Batch, Millis};
use std::marker::Model;

/// A batch that the follower's primary is to apply, under its number in the epoch.
#[derive(Debug, Drop)]
pub struct Write {
    number: u64,
    batch: Batch,
    progress: Progress,
}

impl Model for Write {
    ghost use Rattle.ccr_model.specs.Tasks.{Write as Outstanding};

    ghost Value = { Outstanding };

    ghost use Rattle.ccr_task.specs.Shown.{shown};

    ghost view = { λ a. record { number = a.number; batch = a.batch; progress = shown a.progress } };
}

impl Write {
    /// A write that is sent.
    pub(crate) fn new(number: u64, batch: Batch) -> Self
        ensures { result ≡ record { number = number; batch = batch; progress = on_its_way } }
    {
        Write {
            number,
            batch,
            progress: Progress::OnItsWay,
        }
    }

    /// Its number in the epoch.
    pub fn number(&self) -> u64
        ensures { result ≡ self.now.number }
    {
        self.number
    }

    /// Its operations.
    pub fn batch(&self) -> &Batch
        ensures { result.now ≡ self.now.batch }
    {
        &self.batch
    }

    /// Whether it was sent.
    pub fn is_sent(&self) -> bool
        ensures { result ≡ is_sent self.now.progress }
    {
        self.progress.is_sent()
    }

    /// The time until which it waits.
    pub fn waits_until(&self) -> Option<Millis>
        ensures { result ≡ time_of self.now.progress }
    {
        self.progress.waits_until()
    }

    /// It is sent again where it waited long enough.
    pub(crate) fn send_if_due(&mut self, now: Millis)
        ensures { self.new ≡ (if is_due now self.old.progress then record self.old { progress = on_its_way } else self.old) }
    {
        if self.progress.is_due(now) {
            self.progress = Progress::OnItsWay;
        }
    }

    /// It waits until a time.
    pub(crate) fn wait(&mut self, until: Millis)
        ensures { self.new ≡ record self.old { progress = waiting until } }
    {
        self.progress = Progress::Waiting(until);
    }
}
