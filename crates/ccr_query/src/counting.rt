ghost use Rattle.std.specs.Prelude.{◌≡◌, ◌+◌, ◌<◌, ◌^◌};

use std::marker::Model;

/// How many documents were judged by queries. Only `Query::holds` changes it.
#[derive(Debug, Drop)]
pub struct Reads {
    count: u64,
}

impl Model for Reads {
    ghost use Rattle.std.specs.Prelude.{ℕ};

    ghost Value = { ℕ };

    ghost view = { λ a. a.count };
}

impl Reads {
    /// None yet.
    pub fn new() -> Reads
        ensures { result ≡ 0 }
    {
        Reads { count: 0 }
    }

    pub fn count(&self) -> u64
        ensures { result ≡ self.now }
    {
        self.count
    }

    /// One document more.
    pub(crate) fn add(&mut self)
        requires { self.old + 1 < 2 ^ 64 }
        ensures { self.new ≡ self.old + 1 }
    {
        self.count += 1;
    }
}
