ghost use Rattle.std.specs.Prelude.{◌≡◌, ◌<◌, ◌==◌, ◌∷◌, ◌++◌, ℕ, [], not, filter, OnOk};
ghost use Rattle.std.specs.Bool.{OnFalse};
ghost use Rattle.std.specs.List.{AllByRecursion, list_any};

use std::alloc::{AllocError, Global};
use std::collections::BTreeSet;
use std::marker::Model;

/// The numbers of the requests about the lease that stand, in the order in which they were drawn, which ascends.
/// Contracts see the list.
#[derive(Drop)]
pub struct LeaseRequests {
    numbers: BTreeSet<u64>,
}

impl Model for LeaseRequests {
    ghost use Rattle.std.specs.Prelude.{List, ℕ};

    ghost Value = { List ℕ };

    ghost view = { λ a. a.numbers.keys };
}

impl LeaseRequests {
    /// None stands.
    pub fn new(alloc: Global) -> Self
        ensures { result ≡ [] }
    {
        LeaseRequests {
            numbers: BTreeSet::new(alloc),
        }
    }

    /// One more stands, of a greater number than all that do. The cost is a logarithm.
    pub fn add(&mut self, number: u64) -> Result<(), AllocError>
        requires { AllByRecursion (λ (n : ℕ). n < number) self.old }
        ensures { OnOk result (self.new ≡ self.old ++ number ∷ []) }
    {
        self.numbers.insert(number)?;
        Ok(())
    }

    /// The one of this number is answered, and stands no more. Says whether it stood. The cost is a logarithm.
    pub fn answer(&mut self, number: u64) -> bool
        ensures stood { result ≡ list_any (λ n. n == number) self.old }
        ensures kept { OnFalse result (self.new ≡ self.old) }
        ensures left { self.new ≡ filter (λ n. not (n == number)) self.old }
    {
        let _in_order = self.numbers.len();
        self.numbers.remove(&number)
    }
}
