// The values of fields, and their order.
ghost use Rattle.std.specs.Prelude.{◌≡◌, IfOk};
ghost use Rattle.ccr_doc.specs.Scalars.{scalar_cmp};

use ccr_op::Name;
use std::alloc::{AllocError, Global};
use std::cmp::Ordering;

/// A value of a field. JSON's null is none.
#[derive(Debug, Drop)]
pub enum Scalar {
    Text(Name),
    Number(i64),
    Truth(bool),
}

impl Scalar {
    /// Truth values come first (false before true), then numbers, then texts by their bytes.
    pub fn compare(&self, other: &Scalar) -> Ordering
        ensures { result ≡ scalar_cmp self.now other.now }
    {
        match (self, other) {
            (Scalar::Truth(a), Scalar::Truth(b)) => a.cmp(b),
            (Scalar::Truth(_), _) => Ordering::Less,
            (Scalar::Number(_), Scalar::Truth(_)) => Ordering::Greater,
            (Scalar::Number(a), Scalar::Number(b)) => a.cmp(b),
            (Scalar::Number(_), Scalar::Text(_)) => Ordering::Less,
            (Scalar::Text(a), Scalar::Text(b)) => a.as_str().cmp(&b.as_str()),
            (Scalar::Text(_), _) => Ordering::Greater,
        }
    }

    pub fn copy(&self, alloc: Global) -> Result<Scalar, AllocError>
        ensures { IfOk result (λ other. other ≡ self.now) }
    {
        match self {
            Scalar::Text(text) => Ok(Scalar::Text(text.copy(alloc)?)),
            Scalar::Number(number) => Ok(Scalar::Number(*number)),
            Scalar::Truth(truth) => Ok(Scalar::Truth(*truth)),
        }
    }
}
