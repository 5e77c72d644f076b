ghost use Rattle.std.specs.Prelude.{◌≡◌, IfOk};

use crate::Name;
use std::alloc::{AllocError, Global};

/// An index of a cluster. Such names are ordered by the cluster, then by the index.
#[derive(Debug, Drop, PartialEq, Eq, PartialOrd, Ord)]
pub struct IndexName {
    /// The cluster that holds the index.
    pub cluster: Name,
    /// The name of the index in its cluster.
    pub index: Name,
}

impl IndexName {
    /// An equal name.
    pub fn copy(&self, alloc: Global) -> Result<Self, AllocError>
        ensures { IfOk result (λ other. other ≡ self.now) }
    {
        let cluster = self.cluster.copy(alloc)?;
        let index = self.index.copy(alloc)?;
        Ok(IndexName { cluster, index })
    }
}
