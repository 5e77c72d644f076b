use ccr_op::{Batch, Count};

/// What a read of a history comes to.
#[derive(Debug, Drop)]
pub enum Cut {
    /// Operations one after another, with the global count of the copy that was read.
    Ops { list: Batch, global: Count },
    /// There is none yet: the read asks at or above the global count.
    Wait { global: Count },
    /// What it asks for may have been given up: it asks below the floor.
    Missing { from: Count, floor: Count },
}
