use crate::CopySide;
use ccr_op::{Count, History, Op};

/// A copy as one who reads its changes sees it.
impl History for CopySide {
    ghost use Rattle.ccr_model.specs.Stores.{held as held_in};

    ghost held = { λ copy. held_in copy.store };

    ghost floor_of = { λ copy. copy.floor };

    ghost processed_of = { λ copy. copy.seen.count };

    ghost global_of = { λ copy. copy.global };

    fn get(&self, n: u64) -> Option<&Op> {
        self.store().get(n)
    }

    fn floor(&self) -> Count {
        self.kept_from()
    }

    fn processed(&self) -> Count {
        self.count()
    }

    fn global(&self) -> Count {
        self.known_global()
    }
}
