// Worlds hand out their journals.
ghost use Rattle.std.specs.Prelude.{◌≡◌, ◌≤◌, ◌+◌, [], map, length, vec_len, vec_capacity};
ghost use Rattle.std.specs.List.{AllByRecursion};
ghost use Rattle.ccr_worlds.specs.Fated.{log_of};
ghost use Rattle.ccr_worlds.specs.HandedOut.{IsHandedOut};

use crate::room::put;
use ccr_journal::Journal;
use ccr_shard_world::{Chooser, World};

/// The journals of the worlds, in their order, put into an empty list that has room for them. It takes no memory.
#[tactic(auto, using(crate::proofs::Endings::handed_out))]
pub(crate) fn hand_out<P: Chooser>(
    worlds: Vec<World<P>>,
    mut journals: Vec<Journal>,
) -> Vec<Journal>
    requires empty { journals.items ≡ [] }
    requires room { length worlds.items ≤ vec_capacity journals }
    ensures value { result.items ≡ map (λ w. w.recorded.journal) worlds.items }
    ensures handed { AllByRecursion IsHandedOut (map (λ w. log_of w.recorded) worlds.items) }
{
    for world in worlds {
        put(&mut journals, world.into_journal());
    }
    journals
}
