// What a command comes to in the worlds as they are.
ghost use Rattle.std.specs.Prelude.{◌≡◌, false, length, IfOk};
ghost use Rattle.ccr_plans.specs.Scenes.{is_settle};
ghost use Rattle.ccr_game.specs.Planning.{IsPlanFor};

use crate::reading::notes_for;
use ccr_deeds::Worlds;
use ccr_meta::Meta;
use ccr_plans::{Plan, plan};
use ccr_script::Command;
use std::alloc::{AllocError, Global};

// Plans a command that is no settle, and leaves the names after it. After want of memory nothing is said of the names.
pub(crate) fn plan_for<W: Worlds>(
    alloc: Global,
    meta: &mut Meta,
    worlds: &mut W,
    command: Command,
) -> Result<Plan, AllocError>
    requires count { meta.old.worlds ≡ length (W.logs worlds.old) }
    requires other { is_settle command ≡ false }
    ensures plan { IfOk result (λ plan. IsPlanFor (record { names = meta.old; logs = W.logs worlds.old }) command meta.new plan) }
    ensures same { W.logs worlds.new ≡ W.logs worlds.old }
{
    let _count = meta.worlds();
    let notes = notes_for(alloc, meta, worlds, &command)?;
    let planned = plan(alloc, meta, notes.as_slice(), command)?;
    Ok(planned)
}
