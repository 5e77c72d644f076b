// What a plan makes and does.
ghost use Rattle.std.specs.Prelude.{◌≡◌, ◌⊎◌, ◌+◌, length, IfOk, OnOk, OnErr};
ghost use Rattle.std.specs.List.{AllByRecursion};
ghost use Rattle.ccr_deeds.specs.Deeds.{AreDeeds, AreOrderedDeeds, BeginDeeds, IsWithin};
ghost use Rattle.ccr_plans.specs.Scenes.{MakesSome, with_made};

use crate::game::Told;
use ccr_deeds::{Deed, WorldStart, Worlds, do_deeds};
use ccr_journal::Reply;
use ccr_plans::Plan;
use std::alloc::{AllocError, Global};

// Makes worlds, one after another.
fn make_all<W: Worlds>(worlds: &mut W, made: Vec<WorldStart>) -> Result<(), AllocError>
    ensures ok { OnOk result (W.logs worlds.new ≡ with_made (W.logs worlds.old) made.items) }
    ensures err { OnErr result (MakesSome (W.logs worlds.old) made.items (W.logs worlds.new)) }
{
    'starts: for start in made {
        worlds.make(start)?;
    }
    Ok(())
}

// Makes worlds, does deeds in these and in those before them, and gives the reply to the last event of each deed.
fn make_and_do<W: Worlds>(
    alloc: Global,
    worlds: &mut W,
    made: Vec<WorldStart>,
    deeds: &[Deed],
) -> Result<Vec<Reply>, AllocError>
    requires { AllByRecursion (IsWithin (length (W.logs worlds.old) + length made.items)) deeds.now }
    ensures done { IfOk result (λ told. AreDeeds (with_made (W.logs worlds.old) made.items) deeds.now (W.logs worlds.new) told.items) }
    ensures ordered { IfOk result (λ told. AreOrderedDeeds deeds.now told.items) }
    ensures begun { OnErr result (MakesSome (W.logs worlds.old) made.items (W.logs worlds.new)
        ⊎ BeginDeeds (with_made (W.logs worlds.old) made.items) deeds.now (W.logs worlds.new)) }
{
    make_all(worlds, made)?;
    let told = do_deeds(alloc, worlds, deeds)?;
    Ok(told)
}

// Carries a plan out, and gives the form of its answer with the reply to the last event of each deed.
pub(crate) fn carry_out<W: Worlds>(
    alloc: Global,
    worlds: &mut W,
    plan: Plan,
) -> Result<Told, AllocError>
    requires { AllByRecursion (IsWithin (length (W.logs worlds.old) + length plan.made)) plan.deeds }
    ensures done { IfOk result (λ it. AreDeeds (with_made (W.logs worlds.old) plan.made) plan.deeds (W.logs worlds.new) it.told.items) }
    ensures ordered { IfOk result (λ it. AreOrderedDeeds plan.deeds it.told.items) }
    ensures answer { IfOk result (λ it. it.answer ≡ plan.answer) }
    ensures begun { OnErr result (MakesSome (W.logs worlds.old) plan.made (W.logs worlds.new)
        ⊎ BeginDeeds (with_made (W.logs worlds.old) plan.made) plan.deeds (W.logs worlds.new)) }
{
    let Plan {
        made,
        deeds,
        answer,
    } = plan;
    let told = make_and_do(alloc, worlds, made, deeds.as_slice())?;
    Ok(Told { answer, told })
}
