// Deeds are done one after another.
ghost use Rattle.std.specs.Prelude.{◌≡◌, ◌<◌, length, take, IfOk, OnOk, OnErr};
ghost use Rattle.std.specs.List.{AllByRecursion};
ghost use Rattle.ccr_deeds.specs.declared.deeds.Deed.{Deed};
ghost use Rattle.ccr_deeds.specs.Deeds.{AreDeeds, AreOrderedDeeds, BeginDeeds, BeginsDeed, DoesDeed, IsOrderedDeed, IsWithin, Takes};

use crate::deeds::Deed;
use crate::worlds::Worlds;
use ccr_journal::{Batch, Boxed, Event, Reply};
use std::alloc::{AllocError, Global};

// Does one deed, and gives the reply to its last event.
fn do_deed<W: Worlds>(alloc: Global, worlds: &mut W, deed: &Deed) -> Result<Reply, AllocError>
    requires { IsWithin (length (W.logs worlds.old)) deed.now }
    ensures done { IfOk result (λ reply. DoesDeed (W.logs worlds.old) deed.now (W.logs worlds.new) reply) }
    ensures ordered { IfOk result (λ reply. IsOrderedDeed deed.now reply) }
    ensures begun { OnErr result (BeginsDeed (W.logs worlds.old) deed.now (W.logs worlds.new)) }
{
    match deed {
        Deed::Happens { world, event } => worlds.happens(*world, event),
        Deed::TakeAndApply {
            world,
            f,
            epoch,
            write,
        } => take_and_apply(alloc, worlds, *world, *f, *epoch, *write),
        Deed::Settle => unreachable!(),
    }
}

// Takes the batch of a follower's write: an empty one where none was taken.
fn take<W: Worlds>(
    alloc: Global,
    worlds: &mut W,
    world: u32,
    f: u32,
    write: u64,
) -> Result<Batch, AllocError>
    requires { world < length (W.logs worlds.old) }
    ensures took { IfOk result (λ batch. Takes (W.logs worlds.old) world f write batch (W.logs worlds.new)) }
    ensures err { OnErr result (W.logs worlds.new ≡ W.logs worlds.old) }
{
    match worlds.happens(world, &Event::Take { f, write })? {
        Reply::Took { batch } => Ok(batch),
        _ => Ok(Batch::new(Vec::new(alloc))),
    }
}

// Takes the batch of a follower's write, and applies what was taken: nothing where none was.
fn take_and_apply<W: Worlds>(
    alloc: Global,
    worlds: &mut W,
    world: u32,
    f: u32,
    epoch: u64,
    write: u64,
) -> Result<Reply, AllocError>
    requires { world < length (W.logs worlds.old) }
    ensures done { IfOk result (λ reply. DoesDeed (W.logs worlds.old) (Deed.TakeAndApply world f epoch write) (W.logs worlds.new) reply) }
    ensures begun { OnErr result (BeginsDeed (W.logs worlds.old) (Deed.TakeAndApply world f epoch write) (W.logs worlds.new)) }
{
    let batch = take(alloc, worlds, world, f, write)?;
    let batch = Boxed::new(alloc, batch)?;
    let event = Event::Apply {
        f,
        epoch,
        write,
        batch,
    };
    let reply = worlds.happens(world, &event)?;
    Ok(reply)
}

/// Does deeds one after another, none of which is a settle, and gives the reply to the last event of each.
pub fn do_deeds<W: Worlds>(
    alloc: Global,
    worlds: &mut W,
    deeds: &[Deed],
) -> Result<Vec<Reply>, AllocError>
    requires { AllByRecursion (IsWithin (length (W.logs worlds.old))) deeds.now }
    ensures done { IfOk result (λ told. AreDeeds (W.logs worlds.old) deeds.now (W.logs worlds.new) told.items) }
    ensures ordered { IfOk result (λ told. AreOrderedDeeds deeds.now told.items) }
    ensures begun { OnErr result (BeginDeeds (W.logs worlds.old) deeds.now (W.logs worlds.new)) }
{
    let mut told = Vec::with_capacity(alloc, deeds.len())?;
    'deeds: for deed in deeds {
        let reply = do_deed(alloc, worlds, deed)?;
        told.push(reply)?;
    }
    Ok(told)
}
