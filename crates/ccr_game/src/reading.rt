// What is read of the worlds for a command.
ghost use Rattle.std.specs.Prelude.{◌≡◌, ◌≤◌, ◌<◌, ◌+◌, [], length, IfOk};
ghost use Rattle.std.specs.Option.{option_and_then, option_copied, option_map_or};
ghost use Rattle.ccr_meta.specs.Names.{index_at};
ghost use Rattle.ccr_plans.specs.Scenes.{notes_for, notes_of};

use ccr_deeds::{Note, Worlds};
use ccr_meta::{IndexMeta, Meta};
use ccr_op::IndexName;
use ccr_plans::index_read;
use ccr_script::Command;
use std::alloc::{AllocError, Global};

// The index of this name, where one is named and there.
fn index_of<'a>(meta: &'a Meta, index: Option<&IndexName>) -> Option<&'a IndexMeta>
    ensures { option_copied result ≡ option_and_then (index_at meta.now) (option_copied index.entry) }
{
    let Some(index) = index else {
        return None;
    };
    meta.indices().get(index)
}

// What is read of the shards of an index.
#[tactic(auto, using(crate::proofs::Logs::reading))]
fn notes_of<W: Worlds>(
    alloc: Global,
    worlds: &mut W,
    x: &IndexMeta,
) -> Result<Vec<Note>, AllocError>
    requires there { x.now.first + x.now.shards ≤ length (W.logs worlds.old) }
    requires few { x.now.first + x.now.shards ≤ 64 }
    ensures notes { IfOk result (λ notes. notes.items ≡ notes_of (W.logs worlds.old) x.now) }
    ensures same { W.logs worlds.new ≡ W.logs worlds.old }
{
    let number = x.follower.unwrap_or(0);
    let mut notes = Vec::new(alloc);
    'shards: for k in 0..x.shards {
        let note = worlds.note(x.first + k, number)?;
        notes.push(note)?;
    }
    Ok(notes)
}

// What is read of the shards of the index of this name: nothing where none is named or there.
fn notes_in_index<W: Worlds>(
    alloc: Global,
    meta: &Meta,
    worlds: &mut W,
    index: Option<&IndexName>,
) -> Result<Vec<Note>, AllocError>
    requires { meta.now.worlds ≡ length (W.logs worlds.old) }
    ensures notes { IfOk result (λ notes. notes.items ≡ option_map_or (notes_of (W.logs worlds.old)) (option_and_then (index_at meta.now) (option_copied index.entry)) []) }
    ensures same { W.logs worlds.new ≡ W.logs worlds.old }
{
    let _count = meta.worlds();
    let Some(x) = index_of(meta, index) else {
        return Ok(Vec::new(alloc));
    };
    let notes = notes_of(alloc, worlds, x)?;
    Ok(notes)
}

// What is read for a command, before its first event.
pub(crate) fn notes_for<W: Worlds>(
    alloc: Global,
    meta: &Meta,
    worlds: &mut W,
    command: &Command,
) -> Result<Vec<Note>, AllocError>
    requires { meta.now.worlds ≡ length (W.logs worlds.old) }
    ensures notes { IfOk result (λ notes. notes.items ≡ notes_for meta.now (W.logs worlds.old) command.now) }
    ensures same { W.logs worlds.new ≡ W.logs worlds.old }
{
    let index = index_read(command);
    notes_in_index(alloc, meta, worlds, index)
}
