//! Where deeds are done.
ghost use Rattle.std.specs.Prelude.{◌≡◌, ◌<◌, ◌++◌, ◌∷◌, [], List, length, IfOk, OnOk, OnErr};
ghost use Rattle.ccr_deeds.specs.Logs.{Log, IsNoteOf, entered, new_log};
ghost use Rattle.ccr_deeds.specs.Deeds.{IsOrderedFor};
ghost use Rattle.ccr_deeds.specs.Settles.{EachWorld, IsSettled, MayBeSettled};

use crate::notes::Note;
use crate::starts::WorldStart;
use ccr_journal::{Event, Reply};
use std::alloc::AllocError;

/// The shard worlds of a run, in order of creation, as deeds are done in them. Their meaning is the log of each: what it
/// began with, and its journal.
///
/// A settle of all worlds is no method here: with threads it needs what no trait can ask for. See [`Settles`].
pub trait Worlds: Drop {
    ghost logs: { Self → List Log };

    /// Makes one more world.
    fn make(&mut self, start: WorldStart) -> Result<(), AllocError>
        ensures ok { OnOk result (logs self.new ≡ logs self.old ++ new_log start ∷ []) }
        ensures err { OnErr result (logs self.new ≡ logs self.old) };

    /// An event happens in the world of this number, counted from 0, and is entered there with its reply.
    fn happens(&mut self, world: u32, event: &Event) -> Result<Reply, AllocError>
        requires { world < length (logs self.old) }
        ensures ok { IfOk result (λ reply. logs self.new ≡ entered (logs self.old) world (record { event = event.now; reply = reply } ∷ [])) }
        ensures ordered { IfOk result (λ reply. IsOrderedFor event.now reply) }
        ensures err { OnErr result (logs self.new ≡ logs self.old) };

    /// What a command has to know of a world, and of the follower of this number there. It is no event.
    fn note(&mut self, world: u32, of: u32) -> Result<Note, AllocError>
        requires { world < length (logs self.old) }
        ensures ok { IfOk result (λ note. IsNoteOf (logs self.old) world of note) }
        ensures same { logs self.new ≡ logs self.old };
}

/// Worlds that their owner settles alone, one after another.
pub trait Settles: Worlds {
    /// Settles each world. After want of memory some are settled, and of one a part of what settles it may be done.
    fn settle(&mut self) -> Result<(), AllocError>
        ensures ok { OnOk result (EachWorld IsSettled (Self.logs self.old) (Self.logs self.new)) }
        ensures err { OnErr result (EachWorld MayBeSettled (Self.logs self.old) (Self.logs self.new)) };
}
