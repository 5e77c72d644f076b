ghost use Rattle.std.specs.Prelude.{◌≡◌, ◌+◌, ◌-◌, ◌<◌, ◌^◌, None, ◌++◌, ◌∷◌, [], length, map, slice_get, option_map, count_by, filter, not, is_some, IfOk, OnOk, OnErr, IsOkUnless, IsSomeAnd, MatchOption};
ghost use Rattle.std.specs.Option.{option_and_then};
ghost use Rattle.ccr_model.specs.Leaders.{session_of};
ghost use Rattle.ccr_model.specs.LeaderRows.{is_idle};
ghost use Rattle.ccr_model.specs.LeaderFrames.{active_at, chunk_of};
ghost use Rattle.ccr_session.specs.Chunks.{chunk_fault};

use crate::SessionFault;
use crate::session::Session;
use ccr_op::{Count, Millis};
use std::alloc::{AllocError, Global};
use std::collections::BTreeMap;
use std::marker::Model;

/// The sessions of a leader, each under a number of its own. A session keeps files as they were when it
/// began; a follower fetches them part by part.
///
/// A call on one session costs the logarithm of how many are open.
#[derive(Drop)]
pub struct Sessions {
    alloc: Global,
    next: u64,
    by_number: BTreeMap<u64, Session>,
}

impl Model for Sessions {
    ghost use Rattle.std.specs.BTreeMap.{values};
    ghost use Rattle.ccr_session.specs.Sessions.{Sessions, AreNumbered};

    ghost Value = { Sessions };

    ghost view = { λ a. record { next = a.next; sessions = values a.by_number } };

    ghost invariant = { λ a. AreNumbered a.next a.by_number.entries };
}

impl Sessions {
    /// No session; the first will have number 0.
    pub fn new(alloc: Global) -> Sessions
        ensures { result ≡ record { next = 0; sessions = [] } }
    {
        Sessions {
            alloc,
            next: 0,
            by_number: BTreeMap::new(alloc),
        }
    }

    /// Opens a session over these files, which hold the operations below the count, and answers its
    /// number. Numbers go up from 0 by one, and none is given twice, also after sessions were closed. It
    /// copies no file. Where memory or the numbers run out nothing changes.
    pub fn begin(
        &mut self,
        files: Vec<Vec<u8>>,
        count: Count,
        now: Millis,
    ) -> Result<u64, AllocError>
        ensures number { IfOk result (λ number. number ≡ self.old.next) }
        ensures bound { IfOk result (λ number. number < 2 ^ 64 - 1) }
        ensures fresh { IfOk result (λ number. session_of self.old.sessions number ≡ None) }
        ensures ok { OnOk result (self.new ≡ record {
          next = self.old.next + 1;
          sessions = self.old.sessions ++ record { number = self.old.next; count = count; files = map (λ file. file.items) files.items; activity = now } ∷ [];
        }) }
        ensures err { OnErr result (self.new ≡ self.old) }
    {
        let number = self.next;
        let Some(next) = number.checked_add(1) else {
            return Err(AllocError);
        };
        self.by_number
            .insert(number, Session::new(number, count, files, now))?;
        self.next = next;
        Ok(number)
    }

    /// The bytes of a session's file from the offset on: as many as asked, or all that are left. The
    /// session was then active now. Refused are `NoSession`, `NoFile` and `Range`, in this order, each
    /// exactly where it says, and `Memory`. A refused call changes nothing. It copies that part alone.
    pub fn chunk(
        &mut self,
        session: u64,
        file: u32,
        offset: u64,
        size: u32,
        now: Millis,
    ) -> Result<Vec<u8>, SessionFault>
        ensures answer { MatchOption (chunk_fault (session_of self.old.sessions session) file offset) (IsOkUnless result SessionFault.Memory) (λ why. result ≡ Err why) }
        ensures part { IfOk result (λ part. IsSomeAnd (session_of self.old.sessions session) (λ found. part.items ≡ chunk_of found file offset size)) }
        ensures ok { OnOk result (self.new ≡ record self.old { sessions = active_at session now self.old.sessions }) }
        ensures err { OnErr result (self.new ≡ self.old) }
    {
        let Some(found) = self.by_number.get_mut(&session) else {
            return Err(SessionFault::NoSession);
        };
        let part = found.part(self.alloc, file, offset, size)?;
        found.touch(now);
        Ok(part)
    }

    /// Whether there is a session of this number.
    pub fn is_open(&self, session: u64) -> bool
        ensures { result ≡ is_some (session_of self.now.sessions session) }
    {
        self.by_number.contains_key(&session)
    }

    /// How many bytes a session's file has.
    pub fn file_size(&self, session: u64, file: u32) -> Option<u64>
        ensures { result ≡ option_and_then (λ found. option_map length (slice_get found.files file)) (session_of self.now.sessions session) }
    {
        let bytes = self.by_number.get(&session)?.file(file)?;
        Some(bytes.len() as u64)
    }

    /// Closes the sessions whose last activity lies more than 60,000 milliseconds before now, and says how
    /// many they are. It reads every session.
    pub fn expire(&mut self, now: Millis) -> u64
        ensures closed { result ≡ count_by (is_idle now) self.old.sessions }
        ensures kept { self.new ≡ record self.old { sessions = filter (λ session. not (is_idle now session)) self.old.sessions } }
    {
        let before = self.by_number.len();
        self.by_number.retain(|_, session| !session.is_idle(now));
        (before - self.by_number.len()) as u64
    }

    /// Closes all sessions. Their numbers stay given.
    pub fn end_all(&mut self)
        ensures { self.new ≡ record self.old { sessions = [] } }
    {
        self.by_number.clear();
    }
}
