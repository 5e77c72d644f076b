ghost use Rattle.std.specs.Prelude.{◌≡◌, IfOk, IsOkUnless, MatchOption, map, option_copied, slice_get};
ghost use Rattle.ccr_model.specs.LeaderRows.{is_idle};
ghost use Rattle.ccr_model.specs.LeaderFrames.{chunk_of};
ghost use Rattle.ccr_session.specs.Chunks.{range_fault};

use crate::SessionFault;
use crate::files::Files;
use ccr_op::{Count, Millis};
use std::alloc::Global;
use std::marker::Model;

/// How long a session may be idle, in milliseconds.
pub const SESSION_PERIOD: Millis = 60_000;

/// Files as they were when the session began, and when one was last read.
#[derive(Debug, Drop)]
pub struct Session {
    number: u64,
    count: Count,
    files: Files,
    activity: Millis,
}

impl Model for Session {
    ghost use Rattle.ccr_model.specs.Leaders.{Session as Opened};

    ghost Value = { Opened };

    ghost view = { λ a. record { number = a.number; count = a.count; files = a.files; activity = a.activity } };
}

impl Session {
    pub fn new(number: u64, count: Count, files: Vec<Vec<u8>>, now: Millis) -> Session
        ensures { result ≡ record { number = number; count = count; files = map (λ file. file.items) files.items; activity = now } }
    {
        Session {
            number,
            count,
            files: Files::new(files),
            activity: now,
        }
    }

    /// The file of this number.
    pub fn file(&self, number: u32) -> Option<&[u8]>
        ensures { option_copied result ≡ slice_get self.now.files number }
    {
        self.files.get(number)
    }

    /// The bytes of a file from the offset on: as many as asked, or all that are left.
    pub fn part(
        &self,
        alloc: Global,
        file: u32,
        offset: u64,
        size: u32,
    ) -> Result<Vec<u8>, SessionFault>
        ensures answer { MatchOption (range_fault (slice_get self.now.files file) offset) (IsOkUnless result SessionFault.Memory) (λ why. result ≡ Err why) }
        ensures part { IfOk result (λ part. part.items ≡ chunk_of self.now file offset size) }
    {
        let Some(bytes) = self.file(file) else {
            return Err(SessionFault::NoFile);
        };
        if offset >= bytes.len() as u64 {
            return Err(SessionFault::Range);
        }
        let rest = &bytes[offset as usize..];
        let count = rest.len().min(size as usize);
        Ok(Vec::from_slice(alloc, &rest[..count])?)
    }

    /// The session was active now.
    pub fn touch(&mut self, now: Millis)
        ensures { self.new ≡ record self.old { activity = now } }
    {
        self.activity = now;
    }

    /// Whether its last activity lies more than the period before now.
    pub fn is_idle(&self, now: Millis) -> bool
        ensures { result ≡ is_idle now self.now }
    {
        now.saturating_sub(self.activity) > SESSION_PERIOD
    }
}
