ghost use Rattle.std.specs.Prelude.{◌≡◌, ◌==◌, ◌&&◌};
ghost use Rattle.ccr_model.specs.Requests.{on_its_way, waiting, is_sent, is_due};
ghost use Rattle.ccr_model.specs.Settling.{time_of};

use crate::places::Place;
use crate::progress::Progress;
use ccr_op::Millis;
use ccr_wire::Chunk;
use std::marker::Model;

/// The request for the lease or for the session, under its last number.
#[derive(Drop)]
pub struct Asked {
    request: u64,
    progress: Progress,
}

impl Model for Asked {
    ghost use Rattle.ccr_model.specs.Restores.{Asked as Modelled};

    ghost Value = { Modelled };

    ghost use Rattle.ccr_restore.specs.Shown.{shown};

    ghost view = { λ a. record { request = a.request; progress = shown a.progress } };
}

impl Asked {
    /// A request that is sent under this number.
    pub fn sent(request: u64) -> Self
        ensures { result ≡ record { request = request; progress = on_its_way } }
    {
        Asked {
            request,
            progress: Progress::OnItsWay,
        }
    }

    /// Its number.
    pub fn request(&self) -> u64
        ensures { result ≡ self.now.request }
    {
        self.request
    }

    /// Whether an answer to the request of this number is one to it.
    pub fn is_answered_by(&self, request: u64) -> bool
        ensures { result ≡ ((request == self.now.request) && is_sent self.now.progress) }
    {
        request == self.request && self.progress.is_sent()
    }

    /// Whether it was sent and not lost.
    pub fn is_sent(&self) -> bool
        ensures { result ≡ is_sent self.now.progress }
    {
        self.progress.is_sent()
    }

    /// Whether it waited long enough.
    pub fn is_due(&self, now: Millis) -> bool
        ensures { result ≡ is_due now self.now.progress }
    {
        self.progress.is_due(now)
    }

    /// The time until which it waits.
    pub fn until(&self) -> Option<Millis>
        ensures { result ≡ time_of self.now.progress }
    {
        self.progress.until()
    }

    /// It was lost, and waits until this time.
    pub fn wait(&mut self, until: Millis)
        ensures { self.new ≡ record self.old { progress = waiting until } }
    {
        self.progress = Progress::Waiting(until);
    }
}

/// The request for a part of a file, under its last number.
#[derive(Drop)]
pub struct ChunkAsked {
    request: u64,
    place: Place,
    progress: Progress,
}

impl Model for ChunkAsked {
    ghost use Rattle.ccr_model.specs.Restores.{ChunkAsked as Modelled};

    ghost Value = { Modelled };

    ghost use Rattle.ccr_restore.specs.Shown.{shown};

    ghost view = { λ a. record { request = a.request; file = a.place.0; offset = a.place.1; progress = shown a.progress } };
}

impl ChunkAsked {
    /// A request for the part at a place, that is sent under this number.
    pub fn sent(request: u64, place: Place) -> Self
        ensures { result ≡ record { request = request; file = place.0; offset = place.1; progress = on_its_way } }
    {
        ChunkAsked {
            request,
            place,
            progress: Progress::OnItsWay,
        }
    }

    /// An equal request. It takes no memory.
    pub fn copy(&self) -> Self
        ensures { result ≡ self.now }
    {
        ChunkAsked {
            request: self.request,
            place: self.place,
            progress: self.progress,
        }
    }

    /// Its number.
    pub fn request(&self) -> u64
        ensures { result ≡ self.now.request }
    {
        self.request
    }

    /// Where the part begins.
    pub fn place(&self) -> Place
        ensures { result ≡ (self.now.file, self.now.offset) }
    {
        self.place
    }

    /// Whether an answer to the request of this number is one to it.
    pub fn is_answered_by(&self, request: u64) -> bool
        ensures { result ≡ ((self.now.request == request) && is_sent self.now.progress) }
    {
        self.request == request && self.progress.is_sent()
    }

    /// Whether it was sent and not lost.
    pub fn is_sent(&self) -> bool
        ensures { result ≡ is_sent self.now.progress }
    {
        self.progress.is_sent()
    }

    /// Whether it waited long enough.
    pub fn is_due(&self, now: Millis) -> bool
        ensures { result ≡ is_due now self.now.progress }
    {
        self.progress.is_due(now)
    }

    /// The time until which it waits.
    pub fn until(&self) -> Option<Millis>
        ensures { result ≡ time_of self.now.progress }
    {
        self.progress.until()
    }

    /// It was lost, and waits until this time.
    pub fn wait(&mut self, until: Millis)
        ensures { self.new ≡ record self.old { progress = waiting until } }
    {
        self.progress = Progress::Waiting(until);
    }
}

/// A part of a file that has come.
#[derive(Drop)]
pub struct Part {
    place: Place,
    bytes: Chunk,
}

impl Model for Part {
    ghost use Rattle.ccr_model.specs.Restores.{Chunk as Modelled};

    ghost Value = { Modelled };

    ghost view = { λ a. record { file = a.place.0; offset = a.place.1; bytes = a.bytes } };
}

impl Part {
    /// The part at a place.
    pub fn new(place: Place, bytes: Chunk) -> Self
        ensures { result ≡ record { file = place.0; offset = place.1; bytes = bytes } }
    {
        Part { place, bytes }
    }

    /// Where it begins.
    pub fn place(&self) -> Place
        ensures { result ≡ (self.now.file, self.now.offset) }
    {
        self.place
    }

    /// Its bytes.
    pub fn bytes(&self) -> &[u8]
        ensures { result.now ≡ self.now.bytes }
    {
        self.bytes.as_slice()
    }
}
