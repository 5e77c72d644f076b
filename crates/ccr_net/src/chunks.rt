//! A chunk: up to 256 frames in a row.

ghost use Rattle.std.specs.Prelude.{◌≡◌, ◌<◌, ◌≤◌, ◌+◌, [], ◌∷◌, ◌++◌, ◌↔◌, length, slice_get, remove, Some, IfOk, IsTrue};

use bytes::Bytes;
use std::alloc::{AllocError, Global};
use std::marker::Model;

/// How many frames a chunk takes in.
pub const ROOM: usize = 256;

/// Frames in a row, oldest first. Contracts see the list of their bytes. The memory for as many as it takes in
/// is there from the beginning on, so nothing but making one can fail.
#[derive(Drop)]
pub struct Chunk {
    frames: Vec<Bytes>,
}

impl Model for Chunk {
    ghost use Rattle.std.specs.Prelude.{◌≤◌, List, ℕ, length, vec_capacity};

    ghost Value = { List (List ℕ) };

    ghost view = { λ a. a.frames.items };

    ghost invariant = { λ a. (length a.frames.items ≤ 256) × (256 ≤ vec_capacity a.frames) };
}

impl Chunk {
    /// A chunk without frames.
    pub fn new(alloc: Global) -> Result<Self, AllocError>
        ensures { IfOk result (λ chunk. chunk ≡ []) }
    {
        let frames = Vec::with_capacity(alloc, ROOM)?;
        Ok(Chunk { frames })
    }

    /// How many frames it holds.
    pub fn len(&self) -> usize
        ensures count { result ≡ length self.now }
        ensures most { result ≤ 256 }
    {
        self.frames.len()
    }

    /// Whether another frame may join it.
    pub fn has_room(&self) -> bool
        ensures { IsTrue result ↔ (length self.now < 256) }
    {
        self.frames.len() < ROOM
    }

    /// Puts a frame behind the others.
    pub fn push(&mut self, frame: Bytes)
        requires { length self.old < 256 }
        ensures { self.new ≡ self.old ++ frame ∷ [] }
    {
        self.frames.push_reserved(frame);
    }

    /// Puts the frames of another chunk behind its own.
    pub fn append(&mut self, mut other: Chunk)
        requires { length self.old + length other ≤ 256 }
        ensures { self.new ≡ self.old ++ other }
    {
        if self.frames.append(&mut other.frames).is_err() {
            unreachable!()
        }
    }

    /// The frame at a place of the chunk.
    pub fn frame(&self, offset: usize) -> &Bytes
        requires { offset < length self.now }
        ensures { slice_get self.now offset ≡ Some result.now }
    {
        &self.frames[offset]
    }

    /// Takes the frame at a place out, and those behind it move up by one place.
    pub fn take(&mut self, offset: usize) -> Bytes
        requires { offset < length self.old }
        ensures frame { slice_get self.old offset ≡ Some result }
        ensures after { self.new ≡ remove self.old offset }
    {
        self.frames.remove(offset)
    }
}
