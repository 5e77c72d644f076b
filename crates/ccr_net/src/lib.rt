//! The frames in flight between a leader and its followers: a list in the order of their sending, of which
//! any may be delivered or lost.
#![tactic(auto)]

ghost use Rattle.std.specs.Prelude.{◌≡◌, ◌<◌, [], ◌∷◌, ◌++◌, ◌↔◌, length, slice_get, remove, option_copied, OnOk, OnErr, IsTrue, MatchOption, MatchBool};

mod chunks;
mod places;

use bytes::Bytes;
use chunks::Chunk;
use std::alloc::{AllocError, Global};
use std::collections::VecDeque;
use std::marker::Model;

/// The frames in flight, oldest first. Contracts see the list of their bytes.
///
/// They stand in chunks of up to 256, of which any two side by side hold more than one takes in. So a frame is
/// found by a walk over few chunks, from the nearer end, and those behind it are moved in its own chunk alone.
#[derive(Drop)]
pub struct Net {
    chunks: VecDeque<Chunk>,
    len: usize,
}

impl Model for Net {
    ghost use Rattle.std.specs.Prelude.{◌≡◌, List, ℕ, length};
    ghost use Rattle.ccr_net.specs.Joined.{joined, AreApart};

    ghost Value = { List (List ℕ) };

    ghost view = { λ a. joined a.chunks.items };

    ghost invariant = { λ a. (a.len ≡ length (joined a.chunks.items)) × AreApart a.chunks.items };
}

impl Net {
    /// A net without frames.
    pub fn new(alloc: Global) -> Self
        ensures { result ≡ [] }
    {
        Net {
            chunks: VecDeque::new(alloc),
            len: 0,
        }
    }

    /// Puts a frame behind the others, in the same time however many there are. At want of memory the net is as
    /// before, and the frame is gone.
    pub fn send(&mut self, frame: Bytes) -> Result<(), AllocError>
        ensures ok { OnOk result (self.new ≡ self.old ++ frame ∷ []) }
        ensures err { OnErr result (self.new ≡ self.old) }
    {
        if self.len == usize::MAX {
            return Err(AllocError);
        }
        places::push(&mut self.chunks, frame)?;
        self.len += 1;
        Ok(())
    }

    /// The frame at a place, counted from the oldest, found by a step for each 256 frames between it and the nearer
    /// end, or for each 128 at worst: `None` exactly where there are not that many.
    pub fn get(&self, at: usize) -> Option<&Bytes>
        ensures { option_copied result ≡ slice_get self.now at }
    {
        places::frame_at(&self.chunks, self.len, at)
    }

    /// Takes the frame at a place out, and those behind it move up by one place. It is found as by `get`, and then at
    /// most 256 frames are moved: the oldest and the newest leave at once, and no call takes memory. `None` exactly
    /// where there are not that many; then the net is as before.
    pub fn take(&mut self, at: usize) -> Option<Bytes>
        ensures frame { result ≡ slice_get self.old at }
        ensures after { MatchOption result (self.new ≡ self.old) (λ _. self.new ≡ remove self.old at) }
    {
        let frame = places::take_at(&mut self.chunks, self.len, at)?;
        self.len -= 1;
        Some(frame)
    }

    /// Loses the frame at a place, as `take` does, and says whether there was one.
    pub fn drop_at(&mut self, at: usize) -> bool
        ensures there { IsTrue result ↔ (at < length self.old) }
        ensures after { MatchBool result (self.new ≡ remove self.old at) (self.new ≡ self.old) }
    {
        let lost = self.take(at);
        lost.is_some()
    }

    /// How many frames are in flight.
    pub fn len(&self) -> usize
        ensures { result ≡ length self.now }
    {
        self.len
    }

    /// Whether none is in flight.
    pub fn is_empty(&self) -> bool
        ensures { IsTrue result ↔ (self.now ≡ []) }
    {
        self.len == 0
    }
}

#[cfg(test)]
mod tests {
    use super::*;
    use std::test::Fail;

    #[test]
    fn frames_leave_in_any_order(rt: HostRuntime) -> Result<(), Fail> {
        let mut net = Net::new(rt.alloc());
        assert!(rt; net.is_empty());
        net.send(Bytes::from_static(b"one"))?;
        net.send(Bytes::from_static(b"two"))?;
        net.send(Bytes::from_static(b"three"))?;
        assert_eq!(rt; net.len(), 3);
        let second = net.take(1).ok_or("a frame is at place 1")?;
        assert_eq!(rt; second.as_slice(), b"two".as_slice());
        assert!(rt; net.drop_at(0));
        assert!(rt; !net.drop_at(1));
        assert!(rt; net.take(1).is_none());
        let first = net.get(0).ok_or("a frame is at place 0")?;
        assert_eq!(rt; first.as_slice(), b"three".as_slice());
        assert!(rt; net.get(1).is_none());
        Ok(())
    }

    #[test]
    fn frames_of_several_chunks_leave_from_the_middle(rt: HostRuntime) -> Result<(), Fail> {
        let mut net = Net::new(rt.alloc());
        for _ in 0..600 {
            net.send(Bytes::from_static(b"old"))?;
        }
        net.send(Bytes::from_static(b"new"))?;
        for _ in 0..500 {
            assert!(rt; net.drop_at(net.len() / 2));
        }
        assert_eq!(rt; net.len(), 101);
        let newest = net.get(100).ok_or("a frame is at place 100")?;
        assert_eq!(rt; newest.as_slice(), b"new".as_slice());
        Ok(())
    }
}
