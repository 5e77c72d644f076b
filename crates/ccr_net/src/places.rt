//! Where a frame stands among the chunks, and what is done there.

ghost use Rattle.std.specs.Prelude.{◌≡◌, ◌<◌, [], ◌∷◌, ◌++◌, ◌↔◌, length, slice_get, remove, option_copied, OnOk, OnErr, IsTrue, MatchOption};
ghost use Rattle.ccr_net.specs.Joined.{joined, IsPlace, FitsWithNext, LastHasRoom, AreApart, AreApartBeside, AreApartBefore};

use crate::chunks::{Chunk, ROOM};
use bytes::Bytes;
use std::alloc::AllocError;
use std::collections::VecDeque;

/// The place of a chunk among the chunks, and that of a frame within it.
#[derive(Clone, Copy)]
pub struct Place {
    chunk: usize,
    offset: usize,
}

/// The place of the frame that has `at` frames before it, by a walk from the oldest chunk on.
fn place_from_front(chunks: &VecDeque<Chunk>, at: usize) -> Place
    requires { at < length (joined chunks.now.items) }
    ensures { IsPlace chunks.now.items at result.chunk result.offset }
{
    let mut offset = at;
    for index in 0..chunks.len() {
        let size = chunks[index].len();
        if offset < size {
            return Place {
                chunk: index,
                offset,
            };
        }
        offset -= size;
    }
    unreachable!()
}

/// The same by a walk from the newest chunk back, over `len` frames in all.
fn place_from_back(chunks: &VecDeque<Chunk>, len: usize, at: usize) -> Place
    requires whole { len ≡ length (joined chunks.now.items) }
    requires within { at < len }
    ensures { IsPlace chunks.now.items at result.chunk result.offset }
{
    let mut end = len;
    let mut index = chunks.len();
    while index > 0 {
        index -= 1;
        let start = end - chunks[index].len();
        if start <= at {
            return Place {
                chunk: index,
                offset: at - start,
            };
        }
        end = start;
    }
    unreachable!()
}

/// The place of a frame, from the nearer end.
pub fn place_of(chunks: &VecDeque<Chunk>, len: usize, at: usize) -> Place
    requires whole { len ≡ length (joined chunks.now.items) }
    requires within { at < len }
    ensures { IsPlace chunks.now.items at result.chunk result.offset }
{
    if at < len / 2 {
        place_from_front(chunks, at)
    } else {
        place_from_back(chunks, len, at)
    }
}

/// The frame that has `at` frames before it, of `len` in all: `None` exactly where there are not that many.
pub fn frame_at(chunks: &VecDeque<Chunk>, len: usize, at: usize) -> Option<&Bytes>
    requires { len ≡ length (joined chunks.now.items) }
    ensures { option_copied result ≡ slice_get (joined chunks.now.items) at }
{
    if at >= len {
        return None;
    }
    let place = place_of(chunks, len, at);
    Some(chunks[place.chunk].frame(place.offset))
}

/// Takes that frame out. Neighbours that fit into one chunk are then joined, so that any two that stand side
/// by side hold more frames than one takes in, and a walk is over few of them whatever was sent and taken.
pub fn take_at(chunks: &mut VecDeque<Chunk>, len: usize, at: usize) -> Option<Bytes>
    requires whole { len ≡ length (joined chunks.old.items) }
    requires apart { AreApart chunks.old.items }
    ensures frame { result ≡ slice_get (joined chunks.old.items) at }
    ensures after { MatchOption result (joined chunks.new.items ≡ joined chunks.old.items) (λ _. joined chunks.new.items ≡ remove (joined chunks.old.items) at) }
    ensures apart { AreApart chunks.new.items }
{
    if at >= len {
        return None;
    }
    let place = place_of(chunks, len, at);
    let frame = chunks[place.chunk].take(place.offset);
    join_with_next(chunks, place.chunk);
    join_with_next(chunks, place.chunk.saturating_sub(1));
    Some(frame)
}

/// Joins a chunk with the next one if there is one and one chunk takes in both.
fn join_with_next(chunks: &mut VecDeque<Chunk>, index: usize)
    requires { AreApartBeside index chunks.old.items }
    ensures same { joined chunks.new.items ≡ joined chunks.old.items }
    ensures apart { AreApartBefore index chunks.old.items chunks.new.items }
{
    if !fits_with_next(chunks, index) {
        return;
    }
    let Some(next) = chunks.remove(index + 1) else {
        return;
    };
    chunks[index].append(next);
}

/// Whether there is a next chunk, and one takes in both.
fn fits_with_next(chunks: &VecDeque<Chunk>, index: usize) -> bool
    ensures { IsTrue result ↔ FitsWithNext chunks.now.items index }
{
    match (chunks.get(index), chunks.get(index.saturating_add(1))) {
        (Some(first), Some(next)) => first.len() + next.len() <= ROOM,
        _ => false,
    }
}

/// Puts a frame behind all others. At want of memory the frames are as before.
pub fn push(chunks: &mut VecDeque<Chunk>, frame: Bytes) -> Result<(), AllocError>
    requires { AreApart chunks.old.items }
    ensures ok { OnOk result (joined chunks.new.items ≡ joined chunks.old.items ++ frame ∷ []) }
    ensures err { OnErr result (joined chunks.new.items ≡ joined chunks.old.items) }
    ensures apart { AreApart chunks.new.items }
{
    if last_has_room(chunks) {
        push_to_last(chunks, frame);
        Ok(())
    } else {
        push_to_new(chunks, frame)
    }
}

/// Whether there is a last chunk with room.
fn last_has_room(chunks: &VecDeque<Chunk>) -> bool
    ensures { IsTrue result ↔ LastHasRoom chunks.now.items }
{
    match chunks.back() {
        Some(last) => last.has_room(),
        None => false,
    }
}

/// Puts a frame into the last chunk.
fn push_to_last(chunks: &mut VecDeque<Chunk>, frame: Bytes)
    requires room { LastHasRoom chunks.old.items }
    requires apart { AreApart chunks.old.items }
    ensures more { joined chunks.new.items ≡ joined chunks.old.items ++ frame ∷ [] }
    ensures apart { AreApart chunks.new.items }
{
    let last = chunks.len() - 1;
    chunks[last].push(frame);
}

/// Puts a frame into a new chunk behind the last.
fn push_to_new(chunks: &mut VecDeque<Chunk>, frame: Bytes) -> Result<(), AllocError>
    requires full { LastHasRoom chunks.old.items → ⊥ }
    requires apart { AreApart chunks.old.items }
    ensures ok { OnOk result (joined chunks.new.items ≡ joined chunks.old.items ++ frame ∷ []) }
    ensures err { OnErr result (joined chunks.new.items ≡ joined chunks.old.items) }
    ensures apart { AreApart chunks.new.items }
{
    let mut chunk = Chunk::new(*chunks.allocator())?;
    chunk.push(frame);
    chunks.push_back(chunk)?;
    Ok(())
}
