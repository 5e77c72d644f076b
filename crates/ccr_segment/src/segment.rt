ghost use Rattle.std.specs.Prelude.{◌≡◌, ℕ, ◌≢◌, List, length, drop, find, slice_get, ◌==◌, ◌<◌, ◌≤◌, slice_index, IfOk, IsOk, MatchOption, Ok};
ghost use Rattle.ccr_op.specs.Operation.{Operation};
ghost use Rattle.std.specs.List.{AllWithin, HoldsAt};
ghost use Rattle.std.specs.List.Sorted.{IsNonDecreasingBy};
ghost use Rattle.ccr_op.specs.Reading.{operation_at};
ghost use Rattle.ccr_segment.specs.Index.{IsOpened, ops_in};
ghost use Rattle.ccr_segment.specs.Segment.{HasSpelling, spelling};
ghost use Rattle.ccr_segment.specs.Reading.{Gives, segment_of};

use crate::BadSegment;
use crate::index::Place;
use crate::reading::read_places;
use ccr_op::{BadOp, Op};
use std::alloc::{AllocError, Global};
use std::marker::Model;

/// The bytes of a segment, and where in them each operation begins. Contracts see its operations.
#[derive(Debug, Drop)]
pub struct Segment {
    bytes: Vec<u8>,
    places: Vec<Place>,
}

impl Model for Segment {
    ghost use Rattle.std.specs.Prelude.{List};
    ghost use Rattle.ccr_op.specs.Operation.{Operation};

    ghost Value = { List Operation };

    ghost use Rattle.ccr_segment.specs.Index.{ops_in, IsOpened};

    ghost view = { λ a. ops_in a.bytes.items };

    ghost invariant = { λ a. IsOpened a.bytes.items a.places.items };
}

/// Bytes are numbers below 256.
fn know_bytes(bytes: &[u8])
    ensures { (i : ℕ) → slice_index bytes.now i < 256 }
{}

fn read_segment(alloc: Global, from: Vec<u8>) -> Result<Segment, BadSegment>
    ensures { Gives (λ ops. ops) result (segment_of from.items) }
{
    let places = read_places(alloc, from.as_slice())?;
    Ok(Segment {
        bytes: from,
        places,
    })
}

/// Where among ascending places the one of a number is.
fn place_of(places: &[Place], n: u64) -> Option<usize>
    requires { IsNonDecreasingBy (λ place. place.seq) places.now }
    ensures { MatchOption result (AllWithin (λ place. place.seq ≢ n) places.now 0 (length places.now)) (λ at. (at < length places.now) × HoldsAt (λ place. place.seq ≡ n) places.now at) }
{
    match places.binary_search_by_key(&n, |place| place.seq) {
        Ok(at) => Some(at),
        Err(_) => None,
    }
}

/// The operation that begins at a place.
fn op_from(alloc: Global, bytes: &[u8], start: usize) -> Result<Op, AllocError>
    requires within { start ≤ length bytes.now }
    requires there { IsOk (operation_at (drop start bytes.now)) }
    ensures { IfOk result (λ op. IfOk (operation_at (drop start bytes.now)) (λ x. x.0 ≡ op)) }
{
    match ccr_op::decode(alloc, &bytes[start..]) {
        Ok((op, _)) => Ok(op),
        Err(BadOp::Memory) => Err(AllocError),
        Err(BadOp::Short) | Err(BadOp::Kind) | Err(BadOp::Length) | Err(BadOp::Utf8) =>
            unreachable!(),
    }
}

fn find_op(alloc: Global, bytes: &[u8], places: &[Place], n: u64) -> Result<Option<Op>, AllocError>
    requires { IsOpened bytes.now places.now }
    ensures { IfOk result (λ found. found ≡ find (λ op. op.seq == n) (ops_in bytes.now)) }
{
    match place_of(places, n) {
        Some(at) => {
            let op = op_from(alloc, bytes, places[at].start)?;
            Ok(Some(op))
        }
        None => Ok(None),
    }
}

fn nth_op(
    alloc: Global,
    bytes: &[u8],
    places: &[Place],
    at: usize,
) -> Result<Option<Op>, AllocError>
    requires { IsOpened bytes.now places.now }
    ensures { IfOk result (λ found. found ≡ slice_get (ops_in bytes.now) at) }
{
    if at >= places.len() {
        return Ok(None);
    }
    let op = op_from(alloc, bytes, places[at].start)?;
    Ok(Some(op))
}

fn all_ops(alloc: Global, bytes: &[u8], places: &[Place]) -> Result<Vec<Op>, AllocError>
    requires { IsOpened bytes.now places.now }
    ensures { IfOk result (λ ops. ops.items ≡ ops_in bytes.now) }
{
    let mut ops = Vec::with_capacity(alloc, places.len())?;
    for place in places {
        let op = op_from(alloc, bytes, place.start)?;
        ops.push(op)?;
    }
    Ok(ops)
}

impl Segment {
    /// The segment that the bytes spell, all of the bytes. This reads each operation once, in time with the
    /// length of the bytes. The index grows as operations are read, never by the number that the header
    /// states.
    ///
    /// # Errors
    ///
    /// The first field in order that cannot be read: the four bytes `CCRS`, the version, the number of
    /// operations, each operation and its number, and then the end.
    pub fn open(alloc: Global, from: Vec<u8>) -> Result<Segment, BadSegment>
        // What is read is spelled so.
        ensures found { IfOk result (λ ops. HasSpelling ops × (from.items ≡ spelling ops)) }
        // What is spelled so is read, unless memory runs out.
        ensures only { (ops : List Operation) → HasSpelling ops → from.items ≡ spelling ops → Gives (λ x. x) result (Ok ops) }
        // Which field it is.
        ensures exact { Gives (λ ops. ops) result (segment_of from.items) }
    {
        know_bytes(from.as_slice());
        read_segment(alloc, from)
    }

    /// How many operations it has.
    pub fn len(&self) -> u32
        ensures { result ≡ length self.now }
    {
        know_bytes(self.bytes.as_slice());
        self.places.len() as u32
    }

    /// Its bytes, which are their one spelling.
    pub fn bytes(&self) -> &[u8]
        ensures value { result.now ≡ spelling self.now }
        ensures fits { HasSpelling self.now }
    {
        let bytes = self.bytes.as_slice();
        know_bytes(bytes);
        bytes
    }

    /// The operation at a place in their order, from 0, or `None` past the last one. This reads that operation
    /// alone, so a walk over all of them reads each once.
    pub fn nth(&self, alloc: Global, at: u32) -> Result<Option<Op>, AllocError>
        ensures { IfOk result (λ found. found ≡ slice_get self.now at) }
    {
        nth_op(
            alloc,
            self.bytes.as_slice(),
            self.places.as_slice(),
            at as usize,
        )
    }

    /// All operations, in their order. This reads each of them once, and nothing else.
    pub fn all(&self, alloc: Global) -> Result<Vec<Op>, AllocError>
        ensures { IfOk result (λ ops. ops.items ≡ self.now) }
    {
        all_ops(alloc, self.bytes.as_slice(), self.places.as_slice())
    }

    /// The operation of a number, or `None` exactly where it has none. This finds the place by halving, and
    /// reads that operation alone.
    pub fn op_at(&self, alloc: Global, n: u64) -> Result<Option<Op>, AllocError>
        ensures { IfOk result (λ found. found ≡ find (λ op. op.seq == n) self.now) }
    {
        find_op(alloc, self.bytes.as_slice(), self.places.as_slice(), n)
    }
}
