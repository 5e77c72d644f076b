ghost use Rattle.std.specs.Prelude.{◌≡◌, ◌∷◌, ◌++◌, ◌+◌, ◌<◌, ◌≤◌, ◌^◌, [], length, drop, IfOk, OnOk, OnErr};
ghost use Rattle.std.specs.Int.{w32, to_be_bytes};
ghost use Rattle.ccr_segment.specs.Segment.{AscendsFrom, HasSpelling, spelling, version_for as version_byte};

use crate::versions::{PLAIN_VERSION, version_for};
use ccr_op::Op;
use std::alloc::{AllocError, Global};
use std::marker::Model;

/// The length of the header.
const HEADER_BYTES: usize = 9;

/// The first bytes of a segment: `CCRS`, the version, and the number of operations.
fn header(routed: bool, count: u32) -> [u8; HEADER_BYTES]
    ensures { result ≡ 67 ∷ 67 ∷ 82 ∷ 83 ∷ version_byte routed ∷ to_be_bytes w32 count }
{
    let count = count.to_be_bytes();
    [
        b'C',
        b'C',
        b'R',
        b'S',
        version_for(routed),
        count[0],
        count[1],
        count[2],
        count[3],
    ]
}

/// Writes over the front.
fn put_over(bytes: &mut [u8], front: &[u8])
    requires { length front.now ≤ length bytes.old }
    ensures { bytes.new ≡ front.now ++ drop (length front.now) bytes.old }
{
    bytes[..front.len()].copy_from_slice(front);
}

/// A segment that is written one operation after another, each by loan, so that nothing has to hold them all.
/// Contracts see the operations that were pushed.
#[derive(Debug, Drop)]
pub struct Writer {
    // A header that isn't filled in yet, and the operations.
    bytes: Vec<u8>,
    count: u32,
    routed: bool,
}

impl Model for Writer {
    ghost use Rattle.std.specs.Prelude.{List, drop};
    ghost use Rattle.ccr_op.specs.Operation.{Operation};
    ghost use Rattle.ccr_segment.specs.Writing.{ops_written, IsWriting};

    ghost Value = { List Operation };

    ghost view = { λ a. ops_written a.routed a.count (drop 9 a.bytes.items) };

    ghost invariant = { λ a. IsWriting a.routed a.count a.bytes.items };
}

impl Writer {
    /// A segment without operations yet. It has memory for so many bytes, and asks for more where these don't
    /// do: `size` says how many do.
    pub fn new(alloc: Global, bytes: usize) -> Result<Writer, AllocError>
        ensures { IfOk result (λ writer. writer ≡ []) }
    {
        let mut bytes = Vec::with_capacity(alloc, bytes)?;
        bytes.extend_from_slice(&header(false, 0))?;
        Ok(Writer {
            bytes,
            count: 0,
            routed: false,
        })
    }

    /// Adds an operation of a greater number than all before. Its cost goes with the operation's bytes.
    pub fn push(&mut self, op: &Op) -> Result<(), AllocError>
        requires count { length self.old + 1 < 2 ^ 32 }
        requires order { AscendsFrom 0 (self.old ++ op.now ∷ []) }
        ensures ok { OnOk result (self.new ≡ self.old ++ op.now ∷ []) }
        ensures err { OnErr result (self.new ≡ self.old) }
    {
        let routed = op.routing().is_some();
        let _fits = op.kind();
        ccr_op::encode(op, &mut self.bytes)?;
        self.count += 1;
        self.routed |= routed;
        Ok(())
    }

    /// The one spelling of a segment of these operations: `CCRS`, the version, their number, and the
    /// operations. The version is 2 where an operation has a routing, and else 1. This takes no memory, and
    /// moves no operation.
    pub fn finish(self) -> Vec<u8>
        ensures spelled { result.items ≡ spelling self }
        ensures fits { HasSpelling self }
    {
        let Writer {
            mut bytes,
            count,
            routed,
        } = self;
        put_over(bytes.as_mut_slice(), &header(routed, count));
        bytes
    }
}
