ghost use Rattle.std.specs.Prelude.{◌≡◌, ◌+◌, ◌≤◌, ◌++◌, length, OnOk, OnErr, vec_len, vec_capacity};
ghost use Rattle.ccr_op.specs.Operation.{KindFits};
ghost use Rattle.std.specs.Int.{w16};
ghost use Rattle.ccr_op.specs.Fields.{counted};
ghost use Rattle.ccr_op.specs.Spelling.{spelling, kind_byte, kind_fields, routed};

use crate::kinds::{DELETE, INDEX, NO_OP, ROUTED_DELETE, ROUTED_INDEX};
use crate::{DocId, Kind, Op};
use std::alloc::AllocError;

/// The bytes of a kind, a number and a term, which every operation begins with.
const HEAD_BYTES: u64 = 17;

/// The bytes of a version.
const VERSION_BYTES: u64 = 8;

/// The bytes of the length of an id or of a routing.
const ID_LENGTH_BYTES: u64 = 2;

/// The bytes of a source's length.
const SOURCE_LENGTH_BYTES: u64 = 4;

/// The bytes of an id behind its length.
fn id_size(id: &DocId) -> u64
    ensures value { result ≡ length (counted w16 id.now) }
    ensures bounds { result ≤ 514 }
{
    ID_LENGTH_BYTES + id.as_str().len() as u64
}

/// The bytes of a routing behind its length: none where there is no routing.
fn routing_size(routing: &Option<DocId>) -> u64
    ensures value { result ≡ length (routed routing.now) }
    ensures bounds { result ≤ 514 }
{
    match routing {
        Some(text) => id_size(text),
        None => 0,
    }
}

impl Op {
    /// The length of its encoding: 17 bytes for a no-op, 27 bytes and the id for a delete, 31 bytes, the id
    /// and the source for an index operation. A routing adds 2 bytes and itself.
    pub fn size(&self) -> u64
        ensures { result ≡ length (spelling self.now) }
    {
        match self.kind() {
            Kind::Index { id, routing, body } => {
                let texts = id_size(id) + routing_size(routing) + body.as_str().len() as u64;
                HEAD_BYTES + VERSION_BYTES + SOURCE_LENGTH_BYTES + texts
            }
            Kind::Delete { id, routing } => {
                HEAD_BYTES + VERSION_BYTES + id_size(id) + routing_size(routing)
            }
            Kind::NoOp => HEAD_BYTES,
        }
    }
}

/// Appends bytes for which there is room.
fn put(to: &mut Vec<u8>, bytes: &[u8])
    requires { vec_len to.old + length bytes.now ≤ vec_capacity to.old }
    ensures after { to.new.items ≡ to.old.items ++ bytes.now }
    ensures room { vec_capacity to.old ≤ vec_capacity to.new }
{
    to.extend_from_slice(bytes).unwrap()
}

fn byte_of(kind: &Kind) -> u8
    ensures { result ≡ kind_byte kind.now }
{
    match kind {
        Kind::Index { routing: None, .. } => INDEX,
        Kind::Delete { routing: None, .. } => DELETE,
        Kind::NoOp => NO_OP,
        Kind::Index {
            routing: Some(_),
            ..
        } => ROUTED_INDEX,
        Kind::Delete {
            routing: Some(_),
            ..
        } => ROUTED_DELETE,
    }
}

/// Appends an id behind its length, for which there is room.
fn put_id(to: &mut Vec<u8>, id: &DocId)
    requires { vec_len to.old + length (counted w16 id.now) ≤ vec_capacity to.old }
    ensures after { to.new.items ≡ to.old.items ++ counted w16 id.now }
    ensures room { vec_capacity to.old ≤ vec_capacity to.new }
{
    put(to, &(id.as_str().len() as u16).to_be_bytes());
    put(to, id.as_str().as_bytes());
}

/// Appends a routing behind its length, where there is one, for which there is room.
fn put_routing(to: &mut Vec<u8>, routing: &Option<DocId>)
    requires { vec_len to.old + length (routed routing.now) ≤ vec_capacity to.old }
    ensures after { to.new.items ≡ to.old.items ++ routed routing.now }
    ensures room { vec_capacity to.old ≤ vec_capacity to.new }
{
    match routing {
        Some(text) => put_id(to, text),
        None => {}
    }
}

/// Appends what an operation has behind its term, for which there is room.
fn put_fields(to: &mut Vec<u8>, version: u64, kind: &Kind)
    requires bounds { KindFits kind.now version }
    requires room { vec_len to.old + length (kind_fields version kind.now) ≤ vec_capacity to.old }
    ensures { to.new.items ≡ to.old.items ++ kind_fields version kind.now }
{
    match kind {
        Kind::Index { id, routing, body } => {
            put(to, &version.to_be_bytes());
            put_id(to, id);
            put_routing(to, routing);
            put(to, &(body.as_str().len() as u32).to_be_bytes());
            put(to, body.as_str().as_bytes());
        }
        Kind::Delete { id, routing } => {
            put(to, &version.to_be_bytes());
            put_id(to, id);
            put_routing(to, routing);
        }
        Kind::NoOp => {}
    }
}

/// Appends the one spelling of an operation: its kind byte, number and term, and behind these the version,
/// the id, the routing and the source, as far as it has them. Numbers are big-endian, and a text stands behind its
/// length. It asks for memory once. At want of memory `to` is as before.
pub fn encode(op: &Op, to: &mut Vec<u8>) -> Result<(), AllocError>
    ensures ok { OnOk result (to.new.items ≡ to.old.items ++ spelling op.now) }
    ensures err { OnErr result (to.new.items ≡ to.old.items) }
{
    to.reserve(op.size() as usize)?;
    put(to, &[byte_of(op.kind())]);
    put(to, &op.seq().to_be_bytes());
    put(to, &op.term().to_be_bytes());
    put_fields(to, op.version(), op.kind());
    Ok(())
}
