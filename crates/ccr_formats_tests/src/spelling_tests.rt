use ccr_op::{BadOp, Batch, DocId, Op};
use ccr_segment::Segment;
use ccr_wire::Message;
use std::alloc::{AllocError, Global};
use std::test::Fail;

/// In each line the answer to reading bytes, and behind a bar the bytes in hexadecimal digits, field by field.
/// Of an operation that is read the answer is its number, term, version, id and routing.
const OPS: &str =
    r#"1 2 3 a - | 01 0000000000000001 0000000000000002 0000000000000003 0001 61 00000007 7b226e223a317d
18446744073709551615 18446744073709551614 18446744073709551613 é - | 02 ffffffffffffffff fffffffffffffffe fffffffffffffffd 0002 c3a9
258 3 0 - - | 03 0000000000000102 0000000000000003
1 2 3 a r | 04 0000000000000001 0000000000000002 0000000000000003 0001 61 0001 72 00000007 7b226e223a317d
1 2 3 a é | 05 0000000000000001 0000000000000002 0000000000000003 0001 61 0002 c3a9
the bytes end inside the operation | 03 0000000000000102 00000000000000
no kind of operation has this byte | 06
a length is out of its range | 01 0000000000000000 0000000000000001 0000000000000001 0000
a length is out of its range | 01 0000000000000000 0000000000000001 0000000000000001 0201
the bytes end inside the operation | 01 0000000000000000 0000000000000001 0000000000000001 0200
a length is out of its range | 01 0000000000000000 0000000000000001 0000000000000001 0001 61 00000001
a length is out of its range | 01 0000000000000000 0000000000000001 0000000000000001 0001 61 00080001
the bytes end inside the operation | 01 0000000000000000 0000000000000001 0000000000000001 0001 61 00080000
a text is not UTF-8 | 05 0000000000000000 0000000000000001 0000000000000001 0001 61 0001 ff"#;

/// Of a segment that is read the answer is how many operations it has.
const SEGMENTS: &str = r#"0 | 43435253 01 00000000
1 | 43435253 01 00000001 01 0000000000000000 0000000000000001 0000000000000001 0001 61 00000007 7b226e223a317d
2 | 43435253 02 00000002 05 0000000000000000 0000000000000001 0000000000000001 0001 61 0001 72 03 ffffffffffffffff 0000000000000001
the bytes do not begin as a segment does | 4358
the segment has an unknown version | 43435253 03 00000000
the bytes end inside the segment | 43435253 01 000000
the operations are not in ascending order | 43435253 01 00000002 03 0000000000000000 0000000000000001 03 0000000000000000 0000000000000001
an operation cannot be read | 43435253 01 00000001 05 0000000000000000 0000000000000001 0000000000000001 0001 61 0001 72
bytes stand behind the last operation | 43435253 02 00000000 00
the segment is of the version with routings and has none | 43435253 02 00000000"#;

/// Of a frame that is read the answer is the byte of its kind and its request.
const FRAMES: &str =
    r#"1 258 | 01 07070707070707070707070707070707 0000000000000102 09090909090909090909090909090909 0000000000000000 ffffffffffffffff 0000000000000003 ffffffffffffffff
2 258 | 02 07070707070707070707070707070707 0000000000000102 0000000000000003 ffffffffffffffff 00000002 03 0000000000000003 0000000000000001 03 0000000000000004 0000000000000001
3 258 | 03 07070707070707070707070707070707 0000000000000102 0000000000000000 ffffffffffffffff
4 258 | 04 07070707070707070707070707070707 0000000000000102 09090909090909090909090909090909
5 258 | 05 07070707070707070707070707070707 0000000000000102 0002 6162
6 258 | 06 07070707070707070707070707070707 0000000000000102 ffffffffffffffff
7 258 | 07 07070707070707070707070707070707 0000000000000102 0002 6162 ffffffffffffffff
8 258 | 08 07070707070707070707070707070707 0000000000000102 0002 6162
9 258 | 09 07070707070707070707070707070707 0000000000000102 03 ffffffffffffffff
10 258 | 0a 07070707070707070707070707070707 0000000000000102
11 258 | 0b 07070707070707070707070707070707 0000000000000102 ffffffffffffffff 09090909090909090909090909090909 0000000000000003 00000002 0000000000000000 ffffffffffffffff
12 258 | 0c 07070707070707070707070707070707 0000000000000102 ffffffffffffffff ffffffff ffffffffffffffff 01000000
13 258 | 0d 07070707070707070707070707070707 0000000000000102 0000000000000000 00000000 0000000000000000 00000001 ff
14 258 | 0e 07070707070707070707070707070707 0000000000000102 ffffffffffffffff
15 258 | 0f 07070707070707070707070707070707 0000000000000102 ffffffff
the bytes end inside the frame | 0f 07070707070707070707070707070707 0000000000000102 ffffff
the bytes end inside the frame | 02 07070707070707070707070707070707 0000000000000102 0000000000000000 0000000000000000 ffffffff
no kind of frame has this byte | 10
a length or a size is out of its range | 05 07070707070707070707070707070707 0000000000000102 0201
a length or a size is out of its range | 0c 07070707070707070707070707070707 0000000000000102 0000000000000000 00000000 0000000000000000 01000001
a field has no such value | 09 07070707070707070707070707070707 0000000000000102 04
a field has no such value | 09 07070707070707070707070707070707 0000000000000102 02 0000000000000003
a field has no such value | 05 07070707070707070707070707070707 0000000000000102 0001 ff
a field has no such value | 02 07070707070707070707070707070707 0000000000000102 0000000000000000 0000000000000000 00000001 03 0000000000000003 0000000000000001
bytes stand behind the last field | 0a 07070707070707070707070707070707 0000000000000102 00"#;

/// The number of a hexadecimal digit.
fn number_of(digit: u8) -> u8 {
    if digit < b'a' {
        digit.wrapping_sub(b'0')
    } else {
        digit.wrapping_sub(b'a').wrapping_add(10)
    }
}

/// The bytes of two digits each, with spaces between the fields.
fn bytes_of(alloc: Global, fields: &str) -> Result<Vec<u8>, AllocError> {
    let mut bytes = Vec::new(alloc);
    let mut front = None;
    for digit in fields.as_bytes() {
        if *digit == b' ' {
            continue;
        }
        front = match front {
            None => Some(number_of(*digit).wrapping_mul(16)),
            Some(front) => {
                bytes.push(number_of(*digit).wrapping_add(front))?;
                None
            }
        };
    }
    Ok(bytes)
}

fn text_of(id: Option<&DocId>) -> &str {
    match id {
        Some(id) => id.as_str(),
        None => "-",
    }
}

const OTHER_SPELLING: &str = "it has another spelling";

fn op_is_spelled(alloc: Global, op: &Op, bytes: &[u8]) -> Result<bool, AllocError> {
    let mut made = Vec::new(alloc);
    ccr_op::encode(op, &mut made)?;
    Ok(made.as_slice() == bytes)
}

/// What an operation has, where these are the bytes of its one spelling.
fn of_op(alloc: Global, op: &Op, bytes: &[u8]) -> Result<String, AllocError> {
    if !op_is_spelled(alloc, op, bytes)? {
        return String::from_str(alloc, OTHER_SPELLING);
    }
    let (number, term, version) = (op.seq(), op.term(), op.version());
    let (id, routing) = (text_of(op.id()), text_of(op.routing()));
    format!(in alloc; "{number} {term} {version} {id} {routing}")
}

fn op_answer(alloc: Global, bytes: &[u8]) -> Result<String, AllocError> {
    match ccr_op::decode(alloc, bytes) {
        Ok((op, _)) => of_op(alloc, &op, bytes),
        Err(bad) => bad.to_string(alloc),
    }
}

/// How many operations a copy of those of a segment has.
fn of_segment(alloc: Global, segment: &Segment) -> Result<String, AllocError> {
    let ops = Batch::new(segment.all(alloc)?);
    ops.copy(alloc)?.as_slice().len().to_string(alloc)
}

fn segment_answer(alloc: Global, bytes: Vec<u8>) -> Result<String, AllocError> {
    match Segment::open(alloc, bytes) {
        Ok(segment) => of_segment(alloc, &segment),
        Err(bad) => bad.to_string(alloc),
    }
}

fn message_is_spelled(alloc: Global, message: &Message, bytes: &[u8]) -> Result<bool, AllocError> {
    let made = ccr_wire::encode(alloc, message)?;
    Ok(made.as_slice() == bytes)
}

/// What a message has, where these are the bytes of its one spelling.
fn of_message(alloc: Global, message: &Message, bytes: &[u8]) -> Result<String, AllocError> {
    if !message_is_spelled(alloc, message, bytes)? {
        return String::from_str(alloc, OTHER_SPELLING);
    }
    let (kind, request) = (message.content().kind().byte(), message.request());
    format!(in alloc; "{kind} {request}")
}

fn frame_answer(alloc: Global, bytes: &[u8]) -> Result<String, AllocError> {
    match ccr_wire::decode(alloc, bytes) {
        Ok(message) => of_message(alloc, &message, bytes),
        Err(bad) => bad.to_string(alloc),
    }
}

/// Whether the bytes of a line have the answer before the bar.
fn op_is_as_said(alloc: Global, line: &str) -> Result<bool, AllocError> {
    let (want, fields) = line.split_once(" | ").unwrap_or(("", ""));
    let bytes = bytes_of(alloc, fields)?;
    Ok(op_answer(alloc, &bytes)?.as_str() == want)
}

fn segment_is_as_said(alloc: Global, line: &str) -> Result<bool, AllocError> {
    let (want, fields) = line.split_once(" | ").unwrap_or(("", ""));
    let bytes = bytes_of(alloc, fields)?;
    Ok(segment_answer(alloc, bytes)?.as_str() == want)
}

fn frame_is_as_said(alloc: Global, line: &str) -> Result<bool, AllocError> {
    let (want, fields) = line.split_once(" | ").unwrap_or(("", ""));
    let bytes = bytes_of(alloc, fields)?;
    Ok(frame_answer(alloc, &bytes)?.as_str() == want)
}

#[test]
fn operations_have_the_stated_bytes(rt: HostRuntime) -> Result<(), Fail> {
    for line in OPS.lines() {
        assert!(rt; op_is_as_said(rt.alloc(), line)?, "{line}");
    }
    Ok(())
}

#[test]
fn segments_have_the_stated_bytes(rt: HostRuntime) -> Result<(), Fail> {
    for line in SEGMENTS.lines() {
        assert!(rt; segment_is_as_said(rt.alloc(), line)?, "{line}");
    }
    Ok(())
}

#[test]
fn frames_have_the_stated_bytes(rt: HostRuntime) -> Result<(), Fail> {
    for line in FRAMES.lines() {
        assert!(rt; frame_is_as_said(rt.alloc(), line)?, "{line}");
    }
    Ok(())
}

const PLAIN_OP: &str =
    "01 0000000000000000 0000000000000001 0000000000000001 0001 61 00000007 7b226e223a317d";

const PLAIN_FILE: &str =
    "43435253 01 00000001 01 0000000000000000 0000000000000001 0000000000000001 0001 61 00000007 7b226e223a317d";

const ROUTED_OP: &str = "05 0000000000000001 0000000000000002 0000000000000003 0001 61 0002 c3a9";

const ROUTED_FILE: &str =
    "43435253 02 00000001 05 0000000000000001 0000000000000002 0000000000000003 0001 61 0002 c3a9";

/// The segment of this operation alone.
fn file_of(alloc: Global, op: Op) -> Result<Vec<u8>, AllocError> {
    let mut ops = Vec::new(alloc);
    ops.push(op)?;
    ccr_segment::write(alloc, &ops)
}

/// The segment of the operation that has these bytes.
fn written(alloc: Global, fields: &str) -> Result<Vec<u8>, BadOp> {
    let (op, _) = ccr_op::decode(alloc, &bytes_of(alloc, fields)?)?;
    Ok(file_of(alloc, op)?)
}

#[test]
fn the_version_of_a_segment_says_whether_it_has_routings(rt: HostRuntime) -> Result<(), Fail> {
    assert_eq!(rt;
        written(rt.alloc(), PLAIN_OP)?,
        bytes_of(rt.alloc(), PLAIN_FILE)?
    );
    assert_eq!(rt;
        written(rt.alloc(), ROUTED_OP)?,
        bytes_of(rt.alloc(), ROUTED_FILE)?
    );
    Ok(())
}

fn is_at_its_place(alloc: Global, segment: &Segment) -> Result<bool, AllocError> {
    Ok(segment.nth(alloc, 0)?.is_some())
}

fn is_at_its_number(alloc: Global, segment: &Segment) -> Result<bool, AllocError> {
    Ok(segment.op_at(alloc, 5)?.is_some())
}

#[test]
fn an_operation_of_a_segment_is_found(rt: HostRuntime) -> Result<(), Fail> {
    let fields = "43435253 01 00000001 03 0000000000000005 0000000000000001";
    let segment = Segment::open(rt.alloc(), bytes_of(rt.alloc(), fields)?)?;
    assert!(rt; is_at_its_place(rt.alloc(), &segment)?);
    assert!(rt; is_at_its_number(rt.alloc(), &segment)?);
    Ok(())
}
