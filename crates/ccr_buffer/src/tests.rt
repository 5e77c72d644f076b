use crate::Buffer;
use ccr_op::Op;
use std::alloc::{AllocError, Global};
use std::test::Fail;

// No-ops of these numbers, of one digit each. One takes 17 bytes: its kind, its number and its term.
fn ops(alloc: Global, digits: &str) -> Result<Vec<Op>, AllocError> {
    let mut ops = Vec::new(alloc);
    for digit in digits.bytes() {
        ops.push(Op::no_op(u64::from(digit.saturating_sub(b'0')), 1))?;
    }
    Ok(ops)
}

// Whether the operations have these numbers.
fn are(ops: &[Op], digits: &str) -> bool {
    let digits = digits.as_bytes();
    if ops.len() != digits.len() {
        return false;
    }
    for (i, op) in ops.iter().enumerate() {
        if op.seq() != u64::from(digits[i].saturating_sub(b'0')) {
            return false;
        }
    }
    true
}

// Whether a buffer of these operations gives this batch, and keeps so many.
fn gives(
    alloc: Global,
    digits: &str,
    max_ops: u64,
    max_bytes: u64,
    batch: &str,
    left: u64,
) -> Result<bool, AllocError> {
    let mut buffer = Buffer::new(alloc);
    buffer.add_all(ops(alloc, digits)?)?;
    let taken = buffer.take_batch(alloc, max_ops, max_bytes)?;
    let counted = buffer.count() == left && buffer.bytes() / 17 == left;
    Ok(counted && are(taken.as_slice(), batch))
}

#[test]
fn a_batch_has_the_least_numbers_within_both_bounds(rt: HostRuntime) -> Result<(), Fail> {
    let alloc = rt.alloc();
    assert!(rt; gives(alloc, "", 1, 1000, "", 0)?);
    assert!(rt; gives(alloc, "31", 1, 1000, "1", 1)?);
    assert!(rt; gives(alloc, "2143", 3, 1000, "123", 1)?);
    assert!(rt; gives(alloc, "123", 9, 34, "12", 1)?);
    assert!(rt; gives(alloc, "123", 9, 33, "1", 2)?);
    assert!(rt; gives(alloc, "123", 9, 16, "1", 2)?);
    assert!(rt; gives(alloc, "123", 0, 1000, "1", 2)?);
    assert!(rt; gives(alloc, "2212", 3, 1000, "122", 1)?);
    Ok(())
}

#[test]
fn a_cleared_buffer_is_empty(rt: HostRuntime) -> Result<(), Fail> {
    let alloc = rt.alloc();
    let mut buffer = Buffer::new(alloc);
    buffer.add_all(ops(alloc, "12")?)?;
    assert_eq!(rt; buffer.bytes(), 34);
    buffer.clear();
    assert_eq!(rt; buffer.count(), 0);
    assert_eq!(rt; buffer.bytes(), 0);
    Ok(())
}
