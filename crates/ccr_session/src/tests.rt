use crate::{SessionFault, Sessions};
use std::test::Fail;

#[test]
fn a_follower_fetches_a_file_part_by_part(rt: HostRuntime) -> Result<(), Fail> {
    let alloc = rt.alloc();
    let mut files = Vec::new(alloc);
    files.push(Vec::from_slice(alloc, b"abcde")?)?;
    let mut sessions = Sessions::new(alloc);
    let session = sessions.begin(files, 3, 100)?;
    assert_eq!(rt; sessions.file_size(session, 0), Some(5));
    assert!(rt; sessions.chunk(session, 0, 1, 3, 200)?.as_slice() == b"bcd".as_slice());
    assert!(rt; sessions.chunk(session, 0, 4, 3, 200)?.as_slice() == b"e".as_slice());
    assert_eq!(rt;
        sessions.chunk(session, 0, 5, 3, 200).err(),
        Some(SessionFault::Range)
    );
    Ok(())
}

#[test]
fn a_session_is_closed_after_a_minute_and_its_number_stays_given(
    rt: HostRuntime,
) -> Result<(), Fail> {
    let alloc = rt.alloc();
    let mut sessions = Sessions::new(alloc);
    assert_eq!(rt; sessions.begin(Vec::new(alloc), 0, 100)?, 0);
    assert_eq!(rt; sessions.expire(60_100), 0);
    assert!(rt; sessions.is_open(0));
    assert_eq!(rt; sessions.expire(60_101), 1);
    sessions.end_all();
    assert_eq!(rt; sessions.begin(Vec::new(alloc), 0, 0)?, 1);
    Ok(())
}
