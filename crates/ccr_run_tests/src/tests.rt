use ccr_io::{MemSink, PureSource, Source};
use ccr_policy::{MergePolicy, Oldest};
use ccr_run::{Status, replay};
use std::alloc::{AllocError, Global};
use std::test::Fail;

const FIRST_PATH: &str = r#"{"op":"cluster","name":"a"}
{"op":"cluster","name":"b"}
{"op":"create","index":"a/l","settings":{"index.number_of_replicas":0}}
{"op":"follow","index":"b/f","leader":"a/l"}
{"op":"settle"}
{"op":"write","index":"a/l","id":"a","source":{"n":1}}
{"op":"wake","index":"b/f"}
{"op":"deliver","index":"b/f","at":0}
{"op":"apply","index":"b/f","write":0}
{"op":"written","index":"b/f","write":0}
{"op":"search","index":"b/f"}
"#;

const FIRST_PATH_ANSWERS: &str = r#"1 ok
2 ok
3 created
4 ok
5 settled
6 written shard=0 seq=0 term=1 version=1 result=created
7 ok
8 ok
9 applied new=1
10 ok
11 {"checkpoints":[0],"gaps":[false],"hits":[{"id":"a","source":{"n":1}}],"total":1}"#;

const DELETED: &str = r#"{"op":"cluster","name":"a"}
{"op":"cluster","name":"b"}
{"op":"create","index":"a/l","settings":{"index.number_of_replicas":0}}
{"op":"write","index":"a/l","id":"a","source":{"n":1}}
{"op":"delete","index":"a/l","id":"a"}
{"op":"flush","index":"a/l","copy":0}
{"op":"merge","index":"a/l","copy":0}
{"op":"follow","index":"b/f","leader":"a/l"}
{"op":"settle"}
{"op":"search","index":"b/f"}
{"op":"status","index":"b/f"}
"#;

const DELETED_ANSWERS: &str = r#"1 ok
2 ok
3 created
4 written shard=0 seq=0 term=1 version=1 result=created
5 written shard=0 seq=1 term=1 version=2 result=deleted
6 flushed commit=2
7 merged floor=2 dropped=2
8 ok
9 settled
10 {"checkpoints":[1],"gaps":[false],"hits":[],"total":0}
11 status shard=0 phase=active epoch=1 term=1 copies=*0:1:1:0:0 reads=1 buffer=0 writes=0"#;

// Each row has the words of the program, a bar, and the line that is written for a script of one command: none where
// the words are of no form. The numbers of the third sample were counted by drawing its changes by hand.
const WORDS: &str = r#"replay|1 ok
sample 7 0|writes=0 deletes=0 live=0 same=yes
sample 7 1|writes=1 deletes=0 live=1 same=yes
sample 5 12|writes=12 deletes=3 live=3 same=yes
sample 7 200001|
sample 1234567890 1|
sample 7|
sample x 1|
sample 7 1 1|
replay all|
play|
|"#;

const ONE_COMMAND: &str = r#"{"op":"cluster","name":"a"}"#;

// Whether the words, with this script, end so and write these lines, where a merge joins the eight oldest parts. `replay`
// reads the script to its end, and no other words read of it.
fn ends(
    alloc: Global,
    words: &str,
    script: &str,
    status: Status,
    lines: &str,
) -> Result<bool, AllocError> {
    let mut list = Vec::new(alloc);
    for word in words.split_whitespace() {
        list.push(String::from_str(alloc, word)?)?;
    }
    let mut source = PureSource::new(Vec::from_slice(alloc, script.as_bytes())?);
    let mut sink = MemSink::new(alloc, 1000, Vec::new(alloc));
    let mut policies: Vec<Box<dyn MergePolicy>> = Vec::new(alloc);
    policies.push(Box::new(alloc, Oldest::new(8))?)?;
    let report = replay(alloc, &list, &mut source, &mut sink, policies);
    let left = if words == "replay" { 0 } else { 1 };
    Ok(
        report.status == status
            && source.read(&mut [0]) == Ok(left)
            && are_lines(sink.bytes(), lines),
    )
}

fn are_lines(bytes: &[u8], lines: &str) -> bool {
    match bytes {
        [] => lines.is_empty(),
        [front @ .., b'\n'] => front == lines.as_bytes(),
        _ => false,
    }
}

fn row_holds(alloc: Global, row: &str) -> Result<bool, AllocError> {
    let Some((words, line)) = row.split_once('|') else {
        return Ok(false);
    };
    let status = if line.is_empty() {
        Status::Usage
    } else {
        Status::Done
    };
    ends(alloc, words, ONE_COMMAND, status, line)
}

#[test]
fn scripts_are_answered(rt: HostRuntime) -> Result<(), Fail> {
    let alloc = rt.alloc();
    assert!(rt;
        ends(
            alloc,
            "replay",
            FIRST_PATH,
            Status::Done,
            FIRST_PATH_ANSWERS
        )?
    );
    assert!(rt; ends(alloc, "replay", DELETED, Status::Done, DELETED_ANSWERS)?);
    Ok(())
}

#[test]
fn words_ask_for_a_form(rt: HostRuntime) -> Result<(), Fail> {
    for row in WORDS.lines() {
        assert!(rt; row_holds(rt.alloc(), row)?, "{row}");
    }
    Ok(())
}
