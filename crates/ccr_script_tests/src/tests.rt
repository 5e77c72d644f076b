use ccr_script::{BadLine, generate, read_command};
use std::alloc::Global;
use std::fmt::{Debug, Display};

/// Each line has what a line of a script is read as, a bar, and the line.
const LINES: &str = r#"None|
None|   
the line isn't JSON|hello
the line isn't JSON|{"op":"settle"} {"op":"settle"}
the line isn't JSON|{"op":"deliver","index":"b/f","at":01}
the line isn't JSON|{"op":"clock","cluster":"a","now":NaN}
the line isn't JSON|{"op":"clock","cluster":"a","now":1e400}
the line names no command|{"op":5,"name":"c"}
the line names no command|"settle"
the line names no command|[]
the line names no command|{"op":"nothing"}
the line names no command|{"op":"Settle"}
a field is absent, unlisted, or not of its kind|{"op":"cluster"}
a field is absent, unlisted, or not of its kind|{"op":"cluster","name":5}
a field is absent, unlisted, or not of its kind|{"op":"settle","index":"a/l"}
a field is absent, unlisted, or not of its kind|{"op":"drop","index":"a/l","at":0,"copy":1}
a field is absent, unlisted, or not of its kind|{"op":"create","index":"a/l","shards":1}
a field is absent, unlisted, or not of its kind|{"op":"create","index":"a/l","settings":[]}
a field is absent, unlisted, or not of its kind|{"op":"create","index":"a/L"}
a field is absent, unlisted, or not of its kind|{"op":"create","index":"al"}
a field is absent, unlisted, or not of its kind|{"op":"create","index":"a/"}
a field is absent, unlisted, or not of its kind|{"op":"create","index":"a/l/m"}
a field is absent, unlisted, or not of its kind|{"op":"create","index":"a/-l"}
a field is absent, unlisted, or not of its kind|{"op":"follow","index":"b/f","leader":"a/l","params":"x"}
a field is absent, unlisted, or not of its kind|{"op":"deliver","index":"a/l","at":-1}
a field is absent, unlisted, or not of its kind|{"op":"deliver","index":"a/l","at":"0"}
a field is absent, unlisted, or not of its kind|{"op":"deliver","index":"a/l","at":1.0}
a field is absent, unlisted, or not of its kind|{"op":"deliver","index":"a/l","at":9007199254740992}
a field is absent, unlisted, or not of its kind|{"op":"deliver","index":"a/l","at":0,"keep":1}
a field is absent, unlisted, or not of its kind|{"op":"ack","index":"a/l","copy":true}
a field is absent, unlisted, or not of its kind|{"op":"write","index":"a/l","id":"","source":{}}
a field is absent, unlisted, or not of its kind|{"op":"write","index":"a/l","id":"a"}
a field is absent, unlisted, or not of its kind|{"op":"write","index":"a/l","id":"a","source":{},"if_seq_no":0}
a field is absent, unlisted, or not of its kind|{"op":"write","index":"a/l","id":"a","source":{},"create":false,"if_seq_no":0,"if_primary_term":1}
a field is absent, unlisted, or not of its kind|{"op":"write","index":"a/l","id":"a","source":{},"routing":""}
a field is absent, unlisted, or not of its kind|{"op":"auto_put","cluster":"b","name":"P","remote":"a","patterns":["*"],"follow":"x"}
a field is absent, unlisted, or not of its kind|{"op":"auto_put","cluster":"b","name":"p","remote":"A","patterns":["*"],"follow":"x"}
a field is absent, unlisted, or not of its kind|{"op":"auto_put","cluster":"b","name":"p","remote":"a","patterns":[1],"follow":"x"}
a field is absent, unlisted, or not of its kind|{"op":"search","index":"a/l","from":1,"size":10000}
a field is absent, unlisted, or not of its kind|{"op":"search","index":"a/l","sort":[{"n":"up"}]}
a field is absent, unlisted, or not of its kind|{"op":"search","index":"a/l","sort":{"n":"asc"}}
a field is absent, unlisted, or not of its kind|{"op":"search","index":"a/l","query":{}}
a field is absent, unlisted, or not of its kind|{"op":"search","index":"a/l","query":{"match":{"n":1}}}
Some(Settle)|{"op":"settle"}
Some(Deliver { index: IndexName { cluster: Name { text: "a" }, index: Name { text: "l" } }, shard: 0, at: 0, copy: None, keep: false })|{"op":"deliver","index":"a/l","at":0}
Some(Deliver { index: IndexName { cluster: Name { text: "a" }, index: Name { text: "l" } }, shard: 1, at: 9007199254740991, copy: Some(2), keep: true })|{"op":"deliver","index":"a/l","shard":1,"at":9007199254740991,"copy":2,"keep":true}
Some(Wake { index: IndexName { cluster: Name { text: ".-_" }, index: Name { text: "0" } }, shard: 0, at: 0 })|{"op":"wake","index":".-_/0"}
Some(Apply { index: IndexName { cluster: Name { text: "b" }, index: Name { text: "f" } }, shard: 0, write: 3, epoch: None })|{"op":"apply","index":"b/f","write":3}
Some(ForcePromote { index: IndexName { cluster: Name { text: "a" }, index: Name { text: "l" } }, shard: 0, copy: 1 })|{"op":"force_promote","index":"a/l","copy":1}
Some(Ack { index: IndexName { cluster: Name { text: "a" }, index: Name { text: "l" } }, shard: 0, copy: 1 })|{"copy":0,"copy":1,"op":"ack","index":"a/l"}
Some(Write { index: IndexName { cluster: Name { text: "a" }, index: Name { text: "l" } }, id: DocId { text: "a" }, source: Body { text: "{\"a\":[],\"n\":1}" }, create: false, expect: None, routing: None })|{"op":"write","index":"a/l","id":"a","source":{"n":1, "a":[]}}
Some(Delete { index: IndexName { cluster: Name { text: "a" }, index: Name { text: "l" } }, id: DocId { text: "a" }, expect: Some((0, 1)), routing: Some(DocId { text: "r" }) })|{"op":"delete","index":"a/l","id":"a","if_seq_no":0,"if_primary_term":1,"routing":"r"}
Some(AutoPut { cluster: Name { text: "b" }, name: Name { text: "p" }, remote: Name { text: "a" }, patterns: Names { names: [Name { text: "x" }, Name { text: "y" }] }, exclude: Names { names: [] }, follow: Name { text: "F" } })|{"op":"auto_put","cluster":"b","name":"p","remote":"a","patterns":["x","y"],"follow":"F"}
Some(Write { index: IndexName { cluster: Name { text: "a" }, index: Name { text: "l" } }, id: DocId { text: "a" }, source: Body { text: "{}" }, create: true, expect: None, routing: Some(DocId { text: "r" }) })|{"op":"write","index":"a/l","id":"a","source":{},"create":true,"routing":"r"}
Some(AutoPut { cluster: Name { text: "b" }, name: Name { text: "p" }, remote: Name { text: "a" }, patterns: Names { names: [] }, exclude: Names { names: [Name { text: "z*" }] }, follow: Name { text: "F" } })|{"op":"auto_put","cluster":"b","name":"p","remote":"a","patterns":[],"exclude":["z*"],"follow":"F"}
Some(Follow { index: IndexName { cluster: Name { text: "b" }, index: Name { text: "f" } }, leader: IndexName { cluster: Name { text: "a" }, index: Name { text: "l" } }, settings: Settings { shards: None, replicas: Some(2), soft_deletes: None, retention: None, period: None, bad: false }, params: Params { values: ParamValues { max_read_request_operation_count: 5120, max_read_request_size: 2048, max_outstanding_read_requests: 12, max_write_request_operation_count: 7, max_write_request_size: 9223372036854775807, max_outstanding_write_requests: 9, max_write_buffer_count: 2147483647, max_write_buffer_size: 3221225472, max_retry_delay: 120000, read_poll_timeout: 60000, chunk_size: 1048576 } } })|{"op":"follow","index":"b/f","leader":"a/l","settings":{"index.number_of_replicas":2},"params":{"max_read_request_size":"2kb","max_write_request_operation_count":7,"max_write_buffer_size":"3gb","max_retry_delay":"2m","chunk_size":"1mb"}}
Some(Create { index: IndexName { cluster: Name { text: "a" }, index: Name { text: "l" } }, settings: Settings { shards: None, replicas: None, soft_deletes: None, retention: None, period: None, bad: false } })|{"op":"create","index":"a/l"}
Some(Create { index: IndexName { cluster: Name { text: "a" }, index: Name { text: "l" } }, settings: Settings { shards: None, replicas: None, soft_deletes: None, retention: Some(9007199254740991), period: None, bad: false } })|{"op":"create","index":"a/l","settings":{"index.soft_deletes.retention.operations":9007199254740991}}
Some(Create { index: IndexName { cluster: Name { text: "a" }, index: Name { text: "l" } }, settings: Settings { shards: None, replicas: None, soft_deletes: None, retention: None, period: None, bad: true } })|{"op":"create","index":"a/l","settings":{"index.soft_deletes.retention.operations":9007199254740992}}"#;

/// The settings of a create, a bar, and what they are read as, in part.
const SETTINGS: &str = r#"{}|period: None, bad: false
{"index.number_of_replicas":7}|replicas: Some(7), soft_deletes: None, retention: None, period: None, bad: false
{"index.number_of_replicas":8}|period: None, bad: true
{"index.number_of_replicas":-1}|period: None, bad: true
{"index.number_of_replicas":"1"}|period: None, bad: true
{"index.number_of_replicas":1.5}|period: None, bad: true
{"index.number_of_replicas":null}|period: None, bad: true
{"index.number_of_shards":0}|period: None, bad: true
{"index.number_of_shards":17}|period: None, bad: true
{"index.soft_deletes.enabled":"true"}|period: None, bad: true
{"index.soft_deletes.retention_lease.period":0}|period: None, bad: true
{"index.soft_deletes.retention_lease.period":"0ms"}|period: None, bad: true
{"index.soft_deletes.retention_lease.period":"007ms"}|period: Some(7), bad: false
{"index.soft_deletes.retention_lease.period":"5s"}|period: Some(5000), bad: false
{"index.soft_deletes.retention_lease.period":"5m"}|period: Some(300000), bad: false
{"index.soft_deletes.retention_lease.period":"2h"}|period: Some(7200000), bad: false
{"index.soft_deletes.retention_lease.period":"104249991d"}|period: Some(9007199222400000), bad: false
{"index.soft_deletes.retention_lease.period":"104249992d"}|period: None, bad: true
{"index.soft_deletes.retention_lease.period":"99999999999999999999d"}|period: None, bad: true
{"index.soft_deletes.retention_lease.period":"9007199254740991ms"}|period: Some(9007199254740991), bad: false
{"index.soft_deletes.retention_lease.period":"5"}|period: None, bad: true
{"index.soft_deletes.retention_lease.period":"5S"}|period: None, bad: true
{"index.soft_deletes.retention_lease.period":"5 s"}|period: None, bad: true
{"index.soft_deletes.retention_lease.period":"5kb"}|period: None, bad: true
{"index.soft_deletes.retention_lease.period":"-5ms"}|period: None, bad: true
{"index.soft_deletes.retention_lease.period":"1.5h"}|period: None, bad: true
{"index.soft_deletes.retention_lease.period":"ms"}|period: None, bad: true
{"index.soft_deletes.retention_lease.period":""}|period: None, bad: true
{"index.number_of_replicas":0,"x":1}|replicas: Some(0), soft_deletes: None, retention: None, period: None, bad: true
{"max_retry_delay":5}|period: None, bad: true"#;

/// How an outcome is printed: what was made for debugging, or the fault.
fn text_of<T: Debug + Drop, E: Display + Drop>(
    alloc: Global,
    outcome: Result<T, E>,
) -> Option<String> {
    match outcome {
        Ok(made) => format!(in alloc; "{made:?}").ok(),
        Err(fault) => format!(in alloc; "{fault}").ok(),
    }
}

/// The command of a line, or why it has none.
fn told(alloc: Global, line: &[u8]) -> Option<String> {
    text_of(alloc, read_command(alloc, line))
}

fn is_read(alloc: Global, line: &[u8], want: &str) -> bool {
    match told(alloc, line) {
        Some(text) => text.as_str() == want,
        None => false,
    }
}

fn is_right(alloc: Global, case: &str) -> bool {
    match case.split_once('|') {
        Some((want, line)) => is_read(alloc, line.as_bytes(), want),
        None => false,
    }
}

fn has_part(text: Option<String>, want: &str) -> bool {
    match text {
        Some(text) => text.as_str().contains(want),
        None => false,
    }
}

/// Whether what is read of a create with these settings has the text behind the bar.
fn has_settings(alloc: Global, case: &str) -> bool {
    let Some((settings, want)) = case.split_once('|') else {
        return false;
    };
    match format!(in alloc; "{{\"op\":\"create\",\"index\":\"a/l\",\"settings\":{settings}}}") {
        Ok(line) => has_part(told(alloc, line.as_str().as_bytes()), want),
        Err(_) => false,
    }
}

/// The first line that is read as something else, empty where there is none.
fn first_misread(alloc: Global, lines: &'static str) -> &'static str {
    for line in lines.lines() {
        if !is_right(alloc, line) {
            return line;
        }
    }
    ""
}

/// The first settings that are read as something else, empty where there are none.
fn first_unset(alloc: Global, lines: &'static str) -> &'static str {
    for line in lines.lines() {
        if !has_settings(alloc, line) {
            return line;
        }
    }
    ""
}

#[test]
fn lines_are_read(rt: HostRuntime) {
    assert_eq!(rt; first_misread(rt.alloc(), LINES), "");
}

#[test]
fn settings_are_read(rt: HostRuntime) {
    assert_eq!(rt; first_unset(rt.alloc(), SETTINGS), "");
}

#[test]
fn bytes_that_are_no_text_are_no_json(rt: HostRuntime) {
    let alloc = rt.alloc();
    assert!(rt; is_read(alloc, b"\t", "None"));
    assert!(rt; is_read(alloc, b"\r", "the line isn't JSON"));
    assert!(rt; is_read(alloc, b"{\"op\":\"\xff\"}", "the line isn't JSON"));
}

fn is_printed(alloc: Global, fault: &impl Display, want: &str) -> bool {
    match format!(in alloc; "{fault}") {
        Ok(text) => text.as_str() == want,
        Err(_) => false,
    }
}

#[test]
fn faults_beyond_one_line_are_printed(rt: HostRuntime) {
    let alloc = rt.alloc();
    assert!(rt; is_printed(alloc, &BadLine::TooLong, "the line is too long"));
    assert!(rt; is_printed(alloc, &BadLine::TooMany, "the script has too many lines"));
    assert!(rt; is_printed(alloc, &BadLine::Memory, "out of memory"));
}

/// A part of the script that the seed 7 makes with one write.
const SCRIPT: &str =
    r#"AddCopy { index: IndexName { cluster: Name { text: "a" }, index: Name { text: "l" } }, shard: 0 }, Write { index: IndexName { cluster: Name { text: "a" }, index: Name { text: "l" } }, id: DocId { text: "d0" }, source: Body { text: "{\"n\":0,\"t\":\"w6\"}" }, create: false, expect: None, routing: None }, Settle, "#;

#[test]
fn a_seed_makes_a_script(rt: HostRuntime) {
    let text = text_of(rt.alloc(), generate(rt.alloc(), 7, 1));
    assert!(rt; has_part(text, SCRIPT));
}
