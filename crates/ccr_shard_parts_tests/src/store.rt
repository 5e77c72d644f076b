//! How parts are kept, merged and written out.
use crate::calls::{is_told, number, word};
use ccr_op::{Body, DocId, Op};
use ccr_policy::Picks;
use ccr_store::Store;
use std::alloc::{AllocError, Global};
use std::sync::ArcStr;

/// Each table is of a store of its own: a blank line ends it. An index operation takes 31 bytes besides its id of 2 and
/// its source of 2, and a segment 9 before its operations. Below the bound 3, the versions 0 and 2 of d0 are picked, and
/// the later one makes the earlier needless.
const TABLES: &str = r#"put 0 d0 | true
flush | true
put 1 d1 | true
flush | true
put 2 d0 | true
flush | true
put 3 d1 | true
flush | true
merge 0,2,2,9 3 4 | [0]
held | 3
find 0 | false
find 2 | true

put 0 d0 | true
flush | true
put 1 d1 | true
flush | true
put 2 d0 | true
flush | true
put 3 d1 | true
flush | true
merge 0,1,3 0 4 | []
roll_back 2 | 2
sizes | [PartSize { ops: 2, bytes: 79 }]
commit 1 | 44
next 1 | Some(1)
next 2 | None

put 0 d0 | true
put 1 d1 | true
flush | true
put 2 d0 | true
put 3 d1 | true
live_after - | Some(2)
live_after d0 | Some(3)
delete 4 d0 | true
live_after - | Some(3)
live_after d1 | None
live d0 | None
live d1 | Some(3)
put 4 d1 | false"#;

fn id(alloc: Global, text: &str) -> Option<DocId> {
    DocId::new(ArcStr::from_str(alloc, text).ok()?)
}

fn index(alloc: Global, seq: u64, text: &str) -> Option<Op> {
    let id = id(alloc, text)?;
    let body = Body::new(ArcStr::from_str(alloc, "{}").ok()?);
    Some(Op::index(seq, 1, 1, id, None, body))
}

fn delete(alloc: Global, seq: u64, text: &str) -> Option<Op> {
    let id = id(alloc, text)?;
    Some(Op::delete(seq, 1, 2, id, None))
}

/// Whether the number is new and the operation is taken.
fn puts(alloc: Global, store: &mut Store, op: Option<Op>) -> bool {
    let Some(op) = op else {
        return false;
    };
    if store.has(op.seq()) {
        return false;
    }
    store.put(alloc, op).is_ok()
}

fn number_of(found: Option<&Op>) -> Option<u64> {
    Some(found?.seq())
}

fn live(alloc: Global, store: &Store, text: &str) -> Option<u64> {
    let id = id(alloc, text)?;
    number_of(store.live(&id))
}

fn live_after(alloc: Global, store: &Store, text: &str) -> Option<u64> {
    if text == "-" {
        return number_of(store.live_after(None));
    }
    let id = id(alloc, text)?;
    number_of(store.live_after(Some(&id)))
}

/// Whether the calls that find an operation all find it.
fn is_found(alloc: Global, store: &Store, seq: u64) -> bool {
    match store.op_at(alloc, seq) {
        Ok(copy) => copy.is_some() && store.has(seq) && store.get(seq).is_some(),
        Err(_) => false,
    }
}

fn places(alloc: Global, words: &str) -> Result<Picks, AllocError> {
    let mut places = Vec::new(alloc);
    for word in words.split(',') {
        places.push(word.parse().unwrap_or(0))?;
    }
    Ok(Picks::of(places))
}

fn merges(alloc: Global, store: &mut Store, line: &str) -> bool {
    match places(alloc, word(line, 1)) {
        Ok(picks) => {
            let merged = store.merge(alloc, &picks, number(line, 2), number(line, 3));
            is_vec(alloc, merged, line)
        }
        Err(_) => false,
    }
}

fn is_vec(alloc: Global, outcome: Result<Vec<u64>, AllocError>, line: &str) -> bool {
    match outcome {
        Ok(list) => is_told(alloc, &list.as_slice(), line),
        Err(_) => false,
    }
}

fn sizes(alloc: Global, store: &Store, line: &str) -> bool {
    match store.sizes(alloc) {
        Ok(sizes) => is_told(alloc, &sizes.as_slice(), line),
        Err(_) => false,
    }
}

/// How many bytes the files have that a copy of the store is written out as.
fn bytes_at(alloc: Global, store: &Store, count: u64) -> Result<usize, AllocError> {
    let copy = store.copy(alloc)?;
    let files = copy.commit_at(alloc, count)?;
    Ok(
        files
            .as_slice()
            .iter()
            .map(|file| file.len())
            .fold(0, |sum, n| n.saturating_add(sum)),
    )
}

fn is_right(alloc: Global, store: &mut Store, line: &str) -> bool {
    let text = word(line, 1);
    let first = number(line, 1);
    match word(line, 0) {
        "put" => {
            let op = index(alloc, first, word(line, 2));
            is_told(alloc, &puts(alloc, store, op), line)
        }
        "delete" => {
            let op = delete(alloc, first, word(line, 2));
            is_told(alloc, &puts(alloc, store, op), line)
        }
        "flush" => is_told(alloc, &store.flush(alloc).is_ok(), line),
        "merge" => merges(alloc, store, line),
        "roll_back" => is_told(alloc, &store.roll_back(alloc, first).unwrap_or(99), line),
        "held" => is_told(alloc, &store.held(), line),
        "find" => is_told(alloc, &is_found(alloc, store, first), line),
        "sizes" => sizes(alloc, store, line),
        "commit" => is_told(alloc, &bytes_at(alloc, store, first).unwrap_or(0), line),
        "next" => is_told(alloc, &number_of(store.next_from(first)), line),
        "live" => is_told(alloc, &live(alloc, store, text), line),
        _ => is_told(alloc, &live_after(alloc, store, text), line),
    }
}

fn first_wrong(alloc: Global, tables: &'static str) -> &'static str {
    let mut store = Store::new(alloc);
    for line in tables.lines() {
        if line.is_empty() {
            store = Store::new(alloc);
        } else if !is_right(alloc, &mut store, line) {
            return line;
        }
    }
    ""
}

#[test]
fn parts_are_kept_and_merged(rt: HostRuntime) {
    assert_eq!(rt; first_wrong(rt.alloc(), TABLES), "");
}

#[test]
fn no_files_make_the_empty_store(rt: HostRuntime) {
    match Store::from_files(rt.alloc(), Vec::new(rt.alloc())) {
        Ok(store) => assert_eq!(rt; store.held(), 0),
        Err(_) => panic!(rt; "a store"),
    }
}
