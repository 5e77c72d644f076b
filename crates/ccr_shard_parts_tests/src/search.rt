//! What a shard finds, and what shards answer together.
use crate::calls::word;
use ccr_doc::parse;
use ccr_op::{Body, DocId, Op};
use ccr_query::{Hit, Query, Reads, ShardAnswer, SortKey};
use ccr_search::{join_answers, shard_search, text};
use ccr_store::Store;
use std::alloc::{AllocError, Global};
use std::sync::ArcStr;

/// Five documents, of which `b` was written twice and `e` deleted: each line is an id and a source, or an id alone.
const DOCUMENTS: &str = r#"d {"n":1,"l":[2],"t":true,"x":{"y":false}}
b {"n":2}
c {"n":"1","l":[4,3],"t":[false],"x.y":2}
a {"m":1,"o":{"p":[null,{"q":3},"Ab-cd"]},"x":{"y":null}}
b {"n":true,"l":[1,null,5],"t":0}
e {"n":7}
e"#;

/// A query, a sort, and the ids that are found, in their order. A name with dots reaches the members of inner objects
/// and of those in lists, and a member whose own name has dots. A null is no value. Ascending, the least of several
/// values counts, descending the greatest. Of values of several kinds a truth stands first and a text last, false
/// before true, and a document without one behind all, in either direction.
const SEARCHES: &str = r#"{"match_all":{}} [] abcd
{"match_all":{}} [{"n":"asc"}] bdca
{"match_all":{}} [{"n":"desc"}] cdba
{"match_all":{}} [{"m":"asc"},{"n":"desc"}] acdb
{"match_all":{}} [{"t":"asc"}] cdba
{"match_all":{}} [{"t":"desc"}] bdca
{"match_all":{}} [{"l":"asc"}] bdca
{"match_all":{}} [{"l":"desc"}] bcda
{"match_all":{}} [{"x.y":"asc"}] dcab
{"match_all":{}} [{"x.y":"desc"}] cdab
{"exists":{"field":"n"}} [] bcd
{"exists":{"field":"x.y"}} [] cd
{"exists":{"field":"o.p"}} [] a
{"term":{"n":2}} [] 
{"term":{"n":"1"}} [] c
{"term":{"o.p.q":3}} [] a
{"range":{"n":{"gte":1}}} [{"n":"asc"}] d
{"range":{"l":{"gt":4,"lte":5}}} [] b
{"range":{"x.y":{"lt":3}}} [] c
{"match":{"n":"1"}} [] c
{"match":{"o.p":"CD"}} [] a
{"prefix":{"n":"1"}} [] c
{"prefix":{"o.p":"A"}} [] a
{"prefix":{"o.p":"a"}} [] 
{"bool":{"must_not":[{"exists":{"field":"n"}}]}} [] a
{"bool":{"filter":[{"exists":{"field":"n"}}],"must_not":[{"term":{"n":1}}]}} [] bc
{"bool":{"must":[{"term":{"n":1}}],"should":[{"term":{"n":2}}]}} [] d
{"bool":{"should":[{"term":{"n":1}},{"term":{"n":true}}]}} [] bd"#;

/// Hits of the first shard, hits of the second, a sort, a page, and the answer. The first shard has nothing at all yet,
/// the second a count of 3 and a gap. Of one id in two shards the first shard's stands first. Descending, a text comes
/// before a number, and what has no value last; an id is written as a JSON string.
const ANSWERS: &str =
    r#"a={"n":1};c={"n":3} a@b={"n":2};b={"n":9} [] 0 10 {"checkpoints":[-1,2],"gaps":[false,true],"hits":[{"id":"a","source":{"n":1}},{"id":"a","routing":"b","source":{"n":2}},{"id":"b","source":{"n":9}},{"id":"c","source":{"n":3}}],"total":4}
a={"n":1};c={"n":3} a@b={"n":2};b={"n":9} [] 1 1 {"checkpoints":[-1,2],"gaps":[false,true],"hits":[{"id":"a","routing":"b","source":{"n":2}}],"total":4}
a={"n":1};c={"n":3} a@b={"n":2};b={"n":9} [] 4 18446744073709551615 {"checkpoints":[-1,2],"gaps":[false,true],"hits":[],"total":4}
z={"o":{"n":"x"}} b={"o":{"n":[1,5]}};a"={"o":null} [{"o.n":"desc"}] 0 3 {"checkpoints":[-1,2],"gaps":[false,true],"hits":[{"id":"z","source":{"o":{"n":"x"}}},{"id":"b","source":{"o":{"n":[1,5]}}},{"id":"a\"","source":{"o":null}}],"total":3}"#;

fn id(alloc: Global, text: &str) -> Option<DocId> {
    DocId::new(ArcStr::from_str(alloc, text).ok()?)
}

fn body(alloc: Global, text: &str) -> Option<Body> {
    Some(Body::new(ArcStr::from_str(alloc, text).ok()?))
}

/// The operation of a line of documents: an id and a source, or an id alone, which is deleted.
fn op(alloc: Global, seq: u64, line: &str) -> Option<Op> {
    let id = id(alloc, word(line, 0))?;
    if word(line, 1).is_empty() {
        return Some(Op::delete(seq, 1, 2, id, None));
    }
    index(alloc, seq, id, word(line, 1))
}

/// An index operation, whose source has from 2 to 524,288 bytes.
fn index(alloc: Global, seq: u64, id: DocId, source: &str) -> Option<Op> {
    if source.len() < 2 {
        return None;
    }
    if source.len() > 524_288 {
        return None;
    }
    let body = Body::new(ArcStr::from_str(alloc, source).ok()?);
    Some(Op::index(seq, 1, 1, id, None, body))
}

fn puts(alloc: Global, store: &mut Store, seq: u64, line: &str) -> bool {
    let Some(op) = op(alloc, seq, line) else {
        return false;
    };
    if store.has(op.seq()) {
        return false;
    }
    store.put(alloc, op).is_ok()
}

fn documents(alloc: Global, lines: &str) -> Option<Store> {
    let mut store = Store::new(alloc);
    for line in lines.lines() {
        let seq = store.held();
        if !puts(alloc, &mut store, seq, line) {
            return None;
        }
    }
    Some(store)
}

fn keys(alloc: Global, sort: &str) -> Option<Vec<SortKey>> {
    let sort = parse(alloc, sort.as_bytes()).ok()?;
    SortKey::list_from(alloc, &sort).ok()?
}

/// The ids of hits, one after another.
fn ids(alloc: Global, hits: &[Hit]) -> Result<String, AllocError> {
    let mut ids = String::new(alloc);
    for hit in hits {
        ids.push_str(hit.id.as_str())?;
    }
    Ok(ids)
}

fn is_answer(alloc: Global, answer: &ShardAnswer, want: &str) -> bool {
    match ids(alloc, answer.hits()) {
        Ok(ids) => ids.as_str() == want,
        Err(_) => false,
    }
}

/// Whether a search finds these ids, and judges each live document once.
fn finds(alloc: Global, store: &Store, query: &Query, keys: &[SortKey], want: &str) -> bool {
    let mut reads = Reads::new();
    match shard_search(alloc, store, 7, false, query, keys, &mut reads) {
        Ok(answer) => is_answer(alloc, &answer, want) && reads.count() == 4,
        Err(_) => false,
    }
}

fn is_found(alloc: Global, store: &Store, line: &str) -> bool {
    let Ok(query) = Query::read(alloc, word(line, 0).as_bytes()) else {
        return false;
    };
    match keys(alloc, word(line, 1)) {
        Some(keys) => finds(alloc, store, &query, keys.as_slice(), word(line, 2)),
        None => false,
    }
}

fn first_wrong(alloc: Global, lines: &'static str) -> Option<&'static str> {
    let store = documents(alloc, DOCUMENTS)?;
    for line in lines.lines() {
        if !is_found(alloc, &store, line) {
            return Some(line);
        }
    }
    Some("")
}

#[test]
fn a_shard_finds_its_live_documents_in_order(rt: HostRuntime) {
    assert_eq!(rt; first_wrong(rt.alloc(), SEARCHES), Some(""));
}

/// A hit of `ID=SOURCE` or `ID@ROUTING=SOURCE`.
fn hit(alloc: Global, text: &str) -> Option<Hit> {
    let (name, source) = text.split_once('=')?;
    let body = body(alloc, source)?;
    let (name, routing) = name.split_once('@').unwrap_or((name, ""));
    Some(Hit {
        id: id(alloc, name)?,
        routing: id(alloc, routing),
        body,
    })
}

fn hits(alloc: Global, list: &str) -> Option<Vec<Hit>> {
    let mut all = Vec::new(alloc);
    for text in list.split(';') {
        all.push(hit(alloc, text)?).ok()?;
    }
    Some(all)
}

/// What two shards answer together, as a text.
fn together(alloc: Global, line: &str) -> Option<String> {
    let parts = [
        ShardAnswer::new(0, false, hits(alloc, word(line, 0))?),
        ShardAnswer::new(3, true, hits(alloc, word(line, 1))?),
    ];
    let keys = keys(alloc, word(line, 2))?;
    let from = word(line, 3).parse().ok()?;
    let size = word(line, 4).parse().ok()?;
    let answer = join_answers(alloc, &parts, keys.as_slice(), from, size).ok()?;
    text(alloc, &answer).ok()
}

fn is_together(alloc: Global, line: &str) -> bool {
    match together(alloc, line) {
        Some(text) => text.as_str() == word(line, 5),
        None => false,
    }
}

#[test]
fn shards_answer_together(rt: HostRuntime) {
    for line in ANSWERS.lines() {
        assert!(rt; is_together(rt.alloc(), line), "{line}");
    }
}
