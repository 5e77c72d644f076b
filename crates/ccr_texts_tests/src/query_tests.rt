use ccr_doc::Doc;
use ccr_op::{Body, DocId, Name};
use ccr_query::{Hit, Query, Reads, ShardAnswer, SortKey, SortOrder};
use std::alloc::{AllocError, Global};
use std::cmp::Ordering;
use std::sync::ArcStr;
use std::test::Fail;

const DOCUMENT: &str = r#"{"n":[1,5],"o":{"t":"Red apple-pie"},"y":true,"z":null}"#;

/// In each line a query, and before a bar whether it holds on the document or why it is refused.
const QUERIES: &str = r#"true | {"match_all":{}}
true | {"term":{"n":5}}
true | {"term":{"y":true}}
true | {"range":{"n":{"gt":1}}}
true | {"range":{"n":{"gte":5,"lte":5}}}
true | {"range":{"o.t":{"gt":"Red","lt":"Ree"}}}
true | {"match":{"o.t":"x PIE!"}}
true | {"prefix":{"o.t":"Red a"}}
true | {"exists":{"field":"o.t"}}
true | {"bool":{}}
true | {"bool":{"must":[{"term":{"n":1}}],"should":[{"term":{"n":2}}]}}
true | {"bool":{"must_not":[{"bool":{"must_not":[{"term":{"n":1}}]}}]}}
false | {"term":{"n":"5"}}
false | {"term":{"y":1}}
false | {"term":{"o.t":"Red"}}
false | {"range":{"n":{"gt":5}}}
false | {"range":{"n":{"gt":1,"lt":5}}}
false | {"range":{"n":{"gte":""}}}
false | {"match":{"o.t":"app"}}
false | {"prefix":{"o.t":"apple"}}
false | {"exists":{"field":"z"}}
false | {"bool":{"must":[{"term":{"n":1}},{"term":{"n":2}}]}}
false | {"bool":{"filter":[],"should":[{"term":{"n":2}}]}}
false | {"bool":{"must_not":[{"term":{"n":1}}]}}
the query is no JSON in UTF-8 | {"match_all":{}
no clause of a query has this name | {"zzz":1.5}
no clause of a query has this name | {"bool":{"filter":[{"zzz":1}],"must":[1]}}
a value has not the form that its clause wants | 7
a value has not the form that its clause wants | {}
a value has not the form that its clause wants | {"term":{"f":1},"zzz":{}}
a value has not the form that its clause wants | {"match_all":{"f":1}}
a value has not the form that its clause wants | {"term":{"f":null}}
a value has not the form that its clause wants | {"term":{"f":1.0}}
a value has not the form that its clause wants | {"range":{"f":{}}}
a value has not the form that its clause wants | {"range":{"f":{"gte":1,"lt":"b"}}}
a value has not the form that its clause wants | {"range":{"f":{"gte":1,"to":2}}}
a value has not the form that its clause wants | {"range":{"f":{"gte":true}}}
a value has not the form that its clause wants | {"match":{"f":7}}
a value has not the form that its clause wants | {"prefix":{"f":true}}
a value has not the form that its clause wants | {"exists":{"f":"x"}}
a value has not the form that its clause wants | {"bool":{"must":{"match_all":{}}}}
a value has not the form that its clause wants | {"bool":{"must_not":[{"zzz":1}],"must":[1]}}"#;

/// Whether a copy of the query holds on the document.
fn holds(alloc: Global, query: &Query, document: &Doc) -> Result<bool, AllocError> {
    let mut reads = Reads::new();
    Ok(query.copy(alloc)?.holds(document, &mut reads))
}

fn answer(alloc: Global, query: &str, document: &Doc) -> Result<String, AllocError> {
    match Query::read(alloc, query.as_bytes()) {
        Ok(query) => holds(alloc, &query, document)?.to_string(alloc),
        Err(bad) => bad.to_string(alloc),
    }
}

/// Whether the query of a line has the answer before the bar.
fn is_as_said(alloc: Global, line: &str, document: &Doc) -> Result<bool, AllocError> {
    let (want, query) = line.split_once(" | ").unwrap_or(("", ""));
    Ok(answer(alloc, query, document)?.as_str() == want)
}

#[test]
fn a_query_has_its_meaning_or_its_first_refusal(rt: HostRuntime) -> Result<(), Fail> {
    let document = Doc::read(rt.alloc(), DOCUMENT.as_bytes())?;
    for line in QUERIES.lines() {
        assert!(rt; is_as_said(rt.alloc(), line, &document)?, "{line}");
    }
    Ok(())
}

/// A query with so many lists inside one another, and nothing in the innermost.
fn nested(alloc: Global, levels: usize) -> Result<String, AllocError> {
    let front = r#"{"bool":{"must":["#.repeat(alloc, levels)?;
    let back = "]}}".repeat(alloc, levels)?;
    let (front, back) = (front.as_str(), back.as_str());
    format!(in alloc; "{front}{back}")
}

fn nested_answer(alloc: Global, levels: usize, document: &Doc) -> Result<String, AllocError> {
    answer(alloc, nested(alloc, levels)?.as_str(), document)
}

#[test]
fn lists_stand_inside_one_another_to_a_depth_of_32(rt: HostRuntime) -> Result<(), Fail> {
    let document = Doc::read(rt.alloc(), b"{}")?;
    assert_eq!(rt; nested_answer(rt.alloc(), 32, &document)?.as_str(), "true");
    assert_eq!(rt;
        nested_answer(rt.alloc(), 33, &document)?.as_str(),
        "more than 32 lists of queries stand inside one another"
    );
    Ok(())
}

/// In each line which of two documents comes first by a field `k` in ascending order, and these documents.
const ASCENDING: &str = r#"left {"k":[1,9]} {"k":3}
left {"k":3} {"z":1}
left {"k":false} {"k":true}
left {"k":true} {"k":-3}
left {"k":-3} {"k":10}
left {"k":10} {"k":"10"}
left {"k":"10"} {"k":"9"}
none {"z":1} {"k":null}"#;

/// The same in descending order.
const DESCENDING: &str = r#"left {"k":[1,9]} {"k":3}
left {"k":3} {"z":1}
right {"k":3} {"k":"x"}
none {"z":1} {"k":null}"#;

fn word(order: Ordering) -> &'static str {
    match order {
        Ordering::Less => "left",
        Ordering::Equal => "none",
        Ordering::Greater => "right",
    }
}

/// The copy of a key by the field `k`.
fn key(alloc: Global, order: SortOrder) -> Result<SortKey, AllocError> {
    let field = Name::new(ArcStr::from_str(alloc, "k")?);
    SortKey { field, order }.copy(alloc)
}

/// Which of two documents comes first by the key.
fn first_by(alloc: Global, key: &SortKey, left: &str, right: &str) -> Result<&'static str, Fail> {
    let left = Doc::read(alloc, left.as_bytes())?;
    let right = Doc::read(alloc, right.as_bytes())?;
    Ok(word(key.compare(&left, &right)))
}

/// Whether the document that is named in a line comes first of the two in it.
fn is_ordered(alloc: Global, key: &SortKey, line: &str) -> Result<bool, Fail> {
    let (want, documents) = line.split_once(' ').unwrap_or(("", ""));
    let (left, right) = documents.split_once(' ').unwrap_or(("", ""));
    Ok(first_by(alloc, key, left, right)? == want)
}

#[test]
fn in_ascending_order_the_least_value_counts(rt: HostRuntime) -> Result<(), Fail> {
    let key = key(rt.alloc(), SortOrder::Asc)?;
    for line in ASCENDING.lines() {
        assert!(rt; is_ordered(rt.alloc(), &key, line)?, "{line}");
    }
    Ok(())
}

#[test]
fn in_descending_order_the_greatest_value_counts(rt: HostRuntime) -> Result<(), Fail> {
    let key = key(rt.alloc(), SortOrder::Desc)?;
    for line in DESCENDING.lines() {
        assert!(rt; is_ordered(rt.alloc(), &key, line)?, "{line}");
    }
    Ok(())
}

fn id(alloc: Global) -> Result<DocId, Fail> {
    Ok(DocId::new(ArcStr::from_str(alloc, "a")?).ok_or("an id")?)
}

fn hit(alloc: Global) -> Result<Hit, Fail> {
    let id = id(alloc)?;
    let routing = None;
    let body = Body::new(ArcStr::from_str(alloc, "{}")?);
    Ok(Hit { id, routing, body })
}

/// The answer of this hit alone.
fn answer_of(alloc: Global, hit: Hit) -> Result<ShardAnswer, AllocError> {
    let mut hits = Vec::new(alloc);
    hits.push(hit)?;
    Ok(ShardAnswer::new(3, true, hits))
}

#[test]
fn an_answer_is_copied(rt: HostRuntime) -> Result<(), Fail> {
    let answer = answer_of(rt.alloc(), hit(rt.alloc())?)?;
    assert_eq!(rt; answer.copy(rt.alloc())?.hits().len(), 1);
    Ok(())
}
