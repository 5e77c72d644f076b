use ccr_op::{Body, DocId, IndexName, LeaseId, Name, Op};
use std::alloc::{AllocError, Global};
use std::sync::ArcStr;
use std::test::Fail;

fn send<T: Send + Sync + Drop>() {}

#[test]
fn operations_and_names_go_to_threads(_rt: HostRuntime) {
    send::<Op>();
    send::<LeaseId>();
    send::<IndexName>();
}

/// Whether a copy is one more owner of the one text, which the value and the caller own besides.
fn shares_a_body(alloc: Global, text: &ArcStr, body: &Body) -> Result<bool, AllocError> {
    let _copy = body.copy(alloc)?;
    Ok(ArcStr::strong_count(text) == 3)
}

fn shares_an_id(alloc: Global, text: &ArcStr, id: &DocId) -> Result<bool, AllocError> {
    let _copy = id.copy(alloc)?;
    Ok(ArcStr::strong_count(text) == 3)
}

#[test]
fn a_copied_source_is_shared(rt: HostRuntime) -> Result<(), Fail> {
    let text = ArcStr::from_str(rt.alloc(), "{}")?;
    let body = Body::new(text.clone()?);
    assert!(rt; shares_a_body(rt.alloc(), &text, &body)?);
    Ok(())
}

#[test]
fn a_copied_id_is_shared(rt: HostRuntime) -> Result<(), Fail> {
    let text = ArcStr::from_str(rt.alloc(), "a")?;
    let id = DocId::new(text.clone()?).ok_or("an id")?;
    assert!(rt; shares_an_id(rt.alloc(), &text, &id)?);
    Ok(())
}

/// The copy of a name of an index.
fn named(alloc: Global, cluster: &str, index: &str) -> Result<IndexName, AllocError> {
    let cluster = Name::new(ArcStr::from_str(alloc, cluster)?);
    let index = Name::new(ArcStr::from_str(alloc, index)?);
    IndexName { cluster, index }.copy(alloc)
}

/// Whether the index `b` of the cluster `a` comes before this one.
fn is_before(alloc: Global, cluster: &str, index: &str) -> Result<bool, AllocError> {
    let first = named(alloc, "a", "b")?;
    let other = named(alloc, cluster, index)?;
    Ok(first < other)
}

#[test]
fn names_of_indexes_are_ordered_by_the_cluster_first(rt: HostRuntime) -> Result<(), Fail> {
    assert!(rt; is_before(rt.alloc(), "a", "c")?);
    assert!(rt; is_before(rt.alloc(), "aa", "a")?);
    Ok(())
}
