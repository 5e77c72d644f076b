// How queries are read.
ghost use Rattle.std.specs.Prelude.{◌≡◌, ◌≢◌, ◌≤◌, Some, None, Ok, Err, IfOk, IfErr, option_map};
ghost use Rattle.serde_json.specs.Events.{members_len};
ghost use Rattle.serde_json.specs.View.{view, items_view, members_view};
ghost use Rattle.ccr_query.specs.declared.reading.BadQuery.TheVariants.{Memory};
ghost use Rattle.ccr_query.specs.declared.conditions.Condition.TheVariants.{Match, Prefix};
ghost use Rattle.ccr_query.specs.Reading.{scalar_of, only as only_of, match_all_of, term_of, text_of, exists_of, bounds_of, range_of, bound_of, condition_of, or_bad_value as or_bad_value_of, are_bounds as are_bounds_of, are_texts as are_texts_of, are_numbers as are_numbers_of, members_in as members_in_of, is_text_bound as is_text_bound_of, is_number_bound as is_number_bound_of, given as given_of};
ghost use Rattle.ccr_query.specs.Bools.{no_lists, is_list_name as is_list_name_of, with_list, query_of, bool_of, lists_of, list_of, queries_of, query_from};
ghost use Rattle.ccr_query.specs.Queries.{trees_of};
ghost use Rattle.ccr_query.specs.Listed.{lists_in};

use crate::conditions::Condition;
use crate::queries::{Node, Query};
use ccr_doc::{BadSource, Scalar, parse};
use ccr_op::Name;
use serde_json::{Map, Value};
use std::alloc::{AllocError, AllocFailed, Global};
use std::sync::ArcStr;
use thiserror::Error;

/// How many lists of queries may stand inside one another.
const MOST_LEVELS: u64 = 32;

/// Why a text is no query: its first cause, where values are read from the front and the members of an
/// object in ascending order of their names.
#[derive(Clone, Copy, Debug, PartialEq, Eq, Error)]
pub enum BadQuery {
    #[error("no clause of a query has this name")]
    UnknownClause,
    #[error("a value has not the form that its clause wants")]
    BadValue,
    #[error("more than 32 lists of queries stand inside one another")]
    Depth,
    #[error("the query is no JSON in UTF-8")]
    NotJson,
    /// This says nothing of the query.
    #[error("out of memory")]
    Memory,
}

impl From<AllocError> for BadQuery {
    ghost from_gives = { λ _ e. e ≡ Memory };

    fn from(_error: AllocError) -> BadQuery {
        BadQuery::Memory
    }
}

impl<T: Drop> From<AllocFailed<T>> for BadQuery {
    ghost from_gives = { λ _ e. e ≡ Memory };

    fn from(_error: AllocFailed<T>) -> BadQuery {
        BadQuery::Memory
    }
}

pub(crate) fn only(value: &Value) -> Option<(&str, &Value)>
    ensures { option_map (λ p. (p.0.now, view p.1.now)) result ≡ only_of (view value.now) }
{
    let mut members = value.as_object()?.iter();
    let (name, member) = members.next()?;
    if members.next().is_some() {
        return None;
    }
    Some((name.as_str(), member))
}

fn read_scalar(alloc: Global, value: &Value) -> Result<Option<Scalar>, AllocError>
    ensures { IfOk result (λ scalar. scalar ≡ scalar_of (view value.now)) }
{
    match value {
        Value::Bool(truth) => Ok(Some(Scalar::Truth(*truth))),
        Value::Number(number) => Ok(number.as_i64().map(Scalar::Number)),
        Value::String(text) => {
            let text = Name::new(ArcStr::from_str(alloc, text.as_str())?);
            Ok(Some(Scalar::Text(text)))
        }
        _ => Ok(None),
    }
}

// A condition of a value that none need be.
type Found = Result<Option<Condition>, AllocError>;

fn read_match_all(value: &Value) -> Option<Condition>
    ensures { result ≡ match_all_of (view value.now) }
{
    let members = value.as_object()?;
    if member_count(members) == 0 {
        return Some(Condition::MatchAll);
    }
    None
}

fn read_term(alloc: Global, value: &Value) -> Found
    ensures { IfOk result (λ found. found ≡ term_of (only_of (view value.now))) }
{
    let Some((field, value)) = only(value) else {
        return Ok(None);
    };
    let Some(value) = read_scalar(alloc, value)? else {
        return Ok(None);
    };
    let field = Name::new(ArcStr::from_str(alloc, field)?);
    Ok(Some(Condition::Term { field, value }))
}

fn read_match(alloc: Global, value: &Value) -> Found
    ensures { IfOk result (λ found. found ≡ text_of Match (only_of (view value.now))) }
{
    let Some((field, value)) = only(value) else {
        return Ok(None);
    };
    let Some(text) = value.as_str() else {
        return Ok(None);
    };
    let field = Name::new(ArcStr::from_str(alloc, field)?);
    let text = Name::new(ArcStr::from_str(alloc, text)?);
    Ok(Some(Condition::Match { field, text }))
}

fn read_prefix(alloc: Global, value: &Value) -> Found
    ensures { IfOk result (λ found. found ≡ text_of Prefix (only_of (view value.now))) }
{
    let Some((field, value)) = only(value) else {
        return Ok(None);
    };
    let Some(text) = value.as_str() else {
        return Ok(None);
    };
    let field = Name::new(ArcStr::from_str(alloc, field)?);
    let text = Name::new(ArcStr::from_str(alloc, text)?);
    Ok(Some(Condition::Prefix { field, text }))
}

fn read_exists(alloc: Global, value: &Value) -> Found
    ensures { IfOk result (λ found. found ≡ exists_of (only_of (view value.now))) }
{
    let Some((name, value)) = only(value) else {
        return Ok(None);
    };
    if name != "field" {
        return Ok(None);
    }
    let Some(field) = value.as_str() else {
        return Ok(None);
    };
    let field = Name::new(ArcStr::from_str(alloc, field)?);
    Ok(Some(Condition::Exists { field }))
}

// A bound that need not be there: `None` for a value that is no bound.
fn read_bound(alloc: Global, value: Option<&Value>) -> Result<Option<Option<Scalar>>, AllocError>
    ensures { IfOk result (λ bound. bound
        ≡ bound_of (option_map (λ v. view v.now) value.entry)) }
{
    let Some(value) = value else {
        return Ok(Some(None));
    };
    match read_scalar(alloc, value)? {
        Some(bound) => Ok(Some(Some(bound))),
        None => Ok(None),
    }
}

fn given(bound: &Option<Scalar>) -> usize
    ensures value { result ≡ given_of bound.now }
    ensures few { result ≤ 1 }
{
    match bound {
        Some(_) => 1,
        None => 0,
    }
}

fn is_text_bound(bound: &Option<Scalar>) -> bool
    ensures { result ≡ is_text_bound_of bound.now }
{
    matches!(bound, None | Some(Scalar::Text(_)))
}

fn is_number_bound(bound: &Option<Scalar>) -> bool
    ensures { result ≡ is_number_bound_of bound.now }
{
    matches!(bound, None | Some(Scalar::Number(_)))
}

fn read_bounds(alloc: Global, field: &str, value: &Value) -> Found
    ensures { IfOk result (λ found. found ≡ bounds_of field.now (view value.now)) }
{
    let Some(gte) = read_bound(alloc, value.get("gte"))? else {
        return Ok(None);
    };
    let Some(gt) = read_bound(alloc, value.get("gt"))? else {
        return Ok(None);
    };
    let Some(lte) = read_bound(alloc, value.get("lte"))? else {
        return Ok(None);
    };
    let Some(lt) = read_bound(alloc, value.get("lt"))? else {
        return Ok(None);
    };
    if !are_bounds(members_in(value), &gte, &gt, &lte, &lt) {
        return Ok(None);
    }
    let field = Name::new(ArcStr::from_str(alloc, field)?);
    Ok(Some(Condition::Range {
        field,
        gte,
        gt,
        lte,
        lt,
    }))
}

fn are_texts(
    gte: &Option<Scalar>,
    gt: &Option<Scalar>,
    lte: &Option<Scalar>,
    lt: &Option<Scalar>,
) -> bool
    ensures { result ≡ are_texts_of gte.now gt.now lte.now lt.now }
{
    is_text_bound(gte) && is_text_bound(gt) && is_text_bound(lte) && is_text_bound(lt)
}

fn are_numbers(
    gte: &Option<Scalar>,
    gt: &Option<Scalar>,
    lte: &Option<Scalar>,
    lt: &Option<Scalar>,
) -> bool
    ensures { result ≡ are_numbers_of gte.now gt.now lte.now lt.now }
{
    is_number_bound(gte) && is_number_bound(gt) && is_number_bound(lte) && is_number_bound(lt)
}

// Whether all are texts or all are numbers, and they are the members of an object with so many of them,
// which is not empty.
fn are_bounds(
    members: usize,
    gte: &Option<Scalar>,
    gt: &Option<Scalar>,
    lte: &Option<Scalar>,
    lt: &Option<Scalar>,
) -> bool
    ensures { result ≡ are_bounds_of members gte.now gt.now lte.now lt.now }
{
    let bounds = given(gte) + given(gt) + given(lte) + given(lt);
    (are_texts(gte, gt, lte, lt) || are_numbers(gte, gt, lte, lt))
        && members != 0
        && bounds == members
}

#[tactic(auto, using(crate::proofs::Readings::members_len_view))]
fn member_count(members: &Map<String, Value>) -> usize
    ensures { result ≡ members_len (members_view members.now.entries) }
{
    members.len()
}

fn members_in(value: &Value) -> usize
    ensures { result ≡ members_in_of (view value.now) }
{
    match value {
        Value::Object(members) => member_count(members),
        _ => 0,
    }
}

fn read_range(alloc: Global, value: &Value) -> Found
    ensures { IfOk result (λ found. found ≡ range_of (only_of (view value.now))) }
{
    let Some((field, bounds)) = only(value) else {
        return Ok(None);
    };
    read_bounds(alloc, field, bounds)
}

fn or_bad_value(found: Option<Condition>) -> Result<Condition, BadQuery>
    ensures { result ≡ or_bad_value_of found }
{
    match found {
        Some(condition) => Ok(condition),
        None => Err(BadQuery::BadValue),
    }
}

fn read_condition(alloc: Global, name: &str, value: &Value) -> Result<Condition, BadQuery>
    ensures ok { IfOk result (λ found. condition_of name.now (view value.now) ≡ Ok found) }
    ensures err { IfErr result (λ e. e ≢ BadQuery.Memory
        → condition_of name.now (view value.now) ≡ Err e) }
{
    if name == "match_all" {
        return or_bad_value(read_match_all(value));
    }
    if name == "term" {
        return or_bad_value(read_term(alloc, value)?);
    }
    if name == "range" {
        return or_bad_value(read_range(alloc, value)?);
    }
    if name == "match" {
        return or_bad_value(read_match(alloc, value)?);
    }
    if name == "prefix" {
        return or_bad_value(read_prefix(alloc, value)?);
    }
    if name == "exists" {
        return or_bad_value(read_exists(alloc, value)?);
    }
    Err(BadQuery::UnknownClause)
}

impl Query {
    /// Reads a query, or says the first cause for which the text is none. Takes time by its length.
    pub fn read(alloc: Global, from: &[u8]) -> Result<Query, BadQuery>
        ensures ok { IfOk result (λ query. query_from from.now ≡ Ok query) }
        ensures err { IfErr result (λ e. e ≢ BadQuery.Memory → query_from from.now ≡ Err e) }
    {
        let value = match parse(alloc, from) {
            Ok(value) => value,
            Err(BadSource::Memory) => return Err(BadQuery::Memory),
            Err(_) => return Err(BadQuery::NotJson),
        };
        read_query(alloc, &value, MOST_LEVELS)
    }

    /// The query that a value is, or the first cause for which it is none. Takes time by its size.
    pub fn from_value(alloc: Global, value: &Value) -> Result<Query, BadQuery>
        ensures ok { IfOk result (λ query. query_of 32 (view value.now) ≡ Ok query) }
        ensures err { IfErr result (λ e. e ≢ BadQuery.Memory
            → query_of 32 (view value.now) ≡ Err e) }
    {
        read_query(alloc, value, MOST_LEVELS)
    }
}

#[cycle(read)]
#[tactic(auto, using(crate::proofs::Readings::only_depth))]
fn read_query(alloc: Global, value: &Value, levels: u64) -> Result<Query, BadQuery>
    ensures ok { IfOk result (λ query. query_of levels (view value.now) ≡ Ok query) }
    ensures err { IfErr result (λ e. e ≢ BadQuery.Memory
        → query_of levels (view value.now) ≡ Err e) }
{
    let Some((name, member)) = only(value) else {
        return Err(BadQuery::BadValue);
    };
    if name == "bool" {
        return read_bool(alloc, member, levels);
    }
    match read_condition(alloc, name, member) {
        Ok(condition) => Ok(Query::new(Node::Condition(condition))),
        Err(error) => Err(error),
    }
}

#[cycle(read)]
fn read_bool(alloc: Global, value: &Value, levels: u64) -> Result<Query, BadQuery>
    ensures ok { IfOk result (λ query. bool_of levels (view value.now) ≡ Ok query) }
    ensures err { IfErr result (λ e. e ≢ BadQuery.Memory
        → bool_of levels (view value.now) ≡ Err e) }
{
    if levels == 0 {
        return Err(BadQuery::Depth);
    }
    let Value::Object(members) = value else {
        return Err(BadQuery::BadValue);
    };
    let lists = read_lists(alloc, members, levels - 1)?;
    Ok(Query::new(lists.into_node()))
}

#[cycle(read)]
fn read_lists(
    alloc: Global,
    members: &Map<String, Value>,
    levels: u64,
) -> Result<QueryLists, BadQuery>
    ensures ok { IfOk result (λ lists. lists_of levels (members_view members.now.entries) no_lists
        ≡ Ok (lists_in lists)) }
    ensures err { IfErr result (λ e. e ≢ BadQuery.Memory
        → lists_of levels (members_view members.now.entries) no_lists ≡ Err e) }
{
    let mut lists = QueryLists::new(alloc);
    for (name, member) in members.iter() {
        if !is_list_name(name.as_str()) {
            return Err(BadQuery::BadValue);
        }
        let queries = read_list(alloc, member, levels)?;
        lists.put(name.as_str(), queries);
    }
    Ok(lists)
}

#[cycle(read)]
fn read_list(alloc: Global, value: &Value, levels: u64) -> Result<Vec<Query>, BadQuery>
    ensures ok { IfOk result (λ queries. list_of levels (view value.now)
        ≡ Ok (trees_of queries.items)) }
    ensures err { IfErr result (λ e. e ≢ BadQuery.Memory → list_of levels (view value.now) ≡ Err e) }
{
    match value {
        Value::Array(items) => read_queries(alloc, items, levels),
        _ => Err(BadQuery::BadValue),
    }
}

#[cycle(read)]
#[tactic(auto, using(crate::proofs::Readings::read_one, crate::proofs::Readings::refuse_one, crate::proofs::Readings::read_all, crate::proofs::Readings::items_depth_at))]
fn read_queries(alloc: Global, items: &Vec<Value>, levels: u64) -> Result<Vec<Query>, BadQuery>
    ensures ok { IfOk result (λ queries. queries_of levels (items_view items.now.items)
        ≡ Ok (trees_of queries.items)) }
    ensures err { IfErr result (λ e. e ≢ BadQuery.Memory
        → queries_of levels (items_view items.now.items) ≡ Err e) }
{
    let mut queries = Vec::new(alloc);
    for item in items {
        let query = read_query(alloc, item, levels)?;
        queries.push(query)?;
    }
    Ok(queries)
}

fn is_list_name(name: &str) -> bool
    ensures { result ≡ is_list_name_of name.now }
{
    name == "must" || name == "filter" || name == "should" || name == "must_not"
}

// The lists of queries that were read so far.
#[derive(Drop)]
struct QueryLists {
    must: Vec<Query>,
    filter: Vec<Query>,
    should: Vec<Query>,
    must_not: Vec<Query>,
}

impl QueryLists {
    ghost use Rattle.ccr_query.specs.Nodes.{tree_of};
    ghost use Rattle.ccr_query.specs.Bools.{tree_of_lists};

    fn new(alloc: Global) -> QueryLists
        ensures { lists_in result ≡ no_lists }
    {
        QueryLists {
            must: Vec::new(alloc),
            filter: Vec::new(alloc),
            should: Vec::new(alloc),
            must_not: Vec::new(alloc),
        }
    }

    fn put(&mut self, name: &str, queries: Vec<Query>)
        ensures { lists_in self.new ≡ with_list name.now (trees_of queries.items) (lists_in self.old) }
    {
        if name == "must" {
            self.must = queries;
        } else if name == "filter" {
            self.filter = queries;
        } else if name == "should" {
            self.should = queries;
        } else {
            self.must_not = queries;
        }
    }

    fn into_node(self) -> Node
        ensures { tree_of result ≡ tree_of_lists (lists_in self) }
    {
        let QueryLists {
            must,
            filter,
            should,
            must_not,
        } = self;
        Node::Bool {
            must,
            filter,
            should,
            must_not,
        }
    }
}
