// The parts of commands in a JSON object that has their fields.
ghost use Rattle.std.specs.Prelude.{◌≡◌, IfOk, option_map};
ghost use Rattle.serde_json.specs.View.{view, items_view};
ghost use Rattle.ccr_query.specs.Keys.{each_of};
ghost use Rattle.serde_json.specs.Find.{as_str};
ghost use Rattle.ccr_script.specs.Parts.{at, text_in as text_in_of, number_at as number_at_of, number_or as number_or_of, truth_in as truth_in_of, id_of as id_of_text, id_at as id_at_of, index_in as index_in_of, names_in as names_in_of, expect_in as expect_in_of, keys_in as keys_in_of};

use crate::checking::{halves, number};
use crate::fields::Field;
use crate::names::Names;
use ccr_journal::SortKeys;
use ccr_op::{DocId, IndexName, Name, Term};
use ccr_query::SortKey;
use serde_json::Value;
use std::alloc::{AllocError, Global};
use std::sync::ArcStr;

pub fn member(value: &Value, field: Field) -> Option<&Value>
    ensures { option_map (λ v. view v.now) result ≡ at field (view value.now) }
{
    value.get(field.name())
}

fn text_in(value: &Value, field: Field) -> &str
    ensures { result.now ≡ text_in_of field (view value.now) }
{
    match member(value, field).and_then(Value::as_str) {
        Some(text) => text,
        None => "",
    }
}

/// The text, or an empty one where there is none.
pub fn name_in(alloc: Global, value: &Value, field: Field) -> Result<Name, AllocError>
    ensures { IfOk result (λ name. name ≡ text_in_of field (view value.now)) }
{
    name_of(alloc, text_in(value, field))
}

/// The name of this text.
pub fn name_of(alloc: Global, text: &str) -> Result<Name, AllocError>
    ensures { IfOk result (λ name. name ≡ text.now) }
{
    let text = ArcStr::from_str(alloc, text)?;
    Ok(Name::new(text))
}

/// The index that `cluster/index` names.
pub fn index_in(alloc: Global, value: &Value, field: Field) -> Result<IndexName, AllocError>
    ensures { IfOk result (λ index. index ≡ index_in_of field (view value.now)) }
{
    let (cluster, index) = halves(text_in(value, field));
    let cluster = name_of(alloc, cluster)?;
    let index = name_of(alloc, index)?;
    Ok(IndexName { cluster, index })
}

/// The number, where there is one.
pub fn number_at(value: &Value, field: Field) -> Option<u64>
    ensures { result ≡ number_at_of field (view value.now) }
{
    member(value, field).and_then(number)
}

/// The number, or this one where there is none.
pub fn number_or(value: &Value, field: Field, default: u64) -> u64
    ensures { result ≡ number_or_of default field (view value.now) }
{
    number_at(value, field).unwrap_or(default)
}

/// The truth value, or false where there is none.
pub fn truth_in(value: &Value, field: Field) -> bool
    ensures { result ≡ truth_in_of field (view value.now) }
{
    member(value, field)
        .and_then(Value::as_bool)
        .unwrap_or(false)
}

/// The id, where there is one.
pub fn id_at(alloc: Global, value: &Value, field: Field) -> Result<Option<DocId>, AllocError>
    ensures { IfOk result (λ id. id ≡ id_at_of field (view value.now)) }
{
    let Some(text) = member(value, field).and_then(Value::as_str) else {
        return Ok(None);
    };
    id_of(alloc, text)
}

/// The id of this text, or `None` where it is none.
#[tactic(auto, unfolding(crate::specs::Kinds::is_id))]
pub fn id_of(alloc: Global, text: &str) -> Result<Option<DocId>, AllocError>
    ensures { IfOk result (λ id. id ≡ id_of_text text.now) }
{
    let text = ArcStr::from_str(alloc, text)?;
    Ok(DocId::new(text))
}

/// The names of a list of texts, none where the field is absent, or `None` where an item is no text.
pub fn names_in(alloc: Global, value: &Value, field: Field) -> Result<Option<Names>, AllocError>
    ensures { IfOk result (λ names. names ≡ names_in_of field (view value.now)) }
{
    let Some(list) = member(value, field) else {
        return Ok(Some(Names::new(Vec::new(alloc))));
    };
    let Some(items) = list.as_array() else {
        return Ok(None);
    };
    match read_names(alloc, items)? {
        Some(names) => Ok(Some(Names::new(names))),
        None => Ok(None),
    }
}

#[tactic(auto, using(ccr_query::proofs::Each::each_rules))]
fn read_names(alloc: Global, items: &Vec<Value>) -> Result<Option<Vec<Name>>, AllocError>
    ensures { IfOk result (λ names. option_map (λ n. n.items) names
        ≡ each_of as_str (items_view items.now.items)) }
{
    let mut names = Vec::new(alloc);
    for item in items {
        let Some(text) = item.as_str() else {
            return Ok(None);
        };
        let name = name_of(alloc, text)?;
        names.push(name)?;
    }
    Ok(Some(names))
}

/// The number and the term that a write expects, both or none; `None` where there is one of them.
pub fn expect_in(value: &Value) -> Option<Option<(u64, Term)>>
    ensures { result ≡ expect_in_of (view value.now) }
{
    match (
        number_at(value, Field::IfSeqNo),
        number_at(value, Field::IfPrimaryTerm),
    ) {
        (Some(seq), Some(term)) => Some(Some((seq, term))),
        (None, None) => Some(None),
        _ => None,
    }
}

/// The keys of a sort, none where the field is absent; `None` where the value is none.
pub fn keys_in(alloc: Global, value: &Value) -> Result<Option<SortKeys>, AllocError>
    ensures { IfOk result (λ keys. keys ≡ keys_in_of (view value.now)) }
{
    let Some(list) = member(value, Field::Sort) else {
        return Ok(Some(SortKeys::new(Vec::new(alloc))));
    };
    match SortKey::list_from(alloc, list)? {
        Some(keys) => Ok(Some(SortKeys::new(keys))),
        None => Ok(None),
    }
}
