// How the keys of a sort are read.
ghost use Rattle.std.specs.Prelude.{◌≡◌, IfOk, option_map};
ghost use Rattle.serde_json.specs.View.{view, items_view};
ghost use Rattle.ccr_query.specs.Keys.{order_of, order_named as order_named_of, key_of_value, keys_of_value, each_of};

use crate::reading::only;
use crate::sorting::{SortKey, SortOrder};
use ccr_op::Name;
use serde_json::Value;
use std::alloc::{AllocError, Global};
use std::sync::ArcStr;

impl SortKey {
    /// The keys that a value is: a list of objects with one member, `{"field":"asc"}` or
    /// `{"field":"desc"}`; `None` for any other value. Takes time by its size.
    pub fn list_from(alloc: Global, value: &Value) -> Result<Option<Vec<SortKey>>, AllocError>
        ensures { IfOk result (λ keys. option_map (λ k. k.items) keys
            ≡ keys_of_value (view value.now)) }
    {
        let Some(items) = value.as_array() else {
            return Ok(None);
        };
        read_keys(alloc, items)
    }
}

#[tactic(auto, using(crate::proofs::Each::each_rules))]
fn read_keys(alloc: Global, items: &Vec<Value>) -> Result<Option<Vec<SortKey>>, AllocError>
    ensures { IfOk result (λ keys. option_map (λ k. k.items) keys
        ≡ each_of key_of_value (items_view items.now.items)) }
{
    let mut keys = Vec::new(alloc);
    for item in items {
        let Some(key) = read_key(alloc, item)? else {
            return Ok(None);
        };
        keys.push(key)?;
    }
    Ok(Some(keys))
}

fn read_key(alloc: Global, value: &Value) -> Result<Option<SortKey>, AllocError>
    ensures { IfOk result (λ key. key ≡ key_of_value (view value.now)) }
{
    let Some((field, order)) = only(value) else {
        return Ok(None);
    };
    let Some(order) = read_order(order) else {
        return Ok(None);
    };
    let field = Name::new(ArcStr::from_str(alloc, field)?);
    Ok(Some(SortKey { field, order }))
}

fn read_order(value: &Value) -> Option<SortOrder>
    ensures { result ≡ order_of (view value.now) }
{
    order_named(value.as_str()?)
}

fn order_named(name: &str) -> Option<SortOrder>
    ensures { result ≡ order_named_of name.now }
{
    if name == "asc" {
        return Some(SortOrder::Asc);
    }
    if name == "desc" {
        return Some(SortOrder::Desc);
    }
    None
}
