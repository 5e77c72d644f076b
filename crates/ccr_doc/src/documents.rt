// A source as the list of its fields.
ghost use Rattle.std.specs.Prelude.{◌≡◌, ◌≢◌, ◌++◌, ◌∷◌, [], IfOk, IfErr, OnOk};
ghost use Rattle.serde_json.specs.View.{view, items_view, members_view};
ghost use Rattle.ccr_doc.specs.Fields.{field_at, fields_at, items_fields, members_fields};

use crate::scalars::Scalar;
use crate::sources::{BadSource, read_source};
use ccr_op::Name;
use serde_json::{Map, Value};
use std::alloc::{AllocError, Global};
use std::marker::Model;
use std::sync::ArcStr;

/// One value of a source at its dotted name: `{"a":{"b":1}}` has the value 1 at `a.b`.
#[derive(Debug, Drop)]
pub struct Field {
    pub name: Name,
    pub value: Scalar,
}

/// What a source says: its fields in the order of the source, members in ascending order of their names.
/// A name stands as often as it has values.
#[derive(Debug, Drop)]
pub struct Doc {
    fields: Vec<Field>,
}

impl Model for Doc {
    ghost use Rattle.std.specs.Prelude.{List};
    ghost use Rattle.ccr_doc.specs.declared.documents.Field.{Field};

    ghost Value = { List Field };

    ghost view = { λ a. a.fields.items };
}

impl Doc {
    ghost use Rattle.ccr_doc.specs.Sources.{document_of};

    /// Reads a source, or says the first cause for which it is refused. Takes time by its length.
    pub fn read(alloc: Global, from: &[u8]) -> Result<Doc, BadSource>
        ensures ok { IfOk result (λ doc. document_of from.now ≡ Ok doc) }
        ensures err { IfErr result (λ e. e ≢ BadSource.Memory → document_of from.now ≡ Err e) }
    {
        let (value, _) = read_source(alloc, from)?;
        let mut fields = Vec::new(alloc);
        if let Some(members) = value.as_object() {
            add_members(alloc, "", members, &mut fields)?;
        }
        Ok(Doc { fields })
    }

    pub fn fields(&self) -> &[Field]
        ensures { result.now ≡ self.now }
    {
        self.fields.as_slice()
    }
}

fn add_field(
    alloc: Global,
    name: &str,
    value: Scalar,
    fields: &mut Vec<Field>,
) -> Result<(), AllocError>
    ensures { OnOk result (fields.new.items ≡ fields.old.items ++ field_at name.now value ∷ []) }
{
    let name = Name::new(ArcStr::from_str(alloc, name)?);
    fields.push(Field { name, value })?;
    Ok(())
}

#[cycle(fields)]
#[tactic(auto, using(crate::proofs::Walks::items_view_drop))]
fn add_fields(
    alloc: Global,
    name: &str,
    value: &Value,
    fields: &mut Vec<Field>,
) -> Result<(), AllocError>
    ensures { OnOk result (fields.new.items
        ≡ fields.old.items ++ fields_at name.now (view value.now)) }
{
    match value {
        Value::Null => Ok(()),
        Value::Bool(truth) => add_field(alloc, name, Scalar::Truth(*truth), fields),
        Value::Number(number) => match number.as_i64() {
            Some(whole) => add_field(alloc, name, Scalar::Number(whole), fields),
            None => Ok(()),
        },
        Value::String(text) => {
            let text = Name::new(ArcStr::from_str(alloc, text.as_str())?);
            add_field(alloc, name, Scalar::Text(text), fields)
        }
        Value::Array(items) => add_items(alloc, name, items, fields),
        Value::Object(members) => {
            let mut prefix = String::from_str(alloc, name)?;
            prefix.push('.')?;
            add_members(alloc, prefix.as_str(), members, fields)
        }
    }
}

#[cycle(fields)]
#[tactic(auto, using(crate::proofs::Walks::items_view_drop))]
fn add_items(
    alloc: Global,
    name: &str,
    items: &Vec<Value>,
    fields: &mut Vec<Field>,
) -> Result<(), AllocError>
    ensures { OnOk result (fields.new.items
        ≡ fields.old.items ++ items_fields name.now (items_view items.now.items)) }
{
    for item in items {
        add_fields(alloc, name, item, fields)?;
    }
    Ok(())
}

#[cycle(fields)]
#[tactic(auto, using(crate::proofs::Walks::items_view_drop))]
fn add_members(
    alloc: Global,
    prefix: &str,
    members: &Map<String, Value>,
    fields: &mut Vec<Field>,
) -> Result<(), AllocError>
    ensures { OnOk result (fields.new.items
        ≡ fields.old.items ++ members_fields prefix.now (members_view members.now.entries)) }
{
    for (key, member) in members.iter() {
        let mut name = String::from_str(alloc, prefix)?;
        name.push_str(key.as_str())?;
        add_fields(alloc, name.as_str(), member, fields)?;
    }
    Ok(())
}
