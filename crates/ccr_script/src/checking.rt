// Whether an object has the fields of a command.
ghost use Rattle.std.specs.Prelude.{◌≡◌, map, take};
ghost use Rattle.std.specs.List.{list_any, list_all, before_first, after_first};
ghost use Rattle.serde_json.specs.View.{view};
ghost use Rattle.ccr_script.specs.Kinds.{is_of_kind as is_of_kind_of, is_name as is_name_of, is_name_byte as is_name_byte_of, is_first_byte as is_first_byte_of, starts_a_name as starts_a_name_of, is_index_name as is_index_name_of, is_id as is_id_of, is_slash, number_of, small as small_of};
ghost use Rattle.ccr_script.specs.Checking.{is_there as is_there_of, are_there as are_there_of, fits as fits_of, fits_one as fits_one_of, all_members_fit, has_fields as has_fields_of, has_at_most as has_at_most_of};
ghost use Rattle.ccr_script.specs.Grammar.{fields_of};

use crate::fields::{Field, Kind};
use crate::grammar::{Fields, Op};
use serde_json::Value;

/// Numbers in a script are below this one: 2^53.
const NUMBER_BOUND: u64 = 9_007_199_254_740_992;

const MOST_NAME_BYTES: usize = 64;

const MOST_ID_BYTES: usize = 512;

/// Whether the value is an object with all fields that the command needs, and with no member but its
/// fields, of which each has a value of its kind. Takes time by the members.
pub fn has_fields(op: Op, value: &Value) -> bool
    ensures { result ≡ has_fields_of (fields_of op) (view value.now) }
{
    let fields = op.fields();
    are_there(fields.needed, value) && all_fit(&fields, value)
}

#[tactic(auto, using(crate::proofs::Members::member_rules))]
fn are_there(fields: &[Field], value: &Value) -> bool
    ensures { result ≡ are_there_of fields.now (view value.now) }
{
    fields.iter().all(|field| is_there(*field, value))
}

/// Whether the value has the field.
pub fn is_there(field: Field, value: &Value) -> bool
    ensures { result ≡ is_there_of field (view value.now) }
{
    value.get(field.name()).is_some()
}

/// Whether the value is an object with no more members than these.
#[tactic(auto, using(crate::proofs::Few::few_rules))]
pub fn has_at_most(most: usize, value: &Value) -> bool
    ensures { result ≡ has_at_most_of most (view value.now) }
{
    match value.as_object() {
        Some(members) => members.len() <= most,
        None => false,
    }
}

#[tactic(auto, using(crate::proofs::Members::member_rules))]
fn all_fit(fields: &Fields, value: &Value) -> bool
    ensures { result ≡ all_members_fit fields.now.needed.now fields.now.allowed.now (view value.now) }
{
    let Some(members) = value.as_object() else {
        return false;
    };
    for (name, member) in members.iter() {
        if !fits(fields, name.as_str(), member) {
            return false;
        }
    }
    true
}

fn fits(fields: &Fields, name: &str, value: &Value) -> bool
    ensures { result ≡ fits_of fields.now.needed.now fields.now.allowed.now name.now (view value.now) }
{
    name == "op" || fits_one(fields.needed, name, value) || fits_one(fields.allowed, name, value)
}

#[tactic(auto, using(crate::proofs::Members::member_rules))]
fn fits_one(fields: &[Field], name: &str, value: &Value) -> bool
    ensures { result ≡ fits_one_of fields.now name.now (view value.now) }
{
    for field in fields {
        if name == field.name() {
            return is_of_kind(field.kind(), value);
        }
    }
    false
}

fn is_of_kind(kind: Kind, value: &Value) -> bool
    ensures { result ≡ is_of_kind_of kind (view value.now) }
{
    match kind {
        Kind::Number => number(value).is_some(),
        Kind::Truth => value.as_bool().is_some(),
        Kind::Text => value.as_str().is_some(),
        Kind::Name => value.as_str().is_some_and(is_name),
        Kind::Index => value.as_str().is_some_and(is_index_name),
        Kind::Id => value.as_str().is_some_and(is_id),
        Kind::List => value.as_array().is_some(),
        Kind::Object => value.as_object().is_some(),
        Kind::Any => true,
    }
}

/// The whole number from 0 to 2^53 - 1 that a value is.
pub fn number(value: &Value) -> Option<u64>
    ensures { result ≡ number_of (view value.now) }
{
    small(value.as_u64()?)
}

#[tactic(auto, unfolding(crate::specs::Kinds::small))]
fn small(number: u64) -> Option<u64>
    ensures { result ≡ small_of number }
{
    if number < NUMBER_BOUND {
        Some(number)
    } else {
        None
    }
}

/// Whether a text is the name of a cluster, an index or an auto-follow pattern: 1 to 64 of the
/// characters `a-z 0-9 . _ -`, the first of `a-z 0-9 .`.
#[tactic(auto, unfolding(crate::specs::Kinds::is_name))]
fn is_name(text: &str) -> bool
    ensures { result ≡ is_name_of text.now }
{
    let bytes = text.as_bytes();
    if bytes.len() > MOST_NAME_BYTES {
        return false;
    }
    if !starts_a_name(bytes) {
        return false;
    }
    are_name_bytes(bytes)
}

fn are_name_bytes(bytes: &[u8]) -> bool
    ensures { result ≡ list_all is_name_byte_of bytes.now }
{
    bytes.iter().all(|byte| is_name_byte(*byte))
}

fn starts_a_name(bytes: &[u8]) -> bool
    ensures { result ≡ starts_a_name_of bytes.now }
{
    match bytes {
        [first, ..] => is_first_byte(*first),
        [] => false,
    }
}

fn is_first_byte(byte: u8) -> bool
    ensures { result ≡ is_first_byte_of byte }
{
    (b'a' <= byte && byte <= b'z') || (b'0' <= byte && byte <= b'9') || byte == b'.'
}

fn is_name_byte(byte: u8) -> bool
    ensures { result ≡ is_name_byte_of byte }
{
    is_first_byte(byte) || byte == b'_' || byte == b'-'
}

fn is_index_name(text: &str) -> bool
    ensures { result ≡ is_index_name_of text.now }
{
    let (cluster, index) = halves(text);
    is_name(cluster) && is_name(index)
}

/// What stands before and behind the first slash of a text; without one, all and nothing.
#[tactic(auto, using(crate::proofs::Members::member_rules))]
pub fn halves(text: &str) -> (&str, &str)
    ensures before { result.0.now ≡ before_first is_slash text.now }
    ensures behind { result.1.now ≡ after_first is_slash text.now }
{
    match text.split_once('/') {
        Some((before, behind)) => (before, behind),
        None => (text, ""),
    }
}

#[tactic(auto, unfolding(crate::specs::Kinds::is_id))]
fn is_id(text: &str) -> bool
    ensures { result ≡ is_id_of text.now }
{
    1 <= text.len() && text.len() <= MOST_ID_BYTES
}
