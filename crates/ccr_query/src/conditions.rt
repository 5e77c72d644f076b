// Queries on the values of one field.
ghost use Rattle.std.specs.Prelude.{◌≡◌, true, IfOk};
ghost use Rattle.ccr_query.specs.Conditions.{any_value, are_comparable as are_comparable_of, is_within as is_within_of, meets_bound as meets_bound_of, has_token_of as has_token_of_text, has_prefix as has_prefix_of};
ghost use Rattle.ccr_query.specs.Sides.{passes_of};
ghost use Rattle.ccr_doc.specs.Scalars.{scalar_cmp};
ghost use Rattle.std.specs.Ordering.{is_eq};

use ccr_doc::{Doc, Field, Scalar, shares_token};
use ccr_op::Name;
use std::alloc::{AllocError, Global};

/// A condition on the values that a document has at a dotted field. It holds where some value meets it.
#[derive(Debug, Drop)]
pub enum Condition {
    /// Always.
    MatchAll,
    /// The value is this one.
    Term {
        field: Name,
        value: Scalar,
    },
    /// The value is of the bounds' kind and meets them all. The bounds are all numbers or all texts;
    /// with other bounds, and with none, it holds on no document.
    Range {
        field: Name,
        gte: Option<Scalar>,
        gt: Option<Scalar>,
        lte: Option<Scalar>,
        lt: Option<Scalar>,
    },
    /// The value is a text that has a token of this text.
    Match {
        field: Name,
        text: Name,
    },
    /// The value is a text that begins with this text.
    Prefix {
        field: Name,
        text: Name,
    },
    /// Any value.
    Exists {
        field: Name,
    },
}

impl Condition {
    ghost use Rattle.ccr_query.specs.Conditions.{meets as meets_of};

    /// Whether the document meets the condition. Takes no memory, and time by the document's length;
    /// `Match` takes it by the product of the two texts' lengths.
    pub fn meets(&self, document: &Doc) -> bool
        ensures { result ≡ meets_of self.now document.now }
    {
        let fields = document.fields();
        match self {
            Condition::MatchAll => true,
            Condition::Term { field, value } => any_equals(fields, field, value),
            Condition::Range {
                field,
                gte,
                gt,
                lte,
                lt,
            } => any_is_within(fields, field, gte, gt, lte, lt),
            Condition::Match { field, text } => any_has_token_of(fields, field, text),
            Condition::Prefix { field, text } => any_begins_with(fields, field, text),
            Condition::Exists { field } => any_is_at(fields, field),
        }
    }

    pub fn copy(&self, alloc: Global) -> Result<Condition, AllocError>
        ensures { IfOk result (λ other. other ≡ self.now) }
    {
        match self {
            Condition::MatchAll => Ok(Condition::MatchAll),
            Condition::Term { field, value } => {
                let field = field.copy(alloc)?;
                let value = value.copy(alloc)?;
                Ok(Condition::Term { field, value })
            }
            Condition::Range {
                field,
                gte,
                gt,
                lte,
                lt,
            } => {
                let field = field.copy(alloc)?;
                let gte = copy_bound(alloc, gte)?;
                let gt = copy_bound(alloc, gt)?;
                let lte = copy_bound(alloc, lte)?;
                let lt = copy_bound(alloc, lt)?;
                Ok(Condition::Range {
                    field,
                    gte,
                    gt,
                    lte,
                    lt,
                })
            }
            Condition::Match { field, text } => {
                let field = field.copy(alloc)?;
                let text = text.copy(alloc)?;
                Ok(Condition::Match { field, text })
            }
            Condition::Prefix { field, text } => {
                let field = field.copy(alloc)?;
                let text = text.copy(alloc)?;
                Ok(Condition::Prefix { field, text })
            }
            Condition::Exists { field } => {
                let field = field.copy(alloc)?;
                Ok(Condition::Exists { field })
            }
        }
    }
}

fn any_equals(fields: &[Field], name: &Name, value: &Scalar) -> bool
    ensures { result ≡ any_value name.now (λ found. is_eq (scalar_cmp found value.now)) fields.now }
{
    fields
        .iter()
        .any(|at| at.name.is(name) && at.value.compare(value).is_eq())
}

fn any_is_within(
    fields: &[Field],
    name: &Name,
    gte: &Option<Scalar>,
    gt: &Option<Scalar>,
    lte: &Option<Scalar>,
    lt: &Option<Scalar>,
) -> bool
    ensures { result ≡ any_value name.now (is_within_of gte.now gt.now lte.now lt.now) fields.now }
{
    fields.iter().any(|at| at.name.is(name) && is_within(&at.value, gte, gt, lte, lt))
}

fn any_has_token_of(fields: &[Field], name: &Name, text: &Name) -> bool
    ensures { result ≡ any_value name.now (has_token_of_text text.now) fields.now }
{
    fields
        .iter()
        .any(|at| at.name.is(name) && has_token_of(&at.value, text))
}

fn any_begins_with(fields: &[Field], name: &Name, text: &Name) -> bool
    ensures { result ≡ any_value name.now (has_prefix_of text.now) fields.now }
{
    fields
        .iter()
        .any(|at| at.name.is(name) && has_prefix(&at.value, text))
}

fn any_is_at(fields: &[Field], name: &Name) -> bool
    ensures { result ≡ any_value name.now (λ _. true) fields.now }
{
    for at in fields {
        if at.name.is(name) {
            return true;
        }
    }
    false
}

fn copy_bound(alloc: Global, bound: &Option<Scalar>) -> Result<Option<Scalar>, AllocError>
    ensures { IfOk result (λ other. other ≡ bound.now) }
{
    match bound {
        Some(value) => {
            let other = value.copy(alloc)?;
            Ok(Some(other))
        }
        None => Ok(None),
    }
}

// Whether both are numbers, or both are texts.
fn are_comparable(left: &Scalar, right: &Scalar) -> bool
    ensures { result ≡ are_comparable_of left.now right.now }
{
    matches!(
        (left, right),
        (Scalar::Text(_), Scalar::Text(_)) | (Scalar::Number(_), Scalar::Number(_))
    )
}

// Whether there is a bound, and the value meets all that there are.
fn is_within(
    value: &Scalar,
    gte: &Option<Scalar>,
    gt: &Option<Scalar>,
    lte: &Option<Scalar>,
    lt: &Option<Scalar>,
) -> bool
    ensures { result ≡ is_within_of gte.now gt.now lte.now lt.now value.now }
{
    (gte.is_some() || gt.is_some() || lte.is_some() || lt.is_some())
        && meets_bound(value, gte, Side::AtLeast)
        && meets_bound(value, gt, Side::Above)
        && meets_bound(value, lte, Side::AtMost)
        && meets_bound(value, lt, Side::Below)
}

// On which side of a bound a value is to be.
#[derive(Clone, Copy)]
enum Side {
    AtLeast,
    Above,
    AtMost,
    Below,
}

fn meets_bound(value: &Scalar, bound: &Option<Scalar>, side: Side) -> bool
    ensures { result ≡ meets_bound_of (passes_of side) value.now bound.now }
{
    match bound {
        None => true,
        Some(bound) => {
            if !are_comparable(value, bound) {
                return false;
            }
            let order = value.compare(bound);
            match side {
                Side::AtLeast => order.is_ge(),
                Side::Above => order.is_gt(),
                Side::AtMost => order.is_le(),
                Side::Below => order.is_lt(),
            }
        }
    }
}

fn has_token_of(value: &Scalar, text: &Name) -> bool
    ensures { result ≡ has_token_of_text text.now value.now }
{
    match value {
        Scalar::Text(value) => shares_token(text.as_str(), value.as_str()),
        _ => false,
    }
}

fn has_prefix(value: &Scalar, text: &Name) -> bool
    ensures { result ≡ has_prefix_of text.now value.now }
{
    match value {
        Scalar::Text(value) => value
            .as_str()
            .as_bytes()
            .starts_with(text.as_str().as_bytes()),
        _ => false,
    }
}
