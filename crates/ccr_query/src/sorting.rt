// The keys by which hits are sorted.
ghost use Rattle.std.specs.Prelude.{◌≡◌, IfOk, option_copied};
ghost use Rattle.ccr_query.specs.Sorting.{earlier as earlier_of};

use ccr_doc::{Doc, Scalar};
use ccr_op::Name;
use std::alloc::{AllocError, Global};
use std::cmp::Ordering;

/// Whether the least or the greatest value comes first.
#[derive(Clone, Copy, Debug, PartialEq, Eq)]
pub enum SortOrder {
    Asc,
    Desc,
}

/// A field by which hits are sorted. A document's key is the first of the field's values in this order;
/// documents without a value come last in both orders.
#[derive(Debug, Drop)]
pub struct SortKey {
    pub field: Name,
    pub order: SortOrder,
}

impl SortOrder {
    ghost use Rattle.ccr_query.specs.Sorting.{value_cmp};

    /// The order of two values.
    pub fn compare(self, left: &Scalar, right: &Scalar) -> Ordering
        ensures { result ≡ value_cmp self left.now right.now }
    {
        match self {
            SortOrder::Asc => left.compare(right),
            SortOrder::Desc => right.compare(left),
        }
    }
}

impl SortKey {
    ghost use Rattle.ccr_query.specs.Sorting.{key_of, key_cmp};

    /// An equal key.
    pub fn copy(&self, alloc: Global) -> Result<SortKey, AllocError>
        ensures { IfOk result (λ other. other ≡ self.now) }
    {
        let field = self.field.copy(alloc)?;
        Ok(SortKey {
            field,
            order: self.order,
        })
    }

    /// The value by which the document is sorted.
    pub fn value_in<'d>(&self, document: &'d Doc) -> Option<&'d Scalar>
        ensures { option_copied result ≡ key_of self.now document.now }
    {
        let mut first = None;
        for at in document.fields() {
            if at.name.is(&self.field) {
                first = Some(earlier(self.order, first, &at.value));
            }
        }
        first
    }

    /// Which of two documents comes first by this key.
    pub fn compare(&self, left: &Doc, right: &Doc) -> Ordering
        ensures { result ≡ key_cmp self.now left.now right.now }
    {
        match (self.value_in(left), self.value_in(right)) {
            (Some(left), Some(right)) => self.order.compare(left, right),
            (Some(_), None) => Ordering::Less,
            (None, Some(_)) => Ordering::Greater,
            (None, None) => Ordering::Equal,
        }
    }
}

fn earlier<'d>(order: SortOrder, first: Option<&'d Scalar>, value: &'d Scalar) -> &'d Scalar
    ensures { result.now ≡ earlier_of order (option_copied first.entry) value.now }
{
    match first {
        Some(first) => if order.compare(value, first).is_lt() {
            value
        } else {
            first
        },
        None => value,
    }
}
