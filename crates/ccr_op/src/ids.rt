ghost use Rattle.std.specs.Prelude.{◌≡◌, ◌↔◌, IfOk, IsSome, IfSome, Some};
ghost use Rattle.std.specs.Arc.{arc_str_bytes};
ghost use Rattle.std.specs.Str.{bytes_eq};
ghost use Rattle.std.specs.Ordering.{nat_cmp};
ghost use Rattle.std.specs.Cmp.Lexicographic.{pointwise, slice_cmp};
ghost use Rattle.std.specs.Bool.{nat_eq};
ghost use Rattle.ccr_op.specs.Ids.{IsIdText};

use std::alloc::{AllocError, Global};
use std::cmp::Ordering;
use std::marker::Model;
use std::sync::ArcStr;

/// The most bytes that an id has.
pub const MOST_ID_BYTES: usize = 512;

/// The id of a document: a text of 1 to 512 bytes.
/// Ids are ordered by their bytes. Contracts see the UTF-8 bytes. Copies share the text.
#[derive(Debug, Drop)]
pub struct DocId {
    text: ArcStr,
}

impl Model for DocId {
    ghost use Rattle.std.specs.Prelude.{List, ℕ};
    ghost use Rattle.std.specs.Arc.{arc_str_bytes};
    ghost use Rattle.ccr_op.specs.Ids.{IsIdText};

    ghost Value = { List ℕ };

    ghost view = { λ a. arc_str_bytes a.text };

    ghost invariant = { λ a. IsIdText (arc_str_bytes a.text) };
}

impl DocId {
    /// The id of this text, or `None` exactly where it has none or more than 512 bytes.
    pub fn new(text: ArcStr) -> Option<Self>
        ensures bounds { IsSome result ↔ IsIdText (arc_str_bytes text) }
        ensures value { IfSome result (λ id. id ≡ arc_str_bytes text) }
    {
        let length = text.as_str().len();
        if length == 0 || length > MOST_ID_BYTES {
            return None;
        }
        Some(DocId { text })
    }

    /// The text.
    pub fn as_str(&self) -> &str
        ensures value { result.now ≡ self.now }
        ensures bounds { IsIdText self.now }
    {
        self.text.as_str()
    }

    /// An equal id, over the same text: it takes no memory, and fails only where the count of owners is full.
    pub fn copy(&self, _alloc: Global) -> Result<Self, AllocError>
        ensures { IfOk result (λ other. other ≡ self.now) }
    {
        self.clone()
    }
}

impl Clone for DocId {
    ghost use Rattle.std.specs.Prelude.{◌≡◌};

    ghost is_clone = { λ a b. b ≡ a };

    fn clone(&self) -> Result<DocId, AllocError> {
        let _bounds = self.as_str();
        let text = self.text.clone()?;
        Ok(DocId { text })
    }
}

impl PartialEq for DocId {
    ghost use Rattle.std.specs.Cmp.Lexicographic.{pointwise, nat_list_eq_equiv};
    ghost use Rattle.std.specs.Bool.{nat_eq};
    ghost use Rattle.std.specs.Cmp;

    ghost eq = { pointwise nat_eq };

    ghost laws = { Cmp.partial_equiv_from_equiv nat_list_eq_equiv };

    fn eq(&self, other: &Self) -> bool {
        self.as_str() == other.as_str()
    }
}

impl Eq for DocId {
    ghost use Rattle.std.specs.Cmp.Lexicographic.{nat_list_eq_equiv};

    ghost laws = { nat_list_eq_equiv };
}

impl PartialOrd for DocId {
    ghost use Rattle.std.specs.Prelude.{Some};
    ghost use Rattle.std.specs.Ordering.{nat_cmp};
    ghost use Rattle.std.specs.Cmp.Lexicographic.{slice_cmp, texts_po};

    ghost partial_cmp = { λ x y. Some (slice_cmp nat_cmp x y) };

    ghost laws = { texts_po };

    fn partial_cmp(&self, other: &Self) -> Option<Ordering> {
        Some(self.cmp(other))
    }
}

impl Ord for DocId {
    ghost use Rattle.std.specs.Prelude.{refl};
    ghost use Rattle.std.specs.Ordering.{nat_cmp};
    ghost use Rattle.std.specs.Cmp.Lexicographic.{slice_cmp, nat_list_cmp_total, texts_ties};

    ghost cmp = { slice_cmp nat_cmp };

    ghost total = { nat_list_cmp_total };

    ghost matches_partial_cmp = { λ x y. refl };

    ghost matches_eq = { texts_ties };

    fn cmp(&self, other: &Self) -> Ordering {
        self.as_str().cmp(other.as_str())
    }
}

/// The id of a retention lease: a text of 1 to 512 bytes.
/// Ids are ordered by their bytes. Contracts see the UTF-8 bytes. Copies share the text.
#[derive(Debug, Drop)]
pub struct LeaseId {
    text: ArcStr,
}

impl Model for LeaseId {
    ghost use Rattle.std.specs.Prelude.{List, ℕ};
    ghost use Rattle.std.specs.Arc.{arc_str_bytes};
    ghost use Rattle.ccr_op.specs.Ids.{IsIdText};

    ghost Value = { List ℕ };

    ghost view = { λ a. arc_str_bytes a.text };

    ghost invariant = { λ a. IsIdText (arc_str_bytes a.text) };
}

impl LeaseId {
    /// The id of this text, or `None` exactly where it has none or more than 512 bytes.
    pub fn new(text: ArcStr) -> Option<Self>
        ensures bounds { IsSome result ↔ IsIdText (arc_str_bytes text) }
        ensures value { IfSome result (λ id. id ≡ arc_str_bytes text) }
    {
        let length = text.as_str().len();
        if length == 0 || length > MOST_ID_BYTES {
            return None;
        }
        Some(LeaseId { text })
    }

    /// The text.
    pub fn as_str(&self) -> &str
        ensures value { result.now ≡ self.now }
        ensures bounds { IsIdText self.now }
    {
        self.text.as_str()
    }

    /// An equal id, over the same text: it takes no memory, and fails only where the count of owners is full.
    pub fn copy(&self, _alloc: Global) -> Result<Self, AllocError>
        ensures { IfOk result (λ other. other ≡ self.now) }
    {
        self.clone()
    }
}

impl Clone for LeaseId {
    ghost use Rattle.std.specs.Prelude.{◌≡◌};

    ghost is_clone = { λ a b. b ≡ a };

    fn clone(&self) -> Result<LeaseId, AllocError> {
        let _bounds = self.as_str();
        let text = self.text.clone()?;
        Ok(LeaseId { text })
    }
}

impl PartialEq for LeaseId {
    ghost use Rattle.std.specs.Cmp.Lexicographic.{pointwise, nat_list_eq_equiv};
    ghost use Rattle.std.specs.Bool.{nat_eq};
    ghost use Rattle.std.specs.Cmp;

    ghost eq = { pointwise nat_eq };

    ghost laws = { Cmp.partial_equiv_from_equiv nat_list_eq_equiv };

    fn eq(&self, other: &Self) -> bool {
        self.as_str() == other.as_str()
    }
}

impl Eq for LeaseId {
    ghost use Rattle.std.specs.Cmp.Lexicographic.{nat_list_eq_equiv};

    ghost laws = { nat_list_eq_equiv };
}

impl PartialOrd for LeaseId {
    ghost use Rattle.std.specs.Prelude.{Some};
    ghost use Rattle.std.specs.Ordering.{nat_cmp};
    ghost use Rattle.std.specs.Cmp.Lexicographic.{slice_cmp, texts_po};

    ghost partial_cmp = { λ x y. Some (slice_cmp nat_cmp x y) };

    ghost laws = { texts_po };

    fn partial_cmp(&self, other: &Self) -> Option<Ordering> {
        Some(self.cmp(other))
    }
}

impl Ord for LeaseId {
    ghost use Rattle.std.specs.Prelude.{refl};
    ghost use Rattle.std.specs.Ordering.{nat_cmp};
    ghost use Rattle.std.specs.Cmp.Lexicographic.{slice_cmp, nat_list_cmp_total, texts_ties};

    ghost cmp = { slice_cmp nat_cmp };

    ghost total = { nat_list_cmp_total };

    ghost matches_partial_cmp = { λ x y. refl };

    ghost matches_eq = { texts_ties };

    fn cmp(&self, other: &Self) -> Ordering {
        self.as_str().cmp(other.as_str())
    }
}
