ghost use Rattle.std.specs.Prelude.{◌≡◌, IfOk, Some};
ghost use Rattle.std.specs.Arc.{arc_str_bytes};
ghost use Rattle.std.specs.Str.{bytes_eq};
ghost use Rattle.std.specs.Ordering.{nat_cmp};
ghost use Rattle.std.specs.Cmp.Lexicographic.{pointwise, slice_cmp};
ghost use Rattle.std.specs.Bool.{nat_eq};

use std::alloc::{AllocError, Global};
use std::cmp::Ordering;
use std::marker::Model;
use std::sync::ArcStr;

/// A text of any length: the name of a cluster, an index or a field, or a pattern of such names.
/// Names are ordered by their bytes. Contracts see the UTF-8 bytes. Copies share the text.
#[derive(Debug, Drop)]
pub struct Name {
    text: ArcStr,
}

impl Model for Name {
    ghost use Rattle.std.specs.Prelude.{List, ℕ};
    ghost use Rattle.std.specs.Arc.{arc_str_bytes};

    ghost Value = { List ℕ };

    ghost view = { λ a. arc_str_bytes a.text };
}

impl Name {
    /// The name of this text.
    pub fn new(text: ArcStr) -> Self
        ensures { result ≡ arc_str_bytes text }
    {
        Name { text }
    }

    /// The text.
    pub fn as_str(&self) -> &str
        ensures { result.now ≡ self.now }
    {
        self.text.as_str()
    }

    /// Whether the other has the same bytes.
    pub fn is(&self, other: &Name) -> bool
        ensures { result ≡ bytes_eq self.now other.now }
    {
        self.text.as_str() == other.text.as_str()
    }

    /// An equal name, over the same text: it takes no memory, and fails only where the count of owners is full.
    pub fn copy(&self, _alloc: Global) -> Result<Self, AllocError>
        ensures { IfOk result (λ other. other ≡ self.now) }
    {
        self.clone()
    }
}

impl Clone for Name {
    ghost use Rattle.std.specs.Prelude.{◌≡◌};

    ghost is_clone = { λ a b. b ≡ a };

    fn clone(&self) -> Result<Name, AllocError> {
        let text = self.text.clone()?;
        Ok(Name { text })
    }
}

impl PartialEq for Name {
    ghost use Rattle.std.specs.Cmp.Lexicographic.{pointwise, nat_list_eq_equiv};
    ghost use Rattle.std.specs.Bool.{nat_eq};
    ghost use Rattle.std.specs.Cmp;

    ghost eq = { pointwise nat_eq };

    ghost laws = { Cmp.partial_equiv_from_equiv nat_list_eq_equiv };

    fn eq(&self, other: &Self) -> bool {
        self.as_str() == other.as_str()
    }
}

impl Eq for Name {
    ghost use Rattle.std.specs.Cmp.Lexicographic.{nat_list_eq_equiv};

    ghost laws = { nat_list_eq_equiv };
}

impl PartialOrd for Name {
    ghost use Rattle.std.specs.Prelude.{Some};
    ghost use Rattle.std.specs.Ordering.{nat_cmp};
    ghost use Rattle.std.specs.Cmp.Lexicographic.{slice_cmp, texts_po};

    ghost partial_cmp = { λ x y. Some (slice_cmp nat_cmp x y) };

    ghost laws = { texts_po };

    fn partial_cmp(&self, other: &Self) -> Option<Ordering> {
        Some(self.cmp(other))
    }
}

impl Ord for Name {
    ghost use Rattle.std.specs.Prelude.{refl};
    ghost use Rattle.std.specs.Ordering.{nat_cmp};
    ghost use Rattle.std.specs.Cmp.Lexicographic.{slice_cmp, nat_list_cmp_total, texts_ties};

    ghost cmp = { slice_cmp nat_cmp };

    ghost total = { nat_list_cmp_total };

    ghost matches_partial_cmp = { λ x y. refl };

    ghost matches_eq = { texts_ties };

    fn cmp(&self, other: &Self) -> Ordering {
        self.as_str().cmp(other.as_str())
    }
}

/// The source of a document, as its JSON text. Contracts see its UTF-8 bytes. Copies share the text.
#[derive(Debug, Drop)]
pub struct Body {
    text: ArcStr,
}

impl Model for Body {
    ghost use Rattle.std.specs.Prelude.{List, ℕ};
    ghost use Rattle.std.specs.Arc.{arc_str_bytes};

    ghost Value = { List ℕ };

    ghost view = { λ a. arc_str_bytes a.text };
}

impl Body {
    /// The source of this text.
    pub fn new(text: ArcStr) -> Self
        ensures { result ≡ arc_str_bytes text }
    {
        Body { text }
    }

    /// The text.
    pub fn as_str(&self) -> &str
        ensures { result.now ≡ self.now }
    {
        self.text.as_str()
    }

    /// Whether the other has the same bytes.
    pub fn is(&self, other: &Body) -> bool
        ensures { result ≡ bytes_eq self.now other.now }
    {
        self.text.as_str() == other.text.as_str()
    }

    /// An equal source, over the same text: it takes no memory, and fails only where the count of owners is full.
    pub fn copy(&self, _alloc: Global) -> Result<Self, AllocError>
        ensures { IfOk result (λ other. other ≡ self.now) }
    {
        self.clone()
    }
}

impl Clone for Body {
    ghost use Rattle.std.specs.Prelude.{◌≡◌};

    ghost is_clone = { λ a b. b ≡ a };

    fn clone(&self) -> Result<Body, AllocError> {
        let text = self.text.clone()?;
        Ok(Body { text })
    }
}
