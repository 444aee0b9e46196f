//! A borrowed text for use as a field type.

ghost use Rattle.std.specs.Prelude.{◌≡◌, ℕ, List, Some, bytes_eq, refl};
ghost use Rattle.std.specs.Cmp.{partial_equiv_from_equiv};
ghost use Rattle.std.specs.Cmp.Lexicographic.{slice_cmp, nat_list_cmp_total, nat_list_eq_equiv, texts_po, texts_ties};
ghost use Rattle.std.specs.Ordering.{nat_cmp};

use std::cmp::Ordering;
use std::marker::Model;

/// A borrowed text, ordered by its bytes. Clauses see only its bytes, so a struct or an enum that
/// holds it is the same type in code and in definitions.
#[derive(Drop)]
pub struct TextRef<'a> {
    text: &'a str,
}

impl<'a> Model for TextRef<'a> {
    ghost Value = { List ℕ };

    ghost view = { λ borrowed. borrowed.text.now };
}

impl<'a> TextRef<'a> {
    /// Returns `text` as a `TextRef`.
    pub fn new(text: &'a str) -> TextRef<'a>
        ensures { result ≡ text.now }
    {
        TextRef { text }
    }

    /// Returns the text.
    pub fn as_str(&self) -> &'a str
        ensures { result.now ≡ self.now }
    {
        self.text
    }
}

impl<'a> PartialEq for TextRef<'a> {
    ghost eq = { bytes_eq };

    ghost laws = { partial_equiv_from_equiv nat_list_eq_equiv };

    fn eq(&self, other: &TextRef<'a>) -> bool {
        self.text == other.text
    }
}

impl<'a> Eq for TextRef<'a> {
    ghost laws = { nat_list_eq_equiv };
}

impl<'a> PartialOrd for TextRef<'a> {
    ghost partial_cmp = { λ a b. Some (slice_cmp nat_cmp a b) };

    ghost laws = { texts_po };

    fn partial_cmp(&self, other: &TextRef<'a>) -> Option<Ordering> {
        Some(self.cmp(other))
    }
}

impl<'a> Ord for TextRef<'a> {
    ghost cmp = { slice_cmp nat_cmp };

    ghost total = { nat_list_cmp_total };

    ghost matches_partial_cmp = { λ a b. refl };

    ghost matches_eq = { texts_ties };

    fn cmp(&self, other: &TextRef<'a>) -> Ordering {
        self.text.cmp(other.text)
    }
}
