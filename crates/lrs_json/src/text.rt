ghost use Rattle.std.specs.Prelude.{◌≡◌, IsUtf8};

use crate::Memory;
use std::alloc::{AllocError, Global};
use std::cmp::Ordering;
use std::marker::Model;

/// A text of its own. Contracts see it as its list of bytes.
#[derive(Drop)]
pub struct Text {
    string: String,
}

impl Model for Text {
    ghost use Rattle.std.specs.Prelude.{List, ℕ, string_bytes};

    ghost Value = { List ℕ };

    ghost view = { λ t. string_bytes t.string };
}

impl Text {
    ghost use Rattle.std.specs.Prelude.{◌≡◌, IfOk, IsUtf8};

    /// Copies the text.
    pub fn of(alloc: Global, text: &str) -> Result<Text, Memory>
        ensures copied { IfOk result (λ t. t ≡ text.now) }
        ensures utf8 { IfOk result (λ t. IsUtf8 t) }
    {
        Ok(Text {
            string: String::from_str(alloc, text)?,
        })
    }

    /// The text, lent.
    pub fn as_str(&self) -> &str
        ensures lent { result.now ≡ self.now }
        ensures utf8 { IsUtf8 self.now }
    {
        self.string.as_str()
    }

    /// The text as UTF-8, lent.
    pub fn as_bytes(&self) -> &[u8]
        ensures lent { result.now ≡ self.now }
        ensures utf8 { IsUtf8 self.now }
    {
        self.as_str().as_bytes()
    }

    /// Where a copy of the text may stand.
    pub fn allocator(&self) -> Global {
        *self.string.allocator()
    }
}

/// The text that the bytes are, if they are known to be UTF-8, as those of an id and of a moment are.
pub fn utf8_text(bytes: &[u8]) -> &str
    requires { IsUtf8 bytes.now }
    ensures { result.now ≡ bytes.now }
{
    match str::from_utf8(bytes) {
        Ok(text) => text,
        Err(_) => unreachable!(),
    }
}

impl Clone for Text {
    ghost use Rattle.std.specs.Prelude.{◌≡◌};

    ghost is_clone = { λ old new. new ≡ old };

    fn clone(&self) -> Result<Text, AllocError> {
        Ok(Text {
            string: String::from_str(self.allocator(), self.as_str())?,
        })
    }
}

impl PartialEq for Text {
    ghost use Rattle.std.specs.Str.{bytes_eq};
    ghost use Rattle.std.specs.Cmp;
    ghost use Rattle.std.specs.Cmp.Lexicographic.{nat_list_eq_equiv};

    ghost eq = { bytes_eq };

    ghost laws = { Cmp.partial_equiv_from_equiv nat_list_eq_equiv };

    fn eq(&self, other: &Text) -> bool {
        self.as_str() == other.as_str()
    }
}

impl Eq for Text {
    ghost use Rattle.std.specs.Cmp.Lexicographic.{nat_list_eq_equiv};

    ghost laws = { nat_list_eq_equiv };
}

impl PartialOrd for Text {
    ghost use Rattle.std.specs.Prelude.{Some};
    ghost use Rattle.std.specs.Ordering.{nat_cmp};
    ghost use Rattle.std.specs.Cmp.Lexicographic.{slice_cmp, texts_po};

    ghost partial_cmp = { λ x y. Some (slice_cmp nat_cmp x y) };

    ghost laws = { texts_po };

    fn partial_cmp(&self, other: &Text) -> Option<Ordering> {
        Some(self.cmp(other))
    }
}

impl Ord for Text {
    ghost use Rattle.std.specs.Prelude.{refl};
    ghost use Rattle.std.specs.Ordering.{nat_cmp};
    ghost use Rattle.std.specs.Cmp.Lexicographic.{slice_cmp, nat_list_cmp_total, texts_ties};

    ghost cmp = { slice_cmp nat_cmp };

    ghost total = { nat_list_cmp_total };

    ghost matches_partial_cmp = { λ x y. refl };

    ghost matches_eq = { texts_ties };

    fn cmp(&self, other: &Text) -> Ordering {
        self.as_str().cmp(other.as_str())
    }
}
