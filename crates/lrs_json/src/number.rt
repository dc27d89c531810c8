ghost use Rattle.std.specs.Prelude.{◌≡◌, IsUtf8};
ghost use Rattle.lrs_decimal.specs.Numbers.{IsNumber};

use crate::Text;
use std::alloc::AllocError;
use std::marker::Model;

/// A number in its spelling (RFC 8259, section 6). Contracts see it as its list of bytes.
#[derive(Drop)]
pub struct Number {
    spelling: Text,
}

impl Model for Number {
    ghost use Rattle.std.specs.Prelude.{List, ℕ};
    ghost use Rattle.lrs_decimal.specs.Numbers.{IsNumber};

    ghost Value = { List ℕ };

    ghost view = { λ n. n.spelling };

    ghost invariant = { λ n. IsNumber n.spelling };
}

impl Number {
    /// Takes the spelling over.
    pub fn of(spelling: Text) -> Number
        requires { IsNumber spelling }
        ensures { result ≡ spelling }
    {
        Number { spelling }
    }

    /// The spelling, lent.
    pub fn as_str(&self) -> &str
        ensures lent { result.now ≡ self.now }
        ensures utf8 { IsUtf8 self.now }
        ensures number { IsNumber self.now }
    {
        self.spelling.as_str()
    }

    /// The spelling as UTF-8, lent.
    pub fn as_bytes(&self) -> &[u8]
        ensures lent { result.now ≡ self.now }
        ensures utf8 { IsUtf8 self.now }
        ensures number { IsNumber self.now }
    {
        self.spelling.as_bytes()
    }
}

impl Clone for Number {
    ghost use Rattle.std.specs.Prelude.{◌≡◌};

    ghost is_clone = { λ old new. new ≡ old };

    fn clone(&self) -> Result<Number, AllocError> {
        Ok(Number {
            spelling: self.spelling.clone()?,
        })
    }
}

impl PartialEq for Number {
    ghost use Rattle.std.specs.Str.{bytes_eq};
    ghost use Rattle.std.specs.Cmp;
    ghost use Rattle.std.specs.Cmp.Lexicographic.{nat_list_eq_equiv};

    ghost eq = { bytes_eq };

    ghost laws = { Cmp.partial_equiv_from_equiv nat_list_eq_equiv };

    fn eq(&self, other: &Number) -> bool {
        self.spelling == other.spelling
    }
}

impl Eq for Number {
    ghost use Rattle.std.specs.Cmp.Lexicographic.{nat_list_eq_equiv};

    ghost laws = { nat_list_eq_equiv };
}
