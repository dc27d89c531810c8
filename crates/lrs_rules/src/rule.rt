ghost use Rattle.std.specs.Prelude.{◌≡◌, IfOk};
ghost use Rattle.lrs_rules.specs.Rules.{letter_of, number_of, rule_text};

use lrs_json::Memory;
use std::alloc::Global;

/// A rule that a request breaks, by its family and its number in it, such as S4.
#[derive(Clone, Copy, Debug, PartialEq, Eq)]
pub enum Rule {
    /// On who may ask.
    A(u8),
    /// On bodies.
    B(u8),
    /// On what a caller may write.
    C(u8),
    /// On fields of a request.
    F(u8),
    /// On JSON.
    J(u8),
    /// On courses.
    K(u8),
    /// On parameters.
    P(u8),
    /// On statements.
    S(u8),
    /// On state documents.
    T(u8),
}

impl Rule {
    /// The letter of its family.
    pub fn letter(&self) -> u8
        ensures { result ≡ letter_of self.now }
    {
        match self {
            Rule::A(_) => b'A',
            Rule::B(_) => b'B',
            Rule::C(_) => b'C',
            Rule::F(_) => b'F',
            Rule::J(_) => b'J',
            Rule::K(_) => b'K',
            Rule::P(_) => b'P',
            Rule::S(_) => b'S',
            Rule::T(_) => b'T',
        }
    }

    /// Its number in its family.
    pub fn number(&self) -> u8
        ensures { result ≡ number_of self.now }
    {
        match self {
            Rule::A(number)
            | Rule::B(number)
            | Rule::C(number)
            | Rule::F(number)
            | Rule::J(number)
            | Rule::K(number)
            | Rule::P(number)
            | Rule::S(number)
            | Rule::T(number) => *number,
        }
    }

    /// Its name, such as `S4`.
    pub fn text(&self, alloc: Global) -> Result<Vec<u8>, Memory>
        ensures { IfOk result (λ text. text.items ≡ rule_text self.now) }
    {
        let number = self.number();
        let digits = format!(in alloc; "{number}")?;
        let mut text = vec![in alloc; self.letter()]?;
        text.extend_from_slice(digits.as_bytes())?;
        Ok(text)
    }
}
