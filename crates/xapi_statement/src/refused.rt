ghost use Rattle.std.specs.Prelude.{◌≡◌, ◌⊎◌, ◌↔◌, None, Some, Err, IsTrue, MatchResult};
ghost use Rattle.lrs_json.specs.View.{view};
ghost use Rattle.xapi_statement.specs.Statement.{is_too_long, refusal};

use crate::length::is_too_long;
use lrs_json::{Memory, Tree};
use std::alloc::Global;
use xapi_properties::broken_rule;

/// Why a value is no statement of the store.
#[derive(Clone, Copy, Debug, PartialEq, Eq)]
pub enum StatementRefused {
    /// Its written form has more than 262,144 bytes.
    TooLong,
    /// It breaks a rule, of S1 to S32; this is the least.
    Broken { rule: u8 },
    Memory,
}

impl From<Memory> for StatementRefused {
    ghost use Rattle.xapi_statement.specs.declared.refused.StatementRefused.TheVariants as StatementRefused;

    ghost from_gives = { λ _ r. r ≡ StatementRefused.Memory };

    fn from(_: Memory) -> StatementRefused {
        StatementRefused::Memory
    }
}

/// Holds a value against the length and the rules of a statement.
#[tactic(auto, unfolding(crate::specs::Statement::refusal))]
pub fn judge(alloc: Global, tree: &Tree) -> Result<(), StatementRefused>
    ensures judged { MatchResult result (λ _. refusal (view tree.now) ≡ None)
        (λ e. (refusal (view tree.now) ≡ Some e) ⊎ (e ≡ StatementRefused.Memory)) }
    ensures too_long { (result ≡ Err StatementRefused.TooLong) ↔ IsTrue (is_too_long (view tree.now)) }
{
    if is_too_long(tree) {
        return Err(StatementRefused::TooLong);
    }
    match broken_rule(alloc, tree) {
        Ok(Some(rule)) => Err(StatementRefused::Broken { rule }),
        Ok(None) => Ok(()),
        Err(Memory) => Err(StatementRefused::Memory),
    }
}
