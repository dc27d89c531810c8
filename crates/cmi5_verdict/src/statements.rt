// The statements over which is asked.
ghost use Rattle.std.specs.Prelude.{◌≡◌};
ghost use Rattle.cmi5_verdict.specs.Statements.{all_of};
ghost use Rattle.cmi5_session.specs.XapiStatementStatements.{is_target, is_voided, voided_by, voids};

use cmi5_session::{StoredStatement, is_that_id};
use lrs_names::Id;
use xapi_index::Index;

/// Statements that are held, and those that come behind them.
#[derive(Clone, Copy)]
pub struct Statements<'a> {
    pub held: &'a Index,
    pub new: &'a [StoredStatement],
}

impl<'a> Statements<'a> {
    /// Whether a statement is voided, by one that is held or by a new one. Goes through the new ones.
    pub fn is_voided(&self, statement: &StoredStatement) -> bool
        ensures { result ≡ is_voided (all_of self.now) statement.now }
    {
        !statement.is_voiding() && self.is_target(&statement.id())
    }

    // Whether one of them voids the statement of that id.
    fn is_target(&self, id: &Id) -> bool
        ensures { result ≡ is_target id.now (all_of self.now) }
    {
        if self.held.is_target(id) {
            return true;
        }
        is_target_of(self.new, id)
    }
}

fn is_target_of(statements: &[StoredStatement], id: &Id) -> bool
    ensures { result ≡ is_target id.now statements.now }
{
    for statement in statements {
        if voids(id, statement) {
            return true;
        }
    }
    false
}

// Whether it voids the statement of that id.
fn voids(id: &Id, statement: &StoredStatement) -> bool
    ensures { result ≡ voids id.now statement.now }
{
    is_that_id(id, voided_by(statement))
}

/// The id of the statement that this one voids.
pub fn voided_by(statement: &StoredStatement) -> Option<Id>
    ensures { result ≡ voided_by statement.now }
{
    if statement.is_voiding() {
        statement.target()
    } else {
        None
    }
}
