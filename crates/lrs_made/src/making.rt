// The ids under which the statements go that the store makes.
ghost use Rattle.std.specs.Prelude.{◌≡◌, ◌++◌, ◌∷◌, [], OnOk};
ghost use Rattle.lrs_history.specs.Made.{left_behind, made_under};
ghost use Rattle.lrs_ids.specs.IdSupply.{GiveSame, left_of};
ghost use Rattle.lrs_ids.specs.Ids.{rest_of};
ghost use Rattle.lrs_json.specs.View.{view};
ghost use Rattle.lrs_made.specs.Said.{jsons_of};
ghost use Rattle.lrs_parts.specs.Parts.{state_of};
ghost use Rattle.lrs_history.specs.LrsStateState.{used_in};

use lrs_ids::IdSupply;
use lrs_json::Memory;
use lrs_parts::Parts;
use lrs_time::Moment;
use xapi_statement::{Authority, Statement, StoredStatement};

/// Puts statements behind those that were made, each under the next id of a supply, with the store's own authority.
/// The rest of the supply is left.
pub fn make_under(
    parts: &Parts,
    supply: &mut IdSupply,
    moment: Moment,
    said: Vec<Statement>,
    made: &mut Vec<StoredStatement>,
) -> Result<(), Memory>
    ensures made { OnOk result (made.new.items
        ≡ made.old.items
        ++ made_under (left_of (used_in (state_of parts.now)) supply.old) moment (jsons_of said.items)) }
    ensures left { OnOk result (GiveSame (left_of (used_in (state_of parts.now)) supply.new)
        (left_behind (left_of (used_in (state_of parts.now)) supply.old) said.items)) }
{
    for statement in said {
        make_one(parts, supply, moment, statement, made)?;
    }
    Ok(())
}

/// The same of one statement.
pub fn make_one(
    parts: &Parts,
    supply: &mut IdSupply,
    moment: Moment,
    statement: Statement,
    made: &mut Vec<StoredStatement>,
) -> Result<(), Memory>
    ensures made { OnOk result (made.new.items
        ≡ made.old.items
        ++ made_under (left_of (used_in (state_of parts.now)) supply.old) moment (view statement.tree ∷ [])) }
    ensures left { OnOk result (GiveSame (left_of (used_in (state_of parts.now)) supply.new)
        (rest_of (left_of (used_in (state_of parts.now)) supply.old))) }
{
    let id = supply.make(parts)?;
    made.push(statement.complete(id, moment, Authority::Desk))?;
    Ok(())
}
