// That blocks and courses are satisfied.
ghost use Rattle.std.specs.Prelude.{◌≡◌, ◌++◌, ◌∷◌, [], IfOk, IfSome, OnOk, filter_map, option_map};
ghost use Rattle.std.specs.Option.{option_copied};
ghost use Rattle.lrs_history.specs.Enrolments.{owed_behind};
ghost use Rattle.lrs_history.specs.Made.{left_behind, made_under, owed_jsons, owed_made, satisfied_at, satisfied_json};
ghost use Rattle.lrs_ids.specs.IdSupply.{GiveSame, left_of};
ghost use Rattle.lrs_json.specs.View.{view};
ghost use Rattle.lrs_made.specs.Lent.{IsLentBy, seen_enrolled};
ghost use Rattle.lrs_made.specs.Said.{jsons_of};
ghost use Rattle.lrs_parts.specs.Parts.{state_of};
ghost use Rattle.lrs_history.specs.LrsStateState.{used_in};

use crate::enrolments::LentEnrolled;
use crate::making::make_under;
use crate::saying::statement_of;
use cmi5_course::Node;
use cmi5_launch::{Made, activity_id};
use lrs_ids::IdSupply;
use lrs_json::Memory;
use lrs_names::Id;
use lrs_parts::Parts;
use lrs_time::Moment;
use std::alloc::Global;
use xapi_statement::{Statement, StoredStatement};

/// Puts behind the statements that were made what the store says of its own behind them, in that session: which nodes
/// of a registration are satisfied. Nothing is said where there is no registration. The rest of the supply is left.
pub fn add_owed(
    alloc: Global,
    parts: &Parts,
    enrolled: Option<&LentEnrolled<'_>>,
    session: &Id,
    moment: Moment,
    supply: &mut IdSupply,
    made: &mut Vec<StoredStatement>,
) -> Result<(), Memory>
    requires { IfSome (option_copied enrolled) (λ e. IsLentBy (state_of parts.now) e) }
    ensures made { OnOk result (made.new.items
        ≡ made.old.items
        ++ owed_made (state_of parts.now) session.now (left_of (used_in (state_of parts.now)) supply.old) moment
        made.old.items (option_map seen_enrolled (option_copied enrolled.entry))) }
    ensures left { OnOk result (GiveSame (left_of (used_in (state_of parts.now)) supply.new)
        (left_behind (left_of (used_in (state_of parts.now)) supply.old)
        (owed_made (state_of parts.now) session.now (left_of (used_in (state_of parts.now)) supply.old) moment
        made.old.items (option_map seen_enrolled (option_copied enrolled.entry))))) }
{
    match enrolled {
        Some(enrolled) => add_owed_in(alloc, parts, enrolled, session, moment, supply, made),
        None => Ok(()),
    }
}

// The same of a registration that is there.
fn add_owed_in(
    alloc: Global,
    parts: &Parts,
    enrolled: &LentEnrolled<'_>,
    session: &Id,
    moment: Moment,
    supply: &mut IdSupply,
    made: &mut Vec<StoredStatement>,
) -> Result<(), Memory>
    requires { IsLentBy (state_of parts.now) enrolled.now }
    ensures made { OnOk result (made.new.items
        ≡ made.old.items
        ++ made_under (left_of (used_in (state_of parts.now)) supply.old) moment
        (owed_jsons (state_of parts.now) session.now made.old.items (seen_enrolled enrolled.now))) }
    ensures left { OnOk result (GiveSame (left_of (used_in (state_of parts.now)) supply.new)
        (left_behind (left_of (used_in (state_of parts.now)) supply.old)
        (owed_jsons (state_of parts.now) session.now made.old.items (seen_enrolled enrolled.now)))) }
{
    let said = owed_statements(alloc, parts, made.as_slice(), enrolled, session)?;
    make_under(parts, supply, moment, said, made)
}

// What is to be said behind these new statements.
fn owed_statements(
    alloc: Global,
    parts: &Parts,
    new: &[StoredStatement],
    enrolled: &LentEnrolled<'_>,
    session: &Id,
) -> Result<Vec<Statement>, Memory>
    requires { IsLentBy (state_of parts.now) enrolled.now }
    ensures { IfOk result (λ said. jsons_of said.items
        ≡ owed_jsons (state_of parts.now) session.now new.now (seen_enrolled enrolled.now)) }
{
    let indices = owed_indices(alloc, parts, new, enrolled)?;
    satisfied_statements(alloc, enrolled, session, indices.as_slice())
}

// The numbers of the nodes of which it is to be said.
fn owed_indices(
    alloc: Global,
    parts: &Parts,
    new: &[StoredStatement],
    enrolled: &LentEnrolled<'_>,
) -> Result<Vec<u32>, Memory>
    requires { IsLentBy (state_of parts.now) enrolled.now }
    ensures { IfOk result (λ indices. indices.items
        ≡ owed_behind (state_of parts.now) new.now (seen_enrolled enrolled.now)) }
{
    parts.owed(alloc, enrolled.registration, &enrolled.enrolment(), new)
}

// That each of these nodes is satisfied, in that session.
fn satisfied_statements(
    alloc: Global,
    enrolled: &LentEnrolled<'_>,
    session: &Id,
    indices: &[u32],
) -> Result<Vec<Statement>, Memory>
    ensures { IfOk result (λ said. jsons_of said.items
        ≡ filter_map (satisfied_at (seen_enrolled enrolled.now) session.now) indices.now) }
{
    let mut said = Vec::with_capacity(alloc, indices.len())?;
    for index in indices {
        push_satisfied(alloc, enrolled, session, *index, &mut said)?;
    }
    Ok(said)
}

// Says it of the node of that number, if there is one.
fn push_satisfied(
    alloc: Global,
    enrolled: &LentEnrolled<'_>,
    session: &Id,
    index: u32,
    said: &mut Vec<Statement>,
) -> Result<(), Memory>
    ensures { OnOk result (jsons_of said.new.items ≡ jsons_of said.old.items
        ++ filter_map (satisfied_at (seen_enrolled enrolled.now) session.now) (index ∷ [])) }
{
    let course = enrolled.edition.course();
    match course.node_at(index) {
        Some(node) => push_of_node(alloc, enrolled, session, index, node, said),
        None => Ok(()),
    }
}

fn push_of_node(
    alloc: Global,
    enrolled: &LentEnrolled<'_>,
    session: &Id,
    index: u32,
    node: &Node,
    said: &mut Vec<Statement>,
) -> Result<(), Memory>
    ensures { OnOk result (jsons_of said.new.items ≡ jsons_of said.old.items
        ++ satisfied_json (seen_enrolled enrolled.now) session.now index node.now ∷ []) }
{
    let statement = satisfied_statement(alloc, enrolled, session, index, node)?;
    said.push(statement)?;
    Ok(())
}

// That the node of that number is satisfied, in that session.
fn satisfied_statement(
    alloc: Global,
    enrolled: &LentEnrolled<'_>,
    session: &Id,
    index: u32,
    node: &Node,
) -> Result<Statement, Memory>
    ensures { IfOk result (λ s. view s.tree
        ≡ satisfied_json (seen_enrolled enrolled.now) session.now index node.now) }
{
    let registration = enrolled.registration;
    let made = Made::Satisfied { kind: node.kind };
    let activity = activity_id(alloc, enrolled.base.text(), registration.edition, index)?;
    statement_of(alloc, &made, registration, &activity, &node.id, session)
}
