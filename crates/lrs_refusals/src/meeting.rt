// What the statements of a write meet in the store. What is found out about them on the way is noted.
ghost use Rattle.std.specs.Prelude.{◌≡◌, ◌++◌, ◌∷◌, [], ℕ, List, length, not, true, IfOk, MatchResult, None, OnOk};
ghost use Rattle.std.specs.Prelude.{Some};
ghost use Rattle.lrs_made.specs.Cmi5SessionRules.{broken_outside, broken_rule};
ghost use Rattle.lrs_made.specs.Cmi5SessionViews.{seen, view_of};
ghost use Rattle.lrs_made.specs.LrsHistoryOccasions.{supply_in};
ghost use Rattle.lrs_made.specs.LrsHistoryRefusals.{conflict, forbidden, refused_under, told_forbidden};
ghost use Rattle.lrs_ids.specs.Choices.{when};
ghost use Rattle.lrs_json.specs.View.{view};
ghost use Rattle.lrs_made.specs.LrsPartsParts.{state_of};
ghost use Rattle.lrs_record.specs.Entries.{AreLawfulTrees, IsLawfulTree};
ghost use Rattle.lrs_record.specs.declared.entry.Write.TheVariants as write;
ghost use Rattle.lrs_refusals.specs.Known.{is_given_held, is_own_held, own_held, AreTold, IsKnownOf, IsKnownUnder};
ghost use Rattle.lrs_refusals.specs.Known.{IsTold};
ghost use Rattle.lrs_refusals.specs.Meeting.{occasion_of, refused_behind, refused_each, refused_next, session_behind};
ghost use Rattle.lrs_refusals.specs.Meeting.{told_if_held, was_abandoned};
ghost use Rattle.lrs_refusals.specs.Naming.{with_these_ids};
ghost use Rattle.lrs_replies.specs.declared.answered.Refusal.TheVariants as refusal;
ghost use Rattle.lrs_rules.specs.declared.rule.Rule.TheVariants as rule;
ghost use Rattle.xapi_alike.specs.Same.{same};
ghost use Rattle.xapi_index.specs.Batches.{with_ids};
ghost use Rattle.xapi_statement.specs.Statements.{is_held};
ghost use Rattle.xapi_statement.specs.Statement.{own_id};

use crate::batch::batch_of;
use crate::whose::{launch_of, was_abandoned};
use crate::{Batch, Known};
use cmi5_course::Launch;
use cmi5_session::{Forbidden, SessionView, permitted, permitted_outside};
use lrs_command::Who;
use lrs_json::{Items, Memory, Tree};
use lrs_made::Parts;
use lrs_names::{Draw, Id};
use lrs_replies::Refusal;
use lrs_rules::Rule;
use std::alloc::Global;
use xapi_alike::same_received;
use xapi_statement::{HeldStatement, own_id};

// ---- a new statement

// Why a statement of a session isn't kept, if it is new.
fn forbidden_to(session: &SessionView<'_>, statement: &Tree) -> Option<Refusal>
    ensures { result ≡ told_forbidden (broken_rule (seen session.now) (view statement.now)) }
{
    told(permitted(session, statement))
}

// Why a statement of another caller isn't kept, if it is new.
fn forbidden_outside(admin: bool, statement: &Tree) -> Option<Refusal>
    ensures { result ≡ told_forbidden (broken_outside admin (view statement.now)) }
{
    told(permitted_outside(admin, statement))
}

fn told(may: Result<(), Forbidden>) -> Option<Refusal>
    ensures { MatchResult may (λ u. result ≡ None) (λ f. result ≡ Some (refusal.Forbidden (rule.C f.rule))) }
{
    match may {
        Ok(()) => None,
        Err(forbidden) => Some(Refusal::Forbidden(Rule::C(forbidden.rule))),
    }
}

// The session of a caller, which has that launch, as its next statement finds it. Its token was fetched.
fn session_of<'a>(parts: &Parts, who: Who, launch: &'a Launch) -> SessionView<'a>
    ensures { seen result
        ≡ view_of launch.now true (was_abandoned (state_of parts.now) who) parts.now.statements.held }
{
    parts.session_view(launch, true, was_abandoned(parts, who))
}

// Why a statement isn't kept, if it is new.
fn forbidden(parts: &Parts, who: Who, statement: &Tree) -> Option<Refusal>
    ensures { result ≡ forbidden (state_of parts.now) who parts.now.statements.held (view statement.now) }
{
    match who {
        Who::Admin => forbidden_outside(true, statement),
        Who::Unknown | Who::Provider(_) => forbidden_outside(false, statement),
        Who::Session(number) => match parts.learning.launches.get(number) {
            Some(launch) => forbidden_to(&session_of(parts, who, launch), statement),
            None => None,
        },
    }
}

// ---- a statement under an id

// Why a statement isn't kept that comes under an id under which that one is held. What was written as the held one was
// is the same: then its tree isn't read.
fn refused_beside(
    alloc: Global,
    id: &Id,
    statement: &Tree,
    held: &HeldStatement,
) -> Result<Option<Refusal>, Memory>
    requires { IsLawfulTree (view statement.now) }
    ensures { IfOk result (λ refused. refused
        ≡ when (not (same (view held.now.received) (view statement.now))) (refusal.Conflict id.now)) }
{
    if held.is_received_as(statement) {
        Ok(None)
    } else {
        refused_unless_same(alloc, id, statement, held)
    }
}

fn refused_unless_same(
    alloc: Global,
    id: &Id,
    statement: &Tree,
    held: &HeldStatement,
) -> Result<Option<Refusal>, Memory>
    ensures { IfOk result (λ refused. refused
        ≡ when (not (same (view held.now.received) (view statement.now))) (refusal.Conflict id.now)) }
{
    let received = held.received(alloc)?;
    let is_same = same_received(&received, statement);
    drop(received);
    if is_same {
        Ok(None)
    } else {
        Ok(Some(Refusal::Conflict(*id)))
    }
}

// What is told of a statement that comes under the id of one that is held. Of a new one nothing is told here.
fn told_if_held(
    alloc: Global,
    parts: &Parts,
    id: Option<Id>,
    statement: &Tree,
) -> Result<Option<Option<Refusal>>, Memory>
    requires { IsLawfulTree (view statement.now) }
    ensures { IfOk result (λ told. told ≡ told_if_held (state_of parts.now) id (view statement.now)) }
{
    let Some(id) = id else {
        return Ok(None);
    };
    match parts.statements.find(&id) {
        Some(held) => {
            let refused = refused_beside(alloc, &id, statement, held)?;
            Ok(Some(refused))
        }
        None => Ok(None),
    }
}

// What a statement meets that comes under an id, or under none.
#[derive(Drop)]
struct Meeting {
    // Why it isn't kept.
    refused: Option<Refusal>,
    // Whether one is held under its id.
    is_held: bool,
}

// The same of a caller, behind what is held alone.
fn meeting_under(
    alloc: Global,
    parts: &Parts,
    who: Who,
    id: Option<Id>,
    statement: &Tree,
) -> Result<Meeting, Memory>
    requires { IsLawfulTree (view statement.now) }
    ensures refused { IfOk result (λ m. m.refused ≡ refused_under (state_of parts.now)
        (forbidden (state_of parts.now) who parts.now.statements.held (view statement.now))
        id (view statement.now)) }
    ensures held { IfOk result (λ m. m.is_held ≡ is_given_held (state_of parts.now) id) }
{
    if let Some(told) = told_if_held(alloc, parts, id, statement)? {
        return Ok(Meeting {
            refused: told,
            is_held: true,
        });
    }
    Ok(Meeting {
        refused: forbidden(parts, who, statement),
        is_held: false,
    })
}

/// Why the statement of a put isn't kept, under that id. Whether one is held under it is noted.
pub(crate) fn refused_put(
    alloc: Global,
    parts: &Parts,
    who: Who,
    id: &Id,
    statement: &Tree,
    known: &mut Known,
) -> Result<Option<Refusal>, Memory>
    requires lawful { IsLawfulTree (view statement.now) }
    requires known { IsKnownUnder (state_of parts.now) id.now known.old }
    ensures refused { IfOk result (λ refused. refused ≡ refused_under (state_of parts.now)
        (forbidden (state_of parts.now) who parts.now.statements.held (view statement.now))
        (Some id.now) (view statement.now)) }
    ensures known { IsKnownUnder (state_of parts.now) id.now known.new }
{
    let meeting = meeting_under(alloc, parts, who, Some(*id), statement)?;
    let Meeting { refused, is_held } = meeting;
    *known = Known::Put { is_held };
    Ok(refused)
}

// ---- statements that come together

/// Why statements that come together aren't kept: the refusal of the first that is refused. If none is, the ids under
/// which they go are noted, and under which of them one is held.
pub(crate) fn refused_together(
    alloc: Global,
    parts: &Parts,
    who: Who,
    draw: &Draw,
    statements: &[Tree],
    known: &mut Known,
) -> Result<Option<Refusal>, Memory>
    requires lawful { AreLawfulTrees statements.now }
    requires known { IsKnownOf (state_of parts.now) draw.now statements.now known.old }
    ensures refused { IfOk result (λ refused. (moment : ℕ) (token : List ℕ) → refused ≡ conflict (state_of parts.now)
        (occasion_of (state_of parts.now) who draw.now (write.Post statements.now) moment token)
        (write.Post statements.now)) }
    ensures known { IsKnownOf (state_of parts.now) draw.now statements.now known.new }
{
    match launch_of(parts, who) {
        Some(launch) => refused_in_session(alloc, parts, who, launch, draw, statements, known),
        None => refused_alone(alloc, parts, who, draw, statements, known),
    }
}

// ---- of a caller whose statements are looked at one by one

fn refused_alone(
    alloc: Global,
    parts: &Parts,
    who: Who,
    draw: &Draw,
    statements: &[Tree],
    known: &mut Known,
) -> Result<Option<Refusal>, Memory>
    requires lawful { AreLawfulTrees statements.now }
    requires known { IsKnownOf (state_of parts.now) draw.now statements.now known.old }
    ensures refused { IfOk result (λ refused. refused ≡ refused_each (state_of parts.now) who statements.now) }
    ensures known { IsKnownOf (state_of parts.now) draw.now statements.now known.new }
{
    let batch = batch_of(alloc, parts, draw, statements)?;
    let Batch {
        ids,
        mut held,
        supply,
    } = batch;
    let refused = refused_each(alloc, parts, who, statements, &mut held)?;
    match refused {
        Some(refusal) => Ok(Some(refusal)),
        None => {
            *known = Known::Batch(Batch { ids, held, supply });
            Ok(None)
        }
    }
}

fn refused_each(
    alloc: Global,
    parts: &Parts,
    who: Who,
    statements: &[Tree],
    held: &mut Items<bool>,
) -> Result<Option<Refusal>, Memory>
    requires { AreLawfulTrees statements.now }
    ensures refused { IfOk result (λ refused. refused ≡ refused_each (state_of parts.now) who statements.now) }
    ensures held { IfOk result (λ refused. refused ≡ None
        → held.new ≡ held.old ++ own_held (state_of parts.now) statements.now) }
{
    for statement in statements {
        if let Some(refusal) = refused_own(alloc, parts, who, statement, held)? {
            return Ok(Some(refusal));
        }
    }
    Ok(None)
}

// Under its own id.
fn refused_own(
    alloc: Global,
    parts: &Parts,
    who: Who,
    statement: &Tree,
    held: &mut Items<bool>,
) -> Result<Option<Refusal>, Memory>
    requires { IsLawfulTree (view statement.now) }
    ensures refused { IfOk result (λ refused. refused ≡ refused_under (state_of parts.now)
        (forbidden (state_of parts.now) who parts.now.statements.held (view statement.now))
        (own_id (view statement.now)) (view statement.now)) }
    ensures held { OnOk result (held.new ≡ held.old ++ is_own_held (state_of parts.now) statement.now ∷ []) }
{
    let meeting = meeting_under(alloc, parts, who, own_id(statement), statement)?;
    let Meeting { refused, is_held } = meeting;
    held.push(is_held)?;
    Ok(refused)
}

// ---- of a session

fn refused_in_session(
    alloc: Global,
    parts: &Parts,
    who: Who,
    launch: &Launch,
    draw: &Draw,
    statements: &[Tree],
    known: &mut Known,
) -> Result<Option<Refusal>, Memory>
    requires lawful { AreLawfulTrees statements.now }
    requires known { IsKnownOf (state_of parts.now) draw.now statements.now known.old }
    ensures refused { IfOk result (λ refused. refused ≡ refused_behind (state_of parts.now)
        (view_of launch.now true (was_abandoned (state_of parts.now) who) parts.now.statements.held)
        (with_ids (supply_in (state_of parts.now) (write.Post statements.now) draw.now) statements.now)) }
    ensures known { IsKnownOf (state_of parts.now) draw.now statements.now known.new }
{
    let batch = batch_of(alloc, parts, draw, statements)?;
    let Batch {
        ids,
        mut held,
        supply,
    } = batch;
    let session = session_of(parts, who, launch);
    let refused = refused_behind(alloc, parts, session, ids.as_slice(), statements, &mut held)?;
    match refused {
        Some(refusal) => Ok(Some(refusal)),
        None => {
            *known = Known::Batch(Batch { ids, held, supply });
            Ok(None)
        }
    }
}

fn refused_behind(
    alloc: Global,
    parts: &Parts,
    session: SessionView<'_>,
    ids: &[Id],
    statements: &[Tree],
    held: &mut Items<bool>,
) -> Result<Option<Refusal>, Memory>
    requires lawful { AreLawfulTrees statements.now }
    requires long { length ids.now ≡ length statements.now }
    requires told { AreTold (state_of parts.now) (with_these_ids ids.now statements.now) }
    ensures refused { IfOk result (λ refused. refused ≡ refused_behind (state_of parts.now) (seen session.entry)
        (with_these_ids ids.now statements.now)) }
    ensures held { IfOk result (λ refused. refused ≡ None
        → held.new ≡ held.old ++ own_held (state_of parts.now) statements.now) }
{
    let mut session = session;
    for at in 0..statements.len() {
        let id = &ids[at];
        let statement = &statements[at];
        let meeting = meet_one(alloc, parts, &session, statement, held)?;
        let Meeting { refused, is_held } = meeting;
        match refused {
            None => session = session_behind(parts, session, id, statement, is_held),
            Some(refusal) => return Ok(Some(refusal)),
        }
    }
    Ok(None)
}

// What the next statement of a session meets. Whether one is held under its own id is noted.
fn meet_one(
    alloc: Global,
    parts: &Parts,
    session: &SessionView<'_>,
    statement: &Tree,
    held: &mut Items<bool>,
) -> Result<Meeting, Memory>
    requires { IsLawfulTree (view statement.now) }
    ensures refused { IfOk result (λ m. m.refused
        ≡ refused_next (state_of parts.now) (seen session.now) statement.now) }
    ensures own { IfOk result (λ m. m.is_held ≡ is_own_held (state_of parts.now) statement.now) }
    ensures held { OnOk result (held.new ≡ held.old ++ is_own_held (state_of parts.now) statement.now ∷ []) }
{
    let meeting = meeting_in(alloc, parts, session, statement)?;
    held.push(meeting.is_held)?;
    Ok(meeting)
}

// What the next statement of a session meets, under its own id or a made one.
fn meeting_in(
    alloc: Global,
    parts: &Parts,
    session: &SessionView<'_>,
    statement: &Tree,
) -> Result<Meeting, Memory>
    requires { IsLawfulTree (view statement.now) }
    ensures refused { IfOk result (λ m. m.refused
        ≡ refused_next (state_of parts.now) (seen session.now) statement.now) }
    ensures held { IfOk result (λ m. m.is_held ≡ is_own_held (state_of parts.now) statement.now) }
{
    if let Some(told) = told_if_held(alloc, parts, own_id(statement), statement)? {
        return Ok(Meeting {
            refused: told,
            is_held: true,
        });
    }
    Ok(Meeting {
        refused: forbidden_to(session, statement),
        is_held: false,
    })
}

// The session behind a statement that comes under that id, if none is held under it.
fn session_behind<'a>(
    parts: &Parts,
    session: SessionView<'a>,
    id: &Id,
    statement: &Tree,
    held: bool,
) -> SessionView<'a>
    requires { held ≡ is_held id.now (state_of parts.now).statements }
    ensures { seen result ≡ session_behind (state_of parts.now) (seen session.entry)
        (record { id = id.now; tree = statement.now }) }
{
    if held {
        return session;
    }
    session.behind(statement, parts.statements.is_target(id))
}
