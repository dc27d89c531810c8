// What is said to a question.
ghost use Rattle.std.specs.Prelude.{◌≡◌, ◌≤◌, length, IfOk, Some};
ghost use Rattle.std.specs.Option.{option_copied};
ghost use Rattle.lrs_command.specs.declared.command.Read.TheVariants as question;
ghost use Rattle.lrs_refusals.specs.LrsHistoryAnswers.{document_said, documents_said, is_shown, one_said, page_said};
ghost use Rattle.lrs_refusals.specs.LrsHistoryAnswers.{standing_said, wanted_said};
ghost use Rattle.lrs_refusals.specs.LrsHistoryEnrolments.{enrolled};
ghost use Rattle.lrs_refusals.specs.LrsHistoryHistory.{answered_inside, read_answered};
ghost use Rattle.lrs_refusals.specs.LrsHistoryRefusals.{outside_of};
ghost use Rattle.lrs_refusals.specs.LrsHistoryWhose.{launch_of, who_is};
ghost use Rattle.lrs_refusals.specs.LrsMadeLent.{IsLentBy, seen_enrolled};
ghost use Rattle.lrs_refusals.specs.LrsPartsParts.{state_of};
ghost use Rattle.xapi_statement.specs.Statements.{held_under};
ghost use Rattle.xapi_statement.specs.Shown.{shown_text};

use crate::sight::sight_of;
use lrs_command::{Read, Who};
use lrs_json::{Items, Memory};
use lrs_names::Id;
use lrs_record::Caller;
use lrs_refusals::{
    LentEnrolled, Parts, barred, enrolled, launch_of, outside, verdicts_of, who_is,
};
use lrs_replies::{Answered, Refusal, standing_text, states_text, versions_text};
use lrs_rules::Rule;
use std::alloc::Global;
use xapi_docs::Document;
use xapi_keys::WantedDocuments;
use xapi_pages::page_text;
use xapi_query::{MoreLink, Query, Wanted, sees};
use xapi_statement::{Format, HeldStatement};

/// What is said to a caller who asks.
#[tactic(auto, using(crate::proofs::Late::late_alone))]
pub fn read_answered(
    alloc: Global,
    parts: &Parts,
    caller: &Caller,
    read: &Read,
) -> Result<Answered, Memory>
    ensures { IfOk result (λ said. said
        ≡ read_answered (state_of parts.now) (who_is (state_of parts.now) caller.now) read.now) }
{
    let who = who_is(parts, caller);
    match barred(read.area(), who) {
        Some(refusal) => Ok(Answered::Refused(refusal)),
        None => answered_inside(alloc, parts, who, read),
    }
}

// What is said to a caller who is let in.
fn answered_inside(alloc: Global, parts: &Parts, who: Who, read: &Read) -> Result<Answered, Memory>
    ensures { IfOk result (λ said. said ≡ answered_inside (state_of parts.now) who read.now) }
{
    match read {
        Read::Statements(wanted) => wanted_said(alloc, parts, who, wanted),
        Read::More(link) => more_said(alloc, parts, who, link),
        Read::Documents(wanted) => documents_answered(alloc, parts, who, wanted),
        Read::Profile => Ok(Answered::Refused(Refusal::NotFound)),
        Read::Registration(id) => standing_said(alloc, parts, id),
        Read::About => Ok(Answered::Shown {
            text: Items::from_vec(versions_text(alloc)?),
            through: None,
        }),
    }
}

// ---- documents

// What is said to a caller who looks at documents.
fn documents_answered(
    alloc: Global,
    parts: &Parts,
    who: Who,
    wanted: &WantedDocuments,
) -> Result<Answered, Memory>
    ensures { IfOk result (λ said. said
        ≡ answered_inside (state_of parts.now) who (question.Documents wanted.now)) }
{
    match outside_of(parts, who, wanted) {
        Some(refusal) => Ok(Answered::Refused(refusal)),
        None => documents_said(alloc, parts, wanted),
    }
}

// Why a caller doesn't look at documents.
fn outside_of(parts: &Parts, who: Who, wanted: &WantedDocuments) -> Option<Refusal>
    ensures { result ≡ outside_of (launch_of (state_of parts.now) who) wanted.now }
{
    let launch = launch_of(parts, who);
    match wanted {
        WantedDocuments::One(key) => outside(launch, &key.agent, &key.registration),
        WantedDocuments::Ids {
            agent,
            registration,
            ..
        } => outside(launch, agent, registration),
    }
}

fn documents_said(
    alloc: Global,
    parts: &Parts,
    wanted: &WantedDocuments,
) -> Result<Answered, Memory>
    ensures { IfOk result (λ said. said ≡ documents_said (state_of parts.now) wanted.now) }
{
    match wanted {
        WantedDocuments::One(key) => document_said(alloc, parts.documents.get(key)),
        WantedDocuments::Ids {
            activity,
            agent,
            registration,
            since,
        } => {
            let ids = parts.documents.ids(activity, agent, registration, *since)?;
            Ok(Answered::Shown {
                text: Items::from_vec(states_text(alloc, ids.as_slice())?),
                through: None,
            })
        }
    }
}

// The document, where one is held: a copy of its type and its bytes.
fn document_said(alloc: Global, held: Option<&Document>) -> Result<Answered, Memory>
    ensures { IfOk result (λ said. said ≡ document_said (option_copied held.entry)) }
{
    match held {
        Some(document) => {
            let media = document.media.clone()?;
            let bytes = document.bytes.as_slice().to_vec(alloc)?;
            Ok(Answered::Document {
                media,
                bytes: Items::from_vec(bytes),
            })
        }
        None => Ok(Answered::Refused(Refusal::NotFound)),
    }
}

// ---- registrations

// How far the learner of a registration has come, if there is such a registration.
fn standing_said(alloc: Global, parts: &Parts, id: &Id) -> Result<Answered, Memory>
    ensures { IfOk result (λ said. said
        ≡ standing_said (state_of parts.now) (enrolled (state_of parts.now) id.now)) }
{
    match enrolled(parts, id) {
        Some(known) => standing_of(alloc, parts, &known),
        None => Ok(Answered::Refused(Refusal::NotFound)),
    }
}

// The same of the registration that is there.
fn standing_of(alloc: Global, parts: &Parts, known: &LentEnrolled<'_>) -> Result<Answered, Memory>
    requires { IsLentBy (state_of parts.now) known.now }
    ensures { IfOk result (λ said. said
        ≡ standing_said (state_of parts.now) (Some (seen_enrolled known.now))) }
{
    let verdicts = verdicts_of(alloc, parts, known)?;
    let registration = known.registration;
    let edition = known.edition;
    let course = edition.course();
    let body = standing_text(
        alloc,
        &registration.id,
        course.id().text(),
        edition.number(),
        course.nodes(),
        verdicts.as_slice(),
    )?;
    Ok(Answered::Shown {
        text: Items::from_vec(body),
        through: None,
    })
}

// ---- statements

// The page that a link leads to, if there is such a list.
fn more_said(alloc: Global, parts: &Parts, who: Who, link: &MoreLink) -> Result<Answered, Memory>
    ensures { IfOk result (λ said. said ≡ answered_inside (state_of parts.now) who (question.More link.now)) }
{
    if link.asof > parts.statements.len() as u64 {
        return Ok(Answered::Refused(Refusal::Broken(Rule::P(14))));
    }
    page_said(
        alloc,
        parts,
        who,
        &link.query,
        link.asof as usize,
        Some(link.after as usize),
    )
}

fn wanted_said(alloc: Global, parts: &Parts, who: Who, wanted: &Wanted) -> Result<Answered, Memory>
    ensures { IfOk result (λ said. said ≡ wanted_said (state_of parts.now) who wanted.now) }
{
    match wanted {
        Wanted::One(id, format) => one_said(alloc, parts, who, *format, false, id),
        Wanted::Voided(id, format) => one_said(alloc, parts, who, *format, true, id),
        Wanted::Many(query) => { page_said(alloc, parts, who, query, parts.statements.len(), None) }
    }
}

// The statement of an id, if it is voided or isn't, as is asked.
fn one_said(
    alloc: Global,
    parts: &Parts,
    who: Who,
    format: Format,
    voided: bool,
    id: &Id,
) -> Result<Answered, Memory>
    ensures { IfOk result (λ said. said
        ≡ one_said (state_of parts.now) who format voided (held_under id.now parts.now.statements.held)) }
{
    let Some(held) = parts.statements.find(id) else {
        return Ok(Answered::Refused(Refusal::NotFound));
    };
    if !is_shown(parts, who, voided, held) {
        return Ok(Answered::Refused(Refusal::NotFound));
    }
    Ok(Answered::Shown {
        text: Items::from_vec(statement_text(alloc, format, held)?),
        through: Some(parts.last),
    })
}

fn is_shown(parts: &Parts, who: Who, voided: bool, held: &HeldStatement) -> bool
    ensures { result ≡ is_shown (state_of parts.now) who voided held.now }
{
    sees(&sight_of(parts, who), held) && parts.statements.is_voided(held) == voided
}

// What most statements have room in, so that few bodies grow while they are written.
const BODY_ROOM: usize = 1_024;

// A statement as it is shown.
fn statement_text(alloc: Global, format: Format, held: &HeldStatement) -> Result<Vec<u8>, Memory>
    ensures { IfOk result (λ body. body.items ≡ shown_text format held.now) }
{
    let mut body = Vec::with_capacity(alloc, BODY_ROOM)?;
    held.write(format, &mut body)?;
    Ok(body)
}

// The page after a position in the list as of the first n statements.
fn page_said(
    alloc: Global,
    parts: &Parts,
    who: Who,
    query: &Query,
    n: usize,
    after: Option<usize>,
) -> Result<Answered, Memory>
    requires { n ≤ length parts.now.statements.held }
    ensures { IfOk result (λ said. said ≡ page_said (state_of parts.now) who query.now n after) }
{
    let body = page_text(
        alloc,
        &parts.statements,
        query,
        &sight_of(parts, who),
        n,
        after,
    )?;
    Ok(Answered::Shown {
        text: Items::from_vec(body),
        through: Some(parts.last),
    })
}
