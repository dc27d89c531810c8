// Why a write is refused.
ghost use Rattle.std.specs.Prelude.{◌≡◌, ℕ, List, IfOk, Ok, None};
ghost use Rattle.std.specs.Option.{option_copied};
ghost use Rattle.lrs_made.specs.LrsHistoryLaunches.{target};
ghost use Rattle.lrs_made.specs.LrsHistoryRefusals.{bad_form, conflict, missing, refusal, refusal_at, unless_there, unmergeable, unmergeable_with};
ghost use Rattle.lrs_made.specs.LrsHistoryWhose.{who_is};
ghost use Rattle.lrs_made.specs.LrsPartsParts.{state_of};
ghost use Rattle.lrs_made.specs.LrsStateCourses.{index_meant};
ghost use Rattle.lrs_made.specs.LrsStateLaunches.{index_of_session, key_under};
ghost use Rattle.lrs_record.specs.Entries.{IsLawfulWrite};
ghost use Rattle.lrs_refusals.specs.Judged.{IsJudged};
ghost use Rattle.lrs_refusals.specs.Known.{IsKnown};
ghost use Rattle.lrs_refusals.specs.Meeting.{occasion_of};
ghost use Rattle.lrs_refusals.specs.Submissions.{IsWrittenIf};

use crate::Known;
use crate::courses::refused_course;
use crate::forms::{refused_batch, refused_form};
use crate::meeting::{refused_put, refused_together};
use crate::whose::barred_document;
use crate::written::PreparedTexts;
use lrs_command::Who;
use lrs_json::{Memory, Text};
use lrs_made::{
    Parts, barred, index_meant, refused_agent, refused_document, refused_enrolment, refused_idle,
    refused_name, target,
};
use lrs_media::is_json;
use lrs_names::{Draw, Id, Iri};
use lrs_record::{Entry, How, Write};
use lrs_replies::Refusal;
use lrs_rules::Rule;
use std::alloc::Global;
use xapi_docs::{Document, MergeRefused, merge};

/// Why an entry's write is refused whatever room there is. What isn't refused breaks no rule on statements and courses.
/// Who its caller is was found before; what is found out about its statements is handed on. If anything was written of
/// it, its form was judged before and is unbroken, so it isn't judged again.
pub fn refusal(
    alloc: Global,
    parts: &Parts,
    who: Who,
    written: Option<&PreparedTexts>,
    entry: &Entry,
    known: &mut Known,
) -> Result<Option<Refusal>, Memory>
    requires lawful { IsLawfulWrite entry.now.write }
    requires who { who ≡ who_is (state_of parts.now) entry.now.caller }
    requires written { IsWrittenIf entry.now.write (option_copied written) }
    requires known { IsKnown (state_of parts.now) entry.now.draw entry.now.write known.old }
    ensures refused { IfOk result (λ refused. refused ≡ refusal (state_of parts.now) entry.now) }
    ensures judged { result ≡ Ok None → IsJudged entry.now.write }
    ensures known { IsKnown (state_of parts.now) entry.now.draw entry.now.write known.new }
{
    refusal_of(alloc, parts, who, written, &entry.draw, &entry.write, known)
}

#[tactic(auto, using(crate::proofs::Judged::judged_form))]
fn refusal_of(
    alloc: Global,
    parts: &Parts,
    who: Who,
    written: Option<&PreparedTexts>,
    draw: &Draw,
    write: &Write,
    known: &mut Known,
) -> Result<Option<Refusal>, Memory>
    requires lawful { IsLawfulWrite write.now }
    requires written { IsWrittenIf write.now (option_copied written) }
    requires known { IsKnown (state_of parts.now) draw.now write.now known.old }
    ensures refused { IfOk result (λ refused. (moment : ℕ) (token : List ℕ) → refused
        ≡ refusal_at (state_of parts.now)
        (occasion_of (state_of parts.now) who draw.now write.now moment token) write.now) }
    ensures judged { result ≡ Ok None → IsJudged write.now }
    ensures known { IsKnown (state_of parts.now) draw.now write.now known.new }
{
    if let Some(refusal) = barred(write.area(), who) {
        return Ok(Some(refusal));
    }
    if let Some(refusal) = form_refusal(alloc, written, write)? {
        return Ok(Some(refusal));
    }
    if let Some(refusal) = barred_document(parts, who, write) {
        return Ok(Some(refusal));
    }
    if let Some(refusal) = missing(parts, write)? {
        return Ok(Some(refusal));
    }
    if let Some(refusal) = unmergeable(alloc, parts, write)? {
        return Ok(Some(refusal));
    }
    conflict(alloc, parts, who, draw, write, known)
}

// Why a write isn't looked at, whatever the store holds. Of one that was judged before nothing is left to be told.
fn form_refusal(
    alloc: Global,
    written: Option<&PreparedTexts>,
    write: &Write,
) -> Result<Option<Refusal>, Memory>
    requires { IsWrittenIf write.now (option_copied written) }
    ensures { IfOk result (λ refused. refused ≡ bad_form write.now) }
{
    match written {
        Some(_) => Ok(None),
        None => bad_form(alloc, write),
    }
}

/// Why a write isn't looked at, whatever the store holds.
pub(crate) fn bad_form(alloc: Global, write: &Write) -> Result<Option<Refusal>, Memory>
    ensures { IfOk result (λ refused. refused ≡ bad_form write.now) }
{
    match write {
        Write::Found { .. } => Ok(Some(Refusal::NotFound)),
        Write::Provider { name } => Ok(refused_name(name)),
        Write::Put { id, statement } => refused_form(alloc, id, statement),
        Write::Post { statements } => refused_batch(alloc, statements.as_slice()),
        Write::State {
            how: _,
            key,
            media,
            bytes,
        } => Ok(refused_document(&key.agent, media, bytes.as_slice())),
        Write::Drop { agent, .. } => Ok(refused_agent(agent)),
        Write::Course { tree } => refused_course(alloc, tree),
        Write::Enrol { actor, edition, .. } => Ok(refused_enrolment(actor, *edition)),
        Write::Sweep { idle } => Ok(refused_idle(*idle)),
        Write::Launch { .. } | Write::Fetch { .. } | Write::Waive { .. } | Write::Abandon { .. } =>
            Ok(None),
    }
}

// Why a write doesn't find what it speaks of: the course of an enrolment or the edition of it that it names, the
// registration or the unit of a launch or a waiver, the key of a fetch, the session that is abandoned.
fn missing(parts: &Parts, write: &Write) -> Result<Option<Refusal>, Memory>
    ensures { IfOk result (λ refused. refused ≡ missing (state_of parts.now) write.now) }
{
    match write {
        Write::Enrol {
            course,
            edition,
            ..
        } => missing_edition(parts, course, *edition),
        Write::Launch {
            registration,
            unit,
            ..
        } => Ok(missing_unit(parts, registration, unit)),
        Write::Fetch { key } => Ok(missing_key(parts, key)),
        Write::Waive {
            registration,
            unit,
            ..
        } => Ok(missing_unit(parts, registration, unit)),
        Write::Abandon { session } => Ok(missing_session(parts, session)),
        _ => Ok(None),
    }
}

// The course of an enrolment, or the edition of it that it names.
fn missing_edition(
    parts: &Parts,
    course: &Iri,
    edition: Option<u32>,
) -> Result<Option<Refusal>, Memory>
    ensures { IfOk result (λ refused. refused ≡ unless_there (index_meant course.now edition
        (state_of parts.now).courses (state_of parts.now).editions)) }
{
    let learning = &parts.learning;
    match index_meant(
        &learning.courses,
        &learning.editions,
        course.text(),
        edition,
    )? {
        Some(_) => Ok(None),
        None => Ok(Some(Refusal::NotFound)),
    }
}

// The key of a fetch.
fn missing_key(parts: &Parts, key: &Text) -> Option<Refusal>
    ensures { result ≡ unless_there (key_under key.now (state_of parts.now).keys) }
{
    match parts.learning.keys.find(key) {
        Some(_) => None,
        None => Some(Refusal::NotFound),
    }
}

// The session that is abandoned.
fn missing_session(parts: &Parts, session: &Id) -> Option<Refusal>
    ensures { result ≡ unless_there (index_of_session session.now (state_of parts.now).launches) }
{
    match parts.learning.launches.index_of(session) {
        Some(_) => None,
        None => Some(Refusal::NotFound),
    }
}

// The registration or the unit of a launch or a waiver.
fn missing_unit(parts: &Parts, registration: &Id, unit: &Iri) -> Option<Refusal>
    ensures { result ≡ unless_there (target (state_of parts.now) registration.now unit.now) }
{
    match target(parts, registration, unit) {
        Some(_) => None,
        None => Some(Refusal::NotFound),
    }
}

// Why a document isn't merged into the one that is held.
fn unmergeable(alloc: Global, parts: &Parts, write: &Write) -> Result<Option<Refusal>, Memory>
    ensures { IfOk result (λ refused. refused ≡ unmergeable (state_of parts.now) write.now) }
{
    match write {
        Write::State {
            how: How::Post,
            key,
            media,
            bytes,
        } => unmergeable_with(alloc, media, bytes.as_slice(), parts.documents.get(key)),
        _ => Ok(None),
    }
}

// Why what is posted isn't merged into the document that is held.
fn unmergeable_with(
    alloc: Global,
    media: &Text,
    bytes: &[u8],
    held: Option<&Document>,
) -> Result<Option<Refusal>, Memory>
    ensures { IfOk result (λ refused. refused ≡ unmergeable_with media.now bytes.now (option_copied held.entry)) }
{
    let Some(held) = held else {
        return Ok(None);
    };
    if !is_json(held.media.as_str()) || !is_json(media.as_str()) {
        return Ok(Some(Refusal::Broken(Rule::T(1))));
    }
    match merge(alloc, held.bytes.as_slice(), bytes) {
        Ok(merged) => {
            drop(merged);
            Ok(None)
        }
        Err(MergeRefused::NotObjects) => Ok(Some(Refusal::Broken(Rule::T(2)))),
        Err(MergeRefused::Memory) => Err(Memory),
    }
}

// What a write meets in the store.
fn conflict(
    alloc: Global,
    parts: &Parts,
    who: Who,
    draw: &Draw,
    write: &Write,
    known: &mut Known,
) -> Result<Option<Refusal>, Memory>
    requires lawful { IsLawfulWrite write.now }
    requires known { IsKnown (state_of parts.now) draw.now write.now known.old }
    ensures refused { IfOk result (λ refused. (moment : ℕ) (token : List ℕ) → refused
        ≡ conflict (state_of parts.now)
        (occasion_of (state_of parts.now) who draw.now write.now moment token) write.now) }
    ensures known { IsKnown (state_of parts.now) draw.now write.now known.new }
{
    match write {
        Write::Put { id, statement } => refused_put(alloc, parts, who, id, statement, known),
        Write::Post { statements } => {
            refused_together(alloc, parts, who, draw, statements.as_slice(), known)
        }
        _ => Ok(None),
    }
}
