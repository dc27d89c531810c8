// Room in the parts for an effect that is to come.
ghost use Rattle.std.specs.Prelude.{◌≡◌, ◌+◌, ◌<◌, ◌^◌, None, Some, IfOk, IfSome, OnOk, option_map};
ghost use Rattle.std.specs.Cmp.Lexicographic.{slice_cmp};
ghost use Rattle.std.specs.Ordering.{nat_cmp};
ghost use Rattle.cmi5_running_sessions.specs.Room as room;
ghost use Rattle.cmi5_running_verdicts.specs.Holding.{StandBehindHolders};
ghost use Rattle.cmi5_running_verdicts.specs.Cmi5VerdictNodes.{seen};
ghost use Rattle.lrs_state.specs.Counted.{HasRoomToCount, MakesSlotFor};
ghost use Rattle.lrs_state.specs.Learning.{IsLearningReadyFor, KeepsLearning, MakesLearningSlots};
ghost use Rattle.lrs_parts.specs.Progress.{IsEnrolmentOf, IsProgressReadyFor};
ghost use Rattle.lrs_state.specs.Providers.{token_of};
ghost use Rattle.lrs_state.specs.declared.registrations.HeldRegistration.{HeldRegistration as SpecRegistration};
ghost use Rattle.lrs_register.specs.Slots.{MakesSlots};
ghost use Rattle.xapi_docs.specs.Docs.{HasRoomForDocuments, documents_in, is_written};
ghost use Rattle.xapi_docs.specs.XapiKeysKeys.{key_cmp};
ghost use Rattle.std.specs.Vec.Iter.{into_iter_items};
ghost use Rattle.cmi5_running_verdicts.specs.XapiIndexAhead.{AreTextsOf};
ghost use Rattle.cmi5_running_verdicts.specs.XapiIndexIndex.{IsIndexReadyFor};

use crate::Progress;
use crate::following::enrolment_in;
use cmi5_running_verdicts::{Enrolment, Index};
use lrs_json::Memory;
use lrs_state::{
    Editions, Effect, Founding, HeldRegistration, Learning, Providers, RegistrationsChange,
};
use std::vec::IntoIter;
use xapi_docs::Docs;
use xapi_statement::ReceivedText;

// ---- what is kept of progress

/// Makes room for an effect in what is kept of progress. There is none if it replaces an edition or a registration, or
/// if a registration comes without its edition: no command does that.
pub(crate) fn ready_progress(
    progress: &mut Progress,
    founding: &Option<Founding>,
    editions: &Editions,
    statements: &Index,
    effect: &Effect,
) -> Result<(), Memory>
    ensures made { room.MakesSlots effect.now.statements progress.old.sessions progress.new.sessions }
    ensures held { progress.new.running.held ≡ progress.old.running.held }
    ensures ready { OnOk result (IsProgressReadyFor progress.new founding.now editions.now.held statements.now.held
        effect.now) }
{
    let enrolment = enrolment_of_effect(founding, editions, effect)?;
    progress.ready(statements, effect.statements.as_slice(), enrolment.as_ref())
}

// What verdicts look at of a registration that comes, if one does.
fn enrolment_of_effect<'a>(
    founding: &'a Option<Founding>,
    editions: &'a Editions,
    effect: &'a Effect,
) -> Result<Option<Enrolment<'a>>, Memory>
    ensures editions { IfOk result (λ _. effect.now.editions.replaced ≡ None) }
    ensures registrations { IfOk result (λ _. effect.now.registrations.replaced ≡ None) }
    ensures enrolment { IfOk result (λ e. (r : SpecRegistration) → effect.now.registrations.new ≡ Some r
        → IsEnrolmentOf founding.now editions.now.held r (option_map seen e)) }
    ensures behind { IfOk result (λ e. IfSome e (λ its. StandBehindHolders its.nodes.now)) }
{
    match &effect.editions.replaced {
        Some(_) => Err(Memory),
        None => enrolment_of_change(founding, editions, &effect.registrations),
    }
}

fn enrolment_of_change<'a>(
    founding: &'a Option<Founding>,
    editions: &'a Editions,
    change: &'a RegistrationsChange,
) -> Result<Option<Enrolment<'a>>, Memory>
    ensures registrations { IfOk result (λ _. change.now.replaced ≡ None) }
    ensures enrolment { IfOk result (λ e. (r : SpecRegistration) → change.now.new ≡ Some r
        → IsEnrolmentOf founding.now editions.now.held r (option_map seen e)) }
    ensures behind { IfOk result (λ e. IfSome e (λ its. StandBehindHolders its.nodes.now)) }
{
    match &change.replaced {
        Some(_) => Err(Memory),
        None => enrolment_of_new(founding, editions, &change.new),
    }
}

fn enrolment_of_new<'a>(
    founding: &'a Option<Founding>,
    editions: &'a Editions,
    coming: &'a Option<HeldRegistration>,
) -> Result<Option<Enrolment<'a>>, Memory>
    ensures enrolment { IfOk result (λ e. (r : SpecRegistration) → coming.now ≡ Some r
        → IsEnrolmentOf founding.now editions.now.held r (option_map seen e)) }
    ensures behind { IfOk result (λ e. IfSome e (λ its. StandBehindHolders its.nodes.now)) }
{
    match coming {
        Some(registration) => enrolment_of(founding, editions, registration),
        None => Ok(None),
    }
}

fn enrolment_of<'a>(
    founding: &'a Option<Founding>,
    editions: &'a Editions,
    registration: &'a HeldRegistration,
) -> Result<Option<Enrolment<'a>>, Memory>
    ensures enrolment { IfOk result (λ e.
        IsEnrolmentOf founding.now editions.now.held registration.now (option_map seen e)) }
    ensures behind { IfOk result (λ e. IfSome e (λ its. StandBehindHolders its.nodes.now)) }
{
    match enrolment_in(founding, editions, registration) {
        Some(enrolment) => Ok(Some(enrolment)),
        None => Err(Memory),
    }
}

// ---- all parts

/// Makes room for an effect in each part. There is none if the entries, of which there are so many, can't be counted
/// any more.
pub(crate) fn ready_each(
    progress: &mut Progress,
    founding: &Option<Founding>,
    providers: &mut Providers,
    statements: &mut Index,
    documents: &mut Docs,
    learning: &mut Learning,
    entries: u64,
    texts: &mut IntoIter<ReceivedText>,
    effect: &Effect,
) -> Result<(), Memory>
    requires { AreTextsOf (into_iter_items texts.old) effect.now.statements }
    ensures same_running { progress.new.running.held ≡ progress.old.running.held }
    ensures same_providers { providers.new.held ≡ providers.old.held }
    ensures same_statements { statements.new.held ≡ statements.old.held }
    ensures same_documents { documents_in documents.new ≡ documents_in documents.old }
    ensures same_learning { KeepsLearning learning.old learning.new }
    ensures ready_progress { OnOk result (IsProgressReadyFor progress.new founding.now learning.old.editions.held
        statements.old.held effect.now) }
    ensures ready_providers { OnOk result
        (HasRoomToCount (slice_cmp nat_cmp) token_of providers.new effect.now.providers) }
    ensures ready_statements { OnOk result (IsIndexReadyFor statements.new effect.now.statements) }
    ensures ready_documents { OnOk result (HasRoomForDocuments documents.new effect.now.documents) }
    ensures ready_learning { OnOk result (IsLearningReadyFor learning.new effect.now) }
    ensures countable { OnOk result (entries + 1 < 2 ^ 64) }
    ensures made_sessions { room.MakesSlots effect.now.statements progress.old.sessions progress.new.sessions }
    ensures made_providers { MakesSlotFor (slice_cmp nat_cmp) token_of effect.now.providers
        providers.old providers.new }
    ensures made_documents { MakesSlots key_cmp (is_written effect.now.documents) documents.old documents.new }
    ensures made_learning { MakesLearningSlots learning.old learning.new effect.now }
{
    ready_progress(progress, founding, &learning.editions, statements, effect)?;
    if entries == u64::MAX {
        return Err(Memory);
    }
    providers.ready(&effect.providers)?;
    statements.ready(texts, effect.statements.as_slice())?;
    documents.ready_change(&effect.documents)?;
    learning.ready(effect)
}
