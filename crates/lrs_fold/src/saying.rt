// What is said of a write that isn't refused.
ghost use Rattle.std.specs.Prelude.{◌≡◌, ℕ, List, None, IfOk, if◌then◌else◌};
ghost use Rattle.lrs_reads.specs.LrsHistoryAnswers.{acceptance_said, write_said};
ghost use Rattle.lrs_replies.specs.declared.answered.Answered.TheVariants.{Kept, Same, Shown};

use lrs_json::{Items, Memory};
use lrs_learning::{Acceptance, Effect};
use lrs_replies::{
    Answered, course_text, ids_text, key_used_text, launch_text, provider_text, registration_text,
    session_closed_text, session_token_text, swept_text,
};
use std::alloc::Global;

/// What is said of a write by what it changes.
pub(crate) fn write_said(alloc: Global, effect: &Effect) -> Result<Answered, Memory>
    ensures { IfOk result (λ said. said ≡ write_said effect.now) }
{
    acceptance_said(alloc, &effect.acceptance, effect.changes_nothing())
}

// What is told of what was made, or why no token is given away; else whether anything changes.
fn acceptance_said(alloc: Global, acceptance: &Acceptance, same: bool) -> Result<Answered, Memory>
    ensures { IfOk result (λ said. said ≡ acceptance_said acceptance.now (if same then Same else Kept)) }
{
    match acceptance {
        Acceptance::Plain => {
            if same {
                Ok(Answered::Same)
            } else {
                Ok(Answered::Kept)
            }
        }
        Acceptance::Ids(ids) => shown(ids_text(alloc, ids.as_slice())),
        Acceptance::Provider { index, token } => shown(provider_text(alloc, *index, token)),
        Acceptance::Course { id, edition } => shown(course_text(alloc, id, *edition)),
        Acceptance::Registration(id) => shown(registration_text(alloc, id)),
        Acceptance::Launch {
            session,
            method,
            url,
        } => shown(launch_text(alloc, session, *method, url)),
        Acceptance::Swept(sessions) => shown(swept_text(alloc, sessions.as_slice())),
        Acceptance::Token(token) => shown(session_token_text(alloc, token)),
        Acceptance::KeyUsed => shown(key_used_text(alloc)),
        Acceptance::SessionClosed => shown(session_closed_text(alloc)),
    }
}

// A text that tells nothing of the statements.
fn shown(text: Result<Vec<u8>, Memory>) -> Result<Answered, Memory>
    ensures { (body : List ℕ) → IfOk text (λ told. told.items ≡ body)
        → IfOk result (λ said. said ≡ Shown body None) }
{
    match text {
        Ok(body) => Ok(Answered::Shown {
            text: Items::from_vec(body),
            through: None,
        }),
        Err(refused) => Err(refused),
    }
}
