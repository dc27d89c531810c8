//! All parts of a store in memory, and how they take an entry's effect in. Beside the parts of `lrs_state` stands what
//! is kept of how far sessions and registrations have come, which follows the others. Begin with `parts`, then
//! `following` and `told`. `spent` is what is left of an effect.
#![tactic(auto)]

mod following;
mod parts;
mod progress;
mod readying;
mod spent;
mod told;
mod trees;

pub use cmi5_running_verdicts::{Enrolment, push_if};
pub use lrs_state::{
    Acceptance, Courses, CoursesChange, Edition, Editions, EditionsChange, Effect, Founding,
    HeldCourse, HeldKey, HeldProvider, HeldRegistration, HeldSession, HeldToken, KeysChange,
    LaunchesChange, Learner, Learning, MadeSession, MadeSessionsChange, ProvidersChange,
    Registrations, RegistrationsChange, SessionsChange, TokensChange, course_id, index_meant,
    is_admin, is_base, is_learner, is_name, is_token, newest_edition,
};
pub use parts::Parts;
pub use progress::Progress;
pub use spent::SpentEffect;
