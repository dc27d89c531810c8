//! What a store holds, in parts (what it was founded with, the providers, the statements, the documents, the courses,
//! their editions and their learners), what an entry changes in them, and what is said to its caller. A part knows its
//! own change, but no other part and no command. Begin with `specs/State` and `effect`, then `counted` and `learning`.
#![tactic(auto)]

mod acceptance;
mod counted;
mod courses;
mod edition_keys;
mod editions;
mod effect;
mod founding;
mod launches;
mod learning;
mod providers;
mod registrations;
mod sessions;

pub use acceptance::Acceptance;
pub use counted::Counted;
pub use courses::{Courses, CoursesChange, HeldCourse, course_id, index_meant, newest_edition};
pub use edition_keys::EditionKey;
pub use editions::{Edition, Editions, EditionsChange};
pub use effect::Effect;
pub use founding::{Founding, is_admin, is_base, is_token};
pub use launches::{
    HeldKey, HeldToken, Keys, KeysChange, Launches, LaunchesChange, Tokens, TokensChange,
};
pub use learning::Learning;
pub use providers::{HeldProvider, Providers, ProvidersChange, is_name};
pub use registrations::{
    HeldRegistration, Learner, Registrations, RegistrationsChange, is_learner,
};
pub use sessions::{
    HeldSession, HeldSessions, MadeSession, MadeSessions, MadeSessionsChange, SessionsChange,
};
