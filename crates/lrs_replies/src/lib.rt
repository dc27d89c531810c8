//! What the store says to a command, and the reply that says it: its status, its body and the texts in it.
#![tactic(auto)]

mod answered;
mod reply;
mod saying;
mod showing;
mod standing;

pub use answered::{Answered, Refusal};
pub use reply::{Body, Media, Reply, Trouble};
pub use saying::{reply_to, status_in};
pub use showing::{
    course_text, ids_text, key_used_text, launch_text, provider_text, registration_text,
    session_closed_text, session_token_text, states_text, swept_text, token_text, versions_text,
};
pub use standing::standing_text;
