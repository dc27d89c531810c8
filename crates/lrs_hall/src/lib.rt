//! Conversations: the desk answers the requests of a connection, one connection after the other, and workers take it in
//! turns. Begin with `acting`, one act under the turn, and `exchange`, one request and its response; `conversation` and
//! `serving` repeat it, and `workers` has one worker for each door.
#![tactic(auto)]

mod acting;
mod admitted;
mod answering;
mod conversation;
mod draws;
mod exchange;
mod laws;
mod serving;
mod talk;
mod workers;

pub use conversation::converse;
pub use draws::Draws;
pub use laws::{
    law_of_entries, law_of_one_stream, law_of_one_worker, law_of_order, law_of_own_entries,
    law_of_points, law_of_receipts, law_of_refusals, law_of_unread_requests,
};
pub use lrs_machine::{
    Answered, Desk, DeskRefused, FoundRefused, MigrateRefused, Migrated, Receipt, Record, Refusal,
    Trouble, is_base, is_token,
};
pub use serving::ServeEnd;
pub use talk::{Finish, Talk};
pub use workers::serve_all;
