//! What follows from the definitions of the abstract store over every history. Nothing runs here: each law is a clause
//! of a function that does nothing.
#![tactic(auto)]

mod laws;

pub use laws::{
    law_of_answers, law_of_documents, law_of_editions, law_of_fetches, law_of_former_histories,
    law_of_names, law_of_pages, law_of_sessions, law_of_verdicts,
};
