//! The parameters of requests for statements and state documents: the pairs that a query string spells, the rules P1 to
//! P14 that they break, and what they ask for.
#![tactic(auto)]

mod asked;
mod broken;
mod documents;
mod dropped;
mod laws;
mod link;
mod pair;
mod parameters;
mod query;
mod refused;
mod values;
mod wanted;

pub use documents::{read_documents, read_dropped, read_key};
pub use dropped::DroppedDocuments;
pub use laws::law_of_links;
pub use link::read_link;
pub use pair::{Pair, pairs};
pub use refused::QueryRefused;
pub use wanted::{no_parameters, put_id, read_wanted};
