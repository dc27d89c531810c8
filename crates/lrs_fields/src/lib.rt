//! The fields of which a write is kept: what one can hold, how they are lent and written as the members of an object,
//! and how the value of each is read from the text. Begin with `Lent` and `text_behind`.
#![tactic(auto)]

mod agents;
mod digits;
mod fields;
mod lent;

pub use digits::{draw_digits, draw_of, is_printed, put_word};
pub use fields::{
    actor_behind, agent_behind, bytes_behind, id_behind, iri_behind, number_behind,
    optional_id_behind, optional_iri_behind, optional_number_behind, optional_text_behind,
    text_behind, tree_behind, trees_behind,
};
pub use lent::{Lent, put_fields};
pub use xapi_received::ReceivedText;
