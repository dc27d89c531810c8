//! Ids in the form of RFC 4122, section 3, and the random draws from which ids and secrets are made; IRIs and language
//! tags, with the rules of xAPI 1.0.3 that a value breaks as one of them.
#![tactic(auto)]

mod draw;
mod id;
mod iris;
mod languages;
mod members;
mod rules;

pub use draw::Draw;
pub use id::{Id, WORDS};
pub use iris::{Iri, broken_iri, holds_iri, is_control_or_space};
pub use languages::{LangTag, broken_language_map, is_language_map};
pub use lrs_json::Memory;
pub use members::{
    has_member, has_only, has_string, is_one_of, is_string, is_string_if_there, is_word, text_under,
};
pub use rules::{lesser, unless};
