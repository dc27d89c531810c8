//! Statements (xAPI 1.0.3, part two, section 2): a value that breaks none of the rules, what the layers above ask of
//! one, how long one may be that is received, and a statement as the store keeps it: with its tree, and as it is held.
#![tactic(auto)]

mod held;
mod length;
mod refused;
mod shared;
mod statement;
mod stored;

pub use held::HeldStatement;
pub use length::{LONGEST_STATEMENT, is_too_long};
pub use lrs_json::Memory;
pub use refused::{StatementRefused, judge};
pub use shared::SharedAuthority;
pub use statement::Statement;
pub use stored::StoredStatement;
pub use xapi_properties::{
    Ifi, activity_of, broken_rule, extension_of, has_context_activity, has_duration, is_actor,
    is_voiding, own_id, registration_of, result_boolean, scaled_spelling, target_of, verb_of,
};
pub use xapi_received::{Authority, Format, ReceivedText};
