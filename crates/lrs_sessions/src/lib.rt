//! Sessions of launches, over the parts of a store in memory: which are closed, which are open, which are idle, and
//! what the store says of those that it abandons. A function has the name of the definition in `lrs_history` that it
//! equals. Begin with `closed`, `idle` and `abandoned`. `numbers` counts launches and goes from their numbers to the
//! ids of their sessions. What sessions said is asked of the parts, which keep it: no statement is looked at here.
#![tactic(auto)]

mod abandoned;
mod closed;
mod idle;
mod numbers;

pub use abandoned::abandoned_statements;
pub use closed::{is_closed, is_open, open_of};
pub use idle::idle_ones;
pub use lrs_made::{
    LentTarget, add_owed, enrolled_as, is_waived, make_one, make_under, statement_of, target,
    waived_statement,
};
pub use numbers::{launch_count, sessions_at};
