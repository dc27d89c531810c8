//! Where to look for what a query lists: the positions of the statements that its filters ask for, those of what refers
//! to them, and the times. Nothing here is handed a statement. Begin with `Sought`.
#![tactic(auto)]

mod candidates;
mod direct;
mod references;
mod sought;
mod times;

pub use candidates::{Candidates, Lists};
pub use direct::{direct_below, is_direct_at};
pub use references::reaching;
pub use sought::{Seen, Sought};
pub use times::bounds;
pub use xapi_index::{Format, HeldStatement, Index, Key, Query, Sight, in_time, link_text};
