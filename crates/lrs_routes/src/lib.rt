//! From a request to what it asks: the route of its path, its caller, and the command that its parameters, the part of
//! its path and its body mean. Begin with `routes`; `table` and `operation` list what can be asked, `parameters`
//! and `parts` read it, and `lrs_bodies` the bodies.
#![tactic(auto)]

mod asked;
mod fields;
mod forms;
mod operation;
mod parameters;
mod parts;
mod routes;
mod table;
mod values;

pub use asked::{Asked, RouteRefused, Routed};
pub use routes::Routes;
pub use table::Allow;
