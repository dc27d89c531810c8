// A store of statements, with what is kept of sessions and registrations.
use cmi5_running_sessions::Sessions;
use cmi5_running_verdicts::Running;
use std::alloc::Global;
use xapi_index::Index;

#[derive(Drop)]
pub(crate) struct Store {
    pub statements: Index,
    pub sessions: Sessions,
    pub running: Running,
    /// How many of the two registrations are held.
    pub enrolled: u32,
}

impl Store {
    pub fn new(alloc: Global) -> Store {
        Store {
            statements: Index::new(alloc),
            sessions: Sessions::new(alloc),
            running: Running::new(alloc),
            enrolled: 0,
        }
    }
}
