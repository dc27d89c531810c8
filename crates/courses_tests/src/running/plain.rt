// What all statements tell of a session: each is read anew, and nothing is kept from one to the next.
use cmi5_launch::names::{COMPLETED, INITIALIZED, PASSED, TERMINATED};
use cmi5_session::{Launch, Phase, is_cmi5_defined, is_that_id};
use lrs_json::Tree;
use lrs_names::Id;
use lrs_time::Moment;
use std::alloc::Global;
use std::test::Fail;
use xapi_index::Index;
use xapi_statement::{Authority, HeldStatement, activity_of, registration_of, verb_of};

/// What is told of a session whose token was fetched, and which wasn't abandoned. Moments are in milliseconds.
#[derive(Drop)]
pub(crate) struct Told {
    pub began: Option<u64>,
    pub ended: bool,
    pub last: Option<u64>,
    pub completed: bool,
    pub passed: bool,
}

impl Told {
    pub fn phase(&self) -> Phase {
        if self.ended {
            Phase::Terminated
        } else if self.began.is_some() {
            Phase::Initialized
        } else {
            Phase::Fetched
        }
    }

    // Adds one of the session's own, voided or not.
    fn hear(&mut self, tree: &Tree, stored: Moment) {
        if says(INITIALIZED, tree) && self.began.is_none() {
            self.began = Some(stored.milliseconds());
        }
        if says(TERMINATED, tree) {
            self.ended = true;
        }
        self.last = Some(stored.milliseconds());
    }

    // Adds one about its unit in its registration that isn't voided, whosever it is.
    fn count(&mut self, tree: &Tree) {
        if says(COMPLETED, tree) {
            self.completed = true;
        }
        if says(PASSED, tree) {
            self.passed = true;
        }
    }
}

/// What these statements tell of the session of a launch.
pub(crate) fn told_of(alloc: Global, statements: &Index, launch: &Launch) -> Result<Told, Fail> {
    let mut told = Told {
        began: None,
        ended: false,
        last: None,
        completed: false,
        passed: false,
    };
    for at in 0..statements.len() {
        if let Some(held) = statements.get(at) {
            add(alloc, statements, launch, held, &mut told)?;
        }
    }
    Ok(told)
}

fn add(
    alloc: Global,
    statements: &Index,
    launch: &Launch,
    held: &HeldStatement,
    told: &mut Told,
) -> Result<(), Fail> {
    let tree = held.received(alloc)?;
    if is_of_session(&launch.session, held.authority()) {
        told.hear(&tree, held.stored());
    }
    if is_about(launch, &tree) && !statements.is_voided(held) {
        told.count(&tree);
    }
    drop(tree);
    Ok(())
}

fn says(verb: &str, tree: &Tree) -> bool {
    verb_of(tree) == verb && is_cmi5_defined(tree)
}

fn is_of_session(session: &Id, authority: &Authority) -> bool {
    match authority {
        Authority::Session(own) => *own == *session,
        Authority::Admin | Authority::Provider { .. } | Authority::Desk => false,
    }
}

fn is_about(launch: &Launch, tree: &Tree) -> bool {
    match activity_of(tree) {
        Some(id) => {
            id.as_str() == launch.activity.text().as_str()
                && is_that_id(&launch.registration, registration_of(tree))
        }
        None => false,
    }
}
