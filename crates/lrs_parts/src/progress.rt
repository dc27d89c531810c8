// What is kept of how far sessions and registrations have come.
ghost use Rattle.std.specs.Prelude.{◌≡◌, [], None, IfSome, OnOk};
ghost use Rattle.cmi5_running_sessions.specs.Room.{HasSlotsForEach, MakesSlots, TakesSlotsBack};
ghost use Rattle.cmi5_running_verdicts.specs.Holding.{StandBehindHolders};
ghost use Rattle.cmi5_running_verdicts.specs.Running.{HasCounted};
ghost use Rattle.cmi5_running_sessions.specs.Cmi5SessionMarked.{marked};
ghost use Rattle.cmi5_running_verdicts.specs.Cmi5VerdictNodes.{seen};
ghost use Rattle.lrs_parts.specs.Trees.{AreTargets};

use crate::trees::{clear, read_targets};
use cmi5_running_sessions::Sessions;
use cmi5_running_verdicts::{Enrolment, Index, Running};
use lrs_json::{Items, Memory};
use std::alloc::Global;
use xapi_statement::StoredStatement;

/// What is kept from entry to entry, so that none goes through all statements again.
#[derive(Drop)]
pub struct Progress {
    /// What sessions said, and what was reached of units.
    pub sessions: Sessions,
    /// What is counted of each registration, in the order in which they were made.
    pub running: Running,
    /// The trees of held statements that are voided by others which are to come.
    pub targets: Items<StoredStatement>,
}

impl Progress {
    pub(crate) fn new(alloc: Global) -> Progress
        ensures own { result.sessions.own ≡ [] }
        ensures reached { result.sessions.reached ≡ [] }
        ensures held { result.running.held ≡ [] }
        ensures targets { result.targets ≡ [] }
    {
        Progress {
            sessions: Sessions::new(alloc),
            running: Running::new(alloc),
            targets: Items::new(alloc),
        }
    }

    // Makes slots for what statements say that are to come, counts what the held ones say of a registration, if one
    // comes, and reads the trees of those that the statements void.
    pub(crate) fn ready(
        &mut self,
        statements: &Index,
        coming: &[StoredStatement],
        enrolment: Option<&Enrolment<'_>>,
    ) -> Result<(), Memory>
        requires { IfSome enrolment (λ e. StandBehindHolders e.now.nodes.now) }
        ensures made { MakesSlots coming.now self.old.sessions self.new.sessions }
        ensures held { self.new.running.held ≡ self.old.running.held }
        ensures sessions { OnOk result (HasSlotsForEach self.new.sessions coming.now) }
        ensures running { OnOk result (IfSome enrolment.entry
            (λ e. HasCounted self.new.running (marked statements.now.held) (seen e.now))) }
        ensures targets { OnOk result (AreTargets self.new.targets statements.now.held coming.now) }
    {
        self.sessions.ready(coming)?;
        self.running.ready(statements, enrolment)?;
        read_targets(statements, coming, &mut self.targets)
    }

    // Takes back what was made ready.
    pub(crate) fn release(&mut self, statements: &[StoredStatement])
        ensures back { TakesSlotsBack statements.now self.old.sessions self.new.sessions }
        ensures held { self.new.running.held ≡ self.old.running.held }
        ensures nothing { self.new.running.coming ≡ None }
        ensures targets { self.new.targets ≡ [] }
    {
        self.sessions.release(statements);
        self.settle();
    }

    // Lets go what was read and counted ahead, where what comes was taken in or doesn't come.
    pub(crate) fn settle(&mut self)
        ensures sessions { self.new.sessions ≡ self.old.sessions }
        ensures held { self.new.running.held ≡ self.old.running.held }
        ensures nothing { self.new.running.coming ≡ None }
        ensures targets { self.new.targets ≡ [] }
    {
        self.running.release();
        clear(&mut self.targets);
    }
}
