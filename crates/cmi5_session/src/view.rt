// What the rules on a session look at, besides the statement that comes.
ghost use Rattle.std.specs.Prelude.{◌≡◌, ◌&&◌, ◌||◌, ◌++◌, ◌∷◌, [], Bool, List, false, not};
ghost use Rattle.cmi5_session.specs.Counting.{counts};
ghost use Rattle.cmi5_session.specs.Views.{seen, view_behind, view_of};
ghost use Rattle.lrs_json.specs.View.{view};
ghost use Rattle.xapi_format.specs.declared.authority.Authority.TheVariants.{Session};
ghost use Rattle.cmi5_launch.specs.XapiStatementStatements.{is_target, is_that_id};
ghost use Rattle.xapi_rules.specs.Rules.{is_voiding};
ghost use Rattle.cmi5_launch.specs.XapiStatementStatement.{activity_of};
ghost use Rattle.cmi5_launch.specs.XapiStatementStored.{StoredStatement as SpecStatement};

use crate::Phase;
use crate::defined::says;
use cmi5_course::Launch;
use cmi5_launch::names::{COMPLETED, PASSED};
use cmi5_launch::{activity_of, registration_of};
use lrs_json::Tree;
use lrs_names::{Id, Iri};

/// A session as the rules on its statements see it.
#[derive(Clone, Copy)]
pub struct SessionView<'a> {
    /// Its unit, its learner and its registration.
    pub launch: &'a Launch,
    pub phase: Phase,
    /// Whether a statement that isn't voided says that the unit was completed in the registration.
    pub completed: bool,
    /// The same of passed.
    pub passed: bool,
}

impl<'a> SessionView<'a> {
    /// The session behind one statement more of its own, which voids none. It can be voided already, by one that came
    /// before it.
    pub fn behind(self, statement: &Tree, voided: bool) -> SessionView<'a>
        ensures next { seen result ≡ view_behind (seen self.entry) (view statement.now) voided }

        // That is what all statements tell, this one among them.
        ensures folded { (fetched abandoned : Bool) (before : List SpecStatement) (s : SpecStatement)
            → seen self.entry ≡ view_of self.entry.launch.now fetched abandoned before
            → s.received ≡ statement.now → s.authority ≡ Session self.entry.launch.now.session
            → is_voiding (view statement.now) ≡ false → voided ≡ is_target s.id before
            → seen result ≡ view_of self.entry.launch.now fetched abandoned (before ++ s ∷ []) }
    {
        self.next(statement, voided)
    }

    fn next(self, statement: &Tree, voided: bool) -> SessionView<'a>
        ensures { seen result ≡ view_behind (seen self.entry) (view statement.now) voided }
    {
        let launch = self.launch;
        SessionView {
            launch,
            phase: self.phase.behind(statement),
            completed: counts_by_now(self.completed, launch, COMPLETED, statement, voided),
            passed: counts_by_now(self.passed, launch, PASSED, statement, voided),
        }
    }
}

// Whether that counts behind one statement more.
fn counts_by_now(before: bool, launch: &Launch, verb: &str, statement: &Tree, voided: bool) -> bool
    ensures { result ≡ before
        || (counts launch.now.registration launch.now.activity verb.now (view statement.now) && not voided) }
{
    before || (counts(launch, verb, statement) && !voided)
}

/// Whether it is that id.
pub fn is_that_id(id: &Id, other: Option<Id>) -> bool
    ensures { result ≡ is_that_id id.now other }
{
    match other {
        Some(other) => other == *id,
        None => false,
    }
}

/// Whether the object is the Activity of that id.
pub(crate) fn is_about(activity: &Iri, statement: &Tree) -> bool
    ensures { result ≡ is_that_id activity.now (activity_of (view statement.now)) }
{
    match activity_of(statement) {
        Some(id) => id.as_str() == activity.text().as_str(),
        None => false,
    }
}

// Whether a statement of that verb counts for the launched unit and its registration, whosever it is.
fn counts(launch: &Launch, verb: &str, statement: &Tree) -> bool
    ensures { result ≡ counts launch.now.registration launch.now.activity verb.now (view statement.now) }
{
    says(verb, statement)
        && is_that_id(&launch.registration, registration_of(statement))
        && is_about(&launch.activity, statement)
}
