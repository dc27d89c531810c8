// How what is kept of progress follows the other parts: registration by registration, and statement by statement.
// Nothing here takes memory.
ghost use Rattle.std.specs.Prelude.{◌≡◌, ◌≤◌, ◌<◌, ◌+◌, ◌^◌, ◌++◌, ◌∷◌, [], ℕ, List, Option, IfSome, IsTrue, None};
ghost use Rattle.std.specs.Prelude.{Some, false, true, is_some, length, option_map, slice_get, take};
ghost use Rattle.std.specs.Option.{option_copied};
ghost use Rattle.cmi5_running_sessions.specs.Room.{HasSlotsFor, HasSlotsForEach, KeepsSlots};
ghost use Rattle.cmi5_running_verdicts.specs.Holding.{StandBehindHolders};
ghost use Rattle.cmi5_running_verdicts.specs.Running.{HasCounted};
ghost use Rattle.cmi5_running_sessions.specs.Cmi5SessionMarked.{MarkedStatement, mark, marked};
ghost use Rattle.cmi5_running_verdicts.specs.Cmi5VerdictNodes.{SeenEnrolment, seen};
ghost use Rattle.lrs_ids.specs.Ids.{are_distinct};
ghost use Rattle.lrs_parts.specs.Progress.{AreCounted, KeepsUp, IsUpToDate, IsReadyToEnrol};
ghost use Rattle.lrs_parts.specs.Progress.{enrolment_at, enrolment_in, enrolment_with, is_statement_at, is_voided_anew};
ghost use Rattle.lrs_parts.specs.Progress.{number_named, index_behind, voided_anew};
ghost use Rattle.lrs_state.specs.Editions.{SeenEdition};
ghost use Rattle.lrs_parts.specs.Trees.{AreTargets, voided_in};
ghost use Rattle.lrs_state.specs.declared.founding.Founding.{Founding as SpecFounding};
ghost use Rattle.lrs_state.specs.declared.registrations.HeldRegistration.{HeldRegistration as SpecRegistration};
ghost use Rattle.lrs_register.specs.Register.{with_new};
ghost use Rattle.cmi5_running_verdicts.specs.XapiIndexIndex.{HoldsNothingAhead, IsIndexReadyFor};
ghost use Rattle.xapi_statement.specs.Statements.{add_each, ids_of, is_voided};
ghost use Rattle.xapi_statement.specs.Stored.{StoredStatement as SpecStatement};

use crate::Progress;
use crate::trees::{is_same_id, take_out, tree_voided_by};
use cmi5_running_verdicts::{Enrolment, Index, Running};
use lrs_json::Items;
use lrs_state::{Edition, Editions, Founding, HeldRegistration, Learning, Registrations};
use xapi_statement::{StoredStatement, registration_of};

// ---- registrations with their editions

/// What verdicts look at of a registration, if the store is founded and the edition is there.
pub(crate) fn enrolment_in<'a>(
    founding: &'a Option<Founding>,
    editions: &'a Editions,
    registration: &'a HeldRegistration,
) -> Option<Enrolment<'a>>
    ensures value { option_map seen result ≡ enrolment_in founding.now editions.now.held registration.now }
    ensures behind { IfSome result (λ e. StandBehindHolders e.nodes.now) }
{
    match founding {
        Some(founding) => enrolment_of(founding, editions, registration),
        None => None,
    }
}

fn enrolment_of<'a>(
    founding: &'a Founding,
    editions: &'a Editions,
    registration: &'a HeldRegistration,
) -> Option<Enrolment<'a>>
    ensures value { option_map seen result ≡ enrolment_in (Some founding.now) editions.now.held registration.now }
    ensures behind { IfSome result (λ e. StandBehindHolders e.nodes.now) }
{
    match editions.get(registration.edition) {
        Some(edition) => Some(enrolment_with(founding, edition, registration)),
        None => None,
    }
}

fn enrolment_with<'a>(
    founding: &'a Founding,
    edition: &'a Edition,
    registration: &'a HeldRegistration,
) -> Enrolment<'a>
    ensures value { seen result ≡ enrolment_with registration.now founding.now edition.now }
    ensures behind { StandBehindHolders result.nodes.now }
{
    Enrolment {
        registration: &registration.id,
        base: &founding.base,
        course: registration.edition,
        nodes: edition.course().nodes(),
    }
}

// Of the registration of that number.
fn enrolment_at<'a>(
    founding: &'a Option<Founding>,
    learning: &'a Learning,
    number: u32,
) -> Option<Enrolment<'a>>
    ensures value { option_map seen result
        ≡ enrolment_at founding.now learning.now.editions.held learning.now.registrations.held number }
    ensures behind { IfSome result (λ e. StandBehindHolders e.nodes.now) }
{
    match learning.registrations.get(number) {
        Some(registration) => enrolment_in(founding, &learning.editions, registration),
        None => None,
    }
}

// The number of the registration that a statement names.
fn number_named(registrations: &Registrations, statement: &StoredStatement) -> Option<u32>
    ensures { result ≡ number_named statement.now registrations.now.held }
{
    match registration_of(statement.received()) {
        Some(id) => registrations.index_of(&id),
        None => None,
    }
}

// ---- a registration comes

/// Takes a registration in that comes, if one does: what the statements say of it is counted already.
pub(crate) fn enrol_new(running: &mut Running, coming: &Option<HeldRegistration>)
    requires { (r : SpecRegistration) → coming.now ≡ Some r
        → (those : List MarkedStatement) × (e : SeenEnrolment) × HasCounted running.old those e }
    ensures { (founding : Option SpecFounding) → (editions : List SeenEdition)
        → (registrations : List SpecRegistration) → (those : List MarkedStatement)
        → ((r : SpecRegistration) → coming.now ≡ Some r → IsReadyToEnrol running.old founding editions r those)
        → AreCounted running.old founding editions registrations those
        → AreCounted running.new founding editions (with_new registrations coming.now) those }
{
    if coming.is_some() {
        running.enrol();
    }
}

// ---- statements come

/// Takes statements in that are ready, each but for one whose id is held. The trees that were read of those which they
/// void are handed back.
pub(crate) fn take_in_each(
    progress: &mut Progress,
    founding: &Option<Founding>,
    learning: &Learning,
    statements: &mut Index,
    coming: &[StoredStatement],
) -> Items<StoredStatement>
    requires ready { IsIndexReadyFor statements.old coming.now }
    requires slots { HasSlotsForEach progress.old.sessions coming.now }
    requires targets { AreTargets progress.old.targets statements.old.held coming.now }
    requires kept { IsUpToDate progress.old founding.now learning.now.editions.held learning.now.registrations.held
        statements.old.held }
    ensures held { statements.new.held ≡ add_each statements.old.held coming.now }
    ensures kept { IsUpToDate progress.new founding.now learning.now.editions.held learning.now.registrations.held
        statements.new.held }
    ensures nothing { HoldsNothingAhead statements.new }
    ensures no_tallies { progress.new.running.coming ≡ None }
    ensures no_targets { progress.new.targets ≡ [] }
{
    let trees = take_out(&mut progress.targets);
    let first = statements.len();
    statements.install(coming);
    follow_each(
        progress,
        founding,
        learning,
        statements,
        trees.as_slice(),
        coming,
        first,
    );
    progress.settle();
    trees
}

// Follows those that came: they stand from that position on, but for those whose ids were held. The trees are those of
// what they void among the ones before.
fn follow_each(
    progress: &mut Progress,
    founding: &Option<Founding>,
    learning: &Learning,
    statements: &Index,
    trees: &[StoredStatement],
    coming: &[StoredStatement],
    first: usize,
)
    requires within { first ≤ length statements.now.held }
    requires distinct { IsTrue (are_distinct (ids_of statements.now.held)) }
    requires added { statements.now.held ≡ add_each (take first statements.now.held) coming.now }
    requires slots { HasSlotsForEach progress.old.sessions coming.now }
    requires targets { AreTargets trees.now (take first statements.now.held) coming.now }
    ensures { KeepsUp progress.old founding.now learning.now.editions.held learning.now.registrations.held
        (marked (take first statements.now.held))
        → KeepsUp progress.new founding.now learning.now.editions.held learning.now.registrations.held
        (marked statements.now.held) }
{
    let mut position = first;
    for statement in coming {
        let voided = tree_voided_by(trees, coming, statement);
        position = follow_next(
            progress, founding, learning, statements, statement, voided, position,
        );
    }
}

// Follows a statement that came, if it is the one at a position: else its id was held. Gives the position of the next.
fn follow_next(
    progress: &mut Progress,
    founding: &Option<Founding>,
    learning: &Learning,
    statements: &Index,
    statement: &StoredStatement,
    voided: Option<&StoredStatement>,
    at: usize,
) -> usize
    requires distinct { IsTrue (are_distinct (ids_of statements.now.held)) }
    requires there { is_statement_at statement.now statements.now.held at ≡ true
        → slice_get statements.now.held at ≡ Some statement.now }
    requires slots { HasSlotsFor progress.old.sessions statement.now }
    requires voided { option_copied voided ≡ voided_in statements.now.held statement.now }
    ensures next { result ≡ index_behind statement.now statements.now.held at }
    ensures follows { KeepsUp progress.old founding.now learning.now.editions.held learning.now.registrations.held
        (marked (take at statements.now.held))
        → KeepsUp progress.new founding.now learning.now.editions.held learning.now.registrations.held
        (marked (take result statements.now.held)) }
    ensures slots { KeepsSlots progress.old.sessions progress.new.sessions }
{
    let long = statements.len();
    if at < long {
        follow_at(
            progress, founding, learning, statements, statement, voided, at,
        )
    } else {
        at
    }
}

fn follow_at(
    progress: &mut Progress,
    founding: &Option<Founding>,
    learning: &Learning,
    statements: &Index,
    statement: &StoredStatement,
    voided: Option<&StoredStatement>,
    at: usize,
) -> usize
    requires few { at + 1 < 2 ^ 64 }
    requires distinct { IsTrue (are_distinct (ids_of statements.now.held)) }
    requires there { is_statement_at statement.now statements.now.held at ≡ true
        → slice_get statements.now.held at ≡ Some statement.now }
    requires slots { HasSlotsFor progress.old.sessions statement.now }
    requires voided { option_copied voided ≡ voided_in statements.now.held statement.now }
    ensures next { result ≡ index_behind statement.now statements.now.held at }
    ensures follows { KeepsUp progress.old founding.now learning.now.editions.held learning.now.registrations.held
        (marked (take at statements.now.held))
        → KeepsUp progress.new founding.now learning.now.editions.held learning.now.registrations.held
        (marked (take result statements.now.held)) }
    ensures slots { KeepsSlots progress.old.sessions progress.new.sessions }
{
    if is_statement_at(statements, statement, at) {
        follow(
            progress, founding, learning, statements, statement, voided, at,
        );
        at + 1
    } else {
        at
    }
}

// Whether a statement that came is the one at a position.
fn is_statement_at(statements: &Index, statement: &StoredStatement, at: usize) -> bool
    ensures { result ≡ is_statement_at statement.now statements.now.held at }
{
    match statements.get(at) {
        Some(held) => is_same_id(held.id(), statement.id()),
        None => false,
    }
}

// Follows the statement at a position: it comes, and may void one that stands, whose tree is there.
fn follow(
    progress: &mut Progress,
    founding: &Option<Founding>,
    learning: &Learning,
    statements: &Index,
    statement: &StoredStatement,
    voided: Option<&StoredStatement>,
    at: usize,
)
    requires few { at + 1 < 2 ^ 64 }
    requires distinct { IsTrue (are_distinct (ids_of statements.now.held)) }
    requires there { slice_get statements.now.held at ≡ Some statement.now }
    requires slots { HasSlotsFor progress.old.sessions statement.now }
    requires voided { option_copied voided ≡ voided_in statements.now.held statement.now }
    ensures follows { KeepsUp progress.old founding.now learning.now.editions.held learning.now.registrations.held
        (marked (take at statements.now.held))
        → KeepsUp progress.new founding.now learning.now.editions.held learning.now.registrations.held
        (marked (take (at + 1) statements.now.held)) }
    ensures slots { KeepsSlots progress.old.sessions progress.new.sessions }
{
    let already = statements.is_voided_at(at + 1, at);
    take_in(progress, founding, learning, statement, already);
    void_by(progress, founding, learning, statements, voided, at);
}

// A statement comes, voided or not.
fn take_in(
    progress: &mut Progress,
    founding: &Option<Founding>,
    learning: &Learning,
    statement: &StoredStatement,
    voided: bool,
)
    requires { HasSlotsFor progress.old.sessions statement.now }
    ensures follows { (those : List MarkedStatement) → length those + 1 < 2 ^ 64
        → KeepsUp progress.old founding.now learning.now.editions.held learning.now.registrations.held those
        → KeepsUp progress.new founding.now learning.now.editions.held learning.now.registrations.held
        (those ++ mark statement.now voided ∷ []) }
    ensures slots { KeepsSlots progress.old.sessions progress.new.sessions }
{
    progress.sessions.install(statement, voided);
    count(&mut progress.running, founding, learning, statement, voided);
}

// A statement is counted for the registration that it names.
fn count(
    running: &mut Running,
    founding: &Option<Founding>,
    learning: &Learning,
    statement: &StoredStatement,
    voided: bool,
)
    ensures { (those : List MarkedStatement) → length those + 1 < 2 ^ 64
        → AreCounted running.old founding.now learning.now.editions.held learning.now.registrations.held those
        → AreCounted running.new founding.now learning.now.editions.held learning.now.registrations.held
        (those ++ mark statement.now voided ∷ []) }
{
    if let Some(number) = number_named(&learning.registrations, statement) {
        count_in(running, founding, learning, number, statement, voided);
    }
}

fn count_in(
    running: &mut Running,
    founding: &Option<Founding>,
    learning: &Learning,
    number: u32,
    statement: &StoredStatement,
    voided: bool,
)
    requires { number_named statement.now learning.now.registrations.held ≡ Some number }
    ensures { (those : List MarkedStatement) → length those + 1 < 2 ^ 64
        → AreCounted running.old founding.now learning.now.editions.held learning.now.registrations.held those
        → AreCounted running.new founding.now learning.now.editions.held learning.now.registrations.held
        (those ++ mark statement.now voided ∷ []) }
{
    if let Some(enrolment) = enrolment_at(founding, learning, number) {
        running.install(number, &enrolment, statement, voided);
    }
}

// ---- a statement is voided

// The statement that the one at a position voids stands no more: this is its tree. If one before voids it already, its
// counts were taken back then.
fn void_by(
    progress: &mut Progress,
    founding: &Option<Founding>,
    learning: &Learning,
    statements: &Index,
    voided: Option<&StoredStatement>,
    at: usize,
)
    requires few { at + 1 < 2 ^ 64 }
    requires distinct { IsTrue (are_distinct (ids_of statements.now.held)) }
    requires voided { (s : SpecStatement) → slice_get statements.now.held at ≡ Some s
        → option_copied voided ≡ voided_in statements.now.held s }
    ensures follows { (s : SpecStatement) → slice_get statements.now.held at ≡ Some s
        → KeepsUp progress.old founding.now learning.now.editions.held learning.now.registrations.held
        (marked (take at statements.now.held)
        ++ mark s (is_voided (take (at + 1) statements.now.held) s) ∷ [])
        → KeepsUp progress.new founding.now learning.now.editions.held learning.now.registrations.held
        (marked (take (at + 1) statements.now.held)) }
    ensures slots { KeepsSlots progress.old.sessions progress.new.sessions }
{
    if voids_anew(statements, at) {
        void_tree(progress, founding, learning, voided);
    }
}

// Whether the one at a position is the first to void one that stands.
fn voids_anew(statements: &Index, at: usize) -> bool
    requires { at + 1 < 2 ^ 64 }
    ensures { result ≡ is_some (voided_anew statements.now.held at) }
{
    voided_anew(statements, at).is_some()
}

// The position of the statement that the one at a position is the first to void.
fn voided_anew(statements: &Index, at: usize) -> Option<usize>
    requires { at + 1 < 2 ^ 64 }
    ensures { result ≡ voided_anew statements.now.held at }
{
    match statements.referred_at(at + 1, at) {
        Some(position) => {
            if is_voided_anew(statements, at, position) {
                Some(position)
            } else {
                None
            }
        }
        None => None,
    }
}

fn is_voided_anew(statements: &Index, at: usize, position: usize) -> bool
    requires { at + 1 < 2 ^ 64 }
    ensures { result ≡ is_voided_anew statements.now.held at position }
{
    !statements.is_voided_at(at, position) && statements.is_voided_at(at + 1, position)
}

// The statement of this tree is voided.
fn void_tree(
    progress: &mut Progress,
    founding: &Option<Founding>,
    learning: &Learning,
    voided: Option<&StoredStatement>,
)
    ensures follows { (s : SpecStatement) (before behind : List MarkedStatement)
        → option_copied voided.entry ≡ Some s
        → KeepsUp progress.old founding.now learning.now.editions.held learning.now.registrations.held
        (before ++ mark s false ∷ behind)
        → KeepsUp progress.new founding.now learning.now.editions.held learning.now.registrations.held
        (before ++ mark s true ∷ behind) }
    ensures slots { KeepsSlots progress.old.sessions progress.new.sessions }
{
    if let Some(statement) = voided {
        void(progress, founding, learning, statement);
    }
}

fn void(
    progress: &mut Progress,
    founding: &Option<Founding>,
    learning: &Learning,
    statement: &StoredStatement,
)
    ensures follows { (before behind : List MarkedStatement)
        → KeepsUp progress.old founding.now learning.now.editions.held learning.now.registrations.held
        (before ++ mark statement.now false ∷ behind)
        → KeepsUp progress.new founding.now learning.now.editions.held learning.now.registrations.held
        (before ++ mark statement.now true ∷ behind) }
    ensures slots { KeepsSlots progress.old.sessions progress.new.sessions }
{
    progress.sessions.void(statement);
    discount(&mut progress.running, founding, learning, statement);
}

// A voided statement isn't counted any more.
fn discount(
    running: &mut Running,
    founding: &Option<Founding>,
    learning: &Learning,
    statement: &StoredStatement,
)
    ensures { (before behind : List MarkedStatement)
        → AreCounted running.old founding.now learning.now.editions.held learning.now.registrations.held
        (before ++ mark statement.now false ∷ behind)
        → AreCounted running.new founding.now learning.now.editions.held learning.now.registrations.held
        (before ++ mark statement.now true ∷ behind) }
{
    if let Some(number) = number_named(&learning.registrations, statement) {
        discount_in(running, founding, learning, number, statement);
    }
}

fn discount_in(
    running: &mut Running,
    founding: &Option<Founding>,
    learning: &Learning,
    number: u32,
    statement: &StoredStatement,
)
    requires { number_named statement.now learning.now.registrations.held ≡ Some number }
    ensures { (before behind : List MarkedStatement)
        → AreCounted running.old founding.now learning.now.editions.held learning.now.registrations.held
        (before ++ mark statement.now false ∷ behind)
        → AreCounted running.new founding.now learning.now.editions.held learning.now.registrations.held
        (before ++ mark statement.now true ∷ behind) }
{
    if let Some(enrolment) = enrolment_at(founding, learning, number) {
        running.void(number, &enrolment, statement);
    }
}
