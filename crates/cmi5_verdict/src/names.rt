// Which node of a course a statement is about: by the id of its object, which is compared piece by piece, and never
// built.
ghost use Rattle.std.specs.Prelude.{◌≡◌, ◌<◌, ◌^◌, ◌++◌, ◌&&◌, ℕ, List, MatchOption};
ghost use Rattle.std.specs.Fmt.{decimal};
ghost use Rattle.std.specs.Str.{bytes_eq};
ghost use Rattle.cmi5_session.specs.Cmi5LaunchActivities.{activity_text};
ghost use Rattle.cmi5_session.specs.Own.{is_cmi5_defined};
ghost use Rattle.cmi5_verdict.specs.Nodes.{activity_of_node, seen};
ghost use Rattle.cmi5_verdict.specs.FoundIndices.{is_index};
ghost use Rattle.lrs_json.specs.View.{view};
ghost use Rattle.cmi5_session.specs.XapiStatementStatements.{is_that_id};
ghost use Rattle.cmi5_session.specs.XapiStatementStatement.{activity_of, registration_of};

use crate::Enrolment;
use cmi5_session::{StoredStatement, activity_of, is_cmi5_defined, is_that_id, registration_of};
use itoa::Buffer;
use lrs_json::Tree;
use lrs_names::Id;

/// The number of the node that a statement is about, if it names that registration and cmi5 defines what it means.
pub fn index_meant(enrolment: &Enrolment<'_>, statement: &StoredStatement) -> Option<usize>
    ensures { (index : ℕ) → index < 2 ^ 64 → is_index index result
        ≡ is_that_id enrolment.now.registration.now (registration_of (view statement.now.received))
        && is_cmi5_defined (view statement.now.received)
        && is_that_id (activity_of_node (seen enrolment.now) index) (activity_of (view statement.now.received)) }
{
    let received = statement.received();
    if !is_meant(enrolment.registration, received) {
        return None;
    }
    index_about(enrolment, received)
}

fn is_meant(registration: &Id, statement: &Tree) -> bool
    ensures { result ≡ is_that_id registration.now (registration_of (view statement.now))
        && is_cmi5_defined (view statement.now) }
{
    is_that_id(registration, registration_of(statement)) && is_cmi5_defined(statement)
}

// The number of the node that is its object.
fn index_about(enrolment: &Enrolment<'_>, statement: &Tree) -> Option<usize>
    ensures { (index : ℕ) → index < 2 ^ 64 → is_index index result
        ≡ is_that_id (activity_of_node (seen enrolment.now) index) (activity_of (view statement.now)) }
{
    match activity_of(statement) {
        Some(id) => index_named(
            enrolment.base.text().as_str(),
            enrolment.course,
            id.as_str(),
        ),
        None => None,
    }
}

// The number of the node that is known under that id in the course of that number. `base` is the address that the
// store's own names begin with.
fn index_named(base: &str, course: u32, id: &str) -> Option<usize>
    ensures { (index : ℕ) → index < 2 ^ 64 → is_index index result
        ≡ bytes_eq id.now (activity_text base.now course index) }
{
    let mut buffer = Buffer::new();
    let path = behind(id, base)?;
    let numbers = behind(path, "activities/")?;
    let index = behind(numbers, buffer.format(course))?;
    let digits = behind(index, "/")?;
    number_of(digits)
}

// What follows that beginning, if the text begins so.
fn behind<'a>(text: &'a str, beginning: &str) -> Option<&'a str>
    ensures { MatchOption result ((rest : List ℕ) → text.now ≡ beginning.now ++ rest → ⊥)
        (λ rest. text.now ≡ beginning.now ++ rest.now) }
{
    text.strip_prefix(beginning)
}

// The number that is printed so.
fn number_of(digits: &str) -> Option<usize>
    ensures { (number : ℕ) → number < 2 ^ 64 → is_index number result ≡ bytes_eq digits.now (decimal number) }
{
    match digits.parse::<usize>() {
        Ok(number) => if is_printed(number, digits) {
            Some(number)
        } else {
            None
        },
        Err(_) => None,
    }
}

// Whether the digits are those of the number, without zeros or a sign before them.
fn is_printed(number: usize, digits: &str) -> bool
    ensures { result ≡ bytes_eq digits.now (decimal number) }
{
    let mut buffer = Buffer::new();
    digits == buffer.format(number)
}
