// What changes where a course is taken up.
ghost use Rattle.std.specs.Prelude.{◌≡◌, IfOk, None, Some};
ghost use Rattle.std.specs.Option.{option_copied};
ghost use Rattle.cmi5_course.specs.Courses.{course_key, course_of};
ghost use Rattle.cmi5_course.specs.Rules.{broken_rule};
ghost use Rattle.lrs_sessions.specs.LrsHistoryDeskEffects.{coming, next_number, same_newest, taking, taking_as, with_one_more};
ghost use Rattle.lrs_json.specs.Fits.{Fits};
ghost use Rattle.lrs_json.specs.View.{view};
ghost use Rattle.lrs_sessions.specs.LrsStateCourses.{course_under};
ghost use Rattle.lrs_sessions.specs.LrsPartsParts.{state_of};
ghost use Rattle.lrs_sessions.specs.LrsStateState.{no_change};
ghost use Rattle.lrs_sessions.specs.LrsStateAcceptanceAcceptanceTheVariants as acceptance;

use cmi5_course::{Course, CourseRefused};
use lrs_json::{Memory, Text, Tree};
use lrs_parts::{
    Acceptance, CoursesChange, Edition, EditionsChange, Effect, HeldCourse, Parts, course_id,
    newest_edition,
};
use lrs_record::Moment;
use std::alloc::Global;

/// Takes a course up. If it is the same as the newest edition of its id, that edition stands for it.
pub fn taking(alloc: Global, parts: &Parts, moment: Moment, tree: &Tree) -> Result<Effect, Memory>
    requires fits { Fits (view tree.now) }
    requires unbroken { broken_rule (view tree.now) ≡ None }
    ensures { IfOk result (λ made. made ≡ taking (state_of parts.now) moment (course_of tree.now)) }
{
    let id = course_id(alloc, tree)?;
    match newest_edition(&parts.learning.courses, &parts.learning.editions, &id)? {
        Some(newest) => taking_beside(alloc, parts, moment, tree, id, newest),
        None => taking_up(alloc, parts, moment, tree, id),
    }
}

// Beside the newest edition of its id.
fn taking_beside(
    alloc: Global,
    parts: &Parts,
    moment: Moment,
    tree: &Tree,
    id: Text,
    newest: &Edition,
) -> Result<Effect, Memory>
    requires fits { Fits (view tree.now) }
    requires unbroken { broken_rule (view tree.now) ≡ None }
    requires id { id ≡ course_key (course_of tree.now) }
    ensures { IfOk result (λ made. made ≡ taking_as moment (course_of tree.now)
        (course_under id (state_of parts.now).courses) (same_newest (course_of tree.now) (Some newest.now))) }
{
    if newest.course().is_spelled(tree) {
        return Ok(same_again(alloc, moment, id, newest.number()));
    }
    taking_up(alloc, parts, moment, tree, id)
}

// As the edition of that number, which is the same.
fn same_again(alloc: Global, moment: Moment, id: Text, number: u32) -> Effect
    ensures { result ≡ record (no_change moment) { acceptance = acceptance.Course id number } }
{
    let mut effect = Effect::no_change(alloc, moment);
    effect.acceptance = Acceptance::Course {
        id,
        edition: number,
    };
    effect
}

// As a new edition.
fn taking_up(
    alloc: Global,
    parts: &Parts,
    moment: Moment,
    tree: &Tree,
    id: Text,
) -> Result<Effect, Memory>
    requires fits { Fits (view tree.now) }
    requires unbroken { broken_rule (view tree.now) ≡ None }
    requires id { id ≡ course_key (course_of tree.now) }
    ensures { IfOk result (λ made. made ≡ taking_as moment (course_of tree.now)
        (course_under id (state_of parts.now).courses) None) }
{
    let held = parts.learning.courses.find(&id);
    let number = next_number(held)?;
    let courses = with_one_more(&id, held, number)?;
    let edition = read_edition(alloc, tree, id.clone()?, number)?;
    Ok(taken_up(alloc, moment, edition, courses, id, number))
}

fn taken_up(
    alloc: Global,
    moment: Moment,
    edition: Edition,
    courses: CoursesChange,
    id: Text,
    number: u32,
) -> Effect
    ensures { result ≡ record (no_change moment) {
      editions = coming edition;
      courses = courses;
      acceptance = acceptance.Course id number;
    } }
{
    let mut effect = Effect::no_change(alloc, moment);
    effect.editions = EditionsChange::of_new(edition);
    effect.courses = courses;
    effect.acceptance = Acceptance::Course {
        id,
        edition: number,
    };
    effect
}

// The number of the next edition. There is none if 32 bits don't hold it.
fn next_number(held: Option<&HeldCourse>) -> Result<u32, Memory>
    ensures { IfOk result (λ number. number ≡ next_number (option_copied held.entry)) }
{
    match held {
        Some(held) => match held.editions.checked_add(1) {
            Some(number) => Ok(number),
            None => Err(Memory),
        },
        None => Ok(1),
    }
}

// The course with as many editions as the number of the next one.
fn with_one_more(id: &Text, held: Option<&HeldCourse>, number: u32) -> Result<CoursesChange, Memory>
    requires { number ≡ next_number (option_copied held) }
    ensures { IfOk result (λ change. change ≡ with_one_more id.now (option_copied held.entry)) }
{
    match held {
        Some(held) => {
            let id = held.id.clone()?;
            Ok(CoursesChange {
                new: None,
                replaced: Some(HeldCourse {
                    id,
                    editions: number,
                }),
            })
        }
        None => {
            let id = id.clone()?;
            Ok(CoursesChange::of_new(HeldCourse {
                id,
                editions: number,
            }))
        }
    }
}

fn read_edition(alloc: Global, tree: &Tree, id: Text, number: u32) -> Result<Edition, Memory>
    requires fits { Fits (view tree.now) }
    requires unbroken { broken_rule (view tree.now) ≡ None }
    requires id { id ≡ course_key (course_of tree.now) }
    ensures { IfOk result (λ edition. edition ≡ record { course = course_of tree.now; number = number }) }
{
    let course = read_course(alloc, tree)?;
    Ok(Edition::new(number, id, course))
}

#[tactic(auto, unfolding(cmi5_course::specs::Courses::refusal))]
fn read_course(alloc: Global, tree: &Tree) -> Result<Course, Memory>
    requires fits { Fits (view tree.now) }
    requires unbroken { broken_rule (view tree.now) ≡ None }
    ensures { IfOk result (λ course. course ≡ course_of tree.now) }
{
    match Course::read(alloc, tree) {
        Ok(course) => Ok(course),
        Err(CourseRefused::Broken { .. }) => unreachable!(),
        Err(CourseRefused::Memory) => Err(Memory),
    }
}
