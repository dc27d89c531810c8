// The courses, by id.
ghost use Rattle.std.specs.Prelude.{◌≡◌, IfOk, None};
ghost use Rattle.std.specs.Option.{option_copied};
ghost use Rattle.cmi5_course.specs.Courses.{course_key, course_of};
ghost use Rattle.lrs_state.specs.Courses.{index_meant, newest_edition};
ghost use Rattle.lrs_state.specs.Editions.{edition_under, index_of_edition};

use crate::{Counted, Edition, EditionKey, Editions};
use lrs_json::{Memory, Text, Tree};
use lrs_names::text_under;
use lrs_register::{Change, Keyed};
use std::alloc::{AllocError, Global};

/// A course of which there are editions.
#[derive(Drop)]
pub struct HeldCourse {
    /// The id that its publisher gave it.
    pub id: Text,
    /// How many editions there are: the number of the newest.
    pub editions: u32,
}

impl Keyed<Text> for HeldCourse {
    ghost use Rattle.lrs_state.specs.Courses.{key_of_course};

    ghost key = { key_of_course };

    fn key(&self) -> &Text {
        &self.id
    }

    fn key_copy(&self) -> Result<Text, AllocError> {
        self.id.clone()
    }
}

/// What an entry changes among the courses: one that comes, and one that replaces the first with its id.
pub type CoursesChange = Change<HeldCourse>;

/// The courses in the order in which they came, found by id.
pub type Courses = Counted<Text, HeldCourse>;

/// The id of the course that a value is.
pub fn course_id(alloc: Global, tree: &Tree) -> Result<Text, Memory>
    ensures { IfOk result (λ id. id ≡ course_key (course_of tree.now)) }
{
    Text::of(alloc, id_in(tree))
}

fn id_in(tree: &Tree) -> &str
    ensures { result.now ≡ course_key (course_of tree.now) }
{
    match text_under(tree, "id") {
        Some(id) => id.as_str(),
        None => "",
    }
}

/// The newest edition of that id.
pub fn newest_edition<'a>(
    courses: &Courses,
    editions: &'a Editions,
    id: &Text,
) -> Result<Option<&'a Edition>, Memory>
    ensures { IfOk result (λ newest. option_copied newest
        ≡ newest_edition id.now courses.now.held editions.now.held) }
{
    match courses.find(id) {
        Some(held) => edition_under(editions, id, held.editions),
        None => Ok(None),
    }
}

fn edition_under<'a>(
    editions: &'a Editions,
    id: &Text,
    number: u32,
) -> Result<Option<&'a Edition>, Memory>
    ensures { IfOk result (λ found. option_copied found ≡ edition_under id.now number editions.now.held) }
{
    let key = EditionKey::of(number, id)?;
    Ok(editions.find(&key))
}

/// The index of the edition that is meant: of that number, or the newest where none is named.
pub fn index_meant(
    courses: &Courses,
    editions: &Editions,
    id: &Text,
    number: Option<u32>,
) -> Result<Option<u32>, Memory>
    ensures { IfOk result (λ index. index ≡ index_meant id.now number courses.now.held editions.now.held) }
{
    match number {
        Some(number) => index_of_edition(editions, id, number),
        None => index_of_newest(courses, editions, id),
    }
}

fn index_of_newest(courses: &Courses, editions: &Editions, id: &Text) -> Result<Option<u32>, Memory>
    ensures { IfOk result (λ index. index ≡ index_meant id.now None courses.now.held editions.now.held) }
{
    match courses.find(id) {
        Some(held) => index_of_edition(editions, id, held.editions),
        None => Ok(None),
    }
}

fn index_of_edition(editions: &Editions, id: &Text, number: u32) -> Result<Option<u32>, Memory>
    ensures { IfOk result (λ index. index ≡ index_of_edition id.now number editions.now.held) }
{
    let key = EditionKey::of(number, id)?;
    Ok(editions.index_of(&key))
}
