// The editions of courses.
ghost use Rattle.std.specs.Prelude.{◌≡◌};
ghost use Rattle.cmi5_course.specs.Courses.{course_key};

use crate::{Counted, EditionKey};
use cmi5_course::Course;
use lrs_json::Text;
use lrs_register::{Change, Keyed};
use std::alloc::AllocError;
use std::marker::Model;

/// A course as it was taken up. Publishers correct courses: each correction is an edition of its own, and those of an
/// id are counted from 1.
#[derive(Drop)]
pub struct Edition {
    key: EditionKey,
    course: Course,
}

impl Model for Edition {
    ghost use Rattle.std.specs.Prelude.{◌≡◌};
    ghost use Rattle.std.specs.Coded.{codes};
    ghost use Rattle.cmi5_course.specs.Courses.{course_key};
    ghost use Rattle.lrs_json.specs.contracts.tree.Tree as tree;
    ghost use Rattle.lrs_state.specs.Editions.{SeenEdition};

    ghost Value = { SeenEdition };

    ghost coded = { Prim.hlevel (codes, tree.the_row.coded) };

    ghost view = { λ e. record { course = e.course; number = e.key.number } };

    ghost invariant = { λ e. e.key.id ≡ course_key e.course };
}

impl Edition {
    /// The edition of that number of a course with that id.
    pub fn new(number: u32, id: Text, course: Course) -> Edition
        requires { id ≡ course_key course }
        ensures { result ≡ record { course = course; number = number } }
    {
        Edition {
            key: EditionKey { number, id },
            course,
        }
    }

    /// The course, lent.
    pub fn course(&self) -> &Course
        ensures { result.now ≡ self.now.course }
    {
        &self.course
    }

    /// Its number among the editions of its id: the first is 1.
    pub fn number(&self) -> u32
        ensures { result ≡ self.now.number }
    {
        self.key.number
    }
}

impl Keyed<EditionKey> for Edition {
    ghost use Rattle.lrs_state.specs.EditionKeys.{edition_key};

    ghost key = { edition_key };

    fn key(&self) -> &EditionKey {
        &self.key
    }

    fn key_copy(&self) -> Result<EditionKey, AllocError> {
        let id = self.key.id.clone()?;
        Ok(EditionKey {
            number: self.key.number,
            id,
        })
    }
}

/// What an entry changes among the editions: one that comes.
pub type EditionsChange = Change<Edition>;

/// The editions of all courses in the order in which they came, found by number and id.
pub type Editions = Counted<EditionKey, Edition>;
