// The course that two learners are enrolled in, and the launches of its unit.
ghost use Rattle.cmi5_running_verdicts.specs.Holding.{StandBehindHolders};

use crate::given::{course_of, iri, learner};
use crate::running::said::{FIRST, FIRST_REGISTRATION, LATER, SECOND, SECOND_REGISTRATION};
use cmi5_course::{Course, Node};
use cmi5_session::{Launch, Mode};
use cmi5_verdict::Enrolment;
use lrs_names::{Id, Iri};
use std::alloc::Global;
use std::test::Fail;

// A block that holds one unit: the course is node 0, the block node 1, the unit node 2.
const COURSE: &str =
    r#"{"id":"http://c/1","title":{"en":"C"},"children":[{"kind":"block","id":"http://c/b","title":{"en":"B"},"children":[{"kind":"unit","id":"http://c/u","title":{"en":"U"},"url":"https://au.example/u","moveOn":"CompletedAndPassed","masteryScore":0.8}]}]}"#;

const UNIT: &str = "http://s/activities/0/2";

/// What doesn't change in a text.
#[derive(Drop)]
pub(crate) struct Setting {
    /// That of the session that is told of comes first.
    pub launches: Vec<Launch>,
    first: Id,
    second: Id,
    base: Iri,
    course: Course,
}

impl Setting {
    pub fn new(alloc: Global) -> Result<Setting, Fail> {
        let launches = launches(alloc)?;
        let base = iri(alloc, "http://s/")?;
        let course = course_of(alloc, COURSE)?;
        Ok(Setting {
            launches,
            first: Id::of_word(FIRST_REGISTRATION),
            second: Id::of_word(SECOND_REGISTRATION),
            base,
            course,
        })
    }

    /// The registration of that number in the course.
    pub fn enrolment(&self, number: u32) -> Enrolment<'_>
        ensures { StandBehindHolders result.nodes.now }
    {
        Enrolment {
            registration: self.registration(number),
            base: &self.base,
            course: 0,
            nodes: held_nodes(&self.course),
        }
    }

    fn registration(&self, number: u32) -> &Id {
        if number == 0 {
            &self.first
        } else {
            &self.second
        }
    }
}

// The nodes of a course. Each stands behind the one that holds it.
fn held_nodes(course: &Course) -> &[Node]
    ensures { StandBehindHolders result.now }
{
    course.nodes()
}

// ---- launches of the unit

fn launches(alloc: Global) -> Result<Vec<Launch>, Fail> {
    let mut launches = Vec::new(alloc);
    launches.push(launch(alloc, FIRST, FIRST_REGISTRATION)?)?;
    launches.push(launch(alloc, LATER, FIRST_REGISTRATION)?)?;
    launches.push(launch(alloc, SECOND, SECOND_REGISTRATION)?)?;
    Ok(launches)
}

fn launch(alloc: Global, session: u128, registration: u128) -> Result<Launch, Fail> {
    let activity = iri(alloc, UNIT)?;
    let publisher = iri(alloc, "http://c/u")?;
    let actor = learner(alloc)?;
    Ok(Launch {
        session: Id::of_word(session),
        registration: Id::of_word(registration),
        actor,
        activity,
        publisher,
        mode: Mode::Normal,
        mastery: None,
    })
}
