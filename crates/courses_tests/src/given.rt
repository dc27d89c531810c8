// What the tests of several modules are made from.
ghost use Rattle.std.specs.Prelude.{◌≡◌, []};
ghost use Rattle.std.specs.Vec.Iter.{into_iter_items};

use cmi5_course::Course;
use lrs_agents::Ifi;
use lrs_json::Text;
use lrs_json_reader::read;
use lrs_names::Iri;
use std::alloc::Global;
use std::test::Fail;
use std::vec::IntoIter;
use xapi_statement::ReceivedText;

pub(crate) fn iri(alloc: Global, text: &str) -> Result<Iri, Fail> {
    match Iri::read(Text::of(alloc, text)?) {
        Ok(iri) => Ok(iri),
        Err(_) => Err(Fail::from("no IRI")),
    }
}

pub(crate) fn course_of(alloc: Global, text: &str) -> Result<Course, Fail> {
    let tree = read(alloc, text.as_bytes())?;
    let course = Course::read(alloc, &tree);
    drop(tree);
    Ok(course?)
}

pub(crate) fn learner(alloc: Global) -> Result<Ifi, Fail> {
    let home = Text::of(alloc, "https://p.example")?;
    let name = Text::of(alloc, "k1")?;
    Ok(Ifi::Account { home, name })
}

/// No text of a statement was written before.
pub(crate) fn no_texts(alloc: Global) -> IntoIter<ReceivedText>
    ensures { into_iter_items result ≡ [] }
{
    Vec::new(alloc).into_iter()
}
