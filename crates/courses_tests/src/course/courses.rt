// What is read of a course, which courses are the same, and the words of modes.
use crate::failing::{same_text, wrong_row};
use crate::given::{course_of, iri};
use cmi5_course::{Course, Method, Mode, MoveOn, Node, NodeKind, Unit};
use lrs_json::{Number, Text};
use std::alloc::Global;
use std::test::Fail;

const SAMPLE: &str =
    "{\"id\":\"http://c/1\",\"title\":{\"en\":\"C\"},\"children\":[{\"kind\":\"block\",\"id\":\"http://c/b\",\"title\":{\"en\":\"B\"},\"children\":[{\"kind\":\"unit\",\"id\":\"http://c/u\",\"title\":{\"en\":\"U\"},\"url\":\"https://au.example/u\",\"moveOn\":\"CompletedAndPassed\",\"masteryScore\":0.8}]}]}";

// Blocks within and beside one another.
const NESTED: &str =
    "{\"id\":\"http://c/1\",\"title\":{\"en\":\"C\"},\"children\":[{\"kind\":\"block\",\"id\":\"http://c/b1\",\"title\":{\"en\":\"B\"},\"children\":[{\"kind\":\"unit\",\"id\":\"http://c/2\",\"title\":{\"en\":\"U\"},\"url\":\"http://a/u\"},{\"kind\":\"unit\",\"id\":\"http://c/3\",\"title\":{\"en\":\"U\"},\"url\":\"http://a/u\"}]},{\"kind\":\"unit\",\"id\":\"http://c/4\",\"title\":{\"en\":\"U\"},\"url\":\"http://a/u\"},{\"kind\":\"block\",\"id\":\"http://c/b5\",\"title\":{\"en\":\"B\"},\"children\":[{\"kind\":\"block\",\"id\":\"http://c/b6\",\"title\":{\"en\":\"B\"},\"children\":[{\"kind\":\"unit\",\"id\":\"http://c/7\",\"title\":{\"en\":\"U\"},\"url\":\"http://a/u\"}]}]},{\"kind\":\"unit\",\"id\":\"http://c/8\",\"title\":{\"en\":\"U\"},\"url\":\"http://a/u\"}]}";

fn kind_text(kind: NodeKind) -> &'static str {
    match kind {
        NodeKind::Course => "course",
        NodeKind::Block => "block",
        NodeKind::Unit => "unit",
    }
}

// The id, the kind and the number of the holder.
fn shown(alloc: Global, node: &Node) -> Result<String, Fail> {
    let id = node.id.text().as_str();
    let kind = kind_text(node.kind);
    match node.parent {
        Some(parent) => Ok(format!(in alloc; "{id} {kind} {parent}\n")?),
        None => Ok(format!(in alloc; "{id} {kind}\n")?),
    }
}

fn nodes_shown(alloc: Global, course: &Course) -> Result<String, Fail> {
    let mut text = String::new(alloc);
    for node in course.nodes() {
        let node = shown(alloc, node)?;
        text.push_str(node.as_str())?;
    }
    Ok(text)
}

fn nodes_of(alloc: Global, text: &str) -> Result<String, Fail> {
    let course = course_of(alloc, text)?;
    let nodes = nodes_shown(alloc, &course);
    drop(course);
    nodes
}

#[test]
fn the_sample_course_has_three_nodes(rt: HostRuntime) -> Result<(), Fail> {
    let nodes = nodes_of(rt.alloc(), SAMPLE)?;
    same_text(
        nodes.as_str(),
        "http://c/1 course\nhttp://c/b block 0\nhttp://c/u unit 1\n",
    )
}

const NESTED_NODES: &str = "http://c/1 course
http://c/b1 block 0
http://c/2 unit 1
http://c/3 unit 1
http://c/4 unit 0
http://c/b5 block 0
http://c/b6 block 5
http://c/7 unit 6
http://c/8 unit 0
";

#[test]
fn nodes_are_numbered_in_the_order_of_the_text(rt: HostRuntime) -> Result<(), Fail> {
    let nodes = nodes_of(rt.alloc(), NESTED)?;
    same_text(nodes.as_str(), NESTED_NODES)
}

fn is_text(text: &Option<Text>, wanted: &str) -> bool {
    match text {
        Some(text) => text.as_str() == wanted,
        None => false,
    }
}

fn is_number(number: &Option<Number>, wanted: &str) -> bool {
    match number {
        Some(number) => number.as_str() == wanted,
        None => false,
    }
}

fn is_sample_unit(unit: &Unit) -> bool {
    unit.url.as_str() == "https://au.example/u"
        && unit.move_on == MoveOn::CompletedAndPassed
        && unit.method == Method::AnyWindow
        && is_number(&unit.mastery_text, "0.8")
        && unit.parameters.is_none()
        && unit.entitlement.is_none()
}

fn unit_index(alloc: Global, course: &Course, id: &str) -> Result<Option<u32>, Fail> {
    let id = iri(alloc, id)?;
    Ok(course.unit(&id))
}

fn is_sample(alloc: Global, course: &Course) -> Result<bool, Fail> {
    Ok(
        course.id().text().as_str() == "http://c/1"
            && unit_index(alloc, course, "http://c/u")? == Some(2)
            && unit_index(alloc, course, "http://c/b")?.is_none()
            && course.unit_at(2).is_some_and(is_sample_unit)
            && course.unit_at(1).is_none()
            && course.unit_at(3).is_none()
            && course.node_at(3).is_none(),
    )
}

fn reads_sample(alloc: Global) -> Result<bool, Fail> {
    let course = course_of(alloc, SAMPLE)?;
    let result = is_sample(alloc, &course);
    drop(course);
    result
}

#[test]
fn the_unit_of_the_sample_course_is_read(rt: HostRuntime) -> Result<(), Fail> {
    assert!(rt; reads_sample(rt.alloc())?);
    Ok(())
}

const FULL: &str =
    "{\"id\":\"http://c/1\",\"title\":{\"en\":\"C\"},\"children\":[{\"kind\":\"unit\",\"id\":\"http://c/u\",\"title\":{\"en\":\"U\"},\"url\":\"http://a/u\",\"launchMethod\":\"OwnWindow\",\"masteryScore\":10e-1,\"launchParameters\":\"p\",\"entitlementKey\":\"k\",\"activityType\":\"http://t/1\"}]}";

fn is_full_unit(unit: &Unit) -> bool {
    unit.move_on == MoveOn::NotApplicable
        && unit.method == Method::OwnWindow
        && is_number(&unit.mastery_text, "10e-1")
        && is_text(&unit.parameters, "p")
        && is_text(&unit.entitlement, "k")
}

fn reads_full(alloc: Global) -> Result<bool, Fail> {
    let course = course_of(alloc, FULL)?;
    let result = course.unit_at(1).is_some_and(is_full_unit);
    drop(course);
    Ok(result)
}

#[test]
fn all_members_of_a_unit_are_read(rt: HostRuntime) -> Result<(), Fail> {
    assert!(rt; reads_full(rt.alloc())?);
    Ok(())
}

// Two courses, and whether they are one.
const SAME: [(&str, &str, bool); 8] = [
    (
        "{\"id\":\"http://c/1\",\"title\":{\"en\":\"C\"},\"children\":[{\"kind\":\"block\",\"id\":\"http://c/b\",\"title\":{\"en\":\"B\"},\"children\":[{\"kind\":\"unit\",\"id\":\"http://c/u\",\"title\":{\"en\":\"U\"},\"url\":\"https://au.example/u\",\"moveOn\":\"CompletedAndPassed\",\"masteryScore\":0.8}]}]}",
        "{\"id\":\"http://c/1\",\"title\":{\"en\":\"C\"},\"children\":[{\"kind\":\"block\",\"id\":\"http://c/b\",\"title\":{\"en\":\"B\"},\"children\":[{\"kind\":\"unit\",\"id\":\"http://c/u\",\"title\":{\"en\":\"U\"},\"url\":\"https://au.example/u\",\"moveOn\":\"CompletedAndPassed\",\"masteryScore\":0.80}]}]}",
        true,
    ),
    (
        "{\"id\":\"http://c/1\",\"title\":{\"en\":\"C\"},\"children\":[{\"kind\":\"block\",\"id\":\"http://c/b\",\"title\":{\"en\":\"B\"},\"children\":[{\"kind\":\"unit\",\"id\":\"http://c/u\",\"title\":{\"en\":\"U\"},\"url\":\"https://au.example/u\",\"moveOn\":\"CompletedAndPassed\",\"masteryScore\":0.8}]}]}",
        "{\"id\":\"http://c/1\",\"title\":{\"en\":\"C\"},\"children\":[{\"kind\":\"block\",\"id\":\"http://c/b\",\"title\":{\"en\":\"B\"},\"children\":[{\"kind\":\"unit\",\"id\":\"http://c/u\",\"title\":{\"en\":\"U\"},\"url\":\"https://au.example/u\",\"moveOn\":\"CompletedAndPassed\",\"masteryScore\":8e-1}]}]}",
        true,
    ),
    (
        "{\"id\":\"http://c/1\",\"title\":{\"en\":\"C\"},\"children\":[{\"kind\":\"block\",\"id\":\"http://c/b\",\"title\":{\"en\":\"B\"},\"children\":[{\"kind\":\"unit\",\"id\":\"http://c/u\",\"title\":{\"en\":\"U\"},\"url\":\"https://au.example/u\",\"moveOn\":\"CompletedAndPassed\",\"masteryScore\":0.8}]}]}",
        "{\"id\":\"http://c/1\",\"title\":{\"en\":\"C\"},\"children\":[{\"kind\":\"block\",\"id\":\"http://c/b\",\"title\":{\"en\":\"B\"},\"children\":[{\"kind\":\"unit\",\"id\":\"http://c/u\",\"title\":{\"en\":\"U\"},\"url\":\"https://au.example/u\",\"moveOn\":\"CompletedAndPassed\",\"masteryScore\":0.81}]}]}",
        false,
    ),
    (
        "{\"id\":\"http://c/1\",\"title\":{\"en\":\"C\"},\"children\":[{\"kind\":\"unit\",\"id\":\"http://c/u\",\"title\":{\"en\":\"U\"},\"url\":\"http://a/u\"}]}",
        "{\"children\":[{\"url\":\"http://a/u\",\"title\":{\"en\":\"U\"},\"id\":\"http://c/u\",\"kind\":\"unit\"}],\"title\":{\"en\":\"C\"},\"id\":\"http://c/1\"}",
        true,
    ),
    (
        "{\"id\":\"http://c/1\",\"title\":{\"en\":\"C\"},\"children\":[{\"kind\":\"unit\",\"id\":\"http://c/u\",\"title\":{\"en\":\"U\"},\"url\":\"http://a/u\"}]}",
        "{\"id\":\"http://c/1\",\"title\":{\"en\":\"C\"},\"children\":[{\"kind\":\"unit\",\"id\":\"http://c/u\",\"title\":{\"en\":\"U\"},\"url\":\"http://a/u\",\"moveOn\":\"NotApplicable\"}]}",
        false,
    ),
    (
        "{\"id\":\"http://c/1\",\"title\":{\"en\":\"C\"},\"children\":[{\"kind\":\"unit\",\"id\":\"http://c/u\",\"title\":{\"en\":\"U\"},\"url\":\"http://a/u\"},{\"kind\":\"unit\",\"id\":\"http://c/v\",\"title\":{\"en\":\"U\"},\"url\":\"http://a/u\"}]}",
        "{\"id\":\"http://c/1\",\"title\":{\"en\":\"C\"},\"children\":[{\"kind\":\"unit\",\"id\":\"http://c/v\",\"title\":{\"en\":\"U\"},\"url\":\"http://a/u\"},{\"kind\":\"unit\",\"id\":\"http://c/u\",\"title\":{\"en\":\"U\"},\"url\":\"http://a/u\"}]}",
        false,
    ),
    (
        "{\"id\":\"http://c/1\",\"title\":{\"en\":\"C\"},\"children\":[{\"kind\":\"unit\",\"id\":\"http://c/u\",\"title\":{\"en\":\"U\"},\"url\":\"http://a/u\"}]}",
        "{\"id\":\"http://c/1\",\"title\":{\"en\":\"C\"},\"children\":[{\"kind\":\"unit\",\"id\":\"http://c/u\",\"title\":{\"en\":\"U\"},\"url\":\"http://a/u#\"}]}",
        false,
    ),
    (
        "{\"id\":\"http://c/1\",\"title\":{\"en\":\"C\"},\"children\":[{\"kind\":\"unit\",\"id\":\"http://c/u\",\"title\":{\"en\":\"U\"},\"url\":\"http://a/u\"}]}",
        "{\"id\":\"http://c/1\",\"title\":{\"en\":\"D\"},\"children\":[{\"kind\":\"unit\",\"id\":\"http://c/u\",\"title\":{\"en\":\"U\"},\"url\":\"http://a/u\"}]}",
        false,
    ),
];

// Whether both comparisons of the first course with the second answer what is wanted.
fn are_compared_as(alloc: Global, first: &str, second: &str, wanted: bool) -> Result<bool, Fail> {
    let course = course_of(alloc, first)?;
    let right = is_compared_as(alloc, &course, second, wanted);
    drop(course);
    right
}

fn is_compared_as(alloc: Global, course: &Course, text: &str, wanted: bool) -> Result<bool, Fail> {
    let other = course_of(alloc, text)?;
    let same = course.same_course(&other);
    let spelled = course.is_spelled(other.tree());
    drop(other);
    Ok(same == wanted && spelled == wanted)
}

#[test]
fn courses_are_the_same_in_any_order_and_spelling(rt: HostRuntime) -> Result<(), Fail> {
    let alloc = rt.alloc();
    for (i, (first, second, wanted)) in SAME.iter().enumerate() {
        if !are_compared_as(alloc, first, second, *wanted)?
            || !are_compared_as(alloc, second, first, *wanted)?
        {
            return wrong_row(i);
        }
    }
    Ok(())
}

// ---- words

const MODES: [(&str, Option<Mode>); 6] = [
    ("Normal", Some(Mode::Normal)),
    ("Browse", Some(Mode::Browse)),
    ("Review", Some(Mode::Review)),
    ("normal", None),
    ("", None),
    ("Normal ", None),
];

#[test]
fn modes_have_their_words() -> Result<(), Fail> {
    for (i, (text, wanted)) in MODES.iter().enumerate() {
        if Mode::of(text) != *wanted {
            return wrong_row(i);
        }
    }
    Ok(())
}
