// What is told of a course, as a text of rows: what was said, and after `=>` what is told.
//
//   WORD WORD.. => TOLD
//
// What was said are the words of `said`; those behind a bar are new. What is told is `+` or `-` for each node, satisfied
// or not, then the numbers of those of which that is still to be said, in their order. Of a unit, rows may tell instead
// for which words of moveOn it is met, or `all`, or `none`. A line after `//` is none.
use crate::given::{course_of, iri};
use crate::verdict::said::{Both, OWN, both_of, with_parts};
use cmi5_course::Course;
use cmi5_verdict::{Enrolment, Statements, owed, verdicts};
use lrs_names::Id;
use std::alloc::Global;
use std::test::Fail;

const ONE_UNIT: &str =
    r#"{"id":"http://c/1","title":{"en":"C"},"children":[{"kind":"unit","id":"http://c/u","title":{"en":"U"},"url":"http://a/u","moveOn":"ASKED"}]}"#;

// What is told of a course of one unit that is met, and of one that isn't.
const MET: &str = "++ 0";

const UNMET: &str = "--";

/// Fails with the first row of this course of which something else is told, and that.
pub(crate) fn check_rows(alloc: Global, course: &str, rows: &str) -> Result<(), Fail> {
    check(alloc, course, "", rows)
}

/// The same of a course of one unit that has this moveOn. Its rows tell for which words it is met.
pub(crate) fn check_unit(alloc: Global, asked: &str, rows: &str) -> Result<(), Fail> {
    let course = one_unit(alloc, asked)?;
    let checked = check(alloc, course.as_str(), asked, rows);
    drop(course);
    checked
}

fn check(alloc: Global, course: &str, asked: &str, rows: &str) -> Result<(), Fail> {
    let course = course_of(alloc, course)?;
    let checked = check_each(alloc, &course, asked, rows);
    drop(course);
    checked
}

fn check_each(alloc: Global, course: &Course, asked: &str, rows: &str) -> Result<(), Fail> {
    for row in rows.lines() {
        let wrong = wrong_row(alloc, course, asked, row)?;
        if !wrong.is_empty() {
            return Err(Fail::from(wrong));
        }
    }
    Ok(())
}

/// A course of one unit that has this moveOn.
pub(crate) fn one_unit(alloc: Global, asked: &str) -> Result<String, Fail> {
    let parts = [("ASKED", asked)];
    with_parts(alloc, ONE_UNIT, &parts)
}

// What was said in this row and what is told, if something else was expected.
fn wrong_row(alloc: Global, course: &Course, asked: &str, row: &str) -> Result<String, Fail> {
    if row.is_empty() || row.starts_with("//") {
        return Ok(String::new(alloc));
    }
    let (said, told) = row.split_once(" => ").ok_or("nothing is told")?;
    let found = answer(alloc, course, said)?;
    if found.as_str() == expected(told, asked) {
        Ok(String::new(alloc))
    } else {
        Ok(format!(in alloc; "{said} => {found} {asked}")?)
    }
}

fn expected<'a>(told: &'a str, asked: &str) -> &'a str {
    if asked.is_empty() {
        return told;
    }
    for word in told.split(' ') {
        if word == asked || word == "all" {
            return MET;
        }
    }
    UNMET
}

// ---- what is told

fn answer(alloc: Global, course: &Course, said: &str) -> Result<String, Fail> {
    let both = both_of(alloc, said)?;
    let told = answer_over(alloc, course, &both);
    drop(both);
    told
}

fn answer_over(alloc: Global, course: &Course, both: &Both) -> Result<String, Fail> {
    let registration = own()?;
    let base = iri(alloc, BASE)?;
    let statements = Statements {
        held: &both.held,
        new: both.new.as_slice(),
    };
    let enrolment = Enrolment {
        registration: &registration,
        base: &base,
        course: 0,
        nodes: course.nodes(),
    };
    let told = told(alloc, &statements, &enrolment);
    drop(base);
    told
}

fn told(
    alloc: Global,
    statements: &Statements<'_>,
    enrolment: &Enrolment<'_>,
) -> Result<String, Fail> {
    let mut told = String::new(alloc);
    put_verdicts(alloc, statements, enrolment, &mut told)?;
    put_owed(alloc, statements, enrolment, &mut told)?;
    Ok(told)
}

fn put_verdicts(
    alloc: Global,
    statements: &Statements<'_>,
    enrolment: &Enrolment<'_>,
    told: &mut String,
) -> Result<(), Fail> {
    let each = verdicts(alloc, statements, enrolment)?;
    for verdict in each.as_slice() {
        told.push_str(sign(*verdict))?;
    }
    Ok(())
}

/// How an answer is shown.
pub(crate) fn sign(told: bool) -> &'static str {
    if told { "+" } else { "-" }
}

fn put_owed(
    alloc: Global,
    statements: &Statements<'_>,
    enrolment: &Enrolment<'_>,
    told: &mut String,
) -> Result<(), Fail> {
    let indices = owed(alloc, statements, enrolment)?;
    for index in indices.as_slice() {
        write!(told, " {index}")?;
    }
    Ok(())
}

// ---- the course and its names

/// The address that the store's own names begin with.
pub(crate) const BASE: &str = "http://s/";

/// The registration that is asked about.
pub(crate) fn own() -> Result<Id, Fail> {
    Ok(Id::read(OWN.as_bytes()).ok_or("no id")?)
}
