// By what a unit is met.
use crate::verdict::rows::{check_rows, check_unit, one_unit};
use std::alloc::Global;
use std::test::Fail;

// The words of moveOn for which the unit is met.
const ASKED: &str = r#"
nothing => none
completed:1 => Completed CompletedOrPassed
passed:1 => Passed CompletedOrPassed
completed:1 passed:1 => all
failed:1 => none
waived:1 => all
waived:1 waived:1 => all
waived:1 voids:1 => none
waived:1 voids:1 waived:1 => all
completed:1 voids:1 => none
completed:1 voids:1 completed:1 => Completed CompletedOrPassed
passed:1 voids:1 => none
passed:1 voids:1 passed:1 => Passed CompletedOrPassed
completed:1 passed:1 voids:1 => Passed CompletedOrPassed
completed:1 passed:1 voids:2 => Completed CompletedOrPassed
completed:1 passed:1 voids:1 completed:1 => all
completed:1 passed:1 voids:2 passed:1 => all
// the one that voids comes first
voids:2 passed:1 => none
// another registration, the node of another course, another category, another node
other-completed:1 other-passed:1 other-waived:1 => none
elsewhere-completed:1 undefined-completed:1 => none
completed:0 passed:0 waived:0 completed:10 passed:10 waived:10 => none
"#;

#[test]
fn a_unit_is_met_by_what_it_asks_for(rt: HostRuntime) -> Result<(), Fail> {
    check_each(rt.alloc())
}

fn check_each(alloc: Global) -> Result<(), Fail> {
    check_unit(alloc, "Passed", ASKED)?;
    check_unit(alloc, "Completed", ASKED)?;
    check_unit(alloc, "CompletedAndPassed", ASKED)?;
    check_unit(alloc, "CompletedOrPassed", ASKED)
}

// A unit that asks for nothing is met from the first, and its course is told once in a registration.
const NOTHING: &str = r#"
nothing => ++ 0
completed:1 => ++ 0
passed:1 => ++ 0
completed:1 passed:1 => ++ 0
completed:1 voids:1 completed:1 => ++ 0
passed:1 voids:1 passed:1 => ++ 0
failed:1 => ++ 0
waived:1 voids:1 => ++ 0
other-satisfied:0 => ++ 0
satisfied:0 => ++
satisfied:0 voids:1 => ++
"#;

#[test]
fn a_unit_that_asks_for_nothing_is_met(rt: HostRuntime) -> Result<(), Fail> {
    check_unasked(rt.alloc())
}

fn check_unasked(alloc: Global) -> Result<(), Fail> {
    let course = one_unit(alloc, "NotApplicable")?;
    let checked = check_rows(alloc, course.as_str(), NOTHING);
    drop(course);
    checked
}
